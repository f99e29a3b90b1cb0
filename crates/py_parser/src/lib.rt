//! Tokens of a source to the one tree that derives them.
#![tactic(auto)]

mod answer;
mod atom;
mod build;
mod class;
mod cursor;
mod expression;
mod func;
mod import;
mod kinds;
mod level;
mod lexeme;
mod lexemes;
mod module;
mod place;
mod postfix;
mod signature;
mod simple;
mod statement;
mod types;

pub use answer::parse;
pub use py_grammar::{
    Arg, BinaryOp, Block, Branch, Class, CompareOp, ConstValue, Exprs, Func, Import, Item, Literal,
    Member, Module, Param, Simple, Stmt, Tree, TypeArg, TypeTree, UnaryOp, UpdateOp, Word,
};
