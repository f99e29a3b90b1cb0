//! Statements (Python reference, chapters 7 and 8). Each variant has the place of its first token.

use crate::expression::{Exprs, Tree};
use crate::type_tree::TypeTree;
use crate::word::Word;
use puya_base::{List, Place};

/// The operators of augmented assignments (Python reference 7.2.1).
#[derive(Clone, Copy, Debug, PartialEq, Eq)]
pub enum UpdateOp {
    Add,
    Sub,
    Mul,
    FloorDiv,
    Mod,
    Power,
    BitAnd,
    BitOr,
    BitXor,
    ShiftLeft,
    ShiftRight,
}

/// A statement of one line (Python reference, chapter 7).
#[derive(Drop)]
pub enum Simple {
    /// `pass` (7.4).
    Pass(Place),
    /// `break` (7.9).
    Break(Place),
    /// `continue` (7.10).
    Continue(Place),
    /// `return`, and what is returned (7.6).
    Return(Place, Option<Exprs>),
    /// `assert`, its condition, and what is said where it does not hold (7.3).
    Assert(Place, Tree, Option<Tree>),
    /// `del`, and what is deleted (7.5).
    Del(Place, Tree),
    /// Expressions (7.1).
    Value(Exprs),
    /// An assignment: the targets, and the values (7.2).
    Assign(Exprs, Exprs),
    /// An augmented assignment (7.2.1).
    Update(Exprs, UpdateOp, Tree),
    /// An annotation, and the values (7.2.2).
    Annotate(Exprs, TypeTree, Option<Exprs>),
}

/// A statement.
#[cycle(stmt)]
#[derive(Drop)]
pub enum Stmt {
    /// A statement of one line (chapter 7).
    Simple(Simple),
    /// `if` with its condition and block, the branches of `elif`, and the block of `else` (8.1).
    If(Place, Tree, Block, List<Branch>, Option<Block>),
    /// `while` (8.2).
    While(Place, Tree, Block),
    /// `for` (8.3).
    For(Place, Word, Tree, Block),
}

/// A branch of `elif` (8.1).
#[cycle(stmt)]
#[derive(Drop)]
pub struct Branch {
    pub place: Place,
    pub test: Tree,
    pub block: Block,
}

/// What a compound statement governs (chapter 8, `suite`).
#[cycle(stmt)]
#[derive(Drop)]
pub enum Block {
    /// A statement on the same line.
    Line(Simple),
    /// Lines that stand further in.
    Lines(List<Stmt>),
}
