//! Functions, classes and modules (Python reference 7.11, 8.7, 8.8 and 9.2).

use crate::expression::Tree;
use crate::statement::Block;
use crate::type_tree::TypeTree;
use crate::word::{Literal, Word};
use puya_base::{List, Place};

/// A parameter of a function, and its annotation (8.7).
#[derive(Drop)]
pub struct Param {
    pub name: Word,
    pub annotation: Option<TypeTree>,
}

/// A function (8.7).
#[derive(Drop)]
pub struct Func {
    /// The place of the first token, which is `@` where there are decorators.
    pub place: Place,
    pub decorators: List<Tree>,
    /// The place of `def`.
    pub def: Place,
    pub name: Word,
    pub params: List<Param>,
    /// Whether a comma stands behind the last parameter.
    pub comma: bool,
    pub result: Option<TypeTree>,
    pub body: Block,
}

/// What stands in a class (8.8).
#[derive(Drop)]
pub enum Member {
    Text(Place, List<Literal>),
    Pass(Place),
    Field(Word, TypeTree),
    Func(Func),
}

/// A class (8.8).
#[derive(Drop)]
pub struct Class {
    pub place: Place,
    pub name: Word,
    pub base: List<Word>,
    pub members: List<Member>,
}

/// A name that an import brings in, and the name that it gets (7.11).
#[derive(Drop)]
pub struct Import {
    pub name: Word,
    pub known_as: Option<Word>,
}

/// What a constant of a module is.
#[derive(Drop)]
pub enum ConstValue {
    Number(Literal),
    Text(Place, List<Literal>),
    Bytes(Place, List<Literal>),
    Flag(Place, bool),
}

/// What stands in a module (9.2).
#[derive(Drop)]
pub enum Item {
    /// A text, which is a docstring.
    Text(Place, List<Literal>),
    /// `import` of a module, and the name that it gets (7.11).
    Import(Place, List<Word>, Option<Word>),
    /// `from` a module, names with commas between (7.11).
    From(Place, List<Word>, List<Import>),
    /// `from` a module, names in parentheses, and whether a comma stands behind the last (7.11).
    FromParen(Place, List<Word>, List<Import>, bool),
    /// A constant (7.2).
    Const(Word, ConstValue),
    Func(Func),
    Class(Class),
}

/// A module (9.2).
#[derive(Drop)]
pub struct Module {
    pub items: List<Item>,
}
