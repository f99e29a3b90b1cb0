//! Expressions (Python reference, chapter 6). Each variant has the place of its first token.

use crate::word::{Literal, Word};
use puya_base::{Boxed, List, Place};

/// The operators with two operands that group to the left (Python reference 6.7, 6.8, 6.9, 6.11).
#[derive(Clone, Copy, Debug, PartialEq, Eq)]
pub enum BinaryOp {
    Or,
    And,
    BitOr,
    BitXor,
    BitAnd,
    ShiftLeft,
    ShiftRight,
    Add,
    Sub,
    Mul,
    Div,
    FloorDiv,
    Mod,
}

/// The comparisons (Python reference 6.10).
#[derive(Clone, Copy, Debug, PartialEq, Eq)]
pub enum CompareOp {
    Less,
    Greater,
    AtMost,
    AtLeast,
    Equal,
    NotEqual,
    In,
    NotIn,
}

/// The operators with one operand, which stand before it (Python reference 6.6, 6.11).
#[derive(Clone, Copy, Debug, PartialEq, Eq)]
pub enum UnaryOp {
    Plus,
    Minus,
    Invert,
    Not,
}

/// An expression.
#[cycle(tree)]
#[derive(Drop)]
pub enum Tree {
    /// A name (6.2.1).
    Name(Word),
    /// An integer (6.2.2).
    Number(Literal),
    /// Strings side by side (6.2.2).
    Text(Place, List<Literal>),
    /// Bytes literals side by side (6.2.2).
    Bytes(Place, List<Literal>),
    /// `True` or `False`.
    Flag(Place, bool),
    /// Parentheses, what stands in them, and whether a comma stands behind the last (6.2.3).
    Paren(Place, List<Tree>, bool),
    /// Brackets, what stands in them, and whether a comma stands behind the last (6.2.5).
    Display(Place, List<Tree>, bool),
    /// A member of a value (6.3.1).
    Member(Place, Boxed<Tree>, Word),
    /// A subscript, and whether a comma stands behind its last expression (6.3.2).
    Index(Place, Boxed<Tree>, List<Tree>, bool),
    /// A slice from an index on, up to an index (6.3.3).
    Slice(Place, Boxed<Tree>, Option<Boxed<Tree>>, Option<Boxed<Tree>>),
    /// A call, and whether a comma stands behind its last argument (6.3.4).
    Call(Place, Boxed<Tree>, List<Arg>, bool),
    /// A power (6.5).
    Power(Place, Boxed<Tree>, Boxed<Tree>),
    /// An operator before its operand (6.6, 6.11).
    Unary(Place, UnaryOp, Boxed<Tree>),
    /// An operator between its operands (6.7, 6.8, 6.9, 6.11).
    Binary(Place, BinaryOp, Boxed<Tree>, Boxed<Tree>),
    /// A comparison (6.10).
    Compare(Place, CompareOp, Boxed<Tree>, Boxed<Tree>),
    /// The value if the condition holds, the condition, and the value if it does not (6.13).
    Choose(Place, Boxed<Tree>, Boxed<Tree>, Boxed<Tree>),
}

/// An argument of a call (6.3.4).
#[cycle(tree)]
#[derive(Drop)]
pub enum Arg {
    Keyed(Word, Tree),
    Plain(Tree),
}

/// One or more expressions, and whether a comma stands behind the last (6.15).
#[derive(Drop)]
pub struct Exprs {
    pub items: List<Tree>,
    pub comma: bool,
}
