//! Typed expressions.

use crate::primitive::Primitive;
use crate::ty::Ty;
use puya_base::{Blob, Boxed, List, Place};

pub type Exprs = List<Expr>;

/// For each part of a call, in reading order, the number of its parameter.
pub type Order = List<u32>;

/// An expression: its place in the source, its type, and what it is.
#[cycle(expr)]
#[derive(Drop)]
pub struct Expr {
    pub place: Place,
    pub ty: Ty,
    pub kind: ExprKind,
}

/// What an expression is.
#[cycle(expr)]
#[derive(Drop)]
pub enum ExprKind {
    /// A number literal.
    Int(u64),
    /// `True` or `False`.
    Flag(bool),
    /// A bytes or text literal, of at most 4096 bytes.
    Data(Blob),
    /// A parameter or a local variable, by its number: the parameters come first.
    Local(u32),
    /// An operator or a form of the library, and its parts.
    Prim(Primitive, Exprs),
    /// `and`: the right part is evaluated only where the left is `True`.
    And(Boxed<Expr>, Boxed<Expr>),
    /// `or`: the right part is evaluated only where the left is `False`.
    Or(Boxed<Expr>, Boxed<Expr>),
    /// The condition, the value if it holds, the value if it does not.
    Choose(Boxed<Expr>, Boxed<Expr>, Boxed<Expr>),
    /// A tuple of its parts.
    Tuple(Exprs),
    /// A part of a value.
    Item(Boxed<Expr>, Index),
    /// A call of a function, by its number; the parts in reading order, and the parameter of each.
    Call(u32, Exprs, Order),
}

/// Which part of a value.
#[cycle(expr)]
#[derive(Drop)]
pub enum Index {
    /// That of a tuple, from 0.
    Fixed(u32),
    /// That of an array, from 0.
    At(Boxed<Expr>),
}
