//! What a part of an expression is, where it has to be a value.

use crate::meaning::{Lit, Typed};
use awst::Expr;
use puya_base::Place;

/// A part that has to be a value: a value, a literal at its own place, which has no type yet, or nothing that is known.
#[derive(Drop)]
pub enum Operand {
    Value(Typed),
    Literal(Place, Lit),
    Missing,
}

/// An end of a slice: absent, a number, or nothing that is known.
#[derive(Drop)]
pub enum End {
    Absent,
    Number(Expr),
    Broken,
}
