//! What an expression says.

use awst::Expr;
use puya_base::{Blob, List, Place};
use source_names::{SourceType, Thing};

/// What is hoped of a value that may be a literal.
#[derive(Drop)]
pub enum Hope {
    Wants(SourceType),
    /// Nothing is expected.
    Free,
    /// It is not known, for a rule that is broken elsewhere.
    Unknown,
}

/// What is expected of an expression: as a whole, or part by part.
#[derive(Drop)]
pub enum Expect {
    One(Hope),
    Each(List<Hope>),
}

/// Where an expression stands.
#[derive(Drop)]
pub struct Context {
    pub expect: Expect,
    /// Whether its value gets a second name there: it is assigned, handed on or kept.
    pub copying: bool,
}

/// A typed expression and its source type.
#[derive(Drop)]
pub struct Typed {
    pub ty: SourceType,
    pub expr: Expr,
}

/// A literal, which has no type of its own.
#[derive(Drop)]
pub enum Lit {
    Number(u64),
    Text(Blob),
    Bytes(Blob),
}

/// The numbers that a `for` goes over.
#[derive(Drop)]
pub struct Range {
    pub start: Option<Expr>,
    pub stop: Expr,
    pub step: u64,
}

/// What an expression says.
#[derive(Drop)]
pub enum Meaning {
    Value(Typed),
    /// A literal, at its own place.
    Literal(Place, Lit),
    /// A name that is no value.
    Thing(Thing),
    Range(Range),
    /// Nothing is known, for a rule that it or a part of it breaks.
    Unknown,
}
