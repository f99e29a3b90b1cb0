//! Typed statements.

use crate::expression::Expr;
use crate::primitive::Primitive;
use puya_base::{Blob, List, Place};

pub type Stmts = List<Stmt>;

pub type Arms = List<Arm>;

pub type MatchArms = List<MatchArm>;

pub type Targets = List<Target>;

/// Where an assignment puts a value.
#[derive(Drop)]
pub enum Target {
    /// A parameter or a local variable, by its number.
    Local(u32),
}

/// A statement: the place of its first token, and what it is.
#[cycle(stmt)]
#[derive(Drop)]
pub struct Stmt {
    pub place: Place,
    pub kind: StmtKind,
}

/// What a statement is.
#[cycle(stmt)]
#[derive(Drop)]
pub enum StmtKind {
    /// An assignment to one target, or of a tuple's parts to several; the operator of an augmented one.
    Assign(Targets, Option<Primitive>, Expr),
    /// An expression whose value is not used.
    Drop(Expr),
    /// `assert`.
    Assert(Expr),
    /// One arm for `if` and for each `elif`, and the rest.
    If(Arms, Stmts),
    /// The condition and the body.
    While(Expr, Stmts),
    /// `for` over `urange`: the variable, the start, which is 0 where there is none, the stop, the step from 1, the body.
    Range(u32, Option<Expr>, Expr, u64, Stmts),
    /// `for` over a value: the variable, the value, the body.
    Each(u32, Expr, Stmts),
    Break,
    Continue,
    /// `return`, with the value of a function that has a result.
    Return(Option<Expr>),
    /// Rejects the call.
    Fail,
    /// The first literal that equals the value picks its arm, and where none does the rest is done.
    Match(Expr, MatchArms, Stmts),
}

/// A condition, and what is done where it is the first that holds.
#[cycle(stmt)]
#[derive(Drop)]
pub struct Arm {
    pub condition: Expr,
    pub body: Stmts,
}

/// A literal of at most 4096 bytes, and what is done where it is the first that equals the value.
#[cycle(stmt)]
#[derive(Drop)]
pub struct MatchArm {
    pub literal: Blob,
    pub body: Stmts,
}
