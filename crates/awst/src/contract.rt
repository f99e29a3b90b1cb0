//! Functions and contracts.

use crate::statement::Stmts;
use crate::ty::{Ty, Tys};
use puya_base::{List, Name};

pub type Funcs = List<Func>;

/// A function. Its variables are its parameters, and then its locals.
#[derive(Drop)]
pub struct Func {
    pub name: Name,
    pub params: Tys,
    /// `Nothing` where it gives no value.
    pub result: Ty,
    /// The variables besides the parameters, also those that are only annotated.
    pub locals: Tys,
    pub body: Stmts,
}

/// A contract. Functions are named by their numbers in `funcs`.
#[derive(Drop)]
pub struct Contract {
    pub name: Name,
    /// Whether its class is an ARC4Contract.
    pub arc4: bool,
    pub funcs: Funcs,
    /// What an approval program runs; none exactly for an ARC4Contract.
    pub approval: Option<u32>,
    /// What a clear state program runs; where there is none it approves.
    pub clear: Option<u32>,
    /// `__init__`, which runs first in a creating call.
    pub init: Option<u32>,
}
