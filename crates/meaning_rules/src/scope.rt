//! What an expression sees.

use puya_base::{List, Name};
use source_names::{Constant, Entry, Signature, SourceType};

/// Whether a variable's type is fixed, by its first assignment or annotation in reading order. It is not known where that breaks a rule.
#[derive(Drop)]
pub enum Status {
    Unseen,
    Fixed(Option<SourceType>),
}

/// A variable of a function.
#[derive(Drop)]
pub struct Local {
    pub name: Name,
    pub status: Status,
}

/// A function of the class that can be called on `self`, and its number among the contract's functions.
#[derive(Drop)]
pub struct Method {
    pub name: Name,
    pub function: u32,
}

/// What the expressions of a function see.
#[derive(Drop)]
pub struct Scope {
    pub entries: List<Entry>,
    pub constants: List<Constant>,
    /// The functions of the module, and then those of the class.
    pub functions: List<Signature>,
    pub methods: List<Method>,
    /// Whether `self` is a parameter.
    pub myself: bool,
    /// The parameters but `self`, and then the other variables.
    pub locals: List<Local>,
}
