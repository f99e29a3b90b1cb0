//! Signatures of functions.

use crate::types::SourceType;
use puya_base::{List, Name, Place};

/// A parameter: its name, where it stands, and its type where that is known.
#[derive(Drop)]
pub struct Parameter {
    pub name: Name,
    pub place: Place,
    pub ty: Option<SourceType>,
}

/// The parameters of a function but `self`, and the type of its result where that is known.
#[derive(Drop)]
pub struct Signature {
    pub params: List<Parameter>,
    pub result: Option<SourceType>,
}
