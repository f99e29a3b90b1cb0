//! What names stand for.

use algopy_library::{Member, Row};
use puya_base::{Name, Place};

/// What a name stands for that is no local variable.
#[derive(Clone, Copy, Debug, PartialEq, Eq)]
pub enum Thing {
    Library(Row),
    /// What stands behind a name of the library and a point, and is no value.
    Member(Member),
    /// A constant of the module, by its number.
    Constant(u32),
    /// A function of the module, by its number.
    Function(u32),
    /// A class of the module, by its number.
    Class(u32),
    /// A method of the contract, by its number among the contract's functions.
    Method(u32),
    /// `self`.
    Myself,
    /// A variable, which is no type.
    Variable,
    /// A name whose definition breaks a rule.
    Unknown,
}

/// A name that a line of the module defines, where it stands, and what it stands for.
#[derive(Drop)]
pub struct Entry {
    pub name: Name,
    pub place: Place,
    pub thing: Thing,
}
