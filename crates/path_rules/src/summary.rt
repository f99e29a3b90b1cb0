//! What notes do to the variables.

use puya_base::{List, Place};

/// A set of the ways out of notes: behind the last one, behind the `if` or the loop that is left, by `break`, by `continue`.
#[derive(Clone, Copy, Debug, PartialEq, Eq)]
pub(crate) struct Exits {
    pub goes: bool,
    pub leaves: bool,
    pub breaks: bool,
    pub continues: bool,
}

/// How walks end with a variable unassigned: the exits, and the first of the reads of it to which they come.
#[derive(Clone, Copy, Debug, PartialEq, Eq)]
pub(crate) struct Endings {
    pub exits: Exits,
    pub read: Option<Place>,
}

/// The endings of walks that begin with the variable unassigned, and of those that begin with it assigned.
#[derive(Clone, Copy, Debug, PartialEq, Eq)]
pub(crate) struct Effect {
    pub unassigned: Endings,
    pub assigned: Endings,
}

/// A variable that notes name, and what they do to it.
#[derive(Clone, Copy, Debug, PartialEq, Eq)]
pub(crate) struct Touched {
    pub variable: u32,
    pub effect: Effect,
}

/// What notes do: the exits that walks have at all, which are those of a variable that is never named, and what is done to
/// each variable that is named, the least number first.
#[derive(Drop)]
pub(crate) struct Summary {
    pub others: Exits,
    pub touched: List<Touched>,
}

/// What stands around notes.
#[derive(Clone, Copy, Debug, PartialEq, Eq)]
pub(crate) enum Frame {
    /// An arm of an `if`, and whether its test is the literal `True`.
    Arm(bool),
    If,
    Loop,
}
