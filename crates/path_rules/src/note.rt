//! Notes on the body of a function.

use puya_base::{List, Place, Refusal};

/// What is noted of statements, in reading order.
pub type Notes = List<Note>;

/// What a statement, or a part of one, does as far as paths go, or a rule that it breaks. Variables go by their numbers.
#[cycle(note)]
#[derive(Drop)]
pub enum Note {
    /// A rule is broken.
    Broken(Refusal),
    /// A read of a variable, and where it stands.
    Read(u32, Place),
    Assign(u32),
    /// The variable counts as unassigned from here on.
    Forget(u32),
    /// The arms of an `if`, of which the first whose test holds is taken, and the rest, which is taken where none does.
    If(List<NoteArm>, List<Note>),
    /// What is done before each turn of a loop, whether the loop can end there, and its body.
    Loop(List<Note>, bool, List<Note>),
    Break(Place),
    Continue(Place),
    Return,
}

/// An arm of an `if`.
#[cycle(note)]
#[derive(Drop)]
pub struct NoteArm {
    pub test: List<Note>,
    /// Whether the test is the literal `True`: then no path goes past the arm.
    pub always: bool,
    pub body: List<Note>,
}
