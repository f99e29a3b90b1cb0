//! What the body of a function does as far as paths go, and the first rule on paths that it breaks.
#![tactic(auto)]

mod answer;
mod digest;
mod endings;
mod joining;
mod merging;
mod note;
mod order;
mod summary;
mod told;

pub use answer::broken;
pub use note::{Note, NoteArm, Notes};
