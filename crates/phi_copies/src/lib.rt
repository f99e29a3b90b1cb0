//! Parallel copies as moves that a machine does one after another.
#![tactic(auto)]

mod copies;
mod path;
mod segment;
mod sequencing;

pub use copies::{Copies, Moves, Pair, Pairs};
pub use sequencing::sequence;
