//! The assembler: lines with labels become the bytes of a program.
#![tactic(auto)]

mod assembly;
mod emit;
mod laws;
mod line;
mod places;
mod sizes;

pub use assembly::assemble;
pub use laws::{code_has_its_size, lines_are_read_back};
pub use line::{AsmFault, JumpKind, Labels, Line, Lines, TableKind};
pub use sizes::size;
