//! Bytes of a source to the programs of its contracts, or the first rule that the source breaks.
#![tactic(auto)]

mod build;
mod compiling;
mod form;
mod programs;
mod tree;

pub use build::{Build, Builds, CompileFault};
pub use compiling::compile;
pub use form::{Operator, Sum};
pub use programs::{clear_program_serves, program_serves};
