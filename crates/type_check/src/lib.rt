//! Trees of a source to typed contracts, or the first rule that is broken.
#![tactic(auto)]

mod assembling;
mod contracts;
mod functions;
mod order;
mod scoping;
mod types;

pub use contracts::check;
