//! Whether a source uses a form of the language that is not built yet.
#![tactic(auto)]

mod imports;
mod names;
mod uses;

pub use uses::is_unbuilt;
