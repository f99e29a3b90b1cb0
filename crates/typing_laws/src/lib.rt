//! Laws over the definitions of the type checker.
#![tactic(auto)]

mod sound;
mod typed;

pub use sound::checked_contracts_are_sound;
pub use typed::unbroken_modules_are_typed;
