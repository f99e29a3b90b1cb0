//! The text that tells how a run ended.
#![tactic(auto)]

mod ledger_text;
mod lines;
mod ran_text;

pub use ran_text::push_ran;
