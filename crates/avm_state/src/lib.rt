//! The state that a call of a smart contract reads and writes: the ledger, the call, and the steps on them.
#![tactic(auto)]

mod box_steps;
mod bytes_map;
mod call;
mod copied;
mod global_steps;
mod ledger;
mod local_map;
mod local_steps;
mod log_steps;
mod readers;

pub use call::Call;
pub use ledger::Ledger;
