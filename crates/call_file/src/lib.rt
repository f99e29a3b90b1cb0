//! A saved call of an application, read from JSON (RFC 8259): the call, and the ledger that it finds.
#![tactic(auto)]

mod entries;
mod fault;
mod field;
mod forms;
mod lists;
mod load;
mod parts;
mod read;
mod saved;
mod values;

pub use fault::CallFault;
pub use read::read_call;
pub use saved::Saved;
