//! One line of TEAL text: its words, what they say, and how a statement is printed.
#![tactic(auto)]

mod bytes;
mod cutting;
mod labels;
mod laws;
mod names;
mod numbers;
mod operands;
mod printing;
mod reading;
mod statement;

pub use cutting::words;
pub use laws::statements_read_back;
pub use printing::push_statement;
pub use reading::said;
pub use statement::{Flaw, Names, Statement};
