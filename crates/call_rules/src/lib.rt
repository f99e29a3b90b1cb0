//! What a call means, from what is called and from its arguments.
#![tactic(auto)]

mod applying;
mod arguments;
mod callee;
mod calling;
mod fitting;
mod hexadecimal;
mod ranges_called;
mod slots;
mod types_called;

pub use applying::applied;
pub use arguments::{Known, given, slot_hope, tell_slot};
pub use callee::{Callee, Slot, called, hope_at, takes_literal};
pub use slots::{Used, slot_for};
