//! What a typed contract prescribes at a bound, computed step by step as its meaning is defined.
#![tactic(auto)]

mod assigned;
mod computing;
mod datum;
mod entry;
mod flow;
mod form;
mod frame;
mod meaning;
mod moment;
mod needs;
mod prices;
mod seen;
mod stop;
mod variables;
mod world;

pub use entry::evaluate;
pub use moment::{Ending, Moment};
pub use seen::{Change, Mark, Marks, Seen};
