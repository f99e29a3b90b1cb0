//! What expressions mean where they stand, and the rules that they break.
#![tactic(auto)]

mod arguments;
mod asking;
mod contexts;
mod judging;
mod locals;
mod named;
mod operators;
mod places;
mod sight;
mod telling;
mod tuples;
mod types;
mod view;

pub use asking::{judge, judge_listed, judge_operand};
pub use contexts::{context, freely, value_in};
pub use locals::Locals;
pub use named::read_at;
pub use places::listed_place;
pub use sight::Sight;
pub use telling::note_all;
pub use types::{is_nothing, tuple_parts};
