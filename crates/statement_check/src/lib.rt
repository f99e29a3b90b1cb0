//! What statements are as typed ones, and the rules that they break.
#![tactic(auto)]

mod annotating;
mod assigning;
mod checking;
mod frame;
mod looping;
mod places;
mod simple;
mod stating;
mod targets;
mod unpacking;
mod updating;
mod values;

pub use checking::check_block;
pub use frame::Frame;
pub use targets::add_block;
