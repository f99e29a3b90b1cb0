//! Sets of numbers below a bound, kept as rows of bits in lanes of 64 and combined four lanes at a time.
#![tactic(auto)]

mod lanes;
mod row;

pub use row::BitRow;
