//! What a contract prescribes at a bound.

use crate::seen::Seen;

/// How a call of a contract ends.
#[derive(Clone, Copy, Debug, PartialEq, Eq)]
pub enum Ending {
    /// With the ledger that was seen last.
    Approved,
    Rejected,
    /// The run goes on past the bound.
    Unfinished,
}

/// How a call of a contract has ended at a bound, if it has, and what was seen so far.
#[derive(Drop)]
pub struct Moment {
    pub ending: Ending,
    pub seen: Seen,
}
