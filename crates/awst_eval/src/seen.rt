//! What a run has seen so far.

use avm_state::Ledger;
use puya_base::List;

/// What a step changes.
#[derive(Clone, Copy, Debug, PartialEq, Eq)]
pub enum Change {
    /// It logs.
    Logs,
}

/// A changing step that acted without failing, and the line of the statement that took it.
#[derive(Clone, Copy, Debug, PartialEq, Eq)]
pub struct Mark {
    pub change: Change,
    pub line: u32,
}

pub type Marks = List<Mark>;

/// What a run has seen so far.
#[derive(Drop)]
pub struct Seen {
    /// The ledger as it is now.
    pub ledger: Ledger,
    /// What the run has to pay so far, in units of the budget.
    pub price: u64,
    /// The functions that are open, the innermost first: the entry is 0, and function f is f + 1.
    pub opened: List<u64>,
    /// The greatest sum so far of the needs of functions that were open at one moment, in values on the stack.
    pub peak: u64,
    /// The changing steps so far, the oldest first.
    pub marks: Marks,
}
