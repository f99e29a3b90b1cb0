use avm_state::Ledger;

/// How a run ends (AVM specification, "Execution Model"). A rejected run has no effect and no logs.
#[derive(Drop)]
pub enum Outcome {
    /// With the whole new ledger.
    Approved(Ledger),
    Rejected,
    /// The next instruction's cost passes what is left of the budget.
    OverBudget,
    /// Over 1000 values stand on the stack.
    OverDepth,
}

/// The end of a run.
#[derive(Drop)]
pub struct Ran {
    pub outcome: Outcome,
    /// The place of the instruction that stopped or ended the run, or the program's length where it ran off the end.
    pub pc: usize,
    /// The cost of the instructions that acted or failed, at most the budget.
    pub spent: u64,
}
