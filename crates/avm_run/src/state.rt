use crate::blocks::Blocks;
use crate::frame::Frames;
use avm_state::Ledger;
use puya_base::{Value, Values};

/// The machine between two instructions (AVM specification, "Execution Model").
#[derive(Drop)]
pub struct State {
    /// The place of the next instruction, in bytes.
    pub pc: usize,
    /// The cost of the instructions that acted so far.
    pub spent: u64,
    /// Whether the instruction before was a `callsub`: only then may a `proto` act.
    pub entering: bool,
    /// Its end is the top.
    pub stack: Values,
    /// The open calls, the innermost last.
    pub frames: Frames,
    /// 256 scratch places.
    pub scratch: Values,
    pub blocks: Blocks,
    pub ledger: Ledger,
}

/// What an instruction has done.
#[derive(Debug, Drop)]
pub enum Acted {
    Failed,
    WentOn,
    /// Returned from the program with the value on top.
    Returned(Value),
}
