//! The steps of a run on what it has seen and on what is left of the bound.

ghost use Rattle.std.specs.Prelude.{◌≡◌, ◌+◌, ◌∷◌, ⊤, max, OnOk, IfOk};
ghost use Rattle.avm_state.specs.Steps.{add_log_step};
ghost use Rattle.runs.specs.Marks.{logs};
ghost use Rattle.runs.specs.Steps.{act, with_seen, with_rest};
ghost use Rattle.runs.specs.Seen.{paid, left_to};
ghost use Rattle.awst_eval.specs.Ended.{Ends};
ghost use Rattle.awst_eval.specs.Worlds.{world_of};
ghost use Rattle.awst_eval.specs.Ticks.{Ticks};

use crate::seen::{Change, Mark, Seen};
use crate::stop::Stop;
use puya_base::{List, Memory};
use std::alloc::Global;
use std::mem;

/// What a run has seen, and how many turns of loops and calls of functions it has left.
#[derive(Drop)]
pub(crate) struct World {
    pub(crate) seen: Seen,
    pub(crate) rest: u64,
}

impl World {
    /// Pays a price. The error is want of memory, also where more than 2^64-1 would be paid.
    #[tactic(auto, unfolding(crate::specs::Worlds::world_of, crate::specs::Worlds::seen_of))]
    pub(crate) fn pay(&mut self, amount: u64) -> Result<(), Memory>
        ensures { OnOk result (world_of self.new ≡ with_seen (world_of self.old) (paid amount (world_of self.old).seen)) }
    {
        match self.seen.price.checked_add(amount) {
            Some(price) => {
                self.seen.price = price;
                Ok(())
            }
            None => Err(Memory),
        }
    }

    /// Uses one of the bound, if one is left.
    #[tactic(auto, unfolding(crate::specs::Worlds::world_of))]
    pub(crate) fn tick(&mut self) -> bool
        ensures { Ticks result (world_of self.old) (world_of self.new) }
    {
        if self.rest == 0 {
            return false;
        }
        self.rest -= 1;
        true
    }

    /// Appends a log for the statement on that line.
    #[tactic(auto, unfolding(crate::specs::Worlds::world_of, crate::specs::Worlds::seen_of, crate::specs::Ended::Ends))]
    pub(crate) fn log(&mut self, line: u32, bytes: &[u8]) -> Result<(), Stop>
        ensures { Ends (λ u. u) result (act logs line (λ ledger. add_log_step ledger bytes.now) (world_of self.old)) (world_of self.new) }
    {
        self.seen.ledger.add_log(bytes)?;
        self.seen.marks.push(Mark {
            change: Change::Logs,
            line,
        })?;
        Ok(())
    }

    /// The functions that are open, with one more as the innermost.
    #[tactic(auto, unfolding(crate::specs::Worlds::world_of, crate::specs::Worlds::seen_of))]
    pub(crate) fn opened_with(&self, alloc: Global, f: u64) -> Result<List<u64>, Memory>
        ensures { IfOk result (λ opened. opened ≡ f ∷ (world_of self.now).seen.opened) }
    {
        let mut opened = List::new(alloc);
        opened.push(f)?;
        opened.append(List::from_slice(alloc, self.seen.opened.as_slice())?)?;
        Ok(opened)
    }

    /// Opens a function that is the innermost of these, which have so great a need together; answers those that were open.
    #[tactic(auto, unfolding(crate::specs::Worlds::world_of, crate::specs::Worlds::seen_of))]
    pub(crate) fn open(&mut self, opened: List<u64>, need: u64) -> List<u64>
        ensures before { result ≡ (world_of self.old).seen.opened }
        ensures now { world_of self.new ≡ with_seen (world_of self.old) (record (world_of self.old).seen { opened = opened; peak = max (world_of self.old).seen.peak need }) }
    {
        self.seen.peak = self.seen.peak.max(need);
        mem::replace(&mut self.seen.opened, opened)
    }

    /// Closes a function: these are open again.
    #[tactic(auto, unfolding(crate::specs::Worlds::world_of, crate::specs::Worlds::seen_of))]
    pub(crate) fn close(&mut self, opened: List<u64>)
        ensures { world_of self.new ≡ with_seen (world_of self.old) (left_to opened (world_of self.old).seen) }
    {
        self.seen.opened = opened;
    }
}
