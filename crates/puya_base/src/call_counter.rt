ghost use Rattle.std.specs.Prelude.{[], ◌∷◌, ◌≡◌, ◌≤◌, ◌++◌, OnErr, OnOk};
ghost use Rattle.puya_base.specs.Causes.{Rose};
ghost use Rattle.puya_base.specs.Calls.{is_to_fail, counted, raised};

use crate::memory::Memory;
use std::alloc::Global;
use std::marker::Model;

/// The calls of a file store or a sink in memory: how many came, which of them are to fail, and how many failed.
/// A count that rises stands still at its type's last value.
#[derive(Drop)]
pub(crate) struct CallCounter {
    calls: u64,
    failing: Vec<u64>,
    faults: u64,
}

impl Model for CallCounter {
    ghost use Rattle.puya_base.specs.Calls.{Calls};

    ghost Value = { Calls };

    ghost view = { λ c. record { count = c.calls; failing = c.failing.items; faults = c.faults } };
}

impl CallCounter {
    pub(crate) fn new(alloc: Global) -> CallCounter
        ensures { result ≡ record { count = 0; failing = []; faults = 0 } }
    {
        CallCounter {
            calls: 0,
            failing: Vec::new(alloc),
            faults: 0,
        }
    }

    /// Makes the call of that number fail.
    pub(crate) fn fail_at(&mut self, call: u64) -> Result<(), Memory>
        ensures ok { OnOk result (self.new ≡ record self.old { failing = self.old.failing ++ call ∷ [] }) }
        ensures err { OnErr result (self.new ≡ self.old) }
    {
        self.failing.push(call)?;
        Ok(())
    }

    /// Counts a call, and says whether it is to fail.
    pub(crate) fn begin(&mut self) -> bool
        ensures fails { result ≡ is_to_fail self.old }
        ensures after { self.new ≡ counted self.old }
    {
        self.calls = self.calls.saturating_add(1);
        self.failing.contains(&self.calls)
    }

    /// Counts a fault.
    pub(crate) fn fault(&mut self)
        ensures after { self.new ≡ raised self.old }
        ensures later { self.old.faults ≤ self.new.faults }
        ensures rose { Rose self.old.faults self.new.faults }
    {
        self.faults = self.faults.saturating_add(1);
    }
}
