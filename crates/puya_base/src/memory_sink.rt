ghost use Rattle.std.specs.Prelude.{◌≡◌, [], ◌∷◌, ◌++◌, OnErr, OnOk, Some};
ghost use Rattle.puya_base.specs.Files.{PutGives, PutFailsOnlyBy};
ghost use Rattle.puya_base.specs.Calls.{CountsSinkCall};
ghost use Rattle.puya_base.specs.InMemory.{PutsInMemory};

use crate::blob::Blob;
use crate::call_counter::CallCounter;
use crate::faults::SinkFault;
use crate::files::{Sink, kept_of};
use crate::memory::Memory;
use std::alloc::Global;
use std::marker::Model;

/// A sink in memory. It tells what it has taken, and any of its calls can be made to fail.
#[derive(Drop)]
pub struct MemorySink {
    bytes: Blob,
    calls: CallCounter,
}

impl Model for MemorySink {
    ghost use Rattle.puya_base.specs.InMemory.{Taken};

    ghost Value = { Taken };

    ghost view = { λ s. record { bytes = s.bytes; calls = s.calls } };
}

impl MemorySink {
    /// Nothing taken, no calls so far, and no call that is to fail.
    pub fn new(alloc: Global) -> MemorySink
        ensures { result ≡ record { bytes = []; calls = record { count = 0; failing = []; faults = 0 } } }
    {
        MemorySink {
            bytes: Blob::new(alloc),
            calls: CallCounter::new(alloc),
        }
    }

    /// Makes a call fail, counted from 1.
    pub fn fail_at(&mut self, call: u64) -> Result<(), Memory>
        ensures ok { OnOk result (self.new ≡ record self.old { calls = record self.old.calls { failing = self.old.calls.failing ++ call ∷ [] } }) }
        ensures err { OnErr result (self.new ≡ self.old) }
    {
        self.calls.fail_at(call)
    }

    /// All that was taken.
    pub fn bytes(&self) -> &[u8]
        ensures { result.now ≡ self.now.bytes }
    {
        self.bytes.as_slice()
    }
}

impl Sink for MemorySink {
    ghost taken = { λ s. Some s.bytes };

    ghost faults = { λ s. s.calls.faults };

    fn put(&mut self, bytes: &[u8]) -> Result<(), SinkFault>
        ensures told { PutGives self.old.bytes self.new.bytes bytes.now result }
        ensures cause { PutFailsOnlyBy self.old.calls.faults self.new.calls.faults result }
        ensures calls { CountsSinkCall self.old.calls self.new.calls result }
        ensures half { PutsInMemory self.old.bytes self.new.bytes bytes.now result }
    {
        let fails = self.calls.begin();
        match self.bytes.extend(kept_of(bytes, fails)) {
            Err(_) => Err(SinkFault::Memory),
            Ok(()) => {
                if fails {
                    self.calls.fault();
                    Err(SinkFault::Failed)
                } else {
                    Ok(())
                }
            }
        }
    }
}
