ghost use Rattle.std.specs.Prelude.{◌≡◌, ◌<◌, length, slice_get, IfOk, OnErr, OnOk, Some};
ghost use Rattle.avm_state.specs.LedgerState.{no_entries};
ghost use Rattle.avm_state.specs.Steps.{with_opted};
ghost use Rattle.avm_state.specs.Forms.{IsStarting};

use crate::bytes_map::BytesMap;
use crate::local_map::LocalMap;
use puya_base::{At, Blob, Blobs, List, Memory, Value};
use std::alloc::Global;
use std::marker::Model;

/// The state of one application: its global, local and box storage, who opted in, and what the call has logged
/// (AVM specification, "Accessing Application State", "Boxes", "Logging").
#[derive(Drop)]
pub struct Ledger {
    pub(crate) alloc: Global,
    pub(crate) global: BytesMap<Value>,
    pub(crate) opted: BytesMap<()>,
    pub(crate) local: LocalMap,
    pub(crate) boxes: BytesMap<Blob>,
    pub(crate) logs: Blobs,
}

impl Model for Ledger {
    ghost use Rattle.avm_state.specs.LedgerState.{LedgerState, ledger_code};

    ghost Value = { LedgerState };

    ghost coded = { ledger_code };

    ghost view = { λ l. record { global = l.global; opted = l.opted; local = l.local; boxes = l.boxes; logs = l.logs } };
}

/// Equal lists of bytes of their own.
fn copy_logs(alloc: Global, logs: &[Blob]) -> Result<Blobs, Memory>
    ensures { IfOk result (λ copy. copy ≡ logs.now) }
{
    let mut copies = List::new(alloc);
    for log in logs {
        copies.push(log.copy(alloc)?)?;
    }
    Ok(copies)
}

impl Ledger {
    /// A ledger with nothing in it.
    pub fn empty(alloc: Global) -> Ledger
        ensures value { result ≡ no_entries }
        ensures starting { IsStarting result }
    {
        Ledger {
            alloc,
            global: BytesMap::new(alloc),
            opted: BytesMap::new(alloc),
            local: LocalMap::new(alloc),
            boxes: BytesMap::new(alloc),
            logs: List::new(alloc),
        }
    }

    /// An equal ledger of its own. The error is want of memory.
    pub fn copy(&self, alloc: Global) -> Result<Ledger, Memory>
        ensures { IfOk result (λ copy. copy ≡ self.now) }
    {
        let global = self.global.copy(alloc)?;
        let opted = self.opted.copy(alloc)?;
        let local = self.local.copy(alloc)?;
        let boxes = self.boxes.copy(alloc)?;
        let logs = copy_logs(alloc, self.logs.as_slice())?;
        Ok(Ledger {
            alloc,
            global,
            opted,
            local,
            boxes,
            logs,
        })
    }

    /// Adds an account to those that have opted in, or changes nothing where memory runs out.
    pub fn opt_in(&mut self, account: &[u8]) -> Result<(), Memory>
        ensures ok { OnOk result (self.new ≡ with_opted self.old account.now) }
        ensures err { OnErr result (self.new ≡ self.old) }
        ensures starting { IsStarting self.old → IsStarting self.new }
    {
        self.opted.put(self.alloc, account, ())
    }

    /// How many logs there are.
    pub fn log_count(&self) -> usize
        ensures { result ≡ length self.now.logs }
    {
        self.logs.len()
    }

    /// The log at a place below the count, oldest first.
    pub fn log(&self, i: usize) -> &[u8]
        requires { i < length self.now.logs }
        ensures { slice_get self.now.logs i ≡ Some result.now }
    {
        let log: &Blob = self.logs.at(i);
        log.as_slice()
    }
}
