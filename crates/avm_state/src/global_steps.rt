ghost use Rattle.std.specs.Prelude.{◌≡◌, Some, IfOk, option_map};
ghost use Rattle.std.specs.Option.{option_copied};
ghost use Rattle.avm_state.specs.Steps.{global_get_step, global_put_step, global_del_step, is_pair_within, Steps, Reads};
ghost use Rattle.avm_state.specs.Forms.{IsStarting};

use crate::ledger::Ledger;
use puya_base::{Memory, StepFault, Value};
use std::alloc::Global;

/// The most bytes of a key.
const KEY_LIMIT: usize = 64;

/// The most bytes of a key with the bytes under it.
const PAIR_LIMIT: usize = 128;

/// Whether the value may stand under the key.
pub(crate) fn fits(key: &[u8], value: &Value) -> bool
    ensures { result ≡ is_pair_within key.now value.now }
{
    match value {
        Value::Int(_) => key.len() <= KEY_LIMIT,
        Value::Bytes(bytes) => key.len() <= KEY_LIMIT && bytes.len() <= PAIR_LIMIT - key.len(),
    }
}

/// A copy of what was found.
pub(crate) fn copy_found(alloc: Global, found: Option<&Value>) -> Result<Option<Value>, Memory>
    ensures { IfOk result (λ copy. copy ≡ option_copied found.entry) }
{
    match found {
        Some(value) => Ok(Some(value.copy(alloc)?)),
        None => Ok(None),
    }
}

impl Ledger {
    /// The global value under a key, if there is one; it never fails (AVM specification, app_global_get_ex).
    pub fn global_get(&self, alloc: Global, key: &[u8]) -> Result<Option<Value>, StepFault>
        ensures { Reads (global_get_step self.now key.now) self.now result }
    {
        let value = copy_found(alloc, self.global.get(key))?;
        Ok(value)
    }

    /// Sets a global value; fails where the key is over 64 bytes, or key and bytes are together over 128
    /// (AVM specification, app_global_put).
    pub fn global_put(&mut self, key: &[u8], value: &Value) -> Result<(), StepFault>
        ensures steps { Steps (global_put_step self.old key.now value.now) self.old self.new result }
        ensures starting { IsStarting self.old → IsStarting self.new }
    {
        if !fits(key, value) {
            return Err(StepFault::Fails);
        }
        let value = value.copy(self.alloc)?;
        self.global.put(self.alloc, key, value)?;
        Ok(())
    }

    /// Removes a global value, where there is one; it takes no memory (AVM specification, app_global_del).
    pub fn global_del(&mut self, key: &[u8])
        ensures { global_del_step self.old key.now ≡ Some (self.new, tt) }
    {
        self.global.remove(key);
    }
}
