ghost use Rattle.std.specs.Prelude.{◌≡◌};
ghost use Rattle.std.specs.Option.{option_copied};
ghost use Rattle.avm_state.specs.Calls.{local_account_of};
ghost use Rattle.avm_state.specs.Steps.{local_get_step, local_put_step, local_del_step, set_local_step, Steps, StepsInPlace, Reads};
ghost use Rattle.avm_state.specs.Forms.{IsStarting};

use crate::call::Call;
use crate::global_steps::{copy_found, fits};
use crate::ledger::Ledger;
use puya_base::{Blob, StepFault, Value};
use std::alloc::Global;

impl Ledger {
    /// The account that a value names, where it has opted in.
    fn opted_account<'a>(&self, call: &'a Call, who: &'a Value) -> Option<&'a Blob>
        ensures { option_copied result ≡ local_account_of call.now self.now who.now }
    {
        let account = call.account(who)?;
        if self.opted.get(account.as_slice()).is_some() {
            Some(account)
        } else {
            None
        }
    }

    /// The local value under a key of an account, if there is one; fails where no opted account is named
    /// (AVM specification, app_local_get_ex).
    pub fn local_get(
        &self,
        alloc: Global,
        call: &Call,
        who: &Value,
        key: &[u8],
    ) -> Result<Option<Value>, StepFault>
        ensures { Reads (local_get_step call.now self.now who.now key.now) self.now result }
    {
        let Some(account) = self.opted_account(call, who) else {
            return Err(StepFault::Fails);
        };
        let value = copy_found(alloc, self.local.get(account.as_slice(), key))?;
        Ok(value)
    }

    /// Sets a local value; fails where no opted account is named, where the key is over 64 bytes, or key and bytes
    /// are together over 128 (AVM specification, app_local_put).
    pub fn local_put(
        &mut self,
        call: &Call,
        who: &Value,
        key: &[u8],
        value: &Value,
    ) -> Result<(), StepFault>
        ensures { Steps (local_put_step call.now self.old who.now key.now value.now) self.old self.new result }
    {
        let Some(account) = self.opted_account(call, who) else {
            return Err(StepFault::Fails);
        };
        if !fits(key, value) {
            return Err(StepFault::Fails);
        }
        let value = value.copy(self.alloc)?;
        self.local.put(self.alloc, account.as_slice(), key, value)?;
        Ok(())
    }

    /// Removes a local value, where there is one; fails where no opted account is named, and takes no memory
    /// (AVM specification, app_local_del).
    pub fn local_del(&mut self, call: &Call, who: &Value, key: &[u8]) -> Result<(), StepFault>
        ensures { StepsInPlace (local_del_step call.now self.old who.now key.now) self.old self.new result }
    {
        let Some(account) = self.opted_account(call, who) else {
            return Err(StepFault::Fails);
        };
        self.local.remove(account.as_slice(), key);
        Ok(())
    }

    /// Sets a local value without a call; fails where the account has not opted in, where the key is over 64 bytes,
    /// or key and bytes are together over 128.
    pub fn set_local(&mut self, account: &[u8], key: &[u8], value: &Value) -> Result<(), StepFault>
        ensures steps { Steps (set_local_step self.old account.now key.now value.now) self.old self.new result }
        ensures starting { IsStarting self.old → IsStarting self.new }
    {
        if self.opted.get(account).is_none() || !fits(key, value) {
            return Err(StepFault::Fails);
        }
        let value = value.copy(self.alloc)?;
        self.local.put(self.alloc, account, key, value)?;
        Ok(())
    }
}
