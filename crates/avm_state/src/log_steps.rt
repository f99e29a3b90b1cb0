ghost use Rattle.std.specs.Prelude.{◌≡◌, ◌≤◌, length};
ghost use Rattle.avm_state.specs.Steps.{add_log_step, has_log_room, Steps};

use crate::ledger::Ledger;
use puya_base::{Blob, StepFault};

/// The most logs of a call.
const LOG_COUNT_LIMIT: usize = 32;

/// The most bytes of all logs together.
const LOG_BYTES_LIMIT: usize = 1024;

/// Whether there is room for one more log of that many bytes.
fn has_room(logs: &[Blob], size: usize) -> bool
    ensures { result ≡ has_log_room logs.now size }
{
    if logs.len() >= LOG_COUNT_LIMIT || size > LOG_BYTES_LIMIT {
        return false;
    }
    let mut room = LOG_BYTES_LIMIT - size;
    for log in logs {
        if log.len() > room {
            return false;
        }
        room -= log.len();
    }
    true
}

impl Ledger {
    /// Appends a log; fails where 32 logs are there, or they would pass 1024 bytes together
    /// (AVM specification, log).
    pub fn add_log(&mut self, bytes: &[u8]) -> Result<(), StepFault>
        ensures { Steps (add_log_step self.old bytes.now) self.old self.new result }
    {
        if !has_room(self.logs.as_slice(), bytes.len()) {
            return Err(StepFault::Fails);
        }
        let log = Blob::from_slice(self.alloc, bytes)?;
        self.logs.push(log)?;
        Ok(())
    }
}
