ghost use Rattle.std.specs.Prelude.{◌≡◌, IfOk, codes};
ghost use Rattle.call_file.specs.Saved.{saved_of};

use crate::answer::Answer;
use call_file::{CallFault, Saved, read_call};
use puya_base::{Memory, Name};
use std::alloc::Global;

/// What a call file says, or its fault.
pub(crate) fn saved_or(
    alloc: Global,
    text: &[u8],
    named: bool,
) -> Result<Result<Saved, CallFault>, Memory>
    ensures { IfOk result (λ r. saved_of named text.now ≡ r) }
{
    match read_call(alloc, text, named) {
        Ok(saved) => Ok(Ok(saved)),
        Err(CallFault::Json) => Ok(Err(CallFault::Json)),
        Err(CallFault::Missing(field)) => Ok(Err(CallFault::Missing(field))),
        Err(CallFault::Bad(field)) => Ok(Err(CallFault::Bad(field))),
        Err(CallFault::Memory) => Err(Memory),
    }
}

/// The answer where the call file has a fault.
pub(crate) fn bad_call(alloc: Global, file: &str, fault: CallFault) -> Result<Answer, Memory>
    ensures { IfOk result (λ a. a ≡ Answer.BadCall file.now fault) }
{
    let name = Name::new(alloc, file)?;
    Ok(Answer::BadCall(name, fault))
}

/// The answer where the call file names no contract of the source.
pub(crate) fn bad_contract(alloc: Global, file: &str, saved: Saved) -> Result<Answer, Memory>
    ensures { IfOk result (λ a. a ≡ Answer.BadCall file.now (CallFault.Bad (codes "contract"))) }
{
    let Saved {
        contract: _contract,
        call: _call,
        ledger: _ledger,
    } = saved;
    let field = Name::new(alloc, "contract")?;
    bad_call(alloc, file, CallFault::Bad(field))
}
