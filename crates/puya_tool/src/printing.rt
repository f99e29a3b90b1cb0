ghost use Rattle.std.specs.Prelude.{◌≡◌, codes};
ghost use Rattle.puya_tool.specs.Promise.{Prints};
ghost use Rattle.puya_tool.specs.Text.{answer_status};

use crate::answer::Answer;
use crate::status::Status;
use avm_run::Outcome;
use puya_base::{Sink, SinkFault};

pub(crate) fn status_of(answer: &Answer) -> Status
    ensures { result ≡ answer_status answer.now }
{
    match answer {
        Answer::WordsUnknown => Status::Words,
        Answer::Unread(_, _) => Status::ReadFault,
        Answer::Refused(_, _) => Status::Source,
        Answer::NotBuilt(_) => Status::Source,
        Answer::BadCall(_, _) => Status::CallFile,
        Answer::NotProgram(_, _) => Status::Program,
        Answer::NotTeal(_, _) => Status::Program,
        Answer::NotAssembled(_, _) => Status::Program,
        Answer::Unwritten(_) => Status::WriteFault,
        Answer::Stopped(ran) => match &ran.outcome {
            Outcome::Approved(_) => Status::Done,
            Outcome::Rejected => Status::Rejected,
            Outcome::OverBudget => Status::Stopped,
            Outcome::OverDepth => Status::Stopped,
        },
        Answer::Assembled(_, _) => Status::Done,
        Answer::Listed(_) => Status::Done,
    }
}

/// Puts the text out, all in one call.
pub(crate) fn put_text<S: Sink>(out: &mut S, text: &[u8], status: Status) -> Status
    ensures { Prints (S.taken out.old) (S.taken out.new) (S.faults out.old) (S.faults out.new) text.now status result }
{
    match out.put(text) {
        Ok(()) => status,
        Err(SinkFault::Failed) => Status::WriteFault,
        Err(SinkFault::Memory) => Status::Memory,
    }
}

pub(crate) fn out_of_memory<S: Sink>(out: &mut S) -> Status
    ensures { Prints (S.taken out.old) (S.taken out.new) (S.faults out.old) (S.faults out.new) (codes "out of memory\n") Status.Memory result }
{
    put_text(out, b"out of memory\n", Status::Memory)
}
