ghost use Rattle.std.specs.Prelude.{◌≡◌, ◌≢◌, IfOk};
ghost use Rattle.puya_tool.specs.Text.{answer_text};

use crate::text::text_of;
use avm_asm::AsmFault;
use avm_run::{ProgramFault, Ran};
use call_file::CallFault;
use puya_base::{Blob, FileFault, Memory, Name, Refusal};
use std::alloc::Global;
use teal_text::TealFault;

/// What the program is to print. A name is that of the file that the line begins with.
#[derive(Drop)]
pub enum Answer {
    WordsUnknown,
    Unread(Name, FileFault),
    /// The source breaks a rule.
    Refused(Name, Refusal),
    NotBuilt(Name),
    BadCall(Name, CallFault),
    NotProgram(Name, ProgramFault),
    NotTeal(Name, TealFault),
    NotAssembled(Name, AsmFault),
    Unwritten(Name),
    Stopped(Ran),
    /// The file's name and how many bytes it has.
    Assembled(Name, usize),
    /// The text of a program.
    Listed(Blob),
}

/// An answer with its text, so that none is wanted for memory once something is written.
#[derive(Drop)]
pub(crate) struct Ready {
    pub(crate) answer: Answer,
    pub(crate) text: Blob,
}

pub(crate) fn with_text(alloc: Global, answer: Answer) -> Result<Ready, Memory>
    ensures answer { IfOk result (λ r. r.answer ≡ answer) }
    ensures text { IfOk result (λ r. r.text ≡ answer_text answer) }
{
    let text = text_of(alloc, &answer)?;
    Ok(Ready { answer, text })
}

/// The answer where a file was not read.
pub(crate) fn unread(alloc: Global, name: &str, fault: FileFault) -> Result<Answer, Memory>
    ensures answer { IfOk result (λ a. a ≡ Answer.Unread name.now fault) }
    ensures other { IfOk result (λ _. fault ≢ FileFault.Memory) }
{
    if fault == FileFault::Memory {
        return Err(Memory);
    }
    Ok(Answer::Unread(Name::new(alloc, name)?, fault))
}
