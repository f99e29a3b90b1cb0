ghost use Rattle.std.specs.Prelude.{◌≡◌, ◌≤◌, IfOk, OnErr, length, string_bytes};
ghost use Rattle.puya_base.specs.Files.{Told, max_length};
ghost use Rattle.avm_asm.specs.Assembled as code;
ghost use Rattle.avm_asm.specs.Listing.{AreLines};
ghost use Rattle.teal_text.specs.Reading.{read_of};
ghost use Rattle.puya_tool.specs.Commands.{AsmAnswers, IsWritten};
ghost use Rattle.puya_tool.specs.Promise.{AnswersBy};
ghost use Rattle.puya_tool.specs.Text.{answer_text};
ghost use Rattle.puya_tool.specs.Words.{bin_name};

use crate::answer::{Answer, Ready, unread, with_text};
use crate::text;
use avm_asm::{AsmFault, Lines, assemble};
use puya_base::{Blob, FileFault, Files, Memory, Name};
use std::alloc::Global;
use teal_text::{TealFault, read};

/// The lines that a text stands for, or its fault.
fn lines_or(alloc: Global, text: &[u8]) -> Result<Result<Lines, TealFault>, Memory>
    requires { length text.now ≤ max_length }
    ensures value { IfOk result (λ r. read_of text.now ≡ r) }
    ensures form { IfOk result (λ r. IfOk r (λ lines. AreLines lines)) }
{
    match read(alloc, text) {
        Ok(lines) => Ok(Ok(lines)),
        Err(TealFault::NotAscii(n)) => Ok(Err(TealFault::NotAscii(n))),
        Err(TealFault::Pragma(n)) => Ok(Err(TealFault::Pragma(n))),
        Err(TealFault::Word(n)) => Ok(Err(TealFault::Word(n))),
        Err(TealFault::Count(n)) => Ok(Err(TealFault::Count(n))),
        Err(TealFault::Number(n)) => Ok(Err(TealFault::Number(n))),
        Err(TealFault::Bytes(n)) => Ok(Err(TealFault::Bytes(n))),
        Err(TealFault::Memory) => Err(Memory),
    }
}

/// The code of lines, or their fault.
fn code_or(alloc: Global, lines: &Lines) -> Result<Result<Blob, AsmFault>, Memory>
    requires { AreLines lines.now }
    ensures { IfOk result (λ r. code.assembled lines.now ≡ r) }
{
    match assemble(alloc, lines) {
        Ok(code) => Ok(Ok(code)),
        Err(AsmFault::NoLabel(k)) => Ok(Err(AsmFault::NoLabel(k))),
        Err(AsmFault::TwiceLabel(k)) => Ok(Err(AsmFault::TwiceLabel(k))),
        Err(AsmFault::Far(k, distance)) => Ok(Err(AsmFault::Far(k, distance))),
        Err(AsmFault::Memory) => Err(Memory),
    }
}

fn not_teal(alloc: Global, file: &str, fault: TealFault) -> Result<Answer, Memory>
    ensures { IfOk result (λ a. a ≡ Answer.NotTeal file.now fault) }
{
    Ok(Answer::NotTeal(Name::new(alloc, file)?, fault))
}

fn not_assembled(alloc: Global, file: &str, fault: AsmFault) -> Result<Answer, Memory>
    ensures { IfOk result (λ a. a ≡ Answer.NotAssembled file.now fault) }
{
    Ok(Answer::NotAssembled(Name::new(alloc, file)?, fault))
}

/// The name of the file for the code of a text.
#[tactic(auto, unfolding(crate::specs::Words::bin_name))]
fn bin_of(alloc: Global, file: &str) -> Result<String, Memory>
    ensures { IfOk result (λ t. string_bytes t ≡ bin_name file.now) }
{
    Ok(format!(in alloc; "{file}.bin")?)
}

/// Writes the code. The texts of both ends are made before, so that no memory is wanted once it is written.
#[tactic(auto, unfolding(crate::specs::Text::answer_text))]
fn written<F: Files>(alloc: Global, name: &str, code: &[u8], files: &mut F) -> Result<Ready, Memory>
    ensures text { IfOk result (λ r. r.text ≡ answer_text r.answer) }
    ensures told { IfOk result (λ r. Told (F.contents files.old) (F.contents files.new) (λ old new. IsWritten old new name.now code.now r.answer)) }
    ensures cause { IfOk result (λ r. AnswersBy (F.faults files.old) (F.faults files.new) r.answer) }
    ensures later { F.faults files.old ≤ F.faults files.new }
    ensures kept { OnErr result (F.contents files.new ≡ F.contents files.old) }
{
    let file = Name::new(alloc, name)?;
    let done = text::assembled(alloc, name, code.len())?;
    let failed = text::unwritten(alloc, name)?;
    match files.write(name, code) {
        Ok(()) => Ok(Ready {
            answer: Answer::Assembled(file, code.len()),
            text: done,
        }),
        Err(FileFault::Failed) => Ok(Ready {
            answer: Answer::Unwritten(file),
            text: failed,
        }),
        Err(_) => Err(Memory),
    }
}

/// The answer to `asm`, once the code of the text is written.
pub(crate) fn assembled<F: Files>(alloc: Global, file: &str, files: &mut F) -> Result<Ready, Memory>
    ensures text { IfOk result (λ r. r.text ≡ answer_text r.answer) }
    ensures due { IfOk result (λ r. Told (F.contents files.old) (F.contents files.new) (λ old new. AsmAnswers old new file.now r.answer)) }
    ensures cause { IfOk result (λ r. AnswersBy (F.faults files.old) (F.faults files.new) r.answer) }
    ensures later { F.faults files.old ≤ F.faults files.new }
    ensures kept { OnErr result (F.contents files.new ≡ F.contents files.old) }
{
    let mut text = Blob::new(alloc);
    if let Err(fault) = files.read(file, &mut text) {
        return with_text(alloc, unread(alloc, file, fault)?);
    }
    let lines = match lines_or(alloc, text.as_slice())? {
        Ok(lines) => lines,
        Err(fault) => return with_text(alloc, not_teal(alloc, file, fault)?),
    };
    match code_or(alloc, &lines)? {
        Ok(code) => {
            let name = bin_of(alloc, file)?;
            written(alloc, name.as_str(), code.as_slice(), files)
        }
        Err(fault) => with_text(alloc, not_assembled(alloc, file, fault)?),
    }
}
