ghost use Rattle.std.specs.Prelude.{◌≡◌, ◌≤◌, IfOk, IfSome, MatchResult, Err};
ghost use Rattle.avm_run.specs.Bytes.{run_of};
ghost use Rattle.avm_run.specs.Form.{IsWellFormed, checked};
ghost use Rattle.puya_tool.specs.Commands.{DisAnswers, RunAnswers, RunEnds};
ghost use Rattle.puya_tool.specs.Promise.{AnswersBy};
ghost use Rattle.teal_text.specs.Printing.{text_of};

use crate::answer::{Answer, unread};
use crate::saved_call::{bad_call, saved_or};
use avm_run::{Program, ProgramFault, Ran, check_program, run};
use call_file::Saved;
use puya_base::{Blob, Files, Memory, Name};
use std::alloc::Global;
use teal_text::print;

/// The bytes as a program, or their fault.
fn program_or(alloc: Global, code: &[u8]) -> Result<Result<Program, ProgramFault>, Memory>
    ensures { IfOk result (λ r. MatchResult r (λ p. (p ≡ code.now) × IsWellFormed code.now) (λ f. checked code.now ≡ Err f)) }
{
    match check_program(alloc, code) {
        Ok(program) => Ok(Ok(program)),
        Err(fault) => {
            if fault == ProgramFault::Memory {
                Err(Memory)
            } else {
                Ok(Err(fault))
            }
        }
    }
}

/// Runs a saved call on a program.
fn run_saved(alloc: Global, program: &Program, saved: Saved) -> Result<Ran, Memory>
    ensures { IfOk result (λ ran. ran ≡ run_of program.now saved.call saved.ledger) }
{
    let Saved {
        contract: _contract,
        call,
        ledger,
    } = saved;
    run(alloc, program, &call, ledger)
}

fn not_program(alloc: Global, file: &str, fault: ProgramFault) -> Result<Answer, Memory>
    ensures { IfOk result (λ a. a ≡ Answer.NotProgram file.now fault) }
{
    Ok(Answer::NotProgram(Name::new(alloc, file)?, fault))
}

/// The answer once the program is read: its call file has this text.
fn run_text(alloc: Global, program: &Program, file: &str, text: &[u8]) -> Result<Answer, Memory>
    ensures { IfOk result (λ a. RunEnds program.now file.now text.now a) }
{
    match saved_or(alloc, text, false)? {
        Err(fault) => bad_call(alloc, file, fault),
        Ok(saved) => Ok(Answer::Stopped(run_saved(alloc, program, saved)?)),
    }
}

/// The answer to `run`: the program is read and judged first, then the call file.
pub(crate) fn ran<F: Files>(
    alloc: Global,
    file: &str,
    call: &str,
    files: &mut F,
) -> Result<Answer, Memory>
    ensures due { IfOk result (λ a. IfSome (F.contents files.old) (λ held. RunAnswers held file.now call.now a)) }
    ensures cause { IfOk result (λ a. AnswersBy (F.faults files.old) (F.faults files.new) a) }
    ensures later { F.faults files.old ≤ F.faults files.new }
    ensures kept { F.contents files.new ≡ F.contents files.old }
{
    let mut code = Blob::new(alloc);
    if let Err(fault) = files.read(file, &mut code) {
        return unread(alloc, file, fault);
    }
    let program = match program_or(alloc, code.as_slice())? {
        Ok(program) => program,
        Err(fault) => return not_program(alloc, file, fault),
    };
    let mut text = Blob::new(alloc);
    if let Err(fault) = files.read(call, &mut text) {
        return unread(alloc, call, fault);
    }
    run_text(alloc, &program, call, text.as_slice())
}

/// The answer to `dis`.
pub(crate) fn listed<F: Files>(alloc: Global, file: &str, files: &mut F) -> Result<Answer, Memory>
    ensures due { IfOk result (λ a. IfSome (F.contents files.old) (λ held. DisAnswers held file.now a)) }
    ensures cause { IfOk result (λ a. AnswersBy (F.faults files.old) (F.faults files.new) a) }
    ensures later { F.faults files.old ≤ F.faults files.new }
    ensures kept { F.contents files.new ≡ F.contents files.old }
{
    let mut code = Blob::new(alloc);
    if let Err(fault) = files.read(file, &mut code) {
        return unread(alloc, file, fault);
    }
    match program_or(alloc, code.as_slice())? {
        Ok(program) => Ok(Answer::Listed(print(alloc, &program)?)),
        Err(fault) => not_program(alloc, file, fault),
    }
}
