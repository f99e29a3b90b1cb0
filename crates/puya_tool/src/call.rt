ghost use Rattle.std.specs.Prelude.{◌≡◌, ◌≤◌, IfOk, IfSome, length};
ghost use Rattle.compiler.specs.Compiled.{AreBuilt, IsCompiled};
ghost use Rattle.puya_tool.specs.Commands.{AreWellFormed, CallAnswers, Judged, NamedEnds, TextEnds};
ghost use Rattle.puya_tool.specs.Promise.{AnswersBy};

use crate::answer::{Answer, unread};
use crate::programs::{build_named, run_build};
use crate::saved_call::{bad_call, bad_contract, saved_or};
use call_file::Saved;
use compiler::{Builds, CompileFault, compile};
use puya_base::{Blob, Files, Level, Memory, Name};
use std::alloc::Global;

/// Runs a saved call on the programs of the contract that it names.
fn run_named(alloc: Global, builds: &Builds, file: &str, saved: Saved) -> Result<Answer, Memory>
    requires { AreWellFormed builds.now }
    ensures { IfOk result (λ a. NamedEnds builds.now file.now saved a) }
{
    match build_named(builds, &saved) {
        Some(build) => Ok(Answer::Stopped(run_build(alloc, build, saved)?)),
        None => bad_contract(alloc, file, saved),
    }
}

/// The answer once the source is compiled: its call file has this text.
fn call_saved(alloc: Global, builds: &Builds, file: &str, text: &[u8]) -> Result<Answer, Memory>
    requires { AreWellFormed builds.now }
    ensures { IfOk result (λ a. TextEnds builds.now file.now text.now a) }
{
    match saved_or(alloc, text, true)? {
        Err(fault) => bad_call(alloc, file, fault),
        Ok(saved) => run_named(alloc, builds, file, saved),
    }
}

/// The programs of a source, or the answer where it is refused.
fn compiled(alloc: Global, file: &str, source: &[u8]) -> Result<Result<Builds, Answer>, Memory>
    requires { length source.now ≤ 1048576 }
    ensures { IfOk result (λ r. Judged file.now source.now r) }
{
    match compile(alloc, source, Level::L1) {
        Ok(builds) => Ok(Ok(builds)),
        Err(CompileFault::Refused(refusal)) => {
            Ok(Err(Answer::Refused(Name::new(alloc, file)?, refusal)))
        }
        Err(CompileFault::NotBuilt) => Ok(Err(Answer::NotBuilt(Name::new(alloc, file)?))),
        Err(CompileFault::Memory) => Err(Memory),
    }
}

/// The answer to `call`: the source is read and compiled first, then the call file is read.
pub(crate) fn called<F: Files>(
    alloc: Global,
    file: &str,
    call: &str,
    files: &mut F,
) -> Result<Answer, Memory>
    ensures due { IfOk result (λ a. IfSome (F.contents files.old) (λ held. CallAnswers held file.now call.now a)) }
    ensures cause { IfOk result (λ a. AnswersBy (F.faults files.old) (F.faults files.new) a) }
    ensures later { F.faults files.old ≤ F.faults files.new }
    ensures kept { F.contents files.new ≡ F.contents files.old }
{
    let mut source = Blob::new(alloc);
    if let Err(fault) = files.read(file, &mut source) {
        return unread(alloc, file, fault);
    }
    let builds = match compiled(alloc, file, source.as_slice())? {
        Ok(builds) => builds,
        Err(answer) => return Ok(answer),
    };
    let mut text = Blob::new(alloc);
    if let Err(fault) = files.read(call, &mut text) {
        return unread(alloc, call, fault);
    }
    call_saved(alloc, &builds, call, text.as_slice())
}
