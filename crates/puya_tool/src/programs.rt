//! The programs of a contract, run on a saved call.

ghost use Rattle.std.specs.Prelude.{◌≡◌, IfOk, MatchOption, Some, None};
ghost use Rattle.avm_run.specs.Bytes.{run_of};
ghost use Rattle.avm_run.specs.Form.{IsWellFormed};
ghost use Rattle.puya_tool.specs.Commands as spec;

use avm_run::{Program, ProgramFault, Ran, check_program, run};
use call_file::Saved;
use compiler::{Build, Builds};
use puya_base::Memory;
use std::alloc::Global;

/// The program of well-formed bytes: want of memory is the only refusal.
fn program_of_bytes(alloc: Global, code: &[u8]) -> Result<Program, Memory>
    requires { IsWellFormed code.now }
    ensures { IfOk result (λ p. p ≡ code.now) }
{
    match check_program(alloc, code) {
        Ok(program) => Ok(program),
        Err(fault) => match fault {
            ProgramFault::Memory => Err(Memory),
            _ => unreachable!(),
        },
    }
}

/// The on-completion number that asks for the clear state program (AVM specification, "OnCompletion").
const CLEAR_STATE: u8 = 3;

/// The bytes of the program that a call of the contract runs.
fn picked_code(build: &Build, on_completion: u8) -> &[u8]
    ensures { result.now ≡ spec.picked on_completion build.now.approval build.now.clear }
{
    if on_completion == CLEAR_STATE {
        build.clear.as_slice()
    } else {
        build.approval.as_slice()
    }
}

/// Runs a saved call on the programs of a contract.
pub(crate) fn run_build(alloc: Global, build: &Build, saved: Saved) -> Result<Ran, Memory>
    requires approval { IsWellFormed build.now.approval }
    requires clear { IsWellFormed build.now.clear }
    ensures { IfOk result (λ ran. ran ≡ run_of (spec.picked saved.call.on_completion build.now.approval build.now.clear) saved.call saved.ledger) }
{
    let Saved {
        contract: _contract,
        call,
        ledger,
    } = saved;
    let code = picked_code(build, call.on_completion);
    let program = program_of_bytes(alloc, code)?;
    run(alloc, &program, &call, ledger)
}

/// The first build of a name.
pub(crate) fn named<'a>(builds: &'a [Build], name: &str) -> Option<&'a Build>
    ensures { MatchOption result (spec.named name.now builds.now ≡ None) (λ b. spec.named name.now builds.now ≡ Some b.now) }
{
    let mut rest = builds;
    while let [first, behind @ ..] = rest {
        if first.name.as_str() == name {
            return Some(first);
        }
        rest = behind;
    }
    None
}

/// The build that a saved call names.
pub(crate) fn build_named<'a>(builds: &'a Builds, saved: &Saved) -> Option<&'a Build>
    ensures { MatchOption result (spec.build_named saved.now.contract builds.now ≡ None) (λ b. spec.build_named saved.now.contract builds.now ≡ Some b.now) }
{
    match &saved.contract {
        Some(name) => named(builds.as_slice(), name.as_str()),
        None => None,
    }
}
