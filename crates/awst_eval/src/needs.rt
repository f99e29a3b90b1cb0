//! What open functions need on the stack.

ghost use Rattle.std.specs.Prelude.{◌≡◌, ◌∷◌, map, IfOk, OnOk};
ghost use Rattle.runs.specs.Steps.{with_seen};
ghost use Rattle.runs.specs.Seen.{entered, total};
ghost use Rattle.awst.specs.Functions.{function_of};
ghost use Rattle.awst.specs.Meaning.{need_in, need_at};
ghost use Rattle.awst_eval.specs.Worlds.{world_of};
ghost use Rattle.awst_eval.specs.Frames.{program_at};

use crate::prices::exact;
use crate::world::World;
use avm_state::Call;
use awst::{Contract, stack_need};
use puya_base::{List, Memory};
use std::alloc::Global;

/// What the entry needs, in values on the stack.
const ENTRY_NEED: u64 = 50;

/// What an open function needs: the entry is 0, and function f is f + 1.
#[tactic(auto, using(crate::proofs::OpenNeeds::need_found, crate::proofs::OpenNeeds::need_missing))]
fn need_of(contract: &Contract, f: u64) -> Result<u64, Memory>
    ensures { IfOk result (λ n. n ≡ need_in 50 (map function_of contract.now.funcs) f) }
{
    if f == 0 {
        return Ok(ENTRY_NEED);
    }
    match contract.funcs.get((f - 1) as usize) {
        Some(func) => Ok(exact(stack_need(func))?),
        None => Ok(0),
    }
}

/// What functions need that are open at one moment.
fn open_need(contract: &Contract, opened: &[u64]) -> Result<u64, Memory>
    ensures { IfOk result (λ n. n ≡ total (need_in 50 (map function_of contract.now.funcs)) opened.now) }
{
    let mut need: u64 = 0;
    for f in opened {
        need = need.checked_add(need_of(contract, *f)?).ok_or(Memory)?;
    }
    Ok(need)
}

/// Opens a function; answers those that were open.
#[tactic(auto, unfolding(crate::specs::Frames::program_at))]
pub(crate) fn open(
    alloc: Global,
    contract: &Contract,
    call: &Call,
    world: &mut World,
    f: u64,
) -> Result<List<u64>, Memory>
    ensures before { IfOk result (λ before. before ≡ (world_of world.old).seen.opened) }
    ensures now { OnOk result (world_of world.new ≡ with_seen (world_of world.old) (entered (need_at (program_at contract.now call.now)) f (world_of world.old).seen)) }
{
    let opened = world.opened_with(alloc, f)?;
    let need = open_need(contract, opened.as_slice())?;
    Ok(world.open(opened, need))
}
