//! The entries of a contract's programs, and what it prescribes.

ghost use Rattle.std.specs.Prelude.{◌≡◌, if◌then◌else◌, IfOk};
ghost use Rattle.runs.specs.Steps.{bind, pay, begin};
ghost use Rattle.runs.specs.Seen.{nothing_seen};
ghost use Rattle.awst.specs.Prescribed.{is_accepted as is_accepted_there, plain_contract, run_first, run_approval, run_clear, entry_price, approval_entry, clear_entry, entry_run, prescribed};
ghost use Rattle.awst_eval.specs.Shown.{meant};
ghost use Rattle.awst_eval.specs.Ended.{Ends};
ghost use Rattle.awst_eval.specs.Worlds.{world_of};
ghost use Rattle.awst_eval.specs.Moments.{moment_shown};
ghost use Rattle.awst_eval.specs.Frames.{program_at};

use crate::datum::Datum;
use crate::meaning::called;
use crate::moment::{Ending, Moment};
use crate::needs::open;
use crate::seen::Seen;
use crate::stop::Stop;
use crate::world::World;
use avm_state::{Call, Ledger};
use awst::Contract;
use puya_base::{List, Memory};
use std::alloc::Global;

/// The on-completion number of the clear state program (AVM specification, "OnCompletion").
const CLEAR_STATE: u8 = 3;

/// What an entry pays for itself.
const ENTRY_PRICE: u64 = 64;

/// What an entry pays where there is an `__init__`.
const ENTRY_PRICE_WITH_INIT: u64 = 112;

/// Whether a program approves that gives this value.
fn is_accepted(value: &Datum) -> bool
    ensures { result ≡ is_accepted_there (meant value.now) }
{
    match value {
        Datum::Number(n) => *n != 0,
        Datum::Flag(b) => *b,
        _ => false,
    }
}

/// What a clear state program gives; it approves where there is no function.
#[tactic(auto, unfolding(crate::specs::Ended::Ends))]
fn clear_result(
    alloc: Global,
    contract: &Contract,
    call: &Call,
    bound: u64,
    world: &mut World,
) -> Result<Datum, Stop>
    ensures { Ends meant result (run_clear (program_at contract.now call.now) bound contract.now.clear (world_of world.old)) (world_of world.new) }
{
    match contract.clear {
        None => Ok(Datum::Flag(true)),
        Some(f) => called(alloc, contract, call, bound, world, f, List::new(alloc)),
    }
}

/// The clear state program's entry.
#[tactic(auto, using(crate::proofs::Opening::opened_gives, crate::proofs::Opening::opened_stops, crate::proofs::Stopping::ran_out), unfolding(crate::specs::Ended::Ends))]
fn clear_value(
    alloc: Global,
    contract: &Contract,
    call: &Call,
    bound: u64,
    world: &mut World,
) -> Result<Datum, Stop>
    ensures { Ends meant result (clear_entry (plain_contract contract.now) (program_at contract.now call.now) bound (world_of world.old)) (world_of world.new) }
{
    let before = open(alloc, contract, call, world, 0)?;
    world.pay(ENTRY_PRICE)?;
    let v = clear_result(alloc, contract, call, bound, world)?;
    world.close(before);
    Ok(v)
}

/// `__init__` runs first in a creating call.
#[tactic(auto, unfolding(crate::specs::Ended::Ends))]
fn first_result(
    alloc: Global,
    contract: &Contract,
    call: &Call,
    bound: u64,
    world: &mut World,
) -> Result<Datum, Stop>
    ensures { Ends meant result (run_first (program_at contract.now call.now) bound call.now.creating contract.now.init (world_of world.old)) (world_of world.new) }
{
    match contract.init {
        Some(f) if call.creating => {
            called(alloc, contract, call, bound, world, f, List::new(alloc))
        }
        _ => Ok(Datum::Nothing),
    }
}

/// What an approval program gives; it rejects where there is no function.
#[tactic(auto, unfolding(crate::specs::Ended::Ends))]
fn approval_result(
    alloc: Global,
    contract: &Contract,
    call: &Call,
    bound: u64,
    world: &mut World,
) -> Result<Datum, Stop>
    ensures { Ends meant result (run_approval (program_at contract.now call.now) bound contract.now.approval (world_of world.old)) (world_of world.new) }
{
    match contract.approval {
        None => Err(Stop::Failed),
        Some(f) => called(alloc, contract, call, bound, world, f, List::new(alloc)),
    }
}

/// What the entry of an approval program pays for itself.
fn price_of_entry(init: Option<u32>) -> u64
    ensures { result ≡ entry_price init }
{
    match init {
        None => ENTRY_PRICE,
        Some(_) => ENTRY_PRICE_WITH_INIT,
    }
}

/// What an approval program runs.
#[tactic(auto, using(crate::proofs::Stopping::stops, crate::proofs::Stopping::behind, crate::proofs::Stopping::ran_out), unfolding(crate::specs::Ended::Ends))]
fn approval_value(
    alloc: Global,
    contract: &Contract,
    call: &Call,
    bound: u64,
    world: &mut World,
) -> Result<Datum, Stop>
    ensures { Ends meant result (pay (entry_price contract.now.init) (bind (run_first (program_at contract.now call.now) bound call.now.creating contract.now.init) (λ _. run_approval (program_at contract.now call.now) bound contract.now.approval)) (world_of world.old)) (world_of world.new) }
{
    world.pay(price_of_entry(contract.init))?;
    let _first = first_result(alloc, contract, call, bound, world)?;
    approval_result(alloc, contract, call, bound, world)
}

/// The approval program's entry.
#[tactic(auto, using(crate::proofs::Opening::opened_gives, crate::proofs::Opening::opened_stops, crate::proofs::Stopping::ran_out), unfolding(crate::specs::Ended::Ends, crate::specs::Frames::program_at))]
fn open_approval(
    alloc: Global,
    contract: &Contract,
    call: &Call,
    bound: u64,
    world: &mut World,
) -> Result<Datum, Stop>
    ensures { Ends meant result (approval_entry (plain_contract contract.now) (program_at contract.now call.now) bound (world_of world.old)) (world_of world.new) }
{
    let before = open(alloc, contract, call, world, 0)?;
    let v = approval_value(alloc, contract, call, bound, world)?;
    world.close(before);
    Ok(v)
}

/// On completion 3 means the clear state program, any other number the approval program.
#[tactic(auto, unfolding(crate::specs::Frames::program_at))]
fn entry_value(
    alloc: Global,
    contract: &Contract,
    call: &Call,
    bound: u64,
    world: &mut World,
) -> Result<Datum, Stop>
    ensures { Ends meant result (entry_run (plain_contract contract.now) call.now bound (world_of world.old)) (world_of world.new) }
{
    if call.on_completion == CLEAR_STATE {
        clear_value(alloc, contract, call, bound, world)
    } else {
        open_approval(alloc, contract, call, bound, world)
    }
}

/// A world in which nothing is seen yet, but the ledger.
#[tactic(auto, unfolding(crate::specs::Worlds::world_of, crate::specs::Worlds::seen_of))]
fn new_world(alloc: Global, ledger: Ledger, bound: u64) -> World
    ensures { world_of result ≡ begin (nothing_seen ledger) bound }
{
    World {
        seen: Seen {
            ledger,
            price: 0,
            opened: List::new(alloc),
            peak: 0,
            marks: List::new(alloc),
        },
        rest: bound,
    }
}

fn ending_by(accepted: bool) -> Ending
    ensures { result ≡ (if accepted then Ending.Approved else Ending.Rejected) }
{
    if accepted {
        Ending::Approved
    } else {
        Ending::Rejected
    }
}

/// What a contract prescribes for an application call on a ledger, at a bound on turns of loops and calls of functions:
/// approved, rejected, or not ended within the bound, with all that was seen so far.
///
/// # Errors
///
/// Want of memory; also where a price or a need passes 2^64-2, to which no run comes.
#[tactic(auto, unfolding(crate::specs::Ended::Ends, crate::specs::Worlds::world_of, crate::specs::Worlds::seen_of))]
pub fn evaluate(
    alloc: Global,
    contract: &Contract,
    call: &Call,
    ledger: Ledger,
    bound: u64,
) -> Result<Moment, Memory>
    ensures { IfOk result (λ m. moment_shown m ≡ prescribed contract.now call.now ledger bound) }
{
    let mut world = new_world(alloc, ledger, bound);
    let ending = match entry_value(alloc, contract, call, bound, &mut world) {
        Ok(v) => ending_by(is_accepted(&v)),
        Err(Stop::Failed) => Ending::Rejected,
        Err(Stop::Going) => Ending::Unfinished,
        Err(Stop::Memory) => return Err(Memory),
    };
    Ok(Moment {
        ending,
        seen: world.seen,
    })
}
