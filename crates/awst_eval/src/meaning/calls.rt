//! A call of a function, computed.

ghost use Rattle.std.specs.Prelude.{◌≡◌, suc, length, replicate, slice_get, ◌++◌, Some};
ghost use Rattle.runs.specs.Steps.{bind, give, pay};
ghost use Rattle.awst.specs.Values.{nothing};
ghost use Rattle.awst.specs.Meaning.{all_do, returned as returned_there, runs_function, called as called_there};
ghost use Rattle.awst.specs.Functions.{function_of, body_of};
ghost use Rattle.awst_eval.specs.Shown.{meant, all_meant};
ghost use Rattle.awst_eval.specs.Ended.{Ends};
ghost use Rattle.awst_eval.specs.Worlds.{world_of};
ghost use Rattle.awst_eval.specs.Frames.{program_at, setting_of};

use crate::datum::{Data, Datum};
use crate::flow::returned;
use crate::frame::Frame;
use crate::meaning::statements::body_done;
use crate::needs::open;
use crate::prices::pay_function;
use crate::stop::Stop;
use crate::variables::add_unassigned;
use crate::world::World;
use avm_state::Call;
use awst::Contract;
use std::alloc::Global;

/// The body of a function, with its arguments.
#[cycle(run)]
#[tactic(auto, using(crate::proofs::Stopping::stops, crate::proofs::Stopping::behind, crate::proofs::Stopping::ran_out), unfolding(crate::specs::Ended::Ends))]
fn function_value(frame: &Frame<'_>, world: &mut World, args: Data) -> Result<Datum, Stop>
    ensures { Ends meant result (pay (function_of frame.now.func.now).price (bind (all_do (setting_of frame.now) frame.now.clock (body_of frame.now.func.now) (all_meant args ++ replicate (length frame.now.func.now.locals) nothing)) (λ flow. give (returned_there flow))) (world_of world.old)) (world_of world.new) }
{
    pay_function(world, frame.func)?;
    let mut env = args;
    add_unassigned(&mut env, frame.func.locals.len())?;
    let flow = body_done(frame, world, &mut env, 0, frame.func.body.as_slice())?;
    Ok(returned(flow))
}

/// The number of a function among those that are open.
fn opened_as(f: u32) -> u64
    ensures { result ≡ suc f }
{
    u64::from(f) + 1
}

/// A function while it is open.
#[cycle(run)]
#[tactic(auto, using(crate::proofs::Opening::opened_gives, crate::proofs::Opening::opened_stops, crate::proofs::Stopping::ran_out), unfolding(crate::specs::Ended::Ends, crate::specs::Frames::setting_at, crate::specs::Frames::program_at))]
fn open_function(frame: &Frame<'_>, world: &mut World, f: u32, args: Data) -> Result<Datum, Stop>
    ensures { Ends meant result (runs_function (program_at frame.now.contract.now frame.now.call.now) (called_there (program_at frame.now.contract.now frame.now.call.now) frame.now.clock) frame.now.clock f (Some (function_of frame.now.func.now)) (all_meant args) (world_of world.old)) (world_of world.new) }
{
    let before = open(frame.alloc, frame.contract, frame.call, world, opened_as(f))?;
    let v = function_value(frame, world, args)?;
    world.close(before);
    Ok(v)
}

/// The function of that number, if there is one, behind what the call uses.
#[cycle(run)]
#[tactic(auto, using(crate::proofs::Functions::found, crate::proofs::Functions::missing, crate::proofs::Depths::called_lower), unfolding(crate::specs::Ended::Ends))]
fn numbered(
    alloc: Global,
    contract: &Contract,
    call: &Call,
    clock: u64,
    world: &mut World,
    f: u32,
    args: Data,
) -> Result<Datum, Stop>
    ensures { Ends meant result (runs_function (program_at contract.now call.now) (called_there (program_at contract.now call.now) clock) clock f (slice_get (program_at contract.now call.now).functions f) (all_meant args) (world_of world.old)) (world_of world.new) }
{
    match contract.funcs.get(f as usize) {
        Some(func) => {
            let frame = Frame {
                alloc,
                contract,
                call,
                func,
                clock,
            };
            open_function(&frame, world, f, args)
        }
        None => Err(Stop::Failed),
    }
}

/// A call of a function, which uses one of the bound; `clock` bounds how deep calls and turns go.
#[cycle(run)]
#[tactic(auto, using(crate::proofs::Functions::used_for, crate::proofs::Functions::over, crate::proofs::Functions::none_left), unfolding(crate::specs::Ended::Ends))]
pub(crate) fn called(
    alloc: Global,
    contract: &Contract,
    call: &Call,
    clock: u64,
    world: &mut World,
    f: u32,
    args: Data,
) -> Result<Datum, Stop>
    ensures { Ends meant result (called_there (program_at contract.now call.now) clock f (all_meant args) (world_of world.old)) (world_of world.new) }
{
    if clock == 0 {
        return Err(Stop::Going);
    }
    let is_begun = world.tick();
    if !is_begun {
        return Err(Stop::Going);
    }
    numbered(alloc, contract, call, clock - 1, world, f, args)
}
