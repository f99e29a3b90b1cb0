//! The values of a function's variables, by number.

ghost use Rattle.std.specs.Prelude.{◌≡◌, map, slice_get, slice_set, replicate, length, ◌++◌, IfOk, OnOk};
ghost use Rattle.awst.specs.Values.{nothing};
ghost use Rattle.awst.specs.Meaning.{put as put_there, put_each as put_each_there, put_all as put_all_there, arguments as arguments_there};
ghost use Rattle.awst.specs.Plain.{destination, assigned_to};
ghost use Rattle.awst_eval.specs.Shown.{meant, all_meant};
ghost use Rattle.awst_eval.specs.Ended.{Lifts};

use crate::datum::{Data, Datum, copy, parts};
use crate::stop::Stop;
use awst::{Primitive, Target};
use puya_base::{List, Memory};
use std::alloc::Global;

/// The value of a variable.
pub(crate) fn variable(alloc: Global, env: &[Datum], x: u32) -> Result<Datum, Stop>
    ensures { Lifts meant result (slice_get (all_meant env.now) x) }
{
    match env.get(x as usize) {
        Some(value) => Ok(copy(alloc, value)?),
        None => Err(Stop::Failed),
    }
}

/// Puts a value into a variable, if there is one of that number.
pub(crate) fn put(env: &mut Data, x: u32, value: Datum)
    ensures { all_meant env.new ≡ slice_set (all_meant env.old) x (meant value) }
{
    if (x as usize) < env.len() {
        env.set(x as usize, value);
    }
}

/// So many variables that are not assigned.
#[tactic(auto, using(crate::proofs::Looped::one_more))]
pub(crate) fn add_unassigned(env: &mut Data, count: usize) -> Result<(), Memory>
    ensures { OnOk result (all_meant env.new ≡ all_meant env.old ++ replicate count nothing) }
{
    let mut left = count;
    while left > 0 {
        env.push(Datum::Nothing)?;
        left -= 1;
    }
    Ok(())
}

/// The values by the numbers of their parameters.
pub(crate) fn arguments(alloc: Global, order: &[u32], values: &[Datum]) -> Result<Data, Memory>
    ensures { IfOk result (λ vs. all_meant vs ≡ arguments_there order.now (all_meant values.now)) }
{
    let mut placed = List::new(alloc);
    add_unassigned(&mut placed, values.len())?;
    for i in 0..order.len().min(values.len()) {
        put(&mut placed, order[i], copy(alloc, &values[i])?);
    }
    Ok(placed)
}

fn put_at(env: &mut Data, target: &Target, value: Datum)
    ensures { all_meant env.new ≡ put_there (destination target.now) (meant value) (all_meant env.old) }
{
    match target {
        Target::Local(x) => put(env, *x, value),
    }
}

/// Puts values into targets, from left to right.
fn put_each(
    alloc: Global,
    env: &mut Data,
    targets: &[Target],
    values: &[Datum],
) -> Result<(), Memory>
    ensures { OnOk result (all_meant env.new ≡ put_each_there (map destination targets.now) (all_meant values.now) (all_meant env.old)) }
{
    for i in 0..targets.len().min(values.len()) {
        put_at(env, &targets[i], copy(alloc, &values[i])?);
    }
    Ok(())
}

/// Puts a value into one target, or the parts of a tuple into several.
#[tactic(auto, using(crate::proofs::Placing::put_several))]
fn put_parts(alloc: Global, env: &mut Data, targets: &[Target], value: Datum) -> Result<(), Memory>
    ensures { OnOk result (all_meant env.new ≡ put_all_there (map destination targets.now) (meant value) (all_meant env.old)) }
{
    if targets.len() != 1 {
        return put_each(alloc, env, targets, parts(&value));
    }
    if let [target] = targets {
        put_at(env, target, value);
    }
    Ok(())
}

/// Puts what an assignment gives; an augmented one has one target.
pub(crate) fn put_all(
    alloc: Global,
    env: &mut Data,
    targets: &[Target],
    prim: Option<Primitive>,
    value: Datum,
) -> Result<(), Memory>
    ensures { OnOk result (all_meant env.new ≡ put_all_there (assigned_to prim (map destination targets.now)) (meant value) (all_meant env.old)) }
{
    match (prim, targets) {
        (Some(_), [_one]) => put_parts(alloc, env, targets, value),
        (Some(_), _) => Ok(()),
        (None, _) => put_parts(alloc, env, targets, value),
    }
}
