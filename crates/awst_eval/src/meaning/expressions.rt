//! The value of an expression, computed.

ghost use Rattle.std.specs.Prelude.{slice_get};
ghost use Rattle.awst.specs.Values.{parts_of};
ghost use Rattle.awst.specs.Tree.{by, pack, part as part_form, element, strict, both as both_form, one_of as one_of_form, choose as choose_form, call as call_form, an_expr, no_exprs};
ghost use Rattle.awst.specs.Meaning.{operate as operate_there, value_of, values_of, form_value, optional_value as optional_there};
ghost use Rattle.awst.specs.Plain.{bare_of, item, which_of, tree_of, trees_of, optional_tree};
ghost use Rattle.awst_eval.specs.Shown.{meant, all_meant};
ghost use Rattle.awst_eval.specs.Ended.{Ends, Lifts};
ghost use Rattle.awst_eval.specs.Worlds.{world_of};
ghost use Rattle.awst_eval.specs.Frames.{setting_of};

use crate::computing::{computed, logged};
use crate::datum::{Data, Datum, is_true, parts};
use crate::form::{Action, action_of};
use crate::frame::Frame;
use crate::meaning::calls::called;
use crate::prices::pay_for;
use crate::stop::Stop;
use crate::variables::{arguments, variable};
use crate::world::World;
use avm_state::Call;
use awst::{Expr, ExprKind, Index, Primitive};
use puya_base::List;
use std::alloc::Global;

/// What an operator or a form of the library does with the values of its parts.
#[tactic(auto, using(crate::proofs::Stopping::lifted, crate::proofs::Stopping::stops, crate::proofs::Stopping::ran_out), unfolding(crate::specs::Ended::Ends))]
pub(crate) fn operate(
    alloc: Global,
    call: &Call,
    world: &mut World,
    line: u32,
    prim: Primitive,
    parts: &[Datum],
) -> Result<Datum, Stop>
    ensures { Ends meant result (operate_there call.now line (by prim) (all_meant parts.now) (world_of world.old)) (world_of world.new) }
{
    match action_of(prim) {
        Action::Computes(form) => computed(alloc, call, form, parts),
        Action::LogsParts => {
            let bytes = logged(alloc, parts)?;
            world.log(line, bytes.as_slice())?;
            Ok(Datum::Nothing)
        }
    }
}

/// A part of a tuple, from 0.
fn part(alloc: Global, value: &Datum, i: u32) -> Result<Datum, Stop>
    ensures { Lifts meant result (slice_get (parts_of (meant value.now)) i) }
{
    variable(alloc, parts(value), i)
}

/// The value of an expression; its price is paid when its evaluation begins.
#[cycle(run)]
#[tactic(auto, using(crate::proofs::Stopping::stops, crate::proofs::Stopping::behind, crate::proofs::Stopping::ran_out), unfolding(crate::specs::Ended::Ends))]
pub(crate) fn value(
    frame: &Frame<'_>,
    world: &mut World,
    line: u32,
    e: &Expr,
    env: &Data,
) -> Result<Datum, Stop>
    ensures { Ends meant result (value_of (setting_of frame.now) line (all_meant env.now) (tree_of e.now) (world_of world.old)) (world_of world.new) }
{
    pay_for(world, e)?;
    kind_value(frame, world, line, &e.kind, env)
}

#[cycle(run)]
#[tactic(auto, using(crate::proofs::Stopping::lifted, crate::proofs::Stopping::ran_out), unfolding(crate::specs::Ended::Ends))]
fn kind_value(
    frame: &Frame<'_>,
    world: &mut World,
    line: u32,
    kind: &ExprKind,
    env: &Data,
) -> Result<Datum, Stop>
    ensures { Ends meant result (form_value (setting_of frame.now) line (all_meant env.now) (bare_of kind.now).form (world_of world.old)) (world_of world.new) }
{
    match kind {
        ExprKind::Int(n) => Ok(Datum::Number(*n)),
        ExprKind::Flag(b) => Ok(Datum::Flag(*b)),
        ExprKind::Data(b) => Ok(Datum::Text(b.copy(frame.alloc)?)),
        ExprKind::Local(x) => variable(frame.alloc, env.as_slice(), *x),
        ExprKind::Prim(prim, parts) => {
            primitive_value(frame, world, line, *prim, parts.as_slice(), env)
        }
        ExprKind::And(a, b) => both(frame, world, line, a.get(), b.get(), env),
        ExprKind::Or(a, b) => one_of(frame, world, line, a.get(), b.get(), env),
        ExprKind::Choose(c, a, b) => chosen(frame, world, line, c.get(), a.get(), b.get(), env),
        ExprKind::Tuple(parts) => tuple_value(frame, world, line, parts.as_slice(), env),
        ExprKind::Item(e, index) => item_value(frame, world, line, e.get(), index, env),
        ExprKind::Call(f, parts, order) => {
            call_value(
                frame,
                world,
                line,
                *f,
                parts.as_slice(),
                order.as_slice(),
                env,
            )
        }
    }
}

/// The values of parts, from left to right.
#[cycle(run)]
#[tactic(auto, using(crate::proofs::Stopping::stops, crate::proofs::Stopping::behind, crate::proofs::Stopping::ran_out), unfolding(crate::specs::Ended::Ends))]
fn values(
    frame: &Frame<'_>,
    world: &mut World,
    line: u32,
    parts: &[Expr],
    env: &Data,
) -> Result<Data, Stop>
    ensures { Ends all_meant result (values_of (setting_of frame.now) line (all_meant env.now) (trees_of parts.now) (world_of world.old)) (world_of world.new) }
{
    let mut out = List::new(frame.alloc);
    for e in parts {
        out.push(value(frame, world, line, e, env)?)?;
    }
    Ok(out)
}

#[cycle(run)]
#[tactic(auto, using(crate::proofs::Stopping::stops, crate::proofs::Stopping::behind, crate::proofs::Stopping::ran_out), unfolding(crate::specs::Ended::Ends, crate::specs::Frames::setting_at))]
fn primitive_value(
    frame: &Frame<'_>,
    world: &mut World,
    line: u32,
    prim: Primitive,
    parts: &[Expr],
    env: &Data,
) -> Result<Datum, Stop>
    ensures { Ends meant result (form_value (setting_of frame.now) line (all_meant env.now) (strict (by prim) (trees_of parts.now)) (world_of world.old)) (world_of world.new) }
{
    let vs = values(frame, world, line, parts, env)?;
    operate(frame.alloc, frame.call, world, line, prim, vs.as_slice())
}

#[cycle(run)]
#[tactic(auto, using(crate::proofs::Stopping::stops, crate::proofs::Stopping::behind, crate::proofs::Stopping::ran_out), unfolding(crate::specs::Ended::Ends))]
fn tuple_value(
    frame: &Frame<'_>,
    world: &mut World,
    line: u32,
    parts: &[Expr],
    env: &Data,
) -> Result<Datum, Stop>
    ensures { Ends meant result (form_value (setting_of frame.now) line (all_meant env.now) (strict pack (trees_of parts.now)) (world_of world.old)) (world_of world.new) }
{
    let vs = values(frame, world, line, parts, env)?;
    Ok(Datum::Tuple(vs))
}

/// A part of a tuple, or an element of an array.
#[cycle(run)]
fn item_value(
    frame: &Frame<'_>,
    world: &mut World,
    line: u32,
    e: &Expr,
    index: &Index,
    env: &Data,
) -> Result<Datum, Stop>
    ensures { Ends meant result (form_value (setting_of frame.now) line (all_meant env.now) (item (tree_of e.now) (which_of index.now)).form (world_of world.old)) (world_of world.new) }
{
    match index {
        Index::Fixed(i) => part_value(frame, world, line, e, *i, env),
        Index::At(i) => element_value(frame, world, line, e, i.get(), env),
    }
}

#[cycle(run)]
#[tactic(auto, using(crate::proofs::Stopping::stops, crate::proofs::Stopping::behind, crate::proofs::Stopping::lifted), unfolding(crate::specs::Ended::Ends))]
fn part_value(
    frame: &Frame<'_>,
    world: &mut World,
    line: u32,
    e: &Expr,
    i: u32,
    env: &Data,
) -> Result<Datum, Stop>
    ensures { Ends meant result (form_value (setting_of frame.now) line (all_meant env.now) (strict (part_form i) (an_expr (tree_of e.now) no_exprs)) (world_of world.old)) (world_of world.new) }
{
    let v = value(frame, world, line, e, env)?;
    part(frame.alloc, &v, i)
}

/// No value has elements yet: the parts are evaluated, and it fails.
#[cycle(run)]
#[tactic(auto, using(crate::proofs::Stopping::stops, crate::proofs::Stopping::behind), unfolding(crate::specs::Ended::Ends))]
fn element_value(
    frame: &Frame<'_>,
    world: &mut World,
    line: u32,
    e: &Expr,
    i: &Expr,
    env: &Data,
) -> Result<Datum, Stop>
    ensures { Ends meant result (form_value (setting_of frame.now) line (all_meant env.now) (strict element (an_expr (tree_of e.now) (an_expr (tree_of i.now) no_exprs))) (world_of world.old)) (world_of world.new) }
{
    let _array = value(frame, world, line, e, env)?;
    let _index = value(frame, world, line, i, env)?;
    Err(Stop::Failed)
}

/// `and`.
#[cycle(run)]
#[tactic(auto, using(crate::proofs::Stopping::stops, crate::proofs::Stopping::behind), unfolding(crate::specs::Ended::Ends))]
fn both(
    frame: &Frame<'_>,
    world: &mut World,
    line: u32,
    a: &Expr,
    b: &Expr,
    env: &Data,
) -> Result<Datum, Stop>
    ensures { Ends meant result (form_value (setting_of frame.now) line (all_meant env.now) (both_form (tree_of a.now) (tree_of b.now)) (world_of world.old)) (world_of world.new) }
{
    let left = value(frame, world, line, a, env)?;
    if is_true(&left) {
        value(frame, world, line, b, env)
    } else {
        Ok(Datum::Flag(false))
    }
}

/// `or`.
#[cycle(run)]
#[tactic(auto, using(crate::proofs::Stopping::stops, crate::proofs::Stopping::behind), unfolding(crate::specs::Ended::Ends))]
fn one_of(
    frame: &Frame<'_>,
    world: &mut World,
    line: u32,
    a: &Expr,
    b: &Expr,
    env: &Data,
) -> Result<Datum, Stop>
    ensures { Ends meant result (form_value (setting_of frame.now) line (all_meant env.now) (one_of_form (tree_of a.now) (tree_of b.now)) (world_of world.old)) (world_of world.new) }
{
    let left = value(frame, world, line, a, env)?;
    if is_true(&left) {
        Ok(Datum::Flag(true))
    } else {
        value(frame, world, line, b, env)
    }
}

/// The conditional expression.
#[cycle(run)]
#[tactic(auto, using(crate::proofs::Stopping::stops, crate::proofs::Stopping::behind), unfolding(crate::specs::Ended::Ends))]
fn chosen(
    frame: &Frame<'_>,
    world: &mut World,
    line: u32,
    c: &Expr,
    a: &Expr,
    b: &Expr,
    env: &Data,
) -> Result<Datum, Stop>
    ensures { Ends meant result (form_value (setting_of frame.now) line (all_meant env.now) (choose_form (tree_of c.now) (tree_of a.now) (tree_of b.now)) (world_of world.old)) (world_of world.new) }
{
    let condition = value(frame, world, line, c, env)?;
    if is_true(&condition) {
        value(frame, world, line, a, env)
    } else {
        value(frame, world, line, b, env)
    }
}

#[cycle(run)]
#[tactic(auto, using(crate::proofs::Stopping::stops, crate::proofs::Stopping::behind, crate::proofs::Stopping::ran_out), unfolding(crate::specs::Ended::Ends, crate::specs::Frames::setting_at))]
fn call_value(
    frame: &Frame<'_>,
    world: &mut World,
    line: u32,
    f: u32,
    parts: &[Expr],
    order: &[u32],
    env: &Data,
) -> Result<Datum, Stop>
    ensures { Ends meant result (form_value (setting_of frame.now) line (all_meant env.now) (call_form f (trees_of parts.now) order.now) (world_of world.old)) (world_of world.new) }
{
    let vs = values(frame, world, line, parts, env)?;
    let args = arguments(frame.alloc, order, vs.as_slice())?;
    called(
        frame.alloc,
        frame.contract,
        frame.call,
        frame.clock,
        world,
        f,
        args,
    )
}

/// The value of an optional part, or what stands for it where it is absent.
#[cycle(run)]
#[tactic(auto, unfolding(crate::specs::Ended::Ends))]
pub(crate) fn optional_value(
    frame: &Frame<'_>,
    world: &mut World,
    line: u32,
    default: Datum,
    e: &Option<Expr>,
    env: &Data,
) -> Result<Datum, Stop>
    ensures { Ends meant result (optional_there (setting_of frame.now) line (all_meant env.now) (meant default) (optional_tree e.now) (world_of world.old)) (world_of world.new) }
{
    match e {
        Some(e) => value(frame, world, line, e, env),
        None => Ok(default),
    }
}
