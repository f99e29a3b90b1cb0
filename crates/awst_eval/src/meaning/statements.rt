//! What a statement does, computed.

ghost use Rattle.std.specs.Prelude.{◌≡◌, map, length, IfOk, OnOk};
ghost use Rattle.runs.specs.Steps.{with_seen};
ghost use Rattle.runs.specs.Seen.{paid};
ghost use Rattle.awst.specs.Table.{own_effect, own_assert, own_return, own_leave, own_match};
ghost use Rattle.awst.specs.Tree.{an_expr, no_exprs, node_of, to_variable, effect, assert, give_back, pick};
ghost use Rattle.awst.specs.Places.{scalars_of};
ghost use Rattle.awst.specs.Meaning.{value_of, values_of, does, all_do, picked as picked_there};
ghost use Rattle.awst.specs.Plain.{tree_of, optional_tree, optional_scalars, read_of, updated as updated_there, assigned_value as assigned_there, destination, assign_plain, headed, otherwise, if_plain, all_plain, picks_plain, literal_bytes, statement_of, arm_of, pick_of};
ghost use Rattle.awst_eval.specs.Shown.{meant, all_meant};
ghost use Rattle.awst_eval.specs.Ended.{Ends};
ghost use Rattle.awst_eval.specs.Worlds.{world_of};
ghost use Rattle.awst_eval.specs.Flows.{flow_of};
ghost use Rattle.awst_eval.specs.Frames.{setting_of, variables_of, inner_of};

use crate::assigned::{arms_assign, assigned_in};
use crate::datum::{Data, Datum, equals, is_true};
use crate::flow::Flow;
use crate::frame::Frame;
use crate::meaning::expressions::{operate, optional_value, value};
use crate::meaning::loops::{each_done, range_done, while_done};
use crate::prices::{pay_by, pay_flag, pay_head, pay_match, pay_operation, pay_return};
use crate::stop::Stop;
use crate::variables::{put_all, variable};
use crate::world::World;
use awst::{
    Arm, Arms, Expr, HeadKind, MatchArm, MatchArms, Primitive, Stmt, StmtKind, Stmts, Target,
    Targets,
};
use puya_base::{List, Memory, Place};

/// What an augmented assignment operates on: its variable, and then its right side.
#[cycle(run)]
#[tactic(auto, using(crate::proofs::Stopping::stops, crate::proofs::Stopping::behind, crate::proofs::Stopping::ran_out, crate::proofs::Stopping::lifted), unfolding(crate::specs::Ended::Ends))]
fn two_values(
    frame: &Frame<'_>,
    world: &mut World,
    place: Place,
    x: u32,
    e: &Expr,
    env: &Data,
) -> Result<Data, Stop>
    ensures { Ends all_meant result (values_of (setting_of frame.now) place.line (all_meant env.now) (an_expr (read_of place (node_of (tree_of e.now)).ty (to_variable x)) (an_expr (tree_of e.now) no_exprs)) (world_of world.old)) (world_of world.new) }
{
    pay_by(world, HeadKind::Local, e)?;
    let left = variable(frame.alloc, env.as_slice(), x)?;
    let right = value(frame, world, place.line, e, env)?;
    let mut both = List::new(frame.alloc);
    both.push(left)?;
    both.push(right)?;
    Ok(both)
}

#[cycle(run)]
#[tactic(auto, using(crate::proofs::Stopping::stops, crate::proofs::Stopping::behind, crate::proofs::Stopping::ran_out), unfolding(crate::specs::Ended::Ends, crate::specs::Frames::setting_at))]
fn updated(
    frame: &Frame<'_>,
    world: &mut World,
    place: Place,
    prim: Primitive,
    x: u32,
    e: &Expr,
    env: &Data,
) -> Result<Datum, Stop>
    ensures { Ends meant result (value_of (setting_of frame.now) place.line (all_meant env.now) (updated_there place prim (to_variable x) (tree_of e.now)) (world_of world.old)) (world_of world.new) }
{
    pay_operation(world, prim, e)?;
    let both = two_values(frame, world, place, x, e, env)?;
    operate(
        frame.alloc,
        frame.call,
        world,
        place.line,
        prim,
        both.as_slice(),
    )
}

/// What an assignment assigns.
#[cycle(run)]
fn assigned_value(
    frame: &Frame<'_>,
    world: &mut World,
    place: Place,
    targets: &[Target],
    prim: Option<Primitive>,
    e: &Expr,
    env: &Data,
) -> Result<Datum, Stop>
    ensures { Ends meant result (value_of (setting_of frame.now) place.line (all_meant env.now) (assigned_there place prim (map destination targets.now) (tree_of e.now)) (world_of world.old)) (world_of world.new) }
{
    match (prim, targets) {
        (Some(prim), [Target::Local(x)]) => updated(frame, world, place, prim, *x, e, env),
        _ => value(frame, world, place.line, e, env),
    }
}

#[cycle(run)]
#[tactic(auto, using(crate::proofs::Stopping::stops, crate::proofs::Stopping::behind, crate::proofs::Stopping::ran_out), unfolding(crate::specs::Ended::Ends))]
fn assign(
    frame: &Frame<'_>,
    world: &mut World,
    env: &mut Data,
    place: Place,
    targets: &Targets,
    prim: Option<Primitive>,
    e: &Expr,
) -> Result<Flow, Stop>
    ensures { Ends (flow_of (all_meant env.new)) result (does (setting_of frame.now) frame.now.clock (assign_plain place (map destination targets.now) prim (tree_of e.now)) (all_meant env.old) (world_of world.old)) (world_of world.new) }
{
    pay_by(world, HeadKind::Assign, e)?;
    let v = assigned_value(frame, world, place, targets.as_slice(), prim, e, env)?;
    put_all(frame.alloc, env, targets.as_slice(), prim, v)?;
    Ok(Flow::On)
}

#[cycle(run)]
#[tactic(auto, using(crate::proofs::Stopping::stops, crate::proofs::Stopping::behind, crate::proofs::Stopping::ran_out), unfolding(crate::specs::Ended::Ends))]
fn effect_done(
    frame: &Frame<'_>,
    world: &mut World,
    env: &Data,
    place: Place,
    e: &Expr,
) -> Result<Flow, Stop>
    ensures { Ends (flow_of (all_meant env.now)) result (does (setting_of frame.now) frame.now.clock (headed place (own_effect (scalars_of (tree_of e.now))) (effect (tree_of e.now))) (all_meant env.now) (world_of world.old)) (world_of world.new) }
{
    pay_by(world, HeadKind::Effect, e)?;
    let _unused = value(frame, world, place.line, e, env)?;
    Ok(Flow::On)
}

#[cycle(run)]
#[tactic(auto, using(crate::proofs::Stopping::stops, crate::proofs::Stopping::behind, crate::proofs::Stopping::ran_out), unfolding(crate::specs::Ended::Ends))]
fn assert_done(
    frame: &Frame<'_>,
    world: &mut World,
    env: &Data,
    place: Place,
    e: &Expr,
) -> Result<Flow, Stop>
    ensures { Ends (flow_of (all_meant env.now)) result (does (setting_of frame.now) frame.now.clock (headed place own_assert (assert (tree_of e.now))) (all_meant env.now) (world_of world.old)) (world_of world.new) }
{
    pay_head(world, HeadKind::Assert, 0)?;
    let v = value(frame, world, place.line, e, env)?;
    if is_true(&v) {
        Ok(Flow::On)
    } else {
        Err(Stop::Failed)
    }
}

#[cycle(run)]
#[tactic(auto, using(crate::proofs::Stopping::stops, crate::proofs::Stopping::behind, crate::proofs::Stopping::ran_out), unfolding(crate::specs::Ended::Ends))]
fn return_done(
    frame: &Frame<'_>,
    world: &mut World,
    env: &Data,
    place: Place,
    e: &Option<Expr>,
) -> Result<Flow, Stop>
    ensures { Ends (flow_of (all_meant env.now)) result (does (setting_of frame.now) frame.now.clock (headed place (own_return (optional_scalars (optional_tree e.now))) (give_back (optional_tree e.now))) (all_meant env.now) (world_of world.old)) (world_of world.new) }
{
    pay_return(world, e)?;
    let v = optional_value(frame, world, place.line, Datum::Nothing, e, env)?;
    Ok(Flow::Back(v))
}

/// The arms of an `if`, of which each `elif` pays for itself, and the rest.
#[cycle(run)]
#[tactic(auto, using(crate::proofs::Stopping::stops, crate::proofs::Stopping::behind, crate::proofs::Stopping::ran_out, crate::proofs::Flowing::alone_ends, crate::proofs::Flowing::alone), unfolding(crate::specs::Ended::Ends))]
fn arms_done(
    frame: &Frame<'_>,
    world: &mut World,
    env: &mut Data,
    a: u64,
    place: Place,
    arms: &[Arm],
    rest: &[Stmt],
) -> Result<Flow, Stop>
    ensures { Ends (flow_of (all_meant env.new)) result (all_do (setting_of frame.now) frame.now.clock (otherwise place (variables_of frame.now) a (map arm_of arms.now) (map statement_of rest.now)) (all_meant env.old) (world_of world.old)) (world_of world.new) }
{
    let mut left = arms;
    while let [arm, behind @ ..] = left {
        pay_head(world, HeadKind::If, arms_assign(frame, left, rest)?)?;
        let condition = value(frame, world, place.line, &arm.condition, env)?;
        if is_true(&condition) {
            return body_done(frame, world, env, a, arm.body.as_slice());
        }
        left = behind;
    }
    body_done(frame, world, env, a, rest)
}

/// An `if`; one without arms does the rest, as if its condition were `True`.
#[cycle(run)]
#[tactic(auto, using(crate::proofs::Stopping::ran_out, crate::proofs::Flowing::if_first), unfolding(crate::specs::Ended::Ends))]
fn if_done(
    frame: &Frame<'_>,
    world: &mut World,
    env: &mut Data,
    a: u64,
    place: Place,
    arms: &Arms,
    rest: &Stmts,
) -> Result<Flow, Stop>
    ensures { Ends (flow_of (all_meant env.new)) result (does (setting_of frame.now) frame.now.clock (if_plain place (variables_of frame.now) a (map arm_of arms.now) (map statement_of rest.now)) (all_meant env.old) (world_of world.old)) (world_of world.new) }
{
    match arms.as_slice() {
        [] => {
            pay_head(world, HeadKind::If, 0)?;
            pay_flag(world)?;
            body_done(frame, world, env, a, rest.as_slice())
        }
        arms => arms_done(frame, world, env, a, place, arms, rest.as_slice()),
    }
}

/// The arm of the first literal that equals the value, or else the rest.
#[cycle(run)]
#[tactic(auto, using(crate::proofs::Picking::picks_first, crate::proofs::Picking::picks_on), unfolding(crate::specs::Ended::Ends))]
fn picked(
    frame: &Frame<'_>,
    world: &mut World,
    env: &mut Data,
    a: u64,
    v: &Datum,
    picks: &[MatchArm],
    rest: &[Stmt],
) -> Result<Flow, Stop>
    ensures { Ends (flow_of (all_meant env.new)) result (picked_there (setting_of frame.now) frame.now.clock (meant v.now) (picks_plain (variables_of frame.now) a (map pick_of picks.now)) (all_do (setting_of frame.now) frame.now.clock (all_plain (variables_of frame.now) a (map statement_of rest.now)) (all_meant env.old)) (all_meant env.old) (world_of world.old)) (world_of world.new) }
{
    let mut left = picks;
    while let [pick, behind @ ..] = left {
        if equals(v, pick.literal.as_slice()) {
            return body_done(frame, world, env, a, pick.body.as_slice());
        }
        left = behind;
    }
    body_done(frame, world, env, a, rest)
}

#[cycle(run)]
#[tactic(auto, using(crate::proofs::Stopping::stops, crate::proofs::Stopping::behind, crate::proofs::Stopping::ran_out), unfolding(crate::specs::Ended::Ends))]
fn match_done(
    frame: &Frame<'_>,
    world: &mut World,
    env: &mut Data,
    a: u64,
    s: &Stmt,
    e: &Expr,
    picks: &MatchArms,
    rest: &Stmts,
) -> Result<Flow, Stop>
    ensures { Ends (flow_of (all_meant env.new)) result (does (setting_of frame.now) frame.now.clock (headed s.now.place (own_match (length picks.now) (literal_bytes (map pick_of picks.now)) (inner_of frame.now s.now)) (pick (tree_of e.now) (picks_plain (variables_of frame.now) a (map pick_of picks.now)) (all_plain (variables_of frame.now) a (map statement_of rest.now)))) (all_meant env.old) (world_of world.old)) (world_of world.new) }
{
    let inner = assigned_in(frame, s)?;
    pay_match(world, picks.len(), inner)?;
    let v = value(frame, world, s.place.line, e, env)?;
    picked(frame, world, env, a, &v, picks.as_slice(), rest.as_slice())
}

/// Leaves a turn of the innermost loop, which assigns variables of so many scalars.
fn leave(world: &mut World, a: u64, flow: Flow) -> Result<Flow, Memory>
    ensures same { IfOk result (λ f. f ≡ flow) }
    ensures paid { OnOk result (world_of world.new ≡ with_seen (world_of world.old) (paid (own_leave a).price (world_of world.old).seen)) }
{
    pay_head(world, HeadKind::Leave, a)?;
    Ok(flow)
}

/// What a statement does; `a` is the number of scalars of the variables that its innermost loop assigns.
#[cycle(run)]
#[tactic(auto, using(crate::proofs::Stopping::ran_out), unfolding(crate::specs::Ended::Ends))]
fn statement(
    frame: &Frame<'_>,
    world: &mut World,
    env: &mut Data,
    a: u64,
    s: &Stmt,
) -> Result<Flow, Stop>
    ensures { Ends (flow_of (all_meant env.new)) result (does (setting_of frame.now) frame.now.clock ((statement_of s.now).plain (variables_of frame.now) a) (all_meant env.old) (world_of world.old)) (world_of world.new) }
{
    let place = s.place;
    match &s.kind {
        StmtKind::Assign(targets, prim, e) => {
            assign(frame, world, env, place, targets, *prim, e)
        }
        StmtKind::Drop(e) => effect_done(frame, world, env, place, e),
        StmtKind::Assert(e) => assert_done(frame, world, env, place, e),
        StmtKind::If(arms, rest) => if_done(frame, world, env, a, place, arms, rest),
        StmtKind::While(c, body) => while_done(frame, world, env, s, c, body),
        StmtKind::Range(x, start, stop, step, body) => {
            range_done(frame, world, env, s, *x, start, stop, *step, body)
        }
        StmtKind::Each(x, e, body) => each_done(frame, world, env, s, *x, e, body),
        StmtKind::Break => Ok(leave(world, a, Flow::Broke)?),
        StmtKind::Continue => Ok(leave(world, a, Flow::Continued)?),
        StmtKind::Return(e) => return_done(frame, world, env, place, e),
        StmtKind::Fail => {
            pay_head(world, HeadKind::Fail, 0)?;
            Err(Stop::Failed)
        }
        StmtKind::Match(e, picks, rest) => match_done(frame, world, env, a, s, e, picks, rest),
    }
}

/// What the statements of a body do, one after another.
#[cycle(run)]
#[tactic(auto, using(crate::proofs::Stopping::stops, crate::proofs::Stopping::behind, crate::proofs::Stopping::ran_out), unfolding(crate::specs::Ended::Ends))]
pub(crate) fn body_done(
    frame: &Frame<'_>,
    world: &mut World,
    env: &mut Data,
    a: u64,
    body: &[Stmt],
) -> Result<Flow, Stop>
    ensures { Ends (flow_of (all_meant env.new)) result (all_do (setting_of frame.now) frame.now.clock (all_plain (variables_of frame.now) a (map statement_of body.now)) (all_meant env.old) (world_of world.old)) (world_of world.new) }
{
    for s in body {
        match statement(frame, world, env, a, s)? {
            Flow::On => {}
            Flow::Back(v) => return Ok(Flow::Back(v)),
            Flow::Broke => return Ok(Flow::Broke),
            Flow::Continued => return Ok(Flow::Continued),
        }
    }
    Ok(Flow::On)
}
