//! What a loop does, computed, turn by turn.

ghost use Rattle.std.specs.Prelude.{◌≡◌, suc, map};
ghost use Rattle.runs.specs.Steps.{bind, pay, tick};
ghost use Rattle.awst.specs.Values.{number, string};
ghost use Rattle.awst.specs.Table.{own_while, own_range, own_each};
ghost use Rattle.awst.specs.Tree.{loop as loop_deed, count, each};
ghost use Rattle.awst.specs.Meaning.{value_of, does, all_do, turns, turn_while, turn_of_range, turn_of_items, items_of};
ghost use Rattle.awst.specs.Plain.{tree_of, optional_tree, headed, all_plain, statement_of};
ghost use Rattle.awst_eval.specs.Shown.{meant, all_meant};
ghost use Rattle.awst_eval.specs.Ended.{Ends};
ghost use Rattle.awst_eval.specs.Worlds.{world_of};
ghost use Rattle.awst_eval.specs.Flows.{flow_of};
ghost use Rattle.awst_eval.specs.Frames.{setting_of, variables_of, inner_of};

use crate::assigned::assigned_in;
use crate::datum::{Data, Datum, byte, is_true, number_of};
use crate::flow::{Flow, ended_by};
use crate::frame::Frame;
use crate::meaning::expressions::{optional_value, value};
use crate::meaning::statements::body_done;
use crate::prices::{head_price, pay_head};
use crate::stop::Stop;
use crate::variables::put;
use crate::world::World;
use awst::{Expr, HeadKind, Stmt, Stmts};

/// A turn that begins: it uses one of the bound, pays its price, and does the body.
#[cycle(run)]
#[tactic(auto, using(crate::proofs::Stopping::ran_out, crate::proofs::Ticking::ticks_on, crate::proofs::Ticking::ticks_out), unfolding(crate::specs::Ended::Ends))]
fn turn(
    frame: &Frame<'_>,
    world: &mut World,
    env: &mut Data,
    inner: u64,
    price: u64,
    body: &[Stmt],
) -> Result<Flow, Stop>
    ensures { Ends (flow_of (all_meant env.new)) result (tick (pay price (all_do (setting_of frame.now) frame.now.clock (all_plain (variables_of frame.now) inner (map statement_of body.now)) (all_meant env.old))) (world_of world.old)) (world_of world.new) }
{
    if !world.tick() {
        return Err(Stop::Going);
    }
    world.pay(price)?;
    body_done(frame, world, env, inner, body)
}

#[cycle(run)]
#[tactic(auto, using(crate::proofs::Turning::while_over, crate::proofs::Turning::while_on, crate::proofs::Turning::while_stops, crate::proofs::Turning::while_turn_stops, crate::proofs::Flowing::turned_again, crate::proofs::Flowing::turned_end), unfolding(crate::specs::Ended::Ends))]
fn while_turns(
    frame: &Frame<'_>,
    world: &mut World,
    env: &mut Data,
    inner: u64,
    price: u64,
    line: u32,
    c: &Expr,
    body: &[Stmt],
) -> Result<Flow, Stop>
    ensures { Ends (flow_of (all_meant env.new)) result (turns (suc frame.now.clock) price (turn_while (λ variables. value_of (setting_of frame.now) line variables (tree_of c.now))) (all_do (setting_of frame.now) frame.now.clock (all_plain (variables_of frame.now) inner (map statement_of body.now))) tt (all_meant env.old) (world_of world.old)) (world_of world.new) }
{
    let mut left = frame.clock;
    loop {
        let condition = value(frame, world, line, c, env)?;
        if !is_true(&condition) {
            return Ok(Flow::On);
        }
        let flow = turn(frame, world, env, inner, price, body)?;
        if let Some(end) = ended_by(flow) {
            return Ok(end);
        }
        if left == 0 {
            return Err(Stop::Going);
        }
        left -= 1;
    }
}

/// A loop pays its price when it starts and for each turn that begins.
#[cycle(run)]
#[tactic(auto, using(crate::proofs::Stopping::ran_out), unfolding(crate::specs::Ended::Ends))]
pub(crate) fn while_done(
    frame: &Frame<'_>,
    world: &mut World,
    env: &mut Data,
    s: &Stmt,
    c: &Expr,
    body: &Stmts,
) -> Result<Flow, Stop>
    ensures { Ends (flow_of (all_meant env.new)) result (does (setting_of frame.now) frame.now.clock (headed s.now.place (own_while (inner_of frame.now s.now)) (loop_deed (tree_of c.now) (all_plain (variables_of frame.now) (inner_of frame.now s.now) (map statement_of body.now)))) (all_meant env.old) (world_of world.old)) (world_of world.new) }
{
    let inner = assigned_in(frame, s)?;
    let line = s.place.line;
    let price = head_price(HeadKind::While, inner)?;
    world.pay(price)?;
    while_turns(frame, world, env, inner, price, line, c, body.as_slice())
}

/// What a range starts with where no start is given.
fn zero() -> Datum
    ensures { meant result ≡ number 0 }
{
    Datum::Number(0)
}

/// The numbers of a range: the variable that takes them, the first, and the step to the next.
#[derive(Clone, Copy)]
struct Items {
    x: u32,
    from: u64,
    step: u64,
}

/// The turns of a range: one for each number from the first on, in steps, below the stop.
#[cycle(run)]
#[tactic(auto, using(crate::proofs::Turning::range_over, crate::proofs::Turning::range_on, crate::proofs::Turning::range_stops, crate::proofs::Turning::range_capped, crate::proofs::Flowing::turned_again, crate::proofs::Flowing::turned_end), unfolding(crate::specs::Ended::Ends))]
fn range_turns(
    frame: &Frame<'_>,
    world: &mut World,
    env: &mut Data,
    inner: u64,
    price: u64,
    items: &Items,
    stop: u64,
    body: &[Stmt],
) -> Result<Flow, Stop>
    ensures { Ends (flow_of (all_meant env.new)) result (turns (suc frame.now.clock) price (turn_of_range items.now.x items.now.step stop) (all_do (setting_of frame.now) frame.now.clock (all_plain (variables_of frame.now) inner (map statement_of body.now))) items.now.from (all_meant env.old) (world_of world.old)) (world_of world.new) }
{
    let mut left = frame.clock;
    let mut item = items.from;
    while item < stop {
        put(env, items.x, Datum::Number(item));
        let flow = turn(frame, world, env, inner, price, body)?;
        if let Some(end) = ended_by(flow) {
            return Ok(end);
        }
        if left == 0 {
            return Err(Stop::Going);
        }
        left -= 1;
        item = item.saturating_add(items.step);
    }
    Ok(Flow::On)
}

#[cycle(run)]
#[tactic(auto, using(crate::proofs::Stopping::stops, crate::proofs::Stopping::behind, crate::proofs::Stopping::ran_out), unfolding(crate::specs::Ended::Ends))]
pub(crate) fn range_done(
    frame: &Frame<'_>,
    world: &mut World,
    env: &mut Data,
    s: &Stmt,
    x: u32,
    start: &Option<Expr>,
    stop: &Expr,
    step: u64,
    body: &Stmts,
) -> Result<Flow, Stop>
    ensures { Ends (flow_of (all_meant env.new)) result (does (setting_of frame.now) frame.now.clock (headed s.now.place (own_range (inner_of frame.now s.now)) (count x (optional_tree start.now) (tree_of stop.now) step (all_plain (variables_of frame.now) (inner_of frame.now s.now) (map statement_of body.now)))) (all_meant env.old) (world_of world.old)) (world_of world.new) }
{
    let inner = assigned_in(frame, s)?;
    let price = head_price(HeadKind::Range, inner)?;
    world.pay(price)?;
    let line = s.place.line;
    let first = optional_value(frame, world, line, zero(), start, env)?;
    let last = value(frame, world, line, stop, env)?;
    let from = number_of(&first);
    let to = number_of(&last);
    let items = Items { x, from, step };
    let body = body.as_slice();
    range_turns(frame, world, env, inner, price, &items, to, body)
}

#[cycle(run)]
#[tactic(auto, using(crate::proofs::Stopping::ran_out, crate::proofs::Turning::bytes_on, crate::proofs::Turning::bytes_stop, crate::proofs::Flowing::turned_again, crate::proofs::Flowing::turned_end), unfolding(crate::specs::Ended::Ends))]
fn byte_turns(
    frame: &Frame<'_>,
    world: &mut World,
    env: &mut Data,
    inner: u64,
    price: u64,
    x: u32,
    bytes: &[u8],
    body: &[Stmt],
) -> Result<Flow, Stop>
    ensures { Ends (flow_of (all_meant env.new)) result (turns (suc frame.now.clock) price (turn_of_items x) (all_do (setting_of frame.now) frame.now.clock (all_plain (variables_of frame.now) inner (map statement_of body.now))) (items_of (string bytes.now)) (all_meant env.old) (world_of world.old)) (world_of world.new) }
{
    let mut left = frame.clock;
    let mut items = bytes;
    while let [first, behind @ ..] = items {
        put(env, x, byte(frame.alloc, *first)?);
        let flow = turn(frame, world, env, inner, price, body)?;
        if let Some(end) = ended_by(flow) {
            return Ok(end);
        }
        if left == 0 {
            return Err(Stop::Going);
        }
        left -= 1;
        items = behind;
    }
    Ok(Flow::On)
}

/// The turns of a loop over the items of a value: no value but bytes has some.
#[cycle(run)]
#[tactic(auto, unfolding(crate::specs::Ended::Ends))]
fn item_turns(
    frame: &Frame<'_>,
    world: &mut World,
    env: &mut Data,
    inner: u64,
    price: u64,
    x: u32,
    items: &Datum,
    body: &[Stmt],
) -> Result<Flow, Stop>
    ensures { Ends (flow_of (all_meant env.new)) result (turns (suc frame.now.clock) price (turn_of_items x) (all_do (setting_of frame.now) frame.now.clock (all_plain (variables_of frame.now) inner (map statement_of body.now))) (items_of (meant items.now)) (all_meant env.old) (world_of world.old)) (world_of world.new) }
{
    match items {
        Datum::Text(bytes) => {
            byte_turns(frame, world, env, inner, price, x, bytes.as_slice(), body)
        }
        _ => Ok(Flow::On),
    }
}

/// The turns of a loop over a value, behind the value.
#[cycle(run)]
#[tactic(auto, using(crate::proofs::Stopping::stops, crate::proofs::Stopping::behind, crate::proofs::Stopping::ran_out), unfolding(crate::specs::Ended::Ends))]
fn each_item(
    frame: &Frame<'_>,
    world: &mut World,
    env: &mut Data,
    line: u32,
    inner: u64,
    x: u32,
    e: &Expr,
    body: &[Stmt],
) -> Result<Flow, Stop>
    ensures { Ends (flow_of (all_meant env.new)) result (bind (value_of (setting_of frame.now) line (all_meant env.old) (tree_of e.now)) (λ v. turns (suc frame.now.clock) (own_each inner).price (turn_of_items x) (all_do (setting_of frame.now) frame.now.clock (all_plain (variables_of frame.now) inner (map statement_of body.now))) (items_of v) (all_meant env.old)) (world_of world.old)) (world_of world.new) }
{
    let price = head_price(HeadKind::Each, inner)?;
    let items = value(frame, world, line, e, env)?;
    item_turns(frame, world, env, inner, price, x, &items, body)
}

#[cycle(run)]
#[tactic(auto, using(crate::proofs::Stopping::ran_out), unfolding(crate::specs::Ended::Ends))]
pub(crate) fn each_done(
    frame: &Frame<'_>,
    world: &mut World,
    env: &mut Data,
    s: &Stmt,
    x: u32,
    e: &Expr,
    body: &Stmts,
) -> Result<Flow, Stop>
    ensures { Ends (flow_of (all_meant env.new)) result (does (setting_of frame.now) frame.now.clock (headed s.now.place (own_each (inner_of frame.now s.now)) (each x (tree_of e.now) (all_plain (variables_of frame.now) (inner_of frame.now s.now) (map statement_of body.now)))) (all_meant env.old) (world_of world.old)) (world_of world.new) }
{
    let inner = assigned_in(frame, s)?;
    pay_head(world, HeadKind::Each, inner)?;
    let line = s.place.line;
    let body = body.as_slice();
    each_item(frame, world, env, line, inner, x, e, body)
}
