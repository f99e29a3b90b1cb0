//! How many bytes the code of expressions and statements may have.

ghost use Rattle.std.specs.Prelude.{◌≡◌, ℕ, ◌+◌, length, map, IfOk};
ghost use Rattle.puya_base.specs.declared.source.Place.{Place};
ghost use Rattle.awst.specs.Arms.{arms_weight};
ghost use Rattle.awst.specs.Capped.{capped};
ghost use Rattle.awst.specs.Functions.{function_of};
ghost use Rattle.awst.specs.Heads.{own_head};
ghost use Rattle.awst.specs.Marks.{sizes_of};
ghost use Rattle.awst.specs.Plain.{Scope, all_plain, arm_of, assigned_value, bare_of, destination, if_plain, kind_of, literal_bytes, optional_scalars, optional_tree, pick_of, picks_plain, statement_of, tree_of, trees_of, updated};
ghost use Rattle.awst.specs.Table.{own_match};
ghost use Rattle.awst.specs.Tree.{to_variable};
ghost use Rattle.awst.specs.Weight.{ex_weight, exs_weight, form_weight, function_weight, optional_weight, picks_weight, st_weight, sts_weight};

use crate::amounts::places;
use crate::assigned_rows::{assigned_by, mark_arm, marked_sizes, marks_of_body, sizes};
use crate::contract::Func;
use crate::expression::{Expr, ExprKind, Index};
use crate::node_amounts::{
    HeadKind, expression_amounts, head_amounts, linear, match_amounts, primitive_amounts,
};
use crate::primitive::Primitive;
use crate::statement::{Arm, MatchArm, Stmt, StmtKind, Target};
use crate::waits::scalars;
use puya_base::Memory;
use std::alloc::Global;

/// What `True` weighs, which stands for the condition of an `if` without arms.
const TRUE_WEIGHT: u64 = 5;

/// The weight of an expression with its parts.
#[cycle(weigh)]
pub(crate) fn weight_of(e: &Expr) -> u64
    ensures { result ≡ capped (ex_weight (tree_of e.now)) }
{
    let own = expression_amounts(e).weight;
    own.saturating_add(form_weighs(&e.kind))
}

#[cycle(weigh)]
fn form_weighs(kind: &ExprKind) -> u64
    ensures { result ≡ capped (form_weight (bare_of kind.now).form) }
{
    match kind {
        ExprKind::Prim(_prim, parts) => parts_weigh(parts.as_slice()),
        ExprKind::And(a, b) => weight_of(a.get()).saturating_add(weight_of(b.get())),
        ExprKind::Or(a, b) => weight_of(a.get()).saturating_add(weight_of(b.get())),
        ExprKind::Choose(c, a, b) => {
            let condition = weight_of(c.get());
            condition
                .saturating_add(weight_of(a.get()))
                .saturating_add(weight_of(b.get()))
        }
        ExprKind::Tuple(parts) => parts_weigh(parts.as_slice()),
        ExprKind::Item(value, Index::Fixed(_at)) => weight_of(value.get()),
        ExprKind::Item(value, Index::At(at)) => weight_of(value.get()).saturating_add(weight_of(
            at.get(),
        )),
        ExprKind::Call(_f, parts, _order) => parts_weigh(parts.as_slice()),
        _ => 0,
    }
}

#[cycle(weigh)]
fn parts_weigh(parts: &[Expr]) -> u64
    ensures { result ≡ capped (exs_weight (trees_of parts.now)) }
{
    let mut total: u64 = 0;
    for e in parts {
        total = total.saturating_add(weight_of(e));
    }
    total
}

fn optional_weighs(e: &Option<Expr>) -> u64
    ensures { result ≡ capped (optional_weight (optional_tree e.now)) }
{
    match e {
        Some(e) => weight_of(e),
        None => 0,
    }
}

fn returned_scalars(e: &Option<Expr>) -> u64
    ensures { result ≡ capped (optional_scalars (optional_tree e.now)) }
{
    match e {
        Some(e) => scalars(&e.ty),
        None => 0,
    }
}

/// The value of an augmented assignment: a read of its variable, its right side, and the form.
fn updated_weighs(prim: Primitive, e: &Expr) -> u64
    ensures { (p : Place) (x : ℕ) → result ≡ capped (ex_weight (updated p prim (to_variable x) (tree_of e.now))) }
{
    let held = scalars(&e.ty);
    let own = primitive_amounts(prim, held, 2).weight;
    let read = head_amounts(HeadKind::Local, held).weight;
    own.saturating_add(read).saturating_add(weight_of(e))
}

fn assigned_weighs(targets: &[Target], prim: Option<Primitive>, e: &Expr) -> u64
    ensures { (p : Place) → result ≡ capped (ex_weight (assigned_value p prim (map destination targets.now) (tree_of e.now))) }
{
    match (prim, targets) {
        (Some(prim), [_one]) => updated_weighs(prim, e),
        _ => weight_of(e),
    }
}

/// A node of so many scalars with its parts, which weigh so much.
fn headed(head: HeadKind, scalars: u64, parts: u64) -> u64
    ensures { (s p : ℕ) → scalars ≡ capped s → parts ≡ capped p → result ≡ capped ((own_head head s).weight + p) }
{
    head_amounts(head, scalars).weight.saturating_add(parts)
}

/// The sum of four weights, at most 2^64-1.
fn sum_of_four(own: u64, e: u64, bodies: u64, rest: u64) -> u64
    ensures { (i j k l : ℕ) → own ≡ capped i → e ≡ capped j → bodies ≡ capped k → rest ≡ capped l → result ≡ capped (i + (j + k + l)) }
{
    own.saturating_add(e)
        .saturating_add(bodies)
        .saturating_add(rest)
}

/// How many bytes the literals of a choice have together, at most 2^64-1.
fn literals_size(picks: &[MatchArm]) -> u64
    ensures { result ≡ capped (literal_bytes (map pick_of picks.now)) }
{
    let mut total: u64 = 0;
    for pick in picks {
        total = total.saturating_add(pick.literal.len() as u64);
    }
    total
}

/// A choice among literals itself, by the scalars of the variables that are assigned in it.
fn match_own(picks: &[MatchArm], scalars: u64) -> u64
    ensures { (s : ℕ) → scalars ≡ capped s → result ≡ capped (own_match (length (map pick_of picks.now)) (literal_bytes (map pick_of picks.now)) s).weight }
{
    match_amounts(picks.len() as u64, literals_size(picks), scalars).weight
}

/// The weight of a statement with all that stands in it, by the scalars of the variables of its function
/// and of those that its innermost loop assigns.
#[cycle(weights)]
fn stmt_weighs(alloc: Global, sizes: &[u64], around: u64, s: &Stmt) -> Result<u64, Memory>
    ensures { (scope : Scope) (a : ℕ) → sizes.now ≡ sizes_of scope → around ≡ capped a → IfOk result (λ w. w ≡ capped (st_weight ((statement_of s.now).plain scope a))) }
{
    kind_weighs(alloc, sizes, around, &s.kind)
}

#[cycle(weights)]
fn kind_weighs(alloc: Global, sizes: &[u64], around: u64, kind: &StmtKind) -> Result<u64, Memory>
    ensures { (p : Place) (scope : Scope) (a : ℕ) → sizes.now ≡ sizes_of scope → around ≡ capped a → IfOk result (λ w. w ≡ capped (st_weight ((kind_of kind.now p).plain scope a))) }
{
    match kind {
        StmtKind::Assign(targets, prim, e) => {
            let value = assigned_weighs(targets.as_slice(), *prim, e);
            Ok(headed(HeadKind::Assign, scalars(&e.ty), value))
        }
        StmtKind::Drop(e) => Ok(headed(HeadKind::Effect, scalars(&e.ty), weight_of(e))),
        StmtKind::Assert(e) => Ok(headed(HeadKind::Assert, 0, weight_of(e))),
        StmtKind::If(arms, rest) => {
            let arms = arms.as_slice();
            let rest = rest.as_slice();
            let behind = body_weighs(alloc, sizes, around, rest)?;
            if_weighs(alloc, sizes, around, arms, rest, behind)
        }
        StmtKind::While(c, body) => {
            let inner = assigned_by(alloc, sizes, kind)?;
            loop_weighs(
                alloc,
                sizes,
                inner,
                HeadKind::While,
                weight_of(c),
                body.as_slice(),
            )
        }
        StmtKind::Range(_x, start, stop, _step, body) => {
            let inner = assigned_by(alloc, sizes, kind)?;
            let ends = optional_weighs(start).saturating_add(weight_of(stop));
            loop_weighs(alloc, sizes, inner, HeadKind::Range, ends, body.as_slice())
        }
        StmtKind::Each(_x, e, body) => {
            let inner = assigned_by(alloc, sizes, kind)?;
            loop_weighs(
                alloc,
                sizes,
                inner,
                HeadKind::Each,
                weight_of(e),
                body.as_slice(),
            )
        }
        StmtKind::Break | StmtKind::Continue => Ok(headed(HeadKind::Leave, around, 0)),
        StmtKind::Return(e) => Ok(headed(
            HeadKind::Return,
            returned_scalars(e),
            optional_weighs(e),
        )),
        StmtKind::Fail => Ok(headed(HeadKind::Fail, 0, 0)),
        StmtKind::Match(e, picks, rest) => {
            let inner = assigned_by(alloc, sizes, kind)?;
            let picks = picks.as_slice();
            let rest = rest.as_slice();
            let bodies = picks_weigh(alloc, sizes, around, picks)?;
            let behind = body_weighs(alloc, sizes, around, rest)?;
            Ok(sum_of_four(match_own(picks, inner), weight_of(e), bodies, behind))
        }
    }
}

/// A loop by the scalars of the variables that it assigns, and by the weight of the expressions in its head.
#[cycle(weights)]
fn loop_weighs(
    alloc: Global,
    sizes: &[u64],
    inner: u64,
    head: HeadKind,
    ends: u64,
    body: &[Stmt],
) -> Result<u64, Memory>
    ensures { (scope : Scope) (a e : ℕ) → sizes.now ≡ sizes_of scope → inner ≡ capped a → ends ≡ capped e → IfOk result (λ w. w ≡ capped ((own_head head a).weight + (e + sts_weight (all_plain scope a (map statement_of body.now))))) }
{
    let body = body_weighs(alloc, sizes, inner, body)?;
    Ok(headed(head, inner, ends.saturating_add(body)))
}

#[cycle(weights)]
fn body_weighs(alloc: Global, sizes: &[u64], around: u64, body: &[Stmt]) -> Result<u64, Memory>
    ensures { (scope : Scope) (a : ℕ) → sizes.now ≡ sizes_of scope → around ≡ capped a → IfOk result (λ w. w ≡ capped (sts_weight (all_plain scope a (map statement_of body.now)))) }
{
    let mut total: u64 = 0;
    for s in body {
        let one = stmt_weighs(alloc, sizes, around, s)?;
        total = total.saturating_add(one);
    }
    Ok(total)
}

/// An `if` by its arms, by the rest behind them, and by what the rest weighs.
#[cycle(weights)]
fn if_weighs(
    alloc: Global,
    sizes: &[u64],
    around: u64,
    arms: &[Arm],
    rest: &[Stmt],
    behind: u64,
) -> Result<u64, Memory>
    ensures { (p : Place) (scope : Scope) (a : ℕ) → sizes.now ≡ sizes_of scope → around ≡ capped a → behind ≡ capped (sts_weight (all_plain scope a (map statement_of rest.now))) → IfOk result (λ w. w ≡ capped (st_weight (if_plain p scope a (map arm_of arms.now) (map statement_of rest.now)))) }
{
    if arms.is_empty() {
        Ok(headed(HeadKind::If, 0, behind.saturating_add(TRUE_WEIGHT)))
    } else {
        arms_weigh(alloc, sizes, around, arms, rest, behind)
    }
}

/// The arms from the last to the first, so that each is looked at once: a row marks what the arms so far and the rest assign.
#[cycle(weights)]
fn arms_weigh(
    alloc: Global,
    sizes: &[u64],
    around: u64,
    arms: &[Arm],
    rest: &[Stmt],
    behind: u64,
) -> Result<u64, Memory>
    ensures { (scope : Scope) (a : ℕ) → sizes.now ≡ sizes_of scope → around ≡ capped a → behind ≡ capped (sts_weight (all_plain scope a (map statement_of rest.now))) → IfOk result (λ w. w ≡ capped (arms_weight scope a (map arm_of arms.now) (map statement_of rest.now))) }
{
    let mut marks = marks_of_body(alloc, sizes.len(), rest)?;
    let mut total = behind;
    let mut at = arms.len();
    while at > 0 {
        at -= 1;
        let arm = &arms[at];
        mark_arm(arm, &mut marks);
        let inner = marked_sizes(marks.as_slice(), sizes);
        let weighed = arm_weighs(alloc, sizes, around, arm)?;
        total = headed(HeadKind::If, inner, weighed.saturating_add(total));
    }
    Ok(total)
}

#[cycle(weights)]
fn arm_weighs(alloc: Global, sizes: &[u64], around: u64, arm: &Arm) -> Result<u64, Memory>
    ensures { (scope : Scope) (a : ℕ) → sizes.now ≡ sizes_of scope → around ≡ capped a → IfOk result (λ w. w ≡ capped (ex_weight (arm_of arm.now).condition + sts_weight (all_plain scope a (arm_of arm.now).body))) }
{
    let body = body_weighs(alloc, sizes, around, arm.body.as_slice())?;
    Ok(weight_of(&arm.condition).saturating_add(body))
}

/// The bodies of a choice among literals.
#[cycle(weights)]
fn picks_weigh(alloc: Global, sizes: &[u64], around: u64, picks: &[MatchArm]) -> Result<u64, Memory>
    ensures { (scope : Scope) (a : ℕ) → sizes.now ≡ sizes_of scope → around ≡ capped a → IfOk result (λ w. w ≡ capped (picks_weight (picks_plain scope a (map pick_of picks.now)))) }
{
    let mut total: u64 = 0;
    for pick in picks {
        let one = pick_weighs(alloc, sizes, around, pick)?;
        total = total.saturating_add(one);
    }
    Ok(total)
}

#[cycle(weights)]
fn pick_weighs(alloc: Global, sizes: &[u64], around: u64, pick: &MatchArm) -> Result<u64, Memory>
    ensures { (scope : Scope) (a : ℕ) → sizes.now ≡ sizes_of scope → around ≡ capped a → IfOk result (λ w. w ≡ capped (sts_weight (all_plain scope a (pick_of pick.now).body))) }
{
    body_weighs(alloc, sizes, around, pick.body.as_slice())
}

/// The weight of a function with its body, at most 2^64-1. The error is want of memory.
pub(crate) fn function_weighs(alloc: Global, f: &Func) -> Result<u64, Memory>
    ensures { IfOk result (λ w. w ≡ capped (function_weight (function_of f.now))) }
{
    let sizes = sizes(alloc, f)?;
    let body = body_weighs(alloc, sizes.as_slice(), 0, f.body.as_slice())?;
    Ok(linear(32, 4, places(f)).saturating_add(body))
}
