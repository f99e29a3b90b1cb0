//! Which variables statements assign, and how many scalars they have.

ghost use Rattle.std.specs.Prelude.{◌≡◌, ◌==◌, ◌||◌, ◌++◌, [], false, if◌then◌else◌, map, replicate, IfOk, OnOk};
ghost use Rattle.puya_base.specs.declared.source.Place.{Place};
ghost use Rattle.awst.specs.Capped.{capped};
ghost use Rattle.awst.specs.Functions.{scope_of};
ghost use Rattle.awst.specs.Marks.{marked, marked_sum, sizes_of};
ghost use Rattle.awst.specs.Reach.{mark_at};
ghost use Rattle.awst.specs.Types.{type_of};
ghost use Rattle.awst.specs.Plain.{Scope, arm_of, assigned_in, assigned_in_arms, assigned_in_picks, assigned_scalars, destination, is_among, is_destination, kind_of, pick_of, statement_of};

use crate::contract::Func;
use crate::statement::{Arm, MatchArm, Stmt, StmtKind, Target};
use crate::ty::Ty;
use crate::waits::scalars;
use puya_base::{List, Memory};
use std::alloc::Global;

/// Marks a variable by its number, where there is a mark for it.
#[tactic(auto, using(crate::proofs::Marking::marked_one, crate::proofs::Marking::marked_outside))]
pub(crate) fn mark(marks: &mut List<bool>, x: u32)
    ensures { marks.new ≡ marked (λ y. x == y) marks.old }
{
    let place = x as usize;
    if place < marks.len() {
        marks.set(place, true);
    }
}

fn mark_target(target: &Target, marks: &mut List<bool>)
    ensures { marks.new ≡ marked (is_destination (destination target.now)) marks.old }
{
    match target {
        Target::Local(x) => mark(marks, *x),
    }
}

fn mark_targets(targets: &[Target], marks: &mut List<bool>)
    ensures { marks.new ≡ marked (is_among (map destination targets.now)) marks.old }
{
    for target in targets {
        mark_target(target, marks);
    }
}

/// Marks the variables that a statement assigns.
#[cycle(assigned)]
pub(crate) fn mark_stmt(s: &Stmt, marks: &mut List<bool>)
    ensures { marks.new ≡ marked (statement_of s.now).assigns marks.old }
{
    mark_kind(&s.kind, marks)
}

#[cycle(assigned)]
fn mark_kind(kind: &StmtKind, marks: &mut List<bool>)
    ensures { (p : Place) → marks.new ≡ marked (kind_of kind.now p).assigns marks.old }
{
    match kind {
        StmtKind::Assign(targets, _prim, _e) => mark_targets(targets.as_slice(), marks),
        StmtKind::If(arms, rest) => {
            mark_arms(arms.as_slice(), marks);
            mark_body(rest.as_slice(), marks);
        }
        StmtKind::While(_c, body) => mark_body(body.as_slice(), marks),
        StmtKind::Range(x, _start, _stop, _step, body) => { mark_loop(*x, body.as_slice(), marks) }
        StmtKind::Each(x, _e, body) => mark_loop(*x, body.as_slice(), marks),
        StmtKind::Match(_e, picks, rest) => {
            mark_picks(picks.as_slice(), marks);
            mark_body(rest.as_slice(), marks);
        }
        StmtKind::Drop(_e) => {}
        StmtKind::Assert(_e) => {}
        StmtKind::Break => {}
        StmtKind::Continue => {}
        StmtKind::Return(_e) => {}
        StmtKind::Fail => {}
    }
}

#[cycle(assigned)]
fn mark_loop(x: u32, body: &[Stmt], marks: &mut List<bool>)
    ensures { marks.new ≡ marked (λ y. (x == y) || assigned_in (map statement_of body.now) y) marks.old }
{
    mark(marks, x);
    mark_body(body, marks);
}

/// Marks the variables that statements assign.
#[cycle(assigned)]
pub(crate) fn mark_body(body: &[Stmt], marks: &mut List<bool>)
    ensures { marks.new ≡ marked (assigned_in (map statement_of body.now)) marks.old }
{
    for s in body {
        mark_stmt(s, marks);
    }
}

/// Marks the variables that arms assign, without the rest behind them.
#[cycle(assigned)]
pub(crate) fn mark_arms(arms: &[Arm], marks: &mut List<bool>)
    ensures { marks.new ≡ marked (assigned_in_arms (map arm_of arms.now) []) marks.old }
{
    for arm in arms {
        mark_arm(arm, marks);
    }
}

#[cycle(assigned)]
pub(crate) fn mark_arm(arm: &Arm, marks: &mut List<bool>)
    ensures { marks.new ≡ marked (assigned_in (arm_of arm.now).body) marks.old }
{
    mark_body(arm.body.as_slice(), marks);
}

#[cycle(assigned)]
fn mark_pick(pick: &MatchArm, marks: &mut List<bool>)
    ensures { marks.new ≡ marked (assigned_in (pick_of pick.now).body) marks.old }
{
    mark_body(pick.body.as_slice(), marks);
}

#[cycle(assigned)]
fn mark_picks(picks: &[MatchArm], marks: &mut List<bool>)
    ensures { marks.new ≡ marked (assigned_in_picks (map pick_of picks.now) []) marks.old }
{
    for pick in picks {
        mark_pick(pick, marks);
    }
}

/// Marks the variables that the arms of an `if` and the rest behind them assign.
#[tactic(auto, using(crate::proofs::Marking::marked_arms))]
fn mark_if(arms: &[Arm], rest: &[Stmt], marks: &mut List<bool>)
    ensures { marks.new ≡ marked (assigned_in_arms (map arm_of arms.now) (map statement_of rest.now)) marks.old }
{
    mark_arms(arms, marks);
    mark_body(rest, marks);
}

/// Marks of the variables that statements assign.
pub(crate) fn marks_of_body(
    alloc: Global,
    count: usize,
    body: &[Stmt],
) -> Result<List<bool>, Memory>
    ensures { IfOk result (λ marks. marks ≡ marked (assigned_in (map statement_of body.now)) (replicate count false)) }
{
    let mut marks = no_marks(alloc, count)?;
    mark_body(body, &mut marks);
    Ok(marks)
}

/// The size of a variable where it is marked, and else 0.
fn size_if_marked(marks: &[bool], at: usize, size: u64) -> u64
    ensures { result ≡ (if mark_at marks.now at then size else 0) }
{
    match marks.get(at) {
        Some(true) => size,
        _ => 0,
    }
}

/// The sum of the marked sizes, at most 2^64-1.
pub(crate) fn marked_sizes(marks: &[bool], sizes: &[u64]) -> u64
    ensures { result ≡ capped (marked_sum marks.now sizes.now) }
{
    let mut total: u64 = 0;
    for (at, size) in sizes.iter().enumerate() {
        total = total.saturating_add(size_if_marked(marks, at, *size));
    }
    total
}

/// Adds how many scalars a value of each type has.
fn push_sizes(sizes: &mut Vec<u64>, types: &[Ty]) -> Result<(), Memory>
    ensures { OnOk result (sizes.new.items ≡ sizes.old.items ++ sizes_of (map type_of types.now)) }
{
    for ty in types {
        sizes.push(scalars(ty))?;
    }
    Ok(())
}

/// How many scalars each variable of a function has, its parameters first, each at most 2^64-1. The error is want of memory.
pub fn sizes(alloc: Global, f: &Func) -> Result<Vec<u64>, Memory>
    ensures { IfOk result (λ sizes. sizes.items ≡ sizes_of (scope_of f.now)) }
{
    let mut sizes = Vec::new(alloc);
    push_sizes(&mut sizes, f.params.as_slice())?;
    push_sizes(&mut sizes, f.locals.as_slice())?;
    Ok(sizes)
}

/// A mark for each variable, none set.
pub(crate) fn no_marks(alloc: Global, count: usize) -> Result<List<bool>, Memory>
    ensures { IfOk result (λ marks. marks ≡ replicate count false) }
{
    Ok(List::from_vec(vec![in alloc; false; count]?))
}

/// How many scalars the variables have that a statement assigns, each variable once, at most 2^64-1; `sizes` are those of the
/// variables of its function. The error is want of memory.
pub(crate) fn assigned_by(alloc: Global, sizes: &[u64], kind: &StmtKind) -> Result<u64, Memory>
    ensures { (p : Place) (scope : Scope) → sizes.now ≡ sizes_of scope → IfOk result (λ n. n ≡ capped (assigned_scalars scope (kind_of kind.now p).assigns)) }
{
    let mut marks = no_marks(alloc, sizes.len())?;
    mark_kind(kind, &mut marks);
    Ok(marked_sizes(marks.as_slice(), sizes))
}

/// How many scalars the variables have that a statement assigns, each variable once, at most 2^64-1; `sizes` are those of the
/// variables of its function. The error is want of memory.
pub fn assigned(alloc: Global, sizes: &[u64], s: &Stmt) -> Result<u64, Memory>
    ensures { (scope : Scope) → sizes.now ≡ sizes_of scope → IfOk result (λ n. n ≡ capped (assigned_scalars scope (statement_of s.now).assigns)) }
{
    assigned_by(alloc, sizes, &s.kind)
}

/// The same of the arms of an `if` and of the rest behind them.
pub fn assigned_by_arms(
    alloc: Global,
    sizes: &[u64],
    arms: &[Arm],
    rest: &[Stmt],
) -> Result<u64, Memory>
    ensures { (scope : Scope) → sizes.now ≡ sizes_of scope → IfOk result (λ n. n ≡ capped (assigned_scalars scope (assigned_in_arms (map arm_of arms.now) (map statement_of rest.now)))) }
{
    let mut marks = no_marks(alloc, sizes.len())?;
    mark_if(arms, rest, &mut marks);
    Ok(marked_sizes(marks.as_slice(), sizes))
}
