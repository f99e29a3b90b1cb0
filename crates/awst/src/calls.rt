//! Which functions the code of a function calls.

ghost use Rattle.std.specs.Prelude.{◌≡◌, ℕ, ◌++◌, map, OnOk};
ghost use Rattle.puya_base.specs.declared.source.Place.{Place};
ghost use Rattle.awst.specs.Calls.{ex_called, exs_called, form_called, optional_called, picks_called, st_called, sts_called};
ghost use Rattle.awst.specs.Arms.{arms_called};
ghost use Rattle.awst.specs.Plain.{Scope, all_plain, arm_of, bare_of, kind_of, optional_tree, pick_of, picks_plain, statement_of, tree_of, trees_of};

use crate::expression::{Expr, ExprKind, Index};
use crate::statement::{Arm, MatchArm, Stmt, StmtKind};
use puya_base::Memory;

/// Adds the calls of an expression, in order, each as often as it stands there.
#[cycle(called)]
fn push_calls(calls: &mut Vec<u32>, e: &Expr) -> Result<(), Memory>
    ensures { OnOk result (calls.new.items ≡ calls.old.items ++ ex_called (tree_of e.now)) }
{
    push_form_calls(calls, &e.kind)
}

#[cycle(called)]
fn push_form_calls(calls: &mut Vec<u32>, kind: &ExprKind) -> Result<(), Memory>
    ensures { OnOk result (calls.new.items ≡ calls.old.items ++ form_called (bare_of kind.now).form) }
{
    match kind {
        ExprKind::Prim(_prim, parts) => push_parts_calls(calls, parts.as_slice()),
        ExprKind::And(a, b) => {
            push_calls(calls, a.get())?;
            push_calls(calls, b.get())
        }
        ExprKind::Or(a, b) => {
            push_calls(calls, a.get())?;
            push_calls(calls, b.get())
        }
        ExprKind::Choose(c, a, b) => {
            push_calls(calls, c.get())?;
            push_calls(calls, a.get())?;
            push_calls(calls, b.get())
        }
        ExprKind::Tuple(parts) => push_parts_calls(calls, parts.as_slice()),
        ExprKind::Item(value, Index::Fixed(_at)) => push_calls(calls, value.get()),
        ExprKind::Item(value, Index::At(at)) => {
            push_calls(calls, value.get())?;
            push_calls(calls, at.get())
        }
        ExprKind::Call(f, parts, _order) => {
            calls.push(*f)?;
            push_parts_calls(calls, parts.as_slice())
        }
        _ => Ok(()),
    }
}

#[cycle(called)]
fn push_parts_calls(calls: &mut Vec<u32>, parts: &[Expr]) -> Result<(), Memory>
    ensures { OnOk result (calls.new.items ≡ calls.old.items ++ exs_called (trees_of parts.now)) }
{
    for e in parts {
        push_calls(calls, e)?;
    }
    Ok(())
}

fn push_optional_calls(calls: &mut Vec<u32>, e: &Option<Expr>) -> Result<(), Memory>
    ensures { OnOk result (calls.new.items ≡ calls.old.items ++ optional_called (optional_tree e.now)) }
{
    match e {
        Some(e) => push_calls(calls, e),
        None => Ok(()),
    }
}

#[cycle(calls)]
fn push_stmt_calls(calls: &mut Vec<u32>, s: &Stmt) -> Result<(), Memory>
    ensures { (scope : Scope) (a : ℕ) → OnOk result (calls.new.items ≡ calls.old.items ++ st_called ((statement_of s.now).plain scope a)) }
{
    push_kind_calls(calls, &s.kind)
}

#[cycle(calls)]
fn push_kind_calls(calls: &mut Vec<u32>, kind: &StmtKind) -> Result<(), Memory>
    ensures { (p : Place) (scope : Scope) (a : ℕ) → OnOk result (calls.new.items ≡ calls.old.items ++ st_called ((kind_of kind.now p).plain scope a)) }
{
    match kind {
        StmtKind::Assign(_targets, _prim, e) => push_calls(calls, e),
        StmtKind::Drop(e) => push_calls(calls, e),
        StmtKind::Assert(e) => push_calls(calls, e),
        StmtKind::If(arms, rest) => {
            push_arms_calls(calls, arms.as_slice())?;
            push_body_calls(calls, rest.as_slice())
        }
        StmtKind::While(c, body) => {
            push_calls(calls, c)?;
            push_body_calls(calls, body.as_slice())
        }
        StmtKind::Range(_x, start, stop, _step, body) => {
            push_optional_calls(calls, start)?;
            push_calls(calls, stop)?;
            push_body_calls(calls, body.as_slice())
        }
        StmtKind::Each(_x, e, body) => {
            push_calls(calls, e)?;
            push_body_calls(calls, body.as_slice())
        }
        StmtKind::Return(e) => push_optional_calls(calls, e),
        StmtKind::Match(e, picks, rest) => {
            push_calls(calls, e)?;
            push_picks_calls(calls, picks.as_slice())?;
            push_body_calls(calls, rest.as_slice())
        }
        _ => Ok(()),
    }
}

/// Adds the calls of statements, in order, each as often as it stands there.
#[cycle(calls)]
pub(crate) fn push_body_calls(calls: &mut Vec<u32>, body: &[Stmt]) -> Result<(), Memory>
    ensures { (scope : Scope) (a : ℕ) → OnOk result (calls.new.items ≡ calls.old.items ++ sts_called (all_plain scope a (map statement_of body.now))) }
{
    for s in body {
        push_stmt_calls(calls, s)?;
    }
    Ok(())
}

#[cycle(calls)]
fn push_arms_calls(calls: &mut Vec<u32>, arms: &[Arm]) -> Result<(), Memory>
    ensures { (scope : Scope) (a : ℕ) → OnOk result (calls.new.items ≡ calls.old.items ++ arms_called scope a (map arm_of arms.now)) }
{
    for arm in arms {
        push_arm_calls(calls, arm)?;
    }
    Ok(())
}

#[cycle(calls)]
fn push_arm_calls(calls: &mut Vec<u32>, arm: &Arm) -> Result<(), Memory>
    ensures { (scope : Scope) (a : ℕ) → OnOk result (calls.new.items ≡ calls.old.items ++ (ex_called (arm_of arm.now).condition ++ sts_called (all_plain scope a (arm_of arm.now).body))) }
{
    push_calls(calls, &arm.condition)?;
    push_body_calls(calls, arm.body.as_slice())
}

#[cycle(calls)]
fn push_picks_calls(calls: &mut Vec<u32>, picks: &[MatchArm]) -> Result<(), Memory>
    ensures { (scope : Scope) (a : ℕ) → OnOk result (calls.new.items ≡ calls.old.items ++ picks_called (picks_plain scope a (map pick_of picks.now))) }
{
    for pick in picks {
        push_pick_calls(calls, pick)?;
    }
    Ok(())
}

#[cycle(calls)]
fn push_pick_calls(calls: &mut Vec<u32>, pick: &MatchArm) -> Result<(), Memory>
    ensures { (scope : Scope) (a : ℕ) → OnOk result (calls.new.items ≡ calls.old.items ++ sts_called (all_plain scope a (pick_of pick.now).body)) }
{
    push_body_calls(calls, pick.body.as_slice())
}
