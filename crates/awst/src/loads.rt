//! What the statements of a function ask for.

ghost use Rattle.std.specs.Prelude.{◌≡◌, ℕ, ◌+◌, map, max};
ghost use Rattle.awst.specs.Capped.{capped};
ghost use Rattle.awst.specs.Places.{wait, optional_wait as optional_waits, all_loads};
ghost use Rattle.awst.specs.Plain.{tree_of, optional_tree, destination, assigned_value, updated};
ghost use Rattle.awst.specs.Tree.{to_variable};
ghost use Rattle.awst.specs.Functions.{no_place, load_of, load_of_kind, load_of_arm, load_of_pick};

use crate::expression::Expr;
use crate::primitive::Primitive;
use crate::statement::{Arm, MatchArm, Stmt, StmtKind, Target};
use crate::waits::{Part, asked, prim_places, scalars, two_wait, wait_of};

/// The greatest wait of expressions, the number of `for`, and the greatest number of literals in one choice among literals.
#[derive(Clone, Copy)]
pub(crate) struct Load {
    pub(crate) wait: u64,
    pub(crate) fors: u64,
    pub(crate) literals: u64,
}

fn only_wait(wait: u64) -> Load
    ensures wait { result.wait ≡ wait }
    ensures fors { result.fors ≡ 0 }
    ensures literals { result.literals ≡ 0 }
{
    Load {
        wait,
        fors: 0,
        literals: 0,
    }
}

fn beside(a: Load, b: Load) -> Load
    ensures wait { result.wait ≡ max a.wait b.wait }
    ensures fors { result.fors ≡ capped (a.fors + b.fors) }
    ensures literals { result.literals ≡ max a.literals b.literals }
{
    Load {
        wait: a.wait.max(b.wait),
        fors: a.fors.saturating_add(b.fors),
        literals: a.literals.max(b.literals),
    }
}

fn with_for(load: Load) -> Load
    ensures wait { result.wait ≡ load.wait }
    ensures fors { result.fors ≡ capped (1 + load.fors) }
    ensures literals { result.literals ≡ load.literals }
{
    Load {
        wait: load.wait,
        fors: load.fors.saturating_add(1),
        literals: load.literals,
    }
}

fn with_literals(count: u64, load: Load) -> Load
    ensures wait { result.wait ≡ load.wait }
    ensures fors { result.fors ≡ load.fors }
    ensures literals { result.literals ≡ max count load.literals }
{
    Load {
        wait: load.wait,
        fors: load.fors,
        literals: count.max(load.literals),
    }
}

fn optional_wait(e: &Option<Expr>) -> u64
    ensures { result ≡ capped (optional_waits (optional_tree e.now)) }
{
    match e {
        Some(e) => wait_of(e),
        None => 0,
    }
}

/// What waits while an augmented assignment operates on its variable and its right side.
fn updated_wait(prim: Primitive, e: &Expr) -> u64
    ensures { (x : ℕ) → result ≡ capped (wait (updated no_place prim (to_variable x) (tree_of e.now))) }
{
    let own = prim_places(prim);
    let held = scalars(&e.ty);
    let read = Part {
        scalars: held,
        wait: held,
    };
    held.saturating_add(own).max(two_wait(read, asked(e), own))
}

fn assigned_wait(targets: &[Target], prim: Option<Primitive>, e: &Expr) -> u64
    ensures { result ≡ capped (wait (assigned_value no_place prim (map destination targets.now) (tree_of e.now))) }
{
    match (prim, targets) {
        (Some(prim), [_one]) => updated_wait(prim, e),
        _ => wait_of(e),
    }
}

#[cycle(load)]
fn stmt_load(s: &Stmt) -> Load
    ensures wait { result.wait ≡ capped (load_of s.now).wait }
    ensures fors { result.fors ≡ capped (load_of s.now).fors }
    ensures literals { result.literals ≡ capped (load_of s.now).literals }
{
    kind_load(&s.kind)
}

#[cycle(load)]
fn kind_load(kind: &StmtKind) -> Load
    ensures wait { result.wait ≡ capped (load_of_kind kind.now).wait }
    ensures fors { result.fors ≡ capped (load_of_kind kind.now).fors }
    ensures literals { result.literals ≡ capped (load_of_kind kind.now).literals }
{
    match kind {
        StmtKind::Assign(targets, prim, e) => {
            only_wait(assigned_wait(targets.as_slice(), *prim, e))
        }
        StmtKind::Drop(e) => only_wait(wait_of(e)),
        StmtKind::Assert(e) => only_wait(wait_of(e)),
        StmtKind::If(arms, rest) => {
            beside(arms_load(arms.as_slice()), body_load(rest.as_slice()))
        }
        StmtKind::While(c, body) => beside(only_wait(wait_of(c)), body_load(body.as_slice())),
        StmtKind::Range(_x, start, stop, _step, body) => {
            let stop = beside(only_wait(wait_of(stop)), body_load(body.as_slice()));
            with_for(beside(only_wait(optional_wait(start)), stop))
        }
        StmtKind::Each(_x, e, body) => {
            with_for(beside(only_wait(wait_of(e)), body_load(body.as_slice())))
        }
        StmtKind::Return(e) => only_wait(optional_wait(e)),
        StmtKind::Match(e, picks, rest) => {
            let bodies = beside(picks_load(picks.as_slice()), body_load(rest.as_slice()));
            with_literals(picks.len() as u64, beside(only_wait(wait_of(e)), bodies))
        }
        _ => only_wait(0),
    }
}

#[cycle(load)]
pub(crate) fn body_load(body: &[Stmt]) -> Load
    ensures wait { result.wait ≡ capped (all_loads (map load_of body.now)).wait }
    ensures fors { result.fors ≡ capped (all_loads (map load_of body.now)).fors }
    ensures literals { result.literals ≡ capped (all_loads (map load_of body.now)).literals }
{
    let mut load = only_wait(0);
    for s in body {
        load = beside(load, stmt_load(s));
    }
    load
}

#[cycle(load)]
fn arm_load(arm: &Arm) -> Load
    ensures wait { result.wait ≡ capped (load_of_arm arm.now).wait }
    ensures fors { result.fors ≡ capped (load_of_arm arm.now).fors }
    ensures literals { result.literals ≡ capped (load_of_arm arm.now).literals }
{
    beside(
        only_wait(wait_of(&arm.condition)),
        body_load(arm.body.as_slice()),
    )
}

#[cycle(load)]
fn arms_load(arms: &[Arm]) -> Load
    ensures wait { result.wait ≡ capped (all_loads (map load_of_arm arms.now)).wait }
    ensures fors { result.fors ≡ capped (all_loads (map load_of_arm arms.now)).fors }
    ensures literals { result.literals ≡ capped (all_loads (map load_of_arm arms.now)).literals }
{
    let mut load = only_wait(0);
    for arm in arms {
        load = beside(load, arm_load(arm));
    }
    load
}

#[cycle(load)]
fn picks_load(picks: &[MatchArm]) -> Load
    ensures wait { result.wait ≡ capped (all_loads (map load_of_pick picks.now)).wait }
    ensures fors { result.fors ≡ capped (all_loads (map load_of_pick picks.now)).fors }
    ensures literals { result.literals ≡ capped (all_loads (map load_of_pick picks.now)).literals }
{
    let mut load = only_wait(0);
    for pick in picks {
        load = beside(load, body_load(pick.body.as_slice()));
    }
    load
}
