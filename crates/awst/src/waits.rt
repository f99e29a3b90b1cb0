//! The most places that wait while an expression is evaluated.

ghost use Rattle.std.specs.Prelude.{◌≡◌, ℕ, ◌+◌, map, max};
ghost use Rattle.awst.specs.Types.{scalar_count, scalar_total, types_of, type_of};
ghost use Rattle.awst.specs.Capped.{capped};
ghost use Rattle.awst.specs.Table.{own_prim};
ghost use Rattle.awst.specs.Places.{wait, form_wait, parts_wait as parts_waited, scalars_of};
ghost use Rattle.awst.specs.Plain.{bare_of, tree_of, trees_of};

use crate::expression::{Expr, ExprKind, Index};
use crate::primitive::Primitive;
use crate::ty::Ty;

/// How many scalars a value of the type has: one, or those of a tuple's parts, or none of `Nothing`.
#[cycle(scalars)]
pub fn scalars(ty: &Ty) -> u64
    ensures { result ≡ capped (scalar_count (type_of ty.now)) }
{
    match ty {
        Ty::Nothing => 0,
        Ty::Tuple(parts) => total_scalars(parts.as_slice()),
        _ => 1,
    }
}

#[cycle(scalars)]
pub fn total_scalars(parts: &[Ty]) -> u64
    ensures { result ≡ capped (scalar_total (types_of (map type_of parts.now))) }
{
    let mut total: u64 = 0;
    for part in parts {
        total = total.saturating_add(scalars(part));
    }
    total
}

/// How many places a form holds besides the values of its parts.
pub(crate) fn prim_places(prim: Primitive) -> u64
    ensures { (s parts : ℕ) → result ≡ (own_prim prim s parts).places }
{
    match prim {
        Primitive::SliceAll | Primitive::SliceFrom | Primitive::SliceTo | Primitive::SliceBetween =>
            4,
        _ => 2,
    }
}

/// How many places an expression holds besides the values of its parts.
fn own_places(kind: &ExprKind) -> u64
    ensures { (s : ℕ) → result ≡ ((bare_of kind.now).own s).places }
{
    match kind {
        ExprKind::Prim(prim, _parts) => prim_places(*prim),
        ExprKind::Item(_value, Index::At(_index)) => 6,
        _ => 0,
    }
}

/// What one part of an expression asks for.
#[derive(Clone, Copy)]
pub(crate) struct Part {
    pub(crate) scalars: u64,
    pub(crate) wait: u64,
}

/// The most places that wait while an expression is evaluated.
#[cycle(wait)]
pub(crate) fn wait_of(e: &Expr) -> u64
    ensures { result ≡ capped (wait (tree_of e.now)) }
{
    let own = own_places(&e.kind);
    let held = scalars(&e.ty).saturating_add(own);
    held.max(form_waits(&e.kind, own))
}

#[cycle(wait)]
pub(crate) fn asked(e: &Expr) -> Part
    ensures scalars { result.scalars ≡ capped (scalars_of (tree_of e.now)) }
    ensures wait { result.wait ≡ capped (wait (tree_of e.now)) }
{
    Part {
        scalars: scalars(&e.ty),
        wait: wait_of(e),
    }
}

#[cycle(wait)]
fn form_waits(kind: &ExprKind, own: u64) -> u64
    ensures { result ≡ capped (form_wait own (bare_of kind.now).form) }
{
    match kind {
        ExprKind::Prim(_prim, parts) => parts_wait(parts.as_slice(), own),
        ExprKind::And(a, b) => two_wait(asked(a.get()), asked(b.get()), own),
        ExprKind::Or(a, b) => two_wait(asked(a.get()), asked(b.get()), own),
        ExprKind::Choose(c, a, b) => {
            three_wait(asked(c.get()), asked(a.get()), asked(b.get()), own)
        }
        ExprKind::Tuple(parts) => parts_wait(parts.as_slice(), own),
        ExprKind::Item(value, Index::Fixed(_at)) => one_wait(asked(value.get()), own),
        ExprKind::Item(value, Index::At(at)) => two_wait(asked(value.get()), asked(at.get()), own),
        ExprKind::Call(_f, parts, _order) => parts_wait(parts.as_slice(), own),
        _ => own,
    }
}

#[cycle(wait)]
fn parts_wait(parts: &[Expr], own: u64) -> u64
    ensures { result ≡ capped (parts_waited own 0 (trees_of parts.now)) }
{
    let mut most: u64 = 0;
    let mut held: u64 = 0;
    for e in parts {
        let Part { scalars, wait } = asked(e);
        most = most.max(held.saturating_add(wait));
        held = held.saturating_add(scalars);
    }
    most.max(held.saturating_add(own))
}

fn one_wait(a: Part, own: u64) -> u64
    ensures { result ≡ max a.wait (capped (a.scalars + own)) }
{
    a.wait.max(a.scalars.saturating_add(own))
}

pub(crate) fn two_wait(a: Part, b: Part, own: u64) -> u64
    ensures { result ≡ max a.wait (max (capped (a.scalars + b.wait)) (capped (a.scalars + b.scalars + own))) }
{
    let both = a.scalars.saturating_add(b.scalars).saturating_add(own);
    a.wait.max(a.scalars.saturating_add(b.wait).max(both))
}

fn three_wait(a: Part, b: Part, c: Part, own: u64) -> u64
    ensures { result ≡ max a.wait (max (capped (a.scalars + b.wait)) (max (capped (a.scalars + b.scalars + c.wait)) (capped (a.scalars + b.scalars + c.scalars + own)))) }
{
    let two = a.scalars.saturating_add(b.scalars);
    let all = two.saturating_add(c.scalars).saturating_add(own);
    let behind = two.saturating_add(c.wait).max(all);
    a.wait.max(a.scalars.saturating_add(b.wait).max(behind))
}
