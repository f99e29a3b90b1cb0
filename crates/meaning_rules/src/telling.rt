//! Notes on broken rules, and nodes of typed trees.

ghost use Rattle.std.specs.Prelude.{◌≡◌, [], ◌∷◌, ◌++◌, IfOk, OnOk};
ghost use Rattle.meaning_rules.specs.Meanings as spec;

use crate::meaning::{Meaning, Typed};
use crate::types::{tree_type, typed_scalar};
use algopy_library::Scalar;
use awst::{Expr, ExprKind, Exprs, Primitive};
use path_rules::{Note, Notes};
use puya_base::{List, Memory, Place, Refusal, Rule};
use source_names::SourceType;
use std::alloc::Global;

/// Notes a broken rule.
pub fn break_rule(into: &mut Notes, rule: Rule, place: Place) -> Result<(), Memory>
    ensures { OnOk result (into.new ≡ into.old ++ spec.broken rule place ∷ []) }
{
    into.push(Note::Broken(Refusal { rule, place }))?;
    Ok(())
}

/// A broken rule, behind which nothing is known.
pub fn breaks(into: &mut Notes, rule: Rule, place: Place) -> Result<Meaning, Memory>
    ensures told { OnOk result (into.new ≡ into.old ++ (spec.breaks rule place).notes) }
    ensures meaning { IfOk result (λ m. m ≡ (spec.breaks rule place).meaning) }
{
    break_rule(into, rule, place)?;
    Ok(Meaning::Unknown)
}

/// A broken rule in place of a value.
pub fn value_breaks(into: &mut Notes, rule: Rule, place: Place) -> Result<Option<Typed>, Memory>
    ensures told { OnOk result (into.new ≡ into.old ++ (spec.value_breaks rule place).notes) }
    ensures typed { IfOk result (λ t. t ≡ (spec.value_breaks rule place).typed) }
{
    break_rule(into, rule, place)?;
    Ok(None)
}

/// A typed expression of one value.
pub fn scalar_node(place: Place, scalar: Scalar, kind: ExprKind) -> Typed
    ensures { result ≡ spec.a_node place (SourceType.Scalar scalar) kind }
{
    Typed {
        ty: SourceType::Scalar(scalar),
        expr: Expr {
            place,
            ty: typed_scalar(scalar),
            kind,
        },
    }
}

/// An expression that means a typed one of one value.
pub fn scalar_value(place: Place, scalar: Scalar, kind: ExprKind) -> Meaning
    ensures { result ≡ (spec.node place (SourceType.Scalar scalar) kind).meaning }
{
    Meaning::Value(scalar_node(place, scalar, kind))
}

/// An expression that means a typed one.
pub fn node(alloc: Global, place: Place, ty: SourceType, kind: ExprKind) -> Result<Meaning, Memory>
    ensures { IfOk result (λ m. m ≡ (spec.node place ty kind).meaning) }
{
    let below = tree_type(alloc, &ty)?;
    Ok(Meaning::Value(Typed {
        ty,
        expr: Expr {
            place,
            ty: below,
            kind,
        },
    }))
}

/// The number of a part of something, as typed trees write it. Of 2^32 parts or more there would be want of memory.
pub fn small(number: u64) -> Result<u32, Memory>
    ensures { IfOk result (λ n. n ≡ number) }
{
    match u32::try_from(number) {
        Ok(number) => Ok(number),
        Err(_) => Err(Memory),
    }
}

/// The typed tree alone.
pub fn expr_in(typed: Typed) -> Expr
    ensures { result ≡ typed.expr }
{
    let Typed { ty: _ty, expr } = typed;
    expr
}

pub(crate) fn one_part(alloc: Global, a: Expr) -> Result<Exprs, Memory>
    ensures { IfOk result (λ es. es ≡ a ∷ []) }
{
    let mut parts = List::new(alloc);
    parts.push(a)?;
    Ok(parts)
}

pub(crate) fn two_parts(alloc: Global, a: Expr, b: Expr) -> Result<Exprs, Memory>
    ensures { IfOk result (λ es. es ≡ a ∷ b ∷ []) }
{
    let mut parts = List::new(alloc);
    parts.push(a)?;
    parts.push(b)?;
    Ok(parts)
}

pub(crate) fn three_parts(alloc: Global, a: Expr, b: Expr, c: Expr) -> Result<Exprs, Memory>
    ensures { IfOk result (λ es. es ≡ a ∷ b ∷ c ∷ []) }
{
    let mut parts = List::new(alloc);
    parts.push(a)?;
    parts.push(b)?;
    parts.push(c)?;
    Ok(parts)
}

/// What the library does with one value.
pub fn of_one(
    alloc: Global,
    place: Place,
    scalar: Scalar,
    prim: Primitive,
    a: Typed,
) -> Result<Meaning, Memory>
    ensures { IfOk result (λ m. m ≡ (spec.node place (SourceType.Scalar scalar) (ExprKind.Prim prim (a.expr ∷ []))).meaning) }
{
    let parts = one_part(alloc, expr_in(a))?;
    Ok(scalar_value(place, scalar, ExprKind::Prim(prim, parts)))
}

/// What the library does with two values.
pub(crate) fn of_two(
    alloc: Global,
    place: Place,
    scalar: Scalar,
    prim: Primitive,
    a: Typed,
    b: Typed,
) -> Result<Meaning, Memory>
    ensures { IfOk result (λ m. m ≡ (spec.node place (SourceType.Scalar scalar) (ExprKind.Prim prim (a.expr ∷ b.expr ∷ []))).meaning) }
{
    let parts = two_parts(alloc, expr_in(a), expr_in(b))?;
    Ok(scalar_value(place, scalar, ExprKind::Prim(prim, parts)))
}
