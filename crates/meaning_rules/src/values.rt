//! Literals, values and conditions: what is settled where a part has to be a value; P14 on these.

ghost use Rattle.std.specs.Prelude.{◌≡◌, [], ◌∷◌, ◌++◌, IfOk, OnOk};
ghost use Rattle.source_names.specs.Types as types;
ghost use Rattle.meaning_rules.specs.Meanings as spec;

use crate::meaning::{Hope, Lit, Meaning, Typed};
use crate::operand::Operand;
use crate::telling::{break_rule, expr_in, one_part, scalar_node, value_breaks};
use crate::types::{copied, is_nothing, scalar_of};
use algopy_library::Scalar;
use awst::{ExprKind, Primitive};
use path_rules::Notes;
use puya_base::{Memory, Place, Rule};
use source_names::{SourceType, same_type};
use std::alloc::Global;

#[tactic(auto, using(crate::proofs::Equalities::alike))]
fn has_scalar(ty: &SourceType, scalar: Scalar) -> bool
    ensures { result ≡ types.same_type ty.now (SourceType.Scalar scalar) }
{
    match ty {
        SourceType::Scalar(other) => *other == scalar,
        SourceType::Nothing => false,
        SourceType::Tuple(_) => false,
    }
}

fn is_of(ty: &SourceType, lit: &Lit) -> bool
    ensures { result ≡ types.same_type ty.now (spec.lit_type lit.now) }
{
    match lit {
        Lit::Number(_) => has_scalar(ty, Scalar::UInt64),
        Lit::Text(_) => has_scalar(ty, Scalar::Text),
        Lit::Bytes(_) => has_scalar(ty, Scalar::Bytes),
    }
}

/// A literal as a typed expression, of the one type that it can have.
pub fn lit_node(place: Place, lit: Lit) -> Typed
    ensures { result ≡ spec.lit_node place lit }
{
    match lit {
        Lit::Number(number) => scalar_node(place, Scalar::UInt64, ExprKind::Int(number)),
        Lit::Text(text) => scalar_node(place, Scalar::Text, ExprKind::Data(text)),
        Lit::Bytes(bytes) => scalar_node(place, Scalar::Bytes, ExprKind::Data(bytes)),
    }
}

/// A literal where this type is hoped for; P14 where it can't have it.
pub fn literal_as(
    into: &mut Notes,
    ty: &SourceType,
    place: Place,
    lit: Lit,
) -> Result<Option<Typed>, Memory>
    ensures told { OnOk result (into.new ≡ into.old ++ (spec.literal (Hope.Wants ty.now) place lit).notes) }
    ensures typed { IfOk result (λ t. t ≡ (spec.literal (Hope.Wants ty.now) place lit).typed) }
{
    if is_of(ty, &lit) {
        Ok(Some(lit_node(place, lit)))
    } else {
        value_breaks(into, Rule::P14, place)
    }
}

/// A literal takes the type that is hoped for, and has none of its own: P14 where nothing is hoped for, or another type.
pub fn literal(
    into: &mut Notes,
    hope: &Hope,
    place: Place,
    lit: Lit,
) -> Result<Option<Typed>, Memory>
    ensures told { OnOk result (into.new ≡ into.old ++ (spec.literal hope.now place lit).notes) }
    ensures typed { IfOk result (λ t. t ≡ (spec.literal hope.now place lit).typed) }
{
    match hope {
        Hope::Wants(ty) => literal_as(into, ty, place, lit),
        Hope::Free => value_breaks(into, Rule::P14, place),
        Hope::Unknown => Ok(None),
    }
}

fn no_operand(into: &mut Notes, place: Place) -> Result<Operand, Memory>
    ensures told { OnOk result (into.new ≡ into.old ++ spec.broken Rule.P14 place ∷ []) }
    ensures operand { IfOk result (λ o. o ≡ Operand.Missing) }
{
    break_rule(into, Rule::P14, place)?;
    Ok(Operand::Missing)
}

fn kept(into: &mut Notes, place: Place, typed: Typed) -> Result<Operand, Memory>
    ensures told { OnOk result (into.new ≡ into.old ++ (spec.kept place typed).notes) }
    ensures operand { IfOk result (λ o. o ≡ (spec.kept place typed).operand) }
{
    if is_nothing(&typed.ty) {
        no_operand(into, place)
    } else {
        Ok(Operand::Value(typed))
    }
}

/// What a part is that has to be a value: P14 on a name that is none, a call that gives nothing, and a range.
pub fn as_operand(into: &mut Notes, place: Place, meaning: Meaning) -> Result<Operand, Memory>
    ensures told { OnOk result (into.new ≡ into.old ++ (spec.operand place meaning).notes) }
    ensures operand { IfOk result (λ o. o ≡ (spec.operand place meaning).operand) }
{
    match meaning {
        Meaning::Value(typed) => kept(into, place, typed),
        Meaning::Literal(at, lit) => Ok(Operand::Literal(at, lit)),
        Meaning::Thing(_) => no_operand(into, place),
        Meaning::Range(_) => no_operand(into, place),
        Meaning::Unknown => Ok(Operand::Missing),
    }
}

/// The value that a part is, where this is hoped for.
pub fn settled(into: &mut Notes, hope: &Hope, operand: Operand) -> Result<Option<Typed>, Memory>
    ensures told { OnOk result (into.new ≡ into.old ++ (spec.settled hope.now operand).notes) }
    ensures typed { IfOk result (λ t. t ≡ (spec.settled hope.now operand).typed) }
{
    match operand {
        Operand::Value(typed) => Ok(Some(typed)),
        Operand::Literal(place, lit) => literal(into, hope, place, lit),
        Operand::Missing => Ok(None),
    }
}

/// The value that a part is, where this type is hoped for.
pub(crate) fn settled_as(
    into: &mut Notes,
    ty: &SourceType,
    operand: Operand,
) -> Result<Option<Typed>, Memory>
    ensures told { OnOk result (into.new ≡ into.old ++ (spec.settled (Hope.Wants ty.now) operand).notes) }
    ensures typed { IfOk result (λ t. t ≡ (spec.settled (Hope.Wants ty.now) operand).typed) }
{
    match operand {
        Operand::Value(typed) => Ok(Some(typed)),
        Operand::Literal(place, lit) => literal_as(into, ty, place, lit),
        Operand::Missing => Ok(None),
    }
}

/// What an expression is that has to be a value, where this is hoped for.
pub fn value(
    into: &mut Notes,
    hope: &Hope,
    place: Place,
    meaning: Meaning,
) -> Result<Option<Typed>, Memory>
    ensures told { OnOk result (into.new ≡ into.old ++ (spec.value hope.now place (spec.says meaning)).notes) }
    ensures typed { IfOk result (λ t. t ≡ (spec.value hope.now place (spec.says meaning)).typed) }
{
    let part = as_operand(into, place, meaning)?;
    settled(into, hope, part)
}

/// A value of this type; P14 at a value of another type.
pub fn fits_type(into: &mut Notes, ty: &SourceType, typed: Typed) -> Result<Option<Typed>, Memory>
    ensures told { OnOk result (into.new ≡ into.old ++ (spec.fits_type ty.now typed).notes) }
    ensures typed { IfOk result (λ t. t ≡ (spec.fits_type ty.now typed).typed) }
{
    if same_type(&typed.ty, ty) {
        Ok(Some(typed))
    } else {
        value_breaks(into, Rule::P14, typed.expr.place)
    }
}

pub(crate) fn fits_some(
    into: &mut Notes,
    ty: &SourceType,
    typed: Option<Typed>,
) -> Result<Option<Typed>, Memory>
    ensures told { OnOk result (into.new ≡ into.old ++ (spec.fits_when (Some ty.now) typed).notes) }
    ensures typed { IfOk result (λ t. t ≡ (spec.fits_when (Some ty.now) typed).typed) }
{
    match typed {
        Some(typed) => fits_type(into, ty, typed),
        None => Ok(None),
    }
}

/// A value where a type is required, if it is known.
pub fn fits_when(
    into: &mut Notes,
    ty: &Option<SourceType>,
    typed: Option<Typed>,
) -> Result<Option<Typed>, Memory>
    ensures told { OnOk result (into.new ≡ into.old ++ (spec.fits_when ty.now typed).notes) }
    ensures typed { IfOk result (λ t. t ≡ (spec.fits_when ty.now typed).typed) }
{
    match ty {
        Some(ty) => fits_some(into, ty, typed),
        None => Ok(None),
    }
}

/// What is hoped for where a type is required.
pub fn hoped(alloc: Global, ty: &Option<SourceType>) -> Result<Hope, Memory>
    ensures { IfOk result (λ h. h ≡ spec.hoped ty.now) }
{
    match ty {
        Some(ty) => Ok(Hope::Wants(copied(alloc, ty)?)),
        None => Ok(Hope::Unknown),
    }
}

fn truth_of(alloc: Global, typed: Typed) -> Result<Typed, Memory>
    ensures { IfOk result (λ t. t ≡ spec.truth_of typed) }
{
    let place = typed.expr.place;
    let parts = one_part(alloc, expr_in(typed))?;
    Ok(scalar_node(place, Scalar::Bool, ExprKind::Prim(Primitive::Truth, parts)))
}

fn truth_some(alloc: Global, typed: Typed) -> Result<Option<Typed>, Memory>
    ensures { IfOk result (λ t. t ≡ Some (spec.truth_of typed)) }
{
    Ok(Some(truth_of(alloc, typed)?))
}

fn condition_as(
    alloc: Global,
    into: &mut Notes,
    typed: Typed,
    scalar: Scalar,
) -> Result<Option<Typed>, Memory>
    ensures told { OnOk result (into.new ≡ into.old ++ (spec.condition_at typed (Some scalar)).notes) }
    ensures typed { IfOk result (λ t. t ≡ (spec.condition_at typed (Some scalar)).typed) }
{
    match scalar {
        Scalar::Bool => Ok(Some(typed)),
        Scalar::Account => value_breaks(into, Rule::P14, typed.expr.place),
        _ => truth_some(alloc, typed),
    }
}

fn condition_at(alloc: Global, into: &mut Notes, typed: Typed) -> Result<Option<Typed>, Memory>
    ensures told { OnOk result (into.new ≡ into.old ++ (spec.condition_of (Some typed)).notes) }
    ensures typed { IfOk result (λ t. t ≡ (spec.condition_of (Some typed)).typed) }
{
    match scalar_of(&typed.ty) {
        Some(scalar) => condition_as(alloc, into, typed, scalar),
        None => value_breaks(into, Rule::P14, typed.expr.place),
    }
}

fn condition_of(
    alloc: Global,
    into: &mut Notes,
    typed: Option<Typed>,
) -> Result<Option<Typed>, Memory>
    ensures told { OnOk result (into.new ≡ into.old ++ (spec.condition_of typed).notes) }
    ensures typed { IfOk result (λ t. t ≡ (spec.condition_of typed).typed) }
{
    match typed {
        Some(typed) => condition_at(alloc, into, typed),
        None => Ok(None),
    }
}

/// What can be a condition: a bool, a number (not 0), bytes or a text (not empty); P14 on anything else, and on a literal.
pub fn condition(
    alloc: Global,
    into: &mut Notes,
    place: Place,
    meaning: Meaning,
) -> Result<Option<Typed>, Memory>
    ensures told { OnOk result (into.new ≡ into.old ++ (spec.condition place (spec.says meaning)).notes) }
    ensures typed { IfOk result (λ t. t ≡ (spec.condition place (spec.says meaning)).typed) }
{
    let free = Hope::Free;
    let typed = value(into, &free, place, meaning)?;
    condition_of(alloc, into, typed)
}
