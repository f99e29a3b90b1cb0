//! Indexes and slices (Python reference, 6.3.2 and 6.3.3): P14 on an index that is none, and on what has no indexes or slices.

ghost use Rattle.std.specs.Prelude.{◌≡◌, [], ◌∷◌, ◌++◌, None, Some, IfOk, OnOk, slice_get};
ghost use Rattle.source_names.specs.Types as types;
ghost use Rattle.meaning_rules.specs.Meanings as meanings;
ghost use Rattle.meaning_rules.specs.Operations as spec;
ghost use Rattle.meaning_rules.specs.Indexes as indexes;

use crate::meaning::{Hope, Lit, Meaning, Typed};
use crate::operand::{End, Operand};
use crate::operators::is_missing;
use crate::telling::{
    breaks, expr_in, node, of_one, of_two, scalar_value, small, three_parts, two_parts,
};
use crate::types::{copied, is_scalar, scalar_of, tuple_parts};
use crate::values::{fits_some, settled_as};
use algopy_library::Scalar;
use awst::{Expr, ExprKind, Index, Primitive};
use path_rules::Notes;
use puya_base::{Boxed, Memory, Place, Rule};
use source_names::SourceType;
use std::alloc::Global;

/// A number, which a literal may be; P14 on anything else.
pub fn a_number(into: &mut Notes, operand: Operand) -> Result<Option<Typed>, Memory>
    ensures told { OnOk result (into.new ≡ into.old ++ (spec.a_number operand).notes) }
    ensures typed { IfOk result (λ t. t ≡ (spec.a_number operand).typed) }
{
    let number = SourceType::Scalar(Scalar::UInt64);
    let typed = settled_as(into, &number, operand)?;
    fits_some(into, &number, typed)
}

fn hope_behind(scalar: Scalar) -> Hope
    ensures { result ≡ spec.index_scalar (Some scalar) }
{
    match scalar {
        Scalar::Bytes => Hope::Wants(SourceType::Scalar(Scalar::UInt64)),
        _ => Hope::Free,
    }
}

fn index_scalar(scalar: Option<Scalar>) -> Hope
    ensures { result ≡ spec.index_scalar scalar }
{
    match scalar {
        Some(scalar) => hope_behind(scalar),
        None => Hope::Free,
    }
}

/// What is hoped of an index: a number where Bytes are indexed.
pub fn index_hope(base: &Operand) -> Hope
    ensures { result ≡ spec.index_hope base.now }
{
    match base {
        Operand::Value(typed) => index_scalar(scalar_of(&typed.ty)),
        Operand::Literal(_, _) => Hope::Free,
        Operand::Missing => Hope::Unknown,
    }
}

fn byte_at(
    alloc: Global,
    place: Place,
    base: Typed,
    index: Option<Typed>,
) -> Result<Meaning, Memory>
    ensures { IfOk result (λ m. m ≡ (spec.byte_at place base index).meaning) }
{
    match index {
        Some(index) => of_two(alloc, place, Scalar::Bytes, Primitive::ByteAt, base, index),
        None => Ok(Meaning::Unknown),
    }
}

fn byte_index(
    alloc: Global,
    into: &mut Notes,
    place: Place,
    base: Typed,
    index: Operand,
) -> Result<Meaning, Memory>
    ensures told { OnOk result (into.new ≡ into.old ++ (spec.byte_index place base (spec.a_number index)).notes) }
    ensures meaning { IfOk result (λ m. m ≡ (spec.byte_index place base (spec.a_number index)).meaning) }
{
    let number = a_number(into, index)?;
    byte_at(alloc, place, base, number)
}

fn item_place(ty: &SourceType, place: Place, at: Place) -> Place
    ensures { result ≡ indexes.item_place (types.tuple_parts ty.now) place at }
{
    match tuple_parts(ty) {
        Some(_) => at,
        None => place,
    }
}

fn copied_at(alloc: Global, tys: &[SourceType], number: u64) -> Result<Option<SourceType>, Memory>
    ensures { IfOk result (λ t. t ≡ slice_get tys.now number) }
{
    match tys.get(number as usize) {
        Some(ty) => Ok(Some(copied(alloc, ty)?)),
        None => Ok(None),
    }
}

fn item_type(alloc: Global, ty: &SourceType, number: u64) -> Result<Option<SourceType>, Memory>
    ensures { IfOk result (λ t. t ≡ indexes.item_type (types.tuple_parts ty.now) number) }
{
    match tuple_parts(ty) {
        Some(tys) => copied_at(alloc, tys, number),
        None => Ok(None),
    }
}

fn item_node(
    alloc: Global,
    place: Place,
    base: Typed,
    number: u64,
    ty: SourceType,
) -> Result<Meaning, Memory>
    ensures { IfOk result (λ m. m ≡ (meanings.node place ty (ExprKind.Item base.expr (Index.Fixed number))).meaning) }
{
    let number = small(number)?;
    let base = Boxed::new(alloc, expr_in(base))?;
    node(alloc, place, ty, ExprKind::Item(base, Index::Fixed(number)))
}

fn number_index(
    alloc: Global,
    into: &mut Notes,
    place: Place,
    at: Place,
    base: Typed,
    number: u64,
) -> Result<Meaning, Memory>
    ensures told { OnOk result (into.new ≡ into.old ++ (indexes.number_index place at base (types.tuple_parts base.ty) number).notes) }
    ensures meaning { IfOk result (λ m. m ≡ (indexes.number_index place at base (types.tuple_parts base.ty) number).meaning) }
{
    match item_type(alloc, &base.ty, number)? {
        Some(ty) => item_node(alloc, place, base, number, ty),
        None => breaks(into, Rule::P14, item_place(&base.ty, place, at)),
    }
}

fn literal_index(
    alloc: Global,
    into: &mut Notes,
    place: Place,
    at: Place,
    base: Typed,
    lit: Lit,
) -> Result<Meaning, Memory>
    ensures told { OnOk result (into.new ≡ into.old ++ (indexes.literal_index place at base (types.tuple_parts base.ty) lit).notes) }
    ensures meaning { IfOk result (λ m. m ≡ (indexes.literal_index place at base (types.tuple_parts base.ty) lit).meaning) }
{
    match lit {
        Lit::Number(number) => number_index(alloc, into, place, at, base, number),
        _ => breaks(into, Rule::P14, item_place(&base.ty, place, at)),
    }
}

/// An index of what is no Bytes: P14 on what is no tuple, and on an index of a tuple that is no number literal in range.
fn tuple_index(
    alloc: Global,
    into: &mut Notes,
    place: Place,
    at: Place,
    base: Typed,
    index: Operand,
) -> Result<Meaning, Memory>
    ensures told { OnOk result (into.new ≡ into.old ++ (indexes.tuple_index place at base (types.tuple_parts base.ty) index).notes) }
    ensures meaning { IfOk result (λ m. m ≡ (indexes.tuple_index place at base (types.tuple_parts base.ty) index).meaning) }
{
    match index {
        Operand::Value(_) => breaks(into, Rule::P14, item_place(&base.ty, place, at)),
        Operand::Literal(_, lit) => literal_index(alloc, into, place, at, base, lit),
        Operand::Missing => Ok(Meaning::Unknown),
    }
}

#[tactic(auto, using(crate::proofs::Indexed::index_same))]
fn scalar_index(
    alloc: Global,
    into: &mut Notes,
    place: Place,
    at: Place,
    base: Typed,
    scalar: Scalar,
    index: Operand,
) -> Result<Meaning, Memory>
    ensures told { OnOk result (into.new ≡ into.old ++ (spec.index_of place at base (Some scalar) index).notes) }
    ensures meaning { IfOk result (λ m. m ≡ (spec.index_of place at base (Some scalar) index).meaning) }
{
    match scalar {
        Scalar::Bytes => byte_index(alloc, into, place, base, index),
        _ => tuple_index(alloc, into, place, at, base, index),
    }
}

#[tactic(auto, using(crate::proofs::Indexed::index_same))]
fn index_as(
    alloc: Global,
    into: &mut Notes,
    place: Place,
    at: Place,
    base: Typed,
    scalar: Option<Scalar>,
    index: Operand,
) -> Result<Meaning, Memory>
    ensures told { OnOk result (into.new ≡ into.old ++ (spec.index_of place at base scalar index).notes) }
    ensures meaning { IfOk result (λ m. m ≡ (spec.index_of place at base scalar index).meaning) }
{
    match scalar {
        Some(scalar) => scalar_index(alloc, into, place, at, base, scalar, index),
        None => tuple_index(alloc, into, place, at, base, index),
    }
}

/// An index at `at` of a value, at `place`: a number where that is Bytes, a number literal in range where it is a tuple; P14 on any other.
pub fn index_when(
    alloc: Global,
    into: &mut Notes,
    place: Place,
    at: Place,
    base: Option<Typed>,
    index: Operand,
) -> Result<Meaning, Memory>
    ensures told { OnOk result (into.new ≡ into.old ++ (spec.index_when place at base index).notes) }
    ensures meaning { IfOk result (λ m. m ≡ (spec.index_when place at base index).meaning) }
{
    match base {
        Some(base) => {
            let scalar = scalar_of(&base.ty);
            index_as(alloc, into, place, at, base, scalar, index)
        }
        None => Ok(Meaning::Unknown),
    }
}

fn slice_all(alloc: Global, place: Place, base: Typed) -> Result<Meaning, Memory>
    ensures { IfOk result (λ m. m ≡ (spec.sliced place base (spec.slice_prim End.Absent End.Absent)).meaning) }
{
    of_one(alloc, place, Scalar::Bytes, Primitive::SliceAll, base)
}

fn slice_from(alloc: Global, place: Place, base: Typed, start: Expr) -> Result<Meaning, Memory>
    ensures { IfOk result (λ m. m ≡ (spec.sliced place base (spec.slice_prim (End.Number start) End.Absent)).meaning) }
{
    let parts = two_parts(alloc, expr_in(base), start)?;
    Ok(scalar_value(
        place,
        Scalar::Bytes,
        ExprKind::Prim(Primitive::SliceFrom, parts),
    ))
}

fn slice_to(alloc: Global, place: Place, base: Typed, stop: Expr) -> Result<Meaning, Memory>
    ensures { IfOk result (λ m. m ≡ (spec.sliced place base (spec.slice_prim End.Absent (End.Number stop))).meaning) }
{
    let parts = two_parts(alloc, expr_in(base), stop)?;
    Ok(scalar_value(
        place,
        Scalar::Bytes,
        ExprKind::Prim(Primitive::SliceTo, parts),
    ))
}

fn slice_between(
    alloc: Global,
    place: Place,
    base: Typed,
    start: Expr,
    stop: Expr,
) -> Result<Meaning, Memory>
    ensures { IfOk result (λ m. m ≡ (spec.sliced place base (spec.slice_prim (End.Number start) (End.Number stop))).meaning) }
{
    let parts = three_parts(alloc, expr_in(base), start, stop)?;
    Ok(scalar_value(
        place,
        Scalar::Bytes,
        ExprKind::Prim(Primitive::SliceBetween, parts),
    ))
}

fn sliced_to(alloc: Global, place: Place, base: Typed, stop: End) -> Result<Meaning, Memory>
    ensures { IfOk result (λ m. m ≡ (spec.sliced place base (spec.slice_prim End.Absent stop)).meaning) }
{
    match stop {
        End::Absent => slice_all(alloc, place, base),
        End::Number(stop) => slice_to(alloc, place, base, stop),
        End::Broken => Ok(Meaning::Unknown),
    }
}

fn sliced_from(
    alloc: Global,
    place: Place,
    base: Typed,
    start: Expr,
    stop: End,
) -> Result<Meaning, Memory>
    ensures { IfOk result (λ m. m ≡ (spec.sliced place base (spec.slice_prim (End.Number start) stop)).meaning) }
{
    match stop {
        End::Absent => slice_from(alloc, place, base, start),
        End::Number(stop) => slice_between(alloc, place, base, start, stop),
        End::Broken => Ok(Meaning::Unknown),
    }
}

fn sliced(
    alloc: Global,
    place: Place,
    base: Typed,
    start: End,
    stop: End,
) -> Result<Meaning, Memory>
    ensures { IfOk result (λ m. m ≡ (spec.sliced place base (spec.slice_prim start stop)).meaning) }
{
    match start {
        End::Absent => sliced_to(alloc, place, base, stop),
        End::Number(start) => sliced_from(alloc, place, base, start, stop),
        End::Broken => Ok(Meaning::Unknown),
    }
}

fn is_broken(end: &End) -> bool
    ensures { result ≡ spec.is_broken end.now }
{
    match end {
        End::Absent => false,
        End::Number(_) => false,
        End::Broken => true,
    }
}

fn no_slice(into: &mut Notes, place: Place, start: &End, stop: &End) -> Result<Meaning, Memory>
    ensures told { OnOk result (into.new ≡ into.old ++ (indexes.no_slice place start.now stop.now).notes) }
    ensures meaning { IfOk result (λ m. m ≡ (indexes.no_slice place start.now stop.now).meaning) }
{
    if is_broken(start) || is_broken(stop) {
        Ok(Meaning::Unknown)
    } else {
        breaks(into, Rule::P14, place)
    }
}

fn scalar_slice(
    alloc: Global,
    into: &mut Notes,
    place: Place,
    base: Typed,
    scalar: Scalar,
    start: End,
    stop: End,
) -> Result<Meaning, Memory>
    ensures told { OnOk result (into.new ≡ into.old ++ (spec.slice_of place base (Some scalar) start stop).notes) }
    ensures meaning { IfOk result (λ m. m ≡ (spec.slice_of place base (Some scalar) start stop).meaning) }
{
    match scalar {
        Scalar::Bytes => sliced(alloc, place, base, start, stop),
        _ => no_slice(into, place, &start, &stop),
    }
}

fn slice_of(
    alloc: Global,
    into: &mut Notes,
    place: Place,
    base: Typed,
    start: End,
    stop: End,
) -> Result<Meaning, Memory>
    ensures told { OnOk result (into.new ≡ into.old ++ (spec.slice_of place base (types.scalar_of base.ty) start stop).notes) }
    ensures meaning { IfOk result (λ m. m ≡ (spec.slice_of place base (types.scalar_of base.ty) start stop).meaning) }
{
    match scalar_of(&base.ty) {
        Some(scalar) => scalar_slice(alloc, into, place, base, scalar, start, stop),
        None => no_slice(into, place, &start, &stop),
    }
}

/// A slice of a value, at `place`; P14 on a slice of anything but Bytes.
pub fn slice_when(
    alloc: Global,
    into: &mut Notes,
    place: Place,
    base: Option<Typed>,
    start: End,
    stop: End,
) -> Result<Meaning, Memory>
    ensures told { OnOk result (into.new ≡ into.old ++ (spec.slice_when place base start stop).notes) }
    ensures meaning { IfOk result (λ m. m ≡ (spec.slice_when place base start stop).meaning) }
{
    match base {
        Some(base) => slice_of(alloc, into, place, base, start, stop),
        None => Ok(Meaning::Unknown),
    }
}

fn end_of_value(typed: Option<Typed>) -> End
    ensures { result ≡ spec.end_of_value typed }
{
    match typed {
        Some(typed) => End::Number(expr_in(typed)),
        None => End::Broken,
    }
}

/// An end of a slice of Bytes: a number; P14 on anything else.
pub fn end_of_bytes(into: &mut Notes, operand: Operand) -> Result<End, Memory>
    ensures told { OnOk result (into.new ≡ into.old ++ (spec.end_of_bytes operand).notes) }
    ensures end { IfOk result (λ e. e ≡ (spec.end_of_bytes operand).end) }
{
    let typed = a_number(into, operand)?;
    Ok(end_of_value(typed))
}

/// An end of a slice of something else, which is only known or not.
pub fn other_end(operand: &Operand) -> End
    ensures { result ≡ (spec.other_end operand.now).end }
{
    if is_missing(operand) {
        End::Broken
    } else {
        End::Absent
    }
}

/// Whether a value is Bytes.
pub fn is_bytes(typed: &Option<Typed>) -> bool
    ensures { result ≡ spec.is_bytes typed.now }
{
    match typed {
        Some(typed) => is_scalar(scalar_of(&typed.ty), Scalar::Bytes),
        None => false,
    }
}
