//! Calls of types, from their argument, if there is one (Algorand Python guide, "Types"); P14 and P15.

ghost use Rattle.std.specs.Prelude.{◌≡◌, [], ◌∷◌, ◌++◌, Some, IfOk, OnOk};
ghost use Rattle.source_names.specs.Types as types;
ghost use Rattle.meaning_rules.specs.Meanings as meanings;
ghost use Rattle.call_rules.specs.Calls as spec;

use crate::arguments::Known;
use algopy_library::{Scalar, has_truth};
use awst::{ExprKind, Primitive};
use meaning_rules::{Lit, Meaning, Typed, breaks, lit_node, of_one, scalar_of, scalar_value};
use path_rules::Notes;
use puya_base::{Blob, Memory, Place, Rule};
use std::alloc::Global;

/// What a type that is called without arguments gives: 0, no bytes, an empty text; P15 on the other types.
pub(crate) fn empty_of(
    alloc: Global,
    into: &mut Notes,
    place: Place,
    scalar: Scalar,
) -> Result<Meaning, Memory>
    ensures told { OnOk result (into.new ≡ into.old ++ (spec.empty_of place scalar).notes) }
    ensures meaning { IfOk result (λ m. m ≡ (spec.empty_of place scalar).meaning) }
{
    match scalar {
        Scalar::UInt64 => Ok(scalar_value(place, Scalar::UInt64, ExprKind::Int(0))),
        Scalar::Bytes => Ok(scalar_value(place, Scalar::Bytes, ExprKind::Data(Blob::new(alloc)))),
        Scalar::Text => Ok(scalar_value(place, Scalar::Text, ExprKind::Data(Blob::new(alloc)))),
        _ => breaks(into, Rule::P15, place),
    }
}

fn same_lit(scalar: Scalar, lit: &Lit) -> bool
    ensures { result ≡ spec.same_lit scalar lit.now }
{
    match lit {
        Lit::Number(_) => scalar == Scalar::UInt64,
        Lit::Text(_) => scalar == Scalar::Text,
        Lit::Bytes(_) => scalar == Scalar::Bytes,
    }
}

/// A type that is called with a literal of its own: the literal itself, at the place of the call; P14 on another literal.
fn of_literal(
    into: &mut Notes,
    place: Place,
    scalar: Scalar,
    at: Place,
    lit: Lit,
) -> Result<Meaning, Memory>
    ensures told { OnOk result (into.new ≡ into.old ++ (spec.of_literal place scalar at lit).notes) }
    ensures meaning { IfOk result (λ m. m ≡ (spec.of_literal place scalar at lit).meaning) }
{
    if same_lit(scalar, &lit) {
        Ok(Meaning::Value(lit_node(place, lit)))
    } else {
        breaks(into, Rule::P14, at)
    }
}

fn number_of_scalar(
    alloc: Global,
    into: &mut Notes,
    place: Place,
    typed: Typed,
    scalar: Scalar,
) -> Result<Meaning, Memory>
    ensures told { OnOk result (into.new ≡ into.old ++ (spec.number_of_value place typed (Some scalar)).notes) }
    ensures meaning { IfOk result (λ m. m ≡ (spec.number_of_value place typed (Some scalar)).meaning) }
{
    match scalar {
        Scalar::Bool => of_one(alloc, place, Scalar::UInt64, Primitive::NumberOfBool, typed),
        _ => breaks(into, Rule::P14, typed.expr.place),
    }
}

fn number_of_value(
    alloc: Global,
    into: &mut Notes,
    place: Place,
    typed: Typed,
    scalar: Option<Scalar>,
) -> Result<Meaning, Memory>
    ensures told { OnOk result (into.new ≡ into.old ++ (spec.number_of_value place typed scalar).notes) }
    ensures meaning { IfOk result (λ m. m ≡ (spec.number_of_value place typed scalar).meaning) }
{
    match scalar {
        Some(scalar) => number_of_scalar(alloc, into, place, typed, scalar),
        None => breaks(into, Rule::P14, typed.expr.place),
    }
}

fn truth_of_scalar(
    alloc: Global,
    into: &mut Notes,
    place: Place,
    typed: Typed,
    scalar: Scalar,
) -> Result<Meaning, Memory>
    ensures told { OnOk result (into.new ≡ into.old ++ (spec.truth_when place typed (Some scalar)).notes) }
    ensures meaning { IfOk result (λ m. m ≡ (spec.truth_when place typed (Some scalar)).meaning) }
{
    if has_truth(scalar) {
        of_one(alloc, place, Scalar::Bool, Primitive::Truth, typed)
    } else {
        breaks(into, Rule::P14, typed.expr.place)
    }
}

fn truth_when(
    alloc: Global,
    into: &mut Notes,
    place: Place,
    typed: Typed,
    scalar: Option<Scalar>,
) -> Result<Meaning, Memory>
    ensures told { OnOk result (into.new ≡ into.old ++ (spec.truth_when place typed scalar).notes) }
    ensures meaning { IfOk result (λ m. m ≡ (spec.truth_when place typed scalar).meaning) }
{
    match scalar {
        Some(scalar) => truth_of_scalar(alloc, into, place, typed, scalar),
        None => breaks(into, Rule::P14, typed.expr.place),
    }
}

/// `UInt64(b)` of a bool, `bool(x)` of what can be a condition; P14 on any other type, which takes a literal alone.
fn of_value(
    alloc: Global,
    into: &mut Notes,
    place: Place,
    scalar: Scalar,
    typed: Typed,
) -> Result<Meaning, Memory>
    ensures told { OnOk result (into.new ≡ into.old ++ (spec.of_value place scalar typed).notes) }
    ensures meaning { IfOk result (λ m. m ≡ (spec.of_value place scalar typed).meaning) }
{
    let from = scalar_of(&typed.ty);
    match scalar {
        Scalar::UInt64 => number_of_value(alloc, into, place, typed, from),
        Scalar::Bool => truth_when(alloc, into, place, typed, from),
        _ => breaks(into, Rule::P14, typed.expr.place),
    }
}

/// A type that is called with one argument.
pub(crate) fn of_known(
    alloc: Global,
    into: &mut Notes,
    place: Place,
    scalar: Scalar,
    known: Known,
) -> Result<Meaning, Memory>
    ensures told { OnOk result (into.new ≡ into.old ++ (spec.of_known place scalar known).notes) }
    ensures meaning { IfOk result (λ m. m ≡ (spec.of_known place scalar known).meaning) }
{
    match known {
        Known::Value(_, typed) => of_value(alloc, into, place, scalar, typed),
        Known::Literal(_, at, lit) => of_literal(into, place, scalar, at, lit),
    }
}

/// A type that is called: without arguments what is empty, with one what this makes of it; P15 on more.
#[tactic(auto, using(crate::proofs::Lasts::types_called))]
pub(crate) fn call_type(
    alloc: Global,
    into: &mut Notes,
    place: Place,
    scalar: Scalar,
    mut known: Vec<Known>,
) -> Result<Meaning, Memory>
    ensures told { OnOk result (into.new ≡ into.old ++ (spec.call_type place scalar known.items).notes) }
    ensures meaning { IfOk result (λ m. m ≡ (spec.call_type place scalar known.items).meaning) }
{
    let Some(last) = known.pop() else {
        return empty_of(alloc, into, place, scalar);
    };
    if known.is_empty() {
        of_known(alloc, into, place, scalar, last)
    } else {
        breaks(into, Rule::P15, place)
    }
}
