//! Tuples and lists (Python reference, 6.2.3 and 6.2.5): P13 on a tuple without parts, or of a type that is too large; P14 on a list.

ghost use Rattle.std.specs.Prelude.{◌≡◌, ◌++◌, List, [], Option, Some, IfOk, OnOk, if◌then◌else◌};
ghost use Rattle.meaning_rules.specs.declared.meaning.Typed.{Typed};
ghost use Rattle.meaning_rules.specs.Meanings as meanings;
ghost use Rattle.meaning_rules.specs.Operations as spec;
ghost use Rattle.expression_check.specs.Gathered.{Gathers, known_with, types_with, exprs_with};

use awst::{ExprKind, Exprs};
use meaning_rules::{Meaning, Typed, breaks, node};
use path_rules::Notes;
use puya_base::{List, Memory, Place, Rule};
use source_names::{SourceType, fits_limits};
use std::alloc::Global;

/// The parts of a tuple: whether each is known, and then their types and their trees.
#[derive(Drop)]
pub(crate) struct Parts {
    pub(crate) known: bool,
    pub(crate) types: List<SourceType>,
    pub(crate) exprs: Exprs,
}

/// No parts so far.
pub(crate) fn no_parts(alloc: Global) -> Parts
    ensures { Gathers result (Some []) }
{
    Parts {
        known: true,
        types: List::new(alloc),
        exprs: List::new(alloc),
    }
}

/// Takes one more part.
pub(crate) fn add_part(parts: &mut Parts, typed: Option<Typed>) -> Result<(), Memory>
    ensures known { OnOk result (parts.new.known ≡ known_with parts.old.known typed) }
    ensures types { OnOk result (parts.new.types ≡ types_with parts.old.types typed) }
    ensures exprs { OnOk result (parts.new.exprs ≡ exprs_with parts.old.exprs typed) }
{
    match typed {
        Some(Typed { ty, expr }) => {
            parts.types.push(ty)?;
            parts.exprs.push(expr)?;
        }
        None => parts.known = false,
    }
    Ok(())
}

fn within_limits(
    alloc: Global,
    into: &mut Notes,
    place: Place,
    ty: SourceType,
    exprs: Exprs,
) -> Result<Meaning, Memory>
    ensures told { (ts : List Typed) → exprs ≡ spec.exprs_in ts → OnOk result (into.new ≡ into.old ++ (spec.within_limits place ty ts).notes) }
    ensures meaning { (ts : List Typed) → exprs ≡ spec.exprs_in ts → IfOk result (λ m. m ≡ (spec.within_limits place ty ts).meaning) }
{
    if fits_limits(&ty) {
        node(alloc, place, ty, ExprKind::Tuple(exprs))
    } else {
        breaks(into, Rule::P13, place)
    }
}

fn tuple_of(
    alloc: Global,
    into: &mut Notes,
    place: Place,
    types: List<SourceType>,
    exprs: Exprs,
) -> Result<Meaning, Memory>
    ensures told { (ts : List Typed) → types ≡ spec.types_in ts → exprs ≡ spec.exprs_in ts → OnOk result (into.new ≡ into.old ++ (spec.tuple_of place ts).notes) }
    ensures meaning { (ts : List Typed) → types ≡ spec.types_in ts → exprs ≡ spec.exprs_in ts → IfOk result (λ m. m ≡ (spec.tuple_of place ts).meaning) }
{
    if types.is_empty() {
        breaks(into, Rule::P13, place)
    } else {
        within_limits(alloc, into, place, SourceType::Tuple(types), exprs)
    }
}

/// A tuple of these parts: P13 where there are none, or where its type is too large.
pub(crate) fn tuple_when(
    alloc: Global,
    into: &mut Notes,
    place: Place,
    parts: Parts,
) -> Result<Meaning, Memory>
    ensures told { (ts : Option (List Typed)) → Gathers parts ts → OnOk result (into.new ≡ into.old ++ (spec.tuple_when place ts).notes) }
    ensures meaning { (ts : Option (List Typed)) → Gathers parts ts → IfOk result (λ m. m ≡ (spec.tuple_when place ts).meaning) }
{
    let Parts {
        known,
        types,
        exprs,
    } = parts;
    if known {
        tuple_of(alloc, into, place, types, exprs)
    } else {
        Ok(Meaning::Unknown)
    }
}

/// A list, which is no value: P14 where what stands in it is known.
pub(crate) fn display_when(into: &mut Notes, place: Place, known: bool) -> Result<Meaning, Memory>
    ensures told { OnOk result (into.new ≡ into.old ++ (if known then meanings.breaks Rule.P14 place else meanings.unknown).notes) }
    ensures meaning { IfOk result (λ m. m ≡ (if known then meanings.breaks Rule.P14 place else meanings.unknown).meaning) }
{
    if known {
        breaks(into, Rule::P14, place)
    } else {
        Ok(Meaning::Unknown)
    }
}
