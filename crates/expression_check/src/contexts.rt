//! What is expected of expressions, and values of what they mean.

ghost use Rattle.std.specs.Prelude.{◌≡◌, ◌++◌, IfOk, OnOk, option_copied};
ghost use Rattle.source_names.specs.Types as types;
ghost use Rattle.meaning_rules.specs.Meanings as spec;

use crate::types::tuple_parts;
use meaning_rules::{Context, Expect, Hope, Meaning, Typed, copied, value};
use path_rules::Notes;
use puya_base::{Memory, Place};
use source_names::SourceType;
use std::alloc::Global;

/// A place where nothing is expected.
pub fn freely() -> Context
    ensures { result ≡ spec.freely }
{
    context(false, Hope::Free)
}

/// A place where this is hoped of the whole.
pub fn context(copying: bool, hope: Hope) -> Context
    ensures { result ≡ spec.context copying hope }
{
    Context {
        expect: Expect::One(hope),
        copying,
    }
}

fn wanted(alloc: Global, ty: Option<&SourceType>) -> Result<Hope, Memory>
    ensures { IfOk result (λ h. h ≡ spec.wants (option_copied ty.entry)) }
{
    match ty {
        Some(ty) => Ok(Hope::Wants(copied(alloc, ty)?)),
        None => Ok(Hope::Free),
    }
}

fn part_of_type(alloc: Global, ty: &SourceType, i: usize) -> Result<Hope, Memory>
    ensures { IfOk result (λ h. h ≡ spec.part_wanted (types.tuple_parts ty.now) i) }
{
    match tuple_parts(ty) {
        Some(tys) => wanted(alloc, tys.get(i)),
        None => Ok(Hope::Free),
    }
}

fn part_of_hope(alloc: Global, hope: &Hope, i: usize) -> Result<Hope, Memory>
    ensures { IfOk result (λ h. h ≡ spec.part_of_hope hope.now i) }
{
    match hope {
        Hope::Wants(ty) => part_of_type(alloc, ty, i),
        Hope::Free => Ok(Hope::Free),
        Hope::Unknown => Ok(Hope::Unknown),
    }
}

fn same_hope(alloc: Global, hope: &Hope) -> Result<Hope, Memory>
    ensures { IfOk result (λ h. h ≡ hope.now) }
{
    match hope {
        Hope::Wants(ty) => Ok(Hope::Wants(copied(alloc, ty)?)),
        Hope::Free => Ok(Hope::Free),
        Hope::Unknown => Ok(Hope::Unknown),
    }
}

fn hope_or_free(alloc: Global, hope: Option<&Hope>) -> Result<Hope, Memory>
    ensures { IfOk result (λ h. h ≡ spec.hope_or_free (option_copied hope.entry)) }
{
    match hope {
        Some(hope) => same_hope(alloc, hope),
        None => Ok(Hope::Free),
    }
}

fn part_hope(alloc: Global, expect: &Expect, i: usize) -> Result<Hope, Memory>
    ensures { IfOk result (λ h. h ≡ spec.part_hope expect.now i) }
{
    match expect {
        Expect::One(hope) => part_of_hope(alloc, hope, i),
        Expect::Each(hopes) => hope_or_free(alloc, hopes.get(i)),
    }
}

/// Where a part of a tuple stands that stands there.
pub(crate) fn part_context(alloc: Global, whole: &Context, i: usize) -> Result<Context, Memory>
    ensures { IfOk result (λ c. c ≡ spec.context whole.now.copying (spec.part_hope whole.now.expect i)) }
{
    let hope = part_hope(alloc, &whole.expect, i)?;
    Ok(context(whole.copying, hope))
}

/// The value of what stands there and means this.
pub fn value_in(
    into: &mut Notes,
    context: &Context,
    place: Place,
    meaning: Meaning,
) -> Result<Option<Typed>, Memory>
    ensures told { OnOk result (into.new ≡ into.old ++ (spec.value (spec.whole_hope context.now.expect) place (spec.says meaning)).notes) }
    ensures typed { IfOk result (λ t. t ≡ (spec.value (spec.whole_hope context.now.expect) place (spec.says meaning)).typed) }
{
    match &context.expect {
        Expect::One(hope) => value(into, hope, place, meaning),
        Expect::Each(_) => value(into, &Hope::Free, place, meaning),
    }
}
