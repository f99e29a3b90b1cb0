//! The arguments of a call as they are gathered (Python reference, 6.3.4).

ghost use Rattle.std.specs.Prelude.{◌≡◌, [], ◌∷◌, ◌++◌, ◌||◌, ◌&&◌, IfOk, OnOk, option_copied, true};
ghost use Rattle.call_rules.specs.Callees as callees;
ghost use Rattle.call_rules.specs.Calls as spec;
ghost use Rattle.expression_check.specs.Bindings.{complete_with, known_with};
ghost use Rattle.expression_check.specs.Sights.{when_known};

use call_rules::{Callee, Known, Slot, Used, applied};
use meaning_rules::Meaning;
use path_rules::Notes;
use puya_base::{List, Memory, Place};
use py_grammar::Word;
use source_names::Signature;
use std::alloc::Global;

/// The arguments so far: whether each is known, those that are, and which parameters have theirs.
#[derive(Drop)]
pub(crate) struct Bound {
    pub(crate) complete: bool,
    pub(crate) known: Vec<Known>,
    pub(crate) used: Used,
}

/// No arguments so far.
pub(crate) fn none_bound(alloc: Global) -> Bound
    ensures complete { result.complete ≡ true }
    ensures known { result.known.items ≡ [] }
    ensures used { result.used ≡ spec.nothing_used }
{
    Bound {
        complete: true,
        known: Vec::new(alloc),
        used: Used {
            numbers: List::new(alloc),
            keyword: false,
        },
    }
}

fn in_front(alloc: Global, number: usize, numbers: List<usize>) -> Result<List<usize>, Memory>
    ensures { IfOk result (λ ns. ns ≡ number ∷ numbers) }
{
    let mut all = List::new(alloc);
    all.push(number)?;
    all.append(numbers)?;
    Ok(all)
}

fn with_number(alloc: Global, numbers: List<usize>, slot: Slot) -> Result<List<usize>, Memory>
    ensures { IfOk result (λ ns. ns ≡ spec.with_number numbers slot) }
{
    match slot {
        Slot::At(number) => in_front(alloc, number, numbers),
        Slot::Wrong(_, _) => Ok(numbers),
        Slot::Beyond => Ok(numbers),
    }
}

fn is_keyword(key: Option<&Word>) -> bool
    ensures { result ≡ spec.is_keyword (option_copied key.entry) }
{
    match key {
        Some(_) => true,
        None => false,
    }
}

/// What has its argument, once this one is there.
fn use_of(alloc: Global, used: Used, slot: Slot, key: Option<&Word>) -> Result<Used, Memory>
    ensures { IfOk result (λ u. u ≡ spec.use_of used slot (option_copied key.entry)) }
{
    let Used { numbers, keyword } = used;
    let numbers = with_number(alloc, numbers, slot)?;
    Ok(Used {
        numbers,
        keyword: either(keyword, is_keyword(key)),
    })
}

fn either(a: bool, b: bool) -> bool
    ensures { result ≡ (a || b) }
{
    if a { true } else { b }
}

fn add_known(known: &mut Vec<Known>, argument: Option<Known>) -> Result<bool, Memory>
    ensures known { OnOk result (known.new.items ≡ known_with known.old.items argument) }
    ensures complete { IfOk result (λ c. c ≡ complete_with true argument) }
{
    match argument {
        Some(argument) => {
            known.push(argument)?;
            Ok(true)
        }
        None => Ok(false),
    }
}

/// Takes one more argument, which is for `slot`.
pub(crate) fn bind(
    alloc: Global,
    bound: Bound,
    slot: Slot,
    key: Option<&Word>,
    argument: Option<Known>,
) -> Result<Bound, Memory>
    ensures complete { IfOk result (λ b. b.complete ≡ complete_with bound.complete argument) }
    ensures known { IfOk result (λ b. b.known.items ≡ known_with bound.known.items argument) }
    ensures used { IfOk result (λ b. b.used ≡ spec.use_of bound.used slot (option_copied key.entry)) }
{
    let Bound {
        complete,
        mut known,
        used,
    } = bound;
    let used = use_of(alloc, used, slot, key)?;
    let one = add_known(&mut known, argument)?;
    Ok(Bound {
        complete: both(complete, one),
        known,
        used,
    })
}

fn both(a: bool, b: bool) -> bool
    ensures { result ≡ (a && b) }
{
    if a { b } else { false }
}

/// A call of what is called, at `place`, where each argument is known.
pub(crate) fn applied_when(
    alloc: Global,
    into: &mut Notes,
    functions: &List<Signature>,
    place: Place,
    callee: Callee,
    bound: Bound,
) -> Result<Meaning, Memory>
    ensures told { OnOk result (into.new ≡ into.old ++ (spec.applied_when place (callees.meant functions.now callee) (when_known bound.complete bound.known.items)).notes) }
    ensures meaning { IfOk result (λ m. m ≡ (spec.applied_when place (callees.meant functions.now callee) (when_known bound.complete bound.known.items)).meaning) }
{
    let Bound {
        complete,
        known,
        used: _used,
    } = bound;
    if complete {
        applied(alloc, into, functions, place, callee, known)
    } else {
        Ok(Meaning::Unknown)
    }
}
