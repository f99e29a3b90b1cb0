//! Which parameter an argument is for (Python reference, 6.3.4): by position and then by keyword; P09 and P15 on these.

ghost use Rattle.std.specs.Prelude.{◌≡◌, None, Some, option_copied, slice_get};
ghost use Rattle.call_rules.specs.Callees as callees;
ghost use Rattle.call_rules.specs.Calls as spec;

use crate::callee::{Callee, Slot};
use puya_base::{List, Place, Rule};
use py_grammar::Word;
use source_names::{Parameter, Signature};

/// The numbers of the parameters that have an argument, and whether one was given by a keyword.
#[derive(Drop)]
pub struct Used {
    pub numbers: List<usize>,
    pub keyword: bool,
}

fn is_used(number: usize, used: &[usize]) -> bool
    ensures { result ≡ spec.is_used number used.now }
{
    let mut rest = used;
    while let [first, behind @ ..] = rest {
        if *first == number {
            return true;
        }
        rest = behind;
    }
    false
}

fn param_named(params: &[Parameter], name: &str) -> Option<usize>
    ensures { result ≡ spec.param_from 0 name.now params.now }
{
    let mut i = 0;
    let mut rest = params;
    while let [first, behind @ ..] = rest {
        if first.name.as_str() == name {
            return Some(i);
        }
        i += 1;
        rest = behind;
    }
    None
}

fn keyed_at(place: Place, used: &[usize], number: usize) -> Slot
    ensures { result ≡ spec.keyed place used.now (Some number) }
{
    if is_used(number, used) {
        Slot::Wrong(Rule::P15, place)
    } else {
        Slot::At(number)
    }
}

/// P09 on a keyword that names no parameter, P15 on one whose parameter has its argument.
fn keyed(place: Place, used: &[usize], number: Option<usize>) -> Slot
    ensures { result ≡ spec.keyed place used.now number }
{
    match number {
        Some(number) => keyed_at(place, used, number),
        None => Slot::Wrong(Rule::P09, place),
    }
}

fn placed(signature: &Signature, i: usize) -> Slot
    ensures { result ≡ spec.placed i (slice_get signature.now.params i) }
{
    match signature.params.get(i) {
        Some(_) => Slot::At(i),
        None => Slot::Beyond,
    }
}

/// P15 on an argument by position behind a keyword.
fn positional(signature: &Signature, i: usize, used: &Used, place: Place) -> Slot
    ensures { result ≡ spec.function_slot signature.now i used.now None place }
{
    if used.keyword {
        Slot::Wrong(Rule::P15, place)
    } else {
        placed(signature, i)
    }
}

fn by_keyword(signature: &Signature, used: &Used, key: &Word) -> Slot
    ensures { result ≡ spec.keyed key.now.place used.now.numbers (spec.param_from 0 key.now.name signature.now.params) }
{
    let number = param_named(signature.params.as_slice(), key.name.as_str());
    keyed(key.place, used.numbers.as_slice(), number)
}

fn function_slot(
    signature: &Signature,
    i: usize,
    used: &Used,
    key: Option<&Word>,
    place: Place,
) -> Slot
    ensures { result ≡ spec.function_slot signature.now i used.now (option_copied key.entry) place }
{
    match key {
        Some(key) => by_keyword(signature, used, key),
        None => positional(signature, i, used, place),
    }
}

/// The forms of the library take their arguments by position: P09 on a keyword.
fn library_slot(i: usize, key: Option<&Word>) -> Slot
    ensures { result ≡ spec.library_slot i (option_copied key.entry) }
{
    match key {
        Some(key) => Slot::Wrong(Rule::P09, key.place),
        None => Slot::At(i),
    }
}

fn slot_of(
    function: Option<&Signature>,
    i: usize,
    used: &Used,
    key: Option<&Word>,
    place: Place,
) -> Slot
    ensures { result ≡ callees.slot_of (option_copied function.entry) i used.now (option_copied key.entry) place }
{
    match function {
        Some(signature) => function_slot(signature, i, used, key, place),
        None => Slot::At(i),
    }
}

#[tactic(auto, using(crate::proofs::CalleeLaws::slot_same))]
/// Which parameter the argument of number `i` in reading order, at `place`, is for. What can't be called, or is not known, asks nothing.
pub fn slot_for(
    functions: &List<Signature>,
    callee: Callee,
    i: usize,
    used: &Used,
    key: Option<&Word>,
    place: Place,
) -> Slot
    ensures { result ≡ spec.slot (callees.meant functions.now callee) i used.now (option_copied key.entry) place }
{
    match callee {
        Callee::Function(number) => slot_of(functions.get(number as usize), i, used, key, place),
        Callee::Nothing => Slot::At(i),
        Callee::Unknown => Slot::At(i),
        _ => library_slot(i, key),
    }
}
