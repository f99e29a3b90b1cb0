//! Names and members (Python reference, 6.2.1 and 6.3.1): what they mean where they stand; P08 and P09 on those that nothing defines.

ghost use Rattle.std.specs.Prelude.{◌≡◌, ◌++◌, ◌&&◌, List, IfOk, OnOk, option_copied};
ghost use Rattle.meaning_rules.specs.Meanings as meanings;
ghost use Rattle.meaning_rules.specs.Operations as spec;
ghost use Rattle.source_names.specs.Things as things;
ghost use Rattle.meaning_rules.specs.declared.scope.Local.{Local};
ghost use Rattle.expression_check.specs.Sights.{seen};

use crate::locals::Locals;
use crate::sight::Sight;
use crate::telling::note_all;
use meaning_rules::{
    Hope, Local, Meaning, application_member, constant_says, member_says, member_when, read_local,
    value,
};
use path_rules::Notes;
use puya_base::{List, Memory, Place, Refusal};
use py_grammar::Word;
use source_names::{Constant, Thing, member_of, module_name};
use std::alloc::Global;

fn constant_at(alloc: Global, place: Place, constant: Option<&Constant>) -> Result<Meaning, Memory>
    ensures { IfOk result (λ m. m ≡ (spec.constant_says place (option_copied constant.entry)).meaning) }
{
    match constant {
        Some(constant) => constant_says(alloc, place, constant),
        None => Ok(Meaning::Unknown),
    }
}

/// What a name means that stands for this; a constant stands for its literal.
fn thing_says(
    alloc: Global,
    constants: &List<Constant>,
    place: Place,
    thing: Thing,
) -> Result<Meaning, Memory>
    ensures { IfOk result (λ m. m ≡ (spec.thing_says constants.now place thing).meaning) }
{
    match thing {
        Thing::Constant(number) => constant_at(alloc, place, constants.get(number as usize)),
        Thing::Member(member) => Ok(member_says(alloc, place, member)),
        Thing::Unknown => Ok(Meaning::Unknown),
        _ => Ok(Meaning::Thing(thing)),
    }
}

/// What stands for this means, and the rules that were broken on the way.
fn found_says(
    alloc: Global,
    into: &mut Notes,
    constants: &List<Constant>,
    place: Place,
    told: &[Refusal],
    thing: Thing,
) -> Result<Meaning, Memory>
    ensures told { OnOk result (into.new ≡ into.old ++ (spec.found_says constants.now place (record { thing = thing; faults = told.now })).notes) }
    ensures meaning { IfOk result (λ m. m ≡ (spec.found_says constants.now place (record { thing = thing; faults = told.now })).meaning) }
{
    note_all(into, told)?;
    thing_says(alloc, constants, place, thing)
}

fn module_says(
    alloc: Global,
    into: &mut Notes,
    sight: &Sight,
    word: &Word,
) -> Result<Meaning, Memory>
    ensures told { OnOk result (into.new ≡ into.old ++ (spec.found_says sight.now.constants word.now.place (things.module_name sight.now.names word.now)).notes) }
    ensures meaning { IfOk result (λ m. m ≡ (spec.found_says sight.now.constants word.now.place (things.module_name sight.now.names word.now)).meaning) }
{
    let mut told = List::new(alloc);
    let thing = module_name(&mut told, &sight.names, word)?;
    found_says(
        alloc,
        into,
        &sight.constants,
        word.place,
        told.as_slice(),
        thing,
    )
}

fn is_myself(sight: &Sight, word: &Word) -> bool
    ensures { result ≡ (sight.now.myself && things.is_myself word.now.name) }
{
    if sight.myself {
        word.name.as_str() == "self"
    } else {
        false
    }
}

fn name_beyond(
    alloc: Global,
    into: &mut Notes,
    sight: &Sight,
    word: &Word,
) -> Result<Meaning, Memory>
    ensures told { (ls : List Local) → OnOk result (into.new ≡ into.old ++ (spec.name_beyond (seen sight.now ls) word.now).notes) }
    ensures meaning { (ls : List Local) → IfOk result (λ m. m ≡ (spec.name_beyond (seen sight.now ls) word.now).meaning) }
{
    if is_myself(sight, word) {
        Ok(Meaning::Thing(Thing::Myself))
    } else {
        module_says(alloc, into, sight, word)
    }
}

/// A read of the variable of this number.
pub fn read_at(
    alloc: Global,
    into: &mut Notes,
    place: Place,
    number: u32,
    local: Option<&Local>,
) -> Result<Meaning, Memory>
    ensures told { OnOk result (into.new ≡ into.old ++ (spec.read_status place number (option_copied local.entry)).notes) }
    ensures meaning { IfOk result (λ m. m ≡ (spec.read_status place number (option_copied local.entry)).meaning) }
{
    match local {
        Some(local) => read_local(alloc, into, place, number, local),
        None => Ok(Meaning::Unknown),
    }
}

/// A variable, `self`, a name of the module, a built-in name; P09 on any other, P17 on a variable that is read too early.
pub(crate) fn judge_name(
    alloc: Global,
    into: &mut Notes,
    sight: &Sight,
    locals: &Locals,
    word: &Word,
) -> Result<Meaning, Memory>
    ensures told { OnOk result (into.new ≡ into.old ++ (spec.judge_name (seen sight.now locals.now) word.now).notes) }
    ensures meaning { IfOk result (λ m. m ≡ (spec.judge_name (seen sight.now locals.now) word.now).meaning) }
{
    match locals.number_of(word.name.as_str()) {
        Some(number) => read_at(alloc, into, word.place, number, locals.at(number)),
        None => name_beyond(alloc, into, sight, word),
    }
}

fn found_member(
    alloc: Global,
    into: &mut Notes,
    sight: &Sight,
    place: Place,
    thing: Thing,
    word: &Word,
) -> Result<Meaning, Memory>
    ensures told { OnOk result (into.new ≡ into.old ++ (spec.found_says sight.now.constants place (things.member_of sight.now.methods thing word.now)).notes) }
    ensures meaning { IfOk result (λ m. m ≡ (spec.found_says sight.now.constants place (things.member_of sight.now.methods thing word.now)).meaning) }
{
    let mut told = List::new(alloc);
    let found = member_of(&mut told, &sight.methods, thing, word)?;
    found_says(alloc, into, &sight.constants, place, told.as_slice(), found)
}

fn thing_member(
    alloc: Global,
    into: &mut Notes,
    sight: &Sight,
    place: Place,
    thing: Thing,
    word: &Word,
) -> Result<Meaning, Memory>
    ensures told { (ls : List Local) → OnOk result (into.new ≡ into.old ++ (spec.thing_member (seen sight.now ls) place thing word.now).notes) }
    ensures meaning { (ls : List Local) → IfOk result (λ m. m ≡ (spec.thing_member (seen sight.now ls) place thing word.now).meaning) }
{
    match thing {
        Thing::Member(member) => application_member(alloc, into, place, member, word),
        _ => found_member(alloc, into, sight, place, thing, word),
    }
}

/// A member of a value; P09 on one that the value's type hasn't.
fn member_of_value(
    alloc: Global,
    into: &mut Notes,
    place: Place,
    at: Place,
    word: &Word,
    meaning: Meaning,
) -> Result<Meaning, Memory>
    ensures told { OnOk result (into.new ≡ into.old ++ (spec.member_of_value place word.now (meanings.value Hope.Free at (meanings.says meaning))).notes) }
    ensures meaning { IfOk result (λ m. m ≡ (spec.member_of_value place word.now (meanings.value Hope.Free at (meanings.says meaning))).meaning) }
{
    let typed = value(into, &Hope::Free, at, meaning)?;
    member_when(alloc, into, place, word, typed)
}

/// What a member means, at `place`, of what stands at `at` and means this.
pub(crate) fn member_says_of(
    alloc: Global,
    into: &mut Notes,
    sight: &Sight,
    place: Place,
    at: Place,
    word: &Word,
    meaning: Meaning,
) -> Result<Meaning, Memory>
    ensures told { (ls : List Local) → OnOk result (into.new ≡ into.old ++ (spec.judge_member (seen sight.now ls) place at word.now (meanings.says meaning)).notes) }
    ensures meaning { (ls : List Local) → IfOk result (λ m. m ≡ (spec.judge_member (seen sight.now ls) place at word.now (meanings.says meaning)).meaning) }
{
    match meaning {
        Meaning::Thing(thing) => thing_member(alloc, into, sight, place, thing, word),
        Meaning::Unknown => Ok(Meaning::Unknown),
        _ => member_of_value(alloc, into, place, at, word, meaning),
    }
}
