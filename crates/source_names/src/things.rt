//! What names and names with points between stand for; P08 and P09 on these.

ghost use Rattle.std.specs.Prelude.{◌≡◌, [], ◌++◌, IfOk, OnOk};
ghost use Rattle.source_names.specs.Things as spec;

use crate::faults::break_rule;
use crate::module_names::ModuleNames;
use crate::name_set::NameSet;
use crate::named::Thing;
use algopy_library::{Member, Row, built_in, member_named};
use puya_base::{List, Memory, Place, Refusal, Rule};
use py_grammar::Word;

/// Whether a name is that of the contract itself in the functions of its class.
pub fn is_myself(name: &str) -> bool
    ensures { result ≡ spec.is_myself name.now }
{
    name == "self"
}

/// P09 on a name that nothing defines.
pub(crate) fn undefined(into: &mut List<Refusal>, place: Place) -> Result<Thing, Memory>
    ensures told { OnOk result (into.new ≡ into.old ++ (spec.undefined place).faults) }
    ensures thing { IfOk result (λ t. t ≡ (spec.undefined place).thing) }
{
    break_rule(into, Rule::P09, place)?;
    Ok(Thing::Unknown)
}

/// P08 on a name that is left out.
fn left_out(into: &mut List<Refusal>, place: Place) -> Result<Thing, Memory>
    ensures told { OnOk result (into.new ≡ into.old ++ (spec.left_out place).faults) }
    ensures thing { IfOk result (λ t. t ≡ (spec.left_out place).thing) }
{
    break_rule(into, Rule::P08, place)?;
    Ok(Thing::Unknown)
}

fn found_built_in(into: &mut List<Refusal>, place: Place, row: Option<Row>) -> Result<Thing, Memory>
    ensures told { OnOk result (into.new ≡ into.old ++ (spec.found_built_in place row).faults) }
    ensures thing { IfOk result (λ t. t ≡ (spec.found_built_in place row).thing) }
{
    match row {
        Some(row) => Ok(Thing::Library(row)),
        None => undefined(into, place),
    }
}

/// A name of the module, or else a built-in one; P09 where it is neither. On `Memory` some of what is told may stand.
pub fn module_name(
    into: &mut List<Refusal>,
    names: &ModuleNames,
    word: &Word,
) -> Result<Thing, Memory>
    ensures told { OnOk result (into.new ≡ into.old ++ (spec.module_name names.now word.now).faults) }
    ensures thing { IfOk result (λ t. t ≡ (spec.module_name names.now word.now).thing) }
{
    match names.thing_of(word.name.as_str()) {
        Some(thing) => Ok(thing),
        None => found_built_in(into, word.place, built_in(word.name.as_str().as_bytes())),
    }
}

fn found_member(
    into: &mut List<Refusal>,
    place: Place,
    member: Option<Member>,
) -> Result<Thing, Memory>
    ensures told { OnOk result (into.new ≡ into.old ++ (spec.found_member place member).faults) }
    ensures thing { IfOk result (λ t. t ≡ (spec.found_member place member).thing) }
{
    match member {
        None => undefined(into, place),
        Some(Member::LeftOut) => left_out(into, place),
        Some(Member::Row(row)) => Ok(Thing::Library(row)),
        Some(member) => Ok(Thing::Member(member)),
    }
}

/// What stands behind a name that is no value, and a point, where no methods are known; P08 or P09 where that is nothing.
pub fn plain_member(into: &mut List<Refusal>, thing: Thing, word: &Word) -> Result<Thing, Memory>
    ensures told { OnOk result (into.new ≡ into.old ++ (spec.member_of [] thing word.now).faults) }
    ensures thing { IfOk result (λ t. t ≡ (spec.member_of [] thing word.now).thing) }
{
    match thing {
        Thing::Library(row) => found_member(
            into,
            word.place,
            member_named(row, word.name.as_str().as_bytes()),
        ),
        Thing::Unknown => Ok(Thing::Unknown),
        _ => undefined(into, word.place),
    }
}

/// The names behind a point, one after the other.
fn members_of(into: &mut List<Refusal>, thing: Thing, words: &[Word]) -> Result<Thing, Memory>
    ensures told { OnOk result (into.new ≡ into.old ++ (spec.members_of (spec.stands_for thing) words.now).faults) }
    ensures thing { IfOk result (λ t. t ≡ (spec.members_of (spec.stands_for thing) words.now).thing) }
{
    let mut thing = thing;
    let mut rest = words;
    while let [word, behind @ ..] = rest {
        thing = plain_member(into, thing, word)?;
        rest = behind;
    }
    Ok(thing)
}

/// The first of names with points between: a variable of the function, a name of the module, a built-in name.
fn first_name(
    into: &mut List<Refusal>,
    names: &ModuleNames,
    variables: &NameSet,
    word: &Word,
) -> Result<Thing, Memory>
    ensures told { OnOk result (into.new ≡ into.old ++ (spec.first_name names.now variables.now word.now).faults) }
    ensures thing { IfOk result (λ t. t ≡ (spec.first_name names.now variables.now word.now).thing) }
{
    if variables.contains(word.name.as_str()) {
        Ok(Thing::Variable)
    } else {
        module_name(into, names, word)
    }
}

/// Names with points between, as types, bases and decorators are written.
pub fn dotted(
    into: &mut List<Refusal>,
    names: &ModuleNames,
    variables: &NameSet,
    words: &[Word],
) -> Result<Thing, Memory>
    ensures told { OnOk result (into.new ≡ into.old ++ (spec.dotted names.now variables.now words.now).faults) }
    ensures thing { IfOk result (λ t. t ≡ (spec.dotted names.now variables.now words.now).thing) }
{
    match words {
        [] => Ok(Thing::Unknown),
        [first, behind @ ..] => {
            let thing = first_name(into, names, variables, first)?;
            members_of(into, thing, behind)
        }
    }
}
