//! Contracts: their bases, their members, their two programs (Algorand Python guide, "Contracts"); P08 to P10, P12 and P22 on these.

ghost use Rattle.std.specs.Prelude.{◌≡◌, ◌++◌, ◌&&◌, [], IfOk, OnOk, is_some};
ghost use Rattle.source_headers.specs.Classes as spec;
ghost use Rattle.source_names.specs.Things as things;
ghost use Rattle.source_headers.specs.Headers.{twice, signature};
ghost use Rattle.source_headers.specs.Bases.{shown, passes, has_named, wrong_program, member_again, with_member, item_told, other_item, kind_told, missing_told};
ghost use Rattle.source_names.specs.Types as types;

use crate::decorators::{all_unwanted, decorators};
use crate::headers::{again, myself, signature_of, signature_told};
use algopy_library::{Row, Scalar};
use puya_base::{List, Memory, Place, Refusal, Rule};
use py_grammar::{Class, Func, Item, Member};
use source_names::{ModuleNames, NameSet, Signature, SourceType, Thing, break_rule, dotted};
use std::alloc::Global;

/// What a class is by its base.
#[derive(Clone, Copy, Debug, PartialEq, Eq)]
pub enum Base {
    Contract,
    Another,
    Unknown,
}

fn row_base(row: Row) -> Base
    ensures { shown result ≡ spec.row_base row }
{
    match row {
        Row::Contract => Base::Contract,
        _ => Base::Another,
    }
}

fn thing_base(thing: Thing) -> Base
    ensures { shown result ≡ spec.thing_base thing }
{
    match thing {
        Thing::Library(row) => row_base(row),
        Thing::Unknown => Base::Unknown,
        _ => Base::Another,
    }
}

/// What a class is by its base, whose names are judged.
fn base_told(
    alloc: Global,
    into: &mut List<Refusal>,
    names: &ModuleNames,
    class: &Class,
) -> Result<Base, Memory>
    ensures told { OnOk result (into.new ≡ into.old ++ (things.dotted names.now [] class.now.base).faults) }
    ensures value { IfOk result (λ b. shown b ≡ spec.base_of names.now class.now) }
{
    let thing = dotted(into, names, &NameSet::new(alloc), class.base.as_slice())?;
    Ok(thing_base(thing))
}

/// What a class is by its base.
pub fn base_of(alloc: Global, names: &ModuleNames, class: &Class) -> Result<Base, Memory>
    ensures { IfOk result (λ b. shown b ≡ spec.base_of names.now class.now) }
{
    let mut told = List::new(alloc);
    base_told(alloc, &mut told, names, class)
}

fn is_approval(func: &Func) -> bool
    ensures { result ≡ spec.is_approval func.now }
{
    func.name.name.as_str() == "approval_program"
}

fn is_clear(func: &Func) -> bool
    ensures { result ≡ spec.is_clear func.now }
{
    func.name.name.as_str() == "clear_state_program"
}

/// Whether a function is one of a contract's two programs.
pub fn is_program(func: &Func) -> bool
    ensures { result ≡ spec.is_program func.now }
{
    if is_approval(func) {
        return true;
    }
    is_clear(func)
}

/// The type's scalar, if it is one.
fn scalar_of(ty: &SourceType) -> Option<Scalar>
    ensures { result ≡ types.scalar_of ty.now }
{
    match ty {
        SourceType::Scalar(scalar) => Some(*scalar),
        SourceType::Nothing => None,
        SourceType::Tuple(_) => None,
    }
}

fn gives_truth(scalar: Option<Scalar>) -> bool
    ensures { result ≡ spec.gives_truth scalar }
{
    match scalar {
        Some(Scalar::UInt64) => true,
        Some(Scalar::Bool) => true,
        _ => false,
    }
}

/// A program gives a bool or a UInt64; one whose result is not known is not judged.
fn wrong_result(result_type: &Option<SourceType>) -> bool
    ensures { result ≡ spec.wrong_result result_type.now }
{
    match result_type {
        None => false,
        Some(ty) => !gives_truth(scalar_of(ty)),
    }
}

fn is_wrong_program(signature: &Signature) -> bool
    ensures { result ≡ wrong_program signature.now }
{
    match signature.params.as_slice() {
        [] => wrong_result(&signature.result),
        _ => true,
    }
}

/// P12 on a program with a parameter but `self`, or that gives neither bool nor UInt64.
fn program_faults(
    alloc: Global,
    into: &mut List<Refusal>,
    names: &ModuleNames,
    func: &Func,
) -> Result<(), Memory>
    ensures { OnOk result (into.new ≡ into.old ++ spec.program_faults names.now func.now) }
{
    let signature = signature_of(alloc, names, true, func)?;
    if is_wrong_program(&signature) {
        return break_rule(into, Rule::P12, func.place);
    }
    Ok(())
}

/// P12 on a function of a class whose first parameter is not `self`.
fn selfless(into: &mut List<Refusal>, func: &Func) -> Result<(), Memory>
    ensures { OnOk result (into.new ≡ into.old ++ spec.selfless func.now) }
{
    match myself(true, func.params.as_slice()) {
        Some(_) => Ok(()),
        None => break_rule(into, Rule::P12, func.place),
    }
}

/// A program has no decorator, every other function has `subroutine`.
fn kind_faults(
    alloc: Global,
    into: &mut List<Refusal>,
    names: &ModuleNames,
    func: &Func,
) -> Result<(), Memory>
    ensures { OnOk result (into.new ≡ into.old ++ kind_told names.now func.now) }
{
    if is_program(func) {
        all_unwanted(into, names, func.decorators.as_slice())?;
        program_faults(alloc, into, names, func)
    } else {
        decorators(into, names, func.def, func.decorators.as_slice())
    }
}

fn function_faults(
    alloc: Global,
    into: &mut List<Refusal>,
    names: &ModuleNames,
    func: &Func,
) -> Result<(), Memory>
    ensures { OnOk result (into.new ≡ into.old ++ spec.function_faults names.now func.now) }
{
    selfless(into, func)?;
    kind_faults(alloc, into, names, func)?;
    signature_told(alloc, into, names, true, func)?;
    Ok(())
}

/// P12 on a field: a contract has none.
fn member_faults(
    alloc: Global,
    into: &mut List<Refusal>,
    names: &ModuleNames,
    member: &Member,
) -> Result<(), Memory>
    ensures { OnOk result (into.new ≡ into.old ++ spec.member_faults names.now member.now) }
{
    match member {
        Member::Text(_, _) | Member::Pass(_) => Ok(()),
        Member::Field(word, _) => break_rule(into, Rule::P12, word.place),
        Member::Func(func) => function_faults(alloc, into, names, func),
    }
}

fn all_member_faults(
    alloc: Global,
    into: &mut List<Refusal>,
    names: &ModuleNames,
    members: &[Member],
) -> Result<(), Memory>
    ensures { OnOk result (into.new ≡ into.old ++ spec.all_member_faults names.now members.now) }
{
    let mut rest = members;
    while let [member, behind @ ..] = rest {
        member_faults(alloc, into, names, member)?;
        rest = behind;
    }
    Ok(())
}

/// P10 on a member that is named as one before; its name is seen from now on.
fn note_member(
    alloc: Global,
    into: &mut List<Refusal>,
    seen: &mut NameSet,
    member: &Member,
) -> Result<(), Memory>
    ensures told { OnOk result (into.new ≡ into.old ++ member_again seen.old member.now) }
    ensures seen { OnOk result (seen.new ≡ with_member seen.old member.now) }
{
    match member {
        Member::Text(_, _) => Ok(()),
        Member::Pass(_) => Ok(()),
        Member::Field(word, _) => again(alloc, into, seen, word.name.as_str(), word.place),
        Member::Func(func) => again(alloc, into, seen, func.name.name.as_str(), func.name.place),
    }
}

/// P10 on each member that is named as one before.
fn members_twice(alloc: Global, into: &mut List<Refusal>, members: &[Member]) -> Result<(), Memory>
    ensures { OnOk result (into.new ≡ into.old ++ twice [] (spec.member_names members.now)) }
{
    let mut seen = NameSet::new(alloc);
    let mut rest = members;
    while let [member, behind @ ..] = rest {
        note_member(alloc, into, &mut seen, member)?;
        rest = behind;
    }
    Ok(())
}

fn approves(member: &Member) -> bool
    ensures { result ≡ passes spec.is_approval member.now }
{
    match member {
        Member::Func(func) => is_approval(func),
        _ => false,
    }
}

fn clears(member: &Member) -> bool
    ensures { result ≡ passes spec.is_clear member.now }
{
    match member {
        Member::Func(func) => is_clear(func),
        _ => false,
    }
}

fn has_approval(members: &[Member]) -> bool
    ensures { result ≡ has_named spec.is_approval members.now }
{
    let mut rest = members;
    while let [member, behind @ ..] = rest {
        if approves(member) {
            return true;
        }
        rest = behind;
    }
    false
}

fn has_clear(members: &[Member]) -> bool
    ensures { result ≡ has_named spec.is_clear members.now }
{
    let mut rest = members;
    while let [member, behind @ ..] = rest {
        if clears(member) {
            return true;
        }
        rest = behind;
    }
    false
}

/// P12 on a program that is not there.
fn missing(into: &mut List<Refusal>, place: Place, is_there: bool) -> Result<(), Memory>
    ensures { OnOk result (into.new ≡ into.old ++ missing_told place is_there) }
{
    if is_there {
        return Ok(());
    }
    break_rule(into, Rule::P12, place)
}

/// P12 on a contract without one of its programs.
fn missing_programs(into: &mut List<Refusal>, class: &Class) -> Result<(), Memory>
    ensures { OnOk result (into.new ≡ into.old ++ spec.missing_programs class.now) }
{
    let has_its_approval = has_approval(class.members.as_slice());
    missing(into, class.name.place, has_its_approval)?;
    let has_its_clear = has_clear(class.members.as_slice());
    missing(into, class.name.place, has_its_clear)
}

fn contract_faults(
    alloc: Global,
    into: &mut List<Refusal>,
    names: &ModuleNames,
    class: &Class,
) -> Result<(), Memory>
    ensures { OnOk result (into.new ≡ into.old ++ spec.contract_faults names.now class.now) }
{
    missing_programs(into, class)?;
    members_twice(alloc, into, class.members.as_slice())?;
    all_member_faults(alloc, into, names, class.members.as_slice())
}

/// P12 on another base.
fn base_faults(
    alloc: Global,
    into: &mut List<Refusal>,
    names: &ModuleNames,
    class: &Class,
    base: Base,
) -> Result<(), Memory>
    ensures { OnOk result (into.new ≡ into.old ++ spec.base_faults names.now class.now (shown base)) }
{
    match base {
        Base::Contract => contract_faults(alloc, into, names, class),
        Base::Another => break_rule(into, Rule::P12, class.name.place),
        Base::Unknown => Ok(()),
    }
}

/// The rules on names that a class breaks, the bodies of its functions aside: P08 to P10, P12, P13 and P22; P12 on another base.
/// On `Memory` some of what is told may stand.
pub fn class_faults(
    alloc: Global,
    into: &mut List<Refusal>,
    names: &ModuleNames,
    class: &Class,
) -> Result<(), Memory>
    ensures { OnOk result (into.new ≡ into.old ++ spec.class_faults names.now class.now) }
{
    let base = base_told(alloc, into, names, class)?;
    base_faults(alloc, into, names, class, base)
}

fn item_class_faults(
    alloc: Global,
    into: &mut List<Refusal>,
    names: &ModuleNames,
    item: &Item,
) -> Result<(), Memory>
    ensures { OnOk result (into.new ≡ into.old ++ item_told names.now item.now) }
{
    match item {
        Item::Class(class) => class_faults(alloc, into, names, class),
        _ => Ok(()),
    }
}

/// The rules on names that the classes of a module break.
pub fn all_class_faults(
    alloc: Global,
    into: &mut List<Refusal>,
    names: &ModuleNames,
    items: &[Item],
) -> Result<(), Memory>
    ensures { OnOk result (into.new ≡ into.old ++ spec.all_class_faults names.now (spec.classes items.now)) }
{
    let mut rest = items;
    while let [item, behind @ ..] = rest {
        item_class_faults(alloc, into, names, item)?;
        rest = behind;
    }
    Ok(())
}

/// Whether a line is no class that may be a contract.
fn is_other(alloc: Global, names: &ModuleNames, item: &Item) -> Result<bool, Memory>
    ensures { IfOk result (λ b. b ≡ other_item names.now item.now) }
{
    match item {
        Item::Class(class) => Ok(is_another(base_of(alloc, names, class)?)),
        _ => Ok(true),
    }
}

fn is_another(base: Base) -> bool
    ensures { result ≡ spec.is_other (shown base) }
{
    match base {
        Base::Another => true,
        Base::Contract => false,
        Base::Unknown => false,
    }
}

fn all_other(alloc: Global, names: &ModuleNames, items: &[Item]) -> Result<bool, Memory>
    ensures { IfOk result (λ b. b ≡ spec.all_other names.now (spec.classes items.now)) }
{
    let mut rest = items;
    while let [item, behind @ ..] = rest {
        if !is_other(alloc, names, item)? {
            return Ok(false);
        }
        rest = behind;
    }
    Ok(true)
}

/// P12 at the start of a module in which no class is a contract.
pub fn no_contract(
    alloc: Global,
    into: &mut List<Refusal>,
    names: &ModuleNames,
    items: &[Item],
) -> Result<(), Memory>
    ensures { OnOk result (into.new ≡ into.old ++ spec.no_contract names.now (spec.classes items.now)) }
{
    if all_other(alloc, names, items)? {
        return break_rule(into, Rule::P12, Place { line: 1, col: 1 });
    }
    Ok(())
}
