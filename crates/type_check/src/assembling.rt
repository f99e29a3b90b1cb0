//! The typed contracts of a module that breaks no rule.

ghost use Rattle.std.specs.Prelude.{◌≡◌, [], ◌∷◌, None, Some, true, IfOk, OnOk};
ghost use Rattle.source_headers.specs.Bases.{number_behind};
ghost use Rattle.source_headers.specs.Classes as classes;
ghost use Rattle.source_headers.specs.Headers as headers;
ghost use Rattle.type_check.specs.Functions as functions;
ghost use Rattle.type_check.specs.Placing as placing;
ghost use Rattle.expression_check.specs.Sights.{seen};
ghost use Rattle.type_check.specs.Whole as spec;

use crate::functions::{Judged, judge_function};
use crate::scoping::{contract_in, enter_class, leave_class, next_function};
use awst::{Contract, Func as TypedFunc, Funcs};
use expression_check::Sight;
use puya_base::{List, Memory, Name, SourceFault};
use py_grammar::{Class, Func, Item, Member};
use source_headers::{myself, signature_of};
use std::alloc::Global;

/// The typed function, where it is known.
fn typed_placed(
    alloc: Global,
    sight: &Sight,
    inside: bool,
    func: &Func,
) -> Result<Option<TypedFunc>, Memory>
    ensures { IfOk result (λ f. f ≡ functions.typed_function (seen sight.now []) inside (headers.signature sight.now.names inside func.now) func.now) }
{
    let signature = signature_of(alloc, &sight.names, inside, func)?;
    let mut told = List::new(alloc);
    let Judged {
        notes: _notes,
        end: _end,
        typed,
    } = judge_function(alloc, &mut told, sight, inside, &signature, func)?;
    Ok(typed)
}

/// A function behind others, where all are known.
fn with_function(all: Option<Funcs>, one: Option<TypedFunc>) -> Result<Option<Funcs>, Memory>
    ensures { IfOk result (λ fs. fs ≡ placing.with_function all one) }
{
    let Some(mut all) = all else {
        return Ok(None);
    };
    let Some(one) = one else {
        return Ok(None);
    };
    all.push(one)?;
    Ok(Some(all))
}

/// A line of a module, where it is a function, behind functions, where all are known.
fn with_item(
    alloc: Global,
    all: Option<Funcs>,
    sight: &Sight,
    item: &Item,
) -> Result<Option<Funcs>, Memory>
    ensures { IfOk result (λ fs. fs ≡ placing.functions_behind all (spec.typed_functions (placing.in_module sight.now (spec.module_functions (item.now ∷ []))))) }
{
    match item {
        Item::Func(func) => {
            let one = typed_placed(alloc, sight, false, func)?;
            with_function(all, one)
        }
        _ => Ok(all),
    }
}

/// The typed functions of a module, where each is known.
fn typed_functions(alloc: Global, sight: &Sight, items: &[Item]) -> Result<Option<Funcs>, Memory>
    ensures { IfOk result (λ fs. fs ≡ spec.typed_functions (placing.in_module sight.now (spec.module_functions items.now))) }
{
    let mut all = Some(List::new(alloc));
    let mut rest = items;
    while let [first, behind @ ..] = rest {
        all = with_item(alloc, all, sight, first)?;
        rest = behind;
    }
    Ok(all)
}

fn typed_method(alloc: Global, sight: &mut Sight, func: &Func) -> Result<Option<TypedFunc>, Memory>
    ensures typed { IfOk result (λ f. f ≡ functions.typed_function (seen (placing.at_method sight.old func.now) []) true (headers.signature sight.old.names true func.now) func.now) }
    ensures sight { OnOk result (placing.forgetful sight.new ≡ placing.forgetful sight.old) }
{
    sight.myself = myself(true, func.params.as_slice()).is_some();
    typed_placed(alloc, sight, true, func)
}

/// A member, where it is a function, behind functions, where all are known.
fn with_member(
    alloc: Global,
    all: Option<Funcs>,
    sight: &mut Sight,
    member: &Member,
) -> Result<Option<Funcs>, Memory>
    ensures typed { IfOk result (λ fs. fs ≡ placing.functions_behind all (spec.typed_functions (placing.in_class sight.old (classes.functions (member.now ∷ []))))) }
    ensures sight { OnOk result (placing.forgetful sight.new ≡ placing.forgetful sight.old) }
{
    match member {
        Member::Func(func) => {
            let one = typed_method(alloc, sight, func)?;
            with_function(all, one)
        }
        _ => Ok(all),
    }
}

/// Behind these the typed functions of a class, where each is known.
fn typed_methods(
    alloc: Global,
    before: Option<Funcs>,
    sight: &mut Sight,
    members: &[Member],
) -> Result<Option<Funcs>, Memory>
    ensures typed { IfOk result (λ fs. fs ≡ placing.functions_behind before (spec.typed_functions (placing.in_class sight.old (classes.functions members.now)))) }
    ensures sight { OnOk result (placing.forgetful sight.new ≡ placing.forgetful sight.old) }
{
    let mut all = before;
    let mut rest = members;
    while let [first, behind @ ..] = rest {
        all = with_member(alloc, all, sight, first)?;
        rest = behind;
    }
    Ok(all)
}

fn has_name(member: &Member, name: &str) -> bool
    ensures { result ≡ placing.has_name name.now member.now }
{
    match member {
        Member::Func(func) => func.name.name.as_str() == name,
        _ => false,
    }
}

/// The number behind that of a member, which counts where it is a function.
fn number_behind(number: u32, member: &Member) -> Result<u32, Memory>
    ensures { IfOk result (λ n. n ≡ number_behind number member.now) }
{
    match member {
        Member::Func(_) => number.checked_add(1).ok_or(Memory),
        _ => Ok(number),
    }
}

/// The number of the first function of this name among the members, where the first function has this number.
fn first_named(first: u32, members: &[Member], name: &str) -> Result<Option<u32>, Memory>
    ensures { IfOk result (λ n. n ≡ spec.beyond first (classes.first_from 0 (classes.is_named name.now) (classes.functions members.now))) }
{
    let mut number = first;
    let mut rest = members;
    while let [member, behind @ ..] = rest {
        if has_name(member, name) {
            return Ok(Some(number));
        }
        number = number_behind(number, member)?;
        rest = behind;
    }
    Ok(None)
}

fn contract_of(alloc: Global, first: u32, class: &Class, funcs: Funcs) -> Result<Contract, Memory>
    ensures { IfOk result (λ c. c ≡ placing.contract_of first class.now funcs) }
{
    let members = class.members.as_slice();
    let approval = first_named(first, members, "approval_program")?;
    let clear = first_named(first, members, "clear_state_program")?;
    Ok(Contract {
        name: Name::new(alloc, class.name.name.as_str())?,
        arc4: false,
        funcs,
        approval,
        clear,
        init: None,
    })
}

fn contract_when(
    alloc: Global,
    first: u32,
    class: &Class,
    funcs: Option<Funcs>,
) -> Result<Option<Contract>, Memory>
    ensures { IfOk result (λ c. c ≡ placing.contract_when first class.now funcs) }
{
    match funcs {
        Some(funcs) => Ok(Some(contract_of(alloc, first, class, funcs)?)),
        None => Ok(None),
    }
}

/// The typed contract of a class, where each of its functions and of the module's is known.
fn typed_contract(
    alloc: Global,
    sight: &mut Sight,
    items: &[Item],
    class: &Class,
) -> Result<Option<Contract>, Memory>
    ensures typed { seen sight.old [] ≡ spec.module_scope items.now → IfOk result (λ c. c ≡ spec.typed_contract items.now class.now) }
    ensures sight { OnOk result (sight.new ≡ placing.outside sight.old) }
{
    let functions = sight.functions.len();
    let first = next_function(sight)?;
    let before = typed_functions(alloc, sight, items)?;
    enter_class(alloc, sight, class)?;
    let all = typed_methods(alloc, before, sight, class.members.as_slice())?;
    leave_class(alloc, sight, functions);
    contract_when(alloc, first, class, all)
}

fn with_contract(
    all: Option<List<Contract>>,
    one: Option<Contract>,
) -> Result<Option<List<Contract>>, Memory>
    ensures { IfOk result (λ cs. cs ≡ placing.with_contract all one) }
{
    let Some(mut all) = all else {
        return Ok(None);
    };
    let Some(one) = one else {
        return Ok(None);
    };
    all.push(one)?;
    Ok(Some(all))
}

/// A line, where it is a contract, behind contracts, where all are known.
fn with_line(
    alloc: Global,
    all: Option<List<Contract>>,
    sight: &mut Sight,
    items: &[Item],
    item: &Item,
) -> Result<Option<List<Contract>>, Memory>
    ensures typed { seen sight.old [] ≡ spec.module_scope items.now → IfOk result (λ cs. cs ≡ placing.contracts_behind all (spec.typed_contracts items.now (spec.contracts sight.old.names (classes.classes (item.now ∷ []))))) }
    ensures sight { OnOk result (placing.AtModule sight.old → sight.new ≡ sight.old) }
{
    match contract_in(alloc, sight, item)? {
        Some(class) => {
            let one = typed_contract(alloc, sight, items, class)?;
            with_contract(all, one)
        }
        None => Ok(all),
    }
}

fn typed_contracts(
    alloc: Global,
    sight: &mut Sight,
    items: &[Item],
) -> Result<Option<List<Contract>>, Memory>
    ensures { seen sight.old [] ≡ spec.module_scope items.now → IfOk result (λ cs. cs ≡ spec.typed (record { items = items.now })) }
{
    let mut all = Some(List::new(alloc));
    let mut rest = items;
    while let [first, behind @ ..] = rest {
        all = with_line(alloc, all, sight, items, first)?;
        rest = behind;
    }
    Ok(all)
}

/// The typed contracts of a module. One that breaks no rule has them; the error is want of memory.
pub(crate) fn assembled(
    alloc: Global,
    sight: &mut Sight,
    items: &[Item],
) -> Result<List<Contract>, SourceFault>
    ensures { seen sight.old [] ≡ spec.module_scope items.now → placing.IsAssembled items.now result }
{
    match typed_contracts(alloc, sight, items)? {
        Some(contracts) => Ok(contracts),
        None => Err(SourceFault::Memory),
    }
}
