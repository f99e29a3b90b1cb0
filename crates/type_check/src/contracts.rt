//! The contracts of a module, and the rules that it breaks.

ghost use Rattle.std.specs.Prelude.{◌≡◌, ◌++◌, [], ◌∷◌, IfOk, OnOk};
ghost use Rattle.source_headers.specs.Classes as classes;
ghost use Rattle.path_rules.specs.Rules.{IsFirst};
ghost use Rattle.type_check.specs.Firsts.{IsFirstOf, first_in};
ghost use Rattle.type_check.specs.Placing as placing;
ghost use Rattle.expression_check.specs.Sights.{seen};
ghost use Rattle.type_check.specs.Whole as spec;
ghost use Rattle.type_check.specs.Whole.{Checks, IsBrokenIn};

use crate::assembling::assembled;
use crate::functions::{Judged, judge_function};
use crate::order::{earlier, first_of};
use crate::scoping::{contract_in, enter_class, leave_class};
use awst::Contract;
use expression_check::Sight;
use path_rules::broken;
use puya_base::{List, Memory, Refusal, SourceFault};
use py_grammar::{Class, Func, Item, Member, Module};
use source_headers::{Table, all_class_faults, myself, no_contract, signature_of, table};
use source_names::Methods;
use std::alloc::Global;

/// What is found wrong so far: what is told, and the first rule that is broken on the paths of a function.
#[derive(Drop)]
struct Found {
    told: List<Refusal>,
    paths: Option<Refusal>,
}

/// Judges a function.
fn judge_placed(
    alloc: Global,
    found: &mut Found,
    sight: &Sight,
    inside: bool,
    func: &Func,
) -> Result<(), Memory>
    ensures told { OnOk result (found.new.told ≡ found.old.told ++ spec.placed_faults (placing.placed sight.now inside func.now ∷ [])) }
    ensures paths { OnOk result (IsFirstOf found.old.paths (placing.placed sight.now inside func.now ∷ []) found.new.paths) }
{
    let signature = signature_of(alloc, &sight.names, inside, func)?;
    let Judged {
        notes,
        end,
        typed: _typed,
    } = judge_function(alloc, &mut found.told, sight, inside, &signature, func)?;
    let first = broken(alloc, &notes, end)?;
    found.paths = earlier(found.paths, first);
    Ok(())
}

/// Judges a line of a module, where it is a function.
fn judge_item(alloc: Global, found: &mut Found, sight: &Sight, item: &Item) -> Result<(), Memory>
    ensures told { OnOk result (found.new.told ≡ found.old.told ++ spec.placed_faults (placing.in_module sight.now (spec.module_functions (item.now ∷ [])))) }
    ensures paths { OnOk result (IsFirstOf found.old.paths (placing.in_module sight.now (spec.module_functions (item.now ∷ []))) found.new.paths) }
{
    match item {
        Item::Func(func) => judge_placed(alloc, found, sight, false, func),
        _ => Ok(()),
    }
}

/// Judges the functions of a module.
fn judge_functions(
    alloc: Global,
    found: &mut Found,
    sight: &Sight,
    items: &[Item],
) -> Result<(), Memory>
    ensures told { OnOk result (found.new.told ≡ found.old.told ++ spec.placed_faults (placing.in_module sight.now (spec.module_functions items.now))) }
    ensures paths { OnOk result (IsFirstOf found.old.paths (placing.in_module sight.now (spec.module_functions items.now)) found.new.paths) }
{
    let mut rest = items;
    while let [first, behind @ ..] = rest {
        judge_item(alloc, found, sight, first)?;
        rest = behind;
    }
    Ok(())
}

/// Judges a function of a class.
fn judge_method(
    alloc: Global,
    found: &mut Found,
    sight: &mut Sight,
    func: &Func,
) -> Result<(), Memory>
    ensures told { OnOk result (found.new.told ≡ found.old.told ++ spec.placed_faults (placing.method sight.old func.now ∷ [])) }
    ensures paths { OnOk result (IsFirstOf found.old.paths (placing.method sight.old func.now ∷ []) found.new.paths) }
    ensures sight { OnOk result (placing.forgetful sight.new ≡ placing.forgetful sight.old) }
{
    sight.myself = myself(true, func.params.as_slice()).is_some();
    judge_placed(alloc, found, sight, true, func)
}

/// Judges a member of a class, where it is a function.
fn judge_member(
    alloc: Global,
    found: &mut Found,
    sight: &mut Sight,
    member: &Member,
) -> Result<(), Memory>
    ensures told { OnOk result (found.new.told ≡ found.old.told ++ spec.placed_faults (placing.in_class sight.old (classes.functions (member.now ∷ [])))) }
    ensures paths { OnOk result (IsFirstOf found.old.paths (placing.in_class sight.old (classes.functions (member.now ∷ []))) found.new.paths) }
    ensures sight { OnOk result (placing.forgetful sight.new ≡ placing.forgetful sight.old) }
{
    match member {
        Member::Func(func) => judge_method(alloc, found, sight, func),
        _ => Ok(()),
    }
}

/// Judges the functions of a class.
fn judge_methods(
    alloc: Global,
    found: &mut Found,
    sight: &mut Sight,
    members: &[Member],
) -> Result<(), Memory>
    ensures told { OnOk result (found.new.told ≡ found.old.told ++ spec.placed_faults (placing.in_class sight.old (classes.functions members.now))) }
    ensures paths { OnOk result (IsFirstOf found.old.paths (placing.in_class sight.old (classes.functions members.now)) found.new.paths) }
    ensures sight { OnOk result (placing.forgetful sight.new ≡ placing.forgetful sight.old) }
{
    let mut rest = members;
    while let [first, behind @ ..] = rest {
        judge_member(alloc, found, sight, first)?;
        rest = behind;
    }
    Ok(())
}

fn judge_contract(
    alloc: Global,
    found: &mut Found,
    sight: &mut Sight,
    class: &Class,
) -> Result<(), Memory>
    ensures told { OnOk result (found.new.told ≡ found.old.told ++ spec.placed_faults (placing.of_class sight.old class.now)) }
    ensures paths { OnOk result (IsFirstOf found.old.paths (placing.of_class sight.old class.now) found.new.paths) }
    ensures sight { OnOk result (sight.new ≡ placing.outside sight.old) }
{
    let functions = sight.functions.len();
    enter_class(alloc, sight, class)?;
    judge_methods(alloc, found, sight, class.members.as_slice())?;
    leave_class(alloc, sight, functions);
    Ok(())
}

/// Judges a line of a module, where it is a contract.
fn judge_line(
    alloc: Global,
    found: &mut Found,
    sight: &mut Sight,
    item: &Item,
) -> Result<(), Memory>
    ensures told { OnOk result (found.new.told ≡ found.old.told ++ spec.placed_faults (placing.in_classes sight.old (spec.contracts sight.old.names (classes.classes (item.now ∷ []))))) }
    ensures paths { OnOk result (IsFirstOf found.old.paths (placing.in_classes sight.old (spec.contracts sight.old.names (classes.classes (item.now ∷ [])))) found.new.paths) }
    ensures outside { OnOk result (placing.outside sight.new ≡ placing.outside sight.old) }
    ensures sight { OnOk result (placing.AtModule sight.old → sight.new ≡ sight.old) }
{
    match contract_in(alloc, sight, item)? {
        Some(class) => judge_contract(alloc, found, sight, class),
        None => Ok(()),
    }
}

/// Judges the contracts of a module.
fn judge_contracts(
    alloc: Global,
    found: &mut Found,
    sight: &mut Sight,
    items: &[Item],
) -> Result<(), Memory>
    ensures told { OnOk result (found.new.told ≡ found.old.told ++ spec.placed_faults (placing.in_classes sight.old (spec.contracts sight.old.names (classes.classes items.now)))) }
    ensures paths { OnOk result (IsFirstOf found.old.paths (placing.in_classes sight.old (spec.contracts sight.old.names (classes.classes items.now))) found.new.paths) }
    ensures sight { OnOk result (placing.AtModule sight.old → sight.new ≡ sight.old) }
{
    let mut rest = items;
    while let [first, behind @ ..] = rest {
        judge_line(alloc, found, sight, first)?;
        rest = behind;
    }
    Ok(())
}

fn is_judged(found: &Found) -> Option<Refusal>
    ensures { result ≡ first_in found.now.paths found.now.told }
{
    first_of(found.paths, found.told.as_slice())
}

/// What is told of a module's names, and what its functions see.
fn begin(alloc: Global, told: &mut List<Refusal>, items: &[Item]) -> Result<Sight, Memory>
    ensures told { OnOk result (told.new ≡ told.old ++ placing.first_told items.now) }
    ensures sight { IfOk result (λ v. seen v [] ≡ spec.module_scope items.now) }
{
    let Table {
        entries,
        constants,
        functions,
    } = table(alloc, told, items)?;
    all_class_faults(alloc, told, &entries, items)?;
    no_contract(alloc, told, &entries, items)?;
    Ok(Sight {
        names: entries,
        constants,
        functions,
        methods: Methods::new(alloc),
        myself: false,
    })
}

fn judge_all(
    alloc: Global,
    told: List<Refusal>,
    sight: &mut Sight,
    items: &[Item],
) -> Result<Option<Refusal>, Memory>
    ensures first { seen sight.old [] ≡ spec.module_scope items.now → told ≡ placing.first_told items.now → IfOk result (λ r. IsFirst (IsBrokenIn (record { items = items.now })) r) }
    ensures sight { OnOk result (placing.AtModule sight.old → sight.new ≡ sight.old) }
{
    let mut found = Found { told, paths: None };
    judge_functions(alloc, &mut found, sight, items)?;
    judge_contracts(alloc, &mut found, sight, items)?;
    Ok(is_judged(&found))
}

fn answer(
    alloc: Global,
    sight: &mut Sight,
    items: &[Item],
    first: Option<Refusal>,
) -> Result<List<Contract>, SourceFault>
    ensures { seen sight.old [] ≡ spec.module_scope items.now → placing.Answers items.now first result }
{
    match first {
        Some(refusal) => Err(SourceFault::Refused(refusal)),
        None => assembled(alloc, sight, items),
    }
}

/// The typed contracts of a module, or the first rule of those on names, types and paths that it breaks. The error is that, or want of memory.
///
/// Each function is looked at once, and once more for each contract, since a contract has the module's functions as its own. For one contract
/// the time grows with the source and with the types of its expressions, but for the paths (`path_rules::broken`).
pub fn check(alloc: Global, module: &Module) -> Result<List<Contract>, SourceFault>
    ensures { Checks «module».now result }
{
    let items = module.items.as_slice();
    let mut told = List::new(alloc);
    let mut sight = begin(alloc, &mut told, items)?;
    let first = judge_all(alloc, told, &mut sight, items)?;
    answer(alloc, &mut sight, items, first)
}
