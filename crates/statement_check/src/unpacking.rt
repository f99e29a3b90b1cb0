//! Unpackings (Python reference, 7.2): each variable takes its part, from left to right; P14 where the parts don't fit, P16 on anything but a variable.

ghost use Rattle.std.specs.Prelude.{◌≡◌, ◌++◌, [], ◌∷◌, None, Some, map, true, IfOk, OnOk, if◌then◌else◌, option_copied};
ghost use Rattle.source_names.specs.Source as source;
ghost use Rattle.source_names.specs.Types as types;
ghost use Rattle.meaning_rules.specs.Meanings as meanings;
ghost use Rattle.statement_check.specs.Lines as lines;
ghost use Rattle.statement_check.specs.Parting as parting;
ghost use Rattle.expression_check.specs.Sights.{seen};
ghost use Rattle.expression_check.specs.Variables as variables;
ghost use Rattle.statement_check.specs.Statements as spec;
ghost use Rattle.statement_check.specs.Targets.{unpacked};

use crate::assigning::{assign_one, bad_tree, local_hope, note_assign, variable_of};
use crate::places::exprs_place;
use crate::stating::one_stmt;
use crate::targets::{exprs_name, exprs_unpacked, target_name};
use crate::values::exprs_value;
use awst::{Expr, ExprKind, Index, StmtKind, Stmts, Target, Targets, Ty};
use expression_check::{Locals, Sight, tuple_parts};
use meaning_rules::{
    Context, Expect, Hope, Local, Status, Typed, break_rule, copied, expr_in, tree_type,
};
use path_rules::Notes;
use puya_base::{Boxed, List, Memory, Place, Rule};
use py_grammar::{Exprs, Tree};
use source_names::{SourceType, same_type};
use std::alloc::Global;

/// The variable that a target of an unpacking is; P16 where it is none.
fn slot_of(
    alloc: Global,
    into: &mut Notes,
    sight: &Sight,
    locals: &Locals,
    target: &Tree,
) -> Result<Option<u32>, Memory>
    ensures told { OnOk result (into.new ≡ into.old ++ parting.slot_told (seen sight.now locals.now) (source.tree_of target.now)) }
    ensures number { IfOk result (λ i. i ≡ parting.slot_number (seen sight.now locals.now) (source.tree_of target.now)) }
{
    match variable_of(locals, target_name(target)) {
        Some(number) => Ok(Some(number)),
        None => {
            bad_tree(alloc, into, sight, locals, target)?;
            Ok(None)
        }
    }
}

/// The variables that the targets of an unpacking are.
fn slots(
    alloc: Global,
    into: &mut Notes,
    sight: &Sight,
    locals: &Locals,
    targets: &[Tree],
) -> Result<List<Option<u32>>, Memory>
    ensures told { OnOk result (into.new ≡ into.old ++ (spec.slots (seen sight.now locals.now) (source.exs_of (map source.tree_of targets.now))).notes) }
    ensures numbers { IfOk result (λ is. is ≡ (spec.slots (seen sight.now locals.now) (source.exs_of (map source.tree_of targets.now))).numbers) }
{
    let mut numbers = List::new(alloc);
    let mut rest = targets;
    while let [first, behind @ ..] = rest {
        let number = slot_of(alloc, into, sight, locals, first)?;
        numbers.push(number)?;
        rest = behind;
    }
    Ok(numbers)
}

fn slot_hope(alloc: Global, locals: &Locals, number: Option<u32>) -> Result<Hope, Memory>
    ensures { IfOk result (λ h. h ≡ spec.slot_hope locals.now number) }
{
    match number {
        Some(number) => local_hope(alloc, locals.at(number)),
        None => Ok(Hope::Unknown),
    }
}

fn slot_hopes(alloc: Global, locals: &Locals, numbers: &[Option<u32>]) -> Result<List<Hope>, Memory>
    ensures { IfOk result (λ hs. hs ≡ spec.slot_hopes locals.now numbers.now) }
{
    let mut hopes = List::new(alloc);
    let mut rest = numbers;
    while let [first, behind @ ..] = rest {
        let hope = slot_hope(alloc, locals, *first)?;
        hopes.push(hope)?;
        rest = behind;
    }
    Ok(hopes)
}

fn fix_slot(locals: &mut Locals, number: Option<u32>, ty: Option<SourceType>)
    ensures { locals.new ≡ spec.slot_fixed locals.old number ty }
{
    if let Some(number) = number {
        locals.fix(number, ty);
    }
}

fn note_slot(into: &mut Notes, number: Option<u32>) -> Result<(), Memory>
    ensures { OnOk result (into.new ≡ into.old ++ spec.slot_assigned number) }
{
    match number {
        Some(number) => note_assign(into, number),
        None => Ok(()),
    }
}

fn note_slots(into: &mut Notes, numbers: &[Option<u32>]) -> Result<(), Memory>
    ensures { OnOk result (into.new ≡ into.old ++ spec.all_assigned numbers.now) }
{
    let mut rest = numbers;
    while let [first, behind @ ..] = rest {
        note_slot(into, *first)?;
        rest = behind;
    }
    Ok(())
}

fn type_takes(known: &Option<SourceType>, ty: &SourceType) -> bool
    ensures { result ≡ spec.status_takes (Status.Fixed known.now) ty.now }
{
    match known {
        Some(known) => same_type(known, ty),
        None => true,
    }
}

fn status_takes(status: &Status, ty: &SourceType) -> bool
    ensures { result ≡ spec.status_takes status.now ty.now }
{
    match status {
        Status::Unseen => true,
        Status::Fixed(known) => type_takes(known, ty),
    }
}

fn local_takes(local: Option<&Local>, ty: &SourceType) -> bool
    ensures { result ≡ spec.status_takes (variables.local_status (option_copied local.entry)) ty.now }
{
    match local {
        Some(local) => status_takes(&local.status, ty),
        None => true,
    }
}

/// Whether a variable may take a value of a type.
fn slot_takes(locals: &Locals, number: Option<u32>, ty: &SourceType) -> bool
    ensures { result ≡ spec.slot_takes locals.now number ty.now }
{
    match number {
        Some(number) => local_takes(locals.at(number), ty),
        None => true,
    }
}

/// A variable takes its part; whether it could.
fn take_part(
    alloc: Global,
    locals: &mut Locals,
    number: Option<u32>,
    ty: &SourceType,
) -> Result<bool, Memory>
    ensures locals { OnOk result (locals.new ≡ spec.slot_fixed locals.old number (Some ty.now)) }
    ensures takes { IfOk result (λ b. b ≡ spec.slot_takes locals.old number ty.now) }
{
    let takes = slot_takes(locals, number, ty);
    let ty = copied(alloc, ty)?;
    fix_slot(locals, number, Some(ty));
    Ok(takes)
}

/// Each variable takes its part, from left to right; whether each could, and there are as many parts.
fn take_parts(
    alloc: Global,
    locals: &mut Locals,
    numbers: &[Option<u32>],
    types: &[SourceType],
) -> Result<bool, Memory>
    ensures locals { OnOk result (locals.new ≡ (spec.taken locals.old numbers.now types.now).locals) }
    ensures all { IfOk result (λ b. b ≡ (spec.taken locals.old numbers.now types.now).all) }
{
    let mut all = true;
    let mut parts = types;
    let mut rest = numbers;
    while let [first, behind @ ..] = rest {
        match parts {
            [ty, others @ ..] => {
                let takes = take_part(alloc, locals, *first, ty)?;
                all = all && takes;
                parts = others;
            }
            [] => {
                fix_slot(locals, *first, None);
                all = false;
            }
        }
        rest = behind;
    }
    Ok(all && parts.is_empty())
}

fn take_none(locals: &mut Locals, numbers: &[Option<u32>])
    ensures { locals.new ≡ spec.none_taken locals.old numbers.now }
{
    let mut rest = numbers;
    while let [first, behind @ ..] = rest {
        fix_slot(locals, *first, None);
        rest = behind;
    }
}

/// The variables as targets, where each is one.
fn slot_targets(alloc: Global, numbers: &[Option<u32>]) -> Result<Option<Targets>, Memory>
    ensures { IfOk result (λ ts. ts ≡ spec.slot_targets numbers.now) }
{
    let mut targets = List::new(alloc);
    let mut rest = numbers;
    while let [first, behind @ ..] = rest {
        match first {
            Some(number) => targets.push(Target::Local(*number))?,
            None => return Ok(None),
        }
        rest = behind;
    }
    Ok(Some(targets))
}

/// The first part of a value, which has this type.
fn first_part(alloc: Global, typed: Typed, ty: Ty) -> Result<Expr, Memory>
    ensures { IfOk result (λ e. e ≡ spec.first_part typed ty) }
{
    let value = expr_in(typed);
    let place = value.place;
    let value = Boxed::new(alloc, value)?;
    Ok(Expr {
        place,
        ty,
        kind: ExprKind::Item(value, Index::Fixed(0)),
    })
}

fn unpack_one(
    alloc: Global,
    place: Place,
    targets: Targets,
    first: Option<Ty>,
    typed: Typed,
) -> Result<Option<Stmts>, Memory>
    ensures { (a : Target) → targets ≡ a ∷ [] → IfOk result (λ ss. ss ≡ spec.unpack_one place a first typed) }
{
    match first {
        Some(ty) => {
            let part = first_part(alloc, typed, ty)?;
            one_stmt(alloc, place, StmtKind::Assign(targets, None, part))
        }
        None => Ok(None),
    }
}

/// The statement of an unpacking to these targets: without any the value is dropped, and a single one takes the first part.
fn unpack_to(
    alloc: Global,
    place: Place,
    targets: Targets,
    first: Option<Ty>,
    typed: Typed,
) -> Result<Option<Stmts>, Memory>
    ensures { IfOk result (λ ss. ss ≡ spec.unpack_to place targets first typed) }
{
    match targets.as_slice() {
        [] => one_stmt(alloc, place, StmtKind::Drop(expr_in(typed))),
        [_only] => unpack_one(alloc, place, targets, first, typed),
        [_first, _second, ..] => one_stmt(
            alloc,
            place,
            StmtKind::Assign(targets, None, expr_in(typed)),
        ),
    }
}

fn unpack_stmt(
    alloc: Global,
    place: Place,
    targets: Option<Targets>,
    first: Option<Ty>,
    typed: Typed,
) -> Result<Option<Stmts>, Memory>
    ensures { IfOk result (λ ss. ss ≡ spec.unpack_typed place true targets first typed) }
{
    match targets {
        Some(targets) => unpack_to(alloc, place, targets, first, typed),
        None => Ok(None),
    }
}

/// P14 on a value that is no tuple.
fn unpack_nothing(
    into: &mut Notes,
    numbers: &[Option<u32>],
    place: Place,
) -> Result<Option<Stmts>, Memory>
    ensures told { OnOk result (into.new ≡ into.old ++ (meanings.broken Rule.P14 place ∷ spec.all_assigned numbers.now)) }
    ensures typed { IfOk result (λ ss. ss ≡ None) }
{
    break_rule(into, Rule::P14, place)?;
    note_slots(into, numbers)?;
    Ok(None)
}

/// What is told of parts where this says whether each could be taken, and the statement.
fn unpack_taken(
    alloc: Global,
    into: &mut Notes,
    place: Place,
    numbers: &[Option<u32>],
    all: bool,
    first: Option<Ty>,
    typed: Typed,
) -> Result<Option<Stmts>, Memory>
    ensures told { OnOk result (into.new ≡ into.old ++ ((if all then [] else meanings.broken Rule.P14 typed.expr.place ∷ []) ++ spec.all_assigned numbers.now)) }
    ensures typed { IfOk result (λ ss. ss ≡ spec.unpack_typed place all (spec.slot_targets numbers.now) first typed) }
{
    if all {
        note_slots(into, numbers)?;
        let targets = slot_targets(alloc, numbers)?;
        unpack_stmt(alloc, place, targets, first, typed)
    } else {
        break_rule(into, Rule::P14, typed.expr.place)?;
        note_slots(into, numbers)?;
        Ok(None)
    }
}

fn take_tuple(
    alloc: Global,
    locals: &mut Locals,
    numbers: &[Option<u32>],
    ty: &SourceType,
) -> Result<Option<bool>, Memory>
    ensures locals { OnOk result (locals.new ≡ parting.taken_tuple locals.old numbers.now (types.tuple_parts ty.now)) }
    ensures all { IfOk result (λ b. b ≡ parting.taken_all locals.old numbers.now (types.tuple_parts ty.now)) }
{
    match tuple_parts(ty) {
        Some(parts) => Ok(Some(take_parts(alloc, locals, numbers, parts)?)),
        None => {
            take_none(locals, numbers);
            Ok(None)
        }
    }
}

fn first_type(alloc: Global, parts: &[SourceType]) -> Result<Option<Ty>, Memory>
    ensures { IfOk result (λ t. t ≡ spec.first_type parts.now) }
{
    match parts {
        [first, ..] => Ok(Some(tree_type(alloc, first)?)),
        [] => Ok(None),
    }
}

/// The type of a tuple's first part.
fn first_of_parts(alloc: Global, ty: &SourceType) -> Result<Option<Ty>, Memory>
    ensures { IfOk result (λ t. t ≡ parting.first_of_parts (types.tuple_parts ty.now)) }
{
    match tuple_parts(ty) {
        Some(parts) => first_type(alloc, parts),
        None => Ok(None),
    }
}

fn unpack_typed(
    alloc: Global,
    into: &mut Notes,
    locals: &mut Locals,
    place: Place,
    numbers: &[Option<u32>],
    typed: Typed,
) -> Result<Option<Stmts>, Memory>
    ensures locals { OnOk result (locals.new ≡ (spec.unpacked_parts locals.old place numbers.now typed (types.tuple_parts typed.ty)).locals) }
    ensures told { OnOk result (into.new ≡ into.old ++ (spec.unpacked_parts locals.old place numbers.now typed (types.tuple_parts typed.ty)).notes) }
    ensures typed { IfOk result (λ ss. ss ≡ (spec.unpacked_parts locals.old place numbers.now typed (types.tuple_parts typed.ty)).typed) }
{
    let first = first_of_parts(alloc, &typed.ty)?;
    match take_tuple(alloc, locals, numbers, &typed.ty)? {
        Some(all) => unpack_taken(alloc, into, place, numbers, all, first, typed),
        None => unpack_nothing(into, numbers, typed.expr.place),
    }
}

fn unpack_value(
    alloc: Global,
    into: &mut Notes,
    locals: &mut Locals,
    place: Place,
    numbers: &[Option<u32>],
    typed: Option<Typed>,
) -> Result<Option<Stmts>, Memory>
    ensures locals { OnOk result (locals.new ≡ (spec.unpacked_value locals.old place numbers.now typed).locals) }
    ensures told { OnOk result (into.new ≡ into.old ++ (spec.unpacked_value locals.old place numbers.now typed).notes) }
    ensures typed { IfOk result (λ ss. ss ≡ (spec.unpacked_value locals.old place numbers.now typed).typed) }
{
    match typed {
        Some(typed) => unpack_typed(alloc, into, locals, place, numbers, typed),
        None => {
            take_none(locals, numbers);
            note_slots(into, numbers)?;
            Ok(None)
        }
    }
}

fn unpack(
    alloc: Global,
    into: &mut Notes,
    sight: &Sight,
    locals: &mut Locals,
    place: Place,
    targets: &[Tree],
    values: &Exprs,
) -> Result<Option<Stmts>, Memory>
    ensures locals { let s = seen sight.now locals.old in OnOk result (locals.new ≡ (spec.unpack_slots s place (spec.slots s (source.exs_of (map source.tree_of targets.now))) (lines.exprs_of values.now)).locals) }
    ensures told { let s = seen sight.now locals.old in OnOk result (into.new ≡ into.old ++ (spec.unpack_slots s place (spec.slots s (source.exs_of (map source.tree_of targets.now))) (lines.exprs_of values.now)).notes) }
    ensures typed { let s = seen sight.now locals.old in IfOk result (λ ss. ss ≡ (spec.unpack_slots s place (spec.slots s (source.exs_of (map source.tree_of targets.now))) (lines.exprs_of values.now)).typed) }
{
    let numbers = slots(alloc, into, sight, locals, targets)?;
    let context = Context {
        expect: Expect::Each(slot_hopes(alloc, locals, numbers.as_slice())?),
        copying: true,
    };
    let typed = exprs_value(alloc, into, sight, locals, &context, values)?;
    unpack_value(alloc, into, locals, place, numbers.as_slice(), typed)
}

/// An assignment, to one target or to several.
pub(crate) fn assign(
    alloc: Global,
    into: &mut Notes,
    sight: &Sight,
    locals: &mut Locals,
    targets: &Exprs,
    values: &Exprs,
) -> Result<Option<Stmts>, Memory>
    ensures locals { let t = lines.exprs_of targets.now in OnOk result (locals.new ≡ (spec.assign_all (seen sight.now locals.old) t (unpacked t) (lines.exprs_of values.now)).locals) }
    ensures told { let t = lines.exprs_of targets.now in OnOk result (into.new ≡ into.old ++ (spec.assign_all (seen sight.now locals.old) t (unpacked t) (lines.exprs_of values.now)).notes) }
    ensures typed { let t = lines.exprs_of targets.now in IfOk result (λ ss. ss ≡ (spec.assign_all (seen sight.now locals.old) t (unpacked t) (lines.exprs_of values.now)).typed) }
{
    let place = exprs_place(targets);
    match exprs_unpacked(targets) {
        Some(parts) => unpack(alloc, into, sight, locals, place, parts, values),
        None => {
            let number = variable_of(locals, exprs_name(targets));
            assign_one(alloc, into, sight, locals, targets, number, values)
        }
    }
}
