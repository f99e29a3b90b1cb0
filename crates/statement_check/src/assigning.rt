//! Assignments (Python reference, 7.2): the value of a variable, whose type its first assignment fixes; P14, and P16 on what can't be assigned.

ghost use Rattle.std.specs.Prelude.{◌≡◌, ◌++◌, [], ◌∷◌, None, IfOk, OnOk, option_copied};
ghost use Rattle.awst.specs.declared.statement.StmtKind.TheVariants as kind;
ghost use Rattle.awst.specs.declared.statement.Target.TheVariants as target;
ghost use Rattle.path_rules.specs.declared.note.Note.TheVariants as note;
ghost use Rattle.source_names.specs.Source as source;
ghost use Rattle.meaning_rules.specs.Meanings as meanings;
ghost use Rattle.expression_check.specs.Expressions.{judge};
ghost use Rattle.statement_check.specs.Lines as lines;
ghost use Rattle.statement_check.specs.Parting as parting;
ghost use Rattle.expression_check.specs.Sights.{seen};
ghost use Rattle.expression_check.specs.Variables as variables;
ghost use Rattle.statement_check.specs.Statements as spec;
ghost use Rattle.expression_check.specs.declared.sight.Sight.{Sight};

use crate::places::exprs_place;
use crate::stating::{one_stmt, one_target, type_in};
use crate::values::{exprs_noted, exprs_value, judge_exprs};
use awst::{StmtKind, Stmts};
use expression_check::{Locals, Sight, context, freely, judge};
use meaning_rules::{Hope, Local, Meaning, Status, Typed, break_rule, expr_in, fits_when, hoped};
use path_rules::{Note, Notes};
use puya_base::{Memory, Place, Rule};
use py_grammar::{Exprs, Tree, Word};
use source_names::place_of;
use std::alloc::Global;

fn status_hope(alloc: Global, status: &Status) -> Result<Hope, Memory>
    ensures { IfOk result (λ h. h ≡ spec.status_hope status.now) }
{
    match status {
        Status::Unseen => Ok(Hope::Free),
        Status::Fixed(ty) => hoped(alloc, ty),
    }
}

/// What is hoped of a value for a variable.
pub(crate) fn local_hope(alloc: Global, local: Option<&Local>) -> Result<Hope, Memory>
    ensures { IfOk result (λ h. h ≡ spec.status_hope (variables.local_status (option_copied local.entry))) }
{
    match local {
        Some(local) => status_hope(alloc, &local.status),
        None => Ok(Hope::Free),
    }
}

fn fits_status(
    into: &mut Notes,
    status: &Status,
    typed: Option<Typed>,
) -> Result<Option<Typed>, Memory>
    ensures told { OnOk result (into.new ≡ into.old ++ (parting.fits_status status.now typed).notes) }
    ensures typed { IfOk result (λ t. t ≡ (parting.fits_status status.now typed).typed) }
{
    match status {
        Status::Unseen => Ok(typed),
        Status::Fixed(ty) => fits_when(into, ty, typed),
    }
}

/// A value for a variable: of its type, where that is fixed; P14.
fn fits_local(
    into: &mut Notes,
    local: Option<&Local>,
    typed: Option<Typed>,
) -> Result<Option<Typed>, Memory>
    ensures told { OnOk result (into.new ≡ into.old ++ (parting.fits_status (variables.local_status (option_copied local.entry)) typed).notes) }
    ensures typed { IfOk result (λ t. t ≡ (parting.fits_status (variables.local_status (option_copied local.entry)) typed).typed) }
{
    match local {
        Some(local) => fits_status(into, &local.status, typed),
        None => Ok(typed),
    }
}

/// Notes an assignment of a variable.
pub(crate) fn note_assign(into: &mut Notes, number: u32) -> Result<(), Memory>
    ensures { OnOk result (into.new ≡ into.old ++ note.Assign number ∷ []) }
{
    into.push(Note::Assign(number))?;
    Ok(())
}

fn assign_stmt(
    alloc: Global,
    place: Place,
    number: u32,
    typed: Option<Typed>,
) -> Result<Option<Stmts>, Memory>
    ensures { IfOk result (λ ss. ss ≡ spec.of_typed place typed (kind.Assign (target.Local number ∷ []) None)) }
{
    match typed {
        Some(typed) => {
            let targets = one_target(alloc, number)?;
            one_stmt(
                alloc,
                place,
                StmtKind::Assign(targets, None, expr_in(typed)),
            )
        }
        None => Ok(None),
    }
}

fn assigned(
    alloc: Global,
    into: &mut Notes,
    locals: &mut Locals,
    place: Place,
    number: u32,
    typed: Option<Typed>,
) -> Result<Option<Stmts>, Memory>
    ensures locals { OnOk result (locals.new ≡ (parting.assigned_when locals.old place number typed).locals) }
    ensures told { OnOk result (into.new ≡ into.old ++ (parting.assigned_when locals.old place number typed).notes) }
    ensures typed { IfOk result (λ ss. ss ≡ (parting.assigned_when locals.old place number typed).typed) }
{
    let typed = fits_local(into, locals.at(number), typed)?;
    let ty = type_in(alloc, &typed)?;
    locals.fix(number, ty);
    note_assign(into, number)?;
    assign_stmt(alloc, place, number, typed)
}

/// An assignment of the variable of this number, whose target stands at `place`.
pub(crate) fn assign_variable(
    alloc: Global,
    into: &mut Notes,
    sight: &Sight,
    locals: &mut Locals,
    place: Place,
    number: u32,
    values: &Exprs,
) -> Result<Option<Stmts>, Memory>
    ensures locals { OnOk result (locals.new ≡ (spec.assign_variable (seen sight.now locals.old) place number (lines.exprs_of values.now)).locals) }
    ensures told { OnOk result (into.new ≡ into.old ++ (spec.assign_variable (seen sight.now locals.old) place number (lines.exprs_of values.now)).notes) }
    ensures typed { IfOk result (λ ss. ss ≡ (spec.assign_variable (seen sight.now locals.old) place number (lines.exprs_of values.now)).typed) }
{
    let context = context(true, local_hope(alloc, locals.at(number))?);
    let typed = exprs_value(alloc, into, sight, locals, &context, values)?;
    assigned(alloc, into, locals, place, number, typed)
}

fn is_known(meaning: &Meaning) -> bool
    ensures { result ≡ spec.is_known meaning.now }
{
    match meaning {
        Meaning::Unknown => false,
        _ => true,
    }
}

fn tell_bad(into: &mut Notes, place: Place, meaning: Meaning) -> Result<(), Memory>
    ensures { OnOk result (into.new ≡ into.old ++ parting.bad_notes place meaning) }
{
    if is_known(&meaning) {
        break_rule(into, Rule::P16, place)
    } else {
        Ok(())
    }
}

/// P16 on a target that can't be assigned, where its names are known.
pub(crate) fn bad_tree(
    alloc: Global,
    into: &mut Notes,
    sight: &Sight,
    locals: &Locals,
    target: &Tree,
) -> Result<(), Memory>
    ensures { let t = source.tree_of target.now in OnOk result (into.new ≡ into.old ++ spec.bad_target (source.place_of t) (judge (seen sight.now locals.now) meanings.freely t)) }
{
    let meaning = judge(alloc, into, sight, locals, &freely(), target)?;
    tell_bad(into, place_of(target), meaning)
}

/// The same of the targets of a statement.
pub(crate) fn bad_exprs(
    alloc: Global,
    into: &mut Notes,
    sight: &Sight,
    locals: &Locals,
    targets: &Exprs,
) -> Result<(), Memory>
    ensures { let t = lines.exprs_of targets.now in OnOk result (into.new ≡ into.old ++ spec.bad_target (source.place_of t) (judge (seen sight.now locals.now) meanings.freely t)) }
{
    let meaning = judge_exprs(alloc, into, sight, locals, &freely(), targets)?;
    tell_bad(into, exprs_place(targets), meaning)
}

/// The value of a target that can't be assigned is judged by itself.
fn assign_bad(
    alloc: Global,
    into: &mut Notes,
    sight: &Sight,
    locals: &Locals,
    targets: &Exprs,
    values: &Exprs,
) -> Result<Option<Stmts>, Memory>
    ensures told { OnOk result (into.new ≡ into.old ++ (spec.assign_bad (seen sight.now locals.now) (lines.exprs_of targets.now) (lines.exprs_of values.now)).notes) }
    ensures typed { IfOk result (λ ss. ss ≡ None) }
{
    bad_exprs(alloc, into, sight, locals, targets)?;
    exprs_noted(alloc, into, sight, locals, values)?;
    Ok(None)
}

/// The variable that a target is, if it is one.
pub(crate) fn variable_of(locals: &Locals, word: Option<&Word>) -> Option<u32>
    ensures { (v : Sight) → result ≡ spec.variable_of (seen v locals.now) (option_copied word.entry) }
{
    match word {
        Some(word) => locals.number_of(word.name.as_str()),
        None => None,
    }
}

/// An assignment to one target.
pub(crate) fn assign_one(
    alloc: Global,
    into: &mut Notes,
    sight: &Sight,
    locals: &mut Locals,
    targets: &Exprs,
    number: Option<u32>,
    values: &Exprs,
) -> Result<Option<Stmts>, Memory>
    ensures locals { OnOk result (locals.new ≡ (spec.assign_one (seen sight.now locals.old) (lines.exprs_of targets.now) number (lines.exprs_of values.now)).locals) }
    ensures told { OnOk result (into.new ≡ into.old ++ (spec.assign_one (seen sight.now locals.old) (lines.exprs_of targets.now) number (lines.exprs_of values.now)).notes) }
    ensures typed { IfOk result (λ ss. ss ≡ (spec.assign_one (seen sight.now locals.old) (lines.exprs_of targets.now) number (lines.exprs_of values.now)).typed) }
{
    match number {
        Some(number) => {
            let place = exprs_place(targets);
            assign_variable(alloc, into, sight, locals, place, number, values)
        }
        None => assign_bad(alloc, into, sight, locals, targets, values),
    }
}
