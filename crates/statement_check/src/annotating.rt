//! Annotations of variables (Python reference, 7.2.2): P14 on one of another type than the variable has, P16 on one of anything but a variable.

ghost use Rattle.std.specs.Prelude.{◌≡◌, ◌++◌, None, Some, IfOk, OnOk, option_copied};
ghost use Rattle.source_names.specs.Annotations.{of_value, written};
ghost use Rattle.meaning_rules.specs.Meanings as meanings;
ghost use Rattle.statement_check.specs.Annotating as annotating;
ghost use Rattle.statement_check.specs.Lines as lines;
ghost use Rattle.statement_check.specs.Parting.{known_nothing};
ghost use Rattle.expression_check.specs.Sights.{seen};
ghost use Rattle.expression_check.specs.Variables as variables;
ghost use Rattle.statement_check.specs.Statements as spec;

use crate::assigning::{assign_variable, variable_of};
use crate::places::exprs_place;
use crate::stating::nothing_known;
use crate::targets::exprs_name;
use crate::values::{exprs_noted, judge_exprs};
use awst::Stmts;
use expression_check::{Locals, Sight, freely, note_all};
use meaning_rules::{Local, Status, break_rule};
use path_rules::Notes;
use puya_base::{List, Memory, Place, Rule};
use py_grammar::{Exprs, TypeTree};
use source_names::{Annotation, SourceType, same_type, written_value};
use std::alloc::Global;

/// The type that an annotation of a variable writes, where that is known.
fn annotation_of(
    alloc: Global,
    into: &mut Notes,
    sight: &Sight,
    locals: &Locals,
    tree: &TypeTree,
) -> Result<Annotation, Memory>
    ensures told { OnOk result (into.new ≡ into.old ++ meanings.broken_all (of_value (written sight.now.names (variables.local_names locals.now) tree.now)).faults) }
    ensures place { IfOk result (λ a. a.place ≡ (of_value (written sight.now.names (variables.local_names locals.now) tree.now)).place) }
    ensures ty { IfOk result (λ a. a.ty ≡ (of_value (written sight.now.names (variables.local_names locals.now) tree.now)).ty) }
{
    let mut told = List::new(alloc);
    let annotation = written_value(alloc, &mut told, &sight.names, locals.names(), tree)?;
    note_all(into, told.as_slice())?;
    Ok(annotation)
}

fn is_another(known: &SourceType, ty: &Option<SourceType>) -> bool
    ensures { result ≡ spec.differs (Status.Fixed (Some known.now)) ty.now }
{
    match ty {
        Some(ty) => !same_type(known, ty),
        None => false,
    }
}

fn differs_known(known: &Option<SourceType>, ty: &Option<SourceType>) -> bool
    ensures { result ≡ spec.differs (Status.Fixed known.now) ty.now }
{
    match known {
        Some(known) => is_another(known, ty),
        None => false,
    }
}

fn differs_status(status: &Status, ty: &Option<SourceType>) -> bool
    ensures { result ≡ spec.differs status.now ty.now }
{
    match status {
        Status::Unseen => false,
        Status::Fixed(known) => differs_known(known, ty),
    }
}

/// Whether a variable has another type than this.
pub(crate) fn differs(local: Option<&Local>, ty: &Option<SourceType>) -> bool
    ensures { result ≡ spec.differs (variables.local_status (option_copied local.entry)) ty.now }
{
    match local {
        Some(local) => differs_status(&local.status, ty),
        None => false,
    }
}

/// P14 at a type that a variable has not; whether it has it, or none so far.
pub(crate) fn tell_differs(into: &mut Notes, differs: bool, place: Place) -> Result<(), Memory>
    ensures { OnOk result (into.new ≡ into.old ++ annotating.differs_notes differs place) }
{
    if differs {
        break_rule(into, Rule::P14, place)
    } else {
        Ok(())
    }
}

fn is_known(ty: &Option<SourceType>) -> bool
    ensures { result ≡ annotating.is_known ty.now }
{
    match ty {
        Some(_) => true,
        None => false,
    }
}

fn only_when(known: bool, typed: Option<Stmts>) -> Option<Stmts>
    ensures { result ≡ spec.only_when (known_nothing known) typed }
{
    if known { typed } else { None }
}

fn annotated_value(
    alloc: Global,
    into: &mut Notes,
    sight: &Sight,
    locals: &mut Locals,
    place: Place,
    number: u32,
    known: bool,
    values: &Option<Exprs>,
) -> Result<Option<Stmts>, Memory>
    ensures locals { OnOk result (locals.new ≡ (spec.annotated_value (seen sight.now locals.old) place number (known_nothing known) (lines.optional_exprs values.now)).locals) }
    ensures told { OnOk result (into.new ≡ into.old ++ (spec.annotated_value (seen sight.now locals.old) place number (known_nothing known) (lines.optional_exprs values.now)).notes) }
    ensures typed { IfOk result (λ ss. ss ≡ (spec.annotated_value (seen sight.now locals.old) place number (known_nothing known) (lines.optional_exprs values.now)).typed) }
{
    match values {
        Some(values) => {
            let typed = assign_variable(alloc, into, sight, locals, place, number, values)?;
            Ok(only_when(known, typed))
        }
        None => Ok(nothing_known(alloc, known)),
    }
}

fn annotate_variable(
    alloc: Global,
    into: &mut Notes,
    sight: &Sight,
    locals: &mut Locals,
    place: Place,
    number: u32,
    tree: &TypeTree,
    values: &Option<Exprs>,
) -> Result<Option<Stmts>, Memory>
    ensures locals { OnOk result (locals.new ≡ (spec.annotate_variable (seen sight.now locals.old) place number tree.now (lines.optional_exprs values.now)).locals) }
    ensures told { OnOk result (into.new ≡ into.old ++ (spec.annotate_variable (seen sight.now locals.old) place number tree.now (lines.optional_exprs values.now)).notes) }
    ensures typed { IfOk result (λ ss. ss ≡ (spec.annotate_variable (seen sight.now locals.old) place number tree.now (lines.optional_exprs values.now)).typed) }
{
    let annotation = annotation_of(alloc, into, sight, locals, tree)?;
    let other = differs(locals.at(number), &annotation.ty);
    tell_differs(into, other, annotation.place)?;
    let known = annotated_so(&annotation.ty, other);
    locals.fix(number, annotation.ty);
    annotated_value(alloc, into, sight, locals, place, number, known, values)
}

/// Whether an annotation says what the variable's type is.
fn annotated_so(ty: &Option<SourceType>, other: bool) -> bool
    ensures { result ≡ annotating.annotated_so ty.now other }
{
    if other { false } else { is_known(ty) }
}

fn value_noted(
    alloc: Global,
    into: &mut Notes,
    sight: &Sight,
    locals: &Locals,
    values: &Option<Exprs>,
) -> Result<(), Memory>
    ensures { OnOk result (into.new ≡ into.old ++ spec.value_notes (seen sight.now locals.now) (lines.optional_exprs values.now)) }
{
    match values {
        Some(values) => exprs_noted(alloc, into, sight, locals, values),
        None => Ok(()),
    }
}

/// P16 on an annotation of anything but a variable.
fn annotate_bad(
    alloc: Global,
    into: &mut Notes,
    sight: &Sight,
    locals: &Locals,
    targets: &Exprs,
    tree: &TypeTree,
    values: &Option<Exprs>,
) -> Result<Option<Stmts>, Memory>
    ensures told { OnOk result (into.new ≡ into.old ++ (spec.annotate_bad (seen sight.now locals.now) (lines.exprs_of targets.now) tree.now (lines.optional_exprs values.now)).notes) }
    ensures typed { IfOk result (λ ss. ss ≡ None) }
{
    judge_exprs(alloc, into, sight, locals, &freely(), targets)?;
    break_rule(into, Rule::P16, exprs_place(targets))?;
    annotation_of(alloc, into, sight, locals, tree)?;
    value_noted(alloc, into, sight, locals, values)?;
    Ok(None)
}

/// An annotation.
pub(crate) fn annotate(
    alloc: Global,
    into: &mut Notes,
    sight: &Sight,
    locals: &mut Locals,
    targets: &Exprs,
    tree: &TypeTree,
    values: &Option<Exprs>,
) -> Result<Option<Stmts>, Memory>
    ensures locals { OnOk result (locals.new ≡ (annotating.annotate (seen sight.now locals.old) (lines.exprs_of targets.now) tree.now (lines.optional_exprs values.now)).locals) }
    ensures told { OnOk result (into.new ≡ into.old ++ (annotating.annotate (seen sight.now locals.old) (lines.exprs_of targets.now) tree.now (lines.optional_exprs values.now)).notes) }
    ensures typed { IfOk result (λ ss. ss ≡ (annotating.annotate (seen sight.now locals.old) (lines.exprs_of targets.now) tree.now (lines.optional_exprs values.now)).typed) }
{
    match variable_of(locals, exprs_name(targets)) {
        Some(number) => {
            let place = exprs_place(targets);
            annotate_variable(alloc, into, sight, locals, place, number, tree, values)
        }
        None => annotate_bad(alloc, into, sight, locals, targets, tree, values),
    }
}
