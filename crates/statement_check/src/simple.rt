//! Statements of one line (Python reference, chapter 7): `return`, `assert`, expressions alone, and the others; P14 and P16 on these.

ghost use Rattle.std.specs.Prelude.{◌≡◌, ◌++◌, [], ◌∷◌, None, Some, true, IfOk, OnOk};
ghost use Rattle.awst.specs.declared.statement.StmtKind.TheVariants as kind;
ghost use Rattle.path_rules.specs.declared.note.Note.TheVariants as note;
ghost use Rattle.source_names.specs.Source as source;
ghost use Rattle.meaning_rules.specs.Meanings as meanings;
ghost use Rattle.expression_check.specs.Expressions.{judge};
ghost use Rattle.statement_check.specs.Lines as lines;
ghost use Rattle.expression_check.specs.Sights.{seen};
ghost use Rattle.statement_check.specs.Simples as simples;
ghost use Rattle.statement_check.specs.Statements as spec;

use crate::annotating::annotate;
use crate::assigning::bad_tree;
use crate::places::exprs_place;
use crate::stating::{nothing_known, one_stmt};
use crate::unpacking::assign;
use crate::updating::update;
use crate::values::{exprs_value, judge_condition, judge_exprs};
use awst::{StmtKind, Stmts};
use expression_check::{Locals, Sight, context, freely, is_nothing, judge};
use meaning_rules::{
    Lit, Meaning, Operand, Typed, as_operand, break_rule, expr_in, fits_when, hoped,
};
use path_rules::{Note, Notes};
use puya_base::{Memory, Place, Rule};
use py_grammar::{Exprs, Simple, Tree};
use source_names::{SourceType, place_of};
use std::alloc::Global;

fn note_return(into: &mut Notes) -> Result<(), Memory>
    ensures { OnOk result (into.new ≡ into.old ++ note.Return ∷ []) }
{
    into.push(Note::Return)?;
    Ok(())
}

fn breaks(into: &mut Notes, place: Place) -> Result<Option<Stmts>, Memory>
    ensures told { OnOk result (into.new ≡ into.old ++ meanings.broken Rule.P14 place ∷ []) }
    ensures typed { IfOk result (λ ss. ss ≡ None) }
{
    break_rule(into, Rule::P14, place)?;
    Ok(None)
}

/// P14 on a return without a value in a function that has a result.
fn nothing_returned(
    alloc: Global,
    into: &mut Notes,
    place: Place,
    nothing: bool,
) -> Result<Option<Stmts>, Memory>
    ensures told { OnOk result (into.new ≡ into.old ++ (simples.nothing_returned place nothing).notes) }
    ensures typed { IfOk result (λ ss. ss ≡ (simples.nothing_returned place nothing).typed) }
{
    if nothing {
        note_return(into)?;
        one_stmt(alloc, place, StmtKind::Return(None))
    } else {
        break_rule(into, Rule::P14, place)?;
        note_return(into)?;
        Ok(None)
    }
}

fn return_nothing(
    alloc: Global,
    into: &mut Notes,
    gives: &Option<SourceType>,
    place: Place,
) -> Result<Option<Stmts>, Memory>
    ensures told { OnOk result (into.new ≡ into.old ++ (spec.return_nothing [] gives.now place).notes) }
    ensures typed { IfOk result (λ ss. ss ≡ (spec.return_nothing [] gives.now place).typed) }
{
    match gives {
        Some(ty) => nothing_returned(alloc, into, place, is_nothing(ty)),
        None => {
            note_return(into)?;
            Ok(None)
        }
    }
}

fn return_stmt(alloc: Global, place: Place, typed: Option<Typed>) -> Result<Option<Stmts>, Memory>
    ensures { IfOk result (λ ss. ss ≡ spec.returned_typed place typed) }
{
    match typed {
        Some(typed) => one_stmt(alloc, place, StmtKind::Return(Some(expr_in(typed)))),
        None => Ok(None),
    }
}

/// P14 on a value of another type than the function gives.
fn return_value(
    alloc: Global,
    into: &mut Notes,
    sight: &Sight,
    locals: &Locals,
    gives: &Option<SourceType>,
    place: Place,
    values: &Exprs,
) -> Result<Option<Stmts>, Memory>
    ensures told { OnOk result (into.new ≡ into.old ++ (spec.return_value (seen sight.now locals.now) gives.now place (lines.exprs_of values.now)).notes) }
    ensures typed { IfOk result (λ ss. ss ≡ (spec.return_value (seen sight.now locals.now) gives.now place (lines.exprs_of values.now)).typed) }
{
    let context = context(true, hoped(alloc, gives)?);
    let typed = exprs_value(alloc, into, sight, locals, &context, values)?;
    let typed = fits_when(into, gives, typed)?;
    note_return(into)?;
    return_stmt(alloc, place, typed)
}

fn give(
    alloc: Global,
    into: &mut Notes,
    sight: &Sight,
    locals: &Locals,
    gives: &Option<SourceType>,
    place: Place,
    values: &Option<Exprs>,
) -> Result<Option<Stmts>, Memory>
    ensures told { OnOk result (into.new ≡ into.old ++ (spec.check_line (seen sight.now locals.now) gives.now (lines.give place (lines.optional_exprs values.now))).notes) }
    ensures typed { IfOk result (λ ss. ss ≡ (spec.check_line (seen sight.now locals.now) gives.now (lines.give place (lines.optional_exprs values.now))).typed) }
{
    match values {
        Some(values) => return_value(alloc, into, sight, locals, gives, place, values),
        None => return_nothing(alloc, into, gives, place),
    }
}

fn is_text_literal(lit: &Lit) -> bool
    ensures { result ≡ simples.is_text_literal lit.now }
{
    match lit {
        Lit::Text(_) => true,
        Lit::Number(_) => false,
        Lit::Bytes(_) => false,
    }
}

fn is_text(meaning: &Meaning) -> bool
    ensures { result ≡ spec.is_text meaning.now }
{
    match meaning {
        Meaning::Literal(_, lit) => is_text_literal(lit),
        _ => false,
    }
}

fn no_text(into: &mut Notes, place: Place, lit: &Lit) -> Result<(), Memory>
    ensures { OnOk result (into.new ≡ into.old ++ simples.literal_notes place lit.now) }
{
    if is_text_literal(lit) {
        Ok(())
    } else {
        break_rule(into, Rule::P14, place)
    }
}

/// P14 on the second part of `assert`, where it is no text literal.
fn tell_text(into: &mut Notes, place: Place, operand: Operand) -> Result<(), Memory>
    ensures { OnOk result (into.new ≡ into.old ++ simples.text_notes place operand) }
{
    match operand {
        Operand::Literal(at, lit) => no_text(into, at, &lit),
        Operand::Value(_) => break_rule(into, Rule::P14, place),
        Operand::Missing => Ok(()),
    }
}

fn said_with(
    alloc: Global,
    into: &mut Notes,
    sight: &Sight,
    locals: &Locals,
    message: &Tree,
) -> Result<bool, Memory>
    ensures told { OnOk result (into.new ≡ into.old ++ spec.message_notes (seen sight.now locals.now) (Some (source.tree_of message.now))) }
    ensures text { IfOk result (λ b. b ≡ spec.message_is_text (seen sight.now locals.now) (Some (source.tree_of message.now))) }
{
    let meaning = judge(alloc, into, sight, locals, &freely(), message)?;
    let text = is_text(&meaning);
    let operand = as_operand(into, place_of(message), meaning)?;
    tell_text(into, place_of(message), operand)?;
    Ok(text)
}

/// The second part of `assert`, and whether it is a text literal or absent.
fn message_said(
    alloc: Global,
    into: &mut Notes,
    sight: &Sight,
    locals: &Locals,
    message: &Option<Tree>,
) -> Result<bool, Memory>
    ensures told { OnOk result (into.new ≡ into.old ++ spec.message_notes (seen sight.now locals.now) (lines.optional_tree message.now)) }
    ensures text { IfOk result (λ b. b ≡ spec.message_is_text (seen sight.now locals.now) (lines.optional_tree message.now)) }
{
    match message {
        Some(message) => said_with(alloc, into, sight, locals, message),
        None => Ok(true),
    }
}

fn assert_stmt(alloc: Global, place: Place, typed: Option<Typed>) -> Result<Option<Stmts>, Memory>
    ensures { IfOk result (λ ss. ss ≡ spec.claimed place true typed) }
{
    match typed {
        Some(typed) => one_stmt(alloc, place, StmtKind::Assert(expr_in(typed))),
        None => Ok(None),
    }
}

fn claimed(
    alloc: Global,
    place: Place,
    text: bool,
    typed: Option<Typed>,
) -> Result<Option<Stmts>, Memory>
    ensures { IfOk result (λ ss. ss ≡ spec.claimed place text typed) }
{
    if text {
        assert_stmt(alloc, place, typed)
    } else {
        Ok(None)
    }
}

fn claim(
    alloc: Global,
    into: &mut Notes,
    sight: &Sight,
    locals: &Locals,
    place: Place,
    test: &Tree,
    message: &Option<Tree>,
) -> Result<Option<Stmts>, Memory>
    ensures told { OnOk result (into.new ≡ into.old ++ (spec.claim_that (seen sight.now locals.now) place (source.tree_of test.now) (lines.optional_tree message.now)).notes) }
    ensures typed { IfOk result (λ ss. ss ≡ (spec.claim_that (seen sight.now locals.now) place (source.tree_of test.now) (lines.optional_tree message.now)).typed) }
{
    let typed = judge_condition(alloc, into, sight, locals, test)?;
    let text = message_said(alloc, into, sight, locals, message)?;
    claimed(alloc, place, text, typed)
}

fn alone_literal(
    alloc: Global,
    into: &mut Notes,
    place: Place,
    lit: &Lit,
) -> Result<Option<Stmts>, Memory>
    ensures told { OnOk result (into.new ≡ into.old ++ (spec.alone_literal [] place lit.now).notes) }
    ensures typed { IfOk result (λ ss. ss ≡ (spec.alone_literal [] place lit.now).typed) }
{
    match lit {
        Lit::Text(_) => Ok(nothing_known(alloc, true)),
        Lit::Number(_) => breaks(into, place),
        Lit::Bytes(_) => breaks(into, place),
    }
}

/// A text literal alone does nothing; P14 on another literal, and on what is no value.
fn alone_says(
    alloc: Global,
    into: &mut Notes,
    place: Place,
    meaning: Meaning,
) -> Result<Option<Stmts>, Memory>
    ensures told { OnOk result (into.new ≡ into.old ++ (spec.alone_says [] place meaning).notes) }
    ensures typed { IfOk result (λ ss. ss ≡ (spec.alone_says [] place meaning).typed) }
{
    match meaning {
        Meaning::Value(typed) => one_stmt(alloc, place, StmtKind::Drop(expr_in(typed))),
        Meaning::Literal(at, lit) => alone_literal(alloc, into, at, &lit),
        Meaning::Thing(_) => breaks(into, place),
        Meaning::Range(_) => breaks(into, place),
        Meaning::Unknown => Ok(None),
    }
}

fn stand_alone(
    alloc: Global,
    into: &mut Notes,
    sight: &Sight,
    locals: &Locals,
    exprs: &Exprs,
) -> Result<Option<Stmts>, Memory>
    ensures told { OnOk result (into.new ≡ into.old ++ (spec.stand_alone (seen sight.now locals.now) (lines.exprs_of exprs.now)).notes) }
    ensures typed { IfOk result (λ ss. ss ≡ (spec.stand_alone (seen sight.now locals.now) (lines.exprs_of exprs.now)).typed) }
{
    let meaning = judge_exprs(alloc, into, sight, locals, &freely(), exprs)?;
    alone_says(alloc, into, exprs_place(exprs), meaning)
}

fn leave(alloc: Global, into: &mut Notes, place: Place) -> Result<Option<Stmts>, Memory>
    ensures told { OnOk result (into.new ≡ into.old ++ note.Break place ∷ []) }
    ensures typed { IfOk result (λ ss. ss ≡ Some (spec.stmt place kind.Break)) }
{
    into.push(Note::Break(place))?;
    one_stmt(alloc, place, StmtKind::Break)
}

fn again(alloc: Global, into: &mut Notes, place: Place) -> Result<Option<Stmts>, Memory>
    ensures told { OnOk result (into.new ≡ into.old ++ note.Continue place ∷ []) }
    ensures typed { IfOk result (λ ss. ss ≡ Some (spec.stmt place kind.Continue)) }
{
    into.push(Note::Continue(place))?;
    one_stmt(alloc, place, StmtKind::Continue)
}

/// P16: nothing can be deleted.
fn delete(
    alloc: Global,
    into: &mut Notes,
    sight: &Sight,
    locals: &Locals,
    target: &Tree,
) -> Result<Option<Stmts>, Memory>
    ensures told { let t = source.tree_of target.now in OnOk result (into.new ≡ into.old ++ spec.bad_target (source.place_of t) (judge (seen sight.now locals.now) meanings.freely t)) }
    ensures typed { IfOk result (λ ss. ss ≡ None) }
{
    bad_tree(alloc, into, sight, locals, target)?;
    Ok(None)
}

/// A statement of one line in a function that gives this: typed where it is known. Notes are made of what it does, and of the rules that it breaks.
pub(crate) fn check_line(
    alloc: Global,
    into: &mut Notes,
    sight: &Sight,
    gives: &Option<SourceType>,
    locals: &mut Locals,
    line: &Simple,
) -> Result<Option<Stmts>, Memory>
    ensures locals { OnOk result (locals.new ≡ (spec.check_line (seen sight.now locals.old) gives.now (lines.line_of line.now)).locals) }
    ensures told { OnOk result (into.new ≡ into.old ++ (spec.check_line (seen sight.now locals.old) gives.now (lines.line_of line.now)).notes) }
    ensures typed { IfOk result (λ ss. ss ≡ (spec.check_line (seen sight.now locals.old) gives.now (lines.line_of line.now)).typed) }
{
    match line {
        Simple::Pass(_) => Ok(nothing_known(alloc, true)),
        Simple::Break(place) => leave(alloc, into, *place),
        Simple::Continue(place) => again(alloc, into, *place),
        Simple::Return(place, values) => give(alloc, into, sight, locals, gives, *place, values),
        Simple::Assert(place, test, message) => {
            claim(alloc, into, sight, locals, *place, test, message)
        }
        Simple::Del(_, target) => delete(alloc, into, sight, locals, target),
        Simple::Value(exprs) => stand_alone(alloc, into, sight, locals, exprs),
        Simple::Assign(targets, values) => assign(alloc, into, sight, locals, targets, values),
        Simple::Update(targets, op, value) => {
            update(alloc, into, sight, locals, targets, *op, value)
        }
        Simple::Annotate(targets, tree, values) => {
            annotate(alloc, into, sight, locals, targets, tree, values)
        }
    }
}
