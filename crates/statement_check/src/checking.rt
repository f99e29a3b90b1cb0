//! Statements (Python reference, chapters 7 and 8): what each is as a typed one, and the rules that it breaks.

ghost use Rattle.std.specs.Prelude.{◌≡◌, ◌++◌, [], ◌∷◌, None, Some, map, true, IfOk, OnOk};
ghost use Rattle.path_rules.specs.declared.note.Note.TheVariants as note;
ghost use Rattle.source_names.specs.Source as source;
ghost use Rattle.meaning_rules.specs.Meanings as meanings;
ghost use Rattle.statement_check.specs.Checking as checking;
ghost use Rattle.expression_check.specs.Expressions.{judge};
ghost use Rattle.statement_check.specs.Lines as lines;
ghost use Rattle.statement_check.specs.Looping.{IsOver};
ghost use Rattle.statement_check.specs.Noting.{optional_block};
ghost use Rattle.expression_check.specs.Sights.{seen};
ghost use Rattle.statement_check.specs.Frames.{seen_in};
ghost use Rattle.statement_check.specs.Statements as spec;

use crate::annotating::{differs, tell_differs};
use crate::frame::Frame;
use crate::looping::{Over, for_stmt, over_meaning, turn_type};
use crate::simple::check_line;
use crate::stating::{joined, nothing_known, one_stmt};
use crate::values::judge_condition;
use awst::{Arm, Arms, ExprKind, StmtKind, Stmts};
use expression_check::{Locals, Sight, freely, judge};
use meaning_rules::{Typed, break_rule, expr_in};
use path_rules::{Note, NoteArm, Notes};
use puya_base::{List, Memory, Place, Rule};
use py_grammar::{Block, Branch, Stmt, Tree, Word};
use source_names::place_of;
use std::alloc::Global;

fn is_true_kind(kind: &ExprKind) -> bool
    ensures { result ≡ spec.is_true_kind kind.now }
{
    match kind {
        ExprKind::Flag(flag) => *flag,
        _ => false,
    }
}

/// Whether a condition is the literal `True`.
fn is_true(typed: &Option<Typed>) -> bool
    ensures { result ≡ spec.is_true typed.now }
{
    match typed {
        Some(typed) => is_true_kind(&typed.expr.kind),
        None => false,
    }
}

/// The arms of an `if` so far: their notes, and what they are where each is known.
#[derive(Drop)]
struct Armed {
    notes: List<NoteArm>,
    typed: Option<Arms>,
}

fn no_arms(alloc: Global) -> Armed
    ensures notes { result.notes ≡ [] }
    ensures typed { result.typed ≡ Some [] }
{
    Armed {
        notes: List::new(alloc),
        typed: Some(List::new(alloc)),
    }
}

fn typed_arm(test: Option<Typed>, body: Option<Stmts>) -> Option<Arm>
    ensures { result ≡ checking.typed_arm test body }
{
    let Some(test) = test else {
        return None;
    };
    let Some(body) = body else {
        return None;
    };
    Some(Arm {
        condition: expr_in(test),
        body,
    })
}

fn with_typed(arms: Option<Arms>, arm: Option<Arm>) -> Result<Option<Arms>, Memory>
    ensures { IfOk result (λ as_. as_ ≡ checking.with_typed arms arm) }
{
    let Some(mut arms) = arms else {
        return Ok(None);
    };
    let Some(arm) = arm else {
        return Ok(None);
    };
    arms.push(arm)?;
    Ok(Some(arms))
}

fn add_arm(armed: Armed, note: NoteArm, arm: Option<Arm>) -> Result<Armed, Memory>
    ensures notes { IfOk result (λ a. a.notes ≡ armed.notes ++ note ∷ []) }
    ensures typed { IfOk result (λ a. a.typed ≡ checking.with_typed armed.typed arm) }
{
    let Armed { mut notes, typed } = armed;
    notes.push(note)?;
    let typed = with_typed(typed, arm)?;
    Ok(Armed { notes, typed })
}

fn if_stmt(
    alloc: Global,
    place: Place,
    arms: Option<Arms>,
    rest: Option<Stmts>,
) -> Result<Option<Stmts>, Memory>
    ensures { IfOk result (λ ss. ss ≡ spec.if_typed place arms rest) }
{
    let Some(arms) = arms else {
        return Ok(None);
    };
    let Some(rest) = rest else {
        return Ok(None);
    };
    one_stmt(alloc, place, StmtKind::If(arms, rest))
}

fn end_if(
    alloc: Global,
    into: &mut Notes,
    place: Place,
    armed: Armed,
    notes: Notes,
    rest: Option<Stmts>,
) -> Result<Option<Stmts>, Memory>
    ensures told { OnOk result (into.new ≡ into.old ++ note.If armed.notes notes ∷ []) }
    ensures typed { IfOk result (λ ss. ss ≡ spec.if_typed place armed.typed rest) }
{
    let Armed { notes: arms, typed } = armed;
    into.push(Note::If(arms, notes))?;
    if_stmt(alloc, place, typed, rest)
}

fn while_stmt(
    alloc: Global,
    place: Place,
    test: Option<Typed>,
    body: Option<Stmts>,
) -> Result<Option<Stmts>, Memory>
    ensures { IfOk result (λ ss. ss ≡ spec.while_typed place test body) }
{
    let Some(test) = test else {
        return Ok(None);
    };
    let Some(body) = body else {
        return Ok(None);
    };
    one_stmt(alloc, place, StmtKind::While(expr_in(test), body))
}

fn note_loop(into: &mut Notes, test: Notes, may_end: bool, body: Notes) -> Result<(), Memory>
    ensures { OnOk result (into.new ≡ into.old ++ note.Loop test may_end body ∷ []) }
{
    into.push(Note::Loop(test, may_end, body))?;
    Ok(())
}

fn judge_over(
    alloc: Global,
    into: &mut Notes,
    sight: &Sight,
    locals: &Locals,
    tree: &Tree,
) -> Result<Over, Memory>
    ensures told { let e = source.tree_of tree.now in OnOk result (into.new ≡ into.old ++ (spec.over (source.place_of e) (judge (seen sight.now locals.now) meanings.freely e)).notes) }
    ensures over { let e = source.tree_of tree.now in IfOk result (λ o. IsOver o (spec.over (source.place_of e) (judge (seen sight.now locals.now) meanings.freely e))) }
{
    let meaning = judge(alloc, into, sight, locals, &freely(), tree)?;
    over_meaning(into, place_of(tree), meaning)
}

/// The notes of a loop over its variable, behind which that counts as unassigned.
fn note_for(alloc: Global, into: &mut Notes, number: u32, body: Notes) -> Result<(), Memory>
    ensures { OnOk result (into.new ≡ into.old ++ note.Loop [] true body ∷ note.Forget number ∷ []) }
{
    note_loop(into, List::new(alloc), true, body)?;
    into.push(Note::Forget(number))?;
    Ok(())
}

/// The statements of a block, one after the other, in a function that gives this.
#[cycle(check)]
pub fn check_block(
    frame: &Frame<'_>,
    into: &mut Notes,
    locals: &mut Locals,
    block: &Block,
) -> Result<Option<Stmts>, Memory>
    ensures locals { OnOk result (locals.new ≡ (spec.checks (seen_in frame.now) frame.now.gives.now locals.old (lines.block_of block.now)).locals) }
    ensures told { OnOk result (into.new ≡ into.old ++ (spec.checks (seen_in frame.now) frame.now.gives.now locals.old (lines.block_of block.now)).notes) }
    ensures typed { IfOk result (λ ss. ss ≡ (spec.checks (seen_in frame.now) frame.now.gives.now locals.old (lines.block_of block.now)).typed) }
{
    match block {
        Block::Line(line) => check_line(frame.alloc, into, frame.sight, frame.gives, locals, line),
        Block::Lines(stmts) => check_all(frame, into, locals, stmts.as_slice()),
    }
}

#[cycle(check)]
fn check_all(
    frame: &Frame<'_>,
    into: &mut Notes,
    locals: &mut Locals,
    stmts: &[Stmt],
) -> Result<Option<Stmts>, Memory>
    ensures locals { OnOk result (locals.new ≡ (spec.checks (seen_in frame.now) frame.now.gives.now locals.old (lines.stmts_of stmts.now)).locals) }
    ensures told { OnOk result (into.new ≡ into.old ++ (spec.checks (seen_in frame.now) frame.now.gives.now locals.old (lines.stmts_of stmts.now)).notes) }
    ensures typed { IfOk result (λ ss. ss ≡ (spec.checks (seen_in frame.now) frame.now.gives.now locals.old (lines.stmts_of stmts.now)).typed) }
{
    let mut all = nothing_known(frame.alloc, true);
    for stmt in stmts {
        let one = check_stmt(frame, into, locals, stmt)?;
        all = joined(all, one)?;
    }
    Ok(all)
}

#[cycle(check)]
fn check_stmt(
    frame: &Frame<'_>,
    into: &mut Notes,
    locals: &mut Locals,
    stmt: &Stmt,
) -> Result<Option<Stmts>, Memory>
    ensures locals { OnOk result (locals.new ≡ (spec.check (seen_in frame.now) frame.now.gives.now locals.old (lines.stmt_of stmt.now)).locals) }
    ensures told { OnOk result (into.new ≡ into.old ++ (spec.check (seen_in frame.now) frame.now.gives.now locals.old (lines.stmt_of stmt.now)).notes) }
    ensures typed { IfOk result (λ ss. ss ≡ (spec.check (seen_in frame.now) frame.now.gives.now locals.old (lines.stmt_of stmt.now)).typed) }
{
    match stmt {
        Stmt::Simple(line) => check_line(frame.alloc, into, frame.sight, frame.gives, locals, line),
        Stmt::If(place, test, block, branches, otherwise) => {
            let armed = check_arm(frame, locals, no_arms(frame.alloc), test, block)?;
            let branches = branches.as_slice();
            let armed = check_branches(frame, locals, armed, branches)?;
            check_rest(frame, into, locals, *place, armed, otherwise)
        }
        Stmt::While(place, test, block) => { check_while(frame, into, locals, *place, test, block) }
        Stmt::For(place, word, tree, block) => {
            check_for(frame, into, locals, *place, word, tree, block)
        }
    }
}

#[cycle(check)]
fn check_arm(
    frame: &Frame<'_>,
    locals: &mut Locals,
    armed: Armed,
    test: &Tree,
    block: &Block,
) -> Result<Armed, Memory>
    ensures locals { OnOk result (locals.new ≡ (spec.checks (seen_in frame.now) frame.now.gives.now locals.old (lines.block_of block.now)).locals) }
    ensures notes { IfOk result (λ a. a.notes ≡ armed.notes ++ checking.note_of (seen_in frame.now) frame.now.gives.now locals.old (source.tree_of test.now) (lines.block_of block.now) ∷ []) }
    ensures typed { IfOk result (λ a. a.typed ≡ checking.with_typed armed.typed (checking.arm_of (seen_in frame.now) frame.now.gives.now locals.old (source.tree_of test.now) (lines.block_of block.now))) }
{
    let mut notes = Notes::new(frame.alloc);
    let typed = judge_condition(frame.alloc, &mut notes, frame.sight, locals, test)?;
    let always = is_true(&typed);
    let mut body = Notes::new(frame.alloc);
    let stmts = check_block(frame, &mut body, locals, block)?;
    let note = NoteArm {
        test: notes,
        always,
        body,
    };
    add_arm(armed, note, typed_arm(typed, stmts))
}

#[cycle(check)]
fn check_branches(
    frame: &Frame<'_>,
    locals: &mut Locals,
    armed: Armed,
    branches: &[Branch],
) -> Result<Armed, Memory>
    ensures locals { OnOk result (locals.new ≡ checking.locals_behind (seen_in frame.now) frame.now.gives.now locals.old (map lines.branch_of branches.now)) }
    ensures notes { IfOk result (λ a. a.notes ≡ armed.notes ++ checking.notes_behind (seen_in frame.now) frame.now.gives.now locals.old (map lines.branch_of branches.now)) }
    ensures typed { IfOk result (λ a. a.typed ≡ checking.arms_behind (seen_in frame.now) frame.now.gives.now locals.old armed.typed (map lines.branch_of branches.now)) }
{
    let mut all = armed;
    for branch in branches {
        all = check_arm(frame, locals, all, &branch.test, &branch.block)?;
    }
    Ok(all)
}

#[cycle(check)]
fn check_rest(
    frame: &Frame<'_>,
    into: &mut Notes,
    locals: &mut Locals,
    place: Place,
    armed: Armed,
    otherwise: &Option<Block>,
) -> Result<Option<Stmts>, Memory>
    ensures locals { OnOk result (locals.new ≡ (spec.checks (seen_in frame.now) frame.now.gives.now locals.old (optional_block otherwise.now)).locals) }
    ensures told { OnOk result (into.new ≡ into.old ++ note.If armed.notes (spec.checks (seen_in frame.now) frame.now.gives.now locals.old (optional_block otherwise.now)).notes ∷ []) }
    ensures typed { IfOk result (λ ss. ss ≡ spec.if_typed place armed.typed (spec.checks (seen_in frame.now) frame.now.gives.now locals.old (optional_block otherwise.now)).typed) }
{
    let mut notes = Notes::new(frame.alloc);
    match otherwise {
        Some(block) => {
            let rest = check_block(frame, &mut notes, locals, block)?;
            end_if(frame.alloc, into, place, armed, notes, rest)
        }
        None => end_if(
            frame.alloc,
            into,
            place,
            armed,
            notes,
            nothing_known(frame.alloc, true),
        ),
    }
}

#[cycle(check)]
fn check_while(
    frame: &Frame<'_>,
    into: &mut Notes,
    locals: &mut Locals,
    place: Place,
    test: &Tree,
    block: &Block,
) -> Result<Option<Stmts>, Memory>
    ensures locals { OnOk result (locals.new ≡ (spec.check (seen_in frame.now) frame.now.gives.now locals.old (lines.while_do place (source.tree_of test.now) (lines.block_of block.now))).locals) }
    ensures told { OnOk result (into.new ≡ into.old ++ (spec.check (seen_in frame.now) frame.now.gives.now locals.old (lines.while_do place (source.tree_of test.now) (lines.block_of block.now))).notes) }
    ensures typed { IfOk result (λ ss. ss ≡ (spec.check (seen_in frame.now) frame.now.gives.now locals.old (lines.while_do place (source.tree_of test.now) (lines.block_of block.now))).typed) }
{
    let mut notes = Notes::new(frame.alloc);
    let typed = judge_condition(frame.alloc, &mut notes, frame.sight, locals, test)?;
    let may_end = !is_true(&typed);
    let mut body = Notes::new(frame.alloc);
    let stmts = check_block(frame, &mut body, locals, block)?;
    note_loop(into, notes, may_end, body)?;
    while_stmt(frame.alloc, place, typed, stmts)
}

#[cycle(check)]
fn check_for(
    frame: &Frame<'_>,
    into: &mut Notes,
    locals: &mut Locals,
    place: Place,
    word: &Word,
    tree: &Tree,
    block: &Block,
) -> Result<Option<Stmts>, Memory>
    ensures locals { OnOk result (locals.new ≡ (spec.check (seen_in frame.now) frame.now.gives.now locals.old (lines.for_in place word.now (source.tree_of tree.now) (lines.block_of block.now))).locals) }
    ensures told { OnOk result (into.new ≡ into.old ++ (spec.check (seen_in frame.now) frame.now.gives.now locals.old (lines.for_in place word.now (source.tree_of tree.now) (lines.block_of block.now))).notes) }
    ensures typed { IfOk result (λ ss. ss ≡ (spec.check (seen_in frame.now) frame.now.gives.now locals.old (lines.for_in place word.now (source.tree_of tree.now) (lines.block_of block.now))).typed) }
{
    match locals.number_of(word.name.as_str()) {
        Some(number) => {
            let over = judge_over(frame.alloc, into, frame.sight, locals, tree)?;
            let at = word.place;
            check_turns(frame, into, locals, place, at, number, over, block)
        }
        None => {
            break_rule(into, Rule::P16, word.place)?;
            judge_over(frame.alloc, into, frame.sight, locals, tree)?;
            check_bad_turns(frame, into, locals, block)
        }
    }
}

/// Each turn assigns the variable; P14 at it where it has another type.
#[cycle(check)]
fn check_turns(
    frame: &Frame<'_>,
    into: &mut Notes,
    locals: &mut Locals,
    place: Place,
    at: Place,
    number: u32,
    over: Over,
    block: &Block,
) -> Result<Option<Stmts>, Memory>
    ensures locals { OnOk result (locals.new ≡ (checking.turns (seen_in frame.now) frame.now.gives.now locals.old place at number over (lines.block_of block.now)).locals) }
    ensures told { OnOk result (into.new ≡ into.old ++ (checking.turns (seen_in frame.now) frame.now.gives.now locals.old place at number over (lines.block_of block.now)).notes) }
    ensures typed { IfOk result (λ ss. ss ≡ (checking.turns (seen_in frame.now) frame.now.gives.now locals.old place at number over (lines.block_of block.now)).typed) }
{
    let ty = turn_type(&over);
    let other = differs(locals.at(number), &ty);
    tell_differs(into, other, at)?;
    locals.fix(number, ty);
    let mut body = Notes::new(frame.alloc);
    body.push(Note::Assign(number))?;
    let stmts = check_block(frame, &mut body, locals, block)?;
    note_for(frame.alloc, into, number, body)?;
    for_stmt(frame.alloc, place, number, other, over, stmts)
}

/// `self` is no variable: its loop is judged, and no typed one.
#[cycle(check)]
fn check_bad_turns(
    frame: &Frame<'_>,
    into: &mut Notes,
    locals: &mut Locals,
    block: &Block,
) -> Result<Option<Stmts>, Memory>
    ensures locals { OnOk result (locals.new ≡ (spec.checks (seen_in frame.now) frame.now.gives.now locals.old (lines.block_of block.now)).locals) }
    ensures told { OnOk result (into.new ≡ into.old ++ note.Loop [] true (spec.checks (seen_in frame.now) frame.now.gives.now locals.old (lines.block_of block.now)).notes ∷ []) }
    ensures typed { IfOk result (λ ss. ss ≡ None) }
{
    let mut body = Notes::new(frame.alloc);
    check_block(frame, &mut body, locals, block)?;
    note_loop(into, List::new(frame.alloc), true, body)?;
    Ok(None)
}
