//! Bodies of a few statements.

use path_rules::{Note, NoteArm, Notes, broken};
use puya_base::{List, Memory, Place, Refusal, Rule};
use std::alloc::Global;
use std::test::Fail;

const READ: Place = Place { line: 5, col: 16 };

const NAME: Place = Place { line: 3, col: 9 };

fn none(alloc: Global) -> Notes {
    List::new(alloc)
}

fn one(alloc: Global, first: Note) -> Result<Notes, Memory> {
    let mut notes = List::new(alloc);
    notes.push(first)?;
    Ok(notes)
}

fn two(alloc: Global, first: Note, second: Note) -> Result<Notes, Memory> {
    let mut notes = List::new(alloc);
    notes.push(first)?;
    notes.push(second)?;
    Ok(notes)
}

/// An `if` with one arm.
fn one_arm(alloc: Global, always: bool, body: Notes, rest: Notes) -> Result<Note, Memory> {
    let mut arms = List::new(alloc);
    let test = List::new(alloc);
    arms.push(NoteArm { test, always, body })?;
    Ok(Note::If(arms, rest))
}

fn unassigned(place: Place) -> Option<Refusal> {
    let rule = Rule::P17;
    Some(Refusal { rule, place })
}

#[test]
fn one_arm_alone_assigns(rt: HostRuntime) -> Result<(), Fail> {
    let alloc = rt.alloc();
    let body = one(alloc, Note::Assign(0))?;
    let branch = one_arm(alloc, false, body, none(alloc))?;
    let notes = two(alloc, branch, Note::Read(0, READ))?;
    assert_eq!(rt; broken(alloc, &notes, None)?, unassigned(READ));
    Ok(())
}

#[test]
fn both_branches_assign(rt: HostRuntime) -> Result<(), Fail> {
    let alloc = rt.alloc();
    let body = one(alloc, Note::Assign(0))?;
    let rest = one(alloc, Note::Assign(0))?;
    let branch = one_arm(alloc, false, body, rest)?;
    let notes = two(alloc, branch, Note::Read(0, READ))?;
    assert_eq!(rt; broken(alloc, &notes, None)?, None);
    Ok(())
}

#[test]
fn a_loop_may_have_no_turn(rt: HostRuntime) -> Result<(), Fail> {
    let alloc = rt.alloc();
    let body = one(alloc, Note::Assign(0))?;
    let turns = Note::Loop(none(alloc), true, body);
    let notes = two(alloc, turns, Note::Read(0, READ))?;
    assert_eq!(rt; broken(alloc, &notes, None)?, unassigned(READ));
    Ok(())
}

#[test]
fn a_loop_without_end_is_left_by_break(rt: HostRuntime) -> Result<(), Fail> {
    let alloc = rt.alloc();
    let body = two(alloc, Note::Assign(0), Note::Break(NAME))?;
    let turns = Note::Loop(none(alloc), false, body);
    let notes = two(alloc, turns, Note::Read(0, READ))?;
    assert_eq!(rt; broken(alloc, &notes, None)?, None);
    Ok(())
}

#[test]
fn a_second_turn_sees_what_the_first_forgot(rt: HostRuntime) -> Result<(), Fail> {
    let alloc = rt.alloc();
    let body = two(alloc, Note::Read(0, READ), Note::Forget(0))?;
    let turns = Note::Loop(none(alloc), true, body);
    let notes = two(alloc, Note::Assign(0), turns)?;
    assert_eq!(rt; broken(alloc, &notes, None)?, unassigned(READ));
    Ok(())
}

#[test]
fn a_loop_variable_is_unassigned_behind_its_loop(rt: HostRuntime) -> Result<(), Fail> {
    let alloc = rt.alloc();
    let before = one(alloc, Note::Assign(0))?;
    let turns = Note::Loop(before, true, none(alloc));
    let mut notes = two(alloc, turns, Note::Forget(0))?;
    notes.push(Note::Read(0, READ))?;
    assert_eq!(rt; broken(alloc, &notes, None)?, unassigned(READ));
    Ok(())
}

#[test]
fn break_stands_in_a_loop(rt: HostRuntime) -> Result<(), Fail> {
    let alloc = rt.alloc();
    let rule = Rule::P19;
    let notes = one(alloc, Note::Break(READ))?;
    assert_eq!(rt;
        broken(alloc, &notes, None)?,
        Some(Refusal { rule, place: READ })
    );
    Ok(())
}

#[test]
fn a_function_with_a_result_returns(rt: HostRuntime) -> Result<(), Fail> {
    let alloc = rt.alloc();
    let rule = Rule::P18;
    let body = one(alloc, Note::Return)?;
    let notes = one(alloc, one_arm(alloc, false, body, none(alloc))?)?;
    assert_eq!(rt;
        broken(alloc, &notes, Some(NAME))?,
        Some(Refusal { rule, place: NAME })
    );
    assert_eq!(rt; broken(alloc, &notes, None)?, None);
    Ok(())
}

#[test]
fn no_path_goes_past_a_loop_without_end(rt: HostRuntime) -> Result<(), Fail> {
    let alloc = rt.alloc();
    let turns = Note::Loop(none(alloc), false, none(alloc));
    let notes = two(alloc, turns, Note::Read(0, READ))?;
    assert_eq!(rt; broken(alloc, &notes, Some(NAME))?, None);
    Ok(())
}

#[test]
fn the_earlier_place_comes_first_and_then_the_lower_rule(rt: HostRuntime) -> Result<(), Fail> {
    let alloc = rt.alloc();
    let rule = Rule::P14;
    let later = Note::Broken(Refusal { rule, place: READ });
    let notes = two(alloc, later, Note::Read(0, NAME))?;
    assert_eq!(rt; broken(alloc, &notes, None)?, unassigned(NAME));
    let same = Note::Broken(Refusal { rule, place: READ });
    let notes = two(alloc, Note::Read(0, READ), same)?;
    assert_eq!(rt;
        broken(alloc, &notes, None)?,
        Some(Refusal { rule, place: READ })
    );
    Ok(())
}
