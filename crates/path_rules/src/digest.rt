//! The summary of notes. Each list of notes is looked at once.

ghost use Rattle.std.specs.Prelude.{◌≡◌, [], ◌∷◌, ◌++◌, IfOk, OnOk, if◌then◌else◌};
ghost use Rattle.path_rules.specs.Describes.{Describes, Together, TogetherWith, DescribesFault, DescribesBreak, DescribesContinue, DescribesReturn};
ghost use Rattle.path_rules.specs.Steps.{Steps, read, assign, forget, one, an_arm, a_loop, choice, in_turn, step_of, steps_of, arm_of, arms_of};
ghost use Rattle.path_rules.specs.Summaries as spec;

use crate::endings::no_endings;
use crate::joining::{joined, only_goes, plain};
use crate::merging::{summary_behind, summary_in_frame};
use crate::note::{Note, NoteArm};
use crate::summary::{Effect, Endings, Exits, Frame, Summary, Touched};
use puya_base::{List, Memory, Place};
use std::alloc::Global;

fn naming(alloc: Global, variable: u32, effect: Effect) -> Result<Summary, Memory>
    ensures { IfOk result (λ m. m ≡ spec.naming variable effect) }
{
    let mut touched = List::new(alloc);
    touched.push(Touched { variable, effect })?;
    Ok(Summary {
        others: only_goes(),
        touched,
    })
}

fn read_effect(place: Place) -> Effect
    ensures { result ≡ spec.read_effect place }
{
    Effect {
        unassigned: Endings {
            exits: only_goes(),
            read: Some(place),
        },
        assigned: no_endings(),
    }
}

fn assign_effect() -> Effect
    ensures { result ≡ spec.assign_effect }
{
    Effect {
        unassigned: no_endings(),
        assigned: no_endings(),
    }
}

fn forget_effect() -> Effect
    ensures { result ≡ spec.forget_effect }
{
    let endings = Endings {
        exits: only_goes(),
        read: None,
    };
    Effect {
        unassigned: endings,
        assigned: endings,
    }
}

fn exits_at_end() -> Exits
    ensures { result ≡ spec.exits_at_end }
{
    Exits {
        goes: true,
        leaves: true,
        breaks: false,
        continues: false,
    }
}

fn only_breaks() -> Exits
    ensures { result ≡ spec.only_breaks }
{
    Exits {
        goes: false,
        leaves: false,
        breaks: true,
        continues: false,
    }
}

fn only_continues() -> Exits
    ensures { result ≡ spec.only_continues }
{
    Exits {
        goes: false,
        leaves: false,
        breaks: false,
        continues: true,
    }
}

fn ending(alloc: Global, ends: bool) -> Summary
    ensures { result ≡ spec.plain (if ends then spec.exits_at_end else spec.only_goes) }
{
    let exits = if ends { exits_at_end() } else { only_goes() };
    plain(alloc, exits)
}

fn passing_summary(alloc: Global) -> Result<Summary, Memory>
    ensures { IfOk result (λ m. DescribesFault m) }
{
    Ok(plain(alloc, only_goes()))
}

fn read_summary(alloc: Global, variable: u32, place: Place) -> Result<Summary, Memory>
    ensures { IfOk result (λ m. Describes m (one (read variable place))) }
{
    naming(alloc, variable, read_effect(place))
}

fn assign_summary(alloc: Global, variable: u32) -> Result<Summary, Memory>
    ensures { IfOk result (λ m. Describes m (one (assign variable))) }
{
    naming(alloc, variable, assign_effect())
}

fn forget_summary(alloc: Global, variable: u32) -> Result<Summary, Memory>
    ensures { IfOk result (λ m. Describes m (one (forget variable))) }
{
    naming(alloc, variable, forget_effect())
}

fn break_summary(alloc: Global) -> Result<Summary, Memory>
    ensures { IfOk result (λ m. DescribesBreak m) }
{
    Ok(plain(alloc, only_breaks()))
}

fn continue_summary(alloc: Global) -> Result<Summary, Memory>
    ensures { IfOk result (λ m. DescribesContinue m) }
{
    Ok(plain(alloc, only_continues()))
}

fn return_summary(alloc: Global) -> Result<Summary, Memory>
    ensures { IfOk result (λ m. DescribesReturn m) }
{
    Ok(plain(alloc, no_endings().exits))
}

fn arm_summary(alloc: Global, test: Summary, always: bool, body: Summary) -> Result<Summary, Memory>
    ensures { IfOk result (λ m. (t b : Steps) → Describes test t → Describes body b → Describes m (an_arm t always b)) }
{
    let done = summary_in_frame(alloc, Frame::Arm(always), &body)?;
    summary_behind(alloc, &test, &done)
}

fn put(parts: &mut Vec<Summary>, one: Summary) -> Result<(), Memory>
    ensures { OnOk result (parts.new.items ≡ parts.old.items ++ one ∷ []) }
{
    parts.push(one)?;
    Ok(())
}

fn if_summary(alloc: Global, mut parts: Vec<Summary>, rest: Summary) -> Result<Summary, Memory>
    ensures { IfOk result (λ m. (fs gs : Steps) → TogetherWith parts.items gs fs → Describes rest gs → Describes m (one (choice fs))) }
{
    put(&mut parts, rest)?;
    let all = joined(alloc, parts)?;
    summary_in_frame(alloc, Frame::If, &all)
}

fn loop_summary(alloc: Global, test: Summary, ends: bool, body: Summary) -> Result<Summary, Memory>
    ensures { IfOk result (λ m. (t b : Steps) → Describes test t → Describes body b → Describes m (one (a_loop t ends b))) }
{
    let rest = summary_behind(alloc, &ending(alloc, ends), &body)?;
    let turn = summary_behind(alloc, &test, &rest)?;
    summary_in_frame(alloc, Frame::Loop, &turn)
}

#[cycle(digest)]
fn digest_note(alloc: Global, note: &Note) -> Result<Summary, Memory>
    ensures { IfOk result (λ m. Describes m (one (step_of note.now))) }
{
    match note {
        Note::Broken(_) => passing_summary(alloc),
        Note::Read(variable, place) => read_summary(alloc, *variable, *place),
        Note::Assign(variable) => assign_summary(alloc, *variable),
        Note::Forget(variable) => forget_summary(alloc, *variable),
        Note::If(arms, rest) => {
            let arms = arms.as_slice();
            let rest = rest.as_slice();
            let parts = digest_arms(alloc, arms)?;
            let last = digest(alloc, rest)?;
            if_summary(alloc, parts, last)
        }
        Note::Loop(test, ends, body) => {
            let test = test.as_slice();
            let body = body.as_slice();
            let before = digest(alloc, test)?;
            let inside = digest(alloc, body)?;
            loop_summary(alloc, before, *ends, inside)
        }
        Note::Break(_) => break_summary(alloc),
        Note::Continue(_) => continue_summary(alloc),
        Note::Return => return_summary(alloc),
    }
}

#[cycle(digest)]
fn digest_arm(alloc: Global, arm: &NoteArm) -> Result<Summary, Memory>
    ensures { IfOk result (λ m. Describes m (arm_of arm.now)) }
{
    let before = arm.test.as_slice();
    let inside = arm.body.as_slice();
    let test = digest(alloc, before)?;
    let body = digest(alloc, inside)?;
    arm_summary(alloc, test, arm.always, body)
}

#[cycle(digest)]
fn digest_arms(alloc: Global, arms: &[NoteArm]) -> Result<Vec<Summary>, Memory>
    ensures { IfOk result (λ parts. Together parts.items (in_turn (arms_of arms.now))) }
{
    let mut parts = Vec::new(alloc);
    for arm in arms {
        let one = digest_arm(alloc, arm)?;
        put(&mut parts, one)?;
    }
    Ok(parts)
}

/// The summary of notes.
#[cycle(digest)]
pub(crate) fn digest(alloc: Global, notes: &[Note]) -> Result<Summary, Memory>
    ensures { IfOk result (λ m. Describes m (steps_of notes.now)) }
{
    let mut parts = Vec::new(alloc);
    for note in notes {
        let one = digest_note(alloc, note)?;
        put(&mut parts, one)?;
    }
    joined(alloc, parts)
}
