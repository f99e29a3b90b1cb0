//! What is broken wherever it stands: what was noted so, and loop words outside loops.

ghost use Rattle.std.specs.Prelude.{◌≡◌, true};
ghost use Rattle.path_rules.specs.Steps.{in_turn, step_of, steps_of, arm_of, arms_of};
ghost use Rattle.path_rules.specs.Told as spec;

use crate::note::{Note, NoteArm};
use crate::order::earlier_refusal;
use puya_base::{Place, Refusal, Rule};

fn loop_word(first: Option<Refusal>, inside: bool, place: Place) -> Option<Refusal>
    ensures { result ≡ spec.loop_word first inside place }
{
    if inside {
        return first;
    }
    let rule = Rule::P19;
    earlier_refusal(first, Some(Refusal { rule, place }))
}

#[cycle(told)]
fn told_by_note(first: Option<Refusal>, inside: bool, note: &Note) -> Option<Refusal>
    ensures { result ≡ spec.told_by first inside (step_of note.now) }
{
    match note {
        Note::Broken(r) => earlier_refusal(first, Some(*r)),
        Note::Read(_, _) => first,
        Note::Assign(_) => first,
        Note::Forget(_) => first,
        Note::If(arms, rest) => {
            let arms = arms.as_slice();
            let rest = rest.as_slice();
            let behind_arms = told_by_arms(first, inside, arms);
            told_by(behind_arms, inside, rest)
        }
        Note::Loop(test, _, body) => {
            let test = test.as_slice();
            let body = body.as_slice();
            let behind_test = told_by(first, true, test);
            told_by(behind_test, true, body)
        }
        Note::Break(p) => loop_word(first, inside, *p),
        Note::Continue(p) => loop_word(first, inside, *p),
        Note::Return => first,
    }
}

#[cycle(told)]
fn told_by_arm(first: Option<Refusal>, inside: bool, arm: &NoteArm) -> Option<Refusal>
    ensures { result ≡ spec.told_by_all first inside (arm_of arm.now) }
{
    let before = arm.test.as_slice();
    let body = arm.body.as_slice();
    let behind_test = told_by(first, inside, before);
    told_by(behind_test, inside, body)
}

#[cycle(told)]
fn told_by_arms(first: Option<Refusal>, inside: bool, arms: &[NoteArm]) -> Option<Refusal>
    ensures { result ≡ spec.told_by_all first inside (in_turn (arms_of arms.now)) }
{
    let mut first = first;
    for arm in arms {
        first = told_by_arm(first, inside, arm);
    }
    first
}

/// The first refusal of those so far and of those that the notes tell.
#[cycle(told)]
pub(crate) fn told_by(first: Option<Refusal>, inside: bool, notes: &[Note]) -> Option<Refusal>
    ensures { result ≡ spec.told_by_all first inside (steps_of notes.now) }
{
    let mut first = first;
    for note in notes {
        first = told_by_note(first, inside, note);
    }
    first
}
