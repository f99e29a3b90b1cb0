//! The summary of two pieces, one behind the other, and of notes in a frame.

ghost use Rattle.std.specs.Prelude.{◌≡◌, ◌≤◌, ◌+◌, ◌++◌, IfOk, OnOk, map};
ghost use Rattle.path_rules.specs.NextOf.{next_of};
ghost use Rattle.path_rules.specs.Summaries as spec;

use crate::endings::{behind, in_frame, others_behind, others_in_frame, untouched};
use crate::summary::{Exits, Frame, Summary, Touched};
use puya_base::{List, Memory};
use std::alloc::Global;

fn left_alone(a: Exits, b: Exits, t: Touched) -> Touched
    ensures { result ≡ spec.left_alone a b t }
{
    Touched {
        variable: t.variable,
        effect: behind(a.goes, t.effect, untouched(b)),
    }
}

fn right_alone(a: Exits, b: Exits, t: Touched) -> Touched
    ensures { result ≡ spec.right_alone a b t }
{
    Touched {
        variable: t.variable,
        effect: behind(a.goes, untouched(a), t.effect),
    }
}

fn both_named(a: Exits, t: Touched, u: Touched) -> Touched
    ensures { result ≡ spec.both_named a t u }
{
    Touched {
        variable: t.variable,
        effect: behind(a.goes, t.effect, u.effect),
    }
}

fn touched_in_frame(frame: Frame, t: Touched) -> Touched
    ensures { result ≡ spec.touched_in_frame frame t }
{
    Touched {
        variable: t.variable,
        effect: in_frame(frame, t.effect),
    }
}

/// The first of what is left of two lists of variables, and how many items of each it takes.
#[derive(Clone, Copy, Debug, PartialEq, Eq)]
struct Next {
    touched: Touched,
    first: usize,
    second: usize,
}

fn next_of(a: Exits, b: Exits, t: Touched, u: Touched) -> Next
    ensures exact { result ≡ next_of a b t u }
    ensures some { 1 ≤ result.first + result.second }
    ensures first { result.first ≤ 1 }
    ensures second { result.second ≤ 1 }
{
    if t.variable < u.variable {
        Next {
            touched: left_alone(a, b, t),
            first: 1,
            second: 0,
        }
    } else if u.variable < t.variable {
        Next {
            touched: right_alone(a, b, u),
            first: 0,
            second: 1,
        }
    } else {
        Next {
            touched: both_named(a, t, u),
            first: 1,
            second: 1,
        }
    }
}

fn push_left(into: &mut List<Touched>, a: Exits, b: Exits, rest: &[Touched]) -> Result<(), Memory>
    ensures { OnOk result (into.new ≡ into.old ++ map (spec.left_alone a b) rest.now) }
{
    for t in rest {
        into.push(left_alone(a, b, *t))?;
    }
    Ok(())
}

fn push_right(into: &mut List<Touched>, a: Exits, b: Exits, rest: &[Touched]) -> Result<(), Memory>
    ensures { OnOk result (into.new ≡ into.old ++ map (spec.right_alone a b) rest.now) }
{
    for t in rest {
        into.push(right_alone(a, b, *t))?;
    }
    Ok(())
}

/// The variables of two pieces, one behind the other, the least first.
fn merged(
    alloc: Global,
    a: Exits,
    b: Exits,
    first: &[Touched],
    second: &[Touched],
) -> Result<List<Touched>, Memory>
    ensures { IfOk result (λ ts. ts ≡ spec.merged a b first.now second.now) }
{
    let mut touched = List::new(alloc);
    let mut i = 0;
    let mut j = 0;
    while i < first.len() && j < second.len() {
        let next = next_of(a, b, first[i], second[j]);
        touched.push(next.touched)?;
        i += next.first;
        j += next.second;
    }
    push_left(&mut touched, a, b, &first[i..])?;
    push_right(&mut touched, a, b, &second[j..])?;
    Ok(touched)
}

/// The summary of two pieces, one behind the other. The time is linear in the variables that they name.
pub(crate) fn summary_behind(
    alloc: Global,
    first: &Summary,
    second: &Summary,
) -> Result<Summary, Memory>
    ensures { IfOk result (λ m. m ≡ spec.summary_behind first.now second.now) }
{
    let (a, b) = (first.others, second.others);
    let touched = merged(
        alloc,
        a,
        b,
        first.touched.as_slice(),
        second.touched.as_slice(),
    )?;
    Ok(Summary {
        others: others_behind(a, b),
        touched,
    })
}

/// The summary of notes in a frame.
pub(crate) fn summary_in_frame(
    alloc: Global,
    frame: Frame,
    inner: &Summary,
) -> Result<Summary, Memory>
    ensures { IfOk result (λ m. m ≡ spec.summary_in_frame frame inner.now) }
{
    let mut touched = List::new(alloc);
    for t in inner.touched.as_slice() {
        touched.push(touched_in_frame(frame, *t))?;
    }
    Ok(Summary {
        others: others_in_frame(frame, inner.others),
        touched,
    })
}
