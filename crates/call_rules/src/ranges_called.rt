//! Calls of `urange` (Algorand Python guide, "Control flow"), from two or three arguments or one; P14 and P15.

ghost use Rattle.std.specs.Prelude.{◌≡◌, [], ◌∷◌, ◌++◌, Some, IfOk, OnOk};
ghost use Rattle.call_rules.specs.Calls as spec;
ghost use Rattle.call_rules.specs.Ranges as ranges;

use crate::arguments::Known;
use algopy_library::Scalar;
use meaning_rules::{
    Lit, Meaning, Range, Typed, break_rule, breaks, expr_in, fits_type, literal_as,
};
use path_rules::Notes;
use puya_base::{Memory, Place, Rule};
use source_names::SourceType;

/// A bound of `urange`: a number; P14 on anything else.
fn bound(into: &mut Notes, known: Known) -> Result<Option<Typed>, Memory>
    ensures told { OnOk result (into.new ≡ into.old ++ (spec.bound known).notes) }
    ensures typed { IfOk result (λ t. t ≡ (spec.bound known).typed) }
{
    let number = SourceType::Scalar(Scalar::UInt64);
    match known {
        Known::Value(_, typed) => fits_type(into, &number, typed),
        Known::Literal(_, at, lit) => literal_as(into, &number, at, lit),
    }
}

fn no_step(into: &mut Notes, place: Place) -> Result<Option<u64>, Memory>
    ensures told { OnOk result (into.new ≡ into.old ++ (spec.no_step place).notes) }
    ensures step { IfOk result (λ s. s ≡ (spec.no_step place).step) }
{
    break_rule(into, Rule::P15, place)?;
    Ok(None)
}

fn step_number(into: &mut Notes, place: Place, number: u64) -> Result<Option<u64>, Memory>
    ensures told { OnOk result (into.new ≡ into.old ++ (spec.step_number place number).notes) }
    ensures step { IfOk result (λ s. s ≡ (spec.step_number place number).step) }
{
    match number {
        0 => no_step(into, place),
        _ => Ok(Some(number)),
    }
}

fn step_literal(into: &mut Notes, place: Place, lit: Lit) -> Result<Option<u64>, Memory>
    ensures told { OnOk result (into.new ≡ into.old ++ (spec.step_literal place lit).notes) }
    ensures step { IfOk result (λ s. s ≡ (spec.step_literal place lit).step) }
{
    match lit {
        Lit::Number(number) => step_number(into, place, number),
        _ => no_step(into, place),
    }
}

/// P15 on a step of `urange` that is no literal from 1.
fn step_of(into: &mut Notes, known: Known) -> Result<Option<u64>, Memory>
    ensures told { OnOk result (into.new ≡ into.old ++ (spec.step_of known).notes) }
    ensures step { IfOk result (λ s. s ≡ (spec.step_of known).step) }
{
    match known {
        Known::Value(_, typed) => no_step(into, typed.expr.place),
        Known::Literal(_, at, lit) => step_literal(into, at, lit),
    }
}

fn range_by(start: Typed, stop: Typed, step: u64) -> Meaning
    ensures { result ≡ spec.range_from (Some start) (Some stop) (Some step) }
{
    Meaning::Range(Range {
        start: Some(expr_in(start)),
        stop: expr_in(stop),
        step,
    })
}

fn range_up_to(start: Typed, stop: Typed, step: Option<u64>) -> Meaning
    ensures { result ≡ spec.range_from (Some start) (Some stop) step }
{
    match step {
        Some(step) => range_by(start, stop, step),
        None => Meaning::Unknown,
    }
}

fn range_behind(start: Typed, stop: Option<Typed>, step: Option<u64>) -> Meaning
    ensures { result ≡ spec.range_from (Some start) stop step }
{
    match stop {
        Some(stop) => range_up_to(start, stop, step),
        None => Meaning::Unknown,
    }
}

fn range_from(start: Option<Typed>, stop: Option<Typed>, step: Option<u64>) -> Meaning
    ensures { result ≡ spec.range_from start stop step }
{
    match start {
        Some(start) => range_behind(start, stop, step),
        None => Meaning::Unknown,
    }
}

fn range_to(stop: Option<Typed>) -> Meaning
    ensures { result ≡ spec.range_to stop }
{
    match stop {
        Some(stop) => Meaning::Range(Range {
            start: None,
            stop: expr_in(stop),
            step: 1,
        }),
        None => Meaning::Unknown,
    }
}

fn range_of_one(into: &mut Notes, stop: Known) -> Result<Meaning, Memory>
    ensures told { OnOk result (into.new ≡ into.old ++ (spec.bound stop).notes) }
    ensures meaning { IfOk result (λ m. m ≡ spec.range_to (spec.bound stop).typed) }
{
    let stop = bound(into, stop)?;
    Ok(range_to(stop))
}

fn range_of_two(into: &mut Notes, start: Known, stop: Known) -> Result<Meaning, Memory>
    ensures told { OnOk result (into.new ≡ into.old ++ (spec.range_parts (spec.bound start) (spec.bound stop) spec.step_one).notes) }
    ensures meaning { IfOk result (λ m. m ≡ (spec.range_parts (spec.bound start) (spec.bound stop) spec.step_one).meaning) }
{
    let start = bound(into, start)?;
    let stop = bound(into, stop)?;
    Ok(range_from(start, stop, Some(1)))
}

fn range_of_three(
    into: &mut Notes,
    start: Known,
    stop: Known,
    step: Known,
) -> Result<Meaning, Memory>
    ensures told { OnOk result (into.new ≡ into.old ++ (spec.range_parts (spec.bound start) (spec.bound stop) (spec.step_of step)).notes) }
    ensures meaning { IfOk result (λ m. m ≡ (spec.range_parts (spec.bound start) (spec.bound stop) (spec.step_of step)).meaning) }
{
    let start = bound(into, start)?;
    let stop = bound(into, stop)?;
    let step = step_of(into, step)?;
    Ok(range_from(start, stop, step))
}

/// The arguments of a call of `urange`.
#[derive(Drop)]
enum Ranged {
    One(Known),
    Two(Known, Known),
    Three(Known, Known, Known),
    /// None, or more than three.
    Other,
}

#[tactic(auto, using(crate::proofs::RangeLaws::numbers))]
fn two_or_three(mut front: Vec<Known>, second: Known, third: Known) -> Ranged
    ensures { result ≡ ranges.ranged (front.items ++ second ∷ third ∷ []) }
{
    let Some(first) = front.pop() else {
        return Ranged::Two(second, third);
    };
    if front.is_empty() {
        Ranged::Three(first, second, third)
    } else {
        Ranged::Other
    }
}

#[tactic(auto, using(crate::proofs::RangeLaws::numbers))]
fn one_or_more(mut front: Vec<Known>, last: Known) -> Ranged
    ensures { result ≡ ranges.ranged (front.items ++ last ∷ []) }
{
    match front.pop() {
        Some(second) => two_or_three(front, second, last),
        None => Ranged::One(last),
    }
}

#[tactic(auto, using(crate::proofs::RangeLaws::numbers))]
fn by_count(mut known: Vec<Known>) -> Ranged
    ensures { result ≡ ranges.ranged known.items }
{
    match known.pop() {
        Some(last) => one_or_more(known, last),
        None => Ranged::Other,
    }
}

#[tactic(auto, using(crate::proofs::RangeLaws::call_range_ranged))]
/// A call of `urange`: its end, its start and its end, or its start, its end and its step; P15 on another number of arguments.
pub(crate) fn call_range(
    into: &mut Notes,
    place: Place,
    known: Vec<Known>,
) -> Result<Meaning, Memory>
    ensures told { OnOk result (into.new ≡ into.old ++ (spec.call_range place known.items).notes) }
    ensures meaning { IfOk result (λ m. m ≡ (spec.call_range place known.items).meaning) }
{
    match by_count(known) {
        Ranged::One(stop) => range_of_one(into, stop),
        Ranged::Two(start, stop) => range_of_two(into, start, stop),
        Ranged::Three(start, stop, step) => range_of_three(into, start, stop, step),
        Ranged::Other => breaks(into, Rule::P15, place),
    }
}
