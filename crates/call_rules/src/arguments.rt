//! Arguments of calls (Python reference, 6.3.4), each judged where it stands; P14 and P15 on these.

ghost use Rattle.std.specs.Prelude.{◌≡◌, ◌++◌, false, List, IfOk, OnOk};
ghost use Rattle.source_names.specs.declared.signature.Signature.{Signature};
ghost use Rattle.call_rules.specs.Callees as callees;
ghost use Rattle.call_rules.specs.Calls as spec;

use crate::callee::{Callee, Slot, hope_at, takes_literal};
use meaning_rules::{Hope, Lit, Meaning, Operand, Typed, as_operand, break_rule, literal};
use path_rules::Notes;
use puya_base::{List, Memory, Place};
use source_names::Signature;
use std::alloc::Global;

/// An argument that is known: the number of its parameter, and what it is.
#[derive(Drop)]
pub enum Known {
    Value(usize, Typed),
    /// A literal at its own place.
    Literal(usize, Place, Lit),
}

/// Notes the rule that an argument breaks by where it stands.
pub fn tell_slot(into: &mut Notes, slot: Slot) -> Result<(), Memory>
    ensures { OnOk result (into.new ≡ into.old ++ spec.slot_notes slot) }
{
    match slot {
        Slot::Wrong(rule, place) => break_rule(into, rule, place),
        Slot::At(_) => Ok(()),
        Slot::Beyond => Ok(()),
    }
}

fn slot_number(slot: Slot) -> usize
    ensures { result ≡ spec.slot_number slot }
{
    match slot {
        Slot::At(number) => number,
        _ => 0,
    }
}

fn slot_takes(callee: Callee, slot: Slot) -> bool
    ensures { (fs : List Signature) → result ≡ spec.slot_takes (callees.meant fs callee) slot }
{
    match slot {
        Slot::Wrong(_, _) => false,
        Slot::At(number) => takes_literal(callee, number),
        Slot::Beyond => true,
    }
}

fn stays_literal(_functions: &List<Signature>, callee: Callee, slot: Slot) -> bool
    ensures { result ≡ spec.slot_takes (callees.meant _functions.now callee) slot }
{
    slot_takes(callee, slot)
}

/// What is hoped of an argument.
pub fn slot_hope(
    alloc: Global,
    functions: &List<Signature>,
    callee: Callee,
    slot: Slot,
) -> Result<Hope, Memory>
    ensures { IfOk result (λ h. h ≡ spec.slot_hope (callees.meant functions.now callee) slot) }
{
    match slot {
        Slot::Wrong(_, _) => Ok(Hope::Unknown),
        Slot::At(number) => hope_at(alloc, functions, callee, number),
        Slot::Beyond => Ok(Hope::Free),
    }
}

fn known_value(number: usize, typed: Option<Typed>) -> Option<Known>
    ensures { result ≡ spec.known_value number typed }
{
    match typed {
        Some(typed) => Some(Known::Value(number, typed)),
        None => None,
    }
}

fn hoped_literal(
    into: &mut Notes,
    hope: &Hope,
    number: usize,
    at: Place,
    lit: Lit,
) -> Result<Option<Known>, Memory>
    ensures told { OnOk result (into.new ≡ into.old ++ (spec.given_literal false hope.now number at lit).notes) }
    ensures known { IfOk result (λ k. k ≡ (spec.given_literal false hope.now number at lit).known) }
{
    let typed = literal(into, hope, at, lit)?;
    Ok(known_value(number, typed))
}

fn given_literal(
    alloc: Global,
    into: &mut Notes,
    functions: &List<Signature>,
    callee: Callee,
    slot: Slot,
    at: Place,
    lit: Lit,
) -> Result<Option<Known>, Memory>
    ensures told { let c = callees.meant functions.now callee in OnOk result (into.new ≡ into.old ++ (spec.given_literal (spec.slot_takes c slot) (spec.slot_hope c slot) (spec.slot_number slot) at lit).notes) }
    ensures known { let c = callees.meant functions.now callee in IfOk result (λ k. k ≡ (spec.given_literal (spec.slot_takes c slot) (spec.slot_hope c slot) (spec.slot_number slot) at lit).known) }
{
    if stays_literal(functions, callee, slot) {
        Ok(Some(Known::Literal(slot_number(slot), at, lit)))
    } else {
        let hope = slot_hope(alloc, functions, callee, slot)?;
        hoped_literal(into, &hope, slot_number(slot), at, lit)
    }
}

fn given_operand(
    alloc: Global,
    into: &mut Notes,
    functions: &List<Signature>,
    callee: Callee,
    slot: Slot,
    operand: Operand,
) -> Result<Option<Known>, Memory>
    ensures told { OnOk result (into.new ≡ into.old ++ (spec.given_operand (callees.meant functions.now callee) slot operand).notes) }
    ensures known { IfOk result (λ k. k ≡ (spec.given_operand (callees.meant functions.now callee) slot operand).known) }
{
    match operand {
        Operand::Value(typed) => Ok(Some(Known::Value(slot_number(slot), typed))),
        Operand::Literal(at, lit) => given_literal(alloc, into, functions, callee, slot, at, lit),
        Operand::Missing => Ok(None),
    }
}

fn only_right(slot: Slot, known: Option<Known>) -> Option<Known>
    ensures { result ≡ spec.only_right slot known }
{
    match slot {
        Slot::Wrong(_, _) => None,
        _ => known,
    }
}

/// An argument at `place` that is for `slot`, from its meaning: what is known of it.
pub fn given(
    alloc: Global,
    into: &mut Notes,
    functions: &List<Signature>,
    callee: Callee,
    slot: Slot,
    place: Place,
    meaning: Meaning,
) -> Result<Option<Known>, Memory>
    ensures told { OnOk result (into.new ≡ into.old ++ (callees.given_meaning (callees.meant functions.now callee) slot place meaning).notes) }
    ensures known { IfOk result (λ k. k ≡ (callees.given_meaning (callees.meant functions.now callee) slot place meaning).known) }
{
    let operand = as_operand(into, place, meaning)?;
    let known = given_operand(alloc, into, functions, callee, slot, operand)?;
    Ok(only_right(slot, known))
}
