//! A call, from what is called and what is known of its arguments (Python reference, 6.3.4).

ghost use Rattle.std.specs.Prelude.{◌≡◌, ◌++◌, IfOk, OnOk, option_copied};
ghost use Rattle.call_rules.specs.Callees as callees;
ghost use Rattle.call_rules.specs.Callings as callings;
ghost use Rattle.call_rules.specs.Calls as spec;

use crate::arguments::Known;
use crate::callee::Callee;
use crate::calling::{call_form, call_function, call_log};
use crate::hexadecimal::call_hex;
use crate::ranges_called::call_range;
use crate::types_called::call_type;
use meaning_rules::{Meaning, breaks};
use path_rules::Notes;
use puya_base::{List, Memory, Place, Rule};
use source_names::Signature;
use std::alloc::Global;

fn call_when(
    alloc: Global,
    into: &mut Notes,
    place: Place,
    number: u32,
    function: Option<&Signature>,
    known: Vec<Known>,
) -> Result<Meaning, Memory>
    ensures told { OnOk result (into.new ≡ into.old ++ (callings.call_when place number (option_copied function.entry) known.items).notes) }
    ensures meaning { IfOk result (λ m. m ≡ (callings.call_when place number (option_copied function.entry) known.items).meaning) }
{
    match function {
        Some(signature) => call_function(alloc, into, place, number, signature, known),
        None => Ok(Meaning::Unknown),
    }
}

/// A call at `place`: P14 on what can't be called, P15 on another number of arguments, P14 on an argument of another type.
#[tactic(auto, using(crate::proofs::ApplyLaws::applied_same))]
pub fn applied(
    alloc: Global,
    into: &mut Notes,
    functions: &List<Signature>,
    place: Place,
    callee: Callee,
    known: Vec<Known>,
) -> Result<Meaning, Memory>
    ensures told { OnOk result (into.new ≡ into.old ++ (spec.applied place (callees.meant functions.now callee) known.items).notes) }
    ensures meaning { IfOk result (λ m. m ≡ (spec.applied place (callees.meant functions.now callee) known.items).meaning) }
{
    match callee {
        Callee::Function(number) => call_when(
            alloc,
            into,
            place,
            number,
            functions.get(number as usize),
            known,
        ),
        Callee::Form(form) => call_form(alloc, into, place, &form, known),
        Callee::Type(scalar) => call_type(alloc, into, place, scalar, known),
        Callee::FromHex => call_hex(alloc, into, place, known.as_slice()),
        Callee::Logs => call_log(alloc, into, place, known),
        Callee::Ranges => call_range(into, place, known),
        Callee::Nothing => breaks(into, Rule::P14, place),
        Callee::Unknown => Ok(Meaning::Unknown),
    }
}
