ghost use Rattle.serde_json.specs.View.{view};
ghost use Rattle.avm_state.specs.Forms.{IsCallInForm, IsStarting};
ghost use Rattle.call_file.specs.Faults.{field, Answers};
ghost use Rattle.call_file.specs.Loads.{loaded, globals, opted, locals, boxes};
ghost use Rattle.call_file.specs.Saved.{contract_of, ledger_of, fields_of, saved_of};
ghost use Rattle.std.specs.Prelude.{codes, IfOk};

use crate::entries::{Boxes, Globals, Locals, Opted};
use crate::fault::CallFault;
use crate::field::field;
use crate::forms::Text;
use crate::load::Load;
use crate::parts::read_parts;
use crate::saved::Saved;
use avm_state::Ledger;
use puya_base::Name;
use serde_json::Value;
use std::alloc::Global;

fn read_contract(alloc: Global, object: &Value, named: bool) -> Result<Option<Name>, CallFault>
    ensures { Answers (contract_of named (view object.now)) result }
{
    if !named {
        return Ok(None);
    }
    let contract = field(alloc, object, "contract", Text)?;
    Ok(Some(contract))
}

fn load_globals(alloc: Global, object: &Value, ledger: Ledger) -> Result<Ledger, CallFault>
    ensures { Answers (field (codes "global") (loaded 64 globals ledger) (view object.now)) result }
{
    field(
        alloc,
        object,
        "global",
        Load {
            part: Globals,
            most: 64,
            ledger,
        },
    )
}

fn load_opted(alloc: Global, object: &Value, ledger: Ledger) -> Result<Ledger, CallFault>
    ensures { Answers (field (codes "opted") (loaded 16 opted ledger) (view object.now)) result }
{
    field(
        alloc,
        object,
        "opted",
        Load {
            part: Opted,
            most: 16,
            ledger,
        },
    )
}

fn load_locals(alloc: Global, object: &Value, ledger: Ledger) -> Result<Ledger, CallFault>
    ensures { Answers (field (codes "local") (loaded 256 locals ledger) (view object.now)) result }
{
    field(
        alloc,
        object,
        "local",
        Load {
            part: Locals,
            most: 256,
            ledger,
        },
    )
}

fn load_boxes(alloc: Global, object: &Value, ledger: Ledger) -> Result<Ledger, CallFault>
    ensures { Answers (field (codes "box") (loaded 64 boxes ledger) (view object.now)) result }
{
    field(
        alloc,
        object,
        "box",
        Load {
            part: Boxes,
            most: 64,
            ledger,
        },
    )
}

/// The ledger of the file, or its first fault.
fn read_ledger(alloc: Global, object: &Value) -> Result<Ledger, CallFault>
    ensures { Answers (ledger_of (view object.now)) result }
{
    let ledger = load_globals(alloc, object, Ledger::empty(alloc))?;
    let ledger = load_opted(alloc, object, ledger)?;
    let ledger = load_locals(alloc, object, ledger)?;
    load_boxes(alloc, object, ledger)
}

/// What the fields of the file say, or their first fault.
fn read_fields(alloc: Global, object: &Value, named: bool) -> Result<Saved, CallFault>
    ensures { Answers (fields_of named (view object.now)) result }
{
    let contract = read_contract(alloc, object, named)?;
    let call = read_parts(alloc, object)?;
    let ledger = read_ledger(alloc, object)?;
    Ok(Saved {
        contract,
        call,
        ledger,
    })
}

/// Reads a call file: one JSON object (RFC 8259), whose unknown fields are not looked at. The field `contract` is read
/// only where `named` is true. The error is the first fault, in the order of the fields.
#[tactic(auto, unfolding(crate::specs::Saved::saved_of))]
pub fn read_call(alloc: Global, text: &[u8], named: bool) -> Result<Saved, CallFault>
    ensures value { Answers (saved_of named text.now) result }
    ensures in_form { IfOk result (λ saved. IsCallInForm saved.call) }
    ensures starting { IfOk result (λ saved. IsStarting saved.ledger) }
{
    match Value::from_slice(alloc, text) {
        Ok(value) => {
            if value.is_object() {
                read_fields(alloc, &value, named)
            } else {
                Err(CallFault::Json)
            }
        }
        Err(e) => {
            if e.is_memory() {
                Err(CallFault::Memory)
            } else {
                Err(CallFault::Json)
            }
        }
    }
}
