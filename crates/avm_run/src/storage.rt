//! Rows that read and change the ledger (AVM specification, "State Access" and "Box Access").
ghost use Rattle.std.specs.Prelude.{◌≡◌, [], ◌∷◌, List, Some, IfOk};
ghost use Rattle.puya_base.specs.declared.value.Value.TheVariants.{Int, Bytes};
ghost use Rattle.avm_run.specs.Storage.{and_flag, as_flag, bytes_and_flag, content_row, global_row, is_current, length_and_flag, local_row, log_row, or_zero, place_row, storage_row};
ghost use Rattle.avm_run.specs.Answers.{Effects};

use crate::constants::one_value;
use avm_ops::StateRow;
use avm_state::{Call, Ledger};
use puya_base::{Blob, List, Memory, StepFault, Value, Values};
use std::alloc::Global;

fn two_values(alloc: Global, deeper: Value, upper: Value) -> Result<Values, Memory>
    ensures { IfOk result (λ vs. vs ≡ deeper ∷ upper ∷ []) }
{
    let mut values = List::new(alloc);
    values.push(deeper)?;
    values.push(upper)?;
    Ok(values)
}

fn flag(alloc: Global, holds: bool) -> Result<Values, Memory>
    ensures { IfOk result (λ vs. vs ≡ as_flag holds) }
{
    one_value(alloc, Value::Int(u64::from(holds)))
}

fn value_or_zero(alloc: Global, value: Option<Value>) -> Result<Values, Memory>
    ensures { IfOk result (λ vs. vs ≡ or_zero value) }
{
    match value {
        Some(value) => one_value(alloc, value),
        None => one_value(alloc, Value::Int(0)),
    }
}

fn value_and_flag(alloc: Global, value: Option<Value>) -> Result<Values, Memory>
    ensures { IfOk result (λ vs. vs ≡ and_flag value) }
{
    match value {
        Some(value) => two_values(alloc, value, Value::Int(1)),
        None => two_values(alloc, Value::Int(0), Value::Int(0)),
    }
}

fn blob_and_flag(alloc: Global, bytes: Option<Blob>) -> Result<Values, Memory>
    ensures { IfOk result (λ vs. vs ≡ bytes_and_flag bytes) }
{
    match bytes {
        Some(bytes) => two_values(alloc, Value::Bytes(bytes), Value::Int(1)),
        None => two_values(alloc, Value::Bytes(Blob::new(alloc)), Value::Int(0)),
    }
}

fn number_and_flag(alloc: Global, number: Option<u64>) -> Result<Values, Memory>
    ensures { IfOk result (λ vs. vs ≡ length_and_flag number) }
{
    match number {
        Some(number) => two_values(alloc, Value::Int(number), Value::Int(1)),
        None => two_values(alloc, Value::Int(0), Value::Int(0)),
    }
}

fn names_current(call: &Call, application: u64) -> bool
    ensures { result ≡ is_current call.now application }
{
    application == 0 || application == call.application
}

#[tactic(auto, unfolding(crate::specs::Storage::local_row))]
fn local_get_ex(
    alloc: Global,
    call: &Call,
    ledger: &Ledger,
    who: &Value,
    application: u64,
    key: &[u8],
) -> Result<Values, StepFault>
    ensures { Effects result ledger.now (local_row StateRow.LocalGetEx call.now ledger.now (who.now ∷ Int application ∷ Bytes key.now ∷ [])) }
{
    if !names_current(call, application) {
        return Err(StepFault::Fails);
    }
    let value = ledger.local_get(alloc, call, who, key)?;
    Ok(value_and_flag(alloc, value)?)
}

#[tactic(auto, unfolding(crate::specs::Storage::global_row))]
fn global_get_ex(
    alloc: Global,
    call: &Call,
    ledger: &Ledger,
    application: u64,
    key: &[u8],
) -> Result<Values, StepFault>
    ensures { Effects result ledger.now (global_row StateRow.GlobalGetEx call.now ledger.now (Int application ∷ Bytes key.now ∷ [])) }
{
    if !names_current(call, application) {
        return Err(StepFault::Fails);
    }
    let value = ledger.global_get(alloc, key)?;
    Ok(value_and_flag(alloc, value)?)
}

#[tactic(auto, unfolding(crate::specs::Storage::local_row))]
fn local_state(
    alloc: Global,
    row: StateRow,
    call: &Call,
    ledger: &mut Ledger,
    operands: &[Value],
) -> Result<Values, StepFault>
    ensures { Effects result ledger.new (local_row row call.now ledger.old operands.now) }
{
    match (row, operands) {
        (StateRow::LocalGet, [who, Value::Bytes(key)]) => {
            let value = ledger.local_get(alloc, call, who, key.as_slice())?;
            Ok(value_or_zero(alloc, value)?)
        }
        (StateRow::LocalGetEx, [who, Value::Int(application), Value::Bytes(key)]) => local_get_ex(
            alloc,
            call,
            ledger,
            who,
            *application,
            key.as_slice(),
        ),
        (StateRow::LocalPut, [who, Value::Bytes(key), value]) => {
            ledger.local_put(call, who, key.as_slice(), value)?;
            Ok(List::new(alloc))
        }
        (StateRow::LocalDel, [who, Value::Bytes(key)]) => {
            ledger.local_del(call, who, key.as_slice())?;
            Ok(List::new(alloc))
        }
        _ => Err(StepFault::Fails),
    }
}

#[tactic(auto, unfolding(crate::specs::Storage::global_row))]
fn global_state(
    alloc: Global,
    row: StateRow,
    call: &Call,
    ledger: &mut Ledger,
    operands: &[Value],
) -> Result<Values, StepFault>
    ensures { Effects result ledger.new (global_row row call.now ledger.old operands.now) }
{
    match (row, operands) {
        (StateRow::GlobalGet, [Value::Bytes(key)]) => {
            let value = ledger.global_get(alloc, key.as_slice())?;
            Ok(value_or_zero(alloc, value)?)
        }
        (StateRow::GlobalGetEx, [Value::Int(application), Value::Bytes(key)]) => global_get_ex(
            alloc,
            call,
            ledger,
            *application,
            key.as_slice(),
        ),
        (StateRow::GlobalPut, [Value::Bytes(key), value]) => {
            ledger.global_put(key.as_slice(), value)?;
            Ok(List::new(alloc))
        }
        (StateRow::GlobalDel, [Value::Bytes(key)]) => {
            ledger.global_del(key.as_slice());
            Ok(List::new(alloc))
        }
        _ => Err(StepFault::Fails),
    }
}

/// Rows that make, remove or measure a box.
#[tactic(auto, unfolding(crate::specs::Storage::place_row))]
fn box_places(
    alloc: Global,
    row: StateRow,
    call: &Call,
    ledger: &mut Ledger,
    operands: &[Value],
) -> Result<Values, StepFault>
    ensures { Effects result ledger.new (place_row row call.now ledger.old operands.now) }
{
    match (row, operands) {
        (StateRow::BoxCreate, [Value::Bytes(name), Value::Int(size)]) => {
            let made = ledger.box_create(call, name.as_slice(), *size)?;
            Ok(flag(alloc, made)?)
        }
        (StateRow::BoxDel, [Value::Bytes(name)]) => {
            let was_there = ledger.box_del(call, name.as_slice())?;
            Ok(flag(alloc, was_there)?)
        }
        (StateRow::BoxLen, [Value::Bytes(name)]) => {
            let length = ledger.box_len(call, name.as_slice())?;
            Ok(number_and_flag(alloc, length)?)
        }
        _ => Err(StepFault::Fails),
    }
}

/// Rows that read or write the bytes of a box.
#[tactic(auto, unfolding(crate::specs::Storage::content_row))]
fn box_contents(
    alloc: Global,
    row: StateRow,
    call: &Call,
    ledger: &mut Ledger,
    operands: &[Value],
) -> Result<Values, StepFault>
    ensures { Effects result ledger.new (content_row row call.now ledger.old operands.now) }
{
    match (row, operands) {
        (StateRow::BoxExtract, [Value::Bytes(name), Value::Int(start), Value::Int(size)]) => {
            let part = ledger.box_extract(alloc, call, name.as_slice(), *start, *size)?;
            Ok(one_value(alloc, Value::Bytes(part))?)
        }
        (StateRow::BoxReplace, [Value::Bytes(name), Value::Int(start), Value::Bytes(part)]) => {
            ledger.box_replace(call, name.as_slice(), *start, part.as_slice())?;
            Ok(List::new(alloc))
        }
        (StateRow::BoxGet, [Value::Bytes(name)]) => {
            let bytes = ledger.box_get(alloc, call, name.as_slice())?;
            Ok(blob_and_flag(alloc, bytes)?)
        }
        (StateRow::BoxPut, [Value::Bytes(name), Value::Bytes(value)]) => {
            ledger.box_put(call, name.as_slice(), value.as_slice())?;
            Ok(List::new(alloc))
        }
        _ => Err(StepFault::Fails),
    }
}

#[tactic(auto, unfolding(crate::specs::Storage::log_row))]
fn log_bytes(alloc: Global, ledger: &mut Ledger, operands: &[Value]) -> Result<Values, StepFault>
    ensures { Effects result ledger.new (log_row ledger.old operands.now) }
{
    match operands {
        [Value::Bytes(bytes)] => {
            ledger.add_log(bytes.as_slice())?;
            Ok(List::new(alloc))
        }
        _ => Err(StepFault::Fails),
    }
}

/// Does a row's step on the ledger, from its operands, the deepest first.
#[tactic(auto, unfolding(crate::specs::Storage::storage_row))]
pub(crate) fn use_storage(
    alloc: Global,
    row: StateRow,
    call: &Call,
    ledger: &mut Ledger,
    operands: &[Value],
) -> Result<Values, StepFault>
    ensures { Effects result ledger.new (storage_row row call.now ledger.old operands.now) }
{
    match row {
        StateRow::LocalGet => local_state(alloc, row, call, ledger, operands),
        StateRow::LocalGetEx => local_state(alloc, row, call, ledger, operands),
        StateRow::LocalPut => local_state(alloc, row, call, ledger, operands),
        StateRow::LocalDel => local_state(alloc, row, call, ledger, operands),
        StateRow::GlobalGet => global_state(alloc, row, call, ledger, operands),
        StateRow::GlobalGetEx => global_state(alloc, row, call, ledger, operands),
        StateRow::GlobalPut => global_state(alloc, row, call, ledger, operands),
        StateRow::GlobalDel => global_state(alloc, row, call, ledger, operands),
        StateRow::BoxCreate => box_places(alloc, row, call, ledger, operands),
        StateRow::BoxDel => box_places(alloc, row, call, ledger, operands),
        StateRow::BoxLen => box_places(alloc, row, call, ledger, operands),
        StateRow::BoxExtract => box_contents(alloc, row, call, ledger, operands),
        StateRow::BoxReplace => box_contents(alloc, row, call, ledger, operands),
        StateRow::BoxGet => box_contents(alloc, row, call, ledger, operands),
        StateRow::BoxPut => box_contents(alloc, row, call, ledger, operands),
        StateRow::Log => log_bytes(alloc, ledger, operands),
    }
}
