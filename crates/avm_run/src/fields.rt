ghost use Rattle.std.specs.Prelude.{◌≡◌, if◌then◌else◌, replicate, IfOk};
ghost use Rattle.avm_run.specs.Fields.{array_field, field, global_field, transaction_field};
ghost use Rattle.avm_run.specs.Answers.{Gives};

use avm_ops::{FieldRow, Imm};
use avm_state::Call;
use puya_base::{Blob, Memory, StepFault, Value};
use std::alloc::Global;

/// An address of 32 zero bytes.
fn zero_address(alloc: Global) -> Result<Value, Memory>
    ensures { IfOk result (λ v. v ≡ Value.Bytes (replicate 32 0)) }
{
    Ok(Value::Bytes(Blob::from_vec(vec![in alloc; 0; 32]?)))
}

fn bytes_copy(alloc: Global, bytes: &Blob) -> Result<Value, Memory>
    ensures { IfOk result (λ v. v ≡ Value.Bytes bytes.now) }
{
    Ok(Value::Bytes(bytes.copy(alloc)?))
}

fn application_id(call: &Call) -> u64
    ensures { result ≡ (if call.now.creating then 0 else call.now.application) }
{
    if call.creating { 0 } else { call.application }
}

fn of_transaction(alloc: Global, call: &Call, number: u8) -> Result<Value, StepFault>
    ensures { Gives result (transaction_field call.now number) }
{
    match number {
        0 => Ok(bytes_copy(alloc, &call.sender)?),
        1 => Ok(Value::Int(call.fee)),
        5 => Ok(bytes_copy(alloc, &call.note)?),
        24 => Ok(Value::Int(application_id(call))),
        25 => Ok(Value::Int(u64::from(call.on_completion))),
        27 => Ok(Value::Int(call.args.len() as u64)),
        _ => Err(StepFault::Fails),
    }
}

fn of_globals(alloc: Global, call: &Call, number: u8) -> Result<Value, StepFault>
    ensures { Gives result (global_field call.now number) }
{
    match number {
        3 => Ok(zero_address(alloc)?),
        6 => Ok(Value::Int(call.round)),
        7 => Ok(Value::Int(call.timestamp)),
        8 => Ok(Value::Int(call.application)),
        9 => Ok(bytes_copy(alloc, &call.creator)?),
        _ => Err(StepFault::Fails),
    }
}

fn of_arguments(alloc: Global, call: &Call, number: u8, index: u64) -> Result<Value, StepFault>
    ensures { Gives result (array_field call.now number index) }
{
    if number != 26 {
        return Err(StepFault::Fails);
    }
    match call.args.get(index as usize) {
        Some(bytes) => Ok(bytes_copy(alloc, bytes)?),
        None => Err(StepFault::Fails),
    }
}

/// The field that a row pushes (AVM specification, "Transaction Fields" and "Global Fields").
#[tactic(auto, unfolding(crate::specs::Fields::field))]
pub(crate) fn field_value(
    alloc: Global,
    row: FieldRow,
    imm: &Imm,
    call: &Call,
    operands: &[Value],
) -> Result<Value, StepFault>
    ensures { Gives result (field row imm.now call.now operands.now) }
{
    match (row, imm, operands) {
        (FieldRow::Txn, Imm::Byte(number), []) => of_transaction(alloc, call, *number),
        (FieldRow::Global, Imm::Byte(number), []) => of_globals(alloc, call, *number),
        (FieldRow::Txna, Imm::Two(number, index), []) => of_arguments(
            alloc,
            call,
            *number,
            u64::from(*index),
        ),
        (FieldRow::Txnas, Imm::Byte(number), [Value::Int(index)]) => of_arguments(
            alloc, call, *number, *index,
        ),
        _ => Err(StepFault::Fails),
    }
}
