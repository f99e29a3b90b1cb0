ghost use Rattle.std.specs.Prelude.{◌≡◌, ◌∷◌, [], length, map, nat_le, Some, IfOk};
ghost use Rattle.std.specs.List.{list_all};
ghost use Rattle.puya_base.specs.declared.value.Value.TheVariants.{Int};
ghost use Rattle.avm_run.specs.Operands.{bytes_value, max_bytes};
ghost use Rattle.avm_run.specs.Constants.{bytes_at, bytes_values, constant_row, int_at, leaving};
ghost use Rattle.avm_run.specs.Answers.{Effects, Gives};

use crate::blocks::Blocks;
use avm_ops::{ConstantRow, Imm, Ints};
use puya_base::{Blob, Blobs, List, Memory, StepFault, Value, Values};
use std::alloc::Global;

/// The most bytes of a value on the stack.
const MAX_BYTES: usize = 4096;

/// One value as the results of a row.
pub(crate) fn one_value(alloc: Global, value: Value) -> Result<Values, Memory>
    ensures { IfOk result (λ vs. vs ≡ value ∷ []) }
{
    let mut values = List::new(alloc);
    values.push(value)?;
    Ok(values)
}

fn pushed_bytes(alloc: Global, bytes: &Blob) -> Result<Values, StepFault>
    ensures { Gives result (bytes_value bytes.now) }
{
    if bytes.len() > MAX_BYTES {
        return Err(StepFault::Fails);
    }
    Ok(one_value(alloc, Value::Bytes(bytes.copy(alloc)?))?)
}

fn pushed_ints(alloc: Global, numbers: &Ints) -> Result<Values, StepFault>
    ensures { Gives result (Some (map Int numbers.now)) }
{
    let mut values = Vec::new(alloc);
    for number in numbers.as_slice() {
        values.push(Value::Int(*number))?;
    }
    Ok(List::from_vec(values))
}

fn are_short(texts: &Blobs) -> bool
    ensures { result ≡ list_all (λ b. nat_le (length b) max_bytes) texts.now }
{
    texts.as_slice().iter().all(|text| text.len() <= MAX_BYTES)
}

fn copies(alloc: Global, texts: &Blobs) -> Result<Blobs, Memory>
    ensures { IfOk result (λ bs. bs ≡ texts.now) }
{
    let mut copied = Vec::new(alloc);
    for text in texts.as_slice() {
        copied.push(text.copy(alloc)?)?;
    }
    Ok(List::from_vec(copied))
}

fn pushed_texts(alloc: Global, texts: &Blobs) -> Result<Values, StepFault>
    ensures { Gives result (bytes_values texts.now) }
{
    if !are_short(texts) {
        return Err(StepFault::Fails);
    }
    let mut values = Vec::new(alloc);
    for text in texts.as_slice() {
        values.push(Value::Bytes(text.copy(alloc)?))?;
    }
    Ok(List::from_vec(values))
}

fn int_of(alloc: Global, blocks: &Blocks, index: u8) -> Result<Values, StepFault>
    ensures { Gives result (int_at blocks.now index) }
{
    match blocks.ints.get(usize::from(index)) {
        Some(number) => Ok(one_value(alloc, Value::Int(*number))?),
        None => Err(StepFault::Fails),
    }
}

fn bytes_of(alloc: Global, blocks: &Blocks, index: u8) -> Result<Values, StepFault>
    ensures { Gives result (bytes_at blocks.now index) }
{
    match blocks.blobs.get(usize::from(index)) {
        Some(bytes) => pushed_bytes(alloc, bytes),
        None => Err(StepFault::Fails),
    }
}

fn set_ints(alloc: Global, blocks: &mut Blocks, numbers: &Ints) -> Result<Values, StepFault>
    ensures { Effects result blocks.new (Some (record blocks.old { ints = numbers.now }, [])) }
{
    blocks.ints = List::from_slice(alloc, numbers.as_slice())?;
    Ok(List::new(alloc))
}

fn set_blobs(alloc: Global, blocks: &mut Blocks, texts: &Blobs) -> Result<Values, StepFault>
    ensures { Effects result blocks.new (Some (record blocks.old { blobs = texts.now }, [])) }
{
    blocks.blobs = copies(alloc, texts)?;
    Ok(List::new(alloc))
}

/// Sets a constant block or pushes constants (AVM specification, "Loading Values").
#[tactic(auto, unfolding(crate::specs::Constants::constant_row))]
pub(crate) fn constants(
    alloc: Global,
    row: ConstantRow,
    imm: &Imm,
    blocks: &mut Blocks,
) -> Result<Values, StepFault>
    ensures { Effects result blocks.new (constant_row row imm.now blocks.old) }
{
    match (row, imm) {
        (ConstantRow::PushInt, Imm::Int(number)) => Ok(one_value(alloc, Value::Int(*number))?),
        (ConstantRow::PushBytes, Imm::Bytes(bytes)) => pushed_bytes(alloc, bytes),
        (ConstantRow::PushInts, Imm::Ints(numbers)) => pushed_ints(alloc, numbers),
        (ConstantRow::PushBytess, Imm::Blobs(texts)) => pushed_texts(alloc, texts),
        (ConstantRow::IntBlock, Imm::Ints(numbers)) => set_ints(alloc, blocks, numbers),
        (ConstantRow::BytesBlock, Imm::Blobs(texts)) => set_blobs(alloc, blocks, texts),
        (ConstantRow::Int, Imm::Byte(index)) => int_of(alloc, blocks, *index),
        (ConstantRow::Bytes, Imm::Byte(index)) => bytes_of(alloc, blocks, *index),
        (ConstantRow::IntAt(index), Imm::Nothing) => int_of(alloc, blocks, index),
        (ConstantRow::BytesAt(index), Imm::Nothing) => bytes_of(alloc, blocks, index),
        _ => Err(StepFault::Fails),
    }
}
