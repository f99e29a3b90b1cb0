ghost use Rattle.std.specs.Prelude.{◌≡◌, [], ◌∷◌, IfOk};
ghost use Rattle.avm_run.specs.Scratch.{no_scratch, scratch_row};
ghost use Rattle.avm_run.specs.Answers.{Effects};

use crate::constants::one_value;
use avm_ops::{Imm, ScratchRow};
use puya_base::{List, Memory, StepFault, Value, Values};
use std::alloc::Global;

/// 256 scratch places, each with the number 0.
pub(crate) fn empty_scratch(alloc: Global) -> Result<Values, Memory>
    ensures { IfOk result (λ s. s ≡ no_scratch) }
{
    let mut scratch = List::new(alloc);
    for _i in 0..256u16 {
        scratch.push(Value::Int(0))?;
    }
    Ok(scratch)
}

#[tactic(auto, unfolding(crate::specs::Scratch::scratch_row))]
fn loaded(alloc: Global, scratch: &Values, index: u8) -> Result<Values, StepFault>
    ensures { Effects result scratch.now (scratch_row ScratchRow.Load (Imm.Byte index) scratch.now []) }
{
    match scratch.get(usize::from(index)) {
        Some(value) => Ok(one_value(alloc, value.copy(alloc)?)?),
        None => Err(StepFault::Fails),
    }
}

#[tactic(auto, unfolding(crate::specs::Scratch::scratch_row))]
fn stored(
    alloc: Global,
    scratch: &mut Values,
    index: u8,
    value: &Value,
) -> Result<Values, StepFault>
    ensures { Effects result scratch.new (scratch_row ScratchRow.Store (Imm.Byte index) scratch.old (value.now ∷ [])) }
{
    let at = usize::from(index);
    if scratch.len() <= at {
        return Err(StepFault::Fails);
    }
    scratch.set(at, value.copy(alloc)?);
    Ok(List::new(alloc))
}

/// Reads or sets a scratch place (AVM specification, "Scratch Space").
#[tactic(auto, unfolding(crate::specs::Scratch::scratch_row))]
pub(crate) fn use_scratch(
    alloc: Global,
    row: ScratchRow,
    imm: &Imm,
    scratch: &mut Values,
    operands: &[Value],
) -> Result<Values, StepFault>
    ensures { Effects result scratch.new (scratch_row row imm.now scratch.old operands.now) }
{
    match (row, imm, operands) {
        (ScratchRow::Load, Imm::Byte(index), []) => loaded(alloc, scratch, *index),
        (ScratchRow::Store, Imm::Byte(index), [value]) => stored(alloc, scratch, *index, value),
        _ => Err(StepFault::Fails),
    }
}
