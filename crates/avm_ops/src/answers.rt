ghost use Rattle.std.specs.Prelude.{◌≡◌, ℕ, ◌≤◌, length, Some, None, [], ◌∷◌};
ghost use Rattle.puya_base.specs.declared.value.Value.TheVariants.{Int, Bytes};
ghost use Rattle.avm_ops.specs.Rows.{Applies, number, bytes};

use puya_base::{Blob, List, StepFault, Value, Values};
use std::alloc::Global;

/// The operands or the results of a row, the deepest first.
pub type Operands = Values;

pub(crate) fn one(alloc: Global, value: Value) -> Result<Operands, StepFault>
    ensures { Applies result (Some (value ∷ [])) }
{
    let mut results = List::new(alloc);
    results.push(value)?;
    Ok(results)
}

pub(crate) fn two(alloc: Global, first: u64, second: u64) -> Result<Operands, StepFault>
    ensures { Applies result (Some (Int first ∷ Int second ∷ [])) }
{
    let mut results = one(alloc, Value::Int(first))?;
    results.push(Value::Int(second))?;
    Ok(results)
}

pub(crate) fn number(alloc: Global, n: Option<u64>) -> Result<Operands, StepFault>
    ensures { Applies result (number n) }
{
    match n {
        Some(n) => one(alloc, Value::Int(n)),
        None => Err(StepFault::Fails),
    }
}

/// Bytes, unless there are more than a stack value has.
pub(crate) fn text(alloc: Global, text: Blob) -> Result<Operands, StepFault>
    ensures { Applies result (bytes (Some text)) }
{
    if text.len() <= 4096 {
        one(alloc, Value::Bytes(text))
    } else {
        Err(StepFault::Fails)
    }
}

pub(crate) fn text_of(alloc: Global, text_bytes: &[u8]) -> Result<Operands, StepFault>
    ensures { Applies result (bytes (Some text_bytes.now)) }
{
    text(alloc, Blob::from_slice(alloc, text_bytes)?)
}
