ghost use Rattle.std.specs.Prelude.{◌≡◌, ◌++◌, codes, OnOk};
ghost use Rattle.std.specs.Fmt.{decimal};
ghost use Rattle.hex.specs.Hex.{encode_lower};
ghost use Rattle.outcome_text.specs.Text.{value_word, cost_line, stop_line, log_line};

use puya_base::{Blob, Memory, Value};
use std::alloc::Global;

/// Appends bytes as hexadecimal digits.
pub(crate) fn push_hex(alloc: Global, out: &mut Blob, bytes: &[u8]) -> Result<(), Memory>
    ensures { OnOk result (out.new ≡ out.old ++ encode_lower bytes.now) }
{
    let text = hex::encode(alloc, bytes)?;
    out.extend(text.as_bytes())
}

/// Appends a number in decimal.
pub(crate) fn push_decimal(alloc: Global, out: &mut Blob, n: u64) -> Result<(), Memory>
    ensures { OnOk result (out.new ≡ out.old ++ decimal n) }
{
    let text = n.to_string(alloc)?;
    out.extend(text.as_bytes())
}

/// Appends a value.
#[tactic(auto, unfolding(crate::specs::Text::value_word))]
pub(crate) fn push_value(alloc: Global, out: &mut Blob, value: &Value) -> Result<(), Memory>
    ensures { OnOk result (out.new ≡ out.old ++ value_word value.now) }
{
    match value {
        Value::Int(n) => push_decimal(alloc, out, *n),
        Value::Bytes(bytes) => {
            out.extend(b"0x")?;
            push_hex(alloc, out, bytes.as_slice())
        }
    }
}

/// Appends a log.
#[tactic(auto, unfolding(crate::specs::Text::log_line))]
pub(crate) fn push_log(alloc: Global, out: &mut Blob, bytes: &[u8]) -> Result<(), Memory>
    ensures { OnOk result (out.new ≡ out.old ++ log_line bytes.now) }
{
    out.extend(b"log ")?;
    push_hex(alloc, out, bytes)?;
    out.extend(b"\n")
}

/// Appends what the run cost.
#[tactic(auto, unfolding(crate::specs::Text::cost_line))]
pub(crate) fn push_cost(alloc: Global, out: &mut Blob, spent: u64) -> Result<(), Memory>
    ensures { OnOk result (out.new ≡ out.old ++ cost_line spent) }
{
    out.extend(b"cost ")?;
    push_decimal(alloc, out, spent)?;
    out.extend(b"\n")
}

/// Appends how and where the run stopped.
#[tactic(auto, unfolding(crate::specs::Text::stop_line))]
pub(crate) fn push_stop(alloc: Global, out: &mut Blob, how: &[u8], pc: usize) -> Result<(), Memory>
    ensures { OnOk result (out.new ≡ out.old ++ stop_line how.now pc) }
{
    out.extend(how)?;
    out.extend(b" at ")?;
    push_decimal(alloc, out, pc as u64)?;
    out.extend(b"\n")
}
