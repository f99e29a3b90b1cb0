ghost use Rattle.std.specs.Prelude.{◌≡◌, map, option_map};
ghost use Rattle.serde_json.specs.View.{view};
ghost use Rattle.call_file.specs.Faults.{Reads};
ghost use Rattle.call_file.specs.Forms.{kept, hex_bytes, bytes_within, items_within, pair, triple, stored, within_bytes};

use crate::fault::FormFault;
use hex::FromHexError;
use puya_base::{Blob, Value as Stored};
use serde_json::Value;
use std::alloc::Global;

/// The most bytes of a stored value.
const MOST_STORED: usize = 128;

/// The bytes of a text of hexadecimal digits.
fn read_hex(alloc: Global, text: &str) -> Result<Blob, FormFault>
    ensures { Reads (hex_bytes text.now) result }
{
    match hex::decode(alloc, text) {
        Ok(bytes) => Ok(Blob::from_vec(bytes)),
        Err(FromHexError::OutOfMemory) => Err(FormFault::Memory),
        Err(_) => Err(FormFault::Bad),
    }
}

/// The same of a text of from `low` to `high` bytes; no other text is decoded.
fn read_text(alloc: Global, text: &str, low: usize, high: usize) -> Result<Blob, FormFault>
    ensures { Reads (kept (within_bytes low high) (hex_bytes text.now)) result }
{
    let size = text.len() / 2;
    if low <= size && size <= high {
        read_hex(alloc, text)
    } else {
        Err(FormFault::Bad)
    }
}

/// From `low` to `high` bytes.
pub(crate) fn read_bytes(
    alloc: Global,
    value: &Value,
    low: usize,
    high: usize,
) -> Result<Blob, FormFault>
    ensures { Reads (bytes_within low high (view value.now)) result }
{
    match value.as_str() {
        Some(text) => read_text(alloc, text, low, high),
        None => Err(FormFault::Bad),
    }
}

/// A stored value: a number, or at most 128 bytes.
pub(crate) fn read_stored(alloc: Global, value: &Value) -> Result<Stored, FormFault>
    ensures { Reads (stored (view value.now)) result }
{
    match value.as_u64() {
        Some(n) => Ok(Stored::Int(n)),
        None => {
            let bytes = read_bytes(alloc, value, 0, MOST_STORED)?;
            Ok(Stored::Bytes(bytes))
        }
    }
}

/// The items of a list of at most so many.
pub(crate) fn items(value: &Value, most: usize) -> Option<&[Value]>
    ensures { option_map (λ s. map view s.now) result ≡ items_within most (view value.now) }
{
    match value.as_array() {
        Some(list) => {
            if list.len() <= most {
                Some(list.as_slice())
            } else {
                None
            }
        }
        None => None,
    }
}

/// The items of a list of exactly two.
pub(crate) fn pair_of(value: &Value) -> Option<(&Value, &Value)>
    ensures { option_map (λ p. (view p.0.now, view p.1.now)) result ≡ pair (view value.now) }
{
    let list = value.as_array()?;
    if list.len() != 2 {
        return None;
    }
    Some((&list[0], &list[1]))
}

/// The items of a list of exactly three.
pub(crate) fn triple_of(value: &Value) -> Option<(&Value, &Value, &Value)>
    ensures { option_map (λ t. (view t.0.now, (view t.1.now, view t.2.now))) result ≡ triple (view value.now) }
{
    let list = value.as_array()?;
    if list.len() != 3 {
        return None;
    }
    Some((&list[0], &list[1], &list[2]))
}
