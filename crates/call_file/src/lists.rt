ghost use Rattle.std.specs.Prelude.{◌≡◌, map, nat_le};
ghost use Rattle.serde_json.specs.View.{view};
ghost use Rattle.avm_state.specs.Steps.{total_length};
ghost use Rattle.call_file.specs.Faults.{Reads};
ghost use Rattle.call_file.specs.Forms.{bytes_within, each};

use crate::fault::FormFault;
use crate::values::read_bytes;
use puya_base::{Blob, Blobs, List};
use serde_json::Value;
use std::alloc::Global;

/// The bytes of each item, from `low` to `high` of them.
pub(crate) fn read_texts(
    alloc: Global,
    items: &[Value],
    low: usize,
    high: usize,
) -> Result<Blobs, FormFault>
    ensures { Reads (each (bytes_within low high) (map view items.now)) result }
{
    let mut list = List::new(alloc);
    for item in items {
        list.push(read_bytes(alloc, item, low, high)?)?;
    }
    Ok(list)
}

/// Whether the bytes of all of them together are at most so many.
pub(crate) fn total_within(list: &[Blob], most: usize) -> bool
    ensures { result ≡ nat_le (total_length list.now) most }
{
    let mut left = most;
    for bytes in list {
        if bytes.len() > left {
            return false;
        }
        left -= bytes.len();
    }
    true
}
