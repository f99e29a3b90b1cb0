ghost use Rattle.std.specs.Prelude.{◌≡◌, ◌++◌, IfOk, OnOk, length};
ghost use Rattle.std.specs.Int.{w8, w16, to_be_bytes};
ghost use Rattle.arc4_types.specs.Types.{width_of};
ghost use Rattle.arc4_types.specs.Values.{value_of};
ghost use Rattle.arc4_types.specs.Encoding.{number_coding};

use crate::abi_value::AbiValue;
use puya_base::{Blob, Memory};
use std::alloc::Global;

/// The encoding of a number of so many bits, where it fits.
pub(crate) fn coded_number(
    alloc: Global,
    bits: u16,
    value: &AbiValue,
) -> Result<Option<Blob>, Memory>
    ensures { IfOk result (λ r. r ≡ number_coding (width_of bits) (value_of value.now)) }
{
    let AbiValue::Number(n) = value else {
        return Ok(None);
    };
    let n = *n;
    match bits {
        8 if n < 0x100 => Ok(Some(Blob::from_slice(alloc, &(n as u8).to_be_bytes())?)),
        16 if n < 0x1_0000 => Ok(Some(Blob::from_slice(alloc, &(n as u16).to_be_bytes())?)),
        32 if n < 0x1_0000_0000 => Ok(Some(Blob::from_slice(alloc, &(n as u32).to_be_bytes())?)),
        8 | 16 | 32 => Ok(None),
        _ => Ok(Some(Blob::from_slice(alloc, &n.to_be_bytes())?)),
    }
}
