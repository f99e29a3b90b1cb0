ghost use Rattle.std.specs.Prelude.{◌≡◌, ◌+◌, ◌<◌, ◌≤◌, if◌then◌else◌, length, map, option_map};
ghost use Rattle.arc4_types.specs.Values.{value_of};
ghost use Rattle.arc4_types.specs.Encoding.{flag_in, flags_of, packed};

use crate::abi_value::AbiValue;

/// The bool that a value is.
fn flag_in(value: &AbiValue) -> Option<bool>
    ensures { result ≡ flag_in (value_of value.now) }
{
    match value {
        AbiValue::Flag(flag) => Some(*flag),
        _ => None,
    }
}

/// The byte with a bit set where the flag is.
fn with_bit(byte: u8, weight: u8, flag: bool) -> u8
    requires { byte + weight < 256 }
    ensures { result ≡ byte + (if flag then weight else 0) }
{
    if flag { byte + weight } else { byte }
}

/// The byte of up to eight bools, the first in the highest bit. None where a value is no bool.
#[tactic(auto, using(crate::proofs::Packing::packed_more, crate::proofs::Packing::packed_not, crate::proofs::Packing::packed_all))]
pub(crate) fn packed(values: &[AbiValue]) -> Option<u8>
    requires { length values.now ≤ 8 }
    ensures { result ≡ option_map packed (flags_of (length values.now) (map value_of values.now)) }
{
    let mut byte = 0;
    let mut weight = 128;
    for value in values {
        let flag = flag_in(value)?;
        byte = with_bit(byte, weight, flag);
        weight /= 2;
    }
    Some(byte)
}
