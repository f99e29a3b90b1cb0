ghost use Rattle.std.specs.Prelude.{◌≡◌, ◌-◌, ◌+◌, ◌≤◌, nat_le, if◌then◌else◌, length, OnOk};
ghost use Rattle.arc4_types.specs.Values.{truth};
ghost use Rattle.arc4_types.specs.Reading.{Gives, told, unpacked};
ghost use Rattle.arc4_types.specs.Views.{all_told, flags_behind, told_of};

use crate::abi_fault::AbiFault;
use crate::abi_value::AbiValue;
use crate::entry::Entry;

#[tactic(auto, using(crate::proofs::Equations::value_flag))]
fn flag_entry(flag: bool) -> Entry
    ensures { told_of result ≡ told (truth flag) }
{
    Entry::Told(AbiValue::Flag(flag))
}

/// The byte without a bit, where that is set.
fn without_bit(byte: u8, weight: u8, flag: bool) -> u8
    requires { flag ≡ nat_le weight byte }
    ensures { result ≡ (if flag then byte - weight else byte) }
{
    if flag { byte - weight } else { byte }
}

/// Adds the bools of a byte, of which it has so many, the first in the highest bit.
#[tactic(auto, using(crate::proofs::Unpacking::flag_more, crate::proofs::Unpacking::flags_done, crate::proofs::Unpacking::flags_left))]
pub(crate) fn push_flags(entries: &mut Vec<Entry>, count: usize, byte: u8) -> Result<(), AbiFault>
    requires { count ≤ 8 }
    ensures told { Gives (λ _. all_told entries.new.items) result (flags_behind (all_told entries.old.items) (unpacked 128 count byte)) }
    ensures count { OnOk result (length entries.new.items ≡ length entries.old.items + count) }
{
    let mut weight: u8 = 128;
    let mut left = byte;
    for i in 0..count {
        let flag = weight <= left;
        entries.push(flag_entry(flag))?;
        left = without_bit(left, weight, flag);
        weight /= 2;
    }
    if left != 0 {
        return Err(AbiFault::Bit);
    }
    Ok(())
}
