ghost use Rattle.std.specs.Prelude.{◌^◌, ◌≡◌, ℕ, ◌+◌, ◌*◌, ◌/◌, ◌%◌, ◌<◌, ◌≤◌, length, slice_index, slice_set, IfOk, [], ◌∷◌, option_map, Some};
ghost use Rattle.std.specs.List.{repeat, slice_range};
ghost use Rattle.avm_ops.specs.Numbers.{big_endian, bit_length, bit_of_bytes, bytes_with_bit, part_of, written_over};

use crate::arithmetic::{bit, bit_length, with_bit};
use puya_base::{Blob, Memory};
use std::alloc::Global;

/// The number that bytes write, the high byte first.
#[tactic(auto, using(crate::proofs::Digits::room_for_byte, crate::proofs::Digits::bytes_below, crate::proofs::ByteLoops::value_more))]
pub(crate) fn big_endian(bytes: &[u8]) -> u64
    requires { length bytes.now ≤ 8 }
    ensures { result ≡ big_endian bytes.now }
{
    let mut n: u64 = 0;
    for b in bytes {
        n = n * 256 + u64::from(*b);
    }
    n
}

/// How many binary digits the number has that bytes write, the high byte first.
pub(crate) fn bit_length_of(bytes: &[u8]) -> u64
    requires { length bytes.now < 2 ^ 60 }
    ensures { result ≡ bit_length (big_endian bytes.now) }
{
    for (i, b) in bytes.iter().enumerate() {
        if *b != 0 {
            return 8 * (bytes.len() - 1 - i) as u64 + bit_length(u64::from(*b));
        }
    }
    0
}

/// The bytes with one of them changed.
pub(crate) fn with_byte(alloc: Global, bytes: &[u8], at: usize, b: u8) -> Result<Blob, Memory>
    requires { at < length bytes.now }
    ensures { IfOk result (λ r. r ≡ slice_set bytes.now at b) }
{
    let mut changed = Vec::from_slice(alloc, bytes)?;
    changed[at] = b;
    Ok(Blob::from_vec(changed))
}

/// Bit `i` of bytes, of which bit 0 is the highest of the first byte.
pub(crate) fn bit_of_bytes(bytes: &[u8], i: usize) -> u64
    requires { i < 8 * length bytes.now }
    ensures { result ≡ bit_of_bytes bytes.now i }
{
    bit(u64::from(bytes[i / 8]), (7 - i % 8) as u32)
}

/// The bytes with that bit set to `digit`.
#[tactic(auto, using(crate::proofs::Roots::with_bit_in_byte))]
pub(crate) fn bytes_with_bit(
    alloc: Global,
    bytes: &[u8],
    i: usize,
    digit: u64,
) -> Result<Blob, Memory>
    requires inside { i < 8 * length bytes.now }
    requires digit { digit ≤ 1 }
    ensures { IfOk result (λ r. r ≡ bytes_with_bit bytes.now i digit) }
{
    let b = with_bit(u64::from(bytes[i / 8]), (7 - i % 8) as u32, digit);
    with_byte(alloc, bytes, i / 8, b as u8)
}

/// The bytes from one place up to another.
pub(crate) fn part(bytes: &[u8], start: u64, end: u64) -> Option<&[u8]>
    ensures { option_map (λ p. p.now) result ≡ part_of bytes.now start end }
{
    if start <= end && end <= bytes.len() as u64 {
        Some(&bytes[start as usize..end as usize])
    } else {
        None
    }
}

/// The bytes with others written over them.
pub(crate) fn written_over(
    alloc: Global,
    bytes: &[u8],
    at: usize,
    part: &[u8],
) -> Result<Blob, Memory>
    requires { at + length part.now ≤ length bytes.now }
    ensures { IfOk result (λ r. Some r ≡ written_over bytes.now at part.now) }
{
    let mut changed = Blob::from_slice(alloc, bytes)?;
    changed.replace(at, part);
    Ok(changed)
}

/// So many bytes 0.
#[tactic(auto, using(crate::proofs::ByteLoops::zeros_more))]
pub(crate) fn zeros(alloc: Global, count: u64) -> Result<Blob, Memory>
    ensures { IfOk result (λ r. r ≡ repeat count (0 ∷ [])) }
{
    let mut zeros = Blob::new(alloc);
    for index in 0..count {
        zeros.push(0)?;
    }
    Ok(zeros)
}
