//! Byte strings.

ghost use Rattle.std.specs.Prelude.{◌≡◌, ◌≤◌, ◌+◌, IfSome, IfOk, length};
ghost use Rattle.teal_line.specs.Operands as spec;
ghost use Rattle.teal_line.specs.Counted.{IsCountedText};
ghost use Rattle.teal_line.specs.Reading.{Says, or_flaw, bytes as bytes_said};
ghost use Rattle.hex.specs.Hex.{hex_digit_value, decode_of};

use crate::numbers::hex_digit;
use crate::statement::Flaw;
use hex::FromHexError;
use puya_base::Blob;
use std::alloc::Global;

/// The byte that two hexadecimal digits write.
fn pair_value(high: u8, low: u8) -> Option<u8>
    ensures { result ≡ spec.pair_value (hex_digit_value high) (hex_digit_value low) }
{
    Some(hex_digit(high)? * 16 + hex_digit(low)?)
}

/// What stands for a byte behind a backslash, but for `x`.
fn escaped_byte(b: u8) -> Option<u8>
    ensures { result ≡ spec.escaped_byte b }
{
    match b {
        b'\\' | b'"' => Some(b),
        b'n' => Some(b'\n'),
        b'r' => Some(b'\r'),
        b't' => Some(b'\t'),
        _ => None,
    }
}

/// The byte of an escape behind its backslash, and how many bytes the whole escape takes.
fn escape_at(text: &[u8]) -> Option<(usize, u8)>
    ensures value { result ≡ spec.escape_at text.now }
    ensures within { IfSome result (λ p. (2 ≤ p.0) × (p.0 ≤ length text.now + 1)) }
{
    match text {
        [b'x', high, low, ..] => Some((4, pair_value(*high, *low)?)),
        [b, ..] => Some((2, escaped_byte(*b)?)),
        [] => None,
    }
}

/// The byte at the front of a quoted text's rest, and how many bytes it takes there.
fn byte_at(text: &[u8]) -> Option<(usize, u8)>
    ensures value { result ≡ spec.byte_at text.now }
    ensures within { IfSome result (λ p. (1 ≤ p.0) × (p.0 ≤ length text.now)) }
{
    match text {
        [b'\\', rest @ ..] => escape_at(rest),
        [b, ..] => Some((1, *b)),
        [] => None,
    }
}

/// The bytes of a quoted text from behind its opening quote, which ends with its closing one.
fn unquoted(alloc: Global, text: &[u8]) -> Result<Blob, Flaw>
    ensures { Says result (or_flaw Flaw.Bytes (spec.unquoted text.now)) }
{
    let mut bytes = Blob::new(alloc);
    let mut at = 0;
    while at < text.len() {
        if text[at] == b'"' {
            return if at + 1 == text.len() {
                Ok(bytes)
            } else {
                Err(Flaw::Bytes)
            };
        }
        match byte_at(&text[at..]) {
            Some((count, b)) => {
                bytes.push(b)?;
                at += count;
            }
            None => return Err(Flaw::Bytes),
        }
    }
    Err(Flaw::Bytes)
}

/// The bytes that an even number of hexadecimal digits write.
fn digits(alloc: Global, text: &[u8]) -> Result<Blob, Flaw>
    ensures { Says result (or_flaw Flaw.Bytes (spec.digits_said (decode_of text.now))) }
{
    match hex::decode(alloc, text) {
        Ok(bytes) => Ok(Blob::from_vec(bytes)),
        Err(FromHexError::OutOfMemory) => Err(Flaw::Memory),
        Err(_) => Err(Flaw::Bytes),
    }
}

/// The bytes of a word in either form.
#[tactic(auto, unfolding(crate::specs::Operands::bytes_said))]
fn in_form(alloc: Global, word: &[u8]) -> Result<Blob, Flaw>
    ensures { Says result (bytes_said word.now) }
{
    match word {
        [b'0', b'x', rest @ ..] => digits(alloc, rest),
        [b'"', rest @ ..] => unquoted(alloc, rest),
        _ => Err(Flaw::Bytes),
    }
}

/// The bytes that a word says: `0x` and an even number of hexadecimal digits, or a quoted text.
pub(crate) fn bytes(alloc: Global, word: &[u8]) -> Result<Blob, Flaw>
    ensures value { Says result (bytes_said word.now) }
    ensures counted { IfOk result IsCountedText }
{
    let bytes = in_form(alloc, word)?;
    let _count = bytes.len();
    Ok(bytes)
}
