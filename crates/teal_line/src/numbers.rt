//! Numbers.

ghost use Rattle.std.specs.Prelude.{◌≡◌, ◌+◌, ◌*◌, ◌^◌, ◌<◌, ◌≤◌, ◌⊎◌, IfSome};
ghost use Rattle.teal_line.specs.Operands as spec;
ghost use Rattle.teal_line.specs.Reading as reading;
ghost use Rattle.hex.specs.Hex.{hex_digit_value};

use crate::statement::Flaw;

/// The value of a hexadecimal digit.
pub(crate) fn hex_digit(b: u8) -> Option<u8>
    ensures value { result ≡ hex_digit_value b }
    ensures bound { IfSome result (λ d. d < 16) }
{
    match b {
        b'A'..=b'F' => Some(b - b'A' + 10),
        b'a'..=b'f' => Some(b - b'a' + 10),
        b'0'..=b'9' => Some(b - b'0'),
        _ => None,
    }
}

/// The value of a digit in base 16 or 10.
fn digit_in(base: u64, b: u8) -> Option<u64>
    ensures { result ≡ spec.digit_in base b }
{
    if base == 16 {
        Some(u64::from(hex_digit(b)?))
    } else if b.is_ascii_digit() {
        Some(u64::from(b - b'0'))
    } else {
        None
    }
}

/// The number with one more digit, where it stays below 2^64.
fn with_digit(value: u64, base: u64, digit: u64) -> Option<u64>
    ensures value { result ≡ spec.below (2 ^ 64) (Some (value * base + digit)) }
{
    value.checked_mul(base)?.checked_add(digit)
}

/// The number that digits write in base 16 or 10, below 2^64. No digits write 0.
fn value_of(base: u64, digits: &[u8]) -> Option<u64>
    requires { 0 < base }
    ensures { result ≡ spec.below (2 ^ 64) (spec.value_in base (spec.digit_in base) 0 digits.now) }
{
    let mut value = 0;
    for b in digits {
        let digit = digit_in(base, *b)?;
        let Some(more) = with_digit(value, base, digit) else {
            return None;
        };
        value = more;
    }
    Some(value)
}

/// A decimal number below 2^64 without a leading zero.
pub(crate) fn decimal(word: &[u8]) -> Option<u64>
    ensures { result ≡ spec.below (2 ^ 64) (spec.decimal_value word.now) }
{
    match word {
        [] | [b'0', _, ..] => None,
        _ => value_of(10, word),
    }
}

/// A number below 2^64: `0x` and hexadecimal digits, or a decimal number.
fn whole(word: &[u8]) -> Option<u64>
    ensures { result ≡ spec.number_said (2 ^ 64) word.now }
{
    match word {
        [b'0', b'x'] => None,
        [b'0', b'x', digits @ ..] => value_of(16, digits),
        _ => decimal(word),
    }
}

/// The same below another bound.
fn below(bound: u64, number: Option<u64>) -> Option<u8>
    requires { bound ≤ 256 }
    ensures { result ≡ spec.below bound number }
{
    let number = number?;
    if number < bound {
        Some(number as u8)
    } else {
        None
    }
}

/// A number below 2^64.
pub(crate) fn number(word: &[u8]) -> Result<u64, Flaw>
    ensures { result ≡ reading.number (2 ^ 64) word.now }
{
    whole(word).ok_or(Flaw::Number)
}

/// A number below 256.
pub(crate) fn byte(word: &[u8]) -> Result<u8, Flaw>
    ensures { result ≡ reading.number 256 word.now }
{
    below(256, whole(word)).ok_or(Flaw::Number)
}

/// A number of 8 bits in two's complement: a `-` may stand before a decimal number.
pub(crate) fn signed(word: &[u8]) -> Result<i8, Flaw>
    ensures { result ≡ reading.or_flaw Flaw.Number (spec.signed_said word.now) }
{
    match word {
        [b'-', digits @ ..] => {
            let number = below(129, decimal(digits)).ok_or(Flaw::Number)?;
            Ok((-i16::from(number)) as i8)
        }
        _ => {
            let number = below(128, whole(word)).ok_or(Flaw::Number)?;
            Ok(number as i8)
        }
    }
}
