//! Numbers.

ghost use Rattle.std.specs.Prelude.{◌≡◌, ◌≤◌, ◌<◌, ◌^◌, ◌+◌, ◌*◌, length, drop, Some, None, IfSome};
ghost use Rattle.py_lexer.specs.Numbers as spec;

/// The value of a digit of at most sixteen, or none.
pub fn digit_value(b: u8) -> Option<u8>
    ensures value { result ≡ spec.digit_value b }
    ensures bound { IfSome result (λ d. d < 16) }
{
    match b {
        b'0'..=b'9' => Some(b - b'0'),
        b'a'..=b'f' => Some(b - b'a' + 10),
        b'A'..=b'F' => Some(b - b'A' + 10),
        _ => None,
    }
}

/// The value of a digit of the base, or none.
fn digit_in(base: u64, b: u8) -> Option<u64>
    ensures { result ≡ spec.digit_in base b }
{
    let digit = u64::from(digit_value(b)?);
    if digit < base { Some(digit) } else { None }
}

/// The number with one more digit, where it stays below 2^64.
fn with_digit(value: u64, base: u64, digit: u64) -> Option<u64>
    ensures value { result ≡ spec.fitting (value * base + digit) }
    ensures bound { IfSome result (λ n. n < 2 ^ 64) }
{
    value.checked_mul(base)?.checked_add(digit)
}

/// Whether a byte is a `_` right behind a digit.
fn joins(b: u8, after_digit: bool) -> bool
    ensures { result ≡ spec.joins b after_digit }
{
    b == b'_' && after_digit
}

/// Digits of the base, with single `_` between them.
fn digits(base: u64, text: &[u8]) -> Option<u64>
    requires { 0 < base }
    ensures { result ≡ spec.digits base text.now }
{
    let mut value = 0;
    let mut after_digit = false;
    for b in text {
        if joins(*b, after_digit) {
            after_digit = false;
        } else {
            let digit = digit_in(base, *b)?;
            let Some(more) = with_digit(value, base, digit) else {
                return None;
            };
            value = more;
            after_digit = true;
        }
    }
    if after_digit { Some(value) } else { None }
}

/// Digits of the base behind a prefix, which a `_` may follow.
fn prefixed(base: u64, text: &[u8]) -> Option<u64>
    requires { 0 < base }
    ensures { result ≡ spec.prefixed base text.now }
{
    match text {
        [b'_', rest @ ..] => digits(base, rest),
        _ => digits(base, text),
    }
}

/// A decimal number without a leading zero, or zeros alone.
fn decimal(text: &[u8]) -> Option<u64>
    ensures { result ≡ spec.decimal text.now }
{
    let value = digits(10, text)?;
    match text {
        [b'0', ..] if value != 0 => None,
        _ => Some(value),
    }
}

/// The base that the letter of a prefix names, or 0.
fn base_of(letter: u8) -> u64
    ensures { result ≡ spec.base_of letter }
{
    match letter {
        b'x' | b'X' => 16,
        b'o' | b'O' => 8,
        b'b' | b'B' => 2,
        _ => 0,
    }
}

/// The value of a number's text, from 0 to 2^64-1, or none where the text has another form or a greater value
/// (Python reference, 2.4.5).
pub fn number_value(text: &[u8]) -> Option<u64>
    ensures { result ≡ spec.number_value text.now }
{
    match text {
        [b'0', letter, rest @ ..] if base_of(*letter) != 0 => prefixed(base_of(*letter), rest),
        _ => decimal(text),
    }
}

/// Whether a number's text has no prefix that names a base.
pub fn is_decimal(text: &[u8]) -> bool
    ensures { result ≡ spec.is_decimal text.now }
{
    text.len() < 2 || text[1].is_ascii_digit() || text[1] == b'_'
}
