ghost use Rattle.std.specs.Prelude.{◌≡◌, ℕ, ◌+◌, ◌*◌, ◌^◌, ◌<◌, ◌≤◌};
ghost use Rattle.std.specs.Int.{bit_at};
ghost use Rattle.avm_ops.specs.Numbers.{arithmetic, comparison, truth, unary, wide, bit_length, with_bit};

use crate::rows::{Arithmetic, Comparison, Unary};

/// A power, where it is below 2^64 and not 0 to the 0.
#[tactic(auto, using(crate::proofs::Roots::power_small, crate::proofs::Roots::power_large))]
fn power(base: u64, exponent: u64) -> Option<u64>
    ensures { result ≡ arithmetic Arithmetic.Power base exponent }
{
    if base == 0 && exponent == 0 {
        return None;
    }
    if base < 2 {
        return Some(base);
    }
    if exponent < 64 {
        base.checked_pow(exponent as u32)
    } else {
        None
    }
}

fn shift_left(a: u64, places: u64) -> Option<u64>
    ensures { result ≡ arithmetic Arithmetic.ShiftLeft a places }
{
    if places < 64 {
        a.checked_shl(places as u32)
    } else {
        None
    }
}

fn shift_right(a: u64, places: u64) -> Option<u64>
    ensures { result ≡ arithmetic Arithmetic.ShiftRight a places }
{
    if places < 64 {
        a.checked_shr(places as u32)
    } else {
        None
    }
}

pub(crate) fn arithmetic(row: Arithmetic, a: u64, b: u64) -> Option<u64>
    ensures { result ≡ arithmetic row a b }
{
    match row {
        Arithmetic::Add => a.checked_add(b),
        Arithmetic::Subtract => a.checked_sub(b),
        Arithmetic::Multiply => a.checked_mul(b),
        Arithmetic::Divide => a.checked_div(b),
        Arithmetic::Modulo => a.checked_rem(b),
        Arithmetic::Power => power(a, b),
        Arithmetic::ShiftLeft => shift_left(a, b),
        Arithmetic::ShiftRight => shift_right(a, b),
        Arithmetic::BitOr => Some(a | b),
        Arithmetic::BitAnd => Some(a & b),
        Arithmetic::BitXor => Some(a ^ b),
    }
}

pub(crate) fn comparison(row: Comparison, a: u64, b: u64) -> bool
    ensures { result ≡ comparison row a b }
{
    match row {
        Comparison::Less => a < b,
        Comparison::Greater => a > b,
        Comparison::LessOrEqual => a <= b,
        Comparison::GreaterOrEqual => a >= b,
        Comparison::Both => a > 0 && b > 0,
        Comparison::Either => a > 0 || b > 0,
    }
}

/// 1 for true and 0 for false.
pub(crate) fn truth(test: bool) -> u64
    ensures { result ≡ truth test }
{
    if test { 1 } else { 0 }
}

#[tactic(auto, using(crate::proofs::Roots::square_root_is))]
fn square_root(n: u64) -> u64
    ensures { result ≡ unary Unary.SquareRoot n }
{
    n.isqrt()
}

pub(crate) fn unary(row: Unary, a: u64) -> u64
    ensures { result ≡ unary row a }
{
    match row {
        Unary::Not => truth(a == 0),
        Unary::BitNot => u64::MAX - a,
        Unary::SquareRoot => square_root(a),
    }
}

/// The number of two words.
pub(crate) fn wide(high: u64, low: u64) -> u128
    ensures { result ≡ wide high low }
{
    u128::from(high) * 0x1_0000_0000_0000_0000 + u128::from(low)
}

/// How many binary digits a number has.
#[tactic(auto, using(crate::proofs::Roots::bit_length_is, crate::proofs::Roots::bit_length_none))]
pub(crate) fn bit_length(n: u64) -> u64
    ensures value { result ≡ bit_length n }
    ensures small { result ≤ 64 }
{
    if n == 0 { 0 } else { u64::from(n.ilog2()) + 1 }
}

/// Bit `place` of a number, bit 0 being the lowest.
pub(crate) fn bit(n: u64, place: u32) -> u64
    requires { place < 64 }
    ensures { result ≡ bit_at n place }
{
    (n >> place) % 2
}

/// What bit `place` counts.
fn worth(place: u32) -> u64
    requires { place < 64 }
    ensures { result ≡ 2 ^ place }
{
    1 << place
}

/// The number with that bit set to `digit`.
#[tactic(auto, using(crate::proofs::Roots::with_bit_in_word))]
pub(crate) fn with_bit(n: u64, place: u32, digit: u64) -> u64
    requires inside { place < 64 }
    requires digit { digit ≤ 1 }
    ensures { result ≡ with_bit n place digit }
{
    let worth = worth(place);
    n - bit(n, place) * worth + digit * worth
}
