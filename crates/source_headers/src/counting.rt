//! Numbers of constants, functions and classes.

ghost use Rattle.std.specs.Prelude.{◌≡◌, ◌+◌, IfOk};

use puya_base::Memory;

/// The next number. More than 2^32 things of a kind are no memory.
pub(crate) fn next_number(number: u32) -> Result<u32, Memory>
    ensures { IfOk result (λ n. n ≡ number + 1) }
{
    number.checked_add(1).ok_or(Memory)
}
