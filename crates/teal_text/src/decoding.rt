ghost use Rattle.std.specs.Prelude.{◌≡◌, ◌<◌, ◌≤◌, length, Ok, IfOk};
ghost use Rattle.avm_ops.specs.Code.{decoded_at, HasForm};

use avm_ops::{Instr, decode_at};
use puya_base::Memory;
use std::alloc::Global;

/// The instruction at a place of a well-formed program where one starts, and the place behind it. So
/// the only fault is want of memory.
pub(crate) fn instruction_at(
    alloc: Global,
    code: &[u8],
    pc: usize,
) -> Result<(Instr, usize), Memory>
    requires { pc ≤ length code.now }
    ensures value { IfOk result (λ r. decoded_at code.now pc ≡ Ok r) }
    ensures within { IfOk result (λ r. (pc < r.1) × (r.1 ≤ length code.now)) }
    ensures form { IfOk result (λ r. HasForm r.0) }
{
    match decode_at(alloc, code, pc) {
        Ok(placed) => Ok(placed),
        Err(_) => Err(Memory),
    }
}
