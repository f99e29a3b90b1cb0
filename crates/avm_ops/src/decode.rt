ghost use Rattle.std.specs.Prelude.{◌≡◌, ℕ, ◌+◌, List, Ok, ◌++◌, ◌≤◌, ◌<◌, length, IfOk};
ghost use Rattle.avm_ops.specs.Code.{decoded_at, placed, Reads, HasForm};
ghost use Rattle.avm_ops.specs.Immediate.{imm_in};

use crate::imm_fault::ImmFault;
use crate::immediate::immediate;
use crate::instr::{DecodeFault, Instr};
use crate::table::row;
use std::alloc::Global;

fn read_at(alloc: Global, code: &[u8], pc: usize) -> Result<(Instr, usize), DecodeFault>
    requires { pc ≤ length code.now }
    ensures value { Reads result (decoded_at code.now pc) }
    ensures within { IfOk result (λ r. (pc < r.1) × (r.1 ≤ length code.now)) }
{
    let [op, rest @ ..] = &code[pc..] else {
        return Err(DecodeFault::Cut(pc));
    };
    let Some(row) = row(*op) else {
        return Err(DecodeFault::Outside(pc, *op));
    };
    match immediate(alloc, row.format, rest) {
        Ok((imm, used)) => Ok((Instr { op: *op, imm }, pc + 1 + used)),
        Err(ImmFault::Cut) => Err(DecodeFault::Cut(pc)),
        Err(ImmFault::Outside(field)) => Err(DecodeFault::Outside(pc, field)),
        Err(ImmFault::Overlong) => Err(DecodeFault::Overlong(pc)),
        Err(ImmFault::Memory) => Err(DecodeFault::Memory),
    }
}

/// The instruction at a place of the code, and the place after it (AVM specification, "Encoding").
///
/// # Errors
///
/// The first fault in the order of reading: `Cut` where the code ends too early, `Outside` with a byte
/// that is no opcode or no field of its row, `Overlong` at a number of 2^64 or more or not in its
/// shortest form. Or `Memory`.
pub fn decode_at(alloc: Global, code: &[u8], pc: usize) -> Result<(Instr, usize), DecodeFault>
    requires { pc ≤ length code.now }
    ensures value { Reads result (decoded_at code.now pc) }
    ensures within { IfOk result (λ r. (pc < r.1) × (r.1 ≤ length code.now)) }
    ensures form { IfOk result (λ r. HasForm r.0) }
{
    read_at(alloc, code, pc)
}
