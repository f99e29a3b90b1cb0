ghost use Rattle.std.specs.Prelude.{◌≡◌, ℕ, ◌+◌, length};
ghost use Rattle.avm_ops.specs.Rows.{shape_of, said, count_of};

use crate::instr::{Imm, Instr, Shape};
use crate::rows::Count;
use crate::table::row;

/// How many the immediate says: its byte, or how many items it lists.
fn said(imm: &Imm) -> u64
    ensures { result ≡ said imm.now }
{
    match imm {
        Imm::Byte(n) => u64::from(*n),
        Imm::Ints(numbers) => numbers.len() as u64,
        Imm::Blobs(texts) => texts.len() as u64,
        Imm::Jumps(jumps) => jumps.len() as u64,
        _ => 0,
    }
}

fn count(count: Count, imm: &Imm) -> u32
    ensures { result ≡ count_of count imm.now }
{
    let more = if count.counted { said(imm) } else { 0 };
    count
        .least
        .saturating_add(u32::try_from(more).unwrap_or(u32::MAX))
}

/// How many values the instruction takes or reads from the top, how many then stand in their place,
/// and its cost in units of the budget (AVM specification, "Opcodes"). Counts are as its immediates
/// say, and stop at `u32::MAX`; all three are 0 at an opcode outside the table.
pub fn shape(instr: &Instr) -> Shape
    ensures { result ≡ shape_of instr.now }
{
    match row(instr.op) {
        Some(row) => Shape {
            pops: count(row.pops, &instr.imm),
            pushes: count(row.pushes, &instr.imm),
            cost: row.cost,
        },
        None => Shape {
            pops: 0,
            pushes: 0,
            cost: 0,
        },
    }
}
