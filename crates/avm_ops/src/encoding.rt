ghost use Rattle.std.specs.Prelude.{◌≡◌, ℕ, ◌++◌, ◌<◌, length, OnOk, OnErr};
ghost use Rattle.std.specs.List.{flat_map};
ghost use Rattle.avm_ops.specs.Code.{HasForm, instr_bytes};
ghost use Rattle.avm_ops.specs.Immediate.{imm_bytes, sized_bytes, jump_bytes, IsShort};
ghost use Rattle.avm_ops.specs.Varint.{number_bytes};

use crate::instr::{Imm, Instr};
use crate::varint::push_number;
use puya_base::{Blob, Memory};
use std::alloc::Global;

fn push_sized(out: &mut Blob, text: &Blob) -> Result<(), Memory>
    ensures { OnOk result (out.new ≡ out.old ++ sized_bytes text.now) }
{
    push_number(out, text.len() as u64)?;
    out.extend(text.as_slice())
}

fn push_jump(out: &mut Blob, jump: i16) -> Result<(), Memory>
    ensures { OnOk result (out.new ≡ out.old ++ jump_bytes jump) }
{
    out.extend(&jump.to_be_bytes())
}

fn push_numbers(out: &mut Blob, numbers: &[u64]) -> Result<(), Memory>
    ensures { OnOk result (out.new ≡ out.old ++ imm_bytes (Imm.Ints numbers.now)) }
{
    push_number(out, numbers.len() as u64)?;
    for n in numbers {
        push_number(out, *n)?;
    }
    Ok(())
}

fn push_texts(out: &mut Blob, texts: &[Blob]) -> Result<(), Memory>
    ensures { OnOk result (out.new ≡ out.old ++ imm_bytes (Imm.Blobs texts.now)) }
{
    push_number(out, texts.len() as u64)?;
    for text in texts {
        push_sized(out, text)?;
    }
    Ok(())
}

fn push_jumps(out: &mut Blob, jumps: &[i16]) -> Result<(), Memory>
    requires { length jumps.now < 256 }
    ensures { OnOk result (out.new ≡ out.old ++ imm_bytes (Imm.Jumps jumps.now)) }
{
    out.push(jumps.len() as u8)?;
    for jump in jumps {
        push_jump(out, *jump)?;
    }
    Ok(())
}

fn push_two(out: &mut Blob, first: u8, second: u8) -> Result<(), Memory>
    ensures { OnOk result (out.new ≡ out.old ++ imm_bytes (Imm.Two first second)) }
{
    out.push(first)?;
    out.push(second)
}

fn push_imm(out: &mut Blob, imm: &Imm) -> Result<(), Memory>
    requires { IsShort imm.now }
    ensures { OnOk result (out.new ≡ out.old ++ imm_bytes imm.now) }
{
    match imm {
        Imm::Nothing => Ok(()),
        Imm::Byte(b) => out.push(*b),
        Imm::Two(first, second) => push_two(out, *first, *second),
        Imm::Signed(i) => out.push(i.cast_unsigned()),
        Imm::Int(n) => push_number(out, *n),
        Imm::Ints(numbers) => push_numbers(out, numbers.as_slice()),
        Imm::Bytes(text) => push_sized(out, text),
        Imm::Blobs(texts) => push_texts(out, texts.as_slice()),
        Imm::Jump(jump) => push_jump(out, *jump),
        Imm::Jumps(jumps) => push_jumps(out, jumps.as_slice()),
    }
}

/// Appends the instruction's bytes (AVM specification, "Encoding").
///
/// # Errors
///
/// Only for want of memory, and `into` is then as it was.
pub fn encode(alloc: Global, instr: &Instr, into: &mut Blob) -> Result<(), Memory>
    requires { HasForm instr.now }
    ensures ok { OnOk result (into.new ≡ into.old ++ instr_bytes instr.now) }
    ensures err { OnErr result (into.new ≡ into.old) }
{
    let mut bytes = Blob::new(alloc);
    bytes.push(instr.op)?;
    push_imm(&mut bytes, &instr.imm)?;
    into.extend(bytes.as_slice())
}
