ghost use Rattle.std.specs.Prelude.{◌≡◌, ℕ, ◌≤◌, length, Ok, IfOk};
ghost use Rattle.avm_ops.specs.Immediate.{byte_in, bytes_in, sized_in, jump_in, field_in, imm_in, each_in, then_read, read_as, ReadsImm, is_field};
ghost use Rattle.avm_ops.specs.Varint.{number_at};

use crate::imm_fault::ImmFault;
use crate::instr::Imm;
use crate::rows::{Fields, Format};
use crate::varint::number;
use puya_base::{Blob, List};
use std::alloc::Global;

/// What stands in a list of immediates.
trait Item: Drop + Sized {
    ghost use Rattle.std.specs.Prelude.{List, ℕ};
    ghost use Rattle.avm_ops.specs.Immediate.{Read};

    // How one is read.
    ghost reading: { List ℕ → Read Self };

    /// The one at the front of the code, and how many bytes it takes.
    fn read(alloc: Global, code: &[u8]) -> Result<(Self, usize), ImmFault>
        ensures value { ReadsImm result (reading code.now) }
        ensures inside { IfOk result (λ p. p.1 ≤ length code.now) };
}

impl Item for u64 {
    ghost reading = { number_at };

    fn read(alloc: Global, code: &[u8]) -> Result<(u64, usize), ImmFault> {
        let _ = alloc;
        number(code)
    }
}

impl Item for Blob {
    ghost reading = { sized_in };

    fn read(alloc: Global, code: &[u8]) -> Result<(Blob, usize), ImmFault> {
        let (count, used) = number(code)?;
        let (part, more) = bytes(alloc, count, &code[used..])?;
        Ok((part, used + more))
    }
}

impl Item for i16 {
    ghost reading = { jump_in };

    fn read(alloc: Global, code: &[u8]) -> Result<(i16, usize), ImmFault> {
        let _ = alloc;
        match code {
            [high, low, ..] => Ok((i16::from_be_bytes([*high, *low]), 2)),
            _ => Err(ImmFault::Cut),
        }
    }
}

/// So many bytes from the front of the code.
fn bytes(alloc: Global, count: u64, code: &[u8]) -> Result<(Blob, usize), ImmFault>
    ensures value { ReadsImm result (bytes_in count code.now) }
    ensures inside { IfOk result (λ p. p.1 ≤ length code.now) }
{
    let count = count as usize;
    if count > code.len() {
        return Err(ImmFault::Cut);
    }
    Ok((Blob::from_slice(alloc, &code[..count])?, count))
}

/// So many in a row.
fn each<T: Item>(alloc: Global, count: u64, code: &[u8]) -> Result<(List<T>, usize), ImmFault>
    ensures value { ReadsImm result (each_in T.reading count code.now) }
    ensures inside { IfOk result (λ p. p.1 ≤ length code.now) }
{
    let mut items = List::new(alloc);
    let mut used = 0;
    for index in 0..count {
        let (item, more) = T::read(alloc, &code[used..])?;
        items.push(item)?;
        used += more;
    }
    Ok((items, used))
}

fn byte(code: &[u8]) -> Result<(u8, usize), ImmFault>
    ensures value { result ≡ byte_in code.now }
    ensures inside { IfOk result (λ p. p.1 ≤ length code.now) }
{
    match code {
        [] => Err(ImmFault::Cut),
        [b, ..] => Ok((*b, 1)),
    }
}

fn is_field(fields: Fields, b: u8) -> bool
    ensures { result ≡ is_field fields b }
{
    match fields {
        Fields::Transaction => matches!(b, 0 | 1 | 5 | 24 | 25 | 27),
        Fields::Global => matches!(b, 3 | 6 | 7 | 8 | 9),
        Fields::Array => b == 26,
    }
}

fn field(fields: Fields, code: &[u8]) -> Result<(u8, usize), ImmFault>
    ensures value { result ≡ field_in fields code.now }
    ensures inside { IfOk result (λ p. p.1 ≤ length code.now) }
{
    match code {
        [] => Err(ImmFault::Cut),
        [b, ..] => {
            if is_field(fields, *b) {
                Ok((*b, 1))
            } else {
                Err(ImmFault::Outside(*b))
            }
        }
    }
}

fn one_byte(code: &[u8]) -> Result<(Imm, usize), ImmFault>
    ensures value { result ≡ imm_in Format.Byte code.now }
    ensures inside { IfOk result (λ p. p.1 ≤ length code.now) }
{
    let (b, used) = byte(code)?;
    Ok((Imm::Byte(b), used))
}

fn two_bytes(code: &[u8]) -> Result<(Imm, usize), ImmFault>
    ensures value { result ≡ imm_in Format.Two code.now }
    ensures inside { IfOk result (λ p. p.1 ≤ length code.now) }
{
    let (first, used) = byte(code)?;
    let (second, more) = byte(&code[used..])?;
    Ok((Imm::Two(first, second), used + more))
}

fn signed_byte(code: &[u8]) -> Result<(Imm, usize), ImmFault>
    ensures value { result ≡ imm_in Format.Signed code.now }
    ensures inside { IfOk result (λ p. p.1 ≤ length code.now) }
{
    let (b, used) = byte(code)?;
    Ok((Imm::Signed(b.cast_signed()), used))
}

fn one_field(fields: Fields, code: &[u8]) -> Result<(Imm, usize), ImmFault>
    ensures value { result ≡ imm_in (Format.Field fields) code.now }
    ensures inside { IfOk result (λ p. p.1 ≤ length code.now) }
{
    let (f, used) = field(fields, code)?;
    Ok((Imm::Byte(f), used))
}

fn field_and_byte(fields: Fields, code: &[u8]) -> Result<(Imm, usize), ImmFault>
    ensures value { result ≡ imm_in (Format.FieldAndByte fields) code.now }
    ensures inside { IfOk result (λ p. p.1 ≤ length code.now) }
{
    let (f, used) = field(fields, code)?;
    let (index, more) = byte(&code[used..])?;
    Ok((Imm::Two(f, index), used + more))
}

fn one_number(code: &[u8]) -> Result<(Imm, usize), ImmFault>
    ensures value { result ≡ imm_in Format.Int code.now }
    ensures inside { IfOk result (λ p. p.1 ≤ length code.now) }
{
    let (n, used) = number(code)?;
    Ok((Imm::Int(n), used))
}

fn numbers(alloc: Global, code: &[u8]) -> Result<(Imm, usize), ImmFault>
    ensures value { ReadsImm result (imm_in Format.Ints code.now) }
    ensures inside { IfOk result (λ p. p.1 ≤ length code.now) }
{
    let (count, used) = number(code)?;
    let (numbers, more) = each::<u64>(alloc, count, &code[used..])?;
    Ok((Imm::Ints(numbers), used + more))
}

fn one_text(alloc: Global, code: &[u8]) -> Result<(Imm, usize), ImmFault>
    ensures value { ReadsImm result (imm_in Format.Bytes code.now) }
    ensures inside { IfOk result (λ p. p.1 ≤ length code.now) }
{
    let (text, used) = Blob::read(alloc, code)?;
    Ok((Imm::Bytes(text), used))
}

fn texts(alloc: Global, code: &[u8]) -> Result<(Imm, usize), ImmFault>
    ensures value { ReadsImm result (imm_in Format.Blobs code.now) }
    ensures inside { IfOk result (λ p. p.1 ≤ length code.now) }
{
    let (count, used) = number(code)?;
    let (texts, more) = each::<Blob>(alloc, count, &code[used..])?;
    Ok((Imm::Blobs(texts), used + more))
}

fn one_jump(alloc: Global, code: &[u8]) -> Result<(Imm, usize), ImmFault>
    ensures value { ReadsImm result (imm_in Format.Jump code.now) }
    ensures inside { IfOk result (λ p. p.1 ≤ length code.now) }
{
    let (jump, used) = i16::read(alloc, code)?;
    Ok((Imm::Jump(jump), used))
}

fn jumps(alloc: Global, code: &[u8]) -> Result<(Imm, usize), ImmFault>
    ensures value { ReadsImm result (imm_in Format.Jumps code.now) }
    ensures inside { IfOk result (λ p. p.1 ≤ length code.now) }
{
    let (count, used) = byte(code)?;
    let (jumps, more) = each::<i16>(alloc, u64::from(count), &code[used..])?;
    Ok((Imm::Jumps(jumps), used + more))
}

/// The immediates of that form at the front of the code, and how many bytes they take.
pub(crate) fn immediate(
    alloc: Global,
    format: Format,
    code: &[u8],
) -> Result<(Imm, usize), ImmFault>
    ensures value { ReadsImm result (imm_in format code.now) }
    ensures inside { IfOk result (λ p. p.1 ≤ length code.now) }
{
    match format {
        Format::Nothing => Ok((Imm::Nothing, 0)),
        Format::Byte => one_byte(code),
        Format::Two => two_bytes(code),
        Format::Signed => signed_byte(code),
        Format::Int => one_number(code),
        Format::Ints => numbers(alloc, code),
        Format::Bytes => one_text(alloc, code),
        Format::Blobs => texts(alloc, code),
        Format::Jump => one_jump(alloc, code),
        Format::Jumps => jumps(alloc, code),
        Format::Field(fields) => one_field(fields, code),
        Format::FieldAndByte(fields) => field_and_byte(fields, code),
    }
}
