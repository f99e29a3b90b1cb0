ghost use Rattle.std.specs.Prelude.{◌≡◌, ℕ, ◌+◌, ◌≤◌, ◌==◌, if◌then◌else◌, length, Some, None, option_map};
ghost use Rattle.avm_ops.specs.Numbers.{big_endian, part_of, written_over};
ghost use Rattle.avm_ops.specs.Rows.{Applies, bytes, number, part_by, results_of, length_of, replaced, replaced_at};

use crate::answers::{Operands, number, text, text_of};
use crate::arithmetic::{bit, with_bit};
use crate::bytes::{big_endian, bit_of_bytes, bytes_with_bit, part, with_byte, written_over};
use crate::instr::Imm;
use crate::rows::{Part, ValueRow, Word};
use puya_base::{StepFault, Value};
use std::alloc::Global;

fn part_from(alloc: Global, source: &[u8], start: u64, end: u64) -> Result<Operands, StepFault>
    ensures { Applies result (bytes (part_of source.now start end)) }
{
    match part(source, start, end) {
        Some(part) => text_of(alloc, part),
        None => Err(StepFault::Fails),
    }
}

/// So many bytes from a place on.
fn part_at(alloc: Global, source: &[u8], start: u64, count: u64) -> Result<Operands, StepFault>
    ensures { Applies result (bytes (part_of source.now start (start + count))) }
{
    match start.checked_add(count) {
        Some(end) => part_from(alloc, source, start, end),
        None => Err(StepFault::Fails),
    }
}

fn extracted(alloc: Global, source: &[u8], start: u8, count: u8) -> Result<Operands, StepFault>
    ensures { Applies result (bytes (part_of source.now start (if count == 0 then length source.now else start + count))) }
{
    if count == 0 {
        part_from(alloc, source, u64::from(start), source.len() as u64)
    } else {
        part_at(alloc, source, u64::from(start), u64::from(count))
    }
}

pub(crate) fn on_part(
    alloc: Global,
    row: Part,
    imm: &Imm,
    operands: &[Value],
) -> Result<Operands, StepFault>
    ensures { Applies result (part_by row imm.now operands.now) }
{
    match row {
        Part::Substring => on_substring(alloc, imm, operands),
        Part::Substring3 => on_substring3(alloc, imm, operands),
        Part::Extract => on_extract(alloc, imm, operands),
        Part::Extract3 => on_extract3(alloc, imm, operands),
    }
}

fn on_substring(alloc: Global, imm: &Imm, operands: &[Value]) -> Result<Operands, StepFault>
    ensures { Applies result (part_by Part.Substring imm.now operands.now) }
{
    match (imm, operands) {
        (Imm::Two(start, end), [Value::Bytes(b)]) => part_from(
            alloc,
            b.as_slice(),
            u64::from(*start),
            u64::from(*end),
        ),
        _ => Err(StepFault::Fails),
    }
}

fn on_substring3(alloc: Global, imm: &Imm, operands: &[Value]) -> Result<Operands, StepFault>
    ensures { Applies result (part_by Part.Substring3 imm.now operands.now) }
{
    match (imm, operands) {
        (Imm::Nothing, [Value::Bytes(b), Value::Int(start), Value::Int(end)]) => part_from(
            alloc,
            b.as_slice(),
            *start,
            *end,
        ),
        _ => Err(StepFault::Fails),
    }
}

fn on_extract(alloc: Global, imm: &Imm, operands: &[Value]) -> Result<Operands, StepFault>
    ensures { Applies result (part_by Part.Extract imm.now operands.now) }
{
    match (imm, operands) {
        (Imm::Two(start, count), [Value::Bytes(b)]) => extracted(
            alloc,
            b.as_slice(),
            *start,
            *count,
        ),
        _ => Err(StepFault::Fails),
    }
}

fn on_extract3(alloc: Global, imm: &Imm, operands: &[Value]) -> Result<Operands, StepFault>
    ensures { Applies result (part_by Part.Extract3 imm.now operands.now) }
{
    match (imm, operands) {
        (Imm::Nothing, [Value::Bytes(b), Value::Int(start), Value::Int(count)]) => part_at(
            alloc,
            b.as_slice(),
            *start,
            *count,
        ),
        _ => Err(StepFault::Fails),
    }
}

pub(crate) fn on_get_bit(alloc: Global, operands: &[Value]) -> Result<Operands, StepFault>
    ensures { Applies result (results_of ValueRow.GetBit Imm.Nothing operands.now) }
{
    match operands {
        [Value::Int(n), Value::Int(i)] if *i < 64 => number(alloc, Some(bit(*n, *i as u32))),
        [Value::Bytes(b), Value::Int(i)] if *i / 8 < b.len() as u64 => number(
            alloc,
            Some(bit_of_bytes(b.as_slice(), *i as usize)),
        ),
        _ => Err(StepFault::Fails),
    }
}

pub(crate) fn on_set_bit(alloc: Global, operands: &[Value]) -> Result<Operands, StepFault>
    ensures { Applies result (results_of ValueRow.SetBit Imm.Nothing operands.now) }
{
    match operands {
        [Value::Int(n), Value::Int(i), Value::Int(digit)] if *i < 64 && *digit <= 1 => number(
            alloc,
            Some(with_bit(*n, *i as u32, *digit)),
        ),
        [Value::Bytes(b), Value::Int(i), Value::Int(digit)]
            if *i / 8 < b.len() as u64 && *digit <= 1 => {
            text(
                alloc,
                bytes_with_bit(alloc, b.as_slice(), *i as usize, *digit)?,
            )
        }
        _ => Err(StepFault::Fails),
    }
}

pub(crate) fn on_get_byte(alloc: Global, operands: &[Value]) -> Result<Operands, StepFault>
    ensures { Applies result (results_of ValueRow.GetByte Imm.Nothing operands.now) }
{
    match operands {
        [Value::Bytes(b), Value::Int(i)] if *i < b.len() as u64 => number(
            alloc,
            Some(u64::from(b.as_slice()[*i as usize])),
        ),
        _ => Err(StepFault::Fails),
    }
}

pub(crate) fn on_set_byte(alloc: Global, operands: &[Value]) -> Result<Operands, StepFault>
    ensures { Applies result (results_of ValueRow.SetByte Imm.Nothing operands.now) }
{
    match operands {
        [Value::Bytes(b), Value::Int(i), Value::Int(n)] if *i < b.len() as u64 && *n < 256 => {
            text(
                alloc,
                with_byte(alloc, b.as_slice(), *i as usize, *n as u8)?,
            )
        }
        _ => Err(StepFault::Fails),
    }
}

fn length_of(word: Word) -> u64
    ensures value { result ≡ length_of word }
    ensures small { result ≤ 8 }
{
    match word {
        Word::Two => 2,
        Word::Four => 4,
        Word::Eight => 8,
    }
}

pub(crate) fn on_extract_number(
    alloc: Global,
    word: Word,
    operands: &[Value],
) -> Result<Operands, StepFault>
    ensures { Applies result (results_of (ValueRow.ExtractNumber word) Imm.Nothing operands.now) }
{
    match operands {
        [Value::Bytes(b), Value::Int(i)] => number(
            alloc,
            number_at(b.as_slice(), *i, length_of(word)),
        ),
        _ => Err(StepFault::Fails),
    }
}

/// The number that so many bytes write from a place on.
fn number_at(source: &[u8], start: u64, count: u64) -> Option<u64>
    requires { count ≤ 8 }
    ensures { result ≡ option_map big_endian (part_of source.now start (start + count)) }
{
    match part(source, start, start.checked_add(count)?) {
        Some(part) => Some(big_endian(part)),
        None => None,
    }
}

fn replaced_from(alloc: Global, source: &[u8], at: u64, part: &[u8]) -> Result<Operands, StepFault>
    ensures { Applies result (bytes (written_over source.now at part.now)) }
{
    if part.len() <= source.len() && at <= (source.len() - part.len()) as u64 {
        text(alloc, written_over(alloc, source, at as usize, part)?)
    } else {
        Err(StepFault::Fails)
    }
}

pub(crate) fn on_replace2(
    alloc: Global,
    imm: &Imm,
    operands: &[Value],
) -> Result<Operands, StepFault>
    ensures { Applies result (replaced imm.now operands.now) }
{
    match (imm, operands) {
        (Imm::Byte(at), [Value::Bytes(b), Value::Bytes(part)]) => replaced_from(
            alloc,
            b.as_slice(),
            u64::from(*at),
            part.as_slice(),
        ),
        _ => Err(StepFault::Fails),
    }
}

pub(crate) fn on_replace3(alloc: Global, operands: &[Value]) -> Result<Operands, StepFault>
    ensures { Applies result (replaced_at operands.now) }
{
    match operands {
        [Value::Bytes(b), Value::Int(at), Value::Bytes(part)] => replaced_from(
            alloc,
            b.as_slice(),
            *at,
            part.as_slice(),
        ),
        _ => Err(StepFault::Fails),
    }
}
