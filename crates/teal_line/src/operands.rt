//! The immediates that words say, form by form.

ghost use Rattle.std.specs.Prelude.{◌≡◌, ◌<◌, ◌^◌, map, length, IfOk};
ghost use Rattle.std.specs.List.{All};
ghost use Rattle.teal_line.specs.Counted.{IsCounted, IsCountedText};
ghost use Rattle.teal_line.specs.Reading.{Says, imm_said, each, one, said_as, number as number_said, bytes as bytes_said};

use crate::bytes::bytes;
use crate::names::field_named;
use crate::numbers::{byte, number, signed};
use crate::statement::Flaw;
use avm_ops::{Fields, Format, Imm, Ints};
use puya_base::{Blobs, List};
use std::alloc::Global;

fn nothing(words: &[&[u8]]) -> Result<Imm, Flaw>
    ensures value { Says result (imm_said Format.Nothing (map (λ w. w.now) words.now)) }
    ensures counted { IfOk result IsCounted }
{
    if words.is_empty() {
        Ok(Imm::Nothing)
    } else {
        Err(Flaw::Count)
    }
}

fn one_byte(words: &[&[u8]]) -> Result<Imm, Flaw>
    ensures value { Says result (imm_said Format.Byte (map (λ w. w.now) words.now)) }
    ensures counted { IfOk result IsCounted }
{
    match words {
        [word] => Ok(Imm::Byte(byte(word)?)),
        _ => Err(Flaw::Count),
    }
}

fn two_bytes(words: &[&[u8]]) -> Result<Imm, Flaw>
    ensures value { Says result (imm_said Format.Two (map (λ w. w.now) words.now)) }
    ensures counted { IfOk result IsCounted }
{
    match words {
        [first, second] => Ok(Imm::Two(byte(first)?, byte(second)?)),
        _ => Err(Flaw::Count),
    }
}

fn one_signed(words: &[&[u8]]) -> Result<Imm, Flaw>
    ensures value { Says result (imm_said Format.Signed (map (λ w. w.now) words.now)) }
    ensures counted { IfOk result IsCounted }
{
    match words {
        [word] => Ok(Imm::Signed(signed(word)?)),
        _ => Err(Flaw::Count),
    }
}

fn one_number(words: &[&[u8]]) -> Result<Imm, Flaw>
    ensures value { Says result (imm_said Format.Int (map (λ w. w.now) words.now)) }
    ensures counted { IfOk result IsCounted }
{
    match words {
        [word] => Ok(Imm::Int(number(word)?)),
        _ => Err(Flaw::Count),
    }
}

fn numbers(alloc: Global, words: &[&[u8]]) -> Result<Ints, Flaw>
    ensures value { Says result (each (number_said (2 ^ 64)) (map (λ w. w.now) words.now)) }
    ensures counted { IfOk result (λ ns. length ns < 2 ^ 64) }
{
    let mut numbers = List::new(alloc);
    for word in words {
        numbers.push(number(word)?)?;
    }
    let _count = numbers.len();
    Ok(numbers)
}

fn one_text(alloc: Global, words: &[&[u8]]) -> Result<Imm, Flaw>
    ensures value { Says result (imm_said Format.Bytes (map (λ w. w.now) words.now)) }
    ensures counted { IfOk result IsCounted }
{
    match words {
        [word] => Ok(Imm::Bytes(bytes(alloc, word)?)),
        _ => Err(Flaw::Count),
    }
}

fn texts(alloc: Global, words: &[&[u8]]) -> Result<Blobs, Flaw>
    ensures value { Says result (each bytes_said (map (λ w. w.now) words.now)) }
    ensures counted { IfOk result (λ bs. (length bs < 2 ^ 64) × All IsCountedText bs) }
{
    let mut texts = List::new(alloc);
    for word in words {
        texts.push(bytes(alloc, word)?)?;
    }
    let _count = texts.len();
    Ok(texts)
}

fn one_field(fields: Fields, words: &[&[u8]]) -> Result<Imm, Flaw>
    ensures value { Says result (imm_said (Format.Field fields) (map (λ w. w.now) words.now)) }
    ensures counted { IfOk result IsCounted }
{
    let [name, rest @ ..] = words else {
        return Err(Flaw::Count);
    };
    let Some(field) = field_named(fields, name) else {
        return Err(Flaw::Word);
    };
    if rest.is_empty() {
        Ok(Imm::Byte(field))
    } else {
        Err(Flaw::Count)
    }
}

/// A field's number, and one word that says a byte.
fn with_byte(field: u8, words: &[&[u8]]) -> Result<Imm, Flaw>
    ensures value { Says result (one (λ w. said_as (Imm.Two field) (number_said 256 w)) (map (λ w. w.now) words.now)) }
    ensures counted { IfOk result IsCounted }
{
    match words {
        [word] => Ok(Imm::Two(field, byte(word)?)),
        _ => Err(Flaw::Count),
    }
}

fn field_and_byte(fields: Fields, words: &[&[u8]]) -> Result<Imm, Flaw>
    ensures value { Says result (imm_said (Format.FieldAndByte fields) (map (λ w. w.now) words.now)) }
    ensures counted { IfOk result IsCounted }
{
    let [name, rest @ ..] = words else {
        return Err(Flaw::Count);
    };
    let Some(field) = field_named(fields, name) else {
        return Err(Flaw::Word);
    };
    with_byte(field, rest)
}

/// The immediates that words say in a form without branches.
pub(crate) fn immediates(alloc: Global, format: Format, words: &[&[u8]]) -> Result<Imm, Flaw>
    ensures value { Says result (imm_said format (map (λ w. w.now) words.now)) }
    ensures counted { IfOk result IsCounted }
{
    match format {
        Format::Nothing => nothing(words),
        Format::Byte => one_byte(words),
        Format::Two => two_bytes(words),
        Format::Signed => one_signed(words),
        Format::Int => one_number(words),
        Format::Ints => Ok(Imm::Ints(numbers(alloc, words)?)),
        Format::Bytes => one_text(alloc, words),
        Format::Blobs => Ok(Imm::Blobs(texts(alloc, words)?)),
        Format::Jump | Format::Jumps => Err(Flaw::Word),
        Format::Field(fields) => one_field(fields, words),
        Format::FieldAndByte(fields) => field_and_byte(fields, words),
    }
}
