//! The printed line of a statement.

ghost use Rattle.std.specs.Prelude.{◌≡◌, ◌++◌, [], ◌∷◌, map, OnOk};
ghost use Rattle.std.specs.Fmt.{decimal};
ghost use Rattle.avm_asm.specs.Listing.{jump_opcode as opcode_of_jump, table_opcode as opcode_of_table};
ghost use Rattle.teal_line.specs.Operands.{signed_word, bytes_word};
ghost use Rattle.teal_line.specs.Printing.{imm_words, imm_words_in, spaced, statement_text};

use crate::names::{field_name, name_of};
use crate::statement::Statement;
use avm_asm::{JumpKind, TableKind};
use avm_ops::{Fields, Format, Imm, Instr, row};
use puya_base::{Blob, Memory, Name};
use std::alloc::Global;

fn push_word(word: &[u8], into: &mut Blob) -> Result<(), Memory>
    ensures { OnOk result (into.new ≡ into.old ++ spaced (word.now ∷ [])) }
{
    into.push(b' ')?;
    into.extend(word)
}

fn push_number(alloc: Global, number: u64, into: &mut Blob) -> Result<(), Memory>
    ensures { OnOk result (into.new ≡ into.old ++ spaced (decimal number ∷ [])) }
{
    let text = number.to_string(alloc)?;
    push_word(text.as_bytes(), into)
}

fn push_signed(alloc: Global, number: i8, into: &mut Blob) -> Result<(), Memory>
    ensures { OnOk result (into.new ≡ into.old ++ spaced (signed_word number ∷ [])) }
{
    let text = number.to_string(alloc)?;
    push_word(text.as_bytes(), into)
}

fn push_bytes(alloc: Global, bytes: &[u8], into: &mut Blob) -> Result<(), Memory>
    ensures { OnOk result (into.new ≡ into.old ++ spaced (bytes_word bytes.now ∷ [])) }
{
    let digits = hex::encode(alloc, bytes)?;
    into.push(b' ')?;
    into.push(b'0')?;
    into.push(b'x')?;
    into.extend(digits.as_bytes())
}

fn push_numbers(alloc: Global, numbers: &[u64], into: &mut Blob) -> Result<(), Memory>
    ensures { OnOk result (into.new ≡ into.old ++ spaced (map decimal numbers.now)) }
{
    for number in numbers {
        push_number(alloc, *number, into)?;
    }
    Ok(())
}

fn push_texts(alloc: Global, texts: &[Blob], into: &mut Blob) -> Result<(), Memory>
    ensures { OnOk result (into.new ≡ into.old ++ spaced (map bytes_word texts.now)) }
{
    for text in texts {
        push_bytes(alloc, text.as_slice(), into)?;
    }
    Ok(())
}

fn push_name(name: &Name, into: &mut Blob) -> Result<(), Memory>
    ensures { OnOk result (into.new ≡ into.old ++ spaced (name.now ∷ [])) }
{
    push_word(name.as_str().as_bytes(), into)
}

fn push_names(names: &[Name], into: &mut Blob) -> Result<(), Memory>
    ensures { OnOk result (into.new ≡ into.old ++ spaced names.now) }
{
    for name in names {
        push_name(name, into)?;
    }
    Ok(())
}

fn push_two(alloc: Global, first: u8, second: u8, into: &mut Blob) -> Result<(), Memory>
    ensures { OnOk result (into.new ≡ into.old ++ spaced (decimal first ∷ decimal second ∷ [])) }
{
    push_number(alloc, u64::from(first), into)?;
    push_number(alloc, u64::from(second), into)
}

/// Immediates as they stand, each number in decimal.
fn push_plain(alloc: Global, imm: &Imm, into: &mut Blob) -> Result<(), Memory>
    ensures { OnOk result (into.new ≡ into.old ++ spaced (imm_words imm.now)) }
{
    match imm {
        Imm::Nothing | Imm::Jump(_) | Imm::Jumps(_) => Ok(()),
        Imm::Byte(b) => push_number(alloc, u64::from(*b), into),
        Imm::Two(first, second) => push_two(alloc, *first, *second, into),
        Imm::Signed(i) => push_signed(alloc, *i, into),
        Imm::Int(n) => push_number(alloc, *n, into),
        Imm::Ints(numbers) => push_numbers(alloc, numbers.as_slice(), into),
        Imm::Bytes(bytes) => push_bytes(alloc, bytes.as_slice(), into),
        Imm::Blobs(texts) => push_texts(alloc, texts.as_slice(), into),
    }
}

fn push_field(alloc: Global, fields: Fields, imm: &Imm, into: &mut Blob) -> Result<(), Memory>
    ensures { OnOk result (into.new ≡ into.old ++ spaced (imm_words_in (Format.Field fields) imm.now)) }
{
    match imm {
        Imm::Byte(field) => push_word(field_name(fields, *field), into),
        _ => push_plain(alloc, imm, into),
    }
}

fn push_field_and_byte(
    alloc: Global,
    fields: Fields,
    imm: &Imm,
    into: &mut Blob,
) -> Result<(), Memory>
    ensures { OnOk result (into.new ≡ into.old ++ spaced (imm_words_in (Format.FieldAndByte fields) imm.now)) }
{
    match imm {
        Imm::Two(field, index) => {
            push_word(field_name(fields, *field), into)?;
            push_number(alloc, u64::from(*index), into)
        }
        _ => push_plain(alloc, imm, into),
    }
}

/// The immediates of a form, fields by their names.
fn push_immediates(alloc: Global, format: Format, imm: &Imm, into: &mut Blob) -> Result<(), Memory>
    ensures { OnOk result (into.new ≡ into.old ++ spaced (imm_words_in format imm.now)) }
{
    match format {
        Format::Field(fields) => push_field(alloc, fields, imm, into),
        Format::FieldAndByte(fields) => push_field_and_byte(alloc, fields, imm, into),
        _ => push_plain(alloc, imm, into),
    }
}

#[tactic(auto, using(crate::proofs::SpacedSteps::spaced_join), unfolding(crate::specs::Printing::statement_text))]
fn push_operation(alloc: Global, instr: &Instr, into: &mut Blob) -> Result<(), Memory>
    ensures { OnOk result (into.new ≡ into.old ++ statement_text (Statement.Op instr.now)) }
{
    into.extend(name_of(instr.op))?;
    if let Some(row) = row(instr.op) {
        push_immediates(alloc, row.format, &instr.imm, into)?;
    }
    Ok(())
}

#[tactic(auto, unfolding(crate::specs::Printing::statement_text))]
fn push_label(name: &Name, into: &mut Blob) -> Result<(), Memory>
    ensures { OnOk result (into.new ≡ into.old ++ statement_text (Statement.Label name.now)) }
{
    into.extend(name.as_str().as_bytes())?;
    into.push(b':')
}

fn jump_opcode(kind: JumpKind) -> u8
    ensures { result ≡ opcode_of_jump kind }
{
    match kind {
        JumpKind::Bnz => 0x40,
        JumpKind::Bz => 0x41,
        JumpKind::B => 0x42,
        JumpKind::Callsub => 0x88,
    }
}

fn table_opcode(kind: TableKind) -> u8
    ensures { result ≡ opcode_of_table kind }
{
    match kind {
        TableKind::Switch => 0x8d,
        TableKind::Match => 0x8e,
    }
}

#[tactic(auto, using(crate::proofs::SpacedSteps::spaced_join), unfolding(crate::specs::Printing::statement_text))]
fn push_jump(kind: JumpKind, name: &Name, into: &mut Blob) -> Result<(), Memory>
    ensures { OnOk result (into.new ≡ into.old ++ statement_text (Statement.Jump kind name.now)) }
{
    into.extend(name_of(jump_opcode(kind)))?;
    push_name(name, into)
}

#[tactic(auto, using(crate::proofs::SpacedSteps::spaced_join), unfolding(crate::specs::Printing::statement_text))]
fn push_table(kind: TableKind, names: &[Name], into: &mut Blob) -> Result<(), Memory>
    ensures { OnOk result (into.new ≡ into.old ++ statement_text (Statement.Table kind names.now)) }
{
    into.extend(name_of(table_opcode(kind)))?;
    push_names(names, into)?;
    Ok(())
}

/// Appends the printed line of a statement without its line feed: the name, then a space and each immediate; numbers in
/// decimal, bytes as `0x` and lower-case digits, fields by name and branches by label (TEAL text).
///
/// # Errors
///
/// Only for want of memory; a front of the line may then be appended.
pub fn push_statement(alloc: Global, statement: &Statement, into: &mut Blob) -> Result<(), Memory>
    ensures { OnOk result (into.new ≡ into.old ++ statement_text statement.now) }
{
    match statement {
        Statement::Op(instr) => push_operation(alloc, instr, into),
        Statement::Label(name) => push_label(name, into),
        Statement::Jump(kind, name) => push_jump(*kind, name, into),
        Statement::Table(kind, names) => push_table(*kind, names.as_slice(), into),
    }
}
