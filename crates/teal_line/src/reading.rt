//! What the words of a line say.

ghost use Rattle.std.specs.Prelude.{◌≡◌, map, IfOk};
ghost use Rattle.teal_line.specs.Counted.{IsCountedStatement};
ghost use Rattle.teal_line.specs.Printing.{IsStatement};
ghost use Rattle.teal_line.specs.Reading.{Says, says, said_as, imm_said, statement_in, label_line as label_line_said};
ghost use Rattle.teal_line.specs.Reading as spec;
ghost use Rattle.avm_ops.specs.declared.instr.Instr.{Instr};

use crate::labels::{are_labels, before_colon, is_some_label, label, label_name, names};
use crate::names::opcode_named;
use crate::operands::immediates;
use crate::statement::{Flaw, Statement};
use avm_asm::{JumpKind, TableKind};
use avm_ops::{Format, Instr, row};
use std::alloc::Global;

fn jump_kind(op: u8) -> JumpKind
    ensures { result ≡ spec.jump_kind op }
{
    match op {
        0x40 => JumpKind::Bnz,
        0x41 => JumpKind::Bz,
        0x42 => JumpKind::B,
        _ => JumpKind::Callsub,
    }
}

fn table_kind(op: u8) -> TableKind
    ensures { result ≡ spec.table_kind op }
{
    if op == 0x8d {
        TableKind::Switch
    } else {
        TableKind::Match
    }
}

fn jump(alloc: Global, op: u8, words: &[&[u8]]) -> Result<Statement, Flaw>
    ensures value { Says result (statement_in op Format.Jump (map (λ w. w.now) words.now)) }
    ensures counted { IfOk result IsCountedStatement }
{
    let [word, rest @ ..] = words else {
        return Err(Flaw::Count);
    };
    let name = label(alloc, word)?;
    if rest.is_empty() {
        Ok(Statement::Jump(jump_kind(op), name))
    } else {
        Err(Flaw::Count)
    }
}

fn table(alloc: Global, op: u8, words: &[&[u8]]) -> Result<Statement, Flaw>
    ensures value { Says result (statement_in op Format.Jumps (map (λ w. w.now) words.now)) }
    ensures counted { IfOk result IsCountedStatement }
{
    if !are_labels(words) {
        return Err(Flaw::Word);
    }
    if words.len() > 255 {
        return Err(Flaw::Count);
    }
    Ok(Statement::Table(table_kind(op), names(alloc, words)?))
}

fn operation(alloc: Global, op: u8, format: Format, words: &[&[u8]]) -> Result<Statement, Flaw>
    ensures value { Says result (said_as (λ i. Statement.Op (record { op = op; imm = i })) (imm_said format (map (λ w. w.now) words.now))) }
    ensures counted { IfOk result IsCountedStatement }
{
    let imm = immediates(alloc, format, words)?;
    Ok(Statement::Op(Instr { op, imm }))
}

/// What an instruction of a form says with these words behind its name.
fn statement(alloc: Global, op: u8, format: Format, words: &[&[u8]]) -> Result<Statement, Flaw>
    ensures value { Says result (statement_in op format (map (λ w. w.now) words.now)) }
    ensures counted { IfOk result IsCountedStatement }
{
    match format {
        Format::Jump => jump(alloc, op, words),
        Format::Jumps => table(alloc, op, words),
        _ => operation(alloc, op, format, words),
    }
}

fn label_line(alloc: Global, name: &[u8], words: &[&[u8]]) -> Result<Statement, Flaw>
    ensures value { Says result (label_line_said name.now (map (λ w. w.now) words.now)) }
    ensures counted { IfOk result IsCountedStatement }
{
    if !is_some_label(name) {
        return Err(Flaw::Word);
    }
    if !words.is_empty() {
        return Err(Flaw::Count);
    }
    Ok(Statement::Label(label_name(alloc, name)?))
}

#[tactic(auto, unfolding(crate::specs::Reading::says))]
fn line(alloc: Global, first: &[u8], rest: &[&[u8]]) -> Result<Statement, Flaw>
    ensures value { Says result (says first.now (map (λ w. w.now) rest.now)) }
    ensures counted { IfOk result IsCountedStatement }
{
    if let Some(name) = before_colon(first) {
        return label_line(alloc, name, rest);
    }
    let Some(op) = opcode_named(first) else {
        return Err(Flaw::Word);
    };
    let Some(entry) = row(op) else {
        return Err(Flaw::Word);
    };
    statement(alloc, op, entry.format, rest)
}

/// What a line says whose first word is this and whose further words are these: an instruction, a label or a branch.
///
/// # Errors
///
/// The first flaw of the line, in the order of `Flaw`'s variants, or want of memory.
pub fn said(alloc: Global, first: &[u8], rest: &[&[u8]]) -> Result<Statement, Flaw>
    ensures value { Says result (says first.now (map (λ w. w.now) rest.now)) }
    ensures form { IfOk result IsStatement }
{
    line(alloc, first, rest)
}
