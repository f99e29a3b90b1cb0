ghost use Rattle.std.specs.Prelude.{◌≡◌, ℕ, ◌<◌, ◌^◌, ◌-◌, ◌++◌, map, length, IfOk, OnOk};
ghost use Rattle.avm_ops.specs.Code.{HasForm};
ghost use Rattle.avm_run.specs.Bytes.{place, target};
ghost use Rattle.teal_line.specs.Printing.{statement_text};
ghost use Rattle.teal_line.specs.Reading.{jump_kind, table_kind};
ghost use Rattle.teal_text.specs.Printing.{instructions, label_at, label_name, line_of, statement_of, text_of};
ghost use Rattle.teal_text.specs.Pieces.{body_text, lines_text, placed_text};

use crate::decoding::instruction_at;
use crate::targets::{Places, place_after, targets_of};
use avm_asm::{JumpKind, TableKind};
use avm_ops::{Imm, Instr};
use avm_run::Program;
use puya_base::{Blob, List, Memory, Name};
use std::alloc::Global;
use teal_line::{Names, Statement, push_statement};

fn push_line(alloc: Global, text: &mut Blob, statement: &Statement) -> Result<(), Memory>
    ensures { OnOk result (text.new ≡ text.old ++ line_of (statement_text statement.now)) }
{
    push_statement(alloc, statement, text)?;
    text.push(b'\n')
}

/// The name of the label at a place.
fn label_name(alloc: Global, place: usize) -> Result<Name, Memory>
    ensures { IfOk result (λ n. n ≡ label_name place) }
{
    let text = format!(in alloc; "at{place}")?;
    Name::new(alloc, text.as_str())
}

/// Adds the label line of a place, if a branch leads there.
fn push_label(alloc: Global, text: &mut Blob, targets: &Places, place: usize) -> Result<(), Memory>
    ensures { OnOk result (text.new ≡ text.old ++ lines_text (label_at targets.now place)) }
{
    if targets.has(place) {
        push_line(alloc, text, &Statement::Label(label_name(alloc, place)?))
    } else {
        Ok(())
    }
}

fn jump_kind(op: u8) -> JumpKind
    ensures { result ≡ jump_kind op }
{
    match op {
        0x40 => JumpKind::Bnz,
        0x41 => JumpKind::Bz,
        0x42 => JumpKind::B,
        _ => JumpKind::Callsub,
    }
}

fn table_kind(op: u8) -> TableKind
    ensures { result ≡ table_kind op }
{
    match op {
        0x8d => TableKind::Switch,
        _ => TableKind::Match,
    }
}

/// The names of the labels to which offsets lead.
fn label_names(alloc: Global, offsets: &[i16], next: usize) -> Result<Names, Memory>
    requires { next < 2 ^ 63 - 2 ^ 15 }
    ensures { IfOk result (λ ns. ns ≡ map (λ j. label_name (place (target next j))) offsets.now) }
{
    let mut names = List::new(alloc);
    for offset in offsets {
        let name = label_name(alloc, place_after(next, *offset))?;
        names.push(name)?;
    }
    Ok(names)
}

/// An instruction that ends at `next` as a statement: its branches go by the labels of their places.
fn statement_of(alloc: Global, instr: Instr, next: usize) -> Result<Statement, Memory>
    requires { next < 2 ^ 63 - 2 ^ 15 }
    ensures { (pc : ℕ) → IfOk result (λ s. s ≡ statement_of (record { pc = pc; instr = instr; next = next })) }
{
    match &instr.imm {
        Imm::Jump(offset) => {
            let name = label_name(alloc, place_after(next, *offset))?;
            Ok(Statement::Jump(jump_kind(instr.op), name))
        }
        Imm::Jumps(offsets) => {
            let names = label_names(alloc, offsets.as_slice(), next)?;
            Ok(Statement::Table(table_kind(instr.op), names))
        }
        _ => Ok(Statement::Op(instr)),
    }
}

/// Adds the lines of an instruction.
fn push_placed(
    alloc: Global,
    text: &mut Blob,
    targets: &Places,
    pc: usize,
    instr: Instr,
    next: usize,
) -> Result<(), Memory>
    requires { next < 2 ^ 63 - 2 ^ 15 }
    ensures { OnOk result (text.new ≡ text.old ++ placed_text targets.now (record { pc = pc; instr = instr; next = next })) }
{
    push_label(alloc, text, targets, pc)?;
    let statement = statement_of(alloc, instr, next)?;
    push_line(alloc, text, &statement)
}

/// Adds the lines of all instructions of a program.
fn push_body(alloc: Global, text: &mut Blob, targets: &Places, code: &[u8]) -> Result<(), Memory>
    requires { length code.now < 2 ^ 62 }
    ensures { OnOk result (text.new ≡ text.old ++ body_text targets.now (instructions code.now)) }
{
    let mut pc = 1;
    while pc < code.len() {
        let (instr, next) = instruction_at(alloc, code, pc)?;
        push_placed(alloc, text, targets, pc, instr, next)?;
        pc = next;
    }
    Ok(())
}

const VERSION_LINE: &[u8] = b"#pragma version 10\n";

/// The text of a program (TEAL text): the version, then each instruction, behind the label line of its
/// place where a branch leads there. Every line ends with a line feed.
pub fn print(alloc: Global, program: &Program) -> Result<Blob, Memory>
    ensures { IfOk result (λ b. b ≡ text_of program.now) }
{
    let code = program.bytes();
    let targets = targets_of(alloc, code)?;
    let mut text = Blob::from_slice(alloc, VERSION_LINE)?;
    push_body(alloc, &mut text, &targets, code)?;
    push_label(alloc, &mut text, &targets, code.len())?;
    Ok(text)
}
