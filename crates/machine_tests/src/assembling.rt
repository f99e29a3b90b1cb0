ghost use Rattle.std.specs.Prelude.{◌<◌, length, IfOk, IfSome};
ghost use Rattle.avm_ops.specs.Code.{HasForm};
ghost use Rattle.avm_asm.specs.Listing.{AreLines, IsLine};

use avm_asm::{AsmFault, JumpKind, Labels, Line, Lines, TableKind, assemble, size};
use avm_ops::{Imm, Instr, decode_at};
use puya_base::{List, Memory};
use std::alloc::Global;
use std::test::Fail;

fn add(lines: &mut Lines, line: Line) -> Result<(), Memory>
    requires list { AreLines lines.old }
    requires line { IsLine line }
    ensures { AreLines lines.new }
{
    lines.push(line)?;
    Ok(())
}

fn add_switch(alloc: Global, lines: &mut Lines, labels: &[u32]) -> Result<(), Memory>
    requires list { AreLines lines.old }
    requires few { length labels.now < 256 }
    ensures { AreLines lines.new }
{
    let labels = Labels::from_slice(alloc, labels)?;
    add(lines, Line::Table(TableKind::Switch, labels))
}

/// `pushint 1`, of two bytes.
fn push_one() -> Line
    ensures { IsLine result }
{
    Line::Op(Instr {
        op: 0x81,
        imm: Imm::Int(1),
    })
}

/// `+`, of one byte.
fn plus() -> Line
    ensures { IsLine result }
{
    Line::Op(Instr {
        op: 0x08,
        imm: Imm::Nothing,
    })
}

fn add_ones(lines: &mut Lines, count: u32) -> Result<(), Memory>
    requires { AreLines lines.old }
    ensures { AreLines lines.new }
{
    for _one in 0..count {
        add(lines, push_one())?;
    }
    Ok(())
}

fn fault_of(alloc: Global, lines: &Lines) -> Option<AsmFault>
    requires { AreLines lines.now }
{
    match assemble(alloc, lines) {
        Ok(_) => None,
        Err(fault) => Some(fault),
    }
}

#[test]
fn no_lines_are_the_version(rt: HostRuntime) -> Result<(), Fail> {
    let alloc = rt.alloc();
    let lines: Lines = List::new(alloc);
    match assemble(alloc, &lines) {
        Ok(code) => assert_eq!(rt; code.as_slice(), [10].as_slice()),
        Err(_) => assert!(rt; false),
    }
    assert_eq!(rt; size(&lines), 1);
    Ok(())
}

/// Each kind of branch, forward and backward, between two labels.
fn branches(alloc: Global) -> Result<Lines, Memory>
    ensures { IfOk result AreLines }
{
    let mut lines = List::new(alloc);
    add(&mut lines, Line::Label(0))?;
    add(&mut lines, Line::Jump(JumpKind::Bnz, 1))?;
    add(&mut lines, Line::Jump(JumpKind::Bz, 0))?;
    add(&mut lines, Line::Jump(JumpKind::B, 1))?;
    add(&mut lines, Line::Jump(JumpKind::Callsub, 0))?;
    add_switch(alloc, &mut lines, &[0, 1])?;
    let labels = Labels::from_slice(alloc, &[1, 0])?;
    add(&mut lines, Line::Table(TableKind::Match, labels))?;
    add(&mut lines, Line::Label(1))?;
    add(&mut lines, push_one())?;
    Ok(lines)
}

/// Offsets count from the end of their instruction (AVM specification, "Encoding").
const BRANCHES: [u8; 27] = [
    10, 0x40, 0, 21, 0x41, 0xff, 0xfa, 0x42, 0, 15, 0x88, 0xff, 0xf4, 0x8d, 2, 0xff, 0xee, 0, 6,
    0x8e, 2, 0, 0, 0xff, 0xe8, 0x81, 1,
];

#[test]
fn each_branch_leads_to_its_label(rt: HostRuntime) -> Result<(), Fail> {
    let alloc = rt.alloc();
    let lines = branches(alloc)?;
    match assemble(alloc, &lines) {
        Ok(code) => assert_eq!(rt; code.as_slice(), BRANCHES.as_slice()),
        Err(_) => assert!(rt; false),
    }
    assert_eq!(rt; size(&lines), 27);
    Ok(())
}

/// An instruction that doesn't branch, as a line.
fn as_line(instr: Instr) -> Option<Line>
    requires { HasForm instr }
    ensures { IfSome result IsLine }
{
    match instr.imm {
        Imm::Jump(_) | Imm::Jumps(_) => None,
        _ => Some(Line::Op(instr)),
    }
}

/// The line of an instruction's bytes.
fn line_of(alloc: Global, code: &[u8]) -> Option<Line>
    ensures { IfSome result IsLine }
{
    match decode_at(alloc, code, 0) {
        Ok((instr, _)) => as_line(instr),
        Err(_) => None,
    }
}

#[test]
fn each_form_keeps_its_bytes(rt: HostRuntime) -> Result<(), Fail> {
    let alloc = rt.alloc();
    let codes = [
        [0x08].as_slice(),
        [0x21, 7].as_slice(),
        [0x51, 1, 3].as_slice(),
        [0x8b, 0xff].as_slice(),
        [0x81, 0xac, 0x02].as_slice(),
        [0x81, 255, 255, 255, 255, 255, 255, 255, 255, 255, 1].as_slice(),
        [0x20, 2, 1, 0x80, 0x01].as_slice(),
        [0x80, 2, 0x41, 0x42].as_slice(),
        [0x26, 2, 1, 0x41, 0].as_slice(),
        [0x36, 26, 1].as_slice(),
    ];
    for bytes in codes.iter() {
        let mut lines = List::new(alloc);
        match line_of(alloc, bytes) {
            Some(line) => add(&mut lines, line)?,
            None => assert!(rt; false),
        }
        assert_eq!(rt; size(&lines), bytes.len() as u64 + 1);
        match assemble(alloc, &lines) {
            Ok(code) => assert_eq!(rt; &code.as_slice()[1..], *bytes),
            Err(_) => assert!(rt; false),
        }
    }
    Ok(())
}

#[test]
fn a_table_has_255_labels(rt: HostRuntime) -> Result<(), Fail> {
    let alloc = rt.alloc();
    let mut lines = List::new(alloc);
    add(&mut lines, Line::Label(7))?;
    add_switch(alloc, &mut lines, &[7; 255])?;
    assert_eq!(rt; size(&lines), 513);
    match assemble(alloc, &lines) {
        Ok(code) => {
            assert_eq!(rt; code.as_slice().get(2).copied(), Some(255));
            // the label is 512 bytes before the end
            assert_eq!(rt; code.as_slice().get(511).copied(), Some(0xfe));
            assert_eq!(rt; code.as_slice().get(512).copied(), Some(0));
        }
        Err(_) => assert!(rt; false),
    }
    Ok(())
}

/// A branch on over so many times two bytes.
fn forward(alloc: Global, count: u32) -> Result<Lines, Memory>
    ensures { IfOk result AreLines }
{
    let mut lines = List::new(alloc);
    add(&mut lines, Line::Jump(JumpKind::B, 7))?;
    add_ones(&mut lines, count)?;
    add(&mut lines, Line::Label(7))?;
    Ok(lines)
}

#[test]
fn a_branch_leads_at_most_32767_bytes_on(rt: HostRuntime) -> Result<(), Fail> {
    let alloc = rt.alloc();
    let near = forward(alloc, 16_383)?;
    assert_eq!(rt; fault_of(alloc, &near), None);
    let far = forward(alloc, 16_384)?;
    assert_eq!(rt; fault_of(alloc, &far), Some(AsmFault::Far(7, 32_768)));
    Ok(())
}

#[test]
fn faults_come_by_their_kind(rt: HostRuntime) -> Result<(), Fail> {
    let alloc = rt.alloc();
    let mut lines = forward(alloc, 16_384)?;
    add(&mut lines, Line::Jump(JumpKind::Bz, 9))?;
    assert_eq!(rt; fault_of(alloc, &lines), Some(AsmFault::NoLabel(9)));
    add(&mut lines, Line::Label(7))?;
    assert_eq!(rt; fault_of(alloc, &lines), Some(AsmFault::TwiceLabel(7)));
    Ok(())
}

#[test]
fn a_table_is_judged_in_its_order(rt: HostRuntime) -> Result<(), Fail> {
    let alloc = rt.alloc();
    let mut lines = List::new(alloc);
    add_switch(alloc, &mut lines, &[6, 8, 7])?;
    add(&mut lines, Line::Label(6))?;
    add_ones(&mut lines, 16_384)?;
    add(&mut lines, Line::Label(7))?;
    add(&mut lines, Line::Label(8))?;
    assert_eq!(rt; fault_of(alloc, &lines), Some(AsmFault::Far(8, 32_768)));
    Ok(())
}

/// A branch back over so many times two bytes, and one more where that is wanted.
fn backward(alloc: Global, count: u32, odd: bool) -> Result<Lines, Memory>
    ensures { IfOk result AreLines }
{
    let mut lines = List::new(alloc);
    add(&mut lines, Line::Label(7))?;
    add_ones(&mut lines, count)?;
    if odd {
        add(&mut lines, plus())?;
    }
    add(&mut lines, Line::Jump(JumpKind::B, 7))?;
    Ok(lines)
}

#[test]
fn a_branch_leads_at_most_32768_bytes_back(rt: HostRuntime) -> Result<(), Fail> {
    let alloc = rt.alloc();
    let near = backward(alloc, 16_382, true)?;
    assert_eq!(rt; fault_of(alloc, &near), None);
    let far = backward(alloc, 16_383, false)?;
    assert_eq!(rt; fault_of(alloc, &far), Some(AsmFault::Far(7, -32_769)));
    Ok(())
}
