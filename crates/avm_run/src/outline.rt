ghost use Rattle.std.specs.Prelude.{◌≡◌, ℕ, ◌-◌, ◌≤◌, ◌<◌, ◌^◌, ◌++◌, ◌∷◌, [], length, map, nat_eq, OnOk, IfOk};
ghost use Rattle.std.specs.List.{list_any};
ghost use Rattle.avm_run.specs.Form.{AnswersAs, Rises, as_fault, branch_at, branches_at, is_target, outline, stray};

use crate::program::ProgramFault;
use crate::rows::target_of;
use avm_ops::{DecodeFault, Imm, Instr, decode_at};
use puya_base::{List, Memory};
use std::alloc::Global;

/// A branch: the place of its instruction, and where it leads.
#[derive(Clone, Copy, Debug, PartialEq, Eq)]
pub struct Branch {
    pub pc: usize,
    pub target: i64,
}

/// Where instructions start and where branches lead, both in the order of the code.
#[derive(Debug, Drop)]
pub struct Outline {
    pub starts: List<usize>,
    pub branches: List<Branch>,
}

fn add_each(
    branches: &mut List<Branch>,
    pc: usize,
    offsets: &[i16],
    next: usize,
) -> Result<(), Memory>
    requires { next < 2 ^ 63 - 2 ^ 15 }
    ensures { OnOk result (branches.new ≡ branches.old ++ map (branch_at pc next) offsets.now) }
{
    for offset in offsets {
        let target = target_of(next, *offset);
        branches.push(Branch { pc, target })?;
    }
    Ok(())
}

fn add_branches(
    branches: &mut List<Branch>,
    pc: usize,
    instr: &Instr,
    next: usize,
) -> Result<(), Memory>
    requires { next < 2 ^ 63 - 2 ^ 15 }
    ensures { OnOk result (branches.new ≡ branches.old ++ branches_at pc instr.now next) }
{
    match &instr.imm {
        Imm::Jump(offset) => add_each(branches, pc, &[*offset], next),
        Imm::Jumps(offsets) => add_each(branches, pc, offsets.as_slice(), next),
        _ => Ok(()),
    }
}

fn note(outline: &mut Outline, pc: usize, instr: Instr, next: usize) -> Result<(), Memory>
    requires { next < 2 ^ 63 - 2 ^ 15 }
    ensures starts { OnOk result (outline.new.starts ≡ outline.old.starts ++ pc ∷ []) }
    ensures branches { OnOk result (outline.new.branches ≡ outline.old.branches ++ branches_at pc instr next) }
{
    outline.starts.push(pc)?;
    add_branches(&mut outline.branches, pc, &instr, next)
}

pub(crate) fn fault_of(fault: DecodeFault) -> ProgramFault
    ensures { result ≡ as_fault fault }
{
    match fault {
        DecodeFault::Cut(pc) => ProgramFault::Cut(pc),
        DecodeFault::Outside(pc, byte) => ProgramFault::Outside(pc, byte),
        DecodeFault::Overlong(pc) => ProgramFault::Overlong(pc),
        DecodeFault::Memory => ProgramFault::Memory,
    }
}

/// The outline of the bytes from place 1 on, or the first of them that is no instruction.
pub(crate) fn outline_of(alloc: Global, code: &[u8]) -> Result<Outline, ProgramFault>
    requires some { 1 ≤ length code.now }
    requires few { length code.now < 2 ^ 62 }
    ensures due { AnswersAs (λ o. o) result (outline (length code.now - 1) code.now 1) }
    ensures rising { IfOk result (λ o. Rises o.starts) }
{
    let mut outline = Outline {
        starts: List::new(alloc),
        branches: List::new(alloc),
    };
    let mut pc = 1;
    while pc < code.len() {
        match decode_at(alloc, code, pc) {
            Ok((instr, next)) => {
                note(&mut outline, pc, instr, next)?;
                pc = next;
            }
            Err(fault) => return Err(fault_of(fault)),
        }
    }
    Ok(outline)
}

/// Whether an instruction starts there.
fn is_start(starts: &[usize], place: usize) -> bool
    requires { Rises starts.now }
    ensures { result ≡ list_any (λ s. nat_eq s place) starts.now }
{
    match starts.binary_search(&place) {
        Ok(_) => true,
        Err(_) => false,
    }
}

/// Whether an instruction starts there, or the code ends.
fn leads_to_place(starts: &[usize], end: usize, target: i64) -> bool
    requires { Rises starts.now }
    ensures { result ≡ is_target starts.now end target }
{
    if target < 0 {
        return false;
    }
    let place = target as usize;
    is_start(starts, place) || place == end
}

/// The first branch that leads to where no instruction starts, and not to the end.
pub(crate) fn stray_branch(outline: &Outline, end: usize) -> Option<Branch>
    requires { Rises outline.now.starts }
    ensures { result ≡ stray outline.now end }
{
    let starts = outline.starts.as_slice();
    for branch in outline.branches.as_slice() {
        if !leads_to_place(starts, end, branch.target) {
            return Some(*branch);
        }
    }
    None
}
