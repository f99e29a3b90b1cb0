//! The programs of the one form of source.

ghost use Rattle.std.specs.Prelude.{◌≡◌, ◌<◌, ◌^◌, IfOk};
ghost use Rattle.compiler.specs.declared.form.Sum.{Sum};
ghost use Rattle.compiler.specs.Programs.{program_of, clear_program, opcode, IsClear, Serves};

use crate::form::{Operator, Sum};
use avm_ops::{Imm, Instr, encode};
use puya_base::{Blob, Memory};
use std::alloc::Global;

fn opcode_of(operator: Operator) -> u8
    ensures { result ≡ opcode operator }
{
    match operator {
        Operator::Plus => 8,
        Operator::Times => 11,
    }
}

/// The approval program of a source.
#[tactic(auto, unfolding(crate::specs::Programs::program_of))]
pub(crate) fn built(alloc: Global, sum: Sum) -> Result<Blob, Memory>
    ensures { IfOk result (λ p. p ≡ program_of sum) }
{
    let mut code = Blob::new(alloc);
    code.push(10)?;
    encode(
        alloc,
        &Instr {
            op: 129,
            imm: Imm::Int(sum.left),
        },
        &mut code,
    )?;
    encode(
        alloc,
        &Instr {
            op: 129,
            imm: Imm::Int(sum.right),
        },
        &mut code,
    )?;
    let op = opcode_of(sum.operator);
    encode(
        alloc,
        &Instr {
            op,
            imm: Imm::Nothing,
        },
        &mut code,
    )?;
    encode(
        alloc,
        &Instr {
            op: 67,
            imm: Imm::Nothing,
        },
        &mut code,
    )?;
    Ok(code)
}

/// The program of a clear state program that gives 1.
#[tactic(auto, unfolding(crate::specs::Programs::clear_program))]
pub(crate) fn clear_built(alloc: Global) -> Result<Blob, Memory>
    ensures { IfOk result (λ p. p ≡ clear_program) }
{
    let mut code = Blob::new(alloc);
    code.push(10)?;
    encode(
        alloc,
        &Instr {
            op: 129,
            imm: Imm::Int(1),
        },
        &mut code,
    )?;
    encode(
        alloc,
        &Instr {
            op: 67,
            imm: Imm::Nothing,
        },
        &mut code,
    )?;
    Ok(code)
}

/// The approval program does what its source says.
pub fn program_serves()
    ensures { (s : Sum) → s.left < 2 ^ 64 → s.right < 2 ^ 64 → Serves s (program_of s) }
{}

/// The clear state program does what its source says.
pub fn clear_program_serves()
    ensures { IsClear clear_program }
{}
