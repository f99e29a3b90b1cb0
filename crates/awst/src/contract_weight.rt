//! How many bytes the programs of a contract may have.

ghost use Rattle.std.specs.Prelude.{◌≡◌, ℕ, ◌∷◌, [], map, Some, IfOk, OnOk};
ghost use Rattle.awst.specs.Capped.{capped};
ghost use Rattle.awst.specs.Functions.{function_of};
ghost use Rattle.awst.specs.Marks.{weights_of};
ghost use Rattle.awst.specs.Prescribed.{entry_price};
ghost use Rattle.awst.specs.Weight.{clear_weight, program_weight, weight_of};

use crate::assigned_rows::marked_sizes;
use crate::contract::{Contract, Func};
use crate::reach::reached_from;
use crate::weights::function_weighs;
use puya_base::Memory;
use std::alloc::Global;

/// A program beside its entry and its functions.
const PROGRAM: u64 = 64;

/// The entry, and what `__init__` adds.
const ENTRY: u64 = 64;

const INIT: u64 = 48;

/// The weight of each function, at most 2^64-1.
fn function_weights(alloc: Global, funcs: &[Func]) -> Result<Vec<u64>, Memory>
    ensures { IfOk result (λ weights. weights.items ≡ weights_of (map function_of funcs.now)) }
{
    let mut weights = Vec::new(alloc);
    for f in funcs {
        weights.push(function_weighs(alloc, f)?)?;
    }
    Ok(weights)
}

/// A program by its entry, and by the functions that it is run from.
fn program_weighs(
    alloc: Global,
    funcs: &[Func],
    weights: &[u64],
    entry: u64,
    roots: &[Option<u32>],
) -> Result<u64, Memory>
    requires { weights.now ≡ weights_of (map function_of funcs.now) }
    ensures { IfOk result (λ w. w ≡ capped (program_weight entry roots.now (map function_of funcs.now))) }
{
    let marks = reached_from(alloc, funcs, roots)?;
    let reached = marked_sizes(marks.as_slice(), weights);
    Ok(reached.saturating_add(entry).saturating_add(PROGRAM))
}

/// The clear state program, which is short where it only approves.
fn clear_weighs(
    alloc: Global,
    funcs: &[Func],
    weights: &[u64],
    clear: Option<u32>,
) -> Result<u64, Memory>
    requires { weights.now ≡ weights_of (map function_of funcs.now) }
    ensures { IfOk result (λ w. w ≡ capped (clear_weight clear (map function_of funcs.now))) }
{
    match clear {
        Some(_f) => program_weighs(alloc, funcs, weights, ENTRY, &[clear]),
        None => Ok(PROGRAM),
    }
}

/// How many bytes the approval program and the clear state program of a contract may have together, at most 2^64-1.
/// The error is want of memory.
pub fn weight(alloc: Global, contract: &Contract) -> Result<u64, Memory>
    ensures { IfOk result (λ w. w ≡ capped (weight_of contract.now)) }
{
    let funcs = contract.funcs.as_slice();
    let weights = function_weights(alloc, funcs)?;
    let entry = if contract.init.is_some() {
        ENTRY + INIT
    } else {
        ENTRY
    };
    let approval = program_weighs(
        alloc,
        funcs,
        weights.as_slice(),
        entry,
        &[contract.init, contract.approval],
    )?;
    let clear = clear_weighs(alloc, funcs, weights.as_slice(), contract.clear)?;
    Ok(approval.saturating_add(clear))
}
