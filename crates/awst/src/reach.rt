//! Which functions a program reaches.

ghost use Rattle.std.specs.Prelude.{◌≡◌, ◌==◌, ◌<◌, ◌≤◌, ◌⊎◌, [], ◌∷◌, true, false, length, map, IfOk, OnOk};
ghost use Rattle.awst.specs.Calls.{is_in};
ghost use Rattle.awst.specs.Functions.{function_of};
ghost use Rattle.awst.specs.Marks.{marked};
ghost use Rattle.awst.specs.Reach.{AllWait, Waits, calls_at, mark_at};
ghost use Rattle.awst.specs.Weight.{is_root, reached, spread};

use crate::assigned_rows::no_marks;
use crate::calls::push_body_calls;
use crate::contract::Func;
use puya_base::{List, Memory};
use std::alloc::Global;

/// Whether there is a mark at a place, and it is not set.
fn is_unmarked(marks: &[bool], at: usize) -> bool
    ensures unmarked { result ≡ true → (at < length marks.now) × (mark_at marks.now at ≡ false) }
    ensures other { result ≡ false → (length marks.now ≤ at) ⊎ (mark_at marks.now at ≡ true) }
{
    match marks.get(at) {
        Some(mark) => !*mark,
        None => false,
    }
}

/// Marks a function that exists, and lets it wait where it was not marked.
fn note(f: u32, marks: &mut List<bool>, waiting: &mut Vec<u32>) -> Result<(), Memory>
    ensures marks { OnOk result (marks.new ≡ marked (λ g. f == g) marks.old) }
    ensures waits { OnOk result (Waits marks.old marks.new waiting.old.items waiting.new.items) }
{
    let place = f as usize;
    if !is_unmarked(marks.as_slice(), place) {
        return Ok(());
    }
    waiting.push(f)?;
    marks.set(place, true);
    Ok(())
}

fn note_all(calls: &[u32], marks: &mut List<bool>, waiting: &mut Vec<u32>) -> Result<(), Memory>
    ensures marks { OnOk result (marks.new ≡ marked (is_in calls.now) marks.old) }
    ensures waits { OnOk result (Waits marks.old marks.new waiting.old.items waiting.new.items) }
{
    for f in calls {
        note(*f, marks, waiting)?;
    }
    Ok(())
}

fn note_roots(
    roots: &[Option<u32>],
    marks: &mut List<bool>,
    waiting: &mut Vec<u32>,
) -> Result<(), Memory>
    ensures marks { OnOk result (marks.new ≡ marked (is_root roots.now) marks.old) }
    ensures waits { OnOk result (Waits marks.old marks.new waiting.old.items waiting.new.items) }
{
    for root in roots {
        note_root(*root, marks, waiting)?;
    }
    Ok(())
}

fn note_root(
    root: Option<u32>,
    marks: &mut List<bool>,
    waiting: &mut Vec<u32>,
) -> Result<(), Memory>
    ensures marks { OnOk result (marks.new ≡ marked (is_root (root ∷ [])) marks.old) }
    ensures waits { OnOk result (Waits marks.old marks.new waiting.old.items waiting.new.items) }
{
    match root {
        Some(f) => note(f, marks, waiting),
        None => Ok(()),
    }
}

/// Marks what a function calls.
fn visit(
    funcs: &[Func],
    f: u32,
    calls: &mut Vec<u32>,
    marks: &mut List<bool>,
    waiting: &mut Vec<u32>,
) -> Result<(), Memory>
    ensures marks { OnOk result (marks.new ≡ marked (calls_at (map function_of funcs.now) f) marks.old) }
    ensures waits { OnOk result (Waits marks.old marks.new waiting.old.items waiting.new.items) }
{
    let place = f as usize;
    if place >= funcs.len() {
        return Ok(());
    }
    let func = &funcs[place];
    calls.clear();
    push_body_calls(calls, func.body.as_slice())?;
    note_all(calls.as_slice(), marks, waiting)
}

/// Marks all that is reached from the marked functions, each of which waits. The calls of each function are looked at once.
fn spread_marks(
    alloc: Global,
    funcs: &[Func],
    marks: &mut List<bool>,
    waiting: &mut Vec<u32>,
) -> Result<(), Memory>
    requires { AllWait marks.old waiting.old.items }
    ensures { OnOk result (marks.new ≡ spread (length marks.old) (map function_of funcs.now) marks.old) }
{
    let mut calls = Vec::new(alloc);
    while let Some(f) = waiting.pop() {
        visit(funcs, f, &mut calls, marks, waiting)?;
    }
    Ok(())
}

/// A mark for each function, set where it is reached from the roots.
pub(crate) fn reached_from(
    alloc: Global,
    funcs: &[Func],
    roots: &[Option<u32>],
) -> Result<List<bool>, Memory>
    ensures { IfOk result (λ marks. marks ≡ reached roots.now (map function_of funcs.now)) }
{
    let mut marks = no_marks(alloc, funcs.len())?;
    let mut waiting = Vec::new(alloc);
    note_roots(roots, &mut marks, &mut waiting)?;
    spread_marks(alloc, funcs, &mut marks, &mut waiting)?;
    Ok(marks)
}
