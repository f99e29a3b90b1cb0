ghost use Rattle.std.specs.Prelude.{◌≡◌, ◌==◌, ◌<◌, ◌^◌, ◌-◌, [], map, length, IfOk, OnOk};
ghost use Rattle.std.specs.List.{list_any};
ghost use Rattle.avm_run.specs.Bytes.{place, target, targets_of};
ghost use Rattle.teal_text.specs.Printing.{instructions, targets};
ghost use Rattle.teal_text.specs.Pieces.{with_place, with_places};

use crate::decoding::instruction_at;
use avm_ops::{Imm, Instr};
use indexmap::IndexSet;
use puya_base::Memory;
use std::alloc::Global;
use std::marker::Model;

/// Places of a program, each once. A contract sees the list of the places.
#[derive(Drop)]
pub(crate) struct Places {
    places: IndexSet<usize>,
}

impl Model for Places {
    ghost use Rattle.std.specs.Prelude.{List, ℕ};

    ghost Value = { List ℕ };

    ghost view = { λ p. p.places.keys };
}

impl Places {
    fn new(alloc: Global) -> Places
        ensures { result ≡ [] }
    {
        Places {
            places: IndexSet::new(alloc),
        }
    }

    fn add(&mut self, place: usize) -> Result<(), Memory>
        ensures { OnOk result (self.new ≡ with_place self.old place) }
    {
        self.places.insert(place)?;
        Ok(())
    }

    /// Whether a place is among them.
    pub fn has(&self, place: usize) -> bool
        ensures { result ≡ list_any (λ t. t == place) self.now }
    {
        self.places.contains(&place)
    }
}

/// Where an offset leads that counts from the end of its instruction: 0 for a target below 0, which no
/// well-formed program has.
pub(crate) fn place_after(next: usize, offset: i16) -> usize
    requires { next < 2 ^ 63 - 2 ^ 15 }
    ensures { result ≡ place (target next offset) }
{
    let target = next as i64 + i64::from(offset);
    if target < 0 { 0 } else { target as usize }
}

fn add_each(places: &mut Places, offsets: &[i16], next: usize) -> Result<(), Memory>
    requires { next < 2 ^ 63 - 2 ^ 15 }
    ensures { OnOk result (places.new ≡ with_places places.old (map place (map (target next) offsets.now))) }
{
    for offset in offsets {
        places.add(place_after(next, *offset))?;
    }
    Ok(())
}

/// Adds the places to which an instruction branches that ends at `next`.
fn add_targets(places: &mut Places, instr: &Instr, next: usize) -> Result<(), Memory>
    requires { next < 2 ^ 63 - 2 ^ 15 }
    ensures { OnOk result (places.new ≡ with_places places.old (map place (targets_of next instr.now.imm))) }
{
    match &instr.imm {
        Imm::Jump(offset) => add_each(places, &[*offset], next),
        Imm::Jumps(offsets) => add_each(places, offsets.as_slice(), next),
        _ => Ok(()),
    }
}

/// The same of an instruction that is not used again.
fn gather(places: &mut Places, instr: Instr, next: usize) -> Result<(), Memory>
    requires { next < 2 ^ 63 - 2 ^ 15 }
    ensures { OnOk result (places.new ≡ with_places places.old (map place (targets_of next instr.imm))) }
{
    add_targets(places, &instr, next)
}

/// The places to which a program branches.
pub(crate) fn targets_of(alloc: Global, code: &[u8]) -> Result<Places, Memory>
    requires { length code.now < 2 ^ 62 }
    ensures { IfOk result (λ p. p ≡ with_places [] (targets (instructions code.now))) }
{
    let mut places = Places::new(alloc);
    let mut pc = 1;
    while pc < code.len() {
        let (instr, next) = instruction_at(alloc, code, pc)?;
        gather(&mut places, instr, next)?;
        pc = next;
    }
    Ok(places)
}
