//! The sequencing of parallel copies.

ghost use Rattle.std.specs.Prelude.{◌≡◌, ℕ, ◌++◌, true, false, nat_eq, reverse, Some, None, IfOk, OnOk};
ghost use Rattle.indexmap.specs.IndexMap.{get, index_map_len};
ghost use Rattle.phi_copies.specs.Cycles.{OneMorePerCycle};
ghost use Rattle.phi_copies.specs.Parallel.{Sequences, no_two_write_one, uses};
ghost use Rattle.phi_copies.specs.Paths.{moves_of};
ghost use Rattle.phi_copies.specs.Waiting.{IsWaiting};

use crate::copies::{Copies, Moves, Pair};
use crate::path::{Path, follow};
use crate::segment::moves_of;
use indexmap::IndexMap;
use puya_base::{List, Memory};
use std::alloc::Global;

/// The pairs that are no self copies, as a map from each place to its source.
fn waiting_of(alloc: Global, pairs: &[Pair]) -> Result<IndexMap<u32, u32>, Memory>
    requires { no_two_write_one pairs.now ≡ true }
    ensures { IfOk result (λ waiting. IsWaiting pairs.now (get nat_eq waiting) (index_map_len waiting)) }
{
    let mut waiting = IndexMap::new(alloc);
    for p in pairs {
        let is_proper = p.to != p.from;
        if is_proper {
            waiting.insert(p.to, p.from)?;
        }
    }
    Ok(waiting)
}

/// Adds the moves of a path, the last first.
fn add_backwards(
    alloc: Global,
    backwards: &mut Vec<Pair>,
    path: Path,
    spare: u32,
) -> Result<(), Memory>
    ensures { OnOk result (backwards.new.items ≡ backwards.old.items ++ reverse (moves_of spare path.end path.pairs)) }
{
    let mut moves = moves_of(alloc, path.pairs.as_slice(), path.end, spare)?;
    moves.reverse();
    backwards.extend_from_slice(moves.as_slice())?;
    Ok(())
}

/// Moves that do, one after another, what the copies do at once; only what the spare place holds may differ. A self copy makes
/// no move, each other copy one, and a cycle one more. The time is linear in the copies, with two look-ups for each. The error
/// is want of memory.
pub fn sequence(alloc: Global, copies: &Copies) -> Result<Moves, Memory>
    requires single { no_two_write_one copies.now.pairs ≡ true }
    requires apart { uses copies.now.spare copies.now.pairs ≡ false }
    ensures same { IfOk result (λ moves. Sequences moves copies.now.pairs copies.now.spare) }
    ensures count { IfOk result (λ moves. OneMorePerCycle moves copies.now.pairs) }
{
    let pairs = copies.pairs.as_slice();
    let mut waiting = waiting_of(alloc, pairs)?;
    let mut backwards = Vec::new(alloc);
    for p in pairs {
        let path = follow(alloc, &mut waiting, p.to)?;
        add_backwards(alloc, &mut backwards, path, copies.spare)?;
    }
    backwards.reverse();
    Ok(List::from_vec(backwards))
}
