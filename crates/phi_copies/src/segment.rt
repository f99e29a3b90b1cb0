//! The moves of one path.

ghost use Rattle.std.specs.Prelude.{◌≡◌, IfOk};
ghost use Rattle.phi_copies.specs.Paths.{moves_of};

use crate::copies::{Moves, Pair};
use puya_base::{List, Memory};
use std::alloc::Global;

/// The moves of a path that ends at the place `end`. Where a pair of the path writes `end`, the path runs into a cycle:
/// `end` is saved in the spare place before, and read there.
pub(crate) fn moves_of(
    alloc: Global,
    path: &[Pair],
    end: u32,
    spare: u32,
) -> Result<Vec<Pair>, Memory>
    ensures { IfOk result (λ moves. moves.items ≡ moves_of spare end path.now) }
{
    let mut moves = Vec::new(alloc);
    let mut saved = false;
    for p in path {
        if !saved && p.to == end {
            moves.push(Pair {
                to: spare,
                from: end,
            })?;
            saved = true;
        }
        let from = if saved && p.from == end {
            spare
        } else {
            p.from
        };
        moves.push(Pair { to: p.to, from })?;
    }
    Ok(moves)
}
