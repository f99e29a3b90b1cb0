//! Paths along the waiting pairs.

ghost use Rattle.std.specs.Prelude.{◌≡◌, ◌+◌, length, nat_eq, IfOk};
ghost use Rattle.indexmap.specs.IndexMap.{get, index_map_len};
ghost use Rattle.phi_copies.specs.Paths.{Followed};

use crate::copies::{Pair, Pairs};
use indexmap::IndexMap;
use puya_base::{List, Memory};
use std::alloc::Global;

/// Pairs each of which reads what the next one writes, and the place that the last one reads.
#[derive(Drop)]
pub(crate) struct Path {
    pub(crate) pairs: Pairs,
    pub(crate) end: u32,
}

/// Takes the path from `start` off the waiting pairs, given as a map from each place to its source.
pub(crate) fn follow(
    alloc: Global,
    waiting: &mut IndexMap<u32, u32>,
    start: u32,
) -> Result<Path, Memory>
    ensures path { IfOk result (λ path. Followed (get nat_eq waiting.old) (get nat_eq waiting.new) start path.pairs path.end) }
    ensures len { IfOk result (λ path. length path.pairs + index_map_len waiting.new ≡ index_map_len waiting.old) }
{
    let mut pairs = List::new(alloc);
    let mut end = start;
    while let Some(from) = waiting.swap_remove(&end) {
        pairs.push(Pair { to: end, from })?;
        end = from;
    }
    Ok(Path { pairs, end })
}
