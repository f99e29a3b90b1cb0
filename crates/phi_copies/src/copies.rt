//! The copies of a phi and the moves that do their work.

use puya_base::List;

/// A copy into the place `to` of what the place `from` holds.
#[derive(Clone, Copy, Debug, PartialEq, Eq)]
pub struct Pair {
    pub to: u32,
    pub from: u32,
}

/// Copies that happen at once: each source is read before any place is written.
pub type Pairs = List<Pair>;

/// Moves that are done one after another.
pub type Moves = List<Pair>;

/// Copies that happen at once, no two into one place, and a spare place, which is in none of them: a cycle goes through it.
#[derive(Debug, Drop)]
pub struct Copies {
    pub pairs: Pairs,
    pub spare: u32,
}
