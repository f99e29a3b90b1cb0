ghost use Rattle.std.specs.Prelude.{◌≡◌, ℕ, ◌+◌, ◌*◌, ◌≤◌, length, bit_and, bit_or};
ghost use Rattle.std.specs.Simd.Lanes.{zip2};
ghost use Rattle.bit_lanes.specs.Lanes.{Combined, without};

use std::simd::prelude::*;

/// The lanes of a group: what one vector holds.
const GROUP: usize = 4;

/// How two rows are combined, one lane at a time or a group at a time.
pub(crate) trait LaneOperation {
    ghost of_lanes: { ℕ → ℕ → ℕ };

    fn lane(a: u64, b: u64) -> u64
        ensures { result ≡ of_lanes a b };

    fn group(a: u64x4, b: u64x4) -> u64x4
        ensures { result ≡ zip2 of_lanes a b };
}

/// The bits of either row.
pub(crate) struct Union;

impl LaneOperation for Union {
    ghost of_lanes = { bit_or };

    #[inline(always)]
    fn lane(a: u64, b: u64) -> u64 {
        a | b
    }

    #[inline(always)]
    fn group(a: u64x4, b: u64x4) -> u64x4 {
        a | b
    }
}

/// The bits of the first row that the second has not.
pub(crate) struct Difference;

impl LaneOperation for Difference {
    ghost of_lanes = { without };

    #[inline(always)]
    fn lane(a: u64, b: u64) -> u64 {
        a & !b
    }

    #[inline(always)]
    fn group(a: u64x4, b: u64x4) -> u64x4 {
        a & !b
    }
}

/// The bits of both rows.
pub(crate) struct Intersection;

impl LaneOperation for Intersection {
    ghost of_lanes = { bit_and };

    #[inline(always)]
    fn lane(a: u64, b: u64) -> u64 {
        a & b
    }

    #[inline(always)]
    fn group(a: u64x4, b: u64x4) -> u64x4 {
        a & b
    }
}

/// Combines one group of lanes, and says whether a lane changed.
#[inline(always)]
fn combine_group<C: LaneOperation>(into: &mut [u64], from: &[u64], at: usize) -> bool
    requires into { at + 4 ≤ length into.old }
    requires from { length from.now ≡ length into.old }
    ensures { Combined C.of_lanes at (at + 4) into.old from.now into.new result }
{
    let old = u64x4::from_slice(&into[at..]);
    let new = C::group(old, u64x4::from_slice(&from[at..]));
    new.copy_to_slice(&mut into[at..]);
    new != old
}

/// Combines the first groups.
fn combine_groups<C: LaneOperation>(into: &mut [u64], from: &[u64], groups: usize) -> bool
    requires into { groups * 4 ≤ length into.old }
    requires from { length from.now ≡ length into.old }
    ensures { Combined C.of_lanes 0 (groups * 4) into.old from.now into.new result }
{
    let mut changed = false;
    for group in 0..groups {
        let grew = combine_group::<C>(into, from, group * GROUP);
        changed = changed || grew;
    }
    changed
}

/// Combines one lane, and says whether it changed.
#[inline(always)]
fn combine_lane<C: LaneOperation>(into: &mut [u64], from: &[u64], at: usize) -> bool
    requires into { at + 1 ≤ length into.old }
    requires from { length from.now ≡ length into.old }
    ensures { Combined C.of_lanes at (at + 1) into.old from.now into.new result }
{
    let old = into[at];
    let new = C::lane(old, from[at]);
    into[at] = new;
    new != old
}

/// Combines the lanes from `start` on.
fn combine_rest<C: LaneOperation>(into: &mut [u64], from: &[u64], start: usize) -> bool
    requires into { start ≤ length into.old }
    requires from { length from.now ≡ length into.old }
    ensures { Combined C.of_lanes start (length into.old) into.old from.now into.new result }
{
    let mut changed = false;
    for at in start..into.len() {
        let grew = combine_lane::<C>(into, from, at);
        changed = changed || grew;
    }
    changed
}

/// Combines each lane of a row with the lane of the other at its place, and says whether the row changed.
pub(crate) fn combine<C: LaneOperation>(into: &mut [u64], from: &[u64]) -> bool
    requires { length from.now ≡ length into.old }
    ensures { Combined C.of_lanes 0 (length into.old) into.old from.now into.new result }
{
    let groups = into.len() / GROUP;
    let in_groups = combine_groups::<C>(into, from, groups);
    let in_rest = combine_rest::<C>(into, from, groups * GROUP);
    in_groups || in_rest
}
