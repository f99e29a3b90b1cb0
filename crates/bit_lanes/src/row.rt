ghost use Rattle.std.specs.Prelude.{◌≡◌, ◌≢◌, ◌<◌, ◌↔◌, Some, true, false, length, replicate, slice_get, slice_set, IsTrue, IfOk};
ghost use Rattle.bit_lanes.specs.Rows.{union, difference, intersection, size};

use crate::lanes::{Difference, Intersection, Union, combine};
use puya_base::Memory;
use std::alloc::Global;
use std::marker::Model;

/// A set of the natural numbers below a bound, as a row of bits in lanes of 64 (a bit vector). A contract sees the list
/// of its truth values, one for each number below the bound.
#[derive(Drop)]
pub struct BitRow {
    bits: usize,
    lanes: Vec<u64>,
}

impl Model for BitRow {
    ghost use Rattle.std.specs.Prelude.{Bool, List};
    ghost use Rattle.bit_lanes.specs.Rows.{members, IsRow};

    ghost Value = { List Bool };

    ghost view = { λ r. members r.bits r.lanes.items };

    ghost invariant = { λ r. IsRow r.bits r.lanes.items };
}

impl BitRow {
    /// The empty set of numbers below `bits`. The error is want of memory; no other call takes any.
    pub fn new(alloc: Global, bits: usize) -> Result<BitRow, Memory>
        ensures { IfOk result (λ r. r ≡ replicate bits false) }
    {
        let lanes = vec![in alloc; 0u64; bits.div_ceil(64)]?;
        Ok(BitRow { bits, lanes })
    }

    /// Puts a number below the bound into the set.
    pub fn set(&mut self, i: usize)
        requires { i < length self.old }
        ensures { self.new ≡ slice_set self.old i true }
    {
        self.lanes[i / 64] |= 1u64 << (i % 64);
    }

    /// Takes a number below the bound out of the set.
    pub fn clear(&mut self, i: usize)
        requires { i < length self.old }
        ensures { self.new ≡ slice_set self.old i false }
    {
        self.lanes[i / 64] &= !(1u64 << (i % 64));
    }

    /// Whether a number below the bound is in the set.
    pub fn has(&self, i: usize) -> bool
        requires { i < length self.now }
        ensures { slice_get self.now i ≡ Some result }
    {
        (self.lanes[i / 64] >> (i % 64)) & 1 == 1
    }

    /// Adds what the other set has, and says whether this one grew.
    pub fn or_with(&mut self, other: &BitRow) -> bool
        requires { length other.now ≡ length self.old }
        ensures set { self.new ≡ union self.old other.now }
        ensures bound { length self.new ≡ length self.old }
        ensures grew { IsTrue result ↔ (self.new ≢ self.old) }
    {
        combine::<Union>(&mut self.lanes, &other.lanes)
    }

    /// Takes out what the other set has.
    pub fn and_not(&mut self, other: &BitRow)
        requires { length other.now ≡ length self.old }
        ensures set { self.new ≡ difference self.old other.now }
        ensures bound { length self.new ≡ length self.old }
    {
        let _changed = combine::<Difference>(&mut self.lanes, &other.lanes);
    }

    /// Keeps what the other set has too, and says whether this one shrank.
    pub fn and_with(&mut self, other: &BitRow) -> bool
        requires { length other.now ≡ length self.old }
        ensures set { self.new ≡ intersection self.old other.now }
        ensures bound { length self.new ≡ length self.old }
        ensures shrank { IsTrue result ↔ (self.new ≢ self.old) }
    {
        combine::<Intersection>(&mut self.lanes, &other.lanes)
    }

    /// Whether both are the same set.
    pub fn same(&self, other: &BitRow) -> bool
        requires { length other.now ≡ length self.now }
        ensures { IsTrue result ↔ (self.now ≡ other.now) }
    {
        self.lanes.as_slice() == other.lanes.as_slice()
    }

    /// How many numbers are in the set.
    pub fn count(&self) -> usize
        ensures { result ≡ size self.now }
    {
        let mut total = 0;
        for lane in &self.lanes {
            total += lane.count_ones() as usize;
        }
        total
    }
}
