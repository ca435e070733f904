ghost use Rattle.std.specs.Prelude.{◌≡◌, ◌<◌, ◌≤◌, ◌↔◌, IsNone, IfSome};
ghost use Rattle.std.specs.FinSet as set;
ghost use Rattle.lane_rows.specs.Least.{IsLeastOf};
ghost use Rattle.lane_rows.specs.Words.{row_of};

use crate::words::{self, WORDS};
use std::marker::Model;
use std::simd::u64x32;

/// A set of numbers below 2048. Contracts see it as the set.
#[derive(Drop)]
pub struct BitRow {
    words: [u64; WORDS],
}

impl Model for BitRow {
    ghost use Rattle.std.specs.Ordering.{nat_cmp};
    ghost use Rattle.std.specs.FinSet as set;
    ghost use Rattle.std.specs.Coded.{coded_ℕ};
    ghost use Rattle.lane_rows.specs.Words.{row_of};

    ghost Value = { set.FinSet nat_cmp };

    ghost coded = { set.code coded_ℕ };

    ghost view = { λ r. row_of r.words };
}

impl BitRow {
    /// The empty set.
    pub fn empty() -> BitRow
        ensures none { result ≡ set.empty }
    {
        BitRow { words: [0; WORDS] }
    }

    /// Adds a number.
    pub fn put(&mut self, bit: u32)
        requires bit { bit < 2048 }
        ensures added { self.new ≡ set.insert self.old bit }
    {
        self.words[(bit / 64) as usize] |= 1 << (bit % 64);
    }

    /// Whether the number is in the set.
    pub fn has(&self, bit: u32) -> bool
        requires bit { bit < 2048 }
        ensures member { result ≡ set.contains self.now bit }
    {
        (self.words[(bit / 64) as usize] >> (bit % 64)) & 1 == 1
    }

    /// Whether each number of this set is in the other.
    pub fn subset(&self, other: &BitRow) -> bool
        ensures within { result ≡ set.is_subset self.now other.now }
    {
        self.first_missing(other).is_none()
    }

    /// Adds the numbers of the other set.
    pub fn union_into(&mut self, other: &BitRow)
        ensures joined { self.new ≡ set.union self.old other.now }
    {
        self.words = words::union(self.lanes(), other.lanes()).to_array();
    }

    /// Takes away the numbers of the other set.
    pub fn minus_into(&mut self, other: &BitRow)
        ensures left { self.new ≡ set.difference self.old other.now }
    {
        self.words = words::minus(self.lanes(), other.lanes()).to_array();
    }

    /// The least number of this set that is not in the other; none where each is in it.
    pub fn first_missing(&self, other: &BitRow) -> Option<u32>
        ensures least { IfSome result (IsLeastOf (set.difference self.now other.now)) }
        ensures none { IsNone result ↔ (set.difference self.now other.now ≡ set.empty) }
    {
        words::first(words::minus(self.lanes(), other.lanes()))
    }

    /// How many numbers are in the set.
    pub fn count(&self) -> u32
        ensures numbers { result ≡ set.len self.now }
        ensures few { result ≤ 2048 }
    {
        words::count(self.lanes())
    }

    fn lanes(&self) -> u64x32
        ensures row { row_of result ≡ self.now }
    {
        u64x32::from_array(self.words)
    }
}
