//! Two sets compared and counted, without a copy.
ghost use Rattle.std.specs.Prelude.{◌≡◌, ◌≤◌, ◌+◌, ◌^◌, ◌↔◌, ℕ, IsTrue, false, length, not, true};
ghost use Rattle.bit_blocks.specs.Numbers.{count_where, has};

use crate::keyed::common;
use crate::set::RoaringSet;

impl RoaringSet {
    /// The count of numbers in both sets. Takes no memory.
    pub fn count_intersection(&self, other: &Self) -> u64
        ensures { result ≡ count_where (has other.now) self.now }
    {
        common::count_both(&self.blocks, &other.blocks)
    }

    /// The count of numbers in this set and not in the other. Takes no memory.
    pub fn count_difference(&self, other: &Self) -> u64
        ensures value { result ≡ count_where (λ k. not (has other.now k)) self.now }
        ensures few { result ≤ length self.now }
        ensures most { result ≤ 2 ^ 32 }
    {
        self.len() - self.count_intersection(other)
    }

    /// The count of numbers in either set. Takes no memory.
    pub fn count_union(&self, other: &Self) -> u64
        ensures { result ≡ count_where (λ k. not (has other.now k)) self.now + length other.now }
    {
        self.count_difference(other) + other.len()
    }

    /// The count of numbers in exactly one of the sets. Takes no memory.
    pub fn count_symmetric_difference(&self, other: &Self) -> u64
        ensures { result ≡ count_where (λ k. not (has other.now k)) self.now + count_where (λ k. not (has self.now k)) other.now }
    {
        self.count_difference(other) + other.count_difference(self)
    }

    /// Whether each number of this set is in the other. Stops at the first block with a number that is not. Takes no memory.
    pub fn is_subset(&self, other: &Self) -> bool
        ensures { IsTrue result ↔ ((k : ℕ) → has self.now k ≡ true → has other.now k ≡ true) }
    {
        common::is_subset(&self.blocks, &other.blocks)
    }

    /// Whether each number of the other set is in this one. Like `is_subset`, it stops at the first block with a number
    /// that is not. Takes no memory.
    pub fn is_superset(&self, other: &Self) -> bool
        ensures { IsTrue result ↔ ((k : ℕ) → has other.now k ≡ true → has self.now k ≡ true) }
    {
        other.is_subset(self)
    }

    /// Whether no number is in both sets. Stops at the first block with a number that is. Takes no memory.
    pub fn is_disjoint(&self, other: &Self) -> bool
        ensures { IsTrue result ↔ ((k : ℕ) → has self.now k ≡ true → has other.now k ≡ false) }
    {
        common::are_disjoint(&self.blocks, &other.blocks)
    }
}
