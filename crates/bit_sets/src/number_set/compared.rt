//! Two sets compared and counted.
ghost use Rattle.std.specs.Prelude.{◌≡◌, ◌↔◌, ℕ, IsTrue, length};
ghost use Rattle.bit_containers.specs.Making.{filled_up};
ghost use Rattle.bit_slice.specs.Operators.{and_not_of, and_of, or_of, xor_of};
ghost use Rattle.bit_slice.specs.Places.{ones_of};
ghost use Rattle.bit_sets.specs.NumberSet.{IsIn};

use crate::number_set::NumberSet;
use bit_containers::BitList;

impl NumberSet {
    /// Whether each number of this set is in the other.
    pub fn is_subset(&self, other: &Self) -> bool
        ensures { IsTrue result ↔ ((k : ℕ) → IsIn self.now k → IsIn other.now k) }
    {
        self.bits.is_subset(other.bits.as_bitslice())
    }

    /// Whether each number of the other set is in this one.
    pub fn is_superset(&self, other: &Self) -> bool
        ensures { IsTrue result ↔ ((k : ℕ) → IsIn other.now k → IsIn self.now k) }
    {
        self.bits.is_superset(other.bits.as_bitslice())
    }

    /// Whether no number is in both sets.
    pub fn is_disjoint(&self, other: &Self) -> bool
        ensures { IsTrue result ↔ ((k : ℕ) → IsIn self.now k → IsIn other.now k → ⊥) }
    {
        self.bits.is_disjoint(other.bits.as_bitslice())
    }

    /// The count of numbers in either set. Takes no memory.
    pub fn count_union(&self, other: &Self) -> usize
        ensures { result ≡ length (ones_of (or_of (filled_up self.now (length other.now)) other.now)) }
    {
        self.bits.count_or(other.bits.as_bitslice())
    }

    /// The count of numbers in both sets. Takes no memory.
    #[tactic(auto, using(crate::proofs::CountedSets::in_both))]
    pub fn count_intersection(&self, other: &Self) -> usize
        ensures { result ≡ length (ones_of (and_of (filled_up self.now (length other.now)) other.now)) }
    {
        self.bits.count_and(other.bits.as_bitslice())
    }

    /// The count of numbers in this set and not in the other. Takes no memory.
    pub fn count_difference(&self, other: &Self) -> usize
        ensures { result ≡ length (ones_of (and_not_of (filled_up self.now (length other.now)) other.now)) }
    {
        self.bits.count_ones() - self.bits.count_and(other.bits.as_bitslice())
    }

    /// The count of numbers in exactly one of the sets. Takes no memory.
    pub fn count_symmetric_difference(&self, other: &Self) -> usize
        ensures { result ≡ length (ones_of (xor_of (filled_up self.now (length other.now)) other.now)) }
    {
        self.bits.count_xor(other.bits.as_bitslice())
    }
}
