//! Sets combined in place, two or many, and the complement.
ghost use Rattle.std.specs.Prelude.{◌≡◌, ◌≢◌, ◌≤◌, ◌<◌, ◌⊎◌, ◌↔◌, ℕ, All, Any, Err, IfOk, OnErr, OnOk, fold, length, max};
ghost use Rattle.bit_addressing.specs.declared.errors.GrowError.TheVariants as errors;
ghost use Rattle.bit_addressing.specs.declared.length.TheConstants.{MAX_BITS};
ghost use Rattle.bit_sets.specs.NumberSet.{IsIn};

use crate::number_set::NumberSet;
use bit_addressing::GrowError;
use bit_containers::{BitList, BitListMut, BitVec};
use std::alloc::Global;

impl NumberSet {
    /// Puts the numbers of another set into this one, whose bound grows where the other's is higher. Refused only for
    /// memory and only where the bound grows; a refusal leaves the set as it was.
    ///
    /// ```text
    /// of 2, 3 and 3, 5: seen.union_with(&other)? leaves 2, 3, 5
    /// ```
    #[tactic(auto, using(crate::proofs::Members::united))]
    pub fn union_with(&mut self, other: &Self) -> Result<(), GrowError>
        ensures bound { OnOk result (length self.new ≡ max (length self.old) (length other.now)) }
        ensures members { OnOk result ((k : ℕ) → IsIn self.new k ↔ (IsIn self.old k ⊎ IsIn other.now k)) }
        ensures only_memory { result ≢ Err errors.TooLong }
        ensures grows { OnErr result (length self.old < length other.now) }
        ensures refused { OnErr result (self.new ≡ self.old) }
    {
        self.bits.or_growing(other.bits.as_bitslice())
    }

    /// Keeps the numbers that are in another set too; the bound stays. Takes no memory.
    ///
    /// ```text
    /// of 2, 3 and 3, 5: seen.intersect_with(&other) leaves 3
    /// ```
    #[tactic(auto, using(crate::proofs::Members::in_both))]
    pub fn intersect_with(&mut self, other: &Self)
        ensures bound { length self.new ≡ length self.old }
        ensures members { (k : ℕ) → IsIn self.new k ↔ (IsIn self.old k × IsIn other.now k) }
    {
        self.bits.and_bits(other.bits.as_bitslice());
    }

    /// Takes the numbers of another set out of this one; the bound stays. Takes no memory.
    ///
    /// ```text
    /// of 2, 3 and 3, 5: seen.difference_with(&other) leaves 2
    /// ```
    #[tactic(auto, using(crate::proofs::Members::in_difference))]
    pub fn difference_with(&mut self, other: &Self)
        ensures bound { length self.new ≡ length self.old }
        ensures members { (k : ℕ) → IsIn self.new k ↔ (IsIn self.old k × (IsIn other.now k → ⊥)) }
    {
        self.bits.and_not_bits(other.bits.as_bitslice());
    }

    /// Puts in each number of another set that is not in this one, and takes out each that is. The bound grows where
    /// the other's is higher. Refused only for memory and only where the bound grows; a refusal leaves the set as
    /// it was.
    ///
    /// ```text
    /// of 2, 3 and 3, 5: seen.symmetric_difference_with(&other)? leaves 2, 5
    /// ```
    pub fn symmetric_difference_with(&mut self, other: &Self) -> Result<(), GrowError>
        ensures bound { OnOk result (length self.new ≡ max (length self.old) (length other.now)) }
        ensures members { OnOk result ((k : ℕ) → IsIn self.new k
            ↔ ((IsIn self.old k × (IsIn other.now k → ⊥)) ⊎ (IsIn other.now k × (IsIn self.old k → ⊥)))) }
        ensures only_memory { result ≢ Err errors.TooLong }
        ensures grows { OnErr result (length self.old < length other.now) }
        ensures refused { OnErr result (self.new ≡ self.old) }
    {
        self.bits.xor_growing(other.bits.as_bitslice())
    }

    /// Puts the numbers of each of these sets into this one. The bound grows once, to the highest of theirs where that
    /// is higher. Refused only for memory and only where the bound grows; a refusal leaves the set as it was.
    ///
    /// ```text
    /// of 2 and the sets of 3, 5 and of 2, 7: seen.union_with_all(&sets)? leaves 2, 3, 5, 7
    /// ```
    pub fn union_with_all(&mut self, others: &[Self]) -> Result<(), GrowError>
        ensures bound { OnOk result (length self.new
            ≡ fold (λ bound s. max bound (length s)) (length self.old) others.now) }
        ensures members { OnOk result ((k : ℕ) → IsIn self.new k
            ↔ (IsIn self.old k ⊎ Any (λ s. IsIn s k) others.now)) }
        ensures only_memory { result ≢ Err errors.TooLong }
        ensures grows { OnErr result (Any (λ s. length self.old < length s) others.now) }
        ensures refused { OnErr result (self.new ≡ self.old) }
    {
        let bound = highest_bound(self.bound(), others);
        self.raise_bound(bound)?;
        for other in others {
            self.put_in(other);
        }
        Ok(())
    }

    /// Keeps the numbers that are in each of these sets too; the bound stays. Takes no memory.
    ///
    /// ```text
    /// of 2, 3, 5 and the sets of 3, 5 and of 2, 3: seen.intersect_with_all(&sets) leaves 3
    /// ```
    pub fn intersect_with_all(&mut self, others: &[Self])
        ensures bound { length self.new ≡ length self.old }
        ensures members { (k : ℕ) → IsIn self.new k ↔ (IsIn self.old k × All (λ s. IsIn s k) others.now) }
    {
        for other in others {
            self.intersect_with(other);
        }
    }

    /// The numbers below `bound` that are not in the set, with that bound. Returns `TooLong` exactly where `bound`
    /// passes `MAX_BITS`. Takes no memory where `bound` is 0.
    ///
    /// ```text
    /// of 2, 3: seen.complement(alloc, 6)?      // 0, 1, 4, 5
    /// ```
    pub fn complement(&self, alloc: Global, bound: usize) -> Result<Self, GrowError>
        ensures bound { IfOk result (λ s. length s ≡ bound) }
        ensures members { IfOk result (λ s. (k : ℕ) → IsIn s k ↔ ((k < bound) × (IsIn self.now k → ⊥))) }
        ensures too_long { (result ≡ Err errors.TooLong) ↔ (MAX_BITS < bound) }
        ensures memory { result ≡ Err errors.OutOfMemory → 0 < bound }
    {
        let bits = BitVec::repeat(alloc, true, bound)?;
        let mut others = NumberSet { bits };
        others.difference_with(self);
        Ok(others)
    }

    // Like `union_with`, without a test of the bound. Requires that the other's bound is not higher.
    #[tactic(auto, using(crate::proofs::Members::in_union))]
    pub(crate) fn put_in(&mut self, other: &Self)
        requires { length other.now ≤ length self.old }
        ensures bound { length self.new ≡ length self.old }
        ensures members { (k : ℕ) → IsIn self.new k ↔ (IsIn self.old k ⊎ IsIn other.now k) }
    {
        self.bits.or_bits(other.bits.as_bitslice());
    }

    // Like `symmetric_difference_with`, without a test of the bound. Requires that the other's bound is not
    // higher.
    #[tactic(auto, using(crate::proofs::Members::exchanged))]
    pub(crate) fn exchange(&mut self, other: &Self)
        requires { length other.now ≤ length self.old }
        ensures bound { length self.new ≡ length self.old }
        ensures members { (k : ℕ) → IsIn self.new k
            ↔ ((IsIn self.old k × (IsIn other.now k → ⊥)) ⊎ (IsIn other.now k × (IsIn self.old k → ⊥))) }
    {
        self.bits.xor_bits(other.bits.as_bitslice());
    }
}

// The highest of a bound and those of sets.
fn highest_bound(least: usize, sets: &[NumberSet]) -> usize
    ensures value { result ≡ fold (λ bound s. max bound (length s)) least sets.now }
    ensures few { least ≤ MAX_BITS → result ≤ MAX_BITS }
{
    let mut bound = least;
    for set in sets {
        bound = bound.max(set.bound());
    }
    bound
}
