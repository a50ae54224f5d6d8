//! Sets combined by operators.
ghost use Rattle.std.specs.Prelude.{◌≡◌, ◌⊎◌, ◌↔◌, ℕ, length, max};
ghost use Rattle.bit_sets.specs.NumberSet.{IsIn};

use crate::number_set::NumberSet;
use std::ops::{BitAnd, BitOr, BitXor, Sub};

impl BitOr for NumberSet {
    type Output = Self;

    ghost bitor_gives = { λ a b c. (length c ≡ max (length a) (length b))
        × ((k : ℕ) → IsIn c k ↔ (IsIn a k ⊎ IsIn b k)) };

    /// The numbers of either set, with the higher bound. Takes no memory: the set with the higher bound is kept.
    fn bitor(mut self, mut other: Self) -> Self {
        if self.bound() < other.bound() {
            other.put_in(&self);
            return other;
        }
        self.put_in(&other);
        self
    }
}

impl BitAnd for NumberSet {
    type Output = Self;

    ghost bitand_gives = { λ a b c. (length c ≡ length a) × ((k : ℕ) → IsIn c k ↔ (IsIn a k × IsIn b k)) };

    /// The numbers of both sets, with the left one's bound. Takes no memory.
    fn bitand(mut self, other: Self) -> Self {
        self.intersect_with(&other);
        self
    }
}

impl Sub for NumberSet {
    type Output = Self;

    ghost sub_gives = { λ a b c. (length c ≡ length a) × ((k : ℕ) → IsIn c k ↔ (IsIn a k × (IsIn b k → ⊥))) };

    /// The numbers of the left set that are not in the right one, with the left one's bound. Takes no memory.
    fn sub(mut self, other: Self) -> Self {
        self.difference_with(&other);
        self
    }
}

impl BitXor for NumberSet {
    type Output = Self;

    ghost bitxor_gives = { λ a b c. (length c ≡ max (length a) (length b))
        × ((k : ℕ) → IsIn c k ↔ ((IsIn a k × (IsIn b k → ⊥)) ⊎ (IsIn b k × (IsIn a k → ⊥)))) };

    /// The numbers of exactly one of the sets, with the higher bound. Takes no memory.
    fn bitxor(mut self, mut other: Self) -> Self {
        if self.bound() < other.bound() {
            other.exchange(&self);
            return other;
        }
        self.exchange(&other);
        self
    }
}
