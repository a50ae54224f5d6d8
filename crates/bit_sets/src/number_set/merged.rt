//! The numbers of two sets, without a copy.
ghost use Rattle.std.specs.Iterator.{YieldsFirst};
ghost use Rattle.std.specs.Iterator.Runs.{YieldsInOrder};
ghost use Rattle.std.specs.Prelude.{◌≡◌, ◌<◌, ◌≤◌, ◌⊎◌, ◌↔◌, ℕ, true, IfSome, MatchOption, length, max};
ghost use Rattle.bit_addressing.specs.declared.length.TheConstants.{MAX_BITS};
ghost use Rattle.bit_slice.specs.Places.{IsAbsent, IsNext, ones_of};
ghost use Rattle.bit_sets.specs.NumberSet.{IsIn};

use crate::number_set::NumberSet;
use std::alloc::AllocError;
use std::fmt;
use std::iter::{FusedIterator, Iterator};

// Which numbers of two sets an iterator gives.
#[derive(Clone, Copy)]
enum Merging {
    Either,
    Both,
    LeftAlone,
    OneAlone,
}

impl Merging {
    ghost use Rattle.bit_sets.specs.Merged.{made_by};

    // Whether a number is given, by whether it is in each set.
    fn keeps(self, left: bool, right: bool) -> bool
        ensures { result ≡ made_by self left right }
    {
        match self {
            Merging::Either => left || right,
            Merging::Both => left && right,
            Merging::LeftAlone => left && !right,
            Merging::OneAlone => left != right,
        }
    }
}

/// The numbers of two sets, ascending, each once: those in both, in either, or in one alone. It takes no
/// memory.
#[derive(Drop)]
pub struct Merged<'a> {
    left: &'a NumberSet,
    right: &'a NumberSet,
    merging: Merging,
    from: usize,
    upto: usize,
    ghost fits: { upto ≡ max (length left.now) (length right.now) },
}

impl NumberSet {
    ghost use Rattle.bit_slice.specs.Operators.{and_of, and_not_of, or_of, xor_of};
    ghost use Rattle.bit_containers.specs.Making.{filled_up};
    ghost use Rattle.bit_sets.specs.Merged.{merged_left, merged_list};

    /// The numbers of either set, ascending, each once. Takes no memory.
    pub fn union<'a>(&'a self, other: &'a Self) -> Merged<'a>
        ensures list { merged_left result ≡ ones_of (or_of (filled_up self.now (length other.now)) other.now) }
        ensures few { length (merged_left result) ≤ MAX_BITS }
        ensures runs { YieldsInOrder (YieldsFirst merged_left) merged_left }
    {
        self.merge(other, Merging::Either)
    }

    /// The numbers of both sets, ascending. Takes no memory.
    pub fn intersection<'a>(&'a self, other: &'a Self) -> Merged<'a>
        ensures list { merged_left result ≡ ones_of (and_of (filled_up self.now (length other.now)) other.now) }
        ensures few { length (merged_left result) ≤ MAX_BITS }
        ensures runs { YieldsInOrder (YieldsFirst merged_left) merged_left }
    {
        self.merge(other, Merging::Both)
    }

    /// The numbers of this set that are not in the other, ascending. Takes no memory.
    pub fn difference<'a>(&'a self, other: &'a Self) -> Merged<'a>
        ensures list { merged_left result ≡ ones_of (and_not_of (filled_up self.now (length other.now)) other.now) }
        ensures few { length (merged_left result) ≤ MAX_BITS }
        ensures runs { YieldsInOrder (YieldsFirst merged_left) merged_left }
    {
        self.merge(other, Merging::LeftAlone)
    }

    /// The numbers of exactly one of the sets, ascending. Takes no memory.
    pub fn symmetric_difference<'a>(&'a self, other: &'a Self) -> Merged<'a>
        ensures list { merged_left result ≡ ones_of (xor_of (filled_up self.now (length other.now)) other.now) }
        ensures few { length (merged_left result) ≤ MAX_BITS }
        ensures runs { YieldsInOrder (YieldsFirst merged_left) merged_left }
    {
        self.merge(other, Merging::OneAlone)
    }

    // The numbers of two sets that are to be given.
    fn merge<'a>(&'a self, other: &'a Self, merging: Merging) -> Merged<'a>
        ensures list { merged_left result ≡ ones_of (merged_list merging self.now other.now) }
        ensures few { length (merged_left result) ≤ MAX_BITS }
    {
        Merged {
            left: self,
            right: other,
            merging,
            from: 0,
            upto: self.bound().max(other.bound()),
        }
    }
}

impl<'a> Merged<'a> {
    ghost use Rattle.bit_sets.specs.Merged.{merged_list};

    // The least number of either set that is at least `from`.
    fn least_from(&self, from: usize) -> Option<usize>
        ensures least { MatchOption result
            ((k : ℕ) → from ≤ k → (IsIn self.now.left.now k ⊎ IsIn self.now.right.now k) → ⊥)
            (λ i. (from ≤ i) × (IsIn self.now.left.now i ⊎ IsIn self.now.right.now i)
            × ((k : ℕ) → from ≤ k → k < i → (IsIn self.now.left.now k ⊎ IsIn self.now.right.now k) → ⊥)) }
        ensures below { IfSome result (λ i. i < MAX_BITS) }
    {
        let right = self.right.next_at_least(from);
        let Some(least) = self.left.next_at_least(from) else {
            return right;
        };
        match right {
            None => Some(least),
            Some(other) => Some(least.min(other)),
        }
    }

    // The first number that is left.
    fn find_next(&self) -> Option<usize>
        ensures { MatchOption result (IsAbsent true
            (merged_list self.now.merging self.now.left.now self.now.right.now) self.now.from self.now.upto)
            (IsNext true (merged_list self.now.merging self.now.left.now self.now.right.now) self.now.from
            self.now.upto) }
    {
        let mut from = self.from;
        while let Some(number) = self.least_from(from) {
            let (left, right) = (self.left.contains(number), self.right.contains(number));
            if self.merging.keeps(left, right) {
                return Some(number);
            }
            from = number + 1;
        }
        None
    }
}

impl<'a> Iterator for Merged<'a> {
    ghost use Rattle.std.specs.Iterator.{YieldsFirst, UpTo, at_most, item_count};
    ghost use Rattle.std.specs.Iterator.SizeHint.{IsWithinCount};
    ghost use Rattle.std.specs.Prelude.{IfSome, length};
    ghost use Rattle.bit_sets.specs.Merged.{merged_left};

    type Item = usize;

    ghost next_gives = { YieldsFirst merged_left };

    ghost remaining = { item_count merged_left };

    /// The least number that is left. None exactly where none is.
    fn next(&mut self) -> Option<usize> {
        match self.find_next() {
            None => {
                self.from = self.upto;
                None
            }
            Some(number) => {
                self.from = number + 1;
                Some(number)
            }
        }
    }
}

impl<'a> FusedIterator for Merged<'a> {}

impl<'a> Merged<'a> {
    ghost use Rattle.bit_sets.specs.Merged.{merged_left};

    // The same iterator, with the same left.
    fn same(&self) -> Self
        ensures { merged_left result ≡ merged_left self.now }
    {
        Merged {
            left: self.left,
            right: self.right,
            merging: self.merging,
            from: self.from,
            upto: self.upto,
        }
    }
}

impl<'a> Clone for Merged<'a> {
    ghost use Rattle.std.specs.Prelude.{⊤};
    ghost use Rattle.bit_sets.specs.Merged.{merged_left};

    ghost is_clone = { λ a b. merged_left b ≡ merged_left a };

    ghost is_infallible = { λ _. ⊤ };

    /// The same iterator, with the same left. Takes no memory.
    fn clone(&self) -> Result<Self, AllocError> {
        Ok(self.same())
    }
}

/// The numbers that are left, as a list.
impl<'a> fmt::Debug for Merged<'a> {
    fn fmt<W: fmt::Write>(&self, f: &mut fmt::Formatter<W>) -> fmt::Result {
        f.debug_list().entries(self.same()).finish()
    }
}
