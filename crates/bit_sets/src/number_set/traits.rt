//! The impls of std's traits for the set.
ghost use Rattle.std.specs.Prelude.{◌≡◌, ◌≤◌, ◌<◌, ◌↔◌, ℕ, All, IsTrue, length, refl, Some};
ghost use Rattle.std.specs.Cmp.{partial_equiv_from_equiv};
ghost use Rattle.std.specs.Iterator.{YieldsFirst, YieldsLast};
ghost use Rattle.std.specs.Iterator.Runs.{YieldsInOrder, YieldsInReverse};
ghost use Rattle.bit_addressing.specs.declared.length.TheConstants.{MAX_BITS};
ghost use Rattle.bit_slice.specs.Indices.{ones_left};
ghost use Rattle.bit_slice.specs.Places.{ones_of};
ghost use Rattle.bit_sets.specs.Compared.{numbers_alike, numbers_cmp, numbers_equiv, numbers_fed, numbers_partial, numbers_tie, numbers_total, same_numbers, IsLeastBound};
ghost use Rattle.bit_sets.specs.NumberSet.{IsIn, set_text};

use crate::number_set::NumberSet;
use bit_addressing::{BitOrder, BitStore, Lsb0};
use bit_containers::{BitList, IterOnes};
use std::alloc::AllocError;
use std::cmp::Ordering;
use std::fmt;
use std::hash::{Hash, Hasher};

impl Clone for NumberSet {
    ghost use Rattle.std.specs.Prelude.{◌≡◌, []};

    ghost is_clone = { λ set copy. copy ≡ set };

    ghost is_infallible = { λ set. set ≡ [] };

    /// A copy, with the same bound. Allocates, and can fail, only where the bound is not 0.
    fn clone(&self) -> Result<Self, AllocError> {
        let bits = self.bits.clone()?;
        Ok(NumberSet { bits })
    }
}

impl PartialEq for NumberSet {
    ghost eq = { same_numbers };

    ghost laws = { partial_equiv_from_equiv numbers_equiv };

    /// Whether both have the same numbers, whatever their bounds.
    fn eq(&self, other: &Self) -> bool
        ensures value { result ≡ same_numbers self.now other.now }
        ensures numbers { IsTrue result ↔ (ones_of self.now ≡ ones_of other.now) }
        ensures members { IsTrue result ↔ ((k : ℕ) → IsIn self.now k ↔ IsIn other.now k) }
    {
        self.has_same_numbers(other)
    }
}

impl Eq for NumberSet {
    ghost laws = { numbers_equiv };
}

impl PartialOrd for NumberSet {
    ghost partial_cmp = { λ a b. Some (numbers_cmp a b) };

    ghost laws = { numbers_partial };

    /// Like `cmp`.
    fn partial_cmp(&self, other: &Self) -> Option<Ordering> {
        Some(self.cmp(other))
    }
}

impl NumberSet {
    // Whether each number of either set is in both.
    fn has_same_numbers(&self, other: &Self) -> bool
        ensures { IsTrue result ↔ ((k : ℕ) → IsIn self.now k ↔ IsIn other.now k) }
    {
        self.is_subset(other) && self.is_superset(other)
    }

    // The least bound above each number of the set.
    fn least_bound(&self) -> usize
        ensures least { IsLeastBound self.now result }
        ensures inside { result ≤ length self.now }
    {
        match self.last() {
            None => 0,
            Some(number) => number + 1,
        }
    }
}

impl Ord for NumberSet {
    ghost cmp = { numbers_cmp };

    ghost total = { numbers_total };

    ghost matches_partial_cmp = { λ a b. refl };

    ghost matches_eq = { numbers_tie };

    /// How the ascending lists of the numbers are ordered, whatever the bounds: the first numbers that differ decide,
    /// and where none do the shorter list is the smaller. It compares whole words.
    fn cmp(&self, other: &Self) -> Ordering {
        let (end, other_end) = (self.least_bound(), other.least_bound());
        let both = end.min(other_end);
        // At the first bit that differs, the set that has the number has the smaller one there.
        let part = other.bits.as_bitslice().get_range(..both);
        match part.cmp_bits(self.bits.as_bitslice().get_range(..both)) {
            Ordering::Equal => end.cmp(&other_end),
            order => order,
        }
    }
}

impl Hash for NumberSet {
    ghost hash_input = { numbers_fed };

    ghost respects_eq = { numbers_alike.fed };

    /// Feeds how many numbers there are, and then each, ascending.
    fn hash<H: Hasher>(&self, state: &mut H) {
        state.write_usize(self.len());
        for number in self.iter() {
            state.write_usize(number);
        }
    }
}

impl<'a> IntoIterator for &'a NumberSet {
    type Item = usize;

    type IntoIter = IterOnes<'a, usize, Lsb0>;

    ghost into_iter_gives = { λ s r. (ones_left r ≡ ones_of s.now)
        × All (λ number. number < length s.now) (ones_left r) × (length (ones_left r) ≤ MAX_BITS)
        × YieldsInOrder (YieldsFirst (ones_left {W = ⟦<usize as BitStore>⟧} {P = ⟦<Lsb0 as BitOrder>⟧})) ones_left
        × YieldsInReverse (YieldsLast (ones_left {W = ⟦<usize as BitStore>⟧} {P = ⟦<Lsb0 as BitOrder>⟧})) ones_left };

    /// Like `iter`.
    fn into_iter(self) -> IterOnes<'a, usize, Lsb0> {
        self.iter()
    }
}

/// `{`, the numbers, ascending, with `, ` between two, and `}`.
///
/// ```text
/// println!(rt; "{set}")?;      // {1, 4, 9}
/// ```
impl fmt::Display for NumberSet {
    ghost output = { λ s. Some (set_text s) };

    fn fmt<W: fmt::Write>(&self, f: &mut fmt::Formatter<W>) -> fmt::Result {
        let mut numbers = self.iter();
        let Some(first) = numbers.next() else {
            return f.write_str("{}");
        };
        write!(f, "{{{first}")?;
        for number in numbers {
            write!(f, ", {number}")?;
        }
        f.write_str("}")
    }
}

/// The text of `Display`.
impl fmt::Debug for NumberSet {
    fn fmt<W: fmt::Write>(&self, f: &mut fmt::Formatter<W>) -> fmt::Result {
        write!(f, "{self}")
    }
}
