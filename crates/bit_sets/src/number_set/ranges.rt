//! Ranges of numbers: put into a set, taken out, tested, counted and iterated over.
ghost use Rattle.std.specs.Iterator.{YieldsFirst, YieldsLast};
ghost use Rattle.std.specs.Iterator.Runs.{YieldsInOrder, YieldsInReverse};
ghost use Rattle.std.specs.Prelude.{◌≡◌, ◌+◌, ◌≤◌, ◌<◌, ◌⊎◌, ◌↔◌, ℕ, Err, IfSome, IsTrue, OnErr, OnOk, Some, length, max, min};
ghost use Rattle.std.specs.Range.Bound.{end_index, start_index};
ghost use Rattle.bit_addressing.specs.Range.{LiesIn};
ghost use Rattle.bit_addressing.specs.declared.errors.GrowError.TheVariants as errors;
ghost use Rattle.bit_addressing.specs.declared.length.TheConstants.{MAX_BITS};
ghost use Rattle.bit_slice.specs.Indices.{ones_left};
ghost use Rattle.bit_ranks.specs.Fits.{FitFrom};
ghost use Rattle.bit_sets.specs.NumberSet.{IsIn, numbers_between};

use crate::number_set::NumberSet;
use bit_addressing::{GrowError, Lsb0};
use bit_containers::{BitList, BitListMut, IterOnes};
use std::alloc::AllocError;
use std::fmt;
use std::iter::{DoubleEndedIterator, ExactSizeIterator, FusedIterator, Iterator};
use std::ops::{Bound, Range, RangeBounds};

impl NumberSet {
    /// Puts all numbers of a range into the set, by whole words. The bound grows to reach them. Returns `TooLong`
    /// exactly where the range is not empty and its end passes the bound and `MAX_BITS`. Takes memory only where the
    /// bound grows; a refusal leaves the set as it was.
    ///
    /// ```text
    /// seen.insert_range(10..20)?;      // 10, 11, .. 19
    /// ```
    pub fn insert_range(&mut self, numbers: Range<usize>) -> Result<(), GrowError>
        ensures bound { OnOk result (numbers.start < numbers.end → length self.new ≡ max (length self.old) numbers.end) }
        ensures empty { OnOk result (numbers.end ≤ numbers.start → self.new ≡ self.old) }
        ensures members { OnOk result ((k : ℕ) → IsIn self.new k
            ↔ (((numbers.start ≤ k) × (k < numbers.end)) ⊎ IsIn self.old k)) }
        ensures too_long { (result ≡ Err errors.TooLong)
            ↔ ((numbers.start < numbers.end) × (length self.old < numbers.end) × (MAX_BITS < numbers.end)) }
        ensures memory { result ≡ Err errors.OutOfMemory
            → (numbers.start < numbers.end) × (length self.old < numbers.end) }
        ensures refused { OnErr result (self.new ≡ self.old) }
    {
        if numbers.start >= numbers.end {
            return Ok(());
        }
        self.raise_bound(numbers.end)?;
        self.insert_range_within(numbers);
        Ok(())
    }

    /// Like `insert_range`, without a test of the bound: it takes no memory. Requires that the range ends at the bound
    /// or before.
    #[tactic(auto, using(crate::proofs::Members::filled_in))]
    pub fn insert_range_within(&mut self, numbers: Range<usize>)
        requires ordered { numbers.start ≤ numbers.end }
        requires inside { numbers.end ≤ length self.old }
        ensures bound { length self.new ≡ length self.old }
        ensures members { (k : ℕ) → IsIn self.new k ↔ (((numbers.start ≤ k) × (k < numbers.end)) ⊎ IsIn self.old k) }
    {
        self.bits.fill_range(numbers, true);
    }

    /// Takes all numbers of a range of any kind out of the set, by whole words. The bound stays. Takes no memory.
    /// Requires that the range was not iterated to its end.
    ///
    /// ```text
    /// of 2, 3, 4, 7: seen.remove_range(3..=4) leaves 2, 7
    /// ```
    #[tactic(auto, using(crate::proofs::Ranges::emptied))]
    pub fn remove_range<R: RangeBounds<usize>>(&mut self, numbers: R)
        requires { R.has_bounds numbers }
        ensures bound { length self.new ≡ length self.old }
        ensures members { let end = end_index (R.end_bound numbers) (length self.old) in (k : ℕ)
            → IsIn self.new k ↔ (((k < start_index (R.start_bound numbers)) ⊎ (end ≤ k)) × IsIn self.old k) }
    {
        let part = self.below_bound(&numbers);
        self.bits.fill_range(part, false);
    }

    /// Whether all numbers of a range are in the set. Of an empty range it is true.
    ///
    /// ```text
    /// of 2, 3, 4, 7: seen.contains_range(2..5) == true
    /// ```
    pub fn contains_range(&self, numbers: Range<usize>) -> bool
        ensures { IsTrue result ↔ ((k : ℕ) → numbers.start ≤ k → k < numbers.end → IsIn self.now k) }
    {
        if numbers.start >= numbers.end {
            return true;
        }
        if numbers.end > self.bits.len() {
            return false;
        }
        self.bits.all_in(numbers)
    }

    /// Whether some number of a range of any kind is in the set. Of an empty range it is false. Requires that the range
    /// was not iterated to its end.
    ///
    /// ```text
    /// of 2, 3, 4, 7: seen.any_in(5..7) == false
    /// of 2, 3, 4, 7: seen.any_in(5..) == true
    /// ```
    pub fn any_in<R: RangeBounds<usize>>(&self, numbers: R) -> bool
        requires { R.has_bounds numbers }
        ensures { let end = end_index (R.end_bound numbers) (length self.now) in IsTrue result
            ↔ ((k : ℕ) × (start_index (R.start_bound numbers) ≤ k) × (k < end) × IsIn self.now k) }
    {
        let part = self.below_bound(&numbers);
        self.bits.any_in(part)
    }

    /// The count of numbers of a range of any kind that are in the set. Requires that the range was not iterated to its end.
    ///
    /// ```text
    /// of 2, 3, 4, 7: seen.count_in(3..8) == 3
    /// of 2, 3, 4, 7: seen.count_in(..=3) == 2
    /// ```
    pub fn count_in<R: RangeBounds<usize>>(&self, numbers: R) -> usize
        requires { R.has_bounds numbers }
        ensures { result ≡ length (numbers_between self.now (start_index (R.start_bound numbers))
            (end_index (R.end_bound numbers) (length self.now))) }
    {
        let part = self.below_bound(&numbers);
        self.bits.count_ones_in(part)
    }

    // The part of a range that is below the bound. A range without an end ends there.
    fn below_bound<R: RangeBounds<usize>>(&self, numbers: &R) -> Range<usize>
        requires { R.has_bounds numbers.now }
        ensures start { result.start ≡ min (start_index (R.start_bound numbers.now))
            (min (end_index (R.end_bound numbers.now) (length self.now)) (length self.now)) }
        ensures end { result.end ≡ min (end_index (R.end_bound numbers.now) (length self.now)) (length self.now) }
        ensures lies { LiesIn result.start result.end (length self.now) }
    {
        let len = self.bits.len();
        let end = match numbers.end_bound() {
            Bound::Included(last) => last.saturating_add(1).min(len),
            Bound::Excluded(end) => (*end).min(len),
            Bound::Unbounded => len,
        };
        let start = match numbers.start_bound() {
            Bound::Included(start) => *start,
            Bound::Excluded(before) => before.saturating_add(1),
            Bound::Unbounded => 0,
        };
        start.min(end)..end
    }
}

/// The numbers of a set that are in a range, ascending, from both ends, each once.
///
/// Its length is known, and after the first None there is no more. It takes no memory.
#[derive(Drop)]
pub struct SetRange<'a> {
    ones: IterOnes<'a, usize, Lsb0>,
    // What is added to each index.
    base: usize,
    ghost fits: { FitFrom base (ones_left ones) },
}

impl NumberSet {
    ghost use Rattle.bit_sets.specs.RangeLeft.{range_left};

    /// The numbers of the set that are in a range of any kind, ascending, from both ends. Requires that the range was not
    /// iterated to its end.
    ///
    /// ```text
    /// of 2, 3, 4, 7: seen.range(3..8) gives 3, 4, 7
    /// of 2, 3, 4, 7: seen.range(..=3) gives 2, 3
    /// ```
    pub fn range<R: RangeBounds<usize>>(&self, numbers: R) -> SetRange<'_>
        requires { R.has_bounds numbers }
        ensures list { range_left result ≡ numbers_between self.now (start_index (R.start_bound numbers))
            (end_index (R.end_bound numbers) (length self.now)) }
        ensures few { length (range_left result) ≤ MAX_BITS }
        ensures runs { YieldsInOrder (YieldsFirst range_left) range_left }
        ensures runs_back { YieldsInReverse (YieldsLast range_left) range_left }
    {
        let part = self.below_bound(&numbers);
        let base = part.start;
        SetRange {
            ones: self.bits.as_bitslice().get_range(part).iter_ones(),
            base,
        }
    }
}

impl<'a> Iterator for SetRange<'a> {
    ghost use Rattle.std.specs.Iterator.{YieldsFirst, UpTo, at_most, item_count};
    ghost use Rattle.std.specs.Iterator.SizeHint.{IsWithinCount};
    ghost use Rattle.bit_sets.specs.RangeLeft.{range_left};

    type Item = usize;

    ghost next_gives = { YieldsFirst range_left };

    ghost remaining = { item_count range_left };

    /// The least number that is left. None exactly where none is.
    fn next(&mut self) -> Option<usize> {
        match self.ones.next() {
            None => None,
            Some(index) => Some(self.base + index),
        }
    }

    /// Both bounds are how many numbers are left: the bits that are left are counted.
    fn size_hint(&self) -> (usize, Option<usize>)
        ensures lower { IsWithinCount result.0 (at_most (length (range_left self.now))) }
        ensures upper { IfSome result.1 (UpTo (at_most (length (range_left self.now)))) }
        ensures value { result ≡ (length (range_left self.now), Some (length (range_left self.now))) }
    {
        let count = self.ones.len();
        (count, Some(count))
    }
}

impl<'a> DoubleEndedIterator for SetRange<'a> {
    ghost use Rattle.std.specs.Iterator.{YieldsLast};
    ghost use Rattle.bit_sets.specs.RangeLeft.{range_left};

    ghost next_back_gives = { YieldsLast range_left };

    /// The greatest number that is left. None exactly where none is.
    fn next_back(&mut self) -> Option<usize> {
        match self.ones.next_back() {
            None => None,
            Some(index) => Some(self.base + index),
        }
    }
}

impl<'a> ExactSizeIterator for SetRange<'a> {
    /// The count of numbers left: the bits that are left are counted.
    fn len(&self) -> usize {
        self.ones.len()
    }
}

impl<'a> FusedIterator for SetRange<'a> {}

impl<'a> Clone for SetRange<'a> {
    ghost use Rattle.std.specs.Prelude.{⊤};
    ghost use Rattle.bit_sets.specs.RangeLeft.{range_left};

    ghost is_clone = { λ a b. range_left b ≡ range_left a };

    ghost is_infallible = { λ _. ⊤ };

    /// The same iterator, with the same left. Takes no memory.
    fn clone(&self) -> Result<Self, AllocError> {
        let ones = self.ones.clone()?;
        Ok(SetRange {
            ones,
            base: self.base,
        })
    }
}

/// The numbers that are left, as a list.
impl<'a> fmt::Debug for SetRange<'a> {
    fn fmt<W: fmt::Write>(&self, f: &mut fmt::Formatter<W>) -> fmt::Result {
        let Ok(left) = self.clone() else {
            return Err(fmt::Error);
        };
        f.debug_list().entries(left).finish()
    }
}
