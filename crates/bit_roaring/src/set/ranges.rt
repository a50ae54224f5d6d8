//! Ranges of numbers: put into a set, taken out, toggled, tested, counted and iterated over.
ghost use Rattle.std.specs.Prelude.{◌≡◌, ◌≤◌, ◌<◌, ◌+◌, ◌^◌, ◌↔◌, ℕ, IsTrue, OnErr, OnOk, length, true};
ghost use Rattle.std.specs.Iterator.{YieldsFirst, YieldsLast};
ghost use Rattle.std.specs.Iterator.Runs.{YieldsInOrder, YieldsInReverse};
ghost use Rattle.std.specs.Range.Bound.{end_index, start_index};
ghost use Rattle.bit_blocks.specs.Numbers.{has};
ghost use Rattle.bit_roaring.specs.Ranges.{GainsRange, LosesRange, TogglesRange, numbers_within};
ghost use Rattle.bit_roaring.specs.SetLeft.{set_left};

use crate::iter::SetIter;
use crate::keyed::ranges;
use crate::set::RoaringSet;
use std::alloc::AllocError;
use std::iter::Iterator;
use std::ops::{Bound, RangeBounds};

// The first number of a range, and the number after its last. A range without an end ends with the greatest number.
fn ends_of<R: RangeBounds<u32>>(numbers: &R) -> (u64, u64)
    requires { R.has_bounds numbers.now }
    ensures start { result.0 ≡ start_index (R.start_bound numbers.now) }
    ensures end { result.1 ≡ end_index (R.end_bound numbers.now) (2 ^ 32) }
    ensures start_small { result.0 ≤ 2 ^ 32 }
    ensures end_small { result.1 ≤ 2 ^ 32 }
{
    let start = match numbers.start_bound() {
        Bound::Included(start) => *start as u64,
        Bound::Excluded(before) => *before as u64 + 1,
        Bound::Unbounded => 0,
    };
    let end = match numbers.end_bound() {
        Bound::Included(last) => *last as u64 + 1,
        Bound::Excluded(end) => *end as u64,
        Bound::Unbounded => 4294967296,
    };
    (start, end)
}

impl RoaringSet {
    /// Puts all numbers of a range of any kind in, as runs. Only the blocks that have numbers of the range are made anew.
    /// Where memory is refused, the set is as it was. Requires that the range was not iterated to its end.
    ///
    /// ```text
    /// of 2, 3: set.insert_range(3..6)? leaves 2, 3, 4, 5
    /// ```
    pub fn insert_range<R: RangeBounds<u32>>(&mut self, numbers: R) -> Result<(), AllocError>
        requires { R.has_bounds numbers }
        ensures gains { OnOk result (GainsRange self.old self.new (start_index (R.start_bound numbers)) (end_index (R.end_bound numbers) (2 ^ 32))) }
        ensures refused { OnErr result (self.new ≡ self.old) }
    {
        let (start, end) = ends_of(&numbers);
        if start >= end {
            return Ok(());
        }
        ranges::insert_range(&mut self.blocks, start as u32, (end - 1) as u32)
    }

    /// Takes all numbers of a range of any kind out. Only the blocks that have numbers of the range are made anew. Where
    /// memory is refused, the set is as it was. Requires that the range was not iterated to its end.
    ///
    /// ```text
    /// of 2, 3, 4, 7: set.remove_range(3..=4)? leaves 2, 7
    /// ```
    pub fn remove_range<R: RangeBounds<u32>>(&mut self, numbers: R) -> Result<(), AllocError>
        requires { R.has_bounds numbers }
        ensures loses { OnOk result (LosesRange self.old self.new (start_index (R.start_bound numbers)) (end_index (R.end_bound numbers) (2 ^ 32))) }
        ensures refused { OnErr result (self.new ≡ self.old) }
    {
        let (start, end) = ends_of(&numbers);
        if start >= end {
            return Ok(());
        }
        ranges::remove_range(&mut self.blocks, start as u32, (end - 1) as u32)
    }

    /// Takes the numbers of a range of any kind out that are in the set, and puts the others of the range in. Where memory
    /// is refused, the set is as it was. Requires that the range was not iterated to its end.
    ///
    /// ```text
    /// of 2, 3, 7: set.toggle_range(3..6)? leaves 2, 4, 5, 7
    /// ```
    pub fn toggle_range<R: RangeBounds<u32>>(&mut self, numbers: R) -> Result<(), AllocError>
        requires { R.has_bounds numbers }
        ensures toggles { OnOk result (TogglesRange self.old self.new (start_index (R.start_bound numbers)) (end_index (R.end_bound numbers) (2 ^ 32))) }
        ensures refused { OnErr result (self.new ≡ self.old) }
    {
        let mut range = RoaringSet::new(*self.blocks.allocator());
        range.insert_range(numbers)?;
        self.symmetric_difference_with(&range)
    }

    /// Whether all numbers of a range of any kind are in the set. Of an empty range it is true. Takes no memory. Requires
    /// that the range was not iterated to its end.
    ///
    /// ```text
    /// of 2, 3, 4, 7: set.contains_range(2..5) == true
    /// of 2, 3, 4, 7: set.contains_range(2..=5) == false
    /// ```
    pub fn contains_range<R: RangeBounds<u32>>(&self, numbers: R) -> bool
        requires { R.has_bounds numbers }
        ensures { IsTrue result ↔ ((k : ℕ) → start_index (R.start_bound numbers) ≤ k → k < end_index (R.end_bound numbers) (2 ^ 32) → has self.now k ≡ true) }
    {
        let (start, end) = ends_of(&numbers);
        if start >= end {
            return true;
        }
        self.has_all(start, end)
    }

    /// Whether some number of a range of any kind is in the set. Of an empty range it is false. Takes no memory. Requires
    /// that the range was not iterated to its end.
    ///
    /// ```text
    /// of 2, 3, 4, 7: set.any_in(5..7) == false
    /// of 2, 3, 4, 7: set.any_in(5..) == true
    /// ```
    pub fn any_in<R: RangeBounds<u32>>(&self, numbers: R) -> bool
        requires { R.has_bounds numbers }
        ensures { IsTrue result ↔ ((k : ℕ) × (start_index (R.start_bound numbers) ≤ k) × (k < end_index (R.end_bound numbers) (2 ^ 32)) × (has self.now k ≡ true)) }
    {
        self.range(numbers).next().is_some()
    }

    /// The count of numbers of a range of any kind that are in the set. Goes through the blocks of the range alone. Takes no
    /// memory. Requires that the range was not iterated to its end.
    ///
    /// ```text
    /// of 2, 3, 4, 7: set.count_in(3..8) == 3
    /// of 2, 3, 4, 7: set.count_in(..=3) == 2
    /// ```
    pub fn count_in<R: RangeBounds<u32>>(&self, numbers: R) -> u64
        requires { R.has_bounds numbers }
        ensures { result ≡ length (numbers_within (start_index (R.start_bound numbers)) (end_index (R.end_bound numbers) (2 ^ 32)) self.now) }
    {
        let (start, end) = ends_of(&numbers);
        if start >= end {
            return 0;
        }
        self.count_between(start, end)
    }

    /// The numbers of a range of any kind that are in the set, ascending, from both ends. Takes no memory. Requires that
    /// the range was not iterated to its end.
    ///
    /// ```text
    /// of 2, 3, 4, 7: set.range(3..8) gives 3, 4, 7
    /// of 2, 3, 4, 7: set.range(4..) gives 4, 7
    /// ```
    pub fn range<R: RangeBounds<u32>>(&self, numbers: R) -> SetIter<'_>
        requires { R.has_bounds numbers }
        ensures list { set_left result ≡ numbers_within (start_index (R.start_bound numbers)) (end_index (R.end_bound numbers) (2 ^ 32)) self.now }
        ensures runs { YieldsInOrder (YieldsFirst set_left) set_left }
        ensures runs_back { YieldsInReverse (YieldsLast set_left) set_left }
    {
        let (start, end) = ends_of(&numbers);
        if start >= end {
            return SetIter::of(&[]);
        }
        SetIter::between(&self.blocks, start as u32, (end - 1) as u32)
    }

    // Whether all numbers from `start` up to `end` are in the set. Requires that there are some.
    fn has_all(&self, start: u64, end: u64) -> bool
        requires some { start < end }
        requires small { end ≤ 2 ^ 32 }
        ensures { IsTrue result ↔ ((k : ℕ) → start ≤ k → k < end → has self.now k ≡ true) }
    {
        // Mostly one of the two ends tells, without a count.
        if !self.contains(start as u32) || !self.contains((end - 1) as u32) {
            return false;
        }
        self.prove_order();
        self.count_between(start, end) == end - start
    }

    // The count of numbers from `start` up to `end`. Requires that `start` is below `end`.
    fn count_between(&self, start: u64, end: u64) -> u64
        requires some { start < end }
        requires small { end ≤ 2 ^ 32 }
        ensures { result ≡ length (numbers_within start end self.now) }
    {
        ranges::count_within(&self.blocks, start as u32, (end - 1) as u32)
    }
}
