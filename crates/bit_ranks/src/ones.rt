//! The indices of the ones of a list, from a given number on.
ghost use Rattle.std.specs.Iterator.{YieldsFirst, YieldsLast};
ghost use Rattle.std.specs.Iterator.Runs.{YieldsInOrder, YieldsInReverse};
ghost use Rattle.std.specs.Prelude.{◌≡◌, ◌-◌, ◌<◌, ◌≤◌, IfSome, None, Some, count_by, drop, length, slice_get, true};
ghost use Rattle.bit_slice.specs.BitSlice.{list_of};
ghost use Rattle.bit_slice.specs.Indices.{ones_left};
ghost use Rattle.bit_slice.specs.Numbered.{ones_before};
ghost use Rattle.bit_slice.specs.Places.{ones_of, places_between};
ghost use Rattle.bit_ranks.specs.Fits.{FitFrom};

mod copies;

use crate::ranked::RankedBits;
use crate::ranks::Ranks;
use bit_containers::{BitOrder, BitStore, IterOnes};
use bit_slice::BitSlice;
use std::iter::{DoubleEndedIterator, ExactSizeIterator, FusedIterator, Iterator};

/// The indices of the ones of a list, ascending, from both ends, without the first `k` of them.
///
/// Its length is known, in constant time, and after the first None there is no more. It takes no memory.
#[derive(Drop)]
pub struct OnesFrom<'a, T: BitStore, O: BitOrder> {
    ones: IterOnes<'a, T, O>,
    // What is added to each index.
    base: usize,
    // The number of indices left.
    left: usize,
    ghost fits: { FitFrom base (ones_left ones) },
    ghost count: { left ≡ length (ones_left ones) },
}

// The index `first`, or the length of the view where there is none. Requires that `first` is the index of the `k`-th one.
fn begin_of<T: BitStore, O: BitOrder>(
    view: BitSlice<'_, T, O>,
    k: usize,
    first: Option<usize>,
) -> usize
    requires found { IfSome first (λ i. slice_get (list_of view) i ≡ Some true) }
    requires before { IfSome first (λ i. ones_before (list_of view) i ≡ k) }
    requires inside { IfSome first (λ i. i < length (list_of view)) }
    requires none { first ≡ None → count_by (λ bit. bit) (list_of view) ≤ k }
    ensures list { places_between (λ b. b) (list_of view.entry) result (length (list_of view.entry))
        ≡ drop k (ones_of (list_of view.entry)) }
    ensures inside { result ≤ length (list_of view.entry) }
{
    match first {
        None => view.len(),
        Some(i) => i,
    }
}

impl<'a, T: BitStore, O: BitOrder> OnesFrom<'a, T, O> {
    ghost use Rattle.bit_ranks.specs.Ones.{ones_from};

    // The indices of the ones of a view without the first `k` of them. Requires that `first` is the index of the `k`-th, and
    // `count` the number of all.
    fn of(view: BitSlice<'a, T, O>, k: usize, first: Option<usize>, count: usize) -> Self
        requires found { IfSome first (λ i. slice_get (list_of view) i ≡ Some true) }
        requires before { IfSome first (λ i. ones_before (list_of view) i ≡ k) }
        requires inside { IfSome first (λ i. i < length (list_of view)) }
        requires none { first ≡ None → count_by (λ bit. bit) (list_of view) ≤ k }
        requires count { count ≡ count_by (λ bit. bit) (list_of view) }
        ensures list { ones_from result ≡ drop k (ones_of (list_of view.entry)) }
        ensures count { length (ones_from result) ≡ count - k }
        ensures runs { YieldsInOrder
            (YieldsFirst (ones_from {X = T} {Y = O} {W = T.BitStore} {P = O.BitOrder})) ones_from }
        ensures runs_back { YieldsInReverse
            (YieldsLast (ones_from {X = T} {Y = O} {W = T.BitStore} {P = O.BitOrder})) ones_from }
    {
        let base = begin_of(view, k, first);
        OnesFrom {
            ones: view.get_range(base..).iter_ones(),
            base,
            left: count.saturating_sub(k),
        }
    }
}

impl<T: BitStore, O: BitOrder> Ranks<T, O> {
    ghost use Rattle.bit_ranks.specs.Ones.{ones_from};

    /// The indices of the ones, ascending, from both ends, without the first `k` of them. The first is found as
    /// `select1` finds it.
    ///
    /// ```text
    /// of 0110100: ranks.iter_ones_from(1) gives 2, 4
    /// ```
    pub fn iter_ones_from(&self, k: usize) -> OnesFrom<'_, T, O>
        ensures list { ones_from result ≡ drop k (ones_of self.now.list) }
        ensures count { length (ones_from result) ≡ count_by (λ b. b) self.now.list - k }
        ensures runs { YieldsInOrder
            (YieldsFirst (ones_from {X = T} {Y = O} {W = T.BitStore} {P = O.BitOrder})) ones_from }
        ensures runs_back { YieldsInReverse
            (YieldsLast (ones_from {X = T} {Y = O} {W = T.BitStore} {P = O.BitOrder})) ones_from }
    {
        OnesFrom::of(self.as_bitslice(), k, self.select1(k), self.count_ones())
    }
}

impl<T: BitStore, O: BitOrder> RankedBits<T, O> {
    ghost use Rattle.bit_ranks.specs.Ones.{ones_from};

    /// Like `iter_ones_from` of `Ranks`.
    ///
    /// ```text
    /// of 0110100: ranked.iter_ones_from(1) gives 2, 4
    /// ```
    pub fn iter_ones_from(&self, k: usize) -> OnesFrom<'_, T, O>
        ensures list { ones_from result ≡ drop k (ones_of self.now.list) }
        ensures count { length (ones_from result) ≡ count_by (λ b. b) self.now.list - k }
        ensures runs { YieldsInOrder
            (YieldsFirst (ones_from {X = T} {Y = O} {W = T.BitStore} {P = O.BitOrder})) ones_from }
        ensures runs_back { YieldsInReverse
            (YieldsLast (ones_from {X = T} {Y = O} {W = T.BitStore} {P = O.BitOrder})) ones_from }
    {
        OnesFrom::of(self.as_bitslice(), k, self.select1(k), self.count_ones())
    }
}

impl<'a, T: BitStore, O: BitOrder> Iterator for OnesFrom<'a, T, O> {
    ghost use Rattle.std.specs.Iterator.{YieldsFirst, UpTo, at_most, item_count};
    ghost use Rattle.std.specs.Iterator.SizeHint.{IsWithinCount};
    ghost use Rattle.bit_ranks.specs.Ones.{ones_from};

    type Item = usize;

    ghost next_gives = { YieldsFirst ones_from };

    ghost remaining = { item_count ones_from };

    /// The first index that is left. None exactly where none is.
    #[inline(always)]
    fn next(&mut self) -> Option<usize> {
        match self.ones.next() {
            None => None,
            Some(index) => {
                self.left -= 1;
                Some(self.base + index)
            }
        }
    }

    /// Both bounds are how many indices are left, in constant time.
    fn size_hint(&self) -> (usize, Option<usize>)
        ensures lower { IsWithinCount result.0 (at_most (length (ones_from self.now))) }
        ensures upper { IfSome result.1 (UpTo (at_most (length (ones_from self.now)))) }
        ensures value { result ≡ (length (ones_from self.now), Some (length (ones_from self.now))) }
    {
        (self.left, Some(self.left))
    }
}

impl<'a, T: BitStore, O: BitOrder> DoubleEndedIterator for OnesFrom<'a, T, O> {
    ghost use Rattle.std.specs.Iterator.{YieldsLast};
    ghost use Rattle.bit_ranks.specs.Ones.{ones_from};

    ghost next_back_gives = { YieldsLast ones_from };

    /// The last index that is left. None exactly where none is.
    fn next_back(&mut self) -> Option<usize> {
        match self.ones.next_back() {
            None => None,
            Some(index) => {
                self.left -= 1;
                Some(self.base + index)
            }
        }
    }
}

impl<'a, T: BitStore, O: BitOrder> ExactSizeIterator for OnesFrom<'a, T, O> {
    /// The number of indices left, in constant time.
    fn len(&self) -> usize {
        self.left
    }
}

impl<'a, T: BitStore, O: BitOrder> FusedIterator for OnesFrom<'a, T, O> {}
