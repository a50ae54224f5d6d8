//! Sorted numbers one after another.
ghost use Rattle.std.specs.Iterator.{YieldsFirst, YieldsLast};
ghost use Rattle.std.specs.Iterator.Runs.{YieldsInOrder, YieldsInReverse};
ghost use Rattle.std.specs.Prelude.{◌≡◌, ◌≤◌, drop, length, min, slice_get, true, IfSome, Some};
ghost use Rattle.bit_slice.specs.BitSlice.{len_of, list_of};
ghost use Rattle.bit_slice.specs.Numbered.{ones_before};
ghost use Rattle.bit_slice.specs.Places.{ones_of};
ghost use Rattle.bit_sets.specs.Sorted.{IsNextFrom, IsUptoNumber, number_at};

use crate::sorted::SortedNumbers;
use bit_containers::{BitList, Lsb0};
use bit_ranks::Ranks;
use bit_slice::BitSlice;
use std::alloc::AllocError;
use std::fmt;
use std::iter::{DoubleEndedIterator, ExactSizeIterator, FusedIterator, Iterator};

/// Sorted numbers, ascending, from both ends, each once. Its length is known, and after the first None there is no
/// more. It takes no memory.
#[derive(Drop)]
pub struct Numbers<'a> {
    high: BitSlice<'a, u64, Lsb0>,
    low: BitSlice<'a, u64, Lsb0>,
    width: u8,
    len: usize,
    // The index of the first number that is left.
    at: usize,
    // An index in `high` from which on the first one is that of this number.
    place: usize,
    // The index after the last number that is left.
    end: usize,
    // An index in `high` before which the last one is that of the number before `end`.
    upto: usize,
    ghost left: { IsNextFrom len width (list_of high) (list_of low) at place },
    ghost last: { IsUptoNumber (list_of high) end upto },
    ghost ordered: { (at ≤ end) × (end ≤ len) },
    ghost whole: { (len_of high ≡ length (list_of high)) × (len_of low ≡ length (list_of low)) },
}

impl SortedNumbers {
    ghost use Rattle.bit_sets.specs.Numbers.{numbers_left};

    /// The numbers, ascending, from both ends. Each is searched from the one before on.
    pub fn iter(&self) -> Numbers<'_>
        ensures list { numbers_left result ≡ self.now }
        ensures runs { YieldsInOrder (YieldsFirst numbers_left) numbers_left }
        ensures runs_back { YieldsInReverse (YieldsLast numbers_left) numbers_left }
    {
        Numbers {
            high: self.high.as_bitslice(),
            low: self.low.as_bitslice(),
            width: self.width,
            len: self.len,
            at: 0,
            place: 0,
            end: self.len,
            upto: self.high.len(),
        }
    }

    /// The numbers from index `k` on, like `iter`; the first takes one `select1`.
    ///
    /// ```text
    /// of 2, 3, 9, 9:  numbers.iter_from(1) gives 3, 9, 9
    /// ```
    pub fn iter_from(&self, k: usize) -> Numbers<'_>
        ensures list { numbers_left result ≡ drop k self.now }
        ensures runs { YieldsInOrder (YieldsFirst numbers_left) numbers_left }
        ensures runs_back { YieldsInReverse (YieldsLast numbers_left) numbers_left }
    {
        Numbers {
            high: self.high.as_bitslice(),
            low: self.low.as_bitslice(),
            width: self.width,
            len: self.len,
            at: k.min(self.len),
            place: place_of(&self.high, self.len, k),
            end: self.len,
            upto: self.high.len(),
        }
    }
}

// An index from which on the first one is the `k`-th, counted from 0, or the length where there is none.
fn place_of(high: &Ranks<u64, Lsb0>, len: usize, k: usize) -> usize
    requires { length (ones_of high.now.list) ≡ len }
    ensures reached { result ≤ length high.now.list }
    ensures before { ones_before high.now.list result ≡ min k len }
{
    match high.select1(k) {
        None => high.len(),
        Some(place) => place,
    }
}

impl<'a> Numbers<'a> {
    // Number `k`, whose one is at `place`.
    #[inline(always)]
    fn number(&self, k: usize, place: usize) -> u64
        requires one { slice_get (list_of self.now.high) place ≡ Some true }
        requires before { ones_before (list_of self.now.high) place ≡ k }
        ensures { result ≡ number_at self.now.width (list_of self.now.high) (list_of self.now.low) k }
    {
        let from = k * self.width as usize;
        let low = self
            .low
            .get_range(from..from + self.width as usize)
            .load_be();
        (((place - k) as u64) << self.width) + low
    }
}

impl<'a> Iterator for Numbers<'a> {
    ghost use Rattle.std.specs.Iterator.{YieldsFirst, UpTo, at_most, item_count};
    ghost use Rattle.std.specs.Iterator.SizeHint.{IsWithinCount};
    ghost use Rattle.bit_sets.specs.Numbers.{numbers_left};

    type Item = u64;

    ghost next_gives = { YieldsFirst numbers_left };

    ghost remaining = { item_count numbers_left };

    /// The first number that is left. None exactly where none is.
    fn next(&mut self) -> Option<u64> {
        if self.at == self.end {
            return None;
        }
        let high = self.high;
        match high.next_one(self.place) {
            None => None,
            Some(place) => {
                let number = self.number(self.at, place);
                self.at += 1;
                self.place = place + 1;
                Some(number)
            }
        }
    }

    /// The number of numbers that are left, as both bounds: it is exact.
    fn size_hint(&self) -> (usize, Option<usize>)
        ensures lower { IsWithinCount result.0 (at_most (length (numbers_left self.now))) }
        ensures upper { IfSome result.1 (UpTo (at_most (length (numbers_left self.now)))) }
        ensures value { result ≡ (length (numbers_left self.now), Some (length (numbers_left self.now))) }
    {
        let count = self.end - self.at;
        (count, Some(count))
    }
}

impl<'a> DoubleEndedIterator for Numbers<'a> {
    ghost use Rattle.std.specs.Iterator.{YieldsLast};
    ghost use Rattle.bit_sets.specs.Numbers.{numbers_left};

    ghost next_back_gives = { YieldsLast numbers_left };

    /// The last number that is left. None exactly where none is.
    fn next_back(&mut self) -> Option<u64> {
        if self.at == self.end {
            return None;
        }
        let high = self.high;
        match high.prev_one(self.upto) {
            None => None,
            Some(place) => {
                let last = self.end - 1;
                let number = self.number(last, place);
                self.end = last;
                self.upto = place;
                Some(number)
            }
        }
    }
}

impl<'a> ExactSizeIterator for Numbers<'a> {
    /// The count of numbers left.
    fn len(&self) -> usize {
        self.end - self.at
    }
}

impl<'a> FusedIterator for Numbers<'a> {}

impl<'a> Numbers<'a> {
    ghost use Rattle.bit_sets.specs.Numbers.{numbers_left};

    // The same iterator, with the same left.
    fn same(&self) -> Self
        ensures { numbers_left result ≡ numbers_left self.now }
    {
        Numbers {
            high: self.high,
            low: self.low,
            width: self.width,
            len: self.len,
            at: self.at,
            place: self.place,
            end: self.end,
            upto: self.upto,
        }
    }
}

impl<'a> Clone for Numbers<'a> {
    ghost use Rattle.std.specs.Prelude.{⊤};
    ghost use Rattle.bit_sets.specs.Numbers.{numbers_left};

    ghost is_clone = { λ a b. numbers_left b ≡ numbers_left a };

    ghost is_infallible = { λ _. ⊤ };

    /// The same iterator, with the same left. Takes no memory.
    fn clone(&self) -> Result<Self, AllocError> {
        Ok(self.same())
    }
}

/// The numbers that are left, as a list.
impl<'a> fmt::Debug for Numbers<'a> {
    fn fmt<W: fmt::Write>(&self, f: &mut fmt::Formatter<W>) -> fmt::Result {
        f.debug_list().entries(self.same()).finish()
    }
}
