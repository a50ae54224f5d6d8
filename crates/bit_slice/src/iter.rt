//! Iterators over the bits of a view.
ghost use Rattle.std.specs.Prelude.{◌≡◌, ℕ, ◌+◌, ◌*◌, ◌≤◌, length, slice_range, IfSome, Some};
ghost use Rattle.bit_addressing.specs.declared.length.TheConstants.{MAX_BITS};
ghost use Rattle.bit_addressing.specs.Typed.{row};
ghost use Rattle.bit_slice.specs.Fits.{IsRun};

mod copies;

use crate::slice::{BitSlice, words_at};
use bit_addressing::{BitOrder, BitStore, elts};
use bit_rows::read_bit;
use std::iter::{DoubleEndedIterator, ExactSizeIterator, FusedIterator, Iterator};
use std::marker::PhantomData;

/// The bits of a view, from both ends, each once.
///
/// Its length is known, and after the first None there is no more. It takes no memory.
#[derive(Drop)]
pub struct Iter<'a, T: BitStore, O: BitOrder> {
    words: &'a [T],
    from: usize,
    upto: usize,
    order: PhantomData<O>,
    ghost fits: { IsRun T.BITS (length words.now) from upto },
}

impl<'a, T: BitStore, O: BitOrder> Iter<'a, T, O> {
    ghost use Rattle.bit_slice.specs.BitSlice.{len_of, list_of};
    ghost use Rattle.bit_slice.specs.Iter.{rest_of};

    // The bits at the indices `from..upto` of the words' row.
    pub(crate) fn new(words: &'a [T], from: usize, upto: usize) -> Self
        requires { IsRun T.BITS (length words.now) from upto }
        ensures { rest_of result ≡ slice_range (row T.BitStore O.BitOrder words.now) from upto }
    {
        Iter {
            words,
            from,
            upto,
            order: PhantomData,
        }
    }

    /// The view of the bits that are left, in the words that have them.
    ///
    /// ```text
    /// of 01101001 and two bits taken: bits.as_bitslice() shows 101001
    /// ```
    pub fn as_bitslice(&self) -> BitSlice<'a, T, O>
        ensures list { list_of result ≡ rest_of self.now }
        ensures len { len_of result ≡ length (rest_of self.now) }
    {
        let width = T::BITS as usize;
        let head = self.from % width;
        let len = self.upto - self.from;
        let first = self.from / width;
        let count = elts::<T>(head + len);
        BitSlice::from_parts(words_at(self.words, first, count), head, len)
    }
}

impl<'a, T: BitStore, O: BitOrder> Iterator for Iter<'a, T, O> {
    ghost use Rattle.std.specs.Iterator.{YieldsFirst, UpTo, at_most, item_count};
    ghost use Rattle.std.specs.Iterator.SizeHint.{IsWithinCount};
    ghost use Rattle.bit_slice.specs.Iter.{rest_of};

    type Item = bool;

    ghost next_gives = { YieldsFirst rest_of };

    ghost remaining = { item_count rest_of };

    /// The first bit that is left. None exactly where none is.
    fn next(&mut self) -> Option<bool> {
        if self.from == self.upto {
            return None;
        }
        let bit = read_bit::<T, O>(self.words, self.from);
        self.from += 1;
        Some(bit)
    }

    /// The number of bits that are left, as both bounds: it is exact.
    fn size_hint(&self) -> (usize, Option<usize>)
        ensures lower { IsWithinCount result.0 (at_most (length (rest_of self.now))) }
        ensures upper { IfSome result.1 (UpTo (at_most (length (rest_of self.now)))) }
        ensures value { result ≡ (length (rest_of self.now), Some (length (rest_of self.now))) }
    {
        let count = self.upto - self.from;
        (count, Some(count))
    }
}

impl<'a, T: BitStore, O: BitOrder> DoubleEndedIterator for Iter<'a, T, O> {
    ghost use Rattle.std.specs.Iterator.{YieldsLast};
    ghost use Rattle.bit_slice.specs.Iter.{rest_of};

    ghost next_back_gives = { YieldsLast rest_of };

    /// The last bit that is left. None exactly where none is.
    fn next_back(&mut self) -> Option<bool> {
        if self.upto == self.from {
            return None;
        }
        self.upto -= 1;
        Some(read_bit::<T, O>(self.words, self.upto))
    }
}

impl<'a, T: BitStore, O: BitOrder> ExactSizeIterator for Iter<'a, T, O> {
    /// The number of bits left.
    fn len(&self) -> usize {
        self.upto - self.from
    }
}

impl<'a, T: BitStore, O: BitOrder> FusedIterator for Iter<'a, T, O> {}
