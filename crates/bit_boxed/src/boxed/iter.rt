//! Iterators over the bits of the box: a borrowed one and an owned one.
ghost use Rattle.std.specs.Prelude.{◌≡◌, ℕ, ◌+◌, ◌*◌, ◌/◌, ◌%◌, ◌<◌, ◌≤◌, [], length, slice_range, IfSome, Some};
ghost use Rattle.std.specs.Iterator.{YieldsFirst, YieldsLast};
ghost use Rattle.std.specs.Iterator.Runs.{YieldsInOrder, YieldsInReverse};
ghost use Rattle.bit_addressing.specs.Row.{words_for};
ghost use Rattle.bit_addressing.specs.Typed.{row};
ghost use Rattle.bit_addressing.specs.declared.length.TheConstants.{MAX_BITS};
ghost use Rattle.std.specs.Borrow.{sem};
ghost use Rattle.bit_slice.specs.BitSlice.{words_of, head_of, len_of, list_of};
ghost use Rattle.bit_slice.specs.BitSliceMut.{words_of as lent_words, head_of as lent_head, len_of as lent_len, list_of as lent_list, loan_of};
ghost use Rattle.bit_slice.specs.Iter.{rest_of as rest_lent};
ghost use Rattle.bit_boxed.specs.IntoIter.{rest_of, first_left, last_left};
ghost use Rattle.bit_boxed.specs.LendsLeft.{lends_left};

use crate::boxed::BitBox;
use bit_addressing::{BitOrder, BitStore, Lsb0};
use bit_slice::inner::write_list;
use bit_slice::{BitSlice, BitSliceMut, Iter};
use std::alloc::AllocError;
use std::fmt;
use std::iter::{DoubleEndedIterator, ExactSizeIterator, FusedIterator, Iterator};
use std::marker::Model;

impl<T: BitStore, O: BitOrder> BitBox<T, O> {
    /// The bits in order, from both ends.
    ///
    /// ```text
    /// of 01101001: bits.iter() gives false, true, true, false, true, false, false, true
    /// ```
    pub fn iter(&self) -> Iter<'_, T, O>
        ensures list { rest_lent result ≡ self.now.list }
        ensures few { length (rest_lent result) ≤ MAX_BITS }
        ensures runs { YieldsInOrder
            (YieldsFirst (rest_lent {X = T} {Y = O} {W = T.BitStore} {P = O.BitOrder})) rest_lent }
        ensures runs_back { YieldsInReverse
            (YieldsLast (rest_lent {X = T} {Y = O} {W = T.BitStore} {P = O.BitOrder})) rest_lent }
    {
        self.as_bitslice().iter()
    }
}

impl<'a, T: BitStore, O: BitOrder> IntoIterator for &'a BitBox<T, O> {
    type Item = bool;

    type IntoIter = Iter<'a, T, O>;

    ghost into_iter_gives = { λ b r. (rest_lent r ≡ b.now.list) × (length (rest_lent r) ≤ MAX_BITS)
        × YieldsInOrder (YieldsFirst (rest_lent {X = T} {Y = O} {W = T.BitStore} {P = O.BitOrder}))
        rest_lent
        × YieldsInReverse (YieldsLast (rest_lent {X = T} {Y = O} {W = T.BitStore} {P = O.BitOrder}))
        rest_lent };

    /// Like `iter`: the items are truth values.
    fn into_iter(self) -> Iter<'a, T, O> {
        self.iter()
    }
}

/// The bits of a box that was consumed, from both ends, each once.
///
/// Its length is known, and after the first None there is no more. In contracts an iterator `r` is all its words
/// `r.words`, the index `r.head` of their row at which the bits that are left begin, and the list `r.list` of
/// those bits.
#[derive(Drop)]
pub struct IntoIter<T: BitStore = usize, O: BitOrder = Lsb0> {
    inner: BitBox<T, O>,
    from: usize,
    upto: usize,
}

impl<T: BitStore, O: BitOrder> Model for IntoIter<T, O> {
    ghost use Rattle.std.specs.Prelude.{◌+◌, ◌≤◌, length, slice_range};
    ghost use Rattle.bit_addressing.specs.declared.length.TheConstants.{MAX_BITS};
    ghost use Rattle.bit_boxed.specs.IntoIter.{Left, left_code};

    ghost Value = { Left T };

    ghost coded = { left_code T.code };

    ghost view = { λ s. record { words = s.inner.words; head = s.inner.head + s.from; list = slice_range s.inner.list s.from s.upto } };

    ghost invariant = { λ s. (s.from ≤ s.upto) × (s.upto ≤ length s.inner.list) × (length s.inner.list ≤ MAX_BITS) };
}

impl<T: BitStore, O: BitOrder> IntoIter<T, O> {
    // The bits of a box, in order.
    fn of(inner: BitBox<T, O>) -> Self
        ensures words { result.words ≡ inner.words }
        ensures head { result.head ≡ inner.head }
        ensures list { result.list ≡ inner.list }
        ensures few { length result.list ≤ MAX_BITS }
        ensures runs { YieldsInOrder (first_left {X = T}) rest_of }
        ensures runs_back { YieldsInReverse (last_left {X = T}) rest_of }
    {
        let upto = inner.len();
        IntoIter {
            inner,
            from: 0,
            upto,
        }
    }

    /// The bits of these words with a head and a length. The vector is kept, and no memory is taken.
    /// Requires that the head is in the first word, that there are exactly as many words as the bits take,
    /// and that there are at most `MAX_BITS` bits.
    pub fn from_parts(words: Vec<T>, head: usize, len: usize) -> Self
        requires in_word { head < T.BITS }
        requires few { len ≤ MAX_BITS }
        requires exact { length words.items ≡ words_for T.BITS (head + len) }
        ensures words { result.words ≡ words.items }
        ensures head { result.head ≡ head }
        ensures list { result.list ≡ slice_range (row T.BitStore O.BitOrder words.items) head (head + len) }
        ensures few { length result.list ≤ MAX_BITS }
        ensures runs { YieldsInOrder (first_left {X = T}) rest_of }
        ensures runs_back { YieldsInReverse (last_left {X = T}) rest_of }
    {
        IntoIter::of(BitBox::kept(words, head, len))
    }

    /// The view of the bits that are left, for reading.
    pub fn as_bitslice(&self) -> BitSlice<'_, T, O>
        ensures list { list_of result ≡ self.now.list }
        ensures len { len_of result ≡ length self.now.list }
        ensures head { head_of result ≡ self.now.head % T.BITS }
        ensures words { let first = self.now.head / T.BITS in words_of result
            ≡ slice_range self.now.words first (first + words_for T.BITS (head_of result + len_of result)) }
    {
        self.inner.as_bitslice().get_range(self.from..self.upto)
    }

    /// Like `as_bitslice`.
    pub fn as_slice(&self) -> BitSlice<'_, T, O>
        ensures list { list_of result ≡ self.now.list }
        ensures len { len_of result ≡ length self.now.list }
        ensures head { head_of result ≡ self.now.head % T.BITS }
        ensures words { let first = self.now.head / T.BITS in words_of result
            ≡ slice_range self.now.words first (first + words_for T.BITS (head_of result + len_of result)) }
    {
        self.as_bitslice()
    }

    /// The view of the bits that are left, for writing: what is written lands in the bits that are still to
    /// come.
    pub fn as_mut_bitslice(&mut self) -> BitSliceMut<'_, T, O>
        ensures* writes_back { sem 𝓛 (lends_left T.row O.row T.BitStore O.BitOrder self.entry (loan_of result)) }
        ensures list { lent_list result ≡ self.old.list }
        ensures len { lent_len result ≡ length self.old.list }
        ensures head { lent_head result ≡ self.old.head % T.BITS }
        ensures words { let first = self.old.head / T.BITS in lent_words result
            ≡ slice_range self.old.words first
            (first + words_for T.BITS (lent_head result + lent_len result)) }
    {
        let (from, upto) = (self.from, self.upto);
        self.inner.part_mut(from, upto)
    }

    /// Like `as_mut_bitslice`.
    pub fn as_mut_slice(&mut self) -> BitSliceMut<'_, T, O>
        ensures* writes_back { sem 𝓛 (lends_left T.row O.row T.BitStore O.BitOrder self.entry (loan_of result)) }
        ensures list { lent_list result ≡ self.old.list }
        ensures len { lent_len result ≡ length self.old.list }
        ensures head { lent_head result ≡ self.old.head % T.BITS }
        ensures words { let first = self.old.head / T.BITS in lent_words result
            ≡ slice_range self.old.words first
            (first + words_for T.BITS (lent_head result + lent_len result)) }
    {
        self.as_mut_bitslice()
    }
}

impl<T: BitStore, O: BitOrder> Iterator for IntoIter<T, O> {
    ghost use Rattle.std.specs.Prelude.{⊤};
    ghost use Rattle.std.specs.Iterator.{MakesProgress, UpTo, at_most, item_count};
    ghost use Rattle.std.specs.Iterator.SizeHint.{IsWithinCount};

    type Item = bool;

    ghost next_gives = { first_left {X = T} };

    ghost remaining = { item_count (rest_of {X = T}) };

    /// The first bit that is left. None exactly where none is.
    fn next(&mut self) -> Option<bool>
        ensures steps { first_left self.old result self.new }
        ensures goes { MakesProgress (λ _. ⊤) (item_count (rest_of {X = T})) self.old result self.new }
        ensures words { self.new.words ≡ self.old.words }
        ensures end { self.new.head + length self.new.list ≡ self.old.head + length self.old.list }
    {
        if self.from == self.upto {
            return None;
        }
        let bit = self.inner[self.from];
        self.from += 1;
        Some(bit)
    }

    /// The number of bits that are left, as both bounds: it is exact.
    fn size_hint(&self) -> (usize, Option<usize>)
        ensures lower { IsWithinCount result.0 (at_most (length self.now.list)) }
        ensures upper { IfSome result.1 (UpTo (at_most (length self.now.list))) }
        ensures value { result ≡ (length self.now.list, Some (length self.now.list)) }
    {
        let count = self.len();
        (count, Some(count))
    }
}

impl<T: BitStore, O: BitOrder> DoubleEndedIterator for IntoIter<T, O> {
    ghost use Rattle.std.specs.Prelude.{⊤};
    ghost use Rattle.std.specs.Iterator.{MakesProgress, item_count};

    ghost next_back_gives = { last_left {X = T} };

    /// The last bit that is left. None exactly where none is.
    fn next_back(&mut self) -> Option<bool>
        ensures steps { last_left self.old result self.new }
        ensures goes { MakesProgress (λ _. ⊤) (item_count (rest_of {X = T})) self.old result self.new }
        ensures words { self.new.words ≡ self.old.words }
        ensures head { self.new.head ≡ self.old.head }
    {
        if self.from == self.upto {
            return None;
        }
        self.upto -= 1;
        Some(self.inner[self.upto])
    }
}

impl<T: BitStore, O: BitOrder> ExactSizeIterator for IntoIter<T, O> {
    /// The number of bits left.
    fn len(&self) -> usize {
        self.upto - self.from
    }
}

impl<T: BitStore, O: BitOrder> FusedIterator for IntoIter<T, O> {}

impl<T: BitStore, O: BitOrder> IntoIterator for BitBox<T, O> {
    type Item = bool;

    type IntoIter = IntoIter<T, O>;

    ghost into_iter_gives = { λ b r. (r.words ≡ b.words) × (r.head ≡ b.head) × (r.list ≡ b.list)
        × (length r.list ≤ MAX_BITS) × YieldsInOrder (first_left {X = T}) rest_of × YieldsInReverse (last_left {X = T}) rest_of };

    /// The bits in order, from both ends; the box is consumed, and its words are kept.
    fn into_iter(self) -> IntoIter<T, O> {
        IntoIter::of(self)
    }
}

impl<T: BitStore, O: BitOrder> Clone for IntoIter<T, O> {
    ghost use Rattle.std.specs.Prelude.{◌≡◌, []};
    ghost use Rattle.bit_boxed.specs.IntoIter.{IsCopy};

    ghost is_clone = { IsCopy T.BitStore O.BitOrder };

    ghost is_infallible = { λ s. s.list ≡ [] };

    /// An iterator over the same bits, in words of its own that begin with them. Takes memory where a bit is
    /// left.
    fn clone(&self) -> Result<Self, AllocError> {
        let alloc = self.inner.allocator();
        let copy = BitBox::from_bitslice(alloc, self.as_bitslice())?;
        Ok(IntoIter::of(copy))
    }
}

/// `IntoIter(`, the text of the bits that are left, and `)`.
impl<T: BitStore, O: BitOrder> fmt::Debug for IntoIter<T, O> {
    fn fmt<W: fmt::Write>(&self, f: &mut fmt::Formatter<W>) -> fmt::Result {
        f.write_str("IntoIter(")?;
        write_list(self.as_bitslice(), f)?;
        f.write_str(")")
    }
}
