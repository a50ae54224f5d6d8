//! Views of the box, and its words.
ghost use Rattle.std.specs.Prelude.{◌≡◌, ◌+◌, ◌-◌, ◌*◌, ◌/◌, ◌%◌, ◌≤◌, length, slice_range, take};
ghost use Rattle.std.specs.Borrow.{sem};
ghost use Rattle.bit_addressing.specs.declared.length.TheConstants.{MAX_BITS};
ghost use Rattle.bit_addressing.specs.Row.{words_for};
ghost use Rattle.bit_addressing.specs.Typed.{row, words_from};
ghost use Rattle.bit_slice.specs.BitSlice.{words_of, head_of, len_of, list_of};
ghost use Rattle.bit_slice.specs.BitSliceMut.{words_of as lent_words, head_of as lent_head, len_of as lent_len, list_of as lent_list, loan_of};
ghost use Rattle.bit_boxed.specs.Lends.{lends_words, lends_view, lends_run};

use crate::boxed::BitBox;
use bit_addressing::{BitOrder, BitStore, elts};
use bit_rows::prove_exact_words;
use bit_slice::{BitSlice, BitSliceMut};

impl<T: BitStore, O: BitOrder> BitBox<T, O> {
    /// The view of the box's bits, for reading: of its visible words.
    ///
    /// ```text
    /// of 01101001: bits.as_bitslice() shows 01101001
    /// ```
    pub fn as_bitslice(&self) -> BitSlice<'_, T, O>
        ensures words { words_of result
            ≡ take (words_for T.BITS (self.now.head + length self.now.list)) self.now.words }
        ensures head { head_of result ≡ self.now.head }
        ensures len { len_of result ≡ length self.now.list }
        ensures list { list_of result ≡ self.now.list }
    {
        let count = elts::<T>(self.head + self.len);
        BitSlice::from_parts(&self.words.as_slice()[..count], self.head, self.len)
    }

    /// The view of the box's bits, for writing: what is written lands in the box.
    ///
    /// ```text
    /// of 01101001: bits.as_mut_bitslice().fill(true) leaves 11111111
    /// ```
    pub fn as_mut_bitslice(&mut self) -> BitSliceMut<'_, T, O>
        ensures* writes_back { sem 𝓛 (lends_view T.row O.row T.BitStore O.BitOrder self.entry (loan_of result)) }
        ensures words { lent_words result
            ≡ take (words_for T.BITS (self.old.head + length self.old.list)) self.old.words }
        ensures head { lent_head result ≡ self.old.head }
        ensures len { lent_len result ≡ length self.old.list }
        ensures list { lent_list result ≡ self.old.list }
    {
        let (head, len) = (self.head, self.len);
        BitSliceMut::from_parts_mut(self.visible_mut(), head, len)
    }

    // The visible words, for writing: what is written lands in the box, and the words after them stay.
    fn visible_mut(&mut self) -> &mut [T]
        ensures* writes_back { sem 𝓛 (lends_words T.row O.row T.BitStore O.BitOrder self.entry result) }
        ensures words { result.now ≡ take (words_for T.BITS (self.old.head + length self.old.list)) self.old.words }
        ensures exact { length result.now ≡ words_for T.BITS (self.old.head + length self.old.list) }
        ensures shows { slice_range (row T.BitStore O.BitOrder result.now) self.old.head
            (self.old.head + length self.old.list) ≡ self.old.list }
    {
        let count = elts::<T>(self.head + self.len);
        self.words.slice_mut(..count)
    }

    /// The part of the box from index `from` up to index `upto`, for writing: what is written lands in the box, and
    /// the words around the part stay. Requires that `from..upto` is a range of the length.
    ///
    /// The clauses say the list, head and words of the part. Where a caller's own proof needs the whole box after a
    /// write, call one that takes a range: `fill_range`, `flip_range`, `copy_into` or `or_range`.
    ///
    /// ```text
    /// of 01101001: bits.part_mut(1, 4).fill(false) leaves 00001001
    /// ```
    pub fn part_mut(&mut self, from: usize, upto: usize) -> BitSliceMut<'_, T, O>
        requires ordered { from ≤ upto }
        requires inside { upto ≤ length self.old.list }
        ensures* writes_back { sem 𝓛 (lends_run T.row O.row T.BitStore O.BitOrder self.entry
            ((self.old.head + from) / T.BITS) (loan_of result)) }
        ensures words { let first = (self.old.head + from) / T.BITS in lent_words result
            ≡ slice_range self.old.words first
            (first + words_for T.BITS (lent_head result + lent_len result)) }
        ensures head { lent_head result ≡ (self.old.head + from) % T.BITS }
        ensures len { lent_len result ≡ upto - from }
        ensures list { lent_list result ≡ slice_range self.old.list from upto }
        ensures fits { self.old.head + length self.old.list ≤ T.BITS * length self.old.words }
        ensures shows { slice_range (row T.BitStore O.BitOrder self.old.words) self.old.head
            (self.old.head + length self.old.list) ≡ self.old.list }
    {
        let width = T::BITS as usize;
        let at = self.head + from;
        let (head, first) = (at % width, at / width);
        let len = upto - from;
        let count = elts::<T>(head + len);
        BitSliceMut::from_parts_mut(self.words.slice_mut(first..first + count), head, len)
    }

    /// All the words that the box owns.
    ///
    /// ```text
    /// of 01101001: bits.as_raw_slice()[0] == 150
    /// ```
    pub fn as_raw_slice(&self) -> &[T]
        ensures words { result.now ≡ self.now.words }
        ensures row { row T.BitStore O.BitOrder result.now ≡ self.now.row }
        ensures from_row { result.now ≡ words_from T.BitStore O.BitOrder self.now.row }
        ensures shows { slice_range self.now.row self.now.head (self.now.head + length self.now.list) ≡ self.now.list }
        ensures fits { self.now.head + length self.now.list ≤ T.BITS * length self.now.words }
    {
        prove_exact_words::<T, O>(self.words.as_slice());
        self.words.as_slice()
    }

    /// All the words that the box owns, for writing: what is written lands in the row, live bits and dead ones.
    ///
    /// ```text
    /// of 01101001: bits.as_raw_mut_slice()[0] = 3 leaves 11000000
    /// ```
    pub fn as_raw_mut_slice(&mut self) -> &mut [T]
        ensures* writes_back { sem 𝓛 (lends_words T.row O.row T.BitStore O.BitOrder self.entry result) }
        ensures value { result.now ≡ self.old.words }
        ensures row { row T.BitStore O.BitOrder result.now ≡ self.old.row }
        ensures fits { self.old.head + length self.old.list ≤ T.BITS * length self.old.words }
        ensures few { T.BITS * length self.old.words ≤ MAX_BITS + 2 * T.BITS }
        ensures shows { slice_range (row T.BitStore O.BitOrder self.old.words) self.old.head
            (self.old.head + length self.old.list) ≡ self.old.list }
    {
        self.words.as_mut_slice()
    }
}
