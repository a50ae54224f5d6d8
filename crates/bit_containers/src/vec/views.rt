//! The views of the vector, and its words.
ghost use Rattle.std.specs.Prelude.{◌≡◌, ◌+◌, ◌-◌, ◌*◌, ◌/◌, ◌%◌, ◌≤◌, length, slice_range};
ghost use Rattle.std.specs.Borrow.{sem};
ghost use Rattle.bit_addressing.specs.declared.length.TheConstants.{MAX_BITS};
ghost use Rattle.bit_addressing.specs.Range.{LiesIn};
ghost use Rattle.bit_addressing.specs.Row.{words_for};
ghost use Rattle.bit_addressing.specs.Typed.{row, words_from, words_for_list};
ghost use Rattle.bit_slice.specs.BitSlice.{words_of, head_of, len_of, row_of, list_of};
ghost use Rattle.bit_slice.specs.BitSliceMut.{words_of as lent_words, head_of as lent_head, len_of as lent_len, row_of as lent_row, list_of as lent_list, loan_of};
ghost use Rattle.bit_containers.specs.BitVec.{IsClean};

use crate::vec::BitVec;
use bit_addressing::{BitOrder, BitStore, RangeExt, elts};
use bit_rows::prove_exact_words;
use bit_slice::{BitSlice, BitSliceMut};

impl<T: BitStore, O: BitOrder> BitVec<T, O> {
    ghost use Rattle.bit_containers.specs.Lends.{lends_run, lends_words, lends_view};

    /// The view of the vector's bits, for reading.
    ///
    /// ```text
    /// of 01101001: bits.as_bitslice() shows 01101001
    /// ```
    pub fn as_bitslice(&self) -> BitSlice<'_, T, O>
        ensures words { words_of result ≡ self.now.words }
        ensures row { row_of result ≡ self.now.row }
        ensures head { head_of result ≡ self.now.head }
        ensures len { len_of result ≡ length self.now.list }
        ensures list { list_of result ≡ self.now.list }
    {
        BitSlice::from_parts(self.words.as_slice(), self.head, self.len)
    }

    /// Like `as_bitslice`.
    ///
    /// ```text
    /// of 01101001: bits.as_slice() shows 01101001
    /// ```
    pub fn as_slice(&self) -> BitSlice<'_, T, O>
        ensures words { words_of result ≡ self.now.words }
        ensures row { row_of result ≡ self.now.row }
        ensures head { head_of result ≡ self.now.head }
        ensures len { len_of result ≡ length self.now.list }
        ensures list { list_of result ≡ self.now.list }
    {
        self.as_bitslice()
    }

    /// The view of the vector's bits, for writing: what is written lands in the vector.
    ///
    /// ```text
    /// of 01101001: bits.as_mut_bitslice().fill(true) leaves 11111111
    /// ```
    pub fn as_mut_bitslice(&mut self) -> BitSliceMut<'_, T, O>
        ensures* writes_back { sem 𝓛 (lends_view T.row O.row T.BitStore O.BitOrder self.entry (loan_of result)) }
        ensures words { lent_words result ≡ self.old.words }
        ensures row { lent_row result ≡ self.old.row }
        ensures head { lent_head result ≡ self.old.head }
        ensures len { lent_len result ≡ length self.old.list }
        ensures list { lent_list result ≡ self.old.list }
    {
        let (head, len) = (self.head, self.len);
        BitSliceMut::from_parts_mut(self.words.as_mut_slice(), head, len)
    }

    /// Like `as_mut_bitslice`.
    ///
    /// ```text
    /// of 01101001: bits.as_mut_slice().fill(true) leaves 11111111
    /// ```
    pub fn as_mut_slice(&mut self) -> BitSliceMut<'_, T, O>
        ensures* writes_back { sem 𝓛 (lends_view T.row O.row T.BitStore O.BitOrder self.entry (loan_of result)) }
        ensures words { lent_words result ≡ self.old.words }
        ensures row { lent_row result ≡ self.old.row }
        ensures head { lent_head result ≡ self.old.head }
        ensures len { lent_len result ≡ length self.old.list }
        ensures list { lent_list result ≡ self.old.list }
    {
        self.as_mut_bitslice()
    }

    /// The part of the vector from index `from` up to index `upto`, for writing: what is written lands in the
    /// vector, and the words around the part stay. Takes no memory. Requires that `from..upto` is a range of
    /// the length.
    ///
    /// The clauses say the list, head and words of the part. Where a caller's own proof needs the whole vector after
    /// a write, call one that takes a range: `fill_range`, `flip_range`, `copy_into` or `or_range`.
    ///
    /// ```text
    /// of 01101001: bits.part_mut(1, 4).fill(false) leaves 00001001
    /// ```
    pub fn part_mut(&mut self, from: usize, upto: usize) -> BitSliceMut<'_, T, O>
        requires ordered { from ≤ upto }
        requires inside { upto ≤ length self.old.list }
        ensures* writes_back { sem 𝓛 (lends_run T.row O.row T.BitStore O.BitOrder self.entry
            ((self.old.head + from) / T.BITS) (loan_of result)) }
        ensures words { let first = (self.old.head + from) / T.BITS in lent_words result
            ≡ slice_range self.old.words first
            (first + words_for T.BITS (lent_head result + lent_len result)) }
        ensures head { lent_head result ≡ (self.old.head + from) % T.BITS }
        ensures len { lent_len result ≡ upto - from }
        ensures list { lent_list result ≡ slice_range self.old.list from upto }
    {
        let width = T::BITS as usize;
        let at = self.head + from;
        let (head, first) = (at % width, at / width);
        let len = upto - from;
        let count = elts::<T>(head + len);
        BitSliceMut::from_parts_mut(self.words.slice_mut(first..first + count), head, len)
    }

    /// The view of the bits at a range of indices, for reading. Requires that the range lies in the length.
    ///
    /// ```text
    /// of 01101001: bits.get_range(1..5) shows 1101
    /// ```
    pub fn get_range<R: RangeExt>(&self, range: R) -> BitSlice<'_, T, O>
        requires lies { LiesIn (R.start_of range) (R.end_of range (length self.now.list)) (length self.now.list) }
        ensures list { list_of result
            ≡ slice_range self.now.list (R.start_of range) (R.end_of range (length self.now.list)) }
        ensures head { head_of result ≡ (self.now.head + R.start_of range) % T.BITS }
        ensures len { len_of result ≡ R.end_of range (length self.now.list) - R.start_of range }
        ensures words { let first = (self.now.head + R.start_of range) / T.BITS in words_of result
            ≡ slice_range self.now.words first (first + words_for T.BITS (head_of result + len_of result)) }
    {
        self.as_bitslice().get_range(range)
    }

    /// The visible words.
    ///
    /// ```text
    /// of 01101001: bits.as_raw_slice()[0] == 150
    /// ```
    pub fn as_raw_slice(&self) -> &[T]
        ensures words { result.now ≡ self.now.words }
        ensures row { row T.BitStore O.BitOrder result.now ≡ self.now.row }
        ensures from_row { result.now ≡ words_from T.BitStore O.BitOrder self.now.row }
        ensures clean { IsClean T.BITS self.now → result.now ≡ words_for_list T.BitStore O.BitOrder self.now.list }
        ensures exact { length result.now ≡ words_for T.BITS (self.now.head + length self.now.list) }
        ensures shows { slice_range self.now.row self.now.head (self.now.head + length self.now.list) ≡ self.now.list }
        ensures fits { self.now.head + length self.now.list ≤ T.BITS * length self.now.words }
    {
        prove_exact_words::<T, O>(self.words.as_slice());
        self.words.as_slice()
    }

    /// The visible words, for writing: what is written lands in the row, live bits and dead ones.
    ///
    /// ```text
    /// of 01101001: bits.as_raw_mut_slice()[0] = 3 leaves 11000000
    /// ```
    pub fn as_raw_mut_slice(&mut self) -> &mut [T]
        ensures* writes_back { sem 𝓛 (lends_words T.row O.row T.BitStore O.BitOrder self.entry result) }
        ensures value { result.now ≡ self.old.words }
        ensures row { row T.BitStore O.BitOrder result.now ≡ self.old.row }
        ensures fits { self.old.head + length self.old.list ≤ T.BITS * length self.old.words }
        ensures few { T.BITS * length self.old.words ≤ MAX_BITS + 2 * T.BITS }
        ensures shows { slice_range (row T.BitStore O.BitOrder self.old.words) self.old.head
            (self.old.head + length self.old.list) ≡ self.old.list }
        ensures exact { length result.now ≡ words_for T.BITS (self.old.head + length self.old.list) }
    {
        self.words.as_mut_slice()
    }
}
