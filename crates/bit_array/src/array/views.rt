//! Views of the array, and its words.
ghost use Rattle.std.specs.Prelude.{◌≡◌, ℕ, ◌+◌, ◌-◌, ◌*◌, ◌/◌, ◌%◌, ◌≤◌, length, slice_range};
ghost use Rattle.bit_addressing.specs.declared.length.TheConstants.{MAX_BITS};
ghost use Rattle.bit_addressing.specs.Row.{words_for};
ghost use Rattle.std.specs.Borrow.{sem};
ghost use Rattle.bit_addressing.specs.Typed.{row, words_from, words_for_list};
ghost use Rattle.bit_slice.specs.BitSlice.{words_of, head_of, len_of, list_of};
ghost use Rattle.bit_slice.specs.BitSliceMut.{words_of as lent_words, head_of as lent_head, len_of as lent_len, list_of as lent_list, loan_of};
ghost use Rattle.bit_array.specs.Sized.{lends_view};
ghost use Rattle.bit_slice.specs.Lists.{lends_to};
ghost use Rattle.bit_array.specs.contracts.array.BitArray.{the_row};

use crate::array::BitArray;
use crate::sized::{BitViewSized, BitWords};
use bit_addressing::{BitOrder, BitStore};
use bit_rows::prove_exact_words;
use bit_slice::{BitSlice, BitSliceMut, run_mut};

impl<A: BitWords, O: BitOrder> BitArray<A, O> {
    /// The view of the array's bits, for reading.
    ///
    /// ```text
    /// of 01101001: bits.as_bitslice() shows 01101001
    /// ```
    pub fn as_bitslice(&self) -> BitSlice<'_, A::Store, O>
        ensures words { words_of result ≡ A.words self.now }
        ensures head { head_of result ≡ 0 }
        ensures len { len_of result ≡ A.Store.BITS * A.count }
        ensures list { list_of result ≡ row A.Store.BitStore O.BitOrder (A.words self.now) }
    {
        BitSlice::from_slice(self.inner.as_raw_slice())
    }

    /// Like `as_bitslice`.
    ///
    /// ```text
    /// of 01101001: bits.as_slice() shows 01101001
    /// ```
    pub fn as_slice(&self) -> BitSlice<'_, A::Store, O>
        ensures words { words_of result ≡ A.words self.now }
        ensures head { head_of result ≡ 0 }
        ensures len { len_of result ≡ A.Store.BITS * A.count }
        ensures list { list_of result ≡ row A.Store.BitStore O.BitOrder (A.words self.now) }
    {
        self.as_bitslice()
    }

    /// The words.
    ///
    /// ```text
    /// of 01101001: bits.as_raw_slice()[0] == 150
    /// ```
    #[tactic(auto, using(crate::proofs::Arrays::words_of_bits))]
    pub fn as_raw_slice(&self) -> &[A::Store]
        ensures words { result.now ≡ A.words self.now }
        ensures len { length result.now ≡ A.count }
        ensures from_row { result.now
            ≡ words_from A.Store.BitStore O.BitOrder (row A.Store.BitStore O.BitOrder (A.words self.now)) }
        ensures from_list { result.now
            ≡ words_for_list A.Store.BitStore O.BitOrder
            (row A.Store.BitStore O.BitOrder (A.words self.now)) }
    {
        let words = self.inner.as_raw_slice();
        prove_exact_words::<A::Store, O>(words);
        words
    }
}

impl<A: BitViewSized, O: BitOrder> BitArray<A, O> {
    /// The view of the array's bits, for writing: what is written lands in the array.
    ///
    /// ```text
    /// of 01101001: bits.as_mut_bitslice().fill(true) leaves 11111111
    /// ```
    pub fn as_mut_bitslice(&mut self) -> BitSliceMut<'_, A::Store, O>
        ensures* writes_back { sem 𝓛 (lends_view
            (the_row A.row O.row A.Store.row A.BitWords A.Store.BitStore O.BitOrder) A.Store.row self.entry
            (A.refilled self.old) (loan_of result)) }
        ensures words { lent_words result ≡ A.words self.old }
        ensures head { lent_head result ≡ 0 }
        ensures len { lent_len result ≡ A.Store.BITS * A.count }
        ensures list { lent_list result ≡ row A.Store.BitStore O.BitOrder (A.words self.old) }
    {
        BitSliceMut::from_slice_mut(self.inner.as_raw_mut_slice())
    }

    /// Like `as_mut_bitslice`.
    ///
    /// ```text
    /// of 01101001: bits.as_mut_slice().fill(true) leaves 11111111
    /// ```
    pub fn as_mut_slice(&mut self) -> BitSliceMut<'_, A::Store, O>
        ensures* writes_back { sem 𝓛 (lends_view
            (the_row A.row O.row A.Store.row A.BitWords A.Store.BitStore O.BitOrder) A.Store.row self.entry
            (A.refilled self.old) (loan_of result)) }
        ensures words { lent_words result ≡ A.words self.old }
        ensures head { lent_head result ≡ 0 }
        ensures len { lent_len result ≡ A.Store.BITS * A.count }
        ensures list { lent_list result ≡ row A.Store.BitStore O.BitOrder (A.words self.old) }
    {
        self.as_mut_bitslice()
    }

    /// The part of the array from index `from` up to index `upto`, for writing. Requires that `from..upto` is a
    /// range of the length.
    ///
    /// The clauses say the list, head and words of the part. That what is written through it lands in the
    /// array, and that the other bits stay, no clause says. Where a caller's own proof needs it, call
    /// `fill_range`, `flip_range`, `copy_into` or `or_range`.
    ///
    /// ```text
    /// of 01101001: bits.part_mut(1, 4).fill(false) leaves 00001001
    /// ```
    pub fn part_mut(&mut self, from: usize, upto: usize) -> BitSliceMut<'_, A::Store, O>
        requires ordered { from ≤ upto }
        requires inside { upto ≤ A.Store.BITS * A.count }
        ensures words { lent_words result
            ≡ slice_range (A.words self.old) (from / A.Store.BITS)
            (from / A.Store.BITS + words_for A.Store.BITS (from % A.Store.BITS + (upto - from))) }
        ensures head { lent_head result ≡ from % A.Store.BITS }
        ensures len { lent_len result ≡ upto - from }
        ensures list { lent_list result ≡ slice_range (row A.Store.BitStore O.BitOrder (A.words self.old)) from upto }
    {
        run_mut::<A::Store, O>(self.inner.as_raw_mut_slice(), from, upto)
    }

    /// The words, for writing: what is written lands in the array.
    ///
    /// ```text
    /// of 01101001: bits.as_raw_mut_slice()[0] = 3 leaves 11000000
    /// ```
    pub fn as_raw_mut_slice(&mut self) -> &mut [A::Store]
        ensures* writes_back { sem 𝓛 (lends_to
            (the_row A.row O.row A.Store.row A.BitWords A.Store.BitStore O.BitOrder) A.Store.row self.entry
            (A.refilled self.old) result) }
        ensures words { result.now ≡ A.words self.old }
        ensures len { length result.now ≡ A.count }
        ensures few { A.Store.BITS * A.count ≤ MAX_BITS }
    {
        self.inner.as_raw_mut_slice()
    }
}
