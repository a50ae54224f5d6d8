//! The calls of a view that the array has itself.
ghost use Rattle.std.specs.Prelude.{◌≡◌, ◌+◌, ◌-◌, ◌*◌, ◌/◌, ◌%◌, ◌<◌, ◌≤◌, ◌↔◌, IsTrue, count_by, length, replicate, set, slice_get, slice_range};
ghost use Rattle.bit_addressing.specs.declared.length.TheConstants.{MAX_BITS};
ghost use Rattle.bit_addressing.specs.Range.{LiesIn};
ghost use Rattle.bit_addressing.specs.Row.{moved, words_for};
ghost use Rattle.bit_addressing.specs.Typed.{row};
ghost use Rattle.bit_slice.specs.BitSlice.{words_of, head_of, len_of, list_of};

use crate::array::BitArray;
use crate::sized::{BitViewSized, BitWords};
use bit_addressing::{BitOrder, RangeExt};
use bit_slice::{BitListMut, BitSlice};

impl<A: BitWords, O: BitOrder> BitArray<A, O> {
    /// The number of bits of the array.
    ///
    /// ```text
    /// of 01101001: bits.len() == 8
    /// ```
    pub fn len(&self) -> usize
        ensures value { result ≡ A.Store.BITS * A.count }
        ensures list { result ≡ length (row A.Store.BitStore O.BitOrder (A.words self.now)) }
        ensures few { result ≤ MAX_BITS }
    {
        self.as_bitslice().len()
    }

    /// Whether the array has no bit.
    ///
    /// ```text
    /// of 01101001: bits.is_empty() == false
    /// ```
    pub fn is_empty(&self) -> bool
        ensures { IsTrue result ↔ (A.Store.BITS * A.count ≡ 0) }
    {
        self.as_bitslice().is_empty()
    }

    /// The head, which is 0.
    ///
    /// ```text
    /// of 01101001: bits.head() == 0
    /// ```
    pub fn head(&self) -> usize
        ensures { result ≡ 0 }
    {
        0
    }

    /// The bit at `i`. None exactly where `i` is the length or more.
    ///
    /// ```text
    /// of 01101001: bits.get(1) == Some(true)
    /// ```
    #[tactic(auto, using(bit_slice::proofs::Parts::shown_length))]
    pub fn get(&self, i: usize) -> Option<bool>
        ensures value { result ≡ slice_get (row A.Store.BitStore O.BitOrder (A.words self.now)) i }
        ensures len { length (row A.Store.BitStore O.BitOrder (A.words self.now)) ≡ A.Store.BITS * A.count }
    {
        self.as_bitslice().get(i)
    }

    /// The first bit. None exactly where the array is empty.
    ///
    /// ```text
    /// of 01101001: bits.first() == Some(false)
    /// ```
    pub fn first(&self) -> Option<bool>
        ensures { result ≡ slice_get (row A.Store.BitStore O.BitOrder (A.words self.now)) 0 }
    {
        self.as_bitslice().first()
    }

    /// The last bit. None exactly where the array is empty.
    ///
    /// ```text
    /// of 01101001: bits.last() == Some(true)
    /// ```
    pub fn last(&self) -> Option<bool>
        ensures { result
            ≡ slice_get (row A.Store.BitStore O.BitOrder (A.words self.now)) (A.Store.BITS * A.count - 1) }
    {
        self.as_bitslice().last()
    }

    /// The number of true bits.
    ///
    /// ```text
    /// of 01101001: bits.count_ones() == 4
    /// ```
    pub fn count_ones(&self) -> usize
        ensures value { result ≡ count_by (λ bit. bit) (row A.Store.BitStore O.BitOrder (A.words self.now)) }
        ensures few { result ≤ A.Store.BITS * A.count }
    {
        self.as_bitslice().count_ones()
    }

    /// The view of the bits at a range of indices, for reading. Requires that the range lies in the length.
    ///
    /// ```text
    /// of 01101001: bits.get_range(1..5) shows 1101
    /// ```
    pub fn get_range<R: RangeExt>(&self, range: R) -> BitSlice<'_, A::Store, O>
        requires lies { LiesIn (R.start_of range) (R.end_of range (A.Store.BITS * A.count)) (A.Store.BITS * A.count) }
        ensures list { list_of result
            ≡ slice_range (row A.Store.BitStore O.BitOrder (A.words self.now)) (R.start_of range)
            (R.end_of range (A.Store.BITS * A.count)) }
        ensures head { head_of result ≡ R.start_of range % A.Store.BITS }
        ensures len { len_of result ≡ R.end_of range (A.Store.BITS * A.count) - R.start_of range }
        ensures words { let first = R.start_of range / A.Store.BITS in words_of result
            ≡ slice_range (A.words self.now) first
            (first + words_for A.Store.BITS (head_of result + len_of result)) }
    {
        self.as_bitslice().get_range(range)
    }
}

impl<A: BitViewSized, O: BitOrder> BitArray<A, O> {
    /// Writes the bit at `i`, and no other bit. Requires that `i` is below the length.
    ///
    /// ```text
    /// of 01101001: bits.set(0, true) leaves 11101001
    /// ```
    pub fn set(&mut self, i: usize, bit: bool)
        requires { i < A.Store.BITS * A.count }
        ensures list { row A.Store.BitStore O.BitOrder (A.words self.new)
            ≡ set (row A.Store.BitStore O.BitOrder (A.words self.old)) i bit }
        ensures len { length (row A.Store.BitStore O.BitOrder (A.words self.new)) ≡ A.Store.BITS * A.count }
    {
        BitListMut::set(self, i, bit);
        // Proof only: how many bits there are.
        let _len = self.len();
    }

    /// Makes every bit `bit`.
    ///
    /// ```text
    /// of 01101001: bits.fill(true) leaves 11111111
    /// ```
    pub fn fill(&mut self, bit: bool)
        ensures { row A.Store.BitStore O.BitOrder (A.words self.new) ≡ replicate (A.Store.BITS * A.count) bit }
    {
        BitListMut::fill(self, bit);
    }

    /// Copies the bits of a range to index `dest`, as if they were copied out first. No other bit changes. Requires
    /// that the range lies in the length and that its bits have room from `dest` on.
    ///
    /// ```text
    /// of 01101001: bits.copy_within(2..5, 0) leaves 10101001
    /// ```
    pub fn copy_within<R: RangeExt>(&mut self, range: R, dest: usize)
        requires lies { LiesIn (R.start_of range) (R.end_of range (A.Store.BITS * A.count)) (A.Store.BITS * A.count) }
        requires room { dest + (R.end_of range (A.Store.BITS * A.count) - R.start_of range) ≤ A.Store.BITS * A.count }
        ensures list { row A.Store.BitStore O.BitOrder (A.words self.new)
            ≡ moved (row A.Store.BitStore O.BitOrder (A.words self.old)) (R.start_of range) dest
            (R.end_of range (A.Store.BITS * A.count) - R.start_of range) }
        ensures landed { let n = R.end_of range (A.Store.BITS * A.count)
            - R.start_of range in slice_range (row A.Store.BitStore O.BitOrder (A.words self.new)) dest
            (dest + n)
            ≡ slice_range (row A.Store.BitStore O.BitOrder (A.words self.old)) (R.start_of range)
            (R.start_of range + n) }
    {
        BitListMut::copy_within(self, range, dest);
    }
}
