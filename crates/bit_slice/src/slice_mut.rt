//! Views of bits for writing.
ghost use Rattle.std.specs.Iterator.{YieldsFirst, YieldsLast};
ghost use Rattle.std.specs.Iterator.Runs.{YieldsInOrder, YieldsInReverse};
ghost use Rattle.std.specs.Prelude.{◌≡◌, ℕ, ◌+◌, ◌-◌, ◌*◌, ◌/◌, ◌%◌, ◌<◌, ◌≤◌, ◌↔◌, Bool, true, false, length, map, not, count_by, replicate, set, slice_get, slice_index_or, slice_range, swap, IsTrue};
ghost use Rattle.std.specs.Borrow.{sem};
ghost use Rattle.bit_addressing.specs.Range.{LiesIn};
ghost use Rattle.bit_addressing.specs.Row.{words_for, put, moved};
ghost use Rattle.bit_addressing.specs.Typed.{row, words_from};
ghost use Rattle.bit_addressing.specs.declared.length.TheConstants.{MAX_BITS};
ghost use Rattle.bit_slice.specs.Fits.{IsView};
ghost use Rattle.bit_slice.specs.Lists.{BecomesWhole};

mod assign;
mod parts;
mod traits;

use crate::counted_mut::CountedMut;
use crate::edits::flip_bits;
use crate::iter::Iter;
use crate::lists_mut::BitListMut;
use crate::slice::BitSlice;
use bit_addressing::{BitOrder, BitStore, RangeExt};
use bit_rows::prove_exact_words;
use std::marker::PhantomData;
use std::ops::Index;

/// A run of bits in borrowed words, for writing.
///
/// It has words, a head, a length and a list like a `BitSlice`. What is written through it lands in the
/// words that it borrows. A call that writes changes no bit outside the run, and keeps the head and the
/// length. No call takes memory.
///
/// ```rust
/// use bit_addressing::Msb0;
/// use bit_slice::{BitListMut, BitSliceMut};
///
/// let mut words = [0x1234_u16, 0];
/// let mut view = BitSliceMut::<u16, Msb0>::from_slice_mut(&mut words);
/// view.copy_within(0..16, 16);
/// view.fill_range(0..4, true);
/// println!(&rt; "{:x} {:x}", words[0], words[1])?;
/// ```
///
/// ```text
/// f234 1234
/// ```
#[derive(Drop)]
pub struct BitSliceMut<'a, T: BitStore, O: BitOrder> {
    pub(crate) words: &'a mut [T],
    pub(crate) head: usize,
    pub(crate) len: usize,
    order: PhantomData<O>,
    ghost fits: { IsView T.BITS (length words.now) head len },
}

impl<'a, T: BitStore, O: BitOrder> BitSliceMut<'a, T, O> {
    ghost use Rattle.bit_slice.specs.BitSlice.{words_of as words_seen, head_of as head_seen, len_of as len_seen, list_of as list_seen};
    ghost use Rattle.bit_slice.specs.BitSliceMut.{words_of, head_of, len_of, count_of, row_of, list_of, loan_of, Stays};
    ghost use Rattle.bit_slice.specs.Iter.{rest_of};
    ghost use Rattle.bit_slice.specs.Lends.{lends_words};
    ghost use Rattle.bit_slice.specs.CountedMut.{list_of as list_counted};

    /// All bits of the words, with the head 0. Requires that they are at most `MAX_BITS` bits.
    ///
    /// ```text
    /// BitSliceMut::<u8, Lsb0>::from_slice_mut(&mut [6]).as_bitslice() shows 01100000
    /// ```
    pub fn from_slice_mut(words: &'a mut [T]) -> Self
        requires { T.BITS * length words.old ≤ MAX_BITS }
        ensures same_words { loan_of result ≡ words.entry.ghost_name }
        ensures words { words_of result ≡ words.old }
        ensures head { head_of result ≡ 0 }
        ensures len { len_of result ≡ T.BITS * length words.old }
        ensures list { list_of result ≡ row T.BitStore O.BitOrder words.old }
    {
        let len = words.len() * T::BITS as usize;
        BitSliceMut {
            words,
            head: 0,
            len,
            order: PhantomData,
        }
    }

    /// The view of `len` bits that begins at the index `head` of the words' row. Requires that the
    /// head is in the first word, that there are exactly as many words as the bits take, and that
    /// there are at most `MAX_BITS` bits.
    ///
    /// ```text
    /// BitSliceMut::<u8, Lsb0>::from_parts_mut(&mut [6], 1, 3).as_bitslice() shows 110
    /// ```
    pub fn from_parts_mut(words: &'a mut [T], head: usize, len: usize) -> Self
        requires in_word { head < T.BITS }
        requires few { len ≤ MAX_BITS }
        requires exact { length words.old ≡ words_for T.BITS (head + len) }
        ensures same_words { loan_of result ≡ words.entry.ghost_name }
        ensures words { words_of result ≡ words.old }
        ensures head { head_of result ≡ head }
        ensures len { len_of result ≡ len }
        ensures list { list_of result ≡ slice_range (row T.BitStore O.BitOrder words.old) head (head + len) }
    {
        BitSliceMut {
            words,
            head,
            len,
            order: PhantomData,
        }
    }

    /// The same bits for reading.
    ///
    /// ```text
    /// of 01101001: bits.as_bitslice() shows 01101001
    /// ```
    pub fn as_bitslice(&self) -> BitSlice<'_, T, O>
        ensures words { words_seen result ≡ words_of self.now }
        ensures head { head_seen result ≡ head_of self.now }
        ensures len { len_seen result ≡ len_of self.now }
        ensures list { list_seen result ≡ list_of self.now }
    {
        BitSlice::from_parts(self.words, self.head, self.len)
    }

    /// The words that the view borrows: as many as its head and length take.
    ///
    /// ```text
    /// of 01101001: bits.as_raw_slice()[0] == 150
    /// ```
    pub fn as_raw_slice(&self) -> &[T]
        ensures words { result.now ≡ words_of self.now }
        ensures exact { length result.now ≡ words_for T.BITS (head_of self.now + len_of self.now) }
        ensures from_row { result.now ≡ words_from T.BitStore O.BitOrder (row_of self.now) }
    {
        prove_exact_words::<T, O>(self.words);
        self.words
    }

    /// The words that the view borrows, for writing: what is written into them lands in the view.
    ///
    /// ```text
    /// of 01101001: bits.as_raw_mut_slice()[0] = 3 leaves 11000000
    /// ```
    pub fn as_raw_mut_slice(&mut self) -> &mut [T]
        ensures* writes_back { sem 𝓛 (lends_words T.row O.row T.BitStore O.BitOrder self.entry result.ghost_name) }
        ensures words { result.now ≡ words_of self.old }
    {
        &mut *self.words
    }

    /// The same bits with a meter at 0, for moves that count the words that they read and write.
    /// What is moved through it lands in the view.
    ///
    /// ```text
    /// of 0110: bits.counted_mut().copy_within_counted(0..2, 2) leaves 0101
    /// ```
    pub fn counted_mut(&mut self) -> CountedMut<'_, T, O>
        ensures* writes_back { sem 𝓛 (lends_words T.row O.row T.BitStore O.BitOrder self.entry
            result.row.words.ghost_name) }
        ensures words { result.row.words.now ≡ words_of self.old }
        ensures head { result.head ≡ head_of self.old }
        ensures len { result.len ≡ len_of self.old }
        ensures reads { result.row.meter.reads ≡ 0 }
        ensures writes { result.row.meter.writes ≡ 0 }
        ensures list { list_counted result ≡ list_of self.old }
    {
        let head = self.head;
        let len = self.len;
        CountedMut::of(&mut *self.words, head, len)
    }

    /// The number of bits of the view.
    ///
    /// ```text
    /// of 01101001: bits.len() == 8
    /// ```
    pub fn len(&self) -> usize
        ensures value { result ≡ len_of self.now }
        ensures list { result ≡ length (list_of self.now) }
        ensures few { result ≤ MAX_BITS }
    {
        self.as_bitslice().len()
    }

    /// Whether the view has no bit.
    ///
    /// ```text
    /// of 01101001: bits.is_empty() == false
    /// ```
    pub fn is_empty(&self) -> bool
        ensures { IsTrue result ↔ (len_of self.now ≡ 0) }
    {
        self.len == 0
    }

    /// The index of the view's first bit in its first word, below `T::BITS`.
    ///
    /// ```text
    /// of 01101001: bits.head() == 0
    /// ```
    pub fn head(&self) -> usize
        ensures value { result ≡ head_of self.now }
        ensures in_word { result < T.BITS }
    {
        self.head
    }

    /// The bit at index `i`. None exactly where the view is too short.
    ///
    /// ```text
    /// of 01101001: bits.get(1) == Some(true)
    /// ```
    pub fn get(&self, i: usize) -> Option<bool>
        ensures { result ≡ slice_get (list_of self.now) i }
    {
        self.as_bitslice().get(i)
    }

    /// The first bit. None exactly where the view is empty.
    ///
    /// ```text
    /// of 01101001: bits.first() == Some(false)
    /// ```
    pub fn first(&self) -> Option<bool>
        ensures { result ≡ slice_get (list_of self.now) 0 }
    {
        self.as_bitslice().first()
    }

    /// The last bit. None exactly where the view is empty.
    ///
    /// ```text
    /// of 01101001: bits.last() == Some(true)
    /// ```
    pub fn last(&self) -> Option<bool>
        ensures { result ≡ slice_get (list_of self.now) (len_of self.now - 1) }
    {
        self.as_bitslice().last()
    }

    /// The bits of the view, from both ends.
    ///
    /// ```text
    /// of 01101001: bits.iter() gives false, true, true, false, true, false, false, true
    /// ```
    pub fn iter(&self) -> Iter<'_, T, O>
        ensures list { rest_of result ≡ list_of self.now }
        ensures few { length (rest_of result) ≤ MAX_BITS }
        ensures runs { YieldsInOrder (YieldsFirst (rest_of {X = T} {Y = O} {W = T.BitStore} {P = O.BitOrder})) rest_of }
        ensures runs_back { YieldsInReverse
            (YieldsLast (rest_of {X = T} {Y = O} {W = T.BitStore} {P = O.BitOrder})) rest_of }
    {
        self.as_bitslice().iter()
    }

    /// The number of true bits.
    ///
    /// ```text
    /// of 01101001: bits.count_ones() == 4
    /// ```
    pub fn count_ones(&self) -> usize
        ensures value { result ≡ count_by (λ b. b) (list_of self.now) }
        ensures few { result ≤ len_of self.now }
    {
        self.as_bitslice().count_ones()
    }

    /// Writes `b` at index `i`. Requires that `i` is below the length.
    ///
    /// ```text
    /// of 01101001: bits.set(0, true) leaves 11101001
    /// ```
    pub fn set(&mut self, i: usize, b: bool)
        requires { i < len_of self.old }
        ensures row { row_of self.new ≡ set (row_of self.old) (head_of self.old + i) b }
        ensures list { list_of self.new ≡ set (list_of self.old) i b }
        ensures stays { Stays self.old self.new }
    {
        BitListMut::set(self, i, b);
    }

    /// Writes `b` at every index, by whole words where it can.
    ///
    /// ```text
    /// of 01101001: bits.fill(true) leaves 11111111
    /// ```
    pub fn fill(&mut self, b: bool)
        ensures row { row_of self.new ≡ put (row_of self.old) (head_of self.old) (replicate (len_of self.old) b) }
        ensures list { list_of self.new ≡ replicate (len_of self.old) b }
        ensures whole { BecomesWhole T.BITS head_of len_of count_of row_of self.old self.new
            (replicate (len_of self.old) b) }
        ensures stays { Stays self.old self.new }
    {
        BitListMut::fill(self, b);
    }

    /// Copies the bits at a range of indices to the indices from `dest` on, as if they were read
    /// before any is written. The runs may overlap. Requires that the range lies in the view's length,
    /// and that its bits have room from `dest` on.
    ///
    /// ```text
    /// of 01101001: bits.copy_within(2..5, 0) leaves 10101001
    /// ```
    pub fn copy_within<R: RangeExt>(&mut self, range: R, dest: usize)
        requires lies { LiesIn (R.start_of range) (R.end_of range (len_of self.old)) (len_of self.old) }
        requires room { dest + (R.end_of range (len_of self.old) - R.start_of range) ≤ len_of self.old }
        ensures row { row_of self.new ≡ moved (row_of self.old) (head_of self.old + R.start_of range)
            (head_of self.old + dest) (R.end_of range (len_of self.old) - R.start_of range) }
        ensures list { list_of self.new
            ≡ moved (list_of self.old) (R.start_of range) dest (R.end_of range (len_of self.old) - R.start_of range) }
        ensures stays { Stays self.old self.new }
    {
        BitListMut::copy_within(self, range, dest);
    }

    /// Flips every bit of the view, 64 at a time. Unlike `flip_all` of an array, a box or a vector, it changes no
    /// bit of the words outside the list.
    ///
    /// ```text
    /// of 01101001: bits.flip_all() leaves 10010110
    /// ```
    pub fn flip_all(&mut self)
        ensures row { row_of self.new ≡ put (row_of self.old) (head_of self.old) (map not (list_of self.old)) }
        ensures list { list_of self.new ≡ map not (list_of self.old) }
        ensures whole { BecomesWhole T.BITS head_of len_of count_of row_of self.old self.new
            (map not (list_of self.old)) }
        ensures stays { Stays self.old self.new }
    {
        flip_bits::<T, O>(self.words, self.head, self.head + self.len);
    }
}

impl<'a, T: BitStore, O: BitOrder> Index<usize> for BitSliceMut<'a, T, O> {
    ghost use Rattle.std.specs.Prelude.{◌≡◌, ◌<◌, Some, slice_get};
    ghost use Rattle.bit_slice.specs.BitSliceMut.{len_of, list_of};

    type Output = bool;

    ghost can_index = { λ v i. i < len_of v };

    ghost index_gives = { λ v i x. Some x ≡ slice_get (list_of v) i };

    /// The bit at index `i`. Requires that `i` is below the length.
    fn index(&self, i: usize) -> &bool {
        if self.as_bitslice().bit(i) {
            &true
        } else {
            &false
        }
    }
}
