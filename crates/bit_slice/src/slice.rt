//! Views of bits for reading.
ghost use Rattle.std.specs.Iterator.{YieldsFirst, YieldsLast};
ghost use Rattle.std.specs.Iterator.Runs.{YieldsInOrder, YieldsInReverse};
ghost use Rattle.std.specs.Prelude.{◌≡◌, ℕ, ◌+◌, ◌-◌, ◌*◌, ◌/◌, ◌%◌, ◌<◌, ◌≤◌, ◌↔◌, Bool, not, length, count_by, slice_get, slice_index_or, slice_range, true, false, EachIndex, SomeIndex, IsTrue, IsOk, IfOk};
ghost use Rattle.std.specs.List.{list_any, list_all};
ghost use Rattle.bit_addressing.specs.Range.{LiesIn};
ghost use Rattle.bit_addressing.specs.Row.{words_for};
ghost use Rattle.bit_addressing.specs.Typed.{row, words_from};
ghost use Rattle.bit_addressing.specs.declared.length.TheConstants.{MAX_BITS};
ghost use Rattle.bit_slice.specs.Fits.{IsView};

pub(crate) mod chunks;
mod find;
pub(crate) mod indices;
pub(crate) mod nth;
pub(crate) mod pairs;
mod parts;
pub(crate) mod places;
pub(crate) mod ranges;
pub(crate) mod runs;
mod search;
pub(crate) mod sets;
pub(crate) mod split;
mod traits;

use crate::counted::Counted;
use crate::iter::Iter;
use bit_addressing::{BitOrder, BitStore, GrowError, MAX_BITS, RangeExt, elts};
use bit_rows::{count_bits, find_bit, prove_exact_words, read_bit};
use std::alloc::AllocError;
use std::marker::PhantomData;
use std::ops::Index;

/// A run of bits in borrowed words, for reading. It is `Copy`, and passed by value.
///
/// It has words of type `T`, a head and a length, both in bits. Its list is the run of that length
/// that begins at the head, in the row of its words by the order `O`. The head is in the first word,
/// and the words are exactly those that the head and the length take. No call takes memory.
///
/// ```rust
/// use bit_addressing::Msb0;
/// use bit_slice::{BitList, BitSlice};
///
/// let words = [0x1234_u16, 0x5678];
/// let view = BitSlice::<u16, Msb0>::from_slice(&words);
/// let part = view.get_range(4..12);
/// println!(&rt; "{part}: {} ones, {} as a number", part.count_ones(), part.load_be())?;
/// println!(&rt; "the next one from index 17 on: {:?}", view.next_one(17))?;
/// ```
///
/// ```text
/// [0, 0, 1, 0, 0, 0, 1, 1]: 3 ones, 35 as a number
/// the next one from index 17 on: Some(17)
/// ```
pub struct BitSlice<'a, T: BitStore, O: BitOrder> {
    pub(crate) words: &'a [T],
    pub(crate) head: usize,
    pub(crate) len: usize,
    order: PhantomData<O>,
    ghost fits: { IsView T.BITS (length words.now) head len },
}

impl<'a, T: BitStore, O: BitOrder> Clone for BitSlice<'a, T, O> {
    ghost is_clone = { λ a b. a ≡ b };

    ghost is_infallible = { λ _. Unit {0} };

    /// The same view.
    fn clone(&self) -> Result<Self, AllocError> {
        Ok(*self)
    }
}

impl<'a, T: BitStore, O: BitOrder> Copy for BitSlice<'a, T, O> {}

impl<'a, T: BitStore, O: BitOrder> BitSlice<'a, T, O> {
    ghost use Rattle.bit_slice.specs.BitSlice.{words_of, head_of, len_of, row_of, list_of};
    ghost use Rattle.bit_slice.specs.Counted.{words_of as words_counted, head_of as head_counted, len_of as len_counted, list_of as list_counted, reads_of};
    ghost use Rattle.bit_slice.specs.Iter.{rest_of};

    /// All bits of the words, with the head 0. Requires that they are at most `MAX_BITS` bits.
    ///
    /// ```text
    /// BitSlice::<u8, Lsb0>::from_slice(&[6]) shows 01100000
    /// ```
    pub fn from_slice(words: &'a [T]) -> Self
        requires { T.BITS * length words.now ≤ MAX_BITS }
        ensures words { words_of result ≡ words.now }
        ensures head { head_of result ≡ 0 }
        ensures len { len_of result ≡ T.BITS * length words.now }
        ensures list { list_of result ≡ row T.BitStore O.BitOrder words.now }
    {
        let len = words.len() * T::BITS as usize;
        BitSlice {
            words,
            head: 0,
            len,
            order: PhantomData,
        }
    }

    /// Like `from_slice`. Returns `TooLong` exactly where the words have more than `MAX_BITS` bits.
    ///
    /// ```text
    /// BitSlice::<u8, Lsb0>::try_from_slice(&[6])? shows 01100000
    /// ```
    pub fn try_from_slice(words: &'a [T]) -> Result<Self, GrowError>
        ensures too_long { (result ≡ Err GrowError.TooLong) ↔ (MAX_BITS < T.BITS * length words.now) }
        ensures fits { IsOk result ↔ (T.BITS * length words.now ≤ MAX_BITS) }
        ensures words { IfOk result (λ v. words_of v ≡ words.now) }
        ensures head { IfOk result (λ v. head_of v ≡ 0) }
        ensures len { IfOk result (λ v. len_of v ≡ T.BITS * length words.now) }
        ensures list { IfOk result (λ v. list_of v ≡ row T.BitStore O.BitOrder words.now) }
    {
        if words.len() > MAX_BITS / T::BITS as usize {
            return Err(GrowError::TooLong);
        }
        Ok(BitSlice::from_slice(words))
    }

    /// The view of `len` bits that begins at the index `head` of the words' row. Requires that the
    /// head is in the first word, that there are exactly as many words as the bits take, and that
    /// there are at most `MAX_BITS` bits.
    ///
    /// ```text
    /// BitSlice::<u8, Lsb0>::from_parts(&[6], 1, 3) shows 110
    /// ```
    pub fn from_parts(words: &'a [T], head: usize, len: usize) -> Self
        requires in_word { head < T.BITS }
        requires few { len ≤ MAX_BITS }
        requires exact { length words.now ≡ words_for T.BITS (head + len) }
        ensures words { words_of result ≡ words.now }
        ensures head { head_of result ≡ head }
        ensures len { len_of result ≡ len }
        ensures list { list_of result ≡ slice_range (row T.BitStore O.BitOrder words.now) head (head + len) }
    {
        BitSlice {
            words,
            head,
            len,
            order: PhantomData,
        }
    }

    /// The words that the view borrows: as many as its head and length take.
    ///
    /// ```text
    /// of 01101001: bits.as_raw_slice()[0] == 150
    /// ```
    pub fn as_raw_slice(self) -> &'a [T]
        ensures words { result.now ≡ words_of self.entry }
        ensures exact { length result.now ≡ words_for T.BITS (head_of self.entry + len_of self.entry) }
        ensures from_row { result.now ≡ words_from T.BitStore O.BitOrder (row_of self.entry) }
    {
        prove_exact_words::<T, O>(self.words);
        self.words
    }

    /// The same bits with a meter at 0, for comparisons and counts that count the words that they
    /// read.
    ///
    /// ```text
    /// of 01101001: bits.counted().count_ones_counted() == 4
    /// ```
    pub fn counted(self) -> Counted<'a, T, O>
        ensures words { words_counted result ≡ words_of self.entry }
        ensures head { head_counted result ≡ head_of self.entry }
        ensures len { len_counted result ≡ len_of self.entry }
        ensures list { list_counted result ≡ list_of self.entry }
        ensures reads { reads_of result ≡ 0 }
    {
        Counted::of(self.words, self.head, self.len)
    }

    /// The number of bits of the view.
    ///
    /// ```text
    /// of 01101001: bits.len() == 8
    /// ```
    pub fn len(self) -> usize
        ensures value { result ≡ len_of self.entry }
        ensures list { result ≡ length (list_of self.entry) }
        ensures few { result ≤ MAX_BITS }
    {
        self.len
    }

    /// Whether the view has no bit.
    ///
    /// ```text
    /// of 01101001: bits.is_empty() == false
    /// ```
    pub fn is_empty(self) -> bool
        ensures { IsTrue result ↔ (len_of self.entry ≡ 0) }
    {
        self.len == 0
    }

    /// The index of the view's first bit in its first word, below `T::BITS`.
    ///
    /// ```text
    /// of 01101001: bits.head() == 0
    /// ```
    pub fn head(self) -> usize
        ensures value { result ≡ head_of self.entry }
        ensures in_word { result < T.BITS }
    {
        self.head
    }

    // The bit at index `i`.
    pub(crate) fn bit(self, i: usize) -> bool
        requires { i < len_of self }
        ensures value { result ≡ slice_index_or (list_of self.entry) i false }
        ensures item { slice_get (list_of self.entry) i ≡ Some result }
    {
        read_bit::<T, O>(self.words, self.head + i)
    }

    /// The bit at index `i`. None exactly where the view is too short.
    ///
    /// ```text
    /// of 01101001: bits.get(1) == Some(true)
    /// ```
    pub fn get(self, i: usize) -> Option<bool>
        ensures { result ≡ slice_get (list_of self.entry) i }
    {
        if i >= self.len {
            return None;
        }
        Some(self.bit(i))
    }

    /// The part of the view at a range of indices. Requires that the range lies in the view's length.
    ///
    /// ```text
    /// of 01101001: bits.get_range(1..5) shows 1101
    /// ```
    pub fn get_range<R: RangeExt>(self, range: R) -> Self
        requires lies { LiesIn (R.start_of range) (R.end_of range (len_of self)) (len_of self) }
        ensures list { list_of result ≡ slice_range (list_of self.entry) (R.start_of range)
            (R.end_of range (len_of self.entry)) }
        ensures head { head_of result ≡ (head_of self.entry + R.start_of range) % T.BITS }
        ensures len { len_of result ≡ R.end_of range (len_of self.entry) - R.start_of range }
        ensures words { let first = (head_of self.entry + R.start_of range) / T.BITS
            in words_of result ≡ slice_range (words_of self.entry) first
            (first + words_for T.BITS (head_of result + len_of result)) }
    {
        let part = range.normalize(self.len);
        let width = T::BITS as usize;
        let at = self.head + part.start;
        let head = at % width;
        let len = part.end - part.start;
        let first = at / width;
        let count = elts::<T>(head + len);
        BitSlice::from_parts(words_at(self.words, first, count), head, len)
    }

    /// The first bit. None exactly where the view is empty.
    ///
    /// ```text
    /// of 01101001: bits.first() == Some(false)
    /// ```
    pub fn first(self) -> Option<bool>
        ensures { result ≡ slice_get (list_of self.entry) 0 }
    {
        self.get(0)
    }

    /// The last bit. None exactly where the view is empty.
    ///
    /// ```text
    /// of 01101001: bits.last() == Some(true)
    /// ```
    pub fn last(self) -> Option<bool>
        ensures { result ≡ slice_get (list_of self.entry) (len_of self.entry - 1) }
    {
        if self.len == 0 {
            return None;
        }
        self.get(self.len - 1)
    }

    /// The bits of the view, from both ends.
    ///
    /// ```text
    /// of 01101001: bits.iter() gives false, true, true, false, true, false, false, true
    /// ```
    pub fn iter(self) -> Iter<'a, T, O>
        ensures list { rest_of result ≡ list_of self.entry }
        ensures few { length (rest_of result) ≤ MAX_BITS }
        ensures runs { YieldsInOrder (YieldsFirst (rest_of {X = T} {Y = O} {W = T.BitStore} {P = O.BitOrder})) rest_of }
        ensures runs_back { YieldsInReverse
            (YieldsLast (rest_of {X = T} {Y = O} {W = T.BitStore} {P = O.BitOrder})) rest_of }
    {
        Iter::new(self.words, self.head, self.head + self.len)
    }

    /// The number of true bits, by whole words where it can.
    ///
    /// ```text
    /// of 01101001: bits.count_ones() == 4
    /// ```
    #[inline(always)]
    pub fn count_ones(self) -> usize
        ensures value { result ≡ count_by (λ b. b) (list_of self.entry) }
        ensures few { result ≤ len_of self.entry }
    {
        count_bits::<T, O>(self.words, self.head, self.head + self.len)
    }
}

// The `count` words from word `first` on.
pub(crate) fn words_at<T: BitStore>(words: &[T], first: usize, count: usize) -> &[T]
    requires { first + count ≤ length words.now }
    ensures { result.now ≡ slice_range words.now first (first + count) }
{
    &words[first..first + count]
}

impl<'a, T: BitStore, O: BitOrder> Index<usize> for BitSlice<'a, T, O> {
    ghost use Rattle.std.specs.Prelude.{◌≡◌, ◌<◌, Some, slice_get};
    ghost use Rattle.bit_slice.specs.BitSlice.{len_of, list_of};

    type Output = bool;

    ghost can_index = { λ v i. i < len_of v };

    ghost index_gives = { λ v i x. Some x ≡ slice_get (list_of v) i };

    /// The bit at index `i`. Requires that `i` is below the length.
    fn index(&self, i: usize) -> &bool {
        if self.bit(i) { &true } else { &false }
    }
}
