//! A view that counts the words that its comparisons and counts read.
ghost use Rattle.std.specs.Prelude.{◌≡◌, ℕ, ◌+◌, ◌-◌, ◌*◌, ◌%◌, ◌^◌, ◌<◌, ◌≤◌, ◌↔◌, IsTrue, [], ◌∷◌, count_by, length, slice_range, min, max};
ghost use Rattle.bit_addressing.specs.Row.{words_for, number_of};
ghost use Rattle.bit_addressing.specs.Typed.{row};
ghost use Rattle.bit_addressing.specs.declared.length.TheConstants.{MAX_BITS};
ghost use Rattle.bit_slice.specs.Fits.{IsView};

use bit_addressing::{BitOrder, BitStore, WordRead, elts};
use std::marker::PhantomData;

/// A run of bits in borrowed words, for reading, that counts the words that its calls read.
///
/// Its words are reached through a `WordRead` alone, so the meter counts every word that a call reads.
/// It is not `Clone`. In contracts the words are in `row.words`, and the count is `row.meter.reads`.
#[derive(Drop)]
pub struct Counted<'a, T: BitStore, O: BitOrder> {
    row: WordRead<'a, T>,
    head: usize,
    len: usize,
    order: PhantomData<O>,
    ghost fits: { IsView T.BITS (length row.words.now) head len },
}

impl<'a, T: BitStore, O: BitOrder> Counted<'a, T, O> {
    ghost use Rattle.bit_slice.specs.Counted.{words_of, head_of, len_of, list_of, reads_of, WasRead};

    // The run of `len` bits at `head`, with the meter at 0.
    pub(crate) fn of(words: &'a [T], head: usize, len: usize) -> Self
        requires { IsView T.BITS (length words.now) head len }
        ensures words { words_of result ≡ words.now }
        ensures head { head_of result ≡ head }
        ensures len { len_of result ≡ len }
        ensures reads { reads_of result ≡ 0 }
    {
        Counted {
            row: WordRead::new(words),
            head,
            len,
            order: PhantomData,
        }
    }

    /// The number of bits of the view.
    pub fn len(&self) -> usize
        ensures value { result ≡ len_of self.now }
        ensures few { result ≤ MAX_BITS }
    {
        self.len
    }

    /// Whether the view has no bit.
    pub fn is_empty(&self) -> bool
        ensures { IsTrue result ↔ (len_of self.now ≡ 0) }
    {
        self.len == 0
    }

    /// The index of the view's first bit in its first word, below `T::BITS`.
    pub fn head(&self) -> usize
        ensures value { result ≡ head_of self.now }
        ensures in_word { result < T.BITS }
    {
        self.head
    }

    /// Whether both views have the same bits. Where their heads are equal, each word of either view is
    /// read once at most, and its bits outside the view play no part. There is no such bound where the
    /// heads differ.
    pub fn eq_counted(&mut self, other: &mut Counted<'_, T, O>) -> bool
        ensures value { IsTrue result ↔ (list_of self.old ≡ list_of other.old) }
        ensures left { WasRead self.old self.new }
        ensures right { WasRead other.old other.new }
        ensures left_reads { head_of self.old ≡ head_of other.old
            → reads_of self.new ≤ reads_of self.old + words_for T.BITS (head_of self.old + len_of self.old) }
        ensures right_reads { head_of self.old ≡ head_of other.old
            → reads_of other.new ≤ reads_of other.old + words_for T.BITS (head_of other.old + len_of other.old) }
    {
        if self.len != other.len {
            return false;
        }
        same_bits::<T, O>(
            &mut self.row,
            self.head,
            self.head + self.len,
            &mut other.row,
            other.head,
        )
    }

    /// The number of true bits. Each word of the view is read once at most.
    pub fn count_ones_counted(&mut self) -> usize
        ensures value { result ≡ count_by (λ b. b) (list_of self.old) }
        ensures view { WasRead self.old self.new }
        ensures reads { reads_of self.new ≤ reads_of self.old + words_for T.BITS (head_of self.old + len_of self.old) }
    {
        ones_between::<T, O>(&mut self.row, self.head, self.head + self.len)
    }
}

// The first index of `head..end` that is in word `k` or after it.
fn begin_of<T: BitStore>(head: usize, end: usize, k: usize) -> usize
    requires { T.BITS * k < 2 ^ 64 }
    ensures { result ≡ min end (max head (T.BITS * k)) }
{
    (T::BITS as usize * k).max(head).min(end)
}

// The bits of a word as a number: the bit at index `i` is at place `i`.
fn number_of_word<T: BitStore, O: BitOrder>(word: T) -> u64
    ensures { result ≡ number_of (row T.BitStore O.BitOrder (word ∷ [])) }
{
    O::to_lsb0(word).to_u64()
}

// The `n` bits of the row from `at` on as a number, the first at place 0. Only words that have one of
// these bits are read, each of them once.
fn load_chunk<T: BitStore, O: BitOrder>(words: &mut WordRead<'_, T>, at: usize, n: usize) -> u64
    requires few { n ≤ T.BITS }
    requires within { at + n ≤ T.BITS * length words.old.words.now }
    ensures bits { result ≡ number_of (slice_range (row T.BitStore O.BitOrder words.old.words.now) at (at + n)) }
    ensures words { words.new.words ≡ words.old.words }
    ensures least { words.old.meter.reads ≤ words.new.meter.reads }
    ensures most { at % T.BITS + n ≤ T.BITS → words.new.meter.reads ≤ words.old.meter.reads + 1 }
{
    if n == 0 {
        return 0;
    }
    let width = T::BITS as usize;
    let k = at / width;
    let skip = at % width;
    let low = number_of_word::<T, O>(words.load(k)) >> skip;
    let mask = u64::MAX >> (64 - n);
    if skip + n <= width {
        return low & mask;
    }
    let high = number_of_word::<T, O>(words.load(k + 1)) << (width - skip);
    (low | high) & mask
}

// How many of the `n` bits of the row from `at` on are true.
fn ones_of_run<T: BitStore, O: BitOrder>(words: &mut WordRead<'_, T>, at: usize, n: usize) -> usize
    requires few { n ≤ T.BITS }
    requires within { at + n ≤ T.BITS * length words.old.words.now }
    ensures value { result ≡ count_by (λ b. b)
        (slice_range (row T.BitStore O.BitOrder words.old.words.now) at (at + n)) }
    ensures words { words.new.words ≡ words.old.words }
    ensures least { words.old.meter.reads ≤ words.new.meter.reads }
    ensures most { at % T.BITS + n ≤ T.BITS → words.new.meter.reads ≤ words.old.meter.reads + 1 }
{
    load_chunk::<T, O>(words, at, n).count_ones() as usize
}

// Whether the `n` bits of one row from `from` on are equal to the `n` bits of another row from `at`
// on.
fn same_run<T: BitStore, O: BitOrder>(
    left: &mut WordRead<'_, T>,
    from: usize,
    right: &mut WordRead<'_, T>,
    at: usize,
    n: usize,
) -> bool
    requires few { n ≤ T.BITS }
    requires within_left { from + n ≤ T.BITS * length left.old.words.now }
    requires within_right { at + n ≤ T.BITS * length right.old.words.now }
    ensures value { IsTrue result ↔
        (slice_range (row T.BitStore O.BitOrder left.old.words.now) from (from + n)
        ≡ slice_range (row T.BitStore O.BitOrder right.old.words.now) at (at + n)) }
    ensures left_words { left.new.words ≡ left.old.words }
    ensures right_words { right.new.words ≡ right.old.words }
    ensures left_least { left.old.meter.reads ≤ left.new.meter.reads }
    ensures right_least { right.old.meter.reads ≤ right.new.meter.reads }
    ensures left_most { from % T.BITS + n ≤ T.BITS → left.new.meter.reads ≤ left.old.meter.reads + 1 }
    ensures right_most { at % T.BITS + n ≤ T.BITS → right.new.meter.reads ≤ right.old.meter.reads + 1 }
{
    let ours = load_chunk::<T, O>(left, from, n);
    let theirs = load_chunk::<T, O>(right, at, n);
    ours == theirs
}

// How many bits of the row at the indices `head..end` are true.
fn ones_between<T: BitStore, O: BitOrder>(
    words: &mut WordRead<'_, T>,
    head: usize,
    end: usize,
) -> usize
    requires ordered { head ≤ end }
    requires in_word { head < T.BITS }
    requires within { end ≤ T.BITS * length words.old.words.now }
    requires fits { end + T.BITS < 2 ^ 64 }
    ensures value { result ≡ count_by (λ b. b) (slice_range (row T.BitStore O.BitOrder words.old.words.now) head end) }
    ensures words { words.new.words ≡ words.old.words }
    ensures least { words.old.meter.reads ≤ words.new.meter.reads }
    ensures most { words.new.meter.reads ≤ words.old.meter.reads + words_for T.BITS end }
{
    let mut count = 0;
    for k in 0..elts::<T>(end) {
        let from = begin_of::<T>(head, end, k);
        let upto = begin_of::<T>(head, end, k + 1);
        count += ones_of_run::<T, O>(words, from, upto - from);
    }
    count
}

// Whether the bits of one row at the indices `head..end` are equal to as many bits of another row from
// `begin` on.
fn same_bits<T: BitStore, O: BitOrder>(
    left: &mut WordRead<'_, T>,
    head: usize,
    end: usize,
    right: &mut WordRead<'_, T>,
    begin: usize,
) -> bool
    requires ordered { head ≤ end }
    requires in_word { head < T.BITS }
    requires within_left { end ≤ T.BITS * length left.old.words.now }
    requires within_right { begin + (end - head) ≤ T.BITS * length right.old.words.now }
    requires fits { end + T.BITS < 2 ^ 64 }
    requires fits_right { begin + end < 2 ^ 64 }
    ensures value { IsTrue result ↔
        (slice_range (row T.BitStore O.BitOrder left.old.words.now) head end
        ≡ slice_range (row T.BitStore O.BitOrder right.old.words.now) begin (begin + (end - head))) }
    ensures left_words { left.new.words ≡ left.old.words }
    ensures right_words { right.new.words ≡ right.old.words }
    ensures left_least { left.old.meter.reads ≤ left.new.meter.reads }
    ensures right_least { right.old.meter.reads ≤ right.new.meter.reads }
    ensures left_most { left.new.meter.reads ≤ left.old.meter.reads + words_for T.BITS end }
    ensures right_most { begin ≡ head → right.new.meter.reads ≤ right.old.meter.reads + words_for T.BITS end }
{
    for k in 0..elts::<T>(end) {
        let from = begin_of::<T>(head, end, k);
        let upto = begin_of::<T>(head, end, k + 1);
        if !same_run::<T, O>(left, from, right, begin + (from - head), upto - from) {
            return false;
        }
    }
    true
}
