//! A view that counts the words that its moves read and write.
ghost use Rattle.std.specs.Prelude.{◌≡◌, ℕ, ◌+◌, ◌-◌, ◌*◌, ◌<◌, ◌≤◌, ◌↔◌, IsTrue, length, slice_range};
ghost use Rattle.bit_addressing.specs.Range.{LiesIn};
ghost use Rattle.bit_addressing.specs.Row.{moved, touched, words_for};
ghost use Rattle.bit_addressing.specs.Typed.{row};
ghost use Rattle.bit_addressing.specs.declared.length.TheConstants.{MAX_BITS};
ghost use Rattle.bit_slice.specs.Fits.{IsView};

use bit_addressing::{BitOrder, BitStore, RangeExt, WordRow};
use std::marker::PhantomData;

/// A run of bits in borrowed words that counts the words that its moves read and write.
///
/// Its words are reached through a `WordRow` alone, so the meter counts every word that a call reads
/// or writes. In contracts the words are `row.words`, and the counts `row.meter.reads` and
/// `row.meter.writes`.
#[derive(Drop)]
pub struct CountedMut<'a, T: BitStore, O: BitOrder> {
    row: WordRow<'a, T>,
    head: usize,
    len: usize,
    order: PhantomData<O>,
    ghost fits: { IsView T.BITS (length row.words.now) head len },
}

impl<'a, T: BitStore, O: BitOrder> CountedMut<'a, T, O> {
    ghost use Rattle.bit_slice.specs.CountedMut.{words_of, loan_of, head_of, len_of, reads_of, writes_of, row_of, list_of};

    // The run of `len` bits at `head`, with the meter at 0.
    #[tactic(auto, using(crate::proofs::Parts::roomy))]
    pub(crate) fn of(words: &'a mut [T], head: usize, len: usize) -> Self
        requires { IsView T.BITS (length words.old) head len }
        ensures same_words { result.row.words.ghost_name ≡ words.entry.ghost_name }
        ensures words { result.row.words.now ≡ words.old }
        ensures head { result.head ≡ head }
        ensures len { result.len ≡ len }
        ensures reads { result.row.meter.reads ≡ 0 }
        ensures writes { result.row.meter.writes ≡ 0 }
    {
        CountedMut {
            row: WordRow::new(words),
            head,
            len,
            order: PhantomData,
        }
    }

    /// Like `BitSliceMut::from_parts_mut`, with the meter at 0.
    pub fn from_parts_mut(words: &'a mut [T], head: usize, len: usize) -> Self
        requires in_word { head < T.BITS }
        requires few { len ≤ MAX_BITS }
        requires exact { length words.old ≡ words_for T.BITS (head + len) }
        ensures same_words { loan_of result ≡ words.entry.ghost_name }
        ensures words { words_of result ≡ words.old }
        ensures head { head_of result ≡ head }
        ensures len { len_of result ≡ len }
        ensures list { list_of result ≡ slice_range (row T.BitStore O.BitOrder words.old) head (head + len) }
        ensures reads { reads_of result ≡ 0 }
        ensures writes { writes_of result ≡ 0 }
    {
        CountedMut::of(words, head, len)
    }

    /// The number of bits of the view.
    pub fn len(&self) -> usize
        ensures value { result ≡ len_of self.now }
        ensures few { result ≤ MAX_BITS }
    {
        self.len
    }

    /// Whether the view has no bit.
    pub fn is_empty(&self) -> bool
        ensures { IsTrue result ↔ (len_of self.now ≡ 0) }
    {
        self.len == 0
    }

    /// The index of the view's first bit in its first word, below `T::BITS`.
    pub fn head(&self) -> usize
        ensures value { result ≡ head_of self.now }
        ensures in_word { result < T.BITS }
    {
        self.head
    }

    /// Copies the bits at a range of indices to the indices from `dest` on, as if they were copied out first. The
    /// two runs may overlap. No other bit changes. At most one write is counted for each word that has a bit of the
    /// target, and at most three reads. Requires that both runs lie in the view's length.
    pub fn copy_within_counted<R: RangeExt>(&mut self, range: R, dest: usize)
        requires lies { LiesIn (R.start_of range) (R.end_of range (len_of self.old)) (len_of self.old) }
        requires target { dest + (R.end_of range (len_of self.old) - R.start_of range) ≤ len_of self.old }
        ensures same_words { loan_of self.new ≡ loan_of self.old }
        ensures row { row_of self.new ≡ moved (row_of self.old) (head_of self.old + R.start_of range)
            (head_of self.old + dest) (R.end_of range (len_of self.old) - R.start_of range) }
        ensures list { list_of self.new
            ≡ moved (list_of self.old) (R.start_of range) dest (R.end_of range (len_of self.old) - R.start_of range) }
        ensures head { head_of self.new ≡ head_of self.old }
        ensures len { len_of self.new ≡ len_of self.old }
        ensures writes { writes_of self.new
            ≤ writes_of self.old + touched T.BITS (head_of self.old + dest)
            (R.end_of range (len_of self.old) - R.start_of range) }
        ensures reads { reads_of self.new
            ≤ reads_of self.old + 3 * touched T.BITS (head_of self.old + dest)
            (R.end_of range (len_of self.old) - R.start_of range) }
        ensures writes_rise { writes_of self.old ≤ writes_of self.new }
        ensures reads_rise { reads_of self.old ≤ reads_of self.new }
    {
        let run = range.normalize(self.len);
        let count = run.end - run.start;
        O::move_run(
            &mut self.row,
            self.head + run.start,
            self.head + dest,
            count,
        );
    }
}
