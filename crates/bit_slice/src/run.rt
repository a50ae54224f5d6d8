//! A view of some bits of words, for writing.
ghost use Rattle.std.specs.Prelude.{◌≡◌, ◌+◌, ◌-◌, ◌*◌, ◌/◌, ◌%◌, ◌<◌, ◌≤◌, ◌^◌, length, slice_range};
ghost use Rattle.std.specs.Borrow.{sem};
ghost use Rattle.bit_addressing.specs.declared.length.TheConstants.{MAX_BITS};
ghost use Rattle.bit_addressing.specs.Row.{words_for};
ghost use Rattle.bit_addressing.specs.Typed.{row};
ghost use Rattle.bit_slice.specs.BitSliceMut.{words_of, head_of, len_of, list_of, loan_of};
ghost use Rattle.bit_slice.specs.Lends.{lends_part};

use crate::slice_mut::BitSliceMut;
use bit_addressing::{BitOrder, BitStore, elts};

/// The view of the bits from index `from` up to index `upto` of the words' row, for writing: what is written
/// lands in the words, and those around the run stay. Requires that
/// `from..upto` is a range of the row, of at most `MAX_BITS` bits.
pub fn run_mut<T: BitStore, O: BitOrder>(
    words: &mut [T],
    from: usize,
    upto: usize,
) -> BitSliceMut<'_, T, O>
    requires ordered { from ≤ upto }
    requires inside { upto ≤ T.BITS * length words.old }
    requires few { upto - from ≤ MAX_BITS }
    ensures* writes_back { sem 𝓛 (lends_part T.row words.entry (from / T.BITS)
        (from / T.BITS + words_for T.BITS (from % T.BITS + (upto - from))) (loan_of result)) }
    ensures words { words_of result
        ≡ slice_range words.old (from / T.BITS) (from / T.BITS + words_for T.BITS (from % T.BITS + (upto - from))) }
    ensures head { head_of result ≡ from % T.BITS }
    ensures len { len_of result ≡ upto - from }
    ensures list { list_of result ≡ slice_range (row T.BitStore O.BitOrder words.old) from upto }
{
    let run = Run::of::<T>(from, upto);
    BitSliceMut::from_parts_mut(&mut words[run.first..run.end], run.head, run.len)
}

/// Two views of words, for writing: one of the bits from `from` up to `at`, and one of those from `at` up to `upto`.
/// Requires that `at` is the index of a word's first bit, so that no word is in both, that the bits lie in the words,
/// and that both views together have at most `MAX_BITS` bits.
///
/// The clauses say the list, head and length of each view. That what is written through them lands in the words, and
/// that the other bits stay, no clause says. Where a caller's own proof needs it, write one run after the other, by
/// `run_mut` or the calls that take a range.
///
/// ```text
/// let (mut left, mut right) = split_run_mut::<u8, Lsb0>(&mut words, 3, 8, 20);
/// left.fill(false);
/// right.flip_all();               // of ff ff ff: the words are 07 00 f0
/// ```
pub fn split_run_mut<T: BitStore, O: BitOrder>(
    words: &mut [T],
    from: usize,
    at: usize,
    upto: usize,
) -> (BitSliceMut<'_, T, O>, BitSliceMut<'_, T, O>)
    requires ordered { from ≤ at }
    requires after { at ≤ upto }
    requires inside { upto ≤ T.BITS * length words.old }
    requires edge { at % T.BITS ≡ 0 }
    requires few { upto - from ≤ MAX_BITS }
    ensures left_head { head_of result.0 ≡ from % T.BITS }
    ensures left_len { len_of result.0 ≡ at - from }
    ensures left { list_of result.0 ≡ slice_range (row T.BitStore O.BitOrder words.old) from at }
    ensures right_head { head_of result.1 ≡ 0 }
    ensures right_len { len_of result.1 ≡ upto - at }
    ensures right { list_of result.1 ≡ slice_range (row T.BitStore O.BitOrder words.old) at upto }
{
    let (left, right) = words.split_at_mut(at / T::BITS as usize);
    (run_mut(left, from, at), run_mut(right, 0, upto - at))
}

// Where a run of bits lies in words: the words that have its bits, the index of its first bit in the first of
// them, and its length.
#[derive(Drop)]
struct Run {
    first: usize,
    end: usize,
    head: usize,
    len: usize,
}

impl Run {
    fn of<T: BitStore>(from: usize, upto: usize) -> Run
        requires ordered { from ≤ upto }
        ensures first { result.first ≡ from / T.BITS }
        ensures end { result.end ≡ from / T.BITS + words_for T.BITS (from % T.BITS + (upto - from)) }
        ensures head { result.head ≡ from % T.BITS }
        ensures len { result.len ≡ upto - from }
        ensures first_fits { result.first < 2 ^ 64 }
        ensures end_fits { result.end < 2 ^ 64 }
        ensures head_fits { result.head < 2 ^ 64 }
        ensures len_fits { result.len < 2 ^ 64 }
    {
        let width = T::BITS as usize;
        let (head, first) = (from % width, from / width);
        let len = upto - from;
        Run {
            first,
            end: first + elts::<T>(head + len),
            head,
            len,
        }
    }
}
