//! Views as sets of the indices of their true bits: subsets, common bits, and how many there are.
ghost use Rattle.std.specs.Prelude.{◌≡◌, ◌≢◌, ℕ, ◌+◌, ◌-◌, ◌*◌, ◌<◌, ◌≤◌, ◌↔◌, Bool, IsTrue, SomeIndex, Some, count_by, drop, false, length, min, not, slice_get, slice_range, true};
ghost use Rattle.std.specs.List.{list_any};
ghost use Rattle.bit_addressing.specs.Row.{number_of};
ghost use Rattle.bit_slice.specs.BitSlice.{len_of, list_of};
ghost use Rattle.bit_slice.specs.Operators.{combined, and_of, or_of, xor_of, and_not_of};

use crate::edits::AndNot;
use crate::lists::BitList;
use crate::slice::BitSlice;
use bit_addressing::{BitOrder, BitStore};
use bit_rows::{And, BitOperator, Or, Xor, count_blocks, false_blocks, read_pair};

// Like `pair_chunk`, of views that may have a head.
#[inline(never)]
fn pair_chunk_apart<F: BitOperator, T: BitStore, O: BitOrder, U: BitStore, P: BitOrder>(
    left: BitSlice<'_, T, O>,
    right: BitSlice<'_, U, P>,
    at: usize,
    n: u8,
) -> u64
    requires quiet { F.made false false ≡ false }
    requires few { n ≤ 64 }
    requires left { at + n ≤ len_of left }
    requires right { at + n ≤ len_of right }
    ensures { result ≡ number_of (slice_range (combined F.made (list_of left.entry) (list_of right.entry)) at
        (at + n)) }
{
    let (i, j) = (left.head + at, right.head + at);
    read_pair::<F, T, O, U, P>(left.words, i, right.words, j, n)
}

// The `n` bits from index `at` on that the operator makes of two views, as a number, the first at
// place 0. Views without a head are tested first, since most have none and no bit has to be shifted there.
#[inline(always)]
pub(crate) fn pair_chunk<F: BitOperator, T: BitStore, O: BitOrder, U: BitStore, P: BitOrder>(
    left: BitSlice<'_, T, O>,
    right: BitSlice<'_, U, P>,
    at: usize,
    n: u8,
) -> u64
    requires quiet { F.made false false ≡ false }
    requires few { n ≤ 64 }
    requires left { at + n ≤ len_of left }
    requires right { at + n ≤ len_of right }
    ensures { result ≡ number_of (slice_range (combined F.made (list_of left.entry) (list_of right.entry)) at
        (at + n)) }
{
    if left.head == 0 && right.head == 0 {
        return read_pair::<F, T, O, U, P>(left.words, at, right.words, at, n);
    }
    pair_chunk_apart::<F, T, O, U, P>(left, right, at, n)
}

// Like `count_pairs`: first the bits of words that lie alike, then the others 64 at a time.
fn count_long<F: BitOperator, T: BitStore, O: BitOrder, U: BitStore, P: BitOrder>(
    left: BitSlice<'_, T, O>,
    right: BitSlice<'_, U, P>,
    upto: usize,
) -> usize
    requires quiet { F.made false false ≡ false }
    requires left { upto ≤ len_of left }
    requires right { upto ≤ len_of right }
    ensures value { result ≡ count_by (λ b. b)
        (slice_range (combined F.made (list_of left.entry) (list_of right.entry)) 0 upto) }
    ensures few { result ≤ upto }
{
    let (a, i, b, j) = (left.words, left.head, right.words, right.head);
    let (start, front) = count_blocks::<F, T, O, U, P>(a, i, b, j, upto);
    let blocks = upto / 64;
    let mut count = front;
    for t in start..blocks {
        let chunk = pair_chunk::<F, T, O, U, P>(left, right, t * 64, 64);
        count += chunk.count_ones() as usize;
    }
    let rest = pair_chunk::<F, T, O, U, P>(left, right, blocks * 64, (upto % 64) as u8);
    count + rest.count_ones() as usize
}

// Of the first `upto` bits that the operator makes of two views, how many are true. Up to 64 are one number, whose
// bits are counted without a call (docs/SPEED.md, "The bench", small xor).
#[inline(always)]
pub(crate) fn count_pairs<F: BitOperator, T: BitStore, O: BitOrder, U: BitStore, P: BitOrder>(
    left: BitSlice<'_, T, O>,
    right: BitSlice<'_, U, P>,
    upto: usize,
) -> usize
    requires quiet { F.made false false ≡ false }
    requires left { upto ≤ len_of left }
    requires right { upto ≤ len_of right }
    ensures value { result ≡ count_by (λ b. b)
        (slice_range (combined F.made (list_of left.entry) (list_of right.entry)) 0 upto) }
    ensures few { result ≤ upto }
{
    if upto <= 64 {
        return pair_chunk::<F, T, O, U, P>(left, right, 0, upto as u8).count_ones() as usize;
    }
    count_long::<F, T, O, U, P>(left, right, upto)
}

// Like `any_pair`: first by many words at a time, up to words that have such a bit, then 64 bits at a time.
#[inline(never)]
fn any_long<F: BitOperator, T: BitStore, O: BitOrder, U: BitStore, P: BitOrder>(
    left: BitSlice<'_, T, O>,
    right: BitSlice<'_, U, P>,
    upto: usize,
) -> bool
    requires quiet { F.made false false ≡ false }
    requires left { upto ≤ len_of left }
    requires right { upto ≤ len_of right }
    ensures { result ≡ list_any (λ b. b)
        (slice_range (combined F.made (list_of left.entry) (list_of right.entry)) 0 upto) }
{
    let (a, i, b, j) = (left.words, left.head, right.words, right.head);
    let start = false_blocks::<F, T, O, U, P>(a, i, b, j, upto);
    let blocks = upto / 64;
    for t in start..blocks {
        if pair_chunk::<F, T, O, U, P>(left, right, t * 64, 64) != 0 {
            return true;
        }
    }
    pair_chunk::<F, T, O, U, P>(left, right, blocks * 64, (upto % 64) as u8) != 0
}

// Of the first `upto` bits that the operator makes of two views, whether one is true. Up to 64 are one number, as in
// `count_pairs`.
#[inline(always)]
pub(crate) fn any_pair<F: BitOperator, T: BitStore, O: BitOrder, U: BitStore, P: BitOrder>(
    left: BitSlice<'_, T, O>,
    right: BitSlice<'_, U, P>,
    upto: usize,
) -> bool
    requires quiet { F.made false false ≡ false }
    requires left { upto ≤ len_of left }
    requires right { upto ≤ len_of right }
    ensures { result ≡ list_any (λ b. b)
        (slice_range (combined F.made (list_of left.entry) (list_of right.entry)) 0 upto) }
{
    if upto <= 64 {
        return pair_chunk::<F, T, O, U, P>(left, right, 0, upto as u8) != 0;
    }
    any_long::<F, T, O, U, P>(left, right, upto)
}

impl<'a, T: BitStore, O: BitOrder> BitSlice<'a, T, O> {
    // The number of true bits from index `from` on: 0, without a call, where the view ends there.
    #[inline(always)]
    pub(crate) fn ones_from(self, from: usize) -> usize
        requires { from ≤ len_of self }
        ensures value { result
            ≡ count_by (λ b. b) (slice_range (list_of self.entry) from (len_of self.entry)) }
        ensures few { result ≤ len_of self.entry - from }
    {
        if from == self.len {
            return 0;
        }
        self.get_range(from..self.len).count_ones()
    }

    // Whether an index is true that is false in `other` or past its end.
    pub(crate) fn exceeds<U: BitStore, P: BitOrder>(self, other: BitSlice<'_, U, P>) -> bool
        ensures { result ≡ list_any (λ b. b) (and_not_of (list_of self.entry) (list_of other.entry)) }
    {
        let both = self.len.min(other.len);
        let some = any_pair::<AndNot, T, O, U, P>(self, other, both);
        if both == self.len {
            return some;
        }
        some || self.get_range(both..self.len).any()
    }
}
