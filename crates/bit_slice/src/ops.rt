//! Two views compared, and one combined into the other, whatever their words, orders and heads.
ghost use Rattle.std.specs.Prelude.{◌≡◌, ◌+◌, ◌*◌, ◌^◌, ◌<◌, ◌≤◌, ◌↔◌, IsTrue, MatchOption, length, slice_range, take};
ghost use Rattle.bit_addressing.specs.Row.{put, IsFirstDifference};
ghost use Rattle.bit_addressing.specs.Typed.{row};
ghost use Rattle.bit_addressing.specs.declared.length.TheConstants.{MAX_BITS};
ghost use Rattle.bit_slice.specs.Operators.{bits_cmp, combined, and_of, or_of, xor_of, AndsEach, OrsEach, XorsEach, CombinesEach};
ghost use Rattle.bit_slice.specs.BitSlice.{len_of as len_seen, list_of as list_seen};

use crate::slice::BitSlice;
use crate::slice_mut::BitSliceMut;
use bit_addressing::{BitOrder, BitStore};
use bit_rows::{And, BitOperator, Or, Xor, combine_bits, differ_at, fill_bits};
use std::cmp::Ordering;

// The first index below `n` at which two views differ. None exactly where they are equal up to it.
pub(crate) fn first_difference<T: BitStore, O: BitOrder, U: BitStore, P: BitOrder>(
    left: BitSlice<'_, T, O>,
    right: BitSlice<'_, U, P>,
    n: usize,
) -> Option<usize>
    requires left { n ≤ len_seen left }
    requires right { n ≤ len_seen right }
    ensures { MatchOption result (take n (list_seen left.entry) ≡ take n (list_seen right.entry))
        (λ k. IsFirstDifference (take n (list_seen left.entry)) (take n (list_seen right.entry)) k) }
{
    let from = left.head();
    let begin = right.head();
    differ_at::<T, O, U, P>(left.as_raw_slice(), from, right.as_raw_slice(), begin, n)
}

// Whether two views have the same bits. Many bits are compared at a time.
pub(crate) fn equal_views<T: BitStore, O: BitOrder, U: BitStore, P: BitOrder>(
    left: BitSlice<'_, T, O>,
    right: BitSlice<'_, U, P>,
) -> bool
    ensures { IsTrue result ↔ (list_seen left.entry ≡ list_seen right.entry) }
{
    let len = left.len();
    len == right.len() && first_difference(left, right, len).is_none()
}

// Combines each of the `len` bits of the words' row from `head` on, by `F`, with the bit of `other` for it, or
// with false past the end of `other`. The first bit of `other` is for the first of the run. No other bit
// changes. Requires that the run lies in the words.
pub(crate) fn combine_view<F: BitOperator, T: BitStore, O: BitOrder, U: BitStore, P: BitOrder>(
    words: &mut [T],
    head: usize,
    len: usize,
    other: BitSlice<'_, U, P>,
)
    requires within { head + len ≤ T.BITS * length words.old }
    requires fits { head + len < 2 ^ 64 }
    ensures bits { row T.BitStore O.BitOrder words.new
        ≡ put (row T.BitStore O.BitOrder words.old) head
        (combined F.made (slice_range (row T.BitStore O.BitOrder words.old) head (head + len))
        (list_seen other.entry)) }
    ensures size { length words.new ≡ length words.old }
{
    let both = len.min(other.len());
    let from = other.head();
    combine_bits::<F, T, O, U, P>(words, head, other.as_raw_slice(), from, both);
    if F::clears() {
        fill_bits::<T, O>(words, head + both, head + len, false);
    }
}
