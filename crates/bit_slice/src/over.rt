//! Calls that write the list that words have from a head on. Each takes the words, the head and the length of the
//! list, and requires that the list lies in the words.
ghost use Rattle.std.specs.Prelude.{◌≡◌, ◌+◌, ◌-◌, ◌*◌, ◌^◌, ◌<◌, ◌≤◌, ◌++◌, drop, false, length, map, not, replicate, reverse, set, slice_range, swap, take};
ghost use Rattle.bit_addressing.specs.declared.length.TheConstants.{MAX_BITS};
ghost use Rattle.bit_addressing.specs.Range.{LiesIn};
ghost use Rattle.bit_addressing.specs.Row.{binary, number_bits, touched};
ghost use Rattle.bit_addressing.specs.Typed.{row};
ghost use Rattle.bit_slice.specs.Clean.{IsCleanRow};
ghost use Rattle.bit_slice.specs.BitSlice.{len_of as len_seen, list_of as list_seen};
ghost use Rattle.bit_slice.specs.Overwritten.{list_in, IsMovedWithin, IsRewritten, IsWritten};
ghost use Rattle.bit_slice.specs.Operators.{combined, part_onto};

use crate::edits::{
    combine_within, flip_bits, reverse_bits, rotate_bits, shift_bits_left, shift_bits_right,
};
use crate::ops::combine_view;
use crate::slice::BitSlice;
use bit_addressing::{BitOrder, BitStore, Meter, RangeExt, move_bits_counted};
use bit_rows::{
    BitOperator, copy_bits, fill_bits, swap_bits, write_binary, write_bit, write_chunk,
};

// Writes `bit` at each index of the list.
pub(crate) fn fill_over<T: BitStore, O: BitOrder>(
    words: &mut [T],
    head: usize,
    len: usize,
    bit: bool,
)
    requires within { head + len ≤ T.BITS * length words.old }
    requires fits { head + len < 2 ^ 64 }
    ensures { IsRewritten T.BitStore O.BitOrder words.old words.new head len (replicate len bit) }
{
    fill_bits::<T, O>(words, head, head + len, bit);
}

// Writes the bits of a view, with any word type and order, over the list. Requires that the view is as long
// as the list.
pub(crate) fn copy_over<T: BitStore, O: BitOrder, U: BitStore, P: BitOrder>(
    words: &mut [T],
    head: usize,
    len: usize,
    source: BitSlice<'_, U, P>,
)
    requires within { head + len ≤ T.BITS * length words.old }
    requires fits { head + len < 2 ^ 64 }
    requires same_len { len_seen source ≡ len }
    ensures { IsRewritten T.BitStore O.BitOrder words.old words.new head len
        (list_seen source.entry) }
{
    let from = source.head();
    copy_bits::<T, O, U, P>(words, head, source.as_raw_slice(), from, len);
}

// Moves the bits of a range of the list to `dest`, as if they were copied out first, and returns the meter of
// the words that were read and written. Requires that the range lies in the list, that its bits have room from
// `dest` on, and that the words have at most `MAX_BITS + 2 * T::BITS` bits.
pub(crate) fn move_within_over<T: BitStore, O: BitOrder, R: RangeExt>(
    words: &mut [T],
    head: usize,
    len: usize,
    range: R,
    dest: usize,
) -> Meter
    requires few { T.BITS * length words.old ≤ MAX_BITS + 2 * T.BITS }
    requires within { head + len ≤ T.BITS * length words.old }
    requires lies { LiesIn (R.start_of range) (R.end_of range len) len }
    requires room { dest + (R.end_of range len - R.start_of range) ≤ len }
    ensures moved { IsMovedWithin T.BitStore O.BitOrder words.old words.new head len
        (R.start_of range) dest (R.end_of range len - R.start_of range) }
    ensures writes { result.writes ≤ touched T.BITS (head + dest) (R.end_of range len - R.start_of range) }
    ensures reads { result.reads ≤ 3 * touched T.BITS (head + dest) (R.end_of range len - R.start_of range) }
{
    let range = range.normalize(len);
    let (from, to) = (head + range.start, head + dest);
    move_bits_counted::<T, O>(words, from, to, range.end - range.start)
}

// Writes `bit` at each index of a range of the list. Requires that the range lies in the list.
pub(crate) fn fill_range_over<T: BitStore, O: BitOrder, R: RangeExt>(
    words: &mut [T],
    head: usize,
    len: usize,
    range: R,
    bit: bool,
)
    requires within { head + len ≤ T.BITS * length words.old }
    requires fits { head + len < 2 ^ 64 }
    requires lies { LiesIn (R.start_of range) (R.end_of range len) len }
    ensures { IsWritten T.BitStore O.BitOrder words.old words.new head len (R.start_of range)
        (R.end_of range len) (replicate (R.end_of range len - R.start_of range) bit) }
{
    let range = range.normalize(len);
    let (first, end) = (head + range.start, head + range.end);
    fill_bits::<T, O>(words, first, end, bit);
}

// Flips the bit at each index of a range of the list. Requires that the range lies in the list.
pub(crate) fn flip_range_over<T: BitStore, O: BitOrder, R: RangeExt>(
    words: &mut [T],
    head: usize,
    len: usize,
    range: R,
)
    requires within { head + len ≤ T.BITS * length words.old }
    requires fits { head + len < 2 ^ 64 }
    requires lies { LiesIn (R.start_of range) (R.end_of range len) len }
    ensures { IsWritten T.BitStore O.BitOrder words.old words.new head len (R.start_of range)
        (R.end_of range len) (map not (slice_range (list_in T.BitStore O.BitOrder words.old head len) (R.start_of range)
        (R.end_of range len))) }
{
    let range = range.normalize(len);
    flip_bits::<T, O>(words, head + range.start, head + range.end);
}

// Writes the bits of a view, with any word type and order, at the indices of a range of the list.
// Requires that the range lies in the list, and is as long as the view.
pub(crate) fn copy_into_over<T: BitStore, O: BitOrder, R: RangeExt, U: BitStore, P: BitOrder>(
    words: &mut [T],
    head: usize,
    len: usize,
    range: R,
    source: BitSlice<'_, U, P>,
)
    requires within { head + len ≤ T.BITS * length words.old }
    requires fits { head + len < 2 ^ 64 }
    requires lies { LiesIn (R.start_of range) (R.end_of range len) len }
    requires same_len { len_seen source ≡ R.end_of range len - R.start_of range }
    ensures { IsWritten T.BitStore O.BitOrder words.old words.new head len (R.start_of range)
        (R.end_of range len) (list_seen source.entry) }
{
    let range = range.normalize(len);
    let (from, count) = (source.head(), source.len());
    let at = head + range.start;
    copy_bits::<T, O, U, P>(words, at, source.as_raw_slice(), from, count);
}

// Combines each bit at the indices of a range of the list, by `F`, with the bit of `other` for it, or with
// false past the end of `other`. The first bit of `other` is for the first of the range. Requires that the
// range lies in the list.
pub(crate) fn combine_range_over<
    F: BitOperator,
    T: BitStore,
    O: BitOrder,
    R: RangeExt,
    U: BitStore,
    P: BitOrder,
>(words: &mut [T], head: usize, len: usize, range: R, other: BitSlice<'_, U, P>)
    requires within { head + len ≤ T.BITS * length words.old }
    requires fits { head + len < 2 ^ 64 }
    requires lies { LiesIn (R.start_of range) (R.end_of range len) len }
    ensures { IsWritten T.BitStore O.BitOrder words.old words.new head len (R.start_of range)
        (R.end_of range len) (combined F.made (slice_range (list_in T.BitStore O.BitOrder words.old head len) (R.start_of range)
        (R.end_of range len)) (list_seen other.entry)) }
{
    let range = range.normalize(len);
    let count = range.end - range.start;
    combine_view::<F, T, O, U, P>(words, head + range.start, count, other);
}

// Reverses the list.
pub(crate) fn reverse_over<T: BitStore, O: BitOrder>(words: &mut [T], head: usize, len: usize)
    requires within { head + len ≤ T.BITS * length words.old }
    requires fits { head + len < 2 ^ 64 }
    ensures { IsRewritten T.BitStore O.BitOrder words.old words.new head len
        (reverse (list_in T.BitStore O.BitOrder words.old head len)) }
{
    reverse_bits::<T, O>(words, head, len);
}

// Moves the first `by` bits of the list after the others. Requires that `by` is at most the length.
pub(crate) fn rotate_over<T: BitStore, O: BitOrder>(
    words: &mut [T],
    head: usize,
    len: usize,
    by: usize,
)
    requires room { T.BITS * length words.old ≤ MAX_BITS + 2 * T.BITS }
    requires within { head + len ≤ T.BITS * length words.old }
    requires inside { by ≤ len }
    ensures { IsRewritten T.BitStore O.BitOrder words.old words.new head len
        (drop by (list_in T.BitStore O.BitOrder words.old head len)
        ++ take by (list_in T.BitStore O.BitOrder words.old head len)) }
{
    rotate_bits::<T, O>(words, head, len, by);
}

// Moves each bit of the list by `by` indices towards the front. The first `by` bits are dropped, and the
// last `by` become false. Requires that `by` is at most the length.
pub(crate) fn shift_left_over<T: BitStore, O: BitOrder>(
    words: &mut [T],
    head: usize,
    len: usize,
    by: usize,
)
    requires room { T.BITS * length words.old ≤ MAX_BITS + 2 * T.BITS }
    requires within { head + len ≤ T.BITS * length words.old }
    requires inside { by ≤ len }
    ensures { IsRewritten T.BitStore O.BitOrder words.old words.new head len
        (drop by (list_in T.BitStore O.BitOrder words.old head len) ++ replicate by false) }
{
    shift_bits_left::<T, O>(words, head, len, by);
}

// Moves each bit of the list by `by` indices towards the end. The last `by` bits are dropped, and the
// first `by` become false. Requires that `by` is at most the length.
pub(crate) fn shift_right_over<T: BitStore, O: BitOrder>(
    words: &mut [T],
    head: usize,
    len: usize,
    by: usize,
)
    requires room { T.BITS * length words.old ≤ MAX_BITS + 2 * T.BITS }
    requires within { head + len ≤ T.BITS * length words.old }
    requires inside { by ≤ len }
    ensures { IsRewritten T.BitStore O.BitOrder words.old words.new head len
        (replicate by false ++ take (len - by) (list_in T.BitStore O.BitOrder words.old head len)) }
{
    shift_bits_right::<T, O>(words, head, len, by);
}

// Combines each bit of the list at `dest + k`, by `F`, with bit `k` of a range of the list, as if the range
// was read before any bit is written. The two runs may overlap. Requires that the range lies in the list, and
// that its bits have room from `dest` on.
pub(crate) fn combine_within_over<F: BitOperator, T: BitStore, O: BitOrder, R: RangeExt>(
    words: &mut [T],
    head: usize,
    len: usize,
    range: R,
    dest: usize,
)
    requires within { head + len ≤ T.BITS * length words.old }
    requires fits { head + len < 2 ^ 64 }
    requires lies { LiesIn (R.start_of range) (R.end_of range len) len }
    requires room { dest + (R.end_of range len - R.start_of range) ≤ len }
    ensures { IsWritten T.BitStore O.BitOrder words.old words.new head len dest
        (dest + (R.end_of range len - R.start_of range)) (part_onto (combined F.made) (list_in T.BitStore O.BitOrder words.old head len) (R.start_of range)
        (R.end_of range len) dest) }
{
    let range = range.normalize(len);
    let (from, to) = (head + range.start, head + dest);
    combine_within::<F, T, O>(words, from, to, range.end - range.start);
}

// Writes the lowest bits of a number over the list, the least significant first. Requires that the list
// has at most 64 bits.
pub(crate) fn store_le_over<T: BitStore, O: BitOrder>(
    words: &mut [T],
    head: usize,
    len: usize,
    number: u64,
)
    requires within { head + len ≤ T.BITS * length words.old }
    requires fits { head + len < 2 ^ 64 }
    requires few { len ≤ 64 }
    ensures { IsRewritten T.BitStore O.BitOrder words.old words.new head len
        (number_bits number len) }
{
    write_chunk::<T, O>(words, head, len as u8, number);
}

// Writes the lowest bits of a number over the list, the most significant first. Requires that the list
// has at most 64 bits.
pub(crate) fn store_be_over<T: BitStore, O: BitOrder>(
    words: &mut [T],
    head: usize,
    len: usize,
    number: u64,
)
    requires within { head + len ≤ T.BITS * length words.old }
    requires fits { head + len < 2 ^ 64 }
    requires few { len ≤ 64 }
    ensures { IsRewritten T.BitStore O.BitOrder words.old words.new head len (binary len number) }
{
    write_binary::<T, O>(words, head, len as u8, number);
}

// Writes the `n` lowest bits of a number over those from index `at` on, the least significant first. Requires
// that `n` is at most 64, and that the bits lie in the list.
#[inline(always)]
pub(crate) fn store_le_at_over<T: BitStore, O: BitOrder>(
    words: &mut [T],
    head: usize,
    len: usize,
    at: usize,
    n: u8,
    number: u64,
)
    requires within { head + len ≤ T.BITS * length words.old }
    requires fits { head + len < 2 ^ 64 }
    requires few { n ≤ 64 }
    requires lies { at + n ≤ len }
    ensures { IsWritten T.BitStore O.BitOrder words.old words.new head len at (at + n) (number_bits number n) }
{
    write_chunk::<T, O>(words, head + at, n, number);
}

// Like `store_le_at_over`, but the most significant bit is the first.
#[inline(always)]
pub(crate) fn store_be_at_over<T: BitStore, O: BitOrder>(
    words: &mut [T],
    head: usize,
    len: usize,
    at: usize,
    n: u8,
    number: u64,
)
    requires within { head + len ≤ T.BITS * length words.old }
    requires fits { head + len < 2 ^ 64 }
    requires few { n ≤ 64 }
    requires lies { at + n ≤ len }
    ensures { IsWritten T.BitStore O.BitOrder words.old words.new head len at (at + n) (binary n number) }
{
    write_binary::<T, O>(words, head + at, n, number);
}

// Combines each bit of the list, by `F`, with the bit at its index in a view, or with false past the view's end.
pub(crate) fn combine_over<F: BitOperator, T: BitStore, O: BitOrder, U: BitStore, P: BitOrder>(
    words: &mut [T],
    head: usize,
    len: usize,
    other: BitSlice<'_, U, P>,
)
    requires within { head + len ≤ T.BITS * length words.old }
    requires fits { head + len < 2 ^ 64 }
    ensures { IsRewritten T.BitStore O.BitOrder words.old words.new head len
        (combined F.made (list_in T.BitStore O.BitOrder words.old head len) (list_seen other.entry)) }
{
    combine_view::<F, T, O, U, P>(words, head, len, other);
}

// Writes over the list the combination, by `F`, of two views: a copy of `left`, which is combined with `right`, 16384 bits
// at a time, so that the second step finds them in the cache. Requires that both views are as long as the list.
pub(crate) fn assign_over<
    F: BitOperator,
    T: BitStore,
    O: BitOrder,
    U: BitStore,
    P: BitOrder,
    V: BitStore,
    Q: BitOrder,
>(words: &mut [T], head: usize, len: usize, left: BitSlice<'_, U, P>, right: BitSlice<'_, V, Q>)
    requires within { head + len ≤ T.BITS * length words.old }
    requires fits { head + len < 2 ^ 64 }
    requires left { len_seen left ≡ len }
    requires right { len_seen right ≡ len }
    ensures { IsRewritten T.BitStore O.BitOrder words.old words.new head len
        (combined F.made (list_seen left.entry) (list_seen right.entry)) }
{
    let mut done = 0;
    'pieces: while done < len {
        let count = (len - done).min(16384);
        let end = done + count;
        copy_over::<T, O, U, P>(words, head + done, count, left.get_range(done..end));
        combine_over::<F, T, O, V, Q>(words, head + done, count, right.get_range(done..end));
        done = end;
    }
}

// Writes the bit at index `i` of the list, and no other bit. Requires that `i` is below the length.
pub(crate) fn set_over<T: BitStore, O: BitOrder>(
    words: &mut [T],
    head: usize,
    len: usize,
    i: usize,
    bit: bool,
)
    requires within { head + len ≤ T.BITS * length words.old }
    requires fits { head + len < 2 ^ 64 }
    requires inside { i < len }
    ensures row { row T.BitStore O.BitOrder words.new ≡ set (row T.BitStore O.BitOrder words.old) (head + i) bit }
    ensures list { list_in T.BitStore O.BitOrder words.new head len
        ≡ set (list_in T.BitStore O.BitOrder words.old head len) i bit }
    ensures clean { IsCleanRow T.BITS head (row T.BitStore O.BitOrder words.old)
        (list_in T.BitStore O.BitOrder words.old head len)
        → IsCleanRow T.BITS head (row T.BitStore O.BitOrder words.new)
        (list_in T.BitStore O.BitOrder words.new head len) }
    ensures size { length words.new ≡ length words.old }
{
    write_bit::<T, O>(words, head + i, bit);
}

// Swaps the bits at `i` and `j` of the list, and changes no other bit. Requires that both are below the length.
pub(crate) fn swap_over<T: BitStore, O: BitOrder>(
    words: &mut [T],
    head: usize,
    len: usize,
    i: usize,
    j: usize,
)
    requires within { head + len ≤ T.BITS * length words.old }
    requires fits { head + len < 2 ^ 64 }
    requires first { i < len }
    requires second { j < len }
    ensures row { row T.BitStore O.BitOrder words.new
        ≡ swap (row T.BitStore O.BitOrder words.old) (head + i) (head + j) }
    ensures list { list_in T.BitStore O.BitOrder words.new head len
        ≡ swap (list_in T.BitStore O.BitOrder words.old head len) i j }
    ensures clean { IsCleanRow T.BITS head (row T.BitStore O.BitOrder words.old)
        (list_in T.BitStore O.BitOrder words.old head len)
        → IsCleanRow T.BITS head (row T.BitStore O.BitOrder words.new)
        (list_in T.BitStore O.BitOrder words.new head len) }
    ensures size { length words.new ≡ length words.old }
{
    swap_bits::<T, O>(words, head + i, head + j);
}
