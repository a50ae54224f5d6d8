//! Changes of runs of bits in words: they are flipped, reversed, rotated, and combined with another
//! run of the same words.
ghost use Rattle.std.specs.Prelude.{◌≡◌, ◌+◌, ◌-◌, ◌*◌, ◌%◌, ◌/◌, ◌^◌, ◌<◌, ◌≤◌, ◌++◌, drop, false, length, map, not, replicate, slice_range, take};
ghost use Rattle.bit_addressing.specs.declared.length.TheConstants.{MAX_BITS};
ghost use Rattle.bit_addressing.specs.Row.{put};
ghost use Rattle.bit_addressing.specs.Typed.{row};
ghost use Rattle.bit_slice.specs.Operators.{combined};

mod filled;
mod mapped;
mod masked;
mod reverse;
mod rotate;

use bit_addressing::{BitOrder, BitStore, move_bits};
use bit_rows::{BitOperator, combine_bits, copy_bits, fill_bits, read_chunk, write_chunk};
pub(crate) use filled::fill_by;
pub(crate) use mapped::map_numbers;
pub(crate) use masked::{copy_masked, deposit_masked};
pub(crate) use reverse::reverse_bits;
pub(crate) use rotate::rotate_bits;

/// The bit is true where the old one is and the new one is not.
pub struct AndNot;

impl BitOperator for AndNot {
    ghost use Rattle.std.specs.Prelude.{◌&&◌, not};

    ghost made = { λ a b. a && not b };

    fn clears() -> bool {
        false
    }

    fn apply<T: BitStore>(old: T, new: T) -> T {
        old.and(new.not())
    }
}

// Flips the bits from `from` up to `upto` of the words' row, 64 at a time. No other bit changes. Requires that `from`
// is at most `upto`, which is at most the row's length.
pub(crate) fn flip_bits<T: BitStore, O: BitOrder>(words: &mut [T], from: usize, upto: usize)
    requires ordered { from ≤ upto }
    requires within { upto ≤ T.BITS * length words.old }
    ensures bits { row T.BitStore O.BitOrder words.new
        ≡ put (row T.BitStore O.BitOrder words.old) from
        (map not (slice_range (row T.BitStore O.BitOrder words.old) from upto)) }
    ensures size { length words.new ≡ length words.old }
{
    let mut at = from;
    while at < upto {
        let n = (upto - at).min(64) as u8;
        let chunk = read_chunk::<T, O>(words, at, n);
        write_chunk::<T, O>(words, at, n, !chunk);
        at += n as usize;
    }
}

// How many bits a combination keeps beside the words at most: 128 words of 64 bits.
const KEPT: usize = 8192;

// Moves the `len` bits of the words' row from `head` on by `by` indices towards the front. The first `by` bits are
// dropped, and the last `by` become false. No other bit changes. Requires that the run lies in the words, and `by`
// is at most its length.
pub(crate) fn shift_bits_left<T: BitStore, O: BitOrder>(
    words: &mut [T],
    head: usize,
    len: usize,
    by: usize,
)
    requires room { T.BITS * length words.old ≤ MAX_BITS + 2 * T.BITS }
    requires within { head + len ≤ T.BITS * length words.old }
    requires inside { by ≤ len }
    ensures bits { row T.BitStore O.BitOrder words.new
        ≡ put (row T.BitStore O.BitOrder words.old) head
        (drop by (slice_range (row T.BitStore O.BitOrder words.old) head (head + len)) ++ replicate by false) }
    ensures size { length words.new ≡ length words.old }
{
    move_bits::<T, O>(words, head + by, head, len - by);
    fill_bits::<T, O>(words, head + (len - by), head + len, false);
}

// Moves the `len` bits of the words' row from `head` on by `by` indices towards the end. The last `by` bits are
// dropped, and the first `by` become false. No other bit changes. Requires that the run lies in the words, and `by`
// is at most its length.
pub(crate) fn shift_bits_right<T: BitStore, O: BitOrder>(
    words: &mut [T],
    head: usize,
    len: usize,
    by: usize,
)
    requires room { T.BITS * length words.old ≤ MAX_BITS + 2 * T.BITS }
    requires within { head + len ≤ T.BITS * length words.old }
    requires inside { by ≤ len }
    ensures bits { row T.BitStore O.BitOrder words.new
        ≡ put (row T.BitStore O.BitOrder words.old) head
        (replicate by false ++ take (len - by) (slice_range (row T.BitStore O.BitOrder words.old) head (head + len))) }
    ensures size { length words.new ≡ length words.old }
{
    move_bits::<T, O>(words, head, head + by, len - by);
    fill_bits::<T, O>(words, head, head + by, false);
}

// Combines the `n` bits from `at` on with those from `from` on, of which a copy is kept in `N` words: at the index in its
// word at which they begin, so that the copy takes no shifts. Requires that the words hold them there, and are at most 129.
#[inline(always)]
fn combine_kept<F: BitOperator, T: BitStore, O: BitOrder, const N: usize>(
    words: &mut [T],
    from: usize,
    at: usize,
    n: usize,
)
    requires memory { N ≤ 129 }
    requires few { from % 64 + n ≤ 64 * N }
    requires source { from + n ≤ T.BITS * length words.old }
    requires target { at + n ≤ T.BITS * length words.old }
    requires source_fits { from + n < 2 ^ 64 }
    requires fits { at + n < 2 ^ 64 }
    ensures bits { row T.BitStore O.BitOrder words.new
        ≡ put (row T.BitStore O.BitOrder words.old) at
        (combined F.made (slice_range (row T.BitStore O.BitOrder words.old) at (at + n))
        (slice_range (row T.BitStore O.BitOrder words.old) from (from + n))) }
    ensures size { length words.new ≡ length words.old }
{
    let skip = from % 64;
    let mut kept = [0u64; N];
    copy_bits::<u64, O, T, O>(&mut kept, skip, words, from, n);
    combine_bits::<F, T, O, u64, O>(words, at, &kept, skip, n);
}

// Like `combine_kept`, of at most 8192 bits. Fewer take fewer words, since each is written with zeros first.
fn combine_piece<F: BitOperator, T: BitStore, O: BitOrder>(
    words: &mut [T],
    from: usize,
    at: usize,
    n: usize,
)
    requires few { n ≤ 8192 }
    requires source { from + n ≤ T.BITS * length words.old }
    requires target { at + n ≤ T.BITS * length words.old }
    requires source_fits { from + n < 2 ^ 64 }
    requires fits { at + n < 2 ^ 64 }
    ensures bits { row T.BitStore O.BitOrder words.new
        ≡ put (row T.BitStore O.BitOrder words.old) at
        (combined F.made (slice_range (row T.BitStore O.BitOrder words.old) at (at + n))
        (slice_range (row T.BitStore O.BitOrder words.old) from (from + n))) }
    ensures size { length words.new ≡ length words.old }
{
    if n <= 448 {
        combine_kept::<F, T, O, 8>(words, from, at, n);
    } else {
        combine_kept::<F, T, O, 129>(words, from, at, n);
    }
}

// Like `combine_within`, from the front on. Requires that `at` is not after `from`.
fn combine_upward<F: BitOperator, T: BitStore, O: BitOrder>(
    words: &mut [T],
    from: usize,
    at: usize,
    n: usize,
)
    requires source { from + n ≤ T.BITS * length words.old }
    requires target { at + n ≤ T.BITS * length words.old }
    requires source_fits { from + n < 2 ^ 64 }
    requires fits { at + n < 2 ^ 64 }
    requires order { at ≤ from }
    ensures bits { row T.BitStore O.BitOrder words.new
        ≡ put (row T.BitStore O.BitOrder words.old) at
        (combined F.made (slice_range (row T.BitStore O.BitOrder words.old) at (at + n))
        (slice_range (row T.BitStore O.BitOrder words.old) from (from + n))) }
    ensures size { length words.new ≡ length words.old }
{
    let mut done = 0;
    while done < n {
        let m = (n - done).min(KEPT);
        combine_piece::<F, T, O>(words, from + done, at + done, m);
        done += m;
    }
}

// Like `combine_within`, from the end on. Requires that `at` is not before `from`.
fn combine_downward<F: BitOperator, T: BitStore, O: BitOrder>(
    words: &mut [T],
    from: usize,
    at: usize,
    n: usize,
)
    requires source { from + n ≤ T.BITS * length words.old }
    requires target { at + n ≤ T.BITS * length words.old }
    requires source_fits { from + n < 2 ^ 64 }
    requires fits { at + n < 2 ^ 64 }
    requires order { from ≤ at }
    ensures bits { row T.BitStore O.BitOrder words.new
        ≡ put (row T.BitStore O.BitOrder words.old) at
        (combined F.made (slice_range (row T.BitStore O.BitOrder words.old) at (at + n))
        (slice_range (row T.BitStore O.BitOrder words.old) from (from + n))) }
    ensures size { length words.new ≡ length words.old }
{
    let mut left = n;
    while left > 0 {
        let m = left.min(KEPT);
        left -= m;
        combine_piece::<F, T, O>(words, from + left, at + left, m);
    }
}

// Like `combine_within`, where the bits at `from` end at or before the word in which those at `at` begin: no word is
// both read and written, so no bits are kept.
#[inline(always)]
fn combine_back<F: BitOperator, T: BitStore, O: BitOrder>(
    words: &mut [T],
    from: usize,
    at: usize,
    n: usize,
)
    requires apart { from + n ≤ at / T.BITS * T.BITS }
    requires target { at + n ≤ T.BITS * length words.old }
    requires fits { at + n < 2 ^ 64 }
    ensures bits { row T.BitStore O.BitOrder words.new
        ≡ put (row T.BitStore O.BitOrder words.old) at
        (combined F.made (slice_range (row T.BitStore O.BitOrder words.old) at (at + n))
        (slice_range (row T.BitStore O.BitOrder words.old) from (from + n))) }
    ensures size { length words.new ≡ length words.old }
{
    let width = T::BITS as usize;
    let (source, target) = words.split_at_mut(at / width);
    combine_bits::<F, T, O, T, O>(target, at % width, source, from, n);
}

// Like `combine_within`, where the bits at `at` end at or before the word in which those at `from` begin.
#[inline(always)]
fn combine_front<F: BitOperator, T: BitStore, O: BitOrder>(
    words: &mut [T],
    from: usize,
    at: usize,
    n: usize,
)
    requires apart { at + n ≤ from / T.BITS * T.BITS }
    requires source { from + n ≤ T.BITS * length words.old }
    requires fits { from + n < 2 ^ 64 }
    ensures bits { row T.BitStore O.BitOrder words.new
        ≡ put (row T.BitStore O.BitOrder words.old) at
        (combined F.made (slice_range (row T.BitStore O.BitOrder words.old) at (at + n))
        (slice_range (row T.BitStore O.BitOrder words.old) from (from + n))) }
    ensures size { length words.new ≡ length words.old }
{
    let width = T::BITS as usize;
    let (target, source) = words.split_at_mut(from / width);
    combine_bits::<F, T, O, T, O>(target, at, source, from % width, n);
}

// Combines the `n` bits of the words' row from `at` on with those from `from` on, as if they were read before any is
// written, by words. The runs may overlap. No other bit changes. Requires that both runs lie in the words.
pub(crate) fn combine_within<F: BitOperator, T: BitStore, O: BitOrder>(
    words: &mut [T],
    from: usize,
    at: usize,
    n: usize,
)
    requires source { from + n ≤ T.BITS * length words.old }
    requires target { at + n ≤ T.BITS * length words.old }
    requires source_fits { from + n < 2 ^ 64 }
    requires fits { at + n < 2 ^ 64 }
    ensures bits { row T.BitStore O.BitOrder words.new
        ≡ put (row T.BitStore O.BitOrder words.old) at
        (combined F.made (slice_range (row T.BitStore O.BitOrder words.old) at (at + n))
        (slice_range (row T.BitStore O.BitOrder words.old) from (from + n))) }
    ensures size { length words.new ≡ length words.old }
{
    let width = T::BITS as usize;
    if from + n <= at / width * width {
        combine_back::<F, T, O>(words, from, at, n);
    } else if at + n <= from / width * width {
        combine_front::<F, T, O>(words, from, at, n);
    } else if at <= from {
        combine_upward::<F, T, O>(words, from, at, n);
    } else {
        combine_downward::<F, T, O>(words, from, at, n);
    }
}
