//! The calls on words that lie in a vector, which keeps its capacity.
ghost use Rattle.std.specs.Prelude.{◌≡◌, [], ◌∷◌, ◌+◌, ◌-◌, ◌*◌, ◌%◌, ◌^◌, ◌<◌, ◌≤◌, length, slice_range, set, vec_capacity};
ghost use Rattle.bit_addressing.specs.Row.{filled, moved, number_bits, put, touched};
ghost use Rattle.bit_addressing.specs.declared.length.TheConstants.{MAX_BITS};
ghost use Rattle.bit_addressing.specs.Typed.{row};

use crate::chunks::write_chunk;
use crate::copies::copy_bits;
use crate::single::{fill_outside, write_bit, write_part};
use bit_addressing::{BitEnd, BitIdx, BitOrder, BitStore, Meter, move_bits, move_bits_counted};

/// Like `write_bit`, in the words of a vector.
pub fn write_bit_in_vec<T: BitStore, O: BitOrder>(words: &mut Vec<T>, at: usize, bit: bool)
    requires { at < T.BITS * length words.old.items }
    ensures bits { row T.BitStore O.BitOrder words.new.items ≡ set (row T.BitStore O.BitOrder words.old.items) at bit }
    ensures size { length words.new.items ≡ length words.old.items }
    ensures capacity { vec_capacity words.new ≡ vec_capacity words.old }
{
    write_bit::<T, O>(words.as_mut_slice(), at, bit);
}

/// Like `fill_outside`, in the words of a vector.
pub fn fill_outside_in_vec<T: BitStore, O: BitOrder>(
    words: &mut Vec<T>,
    head: usize,
    len: usize,
    bit: bool,
)
    requires within { head + len ≤ T.BITS * length words.old.items }
    requires fits { T.BITS * length words.old.items < 2 ^ 64 }
    ensures bits { row T.BitStore O.BitOrder words.new.items
        ≡ filled (row T.BitStore O.BitOrder words.old.items) head len bit }
    ensures size { length words.new.items ≡ length words.old.items }
    ensures capacity { vec_capacity words.new ≡ vec_capacity words.old }
{
    fill_outside::<T, O>(words.as_mut_slice(), head, len, bit);
}

/// Like `copy_bits`, into the words of a vector.
pub fn copy_bits_in_vec<T: BitStore, O: BitOrder, U: BitStore, P: BitOrder>(
    words: &mut Vec<T>,
    at: usize,
    source: &[U],
    from: usize,
    n: usize,
)
    requires target { at + n ≤ T.BITS * length words.old.items }
    requires source { from + n ≤ U.BITS * length source.now }
    requires target_fits { at + n < 2 ^ 64 }
    requires source_fits { from + n < 2 ^ 64 }
    ensures bits { row T.BitStore O.BitOrder words.new.items
        ≡ put (row T.BitStore O.BitOrder words.old.items) at
        (slice_range (row U.BitStore P.BitOrder source.now) from (from + n)) }
    ensures size { length words.new.items ≡ length words.old.items }
    ensures capacity { vec_capacity words.new ≡ vec_capacity words.old }
{
    copy_bits::<T, O, U, P>(words.as_mut_slice(), at, source, from, n);
}

/// Like `move_bits`, in the words of a vector.
pub fn move_bits_in_vec<T: BitStore, O: BitOrder>(
    words: &mut Vec<T>,
    src: usize,
    dst: usize,
    n: usize,
)
    requires room { T.BITS * length words.old.items ≤ MAX_BITS + 2 * T.BITS }
    requires source { src + n ≤ T.BITS * length words.old.items }
    requires target { dst + n ≤ T.BITS * length words.old.items }
    ensures bits { row T.BitStore O.BitOrder words.new.items
        ≡ moved (row T.BitStore O.BitOrder words.old.items) src dst n }
    ensures size { length words.new.items ≡ length words.old.items }
    ensures capacity { vec_capacity words.new ≡ vec_capacity words.old }
{
    let _meter = move_bits_counted_in_vec::<T, O>(words, src, dst, n);
}

// Moves the `n` bits from `at` on one index up. Requires that they lie in one word, with the index after them.
#[inline(always)]
fn move_up_in_word<T: BitStore, O: BitOrder>(words: &mut [T], at: usize, n: usize)
    requires some { 0 < n }
    requires word { at % T.BITS + n < T.BITS }
    requires within { at + n < T.BITS * length words.old }
    ensures bits { row T.BitStore O.BitOrder words.new ≡ moved (row T.BitStore O.BitOrder words.old) at (at + 1) n }
    ensures size { length words.new ≡ length words.old }
{
    let width = T::BITS as usize;
    let (k, low) = (at / width, (at % width) as u8);
    let high = low + n as u8;
    let back = BitIdx::<T>::new_unchecked(T::BITS - 1);
    let start = BitIdx::<T>::new_unchecked(low + 1);
    let end = BitEnd::<T>::new_unchecked(high + 1);
    let old = words[k];
    words[k] = O::with_run(old, old, old, back, start, end);
}

// Moves the `n` bits after `at` one index down. Requires that they lie in one word with it.
#[inline(always)]
fn move_down_in_word<T: BitStore, O: BitOrder>(words: &mut [T], at: usize, n: usize)
    requires some { 0 < n }
    requires word { at % T.BITS + n < T.BITS }
    requires within { at + n < T.BITS * length words.old }
    ensures bits { row T.BitStore O.BitOrder words.new ≡ moved (row T.BitStore O.BitOrder words.old) (at + 1) at n }
    ensures size { length words.new ≡ length words.old }
{
    let width = T::BITS as usize;
    let (k, low) = (at / width, (at % width) as u8);
    let high = low + n as u8;
    let next = BitIdx::<T>::new_unchecked(1);
    let start = BitIdx::<T>::new_unchecked(low);
    let end = BitEnd::<T>::new_unchecked(high);
    let old = words[k];
    words[k] = O::with_run(old, old, old, next, start, end);
}

/// Moves the `n` bits from `at` on one index up, and writes `bit` at `at`: within one word by one step.
#[inline(always)]
pub fn insert_bit_in_vec<T: BitStore, O: BitOrder>(
    words: &mut Vec<T>,
    at: usize,
    n: usize,
    bit: bool,
)
    requires room { T.BITS * length words.old.items ≤ MAX_BITS + 2 * T.BITS }
    requires within { at + n < T.BITS * length words.old.items }
    ensures bits { row T.BitStore O.BitOrder words.new.items
        ≡ set (moved (row T.BitStore O.BitOrder words.old.items) at (at + 1) n) at bit }
    ensures size { length words.new.items ≡ length words.old.items }
    ensures capacity { vec_capacity words.new ≡ vec_capacity words.old }
{
    let width = T::BITS as usize;
    let words = words.as_mut_slice();
    if n > 0 && n < width - at % width {
        move_up_in_word::<T, O>(words, at, n);
    } else {
        move_bits::<T, O>(words, at, at + 1, n);
    }
    write_bit::<T, O>(words, at, bit);
}

/// Moves the `n` bits after `at` one index down: within one word by one step.
#[inline(always)]
pub fn remove_bit_in_vec<T: BitStore, O: BitOrder>(words: &mut Vec<T>, at: usize, n: usize)
    requires room { T.BITS * length words.old.items ≤ MAX_BITS + 2 * T.BITS }
    requires within { at + n < T.BITS * length words.old.items }
    ensures bits { row T.BitStore O.BitOrder words.new.items
        ≡ moved (row T.BitStore O.BitOrder words.old.items) (at + 1) at n }
    ensures size { length words.new.items ≡ length words.old.items }
    ensures capacity { vec_capacity words.new ≡ vec_capacity words.old }
{
    let width = T::BITS as usize;
    let words = words.as_mut_slice();
    if n > 0 && n < width - at % width {
        move_down_in_word::<T, O>(words, at, n);
    } else {
        move_bits::<T, O>(words, at + 1, at, n);
    }
}

// Moves a run of bits in the words of a vector, and returns the meter of the words that were read and written.
fn move_bits_counted_in_vec<T: BitStore, O: BitOrder>(
    words: &mut Vec<T>,
    src: usize,
    dst: usize,
    n: usize,
) -> Meter
    requires room { T.BITS * length words.old.items ≤ MAX_BITS + 2 * T.BITS }
    requires source { src + n ≤ T.BITS * length words.old.items }
    requires target { dst + n ≤ T.BITS * length words.old.items }
    ensures bits { row T.BitStore O.BitOrder words.new.items
        ≡ moved (row T.BitStore O.BitOrder words.old.items) src dst n }
    ensures size { length words.new.items ≡ length words.old.items }
    ensures capacity { vec_capacity words.new ≡ vec_capacity words.old }
    ensures writes { result.writes ≤ touched T.BITS dst n }
    ensures reads { result.reads ≤ 3 * touched T.BITS dst n }
{
    move_bits_counted::<T, O>(words.as_mut_slice(), src, dst, n)
}

/// Like `write_chunk`, in the words of a vector.
pub fn write_chunk_in_vec<T: BitStore, O: BitOrder>(
    words: &mut Vec<T>,
    at: usize,
    n: u8,
    chunk: u64,
)
    requires few { n ≤ 64 }
    requires within { at + n ≤ T.BITS * length words.old.items }
    requires fits { at + n < 2 ^ 64 }
    ensures bits { row T.BitStore O.BitOrder words.new.items
        ≡ put (row T.BitStore O.BitOrder words.old.items) at (number_bits chunk n) }
    ensures size { length words.new.items ≡ length words.old.items }
    ensures capacity { vec_capacity words.new ≡ vec_capacity words.old }
{
    write_chunk::<T, O>(words.as_mut_slice(), at, n, chunk);
}

// Like `write_part`, in the words of a vector.
#[inline(always)]
pub(crate) fn write_part_in_vec<T: BitStore, O: BitOrder>(
    words: &mut Vec<T>,
    k: usize,
    low: u8,
    high: u8,
    new: T,
)
    requires word { k < length words.old.items }
    requires some { low < high }
    requires within { high ≤ T.BITS }
    ensures bits { row T.BitStore O.BitOrder words.new.items
        ≡ put (row T.BitStore O.BitOrder words.old.items) (k * T.BITS + low)
        (slice_range (row T.BitStore O.BitOrder (new ∷ [])) low high) }
    ensures size { length words.new.items ≡ length words.old.items }
    ensures capacity { vec_capacity words.new ≡ vec_capacity words.old }
{
    write_part::<T, O>(words.as_mut_slice(), k, low as usize, high as usize, new);
}
