//! The last bits of a row of narrow words, where fewer than 64 are left.
ghost use Rattle.std.specs.Prelude.{◌≡◌, ℕ, true, ◌+◌, ◌*◌, ◌<◌, ◌≤◌, length};
ghost use Rattle.bit_addressing.specs.Row.{number_of};
ghost use Rattle.bit_addressing.specs.Typed.{row};
ghost use Rattle.bit_rows.specs.Runs.{run_at};

use crate::chunks::word_number;
use bit_addressing::{BitIdx, BitOrder, BitStore, Lsb0, elts};

// The bits of `count` words from word `k` on as a number. Of words by `Lsb0` the compiler makes one load, where it knows
// how many they are. Requires that the words are there, and have at most 64 bits.
#[inline(always)]
fn words_joined<T: BitStore, O: BitOrder>(words: &[T], k: usize, count: u8) -> u64
    requires few { count * T.BITS ≤ 64 }
    requires within { k + count ≤ length words.now }
    ensures { result ≡ number_of (run_at (row T.BitStore O.BitOrder words.now) (k * T.BITS) (count * T.BITS)) }
{
    let mut bits = 0u64;
    for i in 0..count {
        bits |= word_number::<T, O>(words[k + i as usize]) << (i * T::BITS);
    }
    bits
}

// Like `words_joined`, by the first `each` words and by the last, some of which may be the same. Requires besides that
// these are all.
#[inline(always)]
fn words_in_two<T: BitStore, O: BitOrder>(words: &[T], k: usize, count: u8, each: u8) -> u64
    requires least { each ≤ count }
    requires most { count ≤ 2 * each }
    requires few { count * T.BITS ≤ 64 }
    requires within { k + count ≤ length words.now }
    ensures { result ≡ number_of (run_at (row T.BitStore O.BitOrder words.now) (k * T.BITS) (count * T.BITS)) }
{
    let apart = count - each;
    let low = words_joined::<T, O>(words, k, each);
    let high = words_joined::<T, O>(words, k + apart as usize, each);
    low | high << (apart * T::BITS)
}

// Like `words_joined`, of some words: by two loads of four bytes or of two.
#[inline(always)]
pub(crate) fn words_short<T: BitStore, O: BitOrder>(words: &[T], k: usize, count: u8) -> u64
    requires some { 0 < count }
    requires few { count * T.BITS ≤ 64 }
    requires within { k + count ≤ length words.now }
    ensures { result ≡ number_of (run_at (row T.BitStore O.BitOrder words.now) (k * T.BITS) (count * T.BITS)) }
{
    if T::BITS == 8 && count >= 4 {
        return words_in_two::<T, O>(words, k, count, 4);
    }
    if T::BITS < 32 && count >= 2 {
        return words_in_two::<T, O>(words, k, count, 2);
    }
    if T::BITS == 32 && count == 2 {
        return words_joined::<T, O>(words, k, 2);
    }
    words_joined::<T, O>(words, k, 1)
}

// Whether the place of each place, as an index, is the index again: so in `Lsb0` and `Msb0`.
#[inline(always)]
pub(crate) fn goes_back<T: BitStore, O: BitOrder>() -> bool
    ensures { result ≡ true → (i : ℕ) → i < T.BITS → O.place T.BITS (O.place T.BITS i) ≡ i }
{
    for i in 0..T::BITS {
        let place = O::at(BitIdx::<T>::new_unchecked(i)).into_inner();
        if O::at(BitIdx::<T>::new_unchecked(place)).into_inner() != i {
            return false;
        }
    }
    true
}

// The bits of `count` words from word `k` on as a number: the words are loaded as they are, and the bits of all put in
// order at once. Requires that the words are there, and have at most 64 bits, and that the order goes back.
#[inline(always)]
pub(crate) fn block_short<T: BitStore, O: BitOrder>(words: &[T], k: usize, count: u8) -> u64
    requires some { 0 < count }
    requires few { count * T.BITS ≤ 64 }
    requires within { k + count ≤ length words.now }
    requires back { (i : ℕ) → i < T.BITS → O.place T.BITS (O.place T.BITS i) ≡ i }
    ensures { result ≡ number_of (run_at (row T.BitStore O.BitOrder words.now) (k * T.BITS) (count * T.BITS)) }
{
    let raw = words_short::<T, Lsb0>(words, k, count);
    O::unpack::<T>(O::from_lsb0::<u64>(raw))
}

// Like `read_chunk`, from word `k` on. Requires besides that there is a bit, and that the order goes back.
#[inline(always)]
pub(crate) fn chunk_short<T: BitStore, O: BitOrder>(words: &[T], k: usize, n: u8) -> u64
    requires some { 0 < n }
    requires few { n ≤ 64 }
    requires within { k * T.BITS + n ≤ T.BITS * length words.now }
    requires back { (i : ℕ) → i < T.BITS → O.place T.BITS (O.place T.BITS i) ≡ i }
    ensures { result ≡ number_of (run_at (row T.BitStore O.BitOrder words.now) (k * T.BITS) n) }
{
    let count = elts::<T>(n as usize) as u8;
    block_short::<T, O>(words, k, count) & (u64::MAX >> (64 - n))
}
