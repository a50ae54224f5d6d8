//! Single bits and runs of one bit: read, written, filled and flipped.
ghost use Rattle.std.specs.Prelude.{◌≡◌, ◌+◌, ◌-◌, ◌*◌, ◌^◌, ◌<◌, ◌≤◌, false, not, [], ◌∷◌, map, length, replicate, slice_index_or, slice_range, set, swap};
ghost use Rattle.bit_addressing.specs.Row.{put, filled};
ghost use Rattle.bit_addressing.specs.Typed.{row, words_from};

use bit_addressing::inner::{Span, blend, repeated};
use bit_addressing::{BitEnd, BitIdx, BitOrder, BitStore};

/// Proof only: the row of the words determines them.
pub fn prove_exact_words<T: BitStore, O: BitOrder>(words: &[T])
    ensures { words.now ≡ words_from T.BitStore O.BitOrder (row T.BitStore O.BitOrder words.now) }
{
    T::are_words(words);
}

/// The bit at `at` of the row. Requires that `at` is in the words.
pub fn read_bit<T: BitStore, O: BitOrder>(words: &[T], at: usize) -> bool
    requires { at < T.BITS * length words.now }
    ensures { result ≡ slice_index_or (row T.BitStore O.BitOrder words.now) at false }
{
    let width = T::BITS as usize;
    let place = O::at(BitIdx::<T>::new_unchecked((at % width) as u8)).into_inner();
    words[at / width].bit(place)
}

/// Writes `bit` at `at` of the row, and no other bit. Requires that `at` is in the words.
pub fn write_bit<T: BitStore, O: BitOrder>(words: &mut [T], at: usize, bit: bool)
    requires { at < T.BITS * length words.old }
    ensures bits { row T.BitStore O.BitOrder words.new ≡ set (row T.BitStore O.BitOrder words.old) at bit }
    ensures size { length words.new ≡ length words.old }
{
    let width = T::BITS as usize;
    let place = O::at(BitIdx::<T>::new_unchecked((at % width) as u8)).into_inner();
    let word = words[at / width];
    words[at / width] = word.with_bit(place, bit);
}

/// Swaps the bits at `i` and `j` of the row, and changes no other bit. Requires that both are in the words.
pub fn swap_bits<T: BitStore, O: BitOrder>(words: &mut [T], i: usize, j: usize)
    requires first { i < T.BITS * length words.old }
    requires second { j < T.BITS * length words.old }
    ensures bits { row T.BitStore O.BitOrder words.new ≡ swap (row T.BitStore O.BitOrder words.old) i j }
    ensures size { length words.new ≡ length words.old }
{
    let first = read_bit::<T, O>(words, i);
    let second = read_bit::<T, O>(words, j);
    write_bit::<T, O>(words, i, second);
    write_bit::<T, O>(words, j, first);
}

// Writes the bits of `new` at the indices `low..high` into word `k`.
#[inline(always)]
pub(crate) fn write_part<T: BitStore, O: BitOrder>(
    words: &mut [T],
    k: usize,
    low: usize,
    high: usize,
    new: T,
)
    requires word { k < length words.old }
    requires some { low < high }
    requires within { high ≤ T.BITS }
    ensures bits { row T.BitStore O.BitOrder words.new
        ≡ put (row T.BitStore O.BitOrder words.old) (k * T.BITS + low)
        (slice_range (row T.BitStore O.BitOrder (new ∷ [])) low high) }
    ensures size { length words.new ≡ length words.old }
{
    let mask = O::mask(
        BitIdx::<T>::new_unchecked(low as u8),
        BitEnd::<T>::new_unchecked(high as u8),
    );
    let old = words[k];
    words[k] = blend(old, new, mask);
}

/// Writes `bit` at the places `from..upto` of the row, by whole words where it can, and no other bit.
/// Requires that `from` is at most `upto`, which is at most the row's length.
pub fn fill_bits<T: BitStore, O: BitOrder>(words: &mut [T], from: usize, upto: usize, bit: bool)
    requires ordered { from ≤ upto }
    requires within { upto ≤ T.BITS * length words.old }
    ensures bits { row T.BitStore O.BitOrder words.new
        ≡ put (row T.BitStore O.BitOrder words.old) from (replicate (upto - from) bit) }
    ensures size { length words.new ≡ length words.old }
{
    if from == upto {
        return;
    }
    let width = T::BITS as usize;
    let Span {
        first,
        low,
        last,
        end,
    } = Span::of::<T>(from, upto);
    let full = repeated::<T>(bit);
    if first == last {
        write_part::<T, O>(words, first, low, end, full);
        return;
    }
    write_part::<T, O>(words, first, low, width, full);
    for k in first + 1..last {
        words[k] = full;
    }
    write_part::<T, O>(words, last, 0, end, full);
}

// Writes `bit` at every place of the row outside `head..head + len`, and no other bit. Requires
// that `head + len` is at most the row's length, which is below 2 to the power 64.
pub(crate) fn fill_outside<T: BitStore, O: BitOrder>(
    words: &mut [T],
    head: usize,
    len: usize,
    bit: bool,
)
    requires within { head + len ≤ T.BITS * length words.old }
    requires fits { T.BITS * length words.old < 2 ^ 64 }
    ensures bits { row T.BitStore O.BitOrder words.new ≡ filled (row T.BitStore O.BitOrder words.old) head len bit }
    ensures size { length words.new ≡ length words.old }
{
    let all = T::BITS as usize * words.len();
    fill_bits::<T, O>(words, 0, head, bit);
    fill_bits::<T, O>(words, head + len, all, bit);
}

/// Flips every bit of the row.
pub fn flip_words<T: BitStore, O: BitOrder>(words: &mut [T])
    ensures bits { row T.BitStore O.BitOrder words.new ≡ map not (row T.BitStore O.BitOrder words.old) }
    ensures size { length words.new ≡ length words.old }
{
    for word in words {
        *word = word.not();
    }
}
