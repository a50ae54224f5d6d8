//! Reverses runs of bits.
ghost use Rattle.std.specs.Prelude.{◌≡◌, ◌+◌, ◌*◌, ◌^◌, ◌<◌, ◌≤◌, length, reverse, slice_range, true};
ghost use Rattle.bit_addressing.specs.declared.length.TheConstants.{MAX_BITS};
ghost use Rattle.bit_addressing.specs.Row.{moved, put};
ghost use Rattle.bit_addressing.specs.Typed.{row};
ghost use Rattle.bit_slice.specs.Mirrored.{IsMirrored};

use bit_addressing::{BitIdx, BitOrder, BitStore, MAX_BITS, elts, move_bits};
use bit_rows::{read_binary, read_chunk, write_chunk};

// Swaps the `n` bits from `front` on and the `n` from `back` on, each run reversed. Requires that the first ends
// before the other begins, both lie in the words, and `n` is at most 64.
#[inline(always)]
fn swap_reversed<T: BitStore, O: BitOrder>(words: &mut [T], front: usize, back: usize, n: u8)
    requires few { n ≤ 64 }
    requires apart { front + n ≤ back }
    requires within { back + n ≤ T.BITS * length words.old }
    requires fits { back + n < 2 ^ 64 }
    ensures bits { row T.BitStore O.BitOrder words.new
        ≡ put (put (row T.BitStore O.BitOrder words.old) front
        (reverse (slice_range (row T.BitStore O.BitOrder words.old) back (back + n)))) back
        (reverse (slice_range (row T.BitStore O.BitOrder words.old) front (front + n))) }
    ensures size { length words.new ≡ length words.old }
{
    let lower = read_binary::<T, O>(words, front, n);
    let upper = read_binary::<T, O>(words, back, n);
    write_chunk::<T, O>(words, front, n, upper);
    write_chunk::<T, O>(words, back, n, lower);
}

// Like `reverse_bits`, up to 64 bits from each end at a time.
fn reverse_pairs<T: BitStore, O: BitOrder>(words: &mut [T], head: usize, len: usize)
    requires within { head + len ≤ T.BITS * length words.old }
    requires fits { head + len < 2 ^ 64 }
    ensures bits { row T.BitStore O.BitOrder words.new
        ≡ put (row T.BitStore O.BitOrder words.old) head
        (reverse (slice_range (row T.BitStore O.BitOrder words.old) head (head + len))) }
    ensures size { length words.new ≡ length words.old }
{
    let end = head + len;
    let pairs = len / 128;
    for t in 0..pairs {
        swap_reversed::<T, O>(words, head + t * 64, end - t * 64 - 64, 64);
    }
    let (low, high) = (head + pairs * 64, end - pairs * 64);
    let rest = (high - low) / 2;
    swap_reversed::<T, O>(words, low, high - rest, rest as u8);
}

// Whether the order is the same from both ends of a word, as `Lsb0` and `Msb0` are. The compiler folds it.
#[inline(always)]
fn is_mirrored<T: BitStore, O: BitOrder>() -> bool
    ensures { result ≡ true → IsMirrored T.BITS (O.place T.BITS) }
{
    for i in 0..T::BITS {
        let place = O::at(BitIdx::<T>::new_unchecked(i)).into_inner();
        let other = O::at(BitIdx::<T>::new_unchecked(T::BITS - 1 - i)).into_inner();
        if other != T::BITS - 1 - place {
            return false;
        }
    }
    true
}

// Swaps the words of two slices, the first with the last, each reversed. Requires that the slices have one length.
// They are two slices, in a function that is not inlined, since the compiler takes several words at once only where
// it knows that no word is in both (docs/SPEED.md, "The bench", reverse). Four words from each end go at once: as two
// pairs, they are fewer shuffles of bytes than as words.
#[inline(never)]
fn swap_words<T: BitStore, O: BitOrder>(low: &mut [T], high: &mut [T])
    requires mirrored { IsMirrored T.BITS (O.place T.BITS) }
    requires same { length low.old ≡ length high.old }
    ensures low { row T.BitStore O.BitOrder low.new ≡ reverse (row T.BitStore O.BitOrder high.old) }
    ensures high { row T.BitStore O.BitOrder high.new ≡ reverse (row T.BitStore O.BitOrder low.old) }
    ensures low_size { length low.new ≡ length low.old }
    ensures high_size { length high.new ≡ length high.old }
{
    let n = low.len();
    let fours = n / 4;
    for t in 0..fours {
        let i = 4 * t;
        let j = n - 4 - i;
        let (low_first, low_second) = high[j + 2].reverse_pair(high[j + 3]);
        let (low_third, low_fourth) = high[j].reverse_pair(high[j + 1]);
        let (high_first, high_second) = low[i + 2].reverse_pair(low[i + 3]);
        let (high_third, high_fourth) = low[i].reverse_pair(low[i + 1]);
        low[i] = low_first;
        low[i + 1] = low_second;
        low[i + 2] = low_third;
        low[i + 3] = low_fourth;
        high[j + 3] = high_fourth;
        high[j + 2] = high_third;
        high[j + 1] = high_second;
        high[j] = high_first;
    }
    for i in 4 * fours..n {
        let j = n - 1 - i;
        let word = low[i].reverse();
        low[i] = high[j].reverse();
        high[j] = word;
    }
}

// Like `reverse_all`, of at most one word.
fn reverse_middle<T: BitStore, O: BitOrder>(words: &mut [T])
    requires mirrored { IsMirrored T.BITS (O.place T.BITS) }
    requires few { length words.old ≤ 1 }
    ensures bits { row T.BitStore O.BitOrder words.new ≡ reverse (row T.BitStore O.BitOrder words.old) }
    ensures size { length words.new ≡ length words.old }
{
    if words.len() == 1 {
        words[0] = words[0].reverse();
    }
}

// Reverses all bits of the words. Requires that the order is the same from both ends of a word.
fn reverse_all<T: BitStore, O: BitOrder>(words: &mut [T])
    requires mirrored { IsMirrored T.BITS (O.place T.BITS) }
    ensures bits { row T.BitStore O.BitOrder words.new ≡ reverse (row T.BitStore O.BitOrder words.old) }
    ensures size { length words.new ≡ length words.old }
{
    let n = words.len();
    let half = n / 2;
    let (front, high) = words.split_at_mut(n - half);
    let (low, middle) = front.split_at_mut(half);
    swap_words::<T, O>(low, high);
    reverse_middle::<T, O>(middle);
}

// Like `move_bits`, but does nothing where source and target are the same.
fn move_to<T: BitStore, O: BitOrder>(words: &mut [T], from: usize, at: usize, n: usize)
    requires room { T.BITS * length words.old ≤ MAX_BITS + 2 * T.BITS }
    requires source { from + n ≤ T.BITS * length words.old }
    requires target { at + n ≤ T.BITS * length words.old }
    ensures bits { row T.BitStore O.BitOrder words.new ≡ moved (row T.BitStore O.BitOrder words.old) from at n }
    ensures size { length words.new ≡ length words.old }
{
    if from != at {
        move_bits::<T, O>(words, from, at, n);
    }
}

// Reverses by whole words a run that begins in the first of the words and ends in the last: it reverses all bits,
// moves the run to its head, and writes back the bits before and after it.
fn reverse_touched<T: BitStore, O: BitOrder>(words: &mut [T], head: usize, len: usize)
    requires mirrored { IsMirrored T.BITS (O.place T.BITS) }
    requires begins { head < T.BITS }
    requires within { head + len ≤ T.BITS * length words.old }
    requires ends { T.BITS * length words.old < head + len + T.BITS }
    requires few { len ≤ MAX_BITS }
    ensures bits { row T.BitStore O.BitOrder words.new
        ≡ put (row T.BitStore O.BitOrder words.old) head
        (reverse (slice_range (row T.BitStore O.BitOrder words.old) head (head + len))) }
    ensures size { length words.new ≡ length words.old }
{
    let end = head + len;
    let after = T::BITS as usize * words.len() - end;
    let front = read_chunk::<T, O>(words, 0, head as u8);
    let back = read_chunk::<T, O>(words, end, after as u8);
    reverse_all::<T, O>(words);
    move_to::<T, O>(words, after, head, len);
    write_chunk::<T, O>(words, 0, head as u8, front);
    write_chunk::<T, O>(words, end, after as u8, back);
}

// Like `reverse_bits`, by whole words. Requires that the order is the same from both ends of a word.
fn reverse_long<T: BitStore, O: BitOrder>(words: &mut [T], head: usize, len: usize)
    requires mirrored { IsMirrored T.BITS (O.place T.BITS) }
    requires some { 0 < len }
    requires few { len ≤ MAX_BITS }
    requires within { head + len ≤ T.BITS * length words.old }
    ensures bits { row T.BitStore O.BitOrder words.new
        ≡ put (row T.BitStore O.BitOrder words.old) head
        (reverse (slice_range (row T.BitStore O.BitOrder words.old) head (head + len))) }
    ensures size { length words.new ≡ length words.old }
{
    let width = T::BITS as usize;
    let count = elts::<T>(head % width + len);
    let (_, rest) = words.split_at_mut(head / width);
    let (run, _) = rest.split_at_mut(count);
    reverse_touched::<T, O>(run, head % width, len);
}

// A run of this many bits or more is reversed by whole words.
const LONG: usize = 256;

// Reverses the `len` bits of the words' row from `head` on: a long run by whole words, where the order is the same
// from both ends of a word, else up to 64 bits from each end at a time. No other bit changes. Requires that the run
// lies in the words.
pub(crate) fn reverse_bits<T: BitStore, O: BitOrder>(words: &mut [T], head: usize, len: usize)
    requires within { head + len ≤ T.BITS * length words.old }
    requires fits { head + len < 2 ^ 64 }
    ensures bits { row T.BitStore O.BitOrder words.new
        ≡ put (row T.BitStore O.BitOrder words.old) head
        (reverse (slice_range (row T.BitStore O.BitOrder words.old) head (head + len))) }
    ensures size { length words.new ≡ length words.old }
{
    if len >= LONG && len <= MAX_BITS && is_mirrored::<T, O>() {
        reverse_long::<T, O>(words, head, len);
    } else {
        reverse_pairs::<T, O>(words, head, len);
    }
}
