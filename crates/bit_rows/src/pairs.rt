//! Bits that an operator makes of two rows, tested by whole words.
ghost use Rattle.std.specs.Prelude.{◌≡◌, ℕ, ◌+◌, ◌*◌, ◌^◌, ◌<◌, ◌≤◌, false, length, slice_index_or};
ghost use Rattle.std.specs.List.{count_by};
ghost use Rattle.std.specs.Simd.Lanes.{zip2};
ghost use Rattle.bit_addressing.specs.Row.{number_of};
ghost use Rattle.bit_addressing.specs.Typed.{row};
ghost use Rattle.bit_rows.specs.Runs.{run_at, AreAlike};

use crate::chunks::{are_alike, read_chunk, word_alike};
use crate::combined::BitOperator;
use crate::narrow::{goes_back, words_short};
use bit_addressing::{BitOrder, BitStore, Lsb0, elts};

// How many of the first `count` words from words `k` and `l` on `F` makes into false bits alone, by turns of
// `each` words up to one that it does not. A turn is tested once, so that the compiler takes its words side by
// side (docs/SPEED.md, "The bench", is subset). Requires that both kinds of words have one width and order, and
// that the words are there.
#[inline(always)]
fn false_turns<F: BitOperator, T: BitStore, O: BitOrder, U: BitStore, P: BitOrder>(
    a: &[T],
    k: usize,
    b: &[U],
    l: usize,
    count: usize,
    each: usize,
) -> usize
    requires alike { AreAlike T.BITS U.BITS O.place P.place }
    requires some { 0 < each }
    requires first { k + count ≤ length a.now }
    requires second { l + count ≤ length b.now }
    ensures most { result ≤ count }
    ensures none { (q : ℕ) → q < result * T.BITS
        → F.made (slice_index_or (row T.BitStore O.BitOrder a.now) (k * T.BITS + q) false)
        (slice_index_or (row U.BitStore P.BitOrder b.now) (l * T.BITS + q) false) ≡ false }
{
    for t in 0..count / each {
        let done = t * each;
        let mut made = T::ZERO;
        for i in 0..each {
            let other = word_alike::<T, O, U, P>(b[l + (done + i)]);
            made = made.or(F::apply::<T>(a[k + (done + i)], other));
        }
        if made.to_u64() != 0 {
            return done;
        }
    }
    count / each * each
}

// Like `false_blocks`. It is not inlined, for the reason that `count_alike` names.
#[inline(never)]
fn false_long<F: BitOperator, T: BitStore, O: BitOrder, U: BitStore, P: BitOrder>(
    a: &[T],
    i: usize,
    b: &[U],
    j: usize,
    n: usize,
) -> usize
    requires first { i + n ≤ T.BITS * length a.now }
    requires second { j + n ≤ U.BITS * length b.now }
    ensures few { result * 64 ≤ n }
    ensures none { (q : ℕ) → q < result * 64
        → F.made (slice_index_or (row T.BitStore O.BitOrder a.now) (i + q) false)
        (slice_index_or (row U.BitStore P.BitOrder b.now) (j + q) false) ≡ false }
{
    let width = T::BITS as usize;
    if !are_alike::<T, O, U, P>() || i % width != 0 || j % width != 0 {
        return 0;
    }
    let (k, l, count) = (i / width, j / width, n / width);
    let far = false_turns::<F, T, O, U, P>(a, k, b, l, count, 2048 / width);
    let near = false_turns::<F, T, O, U, P>(a, k + far, b, l + far, count - far, 512 / width);
    (far + near) / (64 / width)
}

/// A number of blocks of 64 bits, the first of `n` bits from places `i` and `j` on, of which `F` makes false
/// bits alone. It tests bits that lie alike where both runs begin with a word, 2048 at a time and then 512, so
/// more such blocks may follow; of others it returns 0. Requires that both runs lie in their words.
///
/// ```text
/// of 512 false bits and 512 true ones: false_blocks::<And, ..>(a, 0, b, 0, 512) == 8
/// of 8 bits: false_blocks::<And, ..>(a, 0, b, 0, 8) == 0
/// ```
// Most runs are too short for such a block, and take no call.
#[inline(always)]
pub fn false_blocks<F: BitOperator, T: BitStore, O: BitOrder, U: BitStore, P: BitOrder>(
    a: &[T],
    i: usize,
    b: &[U],
    j: usize,
    n: usize,
) -> usize
    requires first { i + n ≤ T.BITS * length a.now }
    requires second { j + n ≤ U.BITS * length b.now }
    ensures few { result * 64 ≤ n }
    ensures none { (q : ℕ) → q < result * 64
        → F.made (slice_index_or (row T.BitStore O.BitOrder a.now) (i + q) false)
        (slice_index_or (row U.BitStore P.BitOrder b.now) (j + q) false) ≡ false }
{
    if n < 512 {
        return 0;
    }
    false_long::<F, T, O, U, P>(a, i, b, j, n)
}

// The number of true bits of those that `F` makes of `blocks` blocks of 64 bits from words `k` and `l` on. As
// many are in each order, so both sides are taken by their places, which takes no turning round. Requires that
// both kinds of words have one width and order, and that the words are there.
#[inline(always)]
fn count_run<F: BitOperator, T: BitStore, O: BitOrder, U: BitStore, P: BitOrder>(
    a: &[T],
    k: usize,
    b: &[U],
    l: usize,
    blocks: usize,
) -> usize
    requires alike { AreAlike T.BITS U.BITS O.place P.place }
    requires first { k * T.BITS + blocks * 64 ≤ T.BITS * length a.now }
    requires second { l * T.BITS + blocks * 64 ≤ T.BITS * length b.now }
    requires few { blocks * 64 < 2 ^ 64 }
    ensures { result ≡ count_by (λ b. b) (zip2 F.made (run_at (row T.BitStore O.BitOrder a.now) (k * T.BITS) (blocks * 64)) (run_at (row U.BitStore P.BitOrder b.now) (l * T.BITS) (blocks * 64))) }
{
    let each = 64 / T::BITS as usize;
    let mut count = 0;
    for t in 0..blocks {
        let old = Lsb0::pack(a, k + t * each);
        let new = Lsb0::pack(b, l + t * each);
        count += F::apply::<u64>(old, new).count_ones() as usize;
    }
    count
}

// Like `count_run`, by turns of four blocks, in which the compiler counts words one after another without a test
// (docs/SPEED.md, "The bench", count xor). It is not inlined, since in a long function its loop would read two
// addresses from the stack again each turn.
#[inline(never)]
fn count_alike<F: BitOperator, T: BitStore, O: BitOrder, U: BitStore, P: BitOrder>(
    a: &[T],
    k: usize,
    b: &[U],
    l: usize,
    blocks: usize,
) -> usize
    requires alike { AreAlike T.BITS U.BITS O.place P.place }
    requires first { k * T.BITS + blocks * 64 ≤ T.BITS * length a.now }
    requires second { l * T.BITS + blocks * 64 ≤ T.BITS * length b.now }
    requires few { blocks * 64 < 2 ^ 64 }
    ensures { result ≡ count_by (λ b. b) (zip2 F.made (run_at (row T.BitStore O.BitOrder a.now) (k * T.BITS) (blocks * 64)) (run_at (row U.BitStore P.BitOrder b.now) (l * T.BITS) (blocks * 64))) }
{
    let each = 64 / T::BITS as usize;
    let turns = blocks / 4;
    let mut count = 0;
    for t in 0..turns {
        let at = t * 4 * each;
        count += count_run::<F, T, O, U, P>(a, k + at, b, l + at, 4);
    }
    let at = turns * 4 * each;
    count + count_run::<F, T, O, U, P>(a, k + at, b, l + at, blocks - turns * 4)
}

/// How many blocks of 64 bits it counted, of `n` bits from places `i` and `j` on, and how many bits are true
/// there of those that `F` makes. It counts all whole blocks of bits that lie alike in words that both runs
/// begin with, and none of others. Requires that both runs lie in their words.
///
/// ```text
/// of 64 bits that are true, twice: count_blocks::<And, ..>(a, 0, b, 0, 64) == (1, 64)
/// ```
pub fn count_blocks<F: BitOperator, T: BitStore, O: BitOrder, U: BitStore, P: BitOrder>(
    a: &[T],
    i: usize,
    b: &[U],
    j: usize,
    n: usize,
) -> (usize, usize)
    requires first { i + n ≤ T.BITS * length a.now }
    requires second { j + n ≤ U.BITS * length b.now }
    ensures few { result.0 * 64 ≤ n }
    ensures count { result.1 ≡ count_by (λ b. b) (zip2 F.made (run_at (row T.BitStore O.BitOrder a.now) i (result.0 * 64)) (run_at (row U.BitStore P.BitOrder b.now) j (result.0 * 64))) }
{
    let width = T::BITS as usize;
    if !are_alike::<T, O, U, P>() || i % width != 0 || j % width != 0 {
        return (0, 0);
    }
    let blocks = n / 64;
    let count = count_alike::<F, T, O, U, P>(a, i / width, b, j / width, blocks);
    (blocks, count)
}

// Like `read_pair`, from words `k` and `l` on, whose bits lie alike: `F` makes bits of the words as they are, which are put
// in order once. It is one call for both sides, since two would take longer than the work. Requires besides that there is
// a bit, and that the order goes back.
#[inline(never)]
fn pair_short<F: BitOperator, T: BitStore, O: BitOrder, U: BitStore, P: BitOrder>(
    a: &[T],
    k: usize,
    b: &[U],
    l: usize,
    n: u8,
) -> u64
    requires alike { AreAlike T.BITS U.BITS O.place P.place }
    requires back { (i : ℕ) → i < T.BITS → O.place T.BITS (O.place T.BITS i) ≡ i }
    requires some { 0 < n }
    requires few { n ≤ 64 }
    requires first { k * T.BITS + n ≤ T.BITS * length a.now }
    requires second { l * T.BITS + n ≤ T.BITS * length b.now }
    ensures { result ≡ number_of (zip2 F.made (run_at (row T.BitStore O.BitOrder a.now) (k * T.BITS) n) (run_at (row U.BitStore P.BitOrder b.now) (l * T.BITS) n)) }
{
    let count = elts::<T>(n as usize) as u8;
    let old = words_short::<T, Lsb0>(a, k, count);
    let new = words_short::<U, Lsb0>(b, l, count);
    let raw = F::apply::<u64>(old, new);
    O::unpack::<T>(O::from_lsb0::<u64>(raw)) & (u64::MAX >> (64 - n))
}

/// The bits that `F` makes of `n` bits of two rows, from places `i` and `j` on, as a number, the first at place 0.
/// Requires that `F` makes false of two false bits, `n` is at most 64, and both runs lie in their words.
///
/// ```text
/// of 0110 and 1100 by Lsb0: read_pair::<And, ..>(a, 0, b, 0, 4) == 0b0010
/// ```
#[inline(always)]
pub fn read_pair<F: BitOperator, T: BitStore, O: BitOrder, U: BitStore, P: BitOrder>(
    a: &[T],
    i: usize,
    b: &[U],
    j: usize,
    n: u8,
) -> u64
    requires quiet { F.made false false ≡ false }
    requires few { n ≤ 64 }
    requires first { i + n ≤ T.BITS * length a.now }
    requires second { j + n ≤ U.BITS * length b.now }
    ensures { result ≡ number_of (zip2 F.made (run_at (row T.BitStore O.BitOrder a.now) i n) (run_at (row U.BitStore P.BitOrder b.now) j n)) }
{
    let width = T::BITS as usize;
    if T::BITS < n
        && n < 64
        && i % width == 0
        && j % width == 0
        && are_alike::<T, O, U, P>()
        && goes_back::<T, O>()
    {
        return pair_short::<F, T, O, U, P>(a, i / width, b, j / width, n);
    }
    let old = read_chunk::<T, O>(a, i, n);
    let new = read_chunk::<U, P>(b, j, n);
    F::apply::<u64>(old, new)
}
