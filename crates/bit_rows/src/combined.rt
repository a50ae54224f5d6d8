//! Runs of bits combined with those of another row, by whole words of the target.
ghost use Rattle.std.specs.Prelude.{◌≡◌, ℕ, ◌+◌, ◌-◌, ◌*◌, ◌/◌, ◌^◌, ◌<◌, ◌≤◌, if◌then◌else◌, ◌&&◌, ◌||◌, Bool, false, true, not, [], ◌∷◌, length, slice_range};
ghost use Rattle.std.specs.Simd.Lanes.{zip2};
ghost use Rattle.bit_addressing.specs.Bits.{has_bit};
ghost use Rattle.bit_addressing.specs.Row.{put, row_of};
ghost use Rattle.bit_addressing.specs.Typed.{row};
ghost use Rattle.bit_rows.specs.Runs.{AreAlike, combined_run};

use crate::chunks::{
    are_alike, block_after, followed_blocks, word_after, word_alike, word_by_table, word_of_block,
    word_of_run,
};
use crate::single::write_part;
use bit_addressing::inner::{PairTable, Span, in_word};
use bit_addressing::{BitOrder, BitStore, each_shift};

/// What two bits are made into.
pub trait BitOperator {
    // The bit made of an old one and a new one.
    ghost made: { Bool → Bool → Bool };

    /// The bits of `old` and `new` at each place made into one.
    fn apply<T: BitStore>(old: T, new: T) -> T
        ensures { (p : ℕ) → p < T.BITS
            → has_bit (T.value result) p ≡ made (has_bit (T.value old) p) (has_bit (T.value new) p) };

    /// Whether a bit is false that is made of an old one and false. Else it is the old one.
    fn clears() -> bool
        ensures { (x : Bool) → made x false ≡ (if result then false else x) };
}

/// A bit that is set in both.
pub struct And;

impl BitOperator for And {
    ghost made = { λ a b. a && b };

    fn apply<T: BitStore>(old: T, new: T) -> T {
        old.and(new)
    }

    fn clears() -> bool {
        true
    }
}

/// A bit that is set in one or in both.
pub struct Or;

impl BitOperator for Or {
    ghost made = { λ a b. a || b };

    fn apply<T: BitStore>(old: T, new: T) -> T {
        old.or(new)
    }

    fn clears() -> bool {
        false
    }
}

/// A bit that is set in one alone.
pub struct Xor;

impl BitOperator for Xor {
    ghost made = { λ a b. if a then not b else b };

    fn apply<T: BitStore>(old: T, new: T) -> T {
        old.xor(new)
    }

    fn clears() -> bool {
        false
    }
}

// The second bit, whatever the first is: a copy.
pub(crate) struct Second;

impl BitOperator for Second {
    ghost made = { λ a b. b };

    fn apply<T: BitStore>(_old: T, new: T) -> T {
        new
    }

    fn clears() -> bool {
        true
    }
}

// Like `write_part`, of what `F` makes of the bits there and of those of `new`.
fn combine_part<F: BitOperator, T: BitStore, O: BitOrder>(
    words: &mut [T],
    k: usize,
    low: usize,
    high: usize,
    new: T,
)
    requires word { k < length words.old }
    requires some { low < high }
    requires within { high ≤ T.BITS }
    ensures bits { row T.BitStore O.BitOrder words.new
        ≡ combined_run F.made (row T.BitStore O.BitOrder words.old) (k * T.BITS + low) (k * T.BITS + high) (row T.BitStore O.BitOrder (new ∷ [])) low high }
    ensures size { length words.new ≡ length words.old }
{
    let word = F::apply(words[k], new);
    write_part::<T, O>(words, k, low, high, word);
}

// Makes each bit of the words `first..last` into the bit that `F` makes of it and of the bit of `source` that
// stands as far after index `skip` of word `begin`. Requires that the words are there, and the run lies in
// `source`, which has one bit more.
#[inline(always)]
fn combine_after<F: BitOperator, T: BitStore, O: BitOrder, U: BitStore, P: BitOrder>(
    words: &mut [T],
    first: usize,
    last: usize,
    source: &[U],
    begin: usize,
    skip: u8,
)
    requires ordered { first ≤ last }
    requires target { last ≤ length words.old }
    requires within { skip < U.BITS }
    requires source { begin * U.BITS + skip + (last - first) * T.BITS < U.BITS * length source.now }
    requires source_fits { begin * U.BITS + skip + (last - first) * T.BITS < 2 ^ 64 }
    ensures bits { row T.BitStore O.BitOrder words.new
        ≡ combined_run F.made (row T.BitStore O.BitOrder words.old) (first * T.BITS) (last * T.BITS) (row U.BitStore P.BitOrder source.now) (begin * U.BITS + skip) (begin * U.BITS + skip + (last - first) * T.BITS) }
    ensures size { length words.new ≡ length words.old }
{
    for k in first..last {
        let new = word_after::<T, O, U, P>(source, begin, skip, k - first);
        words[k] = F::apply(words[k], new);
    }
}

// Like `combine_after`, by a table that is made here, in words of one width (docs/TUNING.md, "An order that a user
// writes", the copies).
#[inline(never)]
fn combine_by_table<F: BitOperator, T: BitStore, O: BitOrder, U: BitStore, P: BitOrder>(
    words: &mut [T],
    first: usize,
    last: usize,
    source: &[U],
    begin: usize,
    skip: u8,
)
    requires width { U.BITS ≡ T.BITS }
    requires ordered { first ≤ last }
    requires target { last ≤ length words.old }
    requires within { skip < U.BITS }
    requires source { begin * U.BITS + skip + (last - first) * T.BITS < U.BITS * length source.now }
    ensures bits { row T.BitStore O.BitOrder words.new
        ≡ combined_run F.made (row T.BitStore O.BitOrder words.old) (first * T.BITS) (last * T.BITS) (row U.BitStore P.BitOrder source.now) (begin * U.BITS + skip) (begin * U.BITS + skip + (last - first) * T.BITS) }
    ensures size { length words.new ≡ length words.old }
{
    let table = PairTable::new::<T, O, U, P>(skip);
    for k in first..last {
        let from = begin + (k - first);
        let new = word_by_table::<T, O, U, P>(&table, source, from, skip);
        words[k] = F::apply(words[k], new);
    }
}

// Like `combine_after`, of the 64 bits of `block`, into as many bits from word `k` on. Requires that the words are
// there.
fn combine_block<F: BitOperator, T: BitStore, O: BitOrder>(words: &mut [T], k: usize, block: u64)
    requires { k + 64 / T.BITS ≤ length words.old }
    ensures bits { row T.BitStore O.BitOrder words.new
        ≡ put (row T.BitStore O.BitOrder words.old) (k * T.BITS)
        (zip2 F.made (slice_range (row T.BitStore O.BitOrder words.old) (k * T.BITS) ((k + 64 / T.BITS) * T.BITS))
        (row_of O.place 64 (block ∷ []))) }
    ensures size { length words.new ≡ length words.old }
{
    for i in 0..64 / T::BITS {
        let at = k + i as usize;
        let new = word_of_block::<T, O>(block, i);
        words[at] = F::apply(words[at], new);
    }
}

// Like `combine_after`, of `blocks` blocks of 64 bits: each is made once, in the order of the words, and taken
// apart. Requires that the words are there, and each block has another after it.
#[inline(always)]
fn combine_blocks<F: BitOperator, T: BitStore, O: BitOrder, U: BitStore, P: BitOrder>(
    words: &mut [T],
    first: usize,
    source: &[U],
    begin: usize,
    skip: u8,
    blocks: usize,
)
    requires target { (t : ℕ) → t < blocks → first + t * (64 / T.BITS) + 64 / T.BITS ≤ length words.old }
    requires within { skip < U.BITS }
    requires source { (t : ℕ) → t < blocks → (begin + t * (64 / U.BITS)) * U.BITS + 128 ≤ U.BITS * length source.now }
    ensures bits { row T.BitStore O.BitOrder words.new
        ≡ combined_run F.made (row T.BitStore O.BitOrder words.old) (first * T.BITS) (first * T.BITS + blocks * 64) (row U.BitStore P.BitOrder source.now) (begin * U.BITS + skip) (begin * U.BITS + skip + blocks * 64) }
    ensures size { length words.new ≡ length words.old }
{
    let each = (64 / T::BITS) as usize;
    for t in 0..blocks {
        let block = block_after::<O, U, P>(source, begin, skip, t);
        combine_block::<F, T, O>(words, first + t * each, block);
    }
}

// Like `combine_after`, by blocks of 64 bits, as far as they go (docs/TUNING.md, "Rows of words", u64 into u8).
#[inline(always)]
fn combine_unlike<F: BitOperator, T: BitStore, O: BitOrder, U: BitStore, P: BitOrder>(
    words: &mut [T],
    first: usize,
    last: usize,
    source: &[U],
    begin: usize,
    skip: u8,
)
    requires ordered { first ≤ last }
    requires target { last ≤ length words.old }
    requires within { skip < U.BITS }
    requires source { begin * U.BITS + skip + (last - first) * T.BITS < U.BITS * length source.now }
    requires source_fits { begin * U.BITS + skip + (last - first) * T.BITS < 2 ^ 64 }
    ensures bits { row T.BitStore O.BitOrder words.new
        ≡ combined_run F.made (row T.BitStore O.BitOrder words.old) (first * T.BITS) (last * T.BITS) (row U.BitStore P.BitOrder source.now) (begin * U.BITS + skip) (begin * U.BITS + skip + (last - first) * T.BITS) }
    ensures size { length words.new ≡ length words.old }
{
    let (each, others) = ((64 / T::BITS) as usize, (64 / U::BITS) as usize);
    let blocks = followed_blocks::<U>(source.len(), begin).min((last - first) / each);
    combine_blocks::<F, T, O, U, P>(words, first, source, begin, skip, blocks);
    let (next, from) = (first + blocks * each, begin + blocks * others);
    combine_after::<F, T, O, U, P>(words, next, last, source, from, skip);
}

// Like `combine_after`, with a loop for each number of bits that a byte is shifted by (docs/TUNING.md, "A move within
// bytes").
#[inline(always)]
fn combine_shifted<F: BitOperator, T: BitStore, O: BitOrder, U: BitStore, P: BitOrder>(
    words: &mut [T],
    first: usize,
    last: usize,
    source: &[U],
    begin: usize,
    skip: u8,
)
    requires ordered { first ≤ last }
    requires target { last ≤ length words.old }
    requires within { skip < 8 }
    requires width { U.BITS ≡ 8 }
    requires source { begin * U.BITS + skip + (last - first) * T.BITS < U.BITS * length source.now }
    requires source_fits { begin * U.BITS + skip + (last - first) * T.BITS < 2 ^ 64 }
    ensures bits { row T.BitStore O.BitOrder words.new
        ≡ combined_run F.made (row T.BitStore O.BitOrder words.old) (first * T.BITS) (last * T.BITS) (row U.BitStore P.BitOrder source.now) (begin * U.BITS + skip) (begin * U.BITS + skip + (last - first) * T.BITS) }
    ensures size { length words.new ≡ length words.old }
{
    each_shift!(skip, by => combine_after::<F, T, O, U, P>(words, first, last, source, begin, by));
}

// Whether this many words are made faster by a table: words of one width, in an order that does not go by shifts.
// Of narrow words the compiler makes several at once, but for those that are shifted out of such an order.
#[inline(always)]
fn goes_by_table<T: BitStore, O: BitOrder, U: BitStore, P: BitOrder>(skip: u8, words: usize) -> bool
    ensures { result ≡ true → U.BITS ≡ T.BITS }
{
    if T::BITS != U::BITS || T::BITS == 8 || !PairTable::pays::<T>(words) {
        return false;
    }
    if T::BITS < 64 {
        return skip != 0 && !P::goes_by_shifts();
    }
    !O::goes_by_shifts() || !P::goes_by_shifts()
}

// Like `combine_after`, of the bits that stand as far after bit `from` of the row. Where that is a word's
// first bit no word has to be shifted, so the compiler is shown this case by itself (docs/TUNING.md, "Rows of
// words", equal heads).
fn combine_whole<F: BitOperator, T: BitStore, O: BitOrder, U: BitStore, P: BitOrder>(
    words: &mut [T],
    first: usize,
    last: usize,
    source: &[U],
    from: usize,
)
    requires ordered { first ≤ last }
    requires target { last ≤ length words.old }
    requires source { from + (last - first) * T.BITS < U.BITS * length source.now }
    requires source_fits { from + (last - first) * T.BITS < 2 ^ 64 }
    ensures bits { row T.BitStore O.BitOrder words.new
        ≡ combined_run F.made (row T.BitStore O.BitOrder words.old) (first * T.BITS) (last * T.BITS) (row U.BitStore P.BitOrder source.now) from (from + (last - first) * T.BITS) }
    ensures size { length words.new ≡ length words.old }
{
    let (begin, skip) = in_word::<U>(from);
    if T::BITS != U::BITS && O::goes_by_shifts() && P::goes_by_shifts() {
        if skip == 0 {
            combine_unlike::<F, T, O, U, P>(words, first, last, source, begin, 0);
        } else {
            combine_unlike::<F, T, O, U, P>(words, first, last, source, begin, skip);
        }
    } else if T::BITS == 8 && U::BITS == 8 && P::goes_by_shifts() {
        combine_shifted::<F, T, O, U, P>(words, first, last, source, begin, skip);
    } else if goes_by_table::<T, O, U, P>(skip, last - first) {
        combine_by_table::<F, T, O, U, P>(words, first, last, source, begin, skip);
    } else if skip == 0 {
        combine_after::<F, T, O, U, P>(words, first, last, source, begin, 0);
    } else {
        combine_after::<F, T, O, U, P>(words, first, last, source, begin, skip);
    }
}

// Like `combine_after`, of words whose bits lie in one order: those of `source` from word `begin` on. Requires that
// both kinds of words have one width and order, and that the words are there.
#[inline(always)]
fn combine_alike<F: BitOperator, T: BitStore, O: BitOrder, U: BitStore, P: BitOrder>(
    words: &mut [T],
    first: usize,
    last: usize,
    source: &[U],
    begin: usize,
)
    requires alike { AreAlike T.BITS U.BITS O.place P.place }
    requires ordered { first ≤ last }
    requires target { last ≤ length words.old }
    requires source { begin + (last - first) ≤ length source.now }
    ensures bits { row T.BitStore O.BitOrder words.new
        ≡ combined_run F.made (row T.BitStore O.BitOrder words.old) (first * T.BITS) (last * T.BITS) (row U.BitStore P.BitOrder source.now) (begin * T.BITS) (begin * T.BITS + (last - first) * T.BITS) }
    ensures size { length words.new ≡ length words.old }
{
    for k in first..last {
        let new = word_alike::<T, O, U, P>(source[begin + (k - first)]);
        words[k] = F::apply(words[k], new);
    }
}

// Combines the words `first..last`, and the bits of word `last` before index `end`, with the bits of `source` from bit
// `from` of its row on. Requires that the
// words are there, some of those bits too, and the run lies in `source`.
fn combine_ahead<F: BitOperator, T: BitStore, O: BitOrder, U: BitStore, P: BitOrder>(
    words: &mut [T],
    first: usize,
    last: usize,
    end: usize,
    source: &[U],
    from: usize,
)
    requires ordered { first ≤ last }
    requires target { last < length words.old }
    requires some { 0 < end }
    requires within { end ≤ T.BITS }
    requires source { from + (last - first) * T.BITS + end ≤ U.BITS * length source.now }
    requires source_fits { from + (last - first) * T.BITS + end < 2 ^ 64 }
    ensures bits { row T.BitStore O.BitOrder words.new
        ≡ combined_run F.made (row T.BitStore O.BitOrder words.old) (first * T.BITS) (last * T.BITS + end) (row U.BitStore P.BitOrder source.now) from (from + (last - first) * T.BITS + end) }
    ensures size { length words.new ≡ length words.old }
{
    combine_whole::<F, T, O, U, P>(words, first, last, source, from);
    let whole = (last - first) * T::BITS as usize;
    let new = word_of_run::<T, O, U, P>(source, from + whole, end as u8, 0);
    combine_part::<F, T, O>(words, last, 0, end, new);
}

// Like `combine_bits`, of runs that begin anywhere in words of any kinds.
#[inline(never)]
fn combine_apart<F: BitOperator, T: BitStore, O: BitOrder, U: BitStore, P: BitOrder>(
    words: &mut [T],
    at: usize,
    source: &[U],
    from: usize,
    n: usize,
)
    requires target { at + n ≤ T.BITS * length words.old }
    requires source { from + n ≤ U.BITS * length source.now }
    requires target_fits { at + n < 2 ^ 64 }
    requires source_fits { from + n < 2 ^ 64 }
    ensures bits { row T.BitStore O.BitOrder words.new
        ≡ combined_run F.made (row T.BitStore O.BitOrder words.old) at (at + n) (row U.BitStore P.BitOrder source.now) from (from + n) }
    ensures size { length words.new ≡ length words.old }
{
    if n == 0 {
        return;
    }
    let width = T::BITS as usize;
    let Span {
        first,
        low,
        last,
        end,
    } = Span::of::<T>(at, at + n);
    if first == last {
        let new = word_of_run::<T, O, U, P>(source, from, n as u8, low as u8);
        combine_part::<F, T, O>(words, first, low, end, new);
        return;
    }
    if low == 0 {
        combine_ahead::<F, T, O, U, P>(words, first, last, end, source, from);
        return;
    }
    let new = word_of_run::<T, O, U, P>(source, from, (width - low) as u8, low as u8);
    combine_part::<F, T, O>(words, first, low, width, new);
    combine_ahead::<F, T, O, U, P>(words, first + 1, last, end, source, from + (width - low));
}

/// Makes each of `n` bits of `words`, from `at` on, into the bit that `F` makes of it and of the bit of
/// `source` that stands as far after `from`, and changes no other bit. Requires that both runs lie in
/// their words.
#[inline(always)]
pub fn combine_bits<F: BitOperator, T: BitStore, O: BitOrder, U: BitStore, P: BitOrder>(
    words: &mut [T],
    at: usize,
    source: &[U],
    from: usize,
    n: usize,
)
    requires target { at + n ≤ T.BITS * length words.old }
    requires source { from + n ≤ U.BITS * length source.now }
    requires target_fits { at + n < 2 ^ 64 }
    requires source_fits { from + n < 2 ^ 64 }
    ensures bits { row T.BitStore O.BitOrder words.new
        ≡ combined_run F.made (row T.BitStore O.BitOrder words.old) at (at + n) (row U.BitStore P.BitOrder source.now) from (from + n) }
    ensures size { length words.new ≡ length words.old }
{
    let width = T::BITS as usize;
    if at % width != 0 || from % width != 0 || !are_alike::<T, O, U, P>() {
        combine_apart::<F, T, O, U, P>(words, at, source, from, n);
        return;
    }
    let (first, begin, whole) = (at / width, from / width, n / width);
    combine_alike::<F, T, O, U, P>(words, first, first + whole, source, begin);
    let rest = n % width;
    if rest == 0 {
        return;
    }
    let new = word_alike::<T, O, U, P>(source[begin + whole]);
    combine_part::<F, T, O>(words, first + whole, 0, rest, new);
}
