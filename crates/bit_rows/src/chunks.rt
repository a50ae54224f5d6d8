//! Runs of up to 64 bits as numbers, whatever the words and the order that they lie in.
//!
//! Calls between words of two types or orders go through these numbers, 64 bits at a time.
ghost use Rattle.std.specs.Prelude.{◌≡◌, ℕ, true, false, ◌+◌, ◌-◌, ◌*◌, ◌/◌, ◌%◌, ◌^◌, ◌<◌, ◌≤◌, [], ◌∷◌, length};
ghost use Rattle.bit_addressing.specs.Binary.{value};
ghost use Rattle.bit_addressing.specs.Bits.{has_bit};
ghost use Rattle.bit_addressing.specs.Row.{binary, number_bits, number_of, put, row_of};
ghost use Rattle.bit_addressing.specs.Table.{IsPairTable};
ghost use Rattle.bit_addressing.specs.Typed.{row};
ghost use Rattle.bit_rows.specs.Runs.{run_at, AreAlike, AreEqualRuns};

use crate::copies::copy_bits;
use crate::narrow::{block_short, goes_back};
use crate::single::write_part;
use bit_addressing::inner::{PairTable, Span, in_row, in_word};
use bit_addressing::{BitIdx, BitOrder, BitStore, Lsb0};

// The bits of a word as a number: the bit at index `i` is at place `i`.
pub(crate) fn word_number<T: BitStore, O: BitOrder>(word: T) -> u64
    ensures { result ≡ number_of (row T.BitStore O.BitOrder (word ∷ [])) }
{
    O::to_lsb0(word).to_u64()
}

// Like `read_chunk`, word by word. Requires that there is a bit.
fn read_by_words<T: BitStore, O: BitOrder>(words: &[T], at: usize, n: u8) -> u64
    requires some { 0 < n }
    requires few { n ≤ 64 }
    requires within { at + n ≤ T.BITS * length words.now }
    ensures { result ≡ number_of (run_at (row T.BitStore O.BitOrder words.now) at n) }
{
    let width = T::BITS as usize;
    let mut k = at / width;
    let skip = (at % width) as u8;
    let mut chunk = word_number::<T, O>(words[k]) >> skip;
    let mut got = T::BITS - skip;
    while got < n {
        k += 1;
        chunk |= word_number::<T, O>(words[k]) << got;
        got += T::BITS;
    }
    chunk & (u64::MAX >> (64 - n))
}

// Like `read_chunk`, each word read once.
#[inline(never)]
fn read_over<T: BitStore, O: BitOrder>(words: &[T], at: usize, n: u8) -> u64
    requires few { n ≤ 64 }
    requires within { at + n ≤ T.BITS * length words.now }
    ensures { result ≡ number_of (run_at (row T.BitStore O.BitOrder words.now) at n) }
{
    if n == 0 {
        return 0;
    }
    let width = T::BITS as usize;
    let k = at / width;
    let skip = (at % width) as u8;
    let each = 64 / width;
    let left = words.len() - k;
    if O::goes_by_shifts() && left < each && goes_back::<T, O>() {
        let block = block_short::<T, O>(words, k, left as u8) >> skip;
        return block & (u64::MAX >> (64 - n));
    }
    if O::goes_by_shifts() && skip + n <= 64 && each <= left {
        let block = word_number::<u64, O>(O::pack(words, k)) >> skip;
        return block & (u64::MAX >> (64 - n));
    }
    if O::goes_by_shifts() && 2 * each <= left {
        let block = word_number::<u64, O>(block_at::<O, T, O>(words, k, skip));
        return block & (u64::MAX >> (64 - n));
    }
    if O::goes_by_shifts() && each < left && 0 < skip {
        let block = word_number::<u64, O>(O::pack(words, k)) >> skip;
        let last = word_number::<T, O>(words[k + each]) << (64 - skip);
        return (block | last) & (u64::MAX >> (64 - n));
    }
    read_by_words::<T, O>(words, at, n)
}

// Whether two kinds of words have one width, and their bits lie in one order.
#[inline(always)]
pub(crate) fn are_alike<T: BitStore, O: BitOrder, U: BitStore, P: BitOrder>() -> bool
    ensures { result ≡ true → AreAlike T.BITS U.BITS O.place P.place }
{
    if T::BITS != U::BITS {
        return false;
    }
    for i in 0..T::BITS {
        let place = O::at(BitIdx::<T>::new_unchecked(i)).into_inner();
        if place != P::at(BitIdx::<U>::new_unchecked(i)).into_inner() {
            return false;
        }
    }
    true
}

// The word of another kind that is alike. Requires that both kinds have one width, and their bits lie in one order.
#[inline(always)]
pub(crate) fn word_alike<T: BitStore, O: BitOrder, U: BitStore, P: BitOrder>(word: U) -> T
    requires alike { AreAlike T.BITS U.BITS O.place P.place }
    ensures { row T.BitStore O.BitOrder (result ∷ []) ≡ row U.BitStore P.BitOrder (word ∷ []) }
{
    T::from_u64(word.to_u64())
}

/// The 64 bits of the row from `at` on as a number, the first at place 0. Requires that a word begins at `at`, and that
/// the words have them.
///
/// ```text
/// of the words 01 02 03 04 05 06 07 08 by u8 and Lsb0: read_block(words, 0) == 0x0807060504030201
/// ```
#[inline(always)]
pub fn read_block<T: BitStore, O: BitOrder>(words: &[T], at: usize) -> u64
    requires begins { at % T.BITS ≡ 0 }
    requires within { at + 64 ≤ T.BITS * length words.now }
    ensures { result ≡ number_of (run_at (row T.BitStore O.BitOrder words.now) at 64) }
{
    word_number::<u64, O>(O::pack(words, at / T::BITS as usize))
}

/// The `n` bits of the row from `at` on as a number, the first at place 0. Requires that `n` is at most 64, and the
/// run lies in the words.
#[inline(always)]
pub fn read_chunk<T: BitStore, O: BitOrder>(words: &[T], at: usize, n: u8) -> u64
    requires few { n ≤ 64 }
    requires within { at + n ≤ T.BITS * length words.now }
    ensures { result ≡ number_of (run_at (row T.BitStore O.BitOrder words.now) at n) }
{
    if n == 0 {
        return 0;
    }
    let width = T::BITS as usize;
    let skip = (at % width) as u8;
    // 64 bits that begin with a narrow word are one load, without a call (docs/SPEED.md, "The bench", ones).
    if T::BITS < 64 && n == 64 && skip == 0 {
        return read_block::<T, O>(words, at);
    }
    if T::BITS - skip < n {
        return read_over::<T, O>(words, at, n);
    }
    word_number::<T, O>(words[at / width]) >> skip & (u64::MAX >> (64 - n))
}

/// Writes the `n` lowest bits of a number at the places from `at` on, that of place 0 first, and no other
/// bit: what `read_chunk` reads. Requires that `n` is at most 64, and the run lies in the words.
#[inline(always)]
pub fn write_chunk<T: BitStore, O: BitOrder>(words: &mut [T], at: usize, n: u8, chunk: u64)
    requires few { n ≤ 64 }
    requires within { at + n ≤ T.BITS * length words.old }
    requires fits { at + n < 2 ^ 64 }
    ensures bits { row T.BitStore O.BitOrder words.new
        ≡ put (row T.BitStore O.BitOrder words.old) at (number_bits chunk n) }
    ensures size { length words.new ≡ length words.old }
{
    if n == 0 {
        return;
    }
    let width = T::BITS as usize;
    let low = at % width;
    let high = low + n as usize;
    if width < high {
        write_over::<T, O>(words, at, n, chunk);
        return;
    }
    let new = word_of_run::<T, O, u64, Lsb0>(&[chunk], 0, n, low as u8);
    write_part::<T, O>(words, at / width, low, high, new);
}

// Writes at the places from `at` on `n` bits of a block of 64 bits, those from the index on that `at` has in its word, and
// no other bit. Each word that the run touches is stored by itself, since to load a block right after narrower stores takes
// longer. Requires that the run lies in the words, and the bits in the block.
#[inline(always)]
fn write_from_block<T: BitStore, O: BitOrder>(words: &mut [T], at: usize, n: u8, block: u64)
    requires some { 0 < n }
    requires block { at % T.BITS + n ≤ 64 }
    requires within { at + n ≤ T.BITS * length words.old }
    requires fits { at + n < 2 ^ 64 }
    ensures bits { row T.BitStore O.BitOrder words.new
        ≡ put (row T.BitStore O.BitOrder words.old) at (run_at (row_of O.place 64 (block ∷ [])) (at % T.BITS) n) }
    ensures size { length words.new ≡ length words.old }
{
    let width = T::BITS as usize;
    let (first, low) = in_word::<T>(at);
    let (begin, upto) = (low as usize, low as usize + n as usize);
    let front = word_of_block::<T, O>(block, 0);
    if upto <= width {
        write_part::<T, O>(words, first, begin, upto, front);
        return;
    }
    write_part::<T, O>(words, first, begin, width, front);
    let Span { last, end, .. } = Span::of::<T>(begin, upto);
    for i in 1..last as u8 {
        words[first + i as usize] = word_of_block::<T, O>(block, i);
    }
    let back = word_of_block::<T, O>(block, last as u8);
    write_part::<T, O>(words, first + last, 0, end, back);
}

// Like `write_chunk`, of bits that lie in several words: by a block of 64 bits where that holds them, and two words
// by themselves.
fn write_over<T: BitStore, O: BitOrder>(words: &mut [T], at: usize, n: u8, chunk: u64)
    requires some { 0 < n }
    requires few { n ≤ 64 }
    requires within { at + n ≤ T.BITS * length words.old }
    requires fits { at + n < 2 ^ 64 }
    ensures bits { row T.BitStore O.BitOrder words.new
        ≡ put (row T.BitStore O.BitOrder words.old) at (number_bits chunk n) }
    ensures size { length words.new ≡ length words.old }
{
    let Span {
        first,
        low,
        last,
        end,
    } = Span::of::<T>(at, at + n as usize);
    if O::goes_by_shifts() && low + n as usize <= 64 {
        let block = O::from_lsb0::<u64>(chunk << low);
        write_from_block::<T, O>(words, at, n, block);
        return;
    }
    if last != first + 1 {
        copy_bits::<T, O, u64, Lsb0>(words, at, &[chunk], 0, n as usize);
        return;
    }
    let split = T::BITS - low as u8;
    let front = word_of_run::<T, O, u64, Lsb0>(&[chunk], 0, split, low as u8);
    write_part::<T, O>(words, first, low, T::BITS as usize, front);
    let back = word_of_run::<T, O, u64, Lsb0>(&[chunk], split as usize, end as u8, 0);
    write_part::<T, O>(words, last, 0, end, back);
}

// Whether 64 bits from word `k` on lie in this many words. Requires that word `k` is there, if words have 64 bits: such
// words need no test.
#[inline(always)]
fn holds_block<T: BitStore>(words: usize, k: usize) -> bool
    requires word { T.BITS ≡ 64 → k < words }
    requires fits { k + 64 < 2 ^ 64 }
    ensures { result ≡ true → k * T.BITS + 64 ≤ T.BITS * words }
{
    T::BITS == 64 || k + (64 / T::BITS) as usize <= words
}

// Whether an order goes by shifts, and its index 0 is the highest place. It is a hint for speed alone: the number of such a
// word, turned round, is the word itself, and the compiler leaves out both turns where no shift stands between them.
#[inline(always)]
fn highest_first<O: BitOrder>() -> bool {
    O::goes_by_shifts() && O::at(BitIdx::<u64>::new_unchecked(0)).into_inner() == 63
}

// A number of 64 bits that has `n` digits of another from place `low` on, the most significant first, and no set bit
// after them. Requires that they lie in it.
#[inline(always)]
pub(crate) fn digits_from<O: BitOrder>(number: u64, n: u8, low: u8) -> u64
    requires some { 0 < n }
    requires within { low + n ≤ 64 }
    ensures digits { (i : ℕ) → i < n → has_bit result (low + i) ≡ has_bit number (n - 1 - i) }
    ensures rest { (i : ℕ) → low + n ≤ i → i < 64 → has_bit result i ≡ false }
{
    if highest_first::<O>() {
        return (number << (64 - n) >> low).reverse();
    }
    number.reverse() >> (64 - n) << low
}

// Like `write_binary`, of digits that lie in the 64 bits from the word of `at` on. Requires that there is a digit.
#[inline(always)]
fn write_digits<T: BitStore, O: BitOrder>(words: &mut [T], at: usize, n: u8, number: u64)
    requires some { 0 < n }
    requires block { at % T.BITS + n ≤ 64 }
    requires within { at + n ≤ T.BITS * length words.old }
    requires fits { at + n < 2 ^ 64 }
    ensures bits { row T.BitStore O.BitOrder words.new
        ≡ put (row T.BitStore O.BitOrder words.old) at (binary n number) }
    ensures size { length words.new ≡ length words.old }
{
    let low = (at % T::BITS as usize) as u8;
    let digits = digits_from::<O>(number, n, low);
    write_from_block::<T, O>(words, at, n, O::from_lsb0::<u64>(digits));
}

// Like `write_digits`, of digits that go on after those 64 bits. It is no part of its callers, so that these are short.
#[inline(never)]
fn write_digits_over<T: BitStore, O: BitOrder>(words: &mut [T], at: usize, n: u8, number: u64)
    requires few { n ≤ 64 }
    requires over { 64 < at % T.BITS + n }
    requires within { at + n ≤ T.BITS * length words.old }
    requires fits { at + n < 2 ^ 64 }
    ensures bits { row T.BitStore O.BitOrder words.new
        ≡ put (row T.BitStore O.BitOrder words.old) at (binary n number) }
    ensures size { length words.new ≡ length words.old }
{
    let front = 64 - (at % T::BITS as usize) as u8;
    let rest = n - front;
    write_digits::<T, O>(words, at, front, number >> rest);
    write_digits::<T, O>(words, at + front as usize, rest, number);
}

/// The number that the `n` bits of the row from `at` on write in binary, the most significant digit
/// first: each word is read once. Requires that `n` is at most 64, and the run lies in the words.
#[inline(always)]
pub fn read_binary<T: BitStore, O: BitOrder>(words: &[T], at: usize, n: u8) -> u64
    requires few { n ≤ 64 }
    requires within { at + n ≤ T.BITS * length words.now }
    ensures digits { binary n result ≡ run_at (row T.BitStore O.BitOrder words.now) at n }
    ensures value { result ≡ value (run_at (row T.BitStore O.BitOrder words.now) at n) }
    ensures below { result < 2 ^ n }
{
    if n == 0 {
        return 0;
    }
    let width = T::BITS as usize;
    let (k, skip) = (at / width, (at % width) as u8);
    if highest_first::<O>() && skip + n <= 64 && holds_block::<T>(words.len(), k) {
        let block = word_number::<u64, O>(O::pack(words, k)).reverse();
        return block << skip >> (64 - n);
    }
    if highest_first::<O>() && k + 2 * (64 / width) <= words.len() {
        let block = word_number::<u64, O>(block_at::<O, T, O>(words, k, skip)).reverse();
        return block >> (64 - n);
    }
    read_chunk::<T, O>(words, at, n).reverse() >> (64 - n)
}

/// Writes a number in binary by `n` digits at the places from `at` on, the most significant digit first,
/// and no other bit; digits above the `n` lowest are left out. What `read_binary` reads. Requires that
/// `n` is at most 64, and the run lies in the words.
#[inline(always)]
pub fn write_binary<T: BitStore, O: BitOrder>(words: &mut [T], at: usize, n: u8, number: u64)
    requires few { n ≤ 64 }
    requires within { at + n ≤ T.BITS * length words.old }
    requires fits { at + n < 2 ^ 64 }
    ensures bits { row T.BitStore O.BitOrder words.new
        ≡ put (row T.BitStore O.BitOrder words.old) at (binary n number) }
    ensures size { length words.new ≡ length words.old }
{
    if n == 0 {
        return;
    }
    let low = (at % T::BITS as usize) as u8;
    if O::goes_by_shifts() {
        if low + n <= 64 {
            write_digits::<T, O>(words, at, n, number);
            return;
        }
        write_digits_over::<T, O>(words, at, n, number);
        return;
    }
    write_chunk::<T, O>(words, at, n, number.reverse() >> (64 - n));
}

// A word whose indices from `low` on have the `n` bits of the row of `source` from `from` on.
// Requires that the indices are in the word, and the run lies in `source`.
#[inline(always)]
pub(crate) fn word_of_run<T: BitStore, O: BitOrder, U: BitStore, P: BitOrder>(
    source: &[U],
    from: usize,
    n: u8,
    low: u8,
) -> T
    requires begins { low < T.BITS }
    requires ends { low + n ≤ T.BITS }
    requires source { from + n ≤ U.BITS * length source.now }
    ensures { AreEqualRuns (row T.BitStore O.BitOrder (result ∷ [])) low (row U.BitStore P.BitOrder source.now) from n }
{
    O::from_lsb0(T::from_u64(read_chunk::<U, P>(source, from, n) << low))
}

// The word of the bits of `source` from index `skip` of word `k` on, in words of one width.
// Requires that `skip` is an index of the word, and word `k + 1` is there.
#[inline(always)]
fn word_of_window<T: BitStore, O: BitOrder, U: BitStore, P: BitOrder>(
    source: &[U],
    k: usize,
    skip: u8,
) -> T
    requires width { U.BITS ≡ T.BITS }
    requires word { k + 1 < length source.now }
    requires within { skip < U.BITS }
    ensures { row T.BitStore O.BitOrder (result ∷ []) ≡ run_at (row U.BitStore P.BitOrder source.now) (k * U.BITS + skip) U.BITS }
{
    let begin = BitIdx::<U>::new_unchecked(skip);
    let bits = P::window_lsb0(source[k], source[k + 1], begin).to_u64();
    O::from_lsb0(T::from_u64(bits))
}

// Like `word_of_window`, bit by bit (docs/TUNING.md, "An order that a user writes", the copies).
#[inline(always)]
fn word_by_bits<T: BitStore, O: BitOrder, U: BitStore, P: BitOrder>(
    source: &[U],
    k: usize,
    skip: u8,
) -> T
    requires width { U.BITS ≡ T.BITS }
    requires word { k + 1 < length source.now }
    requires within { skip < U.BITS }
    ensures { row T.BitStore O.BitOrder (result ∷ []) ≡ run_at (row U.BitStore P.BitOrder source.now) (k * U.BITS + skip) U.BITS }
{
    let (low, high) = (source[k], source[k + 1]);
    let mut word = T::ZERO;
    for i in 0..T::BITS {
        let place = O::at(BitIdx::<T>::new_unchecked(i)).into_inner();
        word = word.with_bit(place, P::bit_of_pair(low, high, skip + i));
    }
    word
}

// Like `word_of_window`, by a table that was made for `skip`.
#[inline(always)]
pub(crate) fn word_by_table<T: BitStore, O: BitOrder, U: BitStore, P: BitOrder>(
    table: &PairTable,
    source: &[U],
    k: usize,
    skip: u8,
) -> T
    requires width { U.BITS ≡ T.BITS }
    requires word { k + 1 < length source.now }
    requires within { skip < U.BITS }
    requires table { IsPairTable (O.place T.BITS) (P.place T.BITS) T.BITS skip table.now.low table.now.high }
    ensures { row T.BitStore O.BitOrder (result ∷ []) ≡ run_at (row U.BitStore P.BitOrder source.now) (k * U.BITS + skip) U.BITS }
{
    table.window::<T, O, U, P>(source[k], source[k + 1])
}

// Like `word_after`, out of words in an order that does not go by shifts.
fn word_after_by_bits<T: BitStore, O: BitOrder, U: BitStore, P: BitOrder>(
    source: &[U],
    begin: usize,
    skip: u8,
    t: usize,
) -> T
    requires within { skip < U.BITS }
    requires source { begin * U.BITS + skip + t * T.BITS + T.BITS < U.BITS * length source.now }
    requires fits { begin * U.BITS + skip + t * T.BITS + T.BITS < 2 ^ 64 }
    ensures { row T.BitStore O.BitOrder (result ∷ []) ≡ run_at (row U.BitStore P.BitOrder source.now) (begin * U.BITS + skip + t * T.BITS) T.BITS }
{
    if U::BITS == T::BITS {
        if O::goes_by_shifts() {
            return word_of_window::<T, O, U, P>(source, begin + t, skip);
        }
        return word_by_bits::<T, O, U, P>(source, begin + t, skip);
    }
    let at = in_row::<U>(begin, skip) + in_row::<T>(t, 0);
    word_of_run::<T, O, U, P>(source, at, T::BITS, 0)
}

// How many blocks of 64 bits from word `k` on have another block after them, where there are `words` words.
pub(crate) fn followed_blocks<T: BitStore>(words: usize, k: usize) -> usize
    ensures { (t : ℕ) → t < result → (k + t * (64 / T.BITS)) * T.BITS + 128 ≤ T.BITS * words }
{
    let each = (64 / T::BITS) as usize;
    (words.saturating_sub(k) / each).saturating_sub(1)
}

// The 64 bits of `source` from index `skip` of word `k` on, in the order `O`. Requires that `skip`
// is an index of the word, and the row has 128 bits from word `k` on.
#[inline(always)]
pub(crate) fn block_at<O: BitOrder, U: BitStore, P: BitOrder>(
    source: &[U],
    k: usize,
    skip: u8,
) -> u64
    requires within { skip < U.BITS }
    requires words { k * U.BITS + 128 ≤ U.BITS * length source.now }
    ensures { row_of O.place 64 (result ∷ []) ≡ run_at (row U.BitStore P.BitOrder source.now) (k * U.BITS + skip) 64 }
{
    let low = P::pack(source, k);
    let high = P::pack(source, k + (64 / U::BITS) as usize);
    let word = P::window(low, high, BitIdx::<u64>::new_unchecked(skip));
    O::from_lsb0(P::to_lsb0(word))
}

// Like `block_at`, of the bits that are `t` blocks of 64 bits further on.
#[inline(always)]
pub(crate) fn block_after<O: BitOrder, U: BitStore, P: BitOrder>(
    source: &[U],
    k: usize,
    skip: u8,
    t: usize,
) -> u64
    requires within { skip < U.BITS }
    requires words { (k + t * (64 / U.BITS)) * U.BITS + 128 ≤ U.BITS * length source.now }
    ensures { row_of O.place 64 (result ∷ []) ≡ run_at (row U.BitStore P.BitOrder source.now) (k * U.BITS + skip + t * 64) 64 }
{
    block_at::<O, U, P>(source, k + t * (64 / U::BITS) as usize, skip)
}

// The word of the bits of a block from its bit `i * T::BITS` on. Requires that the block has them.
#[inline(always)]
pub(crate) fn word_of_block<T: BitStore, O: BitOrder>(block: u64, i: u8) -> T
    requires { i < 64 / T.BITS }
    ensures { row T.BitStore O.BitOrder (result ∷ []) ≡ run_at (row_of O.place 64 (block ∷ [])) (i * T.BITS) T.BITS }
{
    T::from_u64(O::unpack::<T>(block) >> (i * T::BITS))
}

// The word of the bits of `source` from place `at` on. Requires that the row has them.
#[inline(always)]
fn word_at<T: BitStore, O: BitOrder, U: BitStore, P: BitOrder>(source: &[U], at: usize) -> T
    requires { at + T.BITS ≤ U.BITS * length source.now }
    ensures { row T.BitStore O.BitOrder (result ∷ []) ≡ run_at (row U.BitStore P.BitOrder source.now) at T.BITS }
{
    let width = U::BITS as usize;
    let k = at / width;
    if T::BITS < U::BITS && O::goes_by_shifts() && k + 1 < source.len() {
        let begin = BitIdx::<U>::new_unchecked((at % width) as u8);
        let word = P::window(source[k], source[k + 1], begin);
        return O::front::<T, U>(O::from_lsb0(P::to_lsb0(word)));
    }
    word_of_run::<T, O, U, P>(source, at, T::BITS, 0)
}

// The word of the bits of `source` that begin `t` words of type `T` after index `skip` of word `begin`.
// Requires that `skip` is an index of the word, and the row has one bit more.
#[inline(always)]
pub(crate) fn word_after<T: BitStore, O: BitOrder, U: BitStore, P: BitOrder>(
    source: &[U],
    begin: usize,
    skip: u8,
    t: usize,
) -> T
    requires within { skip < U.BITS }
    requires source { begin * U.BITS + skip + t * T.BITS + T.BITS < U.BITS * length source.now }
    requires fits { begin * U.BITS + skip + t * T.BITS + T.BITS < 2 ^ 64 }
    ensures { row T.BitStore O.BitOrder (result ∷ []) ≡ run_at (row U.BitStore P.BitOrder source.now) (begin * U.BITS + skip + t * T.BITS) T.BITS }
{
    if !P::goes_by_shifts() {
        return word_after_by_bits::<T, O, U, P>(source, begin, skip, t);
    }
    if U::BITS == T::BITS {
        return word_of_window::<T, O, U, P>(source, begin + t, skip);
    }
    if T::BITS == 64 {
        let each = (64 / U::BITS) as usize;
        let k = begin + t * each;
        if k + 2 * each <= source.len() {
            return T::from_u64(block_at::<O, U, P>(source, k, skip));
        }
    }
    let at = in_row::<U>(begin, skip) + in_row::<T>(t, 0);
    word_at::<T, O, U, P>(source, at)
}
