//! Bits counted and compared, by whole words.
ghost use Rattle.std.specs.Prelude.{◌≡◌, ℕ, true, ◌+◌, ◌-◌, ◌*◌, ◌/◌, ◌%◌, ◌^◌, ◌<◌, ◌≤◌, length, slice_range, not, [], ◌∷◌, if◌then◌else◌, ◌&&◌, false, ltb, slice_index_or};
ghost use Rattle.std.specs.List.{count_by};
ghost use Rattle.bit_addressing.specs.Bits.{has_bit};
ghost use Rattle.bit_addressing.specs.Typed.{row};
ghost use Rattle.bit_rows.specs.Runs.{run_at, AreAlike, AreEqualRuns, AreAll, DiffersFirst, FindsFirst};

use crate::chunks::{are_alike, block_after, followed_blocks, read_chunk, word_alike, word_number};
use crate::narrow::{chunk_short, goes_back, words_short};
use bit_addressing::inner::{Span, in_row, in_word};
use bit_addressing::{BitEnd, BitIdx, BitOrder, BitStore, Lsb0};

// The number of set bits in the words `first..last`, by blocks of 64 bits as far as they go, and bytes after them as one
// number (docs/TUNING.md, "Rows of words", count). Requires that the words are there.
fn count_words<T: BitStore, O: BitOrder>(words: &[T], first: usize, last: usize) -> usize
    requires ordered { first ≤ last }
    requires within { last ≤ length words.now }
    requires fits { last * T.BITS < 2 ^ 64 }
    ensures { result
        ≡ count_by (λ b. b)
        (slice_range (row T.BitStore O.BitOrder words.now) (first * T.BITS) (last * T.BITS)) }
{
    let each = (64 / T::BITS) as usize;
    let blocks = (last - first) / each;
    let mut count = 0;
    for t in 0..blocks {
        let block = O::pack(words, first + t * each);
        count += word_number::<u64, O>(block).count_ones() as usize;
    }
    let next = first + blocks * each;
    if T::BITS == 8 && next < last {
        let rest = words_short::<T, O>(words, next, (last - next) as u8);
        return count + rest.count_ones() as usize;
    }
    for k in next..last {
        count += word_number::<T, O>(words[k]).count_ones() as usize;
    }
    count
}

// Like `count_bits`, of the `n` bits from word `first` on: those of one word, or of a few narrow ones by two loads,
// without a loop.
#[inline(always)]
fn count_front<T: BitStore, O: BitOrder>(words: &[T], first: usize, n: usize) -> usize
    requires within { first * T.BITS + n ≤ T.BITS * length words.now }
    requires fits { first * T.BITS + n < 2 ^ 64 }
    ensures { result ≡ count_by (λ b. b) (run_at (row T.BitStore O.BitOrder words.now) (first * T.BITS) n) }
{
    let width = T::BITS as usize;
    // The bits of one word are counted as they lie.
    if n == width {
        return word_number::<T, Lsb0>(words[first]).count_ones() as usize;
    }
    if n < width {
        return read_chunk::<T, O>(words, first * width, n as u8).count_ones() as usize;
    }
    if n <= 64 && goes_back::<T, O>() {
        return chunk_short::<T, O>(words, first, n as u8).count_ones() as usize;
    }
    let last = first + n / width;
    // The words before the rest, so that the compiler still knows how few they may be.
    let whole = count_words::<T, Lsb0>(words, first, last);
    let rest = read_chunk::<T, O>(words, last * width, (n % width) as u8);
    whole + rest.count_ones() as usize
}

// Like `count_bits`, of a run that begins anywhere. A whole word has as many bits set in each order, so the
// order matters at the ends alone.
#[inline(never)]
fn count_apart<T: BitStore, O: BitOrder>(words: &[T], from: usize, upto: usize) -> usize
    requires ordered { from ≤ upto }
    requires within { upto ≤ T.BITS * length words.now }
    ensures { result ≡ count_by (λ b. b) (slice_range (row T.BitStore O.BitOrder words.now) from upto) }
{
    let width = T::BITS as usize;
    let n = upto - from;
    let edge = width - from % width;
    if n <= edge {
        return read_chunk::<T, O>(words, from, n as u8).count_ones() as usize;
    }
    let head = read_chunk::<T, O>(words, from, edge as u8);
    let rest = count_front::<T, O>(words, from / width + 1, n - edge);
    head.count_ones() as usize + rest
}

/// How many bits of the row are set at the places `from..upto`, by whole words. Requires that `from` is at most
/// `upto`, which is at most the row's length.
#[inline(always)]
pub fn count_bits<T: BitStore, O: BitOrder>(words: &[T], from: usize, upto: usize) -> usize
    requires ordered { from ≤ upto }
    requires within { upto ≤ T.BITS * length words.now }
    ensures { result ≡ count_by (λ b. b) (slice_range (row T.BitStore O.BitOrder words.now) from upto) }
{
    let width = T::BITS as usize;
    if from % width == 0 {
        return count_front::<T, O>(words, from / width, upto - from);
    }
    count_apart::<T, O>(words, from, upto)
}

// How many of the first `count` blocks of 64 bits, from index `skip` of word `k` and index `over` of word `l` on, are
// equal, by turns of 16 blocks up to one that is not. A turn is tested once, so that the compiler shifts and turns
// its words side by side (docs/TUNING.md, "Small vectors, arrays, texts and searches", `==` at other heads). Requires
// that the indices are in the words, the blocks are there, and each has another after it.
#[inline(always)]
fn equal_blocks<T: BitStore, O: BitOrder, U: BitStore, P: BitOrder>(
    a: &[T],
    k: usize,
    skip: u8,
    b: &[U],
    l: usize,
    over: u8,
    count: usize,
) -> usize
    requires index { skip < T.BITS }
    requires other_index { over < U.BITS }
    requires first { k * T.BITS + skip + count * 64 ≤ T.BITS * length a.now }
    requires second { l * U.BITS + over + count * 64 ≤ U.BITS * length b.now }
    requires more { (t : ℕ) → t < count → (k + t * (64 / T.BITS)) * T.BITS + 128 ≤ T.BITS * length a.now }
    requires other_more { (t : ℕ) → t < count → (l + t * (64 / U.BITS)) * U.BITS + 128 ≤ U.BITS * length b.now }
    ensures most { result ≤ count }
    ensures alike { AreEqualRuns (row T.BitStore O.BitOrder a.now) (k * T.BITS + skip) (row U.BitStore P.BitOrder b.now) (l * U.BITS + over) (result * 64) }
{
    for t in 0..count / 16 {
        let done = t * 16;
        let mut apart = 0u64;
        for i in 0..16 {
            let left = block_after::<O, T, O>(a, k, skip, done + i);
            let right = block_after::<O, U, P>(b, l, over, done + i);
            apart = apart.or(left.xor(right));
        }
        if apart != 0 {
            return done;
        }
    }
    count / 16 * 16
}

// Like `differ_at`, from index `skip` of word `k` and index `over` of word `l` on. It is inlined, and compiled apart
// for runs that begin at a word's first bit.
#[inline(always)]
fn differ_from<T: BitStore, O: BitOrder, U: BitStore, P: BitOrder>(
    a: &[T],
    k: usize,
    skip: u8,
    b: &[U],
    l: usize,
    over: u8,
    n: usize,
) -> Option<usize>
    requires index { skip < T.BITS }
    requires other_index { over < U.BITS }
    requires first { k * T.BITS + skip + n ≤ T.BITS * length a.now }
    requires second { l * U.BITS + over + n ≤ U.BITS * length b.now }
    requires first_fits { k * T.BITS + skip + n < 2 ^ 64 }
    requires second_fits { l * U.BITS + over + n < 2 ^ 64 }
    ensures { DiffersFirst result (run_at (row T.BitStore O.BitOrder a.now) (k * T.BITS + skip) n) (run_at (row U.BitStore P.BitOrder b.now) (l * U.BITS + over) n) }
{
    let (i, j) = (in_row::<T>(k, skip), in_row::<U>(l, over));
    let room = followed_blocks::<T>(a.len(), k).min(followed_blocks::<U>(b.len(), l));
    let blocks = room.min(n / 64);
    let start = equal_blocks::<T, O, U, P>(a, k, skip, b, l, over, blocks);
    for t in start..blocks {
        let left = block_after::<O, T, O>(a, k, skip, t);
        let right = block_after::<O, U, P>(b, l, over, t);
        if left != right {
            let apart = word_number::<u64, O>(left) ^ word_number::<u64, O>(right);
            if apart != 0 {
                return Some(t * 64 + apart.trailing_zeros() as usize);
            }
        }
    }
    for t in blocks..n / 64 {
        let left = read_chunk::<T, O>(a, i + t * 64, 64);
        let right = read_chunk::<U, P>(b, j + t * 64, 64);
        let apart = left ^ right;
        if apart != 0 {
            return Some(t * 64 + apart.trailing_zeros() as usize);
        }
    }
    let done = n / 64 * 64;
    let rest = (n % 64) as u8;
    let left = read_chunk::<T, O>(a, i + done, rest);
    let right = read_chunk::<U, P>(b, j + done, rest);
    let apart = left ^ right;
    if apart == 0 {
        return None;
    }
    Some(done + apart.trailing_zeros() as usize)
}

// How many of the first `count` words from words `k` and `l` on are equal, by turns of `each` words up to one
// that is not. A turn is tested once, so that the compiler compares its words side by side (docs/SPEED.md,
// "The bench", equal). Requires that both kinds of words have one width and order, and that the words are
// there.
#[inline(always)]
fn equal_turns<T: BitStore, O: BitOrder, U: BitStore, P: BitOrder>(
    a: &[T],
    k: usize,
    b: &[U],
    l: usize,
    count: usize,
    each: usize,
) -> usize
    requires alike { AreAlike T.BITS U.BITS O.place P.place }
    requires some { 0 < each }
    requires first { k + count ≤ length a.now }
    requires second { l + count ≤ length b.now }
    ensures most { result ≤ count }
    ensures alike { AreEqualRuns (row T.BitStore O.BitOrder a.now) (k * T.BITS) (row U.BitStore P.BitOrder b.now) (l * T.BITS) (result * T.BITS) }
{
    for t in 0..count / each {
        let done = t * each;
        let mut apart = T::ZERO;
        for i in 0..each {
            let other = word_alike::<T, O, U, P>(b[l + (done + i)]);
            apart = apart.or(a[k + (done + i)].xor(other));
        }
        if apart.to_u64() != 0 {
            return done;
        }
    }
    count / each * each
}

// Like `equal_turns`, where the first `far` words are known to be equal.
#[inline(always)]
fn equal_after<T: BitStore, O: BitOrder, U: BitStore, P: BitOrder>(
    a: &[T],
    k: usize,
    b: &[U],
    l: usize,
    count: usize,
    far: usize,
    each: usize,
) -> usize
    requires alike { AreAlike T.BITS U.BITS O.place P.place }
    requires some { 0 < each }
    requires first { k + count ≤ length a.now }
    requires second { l + count ≤ length b.now }
    requires within { far ≤ count }
    requires known { AreEqualRuns (row T.BitStore O.BitOrder a.now) (k * T.BITS) (row U.BitStore P.BitOrder b.now) (l * T.BITS) (far * T.BITS) }
    ensures most { result ≤ count }
    ensures alike { AreEqualRuns (row T.BitStore O.BitOrder a.now) (k * T.BITS) (row U.BitStore P.BitOrder b.now) (l * T.BITS) (result * T.BITS) }
{
    far + equal_turns::<T, O, U, P>(a, k + far, b, l + far, count - far, each)
}

// Like `equal_turns`, by turns of 64 bits in narrow words, and before them by turns of 2048 and of 512 where the run
// is long.
#[inline(always)]
fn equal_front<T: BitStore, O: BitOrder, U: BitStore, P: BitOrder>(
    a: &[T],
    k: usize,
    b: &[U],
    l: usize,
    count: usize,
    long: bool,
) -> usize
    requires alike { AreAlike T.BITS U.BITS O.place P.place }
    requires first { k + count ≤ length a.now }
    requires second { l + count ≤ length b.now }
    ensures most { result ≤ count }
    ensures alike { AreEqualRuns (row T.BitStore O.BitOrder a.now) (k * T.BITS) (row U.BitStore P.BitOrder b.now) (l * T.BITS) (result * T.BITS) }
{
    let width = T::BITS as usize;
    let far = if long {
        let most = equal_turns::<T, O, U, P>(a, k, b, l, count, 2048 / width);
        equal_after::<T, O, U, P>(a, k, b, l, count, most, 512 / width)
    } else {
        0
    };
    if T::BITS == 64 {
        return far;
    }
    equal_after::<T, O, U, P>(a, k, b, l, count, far, 64 / width)
}

// The word whose bits are those of two words that differ, below index `n`. Requires that both kinds of words
// have one width and order, and at least `n` bits.
#[inline(always)]
fn first_bits_apart<T: BitStore, O: BitOrder, U: BitStore, P: BitOrder>(
    left: T,
    right: U,
    n: u8,
) -> T
    requires alike { AreAlike T.BITS U.BITS O.place P.place }
    requires few { n ≤ T.BITS }
    ensures { (i : ℕ) → i < T.BITS
        → has_bit (T.value result) (O.place T.BITS i)
        ≡ ((if slice_index_or (row T.BitStore O.BitOrder (left ∷ [])) i false then not
        (slice_index_or (row U.BitStore P.BitOrder (right ∷ [])) i false) else slice_index_or
        (row U.BitStore P.BitOrder (right ∷ [])) i false) && ltb i n) }
{
    let mask = O::mask(BitIdx::<T>::new_unchecked(0), BitEnd::<T>::new_unchecked(n));
    left.xor(word_alike::<T, O, U, P>(right)).and(mask)
}

// Like `differ_at`, from words `k` and `l` on, whose bits lie in one order: words are compared as they are,
// and many at a time where the run is long. Requires that both kinds of words have one width and order.
#[inline(always)]
fn differ_alike<T: BitStore, O: BitOrder, U: BitStore, P: BitOrder>(
    a: &[T],
    k: usize,
    b: &[U],
    l: usize,
    n: usize,
    long: bool,
) -> Option<usize>
    requires alike { AreAlike T.BITS U.BITS O.place P.place }
    requires first { k * T.BITS + n ≤ T.BITS * length a.now }
    requires second { l * T.BITS + n ≤ T.BITS * length b.now }
    requires first_fits { k * T.BITS + n < 2 ^ 64 }
    requires second_fits { l * T.BITS + n < 2 ^ 64 }
    ensures { DiffersFirst result (run_at (row T.BitStore O.BitOrder a.now) (k * T.BITS) n) (run_at (row U.BitStore P.BitOrder b.now) (l * T.BITS) n) }
{
    let width = T::BITS as usize;
    let whole = n / width;
    let start = equal_front::<T, O, U, P>(a, k, b, l, whole, long);
    for t in start..whole {
        let left = a[k + t];
        let right = word_alike::<T, O, U, P>(b[l + t]);
        if left.to_u64() != right.to_u64() {
            let apart = word_number::<T, O>(left) ^ word_number::<T, O>(right);
            if apart != 0 {
                return Some(t * width + apart.trailing_zeros() as usize);
            }
        }
    }
    let rest = (n % width) as u8;
    if rest == 0 {
        return None;
    }
    let apart = first_bits_apart::<T, O, U, P>(a[k + whole], b[l + whole], rest);
    if apart.to_u64() == 0 {
        return None;
    }
    Some(whole * width + word_number::<T, O>(apart).trailing_zeros() as usize)
}

// Like `differ_at`, of a long run from words `k` and `l` on, whose bits lie in one order.
#[inline(never)]
fn differ_long<T: BitStore, O: BitOrder, U: BitStore, P: BitOrder>(
    a: &[T],
    k: usize,
    b: &[U],
    l: usize,
    n: usize,
) -> Option<usize>
    requires alike { AreAlike T.BITS U.BITS O.place P.place }
    requires first { k * T.BITS + n ≤ T.BITS * length a.now }
    requires second { l * T.BITS + n ≤ T.BITS * length b.now }
    requires first_fits { k * T.BITS + n < 2 ^ 64 }
    requires second_fits { l * T.BITS + n < 2 ^ 64 }
    ensures { DiffersFirst result (run_at (row T.BitStore O.BitOrder a.now) (k * T.BITS) n) (run_at (row U.BitStore P.BitOrder b.now) (l * T.BITS) n) }
{
    differ_alike::<T, O, U, P>(a, k, b, l, n, true)
}

// Like `differ_at`, out of line: compiled once for runs that both begin with a word, and once for others.
#[inline(never)]
fn differ_apart<T: BitStore, O: BitOrder, U: BitStore, P: BitOrder>(
    a: &[T],
    k: usize,
    skip: u8,
    b: &[U],
    l: usize,
    over: u8,
    n: usize,
) -> Option<usize>
    requires index { skip < T.BITS }
    requires other_index { over < U.BITS }
    requires first { k * T.BITS + skip + n ≤ T.BITS * length a.now }
    requires second { l * U.BITS + over + n ≤ U.BITS * length b.now }
    requires first_fits { k * T.BITS + skip + n < 2 ^ 64 }
    requires second_fits { l * U.BITS + over + n < 2 ^ 64 }
    ensures { DiffersFirst result (run_at (row T.BitStore O.BitOrder a.now) (k * T.BITS + skip) n) (run_at (row U.BitStore P.BitOrder b.now) (l * U.BITS + over) n) }
{
    if skip == 0 && over == 0 {
        return differ_from::<T, O, U, P>(a, k, 0, b, l, 0, n);
    }
    differ_from::<T, O, U, P>(a, k, skip, b, l, over, n)
}

/// The first place at which the `n` bits of the row of `a` from `i` on and the `n` of `b` from `j` on
/// differ. None exactly where the two runs are equal. Requires that both runs lie in their words.
#[inline(always)]
pub fn differ_at<T: BitStore, O: BitOrder, U: BitStore, P: BitOrder>(
    a: &[T],
    i: usize,
    b: &[U],
    j: usize,
    n: usize,
) -> Option<usize>
    requires first { i + n ≤ T.BITS * length a.now }
    requires second { j + n ≤ U.BITS * length b.now }
    requires first_fits { i + n < 2 ^ 64 }
    requires second_fits { j + n < 2 ^ 64 }
    ensures { DiffersFirst result (run_at (row T.BitStore O.BitOrder a.now) i n) (run_at (row U.BitStore P.BitOrder b.now) j n) }
{
    let (k, skip) = in_word::<T>(i);
    let (l, over) = in_word::<U>(j);
    if skip == 0 && over == 0 && are_alike::<T, O, U, P>() {
        if n > 512 {
            return differ_long::<T, O, U, P>(a, k, b, l, n);
        }
        return differ_alike::<T, O, U, P>(a, k, b, l, n, false);
    }
    differ_apart::<T, O, U, P>(a, k, skip, b, l, over, n)
}

// Counts the leading 64-bit blocks from place `from` on that hold no `bit`, up to the last one with a block after it.
// Returns 0 for a short run, which is faster searched by chunks (docs/TUNING.md, "Rows of words", find). Requires that
// `from` is at most `upto`, which is at most the row's length.
fn blocks_without<T: BitStore, O: BitOrder>(
    words: &[T],
    from: usize,
    upto: usize,
    bit: bool,
) -> usize
    requires ordered { from ≤ upto }
    requires within { upto ≤ T.BITS * length words.now }
    ensures few { result * 64 ≤ upto - from }
    ensures others { AreAll (not bit) (row T.BitStore O.BitOrder words.now) from (result * 64) }
{
    if upto - from < 64 || upto - from < 4 * T::BITS as usize {
        return 0;
    }
    let others = if bit { 0 } else { u64::MAX };
    let run = Span::of::<T>(from, upto);
    let blocks = followed_blocks::<T>(words.len(), run.first).min((upto - from) / 64);
    for t in 0..blocks {
        if block_after::<O, T, O>(words, run.first, run.low as u8, t) != others {
            return t;
        }
    }
    blocks
}

// How many of the first `count` words from word `k` on have the bit of `other` alone, by turns of `each` words up
// to one that does not. A turn is tested once, so that the compiler takes its words side by side (docs/TUNING.md,
// "Small vectors, arrays, texts and searches", any). Requires that all bits of `other` are the same, and that the
// words are there.
fn turns_without<T: BitStore, O: BitOrder>(
    words: &[T],
    k: usize,
    count: usize,
    each: usize,
    other: T,
) -> usize
    requires some { 0 < each }
    requires within { k + count ≤ length words.now }
    requires same { (p : ℕ) → p < T.BITS → has_bit (T.value other) p ≡ has_bit (T.value other) 0 }
    ensures most { result ≤ count }
    ensures others { AreAll (has_bit (T.value other) 0) (row T.BitStore O.BitOrder words.now) (k * T.BITS) (result * T.BITS) }
{
    for t in 0..count / each {
        let done = t * each;
        let mut apart = T::ZERO;
        for i in 0..each {
            apart = apart.or(words[k + (done + i)].xor(other));
        }
        if apart.to_u64() != 0 {
            return done;
        }
    }
    count / each * each
}

// Counts the leading bits from place `from` on that are not `bit`, by turns of 1024 up to one that has it. Returns 0
// for a run that doesn't begin with a word. Requires that `from` is at most `upto`, which is at most the row's
// length.
fn bits_without<T: BitStore, O: BitOrder>(words: &[T], from: usize, upto: usize, bit: bool) -> usize
    requires ordered { from ≤ upto }
    requires within { upto ≤ T.BITS * length words.now }
    ensures few { result ≤ upto - from }
    ensures others { AreAll (not bit) (row T.BitStore O.BitOrder words.now) from result }
{
    let width = T::BITS as usize;
    if from % width != 0 {
        return 0;
    }
    let other = T::from_u64(if bit { 0 } else { u64::MAX });
    let count = (upto - from) / width;
    turns_without::<T, O>(words, from / width, count, 1024 / width, other) * width
}

// Like `find_bit`, by chunks of 64 bits.
fn find_by_chunks<T: BitStore, O: BitOrder>(
    words: &[T],
    from: usize,
    upto: usize,
    bit: bool,
) -> Option<usize>
    requires ordered { from ≤ upto }
    requires within { upto ≤ T.BITS * length words.now }
    ensures { FindsFirst result bit (slice_range (row T.BitStore O.BitOrder words.now) from upto) (upto - from) }
{
    let others = if bit { 0 } else { u64::MAX };
    let n = upto - from;
    for t in 0..n / 64 {
        let apart = read_chunk::<T, O>(words, from + t * 64, 64) ^ others;
        if apart != 0 {
            return Some(t * 64 + apart.trailing_zeros() as usize);
        }
    }
    let done = n / 64 * 64;
    let rest = (n % 64) as u8;
    if rest == 0 {
        return None;
    }
    let apart = read_chunk::<T, O>(words, from + done, rest) ^ (others >> (64 - rest));
    if apart == 0 {
        return None;
    }
    Some(done + apart.trailing_zeros() as usize)
}

// How many bits, from place `from` on, have the other bit alone: up to 1024 by blocks of 64, and those after them by
// turns of 1024 and then by blocks. Requires that `from` is at most `upto`, which is at most the row's length.
fn bits_passed<T: BitStore, O: BitOrder>(words: &[T], from: usize, upto: usize, bit: bool) -> usize
    requires ordered { from ≤ upto }
    requires within { upto ≤ T.BITS * length words.now }
    ensures few { result ≤ upto - from }
    ensures others { AreAll (not bit) (row T.BitStore O.BitOrder words.now) from result }
{
    let near = blocks_without::<T, O>(words, from, from + (upto - from).min(1024), bit) * 64;
    if near < 1024 {
        return near;
    }
    let far = near + bits_without::<T, O>(words, from + near, upto, bit);
    far + blocks_without::<T, O>(words, from + far, upto, bit) * 64
}

// Like `find_bit`, by blocks and then by chunks of 64 bits.
#[inline(never)]
fn find_after<T: BitStore, O: BitOrder>(
    words: &[T],
    from: usize,
    upto: usize,
    bit: bool,
) -> Option<usize>
    requires ordered { from ≤ upto }
    requires within { upto ≤ T.BITS * length words.now }
    ensures { FindsFirst result bit (slice_range (row T.BitStore O.BitOrder words.now) from upto) (upto - from) }
{
    let passed = bits_passed::<T, O>(words, from, upto, bit);
    let Some(at) = find_by_chunks::<T, O>(words, from + passed, upto, bit) else {
        return None;
    };
    Some(passed + at)
}

/// The first of the places `from..upto` that has this bit, counted from `from`. None exactly where there
/// is none. Requires that `from` is at most `upto`, which is at most the row's length.
#[inline(always)]
pub fn find_bit<T: BitStore, O: BitOrder>(
    words: &[T],
    from: usize,
    upto: usize,
    bit: bool,
) -> Option<usize>
    requires ordered { from ≤ upto }
    requires within { upto ≤ T.BITS * length words.now }
    ensures { FindsFirst result bit (slice_range (row T.BitStore O.BitOrder words.now) from upto) (upto - from) }
{
    if from == upto {
        return None;
    }
    let width = T::BITS as usize;
    let near = (width - from % width).min(upto - from);
    let others = if bit { 0 } else { u64::MAX };
    let apart = read_chunk::<T, O>(words, from, near as u8) ^ (others >> (64 - near));
    if apart != 0 {
        return Some(apart.trailing_zeros() as usize);
    }
    let Some(at) = find_after::<T, O>(words, from + near, upto, bit) else {
        return None;
    };
    Some(near + at)
}
