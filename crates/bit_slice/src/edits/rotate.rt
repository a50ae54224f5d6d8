//! Rotates runs of bits: the first bits of a run change places with the others.
ghost use Rattle.std.specs.Prelude.{◌≡◌, ◌+◌, ◌*◌, ◌-◌, ◌^◌, ◌<◌, ◌≤◌, [], ◌∷◌, ◌++◌, drop, length, slice_range, take, IfSome, min};
ghost use Rattle.bit_addressing.specs.Row.{put};
ghost use Rattle.bit_addressing.specs.Table.{IsPairTable};
ghost use Rattle.bit_addressing.specs.declared.length.TheConstants.{MAX_BITS};
ghost use Rattle.bit_addressing.specs.Typed.{row};

use bit_addressing::inner::{PairTable, in_word, window_by};
use bit_addressing::{BitIdx, BitOrder, BitStore, each_shift, move_bits};
use bit_rows::{copy_bits, read_chunk, write_chunk};

// Like `rotate_bits`, where `kept` has room for the bits that move after the others: they are kept there while the
// others move.
fn rotate_few<T: BitStore, O: BitOrder>(
    words: &mut [T],
    head: usize,
    len: usize,
    by: usize,
    kept: &mut [u64],
)
    requires room { T.BITS * length words.old ≤ MAX_BITS + 2 * T.BITS }
    requires within { head + len ≤ T.BITS * length words.old }
    requires inside { by ≤ len }
    requires few { by ≤ 64 * length kept.old }
    ensures bits { let bits = slice_range (row T.BitStore O.BitOrder words.old) head (head + len)
        in row T.BitStore O.BitOrder words.new
        ≡ put (row T.BitStore O.BitOrder words.old) head (drop by bits ++ take by bits) }
    ensures size { length words.new ≡ length words.old }
{
    copy_bits::<u64, O, T, O>(kept, 0, words, head, by);
    move_bits::<T, O>(words, head + by, head, len - by);
    copy_bits::<T, O, u64, O>(words, head + (len - by), kept, 0, by);
}

// Like `rotate_bits`, where `kept` has room for the others: they are kept there while the first bits move.
fn rotate_all_but_few<T: BitStore, O: BitOrder>(
    words: &mut [T],
    head: usize,
    len: usize,
    by: usize,
    kept: &mut [u64],
)
    requires room { T.BITS * length words.old ≤ MAX_BITS + 2 * T.BITS }
    requires within { head + len ≤ T.BITS * length words.old }
    requires inside { by ≤ len }
    requires few { len - by ≤ 64 * length kept.old }
    ensures bits { let bits = slice_range (row T.BitStore O.BitOrder words.old) head (head + len)
        in row T.BitStore O.BitOrder words.new
        ≡ put (row T.BitStore O.BitOrder words.old) head (drop by bits ++ take by bits) }
    ensures size { length words.new ≡ length words.old }
{
    let rest = len - by;
    copy_bits::<u64, O, T, O>(kept, 0, words, head + by, rest);
    move_bits::<T, O>(words, head, head + rest, by);
    copy_bits::<T, O, u64, O>(words, head, kept, 0, rest);
}

// Like `rotate_bits`, where `kept` has room for one of the two sides.
fn rotate_kept<T: BitStore, O: BitOrder>(
    words: &mut [T],
    head: usize,
    len: usize,
    by: usize,
    kept: &mut [u64],
)
    requires room { T.BITS * length words.old ≤ MAX_BITS + 2 * T.BITS }
    requires within { head + len ≤ T.BITS * length words.old }
    requires inside { by ≤ len }
    requires few { min by (len - by) ≤ 64 * length kept.old }
    ensures bits { let bits = slice_range (row T.BitStore O.BitOrder words.old) head (head + len)
        in row T.BitStore O.BitOrder words.new
        ≡ put (row T.BitStore O.BitOrder words.old) head (drop by bits ++ take by bits) }
    ensures size { length words.new ≡ length words.old }
{
    if by <= len - by {
        rotate_few::<T, O>(words, head, len, by, kept);
    } else {
        rotate_all_but_few::<T, O>(words, head, len, by, kept);
    }
}

// Like `rotate_bits`, where one of the two sides has at most 64 bits: they are kept as a number while the other moves.
fn rotate_chunk<T: BitStore, O: BitOrder>(words: &mut [T], head: usize, len: usize, by: usize)
    requires room { T.BITS * length words.old ≤ MAX_BITS + 2 * T.BITS }
    requires within { head + len ≤ T.BITS * length words.old }
    requires inside { by ≤ len }
    requires few { min by (len - by) ≤ 64 }
    ensures bits { let bits = slice_range (row T.BitStore O.BitOrder words.old) head (head + len)
        in row T.BitStore O.BitOrder words.new
        ≡ put (row T.BitStore O.BitOrder words.old) head (drop by bits ++ take by bits) }
    ensures size { length words.new ≡ length words.old }
{
    let rest = len - by;
    if by <= rest {
        let kept = read_chunk::<T, O>(words, head, by as u8);
        move_bits::<T, O>(words, head + by, head, rest);
        write_chunk::<T, O>(words, head + rest, by as u8, kept);
    } else {
        let kept = read_chunk::<T, O>(words, head + by, rest as u8);
        move_bits::<T, O>(words, head, head + rest, by);
        write_chunk::<T, O>(words, head, rest as u8, kept);
    }
}

// Exchanges two slices of one length, one of them shifted: `shifted` gets the bits of `plain` and of the word `next`
// after it, from index `at` on, and `plain` gets the words of `shifted`. Each word is read and written once.
#[inline(always)]
fn exchange_by<T: BitStore, O: BitOrder>(
    shifted: &mut [T],
    plain: &mut [T],
    next: T,
    at: u8,
    table: Option<&PairTable>,
)
    requires table { IfSome table
        (λ t. IsPairTable (O.place T.BITS) (O.place T.BITS) T.BITS at t.now.low t.now.high) }
    requires within { at < T.BITS }
    requires same { length shifted.old ≡ length plain.old }
    requires some { 0 < length plain.old }
    ensures shifted { row T.BitStore O.BitOrder shifted.new
        ≡ slice_range (row T.BitStore O.BitOrder (plain.old ++ next ∷ [])) at (at + T.BITS * length plain.old) }
    ensures plain { row T.BitStore O.BitOrder plain.new ≡ row T.BitStore O.BitOrder shifted.old }
    ensures shifted_size { length shifted.new ≡ length shifted.old }
    ensures plain_size { length plain.new ≡ length plain.old }
{
    let index = BitIdx::<T>::new_unchecked(at);
    let end = plain.len() - 1;
    for i in 0..end {
        let word = shifted[i];
        shifted[i] = window_by::<T, O>(table, plain[i], plain[i + 1], index);
        plain[i] = word;
    }
    let word = shifted[end];
    shifted[end] = window_by::<T, O>(table, plain[end], next, index);
    plain[end] = word;
}

// Like `exchange_by`, by a table that is made here (docs/TUNING.md, "An order that a user writes").
#[inline(never)]
fn exchange_by_table<T: BitStore, O: BitOrder>(shifted: &mut [T], plain: &mut [T], next: T, at: u8)
    requires within { at < T.BITS }
    requires same { length shifted.old ≡ length plain.old }
    requires some { 0 < length plain.old }
    ensures shifted { row T.BitStore O.BitOrder shifted.new
        ≡ slice_range (row T.BitStore O.BitOrder (plain.old ++ next ∷ [])) at (at + T.BITS * length plain.old) }
    ensures plain { row T.BitStore O.BitOrder plain.new ≡ row T.BitStore O.BitOrder shifted.old }
    ensures shifted_size { length shifted.new ≡ length shifted.old }
    ensures plain_size { length plain.new ≡ length plain.old }
{
    let table = PairTable::new::<T, O, T, O>(at);
    exchange_by::<T, O>(shifted, plain, next, at, Some(&table));
}

// Like `exchange_by`, by the fastest way for the words and the order. The slices are arguments of a function that is
// not inlined, so the compiler knows that no word is in both.
#[inline(never)]
fn exchange<T: BitStore, O: BitOrder>(shifted: &mut [T], plain: &mut [T], next: T, at: u8)
    requires within { at < T.BITS }
    requires same { length shifted.old ≡ length plain.old }
    requires some { 0 < length plain.old }
    ensures shifted { row T.BitStore O.BitOrder shifted.new
        ≡ slice_range (row T.BitStore O.BitOrder (plain.old ++ next ∷ [])) at (at + T.BITS * length plain.old) }
    ensures plain { row T.BitStore O.BitOrder plain.new ≡ row T.BitStore O.BitOrder shifted.old }
    ensures shifted_size { length shifted.new ≡ length shifted.old }
    ensures plain_size { length plain.new ≡ length plain.old }
{
    if at == 0 {
        shifted.swap_with_slice(plain);
    } else if T::BITS == 8 && O::goes_by_shifts() {
        each_shift!(at, by => exchange_by::<T, O>(shifted, plain, next, by, None));
    } else if O::goes_by_shifts() || !PairTable::pays::<T>(plain.len()) {
        exchange_by::<T, O>(shifted, plain, next, at, None);
    } else {
        exchange_by_table::<T, O>(shifted, plain, next, at);
    }
}

// Exchanges the `count` words from word `first` on with the `count` words after them, whose bits are taken from index
// `at` on. Requires a word after these where `at` is not 0.
fn exchange_up<T: BitStore, O: BitOrder>(words: &mut [T], first: usize, count: usize, at: u8)
    requires some { 0 < count }
    requires within { at < T.BITS }
    requires inside { first + 2 * count ≤ length words.old }
    requires next { 0 < at → first + 2 * count < length words.old }
    ensures bits { let bits = row T.BitStore O.BitOrder words.old in let size = count * T.BITS in
        let low = first * T.BITS in let high = low + size
        in row T.BitStore O.BitOrder words.new
        ≡ put (put bits low (slice_range bits (high + at) (high + at + size))) high (slice_range bits low high) }
    ensures size { length words.new ≡ length words.old }
{
    let next = if at == 0 {
        words[first]
    } else {
        words[first + 2 * count]
    };
    let (_, run) = words.split_at_mut(first);
    let (low, others) = run.split_at_mut(count);
    let (high, _) = others.split_at_mut(count);
    exchange::<T, O>(low, high, next, at);
}

// Exchanges the `count` words from word `first` on, whose bits are taken from index `at` on, with the `count` words
// after them.
fn exchange_down<T: BitStore, O: BitOrder>(words: &mut [T], first: usize, count: usize, at: u8)
    requires some { 0 < count }
    requires within { at < T.BITS }
    requires inside { first + 2 * count ≤ length words.old }
    ensures bits { let bits = row T.BitStore O.BitOrder words.old in let size = count * T.BITS in
        let low = first * T.BITS in let high = low + size
        in row T.BitStore O.BitOrder words.new
        ≡ put (put bits low (slice_range bits high (high + size))) high (slice_range bits (low + at) (low + at + size)) }
    ensures size { length words.new ≡ length words.old }
{
    let next = words[first + count];
    let (_, run) = words.split_at_mut(first);
    let (low, others) = run.split_at_mut(count);
    let (high, _) = others.split_at_mut(count);
    exchange::<T, O>(high, low, next, at);
}

// Moves the `by` bits from `head` on after the bits that follow them, as many as `count` words have: the first go up by
// whole words, and the others down by `by` places. The bits at the edges of words are kept meanwhile. Requires that
// `count` is the number of whole words that `by` bits fill.
fn carry_up<T: BitStore, O: BitOrder>(words: &mut [T], head: usize, by: usize, count: usize)
    requires some { 0 < count }
    requires whole { count * T.BITS ≤ by }
    requires rest { by < count * T.BITS + T.BITS }
    requires within { head + (by + count * T.BITS) ≤ T.BITS * length words.old }
    requires fits { T.BITS * length words.old < 2 ^ 64 }
    ensures bits { let bits = slice_range (row T.BitStore O.BitOrder words.old) head (head + (by + count * T.BITS))
        in row T.BitStore O.BitOrder words.new
        ≡ put (row T.BitStore O.BitOrder words.old) head (drop by bits ++ take by bits) }
    ensures size { length words.new ≡ length words.old }
{
    let (first, skip) = in_word::<T>(head);
    let start = head - skip as usize;
    let size = count * T::BITS as usize;
    let at = (by - size) as u8;
    let begin = read_chunk::<T, O>(words, start, skip);
    let end = read_chunk::<T, O>(words, start + by, skip);
    let middle = read_chunk::<T, O>(words, start + by + size, skip);
    let rest = read_chunk::<T, O>(words, start + size, at);
    exchange_up::<T, O>(words, first, count, at);
    write_chunk::<T, O>(words, start + size + size, at, rest);
    write_chunk::<T, O>(words, start, skip, begin);
    write_chunk::<T, O>(words, start + size, skip, middle);
    write_chunk::<T, O>(words, start + by + size, skip, end);
}

// Moves the `n` bits that end at `end` before the bits that precede them, as many as `count` words have: the last go
// down by whole words, and the others up by `n` places. The bits at the edges of words are kept meanwhile. Requires that
// `count` is the least number of words for `n` bits.
fn carry_down<T: BitStore, O: BitOrder>(words: &mut [T], end: usize, n: usize, count: usize)
    requires some { 0 < count }
    requires full { T.BITS ≤ n }
    requires whole { n ≤ count * T.BITS }
    requires least { count * T.BITS < n + T.BITS }
    requires inside { n + count * T.BITS ≤ end }
    requires within { end ≤ T.BITS * length words.old }
    requires fits { T.BITS * length words.old < 2 ^ 64 }
    ensures bits { let size = count * T.BITS in let head = end - (n + size) in
        let bits = slice_range (row T.BitStore O.BitOrder words.old) head (head + (n + size))
        in row T.BitStore O.BitOrder words.new
        ≡ put (row T.BitStore O.BitOrder words.old) head (drop size bits ++ take size bits) }
    ensures size { length words.new ≡ length words.old }
{
    let size = count * T::BITS as usize;
    let at = (size - n) as u8;
    let (last, skip) = least_words::<T>(end);
    let head = end - (n + size);
    let start = head + skip as usize - at as usize;
    let begin = read_chunk::<T, O>(words, head + size, skip);
    let middle = read_chunk::<T, O>(words, head, skip);
    let rest = read_chunk::<T, O>(words, end, skip);
    let before = read_chunk::<T, O>(words, start, at);
    exchange_down::<T, O>(words, last - 2 * count, count, at);
    write_chunk::<T, O>(words, start, at, before);
    write_chunk::<T, O>(words, head, skip, begin);
    write_chunk::<T, O>(words, head + n, skip, middle);
    write_chunk::<T, O>(words, end, skip, rest);
}

// The least number of words for `n` bits, and how many bits more they have.
fn least_words<T: BitStore>(n: usize) -> (usize, u8)
    requires fits { n + T.BITS ≤ 2 ^ 64 }
    ensures whole { result.0 * T.BITS ≡ n + result.1 }
    ensures within { result.1 < T.BITS }
{
    let (count, index) = in_word::<T>(n + (T::BITS - 1) as usize);
    (count, T::BITS - 1 - index)
}

// Like `rotate_bits`, where one of the two sides has at most 131072 bits, which are kept while the other moves. The
// room for them is filled with zeros first, so a short side gets a small one.
fn rotate_once<T: BitStore, O: BitOrder>(words: &mut [T], head: usize, len: usize, by: usize)
    requires room { T.BITS * length words.old ≤ MAX_BITS + 2 * T.BITS }
    requires within { head + len ≤ T.BITS * length words.old }
    requires inside { by ≤ len }
    requires few { min by (len - by) ≤ 131072 }
    ensures bits { let bits = slice_range (row T.BitStore O.BitOrder words.old) head (head + len)
        in row T.BitStore O.BitOrder words.new
        ≡ put (row T.BitStore O.BitOrder words.old) head (drop by bits ++ take by bits) }
    ensures size { length words.new ≡ length words.old }
{
    let few = by.min(len - by);
    if few <= 8192 {
        rotate_kept::<T, O>(words, head, len, by, &mut [0u64; 128]);
    } else if few <= 65536 {
        rotate_kept::<T, O>(words, head, len, by, &mut [0u64; 1024]);
    } else {
        rotate_kept::<T, O>(words, head, len, by, &mut [0u64; 2048]);
    }
}

// Like `rotate_bits`, of many bits: the shorter side is carried to its place by whole words, past as many bits of the
// other as it has, until what is left on one side is better kept (docs/TUNING.md, "Rotations").
#[inline(never)]
fn rotate_long<T: BitStore, O: BitOrder>(words: &mut [T], head: usize, len: usize, by: usize)
    requires room { T.BITS * length words.old ≤ MAX_BITS + 2 * T.BITS }
    requires within { head + len ≤ T.BITS * length words.old }
    requires inside { by ≤ len }
    ensures bits { let bits = slice_range (row T.BitStore O.BitOrder words.old) head (head + len)
        in row T.BitStore O.BitOrder words.new
        ≡ put (row T.BitStore O.BitOrder words.old) head (drop by bits ++ take by bits) }
    ensures size { length words.new ≡ length words.old }
{
    let (mut at, mut left, mut front) = (head, len, by);
    while front.min(left - front) > (left / 4).max(8192).min(131072) {
        let back = left - front;
        let (count, rest) = in_word::<T>(front);
        let size = front - rest as usize;
        if size <= back {
            carry_up::<T, O>(words, at, front, count);
            at += size;
            left -= size;
        } else {
            let (count, more) = least_words::<T>(back);
            carry_down::<T, O>(words, at + left, back, count);
            left -= back + more as usize;
            front -= back + more as usize;
        }
    }
    rotate_once::<T, O>(words, at, left, front);
}

// Moves the first `by` of the `len` bits of the words' row from `head` on after the others: by one move where one side
// is short, which is kept meanwhile, else by exchanges of whole words first. No other bit changes. Requires that the
// run lies in the words, and `by` is at most its length.
pub(crate) fn rotate_bits<T: BitStore, O: BitOrder>(
    words: &mut [T],
    head: usize,
    len: usize,
    by: usize,
)
    requires room { T.BITS * length words.old ≤ MAX_BITS + 2 * T.BITS }
    requires within { head + len ≤ T.BITS * length words.old }
    requires inside { by ≤ len }
    ensures bits { let bits = slice_range (row T.BitStore O.BitOrder words.old) head (head + len)
        in row T.BitStore O.BitOrder words.new
        ≡ put (row T.BitStore O.BitOrder words.old) head (drop by bits ++ take by bits) }
    ensures size { length words.new ≡ length words.old }
{
    let few = by.min(len - by);
    if few <= 64 {
        rotate_chunk::<T, O>(words, head, len, by);
    } else if few <= 2048 {
        rotate_kept::<T, O>(words, head, len, by, &mut [0u64; 32]);
    } else {
        rotate_long::<T, O>(words, head, len, by);
    }
}
