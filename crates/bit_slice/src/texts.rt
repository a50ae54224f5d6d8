//! The texts of a list of bits, written many digits at a time, and its hash.
ghost use Rattle.std.specs.Prelude.{◌≡◌, ℕ, ◌+◌, ◌*◌, ◌<◌, ◌≤◌, [], ◌∷◌, ◌++◌, length, map, take, slice_range, IfOk, OnErr, OnOk};
ghost use Rattle.std.specs.Fmt.{WritesStyledOnOk, digit_glyph};
ghost use Rattle.std.specs.List.{fold};
ghost use Rattle.std.specs.Str.{IsAscii};
ghost use Rattle.std.specs.String.{string_bytes};
ghost use Rattle.bit_addressing.specs.Row.{binary, number_bits, words_for};
ghost use Rattle.bit_addressing.specs.Text.{list_text, digit_of};
ghost use Rattle.bit_addressing.specs.Bits.{has_bit};
ghost use Rattle.bit_addressing.specs.Binary.{value_after};
ghost use Rattle.bit_slice.specs.BitSlice.{len_of, list_of};
ghost use Rattle.bit_slice.specs.Comparisons.{bits_fed};
ghost use Rattle.bit_slice.specs.Texts.{IsDigitSize, digits_from, digits_text, spaced};

use crate::slice::BitSlice;
use bit_addressing::{BitOrder, BitStore};
use bit_rows::{read_binary, read_chunk};
use std::alloc::{AllocError, Global};
use std::fmt;
use std::hash::{Hash, Hasher};

// How many ASCII characters are collected for one call of the writer.
const PIECE: usize = 240;

// Puts a character after the first `at`. Requires that there is room, and it is ASCII.
fn put(piece: &mut [u8; PIECE], at: usize, byte: u8)
    requires room { at < PIECE }
    requires ascii { byte < 128 }
    ensures text { take (at + 1) piece.new ≡ take at piece.old ++ byte ∷ [] }
    ensures ascii { IsAscii (take at piece.old) → IsAscii (take (at + 1) piece.new) }
{
    piece[at] = byte;
}

// The first `n` characters as text.
fn text_of(piece: &[u8; PIECE], n: usize) -> &str
    requires within { n ≤ PIECE }
    requires ascii { IsAscii (take n piece.now) }
    ensures { result.now ≡ take n piece.now }
{
    unsafe { std::str::from_utf8_unchecked(&piece[..n]) }
}

// The digit of bit `k` of a number.
fn digit_at(chunk: u64, k: u8) -> u8
    requires { k < 64 }
    ensures value { result ≡ digit_of (has_bit chunk k) }
    ensures ascii { result < 128 }
{
    if (chunk >> k) & 1 == 1 { b'1' } else { b'0' }
}

// Writes `n` bits from index `from` on, each after a comma and a space.
fn write_more<T: BitStore, O: BitOrder, W: fmt::Write>(
    view: BitSlice<'_, T, O>,
    from: usize,
    n: u8,
    f: &mut fmt::Formatter<W>,
) -> fmt::Result
    requires few { n ≤ 64 }
    requires within { from + n ≤ len_of view }
    ensures { WritesStyledOnOk W.write_str_gives f.old result
        (spaced (slice_range (list_of view.entry) from (from + n))) f.new }
{
    let chunk = read_chunk::<T, O>(view.as_raw_slice(), view.head() + from, n);
    let mut piece = [0; PIECE];
    for k in 0..n {
        let at = k as usize * 3;
        put(&mut piece, at, b',');
        put(&mut piece, at + 1, b' ');
        put(&mut piece, at + 2, digit_at(chunk, k));
    }
    f.write_str(text_of(&piece, n as usize * 3))
}

/// Writes the list of a view: `[`, its digits joined by `, `, and `]`, 64 bits at each call of the writer.
/// Flags and widths have no effect. Takes no memory.
pub fn write_list<T: BitStore, O: BitOrder, W: fmt::Write>(
    view: BitSlice<'_, T, O>,
    f: &mut fmt::Formatter<W>,
) -> fmt::Result
    ensures { WritesStyledOnOk W.write_str_gives f.old result (list_text (list_of view.entry)) f.new }
{
    f.write_str("[")?;
    if view.len() == 0 {
        return f.write_str("]");
    }
    f.write_str(if view.bit(0) { "1" } else { "0" })?;
    let more = view.len() - 1;
    for t in 0..more / 64 {
        write_more(view, 1 + t * 64, 64, f)?;
    }
    write_more(view, 1 + more / 64 * 64, (more % 64) as u8, f)?;
    f.write_str("]")
}

// Appends the digits of `n` bits from index `from` on.
fn push_digits<T: BitStore, O: BitOrder>(
    text: &mut String,
    view: BitSlice<'_, T, O>,
    from: usize,
    n: u8,
) -> Result<(), AllocError>
    requires few { n ≤ 64 }
    requires within { from + n ≤ len_of view }
    ensures { OnOk result (string_bytes text.new
        ≡ string_bytes text.old ++ map digit_of (slice_range (list_of view.entry) from (from + n))) }
{
    let chunk = view.chunk_at(from, n as usize);
    let mut piece = [0; PIECE];
    for k in 0..n {
        put(&mut piece, k as usize, digit_at(chunk, k));
    }
    text.push_str(text_of(&piece, n as usize))
}

/// The digits of a view, as `0110`. Takes memory where there is a bit.
pub(crate) fn digits_of<T: BitStore, O: BitOrder>(
    alloc: Global,
    view: BitSlice<'_, T, O>,
) -> Result<String, AllocError>
    ensures digits { IfOk result (λ text. string_bytes text ≡ map digit_of (list_of view.entry)) }
    ensures memory { OnErr result (0 < len_of view.entry) }
{
    let mut text = String::with_capacity(alloc, view.len())?;
    let mut at = 0;
    while at < view.len() {
        let n = (view.len() - at).min(64);
        push_digits(&mut text, view, at, n as u8)?;
        at += n;
    }
    Ok(text)
}

// Of the `n` lowest bits of a number, written in binary with the most significant first, the digits
// `from..upto` as a number.
#[inline(always)]
fn value_of_bits(number: u64, n: u8, from: u8, upto: u8) -> u8
    requires some { from < upto }
    requires few { upto ≤ from + 4 }
    requires within { upto ≤ n }
    requires inside { n ≤ 64 }
    ensures value { result ≡ value_after 0 (slice_range (binary n number) from upto) }
    ensures small { result < 16 }
{
    (number >> (n - upto) & ((1 << (upto - from)) - 1)) as u8
}

// The digit of a number below 16.
#[inline(always)]
fn digit_of_value(value: u8, upper: bool) -> u8
    requires { value < 16 }
    ensures value { result ≡ digit_glyph upper value }
    ensures ascii { result < 128 }
{
    if value < 10 {
        b'0' + value
    } else if upper {
        b'A' + (value - 10)
    } else {
        b'a' + (value - 10)
    }
}

// Like `digit_of_value`, by a table, which is faster where the number may be above 9.
#[inline(always)]
fn digit_by_table(value: u8, upper: bool) -> u8
    requires { value < 16 }
    ensures value { result ≡ digit_glyph upper value }
    ensures ascii { result < 128 }
{
    if upper {
        b"0123456789ABCDEF"[value as usize]
    } else {
        b"0123456789abcdef"[value as usize]
    }
}

// Like `digit_of_value`, of a number that `size` bits write.
#[inline(always)]
fn digit_of_bits(value: u8, size: u8, upper: bool) -> u8
    requires { value < 16 }
    ensures value { result ≡ digit_glyph upper value }
    ensures ascii { result < 128 }
{
    if size < 4 {
        digit_of_value(value, upper)
    } else {
        digit_by_table(value, upper)
    }
}

// Puts the digits of `n` bits from index `from` on, in groups of `size`, the last perhaps short, after the first `at`
// characters. Requires that there is room.
#[inline(always)]
fn put_groups<T: BitStore, O: BitOrder>(
    piece: &mut [u8; PIECE],
    at: usize,
    view: BitSlice<'_, T, O>,
    size: u8,
    upper: bool,
    from: usize,
    n: u8,
)
    requires some { 0 < size }
    requires small { size ≤ 4 }
    requires few { n ≤ 60 }
    requires within { from + n ≤ len_of view }
    requires room { at + words_for size n ≤ PIECE }
    ensures text { take (at + words_for size n) piece.new ≡ take at piece.old
        ++ digits_from size upper (words_for size n) (slice_range (list_of view.entry) from (from + n)) }
    ensures ascii { IsAscii (take at piece.old) → IsAscii (take (at + words_for size n) piece.new) }
{
    let number = read_binary::<T, O>(view.as_raw_slice(), view.head() + from, n);
    for i in 0..(n + (size - 1)) / size {
        let first = i * size;
        let last = (first + size).min(n);
        let value = value_of_bits(number, n, first, last);
        put(piece, at + i as usize, digit_of_bits(value, size, upper));
    }
}

// Writes the digits of `n` bits from index `from` on, in groups of `size`, the last perhaps short.
#[inline(always)]
fn write_groups<T: BitStore, O: BitOrder, W: fmt::Write>(
    view: BitSlice<'_, T, O>,
    size: u8,
    upper: bool,
    from: usize,
    n: u8,
    f: &mut fmt::Formatter<W>,
) -> fmt::Result
    requires some { 0 < size }
    requires small { size ≤ 4 }
    requires few { n ≤ 60 }
    requires within { from + n ≤ len_of view }
    ensures { WritesStyledOnOk W.write_str_gives f.old result
        (digits_from size upper (words_for size n) (slice_range (list_of view.entry) from (from + n))) f.new }
{
    let digits = (n + (size - 1)) / size;
    let mut piece = [0; PIECE];
    put_groups(&mut piece, 0, view, size, upper, from, n);
    f.write_str(text_of(&piece, digits as usize))
}

// Like `write_groups`, of 240 bits: the fewer calls of the writer, the faster.
#[inline(always)]
fn write_blocks<T: BitStore, O: BitOrder, W: fmt::Write>(
    view: BitSlice<'_, T, O>,
    size: u8,
    upper: bool,
    from: usize,
    f: &mut fmt::Formatter<W>,
) -> fmt::Result
    requires size { IsDigitSize size }
    requires within { from + 240 ≤ len_of view }
    ensures { WritesStyledOnOk W.write_str_gives f.old result
        (digits_from size upper (4 * words_for size 60) (slice_range (list_of view.entry) from (from + 240))) f.new }
{
    let each = ((60 + (size - 1)) / size) as usize;
    let mut piece = [0; PIECE];
    for k in 0..4 {
        put_groups(&mut piece, k * each, view, size, upper, from + k * 60, 60);
    }
    f.write_str(text_of(&piece, 4 * each))
}

// Writes blocks of digits; compiled apart for each size: where the size is known, so are the shifts.
fn write_many<T: BitStore, O: BitOrder, W: fmt::Write>(
    view: BitSlice<'_, T, O>,
    size: u8,
    upper: bool,
    from: usize,
    f: &mut fmt::Formatter<W>,
) -> fmt::Result
    requires size { IsDigitSize size }
    requires within { from + 240 ≤ len_of view }
    ensures { WritesStyledOnOk W.write_str_gives f.old result
        (digits_from size upper (4 * words_for size 60) (slice_range (list_of view.entry) from (from + 240))) f.new }
{
    match size {
        1 => write_blocks(view, 1, upper, from, f),
        3 => write_blocks(view, 3, upper, from, f),
        _ => write_blocks(view, 4, upper, from, f),
    }
}

// Like `write_groups`, of 60 bits, compiled apart for each size.
fn write_sixty<T: BitStore, O: BitOrder, W: fmt::Write>(
    view: BitSlice<'_, T, O>,
    size: u8,
    upper: bool,
    from: usize,
    f: &mut fmt::Formatter<W>,
) -> fmt::Result
    requires size { IsDigitSize size }
    requires within { from + 60 ≤ len_of view }
    ensures { WritesStyledOnOk W.write_str_gives f.old result
        (digits_from size upper (words_for size 60) (slice_range (list_of view.entry) from (from + 60))) f.new }
{
    match size {
        1 => write_groups(view, 1, upper, from, 60, f),
        3 => write_groups(view, 3, upper, from, 60, f),
        _ => write_groups(view, 4, upper, from, 60, f),
    }
}

/// Writes the list of a view as digits between brackets. Each digit stands for the next `size` bits, its most
/// significant bit first, and the last for those that are left. Hexadecimal digits are in upper case where `upper` is
/// true. Each call of the writer takes the digits of up to 240 bits. Flags and widths have no effect. Takes no
/// memory. Requires that `size` is 1, 3 or 4.
pub fn write_digits<T: BitStore, O: BitOrder, W: fmt::Write>(
    view: BitSlice<'_, T, O>,
    size: u8,
    upper: bool,
    f: &mut fmt::Formatter<W>,
) -> fmt::Result
    requires { IsDigitSize size }
    ensures { WritesStyledOnOk W.write_str_gives f.old result (digits_text size upper (list_of view.entry)) f.new }
{
    f.write_str("[")?;
    let len = view.len();
    let many = len / 240;
    for t in 0..many {
        write_many(view, size, upper, t * 240, f)?;
    }
    for t in many * 4..len / 60 {
        write_sixty(view, size, upper, t * 60, f)?;
    }
    write_groups(view, size, upper, len / 60 * 60, (len % 60) as u8, f)?;
    f.write_str("]")
}

// Feeds a hasher the hash of each of the `n` lowest bits of a number, that of place 0 first. Requires that `n` is at most
// 64.
#[inline(always)]
fn hash_number<H: Hasher>(number: u64, n: u8, state: &mut H)
    requires { n ≤ 64 }
    ensures { state.new ≡ fold H.write state.old (bits_fed (number_bits number n)) }
{
    for i in 0..n {
        let bit = (number >> i) % 2 == 1;
        bit.hash(state);
    }
}

/// Feeds a hasher the hash of each bit of a view as a truth value, in order, and nothing else. Takes no
/// memory.
pub fn hash_bits<T: BitStore, O: BitOrder, H: Hasher>(view: BitSlice<'_, T, O>, state: &mut H)
    ensures { state.new ≡ fold H.write state.old (bits_fed (list_of view.entry)) }
{
    let len = view.len();
    let mut at = 0;
    while len - at >= 64 {
        hash_number(view.chunk_at(at, 64), 64, state);
        at += 64;
    }
    hash_number(view.chunk_at(at, len - at), (len - at) as u8, state);
}
