//! What the writer keeps in its register, and the blocks of 64 bits that it appends to its words.
ghost use Rattle.std.specs.Prelude.{◌≡◌, ℕ, if◌then◌else◌, ◌+◌, ◌-◌, ◌*◌, ◌/◌, ◌^◌, ◌<◌, ◌≤◌, ◌%◌, ◌++◌, [], ◌∷◌, OnErr, OnOk, length, replicate, slice_range, take, vec_capacity};
ghost use Rattle.bit_addressing.specs.Bits.{has_bit};
ghost use Rattle.bit_addressing.specs.Row.{binary, number_bits, row_of};
ghost use Rattle.bit_addressing.specs.Typed.{row};

use bit_addressing::{BitIdx, BitOrder, BitStore};
use bit_rows::{append_block_in_vec, cut_words_in_vec, make_room_in_vec, read_binary};
use std::alloc::AllocError;

// The number of one digit that a bit writes.
#[inline(always)]
pub(crate) fn digit_of(bit: bool) -> u64
    ensures digits { binary 1 result ≡ bit ∷ [] }
    ensures lowest { number_bits result 1 ≡ bit ∷ [] }
    ensures value { result ≡ (if bit then 1 else 0) }
{
    if bit { 1 } else { 0 }
}

// A number each of whose `n` lowest digits is `bit`.
pub(crate) fn run_of(bit: bool, n: u8) -> u64
    requires { n ≤ 64 }
    ensures { binary n result ≡ replicate n bit }
{
    if bit { u64::MAX } else { 0 }
}

// By `k`, the number that `k` binary ones write.
static ONES: [u64; 64] = [
    0x0,
    0x1,
    0x3,
    0x7,
    0xf,
    0x1f,
    0x3f,
    0x7f,
    0xff,
    0x1ff,
    0x3ff,
    0x7ff,
    0xfff,
    0x1fff,
    0x3fff,
    0x7fff,
    0xffff,
    0x1ffff,
    0x3ffff,
    0x7ffff,
    0xfffff,
    0x1fffff,
    0x3fffff,
    0x7fffff,
    0xffffff,
    0x1ffffff,
    0x3ffffff,
    0x7ffffff,
    0xfffffff,
    0x1fffffff,
    0x3fffffff,
    0x7fffffff,
    0xffffffff,
    0x1ffffffff,
    0x3ffffffff,
    0x7ffffffff,
    0xfffffffff,
    0x1fffffffff,
    0x3fffffffff,
    0x7fffffffff,
    0xffffffffff,
    0x1ffffffffff,
    0x3ffffffffff,
    0x7ffffffffff,
    0xfffffffffff,
    0x1fffffffffff,
    0x3fffffffffff,
    0x7fffffffffff,
    0xffffffffffff,
    0x1ffffffffffff,
    0x3ffffffffffff,
    0x7ffffffffffff,
    0xfffffffffffff,
    0x1fffffffffffff,
    0x3fffffffffffff,
    0x7fffffffffffff,
    0xffffffffffffff,
    0x1ffffffffffffff,
    0x3ffffffffffffff,
    0x7ffffffffffffff,
    0xfffffffffffffff,
    0x1fffffffffffffff,
    0x3fffffffffffffff,
    0x7fffffffffffffff,
];

// The `n` lowest digits of a number. A mask out of a table is two steps where one by shifts is five, and none is left where
// a compiler sees `n`.
#[inline(always)]
pub(crate) fn low_digits(n: u8, x: u64) -> u64
    requires { n < 64 }
    ensures { result ≡ x % 2 ^ n }
{
    x & ONES[n as usize]
}

// `pending` of `count` digits with the `n` lowest digits of `x` after them.
#[inline(always)]
pub(crate) fn joined(pending: u64, count: u8, n: u8, x: u64) -> u64
    requires few { n < 64 }
    requires all { count + n ≤ 64 }
    requires small { pending < 2 ^ count }
    ensures digits { binary (count + n) result ≡ binary count pending ++ binary n x }
    ensures below { result < 2 ^ (count + n) }
    ensures value { result ≡ pending * 2 ^ n + x % 2 ^ n }
{
    (pending << n) + low_digits(n, x)
}

// `pending` of `count` digits, filled up to 64 with the lowest digits of `high`.
#[inline(always)]
pub(crate) fn filled(pending: u64, count: u8, high: u64) -> u64
    requires few { count < 64 }
    requires small { pending < 2 ^ count }
    ensures { binary 64 result ≡ binary count pending ++ binary (64 - count) high }
{
    if count == 0 {
        return high;
    }
    joined(pending, count, 64 - count, high)
}

// Like `joined`, also of 64 digits after none.
#[inline(always)]
fn joined_any(pending: u64, count: u8, n: u8, x: u64) -> u64
    requires all { count + n ≤ 64 }
    requires small { pending < 2 ^ count }
    ensures digits { binary (count + n) result ≡ binary count pending ++ binary n x }
    ensures below { result < 2 ^ (count + n) }
{
    if n == 64 {
        return x;
    }
    joined(pending, count, n, x)
}

// `pending` of `count` digits with the first `n` of the `bits` digits of `x` after them, and the others of these.
#[inline(always)]
pub(crate) fn joined_parts(pending: u64, count: u8, n: u8, x: u64, bits: u8) -> (u64, u64)
    requires all { count + n ≤ 64 }
    requires some { 0 < n }
    requires within { n ≤ bits }
    requires few { bits ≤ 64 }
    requires small { pending < 2 ^ count }
    ensures digits { binary count pending ++ binary bits x ≡ binary (count + n) result.0 ++ binary (bits - n) result.1 }
    ensures below { result.0 < 2 ^ (count + n) }
    ensures rest { result.1 < 2 ^ (bits - n) }
{
    let left = bits - n;
    (
        joined_any(pending, count, n, x >> left),
        low_digits(left, x),
    )
}

// Whether index 0 of a word is its lowest place, where the order goes by shifts: then a number whose least significant digit
// comes first lies in the words as it is. It is a hint for speed alone.
#[inline(always)]
pub(crate) fn lowest_first<O: BitOrder>() -> bool {
    O::goes_by_shifts() && O::at(BitIdx::<u64>::new_unchecked(0)).into_inner() == 0
}

// The digits of a number in reverse, by shuffles of bytes, which a processor does beside the shifts and sums of a register.
#[inline(always)]
pub(crate) fn turned(number: u64) -> u64
    ensures places { (p : ℕ) → p < 64 → has_bit result p ≡ has_bit number (63 - p) }
    ensures written { binary 64 result ≡ number_bits number 64 }
    ensures read { number_bits result 64 ≡ binary 64 number }
{
    number.reverse_pair(number).0
}

// The same. By an order whose first bit is the highest, words are reversed as well, and a compiler sees that both cancel.
#[inline(always)]
pub(crate) fn turned_in<O: BitOrder>(number: u64) -> u64
    ensures { (p : ℕ) → p < 64 → has_bit result p ≡ has_bit number (63 - p) }
{
    if lowest_first::<O>() {
        turned(number)
    } else {
        number.reverse()
    }
}

// `tail` of `tails` digits, the least significant first, with the `n` lowest digits of `x` after them.
#[inline(always)]
pub(crate) fn joined_le(tails: u8, tail: u64, n: u8, x: u64) -> u64
    requires all { tails + n < 64 }
    requires small { tail < 2 ^ tails }
    ensures digits { number_bits result (tails + n) ≡ number_bits tail tails ++ number_bits x n }
    ensures below { result < 2 ^ (tails + n) }
{
    tail + (low_digits(n, x) << tails)
}

// `tail` of `tails` digits, filled up to 64 with the lowest digits of `x`.
#[inline(always)]
pub(crate) fn filled_le(tails: u8, tail: u64, x: u64) -> u64
    requires few { tails < 64 }
    requires small { tail < 2 ^ tails }
    ensures { number_bits result 64 ≡ number_bits tail tails ++ number_bits x (64 - tails) }
{
    tail + (x << tails)
}

// What is left of `n` digits of `x` after the first `n - rest` of them.
#[inline(always)]
pub(crate) fn rest_le(n: u8, x: u64, rest: u8) -> u64
    requires few { rest < 64 }
    requires some { rest < n }
    requires all { n ≤ 64 }
    ensures digits { number_bits x n ≡ number_bits x (n - rest) ++ number_bits result rest }
    ensures below { result < 2 ^ rest }
{
    // By two shifts, so that none is by 64.
    low_digits(rest, (x >> (n - rest - 1)) >> 1)
}

// The word of 64 bits that shows the number in this order, its most significant digit first.
#[inline(always)]
pub(crate) fn block_of<O: BitOrder>(number: u64) -> u64
    ensures { row_of O.place 64 (result ∷ []) ≡ binary 64 number }
{
    O::from_lsb0(turned_in::<O>(number))
}

// The word of 64 bits that shows the number in this order, its least significant digit first.
#[inline(always)]
pub(crate) fn block_of_le<O: BitOrder>(number: u64) -> u64
    ensures { row_of O.place 64 (result ∷ []) ≡ number_bits number 64 }
{
    if lowest_first::<O>() {
        O::from_lsb0(number)
    } else {
        block_of::<O>(turned(number))
    }
}

// Word `i` of those that a block of 64 bits is made of.
#[inline(always)]
fn word_of_block<T: BitStore, O: BitOrder>(block: u64, i: u8) -> T
    requires { i < 64 / T.BITS }
    ensures { row T.BitStore O.BitOrder (result ∷ [])
        ≡ slice_range (row_of O.place 64 (block ∷ [])) (i * T.BITS) (i * T.BITS + T.BITS) }
{
    T::from_u64(O::unpack::<T>(block) >> (i * T::BITS))
}

// The bytes that show the number in this order, its most significant digit first.
#[inline(always)]
pub(crate) fn bytes_of<O: BitOrder>(number: u64) -> [u8; 8]
    ensures { row_of O.place 8 result ≡ binary 64 number }
{
    let block = block_of::<O>(number);
    [
        word_of_block::<u8, O>(block, 0),
        word_of_block::<u8, O>(block, 1),
        word_of_block::<u8, O>(block, 2),
        word_of_block::<u8, O>(block, 3),
        word_of_block::<u8, O>(block, 4),
        word_of_block::<u8, O>(block, 5),
        word_of_block::<u8, O>(block, 6),
        word_of_block::<u8, O>(block, 7),
    ]
}

// Appends a block of 64 bits as whole words.
#[inline(always)]
pub(crate) fn push_block<T: BitStore, O: BitOrder>(
    words: &mut Vec<T>,
    block: u64,
) -> Result<(), AllocError>
    ensures bits { OnOk result (row T.BitStore O.BitOrder words.new.items
        ≡ row T.BitStore O.BitOrder words.old.items ++ row_of O.place 64 (block ∷ [])) }
    ensures size { OnOk result (T.BITS * length words.new.items ≡ T.BITS * length words.old.items + 64) }
    ensures capacity { vec_capacity words.old ≤ vec_capacity words.new }
    ensures full { OnErr result (T.BITS * vec_capacity words.old < T.BITS * length words.old.items + 64) }
    ensures unchanged { OnErr result (words.new.items ≡ words.old.items) }
{
    make_room_in_vec(words, (64 / T::BITS) as usize)?;
    append_block_in_vec::<T, O>(words, block);
    Ok(())
}

// The first `n` of a number's `count` digits.
pub(crate) fn front_of(pending: u64, count: u8, n: u8) -> u64
    requires few { count < 64 }
    requires inside { n ≤ count }
    requires small { pending < 2 ^ count }
    ensures digits { binary n result ≡ take n (binary count pending) }
    ensures below { result < 2 ^ n }
{
    pending >> (count - n)
}

// Cuts the words to blocks of 64 bits below `n`, and returns the bits between these blocks and `n`: a number, and how many
// digits it has.
pub(crate) fn cut_at<T: BitStore, O: BitOrder>(words: &mut Vec<T>, n: usize) -> (u64, u8)
    requires { n ≤ T.BITS * length words.old.items }
    ensures list { row T.BitStore O.BitOrder words.new.items ++ binary result.1 result.0
        ≡ take n (row T.BitStore O.BitOrder words.old.items) }
    ensures few { result.1 < 64 }
    ensures below { result.0 < 2 ^ result.1 }
    ensures shorter { T.BITS * length words.new.items + result.1 ≡ n }
    ensures blocks { T.BITS * length words.new.items % 64 ≡ 0 }
    ensures capacity { vec_capacity words.new ≡ vec_capacity words.old }
{
    let count = (n % 64) as u8;
    let at = n - count as usize;
    let pending = read_binary::<T, O>(words.as_slice(), at, count);
    cut_words_in_vec::<T, O>(words, at);
    (pending, count)
}
