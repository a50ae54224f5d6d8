//! Where the bits of one view begin in another.
ghost use Rattle.std.specs.Prelude.{◌≡◌, ◌≢◌, ℕ, ◌+◌, ◌<◌, ◌≤◌, IfNone, IfSome, false, slice_index_or, true};
ghost use Rattle.bit_addressing.specs.Bits.{has_bit};
ghost use Rattle.bit_addressing.specs.Row.{number_bits};
ghost use Rattle.bit_slice.specs.BitSlice.{len_of, list_of};
ghost use Rattle.bit_slice.specs.Pieces.{part};
ghost use Rattle.bit_slice.specs.Places.{bit_of_two, HasAt};

use crate::ops::equal_views;
use crate::slice::BitSlice;
use bit_addressing::{BitOrder, BitStore};

// The 64 bits from place `i` on of two numbers, those of `high` after those of `low`. Requires that `i` is below 64.
#[inline(always)]
fn from_place(low: u64, high: u64, i: u8) -> u64
    requires { i < 64 }
    ensures { (p : ℕ) → p < 64 → has_bit result p ≡ bit_of_two low high (p + i) }
{
    low >> i | (high << 1) << (63 - i)
}

// The places in two numbers at which bit `i` of a pattern may stand, moved back by `i`: bit `p` of the result is true
// wherever the bit of place `p + i` is bit `i` of the pattern. Requires that `i` is below 64.
#[inline(always)]
fn agreeing(low: u64, high: u64, pattern: u64, i: u8) -> u64
    requires { i < 64 }
    ensures { (p : ℕ) → p < 64 → bit_of_two low high (p + i) ≡ has_bit pattern i → has_bit result p ≡ true }
{
    let here = from_place(low, high, i);
    let flips = if (pattern >> i) % 2 == 1 { 0 } else { !0u64 };
    here ^ flips
}

// How many bits of a pattern `first_places` compares. After 10 bits about one word in 16 still has a place, where its bits
// have no pattern, so the test after them is seldom true.
const FIRST: u8 = 10;

// Like `places`, for the first bits of a pattern alone. It has no test, and its shifts are by constants.
#[inline(always)]
fn first_places(low: u64, high: u64, pattern: u64) -> u64
    ensures { (p : ℕ) → p < 64 → HasAt low high pattern FIRST p → has_bit result p ≡ true }
{
    let mut left = !0u64;
    let mut i = 0;
    while i < FIRST {
        left &= agreeing(low, high, pattern, i);
        i += 1;
    }
    left
}

// The places in `low` at which the `m` lowest bits of a pattern may begin in two numbers: bit `p` of the result is true
// wherever they do. All places are tried at once, bit by bit of the pattern, until none is left.
#[inline(always)]
fn places(low: u64, high: u64, pattern: u64, m: u8) -> u64
    requires { m ≤ 64 }
    ensures { (p : ℕ) → p < 64 → HasAt low high pattern m p → has_bit result p ≡ true }
{
    let mut left = !0u64;
    let mut i = 0;
    if m >= FIRST {
        left = first_places(low, high, pattern);
        i = FIRST;
    }
    while i < m && left != 0 {
        left &= agreeing(low, high, pattern, i);
        i += 1;
    }
    left
}

impl<'a, T: BitStore, O: BitOrder> BitSlice<'a, T, O> {
    // The 128 bits from index `at` on as two numbers, or those that are left. Requires that `at` is at most the length.
    #[inline(always)]
    fn two_chunks(self, at: usize) -> (u64, u64)
        requires { at ≤ len_of self }
        ensures { (q : ℕ) → q < 128 → at + q < len_of self.entry
            → bit_of_two result.0 result.1 q ≡ slice_index_or (list_of self.entry) (at + q) false }
    {
        let left = self.len - at;
        let low = self.chunk_at(at, left.min(64));
        if left <= 64 {
            return (low, 0);
        }
        (low, self.chunk_at(at + 64, (left - 64).min(64)))
    }

    // How many indices from `at` on, up to 64, the `m` lowest bits of a pattern do not begin at, where they have room.
    // Requires that `at` is at most the length.
    #[inline(always)]
    fn places_without(self, at: usize, pattern: u64, m: u8) -> usize
        requires few { m ≤ 64 }
        requires inside { at ≤ len_of self }
        ensures most { result ≤ 64 }
        ensures none { (j : ℕ) → j < result → at + j + m ≤ len_of self.entry
            → part m (list_of self.entry) (at + j) ≢ number_bits pattern m }
    {
        let (low, high) = self.two_chunks(at);
        places(low, high, pattern, m).trailing_zeros() as usize
    }

    // The indices from `at` on at which the `m` lowest bits of a pattern do not begin are skipped, 64 at a time, while there
    // are 128 bits to look at: each word is read once. Requires that `at` is at most the length.
    #[inline(always)]
    fn skip_words(self, at: usize, pattern: u64, m: u8) -> usize
        requires few { m ≤ 64 }
        requires inside { at ≤ len_of self }
        ensures from { at ≤ result }
        ensures upto { result ≤ len_of self.entry }
        ensures none { (j : ℕ) → at ≤ j → j < result → j + m ≤ len_of self.entry
            → part m (list_of self.entry) j ≢ number_bits pattern m }
    {
        if self.len - at < 128 {
            return at;
        }
        let mut i = at;
        let mut low = self.chunk_at(i, 64);
        while self.len - i >= 128 {
            let high = self.chunk_at(i + 64, 64);
            if places(low, high, pattern, m) != 0 {
                return i;
            }
            low = high;
            i += 64;
        }
        i
    }

    // The first index at which the bits of `other` begin: 64 at a time by its first bits, and what may begin there is
    // compared.
    pub(crate) fn find_part<U: BitStore, P: BitOrder>(
        self,
        other: BitSlice<'_, U, P>,
    ) -> Option<usize>
        ensures inside { IfSome result (λ i. i + len_of other.entry ≤ len_of self.entry) }
        ensures found { IfSome result (λ i. part (len_of other.entry) (list_of self.entry) i ≡ list_of other.entry) }
        ensures before { IfSome result
            (λ i. (j : ℕ) → j < i → part (len_of other.entry) (list_of self.entry) j ≢ list_of other.entry) }
        ensures none { IfNone result ((j : ℕ) → j + len_of other.entry ≤ len_of self.entry
            → part (len_of other.entry) (list_of self.entry) j ≢ list_of other.entry) }
    {
        let n = other.len;
        let m = n.min(64);
        let pattern = other.chunk_at(0, m);
        let mut at = 0;
        while at + n <= self.len {
            at = self.skip_words(at, pattern, m as u8);
            // Up to where 64 bits of whole words begin, since only those are read without a call.
            let step = 64 - (self.head + at) % 64;
            let skip = self.places_without(at, pattern, m as u8).min(step);
            at += skip;
            if skip < step {
                if at + n > self.len {
                    return None;
                }
                if equal_views(self.get_range(at..at + n), other) {
                    return Some(at);
                }
                at += 1;
            }
        }
        None
    }
}
