//! Searches of views: the first and the last bit of a kind, and how many of a kind are at an end.
ghost use Rattle.std.specs.Prelude.{◌≡◌, ℕ, ◌+◌, ◌-◌, ◌*◌, ◌%◌, ◌<◌, ◌≤◌, ◌&&◌, ◌↔◌, Bool, IsTrue, IfNone, IfSome, EachIndex, SomeIndex, MatchOption, Some, false, length, not, replicate, slice_get, slice_range, true};
ghost use Rattle.std.specs.List.{list_any, list_all, position, prefix_len, suffix_len};
ghost use Rattle.bit_slice.specs.BitSlice.{head_of, len_of, list_of, words_of};
ghost use Rattle.bit_slice.specs.Places.{BlocksFit, IsAbsent, IsChunk, IsLast, IsNext};

use crate::slice::BitSlice;
use bit_addressing::{BitOrder, BitStore};
use bit_rows::{find_bit, read_block, read_chunk};

impl<'a, T: BitStore, O: BitOrder> BitSlice<'a, T, O> {
    // The first index from `from` up to `upto` with this bit.
    pub(crate) fn find_next(self, from: usize, upto: usize, bit: bool) -> Option<usize>
        requires ordered { from ≤ upto }
        requires inside { upto ≤ len_of self }
        ensures { MatchOption result (IsAbsent bit (list_of self.entry) from upto)
            (λ i. IsNext bit (list_of self.entry) from upto i) }
    {
        match find_bit::<T, O>(self.words, self.head + from, self.head + upto, bit) {
            None => None,
            Some(k) => Some(from + k),
        }
    }

    // The `n` bits from index `at` on as a number. Requires that the view has them, and `n` is at most 64.
    #[inline(always)]
    pub(crate) fn chunk_at(self, at: usize, n: usize) -> u64
        requires few { n ≤ 64 }
        requires inside { at + n ≤ len_of self }
        ensures { IsChunk (list_of self.entry) at (at + n) result }
    {
        read_chunk::<T, O>(self.words, self.head + at, n as u8)
    }

    // The end of the whole blocks of 64 bits, where the list begins with one. Else 0.
    #[inline(always)]
    pub(crate) fn blocks_end(self) -> usize
        ensures { BlocksFit (head_of self.entry) 0 (len_of self.entry) result }
    {
        if self.head % 64 == 0 {
            self.len / 64 * 64
        } else {
            0
        }
    }

    // The block of 64 bits from index `at` on as a number. Requires that a block begins there.
    #[inline(always)]
    pub(crate) fn block_at(self, at: usize) -> u64
        requires begins { (head_of self + at) % 64 ≡ 0 }
        requires inside { at + 64 ≤ len_of self }
        ensures { IsChunk (list_of self.entry) at (at + 64) result }
    {
        read_block::<T, O>(self.words, self.head + at)
    }

    // Whether the 64 bits from index `at` on are all `bit`. Their words are compared as they lie, in any order. Requires
    // that a block begins there.
    #[inline(always)]
    pub(crate) fn is_block_of(self, at: usize, bit: bool) -> bool
        requires begins { (head_of self + at) % 64 ≡ 0 }
        requires inside { at + 64 ≤ len_of self }
        ensures { IsTrue result → IsAbsent (not bit) (list_of self.entry) at (at + 64) }
    {
        let all = if bit { u64::MAX } else { 0 };
        O::pack(self.words, (self.head + at) / T::BITS as usize) == all
    }

    // Like `chunk_with_one`, where the first bits are searched by the call that finds a bit.
    #[inline(never)]
    fn chunk_found(self, at: usize, upto: usize) -> (usize, usize, u64)
        requires ordered { at ≤ upto }
        requires inside { upto ≤ len_of self }
        ensures begins { at ≤ result.0 }
        ensures ends { result.1 ≤ upto }
        ensures before { IsAbsent true (list_of self.entry) at result.0 }
        ensures chunk { IsChunk (list_of self.entry) result.0 result.1 result.2 }
        ensures none { result.2 ≡ 0 → result.0 ≡ upto }
        ensures edge { result.1 < upto → (head_of self.entry + result.1) % 64 ≡ 0 }
    {
        match self.find_next(at, upto, true) {
            None => (upto, upto, 0),
            Some(i) => {
                let n = (64 - (self.head + i) % 64).min(upto - i);
                (i, i + n, self.chunk_at(i, n))
            }
        }
    }

    // Like `chunk_with_one`, where the first `n` bits are read without a search. Requires that they are at most 64 and
    // end by `upto`.
    #[inline(always)]
    fn chunk_from(self, at: usize, n: usize, upto: usize) -> (usize, usize, u64)
        requires few { n ≤ 64 }
        requires ordered { at + n ≤ upto }
        requires inside { upto ≤ len_of self }
        requires edge { at + n < upto → (head_of self + (at + n)) % 64 ≡ 0 }
        ensures begins { at ≤ result.0 }
        ensures ends { result.1 ≤ upto }
        ensures before { IsAbsent true (list_of self.entry) at result.0 }
        ensures chunk { IsChunk (list_of self.entry) result.0 result.1 result.2 }
        ensures none { result.2 ≡ 0 → result.0 ≡ upto }
        ensures edge { result.1 < upto → (head_of self.entry + result.1) % 64 ≡ 0 }
    {
        let chunk = self.chunk_at(at, n);
        if chunk != 0 {
            return (at, at + n, chunk);
        }
        self.chunk_found(at + n, upto)
    }

    // Searches a chunk that has a true bit, from index `at` on: up to 64 bits that end with a word. Returns where it
    // begins, where it ends, and its bits as a number, or `upto` twice and 0 where no bit up to there is true. The
    // bits up to the next word's end are read without a call, since most searches end there. 64 bits are read apart
    // from fewer, since that takes no length (docs/SPEED.md, "The bench", ones 67th).
    #[inline(always)]
    pub(crate) fn chunk_with_one(self, at: usize, upto: usize) -> (usize, usize, u64)
        requires ordered { at ≤ upto }
        requires inside { upto ≤ len_of self }
        ensures begins { at ≤ result.0 }
        ensures ends { result.1 ≤ upto }
        ensures before { IsAbsent true (list_of self.entry) at result.0 }
        ensures chunk { IsChunk (list_of self.entry) result.0 result.1 result.2 }
        ensures none { result.2 ≡ 0 → result.0 ≡ upto }
        ensures edge { result.1 < upto → (head_of self.entry + result.1) % 64 ≡ 0 }
    {
        if (self.head + at) % 64 == 0 && upto - at >= 64 {
            return self.chunk_from(at, 64, upto);
        }
        let near = (64 - (self.head + at) % 64).min(upto - at);
        self.chunk_from(at, near, upto)
    }

    // The last index from `from` up to `upto` with this bit, 64 at a time.
    pub(crate) fn find_last(self, from: usize, upto: usize, bit: bool) -> Option<usize>
        requires ordered { from ≤ upto }
        requires inside { upto ≤ len_of self }
        ensures { MatchOption result (IsAbsent bit (list_of self.entry) from upto)
            (λ i. IsLast bit (list_of self.entry) from upto i) }
    {
        let others = if bit { 0 } else { u64::MAX };
        let mut end = upto;
        while end > from {
            let n = (end - from).min(64);
            let chunk = read_chunk::<T, O>(self.words, self.head + end - n, n as u8);
            let apart = chunk ^ (others >> (64 - n));
            if apart != 0 {
                return Some(end - n + (63 - apart.leading_zeros() as usize));
            }
            end -= n;
        }
        None
    }
}
