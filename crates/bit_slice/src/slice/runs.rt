//! The runs of equal bits of a view.
ghost use Rattle.std.specs.Prelude.{◌≡◌, ◌≢◌, ℕ, ◌+◌, ◌-◌, ◌%◌, ◌<◌, ◌≤◌, Bool, IfNone, IfSome, if◌then◌else◌, not, replicate, true, false, slice_index_or};
ghost use Rattle.bit_addressing.specs.Bits.{has_bit};
ghost use Rattle.bit_slice.specs.BitSlice.{head_of, len_of, list_of};
ghost use Rattle.bit_slice.specs.Edges.{edges_of, first_in, IsRunUpto};
ghost use Rattle.bit_slice.specs.Pieces.{part};
ghost use Rattle.bit_slice.specs.Places.{IsAbsent, IsChunk, IsChunkLeft};

use crate::slice::BitSlice;
use crate::texts::write_list;
use bit_addressing::{BitOrder, BitStore};
use std::alloc::AllocError;
use std::fmt;
use std::iter::{FusedIterator, Iterator};
use std::ops::Range;

/// A run of a list: equal bits side by side, as many as there are.
///
/// ```text
/// of 01101001: the second run is BitRun { start: 1, end: 3, bit: true }
/// ```
#[derive(Clone, Copy, PartialEq, Eq, Debug)]
pub struct BitRun {
    /// The index of its first bit.
    pub start: usize,
    /// The index after its last bit.
    pub end: usize,
    /// What each of its bits is.
    pub bit: bool,
}

impl BitRun {
    /// Its number of bits.
    ///
    /// ```text
    /// BitRun { start: 1, end: 3, bit: true }.len() == 2
    /// ```
    pub fn len(self) -> usize
        ensures { result ≡ self.end - self.start }
    {
        self.end.saturating_sub(self.start)
    }

    /// The indices of its bits.
    ///
    /// ```text
    /// BitRun { start: 1, end: 3, bit: true }.range() == (1..3)
    /// ```
    pub fn range(self) -> Range<usize>
        ensures start { result.start ≡ self.start }
        ensures end { result.end ≡ self.end }
    {
        self.start..self.end
    }
}

/// The runs of equal bits of a view, in order, each once.
///
/// After the first None there is no more. It takes no memory.
#[derive(Drop)]
pub struct IterRuns<'a, T: BitStore, O: BitOrder> {
    view: BitSlice<'a, T, O>,
    // Where the next run begins, or the length where none is left.
    start: usize,
    // What the bits of the next run are.
    bit: bool,
    // Which of the bits from index `base` up to `end` differ from the bit before, as a number; those at which a run
    // began that was returned, or the next one, are cleared.
    chunk: u64,
    base: usize,
    end: usize,
    ghost fits: { (start ≤ len_of view) × (end ≤ len_of view) },
    ghost read: { IsChunkLeft (edges_of (list_of view)) base end chunk },
    ghost next: { start < len_of view → IsRunUpto bit (list_of view) start (first_in base end chunk) },
    ghost done: { len_of view ≤ start → (end ≡ len_of view) × (chunk ≡ 0) },
}

// Which bits of a number differ from the bit one place below, where `before` is the bit below place 0.
#[inline(always)]
fn steps(chunk: u64, before: bool) -> u64
    ensures first { has_bit result 0 ≡ (if has_bit chunk 0 then not before else before) }
    ensures next { (p : ℕ) → p + 1 < 64
        → has_bit result (p + 1) ≡ (if has_bit chunk (p + 1) then not (has_bit chunk p) else has_bit chunk p) }
{
    chunk ^ (chunk << 1 | before as u64)
}

impl<'a, T: BitStore, O: BitOrder> BitSlice<'a, T, O> {
    ghost use Rattle.std.specs.Iterator.{YieldsFirst};
    ghost use Rattle.std.specs.Iterator.Runs.{YieldsInOrder};
    ghost use Rattle.std.specs.Prelude.{length};
    ghost use Rattle.bit_slice.specs.BitRuns.{runs_left, runs_of};

    // Which of the `n` bits from index `at` on differ from the bit before, as a number. Requires that the view has them,
    // that they are from 1 to 64, and that `before` is the bit before them.
    #[inline(always)]
    fn edges_at(self, at: usize, n: usize, before: bool) -> u64
        requires some { 0 < n }
        requires few { n ≤ 64 }
        requires inside { at + n ≤ len_of self }
        requires later { 0 < at }
        requires before { slice_index_or (list_of self) (at - 1) false ≡ before }
        ensures { IsChunk (edges_of (list_of self.entry)) at (at + n) result }
    {
        steps(self.chunk_at(at, n), before) & (u64::MAX >> (64 - n))
    }

    // Like `edges_at`, of the block of 64 bits from index `at` on. Requires that a block begins there.
    #[inline(always)]
    fn edges_of_block(self, at: usize, before: bool) -> u64
        requires begins { (head_of self + at) % 64 ≡ 0 }
        requires inside { at + 64 ≤ len_of self }
        requires later { 0 < at }
        requires before { slice_index_or (list_of self) (at - 1) false ≡ before }
        ensures { IsChunk (edges_of (list_of self.entry)) at (at + 64) result }
    {
        if self.is_block_of(at, before) {
            return 0;
        }
        steps(self.block_at(at), before)
    }

    // Like `edges_from`, where the next bit that differs is searched by the call that finds a bit.
    #[inline(never)]
    fn edges_found(self, at: usize, before: bool) -> (usize, usize, u64)
        requires later { 0 < at }
        requires inside { at ≤ len_of self }
        requires before { slice_index_or (list_of self) (at - 1) false ≡ before }
        ensures begins { at ≤ result.0 }
        ensures ends { result.1 ≤ len_of self.entry }
        ensures before { IsAbsent true (edges_of (list_of self.entry)) at result.0 }
        ensures chunk { IsChunk (edges_of (list_of self.entry)) result.0 result.1 result.2 }
        ensures none { result.2 ≡ 0 → result.0 ≡ len_of self.entry }
    {
        match self.find_next(at, self.len, !before) {
            None => (self.len, self.len, 0),
            Some(i) => {
                let n = (64 - (self.head + i) % 64).min(self.len - i);
                (i, i + n, self.edges_at(i, n, before))
            }
        }
    }

    // Like `edges_from`, where up to 1024 bits are read by blocks before the next one that differs is searched. Requires
    // that a block begins at index `at`, if bits are left.
    #[inline(always)]
    fn edges_near(self, at: usize, before: bool) -> (usize, usize, u64)
        requires begins { at < len_of self → (head_of self + at) % 64 ≡ 0 }
        requires later { 0 < at }
        requires inside { at ≤ len_of self }
        requires before { slice_index_or (list_of self) (at - 1) false ≡ before }
        ensures begins { at ≤ result.0 }
        ensures ends { result.1 ≤ len_of self.entry }
        ensures before { IsAbsent true (edges_of (list_of self.entry)) at result.0 }
        ensures chunk { IsChunk (edges_of (list_of self.entry)) result.0 result.1 result.2 }
        ensures none { result.2 ≡ 0 → result.0 ≡ len_of self.entry }
    {
        let mut end = at;
        let near = (self.len - at).min(1024);
        'turns: while end - at + 64 <= near {
            let chunk = self.edges_of_block(end, before);
            if chunk != 0 {
                return (end, end + 64, chunk);
            }
            end += 64;
        }
        self.edges_found(end, before)
    }

    // Like `edges_from`, where no block begins at index `at`, or fewer bits are left.
    #[inline(never)]
    fn edges_before_block(self, at: usize, before: bool) -> (usize, usize, u64)
        requires later { 0 < at }
        requires inside { at ≤ len_of self }
        requires before { slice_index_or (list_of self) (at - 1) false ≡ before }
        ensures begins { at ≤ result.0 }
        ensures ends { result.1 ≤ len_of self.entry }
        ensures before { IsAbsent true (edges_of (list_of self.entry)) at result.0 }
        ensures chunk { IsChunk (edges_of (list_of self.entry)) result.0 result.1 result.2 }
        ensures none { result.2 ≡ 0 → result.0 ≡ len_of self.entry }
    {
        if at == self.len {
            return (at, at, 0);
        }
        let n = (64 - (self.head + at) % 64).min(self.len - at);
        let chunk = self.edges_at(at, n, before);
        if chunk != 0 {
            return (at, at + n, chunk);
        }
        self.edges_near(at + n, before)
    }

    // Searches bits from index `at` on of which one differs from the bit before: up to 64 that end with a word. Returns
    // where they begin, where they end, and which of them differ, as a number, or the length twice and 0 where no bit
    // differs. Requires that `before` is the bit before index `at`.
    #[inline(always)]
    fn edges_from(self, at: usize, before: bool) -> (usize, usize, u64)
        requires later { 0 < at }
        requires inside { at ≤ len_of self }
        requires before { slice_index_or (list_of self) (at - 1) false ≡ before }
        ensures begins { at ≤ result.0 }
        ensures ends { result.1 ≤ len_of self.entry }
        ensures before { IsAbsent true (edges_of (list_of self.entry)) at result.0 }
        ensures chunk { IsChunk (edges_of (list_of self.entry)) result.0 result.1 result.2 }
        ensures none { result.2 ≡ 0 → result.0 ≡ len_of self.entry }
    {
        if (self.head + at) % 64 == 0 && self.len - at >= 64 {
            return self.edges_near(at, before);
        }
        self.edges_before_block(at, before)
    }

    // The first index from `from` on at which `n` bits begin that are `bit`.
    pub(crate) fn find_run(self, n: usize, bit: bool, from: usize) -> Option<usize>
        ensures begins { IfSome result (λ i. from ≤ i) }
        ensures inside { IfSome result (λ i. i + n ≤ len_of self.entry) }
        ensures found { IfSome result (λ i. part n (list_of self.entry) i ≡ replicate n bit) }
        ensures before { IfSome result
            (λ i. (j : ℕ) → from ≤ j → j < i → part n (list_of self.entry) j ≢ replicate n bit) }
        ensures none { IfNone result ((j : ℕ) → from ≤ j → j + n ≤ len_of self.entry
            → part n (list_of self.entry) j ≢ replicate n bit) }
    {
        if n == 0 && from <= self.len {
            return Some(from);
        }
        let mut at = from.min(self.len);
        'scan: while at < self.len {
            match self.find_next(at, self.len, bit) {
                None => return None,
                Some(start) => {
                    if n > self.len - start {
                        return None;
                    }
                    match self.find_next(start, start + n, !bit) {
                        None => return Some(start),
                        Some(other) => at = other + 1,
                    }
                }
            }
        }
        None
    }

    // Like `find_run`, but the index is a multiple of `align`. Requires that `align` is at least 1.
    pub(crate) fn find_aligned_run(
        self,
        n: usize,
        align: usize,
        bit: bool,
        from: usize,
    ) -> Option<usize>
        requires { 0 < align }
        ensures begins { IfSome result (λ i. from ≤ i) }
        ensures aligned { IfSome result (λ i. i % align ≡ 0) }
        ensures inside { IfSome result (λ i. i + n ≤ len_of self.entry) }
        ensures found { IfSome result (λ i. part n (list_of self.entry) i ≡ replicate n bit) }
        ensures before { IfSome result (λ i. (j : ℕ) → from ≤ j → j < i → j % align ≡ 0
            → part n (list_of self.entry) j ≢ replicate n bit) }
        ensures none { IfNone result ((j : ℕ) → from ≤ j → j + n ≤ len_of self.entry → j % align ≡ 0
            → part n (list_of self.entry) j ≢ replicate n bit) }
    {
        let mut at = from;
        while let Some(i) = self.find_run(n, bit, at) {
            let gap = (align - i % align) % align;
            if gap == 0 {
                return Some(i);
            }
            if gap > self.len - i {
                return None;
            }
            at = i + gap;
        }
        None
    }

    // The first bit, or false where the view is empty.
    #[inline(always)]
    fn first_bit(self) -> bool
        ensures { 0 < len_of self.entry → slice_index_or (list_of self.entry) 0 false ≡ result }
    {
        if self.len == 0 {
            return false;
        }
        self.bit(0)
    }

    /// The runs of equal bits, in order: where each begins and ends, and what its bits are. 64 bits are read at a
    /// time.
    ///
    /// ```text
    /// of 01101001: bits.iter_runs().nth(1) == Some(BitRun { start: 1, end: 3, bit: true })
    /// ```
    pub fn iter_runs(self) -> IterRuns<'a, T, O>
        ensures list { runs_left result ≡ runs_of (list_of self.entry) }
        ensures most { length (runs_left result) ≤ len_of self.entry }
        ensures runs { YieldsInOrder (YieldsFirst (runs_left {X = T} {Y = O} {W = T.BitStore} {P = O.BitOrder}))
            runs_left }
    {
        let end = self.len.min(1);
        IterRuns {
            view: self,
            start: 0,
            bit: self.first_bit(),
            chunk: 0,
            base: end,
            end,
        }
    }
}

impl<'a, T: BitStore, O: BitOrder> IterRuns<'a, T, O> {
    ghost use Rattle.std.specs.Prelude.{◌∷◌};
    ghost use Rattle.std.specs.Iterator.{YieldsFirst};
    ghost use Rattle.bit_slice.specs.BitRuns.{runs_left};

    // Reads bits up to one at which another run begins, or all of them. Requires that no bit is left of those that were
    // read, and that a run is left.
    #[inline(always)]
    fn read_on(&mut self)
        requires none { self.old.chunk ≡ 0 }
        requires left { self.old.start < len_of self.old.view }
        ensures same { runs_left self.new ≡ runs_left self.old }
        ensures left { self.new.start < len_of self.new.view }
        ensures last { self.new.chunk ≡ 0 → self.new.end ≡ len_of self.new.view }
    {
        let (base, end, chunk) = self.view.edges_from(self.end, self.bit);
        self.base = base;
        self.end = end;
        self.chunk = chunk;
    }

    // Returns the next run, and clears the bit at which the one after it begins. Requires that the chunk has a bit.
    #[inline(always)]
    fn take_first(&mut self) -> BitRun
        requires { self.old.chunk ≢ 0 }
        ensures { runs_left self.old ≡ result ∷ runs_left self.new }
    {
        let run = BitRun {
            start: self.start,
            end: self.base + self.chunk.trailing_zeros() as usize,
            bit: self.bit,
        };
        self.chunk &= self.chunk - 1;
        self.start = run.end;
        self.bit = !run.bit;
        run
    }

    // Returns the last run. Requires that it is left, and that all bits were read and none is left of them.
    #[inline(always)]
    fn take_last(&mut self) -> BitRun
        requires none { self.old.chunk ≡ 0 }
        requires left { self.old.start < len_of self.old.view }
        requires last { self.old.end ≡ len_of self.old.view }
        ensures { runs_left self.old ≡ result ∷ runs_left self.new }
    {
        let run = BitRun {
            start: self.start,
            end: self.end,
            bit: self.bit,
        };
        self.start = run.end;
        run
    }
}

impl<'a, T: BitStore, O: BitOrder> Iterator for IterRuns<'a, T, O> {
    ghost use Rattle.std.specs.Iterator.{YieldsFirst, item_count};
    ghost use Rattle.bit_slice.specs.BitRuns.{runs_left};

    type Item = BitRun;

    ghost next_gives = { YieldsFirst runs_left };

    ghost remaining = { item_count runs_left };

    /// The next run. None exactly where none is left.
    #[inline(always)]
    fn next(&mut self) -> Option<BitRun> {
        if self.chunk == 0 {
            if self.start == self.view.len {
                return None;
            }
            self.read_on();
            if self.chunk == 0 {
                return Some(self.take_last());
            }
        }
        Some(self.take_first())
    }
}

impl<'a, T: BitStore, O: BitOrder> FusedIterator for IterRuns<'a, T, O> {}

impl<'a, T: BitStore, O: BitOrder> Clone for IterRuns<'a, T, O> {
    ghost use Rattle.std.specs.Prelude.{⊤};
    ghost use Rattle.bit_slice.specs.BitRuns.{runs_left};

    ghost is_clone = { λ a b. runs_left b ≡ runs_left a };

    ghost is_infallible = { λ _. ⊤ };

    /// The same iterator, with the same left. Takes no memory.
    fn clone(&self) -> Result<Self, AllocError> {
        Ok(IterRuns {
            view: self.view,
            start: self.start,
            bit: self.bit,
            chunk: self.chunk,
            base: self.base,
            end: self.end,
        })
    }
}

/// `IterRuns { start: `, where the next run begins, ` } `, and the text of `Display` of the view.
impl<'a, T: BitStore, O: BitOrder> fmt::Debug for IterRuns<'a, T, O> {
    fn fmt<W: fmt::Write>(&self, f: &mut fmt::Formatter<W>) -> fmt::Result {
        let start = self.start;
        write!(f, "IterRuns {{ start: {start} }} ")?;
        write_list(self.view, f)
    }
}
