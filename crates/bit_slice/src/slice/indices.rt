//! The indices of a view's bits that are true, and of those that are false.
ghost use Rattle.std.specs.Iterator.{YieldsFirst, YieldsLast};
ghost use Rattle.std.specs.Iterator.Runs.{YieldsInOrder, YieldsInReverse};
ghost use Rattle.std.specs.Prelude.{◌≡◌, ◌≢◌, ℕ, ◌+◌, ◌-◌, ◌*◌, ◌<◌, ◌≤◌, [], ◌∷◌, IfSome, Some, count_by, false, length, not, slice_get, true};
ghost use Rattle.std.specs.List.{All};
ghost use Rattle.bit_slice.specs.BitSlice.{head_of, len_of, list_of};
ghost use Rattle.bit_slice.specs.Places.{BlocksFit, IsChunkLeft, ones_of, places_between, zeros_of};

mod copies;

use crate::lists::BitList;
use crate::slice::BitSlice;
use bit_addressing::{BitOrder, BitStore};
use std::iter::{DoubleEndedIterator, ExactSizeIterator, FusedIterator, Iterator};

/// The indices of a view's bits that are true, ascending, from both ends, each once.
///
/// Its length is known, and after the first None there is no more. It takes no memory.
#[derive(Drop)]
pub struct IterOnes<'a, T: BitStore, O: BitOrder> {
    view: BitSlice<'a, T, O>,
    upto: usize,
    // The bits from index `base` up to `end`, which were read together, as a number; those whose indices were returned
    // are cleared.
    chunk: u64,
    base: usize,
    end: usize,
    // The end of the whole blocks of 64 bits from `end` on. They are read without a test of the length (docs/SPEED.md,
    // "The bench", ones 67th).
    whole: usize,
    ghost fits: { (end ≤ upto) × (upto ≤ len_of view) },
    ghost read: { IsChunkLeft (list_of view) base end chunk },
    ghost blocks: { BlocksFit (head_of view) end upto whole },
}

impl<'a, T: BitStore, O: BitOrder> BitSlice<'a, T, O> {
    ghost use Rattle.bit_slice.specs.Indices.{ones_left};

    /// The indices of the bits that are true, ascending, from both ends. Bits are read 64 at a time.
    ///
    /// ```text
    /// of 01101001: bits.iter_ones() gives 1, 2, 4, 7
    /// ```
    pub fn iter_ones(self) -> IterOnes<'a, T, O>
        ensures list { ones_left result ≡ ones_of (list_of self.entry) }
        ensures count { length (ones_left result) ≡ count_by (λ b. b) (list_of self.entry) }
        ensures set { All (λ i. slice_get (list_of self.entry) i ≡ Some true) (ones_left result) }
        ensures inside { All (λ i. i < len_of self.entry) (ones_left result) }
        ensures runs { YieldsInOrder (YieldsFirst (ones_left {X = T} {Y = O} {W = T.BitStore} {P = O.BitOrder}))
            ones_left }
        ensures runs_back { YieldsInReverse
            (YieldsLast (ones_left {X = T} {Y = O} {W = T.BitStore} {P = O.BitOrder})) ones_left }
    {
        IterOnes {
            view: self,
            upto: self.len,
            chunk: 0,
            base: 0,
            end: 0,
            whole: self.blocks_end(),
        }
    }
}

impl<'a, T: BitStore, O: BitOrder> IterOnes<'a, T, O> {
    ghost use Rattle.bit_slice.specs.Indices.{next_of, ones_left};

    // The first index that was not returned from the front: that of the lowest bit of the chunk, or its end.
    #[inline(always)]
    fn next_at(&self) -> usize
        ensures { result ≡ next_of self.now }
    {
        self.end
            .min(self.base + self.chunk.trailing_zeros() as usize)
    }

    // The number of indices left: the bits that are left are counted.
    fn count_left(&self) -> usize
        ensures { result ≡ length (ones_left self.now) }
    {
        self.view.get_range(self.next_at()..self.upto).count_ones()
    }

    // Reads the next block, if there is one, whatever its bits. Requires that none is left of those that were read.
    #[inline(always)]
    fn read_block(&mut self)
        requires { self.old.chunk ≡ 0 }
        ensures { ones_left self.new ≡ ones_left self.old }
    {
        if self.end < self.whole {
            let at = self.end;
            self.chunk = self.view.block_at(at);
            self.base = at;
            self.end = at + 64;
        }
    }

    // Reads bits up to one that is true, or all of them. Requires that none is left of those that were read.
    #[inline(always)]
    fn read_on(&mut self)
        requires { self.old.chunk ≡ 0 }
        ensures left { ones_left self.new ≡ ones_left self.old }
        ensures none { self.new.chunk ≡ 0 → ones_left self.new ≡ [] }
    {
        let (from, end, chunk) = self.view.chunk_with_one(self.end, self.upto);
        self.base = from;
        self.end = end;
        self.chunk = chunk;
    }

    // Returns the first index that is left, and clears its bit in the chunk. Requires that the chunk has
    // a bit.
    #[inline(always)]
    fn take_first(&mut self) -> usize
        requires { self.old.chunk ≢ 0 }
        ensures { ones_left self.old ≡ result ∷ ones_left self.new }
    {
        let first = self.base + self.chunk.trailing_zeros() as usize;
        self.chunk &= self.chunk - 1;
        first
    }

    // Keeps the indices below `upto`. A chunk that has bits from there on is dropped, and read again later.
    fn cut(&mut self, upto: usize)
        requires ordered { next_of self.old ≤ upto }
        requires inside { upto ≤ self.old.upto }
        ensures { ones_left self.new ≡ places_between (λ b. b) (list_of self.old.view) (next_of self.old) upto }
    {
        if upto < self.end {
            let from = self.next_at();
            self.chunk = 0;
            self.base = from;
            self.end = from;
        }
        self.upto = upto;
        self.whole = 0;
    }
}

impl<'a, T: BitStore, O: BitOrder> Iterator for IterOnes<'a, T, O> {
    ghost use Rattle.std.specs.Iterator.{YieldsFirst, UpTo, at_most, item_count};
    ghost use Rattle.std.specs.Iterator.SizeHint.{IsWithinCount};
    ghost use Rattle.bit_slice.specs.Indices.{ones_left};

    type Item = usize;

    ghost next_gives = { YieldsFirst ones_left };

    ghost remaining = { item_count ones_left };

    /// The first index that is left. None exactly where none is.
    #[inline(always)]
    fn next(&mut self) -> Option<usize> {
        if self.chunk == 0 {
            self.read_block();
            if self.chunk == 0 {
                self.read_on();
                if self.chunk == 0 {
                    return None;
                }
            }
        }
        Some(self.take_first())
    }

    /// Both bounds are how many indices are left: the bits that are left are counted.
    fn size_hint(&self) -> (usize, Option<usize>)
        ensures lower { IsWithinCount result.0 (at_most (length (ones_left self.now))) }
        ensures upper { IfSome result.1 (UpTo (at_most (length (ones_left self.now)))) }
        ensures value { result ≡ (length (ones_left self.now), Some (length (ones_left self.now))) }
    {
        let count = self.count_left();
        (count, Some(count))
    }
}

impl<'a, T: BitStore, O: BitOrder> DoubleEndedIterator for IterOnes<'a, T, O> {
    ghost use Rattle.std.specs.Iterator.{YieldsLast};
    ghost use Rattle.bit_slice.specs.Indices.{ones_left};

    ghost next_back_gives = { YieldsLast ones_left };

    /// The last index that is left. None exactly where none is.
    fn next_back(&mut self) -> Option<usize> {
        let from = self.next_at();
        match self.view.find_last(from, self.upto, true) {
            None => {
                self.cut(from);
                None
            }
            Some(i) => {
                self.cut(i);
                Some(i)
            }
        }
    }
}

impl<'a, T: BitStore, O: BitOrder> ExactSizeIterator for IterOnes<'a, T, O> {
    /// The number of indices left: the bits that are left are counted.
    fn len(&self) -> usize {
        self.count_left()
    }
}

impl<'a, T: BitStore, O: BitOrder> FusedIterator for IterOnes<'a, T, O> {}

/// The indices of a view's bits that are false, ascending, from both ends, each once.
///
/// Its length is known, and after the first None there is no more. It takes no memory.
#[derive(Drop)]
pub struct IterZeros<'a, T: BitStore, O: BitOrder> {
    view: BitSlice<'a, T, O>,
    from: usize,
    upto: usize,
    ghost fits: { (from ≤ upto) × (upto ≤ len_of view) },
}

impl<'a, T: BitStore, O: BitOrder> BitSlice<'a, T, O> {
    ghost use Rattle.bit_slice.specs.Indices.{zeros_left};

    /// The indices of the bits that are false, ascending, from both ends. Each step is a search.
    ///
    /// ```text
    /// of 01101001: bits.iter_zeros() gives 0, 3, 5, 6
    /// ```
    pub fn iter_zeros(self) -> IterZeros<'a, T, O>
        ensures list { zeros_left result ≡ zeros_of (list_of self.entry) }
        ensures count { length (zeros_left result) ≡ count_by not (list_of self.entry) }
        ensures set { All (λ i. slice_get (list_of self.entry) i ≡ Some false) (zeros_left result) }
        ensures inside { All (λ i. i < len_of self.entry) (zeros_left result) }
        ensures runs { YieldsInOrder (YieldsFirst (zeros_left {X = T} {Y = O} {W = T.BitStore} {P = O.BitOrder}))
            zeros_left }
        ensures runs_back { YieldsInReverse
            (YieldsLast (zeros_left {X = T} {Y = O} {W = T.BitStore} {P = O.BitOrder})) zeros_left }
    {
        IterZeros {
            view: self,
            from: 0,
            upto: self.len,
        }
    }
}

impl<'a, T: BitStore, O: BitOrder> IterZeros<'a, T, O> {
    ghost use Rattle.bit_slice.specs.Indices.{zeros_left};

    // The number of indices left: the bits that are left are counted.
    fn count_left(&self) -> usize
        ensures { result ≡ length (zeros_left self.now) }
    {
        self.view.get_range(self.from..self.upto).count_zeros()
    }
}

impl<'a, T: BitStore, O: BitOrder> Iterator for IterZeros<'a, T, O> {
    ghost use Rattle.std.specs.Iterator.{YieldsFirst, UpTo, at_most, item_count};
    ghost use Rattle.std.specs.Iterator.SizeHint.{IsWithinCount};
    ghost use Rattle.bit_slice.specs.Indices.{zeros_left};

    type Item = usize;

    ghost next_gives = { YieldsFirst zeros_left };

    ghost remaining = { item_count zeros_left };

    /// The first index that is left. None exactly where none is.
    fn next(&mut self) -> Option<usize> {
        match self.view.find_next(self.from, self.upto, false) {
            None => {
                self.from = self.upto;
                None
            }
            Some(i) => {
                self.from = i + 1;
                Some(i)
            }
        }
    }

    /// Both bounds are how many indices are left: the bits that are left are counted.
    fn size_hint(&self) -> (usize, Option<usize>)
        ensures lower { IsWithinCount result.0 (at_most (length (zeros_left self.now))) }
        ensures upper { IfSome result.1 (UpTo (at_most (length (zeros_left self.now)))) }
        ensures value { result ≡ (length (zeros_left self.now), Some (length (zeros_left self.now))) }
    {
        let count = self.count_left();
        (count, Some(count))
    }
}

impl<'a, T: BitStore, O: BitOrder> DoubleEndedIterator for IterZeros<'a, T, O> {
    ghost use Rattle.std.specs.Iterator.{YieldsLast};
    ghost use Rattle.bit_slice.specs.Indices.{zeros_left};

    ghost next_back_gives = { YieldsLast zeros_left };

    /// The last index that is left. None exactly where none is.
    fn next_back(&mut self) -> Option<usize> {
        match self.view.find_last(self.from, self.upto, false) {
            None => {
                self.upto = self.from;
                None
            }
            Some(i) => {
                self.upto = i;
                Some(i)
            }
        }
    }
}

impl<'a, T: BitStore, O: BitOrder> ExactSizeIterator for IterZeros<'a, T, O> {
    /// The number of indices left: the bits that are left are counted.
    fn len(&self) -> usize {
        self.count_left()
    }
}

impl<'a, T: BitStore, O: BitOrder> FusedIterator for IterZeros<'a, T, O> {}
