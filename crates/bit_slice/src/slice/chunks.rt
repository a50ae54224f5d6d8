//! The parts of a view by their number: chunks from the front and from the end, and windows.
ghost use Rattle.std.specs.Iterator.{YieldsFirstBy, YieldsLastBy};
ghost use Rattle.std.specs.Iterator.Runs.{EveryRun, ItemsMapTo, ItemsMapToReversed};
ghost use Rattle.std.specs.Prelude.{⊤, ◌≡◌, ℕ, ◌+◌, ◌-◌, ◌*◌, ◌/◌, ◌%◌, ◌<◌, ◌≤◌, IfSome, Some, drop, length, take};
ghost use Rattle.bit_slice.specs.BitSlice.{words_of, head_of, len_of, list_of, IsPlaced};
ghost use Rattle.bit_slice.specs.Pieces.{part, part_back, chunk_count, chunks_of, exact_chunks_of, back_chunks_of, windows_of};

mod copies;

use crate::slice::BitSlice;
use bit_addressing::{BitOrder, BitStore};
use std::iter::{DoubleEndedIterator, ExactSizeIterator, FusedIterator, Iterator};

impl<'a, T: BitStore, O: BitOrder> BitSlice<'a, T, O> {
    ghost use Rattle.bit_slice.specs.PiecesLeft.{chunks_left, chunks_walk, exact_chunks_left, exact_chunks_walk, exact_first, exact_last, remainder_of, back_chunks_left, back_chunks_walk, windows_left, windows_walk, BeginsIn};

    /// The chunk of number `k`: the one that `chunks(size)` gives after `k` others. Requires that `size`
    /// is not 0, and that the chunk begins before the end.
    ///
    /// ```text
    /// of 01101001: bits.chunk(3, 1) shows 010
    /// ```
    pub fn chunk(self, size: usize, k: usize) -> Self
        requires some { 0 < size }
        requires begins { k * size < len_of self }
        ensures list { list_of result ≡ part size (list_of self.entry) (k * size) }
        ensures most { len_of result ≤ size }
        ensures inside { k * size + len_of result ≤ len_of self.entry }
        ensures place { IsPlaced (words_of self.entry) (head_of self.entry) (k * size) result }
    {
        let start = k * size;
        let count = size.min(self.len - start);
        self.get_range(start..start + count)
    }

    /// The parts of `size` bits side by side, from the front and from the end. The last has the bits that
    /// are left, so it may be shorter. Requires that `size` is not 0.
    ///
    /// ```text
    /// of 01101001: bits.chunks(3).len() == 3
    /// ```
    pub fn chunks(self, size: usize) -> Chunks<'a, T, O>
        requires some { 0 < size }
        ensures list { chunks_left result ≡ chunks_of size (list_of self.entry) }
        ensures count { length (chunks_left result) ≡ chunk_count (len_of self.entry) size }
        ensures begins { BeginsIn (words_of self.entry) (head_of self.entry) (len_of self.entry) size
            (chunk_count (len_of self.entry) size) (chunks_walk result) }
        ensures runs { EveryRun (YieldsFirstBy (list_of {X = T} {Y = O} {W = T.BitStore} {P = O.BitOrder})
            (chunks_left {X = T} {Y = O} {W = T.BitStore} {P = O.BitOrder}))
            (λ p. ItemsMapTo p list_of (chunks_left p.from)) }
        ensures runs_back { EveryRun (YieldsLastBy (list_of {X = T} {Y = O} {W = T.BitStore} {P = O.BitOrder})
            (chunks_left {X = T} {Y = O} {W = T.BitStore} {P = O.BitOrder}))
            (λ p. ItemsMapToReversed p list_of (chunks_left p.from)) }
    {
        Chunks {
            view: self,
            size,
            from: 0,
            upto: count_chunks(self.len, size),
        }
    }

    /// The parts of `size` bits side by side, from the front and from the end, as long as there are that
    /// many bits. The bits that are left are the iterator's `remainder`. Requires that `size` is not 0.
    ///
    /// ```text
    /// of 01101001: bits.chunks_exact(3).len() == 2
    /// ```
    pub fn chunks_exact(self, size: usize) -> ChunksExact<'a, T, O>
        requires some { 0 < size }
        ensures list { exact_chunks_left result ≡ exact_chunks_of size (list_of self.entry) }
        ensures count { length (exact_chunks_left result) ≡ len_of self.entry / size }
        ensures remainder { remainder_of result ≡ drop (len_of self.entry / size * size) (list_of self.entry) }
        ensures begins { BeginsIn (words_of self.entry) (head_of self.entry) (len_of self.entry) size
            (len_of self.entry / size) (exact_chunks_walk result) }
        ensures runs { EveryRun (exact_first {X = T} {Y = O} {W = T.BitStore} {P = O.BitOrder})
            (λ p. ItemsMapTo p list_of (exact_chunks_left p.from)) }
        ensures runs_back { EveryRun (exact_last {X = T} {Y = O} {W = T.BitStore} {P = O.BitOrder})
            (λ p. ItemsMapToReversed p list_of (exact_chunks_left p.from)) }
    {
        ChunksExact {
            view: self,
            size,
            from: 0,
            upto: self.len / size,
        }
    }

    /// The parts of `size` bits side by side, beginning at the end of the view. The last, at its front, has
    /// the bits that are left, so it may be shorter. Requires that `size` is not 0.
    ///
    /// ```text
    /// of 01101001: bits.rchunks(3).len() == 3
    /// ```
    pub fn rchunks(self, size: usize) -> RChunks<'a, T, O>
        requires some { 0 < size }
        ensures list { back_chunks_left result ≡ back_chunks_of size (list_of self.entry) }
        ensures count { length (back_chunks_left result) ≡ chunk_count (len_of self.entry) size }
        ensures begins { BeginsIn (words_of self.entry) (head_of self.entry) (len_of self.entry) size
            (chunk_count (len_of self.entry) size) (back_chunks_walk result) }
        ensures runs { EveryRun (YieldsFirstBy (list_of {X = T} {Y = O} {W = T.BitStore} {P = O.BitOrder})
            (back_chunks_left {X = T} {Y = O} {W = T.BitStore} {P = O.BitOrder}))
            (λ p. ItemsMapTo p list_of (back_chunks_left p.from)) }
        ensures runs_back { EveryRun (YieldsLastBy (list_of {X = T} {Y = O} {W = T.BitStore} {P = O.BitOrder})
            (back_chunks_left {X = T} {Y = O} {W = T.BitStore} {P = O.BitOrder}))
            (λ p. ItemsMapToReversed p list_of (back_chunks_left p.from)) }
    {
        RChunks {
            view: self,
            size,
            from: 0,
            upto: count_chunks(self.len, size),
        }
    }

    /// Each run of `size` bits, one for each index at which one begins. There are none where the view is
    /// shorter. Requires that `size` is not 0.
    ///
    /// ```text
    /// of 01101001: bits.windows(3).len() == 6
    /// ```
    pub fn windows(self, size: usize) -> Windows<'a, T, O>
        requires some { 0 < size }
        ensures list { windows_left result ≡ windows_of size (list_of self.entry) }
        ensures count { length (windows_left result) ≡ len_of self.entry + 1 - size }
        ensures begins { BeginsIn (words_of self.entry) (head_of self.entry) (len_of self.entry) size
            (len_of self.entry + 1 - size) (windows_walk result) }
        ensures runs { EveryRun (YieldsFirstBy (list_of {X = T} {Y = O} {W = T.BitStore} {P = O.BitOrder})
            (windows_left {X = T} {Y = O} {W = T.BitStore} {P = O.BitOrder}))
            (λ p. ItemsMapTo p list_of (windows_left p.from)) }
        ensures runs_back { EveryRun (YieldsLastBy (list_of {X = T} {Y = O} {W = T.BitStore} {P = O.BitOrder})
            (windows_left {X = T} {Y = O} {W = T.BitStore} {P = O.BitOrder}))
            (λ p. ItemsMapToReversed p list_of (windows_left p.from)) }
    {
        Windows {
            view: self,
            size,
            from: 0,
            upto: (self.len + 1).saturating_sub(size),
        }
    }
}

/// The parts of `size` bits side by side, from the front, of which the last may be shorter: views, from both ends, each
/// once.
///
/// Its length is known, and after the first None there is no more. It takes no memory.
#[derive(Drop)]
pub struct Chunks<'a, T: BitStore, O: BitOrder> {
    view: BitSlice<'a, T, O>,
    size: usize,
    from: usize,
    upto: usize,
    ghost fits: { (from ≤ upto) × (0 < size) × ((k : ℕ) → k < upto → k * size < len_of view) },
}

impl<'a, T: BitStore, O: BitOrder> Chunks<'a, T, O> {
    ghost use Rattle.bit_slice.specs.PiecesLeft.{chunks_left};

    // The chunk of number `k`.
    fn part(&self, k: usize) -> BitSlice<'a, T, O>
        requires { k < self.now.upto }
        ensures list { list_of result ≡ part self.now.size (list_of self.now.view) (k * self.now.size) }
        ensures place { IsPlaced (words_of self.now.view) (head_of self.now.view) (k * self.now.size) result }
    {
        let start = k * self.size;
        let count = self.size.min(self.view.len() - start);
        self.view.get_range(start..start + count)
    }

    // The number of chunks left.
    fn count_left(&self) -> usize
        ensures { result ≡ length (chunks_left self.now) }
    {
        self.upto - self.from
    }
}

impl<'a, T: BitStore, O: BitOrder> Iterator for Chunks<'a, T, O> {
    ghost use Rattle.std.specs.Iterator.{YieldsFirstBy, MakesProgress, UpTo, at_most, item_count};
    ghost use Rattle.std.specs.Iterator.SizeHint.{IsWithinCount};
    ghost use Rattle.bit_slice.specs.BitSlice.{list_of};
    ghost use Rattle.bit_slice.specs.PiecesLeft.{chunks_left, chunks_walk, StepsForward};

    type Item = BitSlice<'a, T, O>;

    ghost next_gives = { YieldsFirstBy list_of chunks_left };

    ghost remaining = { item_count chunks_left };

    /// The first chunk that is left. None exactly where none is.
    fn next(&mut self) -> Option<BitSlice<'a, T, O>>
        ensures steps { YieldsFirstBy list_of chunks_left self.old result self.new }
        ensures goes { MakesProgress (λ _. ⊤) (item_count chunks_left) self.old result self.new }
        ensures place { IfSome result (λ part. StepsForward ((chunks_walk self.old).from * (chunks_walk self.old).size) (chunks_walk self.old) part (chunks_walk self.new)) }
    {
        if self.from == self.upto {
            return None;
        }
        let part = self.part(self.from);
        self.from += 1;
        Some(part)
    }

    /// The number of chunks that are left, as both bounds: it is exact.
    fn size_hint(&self) -> (usize, Option<usize>)
        ensures lower { IsWithinCount result.0 (at_most (length (chunks_left self.now))) }
        ensures upper { IfSome result.1 (UpTo (at_most (length (chunks_left self.now)))) }
        ensures value { result ≡ (length (chunks_left self.now), Some (length (chunks_left self.now))) }
    {
        let count = self.count_left();
        (count, Some(count))
    }
}

impl<'a, T: BitStore, O: BitOrder> DoubleEndedIterator for Chunks<'a, T, O> {
    ghost use Rattle.std.specs.Iterator.{YieldsLastBy, MakesProgress, item_count};
    ghost use Rattle.bit_slice.specs.BitSlice.{list_of};
    ghost use Rattle.bit_slice.specs.PiecesLeft.{chunks_left, chunks_walk, StepsBack};

    ghost next_back_gives = { YieldsLastBy list_of chunks_left };

    /// The last chunk that is left. None exactly where none is.
    fn next_back(&mut self) -> Option<BitSlice<'a, T, O>>
        ensures steps { YieldsLastBy list_of chunks_left self.old result self.new }
        ensures goes { MakesProgress (λ _. ⊤) (item_count chunks_left) self.old result self.new }
        ensures place { IfSome result (λ part. StepsBack (((chunks_walk self.old).upto - 1) * (chunks_walk self.old).size) (chunks_walk self.old) part (chunks_walk self.new)) }
    {
        if self.upto == self.from {
            return None;
        }
        let part = self.part(self.upto - 1);
        self.upto -= 1;
        Some(part)
    }
}

impl<'a, T: BitStore, O: BitOrder> ExactSizeIterator for Chunks<'a, T, O> {
    /// The number of chunks left.
    fn len(&self) -> usize {
        self.count_left()
    }
}

impl<'a, T: BitStore, O: BitOrder> FusedIterator for Chunks<'a, T, O> {}

/// The parts of `size` bits side by side, from the front, each of that many bits: views, from both ends, each once.
///
/// Its length is known, and after the first None there is no more. It takes no memory.
#[derive(Drop)]
pub struct ChunksExact<'a, T: BitStore, O: BitOrder> {
    view: BitSlice<'a, T, O>,
    size: usize,
    from: usize,
    upto: usize,
    ghost fits: { (from ≤ upto) × (0 < size) × ((k : ℕ) → k < upto → k * size + size ≤ len_of view) },
}

impl<'a, T: BitStore, O: BitOrder> ChunksExact<'a, T, O> {
    ghost use Rattle.bit_slice.specs.PiecesLeft.{exact_chunks_left, exact_chunks_walk, remainder_of};

    /// The bits at the end of the view that no chunk has, fewer than a chunk has.
    pub fn remainder(&self) -> BitSlice<'a, T, O>
        ensures list { list_of result ≡ remainder_of self.now }
        ensures len { len_of result ≡ length (remainder_of self.now) }
        ensures few { len_of result < (exact_chunks_walk self.now).size }
        ensures place { let w = exact_chunks_walk self.now in
            IsPlaced (words_of w.view) (head_of w.view) (len_of w.view / w.size * w.size) result }
    {
        let len = self.view.len();
        self.view.get_range(len - len % self.size..len)
    }

    // The chunk of number `k`.
    fn part(&self, k: usize) -> BitSlice<'a, T, O>
        requires { k < self.now.upto }
        ensures list { list_of result ≡ part self.now.size (list_of self.now.view) (k * self.now.size) }
        ensures place { IsPlaced (words_of self.now.view) (head_of self.now.view) (k * self.now.size) result }
    {
        let start = k * self.size;
        self.view.get_range(start..start + self.size)
    }

    // The number of chunks left.
    fn count_left(&self) -> usize
        ensures { result ≡ length (exact_chunks_left self.now) }
    {
        self.upto - self.from
    }
}

impl<'a, T: BitStore, O: BitOrder> Iterator for ChunksExact<'a, T, O> {
    ghost use Rattle.std.specs.Iterator.{MakesProgress, UpTo, at_most, item_count};
    ghost use Rattle.std.specs.Iterator.SizeHint.{IsWithinCount};
    ghost use Rattle.bit_slice.specs.PiecesLeft.{exact_chunks_left, exact_first, exact_chunks_walk, StepsForward};

    type Item = BitSlice<'a, T, O>;

    ghost next_gives = { exact_first };

    ghost remaining = { item_count exact_chunks_left };

    /// The first chunk that is left. None exactly where none is. The remainder stays.
    fn next(&mut self) -> Option<BitSlice<'a, T, O>>
        ensures steps { exact_first self.old result self.new }
        ensures goes { MakesProgress (λ _. ⊤) (item_count exact_chunks_left) self.old result self.new }
        ensures place { IfSome result (λ part. StepsForward ((exact_chunks_walk self.old).from * (exact_chunks_walk self.old).size) (exact_chunks_walk self.old) part (exact_chunks_walk self.new)) }
    {
        if self.from == self.upto {
            return None;
        }
        let part = self.part(self.from);
        self.from += 1;
        Some(part)
    }

    /// The number of chunks that are left, as both bounds: it is exact.
    fn size_hint(&self) -> (usize, Option<usize>)
        ensures lower { IsWithinCount result.0 (at_most (length (exact_chunks_left self.now))) }
        ensures upper { IfSome result.1 (UpTo (at_most (length (exact_chunks_left self.now)))) }
        ensures value { result ≡ (length (exact_chunks_left self.now), Some (length (exact_chunks_left self.now))) }
    {
        let count = self.count_left();
        (count, Some(count))
    }
}

impl<'a, T: BitStore, O: BitOrder> DoubleEndedIterator for ChunksExact<'a, T, O> {
    ghost use Rattle.std.specs.Iterator.{MakesProgress, item_count};
    ghost use Rattle.bit_slice.specs.PiecesLeft.{exact_last, exact_chunks_left, exact_chunks_walk, StepsBack};

    ghost next_back_gives = { exact_last };

    /// The last chunk that is left. None exactly where none is. The remainder stays.
    fn next_back(&mut self) -> Option<BitSlice<'a, T, O>>
        ensures steps { exact_last self.old result self.new }
        ensures goes { MakesProgress (λ _. ⊤) (item_count exact_chunks_left) self.old result self.new }
        ensures place { IfSome result (λ part. StepsBack (((exact_chunks_walk self.old).upto - 1) * (exact_chunks_walk self.old).size) (exact_chunks_walk self.old) part (exact_chunks_walk self.new)) }
    {
        if self.upto == self.from {
            return None;
        }
        let part = self.part(self.upto - 1);
        self.upto -= 1;
        Some(part)
    }
}

impl<'a, T: BitStore, O: BitOrder> ExactSizeIterator for ChunksExact<'a, T, O> {
    /// The number of chunks left.
    fn len(&self) -> usize {
        self.count_left()
    }
}

impl<'a, T: BitStore, O: BitOrder> FusedIterator for ChunksExact<'a, T, O> {}

/// The parts of `size` bits side by side, from the end, of which the last may be shorter: views, from both ends, each
/// once.
///
/// Its length is known, and after the first None there is no more. It takes no memory.
#[derive(Drop)]
pub struct RChunks<'a, T: BitStore, O: BitOrder> {
    view: BitSlice<'a, T, O>,
    size: usize,
    from: usize,
    upto: usize,
    ghost fits: { (from ≤ upto) × (0 < size) × ((k : ℕ) → k < upto → k * size < len_of view) },
}

impl<'a, T: BitStore, O: BitOrder> RChunks<'a, T, O> {
    ghost use Rattle.bit_slice.specs.PiecesLeft.{back_chunks_left};

    // The chunk of number `k`.
    fn part(&self, k: usize) -> BitSlice<'a, T, O>
        requires { k < self.now.upto }
        ensures list { list_of result ≡ part_back self.now.size (list_of self.now.view) (k * self.now.size) }
        ensures place { IsPlaced (words_of self.now.view) (head_of self.now.view) (len_of self.now.view - k * self.now.size - self.now.size) result }
    {
        let end = self.view.len() - k * self.size;
        self.view.get_range(end.saturating_sub(self.size)..end)
    }

    // The number of chunks left.
    fn count_left(&self) -> usize
        ensures { result ≡ length (back_chunks_left self.now) }
    {
        self.upto - self.from
    }
}

impl<'a, T: BitStore, O: BitOrder> Iterator for RChunks<'a, T, O> {
    ghost use Rattle.std.specs.Iterator.{YieldsFirstBy, MakesProgress, UpTo, at_most, item_count};
    ghost use Rattle.std.specs.Iterator.SizeHint.{IsWithinCount};
    ghost use Rattle.bit_slice.specs.BitSlice.{list_of};
    ghost use Rattle.bit_slice.specs.PiecesLeft.{back_chunks_left, back_chunks_walk, StepsForward};

    type Item = BitSlice<'a, T, O>;

    ghost next_gives = { YieldsFirstBy list_of back_chunks_left };

    ghost remaining = { item_count back_chunks_left };

    /// The first chunk that is left. None exactly where none is.
    fn next(&mut self) -> Option<BitSlice<'a, T, O>>
        ensures steps { YieldsFirstBy list_of back_chunks_left self.old result self.new }
        ensures goes { MakesProgress (λ _. ⊤) (item_count back_chunks_left) self.old result self.new }
        ensures place { IfSome result (λ part. StepsForward (len_of (back_chunks_walk self.old).view - (back_chunks_walk self.old).from * (back_chunks_walk self.old).size - (back_chunks_walk self.old).size) (back_chunks_walk self.old) part (back_chunks_walk self.new)) }
    {
        if self.from == self.upto {
            return None;
        }
        let part = self.part(self.from);
        self.from += 1;
        Some(part)
    }

    /// The number of chunks that are left, as both bounds: it is exact.
    fn size_hint(&self) -> (usize, Option<usize>)
        ensures lower { IsWithinCount result.0 (at_most (length (back_chunks_left self.now))) }
        ensures upper { IfSome result.1 (UpTo (at_most (length (back_chunks_left self.now)))) }
        ensures value { result ≡ (length (back_chunks_left self.now), Some (length (back_chunks_left self.now))) }
    {
        let count = self.count_left();
        (count, Some(count))
    }
}

impl<'a, T: BitStore, O: BitOrder> DoubleEndedIterator for RChunks<'a, T, O> {
    ghost use Rattle.std.specs.Iterator.{YieldsLastBy, MakesProgress, item_count};
    ghost use Rattle.bit_slice.specs.BitSlice.{list_of};
    ghost use Rattle.bit_slice.specs.PiecesLeft.{back_chunks_left, back_chunks_walk, StepsBack};

    ghost next_back_gives = { YieldsLastBy list_of back_chunks_left };

    /// The last chunk that is left. None exactly where none is.
    fn next_back(&mut self) -> Option<BitSlice<'a, T, O>>
        ensures steps { YieldsLastBy list_of back_chunks_left self.old result self.new }
        ensures goes { MakesProgress (λ _. ⊤) (item_count back_chunks_left) self.old result self.new }
        ensures place { IfSome result (λ part. StepsBack (len_of (back_chunks_walk self.old).view - ((back_chunks_walk self.old).upto - 1) * (back_chunks_walk self.old).size - (back_chunks_walk self.old).size) (back_chunks_walk self.old) part (back_chunks_walk self.new)) }
    {
        if self.upto == self.from {
            return None;
        }
        let part = self.part(self.upto - 1);
        self.upto -= 1;
        Some(part)
    }
}

impl<'a, T: BitStore, O: BitOrder> ExactSizeIterator for RChunks<'a, T, O> {
    /// The number of chunks left.
    fn len(&self) -> usize {
        self.count_left()
    }
}

impl<'a, T: BitStore, O: BitOrder> FusedIterator for RChunks<'a, T, O> {}

/// The runs of `size` bits, one for each index at which one begins: views, from both ends, each
/// once.
///
/// Its length is known, and after the first None there is no more. It takes no memory.
#[derive(Drop)]
pub struct Windows<'a, T: BitStore, O: BitOrder> {
    view: BitSlice<'a, T, O>,
    size: usize,
    from: usize,
    upto: usize,
    ghost fits: { (from ≤ upto) × (0 < size) × ((k : ℕ) → k < upto → k + size ≤ len_of view) },
}

impl<'a, T: BitStore, O: BitOrder> Windows<'a, T, O> {
    ghost use Rattle.bit_slice.specs.PiecesLeft.{windows_left};

    // The window of number `k`.
    fn part(&self, k: usize) -> BitSlice<'a, T, O>
        requires { k < self.now.upto }
        ensures list { list_of result ≡ part self.now.size (list_of self.now.view) k }
        ensures place { IsPlaced (words_of self.now.view) (head_of self.now.view) (k) result }
    {
        self.view.get_range(k..k + self.size)
    }

    // The number of windows left.
    fn count_left(&self) -> usize
        ensures { result ≡ length (windows_left self.now) }
    {
        self.upto - self.from
    }
}

impl<'a, T: BitStore, O: BitOrder> Iterator for Windows<'a, T, O> {
    ghost use Rattle.std.specs.Iterator.{YieldsFirstBy, MakesProgress, UpTo, at_most, item_count};
    ghost use Rattle.std.specs.Iterator.SizeHint.{IsWithinCount};
    ghost use Rattle.bit_slice.specs.BitSlice.{list_of};
    ghost use Rattle.bit_slice.specs.PiecesLeft.{windows_left, windows_walk, StepsForward};

    type Item = BitSlice<'a, T, O>;

    ghost next_gives = { YieldsFirstBy list_of windows_left };

    ghost remaining = { item_count windows_left };

    /// The first window that is left. None exactly where none is.
    fn next(&mut self) -> Option<BitSlice<'a, T, O>>
        ensures steps { YieldsFirstBy list_of windows_left self.old result self.new }
        ensures goes { MakesProgress (λ _. ⊤) (item_count windows_left) self.old result self.new }
        ensures place { IfSome result (λ part. StepsForward ((windows_walk self.old).from) (windows_walk self.old) part (windows_walk self.new)) }
    {
        if self.from == self.upto {
            return None;
        }
        let part = self.part(self.from);
        self.from += 1;
        Some(part)
    }

    /// The number of windows that are left, as both bounds: it is exact.
    fn size_hint(&self) -> (usize, Option<usize>)
        ensures lower { IsWithinCount result.0 (at_most (length (windows_left self.now))) }
        ensures upper { IfSome result.1 (UpTo (at_most (length (windows_left self.now)))) }
        ensures value { result ≡ (length (windows_left self.now), Some (length (windows_left self.now))) }
    {
        let count = self.count_left();
        (count, Some(count))
    }
}

impl<'a, T: BitStore, O: BitOrder> DoubleEndedIterator for Windows<'a, T, O> {
    ghost use Rattle.std.specs.Iterator.{YieldsLastBy, MakesProgress, item_count};
    ghost use Rattle.bit_slice.specs.BitSlice.{list_of};
    ghost use Rattle.bit_slice.specs.PiecesLeft.{windows_left, windows_walk, StepsBack};

    ghost next_back_gives = { YieldsLastBy list_of windows_left };

    /// The last window that is left. None exactly where none is.
    fn next_back(&mut self) -> Option<BitSlice<'a, T, O>>
        ensures steps { YieldsLastBy list_of windows_left self.old result self.new }
        ensures goes { MakesProgress (λ _. ⊤) (item_count windows_left) self.old result self.new }
        ensures place { IfSome result (λ part. StepsBack (((windows_walk self.old).upto - 1)) (windows_walk self.old) part (windows_walk self.new)) }
    {
        if self.upto == self.from {
            return None;
        }
        let part = self.part(self.upto - 1);
        self.upto -= 1;
        Some(part)
    }
}

impl<'a, T: BitStore, O: BitOrder> ExactSizeIterator for Windows<'a, T, O> {
    /// The number of windows left.
    fn len(&self) -> usize {
        self.count_left()
    }
}

impl<'a, T: BitStore, O: BitOrder> FusedIterator for Windows<'a, T, O> {}

// How many chunks of `size` bits a length has; the last may be shorter.
fn count_chunks(len: usize, size: usize) -> usize
    requires { 0 < size }
    ensures { result ≡ chunk_count len size }
{
    len / size + (len % size).min(1)
}
