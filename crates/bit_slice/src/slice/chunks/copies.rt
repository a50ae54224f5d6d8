//! Iterators over parts, copied and shown.
ghost use Rattle.std.specs.Prelude.{◌≡◌, ⊤};
ghost use Rattle.bit_slice.specs.PiecesLeft.{chunks_left, chunks_walk, exact_chunks_left, exact_chunks_walk, back_chunks_left, back_chunks_walk, windows_left, windows_walk};

use crate::slice::BitSlice;
use crate::slice::chunks::{Chunks, ChunksExact, RChunks, Windows};
use crate::texts::write_list;
use bit_addressing::{BitOrder, BitStore};
use std::alloc::AllocError;
use std::fmt;
use std::ops::Range;

// Writes `name { size: .., from: .., upto: .. } ` and the list of the view.
fn write_parts<T: BitStore, O: BitOrder, W: fmt::Write>(
    name: &str,
    size: usize,
    left: Range<usize>,
    view: BitSlice<'_, T, O>,
    f: &mut fmt::Formatter<W>,
) -> fmt::Result {
    let (from, upto) = (left.start, left.end);
    write!(f, "{name} {{ size: {size}, from: {from}, upto: {upto} }} ")?;
    write_list(view, f)
}

impl<'a, T: BitStore, O: BitOrder> Clone for Chunks<'a, T, O> {
    ghost is_clone = { λ a b. (chunks_left b ≡ chunks_left a) × (chunks_walk b ≡ chunks_walk a) };

    ghost is_infallible = { λ _. ⊤ };

    /// The same iterator, with the same left. Takes no memory.
    fn clone(&self) -> Result<Self, AllocError> {
        Ok(Chunks {
            view: self.view,
            size: self.size,
            from: self.from,
            upto: self.upto,
        })
    }
}

/// `Chunks { size: `, the bits of a part, `, from: `, the number of the first part that is left, `, upto: `, that of the one
/// after the last, ` } `, and the text of `Display` of the view.
impl<'a, T: BitStore, O: BitOrder> fmt::Debug for Chunks<'a, T, O> {
    fn fmt<W: fmt::Write>(&self, f: &mut fmt::Formatter<W>) -> fmt::Result {
        write_parts("Chunks", self.size, self.from..self.upto, self.view, f)
    }
}

impl<'a, T: BitStore, O: BitOrder> Clone for ChunksExact<'a, T, O> {
    ghost is_clone = { λ a b. (exact_chunks_left b ≡ exact_chunks_left a) × (exact_chunks_walk b ≡ exact_chunks_walk a) };

    ghost is_infallible = { λ _. ⊤ };

    /// The same iterator, with the same left. Takes no memory.
    fn clone(&self) -> Result<Self, AllocError> {
        Ok(ChunksExact {
            view: self.view,
            size: self.size,
            from: self.from,
            upto: self.upto,
        })
    }
}

/// Like that of `Chunks`, with its own name.
impl<'a, T: BitStore, O: BitOrder> fmt::Debug for ChunksExact<'a, T, O> {
    fn fmt<W: fmt::Write>(&self, f: &mut fmt::Formatter<W>) -> fmt::Result {
        write_parts("ChunksExact", self.size, self.from..self.upto, self.view, f)
    }
}

impl<'a, T: BitStore, O: BitOrder> Clone for RChunks<'a, T, O> {
    ghost is_clone = { λ a b. (back_chunks_left b ≡ back_chunks_left a) × (back_chunks_walk b ≡ back_chunks_walk a) };

    ghost is_infallible = { λ _. ⊤ };

    /// The same iterator, with the same left. Takes no memory.
    fn clone(&self) -> Result<Self, AllocError> {
        Ok(RChunks {
            view: self.view,
            size: self.size,
            from: self.from,
            upto: self.upto,
        })
    }
}

/// Like that of `Chunks`, with its own name.
impl<'a, T: BitStore, O: BitOrder> fmt::Debug for RChunks<'a, T, O> {
    fn fmt<W: fmt::Write>(&self, f: &mut fmt::Formatter<W>) -> fmt::Result {
        write_parts("RChunks", self.size, self.from..self.upto, self.view, f)
    }
}

impl<'a, T: BitStore, O: BitOrder> Clone for Windows<'a, T, O> {
    ghost is_clone = { λ a b. (windows_left b ≡ windows_left a) × (windows_walk b ≡ windows_walk a) };

    ghost is_infallible = { λ _. ⊤ };

    /// The same iterator, with the same left. Takes no memory.
    fn clone(&self) -> Result<Self, AllocError> {
        Ok(Windows {
            view: self.view,
            size: self.size,
            from: self.from,
            upto: self.upto,
        })
    }
}

/// Like that of `Chunks`, with its own name.
impl<'a, T: BitStore, O: BitOrder> fmt::Debug for Windows<'a, T, O> {
    fn fmt<W: fmt::Write>(&self, f: &mut fmt::Formatter<W>) -> fmt::Result {
        write_parts("Windows", self.size, self.from..self.upto, self.view, f)
    }
}
