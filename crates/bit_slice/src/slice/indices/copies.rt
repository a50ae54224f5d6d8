//! Iterators over indices, copied and shown.
ghost use Rattle.std.specs.Prelude.{◌≡◌, ⊤};
ghost use Rattle.bit_slice.specs.Indices.{ones_left, zeros_left};

use crate::slice::BitSlice;
use crate::slice::indices::{IterOnes, IterZeros};
use crate::texts::write_list;
use bit_addressing::{BitOrder, BitStore};
use std::alloc::AllocError;
use std::fmt;
use std::ops::Range;

// Writes `name { from: .., upto: .. } ` and the list of the view.
fn write_indices<T: BitStore, O: BitOrder, W: fmt::Write>(
    name: &str,
    left: Range<usize>,
    view: BitSlice<'_, T, O>,
    f: &mut fmt::Formatter<W>,
) -> fmt::Result {
    let (from, upto) = (left.start, left.end);
    write!(f, "{name} {{ from: {from}, upto: {upto} }} ")?;
    write_list(view, f)
}

impl<'a, T: BitStore, O: BitOrder> Clone for IterOnes<'a, T, O> {
    ghost is_clone = { λ a b. ones_left b ≡ ones_left a };

    ghost is_infallible = { λ _. ⊤ };

    /// The same iterator, with the same left. Takes no memory.
    fn clone(&self) -> Result<Self, AllocError> {
        Ok(IterOnes {
            view: self.view,
            upto: self.upto,
            chunk: self.chunk,
            base: self.base,
            end: self.end,
            whole: self.whole,
        })
    }
}

/// `IterOnes { from: `, the first index that was not returned, `, upto: `, the index after the last one that was not, ` } `, and the
/// text of `Display` of the view.
impl<'a, T: BitStore, O: BitOrder> fmt::Debug for IterOnes<'a, T, O> {
    fn fmt<W: fmt::Write>(&self, f: &mut fmt::Formatter<W>) -> fmt::Result {
        write_indices("IterOnes", self.next_at()..self.upto, self.view, f)
    }
}

impl<'a, T: BitStore, O: BitOrder> Clone for IterZeros<'a, T, O> {
    ghost is_clone = { λ a b. zeros_left b ≡ zeros_left a };

    ghost is_infallible = { λ _. ⊤ };

    /// The same iterator, with the same left. Takes no memory.
    fn clone(&self) -> Result<Self, AllocError> {
        Ok(IterZeros {
            view: self.view,
            from: self.from,
            upto: self.upto,
        })
    }
}

/// Like that of `IterOnes`, with its own name.
impl<'a, T: BitStore, O: BitOrder> fmt::Debug for IterZeros<'a, T, O> {
    fn fmt<W: fmt::Write>(&self, f: &mut fmt::Formatter<W>) -> fmt::Result {
        write_indices("IterZeros", self.from..self.upto, self.view, f)
    }
}
