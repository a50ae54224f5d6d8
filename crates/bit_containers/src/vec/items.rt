//! The bits that a splice replaces, one after another.
ghost use Rattle.std.specs.Prelude.{◌≡◌, length};

use bit_addressing::{BitOrder, BitStore, Lsb0};
use bit_slice::Iter;
use bit_slice::inner::write_list;
use std::alloc::AllocError;
use std::fmt;
use std::iter::FusedIterator;

/// The replaced bits that a `Splice` had left, from both ends, each once.
///
/// Its length is known, and after the first None there is no more. It takes no memory.
#[derive(Drop)]
pub struct Items<'b, T: BitStore = usize, O: BitOrder = Lsb0> {
    inner: Iter<'b, T, O>,
}

impl<'b, T: BitStore, O: BitOrder> Items<'b, T, O> {
    ghost use Rattle.bit_slice.specs.Iter.{rest_of};
    ghost use Rattle.bit_containers.specs.Items.{items_rest};

    // The bits of an iterator over a view.
    pub(crate) fn of(inner: Iter<'b, T, O>) -> Self
        ensures { items_rest result ≡ rest_of inner.entry }
    {
        Items { inner }
    }
}

impl<'b, T: BitStore, O: BitOrder> Iterator for Items<'b, T, O> {
    ghost use Rattle.std.specs.Prelude.{◌≡◌, IfSome, Some, length};
    ghost use Rattle.std.specs.Iterator.{YieldsFirst, UpTo, at_most, item_count};
    ghost use Rattle.std.specs.Iterator.SizeHint.{IsWithinCount};
    ghost use Rattle.bit_containers.specs.Items.{items_rest};

    type Item = bool;

    ghost next_gives = { YieldsFirst items_rest };

    ghost remaining = { item_count items_rest };

    /// The first bit that is left. None exactly where none is.
    fn next(&mut self) -> Option<bool> {
        self.inner.next()
    }

    /// The number of bits that are left, as both bounds: it is exact.
    fn size_hint(&self) -> (usize, Option<usize>)
        ensures lower { IsWithinCount result.0 (at_most (length (items_rest self.now))) }
        ensures upper { IfSome result.1 (UpTo (at_most (length (items_rest self.now)))) }
        ensures value { result ≡ (length (items_rest self.now), Some (length (items_rest self.now))) }
    {
        let count = self.inner.len();
        (count, Some(count))
    }
}

impl<'b, T: BitStore, O: BitOrder> DoubleEndedIterator for Items<'b, T, O> {
    ghost use Rattle.std.specs.Iterator.{YieldsLast};
    ghost use Rattle.bit_containers.specs.Items.{items_rest};

    ghost next_back_gives = { YieldsLast items_rest };

    /// The last bit that is left. None exactly where none is.
    fn next_back(&mut self) -> Option<bool> {
        self.inner.next_back()
    }
}

impl<'b, T: BitStore, O: BitOrder> ExactSizeIterator for Items<'b, T, O> {
    /// The number of bits left.
    fn len(&self) -> usize {
        self.inner.len()
    }
}

impl<'b, T: BitStore, O: BitOrder> FusedIterator for Items<'b, T, O> {}

impl<'b, T: BitStore, O: BitOrder> Clone for Items<'b, T, O> {
    ghost use Rattle.std.specs.Prelude.{⊤};
    ghost use Rattle.bit_containers.specs.Items.{items_rest};

    ghost is_clone = { λ a b. items_rest b ≡ items_rest a };

    ghost is_infallible = { λ _. ⊤ };

    /// The same iterator, with the same left. Takes no memory.
    fn clone(&self) -> Result<Self, AllocError> {
        Ok(Items {
            inner: self.inner.clone()?,
        })
    }
}

/// `Items(`, the text of the bits that are left, and `)`.
impl<'b, T: BitStore, O: BitOrder> fmt::Debug for Items<'b, T, O> {
    fn fmt<W: fmt::Write>(&self, f: &mut fmt::Formatter<W>) -> fmt::Result {
        f.write_str("Items(")?;
        write_list(self.inner.as_bitslice(), f)?;
        f.write_str(")")
    }
}
