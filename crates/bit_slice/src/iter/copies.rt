//! Iterators over the bits of a view, copied and shown.
ghost use Rattle.std.specs.Prelude.{◌≡◌, ⊤};
ghost use Rattle.bit_slice.specs.Iter.{rest_of};

use crate::iter::Iter;
use crate::texts::write_list;
use bit_addressing::{BitOrder, BitStore};
use std::alloc::AllocError;
use std::fmt;
use std::marker::PhantomData;

impl<'a, T: BitStore, O: BitOrder> Clone for Iter<'a, T, O> {
    ghost is_clone = { λ a b. rest_of b ≡ rest_of a };

    ghost is_infallible = { λ _. ⊤ };

    /// The same iterator, with the same left. Takes no memory.
    fn clone(&self) -> Result<Self, AllocError> {
        Ok(Iter {
            words: self.words,
            from: self.from,
            upto: self.upto,
            order: PhantomData,
        })
    }
}

/// `Iter { bits: `, how many are left, ` } `, and the text of `Display` of the bits that are left.
impl<'a, T: BitStore, O: BitOrder> fmt::Debug for Iter<'a, T, O> {
    fn fmt<W: fmt::Write>(&self, f: &mut fmt::Formatter<W>) -> fmt::Result {
        let left = self.upto - self.from;
        write!(f, "Iter {{ bits: {left} }} ")?;
        write_list(self.as_bitslice(), f)
    }
}
