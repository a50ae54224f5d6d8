//! Iterators over ones, copied and shown.
ghost use Rattle.std.specs.Prelude.{◌≡◌, ⊤};
ghost use Rattle.bit_ranks.specs.Ones.{ones_from};

use crate::ones::OnesFrom;
use bit_containers::{BitOrder, BitStore};
use std::alloc::AllocError;
use std::fmt;

impl<'a, T: BitStore, O: BitOrder> Clone for OnesFrom<'a, T, O> {
    ghost is_clone = { λ a b. ones_from b ≡ ones_from a };

    ghost is_infallible = { λ _. ⊤ };

    /// The same iterator, with the same left. Takes no memory.
    fn clone(&self) -> Result<Self, AllocError> {
        let ones = self.ones.clone()?;
        Ok(OnesFrom {
            ones,
            base: self.base,
            left: self.left,
        })
    }
}

/// `OnesFrom { base: `, the index at which the iterator began, `, left: `, how many indices are left, ` } `, and the text
/// of `Debug` of the iterator over the bits from there on.
impl<'a, T: BitStore, O: BitOrder> fmt::Debug for OnesFrom<'a, T, O> {
    fn fmt<W: fmt::Write>(&self, f: &mut fmt::Formatter<W>) -> fmt::Result {
        let (base, left) = (self.base, self.left);
        write!(f, "OnesFrom {{ base: {base}, left: {left} }} ")?;
        fmt::Debug::fmt(&self.ones, f)
    }
}
