//! Views copied into a vector or a box of their own.
ghost use Rattle.std.specs.Prelude.{◌≡◌, ◌<◌, IfOk, OnErr, length};
ghost use Rattle.bit_slice.specs.Held.{Held as HeldBox, IsClean as IsCleanBox};
ghost use Rattle.bit_containers.specs.BitVec.{Held, IsClean};
ghost use Rattle.bit_slice.specs.BitSlice.{len_of, list_of};

use crate::vec::BitVec;
use bit_addressing::{BitOrder, BitStore};
use bit_boxed::BitBox;
use bit_slice::BitSlice;
use std::alloc::{AllocError, Global};

/// Values that can be copied into a vector or a box of their bits.
///
/// ```text
/// let v = view.get_range(2..5).to_bitvec(alloc)?;     // three bits, from head 0 on
/// ```
pub trait ToBits: Sized {
    /// The type of the words.
    type Store: BitStore;

    /// The order of the bits in a word.
    type Order: BitOrder;

    // What holds of the vector that is made.
    ghost to_bitvec_gives: { Self → Held Self.Store → Type 0 };

    // What holds of the box that is made.
    ghost to_bitbox_gives: { Self → HeldBox Self.Store → Type 0 };

    /// A vector of the same bits, from head 0 on. Takes memory where there is a bit.
    fn to_bitvec(self, alloc: Global) -> Result<BitVec<Self::Store, Self::Order>, AllocError>
        ensures { IfOk result (to_bitvec_gives self) };

    /// A box of the same bits, from head 0 on. Takes memory where there is a bit.
    fn to_bitbox(self, alloc: Global) -> Result<BitBox<Self::Store, Self::Order>, AllocError>
        ensures { IfOk result (to_bitbox_gives self) };
}

impl<'a, T: BitStore, O: BitOrder> ToBits for BitSlice<'a, T, O> {
    type Store = T;

    type Order = O;

    ghost to_bitvec_gives = { λ view v. (v.list ≡ list_of view) × (length v.list ≡ len_of view) × IsClean T.BITS v };

    ghost to_bitbox_gives = { λ view b. (b.list ≡ list_of view) × (length b.list ≡ len_of view)
        × IsCleanBox T.BITS b };

    /// A vector of the same bits, from head 0 on, by whole words: as `BitVec::from_bitslice`. Allocates, and can
    /// fail, only where the view has a bit.
    fn to_bitvec(self, alloc: Global) -> Result<BitVec<T, O>, AllocError>
        ensures bits { IfOk result
            (λ v. (v.list ≡ list_of self.entry) × (length v.list ≡ len_of self.entry) × IsClean T.BITS v) }
        ensures memory { OnErr result (0 < len_of self.entry) }
    {
        BitVec::from_bitslice(alloc, self)
    }

    /// A box of the same bits, from head 0 on, by whole words: as `BitBox::from_bitslice`. Allocates, and can fail,
    /// only where the view has a bit.
    fn to_bitbox(self, alloc: Global) -> Result<BitBox<T, O>, AllocError>
        ensures bits { IfOk result (λ b. (b.list ≡ list_of self.entry) × (length b.list ≡ len_of self.entry)
            × IsCleanBox T.BITS b) }
        ensures memory { OnErr result (0 < len_of self.entry) }
    {
        BitBox::from_bitslice(alloc, self)
    }
}
