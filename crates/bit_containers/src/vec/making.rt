//! The vector made of bytes and of indices, and bytes made of it.
ghost use Rattle.std.specs.Prelude.{◌≡◌, ℕ, ◌*◌, ◌<◌, ◌↔◌, true, All, Contains, Err, IfOk, OnErr, Some, length, slice_get};
ghost use Rattle.bit_addressing.specs.Row.{words_for};
ghost use Rattle.bit_addressing.specs.Typed.{row, words_for_list};
ghost use Rattle.bit_addressing.specs.declared.length.TheConstants.{MAX_BITS};
ghost use Rattle.bit_containers.specs.BitVec.{IsClean};
ghost use Rattle.bit_containers.specs.Making.{marked};

use crate::vec::BitVec;
use crate::vec::boxes::bytes_of;
use bit_addressing::{BitOrder, BitStore, GrowError};
use bit_slice::{BitListMut, BitSlice};
use std::alloc::{AllocError, Global};

impl<T: BitStore, O: BitOrder> BitVec<T, O> {
    /// All bits of these bytes, each byte in the order `P`, from head 0 on, by whole words: eight bits for
    /// each byte, whatever words the vector has. Returns `TooLong` exactly where they pass `MAX_BITS`. Takes
    /// memory where there is a byte.
    ///
    /// ```text
    /// BitVec::<u16, Lsb0>::from_bytes::<Msb0>(alloc, &[0xa0])?     // 1, 0, 1, 0, 0, 0, 0, 0
    /// ```
    pub fn from_bytes<P: BitOrder>(alloc: Global, bytes: &[u8]) -> Result<Self, GrowError>
        ensures head { IfOk result (λ v. v.head ≡ 0) }
        ensures list { IfOk result (λ v. v.list ≡ row ⟦<u8 as BitStore>⟧ P.BitOrder bytes.now) }
        ensures len { IfOk result (λ v. length v.list ≡ 8 * length bytes.now) }
        ensures clean { IfOk result (λ v. IsClean T.BITS v) }
        ensures too_long { (result ≡ Err GrowError.TooLong) ↔ (MAX_BITS < 8 * length bytes.now) }
        ensures memory { result ≡ Err GrowError.OutOfMemory → 0 < length bytes.now }
    {
        let view = BitSlice::<u8, P>::try_from_slice(bytes)?;
        let _len = view.len();
        let mut v = Self::new(alloc);
        v.extend_from_bitslice(view)?;
        Ok(v)
    }

    /// The list as bytes, each in the order `P`, by whole words; the bits of the last byte that the list does not
    /// reach are false. Head, words and dead bits don't count. Allocates, and can fail, only where there is a bit.
    ///
    /// ```text
    /// of the bits 1, 0, 1:  v.to_bytes::<Msb0>(alloc)?     // the one byte 0xa0
    /// ```
    pub fn to_bytes<P: BitOrder>(&self, alloc: Global) -> Result<Vec<u8>, AllocError>
        ensures bytes { IfOk result
            (λ bytes. bytes.items ≡ words_for_list ⟦<u8 as BitStore>⟧ P.BitOrder self.now.list) }
        ensures len { IfOk result (λ bytes. length bytes.items ≡ words_for 8 (length self.now.list)) }
        ensures memory { OnErr result (0 < length self.now.list) }
    {
        bytes_of::<P, T, O>(self.as_bitslice(), alloc)
    }

    /// The list of `len` bits that are true exactly at these indices, from head 0 on; an index may come twice.
    /// Returns `TooLong` exactly where `len` passes `MAX_BITS`. Takes no memory where `len` is 0. Requires that each
    /// index is below `len`.
    ///
    /// ```text
    /// BitVec::<u8, Lsb0>::from_indices(alloc, 5, &[3, 0])?     // 1, 0, 0, 1, 0
    /// ```
    #[tactic(auto, using(crate::proofs::Making::marked_more))]
    pub fn from_indices(alloc: Global, len: usize, indices: &[usize]) -> Result<Self, GrowError>
        requires below { All (λ i. i < len) indices.now }
        ensures head { IfOk result (λ v. v.head ≡ 0) }
        ensures list { IfOk result (λ v. v.list ≡ marked len indices.now) }
        ensures len { IfOk result (λ v. length v.list ≡ len) }
        ensures index { IfOk result (λ v. (j : ℕ) → (slice_get v.list j ≡ Some true) ↔ Contains indices.now j) }
        ensures clean { IfOk result (λ v. IsClean T.BITS v) }
        ensures too_long { (result ≡ Err GrowError.TooLong) ↔ (MAX_BITS < len) }
        ensures memory { result ≡ Err GrowError.OutOfMemory → 0 < len }
    {
        let mut v = Self::repeat(alloc, false, len)?;
        for index in indices {
            v.set(*index, true);
        }
        Ok(v)
    }
}
