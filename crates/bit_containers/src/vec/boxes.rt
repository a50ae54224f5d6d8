//! Boxes and vectors made of bytes, of indices and of text, and bytes made of boxes, vectors and views.
ghost use Rattle.std.specs.Prelude.{◌≡◌, ℕ, ◌*◌, ◌<◌, ◌↔◌, All, Bool, Contains, Err, IfErr, IfOk, List, OnErr, Some, length, slice_get, true};
ghost use Rattle.bit_addressing.specs.Row.{words_for};
ghost use Rattle.bit_addressing.specs.Typed.{row, words_for_list};
ghost use Rattle.bit_addressing.specs.declared.length.TheConstants.{MAX_BITS};
ghost use Rattle.bit_slice.specs.Held.{IsClean};
ghost use Rattle.bit_slice.specs.BitSlice.{len_of, list_of};
ghost use Rattle.bit_containers.specs.Making.{marked};
ghost use Rattle.bit_containers.specs.Text.{IsTextOf, IsWrongAt, bits_said};

use crate::vec::BitVec;
use crate::vec::text::ParseBitsError;
use bit_addressing::{BitOrder, BitStore, GrowError};
use bit_boxed::BitBox;
use bit_slice::BitSlice;
use std::alloc::{AllocError, Global};

/// Containers that are made of bytes, of indices or of a text, like a vector.
///
/// ```text
/// let b = BitBox::<u16, Lsb0>::from_text(alloc, "0110")?;
/// ```
pub trait FromBits: Sized {
    // The bits that it has.
    ghost bits_in: { Self → List Bool };

    /// All bits of these bytes, each byte in the order `P`: as `BitVec::from_bytes`.
    fn from_bytes<P: BitOrder>(alloc: Global, bytes: &[u8]) -> Result<Self, GrowError>
        ensures { IfOk result (λ made. bits_in made ≡ row ⟦<u8 as BitStore>⟧ P.BitOrder bytes.now) };

    /// The list of `len` bits that are true exactly at these indices: as `BitVec::from_indices`. Requires that each
    /// index is below `len`.
    fn from_indices(alloc: Global, len: usize, indices: &[usize]) -> Result<Self, GrowError>
        requires { All (λ i. i < len) indices.now }
        ensures { IfOk result (λ made. bits_in made ≡ marked len indices.now) };

    /// The bits that a text says: as `BitVec::from_text`.
    fn from_text(alloc: Global, text: &str) -> Result<Self, ParseBitsError>
        ensures { IfOk result (λ made. bits_said text.now ≡ Some (bits_in made)) };
}

impl<T: BitStore, O: BitOrder> FromBits for BitBox<T, O> {
    ghost bits_in = { λ b. b.list };

    /// All bits of these bytes, each byte in the order `P`, from head 0 on, by whole words. Returns `TooLong` exactly
    /// where they pass `MAX_BITS`. Takes memory where there is a byte.
    fn from_bytes<P: BitOrder>(alloc: Global, bytes: &[u8]) -> Result<BitBox<T, O>, GrowError>
        ensures head { IfOk result (λ b. b.head ≡ 0) }
        ensures list { IfOk result (λ b. b.list ≡ row ⟦<u8 as BitStore>⟧ P.BitOrder bytes.now) }
        ensures len { IfOk result (λ b. length b.list ≡ 8 * length bytes.now) }
        ensures clean { IfOk result (λ b. IsClean T.BITS b) }
        ensures too_long { (result ≡ Err GrowError.TooLong) ↔ (MAX_BITS < 8 * length bytes.now) }
        ensures memory { result ≡ Err GrowError.OutOfMemory → 0 < length bytes.now }
    {
        let v = BitVec::<T, O>::from_bytes::<P>(alloc, bytes)?;
        Ok(v.into_boxed_bitslice()?)
    }

    /// The list of `len` bits that are true exactly at these indices, from head 0 on; an index may come twice.
    /// Returns `TooLong` exactly where `len` passes `MAX_BITS`. Takes no memory where `len` is 0. Requires that each
    /// index is below `len`.
    fn from_indices(alloc: Global, len: usize, indices: &[usize]) -> Result<BitBox<T, O>, GrowError>
        requires { All (λ i. i < len) indices.now }
        ensures head { IfOk result (λ b. b.head ≡ 0) }
        ensures list { IfOk result (λ b. b.list ≡ marked len indices.now) }
        ensures len { IfOk result (λ b. length b.list ≡ len) }
        ensures index { IfOk result (λ b. (j : ℕ) → (slice_get b.list j ≡ Some true) ↔ Contains indices.now j) }
        ensures clean { IfOk result (λ b. IsClean T.BITS b) }
        ensures too_long { (result ≡ Err GrowError.TooLong) ↔ (MAX_BITS < len) }
        ensures memory { result ≡ Err GrowError.OutOfMemory → 0 < len }
    {
        let v = BitVec::<T, O>::from_indices(alloc, len, indices)?;
        Ok(v.into_boxed_bitslice()?)
    }

    /// The bits that a text says, from head 0 on: digits alone, or what `Display` writes of a list. Returns
    /// `Wrong` with the index of the first wrong byte, or with the text's length where it ends too early, and
    /// `TooLong` only where the text has more than `MAX_BITS` bytes. Takes memory where there is a digit.
    fn from_text(alloc: Global, text: &str) -> Result<BitBox<T, O>, ParseBitsError>
        ensures head { IfOk result (λ b. b.head ≡ 0) }
        ensures list { IfOk result (λ b. bits_said text.now ≡ Some b.list) }
        ensures clean { IfOk result (λ b. IsClean T.BITS b) }
        ensures says { IfOk result (λ b. IsTextOf text.now b.list) }
        ensures reads_back { IfOk result (λ b. (bits : List Bool) → IsTextOf text.now bits → b.list ≡ bits) }
        ensures wrong { IfErr result (IsWrongAt text.now) }
        ensures too_long { result ≡ Err ParseBitsError.TooLong → MAX_BITS < length text.now }
        ensures memory { result ≡ Err ParseBitsError.OutOfMemory → 0 < length text.now }
    {
        let v = BitVec::<T, O>::from_text(alloc, text)?;
        match v.into_boxed_bitslice() {
            Ok(b) => Ok(b),
            Err(AllocError) => Err(ParseBitsError::OutOfMemory),
        }
    }
}

impl<T: BitStore, O: BitOrder> FromBits for BitVec<T, O> {
    ghost bits_in = { λ v. v.list };

    /// Like the vector's own `from_bytes`.
    fn from_bytes<P: BitOrder>(alloc: Global, bytes: &[u8]) -> Result<BitVec<T, O>, GrowError>
        ensures head { IfOk result (λ v. v.head ≡ 0) }
        ensures list { IfOk result (λ v. v.list ≡ row ⟦<u8 as BitStore>⟧ P.BitOrder bytes.now) }
        ensures len { IfOk result (λ v. length v.list ≡ 8 * length bytes.now) }
        ensures clean { IfOk result (λ v. IsClean T.BITS v) }
        ensures too_long { (result ≡ Err GrowError.TooLong) ↔ (MAX_BITS < 8 * length bytes.now) }
        ensures memory { result ≡ Err GrowError.OutOfMemory → 0 < length bytes.now }
    {
        BitVec::<T, O>::from_bytes::<P>(alloc, bytes)
    }

    /// Like the vector's own `from_indices`. Requires that each index is below `len`.
    fn from_indices(alloc: Global, len: usize, indices: &[usize]) -> Result<BitVec<T, O>, GrowError>
        requires { All (λ i. i < len) indices.now }
        ensures head { IfOk result (λ v. v.head ≡ 0) }
        ensures list { IfOk result (λ v. v.list ≡ marked len indices.now) }
        ensures len { IfOk result (λ v. length v.list ≡ len) }
        ensures index { IfOk result (λ v. (j : ℕ) → (slice_get v.list j ≡ Some true) ↔ Contains indices.now j) }
        ensures clean { IfOk result (λ v. IsClean T.BITS v) }
        ensures too_long { (result ≡ Err GrowError.TooLong) ↔ (MAX_BITS < len) }
        ensures memory { result ≡ Err GrowError.OutOfMemory → 0 < len }
    {
        BitVec::<T, O>::from_indices(alloc, len, indices)
    }

    /// Like the vector's own `from_text`.
    fn from_text(alloc: Global, text: &str) -> Result<BitVec<T, O>, ParseBitsError>
        ensures head { IfOk result (λ v. v.head ≡ 0) }
        ensures list { IfOk result (λ v. bits_said text.now ≡ Some v.list) }
        ensures clean { IfOk result (λ v. IsClean T.BITS v) }
        ensures says { IfOk result (λ v. IsTextOf text.now v.list) }
        ensures reads_back { IfOk result (λ v. (bits : List Bool) → IsTextOf text.now bits → v.list ≡ bits) }
        ensures wrong { IfErr result (IsWrongAt text.now) }
        ensures too_long { result ≡ Err ParseBitsError.TooLong → MAX_BITS < length text.now }
        ensures memory { result ≡ Err ParseBitsError.OutOfMemory → 0 < length text.now }
    {
        BitVec::<T, O>::from_text(alloc, text)
    }
}

/// Values whose bits are written as bytes.
///
/// ```text
/// let bytes = b.to_bytes::<Msb0>(alloc)?;     // eight bits a byte, the first the most significant
/// ```
pub trait ToBytes {
    // The bits that it has.
    ghost bits_in: { Self → List Bool };

    /// The list as bytes, each in the order `P`, by whole words; the bits of the last byte that the list does not
    /// reach are false. Allocates, and can fail, only where there is a bit.
    fn to_bytes<P: BitOrder>(&self, alloc: Global) -> Result<Vec<u8>, AllocError>
        ensures bytes { IfOk result
            (λ bytes. bytes.items ≡ words_for_list ⟦<u8 as BitStore>⟧ P.BitOrder (bits_in self.now)) }
        ensures len { IfOk result (λ bytes. length bytes.items ≡ words_for 8 (length (bits_in self.now))) }
        ensures memory { OnErr result (0 < length (bits_in self.now)) };
}

impl<T: BitStore, O: BitOrder> ToBytes for BitBox<T, O> {
    ghost bits_in = { λ b. b.list };

    /// The list as bytes: as `BitVec::to_bytes`.
    fn to_bytes<P: BitOrder>(&self, alloc: Global) -> Result<Vec<u8>, AllocError>
        ensures bytes { IfOk result
            (λ bytes. bytes.items ≡ words_for_list ⟦<u8 as BitStore>⟧ P.BitOrder self.now.list) }
        ensures len { IfOk result (λ bytes. length bytes.items ≡ words_for 8 (length self.now.list)) }
        ensures memory { OnErr result (0 < length self.now.list) }
    {
        bytes_of::<P, T, O>(self.as_bitslice(), alloc)
    }
}

impl<T: BitStore, O: BitOrder> ToBytes for BitVec<T, O> {
    ghost bits_in = { λ v. v.list };

    /// The list as bytes: as the vector's own `to_bytes`.
    fn to_bytes<P: BitOrder>(&self, alloc: Global) -> Result<Vec<u8>, AllocError>
        ensures bytes { IfOk result
            (λ bytes. bytes.items ≡ words_for_list ⟦<u8 as BitStore>⟧ P.BitOrder self.now.list) }
        ensures len { IfOk result (λ bytes. length bytes.items ≡ words_for 8 (length self.now.list)) }
        ensures memory { OnErr result (0 < length self.now.list) }
    {
        bytes_of::<P, T, O>(self.as_bitslice(), alloc)
    }
}

impl<'a, T: BitStore, O: BitOrder> ToBytes for BitSlice<'a, T, O> {
    ghost bits_in = { λ view. list_of view };

    /// The list as bytes: as `BitVec::to_bytes`.
    fn to_bytes<P: BitOrder>(&self, alloc: Global) -> Result<Vec<u8>, AllocError>
        ensures bytes { IfOk result
            (λ bytes. bytes.items ≡ words_for_list ⟦<u8 as BitStore>⟧ P.BitOrder (list_of self.now)) }
        ensures len { IfOk result (λ bytes. length bytes.items ≡ words_for 8 (length (list_of self.now))) }
        ensures memory { OnErr result (0 < length (list_of self.now)) }
    {
        bytes_of::<P, T, O>(*self, alloc)
    }
}

// The bits of a view as bytes, each in the order `P`.
pub(crate) fn bytes_of<P: BitOrder, T: BitStore, O: BitOrder>(
    view: BitSlice<'_, T, O>,
    alloc: Global,
) -> Result<Vec<u8>, AllocError>
    ensures bytes { IfOk result
        (λ bytes. bytes.items ≡ words_for_list ⟦<u8 as BitStore>⟧ P.BitOrder (list_of view.entry)) }
    ensures len { IfOk result (λ bytes. length bytes.items ≡ words_for 8 (length (list_of view.entry))) }
    ensures memory { OnErr result (0 < length (list_of view.entry)) }
{
    let _len = view.len();
    let mut copy = BitVec::<u8, P>::new(alloc);
    match copy.extend_from_bitslice(view) {
        Ok(()) => Ok(copy.into_vec()),
        Err(GrowError::TooLong) => Err(AllocError),
        Err(GrowError::OutOfMemory) => Err(AllocError),
    }
}
