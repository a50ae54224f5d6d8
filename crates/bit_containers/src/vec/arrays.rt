//! Arrays made of bytes, of indices and of text, and bytes made of arrays.
ghost use Rattle.std.specs.Prelude.{◌≡◌, ◌*◌, ◌<◌, ◌≤◌, ◌↔◌, All, Err, IfErr, IfOk, IfSome, IsOk, IsSome, OnErr, Some, length};
ghost use Rattle.bit_addressing.specs.Row.{words_for};
ghost use Rattle.bit_addressing.specs.Typed.{row, words_for_list};
ghost use Rattle.bit_addressing.specs.declared.length.TheConstants.{MAX_BITS};
ghost use Rattle.bit_slice.specs.BitSlice.{len_of, list_of};
ghost use Rattle.bit_containers.specs.Making.{marked};
ghost use Rattle.bit_containers.specs.Text.{bits_said};

use crate::vec::BitVec;
use crate::vec::boxes::{FromBits, ToBytes, bytes_of};
use crate::vec::text::ParseBitsError;
use bit_addressing::{BitOrder, BitStore, GrowError};
use bit_array::{BitArray, BitViewSized, BitWords};
use bit_slice::{BitListMut, BitSlice};
use std::alloc::{AllocError, Global};

// The array of a view's bits. None exactly where it has not as many.
fn array_of<A: BitViewSized, O: BitOrder, U: BitStore, P: BitOrder>(
    view: BitSlice<'_, U, P>,
) -> Option<BitArray<A, O>>
    ensures list { IfSome result (λ a. row A.Store.BitStore O.BitOrder (A.words a) ≡ list_of view.entry) }
    ensures fits { IsSome result ↔ (len_of view.entry ≡ A.Store.BITS * A.count) }
{
    let len = view.len();
    if !BitArray::<A, O>::fits() {
        return None;
    }
    let mut array = BitArray::<A, O>::zero();
    if array.len() != len {
        return None;
    }
    array.clone_from_bitslice(view);
    Some(array)
}

impl<A: BitViewSized, O: BitOrder> FromBits for BitArray<A, O> {
    ghost bits_in = { λ a. row A.Store.BitStore O.BitOrder (A.words a) };

    /// All bits of these bytes, each byte in the order `P`. Returns `TooLong` exactly where the array has another
    /// number of bits, or they pass `MAX_BITS`. Takes no memory.
    fn from_bytes<P: BitOrder>(alloc: Global, bytes: &[u8]) -> Result<BitArray<A, O>, GrowError>
        ensures list { IfOk result (λ a. row A.Store.BitStore O.BitOrder (A.words a)
            ≡ row ⟦<u8 as BitStore>⟧ P.BitOrder bytes.now) }
        ensures fits { IsOk result
            ↔ ((8 * length bytes.now ≡ A.Store.BITS * A.count) × (8 * length bytes.now ≤ MAX_BITS)) }
        ensures too_long { IfErr result (λ why. why ≡ GrowError.TooLong) }
    {
        let view = BitSlice::<u8, P>::try_from_slice(bytes)?;
        match array_of(view) {
            Some(array) => Ok(array),
            None => Err(GrowError::TooLong),
        }
    }

    /// The list of `len` bits that are true exactly at these indices; an index may come twice. Returns `TooLong` where
    /// the array has another number of bits than `len`. Takes memory where `len` is not 0. Requires that each index is
    /// below `len`.
    fn from_indices(
        alloc: Global,
        len: usize,
        indices: &[usize],
    ) -> Result<BitArray<A, O>, GrowError>
        requires { All (λ i. i < len) indices.now }
        ensures list { IfOk result (λ a. row A.Store.BitStore O.BitOrder (A.words a) ≡ marked len indices.now) }
        ensures len { IfOk result (λ a. len ≡ A.Store.BITS * A.count) }
        ensures memory { result ≡ Err GrowError.OutOfMemory → 0 < len }
    {
        let v = BitVec::<A::Store, O>::from_indices(alloc, len, indices)?;
        match array_of(v.as_bitslice()) {
            Some(array) => Ok(array),
            None => Err(GrowError::TooLong),
        }
    }

    /// The bits that a text says: digits alone, or what `Display` writes of a list. It is refused like that of a
    /// vector, and returns `TooLong` where the array has another number of bits. Takes memory where there is a digit.
    fn from_text(alloc: Global, text: &str) -> Result<BitArray<A, O>, ParseBitsError>
        ensures list { IfOk result (λ a. bits_said text.now ≡ Some (row A.Store.BitStore O.BitOrder (A.words a))) }
        ensures memory { result ≡ Err ParseBitsError.OutOfMemory → 0 < length text.now }
    {
        let v = BitVec::<A::Store, O>::from_text(alloc, text)?;
        match array_of(v.as_bitslice()) {
            Some(array) => Ok(array),
            None => Err(ParseBitsError::TooLong),
        }
    }
}

impl<A: BitWords, O: BitOrder> ToBytes for BitArray<A, O> {
    ghost bits_in = { λ a. row A.Store.BitStore O.BitOrder (A.words a) };

    /// The list as bytes: as `BitVec::to_bytes`.
    fn to_bytes<P: BitOrder>(&self, alloc: Global) -> Result<Vec<u8>, AllocError>
        ensures bytes { IfOk result (λ bytes. bytes.items
            ≡ words_for_list ⟦<u8 as BitStore>⟧ P.BitOrder (row A.Store.BitStore O.BitOrder (A.words self.now))) }
        ensures len { IfOk result (λ bytes. length bytes.items
            ≡ words_for 8 (length (row A.Store.BitStore O.BitOrder (A.words self.now)))) }
        ensures memory { OnErr result (0 < length (row A.Store.BitStore O.BitOrder (A.words self.now))) }
    {
        bytes_of::<P, A::Store, O>(self.as_bitslice(), alloc)
    }
}
