//! Callers that make vectors of other lists, of bytes, of indices and of text.
ghost use Rattle.std.specs.Prelude.{◌≡◌, ℕ, ◌<◌, ◌↔◌, All, Contains, Err, IfOk, OnOk, OnErr, IsOk, Some, true, false, [], ◌∷◌, length, slice_get};
ghost use Rattle.bit_addressing.specs.Text.{list_text};
ghost use Rattle.bit_slice.specs.BitRuns.{ranges_text};
ghost use Rattle.bit_slice.specs.BitSlice.{list_of};
ghost use Rattle.bit_slice.specs.Texts.{digits_text};

use bit_containers::boxed::BitBox;
use bit_containers::{
    BitOrder, BitSlice, BitStore, BitVec, FromBits, GrowError, Lsb0, Msb0, ParseBitsError, ToBits,
    ToBytes, text_bits,
};
use std::alloc::{AllocError, Global};

pub fn joined_sets<O: BitOrder>(
    v: &mut BitVec<u8, O>,
    other: &BitVec<u64, Lsb0>,
) -> Result<(), GrowError>
    requires first { v.old.list ≡ true ∷ false ∷ [] }
    requires second { other.now.list ≡ false ∷ false ∷ false ∷ true ∷ [] }
    ensures { OnOk result (v.new.list ≡ true ∷ false ∷ false ∷ true ∷ []) }
{
    v.or_growing(other.as_bitslice())
}

/// No longer a list takes no memory.
pub fn parted_sets<T: BitStore, O: BitOrder>(
    v: &mut BitVec<T, O>,
    other: &BitVec<u8, Msb0>,
) -> Result<(), GrowError>
    requires first { v.old.list ≡ true ∷ false ∷ true ∷ [] }
    requires second { other.now.list ≡ true ∷ true ∷ [] }
    ensures list { OnOk result (v.new.list ≡ false ∷ true ∷ true ∷ []) }
    ensures succeeds { IsOk result }
{
    v.xor_growing(other.as_bitslice())
}

pub fn kept_where_refused<T: BitStore, O: BitOrder>(
    v: &mut BitVec<T, O>,
    other: BitSlice<'_, u32, Msb0>,
) -> Result<(), GrowError>
    ensures { OnErr result (v.new.list ≡ v.old.list) }
{
    v.or_growing(other)
}

/// Three bits at the front of a byte.
pub fn byte_of_three<T: BitStore, O: BitOrder>(
    alloc: Global,
    v: &BitVec<T, O>,
) -> Result<Vec<u8>, AllocError>
    requires { v.now.list ≡ true ∷ false ∷ true ∷ [] }
    ensures { IfOk result (λ bytes. bytes.items ≡ 160 ∷ []) }
{
    v.to_bytes::<Msb0>(alloc)
}

pub fn bits_of_a_packet(alloc: Global, bytes: &[u8]) -> Result<usize, GrowError>
    requires { length bytes.now ≡ 20 }
    ensures { IfOk result (λ n. n ≡ 160) }
{
    let v = BitVec::<u32, Lsb0>::from_bytes::<Msb0>(alloc, bytes)?;
    Ok(v.len())
}

pub fn own_copy<T: BitStore, O: BitOrder>(
    alloc: Global,
    view: BitSlice<'_, T, O>,
) -> Result<BitVec<T, O>, AllocError>
    ensures { IfOk result (λ v. v.list ≡ list_of view.entry) }
{
    view.to_bitvec(alloc)
}

pub fn own_box<T: BitStore, O: BitOrder>(
    alloc: Global,
    view: BitSlice<'_, T, O>,
) -> Result<BitBox<T, O>, AllocError>
    ensures { IfOk result (λ b. b.list ≡ list_of view.entry) }
{
    view.to_bitbox(alloc)
}

/// A set of numbers, by a bit for each.
pub fn set_of(alloc: Global, numbers: &[usize]) -> Result<BitVec<usize, Lsb0>, GrowError>
    requires { All (λ i. i < 1000) numbers.now }
    ensures bound { IfOk result (λ v. length v.list ≡ 1000) }
    ensures members { IfOk result (λ v. (j : ℕ) → (slice_get v.list j ≡ Some true) ↔ Contains numbers.now j) }
{
    BitVec::from_indices(alloc, 1000, numbers)
}

pub fn known_text(alloc: Global) -> Result<BitVec<u8, Msb0>, ParseBitsError>
    ensures { IfOk result (λ v. v.list ≡ true ∷ false ∷ true ∷ []) }
{
    BitVec::from_text(alloc, "[1, 0, 1]")
}

/// What is written of a list says that list.
pub fn read_again<T: BitStore, O: BitOrder>(
    alloc: Global,
    v: &BitVec<T, O>,
    text: &str,
) -> Result<BitVec<u8, Lsb0>, ParseBitsError>
    requires { text.now ≡ list_text v.now.list }
    ensures list { IfOk result (λ again. again.list ≡ v.now.list) }
{
    BitVec::from_text(alloc, text)
}

/// A set of numbers that doesn't grow.
pub fn boxed_set_of(alloc: Global, numbers: &[usize]) -> Result<BitBox<usize, Lsb0>, GrowError>
    requires { All (λ i. i < 64) numbers.now }
    ensures members { IfOk result (λ b. (j : ℕ) → (slice_get b.list j ≡ Some true) ↔ Contains numbers.now j) }
{
    BitBox::from_indices(alloc, 64, numbers)
}

pub fn byte_of_a_view<T: BitStore, O: BitOrder>(
    alloc: Global,
    view: BitSlice<'_, T, O>,
) -> Result<Vec<u8>, AllocError>
    requires { list_of view ≡ false ∷ false ∷ true ∷ [] }
    ensures { IfOk result (λ bytes. bytes.items ≡ 32 ∷ []) }
{
    view.to_bytes::<Msb0>(alloc)
}

/// What is written in hexadecimal is read back.
pub fn hexadecimal_read_back(
    alloc: Global,
    text: &str,
    bits: &BitVec<u8, Msb0>,
) -> Result<BitVec<u64, Lsb0>, ParseBitsError>
    requires written { text.now ≡ digits_text 4 false bits.now.list }
    ensures { IfOk result (λ v. v.list ≡ bits.now.list) }
{
    BitVec::from_digits(alloc, text, 4, bits.len())
}

/// What is written as the ranges of the ones is read back.
pub fn ranges_read_back(
    alloc: Global,
    text: &str,
    bits: &BitVec<u8, Msb0>,
) -> Result<BitVec<u64, Lsb0>, ParseBitsError>
    requires written { text.now ≡ ranges_text true bits.now.list }
    ensures list { IfOk result (λ v. v.list ≡ bits.now.list) }
    ensures not_wrong { (at : ℕ) → result ≡ Err (ParseBitsError.Wrong at) → ⊥ }
{
    BitVec::from_ranges_text(alloc, text, bits.len())
}

pub fn text_as_written(alloc: Global) -> Result<BitVec<u8, Msb0>, ParseBitsError>
    ensures { IfOk result (λ v. v.list ≡ false ∷ true ∷ true ∷ []) }
{
    text_bits![alloc; u8, Msb0; "011"]
}
