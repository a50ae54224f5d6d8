//! Callers that read and write numbers in binary: the line at the head of this module names what computes.
#![tactic(auto, unfolding(bit_addressing::specs::Row::binary))]

ghost use Rattle.std.specs.Prelude.{◌≡◌, ◌+◌, ◌≤◌, ◌<◌, ◌^◌, IfOk, OnOk, true, false, [], ◌∷◌, length, slice_get};
ghost use Rattle.bit_slice.specs.Signed.{IsSigned};

use bit_containers::{BitList, BitListMut, BitOrder, BitStore, BitVec, GrowError, Msb0};
use std::alloc::Global;

/// A field of three bits of a known byte.
pub fn field_of_a_byte(v: &BitVec<u8, Msb0>) -> u64
    requires { v.now.list ≡ true ∷ false ∷ true ∷ true ∷ false ∷ false ∷ true ∷ true ∷ [] }
    ensures { result ≡ 6 }
{
    v.load_be_at(2, 3)
}

/// A number that is written is read back.
pub fn written_and_read<T: BitStore, O: BitOrder>(
    v: &mut BitVec<T, O>,
    at: usize,
    number: u64,
) -> u64
    requires within { at + 12 ≤ length v.old.list }
    requires fits { number < 2 ^ 12 }
    ensures { result ≡ number }
{
    v.store_be_at(at, 12, number);
    v.load_be_at(at, 12)
}

/// Numbers appended one after another have the length of both.
pub fn two_appended<T: BitStore, O: BitOrder>(v: &mut BitVec<T, O>) -> Result<(), GrowError>
    ensures { OnOk result (length v.new.list ≡ length v.old.list + 19) }
{
    v.push_be(12, 0xabc)?;
    v.push_be(7, 5)
}

/// Twelve bits give two bytes.
pub fn two_bytes(alloc: Global) -> Result<Vec<u8>, GrowError>
    ensures { IfOk result (λ bytes. bytes.items ≡ 0xab ∷ 0xc0 ∷ []) }
{
    let mut v = BitVec::<u8, Msb0>::new(alloc);
    v.push_be(12, 0xabc)?;
    Ok(v.into_vec())
}

/// The same from the least significant digit on, in any list that is written.
pub fn written_and_read_le<B: BitListMut>(bits: &mut B, at: usize, number: u64) -> u64
    requires within { at + 12 ≤ B.len bits.old }
    requires fits { number < 2 ^ 12 }
    ensures { result ≡ number }
{
    bits.store_le_at(at, 12, number);
    bits.load_le_at(at, 12)
}

/// A signed number that is written is read back.
pub fn signed_written_and_read<B: BitListMut>(bits: &mut B, at: usize, number: i64) -> i64
    requires within { at + 12 ≤ B.len bits.old }
    requires fits { IsSigned 12 number }
    ensures { result ≡ number }
{
    bits.store_signed_be_at(at, 12, number);
    bits.load_signed_be_at(at, 12)
}

/// The same from the least significant digit on.
pub fn signed_written_and_read_le<B: BitListMut>(bits: &mut B, at: usize, number: i64) -> i64
    requires within { at + 12 ≤ B.len bits.old }
    requires fits { IsSigned 12 number }
    ensures { result ≡ number }
{
    bits.store_signed_le_at(at, 12, number);
    bits.load_signed_le_at(at, 12)
}

/// What stands before and after a number stays.
pub fn bit_beside_a_number<B: BitListMut>(
    bits: &mut B,
    at: usize,
    number: u64,
    i: usize,
) -> Option<bool>
    requires within { at + 12 ≤ B.len bits.old }
    requires beside { i < at }
    ensures { result ≡ slice_get (B.list bits.old) i }
{
    bits.store_be_at(at, 12, number);
    bits.get(i)
}

/// Numbers that are appended with their least significant digit first.
pub fn two_appended_le<T: BitStore, O: BitOrder>(v: &mut BitVec<T, O>) -> Result<(), GrowError>
    ensures { OnOk result (length v.new.list ≡ length v.old.list + 19) }
{
    v.push_le(12, 0xabc)?;
    v.push_le(7, 5)
}
