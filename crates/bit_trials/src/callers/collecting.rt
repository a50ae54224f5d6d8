//! Callers that collect, extend, empty and make by the traits of std.
ghost use Rattle.std.specs.Prelude.{◌≡◌, ◌+◌, ◌≤◌, [], ◌∷◌, ◌++◌, IfOk, OnErr, OnOk, false, length, true};
ghost use Rattle.bit_addressing.specs.declared.length.TheConstants.{MAX_BITS};

use bit_containers::boxed::BitBox;
use bit_containers::{BitOrder, BitStore, BitVec, GrowError, Lsb0, Msb0};
use std::alloc::{AllocError, Global};
use std::default::MadeWith;
use std::iter::Extend;
use std::mem;

/// `?` converts the error.
pub fn collected_from_another(
    alloc: Global,
    w: &BitVec<u8, Msb0>,
) -> Result<BitVec<u64, Lsb0>, GrowError>
    ensures { IfOk result (λ v. v.list ≡ w.now.list) }
{
    let v: BitVec<u64, Lsb0> = w.iter().collect(alloc)?;
    Ok(v)
}

/// However many bits the slice has.
pub fn collected_by_value(alloc: Global, bits: &[bool]) -> Result<BitVec<u64, Lsb0>, AllocError>
    ensures { IfOk result (λ v. v.list ≡ bits.now) }
{
    bits.iter().copied().collect(alloc)
}

pub fn collected_by_reference(alloc: Global, bits: &[bool]) -> Result<BitVec<u64, Lsb0>, AllocError>
    ensures { IfOk result (λ v. v.list ≡ bits.now) }
{
    bits.iter().collect(alloc)
}

pub fn collected_in_a_box(alloc: Global, bits: &[bool]) -> Result<BitBox<u16, Msb0>, AllocError>
    ensures { IfOk result (λ b. b.list ≡ bits.now) }
{
    bits.iter().collect(alloc)
}

pub fn boxed_from_another(
    alloc: Global,
    w: &BitVec<u8, Msb0>,
) -> Result<BitBox<u8, Lsb0>, AllocError>
    ensures { IfOk result (λ b. b.list ≡ w.now.list) }
{
    w.iter().collect(alloc)
}

/// The method of the trait, as a generic caller calls it.
pub fn extended(v: &mut BitVec<u8, Msb0>) -> Result<(), AllocError>
    ensures list { OnOk result (v.new.list ≡ v.old.list ++ true ∷ false ∷ true ∷ []) }
    ensures kept { OnErr result (v.new.list ≡ v.old.list) }
{
    Extend::extend(v, [true, false, true])
}

pub fn extended_by_reference(v: &mut BitVec<u8, Msb0>, bits: &[bool]) -> Result<(), AllocError>
    ensures list { OnOk result (v.new.list ≡ v.old.list ++ bits.now) }
    ensures kept { OnErr result (v.new.list ≡ v.old.list) }
{
    Extend::extend(v, bits)
}

/// Where there is room, it is not refused.
pub fn extended_within(v: &mut BitVec<u8, Msb0>, bits: Vec<bool>) -> bool
    requires few { length v.old.list + length bits.items ≤ MAX_BITS }
    requires room { length v.old.list + length bits.items ≤ v.old.capacity }
    ensures { result ≡ true }
{
    Extend::extend(v, bits).is_ok()
}

pub fn taken<T: BitStore, O: BitOrder>(v: &mut BitVec<T, O>) -> Result<BitVec<T, O>, AllocError>
    ensures list { IfOk result (λ w. w.list ≡ v.old.list) }
    ensures empty { OnOk result (v.new.list ≡ []) }
    ensures kept { OnErr result (v.new ≡ v.old) }
{
    mem::try_take(v)
}

pub fn box_taken<T: BitStore, O: BitOrder>(b: &mut BitBox<T, O>) -> Result<BitBox<T, O>, AllocError>
    ensures list { IfOk result (λ w. w.list ≡ b.old.list) }
    ensures empty { OnOk result (b.new.list ≡ []) }
{
    mem::try_take(b)
}

pub fn made(alloc: Global) -> BitVec<u8, Msb0>
    ensures list { result.list ≡ [] }
    ensures capacity { result.capacity ≡ 0 }
{
    MadeWith::made_with(alloc)
}
