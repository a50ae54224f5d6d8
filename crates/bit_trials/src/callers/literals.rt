//! Callers that write lists of bits down.
ghost use Rattle.std.specs.Prelude.{◌≡◌, [], ◌∷◌, IfOk, false, replicate, true};
ghost use Rattle.bit_addressing.specs.Typed.{row};

use bit_containers::array::BitArray;
use bit_containers::boxed::BitBox;
use bit_containers::{
    BitOrder, BitStore, BitVec, GrowError, Lsb0, Msb0, array_bits, bits, boxed_bits,
};
use std::alloc::Global;

pub fn written(alloc: Global) -> Result<BitVec<u8, Msb0>, GrowError>
    ensures { IfOk result (λ v. v.list ≡ true ∷ false ∷ true ∷ true ∷ []) }
{
    bits![alloc; u8, Msb0; 1, 0, 1, 1]
}

/// Digits, words and expressions.
pub fn written_with(alloc: Global, carry: bool, n: usize) -> Result<BitVec<u8, Lsb0>, GrowError>
    requires { n ≡ 7 }
    ensures { IfOk result (λ v. v.list ≡ true ∷ carry ∷ true ∷ false ∷ []) }
{
    bits![alloc; u8, Lsb0; 1, carry, (n == 7), false]
}

pub fn nothing_written(alloc: Global) -> Result<BitVec<u8, Msb0>, GrowError>
    ensures { IfOk result (λ v. v.list ≡ []) }
{
    bits![alloc; u8, Msb0;]
}

pub fn repeated(alloc: Global, n: usize) -> Result<BitVec<usize, Lsb0>, GrowError>
    ensures { IfOk result (λ v. v.list ≡ replicate n true) }
{
    bits![alloc; usize, Lsb0; 1; n]
}

pub fn boxed_as_written(alloc: Global) -> Result<BitBox<u16, Lsb0>, GrowError>
    ensures { IfOk result (λ b. b.list ≡ false ∷ true ∷ true ∷ []) }
{
    boxed_bits![alloc; u16, Lsb0; 0, 1, 1]
}

pub fn box_repeated(alloc: Global) -> Result<BitBox<u16, Lsb0>, GrowError>
    ensures { IfOk result (λ b. b.list ≡ false ∷ false ∷ []) }
{
    boxed_bits![alloc; u16, Lsb0; 0; 2]
}

/// The bits after those that are written are false.
pub fn array_as_written() -> BitArray<u8, Msb0>
    ensures { row ⟦<u8 as BitStore>⟧ ⟦<Msb0 as BitOrder>⟧ (result ∷ [])
        ≡ false ∷ true ∷ true ∷ false ∷ false ∷ false ∷ false ∷ false ∷ [] }
{
    array_bits![u8, Msb0; 0, 1, 1]
}

/// The one word of an array.
pub fn word_as_written() -> u8
    ensures { result ≡ 0x60 }
{
    array_bits![u8, Msb0; 0, 1, 1].into_inner()
}
