//! Callers of words seen as bits, of views for writing as values, and of iterators that are copied.
ghost use Rattle.std.specs.Prelude.{◌≡◌, ◌*◌, ◌≤◌, ◌↔◌, IfOk, IsTrue, Some, count_by, drop, length};
ghost use Rattle.bit_addressing.specs.Typed.{row};
ghost use Rattle.bit_addressing.specs.declared.length.TheConstants.{MAX_BITS};
ghost use Rattle.bit_slice.specs.BitSlice.{list_of};
ghost use Rattle.bit_slice.specs.BitSliceMut.{list_of as list_lent};
ghost use Rattle.bit_slice.specs.Iter.{rest_of};
ghost use Rattle.bit_containers.specs.Text.{bits_said};

use bit_containers::{
    BitOrder, BitSlice, BitSliceMut, BitStore, FromBits, Iter, Msb0, ParseBitsError, ViewBits,
    ViewBitsMut,
};
use std::alloc::{AllocError, Global};

pub fn seen<'a, T: BitStore, O: BitOrder>(words: &'a [T]) -> BitSlice<'a, T, O>
    requires { T.BITS * length words.now ≤ MAX_BITS }
    ensures { list_of result ≡ row T.BitStore O.BitOrder words.now }
{
    words.view_bits::<O>()
}

pub fn ones_in(bytes: &[u8]) -> usize
    requires { length bytes.now ≤ 1000 }
    ensures { result ≡ count_by (λ b. b) (row ⟦<u8 as BitStore>⟧ ⟦<Msb0 as BitOrder>⟧ bytes.now) }
{
    bytes.view_bits::<Msb0>().count_ones()
}

pub fn lent<'a, T: BitStore, O: BitOrder>(words: &'a mut [T]) -> BitSliceMut<'a, T, O>
    requires { T.BITS * length words.old ≤ MAX_BITS }
    ensures { list_lent result ≡ row T.BitStore O.BitOrder words.old }
{
    words.view_bits_mut::<O>()
}

/// A copy of an iterator has the same left.
pub fn copied<'a, T: BitStore, O: BitOrder>(
    bits: &Iter<'a, T, O>,
) -> Result<Iter<'a, T, O>, AllocError>
    ensures { IfOk result (λ again. rest_of again ≡ rest_of bits.now) }
{
    bits.clone()
}

/// The bits that an iterator has left are a view again.
pub fn all_but_the_first<'a, T: BitStore, O: BitOrder>(
    view: BitSlice<'a, T, O>,
) -> BitSlice<'a, T, O>
    ensures { list_of result ≡ drop 1 (list_of view.entry) }
{
    let mut bits = view.iter();
    bits.next();
    bits.as_bitslice()
}

#[tactic(auto, using(bit_slice::specs::Comparisons::equal_lists))]
pub fn same_bits<T: BitStore, O: BitOrder>(
    a: &BitSliceMut<'_, T, O>,
    b: &BitSliceMut<'_, T, O>,
) -> bool
    ensures { IsTrue result ↔ (list_lent a.now ≡ list_lent b.now) }
{
    a == b
}

/// A container of any kind, by what they have in common.
pub fn read_as<B: FromBits>(alloc: Global, text: &str) -> Result<B, ParseBitsError>
    ensures { IfOk result (λ made. bits_said text.now ≡ Some (B.bits_in made)) }
{
    B::from_text(alloc, text)
}
