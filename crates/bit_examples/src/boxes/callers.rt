//! Callers that know what they get from the contracts alone: none of them has a proof file.
ghost use Rattle.std.specs.Prelude.{◌≡◌, ◌↔◌, ◌*◌, ◌≤◌, IfErr, IfOk, IsTrue, length, set, true, ◌<◌};
ghost use Rattle.std.specs.Box.{boxed_slice_items};
ghost use Rattle.bit_addressing.specs.declared.length.TheConstants.{MAX_BITS};
ghost use Rattle.bit_addressing.specs.Typed.{row};
ghost use Rattle.bit_slice.specs.Held.{IsClean};
ghost use Rattle.bit_slice.specs.BitSlice.{len_of, list_of};

use bit_addressing::{BitOrder, BitStore};
use bit_boxed::BitBox;
use bit_slice::{BitList, BitListMut, BitSlice};
use std::alloc::{AllocError, Global};
use std::boxed::BoxedSlice;

/// A box made of a view, and read back.
pub fn kept<T: BitStore, O: BitOrder>(
    alloc: Global,
    view: BitSlice<'_, T, O>,
) -> Result<BitBox<T, O>, AllocError>
    ensures { IfOk result (λ b. b.list ≡ list_of view.entry) }
{
    BitBox::from_bitslice(alloc, view)
}

/// Boxes with equal lists are equal, whatever their heads.
#[tactic(auto, using(bit_slice::specs::Comparisons::equal_lists))]
pub fn same<T: BitStore, O: BitOrder>(a: &BitBox<T, O>, b: &BitBox<T, O>) -> bool
    ensures { IsTrue result ↔ (a.now.list ≡ b.now.list) }
{
    *a == *b
}

/// The words of a boxed slice, there and back.
pub fn round<T: BitStore, O: BitOrder>(words: BoxedSlice<T>) -> BoxedSlice<T>
    requires { T.BITS * length (boxed_slice_items words) ≤ MAX_BITS }
    ensures { boxed_slice_items result ≡ boxed_slice_items words }
{
    BitBox::<T, O>::from_boxed_slice(words).into_boxed_slice()
}

/// A bit written at any head.
pub fn marked<T: BitStore, O: BitOrder>(b: BitBox<T, O>) -> BitBox<T, O>
    requires { 2 < length b.list }
    ensures { result.list ≡ set b.list 2 true }
{
    let mut b = b;
    b.set(2, true);
    b
}

/// A copy of a view that has a bit, with its first bit written.
pub fn first_set<T: BitStore, O: BitOrder>(
    alloc: Global,
    view: BitSlice<'_, T, O>,
) -> Result<BitBox<T, O>, AllocError>
    requires { 0 < len_of view }
    ensures { IfOk result (λ b. b.list ≡ set (list_of view.entry) 0 true) }
{
    let mut b = BitBox::from_bitslice(alloc, view)?;
    b.set(0, true);
    Ok(b)
}

/// Words taken whole by std's trait.
pub fn taken<T: BitStore, O: BitOrder>(words: BoxedSlice<T>) -> Result<BitBox<T, O>, BoxedSlice<T>>
    ensures list { IfOk result (λ b. b.list ≡ row T.BitStore O.BitOrder (boxed_slice_items words)) }
    ensures clean { IfOk result (λ b. IsClean T.BITS b) }
    ensures back { IfErr result (λ back. back ≡ words) }
{
    BitBox::try_from(words)
}

/// A box that a view was written over equals the view, whatever the words and orders.
pub fn equal_once_copied<T: BitStore, O: BitOrder, U: BitStore, P: BitOrder>(
    b: &mut BitBox<T, O>,
    source: BitSlice<'_, U, P>,
) -> bool
    requires { len_of source ≡ length b.old.list }
    ensures { IsTrue result }
{
    b.clone_from_bitslice(source);
    b.eq_bits(source)
}
