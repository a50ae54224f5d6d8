//! Callers that know what they get from the contracts alone: none of them has a proof file.
ghost use Rattle.std.specs.Prelude.{◌≡◌, ◌*◌, ◌≤◌, true, false, [], ◌∷◌, ◌++◌, Some, map, not, replicate, slice_get, IfOk, IsTrue, ◌↔◌};
ghost use Rattle.bit_addressing.specs.declared.length.TheConstants.{MAX_BITS};
ghost use Rattle.bit_addressing.specs.Typed.{row};
ghost use Rattle.bit_slice.specs.BitSlice.{len_of};
ghost use Rattle.bit_slice.specs.Operators.{and_of};

use bit_addressing::{BitOrder, BitStore, Lsb0, Msb0};
use bit_array::{BitArray, BitViewSized, TryFromBitSliceError};
use bit_slice::{BitList, BitListMut, BitSlice};

#[tactic(auto, unfolding(bit_addressing::specs::Row::row_of))]
pub fn first_and_last() -> (Option<bool>, Option<bool>)
    ensures first { result.0 ≡ Some true }
    ensures last { result.1 ≡ Some true }
{
    let a = BitArray::<[u8; 2], Msb0>::new([0x80, 0x01]);
    (a.first(), a.last())
}

pub fn both<A: BitViewSized, O: BitOrder>(a: BitArray<A, O>, b: BitArray<A, O>) -> BitArray<A, O>
    ensures { row A.Store.BitStore O.BitOrder (A.words result)
        ≡ and_of (row A.Store.BitStore O.BitOrder (A.words a))
        (row A.Store.BitStore O.BitOrder (A.words b)) }
{
    a & b
}

pub fn none<A: BitViewSized, O: BitOrder>(a: BitArray<A, O>) -> BitArray<A, O>
    ensures { row A.Store.BitStore O.BitOrder (A.words result)
        ≡ map not (row A.Store.BitStore O.BitOrder (A.words a)) }
{
    !a
}

#[tactic(auto, using(bit_slice::specs::Comparisons::equal_lists))]
pub fn same<A: BitViewSized, O: BitOrder>(a: &BitArray<A, O>, b: &BitArray<A, O>) -> bool
    ensures { IsTrue result
        ↔ (row A.Store.BitStore O.BitOrder (A.words a.now)
        ≡ row A.Store.BitStore O.BitOrder (A.words b.now)) }
{
    *a == *b
}

pub fn kept(words: [u8; 2]) -> [u8; 2]
    ensures { result ≡ words }
{
    BitArray::<[u8; 2], Lsb0>::new(words).into_inner()
}

pub fn blank() -> [u8; 2]
    ensures { result ≡ 0 ∷ 0 ∷ [] }
{
    BitArray::<[u8; 2], Lsb0>::zero().into_inner()
}

pub fn taken(
    view: BitSlice<'_, u8, Lsb0>,
) -> Result<BitArray<[u8; 2], Lsb0>, TryFromBitSliceError> {
    BitArray::try_from(view)
}

pub fn equal_once_copied<A: BitViewSized, O: BitOrder, U: BitStore, P: BitOrder>(
    a: &mut BitArray<A, O>,
    source: BitSlice<'_, U, P>,
) -> bool
    requires { len_of source ≡ A.Store.BITS * A.count }
    ensures { IsTrue result }
{
    a.clone_from_bitslice(source);
    a.eq_bits(source)
}
