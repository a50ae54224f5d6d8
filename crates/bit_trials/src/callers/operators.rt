//! Callers of the operators with a view on the right side, and of shifts by an operator.
ghost use Rattle.std.specs.Prelude.{◌≡◌, ◌-◌, ◌*◌, ◌≤◌, ◌++◌, [], ◌∷◌, IsTrue, drop, false, length, replicate, take, true};
ghost use Rattle.bit_addressing.specs.Typed.{row};
ghost use Rattle.bit_slice.specs.BitSlice.{list_of};
ghost use Rattle.bit_slice.specs.Operators.{and_not_of, and_of, or_of, xor_of};
ghost use Rattle.bit_containers.specs.BitVec.{IsClean};

use bit_containers::array::{BitArray, BitViewSized, BitWords};
use bit_containers::boxed::BitBox;
use bit_containers::{BitOrder, BitSlice, BitStore, BitVec, Lsb0, Msb0};

pub fn masked<T: BitStore, O: BitOrder, U: BitStore, P: BitOrder>(
    v: &mut BitVec<T, O>,
    mask: &BitVec<U, P>,
)
    ensures list { v.new.list ≡ and_of v.old.list mask.now.list }
    ensures clean { IsClean T.BITS v.old → IsClean T.BITS v.new }
{
    *v &= mask.as_bitslice();
}

pub fn turned_on_then_flipped(
    v: &mut BitVec<u8, Msb0>,
    on: BitSlice<'_, u8, Msb0>,
    flip: BitSlice<'_, u16, Lsb0>,
)
    ensures { v.new.list ≡ xor_of (or_of v.old.list (list_of on.entry)) (list_of flip.entry) }
{
    *v |= on;
    *v ^= flip;
}

pub fn left_over<T: BitStore, O: BitOrder>(v: &mut BitVec<T, O>, gone: BitSlice<'_, u32, Msb0>)
    ensures { v.new.list ≡ and_not_of v.old.list (list_of gone.entry) }
{
    *v -= gone;
}

pub fn moved_forward<T: BitStore, O: BitOrder>(v: &mut BitVec<T, O>)
    requires { 3 ≤ length v.old.list }
    ensures { v.new.list ≡ drop 3 v.old.list ++ false ∷ false ∷ false ∷ [] }
{
    *v <<= 3;
}

pub fn moved_back<T: BitStore, O: BitOrder>(v: &mut BitVec<T, O>, n: usize)
    requires { n ≤ length v.old.list }
    ensures { v.new.list ≡ replicate n false ++ take (length v.old.list - n) v.old.list }
{
    *v >>= n;
}

pub fn boxes_combined(b: &mut BitBox<u8, Msb0>, other: &BitBox<u64, Lsb0>)
    requires b { b.old.list ≡ true ∷ true ∷ false ∷ true ∷ [] }
    requires other { other.now.list ≡ true ∷ false ∷ true ∷ [] }
    ensures { b.new.list ≡ true ∷ false ∷ true ∷ false ∷ [] }
{
    *b -= other.as_bitslice();
    *b |= other.as_bitslice();
    *b ^= other.as_bitslice();
    *b |= other.as_bitslice();
    *b &= other.as_bitslice();
}

pub fn box_moved<T: BitStore, O: BitOrder>(b: &mut BitBox<T, O>)
    requires { b.old.list ≡ true ∷ true ∷ false ∷ [] }
    ensures { b.new.list ≡ false ∷ true ∷ false ∷ [] }
{
    *b <<= 1;
    *b >>= 1;
}

pub fn arrays_combined<A: BitViewSized, O: BitOrder>(
    a: &mut BitArray<A, O>,
    on: BitSlice<'_, u8, Msb0>,
    off: BitSlice<'_, u64, Lsb0>,
)
    ensures { row A.Store.BitStore O.BitOrder (A.words a.new)
        ≡ and_not_of (or_of (row A.Store.BitStore O.BitOrder (A.words a.old)) (list_of on.entry)) (list_of off.entry) }
{
    *a |= on;
    *a -= off;
}

pub fn array_moved<A: BitViewSized, O: BitOrder>(a: &mut BitArray<A, O>, by: usize)
    requires { by ≤ A.Store.BITS * A.count }
    ensures { row A.Store.BitStore O.BitOrder (A.words a.new)
        ≡ drop by (row A.Store.BitStore O.BitOrder (A.words a.old)) ++ replicate by false }
{
    *a <<= by;
}
