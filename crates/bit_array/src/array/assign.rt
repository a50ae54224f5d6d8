//! The operators of the array with a view on the right side, and shifts by an operator.
ghost use Rattle.std.specs.Prelude.{◌≡◌, ◌-◌, ◌*◌, ◌≤◌, ◌++◌, false, drop, replicate, take};
ghost use Rattle.bit_addressing.specs.Typed.{row};
ghost use Rattle.bit_slice.specs.BitSlice.{list_of};
ghost use Rattle.bit_slice.specs.Operators.{and_not_of, and_of, or_of, xor_of, AndsEach, OrsEach, XorsEach};
ghost use Rattle.bit_slice.specs.Written.{AndNotsEach};

use crate::array::BitArray;
use crate::sized::BitViewSized;
use bit_addressing::{BitOrder, BitStore};
use bit_slice::{AndNot, BitListMut, BitSlice};
use std::ops::{BitAndAssign, BitOrAssign, BitXorAssign, ShlAssign, ShrAssign, SubAssign};

impl<'a, A: BitViewSized, O: BitOrder, U: BitStore, P: BitOrder> BitAndAssign<BitSlice<'a, U, P>>
    for BitArray<A, O> {
    ghost bitand_assign_gives = { λ a b c. (row A.Store.BitStore O.BitOrder (A.words c)
        ≡ and_of (row A.Store.BitStore O.BitOrder (A.words a)) (list_of b))
        × AndsEach (row A.Store.BitStore O.BitOrder (A.words a)) (list_of b)
        (row A.Store.BitStore O.BitOrder (A.words c)) };

    /// Clears each bit that is false in a view, and each past its end. Like `and_bits`.
    ///
    /// ```text
    /// of 01111111 and a view of 101:  a &= view leaves 00100000
    /// ```
    fn bitand_assign(&mut self, rhs: BitSlice<'a, U, P>) {
        self.and_bits(rhs);
    }
}

impl<'a, A: BitViewSized, O: BitOrder, U: BitStore, P: BitOrder> BitOrAssign<BitSlice<'a, U, P>>
    for BitArray<A, O> {
    ghost bitor_assign_gives = { λ a b c. (row A.Store.BitStore O.BitOrder (A.words c)
        ≡ or_of (row A.Store.BitStore O.BitOrder (A.words a)) (list_of b))
        × OrsEach (row A.Store.BitStore O.BitOrder (A.words a)) (list_of b)
        (row A.Store.BitStore O.BitOrder (A.words c)) };

    /// Sets each bit that is true in a view. Like `or_bits`.
    ///
    /// ```text
    /// of 01000000 and a view of 101:  a |= view leaves 11100000
    /// ```
    fn bitor_assign(&mut self, rhs: BitSlice<'a, U, P>) {
        self.or_bits(rhs);
    }
}

impl<'a, A: BitViewSized, O: BitOrder, U: BitStore, P: BitOrder> BitXorAssign<BitSlice<'a, U, P>>
    for BitArray<A, O> {
    ghost bitxor_assign_gives = { λ a b c. (row A.Store.BitStore O.BitOrder (A.words c)
        ≡ xor_of (row A.Store.BitStore O.BitOrder (A.words a)) (list_of b))
        × XorsEach (row A.Store.BitStore O.BitOrder (A.words a)) (list_of b)
        (row A.Store.BitStore O.BitOrder (A.words c)) };

    /// Flips each bit that is true in a view. Like `xor_bits`.
    ///
    /// ```text
    /// of 01101111 and a view of 101:  a ^= view leaves 11001111
    /// ```
    fn bitxor_assign(&mut self, rhs: BitSlice<'a, U, P>) {
        self.xor_bits(rhs);
    }
}

impl<'a, A: BitViewSized, O: BitOrder, U: BitStore, P: BitOrder> SubAssign<BitSlice<'a, U, P>>
    for BitArray<A, O> {
    ghost sub_assign_gives = { λ a b c. (row A.Store.BitStore O.BitOrder (A.words c)
        ≡ and_not_of (row A.Store.BitStore O.BitOrder (A.words a)) (list_of b))
        × AndNotsEach (row A.Store.BitStore O.BitOrder (A.words a)) (list_of b)
        (row A.Store.BitStore O.BitOrder (A.words c)) };

    /// Clears each bit that is true in a view. Like `and_not_bits`.
    ///
    /// ```text
    /// of 01111111 and a view of 101:  a -= view leaves 01011111
    /// ```
    fn sub_assign(&mut self, rhs: BitSlice<'a, U, P>) {
        self.combine::<AndNot, U, P>(rhs);
    }
}

impl<A: BitViewSized, O: BitOrder> ShlAssign<usize> for BitArray<A, O> {
    ghost can_shl_assign = { λ a by. by ≤ A.Store.BITS * A.count };

    ghost shl_assign_gives = { λ a by c. row A.Store.BitStore O.BitOrder (A.words c)
        ≡ drop by (row A.Store.BitStore O.BitOrder (A.words a)) ++ replicate by false };

    /// Like `shift_left`. Requires that `rhs` is at most the length.
    ///
    /// ```text
    /// of 01101001:  a <<= 2 leaves 10100100
    /// ```
    fn shl_assign(&mut self, rhs: usize) {
        self.shift_left(rhs);
    }
}

impl<A: BitViewSized, O: BitOrder> ShrAssign<usize> for BitArray<A, O> {
    ghost can_shr_assign = { λ a by. by ≤ A.Store.BITS * A.count };

    ghost shr_assign_gives = { λ a by c. row A.Store.BitStore O.BitOrder (A.words c)
        ≡ replicate by false ++ take (A.Store.BITS * A.count - by) (row A.Store.BitStore O.BitOrder (A.words a)) };

    /// Like `shift_right`. Requires that `rhs` is at most the length.
    ///
    /// ```text
    /// of 01101001:  a >>= 2 leaves 00011010
    /// ```
    fn shr_assign(&mut self, rhs: usize) {
        self.shift_right(rhs);
    }
}
