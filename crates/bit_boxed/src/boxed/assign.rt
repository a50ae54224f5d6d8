//! The operators of the box with a view on the right side, and shifts by an operator.
ghost use Rattle.std.specs.Prelude.{◌-◌, ◌≤◌, ◌++◌, false, drop, length, replicate, take};
ghost use Rattle.bit_slice.specs.BitSlice.{list_of};
ghost use Rattle.bit_slice.specs.Operators.{and_not_of, and_of, or_of, xor_of, AndsEach, OrsEach, XorsEach};
ghost use Rattle.bit_slice.specs.Written.{AndNotsEach, IsAssigned};

use crate::boxed::BitBox;
use bit_addressing::{BitOrder, BitStore};
use bit_slice::{AndNot, BitListMut, BitSlice};
use std::ops::{BitAndAssign, BitOrAssign, BitXorAssign, ShlAssign, ShrAssign, SubAssign};

impl<'a, T: BitStore, O: BitOrder, U: BitStore, P: BitOrder> BitAndAssign<BitSlice<'a, U, P>>
    for BitBox<T, O> {
    ghost bitand_assign_gives = { λ a b c. IsAssigned T.BITS (and_of a.list (list_of b)) a c
        × AndsEach a.list (list_of b) c.list };

    /// Clears each bit that is false in a view, and each past its end. Like `and_bits`.
    ///
    /// ```text
    /// of 0111 and a view of 101:  v &= view leaves 0010
    /// ```
    fn bitand_assign(&mut self, rhs: BitSlice<'a, U, P>) {
        self.and_bits(rhs);
    }
}

impl<'a, T: BitStore, O: BitOrder, U: BitStore, P: BitOrder> BitOrAssign<BitSlice<'a, U, P>>
    for BitBox<T, O> {
    ghost bitor_assign_gives = { λ a b c. IsAssigned T.BITS (or_of a.list (list_of b)) a c
        × OrsEach a.list (list_of b) c.list };

    /// Sets each bit that is true in a view. Like `or_bits`.
    ///
    /// ```text
    /// of 0100 and a view of 101:  v |= view leaves 1110
    /// ```
    fn bitor_assign(&mut self, rhs: BitSlice<'a, U, P>) {
        self.or_bits(rhs);
    }
}

impl<'a, T: BitStore, O: BitOrder, U: BitStore, P: BitOrder> BitXorAssign<BitSlice<'a, U, P>>
    for BitBox<T, O> {
    ghost bitxor_assign_gives = { λ a b c. IsAssigned T.BITS (xor_of a.list (list_of b)) a c
        × XorsEach a.list (list_of b) c.list };

    /// Flips each bit that is true in a view. Like `xor_bits`.
    ///
    /// ```text
    /// of 0110 and a view of 101:  v ^= view leaves 1100
    /// ```
    fn bitxor_assign(&mut self, rhs: BitSlice<'a, U, P>) {
        self.xor_bits(rhs);
    }
}

impl<'a, T: BitStore, O: BitOrder, U: BitStore, P: BitOrder> SubAssign<BitSlice<'a, U, P>>
    for BitBox<T, O> {
    ghost sub_assign_gives = { λ a b c. IsAssigned T.BITS (and_not_of a.list (list_of b)) a c
        × AndNotsEach a.list (list_of b) c.list };

    /// Clears each bit that is true in a view. Like `and_not_bits`.
    ///
    /// ```text
    /// of 0111 and a view of 101:  v -= view leaves 0101
    /// ```
    fn sub_assign(&mut self, rhs: BitSlice<'a, U, P>) {
        self.combine::<AndNot, U, P>(rhs);
    }
}

impl<T: BitStore, O: BitOrder> ShlAssign<usize> for BitBox<T, O> {
    ghost can_shl_assign = { λ a by. by ≤ length a.list };

    ghost shl_assign_gives = { λ a by c. IsAssigned T.BITS (drop by a.list ++ replicate by false) a c };

    /// Like `shift_left`. Requires that `rhs` is at most the length.
    ///
    /// ```text
    /// of 01101:  v <<= 2 leaves 10100
    /// ```
    fn shl_assign(&mut self, rhs: usize) {
        self.shift_left(rhs);
    }
}

impl<T: BitStore, O: BitOrder> ShrAssign<usize> for BitBox<T, O> {
    ghost can_shr_assign = { λ a by. by ≤ length a.list };

    ghost shr_assign_gives = { λ a by c. IsAssigned T.BITS
        (replicate by false ++ take (length a.list - by) a.list) a c };

    /// Like `shift_right`. Requires that `rhs` is at most the length.
    ///
    /// ```text
    /// of 01101:  v >>= 2 leaves 00011
    /// ```
    fn shr_assign(&mut self, rhs: usize) {
        self.shift_right(rhs);
    }
}
