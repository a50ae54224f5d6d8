//! The operators of a view for writing with a view on the right side, and shifts by an operator.
ghost use Rattle.std.specs.Prelude.{◌-◌, ◌≤◌, ◌++◌, false, drop, replicate, take};
ghost use Rattle.bit_slice.specs.BitSlice.{list_of as list_seen};
ghost use Rattle.bit_slice.specs.BitSliceMut.{len_of, list_of};
ghost use Rattle.bit_slice.specs.Operators.{and_not_of, and_of, or_of, xor_of, AndsEach, OrsEach, XorsEach};
ghost use Rattle.bit_slice.specs.Written.{AndNotsEach, IsAssignedThrough};

use crate::edits::AndNot;
use crate::lists_mut::BitListMut;
use crate::slice::BitSlice;
use crate::slice_mut::BitSliceMut;
use bit_addressing::{BitOrder, BitStore};
use std::ops::{BitAndAssign, BitOrAssign, BitXorAssign, ShlAssign, ShrAssign, SubAssign};

impl<'a, 'b, T: BitStore, O: BitOrder, U: BitStore, P: BitOrder> BitAndAssign<BitSlice<'b, U, P>>
    for BitSliceMut<'a, T, O> {
    ghost bitand_assign_gives = { λ a b c. IsAssignedThrough (and_of (list_of a) (list_seen b)) a c
        × AndsEach (list_of a) (list_seen b) (list_of c) };

    /// Clears each bit that is false in a view, and each past its end. Like `and_bits`.
    ///
    /// ```text
    /// of 0111 and 101: view &= other leaves 0010
    /// ```
    fn bitand_assign(&mut self, rhs: BitSlice<'b, U, P>) {
        self.and_bits(rhs);
    }
}

impl<'a, 'b, T: BitStore, O: BitOrder, U: BitStore, P: BitOrder> BitOrAssign<BitSlice<'b, U, P>>
    for BitSliceMut<'a, T, O> {
    ghost bitor_assign_gives = { λ a b c. IsAssignedThrough (or_of (list_of a) (list_seen b)) a c
        × OrsEach (list_of a) (list_seen b) (list_of c) };

    /// Sets each bit that is true in a view. Like `or_bits`.
    ///
    /// ```text
    /// of 0100 and 101: view |= other leaves 1110
    /// ```
    fn bitor_assign(&mut self, rhs: BitSlice<'b, U, P>) {
        self.or_bits(rhs);
    }
}

impl<'a, 'b, T: BitStore, O: BitOrder, U: BitStore, P: BitOrder> BitXorAssign<BitSlice<'b, U, P>>
    for BitSliceMut<'a, T, O> {
    ghost bitxor_assign_gives = { λ a b c. IsAssignedThrough (xor_of (list_of a) (list_seen b)) a c
        × XorsEach (list_of a) (list_seen b) (list_of c) };

    /// Flips each bit that is true in a view. Like `xor_bits`.
    ///
    /// ```text
    /// of 0110 and 101: view ^= other leaves 1100
    /// ```
    fn bitxor_assign(&mut self, rhs: BitSlice<'b, U, P>) {
        self.xor_bits(rhs);
    }
}

impl<'a, 'b, T: BitStore, O: BitOrder, U: BitStore, P: BitOrder> SubAssign<BitSlice<'b, U, P>>
    for BitSliceMut<'a, T, O> {
    ghost sub_assign_gives = { λ a b c. IsAssignedThrough (and_not_of (list_of a) (list_seen b)) a c
        × AndNotsEach (list_of a) (list_seen b) (list_of c) };

    /// Clears each bit that is true in a view. Like `and_not_bits`.
    ///
    /// ```text
    /// of 0111 and 101: view -= other leaves 0101
    /// ```
    fn sub_assign(&mut self, rhs: BitSlice<'b, U, P>) {
        self.combine::<AndNot, U, P>(rhs);
    }
}

impl<'a, T: BitStore, O: BitOrder> ShlAssign<usize> for BitSliceMut<'a, T, O> {
    ghost can_shl_assign = { λ a by. by ≤ len_of a };

    ghost shl_assign_gives = { λ a by c. IsAssignedThrough (drop by (list_of a) ++ replicate by false) a c };

    /// Like `shift_left`. Requires that `rhs` is at most the length.
    ///
    /// ```text
    /// of 01101: view <<= 2 leaves 10100
    /// ```
    fn shl_assign(&mut self, rhs: usize) {
        self.shift_left(rhs);
    }
}

impl<'a, T: BitStore, O: BitOrder> ShrAssign<usize> for BitSliceMut<'a, T, O> {
    ghost can_shr_assign = { λ a by. by ≤ len_of a };

    ghost shr_assign_gives = { λ a by c. IsAssignedThrough (replicate by false ++ take (len_of a - by) (list_of a)) a c };

    /// Like `shift_right`. Requires that `rhs` is at most the length.
    ///
    /// ```text
    /// of 01101: view >>= 2 leaves 00011
    /// ```
    fn shr_assign(&mut self, rhs: usize) {
        self.shift_right(rhs);
    }
}
