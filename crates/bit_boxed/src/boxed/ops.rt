//! The operators of the box.
ghost use Rattle.std.specs.Prelude.{◌≡◌, not, map};
ghost use Rattle.bit_addressing.specs.Row.{put};
ghost use Rattle.bit_slice.specs.Held.{IsClean, Stayed};
ghost use Rattle.bit_slice.specs.Operators.{and_of, or_of, xor_of, AndsEach, OrsEach, XorsEach, FlipsEach};

use crate::boxed::BitBox;
use bit_addressing::{BitOrder, BitStore};
use bit_slice::BitListMut;
use bit_slice::inner::flip_row;
use std::ops::{BitAnd, BitAndAssign, BitOr, BitOrAssign, BitXor, BitXorAssign, Index, Not};

impl<T: BitStore, O: BitOrder> BitBox<T, O> {
    /// Flips every bit of all the words, dead bits included.
    ///
    /// ```text
    /// of 01101001: bits.flip_all() leaves 10010110
    /// ```
    pub fn flip_all(&mut self)
        ensures list { self.new.list ≡ map not self.old.list }
        ensures index { FlipsEach self.old.list self.new.list }
        ensures row { self.new.row ≡ map not self.old.row }
        ensures stayed { Stayed self.old self.new }
    {
        flip_row(self);
    }
}

impl<T: BitStore, O: BitOrder> Not for BitBox<T, O> {
    type Output = Self;

    ghost not_gives = { λ a b. (b.list ≡ map not a.list) × FlipsEach a.list b.list × (b.row ≡ map not a.row)
        × Stayed a b };

    /// Every bit of all the words flipped, dead bits included.
    fn not(mut self) -> Self {
        self.flip_all();
        self
    }
}

impl<T: BitStore, O: BitOrder> Index<usize> for BitBox<T, O> {
    ghost use Rattle.std.specs.Prelude.{◌≡◌, ◌<◌, Some, slice_get, length};

    type Output = bool;

    ghost can_index = { λ b i. i < length b.list };

    ghost index_gives = { λ b i bit. Some bit ≡ slice_get b.list i };

    /// The bit at `i`. Requires that `i` is below the length.
    fn index(&self, i: usize) -> &bool {
        if self.as_bitslice()[i] { &true } else { &false }
    }
}

impl<T: BitStore, O: BitOrder> BitAndAssign for BitBox<T, O> {
    ghost bitand_assign_gives = { λ a b c. (c.list ≡ and_of a.list b.list) × AndsEach a.list b.list c.list
        × (c.row ≡ put a.row a.head (and_of a.list b.list)) × Stayed a c
        × (IsClean T.BITS a → IsClean T.BITS c) };

    /// Clears each bit that is false in the right side, and each past its end. No dead bit changes.
    fn bitand_assign(&mut self, rhs: Self) {
        self.and_bits(rhs.as_bitslice());
    }
}

impl<T: BitStore, O: BitOrder> BitAnd for BitBox<T, O> {
    type Output = Self;

    ghost bitand_gives = { λ a b c. (c.list ≡ and_of a.list b.list) × AndsEach a.list b.list c.list
        × (c.row ≡ put a.row a.head (and_of a.list b.list)) × Stayed a c
        × (IsClean T.BITS a → IsClean T.BITS c) };

    /// The bits that are true in both; the left side's words.
    fn bitand(mut self, rhs: Self) -> Self {
        self &= rhs;
        self
    }
}

impl<T: BitStore, O: BitOrder> BitOrAssign for BitBox<T, O> {
    ghost bitor_assign_gives = { λ a b c. (c.list ≡ or_of a.list b.list) × OrsEach a.list b.list c.list
        × (c.row ≡ put a.row a.head (or_of a.list b.list)) × Stayed a c
        × (IsClean T.BITS a → IsClean T.BITS c) };

    /// Sets each bit that is true in the right side. No dead bit changes.
    fn bitor_assign(&mut self, rhs: Self) {
        self.or_bits(rhs.as_bitslice());
    }
}

impl<T: BitStore, O: BitOrder> BitOr for BitBox<T, O> {
    type Output = Self;

    ghost bitor_gives = { λ a b c. (c.list ≡ or_of a.list b.list) × OrsEach a.list b.list c.list
        × (c.row ≡ put a.row a.head (or_of a.list b.list)) × Stayed a c
        × (IsClean T.BITS a → IsClean T.BITS c) };

    /// The bits that are true in one or in both; the left side's words.
    fn bitor(mut self, rhs: Self) -> Self {
        self |= rhs;
        self
    }
}

impl<T: BitStore, O: BitOrder> BitXorAssign for BitBox<T, O> {
    ghost bitxor_assign_gives = { λ a b c. (c.list ≡ xor_of a.list b.list) × XorsEach a.list b.list c.list
        × (c.row ≡ put a.row a.head (xor_of a.list b.list)) × Stayed a c
        × (IsClean T.BITS a → IsClean T.BITS c) };

    /// Flips each bit that is true in the right side. No dead bit changes.
    fn bitxor_assign(&mut self, rhs: Self) {
        self.xor_bits(rhs.as_bitslice());
    }
}

impl<T: BitStore, O: BitOrder> BitXor for BitBox<T, O> {
    type Output = Self;

    ghost bitxor_gives = { λ a b c. (c.list ≡ xor_of a.list b.list) × XorsEach a.list b.list c.list
        × (c.row ≡ put a.row a.head (xor_of a.list b.list)) × Stayed a c
        × (IsClean T.BITS a → IsClean T.BITS c) };

    /// The bits that are true in one alone; the left side's words.
    fn bitxor(mut self, rhs: Self) -> Self {
        self ^= rhs;
        self
    }
}
