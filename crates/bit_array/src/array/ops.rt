//! The operators of the array.
ghost use Rattle.std.specs.Prelude.{◌≡◌, not, map};
ghost use Rattle.bit_addressing.specs.Typed.{row};
ghost use Rattle.bit_slice.specs.Operators.{and_of, or_of, xor_of, AndsEach, OrsEach, XorsEach, FlipsEach};

use crate::array::BitArray;
use crate::sized::{BitViewSized, BitWords};
use bit_addressing::BitOrder;
use bit_rows::flip_words;
use bit_slice::BitListMut;
use std::ops::{BitAnd, BitAndAssign, BitOr, BitOrAssign, BitXor, BitXorAssign, Index, Not};

impl<A: BitViewSized, O: BitOrder> BitArray<A, O> {
    /// Flips every bit.
    ///
    /// ```text
    /// of 01101001: bits.flip_all() leaves 10010110
    /// ```
    #[tactic(auto, using(bit_slice::proofs::Rules::item_of_not))]
    pub fn flip_all(&mut self)
        ensures list { row A.Store.BitStore O.BitOrder (A.words self.new)
            ≡ map not (row A.Store.BitStore O.BitOrder (A.words self.old)) }
        ensures index { FlipsEach (row A.Store.BitStore O.BitOrder (A.words self.old))
            (row A.Store.BitStore O.BitOrder (A.words self.new)) }
    {
        flip_words::<A::Store, O>(self.inner.as_raw_mut_slice());
    }
}

impl<A: BitViewSized, O: BitOrder> Not for BitArray<A, O> {
    type Output = Self;

    ghost not_gives = { λ a b. (row A.Store.BitStore O.BitOrder (A.words b)
        ≡ map not (row A.Store.BitStore O.BitOrder (A.words a)))
        × FlipsEach (row A.Store.BitStore O.BitOrder (A.words a))
        (row A.Store.BitStore O.BitOrder (A.words b)) };

    /// Every bit flipped.
    fn not(mut self) -> Self {
        self.flip_all();
        self
    }
}

impl<A: BitWords, O: BitOrder> Index<usize> for BitArray<A, O> {
    ghost use Rattle.std.specs.Prelude.{◌≡◌, ◌*◌, ◌<◌, Some, slice_get};
    ghost use Rattle.bit_addressing.specs.Typed.{row};

    type Output = bool;

    ghost can_index = { λ a i. i < A.Store.BITS * A.count };

    ghost index_gives = { λ a i bit. Some bit ≡ slice_get (row A.Store.BitStore O.BitOrder (A.words a)) i };

    /// The bit at `i`. Requires that `i` is below the length.
    fn index(&self, i: usize) -> &bool {
        if self.as_bitslice()[i] { &true } else { &false }
    }
}

impl<A: BitViewSized, O: BitOrder> BitAndAssign for BitArray<A, O> {
    ghost bitand_assign_gives = { λ a b c. (row A.Store.BitStore O.BitOrder (A.words c)
        ≡ and_of (row A.Store.BitStore O.BitOrder (A.words a))
        (row A.Store.BitStore O.BitOrder (A.words b)))
        × AndsEach (row A.Store.BitStore O.BitOrder (A.words a))
        (row A.Store.BitStore O.BitOrder (A.words b)) (row A.Store.BitStore O.BitOrder (A.words c)) };

    /// Clears each bit that is false in the right side.
    fn bitand_assign(&mut self, rhs: Self) {
        self.and_bits(rhs.as_bitslice());
    }
}

impl<A: BitViewSized, O: BitOrder> BitAnd for BitArray<A, O> {
    type Output = Self;

    ghost bitand_gives = { λ a b c. (row A.Store.BitStore O.BitOrder (A.words c)
        ≡ and_of (row A.Store.BitStore O.BitOrder (A.words a))
        (row A.Store.BitStore O.BitOrder (A.words b)))
        × AndsEach (row A.Store.BitStore O.BitOrder (A.words a))
        (row A.Store.BitStore O.BitOrder (A.words b)) (row A.Store.BitStore O.BitOrder (A.words c)) };

    /// The bits that are true in both.
    fn bitand(mut self, rhs: Self) -> Self {
        self &= rhs;
        self
    }
}

impl<A: BitViewSized, O: BitOrder> BitOrAssign for BitArray<A, O> {
    ghost bitor_assign_gives = { λ a b c. (row A.Store.BitStore O.BitOrder (A.words c)
        ≡ or_of (row A.Store.BitStore O.BitOrder (A.words a)) (row A.Store.BitStore O.BitOrder (A.words b)))
        × OrsEach (row A.Store.BitStore O.BitOrder (A.words a))
        (row A.Store.BitStore O.BitOrder (A.words b)) (row A.Store.BitStore O.BitOrder (A.words c)) };

    /// Sets each bit that is true in the right side.
    fn bitor_assign(&mut self, rhs: Self) {
        self.or_bits(rhs.as_bitslice());
    }
}

impl<A: BitViewSized, O: BitOrder> BitOr for BitArray<A, O> {
    type Output = Self;

    ghost bitor_gives = { λ a b c. (row A.Store.BitStore O.BitOrder (A.words c)
        ≡ or_of (row A.Store.BitStore O.BitOrder (A.words a)) (row A.Store.BitStore O.BitOrder (A.words b)))
        × OrsEach (row A.Store.BitStore O.BitOrder (A.words a))
        (row A.Store.BitStore O.BitOrder (A.words b)) (row A.Store.BitStore O.BitOrder (A.words c)) };

    /// The bits that are true in one or in both.
    fn bitor(mut self, rhs: Self) -> Self {
        self |= rhs;
        self
    }
}

impl<A: BitViewSized, O: BitOrder> BitXorAssign for BitArray<A, O> {
    ghost bitxor_assign_gives = { λ a b c. (row A.Store.BitStore O.BitOrder (A.words c)
        ≡ xor_of (row A.Store.BitStore O.BitOrder (A.words a))
        (row A.Store.BitStore O.BitOrder (A.words b)))
        × XorsEach (row A.Store.BitStore O.BitOrder (A.words a))
        (row A.Store.BitStore O.BitOrder (A.words b)) (row A.Store.BitStore O.BitOrder (A.words c)) };

    /// Flips each bit that is true in the right side.
    fn bitxor_assign(&mut self, rhs: Self) {
        self.xor_bits(rhs.as_bitslice());
    }
}

impl<A: BitViewSized, O: BitOrder> BitXor for BitArray<A, O> {
    type Output = Self;

    ghost bitxor_gives = { λ a b c. (row A.Store.BitStore O.BitOrder (A.words c)
        ≡ xor_of (row A.Store.BitStore O.BitOrder (A.words a))
        (row A.Store.BitStore O.BitOrder (A.words b)))
        × XorsEach (row A.Store.BitStore O.BitOrder (A.words a))
        (row A.Store.BitStore O.BitOrder (A.words b)) (row A.Store.BitStore O.BitOrder (A.words c)) };

    /// The bits that are true in one alone.
    fn bitxor(mut self, rhs: Self) -> Self {
        self ^= rhs;
        self
    }
}
