//! The vector combined with views, and its operators.
ghost use Rattle.std.specs.Prelude.{◌≡◌, ◌+◌, ◌-◌, ◌≤◌, ◌<◌, ◌↔◌, false, ◌||◌, if◌then◌else◌, IsTrue, IsOk, OnOk, length, max, not, map, replicate};
ghost use Rattle.bit_addressing.specs.Row.{put, sized};
ghost use Rattle.bit_containers.specs.BitVec.{Stayed, IsClean, RefusesOnly};
ghost use Rattle.bit_containers.specs.Making.{filled_up, CombinesAll};
ghost use Rattle.bit_slice.specs.BitSlice.{len_of, list_of};
ghost use Rattle.bit_slice.specs.Operators.{combined, and_of, or_of, xor_of, AndsEach, OrsEach, XorsEach, FlipsEach};

use crate::vec::BitVec;
use bit_addressing::{BitOrder, BitStore, GrowError};
use bit_rows::{And, BitOperator, Or, Xor};
use bit_slice::inner::flip_row;
use bit_slice::{BitListMut, BitSlice};
use std::ops::{BitAnd, BitAndAssign, BitOr, BitOrAssign, BitXor, BitXorAssign, Index, Not};

impl<T: BitStore, O: BitOrder> BitVec<T, O> {
    // Appends false until there are `n` bits.
    #[tactic(auto, using(crate::proofs::Making::not_filled))]
    fn fill_up(&mut self, n: usize) -> Result<(), GrowError>
        ensures list { OnOk result (self.new.list ≡ filled_up self.old.list n) }
        ensures len { OnOk result (length self.new.list ≡ max (length self.old.list) n) }
        ensures head { self.new.head ≡ self.old.head }
        ensures row { OnOk result (self.new.row
            ≡ put (sized T.BITS self.old.row (self.old.head + length self.new.list))
            (self.old.head + length self.old.list) (replicate (n - length self.old.list) false)) }
        ensures clean { OnOk result (IsClean T.BITS self.old → IsClean T.BITS self.new) }
        ensures refusal { RefusesOnly result n self.old self.new }
        ensures capacity { self.old.capacity ≤ self.new.capacity }
        ensures within { n ≤ self.old.capacity → self.new.capacity ≡ self.old.capacity }
        ensures no_memory { n ≤ length self.old.list → IsOk result × (self.new ≡ self.old) }
    {
        self.prove_in_words();
        if n > self.len {
            self.resize(n, false)?;
        }
        Ok(())
    }

    // Combines each bit, by `F`, with the bit at its index in a view. The shorter side counts as filled up
    // with false, and the vector becomes as long as the longer one.
    fn combine_growing<F: BitOperator, U: BitStore, P: BitOrder>(
        &mut self,
        other: BitSlice<'_, U, P>,
    ) -> Result<(), GrowError>
        ensures list { OnOk result (self.new.list
            ≡ combined F.made (filled_up self.old.list (len_of other.entry)) (list_of other.entry)) }
        ensures len { OnOk result (length self.new.list ≡ max (length self.old.list) (len_of other.entry)) }
        ensures index { OnOk result (CombinesAll F.made self.old.list (list_of other.entry) self.new.list) }
        ensures head { self.new.head ≡ self.old.head }
        ensures row { OnOk result (self.new.row
            ≡ put (sized T.BITS self.old.row (self.old.head + length self.new.list)) self.old.head
            self.new.list) }
        ensures clean { OnOk result (IsClean T.BITS self.old → IsClean T.BITS self.new) }
        ensures refusal { RefusesOnly result (len_of other.entry) self.old self.new }
        ensures capacity { self.old.capacity ≤ self.new.capacity }
        ensures within { len_of other.entry ≤ self.old.capacity → self.new.capacity ≡ self.old.capacity }
        ensures no_memory { len_of other.entry ≤ length self.old.list
            → IsOk result × (self.new.capacity ≡ self.old.capacity) }
    {
        self.fill_up(other.len())?;
        self.combine::<F, U, P>(other);
        Ok(())
    }

    /// Sets each bit that is true in a view, which may be longer: the vector becomes as long as the longer of
    /// both, and the shorter counts as filled up with false. Where the view is not longer, it takes no memory
    /// and always succeeds. It is refused like `resize` to the view's length, and a refusal changes nothing
    /// but perhaps the capacity.
    ///
    /// ```text
    /// of the bits 1, 0 and a view of 0, 0, 0, 1:  v.or_growing(view)?     // 1, 0, 0, 1
    /// ```
    pub fn or_growing<U: BitStore, P: BitOrder>(
        &mut self,
        other: BitSlice<'_, U, P>,
    ) -> Result<(), GrowError>
        ensures list { OnOk result
            (self.new.list ≡ or_of (filled_up self.old.list (len_of other.entry)) (list_of other.entry)) }
        ensures len { OnOk result (length self.new.list ≡ max (length self.old.list) (len_of other.entry)) }
        ensures index { OnOk result (CombinesAll (λ x y. x || y) self.old.list (list_of other.entry) self.new.list) }
        ensures head { self.new.head ≡ self.old.head }
        ensures row { OnOk result (self.new.row
            ≡ put (sized T.BITS self.old.row (self.old.head + length self.new.list)) self.old.head
            self.new.list) }
        ensures clean { OnOk result (IsClean T.BITS self.old → IsClean T.BITS self.new) }
        ensures refusal { RefusesOnly result (len_of other.entry) self.old self.new }
        ensures capacity { self.old.capacity ≤ self.new.capacity }
        ensures within { len_of other.entry ≤ self.old.capacity → self.new.capacity ≡ self.old.capacity }
        ensures no_memory { len_of other.entry ≤ length self.old.list
            → IsOk result × (self.new.capacity ≡ self.old.capacity) }
    {
        self.combine_growing::<Or, U, P>(other)
    }

    /// Flips each bit that is true in a view, which may be longer: the vector becomes as long as the longer of
    /// both, and the shorter counts as filled up with false. It takes memory and is refused like `or_growing`.
    ///
    /// ```text
    /// of the bits 1, 1 and a view of 1, 0, 1:  v.xor_growing(view)?      // 0, 1, 1
    /// ```
    pub fn xor_growing<U: BitStore, P: BitOrder>(
        &mut self,
        other: BitSlice<'_, U, P>,
    ) -> Result<(), GrowError>
        ensures list { OnOk result
            (self.new.list ≡ xor_of (filled_up self.old.list (len_of other.entry)) (list_of other.entry)) }
        ensures len { OnOk result (length self.new.list ≡ max (length self.old.list) (len_of other.entry)) }
        ensures index { OnOk result (CombinesAll (λ x y. if x then not y else y) self.old.list
            (list_of other.entry) self.new.list) }
        ensures head { self.new.head ≡ self.old.head }
        ensures row { OnOk result (self.new.row
            ≡ put (sized T.BITS self.old.row (self.old.head + length self.new.list)) self.old.head
            self.new.list) }
        ensures clean { OnOk result (IsClean T.BITS self.old → IsClean T.BITS self.new) }
        ensures refusal { RefusesOnly result (len_of other.entry) self.old self.new }
        ensures capacity { self.old.capacity ≤ self.new.capacity }
        ensures within { len_of other.entry ≤ self.old.capacity → self.new.capacity ≡ self.old.capacity }
        ensures no_memory { len_of other.entry ≤ length self.old.list
            → IsOk result × (self.new.capacity ≡ self.old.capacity) }
    {
        self.combine_growing::<Xor, U, P>(other)
    }

    /// Flips the whole row: the bits of the list, and the dead ones too. Takes no memory.
    ///
    /// ```text
    /// of 01101001: bits.flip_all() leaves 10010110
    /// ```
    pub fn flip_all(&mut self)
        ensures list { self.new.list ≡ map not self.old.list }
        ensures index { FlipsEach self.old.list self.new.list }
        ensures row { self.new.row ≡ map not self.old.row }
        ensures stayed { Stayed self.old self.new }
    {
        flip_row(self);
    }
}

impl<T: BitStore, O: BitOrder> Not for BitVec<T, O> {
    type Output = Self;

    ghost not_gives = { λ a b. (b.list ≡ map not a.list) × FlipsEach a.list b.list × (b.row ≡ map not a.row)
        × Stayed a b };

    /// The whole row flipped: the bits of the list, and the dead ones too.
    fn not(mut self) -> Self {
        self.flip_all();
        self
    }
}

impl<T: BitStore, O: BitOrder> Index<usize> for BitVec<T, O> {
    ghost use Rattle.std.specs.Prelude.{◌≡◌, ◌<◌, Some, slice_get, length};

    type Output = bool;

    ghost can_index = { λ v i. i < length v.list };

    ghost index_gives = { λ v i bit. Some bit ≡ slice_get v.list i };

    /// The bit at `i`. Requires that `i` is below the length.
    fn index(&self, i: usize) -> &bool {
        if self.get(i).unwrap_or(false) {
            &true
        } else {
            &false
        }
    }
}

impl<T: BitStore, O: BitOrder> BitAndAssign for BitVec<T, O> {
    ghost bitand_assign_gives = { λ a b c. (c.list ≡ and_of a.list b.list) × AndsEach a.list b.list c.list
        × (c.row ≡ put a.row a.head (and_of a.list b.list)) × Stayed a c
        × (IsClean T.BITS a → IsClean T.BITS c) };

    /// Clears each bit that is false in the right side, and each past its end. No dead bit changes.
    fn bitand_assign(&mut self, rhs: Self) {
        self.and_bits(rhs.as_bitslice());
    }
}

impl<T: BitStore, O: BitOrder> BitAnd for BitVec<T, O> {
    type Output = Self;

    ghost bitand_gives = { λ a b c. (c.list ≡ and_of a.list b.list) × AndsEach a.list b.list c.list
        × (c.row ≡ put a.row a.head (and_of a.list b.list)) × Stayed a c
        × (IsClean T.BITS a → IsClean T.BITS c) };

    /// The bits that are true in both; the left side's words.
    fn bitand(mut self, rhs: Self) -> Self {
        self &= rhs;
        self
    }
}

impl<T: BitStore, O: BitOrder> BitOrAssign for BitVec<T, O> {
    ghost bitor_assign_gives = { λ a b c. (c.list ≡ or_of a.list b.list) × OrsEach a.list b.list c.list
        × (c.row ≡ put a.row a.head (or_of a.list b.list)) × Stayed a c
        × (IsClean T.BITS a → IsClean T.BITS c) };

    /// Sets each bit that is true in the right side. No dead bit changes.
    fn bitor_assign(&mut self, rhs: Self) {
        self.or_bits(rhs.as_bitslice());
    }
}

impl<T: BitStore, O: BitOrder> BitOr for BitVec<T, O> {
    type Output = Self;

    ghost bitor_gives = { λ a b c. (c.list ≡ or_of a.list b.list) × OrsEach a.list b.list c.list
        × (c.row ≡ put a.row a.head (or_of a.list b.list)) × Stayed a c
        × (IsClean T.BITS a → IsClean T.BITS c) };

    /// The bits that are true in one or in both; the left side's words.
    fn bitor(mut self, rhs: Self) -> Self {
        self |= rhs;
        self
    }
}

impl<T: BitStore, O: BitOrder> BitXorAssign for BitVec<T, O> {
    ghost bitxor_assign_gives = { λ a b c. (c.list ≡ xor_of a.list b.list) × XorsEach a.list b.list c.list
        × (c.row ≡ put a.row a.head (xor_of a.list b.list)) × Stayed a c
        × (IsClean T.BITS a → IsClean T.BITS c) };

    /// Flips each bit that is true in the right side. No dead bit changes.
    fn bitxor_assign(&mut self, rhs: Self) {
        self.xor_bits(rhs.as_bitslice());
    }
}

impl<T: BitStore, O: BitOrder> BitXor for BitVec<T, O> {
    type Output = Self;

    ghost bitxor_gives = { λ a b c. (c.list ≡ xor_of a.list b.list) × XorsEach a.list b.list c.list
        × (c.row ≡ put a.row a.head (xor_of a.list b.list)) × Stayed a c
        × (IsClean T.BITS a → IsClean T.BITS c) };

    /// The bits that are true in one alone; the left side's words.
    fn bitxor(mut self, rhs: Self) -> Self {
        self ^= rhs;
        self
    }
}
