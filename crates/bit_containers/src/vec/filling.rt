//! The traits of std by which generic code makes, empties, collects and extends a vector.
ghost use Rattle.std.specs.Prelude.{◌≡◌, ◌+◌, ◌<◌, ◌≤◌, [], ◌++◌, Bool, IfOk, IsOk, List, OnErr, OnOk, length, map, ⊤};
ghost use Rattle.std.specs.Borrow.{Bor};
ghost use Rattle.std.specs.Iterator.{DrainsIf, ExtendsWithItems, HoldsAlong, IsFinite, IsFiniteIterable};
ghost use Rattle.std.specs.Iterator.Runs.{EachRunFrom};
ghost use Rattle.bit_addressing.specs.declared.length.TheConstants.{MAX_BITS};
ghost use Rattle.bit_slice.specs.Pulls.{GivesFirst, RunsThrough};
ghost use Rattle.bit_slice.specs.Written.{IsEmpty};
ghost use Rattle.bit_containers.specs.BitVec.{IsClean};

use crate::vec::BitVec;
use bit_addressing::{BitOrder, BitStore};
use std::alloc::{AllocError, Global};
use std::default::{Emptied, MadeWith};
use std::iter::{Extend, FromIterator, Iterator};

impl<T: BitStore, O: BitOrder> Emptied for BitVec<T, O> {
    ghost is_emptied = { IsEmpty T.BITS };

    /// Like `new`, with the allocator of `like`. It always succeeds, and takes no memory.
    ///
    /// ```text
    /// of 0110: mem::try_take(&mut bits)? holds 0110, and bits nothing
    /// ```
    fn emptied(like: &Self) -> Result<Self, AllocError>
        ensures empty { IfOk result (IsEmpty T.BITS) }
        ensures succeeds { IsOk result }
    {
        Ok(BitVec::new(like.allocator()))
    }
}

impl<T: BitStore, O: BitOrder> MadeWith<Global> for BitVec<T, O> {
    ghost is_made_with = { IsEmpty T.BITS };

    /// Like `new`.
    ///
    /// ```text
    /// map.entry(key)?.or_default() holds nothing where the map has no such key
    /// ```
    fn made_with(alloc: Global) -> Self {
        BitVec::new(alloc)
    }
}

impl<T: BitStore, O: BitOrder> Extend<bool> for BitVec<T, O> {
    ghost extend_gives = { λ old bits new. (new.list ≡ old.list ++ bits) × (new.head ≡ old.head)
        × (old.capacity ≤ new.capacity) };

    /// Like the vector's own `extend`, but with one error for both refusals. A refusal leaves the list.
    ///
    /// ```text
    /// of 01: Extend::extend(&mut bits, [true, true])? leaves 0111
    /// ```
    fn extend<I: IntoIterator<Item = bool>>(&mut self, iter: I) -> Result<(), AllocError>
        requires { IsFiniteIterable I.into_iter_gives I.IntoIter.can_next I.IntoIter.remaining iter }
        ensures ran { ExtendsWithItems I.into_iter_gives I.IntoIter.next_gives
            (λ old bits new. (new.list ≡ old.list ++ bits) × (new.head ≡ old.head) × (old.capacity ≤ new.capacity))
            iter self.old self.new result }
        ensures runs { OnOk result (RunsThrough I.into_iter_gives I.IntoIter.next_gives iter
            (λ bits. self.new.list ≡ self.old.list ++ bits)) }
        ensures clean { OnOk result (IsClean T.BITS self.old → IsClean T.BITS self.new) }
        ensures fits { ((it : I.IntoIter) → I.into_iter_gives iter it
            → EachRunFrom I.IntoIter.next_gives it (λ run. (length self.old.list + length run.items
            ≤ self.old.capacity) × (length self.old.list + length run.items ≤ MAX_BITS))) → IsOk result }
        ensures unchanged { OnErr result (self.new.list ≡ self.old.list) }
        ensures no_memory { ((it : I.IntoIter) → I.into_iter_gives iter it
            → EachRunFrom I.IntoIter.next_gives it
            (λ run. length self.old.list + length run.items ≤ self.old.capacity))
            → self.new.capacity ≡ self.old.capacity }
    {
        match BitVec::extend(self, iter) {
            Ok(()) => Ok(()),
            Err(_) => Err(AllocError),
        }
    }
}

impl<T: BitStore, O: BitOrder> FromIterator<bool> for BitVec<T, O> {
    type Alloc = Global;

    ghost from_iter_gives = { λ bits v. (v.list ≡ bits) × IsClean T.BITS v };

    /// Like `from_bits`, but with one error for both refusals.
    ///
    /// ```text
    /// [true, false].into_iter().collect::<BitVec<u8, Lsb0>>(alloc)? holds 10
    /// ```
    fn from_iter<I: IntoIterator<Item = bool>>(alloc: Global, iter: I) -> Result<Self, AllocError>
        requires { (it : I.IntoIter) → I.into_iter_gives iter it → I.IntoIter.can_next it
            × IsFinite (I.IntoIter.remaining it) × HoldsAlong I.IntoIter.next_gives it (λ _. ⊤) }
        ensures ran { IfOk result (λ v. (it : I.IntoIter) × (bits : List Bool) × I.into_iter_gives iter it
            × DrainsIf I.IntoIter.next_gives ⊤ it bits × ((v.list ≡ bits) × IsClean T.BITS v)) }
        ensures runs { IfOk result
            (λ v. RunsThrough I.into_iter_gives I.IntoIter.next_gives iter (λ bits. v.list ≡ bits)) }
        ensures memory { OnErr result (GivesFirst I.into_iter_gives I.IntoIter.next_gives iter
            (λ bits. 0 < length bits)) }
    {
        match BitVec::from_bits(alloc, iter) {
            Ok(v) => Ok(v),
            Err(_) => Err(AllocError),
        }
    }
}

impl<'a, T: BitStore, O: BitOrder> Extend<&'a bool> for BitVec<T, O> {
    ghost extend_gives = { λ old bits new. (new.list ≡ old.list ++ map (λ x. x.now) bits)
        × (new.head ≡ old.head) × (old.capacity ≤ new.capacity) };

    /// Like that of `Extend<bool>`, of bits that are read through references.
    ///
    /// ```text
    /// of 01: Extend::extend(&mut bits, &[true, true])? leaves 0111
    /// ```
    fn extend<I: IntoIterator<Item = &'a bool>>(&mut self, iter: I) -> Result<(), AllocError>
        requires { (it : I.IntoIter) → I.into_iter_gives iter it → I.IntoIter.can_next it
            × IsFinite (I.IntoIter.remaining it) × HoldsAlong I.IntoIter.next_gives it (λ _. ⊤) }
        ensures ran { ExtendsWithItems I.into_iter_gives I.IntoIter.next_gives
            (λ old bits new. (new.list ≡ old.list ++ map (λ x. x.now) bits) × (new.head ≡ old.head)
            × (old.capacity ≤ new.capacity)) iter self.old self.new result }
        ensures runs { OnOk result (RunsThrough I.into_iter_gives I.IntoIter.next_gives iter
            (λ bits. self.new.list ≡ self.old.list ++ map (λ x. x.now) bits)) }
        ensures clean { OnOk result (IsClean T.BITS self.old → IsClean T.BITS self.new) }
        ensures fits { ((it : I.IntoIter) → I.into_iter_gives iter it
            → EachRunFrom I.IntoIter.next_gives it (λ run. (length self.old.list + length run.items
            ≤ self.old.capacity) × (length self.old.list + length run.items ≤ MAX_BITS))) → IsOk result }
        ensures unchanged { OnErr result (self.new.list ≡ self.old.list) }
        ensures no_memory { ((it : I.IntoIter) → I.into_iter_gives iter it
            → EachRunFrom I.IntoIter.next_gives it
            (λ run. length self.old.list + length run.items ≤ self.old.capacity))
            → self.new.capacity ≡ self.old.capacity }
    {
        match BitVec::extend(self, iter.into_iter().copied()) {
            Ok(()) => Ok(()),
            Err(_) => Err(AllocError),
        }
    }
}

impl<'a, T: BitStore, O: BitOrder> FromIterator<&'a bool> for BitVec<T, O> {
    type Alloc = Global;

    ghost from_iter_gives = { λ bits v. (v.list ≡ map (λ x. x.now) bits) × IsClean T.BITS v };

    /// Like `from_bits`, of bits that are read through references, and with one error for both refusals.
    ///
    /// ```text
    /// [true, false].iter().collect::<BitVec<u8, Lsb0>>(alloc)? holds 10
    /// ```
    fn from_iter<I: IntoIterator<Item = &'a bool>>(
        alloc: Global,
        iter: I,
    ) -> Result<Self, AllocError>
        requires { (it : I.IntoIter) → I.into_iter_gives iter it → I.IntoIter.can_next it
            × IsFinite (I.IntoIter.remaining it) × HoldsAlong I.IntoIter.next_gives it (λ _. ⊤) }
        ensures ran { IfOk result (λ v. (it : I.IntoIter) × (bits : List (Bor Bool)) × I.into_iter_gives iter it
            × DrainsIf I.IntoIter.next_gives ⊤ it bits × ((v.list ≡ map (λ x. x.now) bits) × IsClean T.BITS v)) }
        ensures runs { IfOk result (λ v. RunsThrough I.into_iter_gives I.IntoIter.next_gives iter
            (λ bits. v.list ≡ map (λ x. x.now) bits)) }
        ensures memory { OnErr result (GivesFirst I.into_iter_gives I.IntoIter.next_gives iter
            (λ bits. 0 < length bits)) }
    {
        match BitVec::from_bits(alloc, iter.into_iter().copied()) {
            Ok(v) => Ok(v),
            Err(_) => Err(AllocError),
        }
    }
}
