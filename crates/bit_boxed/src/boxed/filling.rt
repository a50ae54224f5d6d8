//! The traits of std by which generic code makes, empties and collects a box.
ghost use Rattle.std.specs.Prelude.{◌≡◌, ◌<◌, [], Bool, IfOk, IsOk, List, OnErr, length, map, ⊤};
ghost use Rattle.std.specs.Borrow.{Bor};
ghost use Rattle.std.specs.Iterator.{DrainsIf, HoldsAlong, IsFinite};
ghost use Rattle.bit_slice.specs.Held.{IsClean};
ghost use Rattle.bit_slice.specs.Pulls.{GivesFirst, RunsThrough};
ghost use Rattle.bit_slice.specs.Written.{IsEmpty};

use crate::boxed::BitBox;
use bit_addressing::{BitOrder, BitStore};
use std::alloc::{AllocError, Global};
use std::default::{Emptied, MadeWith};
use std::iter::{FromIterator, Iterator};
use std::marker::PhantomData;

impl<T: BitStore, O: BitOrder> BitBox<T, O> {
    // The empty box.
    fn none(alloc: Global) -> Self
        ensures list { result.list ≡ [] }
        ensures words { result.words ≡ [] }
        ensures head { result.head ≡ 0 }
        ensures capacity { result.capacity ≡ 0 }
        ensures clean { IsClean T.BITS result }
    {
        BitBox {
            words: Vec::new(alloc),
            head: 0,
            len: 0,
            order: PhantomData,
        }
    }
}

impl<T: BitStore, O: BitOrder> Emptied for BitBox<T, O> {
    ghost is_emptied = { IsEmpty T.BITS };

    /// Like `empty`, with the allocator of `like`. It always succeeds, and takes no memory.
    ///
    /// ```text
    /// of 0110: mem::try_take(&mut bits)? holds 0110, and bits nothing
    /// ```
    fn emptied(like: &Self) -> Result<Self, AllocError>
        ensures empty { IfOk result (IsEmpty T.BITS) }
        ensures succeeds { IsOk result }
    {
        Ok(BitBox::none(like.allocator()))
    }
}

impl<T: BitStore, O: BitOrder> MadeWith<Global> for BitBox<T, O> {
    ghost is_made_with = { IsEmpty T.BITS };

    /// Like `empty`, but not in a result.
    ///
    /// ```text
    /// map.entry(key)?.or_default() holds nothing where the map has no such key
    /// ```
    fn made_with(alloc: Global) -> Self {
        BitBox::none(alloc)
    }
}

impl<T: BitStore, O: BitOrder> FromIterator<bool> for BitBox<T, O> {
    type Alloc = Global;

    ghost from_iter_gives = { λ bits b. (b.list ≡ bits) × IsClean T.BITS b };

    /// Like `from_bits`, but with one error for both refusals.
    ///
    /// ```text
    /// [true, false].into_iter().collect::<BitBox<u8, Lsb0>>(alloc)? holds 10
    /// ```
    fn from_iter<I: IntoIterator<Item = bool>>(alloc: Global, iter: I) -> Result<Self, AllocError>
        requires { (it : I.IntoIter) → I.into_iter_gives iter it → I.IntoIter.can_next it
            × IsFinite (I.IntoIter.remaining it) × HoldsAlong I.IntoIter.next_gives it (λ _. ⊤) }
        ensures ran { IfOk result (λ b. (it : I.IntoIter) × (bits : List Bool) × I.into_iter_gives iter it
            × DrainsIf I.IntoIter.next_gives ⊤ it bits × ((b.list ≡ bits) × IsClean T.BITS b)) }
        ensures runs { IfOk result
            (λ b. RunsThrough I.into_iter_gives I.IntoIter.next_gives iter (λ bits. b.list ≡ bits)) }
        ensures memory { OnErr result (GivesFirst I.into_iter_gives I.IntoIter.next_gives iter
            (λ bits. 0 < length bits)) }
    {
        match BitBox::from_bits(alloc, iter) {
            Ok(b) => Ok(b),
            Err(_) => Err(AllocError),
        }
    }
}

impl<'a, T: BitStore, O: BitOrder> FromIterator<&'a bool> for BitBox<T, O> {
    type Alloc = Global;

    ghost from_iter_gives = { λ bits b. (b.list ≡ map (λ x. x.now) bits) × IsClean T.BITS b };

    /// Like `from_bits`, of bits that are read through references, and with one error for both refusals.
    ///
    /// ```text
    /// [true, false].iter().collect::<BitBox<u8, Lsb0>>(alloc)? holds 10
    /// ```
    fn from_iter<I: IntoIterator<Item = &'a bool>>(
        alloc: Global,
        iter: I,
    ) -> Result<Self, AllocError>
        requires { (it : I.IntoIter) → I.into_iter_gives iter it → I.IntoIter.can_next it
            × IsFinite (I.IntoIter.remaining it) × HoldsAlong I.IntoIter.next_gives it (λ _. ⊤) }
        ensures ran { IfOk result (λ b. (it : I.IntoIter) × (bits : List (Bor Bool)) × I.into_iter_gives iter it
            × DrainsIf I.IntoIter.next_gives ⊤ it bits × ((b.list ≡ map (λ x. x.now) bits) × IsClean T.BITS b)) }
        ensures runs { IfOk result (λ b. RunsThrough I.into_iter_gives I.IntoIter.next_gives iter
            (λ bits. b.list ≡ map (λ x. x.now) bits)) }
        ensures memory { OnErr result (GivesFirst I.into_iter_gives I.IntoIter.next_gives iter
            (λ bits. 0 < length bits)) }
    {
        match BitBox::from_bits(alloc, iter.into_iter().copied()) {
            Ok(b) => Ok(b),
            Err(_) => Err(AllocError),
        }
    }
}
