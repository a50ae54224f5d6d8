//! The numbers that an iterator gives.
ghost use Rattle.std.specs.Prelude.{◌≡◌, ◌↔◌, ℕ, Bool, Contains, List, [], IfErr, IfOk, OnOk, length, ⊤};
ghost use Rattle.std.specs.Iterator.{DrainsIf, ExtendsWithItems, HoldsAlong, IsFinite, IsFiniteIterable};
ghost use Rattle.bit_addressing.specs.declared.errors.GrowError.TheVariants as errors;
ghost use Rattle.bit_slice.specs.Pulls.{GivesAll, GivesFirst, RunsThrough};
ghost use Rattle.bit_sets.specs.InTurn.{HasTaken, IsRefused, bound_of};
ghost use Rattle.bit_sets.specs.NumberSet.{IsIn};

use crate::number_set::NumberSet;
use bit_addressing::GrowError;
use std::alloc::{AllocError, Global};
use std::iter::{Extend, FromIterator, IntoIterator};

impl NumberSet {
    /// Puts the numbers that an iterator gives before its first None into the set, each like `insert`: the bound
    /// grows to reach them. Returns `TooLong` at the first number that is not below the bound and `MAX_BITS` or
    /// more, and `OutOfMemory` only at a number that is not below the bound; then it pulls no more, and the set has
    /// the numbers before that one. Requires that the iterator ends.
    ///
    /// ```text
    /// of 2, 3: seen.extend(Some(41))? leaves 2, 3, 41
    /// ```
    pub fn extend<I: IntoIterator<Item = usize>>(&mut self, iter: I) -> Result<(), GrowError>
        requires { IsFiniteIterable I.into_iter_gives I.IntoIter.can_next I.IntoIter.remaining iter }
        ensures taken { OnOk result (GivesAll I.into_iter_gives I.IntoIter.next_gives iter
            (HasTaken self.old self.new)) }
        ensures runs { OnOk result (RunsThrough I.into_iter_gives I.IntoIter.next_gives iter
            (HasTaken self.old self.new)) }
        ensures refused { IfErr result
            (λ why. GivesFirst I.into_iter_gives I.IntoIter.next_gives iter
            (λ numbers. IsRefused self.old self.new numbers (why ≡ errors.TooLong))) }
    {
        for number in iter {
            if let Err(why) = self.insert(number) {
                return Err(why);
            }
        }
        Ok(())
    }

    /// The set of the numbers that an iterator gives before its first None, with the least bound above them. It is
    /// refused like `extend`. Requires that the iterator ends.
    ///
    /// ```text
    /// NumberSet::from_iter(alloc, numbers)?    // of the `Vec` 3, 1, 3: the set of 1 and 3, of bound 4
    /// ```
    pub fn from_iter<I: IntoIterator<Item = usize>>(
        alloc: Global,
        iter: I,
    ) -> Result<Self, GrowError>
        requires { IsFiniteIterable I.into_iter_gives I.IntoIter.can_next I.IntoIter.remaining iter }
        ensures taken { IfOk result (λ s. GivesAll I.into_iter_gives I.IntoIter.next_gives iter (HasTaken [] s)) }
        ensures runs { IfOk result (λ s. RunsThrough I.into_iter_gives I.IntoIter.next_gives iter (HasTaken [] s)) }
        ensures refused { IfErr result
            (λ why. GivesFirst I.into_iter_gives I.IntoIter.next_gives iter
            (λ numbers. (s : List Bool) × IsRefused [] s numbers (why ≡ errors.TooLong))) }
    {
        let mut set = NumberSet::new(alloc);
        match set.extend(iter) {
            Ok(()) => Ok(set),
            Err(why) => Err(why),
        }
    }
}

impl Extend<usize> for NumberSet {
    ghost extend_gives = { λ old numbers new. HasTaken old new numbers };

    /// Like the set's own `extend`, but with one error for both refusals.
    fn extend<I: IntoIterator<Item = usize>>(&mut self, iter: I) -> Result<(), AllocError>
        requires { IsFiniteIterable I.into_iter_gives I.IntoIter.can_next I.IntoIter.remaining iter }
        ensures ran { ExtendsWithItems I.into_iter_gives I.IntoIter.next_gives
            (λ old numbers new. HasTaken old new numbers) iter self.old self.new result }
        ensures runs { OnOk result (RunsThrough I.into_iter_gives I.IntoIter.next_gives iter
            (HasTaken self.old self.new)) }
    {
        match NumberSet::extend(self, iter) {
            Ok(()) => Ok(()),
            Err(_) => Err(AllocError),
        }
    }
}

impl FromIterator<usize> for NumberSet {
    type Alloc = Global;

    ghost from_iter_gives = { λ numbers s. (length s ≡ bound_of numbers)
        × ((k : ℕ) → IsIn s k ↔ Contains numbers k) };

    /// Like the set's own `from_iter`, but with one error for both refusals.
    ///
    /// ```text
    /// [3, 1].into_iter().collect::<NumberSet>(alloc)? holds 1, 3
    /// ```
    fn from_iter<I: IntoIterator<Item = usize>>(alloc: Global, iter: I) -> Result<Self, AllocError>
        requires { (it : I.IntoIter) → I.into_iter_gives iter it → I.IntoIter.can_next it
            × IsFinite (I.IntoIter.remaining it) × HoldsAlong I.IntoIter.next_gives it (λ _. ⊤) }
        ensures ran { IfOk result (λ s. (it : I.IntoIter) × (numbers : List ℕ) × I.into_iter_gives iter it
            × DrainsIf I.IntoIter.next_gives ⊤ it numbers
            × ((length s ≡ bound_of numbers) × ((k : ℕ) → IsIn s k ↔ Contains numbers k))) }
        ensures runs { IfOk result (λ s. RunsThrough I.into_iter_gives I.IntoIter.next_gives iter (λ numbers.
            (length s ≡ bound_of numbers) × ((k : ℕ) → IsIn s k ↔ Contains numbers k))) }
    {
        match NumberSet::from_iter(alloc, iter) {
            Ok(set) => Ok(set),
            Err(_) => Err(AllocError),
        }
    }
}
