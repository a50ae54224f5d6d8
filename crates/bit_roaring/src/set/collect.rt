//! The numbers that an iterator gives.
ghost use Rattle.std.specs.Prelude.{◌≡◌, ◌<◌, ◌^◌, ◌||◌, ℕ, List, [], IfOk, OnOk, slice_index, ⊤};
ghost use Rattle.std.specs.Iterator.{DrainsIf, ExtendsWithItems, HoldsAlong, IsFinite, IsFiniteIterable};
ghost use Rattle.bit_blocks.specs.Numbers.{AscendsIn, Combines, has};
ghost use Rattle.bit_slice.specs.Pulls.{RunsThrough};
ghost use Rattle.bit_roaring.specs.Changes.{HasTaken, IsSetOf};

use crate::set::RoaringSet;
use std::alloc::{AllocError, Global};
use std::iter::{Extend, FromIterator, IntoIterator};

// How many numbers `from_iter` sorts at a time: 4 megabytes.
const SORTED: usize = 1048576;

impl Extend<u32> for RoaringSet {
    ghost extend_gives = { λ old numbers new. HasTaken old numbers new };

    /// Puts in the numbers that an iterator gives before its first None, one after another. Where memory is refused, the
    /// set has those that came before. Many numbers in no order are faster collected, and then put in by `union_with`.
    /// Requires that the iterator ends.
    ///
    /// ```text
    /// of 2, 3: set.extend([41, 2])? leaves 2, 3, 41
    /// ```
    fn extend<I: IntoIterator<Item = u32>>(&mut self, iter: I) -> Result<(), AllocError>
        requires { IsFiniteIterable I.into_iter_gives I.IntoIter.can_next I.IntoIter.remaining iter }
        ensures ran { ExtendsWithItems I.into_iter_gives I.IntoIter.next_gives
            (λ old numbers new. HasTaken old numbers new) iter self.old self.new result }
        ensures runs { OnOk result (RunsThrough I.into_iter_gives I.IntoIter.next_gives iter
            (λ numbers. HasTaken self.old numbers self.new)) }
    {
        for number in iter {
            if let Err(refused) = self.insert(number) {
                return Err(refused);
            }
        }
        Ok(())
    }
}

impl FromIterator<u32> for RoaringSet {
    type Alloc = Global;

    ghost from_iter_gives = { λ numbers s. IsSetOf numbers s };

    /// The set of the numbers that an iterator gives before its first None, in whatever order, and however often each
    /// comes. Sorts a million of them at a time, in up to 4 megabytes beside the set. Requires that the iterator ends.
    ///
    /// ```text
    /// [3, 1, 3].into_iter().collect::<RoaringSet>(alloc)? holds 1, 3
    /// ```
    fn from_iter<I: IntoIterator<Item = u32>>(alloc: Global, iter: I) -> Result<Self, AllocError>
        requires { (it : I.IntoIter) → I.into_iter_gives iter it → I.IntoIter.can_next it
            × IsFinite (I.IntoIter.remaining it) × HoldsAlong I.IntoIter.next_gives it (λ _. ⊤) }
        ensures ran { IfOk result (λ s. (it : I.IntoIter) × (numbers : List ℕ) × I.into_iter_gives iter it
            × DrainsIf I.IntoIter.next_gives ⊤ it numbers × IsSetOf numbers s) }
        ensures runs { IfOk result (λ s. RunsThrough I.into_iter_gives I.IntoIter.next_gives iter (λ numbers. IsSetOf numbers s)) }
    {
        let mut set = RoaringSet::new(alloc);
        let mut some = Vec::new(alloc);
        for number in iter {
            if some.len() == SORTED {
                set.take_all(&mut some)?;
            }
            some.push(number)?;
        }
        set.take_all(&mut some)?;
        set.prove_order();
        Ok(set)
    }
}

impl RoaringSet {
    // The set of numbers in whatever order. Sorts them in place, and keeps one of each.
    fn of_numbers(numbers: &mut Vec<u32>) -> Result<Self, AllocError>
        ensures { IfOk result (λ set. (k : ℕ) → has set k ≡ has numbers.old.items k) }
    {
        numbers.sort_unstable();
        prove_below(numbers);
        numbers.dedup();
        let set = RoaringSet::from_ascending(*numbers.allocator(), numbers)?;
        Ok(set)
    }

    // Puts numbers in, in whatever order, and empties their vector.
    fn take_all(&mut self, numbers: &mut Vec<u32>) -> Result<(), AllocError>
        ensures taken { OnOk result (HasTaken self.old numbers.old.items self.new) }
        ensures empty { OnOk result (numbers.new.items ≡ []) }
    {
        let others = RoaringSet::of_numbers(numbers)?;
        if self.is_empty() {
            *self = others;
        } else {
            self.union_with(&others)?;
        }
        numbers.clear();
        Ok(())
    }
}

// Each number is below 2 ^ 32. Does nothing: a proof that has the numbers in a vector alone calls it.
fn prove_below(numbers: &[u32])
    ensures { (k : ℕ) → slice_index numbers.now k < 2 ^ 32 }
{}
