//! Callers of ends, ranges, comparisons, operators and many sets, with no proof of their own.
ghost use Rattle.std.specs.Prelude.{◌≡◌, ◌<◌, ◌⊎◌, ◌↔◌, ℕ, ◌∷◌, false, All, Any, IfOk, IfSome, IsTrue, Contains};
ghost use Rattle.bit_slice.specs.Places.{ones_of};
ghost use Rattle.bit_sets.specs.NumberSet.{IsIn, numbers_between};

use bit_addressing::GrowError;
use bit_sets::NumberSet;
use std::alloc::{AllocError, Global};
use std::hash::BuildHasher;

/// A number that was taken out is not in the set, whatever the bound.
pub fn taken_out(set: &mut NumberSet, number: usize) -> bool
    ensures { result ≡ false }
{
    set.remove(number);
    set.contains(number)
}

/// A number that is toggled twice is in the set exactly where it was.
pub fn toggled_twice(set: &mut NumberSet, number: usize) -> Result<bool, GrowError>
    ensures { IfOk result (λ there. IsTrue there ↔ IsIn set.old number) }
{
    set.toggle(number)?;
    set.toggle(number)?;
    Ok(set.contains(number))
}

/// What is taken out first is what the ascending list begins with.
pub fn popped_list(set: &mut NumberSet) -> Option<usize>
    ensures { IfSome result (λ first. ones_of set.old ≡ first ∷ ones_of set.new) }
{
    set.pop_first()
}

/// A copy with a higher bound is equal.
pub fn raised_copy(set: &NumberSet, bound: usize) -> Result<bool, GrowError>
    ensures { IfOk result (λ same. IsTrue same) }
{
    let Ok(mut copy) = set.clone() else {
        return Err(GrowError::OutOfMemory);
    };
    copy.raise_bound(bound)?;
    Ok(copy == *set)
}

/// Equal sets have equal lists of numbers.
pub fn equal_lists(alloc: Global, set: &NumberSet, other: &NumberSet) -> Result<bool, AllocError>
    requires { ones_of set.now ≡ ones_of other.now }
    ensures { IfOk result (λ same. IsTrue same) }
{
    let numbers = set.members(alloc)?;
    let others = other.members(alloc)?;
    Ok((numbers == others) & (set == other))
}

/// Equal sets have equal hashes.
pub fn equal_hashes<S: BuildHasher>(state: &S, set: &NumberSet, other: &NumberSet) -> bool
    requires { ones_of set.now ≡ ones_of other.now }
    ensures { IsTrue result }
{
    state.hash_one(set) == state.hash_one(other)
}

/// A number of a range is between its ends, and in the set.
pub fn collected_range(
    alloc: Global,
    set: &NumberSet,
    start: usize,
    end: usize,
) -> Result<Vec<usize>, AllocError>
    ensures { IfOk result (λ numbers. numbers.items ≡ numbers_between set.now start end) }
{
    set.range(start..end).collect(alloc)
}

/// As many numbers of a range are counted as the iterator gives.
pub fn counted_range(set: &NumberSet, start: usize, end: usize) -> bool
    ensures { IsTrue result }
{
    set.range(start..end).count() == set.count_in(start..end)
}

/// After a range was put in, all of it is there.
pub fn range_put_in(set: &mut NumberSet, start: usize, end: usize) -> Result<bool, GrowError>
    ensures { IfOk result (λ all. IsTrue all) }
{
    set.insert_range(start..end)?;
    Ok(set.contains_range(start..end))
}

/// After a range was taken out, none of it is there.
pub fn range_taken_out(set: &mut NumberSet, start: usize, end: usize) -> bool
    ensures { result ≡ false }
{
    set.remove_range(start..end);
    set.any_in(start..end)
}

/// A number is in the union of two sets by value exactly where it is in one of them.
pub fn in_either(set: NumberSet, other: NumberSet, number: usize) -> bool
    ensures { IsTrue result ↔ (IsIn set number ⊎ IsIn other number) }
{
    (set | other).contains(number)
}

/// Two sets by value share no number with the difference of one from the other.
pub fn in_difference(set: NumberSet, other: NumberSet, number: usize) -> bool
    requires { IsIn other number }
    ensures { result ≡ false }
{
    (set - other).contains(number)
}

/// A number of one of many sets is in their union.
pub fn in_one_of_many(
    set: &mut NumberSet,
    others: &[NumberSet],
    number: usize,
) -> Result<bool, GrowError>
    ensures { IfOk result (λ there. IsTrue there ↔ (IsIn set.old number ⊎ Any (λ s. IsIn s number) others.now)) }
{
    set.union_with_all(others)?;
    Ok(set.contains(number))
}

/// A number that is left after an intersection with many sets is in each of them.
pub fn in_each_of_many(set: &mut NumberSet, others: &[NumberSet], number: usize) -> bool
    ensures { IsTrue result ↔ (IsIn set.old number × All (λ s. IsIn s number) others.now) }
{
    set.intersect_with_all(others);
    set.contains(number)
}

/// A number below the bound is in a set or in its complement.
pub fn in_complement(
    alloc: Global,
    set: &NumberSet,
    bound: usize,
    number: usize,
) -> Result<bool, GrowError>
    requires { number < bound }
    ensures { IfOk result (λ there. IsTrue there ↔ (IsIn set.now number → ⊥)) }
{
    let others = set.complement(alloc, bound)?;
    Ok(others.contains(number))
}

/// The numbers that a `for` over a set would give.
pub fn all_counted(set: &NumberSet) -> bool
    ensures { IsTrue result }
{
    set.into_iter().count() == set.len()
}

/// What is collected has the numbers of the source.
pub fn collected(alloc: Global, numbers: Vec<usize>) -> Result<NumberSet, AllocError>
    ensures { IfOk result (λ s. (k : ℕ) → IsIn s k ↔ Contains numbers.items k) }
{
    numbers.into_iter().collect(alloc)
}

/// The number before one that is in the set is found.
pub fn found_itself(set: &NumberSet, number: usize) -> Option<usize>
    requires { IsIn set.now number }
    ensures { IfSome result (λ found. found ≡ number) }
{
    set.previous_at_most(number)
}
