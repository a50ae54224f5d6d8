//! Callers that need no proof of their own: each has one fact that a user of these types relies on.
ghost use Rattle.std.specs.Prelude.{◌≡◌, ◌≢◌, ◌==◌, ◌%◌, ◌<◌, ◌≤◌, ◌↔◌, ℕ, false, IfOk, IsTrue, length, Contains};
ghost use Rattle.std.specs.List.{filter};
ghost use Rattle.bit_containers.specs.Making.{filled_up};
ghost use Rattle.bit_slice.specs.Operators.{or_of};
ghost use Rattle.bit_slice.specs.Places.{ones_of};
ghost use Rattle.bit_sets.specs.NumberSet.{IsIn, IsPrime};

use bit_addressing::GrowError;
use bit_sets::NumberSet;
use std::alloc::{AllocError, Global};

/// A number that was put into a set is in it.
pub fn inserted(set: &mut NumberSet, number: usize) -> bool
    requires { number < length set.old }
    ensures { IsTrue result }
{
    set.insert_within(number);
    set.contains(number)
}

/// A number that was put into a set that grows is in it; the result says whether it was new.
pub fn inserted_anywhere(set: &mut NumberSet, number: usize) -> Result<bool, GrowError>
    ensures { IfOk result (λ there. IsTrue there) }
{
    set.insert(number)?;
    Ok(set.contains(number))
}

/// A number that is put in a second time was there.
pub fn twice(set: &mut NumberSet, number: usize) -> bool
    requires { number < length set.old }
    ensures { IsTrue result }
{
    set.insert_within(number);
    !set.insert_within(number)
}

/// A set has all numbers of another that was united with it.
pub fn united(set: &mut NumberSet, other: &NumberSet) -> Result<bool, GrowError>
    ensures { IfOk result (λ all. IsTrue all) }
{
    set.union_with(other)?;
    Ok(other.is_subset(set))
}

/// Two sets share no number once one was taken out of the other.
pub fn parted(set: &mut NumberSet, other: &NumberSet) -> bool
    ensures { IsTrue result }
{
    set.difference_with(other);
    set.is_disjoint(other)
}

/// Taking a number out of a set changes nothing for another number.
pub fn others_stay(set: &mut NumberSet, number: usize, other: usize) -> bool
    requires { other ≢ number }
    ensures { IsTrue result ↔ IsIn set.old other }
{
    set.remove(number);
    set.contains(other)
}

/// Whether a number is prime, by the sieve.
pub fn is_prime(alloc: Global, number: usize) -> Result<bool, GrowError>
    requires { number < 1000000 }
    ensures { IfOk result (λ prime. IsTrue prime ↔ IsPrime number) }
{
    let primes = NumberSet::primes(alloc, number + 1)?;
    Ok(primes.contains(number))
}

/// The numbers of either set, collected.
pub fn numbers_of_either(
    alloc: Global,
    set: &NumberSet,
    other: &NumberSet,
) -> Result<Vec<usize>, AllocError>
    ensures { IfOk result (λ numbers. numbers.items
        ≡ ones_of (or_of (filled_up set.now (length other.now)) other.now)) }
{
    let numbers = set.union(other).collect(alloc)?;
    Ok(numbers)
}

/// Numbers that were put in as a range are in the set.
pub fn inserted_range(set: &mut NumberSet, start: usize, end: usize, number: usize) -> bool
    requires ordered { start ≤ number }
    requires inside { number < end }
    requires below { end ≤ length set.old }
    ensures { IsTrue result }
{
    set.insert_range_within(start..end);
    set.contains(number)
}

/// A number that is in both sets is not in their symmetric difference.
pub fn toggled(set: &mut NumberSet, other: &NumberSet, number: usize) -> Result<bool, GrowError>
    requires set { IsIn set.old number }
    requires other { IsIn other.now number }
    ensures { IfOk result (λ there. there ≡ false) }
{
    set.symmetric_difference_with(other)?;
    Ok(set.contains(number))
}

/// A copy of a set has its numbers and its bound.
pub fn copied(set: &NumberSet) -> Result<bool, AllocError>
    ensures { IfOk result (λ same. IsTrue same) }
{
    let copy = set.clone()?;
    Ok(copy == *set)
}

/// The odd numbers stay.
#[tactic(auto, using(bit_sets::proofs::Retaining::in_turn_filter))]
pub fn odd_kept(set: &mut NumberSet)
    ensures { ones_of set.new ≡ filter (λ number. number % 2 == 1) (ones_of set.old) }
{
    set.retain(|number| number % 2 == 1);
}

/// A set of the numbers of a vector has each of them, and no other.
pub fn collected(alloc: Global, numbers: Vec<usize>) -> Result<NumberSet, GrowError>
    ensures { IfOk result (λ s. (k : ℕ) → IsIn s k ↔ Contains numbers.items k) }
{
    NumberSet::from_iter(alloc, numbers)
}

/// As many numbers are in either set as are collected.
pub fn counted_of_either(
    alloc: Global,
    set: &NumberSet,
    other: &NumberSet,
) -> Result<(usize, Vec<usize>), AllocError>
    ensures { IfOk result (λ found. found.0 ≡ length found.1.items) }
{
    let numbers = set.union(other).collect(alloc)?;
    Ok((set.count_union(other), numbers))
}
