//! Callers of sorted numbers: what each proves stands in its clauses, and none has a file.
ghost use Rattle.std.specs.Prelude.{◌≡◌, ◌≤◌, IfOk, IfSome, IsTrue, drop, length, slice_get};

use bit_sets::{SortedError, SortedNumbers};
use std::alloc::{AllocError, Global};

pub fn read_back(alloc: Global, numbers: &[u64], k: usize) -> Result<Option<u64>, SortedError>
    ensures { IfOk result (λ read. read ≡ slice_get numbers.now k) }
{
    let sorted = SortedNumbers::from_slice(alloc, numbers)?;
    Ok(sorted.get(k))
}

pub fn collected(alloc: Global, numbers: Vec<u64>) -> Result<SortedNumbers, SortedError>
    ensures { IfOk result (λ sorted. sorted ≡ numbers.items) }
{
    SortedNumbers::from_numbers(alloc, numbers)
}

pub fn first_is_there(numbers: &SortedNumbers, x: u64) -> bool
    ensures { IsTrue result }
{
    match numbers.next_at_least(x) {
        None => true,
        Some((_, number)) => numbers.contains(number),
    }
}

pub fn later_is_as_large(numbers: &SortedNumbers, k: usize, later: usize) -> Option<bool>
    requires { k ≤ later }
    ensures { IfSome result (λ larger. IsTrue larger) }
{
    let number = numbers.get(k)?;
    let next = numbers.get(later)?;
    Some(number <= next)
}

pub fn all_counted(numbers: &SortedNumbers) -> usize
    ensures { result ≡ length numbers.now }
{
    numbers.iter().count()
}

/// The number at the rank of one, if there is one, is at least as large.
pub fn at_rank(numbers: &SortedNumbers, x: u64) -> Option<bool>
    ensures { IfSome result (λ large. IsTrue large) }
{
    let number = numbers.get(numbers.rank(x))?;
    Some(x <= number)
}

pub fn before_found(numbers: &SortedNumbers, x: u64) -> Option<u64>
    ensures { IfSome result (λ number. number ≤ x) }
{
    let (_, number) = numbers.previous_at_most(x)?;
    Some(number)
}

pub fn rest_counted(numbers: &SortedNumbers, k: usize) -> usize
    ensures { result ≡ length (drop k numbers.now) }
{
    numbers.iter_from(k).count()
}

pub fn copied(numbers: &SortedNumbers) -> Result<bool, AllocError>
    ensures { IfOk result (λ same. IsTrue same) }
{
    let copy = numbers.clone()?;
    Ok(copy == *numbers)
}
