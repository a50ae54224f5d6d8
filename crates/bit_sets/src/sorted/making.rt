//! Sorted numbers, made of a list that ascends.
ghost use Rattle.std.specs.Prelude.{◌≡◌, ◌≢◌, ℕ, ◌+◌, ◌*◌, ◌/◌, ◌%◌, ◌^◌, ◌<◌, ◌≤◌, ◌↔◌, Err, IfErr, IfNone, IfOk, IfSome, OnErr, length, max, slice_index_or};
ghost use Rattle.std.specs.Iterator.{IsFiniteIterable};
ghost use Rattle.std.specs.List.Sorted.{IsNonDecreasing};
ghost use Rattle.bit_addressing.specs.declared.length.TheConstants.{MAX_BITS};
ghost use Rattle.bit_slice.specs.Places.{ones_of};
ghost use Rattle.bit_slice.specs.Pulls.{GivesAll, GivesFirst, RunsThrough};
ghost use Rattle.bit_sets.specs.Sorted.{IsFirstDescent, IsTooLong, high_places, last_of, log2_of, low_part};
ghost use Rattle.bit_sets.specs.declared.sorted.errors.SortedError.TheVariants as errors;

use crate::sorted::SortedNumbers;
use crate::sorted::errors::SortedError;
use bit_containers::{BitListMut, BitVec, GrowError, Lsb0, MAX_BITS};
use bit_ranks::Ranks;
use std::alloc::Global;

impl SortedNumbers {
    /// The numbers of a slice. Returns `Descends` with the index of the first number that is below the one
    /// before, and `TooLong` where one of the two lists would pass `MAX_BITS`. Takes no memory where there is
    /// no number.
    ///
    /// ```text
    /// SortedNumbers::from_slice(alloc, &[2, 9, 3, 1])    // Err(Descends(2))
    /// ```
    pub fn from_slice(alloc: Global, numbers: &[u64]) -> Result<Self, SortedError>
        ensures list { IfOk result (λ s. s ≡ numbers.now) }
        ensures ascends { IfOk result (λ s. IsNonDecreasing s) }
        ensures descends { (i : ℕ) → (result ≡ Err (errors.Descends i)) ↔ IsFirstDescent numbers.now i }
        ensures too_long { (result ≡ Err errors.TooLong) ↔ (IsNonDecreasing numbers.now × IsTooLong numbers.now) }
        ensures memory { result ≡ Err errors.OutOfMemory → IsNonDecreasing numbers.now × (0 < length numbers.now) }
    {
        match first_descent(numbers) {
            Some(place) => Err(SortedError::Descends(place)),
            None => from_ascending(alloc, numbers),
        }
    }

    /// Like `from_slice`, of the numbers that an iterator gives before its first None. Nothing is pulled after
    /// a number that is below the one before. All numbers are kept, 64 bits each, until the call returns.
    pub fn from_numbers<I: IntoIterator<Item = u64>>(
        alloc: Global,
        iter: I,
    ) -> Result<Self, SortedError>
        requires { IsFiniteIterable I.into_iter_gives I.IntoIter.can_next I.IntoIter.remaining iter }
        ensures list { IfOk result
            (λ s. GivesAll I.into_iter_gives I.IntoIter.next_gives iter (λ numbers. s ≡ numbers)) }
        ensures runs { IfOk result
            (λ s. RunsThrough I.into_iter_gives I.IntoIter.next_gives iter (λ numbers. s ≡ numbers)) }
        ensures ascends { IfOk result (λ s. IsNonDecreasing s) }
        ensures descends { (i : ℕ) → result ≡ Err (errors.Descends i)
            → GivesFirst I.into_iter_gives I.IntoIter.next_gives iter
            (λ numbers. IsFirstDescent numbers i × (length numbers ≡ i + 1)) }
        ensures too_long { result ≡ Err errors.TooLong
            → GivesAll I.into_iter_gives I.IntoIter.next_gives iter
            (λ numbers. IsNonDecreasing numbers × IsTooLong numbers) }
        ensures memory { result ≡ Err errors.OutOfMemory
            → GivesFirst I.into_iter_gives I.IntoIter.next_gives iter
            (λ numbers. IsNonDecreasing numbers × (0 < length numbers)) }
    {
        match collected(alloc, iter) {
            Ok(numbers) => from_ascending(alloc, numbers.as_slice()),
            Err(why) => Err(why),
        }
    }
}

// The index of the first number that is below the one before.
fn first_descent(numbers: &[u64]) -> Option<usize>
    ensures some { IfSome result (λ i. IsFirstDescent numbers.now i) }
    ensures none { IfNone result (IsNonDecreasing numbers.now) }
{
    let mut last = 0;
    for i in 0..numbers.len() {
        let number = numbers[i];
        if number < last {
            return Some(i);
        }
        last = number;
    }
    None
}

// The numbers that an iterator gives, where they ascend.
fn collected<I: IntoIterator<Item = u64>>(alloc: Global, iter: I) -> Result<Vec<u64>, SortedError>
    requires { IsFiniteIterable I.into_iter_gives I.IntoIter.can_next I.IntoIter.remaining iter }
    ensures list { IfOk result
        (λ v. GivesAll I.into_iter_gives I.IntoIter.next_gives iter (λ numbers. v.items ≡ numbers)) }
    ensures first { IfOk result
        (λ v. GivesFirst I.into_iter_gives I.IntoIter.next_gives iter (λ numbers. v.items ≡ numbers)) }
    ensures runs { IfOk result
        (λ v. RunsThrough I.into_iter_gives I.IntoIter.next_gives iter (λ numbers. v.items ≡ numbers)) }
    ensures ascends { IfOk result (λ v. IsNonDecreasing v.items) }
    ensures descends { (i : ℕ) → result ≡ Err (errors.Descends i)
        → GivesFirst I.into_iter_gives I.IntoIter.next_gives iter
        (λ numbers. IsFirstDescent numbers i × (length numbers ≡ i + 1)) }
    ensures short { result ≢ Err errors.TooLong }
    ensures memory { result ≡ Err errors.OutOfMemory
        → GivesFirst I.into_iter_gives I.IntoIter.next_gives iter
        (λ numbers. IsNonDecreasing numbers × (0 < length numbers)) }
{
    let mut numbers = Vec::new(alloc);
    let mut last = 0;
    for number in iter {
        if number < last {
            return Err(SortedError::Descends(numbers.len()));
        }
        let Ok(()) = numbers.push(number) else {
            return Err(SortedError::OutOfMemory);
        };
        last = number;
    }
    Ok(numbers)
}

// The numbers of a slice that ascends.
fn from_ascending(alloc: Global, numbers: &[u64]) -> Result<SortedNumbers, SortedError>
    requires { IsNonDecreasing numbers.now }
    ensures list { IfOk result (λ s. s ≡ numbers.now) }
    ensures ascends { IfOk result (λ s. IsNonDecreasing s) }
    ensures why { IfErr result (λ why. (i : ℕ) → why ≢ errors.Descends i) }
    ensures too_long { (result ≡ Err errors.TooLong) ↔ IsTooLong numbers.now }
    ensures memory { result ≡ Err errors.OutOfMemory → 0 < length numbers.now }
{
    let len = numbers.len();
    let last = last_number(numbers);
    let width = width_for(len, last);
    let Some((high_len, low_len)) = list_lens(len, last, width) else {
        return Err(SortedError::TooLong);
    };
    let Ok(high) = high_bits(alloc, numbers, width, high_len) else {
        return Err(SortedError::OutOfMemory);
    };
    let Ok(low) = low_bits(alloc, numbers, width, low_len) else {
        return Err(SortedError::OutOfMemory);
    };
    let Ok(high) = high.into_boxed_bitslice() else {
        return Err(SortedError::OutOfMemory);
    };
    match Ranks::new(alloc, high) {
        Ok(high) => Ok(SortedNumbers {
            high,
            low,
            width,
            len,
        }),
        Err(_) => Err(SortedError::OutOfMemory),
    }
}

// The last number, or 0 where there is none.
fn last_number(numbers: &[u64]) -> u64
    ensures value { result ≡ last_of numbers.now }
    ensures fits { result < 2 ^ 64 }
{
    if numbers.is_empty() {
        return 0;
    }
    numbers[numbers.len() - 1]
}

// How many bits of each number are low: the logarithm of the mean gap.
fn width_for(len: usize, last: u64) -> u8
    ensures value { result ≡ log2_of (last / len) }
    ensures narrow { result < 64 }
{
    if len == 0 {
        return 0;
    }
    let gap = last / len as u64;
    if gap == 0 { 0 } else { gap.ilog2() as u8 }
}

// The lengths of the list of high parts and of that of low parts. None exactly where one of them passes `MAX_BITS`.
fn list_lens(len: usize, last: u64, width: u8) -> Option<(usize, usize)>
    requires { width < 64 }
    ensures high { IfSome result (λ lens. lens.0 ≡ len + last / 2 ^ width) }
    ensures low { IfSome result (λ lens. lens.1 ≡ len * width) }
    ensures some { IfSome result (λ lens. max lens.0 lens.1 ≤ MAX_BITS) }
    ensures none { IfNone result (MAX_BITS < max (len + last / 2 ^ width) (len * width)) }
{
    let steps = (last >> width) as usize;
    if len > MAX_BITS || steps > MAX_BITS - len {
        return None;
    }
    if width > 0 && len > MAX_BITS / width as usize {
        return None;
    }
    Some((len + steps, len * width as usize))
}

// The list of high parts: a one for each number, with as many zeros before it as its high bits say.
fn high_bits(
    alloc: Global,
    numbers: &[u64],
    width: u8,
    len: usize,
) -> Result<BitVec<u64, Lsb0>, GrowError>
    requires narrow { width < 64 }
    requires ascends { IsNonDecreasing numbers.now }
    requires len { len ≡ length numbers.now + last_of numbers.now / 2 ^ width }
    requires few { len ≤ MAX_BITS }
    ensures ones { IfOk result (λ v. ones_of v.list ≡ high_places width numbers.now (length numbers.now)) }
    ensures len { IfOk result (λ v. length v.list ≡ len) }
    ensures memory { OnErr result (0 < len) }
{
    let mut list = BitVec::repeat(alloc, false, len)?;
    for k in 0..numbers.len() {
        list.set((numbers[k] >> width) as usize + k, true);
    }
    Ok(list)
}

// The list of low parts: the lowest bits of each number in binary.
fn low_bits(
    alloc: Global,
    numbers: &[u64],
    width: u8,
    len: usize,
) -> Result<BitVec<u64, Lsb0>, GrowError>
    requires narrow { width < 64 }
    requires len { len ≡ length numbers.now * width }
    requires few { len ≤ MAX_BITS }
    ensures each { IfOk result (λ v. (k : ℕ) → k < length numbers.now
        → low_part width v.list k ≡ slice_index_or numbers.now k 0 % 2 ^ width) }
    ensures len { IfOk result (λ v. length v.list ≡ len) }
    ensures memory { OnErr result (0 < len) }
{
    let mut list = BitVec::repeat(alloc, false, len)?;
    for k in 0..numbers.len() {
        list.store_be_at(k * width as usize, width, numbers[k]);
    }
    Ok(list)
}
