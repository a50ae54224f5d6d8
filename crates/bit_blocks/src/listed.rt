//! Ascending numbers in a slice: found, put in, taken out, combined and counted.
ghost use Rattle.std.specs.Prelude.{◌≡◌, ◌↔◌, Bool, IsTrue, ◌++◌, ◌∷◌, [], if◌then◌else◌, ◌≤◌, ◌+◌, ◌-◌, ◌/◌, IfOk, MatchResult, OnErr, OnOk, Some, length, max, not, slice_get, take, drop, true, false, vec_capacity, vec_len, ◌<◌};
ghost use Rattle.std.specs.List.{range_with_len};
ghost use Rattle.bit_blocks.specs.Operation.{ChangesAt, made_by};
ghost use Rattle.bit_blocks.specs.Runs.{numbers_of_run, runs_of};
ghost use Rattle.bit_blocks.specs.Numbers.{Ascends, Combines, Gains, GainsBetween, Loses, LosesBetween, count_below, count_where, has, numbers_between};

use crate::operation::Operation;
use crate::ranged::Run;
use crate::splice;
use std::alloc::{AllocError, Global};

// How many numbers a list may have that is not turned into bits: both take 8192 bytes then.
pub(crate) const LISTED: usize = 4096;

// For how many numbers more a list of `count` numbers makes room: as many again below 64, since small pieces of memory
// are rounded up in any case, and a quarter from there on, which leaves a tenth unused on average and copies a number
// some four times while a list grows. A list that becomes bits with its 4097th number has no use for more.
fn room_beyond(count: usize) -> usize
    ensures some { 0 < result }
    ensures doubles { count < 64 → result ≡ max 4 count }
    ensures little { 64 ≤ count → result ≤ count / 4 }
    ensures small { result ≤ max 4 count }
    ensures most { count < 4096 → count + result ≤ 4096 }
{
    if count < 64 {
        return count.max(4);
    }
    let quarter = count / 4;
    if count < LISTED {
        return quarter.min(LISTED - count);
    }
    quarter
}

// Makes room for one number more. Where memory is refused, the numbers are as they were.
fn make_room(numbers: &mut Vec<u16>) -> Result<(), AllocError>
    ensures same { numbers.new.items ≡ numbers.old.items }
    ensures len { vec_len numbers.new ≡ vec_len numbers.old }
    ensures room { OnOk result (vec_len numbers.new < vec_capacity numbers.new) }
    ensures little { OnOk result (64 ≤ vec_len numbers.old → vec_capacity numbers.new ≤ max (vec_capacity numbers.old) (vec_len numbers.old + vec_len numbers.old / 4)) }
    ensures most { OnOk result (vec_len numbers.old < 4096 → vec_capacity numbers.new ≤ max (vec_capacity numbers.old) 4096) }
{
    let count = numbers.len();
    if count == numbers.capacity() {
        numbers.reserve_exact(room_beyond(count))?;
    }
    Ok(())
}

// Gives back what a vector has room for beyond the room that a list of as many numbers would make.
pub(crate) fn give_back<T>(items: &mut Vec<T>)
    ensures same { items.new.items ≡ items.old.items }
    ensures none { vec_len items.old ≡ 0 → vec_capacity items.new ≤ 4 }
{
    let count = items.len();
    if items.capacity() > count.saturating_add(room_beyond(count)) {
        items.shrink_to_fit();
    }
}

/// The count of numbers below `number`. Requires that the numbers ascend.
pub fn place_of(numbers: &[u16], number: u16) -> usize
    requires { Ascends numbers.now }
    ensures value { result ≡ count_below numbers.now number }
    ensures within { result ≤ length numbers.now }
{
    numbers.partition_point(|&other| other < number)
}

// The count of numbers that are at most `number`.
fn place_after(numbers: &[u16], number: u16) -> usize
    requires { Ascends numbers.now }
    ensures value { result ≡ count_below numbers.now (number + 1) }
    ensures within { result ≤ length numbers.now }
{
    numbers.partition_point(|&other| other <= number)
}

// The count of numbers of a run that are there.
#[tactic(auto, using(crate::proofs::Counting::count_run))]
pub(crate) fn count_in(numbers: &[u16], run: Run) -> usize
    requires ascends { Ascends numbers.now }
    requires ordered { run.first ≤ run.last }
    ensures { result ≡ count_where (has numbers.now) (numbers_of_run run) }
{
    place_after(numbers, run.last) - place_of(numbers, run.first)
}

// The numbers from `first` to `last`.
pub(crate) fn between(numbers: &[u16], first: u16, last: u16) -> &[u16]
    requires ascends { Ascends numbers.now }
    requires ordered { first ≤ last }
    ensures { result.now ≡ numbers_between first last numbers.now }
{
    let from = place_of(numbers, first);
    let upto = place_after(numbers, last);
    &numbers[from..upto]
}

/// Where `number` stands, or in Err where it has its place. Requires that the numbers ascend.
pub fn find(numbers: &[u16], number: u16) -> Result<usize, usize>
    requires { Ascends numbers.now }
    ensures place { MatchResult result (λ i. slice_get numbers.now i ≡ Some number) (λ i. i ≡ count_below numbers.now number) }
    ensures inside { MatchResult result (λ i. i < length numbers.now) (λ i. i ≤ length numbers.now) }
    ensures there { MatchResult result (λ i. has numbers.now number ≡ true) (λ i. has numbers.now number ≡ false) }
{
    let place = place_of(numbers, number);
    if place == numbers.len() {
        return Err(place);
    }
    if numbers[place] == number {
        return Ok(place);
    }
    Err(place)
}

/// Whether `number` is one of the numbers. Requires that they ascend.
pub fn contains(numbers: &[u16], number: u16) -> bool
    requires { Ascends numbers.now }
    ensures { result ≡ has numbers.now number }
{
    find(numbers, number).is_ok()
}

/// Puts `number` into ascending numbers, and returns whether it was not there. A list of 64 numbers or more that has no
/// room makes room for a quarter more, and one of fewer than 4096 never for more than these. Where memory is refused, the
/// numbers are as they were. Requires that they ascend.
#[tactic(auto, using(crate::proofs::Edits::gains_present, crate::proofs::Edits::has_inserted, crate::proofs::Edits::ascends_inserted))]
pub fn insert(numbers: &mut Vec<u16>, number: u16) -> Result<bool, AllocError>
    requires { Ascends numbers.old.items }
    ensures new { IfOk result (λ new. new ≡ not (has numbers.old.items number)) }
    ensures gains { OnOk result (Gains numbers.old.items numbers.new.items number) }
    ensures ascends { Ascends numbers.new.items }
    ensures refused { OnErr result (numbers.new.items ≡ numbers.old.items) }
    ensures little { OnOk result (64 ≤ vec_len numbers.old → vec_capacity numbers.new ≤ max (vec_capacity numbers.old) (vec_len numbers.old + vec_len numbers.old / 4)) }
    ensures most { OnOk result (vec_len numbers.old < 4096 → vec_capacity numbers.new ≤ max (vec_capacity numbers.old) 4096) }
{
    match find(numbers, number) {
        Ok(_) => Ok(false),
        Err(place) => {
            make_room(numbers)?;
            numbers.insert(place, number)?;
            Ok(true)
        },
    }
}

/// Takes `number` out of ascending numbers, and returns whether it was there. Requires that the numbers ascend.
#[tactic(auto, using(crate::proofs::Edits::loses_absent, crate::proofs::Edits::has_removed, crate::proofs::Edits::ascends_removed))]
pub fn remove(numbers: &mut Vec<u16>, number: u16) -> bool
    requires { Ascends numbers.old.items }
    ensures old { result ≡ has numbers.old.items number }
    ensures loses { Loses numbers.old.items numbers.new.items number }
    ensures ascends { Ascends numbers.new.items }
{
    match find(numbers, number) {
        Ok(place) => {
            numbers.remove(place);
            true
        },
        Err(_) => false,
    }
}

// Appends the numbers from `first` to `last`.
fn push_range(made: &mut Vec<u16>, first: u16, last: u16) -> Result<(), AllocError>
    requires { first ≤ last }
    ensures { OnOk result (made.new.items ≡ made.old.items ++ range_with_len first (last + 1 - first)) }
{
    for number in first as usize..last as usize + 1 {
        made.push(number as u16)?;
    }
    Ok(())
}

// Puts in the numbers from `first` to `last`. Where memory is refused, the numbers are as they were.
pub(crate) fn insert_range(numbers: &mut Vec<u16>, first: u16, last: u16) -> Result<(), AllocError>
    requires ascends { Ascends numbers.old.items }
    requires ordered { first ≤ last }
    ensures gains { OnOk result (GainsBetween numbers.old.items numbers.new.items first last) }
    ensures ascends { Ascends numbers.new.items }
    ensures few { length numbers.new.items ≤ length numbers.old.items + (last + 1 - first) }
    ensures refused { OnErr result (numbers.new.items ≡ numbers.old.items) }
{
    let from = place_of(numbers, first);
    let upto = place_after(numbers, last);
    let count = from + (last - first) as usize + 1 + (numbers.len() - upto);
    let mut made = Vec::with_capacity(*numbers.allocator(), count)?;
    made.extend_from_slice(&numbers[..from])?;
    push_range(&mut made, first, last)?;
    made.extend_from_slice(&numbers[upto..])?;
    *numbers = made;
    Ok(())
}

// Takes out the numbers from `first` to `last`.
pub(crate) fn remove_range(numbers: &mut Vec<u16>, first: u16, last: u16)
    requires { Ascends numbers.old.items }
    ensures loses { LosesBetween numbers.old.items numbers.new.items first last }
    ensures ascends { Ascends numbers.new.items }
{
    let from = place_of(numbers, first);
    let upto = place_after(numbers, last);
    if upto <= from {
        return;
    }
    splice::with_none(numbers, from, upto);
}

// Appends numbers, where `keeps` says so.
fn append_if(made: &mut Vec<u16>, keeps: bool, numbers: &[u16]) -> Result<(), AllocError>
    ensures { OnOk result (made.new.items ≡ made.old.items ++ (if keeps then numbers.now else [])) }
{
    if keeps {
        made.extend_from_slice(numbers)?;
    }
    Ok(())
}

// Appends a number, where `keeps` says so.
fn push_if(made: &mut Vec<u16>, keeps: bool, number: u16) -> Result<(), AllocError>
    ensures { OnOk result (made.new.items ≡ made.old.items ++ (if keeps then number ∷ [] else [])) }
{
    if keeps {
        made.push(number)?;
    }
    Ok(())
}

/// What an operation makes of two lists of ascending numbers, which are read side by side. Requires that both ascend.
pub fn combined(
    alloc: Global,
    left: &[u16],
    right: &[u16],
    operation: Operation,
) -> Result<Vec<u16>, AllocError>
    requires left { Ascends left.now }
    requires right { Ascends right.now }
    ensures members { IfOk result (λ made. Combines (made_by operation) left.now right.now made.items) }
    ensures ascends { IfOk result (λ made. Ascends made.items) }
    ensures few { IfOk result (λ made. length made.items ≤ length left.now + length right.now) }
{
    let mut made = Vec::new(alloc);
    let (mut i, mut j) = (0, 0);
    while i < left.len() && j < right.len() {
        let (x, y) = (left[i], right[j]);
        if x < y {
            push_if(&mut made, operation.keeps_left(), x)?;
            i += 1;
        } else if y < x {
            push_if(&mut made, operation.keeps_right(), y)?;
            j += 1;
        } else {
            push_if(&mut made, operation.keeps_both(), x)?;
            i += 1;
            j += 1;
        }
    }
    append_if(&mut made, operation.keeps_left(), &left[i..])?;
    append_if(&mut made, operation.keeps_right(), &right[j..])?;
    give_back(&mut made);
    Ok(made)
}

// Like `combined`, where the right list is short: each of its numbers is looked for in a copy of the left one. Requires
// that the operation leaves each number that is not in the right list as it is.
#[tactic(auto, using(crate::proofs::Changes::list_unchanged, crate::proofs::Changes::all_changes))]
pub(crate) fn changed(
    alloc: Global,
    left: &[u16],
    right: &[u16],
    operation: Operation,
) -> Result<Vec<u16>, AllocError>
    requires left { Ascends left.now }
    requires right { Ascends right.now }
    requires keeps { (b : Bool) → made_by operation b false ≡ b }
    ensures members { IfOk result (λ made. Combines (made_by operation) left.now right.now made.items) }
    ensures ascends { IfOk result (λ made. Ascends made.items) }
    ensures few { IfOk result (λ made. length made.items ≤ length left.now + length right.now) }
{
    let mut made = copied(alloc, left)?;
    for number in right {
        change(&mut made, *number, operation)?;
    }
    give_back(&mut made);
    Ok(made)
}

// Puts a number in or takes it out, as an operation says of a number of the right list.
#[tactic(auto, using(crate::proofs::Changes::change_none, crate::proofs::Changes::change_out, crate::proofs::Changes::change_in))]
fn change(numbers: &mut Vec<u16>, number: u16, operation: Operation) -> Result<(), AllocError>
    requires { Ascends numbers.old.items }
    ensures changes { OnOk result (ChangesAt operation numbers.old.items numbers.new.items number) }
    ensures ascends { Ascends numbers.new.items }
{
    if contains(numbers, number) {
        if !operation.keeps_both() {
            remove(numbers, number);
        }
    } else if operation.keeps_right() {
        insert(numbers, number)?;
    }
    Ok(())
}

/// The count of numbers that are in both of two ascending lists, which are read side by side. Requires that both
/// ascend.
pub fn count_both(left: &[u16], right: &[u16]) -> usize
    requires left { Ascends left.now }
    requires right { Ascends right.now }
    ensures { result ≡ count_where (has right.now) left.now }
{
    let mut count = 0;
    let (mut i, mut j) = (0, 0);
    while i < left.len() && j < right.len() {
        let (x, y) = (left[i], right[j]);
        if x < y {
            i += 1;
        } else if y < x {
            j += 1;
        } else {
            count += 1;
            i += 1;
            j += 1;
        }
    }
    count
}

// A copy.
pub(crate) fn copied(alloc: Global, numbers: &[u16]) -> Result<Vec<u16>, AllocError>
    ensures { IfOk result (λ copy. copy.items ≡ numbers.now) }
{
    let mut copy = Vec::with_capacity(alloc, numbers.len())?;
    copy.extend_from_slice(numbers)?;
    Ok(copy)
}

// The count of runs, where as many numbers as possible are in each. The count has 16 bits, so that the compiler compares eight
// numbers at a time. Requires that there are fewer than 65536 numbers.
#[tactic(auto, using(crate::proofs::Joined::breaks_begun, crate::proofs::Joined::breaks_on, crate::proofs::Joined::breaks_new, crate::proofs::Joined::breaks_done))]
pub(crate) fn count_runs(numbers: &[u16]) -> usize
    requires { length numbers.now < 65536 }
    ensures { result ≡ length (runs_of numbers.now) }
{
    if numbers.len() == 0 {
        return 0;
    }
    let mut count: u16 = 1;
    let mut last = numbers[0];
    for i in 1..numbers.len() {
        let number = numbers[i];
        if (number == 0) | (number.wrapping_sub(1) != last) {
            count += 1;
        }
        last = number;
    }
    count as usize
}

// Whether both are the same numbers. All of them are compared, so that the compiler compares many at a time.
pub(crate) fn are_same(numbers: &[u16], others: &[u16]) -> bool
    ensures { IsTrue result ↔ (numbers.now ≡ others.now) }
{
    if numbers.len() != others.len() {
        return false;
    }
    let mut is_same = true;
    for i in 0..numbers.len() {
        is_same &= numbers[i] == others[i];
    }
    is_same
}
