//! Callers of records: what each proves stands in its clauses, and only the loop has a file, its invariant.
ghost use Rattle.std.specs.Prelude.{◌≡◌, ℕ, ◌+◌, ◌-◌, ◌^◌, ◌<◌, ◌++◌, [], ◌∷◌, IfOk, IfSome, IsTrue, OnErr, OnOk, Some, length, negsuc, slice_get, slice_index_or, take};

use bit_containers::{BitOrder, BitStore, GrowError};
use bit_records::Records;
use std::alloc::AllocError;

pub fn second_of_three<T: BitStore, O: BitOrder>(
    records: &mut Records<T, O>,
) -> Result<Option<u64>, GrowError>
    requires none { records.old.list ≡ [] }
    requires width { records.old.width ≡ 5 }
    ensures { IfOk result (λ second. second ≡ Some 31) }
{
    records.push(1)?;
    records.push(31)?;
    records.push(0)?;
    Ok(records.get(1))
}

pub fn least_signed<T: BitStore, O: BitOrder>(
    records: &mut Records<T, O>,
) -> Result<Option<i64>, GrowError>
    requires none { records.old.list ≡ [] }
    requires width { records.old.width ≡ 5 }
    ensures { IfOk result (λ least. least ≡ Some (negsuc 15)) }
{
    records.push_signed(-16)?;
    Ok(records.get_signed(0))
}

pub fn first_written<T: BitStore, O: BitOrder>(
    records: &mut Records<T, O>,
    number: u64,
) -> Option<u64>
    requires some { 1 < length records.old.list }
    requires fits { number < 2 ^ records.old.width }
    ensures first { slice_get records.new.list 0 ≡ Some number }
    ensures others { result ≡ slice_get records.old.list 1 }
{
    records.set(0, number);
    records.get(1)
}

pub fn filled<T: BitStore, O: BitOrder>(
    records: &mut Records<T, O>,
    numbers: &[u64],
) -> Result<(), GrowError>
    requires { (i : ℕ) → i < length numbers.now → slice_index_or numbers.now i 0 < 2 ^ records.old.width }
    ensures { OnOk result (records.new.list ≡ records.old.list ++ numbers.now) }
{
    for i in 0..numbers.len() {
        records.push(numbers[i])?;
    }
    Ok(())
}

pub fn last_replaced<T: BitStore, O: BitOrder>(
    records: &mut Records<T, O>,
    number: u64,
) -> Result<Option<u64>, GrowError>
    requires some { 0 < length records.old.list }
    requires fits { number < 2 ^ records.old.width }
    ensures last { IfOk result (λ last. last ≡ slice_get records.old.list (length records.old.list - 1)) }
    ensures list { OnOk result (records.new.list ≡ take (length records.old.list - 1) records.old.list ++ number ∷ []) }
{
    let last = records.pop();
    records.push(number)?;
    Ok(last)
}

pub fn two_more<T: BitStore, O: BitOrder>(records: &mut Records<T, O>) -> Result<(), GrowError>
    requires { records.old.width ≡ 5 }
    ensures { OnOk result (records.new.list ≡ records.old.list ++ 8 ∷ 31 ∷ []) }
{
    records.extend_from_slice(&[8, 31])
}

pub fn same_numbers<T: BitStore, O: BitOrder>(left: &Records<T, O>, right: &Records<T, O>) -> bool
    ensures { IsTrue result → left.now.list ≡ right.now.list }
{
    left == right
}

pub fn ends<T: BitStore, O: BitOrder>(records: &Records<T, O>) -> (Option<u64>, Option<u64>)
    requires { (a b : ℕ) × (records.now.list ≡ a ∷ b ∷ []) }
    ensures { records.now.list ≡ 7 ∷ 8 ∷ [] → result ≡ (Some 7, Some 8) }
{
    let mut numbers = records.iter();
    let first = numbers.next();
    (first, numbers.next_back())
}

pub fn one_if_any<T: BitStore, O: BitOrder>(
    records: &mut Records<T, O>,
    number: Option<u64>,
) -> Result<(), GrowError>
    requires { IfSome number (λ x. x < 2 ^ records.old.width) }
    ensures some { OnOk result (IfSome number (λ x. records.new.list ≡ records.old.list ++ x ∷ [])) }
    ensures none { OnErr result (records.new.list ≡ records.old.list) }
{
    records.extend(number)
}

/// A copy of the iterator has as many numbers left.
pub fn counted_in_a_copy<T: BitStore, O: BitOrder>(
    records: &Records<T, O>,
) -> Result<usize, AllocError>
    ensures { IfOk result (λ count. count ≡ length records.now.list) }
{
    let numbers = records.iter();
    Ok(numbers.clone()?.len())
}
