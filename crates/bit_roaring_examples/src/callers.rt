//! Functions over sets that prove with no file.
ghost use Rattle.std.specs.Prelude.{◌≡◌, ◌≤◌, ◌-◌, ◌^◌, [], ◌∷◌, IfOk, OnOk, Some, length, slice_get, true};
ghost use Rattle.bit_blocks.specs.Numbers.{AscendsIn};

use bit_blocks::Block;
use bit_portable::ReadError;
use bit_roaring::RoaringSet;
use std::alloc::{AllocError, Global};

/// A set that is written is read back.
pub fn through_bytes(alloc: Global, set: &RoaringSet) -> Result<RoaringSet, ReadError>
    ensures { IfOk result (λ copy. copy ≡ set.now) }
{
    let bytes = set.to_bytes(true)?;
    RoaringSet::from_bytes(alloc, &bytes)
}

/// Each number of a range is there once the range was put in.
pub fn filled(set: &mut RoaringSet, first: u32, last: u32, number: u32) -> Result<bool, AllocError>
    requires first { first ≤ number }
    requires last { number ≤ last }
    ensures { IfOk result (λ there. there ≡ true) }
{
    set.insert_range(first..=last)?;
    Ok(set.contains(number))
}

/// The first number from the back is the last one.
pub fn greatest(set: &RoaringSet) -> Option<u32>
    ensures { result ≡ slice_get set.now (length set.now - 1) }
{
    set.last()
}

/// Equal sets have the same bytes.
pub fn same_bytes(a: &RoaringSet, b: &RoaringSet) -> Result<bool, AllocError>
    ensures { (a.now ≡ b.now) → IfOk result (λ same. same ≡ true) }
{
    let left = a.to_bytes(true)?;
    let right = b.to_bytes(true)?;
    Ok(left.as_slice() == right.as_slice())
}

/// Of numbers that ascend, the k-th is the k-th of their set.
pub fn kth(alloc: Global, numbers: &[u32], k: u64) -> Result<Option<u32>, AllocError>
    requires { AscendsIn 0 (2 ^ 32) numbers.now }
    ensures { IfOk result (λ number. number ≡ slice_get numbers.now k) }
{
    let set = RoaringSet::from_ascending(alloc, numbers)?;
    Ok(set.select(k))
}

/// Blocks with the same numbers have as many below each number.
pub fn same_rank(a: &Block, b: &Block, number: u16) -> bool
    ensures { result ≡ true }
{
    if a.has_same_numbers(b) {
        return a.rank(number) == b.rank(number);
    }
    true
}

/// The least number of three is popped, and the others stay.
pub fn popped(set: &mut RoaringSet) -> Result<Option<u32>, AllocError>
    requires { set.old ≡ 2 ∷ 3 ∷ 70000 ∷ [] }
    ensures least { IfOk result (λ least. least ≡ Some 2) }
    ensures others { OnOk result (set.new ≡ 3 ∷ 70000 ∷ []) }
{
    set.pop_first()
}

/// No number lies between the nearest ones on both sides of a number that is not there.
pub fn nearest(set: &RoaringSet, number: u32, between: u32) -> bool
    ensures { result ≡ true }
{
    match (set.previous_at_most(number), set.next_at_least(number)) {
        (Some(low), Some(high)) => between <= low || high <= between || !set.contains(between),
        _ => true,
    }
}
