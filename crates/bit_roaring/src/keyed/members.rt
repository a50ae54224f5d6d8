//! The numbers of blocks as a vector.
ghost use Rattle.std.specs.Prelude.{◌≡◌, ◌≤◌, ◌+◌, ◌++◌, IfOk, length, map, vec_capacity};
ghost use Rattle.bit_blocks.specs.BlockLeft.{block_left};
ghost use Rattle.bit_roaring.specs.Keyed.{AreKeyed, keyed_numbers, set_numbers};

use crate::keyed::count;
use bit_blocks::{BlockIter, Keyed};
use std::alloc::{AllocError, Global};

// Appends each number of a list with `base` added. Requires that the capacity has room for them. The vector is passed on
// by value: the compiler stores many numbers at once where no reference to the vector is left.
fn with_list(numbers: Vec<u32>, base: u32, list: &[u16]) -> Vec<u32>
    requires base { base ≤ 4294901760 }
    requires room { length numbers.items + length list.now ≤ vec_capacity numbers }
    ensures items { result.items ≡ numbers.items ++ map (λ k. base + k) list.now }
    ensures capacity { vec_capacity result ≡ vec_capacity numbers }
{
    let mut out = numbers;
    for &low in list {
        out.push_reserved(base + low as u32);
    }
    out
}

// Like `with_list`, of the numbers that an iterator has left.
fn with_each(numbers: Vec<u32>, base: u32, lows: BlockIter<'_>) -> Vec<u32>
    requires base { base ≤ 4294901760 }
    requires room { length numbers.items + length (block_left lows) ≤ vec_capacity numbers }
    ensures items { result.items ≡ numbers.items ++ map (λ k. base + k) (block_left lows.entry) }
    ensures capacity { vec_capacity result ≡ vec_capacity numbers }
{
    let mut out = numbers;
    for low in lows {
        out.push_reserved(base + low as u32);
    }
    out
}

// Appends the numbers of a block. Requires that the capacity has room for them.
fn with_block(numbers: Vec<u32>, keyed: &Keyed) -> Vec<u32>
    requires room { length numbers.items + length keyed.now.block ≤ vec_capacity numbers }
    ensures items { result.items ≡ numbers.items ++ keyed_numbers keyed.now }
    ensures capacity { vec_capacity result ≡ vec_capacity numbers }
{
    let base = keyed.key as u32 * 65536;
    match keyed.block.as_list() {
        Some(list) => with_list(numbers, base, list),
        None => with_each(numbers, base, keyed.block.iter()),
    }
}

// The numbers of blocks, ascending.
pub(crate) fn members(alloc: Global, blocks: &[Keyed]) -> Result<Vec<u32>, AllocError>
    requires { AreKeyed blocks.now }
    ensures { IfOk result (λ members. members.items ≡ set_numbers blocks.now) }
{
    let mut numbers = Vec::with_capacity(alloc, count(blocks) as usize)?;
    for keyed in blocks {
        numbers = with_block(numbers, keyed);
    }
    Ok(numbers)
}
