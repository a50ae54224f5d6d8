//! The tree of the sums of blocks: made, and kept when a bit changes.
ghost use Rattle.std.specs.Prelude.{◌≡◌, ℕ, ◌+◌, ◌-◌, ◌*◌, ◌/◌, ◌^◌, ◌<◌, ◌≤◌, IfOk, OnErr, cond, false, length, min, not, set, slice_index_or, vec_capacity};
ghost use Rattle.bit_addressing.specs.declared.length.TheConstants.{MAX_BITS};
ghost use Rattle.bit_slice.specs.BitSlice.{len_of, list_of};
ghost use Rattle.bit_ranks.specs.Sums.{IsSummed, IsTree, before_block};

use crate::ranks::BLOCK;
use bit_containers::{BitOrder, BitStore};
use bit_slice::BitSlice;
use std::alloc::{AllocError, Global};

// The levels of the tree over `blocks` blocks.
pub(crate) fn levels_for(blocks: usize) -> u32
    requires { blocks * 512 ≤ MAX_BITS }
    ensures small { result < 64 }
    ensures tall { blocks < 2 ^ result }
{
    usize::BITS - blocks.leading_zeros()
}

// How many blocks each half of a node has, whose level is one more.
#[inline(always)]
pub(crate) fn width(level: u32) -> usize
    requires { level < 64 }
    ensures { result ≡ 2 ^ level }
{
    1 << level
}

// The bits of `blocks` blocks that equal `bit`, where `ones` of them are ones.
#[inline(always)]
pub(crate) fn of_kind(bit: bool, ones: usize, blocks: usize) -> usize
    requires few { ones ≤ blocks * 512 }
    requires fits { blocks * 512 ≤ MAX_BITS }
    ensures { result ≡ cond bit ones (blocks * 512 - ones) }
{
    if bit { ones } else { blocks * BLOCK - ones }
}

// The sums of all whole blocks, in one pass.
pub(crate) fn summed<T: BitStore, O: BitOrder>(
    alloc: Global,
    view: BitSlice<'_, T, O>,
    levels: u32,
) -> Result<Vec<usize>, AllocError>
    requires small { levels < 64 }
    requires tall { len_of view / 512 < 2 ^ levels }
    ensures tree { IfOk result (λ sums. IsTree (list_of view.entry) sums.items levels) }
    ensures memory { OnErr result (512 ≤ len_of view.entry) }
{
    let mut sums = Vec::with_capacity(alloc, view.len() / BLOCK)?;
    push_sums(&mut sums, view, 0, levels);
    Ok(sums)
}

// Appends the sums of `2 ^ level` blocks from `first` on, those that are whole, and returns how many ones these have.
fn push_sums<T: BitStore, O: BitOrder>(
    sums: &mut Vec<usize>,
    view: BitSlice<'_, T, O>,
    first: usize,
    level: u32,
) -> usize
    requires small { level < 64 }
    requires inside { first * 512 ≤ len_of view }
    requires here { length sums.old.items ≡ first }
    requires room { vec_capacity sums.old ≡ len_of view / 512 }
    ensures room { vec_capacity sums.new ≡ vec_capacity sums.old }
    ensures front { (k : ℕ) → k < first
        → slice_index_or sums.new.items k 0 ≡ slice_index_or sums.old.items k 0 }
    ensures size { length sums.new.items ≡ min (first + 2 ^ level - 1) (len_of view.entry / 512) }
    ensures count { before_block (list_of view.entry) first + result
        ≡ before_block (list_of view.entry) (min (first + 2 ^ level) (len_of view.entry / 512)) }
    ensures summed { IsSummed (before_block (list_of view.entry)) (len_of view.entry / 512) sums.new.items level first }
{
    let blocks = view.len() / BLOCK;
    if level == 0 {
        if first == blocks {
            return 0;
        }
        return view
            .get_range(first * BLOCK..(first + 1) * BLOCK)
            .count_ones();
    }
    let half = level - 1;
    let ones = push_sums(sums, view, first, half);
    let middle = first + width(half);
    if middle > blocks {
        return ones;
    }
    sums.push_reserved(ones);
    ones + push_sums(sums, view, middle, half)
}

// Counts the bit at `i`, which was flipped, in each sum that has it.
pub(crate) fn recount<T: BitStore, O: BitOrder>(
    sums: &mut Vec<usize>,
    levels: u32,
    bits: BitSlice<'_, T, O>,
    i: usize,
)
    requires inside { i < len_of bits }
    requires tree { IsTree (set (list_of bits) i (not (slice_index_or (list_of bits) i false))) sums.old.items levels }
    ensures { IsTree (list_of bits.entry) sums.new.items levels }
{
    let bit = bits[i];
    let block = i / BLOCK;
    let mut first = 0;
    let mut level = levels;
    'halves: while level > 0 {
        level -= 1;
        let middle = first + width(level);
        if middle <= block {
            first = middle;
        } else if middle <= sums.len() {
            if bit {
                sums[middle - 1] += 1;
            } else {
                sums[middle - 1] -= 1;
            }
        }
    }
}
