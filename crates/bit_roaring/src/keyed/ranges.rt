//! Ranges of numbers in blocks with their keys.
ghost use Rattle.std.specs.Prelude.{◌≡◌, ◌≤◌, ◌<◌, ◌+◌, ◌*◌, ◌/◌, ℕ, Bool, false, IfOk, OnErr, OnOk, length};
ghost use Rattle.bit_blocks.specs.BlockLeft.{block_left};
ghost use Rattle.bit_blocks.specs.Numbers.{Ascends, has, numbers_between};
ghost use Rattle.bit_blocks.specs.Operation.{made_by};
ghost use Rattle.bit_roaring.specs.Keyed.{AreKeyed, block_at, set_numbers};
ghost use Rattle.bit_roaring.specs.Places.{IsAbsent, IsKeyPlace, IsThere};
ghost use Rattle.bit_roaring.specs.Ranges.{ArePart, ChangesPart, GainsRange, LosesRange, is_within, numbers_within};

use crate::keyed::{combined, count, find, get, place_of, push_some};
use bit_blocks::{Block, BlockIter, Keyed, Operation};
use std::alloc::{AllocError, Global};

// The numbers from `first` to `last` that have a key, as a block. Requires that there are some.
fn block_of_range(alloc: Global, first: u32, last: u32, key: u32) -> Result<Block, AllocError>
    requires ordered { first ≤ last }
    requires from { first / 65536 ≤ key }
    requires upto { key ≤ last / 65536 }
    ensures ascends { IfOk result (λ block. Ascends block) }
    ensures members { IfOk result (λ block. (x : ℕ) → x < 65536 → has block x ≡ is_within first (last + 1) (key * 65536 + x)) }
{
    let base = key * 65536;
    let low = first.saturating_sub(base);
    let high = (last - base).min(65535);
    let block = Block::from_range(alloc, low as u16, high as u16)?;
    Ok(block)
}

// The numbers from `first` to `last`, as blocks of one run each.
pub(crate) fn of_range(alloc: Global, first: u32, last: u32) -> Result<Vec<Keyed>, AllocError>
    requires { first ≤ last }
    ensures keyed { IfOk result (λ made. AreKeyed made.items) }
    ensures members { IfOk result (λ made. (n : ℕ) → has (set_numbers made.items) n ≡ is_within first (last + 1) n) }
{
    let mut made = Vec::new(alloc);
    for key in first / 65536..last / 65536 + 1 {
        let block = block_of_range(alloc, first, last, key)?;
        push_some(&mut made, key as u16, block)?;
    }
    Ok(made)
}

// The count of blocks with a key up to `key`.
pub(crate) fn place_after(blocks: &[Keyed], key: u16) -> usize
    requires { AreKeyed blocks.now }
    ensures within { result ≤ length blocks.now }
    ensures place { IsKeyPlace blocks.now (key + 1) result }
{
    blocks.partition_point(|keyed| keyed.key <= key)
}

// Where the blocks with keys from `low` to `last` begin, and where they end.
#[tactic(auto, using(crate::proofs::Between::places_ordered))]
pub(crate) fn places_of(blocks: &[Keyed], low: u16, last: u16) -> (usize, usize)
    requires keyed { AreKeyed blocks.now }
    requires ordered { low ≤ last + 1 }
    ensures ordered { result.0 ≤ result.1 }
    ensures inside { result.1 ≤ length blocks.now }
    ensures from { IsKeyPlace blocks.now low result.0 }
    ensures upto { IsKeyPlace blocks.now (last + 1) result.1 }
{
    (place_of(blocks, low), place_after(blocks, last))
}

// The numbers from `low` to `high` of the block with a key.
pub(crate) fn part_at(blocks: &[Keyed], key: u16, low: u16, high: u16) -> BlockIter<'_>
    requires { AreKeyed blocks.now }
    ensures { block_left result ≡ numbers_between low high (block_at blocks.now key) }
{
    match get(blocks, key) {
        None => BlockIter::empty(),
        Some(block) => block.range(low, high),
    }
}

// The blocks with keys between two. Requires that the first is less than the second.
#[tactic(auto, using(crate::proofs::Between::part_between))]
pub(crate) fn blocks_between(blocks: &[Keyed], from: u16, upto: u16) -> &[Keyed]
    requires keyed { AreKeyed blocks.now }
    requires ordered { from < upto }
    ensures { ArePart blocks.now result.now (from + 1) upto }
{
    let (start, end) = places_of(blocks, from + 1, upto - 1);
    &blocks[start..end]
}

// The count of numbers from `low` to `high` of the block with a key.
fn count_at(blocks: &[Keyed], key: u16, low: u16, high: u16) -> u64
    requires keyed { AreKeyed blocks.now }
    requires ordered { low ≤ high }
    ensures { result ≡ length (numbers_between low high (block_at blocks.now key)) }
{
    match get(blocks, key) {
        None => 0,
        Some(block) => {
            // Proof only: the numbers ascend.
            let _len = block.len();
            (block.rank(high) - block.rank(low)) as u64 + u64::from(block.contains(high))
        }
    }
}

// The count of numbers from `first` to `last`. Goes through the blocks of the range alone.
pub(crate) fn count_within(blocks: &[Keyed], first: u32, last: u32) -> u64
    requires keyed { AreKeyed blocks.now }
    requires ordered { first ≤ last }
    ensures { result ≡ length (numbers_within first (last + 1) (set_numbers blocks.now)) }
{
    let (from, upto) = ((first / 65536) as u16, (last / 65536) as u16);
    let (low, high) = ((first % 65536) as u16, (last % 65536) as u16);
    if from == upto {
        return count_at(blocks, from, low, high);
    }
    let between = count(blocks_between(blocks, from, upto));
    count_at(blocks, from, low, 65535) + (between + count_at(blocks, upto, 0, high))
}

// Blocks that are to be put in the place of others: of those from `from` up to `upto`.
#[derive(Drop)]
pub(crate) struct Part {
    from: usize,
    upto: usize,
    made: Vec<Keyed>,
}

// What an operation makes of the blocks with the keys of the numbers from `first` to `last`, and of these numbers.
#[tactic(auto, using(crate::proofs::Between::part_whole))]
fn part_made(
    alloc: Global,
    blocks: &[Keyed],
    first: u32,
    last: u32,
    operation: Operation,
) -> Result<Part, AllocError>
    requires keyed { AreKeyed blocks.now }
    requires ordered { first ≤ last }
    ensures ordered { IfOk result (λ part. part.from ≤ part.upto) }
    ensures made { IfOk result (λ part. ChangesPart operation blocks.now part.made.items first last part.from part.upto) }
{
    let range = of_range(alloc, first, last)?;
    let (from, upto) = places_of(blocks, (first / 65536) as u16, (last / 65536) as u16);
    let made = combined(alloc, &blocks[from..upto], &range, operation)?;
    Ok(Part { from, upto, made })
}

// Puts in the numbers from `first` to `last`: into one block, where they have one key. Where memory is
// refused, the blocks are as they were.
pub(crate) fn insert_range(blocks: &mut Vec<Keyed>, first: u32, last: u32) -> Result<(), AllocError>
    requires keyed { AreKeyed blocks.old.items }
    requires ordered { first ≤ last }
    ensures keyed { AreKeyed blocks.new.items }
    ensures gains { OnOk result (GainsRange (set_numbers blocks.old.items) (set_numbers blocks.new.items) first (last + 1)) }
    ensures refused { OnErr result (blocks.new.items ≡ blocks.old.items) }
{
    if first / 65536 != last / 65536 {
        return change_range(blocks, first, last, Operation::Union);
    }
    match find(blocks, (first / 65536) as u16) {
        Ok(place) => insert_within(blocks, place, first, last),
        Err(place) => insert_block(blocks, place, first, last),
    }
}

// Takes out the numbers from `first` to `last`: out of one block, where they have one key. Where memory is
// refused, the blocks are as they were.
#[tactic(auto, using(crate::proofs::Within::absent_loses))]
pub(crate) fn remove_range(blocks: &mut Vec<Keyed>, first: u32, last: u32) -> Result<(), AllocError>
    requires keyed { AreKeyed blocks.old.items }
    requires ordered { first ≤ last }
    ensures keyed { AreKeyed blocks.new.items }
    ensures loses { OnOk result (LosesRange (set_numbers blocks.old.items) (set_numbers blocks.new.items) first (last + 1)) }
    ensures refused { OnErr result (blocks.new.items ≡ blocks.old.items) }
{
    if first / 65536 != last / 65536 {
        return change_range(blocks, first, last, Operation::Difference);
    }
    match find(blocks, (first / 65536) as u16) {
        Ok(place) => remove_within(blocks, place, first, last),
        Err(_) => Ok(()),
    }
}

// Like `insert_range`, into the block at `place`.
fn insert_within(
    blocks: &mut Vec<Keyed>,
    place: usize,
    first: u32,
    last: u32,
) -> Result<(), AllocError>
    requires keyed { AreKeyed blocks.old.items }
    requires ordered { first ≤ last }
    requires key { first / 65536 ≡ last / 65536 }
    requires there { IsThere blocks.old.items (first / 65536) place }
    ensures keyed { AreKeyed blocks.new.items }
    ensures gains { OnOk result (GainsRange (set_numbers blocks.old.items) (set_numbers blocks.new.items) first (last + 1)) }
    ensures refused { OnErr result (blocks.new.items ≡ blocks.old.items) }
{
    let keyed = &mut blocks[place];
    let (low, high) = ((first % 65536) as u16, (last % 65536) as u16);
    keyed.block.insert_range(low, high)?;
    Ok(())
}

// Like `insert_range`, as a new block, which has its place at `place`.
fn insert_block(
    blocks: &mut Vec<Keyed>,
    place: usize,
    first: u32,
    last: u32,
) -> Result<(), AllocError>
    requires keyed { AreKeyed blocks.old.items }
    requires ordered { first ≤ last }
    requires key { first / 65536 ≡ last / 65536 }
    requires absent { IsAbsent blocks.old.items (first / 65536) place }
    ensures keyed { AreKeyed blocks.new.items }
    ensures gains { OnOk result (GainsRange (set_numbers blocks.old.items) (set_numbers blocks.new.items) first (last + 1)) }
    ensures refused { OnErr result (blocks.new.items ≡ blocks.old.items) }
{
    let (low, high) = ((first % 65536) as u16, (last % 65536) as u16);
    let key = (first / 65536) as u16;
    let block = Block::from_range(*blocks.allocator(), low, high)?;
    blocks.insert(place, Keyed { key, block })?;
    Ok(())
}

// Like `remove_range`, out of the block at `place`, which goes where it has no number left.
fn remove_within(
    blocks: &mut Vec<Keyed>,
    place: usize,
    first: u32,
    last: u32,
) -> Result<(), AllocError>
    requires keyed { AreKeyed blocks.old.items }
    requires ordered { first ≤ last }
    requires key { first / 65536 ≡ last / 65536 }
    requires there { IsThere blocks.old.items (first / 65536) place }
    ensures keyed { AreKeyed blocks.new.items }
    ensures loses { OnOk result (LosesRange (set_numbers blocks.old.items) (set_numbers blocks.new.items) first (last + 1)) }
    ensures refused { OnErr result (blocks.new.items ≡ blocks.old.items) }
{
    let keyed = &mut blocks[place];
    let (low, high) = ((first % 65536) as u16, (last % 65536) as u16);
    keyed.block.remove_range(low, high)?;
    if blocks[place].block.is_empty() {
        let _gone = blocks.remove(place);
    }
    Ok(())
}

// Puts what an operation makes of the numbers and of those from `first` to `last` in their place. Blocks that have none
// of these stay. Where memory is refused, the blocks are as they were. Requires that the operation keeps a number of the
// left set alone, and makes nothing of nothing.
fn change_range(
    blocks: &mut Vec<Keyed>,
    first: u32,
    last: u32,
    operation: Operation,
) -> Result<(), AllocError>
    requires keyed { AreKeyed blocks.old.items }
    requires ordered { first ≤ last }
    requires keeps { (b : Bool) → made_by operation b false ≡ b }
    ensures keyed { AreKeyed blocks.new.items }
    ensures members { OnOk result ((n : ℕ) → has (set_numbers blocks.new.items) n ≡ made_by operation (has (set_numbers blocks.old.items) n) (is_within first (last + 1) n)) }
    ensures refused { OnErr result (blocks.new.items ≡ blocks.old.items) }
{
    let part = part_made(*blocks.allocator(), blocks, first, last, operation)?;
    let _gone = blocks.splice(part.from..part.upto, part.made)?;
    Ok(())
}
