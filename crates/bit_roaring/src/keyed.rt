//! Blocks with their keys.
ghost use Rattle.std.specs.Prelude.{◌≡◌, ◌≤◌, ◌<◌, ◌+◌, ◌↔◌, ℕ, [], if◌then◌else◌, All, false, IfOk, IsTrue, MatchOption, MatchResult, OnErr, OnOk, length, not, slice_get, take};
ghost use Rattle.bit_roaring.specs.Keyed.{AreKeyed, block_at, keyed_numbers, keys_of, set_numbers};
ghost use Rattle.bit_blocks.specs.Numbers.{Ascends, Combines, count_below, has};
ghost use Rattle.bit_blocks.specs.Operation.{made_by};
ghost use Rattle.bit_roaring.specs.Changes.{CombinesKeyed, GainsAt, LosesAt, Replaces};
ghost use Rattle.bit_roaring.specs.Places.{IsAbsent, IsKeyPlace, IsThere};

pub(crate) mod ascending;
pub(crate) mod changed;
pub(crate) mod common;
pub(crate) mod in_place;
pub(crate) mod members;
pub(crate) mod merged;
pub(crate) mod near;
pub(crate) mod ranges;
pub(crate) mod replaced;

use crate::keyed::near::{Near, get_near};
use bit_blocks::{Block, Keyed, Operation, listed};
use std::alloc::{AllocError, Global};

// Where the block with a key stands, or in Err where it has its place.
pub(crate) fn find(blocks: &[Keyed], key: u16) -> Result<usize, usize>
    requires { AreKeyed blocks.now }
    ensures { MatchResult result (IsThere blocks.now key) (IsAbsent blocks.now key) }
{
    found_at(blocks, key, place_of(blocks, key))
}

// Like `find`, where the key's place is `place`.
fn found_at(blocks: &[Keyed], key: u16, place: usize) -> Result<usize, usize>
    requires keyed { AreKeyed blocks.now }
    requires within { place ≤ length blocks.now }
    requires place { IsKeyPlace blocks.now key place }
    ensures { MatchResult result (IsThere blocks.now key) (IsAbsent blocks.now key) }
{
    if place == blocks.len() {
        return Err(place);
    }
    if blocks[place].key == key {
        return Ok(place);
    }
    Err(place)
}

// The block with a key, if there is one.
pub(crate) fn get(blocks: &[Keyed], key: u16) -> Option<&Block>
    requires { AreKeyed blocks.now }
    ensures { MatchOption result (block_at blocks.now key ≡ []) (λ block. block.now ≡ block_at blocks.now key) }
{
    match find(blocks, key) {
        Ok(place) => Some(&blocks[place].block),
        Err(_) => None,
    }
}

// Whether a number is in one of the blocks.
#[tactic(auto, using(crate::proofs::Sets::found_in_block, crate::proofs::Sets::absent_in_set))]
pub(crate) fn contains(blocks: &[Keyed], number: u32) -> bool
    requires { AreKeyed blocks.now }
    ensures { result ≡ has (set_numbers blocks.now) number }
{
    match get(blocks, (number / 65536) as u16) {
        None => false,
        Some(block) => block.contains((number % 65536) as u16),
    }
}

// The count of blocks with a key below `key`.
pub(crate) fn place_of(blocks: &[Keyed], key: u16) -> usize
    requires { AreKeyed blocks.now }
    ensures within { result ≤ length blocks.now }
    ensures place { IsKeyPlace blocks.now key result }
{
    blocks.partition_point(|keyed| keyed.key < key)
}

// Puts a number into the block with a key, and returns whether it was not there. Where memory is refused, the blocks
// are as they were.
pub(crate) fn insert(blocks: &mut Vec<Keyed>, key: u16, low: u16) -> Result<bool, AllocError>
    requires { AreKeyed blocks.old.items }
    ensures keyed { AreKeyed blocks.new.items }
    ensures new { IfOk result (λ new. new ≡ not (has (block_at blocks.old.items key) low)) }
    ensures gains { OnOk result (GainsAt blocks.old.items blocks.new.items key low) }
    ensures refused { OnErr result (blocks.new.items ≡ blocks.old.items) }
{
    match find(blocks, key) {
        Ok(place) => insert_at(blocks, place, key, low),
        Err(place) => {
            let mut block = Block::new(*blocks.allocator());
            block.insert(low)?;
            blocks.insert(place, Keyed { key, block })?;
            Ok(true)
        }
    }
}

// Like `insert`, where the block stands at `place`.
fn insert_at(blocks: &mut Vec<Keyed>, place: usize, key: u16, low: u16) -> Result<bool, AllocError>
    requires keyed { AreKeyed blocks.old.items }
    requires there { IsThere blocks.old.items key place }
    ensures keyed { AreKeyed blocks.new.items }
    ensures new { IfOk result (λ new. new ≡ not (has (block_at blocks.old.items key) low)) }
    ensures gains { OnOk result (GainsAt blocks.old.items blocks.new.items key low) }
    ensures refused { OnErr result (blocks.new.items ≡ blocks.old.items) }
{
    let keyed = &mut blocks[place];
    let new = keyed.block.insert(low)?;
    Ok(new)
}

// Takes a number out of the block with a key, and returns whether it was there. Where memory is refused, the blocks are
// as they were.
pub(crate) fn remove(blocks: &mut Vec<Keyed>, key: u16, low: u16) -> Result<bool, AllocError>
    requires { AreKeyed blocks.old.items }
    ensures keyed { AreKeyed blocks.new.items }
    ensures old { IfOk result (λ old. old ≡ has (block_at blocks.old.items key) low) }
    ensures loses { OnOk result (LosesAt blocks.old.items blocks.new.items key low) }
    ensures refused { OnErr result (blocks.new.items ≡ blocks.old.items) }
{
    let Ok(place) = find(blocks, key) else {
        return Ok(false);
    };
    if blocks[place].block.len() > 1 {
        return remove_at(blocks, place, key, low);
    }
    if !blocks[place].block.contains(low) {
        return Ok(false);
    }
    let _last = blocks.remove(place);
    Ok(true)
}

// Like `remove`, where the block stands at `place` and has other numbers.
fn remove_at(blocks: &mut Vec<Keyed>, place: usize, key: u16, low: u16) -> Result<bool, AllocError>
    requires keyed { AreKeyed blocks.old.items }
    requires there { IsThere blocks.old.items key place }
    requires others { 1 < length (block_at blocks.old.items key) }
    ensures keyed { AreKeyed blocks.new.items }
    ensures old { IfOk result (λ old. old ≡ has (block_at blocks.old.items key) low) }
    ensures loses { OnOk result (LosesAt blocks.old.items blocks.new.items key low) }
    ensures refused { OnErr result (blocks.new.items ≡ blocks.old.items) }
{
    let keyed = &mut blocks[place];
    let old = keyed.block.remove(low)?;
    Ok(old)
}

// The keys of blocks.
#[tactic(auto, using(crate::proofs::Made::keys_more, crate::proofs::Made::keys_whole))]
fn keys_of(alloc: Global, blocks: &[Keyed]) -> Result<Vec<u16>, AllocError>
    ensures { IfOk result (λ keys. keys.items ≡ keys_of blocks.now) }
{
    let mut keys = Vec::with_capacity(alloc, blocks.len())?;
    for keyed in blocks {
        keys.push(keyed.key)?;
    }
    Ok(keys)
}

// The keys that either of two lists of blocks has.
#[tactic(auto, using(crate::proofs::Made::keys_ascend_in, crate::proofs::Made::no_key, crate::proofs::Made::no_keys))]
fn all_keys(alloc: Global, left: &[Keyed], right: &[Keyed]) -> Result<Vec<u16>, AllocError>
    requires left { AreKeyed left.now }
    requires right { AreKeyed right.now }
    ensures ascends { IfOk result (λ keys. Ascends keys.items) }
    ensures left { IfOk result (λ keys. (k : ℕ) → has keys.items k ≡ false → block_at left.now k ≡ []) }
    ensures right { IfOk result (λ keys. (k : ℕ) → has keys.items k ≡ false → block_at right.now k ≡ []) }
{
    let keys = keys_of(alloc, left)?;
    let others = keys_of(alloc, right)?;
    listed::combined(alloc, &keys, &others, Operation::Union)
}

// The keys of the blocks that an operation makes of two lists of blocks, and of some that it does not make.
#[tactic(auto, using(crate::proofs::Made::keys_ascend_in, crate::proofs::Made::no_key, crate::proofs::Made::combined_none, crate::proofs::Made::none_of_left, crate::proofs::Made::none_of_right))]
fn keys_for(
    alloc: Global,
    left: &[Keyed],
    right: &[Keyed],
    operation: Operation,
) -> Result<Vec<u16>, AllocError>
    requires left { AreKeyed left.now }
    requires right { AreKeyed right.now }
    ensures ascends { IfOk result (λ keys. Ascends keys.items) }
    ensures all { IfOk result (λ keys. (k : ℕ) → has keys.items k ≡ false → Combines (made_by operation) (block_at left.now k) (block_at right.now k) []) }
{
    match (operation.keeps_left(), operation.keeps_right()) {
        (true, true) => all_keys(alloc, left, right),
        (true, false) => keys_of(alloc, left),
        (false, true) => keys_of(alloc, right),
        (false, false) => {
            let fewer = if right.len() < left.len() {
                right
            } else {
                left
            };
            keys_of(alloc, fewer)
        }
    }
}

// A copy of a block where `keeps` says so, and else no number.
fn kept(alloc: Global, block: &Block, keeps: bool) -> Result<Block, AllocError>
    ensures { IfOk result (λ made. made ≡ (if keeps then block.now else [])) }
{
    if keeps {
        return block.clone();
    }
    Ok(Block::new(alloc))
}

// The numbers of the block with a key that an operation makes of those of two lists of blocks, which are looked for near
// two places.
#[tactic(auto, using(crate::proofs::Made::combined_left, crate::proofs::Made::combined_right, crate::proofs::Made::combined_none, crate::proofs::Made::kept_ascends, crate::proofs::Keys::block_ascends))]
pub(crate) fn combined_at(
    alloc: Global,
    left: &[Keyed],
    right: &[Keyed],
    key: u16,
    operation: Operation,
    near: &mut Near,
) -> Result<Block, AllocError>
    requires left { AreKeyed left.now }
    requires right { AreKeyed right.now }
    ensures members { IfOk result (λ block. Combines (made_by operation) (block_at left.now key) (block_at right.now key) block) }
    ensures ascends { IfOk result (λ block. Ascends block) }
{
    let numbers = get_near(left, key, &mut near.left);
    let others = get_near(right, key, &mut near.right);
    match (numbers, others) {
        (Some(numbers), Some(others)) => numbers.combined(alloc, others, operation),
        (Some(numbers), None) => kept(alloc, numbers, operation.keeps_left()),
        (None, Some(others)) => kept(alloc, others, operation.keeps_right()),
        (None, None) => Ok(Block::new(alloc)),
    }
}

// What an operation makes of two lists of blocks.
pub(crate) fn combined(
    alloc: Global,
    left: &[Keyed],
    right: &[Keyed],
    operation: Operation,
) -> Result<Vec<Keyed>, AllocError>
    requires left { AreKeyed left.now }
    requires right { AreKeyed right.now }
    ensures keyed { IfOk result (λ made. AreKeyed made.items) }
    ensures members { IfOk result (λ made. CombinesKeyed (made_by operation) left.now right.now made.items) }
{
    let keys = keys_for(alloc, left, right, operation)?;
    let mut made = Vec::new(alloc);
    let mut near = Near::default();
    for key in &keys {
        let block = combined_at(alloc, left, right, *key, operation, &mut near)?;
        push_some(&mut made, *key, block)?;
    }
    Ok(made)
}

// Appends a block, where it has a number. Requires that its key is past those of the others.
#[tactic(auto, using(crate::proofs::Made::pushed_keyed, crate::proofs::Made::pushed_below, crate::proofs::Made::pushed_replaces, crate::proofs::Made::skipped_replaces, crate::proofs::Made::skipped_below))]
pub(crate) fn push_some(blocks: &mut Vec<Keyed>, key: u16, block: Block) -> Result<(), AllocError>
    requires keyed { AreKeyed blocks.old.items }
    requires past { All (λ keyed. keyed.key < key) blocks.old.items }
    requires ascends { Ascends block }
    ensures keyed { OnOk result (AreKeyed blocks.new.items) }
    ensures below { OnOk result (All (λ keyed. keyed.key < key + 1) blocks.new.items) }
    ensures replaces { OnOk result (Replaces blocks.old.items blocks.new.items key block) }
{
    if !block.is_empty() {
        blocks.push(Keyed { key, block })?;
    }
    Ok(())
}

// The count of numbers.
pub(crate) fn count(blocks: &[Keyed]) -> u64
    requires { AreKeyed blocks.now }
    ensures { result ≡ length (set_numbers blocks.now) }
{
    let mut count = 0;
    for keyed in blocks {
        count += keyed.block.len() as u64;
    }
    count
}

// The count of numbers below `number`.
pub(crate) fn rank(blocks: &[Keyed], number: u32) -> u64
    requires { AreKeyed blocks.now }
    ensures { result ≡ count_below (set_numbers blocks.now) number }
{
    let key = (number / 65536) as u16;
    let place = place_of(blocks, key);
    let before = count_front(blocks, place);
    match get(blocks, key) {
        None => before,
        Some(block) => before + block.rank((number % 65536) as u16) as u64,
    }
}

// The count of numbers of the first `n` blocks.
fn count_front(blocks: &[Keyed], n: usize) -> u64
    requires keyed { AreKeyed blocks.now }
    requires within { n ≤ length blocks.now }
    ensures { result ≡ length (set_numbers (take n blocks.now)) }
{
    let mut count = 0;
    for i in 0..n {
        count += blocks[i].block.len() as u64;
    }
    count
}

// The `k`-th number, counted from 0. None exactly where there are at most `k`.
pub(crate) fn select(blocks: &[Keyed], k: u64) -> Option<u32>
    requires { AreKeyed blocks.now }
    ensures { result ≡ slice_get (set_numbers blocks.now) k }
{
    let mut left = k;
    for keyed in blocks {
        let size = keyed.block.len() as u64;
        if left < size {
            return nth_of(keyed, left as usize);
        }
        left -= size;
    }
    None
}

// The `k`-th number of a block with its key.
fn nth_of(keyed: &Keyed, k: usize) -> Option<u32>
    requires key { keyed.now.key < 65536 }
    requires ascends { Ascends keyed.now.block }
    ensures { result ≡ slice_get (keyed_numbers keyed.now) k }
{
    match keyed.block.select(k) {
        None => None,
        Some(low) => Some(keyed.key as u32 * 65536 + low as u32),
    }
}

// Whether two lists of blocks have the same numbers.
pub(crate) fn are_same(blocks: &[Keyed], others: &[Keyed]) -> bool
    requires left { AreKeyed blocks.now }
    requires right { AreKeyed others.now }
    ensures { IsTrue result ↔ (set_numbers blocks.now ≡ set_numbers others.now) }
{
    if blocks.len() != others.len() {
        return false;
    }
    for i in 0..blocks.len() {
        if !is_same(&blocks[i], &others[i]) {
            return false;
        }
    }
    true
}

// Whether two blocks have the same key and the same numbers.
fn is_same(keyed: &Keyed, other: &Keyed) -> bool
    ensures { IsTrue result ↔ (keyed.now ≡ other.now) }
{
    keyed.key == other.key && keyed.block.has_same_numbers(&other.block)
}

// A copy.
pub(crate) fn copied(alloc: Global, blocks: &[Keyed]) -> Result<Vec<Keyed>, AllocError>
    ensures { IfOk result (λ copy. copy.items ≡ blocks.now) }
{
    let mut copy = Vec::with_capacity(alloc, blocks.len())?;
    for keyed in blocks {
        let block = keyed.block.clone()?;
        let key = keyed.key;
        copy.push(Keyed { key, block })?;
    }
    Ok(copy)
}

// Keeps each block in the form that takes the least memory.
pub(crate) fn optimize(blocks: &mut [Keyed]) -> Result<(), AllocError>
    ensures { blocks.new ≡ blocks.old }
{
    for i in 0..blocks.len() {
        blocks[i].block.optimize()?;
    }
    Ok(())
}
