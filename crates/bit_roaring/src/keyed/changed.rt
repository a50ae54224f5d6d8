//! Blocks changed where they stand, by what an operation makes of them and of others.
ghost use Rattle.std.specs.Prelude.{◌≡◌, ◌⊎◌, ℕ, [], All, IfOk, OnErr, OnOk, false, true};
ghost use Rattle.bit_blocks.specs.Numbers.{Ascends, Combines, has};
ghost use Rattle.bit_blocks.specs.Operation.{made_by};
ghost use Rattle.bit_roaring.specs.Changes.{CombinesKeyed, IsMade, ReplacesAll};
ghost use Rattle.bit_roaring.specs.Keyed.{AreKeyed, block_at, keys_of};

use crate::keyed::in_place::change_all;
use crate::keyed::merged::merge_all;
use crate::keyed::near::{Near, find_near, get_near};
use crate::keyed::replaced::{replace_all, replace_each};
use crate::keyed::{combined_at, get, keys_of};
use bit_blocks::{Keyed, Operation};
use std::alloc::{AllocError, Global};

// How many blocks may come or go one at a time, each of which moves all blocks after it.
const FEW: usize = 4;

// How many blocks may be changed without memory, each by a call inside that for the one before it.
const DEEPEST: usize = 1024;

// Puts what an operation makes of the blocks and of others in their place. Blocks that it leaves as they are are not
// copied, and none is where each that changes is kept as bits, the one of the others as a list, and few are new. Where
// memory is refused, the blocks are as they were. Requires that the operation keeps a number of the left list alone.
pub(crate) fn combine(
    blocks: &mut Vec<Keyed>,
    others: &[Keyed],
    operation: Operation,
) -> Result<(), AllocError>
    requires left { AreKeyed blocks.old.items }
    requires right { AreKeyed others.now }
    requires keeps { made_by operation true false ≡ true }
    ensures keyed { AreKeyed blocks.new.items }
    ensures members { OnOk result (CombinesKeyed (made_by operation) blocks.old.items others.now blocks.new.items) }
    ensures refused { OnErr result (blocks.new.items ≡ blocks.old.items) }
{
    if others.len() > DEEPEST || !may_change(blocks, others) {
        return put_made(blocks, others, operation);
    }
    let alloc = *blocks.allocator();
    let keys = new_keys(alloc, blocks, others, operation)?;
    if keys.len() > FEW {
        return put_made(blocks, others, operation);
    }
    let mut moves = 0;
    let made = made_each(alloc, blocks, others, &keys, operation, &mut moves)?;
    blocks.reserve(made.len())?;
    if !change_all(blocks, others, operation) {
        return put_made(blocks, others, operation);
    }
    replace_each(blocks, made);
    Ok(())
}

// Whether blocks are likely to be changed without memory: whether the first that has a key of the others is bits.
fn may_change(blocks: &[Keyed], others: &[Keyed]) -> bool
    requires { AreKeyed blocks.now }
{
    for keyed in others {
        if let Some(block) = get(blocks, keyed.key) {
            return block.as_bits().is_some();
        }
    }
    false
}

// The keys of others that no block has, where an operation keeps a number of the right list alone, and else none.
#[tactic(auto, using(crate::proofs::Changed::no_keys_in, crate::proofs::Changed::key_found))]
fn new_keys(
    alloc: Global,
    blocks: &[Keyed],
    others: &[Keyed],
    operation: Operation,
) -> Result<Vec<u16>, AllocError>
    requires left { AreKeyed blocks.now }
    requires right { AreKeyed others.now }
    ensures ascends { IfOk result (λ keys. Ascends keys.items) }
    ensures none { IfOk result (λ keys. (k : ℕ) → has keys.items k ≡ false → has (keys_of blocks.now) k ≡ false → Combines (made_by operation) [] (block_at others.now k) []) }
{
    let mut keys = Vec::new(alloc);
    if !operation.keeps_right() {
        return Ok(keys);
    }
    let mut near = 0;
    for keyed in others {
        let Err(_) = find_near(blocks, keyed.key, &mut near) else {
            continue;
        };
        keys.push(keyed.key)?;
    }
    Ok(keys)
}

// Like `combine`, by new blocks.
#[tactic(auto, using(crate::proofs::Changed::made_ascend))]
fn put_made(
    blocks: &mut Vec<Keyed>,
    others: &[Keyed],
    operation: Operation,
) -> Result<(), AllocError>
    requires left { AreKeyed blocks.old.items }
    requires right { AreKeyed others.now }
    requires keeps { made_by operation true false ≡ true }
    ensures keyed { AreKeyed blocks.new.items }
    ensures members { OnOk result (CombinesKeyed (made_by operation) blocks.old.items others.now blocks.new.items) }
    ensures refused { OnErr result (blocks.new.items ≡ blocks.old.items) }
{
    let alloc = *blocks.allocator();
    let keys = changed_keys(alloc, blocks, others, operation)?;
    let mut moves = 0;
    let made = made_each(alloc, blocks, others, &keys, operation, &mut moves)?;
    put_all(blocks, made, moves <= FEW)
}

// The keys of the blocks that an operation may change, which keeps a number of the left list alone.
#[tactic(auto, using(crate::proofs::Changed::stays_without_key, crate::proofs::Changed::stays_unless_both, crate::proofs::Made::keys_ascend_in))]
fn changed_keys(
    alloc: Global,
    left: &[Keyed],
    right: &[Keyed],
    operation: Operation,
) -> Result<Vec<u16>, AllocError>
    requires left { AreKeyed left.now }
    requires right { AreKeyed right.now }
    requires keeps { made_by operation true false ≡ true }
    ensures ascends { IfOk result (λ keys. Ascends keys.items) }
    ensures others { IfOk result (λ keys. (k : ℕ) → has keys.items k ≡ false → Combines (made_by operation) (block_at left.now k) (block_at right.now k) (block_at left.now k)) }
{
    if operation.keeps_right() || right.len() <= left.len() {
        return keys_of(alloc, right);
    }
    keys_in(alloc, left, right)
}

// The keys of some blocks that others have too.
#[tactic(auto, using(crate::proofs::Changed::no_keys_in, crate::proofs::Changed::key_found, crate::proofs::Changed::key_skipped, crate::proofs::Changed::keys_ascend_up, crate::proofs::Changed::one_has_none))]
fn keys_in(alloc: Global, blocks: &[Keyed], others: &[Keyed]) -> Result<Vec<u16>, AllocError>
    requires left { AreKeyed blocks.now }
    requires right { AreKeyed others.now }
    ensures ascends { IfOk result (λ keys. Ascends keys.items) }
    ensures all { IfOk result (λ keys. (k : ℕ) → has keys.items k ≡ false → (block_at blocks.now k ≡ []) ⊎ (block_at others.now k ≡ [])) }
{
    let mut keys = Vec::new(alloc);
    let mut near = 0;
    for keyed in blocks {
        if get_near(others, keyed.key, &mut near).is_none() {
            continue;
        }
        keys.push(keyed.key)?;
    }
    Ok(keys)
}

// What an operation makes of the left and the right block with each key, which may be no number. Counts on in `moves` the
// blocks that come or go.
#[tactic(auto, using(crate::proofs::Changed::none_made_each, crate::proofs::Changed::one_made_each, crate::proofs::Changed::each_key))]
fn made_each(
    alloc: Global,
    left: &[Keyed],
    right: &[Keyed],
    keys: &[u16],
    operation: Operation,
    moves: &mut usize,
) -> Result<Vec<Keyed>, AllocError>
    requires left { AreKeyed left.now }
    requires right { AreKeyed right.now }
    ensures keys { IfOk result (λ made. keys_of made.items ≡ keys.now) }
    ensures each { IfOk result (λ made. All (IsMade (made_by operation) left.now right.now) made.items) }
{
    let mut made = Vec::with_capacity(alloc, keys.len())?;
    let mut near = Near::default();
    for key in keys {
        let block = combined_at(alloc, left, right, *key, operation, &mut near)?;
        let was_there = near.left < left.len() && left[near.left].key == *key;
        if was_there == block.is_empty() {
            *moves = moves.saturating_add(1);
        }
        made.push(Keyed { key: *key, block })?;
    }
    Ok(made)
}

// Puts each block that an operation made in the place of the one with its key, or takes that one out where the new one
// has no number: one at a time where `few` come or go, and else all in one pass. Where memory is refused, the blocks are
// as they were. Requires that the keys ascend.
fn put_all(blocks: &mut Vec<Keyed>, made: Vec<Keyed>, few: bool) -> Result<(), AllocError>
    requires keyed { AreKeyed blocks.old.items }
    requires keys { Ascends (keys_of made.items) }
    requires ascend { All (λ b. Ascends b.block) made.items }
    ensures keyed { AreKeyed blocks.new.items }
    ensures replaces { OnOk result (ReplacesAll blocks.old.items blocks.new.items made.items) }
    ensures refused { OnErr result (blocks.new.items ≡ blocks.old.items) }
{
    if few {
        replace_all(blocks, made)
    } else {
        merge_all(blocks, made)
    }
}
