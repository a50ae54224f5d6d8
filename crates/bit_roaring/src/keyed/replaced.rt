//! Blocks put in the place of others, one at a time.
ghost use Rattle.std.specs.Prelude.{◌≡◌, ◌≤◌, ◌<◌, ◌+◌, All, OnErr, OnOk, vec_capacity, vec_len};
ghost use Rattle.bit_blocks.specs.Numbers.{Ascends};
ghost use Rattle.bit_roaring.specs.Changes.{Replaces, ReplacesAll};
ghost use Rattle.bit_roaring.specs.Keyed.{AreKeyed};
ghost use Rattle.bit_roaring.specs.Places.{IsAbsent, IsThere};

use crate::keyed::near::find_near;
use bit_blocks::{Block, Keyed};
use std::alloc::AllocError;

// Like `put_all`, one block at a time. Moves the blocks after each that comes or goes.
pub(crate) fn replace_all(blocks: &mut Vec<Keyed>, made: Vec<Keyed>) -> Result<(), AllocError>
    requires keyed { AreKeyed blocks.old.items }
    requires ascend { All (λ b. Ascends b.block) made.items }
    ensures keyed { AreKeyed blocks.new.items }
    ensures replaces { OnOk result (ReplacesAll blocks.old.items blocks.new.items made.items) }
    ensures refused { OnErr result (blocks.new.items ≡ blocks.old.items) }
{
    blocks.reserve(made.len())?;
    replace_each(blocks, made);
    Ok(())
}

// Like `replace_all`, where there is room for all.
pub(crate) fn replace_each(blocks: &mut Vec<Keyed>, mut made: Vec<Keyed>)
    requires keyed { AreKeyed blocks.old.items }
    requires ascend { All (λ b. Ascends b.block) made.items }
    requires room { vec_len blocks.old + vec_len made ≤ vec_capacity blocks.old }
    ensures keyed { AreKeyed blocks.new.items }
    ensures replaces { ReplacesAll blocks.old.items blocks.new.items made.items }
{
    let mut near = blocks.len();
    while let Some(keyed) = made.pop() {
        replace(blocks, keyed.key, keyed.block, &mut near);
    }
}

// Puts a block in the place of the one with its key, or takes that one out where the block has no number. The key is
// looked for near a place. Requires room for a block more.
fn replace(blocks: &mut Vec<Keyed>, key: u16, block: Block, near: &mut usize)
    requires keyed { AreKeyed blocks.old.items }
    requires ascends { Ascends block }
    requires room { vec_len blocks.old < vec_capacity blocks.old }
    ensures keyed { AreKeyed blocks.new.items }
    ensures replaces { Replaces blocks.old.items blocks.new.items key block }
    ensures len { vec_len blocks.new ≤ vec_len blocks.old + 1 }
    ensures capacity { vec_capacity blocks.old ≤ vec_capacity blocks.new }
{
    match find_near(blocks, key, near) {
        Ok(place) => replace_at(blocks, place, key, block),
        Err(place) => insert_some(blocks, place, key, block),
    }
}

// Like `replace`, where a block with the key stands at `place`.
fn replace_at(blocks: &mut Vec<Keyed>, place: usize, key: u16, block: Block)
    requires keyed { AreKeyed blocks.old.items }
    requires there { IsThere blocks.old.items key place }
    requires ascends { Ascends block }
    ensures keyed { AreKeyed blocks.new.items }
    ensures replaces { Replaces blocks.old.items blocks.new.items key block }
    ensures len { vec_len blocks.new ≤ vec_len blocks.old }
    ensures capacity { vec_capacity blocks.old ≤ vec_capacity blocks.new }
{
    if block.is_empty() {
        let _gone = blocks.remove(place);
    } else {
        blocks[place] = Keyed { key, block };
    }
}

// Like `replace`, where no block has the key, whose place is `place`.
#[tactic(auto, using(crate::proofs::Changed::absent_replaces))]
fn insert_some(blocks: &mut Vec<Keyed>, place: usize, key: u16, block: Block)
    requires keyed { AreKeyed blocks.old.items }
    requires absent { IsAbsent blocks.old.items key place }
    requires ascends { Ascends block }
    requires room { vec_len blocks.old < vec_capacity blocks.old }
    ensures keyed { AreKeyed blocks.new.items }
    ensures replaces { Replaces blocks.old.items blocks.new.items key block }
    ensures len { vec_len blocks.new ≤ vec_len blocks.old + 1 }
    ensures capacity { vec_capacity blocks.old ≤ vec_capacity blocks.new }
{
    if !block.is_empty() {
        // There is room, so it is put in.
        let _done = blocks.insert(place, Keyed { key, block });
    }
}
