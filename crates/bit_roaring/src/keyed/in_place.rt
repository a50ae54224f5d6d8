//! Blocks changed without memory, where each that changes is kept as bits.
ghost use Rattle.std.specs.Prelude.{◌≡◌, IsTrue, false, true, vec_capacity, vec_len};
ghost use Rattle.bit_blocks.specs.Operation.{made_by};
ghost use Rattle.bit_roaring.specs.Changes.{CombinesEach};
ghost use Rattle.bit_roaring.specs.Keyed.{AreKeyed, keys_of};

use crate::keyed::find;
use bit_blocks::{Block, Keyed, Operation};
use std::alloc::Global;
use std::mem;

// Puts what an operation makes of blocks and others in their place, if each of the others with a block's key is a list, and
// that block is kept as bits and stays so. Returns whether that is so; where it is not, the blocks are as they were. Takes
// no memory, and puts no new block in.
pub(crate) fn change_all(blocks: &mut Vec<Keyed>, others: &[Keyed], operation: Operation) -> bool
    requires left { AreKeyed blocks.old.items }
    requires right { AreKeyed others.now }
    requires keeps { made_by operation true false ≡ true }
    ensures keyed { AreKeyed blocks.new.items }
    ensures keys { keys_of blocks.new.items ≡ keys_of blocks.old.items }
    ensures members { IsTrue result → CombinesEach (made_by operation) blocks.old.items others.now blocks.new.items }
    ensures refused { result ≡ false → blocks.new.items ≡ blocks.old.items }
    ensures len { vec_len blocks.new ≡ vec_len blocks.old }
    ensures capacity { vec_capacity blocks.new ≡ vec_capacity blocks.old }
{
    let alloc = *blocks.allocator();
    change_each(alloc, blocks, others, operation)
}

// Like `change_all`, of blocks in a slice. A block is changed once those after it can be, so this calls itself for each of
// the others.
fn change_each(alloc: Global, blocks: &mut [Keyed], others: &[Keyed], operation: Operation) -> bool
    requires left { AreKeyed blocks.old }
    requires right { AreKeyed others.now }
    requires keeps { made_by operation true false ≡ true }
    ensures keyed { AreKeyed blocks.new }
    ensures keys { keys_of blocks.new ≡ keys_of blocks.old }
    ensures members { IsTrue result → CombinesEach (made_by operation) blocks.old others.now blocks.new }
    ensures refused { result ≡ false → blocks.new ≡ blocks.old }
{
    let Some((other, rest)) = others.split_first() else {
        return true;
    };
    let Ok(place) = find(blocks, other.key) else {
        return change_each(alloc, blocks, rest, operation);
    };
    let Some(numbers) = other.block.as_list() else {
        return false;
    };
    let (_, back) = blocks.split_at_mut(place);
    let Some((keyed, after)) = back.split_first_mut() else {
        return false;
    };
    let block = mem::replace(&mut keyed.block, Block::new(alloc));
    let mut bits = match block.into_bits() {
        Ok(bits) => bits,
        Err(block) => {
            keyed.block = block;
            return false;
        }
    };
    if !bits.can_change(numbers) || !change_each(alloc, after, rest, operation) {
        keyed.block = Block::from_bit_block(bits);
        return false;
    }
    bits.change(numbers, operation);
    keyed.block = Block::from_bit_block(bits);
    true
}
