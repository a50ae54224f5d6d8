//! Blocks put in the place of others, all in one pass.
ghost use Rattle.std.specs.Prelude.{◌≡◌, ◌≤◌, ◌<◌, ◌+◌, ◌++◌, [], All, IfNone, OnErr, OnOk, length, option_to_list, vec_capacity, vec_len};
ghost use Rattle.std.specs.Vec.Iter.{into_iter_items};
ghost use Rattle.bit_blocks.specs.Numbers.{Ascends};
ghost use Rattle.bit_roaring.specs.Changes.{Replaces, ReplacesAll};
ghost use Rattle.bit_roaring.specs.Keyed.{AreKeyed, keys_of};

use bit_blocks::Keyed;
use std::alloc::AllocError;
use std::mem;
use std::vec::IntoIter;

// Like `put_all`, in one pass. Moves all blocks, and takes memory for all of them.
pub(crate) fn merge_all(blocks: &mut Vec<Keyed>, made: Vec<Keyed>) -> Result<(), AllocError>
    requires keyed { AreKeyed blocks.old.items }
    requires keys { Ascends (keys_of made.items) }
    requires ascend { All (λ b. Ascends b.block) made.items }
    ensures keyed { AreKeyed blocks.new.items }
    ensures replaces { OnOk result (ReplacesAll blocks.old.items blocks.new.items made.items) }
    ensures refused { OnErr result (blocks.new.items ≡ blocks.old.items) }
{
    let all = Vec::with_capacity(*blocks.allocator(), blocks.len() + made.len())?;
    let old = mem::replace(blocks, all);
    merge(blocks, old, made);
    Ok(())
}

// Moves blocks into a list that has none, and puts each of those that were made in the place of the one with its key.
// Requires room for all.
fn merge(all: &mut Vec<Keyed>, blocks: Vec<Keyed>, made: Vec<Keyed>)
    requires none { all.old.items ≡ [] }
    requires keyed { AreKeyed blocks.items }
    requires keys { Ascends (keys_of made.items) }
    requires ascend { All (λ b. Ascends b.block) made.items }
    requires room { vec_len blocks + vec_len made ≤ vec_capacity all.old }
    ensures keyed { AreKeyed all.new.items }
    ensures replaces { ReplacesAll blocks.items all.new.items made.items }
{
    let mut rest = blocks.into_iter();
    let mut next = rest.next();
    let mut others = made.into_iter();
    while let Some(keyed) = others.next() {
        next = move_before(all, next, &mut rest, keyed.key as u32);
        if keyed.block.is_empty() {
            continue;
        }
        // There is room, so it is appended.
        let _done = all.push(keyed);
    }
    let _none = move_before(all, next, &mut rest, 65536);
}

// Moves the blocks with keys below `key`, takes out the one with this key, and returns the first of the others.
fn move_before(
    all: &mut Vec<Keyed>,
    next: Option<Keyed>,
    rest: &mut IntoIter<Keyed>,
    key: u32,
) -> Option<Keyed>
    requires keyed { AreKeyed (all.old.items ++ (option_to_list next ++ into_iter_items rest.old)) }
    requires past { All (λ b. b.key < key) all.old.items }
    requires ends { IfNone next (into_iter_items rest.old ≡ []) }
    requires room { vec_len all.old + length (option_to_list next ++ into_iter_items rest.old) ≤ vec_capacity all.old }
    ensures keyed { AreKeyed (all.new.items ++ (option_to_list result ++ into_iter_items rest.new)) }
    ensures replaces { Replaces (all.old.items ++ (option_to_list next ++ into_iter_items rest.old)) (all.new.items ++ (option_to_list result ++ into_iter_items rest.new)) key [] }
    ensures before { All (λ b. b.key < key) all.new.items }
    ensures after { All (λ b. key < b.key) (option_to_list result ++ into_iter_items rest.new) }
    ensures ends { IfNone result (into_iter_items rest.new ≡ []) }
    ensures capacity { vec_capacity all.old ≤ vec_capacity all.new }
    ensures fewer { vec_len all.new + length (option_to_list result ++ into_iter_items rest.new) ≤ vec_len all.old + length (option_to_list next ++ into_iter_items rest.old) }
{
    let mut head = next;
    while let Some(keyed) = head {
        if key < keyed.key as u32 {
            return Some(keyed);
        }
        if key == keyed.key as u32 {
            return rest.next();
        }
        // There is room, so it is appended.
        let _done = all.push(keyed);
        head = rest.next();
    }
    None
}
