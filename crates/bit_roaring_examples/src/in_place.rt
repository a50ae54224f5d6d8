//! Blocks that are kept as bits, changed where they stand.
use crate::{check, ok};
use bit_blocks::{Block, Operation};
use bit_roaring::RoaringSet;
use std::process::Abort;

// The even numbers below 10000 of each of some blocks.
fn evens(rt: &(impl Abort + AllocGlobal), blocks: u32) -> RoaringSet {
    let mut set = RoaringSet::new(rt.alloc());
    for key in 0..blocks {
        let first = key.wrapping_mul(65536);
        for half in 0..5000u32 {
            let number = first.wrapping_add(half.wrapping_mul(2));
            check(rt, ok(rt, set.insert(number)));
        }
    }
    set
}

// Three numbers, each of a block of its own.
fn three(rt: &(impl Abort + AllocGlobal), first: u32, second: u32, third: u32) -> RoaringSet {
    let mut set = RoaringSet::new(rt.alloc());
    check(rt, ok(rt, set.insert(first)));
    check(rt, ok(rt, set.insert(second)));
    check(rt, ok(rt, set.insert(third)));
    set
}

// Changes three blocks of 5000 numbers by 1, 65540 and 141071, of which they have the second. Then they have `count` numbers,
// the first and the third where `has_new` says so, and the second where `has_old` does.
fn change(
    rt: &(impl Abort + AllocGlobal),
    operation: Operation,
    count: u64,
    has_new: bool,
    has_old: bool,
) {
    let mut set = evens(rt, 3);
    ok(
        rt,
        set.combine_with(&three(rt, 1, 65540, 141071), operation),
    );
    check(rt, set.len() == count);
    check(rt, set.contains(1) == has_new);
    check(rt, set.contains(65540) == has_old);
    check(rt, set.contains(141071) == has_new);
    check(rt, set.contains(65542));
}

#[test]
fn bits_gain_numbers(rt: HostRuntime) {
    change(&rt, Operation::Union, 15002, true, true);
}

#[test]
fn bits_lose_numbers(rt: HostRuntime) {
    change(&rt, Operation::Difference, 14999, false, false);
}

#[test]
fn bits_gain_and_lose_numbers(rt: HostRuntime) {
    change(&rt, Operation::SymmetricDifference, 15001, true, false);
}

// The last of the blocks is a list, so none is changed where it stands.
#[test]
fn a_list_among_bits(rt: HostRuntime) {
    let mut set = evens(&rt, 2);
    check(&rt, ok(&rt, set.insert(131075)));
    ok(&rt, set.union_with(&three(&rt, 1, 65537, 131073)));
    check(&rt, set.len() == 10004);
    check(&rt, set.contains(1));
    check(&rt, set.contains(131073));
}

// The last of the blocks is not there: a union puts it in, and a difference leaves it out.
#[test]
fn a_block_after_bits(rt: HostRuntime) {
    let mut set = evens(&rt, 2);
    ok(&rt, set.union_with(&three(&rt, 1, 65537, 131073)));
    check(&rt, set.len() == 10003);
    check(&rt, set.contains(131073));
    ok(&rt, set.difference_with(&three(&rt, 1, 65537, 196609)));
    check(&rt, set.len() == 10001);
    check(&rt, !set.contains(1));
}

// More new blocks than are put in one at a time.
#[test]
fn many_blocks_after_bits(rt: HostRuntime) {
    let mut set = evens(&rt, 1);
    let mut few = three(&rt, 1, 65537, 131073);
    ok(&rt, few.union_with(&three(&rt, 196609, 262145, 327681)));
    ok(&rt, set.symmetric_difference_with(&few));
    check(&rt, set.len() == 5006);
    check(&rt, set.contains(1));
    check(&rt, set.contains(327681));
}

// As few numbers stay as a list has, so the block is not changed where it stands.
#[test]
fn bits_become_a_list(rt: HostRuntime) {
    let mut set = RoaringSet::new(rt.alloc());
    for half in 0..4098u32 {
        check(&rt, ok(&rt, set.insert(half.wrapping_mul(2))));
    }
    ok(&rt, set.difference_with(&three(&rt, 0, 2, 4)));
    check(&rt, set.len() == 4095);
    check(&rt, set.first() == Some(6));
}

// Puts 1 and 2 into a block, as bits. Returns whether the block is kept so, and has this many numbers then.
fn gains(block: Block, count: usize) -> bool {
    let Ok(mut bits) = block.into_bits() else {
        return false;
    };
    if !bits.can_change(&[1, 2]) {
        return false;
    }
    bits.change(&[1, 2], Operation::Union);
    let block = Block::from_bit_block(bits);
    block.len() == count && block.contains(1)
}

#[test]
fn a_block_is_changed_as_bits(rt: HostRuntime) {
    let mut block = Block::new(rt.alloc());
    for half in 0..5000u16 {
        check(&rt, ok(&rt, block.insert(half.wrapping_mul(2))));
    }
    check(&rt, gains(block, 5001));
}

#[test]
fn a_block_that_is_not_bits_is_given_back(rt: HostRuntime) {
    let block = ok(&rt, Block::from_range(rt.alloc(), 3, 9));
    match block.into_bits() {
        Ok(_) => check(&rt, false),
        Err(block) => check(&rt, block.len() == 7),
    }
}
