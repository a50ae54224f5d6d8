//! Sets of many blocks, changed where they stand.
use crate::{check, ok};
use bit_roaring::{Operation, RoaringSet};
use std::process::Abort;

// Whether a step divides a key.
fn divides(step: u32, key: u32) -> bool {
    step != 0 && key % step == 0
}

// The number 7 of each block below 600 whose key a step divides.
fn sevens(rt: &(impl Abort + AllocGlobal), step: u32) -> RoaringSet {
    let mut set = RoaringSet::new(rt.alloc());
    for key in 0..600u32 {
        if divides(step, key) {
            check(
                rt,
                ok(rt, set.insert(key.wrapping_mul(65536).wrapping_add(7))),
            );
        }
    }
    set
}

// Whether a number is kept that is in the left set, or not, and in the right, or not.
fn keeps(operation: Operation, left: bool, right: bool) -> bool {
    match operation {
        Operation::Union => left || right,
        Operation::Intersection => left && right,
        Operation::Difference => left && !right,
        Operation::SymmetricDifference => left != right,
    }
}

// Whether a set is what an operation makes of two of these sets: as many numbers, and each of them.
fn is_made(set: &RoaringSet, operation: Operation, left: u32, right: u32, count: u64) -> bool {
    for key in 0..600u32 {
        let is_in = keeps(operation, divides(left, key), divides(right, key));
        if set.contains(key.wrapping_mul(65536).wrapping_add(7)) != is_in {
            return false;
        }
    }
    set.len() == count
}

// Changes one of these sets by another.
fn change(
    rt: &(impl Abort + AllocGlobal),
    operation: Operation,
    left: u32,
    right: u32,
    count: u64,
) {
    let mut set = sevens(rt, left);
    ok(rt, set.combine_with(&sevens(rt, right), operation));
    check(rt, is_made(&set, operation, left, right, count));
}

#[test]
fn many_blocks_come(rt: HostRuntime) {
    change(&rt, Operation::Union, 2, 3, 400);
    change(&rt, Operation::Union, 3, 2, 400);
    change(&rt, Operation::Union, 600, 1, 600);
}

#[test]
fn many_blocks_go(rt: HostRuntime) {
    change(&rt, Operation::Difference, 2, 3, 200);
    change(&rt, Operation::Difference, 3, 2, 100);
    change(&rt, Operation::Difference, 200, 1, 0);
}

#[test]
fn many_blocks_come_and_go(rt: HostRuntime) {
    change(&rt, Operation::SymmetricDifference, 2, 3, 300);
    change(&rt, Operation::SymmetricDifference, 1, 2, 300);
}

#[test]
fn few_blocks_come_and_go(rt: HostRuntime) {
    change(&rt, Operation::Union, 2, 299, 301);
    change(&rt, Operation::Difference, 2, 299, 298);
    change(&rt, Operation::SymmetricDifference, 2, 299, 299);
}
