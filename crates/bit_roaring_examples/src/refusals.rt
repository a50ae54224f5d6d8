//! Sets whose changes are refused memory: each is as it was. Any request may be refused, those that make the sets too.
use crate::check;
use bit_blocks::Block;
use bit_portable::ReadError;
use bit_roaring::{Operation, RoaringSet};
use std::alloc::{AllocError, Global};
use std::process::Abort;

// The number 7 of each of the first `blocks` upper halves.
fn sevens(alloc: Global, blocks: u32) -> Result<RoaringSet, AllocError> {
    let mut set = RoaringSet::new(alloc);
    for key in 0..blocks {
        set.insert(key.wrapping_mul(65536).wrapping_add(7))?;
    }
    Ok(set)
}

// Whether a set has exactly the number 7 of the first `blocks` upper halves.
fn is_sevens(set: &RoaringSet, blocks: u32) -> bool {
    for key in 0..blocks {
        if !set.contains(key.wrapping_mul(65536).wrapping_add(7)) {
            return false;
        }
    }
    set.len() == blocks as u64
}

// That a set of `blocks` blocks has `made` numbers after a change, and is as it was where that was refused.
fn is_changed(
    rt: &impl Abort,
    outcome: Result<(), AllocError>,
    set: &RoaringSet,
    blocks: u32,
    made: u64,
) {
    match outcome {
        Ok(()) => check(rt, set.len() == made),
        Err(_) => check(rt, is_sevens(set, blocks)),
    }
}

// Changes a set of `left` blocks by one of `right` blocks, which makes one of `made` blocks.
fn change(rt: &(impl Abort + AllocGlobal), operation: Operation, left: u32, right: u32, made: u64) {
    let Ok(mut set) = sevens(rt.alloc(), left) else {
        return;
    };
    let Ok(other) = sevens(rt.alloc(), right) else {
        return;
    };
    let outcome = set.combine_with(&other, operation);
    is_changed(rt, outcome, &set, left, made);
}

#[test]
fn refused_unions(rt: HostRuntime) {
    change(&rt, Operation::Union, 3, 9, 9);
}

#[test]
fn refused_differences(rt: HostRuntime) {
    change(&rt, Operation::Difference, 9, 3, 6);
}

#[test]
fn refused_symmetric_differences(rt: HostRuntime) {
    change(&rt, Operation::SymmetricDifference, 9, 12, 3);
}

#[test]
fn refused_intersections(rt: HostRuntime) {
    change(&rt, Operation::Intersection, 9, 3, 3);
}

#[test]
fn refused_numbers(rt: HostRuntime) {
    let Ok(mut set) = sevens(rt.alloc(), 2) else {
        return;
    };
    match set.insert(9 * 65536) {
        Ok(new) => check(&rt, new && set.len() == 3),
        Err(_) => check(&rt, is_sevens(&set, 2)),
    }
}

#[test]
fn refused_numbers_in_runs(rt: HostRuntime) {
    let Ok(mut block) = Block::from_range(rt.alloc(), 10, 19) else {
        return;
    };
    match block.remove(15) {
        Ok(old) => check(&rt, old && block.len() == 9),
        Err(_) => check(&rt, block.contains(15) && block.len() == 10),
    }
}

#[test]
fn refused_ranges(rt: HostRuntime) {
    let Ok(mut set) = sevens(rt.alloc(), 2) else {
        return;
    };
    let outcome = set.insert_range(10..=200000);
    is_changed(&rt, outcome, &set, 2, 199992);
}

#[test]
fn refused_toggles(rt: HostRuntime) {
    let Ok(mut set) = sevens(rt.alloc(), 2) else {
        return;
    };
    let outcome = set.toggle_range(7..=200000);
    is_changed(&rt, outcome, &set, 2, 199992);
}

// The last number of 4097 in a block makes bits a list.
#[test]
fn refused_pops(rt: HostRuntime) {
    let Ok(mut set) = (0..4097u32).collect::<RoaringSet>(rt.alloc()) else {
        return;
    };
    match set.pop_last() {
        Ok(popped) => check(&rt, popped == Some(4096) && set.len() == 4096),
        Err(_) => check(&rt, set.contains(4096) && set.len() == 4097),
    }
}

#[test]
fn refused_members(rt: HostRuntime) {
    let Ok(set) = sevens(rt.alloc(), 2) else {
        return;
    };
    match set.members(rt.alloc()) {
        Ok(members) => check(&rt, members.as_slice() == [7, 65543].as_slice()),
        Err(_) => check(&rt, is_sevens(&set, 2)),
    }
}

#[test]
fn refused_runs(rt: HostRuntime) {
    let Ok(mut set) = sevens(rt.alloc(), 2) else {
        return;
    };
    let outcome = set.optimize();
    is_changed(&rt, outcome, &set, 2, 2);
}

#[test]
fn refused_bytes(rt: HostRuntime) {
    let Ok(set) = sevens(rt.alloc(), 3) else {
        return;
    };
    let Ok(bytes) = set.to_bytes(true) else {
        return;
    };
    match RoaringSet::from_bytes(rt.alloc(), &bytes) {
        Ok(back) => check(&rt, back == set),
        Err(ReadError::Memory) => {}
        Err(ReadError::Fault(_)) => check(&rt, false),
    }
}

#[test]
fn refused_collections(rt: HostRuntime) {
    match [3u32, 1, 3]
        .iter()
        .copied()
        .collect::<RoaringSet>(rt.alloc())
    {
        Ok(set) => check(&rt, set.len() == 2),
        Err(_) => {}
    }
}
