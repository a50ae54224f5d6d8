//! Each call of a block once.
ghost use Rattle.bit_blocks.specs.Numbers.{Ascends};
ghost use Rattle.bit_blocks.specs.Runs.{AreRuns};

use crate::{check, ok};
use bit_blocks::{Block, Run};
use std::process::Abort;

// The block of ascending numbers.
pub fn block_of(rt: &(impl Abort + AllocGlobal), numbers: &[u16]) -> Block
    requires { Ascends numbers.now }
{
    let list = numbers.to_vec(rt.alloc());
    match list {
        Ok(list) => ok(rt, Block::from_list(list)),
        Err(_) => panic!(rt; "memory was refused"),
    }
}

// Whether a block has these numbers.
pub fn is_list(rt: &(impl Abort + AllocGlobal), block: &Block, numbers: &[u16]) -> bool {
    ok(rt, block.to_list(rt.alloc())).as_slice() == numbers
}

#[test]
fn four_numbers(rt: HostRuntime) {
    let block = block_of(&rt, [3, 7, 9, 65535].as_slice());
    check(&rt, block.len() == 4);
    check(&rt, !block.is_empty());
    check(&rt, block.contains(65535));
    check(&rt, !block.contains(4));
    check(&rt, block.rank(9) == 2);
    check(&rt, block.rank(65535) == 3);
    check(
        &rt,
        [block.select(0), block.select(3), block.select(4)] == [Some(3), Some(65535), None],
    );
    check(&rt, [block.first(), block.last()] == [Some(3), Some(65535)]);
}

#[test]
fn no_number(rt: HostRuntime) {
    let mut block = Block::new(rt.alloc());
    check(&rt, block.len() == 0);
    check(&rt, block.is_empty());
    check(&rt, !block.contains(0));
    check(&rt, block.rank(65535) == 0);
    check(
        &rt,
        [block.select(0), block.first(), block.last()] == [None, None, None],
    );
    check(&rt, !ok(&rt, block.remove(5)));
    check(&rt, block.iter().next() == None);
    check(&rt, block.iter().next_back() == None);
    check(&rt, is_list(&rt, &block, &[]));
}

#[test]
fn a_range_to_the_last_number(rt: HostRuntime) {
    let block = ok(&rt, Block::from_range(rt.alloc(), 65530, 65535));
    check(&rt, block.len() == 6);
    check(
        &rt,
        [block.first(), block.select(2), block.last()] == [Some(65530), Some(65532), Some(65535)],
    );
    check(&rt, block.rank(65533) == 3);
    check(&rt, !block.contains(65529));
}

#[test]
fn all_numbers_as_one_range(rt: HostRuntime) {
    let block = ok(&rt, Block::from_range(rt.alloc(), 0, 65535));
    check(&rt, block.len() == 65536);
    check(
        &rt,
        [block.select(65535), block.select(65536)] == [Some(65535), None],
    );
    check(&rt, block.rank(65535) == 65535);
}

// Whether the runs of a block are these.
fn has_runs(rt: &(impl Abort + AllocGlobal), block: &Block, runs: &[Run]) -> bool {
    ok(rt, block.to_runs(rt.alloc())).as_slice() == runs
}

#[test]
fn runs_of_six_numbers(rt: HostRuntime) {
    let block = block_of(&rt, [2, 3, 5, 7, 8, 9].as_slice());
    let runs = [
        Run { first: 2, last: 3 },
        Run { first: 5, last: 5 },
        Run { first: 7, last: 9 },
    ];
    check(&rt, has_runs(&rt, &block, runs.as_slice()));
}

#[test]
fn a_block_of_two_runs(rt: HostRuntime) {
    let runs = [
        Run { first: 2, last: 4 },
        Run {
            first: 65534,
            last: 65535,
        },
    ];
    match runs.to_vec(rt.alloc()) {
        Ok(list) => {
            let block = Block::from_runs(list);
            check(&rt, block.len() == 5);
            check(&rt, is_list(&rt, &block, &[2, 3, 4, 65534, 65535]));
            check(&rt, has_runs(&rt, &block, runs.as_slice()));
        }
        Err(_) => check(&rt, false),
    }
}

#[test]
fn bits_of_three_numbers(rt: HostRuntime) {
    let block = block_of(&rt, [0, 70, 65535].as_slice());
    match block.to_bits(rt.alloc()) {
        Ok(bits) => {
            check(&rt, bits.len() == 65536);
            check(&rt, bits.count_ones() == 3);
            check(
                &rt,
                [bits.get(0), bits.get(70), bits.get(65535)] == [Some(true); 3],
            );
            let back = ok(&rt, Block::from_bits(rt.alloc(), bits));
            check(&rt, is_list(&rt, &back, &[0, 70, 65535]));
        }
        Err(_) => check(&rt, false),
    }
}

#[test]
fn a_copy_stands_alone(rt: HostRuntime) {
    let mut block = block_of(&rt, [3, 7].as_slice());
    let copy = ok(&rt, block.clone());
    check(&rt, ok(&rt, block.insert(5)));
    check(&rt, ok(&rt, block.remove(7)));
    check(&rt, is_list(&rt, &copy, &[3, 7]));
    check(&rt, is_list(&rt, &block, &[3, 5]));
}
