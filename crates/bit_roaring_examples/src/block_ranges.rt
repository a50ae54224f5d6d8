//! Ranges of numbers in a block, and its runs counted, in each form.
use crate::blocks::{block_of, is_list};
use crate::{check, ok};
use bit_blocks::{Block, Run};
use std::process::Abort;

// The even numbers below `end`.
fn evens(rt: &(impl Abort + AllocGlobal), end: u16) -> Block {
    let mut block = Block::new(rt.alloc());
    for k in 0..end / 2 {
        check(rt, ok(rt, block.insert(2 * k)));
    }
    block
}

// How many numbers a range has, from both ends in turn, and whether each is in the block and the range.
fn count_of(rt: &(impl Abort + AllocGlobal), block: &Block, first: u16, last: u16) -> usize {
    let mut left = block.range(first, last);
    let mut count = 0usize;
    for _ in 0..65536 {
        if let Some(number) = left.next() {
            check(
                rt,
                block.contains(number) && first <= number && number <= last,
            );
            count = count.wrapping_add(1);
        }
        if let Some(number) = left.next_back() {
            check(
                rt,
                block.contains(number) && first <= number && number <= last,
            );
            count = count.wrapping_add(1);
        }
    }
    count
}

#[test]
fn a_range_of_a_list(rt: HostRuntime) {
    let block = block_of(&rt, [3, 7, 9, 65535].as_slice());
    let mut left = block.range(4, 65535);
    check(&rt, left.next() == Some(7));
    check(&rt, left.next_back() == Some(65535));
    check(&rt, left.next_back() == Some(9));
    check(&rt, left.next() == None);
    check(&rt, block.range(9, 7).next() == None);
    check(&rt, block.range(10, 65534).next() == None);
    check(&rt, block.range(7, 7).next() == Some(7));
}

#[test]
fn a_range_of_bits(rt: HostRuntime) {
    let block = evens(&rt, 20000);
    check(&rt, block.range(101, 110).next() == Some(102));
    check(&rt, block.range(101, 110).next_back() == Some(110));
    check(&rt, count_of(&rt, &block, 101, 110) == 5);
    check(&rt, count_of(&rt, &block, 0, 65535) == 10000);
    check(&rt, count_of(&rt, &block, 19998, 65535) == 1);
    check(&rt, count_of(&rt, &block, 1, 1) == 0);
    check(&rt, block.count_runs() == 10000);
}

#[test]
fn a_range_of_runs(rt: HostRuntime) {
    let runs = [
        Run { first: 2, last: 4 },
        Run { first: 9, last: 19 },
        Run {
            first: 30,
            last: 39,
        },
        Run {
            first: 65530,
            last: 65535,
        },
    ];
    let list = runs.to_vec(rt.alloc());
    match list {
        Ok(list) => {
            let block = Block::from_runs(list);
            check(&rt, block.count_runs() == 4);
            check(&rt, count_of(&rt, &block, 0, 65535) == 30);
            check(&rt, count_of(&rt, &block, 3, 65530) == 24);
            check(&rt, count_of(&rt, &block, 10, 12) == 3);
            check(&rt, count_of(&rt, &block, 5, 8) == 0);
            check(&rt, count_of(&rt, &block, 5, 9) == 1);
            check(&rt, count_of(&rt, &block, 19, 30) == 2);
            check(&rt, count_of(&rt, &block, 4, 9) == 2);
            check(&rt, count_of(&rt, &block, 40, 65529) == 0);
            check(&rt, count_of(&rt, &block, 65535, 65535) == 1);
        }
        Err(_) => check(&rt, false),
    }
}

#[test]
fn ranges_put_into_a_list(rt: HostRuntime) {
    let mut block = block_of(&rt, [3, 7, 9, 65535].as_slice());
    ok(&rt, block.insert_range(5, 8));
    check(&rt, is_list(&rt, &block, &[3, 5, 6, 7, 8, 9, 65535]));
    check(&rt, block.count_runs() == 3);
    ok(&rt, block.remove_range(6, 65534));
    check(&rt, is_list(&rt, &block, &[3, 5, 65535]));
    ok(&rt, block.insert_range(0, 65535));
    check(&rt, block.len() == 65536);
    check(&rt, block.count_runs() == 1);
    ok(&rt, block.remove_range(0, 65534));
    check(&rt, is_list(&rt, &block, &[65535]));
    ok(&rt, block.remove_range(0, 65535));
    check(&rt, block.is_empty());
    check(&rt, block.count_runs() == 0);
}

#[test]
fn ranges_put_into_bits(rt: HostRuntime) {
    let mut block = evens(&rt, 20000);
    ok(&rt, block.insert_range(100, 199));
    check(&rt, block.len() == 10050);
    check(&rt, block.count_runs() == 9950);
    ok(&rt, block.insert_range(60000, 65535));
    check(&rt, block.len() == 15586);
    check(&rt, block.count_runs() == 9951);
    ok(&rt, block.remove_range(1, 19997));
    check(&rt, block.len() == 5538);
    check(&rt, block.count_runs() == 3);
    ok(&rt, block.remove_range(60000, 65531));
    check(
        &rt,
        is_list(&rt, &block, &[0, 19998, 65532, 65533, 65534, 65535]),
    );
}
