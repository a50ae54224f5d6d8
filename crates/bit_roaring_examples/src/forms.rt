//! How blocks keep their numbers: as a list, as bits or as runs.
use crate::{check, ok};
use bit_blocks::{Block, Operation};
use std::alloc::Global;
use std::process::Abort;

// Whether a block is a list.
fn is_list(block: &Block) -> bool {
    block.as_list().is_some() && block.as_bits().is_none()
}

// Whether a block is bits.
fn is_bits(block: &Block) -> bool {
    block.as_list().is_none() && block.as_bits().is_some()
}

// Whether a block is runs.
fn is_runs(block: &Block) -> bool {
    block.as_runs().is_some()
}

// Every second number, `count` of them.
fn evens(rt: &impl Abort, alloc: Global, count: u16) -> Block {
    let mut block = Block::new(alloc);
    for half in 0..count {
        check(rt, ok(rt, block.insert(half.wrapping_mul(2))));
    }
    block
}

#[test]
fn one_number_makes_bits_and_a_list_again(rt: HostRuntime) {
    let mut block = evens(&rt, rt.alloc(), 4096);
    check(&rt, is_list(&block));
    check(&rt, ok(&rt, block.insert(9001)));
    check(&rt, is_bits(&block));
    check(&rt, ok(&rt, block.remove(9001)));
    check(&rt, is_list(&block));
}

#[test]
fn a_range_makes_bits_and_a_list_again(rt: HostRuntime) {
    let mut block = evens(&rt, rt.alloc(), 10);
    ok(&rt, block.insert_range(1000, 5086));
    check(&rt, is_bits(&block));
    ok(&rt, block.remove_range(1000, 1000));
    check(&rt, is_list(&block));
    ok(&rt, block.insert_range(1000, 5999));
    ok(&rt, block.remove_range(1000, 1099));
    check(&rt, is_bits(&block));
}

#[test]
fn a_range_is_runs_once_it_is_optimized(rt: HostRuntime) {
    let mut block = Block::new(rt.alloc());
    ok(&rt, block.insert_range(1000, 5999));
    check(&rt, is_bits(&block));
    ok(&rt, block.optimize());
    check(&rt, is_runs(&block));
    check(&rt, ok(&rt, block.remove(3000)));
    check(&rt, is_runs(&block));
    check(&rt, block.count_runs() == 2);
}

#[test]
fn numbers_apart_are_no_runs(rt: HostRuntime) {
    let mut block = evens(&rt, rt.alloc(), 4096);
    ok(&rt, block.optimize());
    check(&rt, is_list(&block));
    check(&rt, ok(&rt, block.insert(9001)));
    ok(&rt, block.optimize());
    check(&rt, is_bits(&block));
}

#[test]
fn runs_that_take_more_are_a_list_again(rt: HostRuntime) {
    let mut block = ok(&rt, Block::from_range(rt.alloc(), 7, 8));
    check(&rt, is_runs(&block));
    ok(&rt, block.optimize());
    check(&rt, is_list(&block));
}

#[test]
fn an_operation_makes_a_list_or_bits(rt: HostRuntime) {
    let left = evens(&rt, rt.alloc(), 4096);
    let right = ok(&rt, Block::from_range(rt.alloc(), 1, 8191));
    let both = ok(
        &rt,
        left.combined(rt.alloc(), &right, Operation::Intersection),
    );
    check(&rt, both.len() == 4095);
    check(&rt, is_list(&both));
    let either = ok(&rt, left.combined(rt.alloc(), &right, Operation::Union));
    check(&rt, is_bits(&either));
}

#[test]
fn a_range_leaves_runs_as_runs(rt: HostRuntime) {
    let mut block = ok(&rt, Block::from_range(rt.alloc(), 10, 19));
    ok(&rt, block.insert_range(40, 49));
    ok(&rt, block.insert_range(20, 30));
    check(&rt, is_runs(&block));
    check(&rt, block.count_runs() == 2);
    ok(&rt, block.remove_range(12, 13));
    check(&rt, is_runs(&block));
    check(&rt, block.count_runs() == 3);
    check(&rt, block.len() == 29);
    ok(&rt, block.insert_range(11, 48));
    check(&rt, block.count_runs() == 1);
    check(&rt, block.len() == 40);
}

#[test]
fn a_number_leaves_runs_as_runs(rt: HostRuntime) {
    let mut block = ok(&rt, Block::from_range(rt.alloc(), 10, 19));
    check(&rt, ok(&rt, block.insert(30)));
    check(&rt, ok(&rt, block.insert(20)));
    check(&rt, !ok(&rt, block.insert(20)));
    check(&rt, ok(&rt, block.remove(15)));
    check(&rt, !ok(&rt, block.remove(15)));
    check(&rt, is_runs(&block));
    check(&rt, block.count_runs() == 3);
    check(&rt, block.len() == 11);
}

#[test]
fn runs_that_no_longer_pay_are_a_list(rt: HostRuntime) {
    let mut block = ok(&rt, Block::from_range(rt.alloc(), 10, 18));
    check(&rt, ok(&rt, block.remove(12)));
    check(&rt, ok(&rt, block.remove(15)));
    check(&rt, is_runs(&block));
    check(&rt, ok(&rt, block.remove(17)));
    check(&rt, is_list(&block));
    check(&rt, block.len() == 6);
}

#[test]
fn runs_that_no_longer_pay_are_bits(rt: HostRuntime) {
    let mut block = ok(&rt, Block::from_range(rt.alloc(), 0, 9999));
    for third in 0..2047u16 {
        check(
            &rt,
            ok(&rt, block.remove(third.wrapping_mul(3).wrapping_add(1))),
        );
    }
    check(&rt, is_bits(&block));
    check(&rt, block.len() == 7953);
}

#[test]
fn runs_make_runs_where_they_pay(rt: HostRuntime) {
    let low = ok(&rt, Block::from_range(rt.alloc(), 10, 19));
    let high = ok(&rt, Block::from_range(rt.alloc(), 20, 29));
    let far = ok(&rt, Block::from_range(rt.alloc(), 28, 39));
    let union = ok(&rt, low.combined(rt.alloc(), &high, Operation::Union));
    check(&rt, is_runs(&union));
    check(&rt, union.count_runs() == 1);
    let apart = ok(
        &rt,
        union.combined(rt.alloc(), &far, Operation::SymmetricDifference),
    );
    check(&rt, is_runs(&apart));
    check(&rt, apart.count_runs() == 2);
    let both = ok(
        &rt,
        union.combined(rt.alloc(), &far, Operation::Intersection),
    );
    check(&rt, is_list(&both));
    check(&rt, both.len() == 2);
}

#[test]
fn blocks_of_one_form_are_compared(rt: HostRuntime) {
    let list = evens(&rt, rt.alloc(), 10);
    check(&rt, list.has_same_numbers(&evens(&rt, rt.alloc(), 10)));
    check(&rt, !list.has_same_numbers(&evens(&rt, rt.alloc(), 11)));
    let bits = evens(&rt, rt.alloc(), 5000);
    check(&rt, bits.has_same_numbers(&evens(&rt, rt.alloc(), 5000)));
    check(&rt, !bits.has_same_numbers(&list));
    let runs = ok(&rt, Block::from_range(rt.alloc(), 7, 90));
    let same = ok(&rt, Block::from_range(rt.alloc(), 7, 90));
    let longer = ok(&rt, Block::from_range(rt.alloc(), 7, 91));
    check(&rt, runs.has_same_numbers(&same));
    check(&rt, !runs.has_same_numbers(&longer));
}

#[test]
fn runs_are_compared_with_a_list(rt: HostRuntime) {
    let runs = ok(&rt, Block::from_range(rt.alloc(), 7, 8));
    let mut list = ok(&rt, Block::from_range(rt.alloc(), 7, 8));
    ok(&rt, list.optimize());
    check(&rt, runs.has_same_numbers(&list));
    check(&rt, ok(&rt, list.insert(9)));
    check(&rt, !runs.has_same_numbers(&list));
}
