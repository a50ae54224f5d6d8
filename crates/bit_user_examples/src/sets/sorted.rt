//! Each call of sorted numbers once.
mod callers;

use crate::{check, ok};
use bit_sets::{SortedError, SortedNumbers};
use std::process::Abort;

#[test]
fn refused_lists(rt: HostRuntime) {
    let alloc = rt.alloc();
    let refused = SortedNumbers::from_slice(alloc, [2, 9, 3, 1].as_slice()).err();
    check(&rt, refused == Some(SortedError::Descends(2)));
    let refused = SortedNumbers::from_slice(alloc, [1, 0].as_slice()).err();
    check(&rt, refused == Some(SortedError::Descends(1)));
    let list = Vec::from_array(alloc, [4, 4, 3, 9]).expect(&rt, "memory");
    let refused = SortedNumbers::from_numbers(alloc, list).err();
    check(&rt, refused == Some(SortedError::Descends(2)));
}

#[test]
fn four_numbers(rt: HostRuntime) {
    let list = Vec::from_array(rt.alloc(), [2, 3, 9, 9]).expect(&rt, "memory");
    let numbers = SortedNumbers::from_numbers(rt.alloc(), list)
        .ok()
        .expect(&rt, "they ascend");
    check(&rt, !numbers.is_empty());
    assert!(rt; numbers.len() == 4);
    check(&rt, numbers.get(1) == Some(3));
    check(&rt, numbers.iter().len() == 4);
    check(&rt, numbers.iter().next() == Some(2));
    check(&rt, numbers.next_at_least(4) == Some((2, 9)));
    check(&rt, numbers.next_at_least(10) == None);
    check(&rt, numbers.contains(3));
    check(&rt, !numbers.contains(4));
    check(&rt, numbers.size_in_bits() == 12);
}

// The numbers 2, 3, 9 and 9.
fn four(rt: &(impl Abort + AllocGlobal)) -> SortedNumbers {
    ok(rt, SortedNumbers::from_slice(rt.alloc(), &[2, 3, 9, 9]))
}

#[test]
fn four_numbers_searched(rt: HostRuntime) {
    let numbers = four(&rt);
    check(&rt, [numbers.first(), numbers.last()] == [Some(2), Some(9)]);
    check(&rt, numbers.previous_at_most(4) == Some((1, 3)));
    check(&rt, numbers.previous_at_most(9) == Some((3, 9)));
    check(&rt, numbers.previous_at_most(u64::MAX) == Some((3, 9)));
    check(&rt, numbers.previous_at_most(1).is_none());
    check(&rt, numbers.rank(9) == 2);
    check(&rt, numbers.rank(0) == 0);
    check(&rt, numbers.rank(u64::MAX) == 4);
}

#[test]
fn four_numbers_from_both_ends(rt: HostRuntime) {
    let numbers = four(&rt);
    let mut left = numbers.iter_from(1);
    check(&rt, left.len() == 3);
    check(
        &rt,
        [
            left.next_back(),
            left.next(),
            left.next_back(),
            left.next(),
            left.next_back(),
            numbers.iter_from(9).next(),
            numbers.iter().next_back(),
        ] == [Some(9), Some(3), Some(9), None, None, None, Some(9)],
    );
}

#[test]
fn four_numbers_copied(rt: HostRuntime) {
    let numbers = four(&rt);
    let copy = ok(&rt, numbers.clone());
    check(&rt, copy == numbers);
}

#[test]
fn three_of_four_numbers(rt: HostRuntime) {
    let others = ok(&rt, SortedNumbers::from_slice(rt.alloc(), &[2, 3, 9]));
    check(&rt, others != four(&rt));
}

#[test]
fn four_numbers_shown(rt: HostRuntime) {
    let numbers = four(&rt);
    let text = ok(&rt, format!(in rt.alloc(); "{numbers:?}"));
    check(&rt, text.as_str() == "[2, 3, 9, 9]");
}

#[test]
fn four_numbers_in_a_loop(rt: HostRuntime) {
    let numbers = four(&rt);
    let mut sum = 0;
    for number in &numbers {
        sum = number.max(sum);
    }
    check(&rt, sum == 9);
}
