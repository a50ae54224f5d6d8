//! Sets of numbers, each call once, and beside plain loops; callers in `callers.rt`.
mod bloom;
mod callers;
mod loops;
mod many;
mod merged;
mod ordered;
mod sorted;

use crate::{check, ok};
use bit_addressing::GrowError;
use bit_containers::BitList;
use bit_sets::NumberSet;
use std::process::Abort;

// That a set has these numbers, in this order.
fn has(rt: &(impl Abort + AllocGlobal), set: &NumberSet, numbers: &[usize]) {
    let members = ok(rt, set.members(rt.alloc()));
    check(rt, members.as_slice() == numbers);
}

// The set of these numbers.
fn set_of(rt: &(impl Abort + AllocGlobal), numbers: &[usize]) -> NumberSet {
    let mut set = NumberSet::new(rt.alloc());
    for number in numbers {
        let _new = ok(rt, set.insert(*number));
    }
    set
}

#[test]
fn sets_of_numbers(rt: HostRuntime) {
    let mut small = NumberSet::new(rt.alloc());
    check(&rt, ok(&rt, small.insert(3)));
    check(&rt, ok(&rt, small.insert(199)));
    check(&rt, !ok(&rt, small.insert(3)));
    check(&rt, small.bound() == 200);
    check(&rt, small.contains(199));
    check(&rt, !small.contains(0));
    check(&rt, !small.contains(200));
    check(&rt, small.len() == 2);
    check(&rt, small.remove(3));
    check(&rt, !small.remove(3));
    check(&rt, !small.remove(500));
    has(&rt, &small, &[199]);
}

#[test]
fn numbers_within_the_bound(rt: HostRuntime) {
    let mut set = ok(&rt, NumberSet::with_bound(rt.alloc(), 100));
    assert!(rt; set.bound() == 100);
    check(&rt, set.insert_within(99));
    ok(&rt, set.raise_bound(300));
    check(&rt, set.bound() == 300);
    has(&rt, &set, &[99]);
}

#[test]
fn numbers_toggled(rt: HostRuntime) {
    let mut set = set_of(&rt, &[2, 5]);
    check(&rt, !ok(&rt, set.toggle(5)));
    check(&rt, ok(&rt, set.toggle(70)));
    has(&rt, &set, &[2, 70]);
    check(&rt, set.toggle(usize::MAX) == Err(GrowError::TooLong));
}

#[test]
fn numbers_at_both_ends(rt: HostRuntime) {
    let mut set = set_of(&rt, &[2, 64, 65, 199]);
    check(
        &rt,
        [set.first(), set.last(), set.pop_first(), set.pop_last()]
            == [Some(2), Some(199), Some(2), Some(199)],
    );
    has(&rt, &set, &[64, 65]);
}

#[test]
fn no_numbers_at_the_ends(rt: HostRuntime) {
    let mut set = NumberSet::new(rt.alloc());
    check(&rt, [set.pop_first(), set.pop_last()] == [None; 2]);
}

#[test]
fn numbers_searched(rt: HostRuntime) {
    let set = set_of(&rt, &[2, 64, 199]);
    check(
        &rt,
        [set.next_at_least(3), set.next_at_least(200)] == [Some(64), None],
    );
    check(
        &rt,
        [
            set.previous_at_most(64),
            set.previous_at_most(usize::MAX),
            set.previous_at_most(1),
        ] == [Some(64), Some(199), None],
    );
}

#[test]
fn sets_from_slices(rt: HostRuntime) {
    let low = ok(&rt, NumberSet::from_numbers(rt.alloc(), 10, &[2, 7, 2]));
    check(&rt, low.bound() == 10);
    has(&rt, &low, &[2, 7]);
}

#[test]
fn sets_that_are_united(rt: HostRuntime) {
    let mut low = set_of(&rt, &[2, 7, 70]);
    let high = set_of(&rt, &[7, 150]);
    ok(&rt, low.union_with(&high));
    has(&rt, &low, &[2, 7, 70, 150]);
    check(&rt, high.is_subset(&low));
    check(&rt, low.is_superset(&high));
    check(&rt, !low.is_subset(&high));
}

#[test]
fn sets_in_place(rt: HostRuntime) {
    let high = set_of(&rt, &[7, 150]);
    let mut low = set_of(&rt, &[2, 7, 70, 150]);
    low.difference_with(&high);
    has(&rt, &low, &[2, 70]);
    check(&rt, low.is_disjoint(&high));
    ok(&rt, low.symmetric_difference_with(&high));
    has(&rt, &low, &[2, 7, 70, 150]);
    low.intersect_with(&high);
    has(&rt, &low, &[7, 150]);
    low.clear();
    check(&rt, low.is_empty());
}

#[test]
fn sets_of_bits(rt: HostRuntime) {
    let high = set_of(&rt, &[7, 150]);
    check(&rt, high.as_bits().len() == 151);
    let again = NumberSet::from_bits(high.into_bits());
    has(&rt, &again, &[7, 150]);
}

#[test]
fn numbers_in_a_loop(rt: HostRuntime) {
    let set = set_of(&rt, &[7, 150, 9]);
    let mut sum = 0;
    for number in &set {
        sum = number.max(sum);
    }
    check(&rt, sum == 150);
    check(&rt, set.iter().next_back() == Some(150));
}

#[test]
fn primes(rt: HostRuntime) {
    let primes = ok(&rt, NumberSet::primes(rt.alloc(), 30));
    has(&rt, &primes, &[2, 3, 5, 7, 11, 13, 17, 19, 23, 29]);
    for (bound, count) in [(1000, 168), (0, 0), (1, 0), (2, 0)] {
        let primes = ok(&rt, NumberSet::primes(rt.alloc(), bound));
        check(&rt, primes.len() == count);
    }
}

#[test]
fn a_bound_that_is_too_high(rt: HostRuntime) {
    let most = usize::MAX;
    let refused = NumberSet::with_bound(rt.alloc(), most);
    check(&rt, matches!(refused, Err(GrowError::TooLong)));
    let mut set = set_of(&rt, &[3]);
    check(&rt, set.insert(most) == Err(GrowError::TooLong));
    check(&rt, set.raise_bound(most) == Err(GrowError::TooLong));
    check(&rt, set.insert_range(0..most) == Err(GrowError::TooLong));
    has(&rt, &set, &[3]);
}
