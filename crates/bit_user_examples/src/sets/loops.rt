//! Sets beside plain loops over truth values.
use crate::sets::has;
use crate::{check, ok};
use bit_sets::NumberSet;
use std::process::Abort;

// The numbers below 200 that are multiples of 3 alone, one above multiples of 5 below 140 alone, or both, by a loop.
fn by_loop(
    rt: &(impl Abort + AllocGlobal),
    third_alone: bool,
    fifth_alone: bool,
    both: bool,
) -> Vec<usize> {
    let mut numbers = Vec::new(rt.alloc());
    for number in 0..200 {
        let kept = match (number % 3 == 0, (number % 5 == 1) & (number < 140)) {
            (true, true) => both,
            (true, false) => third_alone,
            (false, true) => fifth_alone,
            (false, false) => false,
        };
        if kept {
            ok(rt, numbers.push(number));
        }
    }
    numbers
}

// The multiples of 3 below 200.
fn thirds(rt: &(impl Abort + AllocGlobal)) -> NumberSet {
    let mut set = NumberSet::new(rt.alloc());
    for number in 0..200 {
        if number % 3 == 0 {
            let _new = ok(rt, set.insert(number));
        }
    }
    set
}

// The numbers one above a multiple of 5, below 140.
fn fifths(rt: &(impl Abort + AllocGlobal)) -> NumberSet {
    let mut set = NumberSet::new(rt.alloc());
    for number in 0..140 {
        if number % 5 == 1 {
            let _new = ok(rt, set.insert(number));
        }
    }
    set
}

#[test]
fn unions_by_loops(rt: HostRuntime) {
    let expected = by_loop(&rt, true, true, true);
    has(&rt, &(fifths(&rt) | thirds(&rt)), expected.as_slice());
}

#[test]
fn intersections_by_loops(rt: HostRuntime) {
    let expected = by_loop(&rt, false, false, true);
    has(&rt, &(thirds(&rt) & fifths(&rt)), expected.as_slice());
}

#[test]
fn differences_by_loops(rt: HostRuntime) {
    let expected = by_loop(&rt, true, false, false);
    has(&rt, &(thirds(&rt) - fifths(&rt)), expected.as_slice());
    let expected = by_loop(&rt, false, true, false);
    has(&rt, &(fifths(&rt) - thirds(&rt)), expected.as_slice());
}

#[test]
fn symmetric_differences_by_loops(rt: HostRuntime) {
    let expected = by_loop(&rt, true, true, false);
    has(&rt, &(fifths(&rt) ^ thirds(&rt)), expected.as_slice());
}

// That the numbers of a range are those that a loop finds.
fn range_has(rt: &(impl Abort + AllocGlobal), set: &NumberSet, start: usize, end: usize) {
    let mut expected = Vec::new(rt.alloc());
    for number in start..end.min(200) {
        let kept = set.contains(number);
        if kept {
            ok(rt, expected.push(number));
        }
    }
    let found: Vec<usize> = ok(rt, set.range(start..end).collect(rt.alloc()));
    check(rt, found.as_slice() == expected.as_slice());
    check(rt, set.count_in(start..end) == expected.len());
    check(rt, set.any_in(start..end) == !expected.is_empty());
}

#[test]
fn ranges_by_loops(rt: HostRuntime) {
    let set = fifths(&rt);
    for start in 0..70 {
        range_has(&rt, &set, start, start + 3);
        range_has(&rt, &set, start, 136);
        range_has(&rt, &set, 70 + start, 150);
    }
}

// That the order of two sets is that of the lists of their numbers.
fn ordered_as_lists(rt: &(impl Abort + AllocGlobal), set: &NumberSet, other: &NumberSet) {
    let numbers = ok(rt, set.members(rt.alloc()));
    let others = ok(rt, other.members(rt.alloc()));
    check(rt, set.cmp(other) == numbers.cmp(&others));
    check(rt, (set == other) == (numbers == others));
}

// The set of the places of the ones of a number.
fn places(rt: &(impl Abort + AllocGlobal), number: usize) -> NumberSet {
    let mut set = NumberSet::new(rt.alloc());
    for place in 0..4 {
        if number >> place & 1 == 1 {
            let _new = ok(rt, set.insert(place * 40));
        }
    }
    set
}

#[test]
fn orders_of_small_sets(rt: HostRuntime) {
    for number in 0..16 {
        for other in 0..16 {
            ordered_as_lists(&rt, &places(&rt, number), &places(&rt, other));
        }
    }
}
