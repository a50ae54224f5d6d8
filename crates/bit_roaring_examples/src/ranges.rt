//! Ranges of numbers put into a set, taken out and counted, and iteration from both ends.
use crate::{check, ok};
use bit_roaring::RoaringSet;
use std::ops::Bound;
use std::process::Abort;

// The set of some numbers.
fn set_of(rt: &(impl Abort + AllocGlobal), numbers: &[u32]) -> RoaringSet {
    let mut set = RoaringSet::new(rt.alloc());
    ok(rt, set.extend(numbers.iter().copied()));
    set
}

// Whether a set has exactly these ascending numbers, from the front and from the back.
fn is_set(set: &RoaringSet, numbers: &[u32]) -> bool {
    let mut left = set.iter();
    for &number in numbers {
        if left.next() != Some(number) {
            return false;
        }
    }
    let mut back = set.iter();
    for &number in numbers.iter().rev() {
        if back.next_back() != Some(number) {
            return false;
        }
    }
    left.next() == None && back.next_back() == None
}

#[test]
fn a_range_is_put_in(rt: HostRuntime) {
    let mut set = set_of(&rt, &[2, 3]);
    ok(&rt, set.insert_range(3..6));
    check(&rt, is_set(&set, &[2, 3, 4, 5]));
    ok(&rt, set.insert_range(9..9));
    ok(&rt, set.insert_range(65535..=65536));
    check(&rt, is_set(&set, &[2, 3, 4, 5, 65535, 65536]));
    ok(&rt, set.insert_range(4294967294..));
    check(
        &rt,
        is_set(&set, &[2, 3, 4, 5, 65535, 65536, 4294967294, 4294967295]),
    );
}

#[test]
fn a_range_is_taken_out(rt: HostRuntime) {
    let mut set = set_of(&rt, &[2, 3, 4, 7, 65536, 4294967295]);
    ok(&rt, set.remove_range(3..=4));
    check(&rt, is_set(&set, &[2, 7, 65536, 4294967295]));
    ok(&rt, set.remove_range(7..65537));
    check(&rt, is_set(&set, &[2, 4294967295]));
    ok(
        &rt,
        set.remove_range((Bound::Excluded(2), Bound::Unbounded)),
    );
    check(&rt, is_set(&set, &[2]));
    ok(&rt, set.remove_range(..));
    check(&rt, set.is_empty());
}

#[test]
fn a_range_over_three_blocks(rt: HostRuntime) {
    let mut set = set_of(&rt, &[60000, 70000, 200000]);
    ok(&rt, set.insert_range(65000..131073));
    check(&rt, set.len() == 66075);
    check(&rt, [set.rank(65000), set.rank(131073)] == [1, 66074]);
    check(&rt, set.select(66074) == Some(200000));
    ok(&rt, set.remove_range(65536..131072));
    check(&rt, set.len() == 539);
    check(&rt, set.last() == Some(200000));
    check(&rt, set.count_in(131072..=131072) == 1);
}

#[test]
fn numbers_of_a_range_are_counted(rt: HostRuntime) {
    let set = set_of(&rt, &[2, 3, 4, 7, 65536, 4294967295]);
    check(&rt, [set.count_in(3..8), set.count_in(..=3)] == [3, 2]);
    check(&rt, [set.count_in(..), set.count_in(5..5)] == [6, 0]);
    check(&rt, set.count_in(7..) == 3);
    check(&rt, set.count_in(7..4294967295) == 2);
}

#[test]
fn both_ends_meet(rt: HostRuntime) {
    let set = set_of(&rt, &[1, 5, 65537, 131072]);
    let mut left = set.iter();
    check(&rt, left.next() == Some(1));
    check(&rt, left.next_back() == Some(131072));
    check(&rt, left.next_back() == Some(65537));
    check(&rt, left.next_back() == Some(5));
    check(&rt, left.next_back() == None);
    check(&rt, left.next() == None);
}

// Whether a set has exactly these numbers in a range of two ends, from the front and from the back.
fn is_within(set: &RoaringSet, first: u32, last: u32, numbers: &[u32]) -> bool {
    let mut left = set.range(first..=last);
    for &number in numbers {
        if left.next() != Some(number) {
            return false;
        }
    }
    let mut back = set.range(first..=last);
    for &number in numbers.iter().rev() {
        if back.next_back() != Some(number) {
            return false;
        }
    }
    left.next() == None && back.next_back() == None
}

#[test]
fn numbers_within_a_range(rt: HostRuntime) {
    let set = set_of(&rt, &[2, 3, 65535, 65536, 70000, 200000, 4294967295]);
    check(&rt, is_within(&set, 3, 3, &[3]));
    check(&rt, is_within(&set, 3, 65534, &[3]));
    check(&rt, is_within(&set, 3, 65536, &[3, 65535, 65536]));
    check(&rt, is_within(&set, 65536, 200000, &[65536, 70000, 200000]));
    check(
        &rt,
        is_within(
            &set,
            0,
            4294967295,
            &[2, 3, 65535, 65536, 70000, 200000, 4294967295],
        ),
    );
    check(&rt, is_within(&set, 200001, 4294967294, &[]));
    check(&rt, set.range(70001..).next() == Some(200000));
    check(&rt, set.range(..65535).next_back() == Some(3));
    check(&rt, set.range(7..7).next() == None);
}
