//! The numbers nearest to one, those at the ends, and numbers and ranges that are toggled or tested.
use crate::{check, ok};
use bit_roaring::RoaringSet;
use std::process::Abort;

// The set of some numbers.
fn set_of(rt: &(impl Abort + AllocGlobal), numbers: &[u32]) -> RoaringSet {
    let mut set = RoaringSet::new(rt.alloc());
    ok(rt, set.extend(numbers.iter().copied()));
    set
}

// That a set has exactly these ascending numbers.
fn has(rt: &(impl Abort + AllocGlobal), set: &RoaringSet, numbers: &[u32]) {
    let members = ok(rt, set.members(rt.alloc()));
    check(rt, members.as_slice() == numbers);
}

#[test]
fn numbers_at_least_one(rt: HostRuntime) {
    let set = set_of(&rt, &[2, 3, 65535, 70000]);
    check(&rt, set.next_at_least(0) == Some(2));
    check(&rt, set.next_at_least(3) == Some(3));
    check(&rt, set.next_at_least(4) == Some(65535));
    check(&rt, set.next_at_least(65536) == Some(70000));
    check(&rt, set.next_at_least(70001) == None);
}

#[test]
fn numbers_at_most_one(rt: HostRuntime) {
    let set = set_of(&rt, &[2, 3, 65535, 4294967295]);
    check(&rt, set.previous_at_most(1) == None);
    check(&rt, set.previous_at_most(2) == Some(2));
    check(&rt, set.previous_at_most(65534) == Some(3));
    check(&rt, set.previous_at_most(4294967294) == Some(65535));
    check(&rt, set.previous_at_most(4294967295) == Some(4294967295));
}

#[test]
fn numbers_are_popped(rt: HostRuntime) {
    let mut set = set_of(&rt, &[2, 65535, 70000]);
    check(&rt, ok(&rt, set.pop_first()) == Some(2));
    check(&rt, ok(&rt, set.pop_last()) == Some(70000));
    has(&rt, &set, &[65535]);
    check(&rt, ok(&rt, set.pop_last()) == Some(65535));
    check(&rt, ok(&rt, set.pop_first()) == None);
    check(&rt, ok(&rt, set.pop_last()) == None);
}

#[test]
fn a_number_is_toggled(rt: HostRuntime) {
    let mut set = set_of(&rt, &[2, 3]);
    check(&rt, !ok(&rt, set.toggle(3)));
    check(&rt, ok(&rt, set.toggle(70000)));
    has(&rt, &set, &[2, 70000]);
}

#[test]
fn a_range_is_toggled(rt: HostRuntime) {
    let mut set = set_of(&rt, &[2, 3, 65537]);
    ok(&rt, set.toggle_range(3..6));
    has(&rt, &set, &[2, 4, 5, 65537]);
    ok(&rt, set.toggle_range(65535..=65538));
    has(&rt, &set, &[2, 4, 5, 65535, 65536, 65538]);
    ok(&rt, set.toggle_range(9..9));
    check(&rt, set.len() == 6);
    ok(&rt, set.toggle_range(..));
    check(&rt, set.len() == 4294967290);
}

#[test]
fn a_range_is_whole(rt: HostRuntime) {
    let mut set = set_of(&rt, &[2, 3, 4, 7]);
    check(&rt, set.contains_range(2..5));
    check(&rt, !set.contains_range(2..=5));
    check(&rt, !set.contains_range(2..8));
    check(&rt, set.contains_range(9..9));
    ok(&rt, set.insert_range(65000..200000));
    check(&rt, set.contains_range(65000..=199999));
    check(&rt, !set.contains_range(64999..));
}

#[test]
fn a_range_has_a_number(rt: HostRuntime) {
    let set = set_of(&rt, &[2, 3, 4, 70000]);
    check(&rt, !set.any_in(5..70000));
    check(&rt, set.any_in(5..=70000));
    check(&rt, set.any_in(..3));
    check(&rt, !set.any_in(3..3));
    check(&rt, !set.any_in(70001..));
}
