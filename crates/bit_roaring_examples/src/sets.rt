//! Each call of a set of numbers of 32 bits once.
use crate::{check, ok};
use bit_blocks::Operation;
use bit_portable::{Fault, ReadError};
use bit_roaring::RoaringSet;
use std::process::Abort;

// The set of some numbers.
fn set_of(rt: &(impl Abort + AllocGlobal), numbers: &[u32]) -> RoaringSet {
    let mut set = RoaringSet::new(rt.alloc());
    for &number in numbers {
        check(rt, ok(rt, set.insert(number)));
    }
    set
}

// Whether a set has exactly these ascending numbers.
fn is_set(set: &RoaringSet, numbers: &[u32]) -> bool {
    let mut place = 0u64;
    for &number in numbers {
        if set.select(place) != Some(number) || !set.contains(number) {
            return false;
        }
        place = place.wrapping_add(1);
    }
    set.len() == place && set.select(place) == None
}

// Numbers of three blocks, at the ends of these.
fn left(rt: &(impl Abort + AllocGlobal)) -> RoaringSet {
    set_of(rt, &[65535, 4294967295, 0, 65536, 7])
}

// Numbers of two blocks, of which one is a block of the other set.
fn right(rt: &(impl Abort + AllocGlobal)) -> RoaringSet {
    set_of(rt, &[131072, 65535, 8, 7])
}

#[test]
fn five_numbers(rt: HostRuntime) {
    let set = left(&rt);
    check(&rt, is_set(&set, &[0, 7, 65535, 65536, 4294967295]));
    check(&rt, set.len() == 5);
    check(&rt, !set.is_empty());
    check(&rt, !set.contains(131072));
    check(&rt, [set.rank(65535), set.rank(65536)] == [2, 3]);
    check(&rt, set.rank(4294967295) == 4);
    check(
        &rt,
        [set.first(), set.last()] == [Some(0), Some(4294967295)],
    );
}

#[test]
fn numbers_come_and_go(rt: HostRuntime) {
    let mut set = left(&rt);
    check(&rt, !ok(&rt, set.insert(65536)));
    check(&rt, ok(&rt, set.remove(65536)));
    check(&rt, !ok(&rt, set.remove(65536)));
    check(&rt, ok(&rt, set.remove(0)));
    check(&rt, is_set(&set, &[7, 65535, 4294967295]));
    check(&rt, ok(&rt, set.insert(65537)));
    check(&rt, is_set(&set, &[7, 65535, 65537, 4294967295]));
    set.clear();
    check(&rt, set.is_empty());
    check(&rt, [set.first(), set.last()] == [None, None]);
}

#[test]
fn sets_are_combined(rt: HostRuntime) {
    let (a, b) = (left(&rt), right(&rt));
    let union = ok(&rt, a.union(&b));
    let all = [0, 7, 8, 65535, 65536, 131072, 4294967295];
    check(&rt, is_set(&union, all.as_slice()));
    let both = ok(&rt, a.intersection(&b));
    check(&rt, is_set(&both, &[7, 65535]));
    let left_alone = ok(&rt, a.difference(&b));
    check(&rt, is_set(&left_alone, &[0, 65536, 4294967295]));
    let one_alone = ok(&rt, a.symmetric_difference(&b));
    check(&rt, is_set(&one_alone, &[0, 8, 65536, 131072, 4294967295]));
    let right_alone = ok(&rt, b.combined(&a, Operation::Difference));
    check(&rt, is_set(&right_alone, &[8, 131072]));
}

#[test]
fn a_set_is_combined_in_place(rt: HostRuntime) {
    let (mut a, b) = (left(&rt), right(&rt));
    ok(&rt, a.combine_with(&b, Operation::Intersection));
    check(&rt, is_set(&a, &[7, 65535]));
    ok(&rt, a.combine_with(&b, Operation::SymmetricDifference));
    check(&rt, is_set(&a, &[8, 131072]));
}

#[test]
fn sets_are_counted(rt: HostRuntime) {
    let (a, b) = (left(&rt), right(&rt));
    check(&rt, a.count_intersection(&b) == 2);
    check(
        &rt,
        [a.count_difference(&b), b.count_difference(&a)] == [3, 2],
    );
    check(&rt, a.count_union(&b) == 7);
    check(&rt, a.count_symmetric_difference(&b) == 5);
}

#[test]
fn sets_are_compared(rt: HostRuntime) {
    let (a, b) = (left(&rt), right(&rt));
    let none = RoaringSet::new(rt.alloc());
    let part = set_of(&rt, &[7, 4294967295]);
    check(&rt, part.is_subset(&a));
    check(&rt, !a.is_subset(&part));
    check(&rt, a.is_superset(&part));
    check(&rt, !part.is_superset(&a));
    check(&rt, none.is_subset(&b));
    check(&rt, !part.is_subset(&b));
    check(&rt, !part.is_disjoint(&b));
    check(&rt, none.is_disjoint(&a));
    let apart = set_of(&rt, &[9, 131073]);
    check(&rt, apart.is_disjoint(&b));
}

// Whether an iterator gives exactly these numbers.
fn gives(set: &RoaringSet, numbers: &[u32]) -> bool {
    let mut left = set.iter();
    for &number in numbers {
        if left.next() != Some(number) {
            return false;
        }
    }
    left.next() == None
}

#[test]
fn numbers_are_given_in_order(rt: HostRuntime) {
    check(&rt, gives(&left(&rt), &[0, 7, 65535, 65536, 4294967295]));
    check(&rt, gives(&right(&rt), &[7, 8, 65535, 131072]));
    let none = RoaringSet::new(rt.alloc());
    check(&rt, none.iter().next() == None);
}

#[test]
fn a_copy_stays_by_itself(rt: HostRuntime) {
    let mut a = left(&rt);
    let copy = ok(&rt, a.clone());
    ok(&rt, a.optimize());
    check(&rt, gives(&a, &[0, 7, 65535, 65536, 4294967295]));
    check(&rt, ok(&rt, a.remove(7)));
    check(&rt, gives(&copy, &[0, 7, 65535, 65536, 4294967295]));
}

#[test]
fn operations_in_place(rt: HostRuntime) {
    let b = right(&rt);
    let mut a = left(&rt);
    ok(&rt, a.union_with(&b));
    check(&rt, gives(&a, &[0, 7, 8, 65535, 65536, 131072, 4294967295]));
    ok(&rt, a.intersect_with(&b));
    check(&rt, gives(&a, &[7, 8, 65535, 131072]));
    ok(&rt, a.difference_with(&set_of(&rt, &[8, 9])));
    check(&rt, gives(&a, &[7, 65535, 131072]));
    ok(&rt, a.symmetric_difference_with(&b));
    check(&rt, gives(&a, &[8]));
}

// The bytes of 3, 7 and 131077: two blocks, without runs.
const BYTES: [u8; 30] = [
    58, 48, 0, 0, 2, 0, 0, 0, 0, 0, 1, 0, 2, 0, 0, 0, 24, 0, 0, 0, 28, 0, 0, 0, 3, 0, 7, 0, 5, 0,
];

#[test]
fn a_set_as_bytes(rt: HostRuntime) {
    let set = set_of(&rt, &[131077, 3, 7]);
    let bytes = ok(&rt, set.to_bytes(false));
    check(&rt, bytes.as_slice() == BYTES.as_slice());
    let back = ok(&rt, RoaringSet::from_bytes(rt.alloc(), BYTES.as_slice()));
    check(&rt, gives(&back, &[3, 7, 131077]));
    let cut = RoaringSet::from_bytes(rt.alloc(), &BYTES[..29]);
    check(&rt, matches!(cut, Err(ReadError::Fault(Fault::Short))));
}
