//! Sets compared, hashed, shown and collected.
use crate::{check, ok};
use bit_roaring::RoaringSet;
use std::cmp::Ordering;
use std::hash::{BuildHasher, BuildHasherDefault, FoldHasher};
use std::process::Abort;

// The set of some numbers.
fn set_of(rt: &(impl Abort + AllocGlobal), numbers: &[u32]) -> RoaringSet {
    ok(
        rt,
        numbers.iter().copied().collect::<RoaringSet>(rt.alloc()),
    )
}

// What a hasher makes of a set.
fn hash_of(set: &RoaringSet) -> u64 {
    BuildHasherDefault::<FoldHasher>::new().hash_one(set)
}

#[test]
fn numbers_are_collected(rt: HostRuntime) {
    let mut set = set_of(&rt, &[3, 1, 4294967295, 3]);
    check(&rt, set.len() == 3);
    check(&rt, set.iter().nth(2) == Some(4294967295));
    ok(&rt, set.extend([70000, 1]));
    check(&rt, set.len() == 4);
    check(&rt, set.select(2) == Some(70000));
}

#[test]
fn more_numbers_are_collected_than_are_sorted_at_a_time(rt: HostRuntime) {
    let numbers = (0..1100000u32).rev();
    let set = ok(&rt, numbers.collect::<RoaringSet>(rt.alloc()));
    check(&rt, set.len() == 1100000);
    check(&rt, set.last() == Some(1099999));
}

#[test]
fn ascending_numbers_are_a_set(rt: HostRuntime) {
    let numbers = [1, 65535, 65536, 4294967295];
    let set = ok(&rt, RoaringSet::from_ascending(rt.alloc(), &numbers));
    check(&rt, set.len() == 4);
    check(&rt, set == set_of(&rt, &numbers));
}

#[test]
fn sets_are_equal_by_their_numbers(rt: HostRuntime) {
    let a = set_of(&rt, &[1, 2, 3, 65536]);
    let mut b = set_of(&rt, &[65536, 3, 2, 1]);
    ok(&rt, b.optimize());
    check(&rt, a == b);
    check(&rt, hash_of(&a) == hash_of(&b));
    let c = set_of(&rt, &[1, 2, 4, 65536]);
    check(&rt, a != c);
    check(&rt, c.is_subset(&set_of(&rt, &[1, 2, 3, 4, 65536])));
}

#[test]
fn sets_are_ordered(rt: HostRuntime) {
    let a = set_of(&rt, &[1, 2, 65536]);
    check(&rt, a.cmp(&set_of(&rt, &[1, 3])) == Ordering::Less);
    check(&rt, a.cmp(&set_of(&rt, &[1, 2])) == Ordering::Greater);
    check(&rt, a < set_of(&rt, &[1, 2, 65537]));
    check(&rt, a.cmp(&set_of(&rt, &[1, 2, 65536])) == Ordering::Equal);
}

#[test]
fn a_set_is_shown(rt: HostRuntime) {
    let set = set_of(&rt, &[9, 1, 65536]);
    let text = ok(&rt, format!(in rt.alloc(); "{set:?}"));
    check(&rt, text.as_str() == "{1, 9, 65536}");
}

#[test]
fn a_loop_over_a_set(rt: HostRuntime) {
    let set = set_of(&rt, &[9, 1, 65536]);
    let mut sum = 0u64;
    for number in &set {
        sum = sum.wrapping_add(number as u64);
    }
    check(&rt, sum == 65546);
}
