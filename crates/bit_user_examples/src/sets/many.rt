//! Many sets at once, ranges of numbers, operators and std's traits.
use crate::sets::{has, set_of};
use crate::{check, ok};
use bit_sets::NumberSet;
use std::hash::{BuildHasher, BuildHasherDefault, FoldHasher};
use std::iter::Extend;
use std::process::Abort;

// Three sets; a test is told nothing of them.
fn three_sets(rt: &(impl Abort + AllocGlobal)) -> Vec<NumberSet> {
    let mut sets = Vec::new(rt.alloc());
    ok(rt, sets.push(set_of(rt, &[3, 5, 64])));
    ok(rt, sets.push(set_of(rt, &[2, 3, 64, 200])));
    ok(rt, sets.push(set_of(rt, &[64, 3])));
    sets
}

#[test]
fn many_sets_united(rt: HostRuntime) {
    let sets = three_sets(&rt);
    let mut set = set_of(&rt, &[1]);
    ok(&rt, set.union_with_all(sets.as_slice()));
    has(&rt, &set, &[1, 2, 3, 5, 64, 200]);
    check(&rt, set.bound() == 201);
    ok(&rt, set.union_with_all(&[]));
    check(&rt, set.len() == 6);
}

#[test]
fn many_sets_intersected(rt: HostRuntime) {
    let sets = three_sets(&rt);
    let mut set = set_of(&rt, &[1, 3, 5, 64, 300]);
    set.intersect_with_all(sets.as_slice());
    has(&rt, &set, &[3, 64]);
    set.intersect_with_all(&[]);
    check(&rt, set.len() == 2);
}

#[test]
fn complements(rt: HostRuntime) {
    let set = set_of(&rt, &[1, 3, 70]);
    has(&rt, &ok(&rt, set.complement(rt.alloc(), 5)), &[0, 2, 4]);
    let others = ok(&rt, set.complement(rt.alloc(), 72));
    check(&rt, others.contains(71));
    check(&rt, others.len() == 69);
}

#[test]
fn ranges_put_in_and_taken_out(rt: HostRuntime) {
    let mut set = NumberSet::new(rt.alloc());
    ok(&rt, set.insert_range(1..128));
    ok(&rt, set.insert_range(9..9));
    check(&rt, set.bound() == 128);
    set.remove_range(4..127);
    set.remove_range(500..900);
    has(&rt, &set, &[1, 2, 3, 127]);
}

#[test]
fn ranges_tested_and_counted(rt: HostRuntime) {
    let set = set_of(&rt, &[2, 3, 4, 7, 64]);
    check(
        &rt,
        [
            set.contains_range(2..5),
            set.contains_range(2..6),
            set.contains_range(64..66),
            set.contains_range(9..9),
            set.any_in(4..7),
            set.any_in(5..7),
            set.any_in(65..usize::MAX),
        ] == [true, false, false, true, true, false, false],
    );
    check(&rt, set.count_in(3..8) == 3);
    check(&rt, set.count_in(8..3) == 0);
    check(&rt, set.count_in(0..usize::MAX) == 5);
}

#[test]
fn ranges_of_any_kind(rt: HostRuntime) {
    let mut set = set_of(&rt, &[2, 3, 4, 7, 64]);
    check(&rt, set.count_in(..) == 5);
    check(&rt, set.count_in(..=3) == 2);
    check(&rt, set.any_in(5..));
    check(&rt, !set.any_in(65..));
    check(&rt, set.range(..=usize::MAX).next_back() == Some(64));
    set.remove_range(3..=7);
    check(&rt, set.count_in(..) == 2);
}

#[test]
fn numbers_of_a_range(rt: HostRuntime) {
    let set = set_of(&rt, &[2, 3, 4, 7, 64]);
    let mut numbers = set.range(3..64);
    check(&rt, numbers.len() == 3);
    check(
        &rt,
        [
            numbers.next_back(),
            numbers.next(),
            numbers.next(),
            numbers.next(),
            set.range(9..usize::MAX).next(),
            set.range(9..3).next_back(),
        ] == [Some(7), Some(3), Some(4), None, Some(64), None],
    );
}

#[test]
fn sets_compared(rt: HostRuntime) {
    let set = set_of(&rt, &[2, 64]);
    let mut copy = ok(&rt, set.clone());
    ok(&rt, copy.raise_bound(500));
    check(&rt, copy == set);
    check(&rt, copy.cmp(&set).is_eq());
    check(&rt, ok(&rt, copy.insert(400)));
    check(&rt, copy > set);
    check(&rt, copy != set);
}

// The hash of a set.
fn hash_of(set: &NumberSet) -> u64 {
    BuildHasherDefault::<FoldHasher>::new().hash_one(set)
}

#[test]
fn hashes(rt: HostRuntime) {
    let set = set_of(&rt, &[2, 64]);
    let mut copy = ok(&rt, set.clone());
    ok(&rt, copy.raise_bound(500));
    check(&rt, hash_of(&copy) == hash_of(&set));
}

#[test]
fn other_hashes(rt: HostRuntime) {
    let set = set_of(&rt, &[2, 64]);
    check(&rt, hash_of(&set_of(&rt, &[2, 65])) != hash_of(&set));
}

#[test]
fn texts(rt: HostRuntime) {
    let set = set_of(&rt, &[2, 64, 1]);
    let text = ok(&rt, format!(in rt.alloc(); "{set} {set:?}"));
    check(&rt, text.as_str() == "{1, 2, 64} {1, 2, 64}");
    let none = ok(&rt, NumberSet::new(rt.alloc()).to_string(rt.alloc()));
    check(&rt, none.as_str() == "{}");
}

#[test]
fn collected_and_extended(rt: HostRuntime) {
    let numbers = ok(&rt, vec![in rt.alloc(); 9, 4, 9]);
    let mut set = ok(&rt, numbers.into_iter().collect::<NumberSet>(rt.alloc()));
    has(&rt, &set, &[4, 9]);
    check(&rt, Extend::extend(&mut set, Some(1)).is_ok());
    has(&rt, &set, &[1, 4, 9]);
    check(&rt, Extend::extend(&mut set, Some(usize::MAX)).is_err());
}
