//! Sets beside sorted lists: numbers of all 32 bits, in clusters, and dense.
use crate::{check, ok};
use bit_roaring::RoaringSet;
use std::process::Abort;

// A kind of numbers.
#[derive(Clone, Copy)]
enum Numbers {
    // Of all 32 bits, in no order.
    Wide,
    // Fifty that follow one another, at places in no order.
    Clustered,
    // Below 140000, in no order: more than 4096 in each block.
    Dense,
}

impl Numbers {
    // The number that comes at a turn.
    fn at(self, turn: u32) -> u32 {
        match self {
            Numbers::Wide => turn.wrapping_mul(2654435761),
            Numbers::Clustered => (turn / 50).wrapping_mul(2654435761).wrapping_add(turn % 50),
            Numbers::Dense => turn.wrapping_mul(2654435761) % 140000,
        }
    }
}

// The numbers of some turns, ascending, each once.
fn sorted(rt: &(impl Abort + AllocGlobal), kind: Numbers, from: u32, upto: u32) -> Vec<u32> {
    let mut numbers = Vec::new(rt.alloc());
    for turn in from..upto {
        ok(rt, numbers.push(kind.at(turn)));
    }
    ok(rt, numbers.sort());
    numbers.dedup();
    numbers
}

// The set of the numbers of some turns.
fn set_of(rt: &(impl Abort + AllocGlobal), kind: Numbers, from: u32, upto: u32) -> RoaringSet {
    let mut set = RoaringSet::new(rt.alloc());
    for turn in from..upto {
        ok(rt, set.insert(kind.at(turn)));
    }
    set
}

// The set of some numbers, from the last to the first.
fn collected(rt: &(impl Abort + AllocGlobal), numbers: &[u32]) -> RoaringSet {
    ok(
        rt,
        numbers
            .iter()
            .copied()
            .rev()
            .collect::<RoaringSet>(rt.alloc()),
    )
}

// Whether a set has exactly these ascending numbers, by each of its calls.
fn is_as(set: &RoaringSet, numbers: &[u32]) -> bool {
    let mut left = set.iter();
    let mut place = 0u64;
    for &number in numbers {
        if left.next() != Some(number) || !set.contains(number) {
            return false;
        }
        if place % 37 == 0 && (set.rank(number) != place || set.select(place) != Some(number)) {
            return false;
        }
        place = place.wrapping_add(1);
    }
    left.next() == None && set.len() == place
}

// Whether the numbers are given from the back too.
fn is_back(set: &RoaringSet, numbers: &[u32]) -> bool {
    let mut left = set.iter();
    for &number in numbers.iter().rev() {
        if left.next_back() != Some(number) {
            return false;
        }
    }
    left.next_back() == None
}

// The numbers of one list that are in another, or those that are not.
fn chosen(
    rt: &(impl Abort + AllocGlobal),
    numbers: &[u32],
    others: &[u32],
    there: bool,
) -> Vec<u32> {
    let mut found = Vec::new(rt.alloc());
    for &number in numbers {
        if others.binary_search(&number).is_ok() == there {
            ok(rt, found.push(number));
        }
    }
    found
}

// Checks the operations of two sets, whose numbers are these.
fn are_combined(
    rt: &(impl Abort + AllocGlobal),
    a: &RoaringSet,
    b: &RoaringSet,
    left: &[u32],
    right: &[u32],
) {
    let both = chosen(rt, left, right, true);
    check(rt, is_as(&ok(rt, a.intersection(b)), &both));
    check(rt, a.count_intersection(b) == both.len() as u64);
    let alone = chosen(rt, left, right, false);
    check(rt, is_as(&ok(rt, a.difference(b)), &alone));
    let mut all = ok(rt, right.to_vec(rt.alloc()));
    ok(rt, all.extend_from_slice(&alone));
    ok(rt, all.sort());
    check(rt, is_as(&ok(rt, a.union(b)), &all));
    check(rt, a.count_union(b) == all.len() as u64);
}

// That the numbers come as a vector too.
fn are_members(rt: &(impl Abort + AllocGlobal), set: &RoaringSet, numbers: &[u32]) {
    let members = ok(rt, set.members(rt.alloc()));
    check(rt, members.as_slice() == numbers);
}

// Checks a set of one kind: as it is made, as it is optimized, and combined with another.
fn stands(rt: &(impl Abort + AllocGlobal), kind: Numbers) {
    let numbers = sorted(rt, kind, 0, 12000);
    let mut set = set_of(rt, kind, 0, 12000);
    check(rt, is_as(&set, &numbers));
    are_members(rt, &set, &numbers);
    check(rt, set == collected(rt, &numbers));
    let others = sorted(rt, kind, 6000, 18000);
    let other = set_of(rt, kind, 6000, 18000);
    are_combined(rt, &set, &other, &numbers, &others);
    ok(rt, set.optimize());
    check(rt, is_as(&set, &numbers));
    check(rt, is_back(&set, &numbers));
    are_members(rt, &set, &numbers);
    are_combined(rt, &set, &other, &numbers, &others);
}

#[test]
fn wide_numbers(rt: HostRuntime) {
    stands(&rt, Numbers::Wide);
}

#[test]
fn clustered_numbers(rt: HostRuntime) {
    stands(&rt, Numbers::Clustered);
}

#[test]
fn dense_numbers(rt: HostRuntime) {
    stands(&rt, Numbers::Dense);
}
