//! Lists of ascending numbers: found, put in, taken out, combined and counted.
use crate::{check, ok};
use bit_blocks::{Operation, listed};

#[test]
fn places_in_a_list(rt: HostRuntime) {
    let numbers = [3u16, 7, 9];
    let all = numbers.as_slice();
    check(&rt, listed::place_of(all, 0) == 0);
    check(&rt, listed::place_of(all, 7) == 1);
    check(&rt, listed::place_of(all, 8) == 2);
    check(&rt, listed::place_of(all, 65535) == 3);
    check(&rt, listed::find(all, 9) == Ok(2));
    check(&rt, listed::find(all, 8) == Err(2));
    check(&rt, listed::contains(all, 3));
    check(&rt, !listed::contains(all, 4));
}

#[test]
fn numbers_of_a_list_come_and_go(rt: HostRuntime) {
    let mut numbers = Vec::<u16>::new(rt.alloc());
    check(&rt, ok(&rt, listed::insert(&mut numbers, 7)));
    check(&rt, ok(&rt, listed::insert(&mut numbers, 65535)));
    check(&rt, ok(&rt, listed::insert(&mut numbers, 0)));
    check(&rt, !ok(&rt, listed::insert(&mut numbers, 7)));
    check(&rt, numbers.as_slice() == [0, 7, 65535].as_slice());
    check(&rt, listed::remove(&mut numbers, 7));
    check(&rt, !listed::remove(&mut numbers, 7));
    check(&rt, numbers.as_slice() == [0, 65535].as_slice());
}

#[test]
fn lists_are_combined(rt: HostRuntime) {
    let left = [3u16, 7, 9];
    let right = [0u16, 7, 65535];
    let union = listed::combined(
        rt.alloc(),
        left.as_slice(),
        right.as_slice(),
        Operation::Union,
    );
    check(
        &rt,
        ok(&rt, union).as_slice() == [0, 3, 7, 9, 65535].as_slice(),
    );
    let difference = listed::combined(
        rt.alloc(),
        left.as_slice(),
        right.as_slice(),
        Operation::Difference,
    );
    check(&rt, ok(&rt, difference).as_slice() == [3, 9].as_slice());
    check(
        &rt,
        listed::count_both(left.as_slice(), right.as_slice()) == 1,
    );
}
