//! Two sets merged and counted, closures and iterators.
use crate::sets::has;
use crate::{check, ok};
use bit_addressing::GrowError;
use bit_sets::NumberSet;
use std::alloc::Global;
use std::process::Abort;

// Two sets with two numbers in common; a test is told nothing of them.
fn two_sets(alloc: Global) -> Result<(NumberSet, NumberSet), GrowError> {
    let small = NumberSet::from_numbers(alloc, 70, &[0, 3, 5, 69])?;
    let large = NumberSet::from_numbers(alloc, 200, &[3, 4, 69, 199])?;
    Ok((small, large))
}

#[test]
fn numbers_of_either_set(rt: HostRuntime) {
    let (small, large) = ok(&rt, two_sets(rt.alloc()));
    let union: Vec<usize> = ok(&rt, small.union(&large).collect(rt.alloc()));
    check(&rt, union.as_slice() == [0, 3, 4, 5, 69, 199].as_slice());
}

#[test]
fn numbers_of_both_sets(rt: HostRuntime) {
    let (small, large) = ok(&rt, two_sets(rt.alloc()));
    let both: Vec<usize> = ok(&rt, small.intersection(&large).collect(rt.alloc()));
    check(&rt, both.as_slice() == [3, 69].as_slice());
}

#[test]
fn numbers_of_the_first_set_alone(rt: HostRuntime) {
    let (small, large) = ok(&rt, two_sets(rt.alloc()));
    let first: Vec<usize> = ok(&rt, large.difference(&small).collect(rt.alloc()));
    check(&rt, first.as_slice() == [4, 199].as_slice());
}

#[test]
fn numbers_of_one_set_alone(rt: HostRuntime) {
    let (small, large) = ok(&rt, two_sets(rt.alloc()));
    let one: Vec<usize> = ok(&rt, small.symmetric_difference(&large).collect(rt.alloc()));
    check(&rt, one.as_slice() == [0, 4, 5, 199].as_slice());
}

#[test]
fn counts_of_two_sets(rt: HostRuntime) {
    let (small, large) = ok(&rt, two_sets(rt.alloc()));
    check(
        &rt,
        [
            small.count_union(&large),
            large.count_union(&small),
            small.count_intersection(&large),
            small.count_difference(&large),
            large.count_difference(&small),
            large.count_symmetric_difference(&small),
        ] == [6, 6, 2, 2, 2, 4],
    );
}

#[test]
fn numbers_that_a_function_keeps(rt: HostRuntime) {
    let (small, mut large) = ok(&rt, two_sets(rt.alloc()));
    let mut asked = Vec::new(rt.alloc());
    large.retain_by(&mut |number: usize| {
        let _there_is_room = asked.push(number);
        small.contains(number)
    });
    check(&rt, asked.as_slice() == [3, 4, 69, 199].as_slice());
    has(&rt, &large, &[3, 69]);
    assert!(rt; large.bound() == 200);
}

#[test]
fn numbers_kept_by_value(rt: HostRuntime) {
    let (_, mut large) = ok(&rt, two_sets(rt.alloc()));
    large.retain(|number| number > 4);
    has(&rt, &large, &[69, 199]);
}

#[test]
fn numbers_of_an_iterator(rt: HostRuntime) {
    let (small, _) = ok(&rt, two_sets(rt.alloc()));
    let grown = ok(&rt, NumberSet::from_iter(rt.alloc(), small.iter()));
    has(&rt, &grown, &[0, 3, 5, 69]);
    assert!(rt; grown.bound() == 70);
}

#[test]
fn numbers_put_in_from_an_iterator(rt: HostRuntime) {
    let (mut set, _) = ok(&rt, two_sets(rt.alloc()));
    let numbers = ok(&rt, vec![in rt.alloc(); 100, 4, 100, 3]);
    ok(&rt, set.extend(numbers));
    has(&rt, &set, &[0, 3, 4, 5, 69, 100]);
    assert!(rt; set.bound() == 101);
    let numbers = ok(&rt, vec![in rt.alloc(); 1, usize::MAX, 2]);
    check(&rt, set.extend(numbers) == Err(GrowError::TooLong));
    has(&rt, &set, &[0, 1, 3, 4, 5, 69, 100]);
}
