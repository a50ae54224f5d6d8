//! Maps of frames, where runs fit and what lists of requests leave.
mod callers;
mod searches;

use crate::{check, ok};
use bit_addressing::GrowError;
use bit_containers::BitList;
use bit_frames::{FreeMap, NotFree, NotTaken, Reply, Request};
use std::ops::Range;
use std::process::Abort;

// A map of 100 frames, of which 22 are free: runs of 9, 4, 4 and 5 frames.
fn map_with_gaps(rt: &(impl Abort + AllocGlobal)) -> FreeMap {
    let mut map = ok(rt, FreeMap::new(rt.alloc(), 100));
    check(rt, map.take_run(100) == Some(0));
    assert!(rt; map.frames() == 100);
    check(rt, map.give_back(3, 9).is_ok());
    check(rt, map.give_back(20, 4).is_ok());
    check(rt, map.give_back(40, 4).is_ok());
    check(rt, map.give_back(60, 5).is_ok());
    map
}

#[test]
fn runs_that_fit(rt: HostRuntime) {
    let mut map = map_with_gaps(&rt);
    check(
        &rt,
        [
            map.take_best_fit(4),
            map.take_best_fit(5),
            map.take_best_fit(3),
            map.take_best_fit(10),
        ] == [Some(20), Some(60), Some(40), None],
    );
    check(&rt, map.count_free() == 10);
}

#[test]
fn runs_that_are_aligned(rt: HostRuntime) {
    let mut map = map_with_gaps(&rt);
    check(
        &rt,
        [
            map.take_aligned(2, 5),
            map.take_aligned(2, 64),
            map.take_aligned(2, 4),
        ] == [Some(5), None, Some(8)],
    );
    check(&rt, map.count_free() == 18);
}

#[test]
fn a_map_that_grows(rt: HostRuntime) {
    let mut map = ok(&rt, FreeMap::new(rt.alloc(), 10));
    check(&rt, map.take_run(9) == Some(0));
    assert!(rt; map.frames() <= 200);
    ok(&rt, map.grow(200));
    assert!(rt; map.frames() == 200);
    check(&rt, map.count_free() == 191);
    check(&rt, map.take_run(191) == Some(9));
}

#[test]
fn requests(rt: HostRuntime) {
    let mut map = ok(&rt, FreeMap::new(rt.alloc(), 10));
    let requests = [
        Request::Take(4),
        Request::Take(7),
        Request::GiveBack(0, 2),
        Request::GiveBack(1, 2),
        Request::GiveBack(9, 2),
        Request::Take(0),
        Request::Take(2),
    ];
    let replies = ok(&rt, map.serve(rt.alloc(), &requests));
    let expected = [
        Reply::Taken(0),
        Reply::Refused,
        Reply::GivenBack,
        Reply::Refused,
        Reply::Refused,
        Reply::Refused,
        Reply::Taken(0),
    ];
    check(&rt, replies.as_slice() == expected.as_slice());
    check(&rt, map.count_free() == 6);
}

#[test]
fn frames_of_a_map(rt: HostRuntime) {
    let mut map = ok(&rt, FreeMap::new(rt.alloc(), 130));
    assert!(rt; map.frames() == 130);
    check(&rt, [map.take(), map.take_run(100)] == [Some(0), Some(1)]);
    assert!(rt; map.frames() == 130);
    check(&rt, map.is_taken(100));
    check(&rt, !map.is_taken(101));
    check(
        &rt,
        [map.take_run(30), map.take_run(29)] == [None, Some(101)],
    );
    check(&rt, map.take().is_none());
}

#[test]
fn frames_given_back(rt: HostRuntime) {
    let mut map = ok(&rt, FreeMap::new(rt.alloc(), 130));
    check(&rt, map.take_run(130) == Some(0));
    assert!(rt; map.frames() == 130);
    check(&rt, map.give_back(60, 8).is_ok());
    check(&rt, map.give_back(70, 5).is_ok());
    check(&rt, map.give_back(67, 3) == Err(NotTaken));
    check(&rt, map.is_taken(68));
    check(&rt, map.count_free() == 13);
    check(&rt, map.take() == Some(60));
    check(
        &rt,
        [map.take_run(8), map.take_run(5), map.take_run(5)] == [None, Some(61), Some(70)],
    );
    check(&rt, map.count_free() == 2);
}

#[test]
fn too_many_frames(rt: HostRuntime) {
    check(
        &rt,
        matches!(
            FreeMap::new(rt.alloc(), usize::MAX),
            Err(GrowError::TooLong)
        ),
    );
}

#[test]
fn frames_that_are_free(rt: HostRuntime) {
    let map = map_with_gaps(&rt);
    check(
        &rt,
        [
            map.is_free(3),
            map.is_free(2),
            map.is_free(100),
            map.is_run_free(20..24),
            map.is_run_free(20..25),
            map.is_run_free(99..101),
            map.is_run_free(99..99),
        ] == [true, false, false, true, false, false, true],
    );
}

#[test]
fn frames_reserved(rt: HostRuntime) {
    let mut map = map_with_gaps(&rt);
    check(&rt, map.reserve(21..23).is_ok());
    check(&rt, map.reserve(20..22) == Err(NotFree));
    check(&rt, map.reserve(64..101) == Err(NotFree));
    check(&rt, map.reserve(5..5).is_ok());
    check(&rt, map.is_free(20));
    check(&rt, map.count_free() == 20);
}

// That the runs of free frames are these.
fn has_runs(rt: &impl Abort, map: &FreeMap, expected: &[Range<usize>]) {
    let mut runs = map.iter_free_runs();
    for run in expected {
        check(rt, runs.next().as_ref() == Some(run));
    }
    check(rt, runs.next().is_none());
    check(rt, runs.next().is_none());
}

#[test]
fn runs_of_free_frames(rt: HostRuntime) {
    let mut map = map_with_gaps(&rt);
    has_runs(&rt, &map, &[3..12, 20..24, 40..44, 60..65]);
    check(&rt, map.reserve(3..12).is_ok());
    assert!(rt; map.frames() == 100);
    check(&rt, map.give_back(0, 1).is_ok());
    check(&rt, map.give_back(98, 2).is_ok());
    has_runs(&rt, &map, &[0..1, 20..24, 40..44, 60..65, 98..100]);
}

#[test]
fn texts_of_a_map(rt: HostRuntime) {
    let mut map = map_with_gaps(&rt);
    assert!(rt; map.frames() == 100);
    check(&rt, map.give_back(99, 1).is_ok());
    let text = ok(&rt, map.to_string(rt.alloc()));
    check(&rt, text.as_str() == "3-11,20-23,40-43,60-64,99");
    let shown = ok(&rt, format!(in rt.alloc(); "{map:?}"));
    check(
        &rt,
        shown.as_str() == "FreeMap { frames: 100, free: 3-11,20-23,40-43,60-64,99 }",
    );
    let none = ok(&rt, FreeMap::new(rt.alloc(), 0));
    let empty = ok(&rt, none.to_string(rt.alloc()));
    check(&rt, empty.as_str() == "");
}

#[test]
fn copies_of_a_map(rt: HostRuntime) {
    let mut map = map_with_gaps(&rt);
    let copy = ok(&rt, map.clone());
    check(&rt, copy == map);
    check(&rt, map.take() == Some(3));
    check(&rt, copy != map);
    check(&rt, copy.is_free(3));
    check(&rt, copy.as_bitslice().count_zeros() == 22);
}
