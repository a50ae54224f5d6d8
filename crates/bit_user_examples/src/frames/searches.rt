//! Searches for runs of free frames beside plain loops.
ghost use Rattle.std.specs.Prelude.{◌<◌};

use crate::{check, ok};
use bit_frames::FreeMap;
use std::process::Abort;

// Whether `count` frames from `first` on are free, one by one.
fn are_free(map: &FreeMap, first: usize, count: usize) -> bool {
    for frame in first..first.saturating_add(count) {
        if !map.is_free(frame) {
            return false;
        }
    }
    true
}

// The lowest frame from `from` on at which `count` free frames begin, one by one.
fn lowest(map: &FreeMap, from: usize, count: usize) -> Option<usize> {
    for first in from..map.frames() {
        if are_free(map, first, count) {
            return Some(first);
        }
    }
    None
}

// The highest such frame.
fn highest(map: &FreeMap, count: usize) -> Option<usize> {
    let mut found = None;
    for first in 0..map.frames() {
        if are_free(map, first, count) {
            found = Some(first);
        }
    }
    found
}

// A map in which frames here and there are taken, in runs of up to eight, the same at each run.
fn scattered(rt: &(impl Abort + AllocGlobal), frames: usize, mut seed: u64) -> FreeMap {
    let mut map = ok(rt, FreeMap::new(rt.alloc(), frames));
    let mut frame: usize = 0;
    for _ in 0..frames {
        seed = seed
            .wrapping_mul(6364136223846793005)
            .wrapping_add(1442695040888963407);
        let taken = (seed >> 61) as usize;
        let _ = map.reserve(frame..frame.saturating_add(taken));
        frame = frame
            .saturating_add(taken)
            .saturating_add((seed >> 33) as usize % 12);
    }
    map
}

// That each search finds what the loops find.
fn searches(rt: &(impl Abort + AllocGlobal), map: &FreeMap, count: usize)
    requires { 0 < count }
{
    check(rt, map.find_first_fit(count) == lowest(map, 0, count));
    check(rt, map.find_last_fit(count) == highest(map, count));
    for from in [0, 1, 31, 63, 64, 65, 128, 199, 200, 500] {
        check(
            rt,
            map.find_next_fit(from, count) == lowest(map, from, count),
        );
    }
}

#[test]
fn searches_beside_loops(rt: HostRuntime) {
    for seed in 0..12 {
        let map = scattered(&rt, 200, seed);
        for count in 1..14 {
            searches(&rt, &map, count);
        }
    }
}

#[test]
fn frames_from_both_ends(rt: HostRuntime) {
    let mut map = ok(&rt, FreeMap::new(rt.alloc(), 100));
    check(
        &rt,
        [
            map.take_last_fit(10),
            map.take_next_fit(50, 10),
            map.take_next_fit(50, 10),
            map.take_next_fit(75, 16),
        ] == [Some(90), Some(50), Some(60), None],
    );
    check(
        &rt,
        [map.take_last_fit(25), map.take_last_fit(26)] == [Some(25), None],
    );
    check(&rt, map.count_free() == 45);
}
