//! Lengths at their limit, reached by what is asked for alone.
use crate::common::{check, holds, of};
use crate::tests::commands::stops;
use bit_containers::{BitVec, Command, GrowError, Lsb0, Msb0};
use std::process::Abort;

const LIMIT: usize = 2305843009213693951;

const PAST: usize = 2305843009213693952;

#[test]
fn reserving_at_the_limit(rt: HostRuntime) {
    let mut v = of::<u8, Lsb0>(&rt, b"1");
    for (more, too_long) in [(LIMIT - 1, false), (LIMIT, true), (usize::MAX, true)] {
        let results = [v.reserve(more), v.reserve_exact(more)];
        for outcome in results {
            check(&rt, (outcome == Err(GrowError::TooLong)) == too_long);
        }
        holds(&rt, &v, b"1");
    }
    for n in [PAST, usize::MAX] {
        let results = [v.resize(n, true), v.resize_with(n, |_| true)];
        for outcome in results {
            check(&rt, outcome == Err(GrowError::TooLong));
        }
        holds(&rt, &v, b"1");
    }
}

/// Lengths, and whether they are too long.
const LENGTHS: [(usize, bool); 3] = [(LIMIT, false), (PAST, true), (usize::MAX, true)];

#[test]
fn repeating_at_the_limit(rt: HostRuntime) {
    for (n, too_long) in LENGTHS {
        let made = BitVec::<u8, Lsb0>::repeat(rt.alloc(), false, n);
        let refused = matches!(made, Err(GrowError::TooLong));
        check(&rt, refused == too_long);
    }
}

#[test]
fn room_at_the_limit(rt: HostRuntime) {
    for (n, too_long) in LENGTHS {
        let made = BitVec::<u64, Msb0>::with_capacity(rt.alloc(), n);
        let refused = matches!(made, Err(GrowError::TooLong));
        check(&rt, refused == too_long);
    }
}

// That a run stops at this command, the second of three, and leaves what the first did.
fn stops_at(rt: &(impl Abort + AllocGlobal), command: Command) {
    let mut v = BitVec::<u8, Lsb0>::new(rt.alloc());
    stops(
        rt,
        &mut v,
        &[Command::Push(true), command, Command::Push(false)],
    );
    holds(rt, &v, b"1");
}

// A run stops at the command that passes the limit, and what came before it stays done.
#[test]
fn runs_at_the_limit(rt: HostRuntime) {
    stops_at(&rt, Command::Reserve(LIMIT));
    stops_at(&rt, Command::Splice(0, 1, false, PAST));
    stops_at(&rt, Command::Resize(PAST, true));
}

/// A function that resizes is called once for each new bit, and not at all where there is none, where the length is too
/// large, and where there is no memory for it.
#[test]
fn calls_of_a_resize(rt: HostRuntime) {
    for (n, want) in [
        (5, 3),
        (2, 0),
        (1, 0),
        (0, 0),
        (LIMIT, 0),
        (PAST, 0),
        (usize::MAX, 0),
    ] {
        let mut v = of::<u8, Lsb0>(&rt, b"10");
        let mut calls = 0u8;
        let outcome = v.resize_with(n, |_| {
            calls = calls.wrapping_add(1);
            true
        });
        check(&rt, outcome.is_ok() == (n < 6));
        check(&rt, calls == want);
    }
}
