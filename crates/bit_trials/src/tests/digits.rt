//! Vectors read from digits and from ranges, and without equal neighbours.
ghost use Rattle.std.specs.Prelude.{◌<◌, ◌≤◌};

use crate::common::{check, holds, of, ok};
use bit_containers::{BitList, BitListMut, BitVec, Lsb0, Msb0, ParseBitsError, text_bits};
use std::alloc::Global;

// Where a text of digits is wrong, or None where it is right or memory was refused.
fn wrong_at(alloc: Global, text: &str, size: u8, len: usize) -> Option<usize>
    requires some { 0 < size }
    requires few { size ≤ 4 }
{
    match BitVec::<u8, Msb0>::from_digits(alloc, text, size, len) {
        Err(ParseBitsError::Wrong(at)) => Some(at),
        _ => None,
    }
}

#[test]
fn hexadecimal(rt: HostRuntime) {
    let v = ok(&rt, BitVec::<u8, Msb0>::from_hex(rt.alloc(), "d0"));
    holds(&rt, &v, b"11010000");
    let v = ok(&rt, BitVec::<u64, Lsb0>::from_hex(rt.alloc(), "[0fA]"));
    holds(&rt, &v, b"000011111010");
}

#[test]
fn digits_of_other_sizes(rt: HostRuntime) {
    let v = ok(
        &rt,
        BitVec::<u8, Msb0>::from_digits(rt.alloc(), "[d0]", 4, 5),
    );
    holds(&rt, &v, b"11010");
    let v = ok(&rt, BitVec::<u8, Lsb0>::from_digits(rt.alloc(), "62", 3, 5));
    holds(&rt, &v, b"11010");
}

#[test]
fn wrong_digits(rt: HostRuntime) {
    let alloc = rt.alloc();
    check(
        &rt,
        [wrong_at(alloc, "dg", 4, 8), wrong_at(alloc, "[d2]", 4, 5)] == [Some(1), Some(2)],
    );
    check(&rt, wrong_at(alloc, "[62", 3, 5) == Some(0));
    check(
        &rt,
        [wrong_at(alloc, "6", 3, 5), wrong_at(alloc, "621", 3, 5)] == [Some(1), Some(2)],
    );
}

// Where a text of ranges is wrong, or None where it is right or memory was refused.
fn range_wrong_at(alloc: Global, text: &str, len: usize) -> Option<usize> {
    match BitVec::<u8, Msb0>::from_ranges_text(alloc, text, len) {
        Err(ParseBitsError::Wrong(at)) => Some(at),
        _ => None,
    }
}

#[test]
fn ranges_of_ones(rt: HostRuntime) {
    let v = ok(
        &rt,
        BitVec::<u8, Msb0>::from_ranges_text(rt.alloc(), "1-2,4", 6),
    );
    holds(&rt, &v, b"011010");
    let v = ok(
        &rt,
        BitVec::<u64, Lsb0>::from_ranges_text(rt.alloc(), "7,0-3", 8),
    );
    holds(&rt, &v, b"11110001");
}

#[test]
fn wrong_ranges(rt: HostRuntime) {
    let alloc = rt.alloc();
    check(
        &rt,
        [
            range_wrong_at(alloc, "0,2-4", 4),
            range_wrong_at(alloc, "3-2", 4),
            range_wrong_at(alloc, "0-1-2", 4),
            range_wrong_at(alloc, "1,", 4),
            range_wrong_at(alloc, "1,+2", 4),
            range_wrong_at(alloc, "1, 2", 4),
        ] == [Some(2), Some(0), Some(0), Some(2), Some(2), Some(2)],
    );
}

#[test]
fn without_equal_neighbours(rt: HostRuntime) {
    let mut v = of::<u8, Msb0>(&rt, b"0110111");
    v.dedup();
    holds(&rt, &v, b"0101");
}

#[test]
fn text_written_and_read(rt: HostRuntime) {
    let alloc = rt.alloc();
    let v = ok(&rt, text_bits![alloc; u8, Msb0; "0110"]);
    let text = ok(&rt, v.to_text(alloc));
    check(&rt, text.as_str() == "0110");
}

#[test]
fn no_ranges(rt: HostRuntime) {
    let v = ok(&rt, BitVec::<u8, Msb0>::from_ranges_text(rt.alloc(), "", 3));
    holds(&rt, &v, b"000");
}

#[test]
fn many_runs_are_kept(rt: HostRuntime) {
    let mut v = ok(&rt, BitVec::<u16, Lsb0>::repeat(rt.alloc(), false, 150));
    v.fill_with(|i| i % 2 == 1);
    v.dedup();
    check(&rt, v.len() == 150);
    check(&rt, v.count_ones() == 75);
    check(&rt, v.get(149) == Some(true));
}
