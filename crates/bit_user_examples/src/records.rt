//! Records on small inputs, and each call once.
mod callers;

use crate::{check, ok};
use bit_containers::{GrowError, Lsb0, Msb0};
use bit_records::Records;
use std::alloc::AllocError;

#[test]
fn widths(rt: HostRuntime) {
    for width in [0u8, 65, 255] {
        check(&rt, Records::<u8, Msb0>::new(rt.alloc(), width).is_none());
    }
    for width in [1u8, 64] {
        check(&rt, Records::<u8, Msb0>::new(rt.alloc(), width).is_some());
    }
}

#[test]
fn five_digits(rt: HostRuntime) {
    let mut records = Records::<u8, Msb0>::new(rt.alloc(), 5).unwrap();
    check(&rt, records.is_empty());
    assert!(rt; records.width() == 5);
    ok(&rt, records.push(1));
    ok(&rt, records.push(31));
    ok(&rt, records.push(0));
    check(&rt, [records.get(1), records.get(3)] == [Some(31), None]);
    let bits = records.into_bits();
    assert!(rt; bits.len() == 15);
    check(&rt, bits.as_raw_slice() == [0x0f, 0xc0].as_slice());
}

#[test]
fn signed_numbers(rt: HostRuntime) {
    let mut records = Records::<u8, Msb0>::new(rt.alloc(), 5).unwrap();
    assert!(rt; records.width() == 5);
    ok(&rt, records.push_signed(-2));
    check(&rt, records.get_signed(0) == Some(-2));
    check(&rt, records.get(0) == Some(30));
    assert!(rt; records.len() == 1);
    records.set_signed(0, 15);
    check(&rt, records.get_signed(0) == Some(15));
}

#[test]
fn three_digits(rt: HostRuntime) {
    let mut records = Records::<u8, Lsb0>::new(rt.alloc(), 3).unwrap();
    ok(&rt, records.push(5));
    ok(&rt, records.push(3));
    ok(&rt, records.push(6));
    let bits = ok(&rt, records.clone()).into_bits();
    assert!(rt; bits.len() == 9);
    check(&rt, bits.as_raw_slice() == [0xf5, 0x00].as_slice());
    assert!(rt; records.len() == 3);
    records.set(1, 0);
    check(
        &rt,
        records.into_bits().as_raw_slice() == [0xc5, 0x00].as_slice(),
    );
}

#[test]
fn whole_words(rt: HostRuntime) {
    let mut records = Records::<u8, Lsb0>::new(rt.alloc(), 64).unwrap();
    ok(&rt, records.push(u64::MAX));
    check(&rt, records.get(0) == Some(u64::MAX));
    check(
        &rt,
        records.into_bits().as_raw_slice() == [0xff; 8].as_slice(),
    );
}

// Where a request for memory is refused, the records are as they were.
#[test]
fn refused(rt: HostRuntime) {
    let mut records = Records::<u8, Msb0>::new(rt.alloc(), 33).unwrap();
    for number in [8589934591u64, 5, 0, 4294967296] {
        assert!(rt; records.width() == 33);
        assert!(rt; number < 8589934592);
        let (len, first) = (records.len(), records.get(0));
        match records.push(number) {
            Ok(()) => check(&rt, records.get(len) == Some(number)),
            Err(why) => {
                check(&rt, why == GrowError::OutOfMemory);
                assert!(rt; records.len() == len);
                check(&rt, records.get(0) == first);
            }
        }
        let copied: Result<Records<u8, Msb0>, AllocError> = records.clone();
        match copied {
            Ok(copy) => {
                assert!(rt; copy.len() == records.len());
                check(&rt, copy.get(0) == records.get(0));
            }
            Err(_) => {
                assert!(rt; records.len() > 0);
                check(&rt, records.get(0) == Some(8589934591));
            }
        }
    }
}

#[test]
fn shorter(rt: HostRuntime) {
    let mut records = Records::<u8, Msb0>::new(rt.alloc(), 5).unwrap();
    check(&rt, records.pop() == None);
    ok(&rt, records.extend_from_slice(&[1, 31, 0, 7]));
    check(&rt, records.pop() == Some(7));
    assert!(rt; records.len() == 3);
    records.truncate(3);
    records.truncate(1);
    check(&rt, [records.get(0), records.get(1)] == [Some(1), None]);
    let bits = ok(&rt, records.clone()).into_bits();
    check(&rt, bits.as_raw_slice() == [0x08].as_slice());
    records.clear();
    check(&rt, records.is_empty());
    assert!(rt; records.width() == 5);
}

#[test]
fn both_ends(rt: HostRuntime) {
    let mut records = Records::<u8, Lsb0>::new(rt.alloc(), 5).unwrap();
    ok(&rt, records.extend_from_slice(&[1, 31, 0]));
    let mut numbers = records.iter();
    assert!(rt; numbers.len() == 3);
    check(
        &rt,
        [
            numbers.next_back(),
            numbers.next(),
            numbers.next(),
            numbers.next(),
            numbers.next_back(),
        ] == [Some(0), Some(1), Some(31), None, None],
    );
}

#[test]
fn equal_and_printed(rt: HostRuntime) {
    let mut records = Records::<u8, Lsb0>::new(rt.alloc(), 5).unwrap();
    let mut others = Records::<u8, Lsb0>::new(rt.alloc(), 5).unwrap();
    ok(&rt, records.extend_from_slice(&[1, 31, 0]));
    ok(&rt, others.push(1));
    check(&rt, records != others);
    ok(&rt, others.extend_from_slice(&[31, 0]));
    check(&rt, records == others);
    let text = ok(&rt, format!(in rt.alloc(); "{records:?}"));
    check(&rt, text.as_str() == "[1, 31, 0]");
}

#[test]
fn other_width(rt: HostRuntime) {
    let fives = Records::<u8, Lsb0>::new(rt.alloc(), 5).unwrap();
    let sixes = Records::<u8, Lsb0>::new(rt.alloc(), 6).unwrap();
    check(&rt, fives != sixes);
}

#[test]
fn reserved(rt: HostRuntime) {
    let mut records = Records::<u8, Msb0>::new(rt.alloc(), 64).unwrap();
    check(&rt, records.reserve(usize::MAX) == Err(GrowError::TooLong));
    ok(&rt, records.reserve(2));
    check(&rt, records.is_empty());
}

#[test]
fn from_an_iterator(rt: HostRuntime) {
    let mut records = Records::<u8, Lsb0>::new(rt.alloc(), 5).unwrap();
    assert!(rt; records.width() == 5);
    ok(&rt, records.extend([1, 31, 0]));
    let before = records.len();
    ok(&rt, records.extend(None::<u64>));
    check(&rt, records.len() == before);
    check(&rt, records.get(1) == Some(31));
    let mut others = Records::<u8, Lsb0>::new(rt.alloc(), 5).unwrap();
    ok(&rt, others.extend_from_slice(&[1, 31, 0]));
    check(&rt, records == others);
}

// A refusal after some numbers leaves those from before the call.
#[test]
fn refused_after_some(rt: HostRuntime) {
    let mut records = Records::<u8, Msb0>::new(rt.alloc(), 64).unwrap();
    assert!(rt; records.width() == 64);
    ok(&rt, records.push(7));
    let before = records.len();
    match records.extend([1, 2, 3, 4]) {
        Ok(()) => check(&rt, records.get(4) == Some(4)),
        Err(why) => {
            check(&rt, why == GrowError::OutOfMemory);
            check(&rt, records.len() == before);
        }
    }
    check(&rt, records.get(0) == Some(7));
}
