//! Bytes that are not in the portable format: each fault.
use crate::check;
use crate::written::{bytes_of, evens};
use bit_portable::{Fault, ReadError, read};
use std::process::Abort;

// The fault that reading comes to.
fn fault_of(rt: &impl AllocGlobal, bytes: &[u8]) -> Option<Fault> {
    match read(rt.alloc(), bytes) {
        Ok(_) => None,
        Err(ReadError::Memory) => None,
        Err(ReadError::Fault(fault)) => Some(fault),
    }
}

// That reading comes to a fault.
fn fails(rt: &(impl Abort + AllocGlobal), bytes: &[u8], fault: Fault) {
    check(rt, fault_of(rt, bytes) == Some(fault));
}

#[test]
fn bytes_that_end_too_soon(rt: HostRuntime) {
    fails(&rt, &[], Fault::Short);
    fails(&rt, &[58, 48, 0, 0], Fault::Short);
    let without_last = [58, 48, 0, 0, 1, 0, 0, 0, 0, 0, 1, 0, 16, 0, 0, 0, 3, 0, 7];
    fails(&rt, without_last.as_slice(), Fault::Short);
}

#[test]
fn a_start_that_is_none(rt: HostRuntime) {
    fails(&rt, &[57, 48, 0, 0, 0, 0, 0, 0], Fault::Cookie);
    fails(&rt, &[58, 48, 1, 0, 0, 0, 0, 0], Fault::Cookie);
    fails(&rt, &[58, 48, 0, 0, 1, 0, 1, 0], Fault::TooMany);
}

#[test]
fn blocks_out_of_order(rt: HostRuntime) {
    let same_key = [
        58, 48, 0, 0, 2, 0, 0, 0, 1, 0, 0, 0, 1, 0, 0, 0, 24, 0, 0, 0, 26, 0, 0, 0, 5, 0, 6, 0,
    ];
    fails(&rt, same_key.as_slice(), Fault::Keys);
    let wrong_place = [
        58, 48, 0, 0, 1, 0, 0, 0, 0, 0, 1, 0, 17, 0, 0, 0, 3, 0, 7, 0,
    ];
    fails(&rt, wrong_place.as_slice(), Fault::Offset);
    let byte_after = [
        58, 48, 0, 0, 1, 0, 0, 0, 0, 0, 1, 0, 16, 0, 0, 0, 3, 0, 7, 0, 0,
    ];
    fails(&rt, byte_after.as_slice(), Fault::Trailing);
}

#[test]
fn a_number_twice(rt: HostRuntime) {
    let bytes = [
        58, 48, 0, 0, 1, 0, 0, 0, 0, 0, 1, 0, 16, 0, 0, 0, 3, 0, 3, 0,
    ];
    fails(&rt, bytes.as_slice(), Fault::Unsorted);
}

#[test]
fn runs_that_are_none(rt: HostRuntime) {
    fails(&rt, &[59, 48, 0, 0, 1, 0, 0, 0, 0, 0, 0], Fault::NoRun);
    let touching = [59, 48, 0, 0, 1, 0, 0, 3, 0, 2, 0, 0, 0, 1, 0, 2, 0, 1, 0];
    fails(&rt, touching.as_slice(), Fault::Runs);
    let passing = [59, 48, 0, 0, 1, 0, 0, 1, 0, 1, 0, 255, 255, 1, 0];
    fails(&rt, passing.as_slice(), Fault::Runs);
    let one_too_many = [59, 48, 0, 0, 1, 0, 0, 8, 0, 1, 0, 0, 0, 9, 0];
    fails(&rt, one_too_many.as_slice(), Fault::Cardinality);
}

#[test]
fn a_bit_is_missing(rt: HostRuntime) {
    let mut bytes = bytes_of(&rt, 3, evens(&rt), false);
    check(&rt, fault_of(&rt, &bytes) == None);
    match bytes.get_mut(16) {
        Some(byte) => *byte = 84,
        None => check(&rt, false),
    }
    fails(&rt, &bytes, Fault::Cardinality);
}
