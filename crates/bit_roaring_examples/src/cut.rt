//! Bytes of the portable format that are cut at each place, or changed at each byte: no fault but by name.
use crate::written::{FOUR, bytes_of, evens};
use crate::{check, ok};
use bit_portable::{Fault, ReadError};
use bit_roaring::RoaringSet;
use std::process::Abort;

// Whether bytes are refused since they end too soon.
fn is_short(rt: &impl AllocGlobal, bytes: &[u8]) -> bool {
    matches!(
        RoaringSet::from_bytes(rt.alloc(), bytes),
        Err(ReadError::Fault(Fault::Short))
    )
}

// Whether bytes are refused by a fault, or read as a set whose own bytes are read as the same set.
fn is_judged(rt: &(impl Abort + AllocGlobal), bytes: &[u8]) -> bool {
    match RoaringSet::from_bytes(rt.alloc(), bytes) {
        Err(ReadError::Fault(_)) => true,
        Err(ReadError::Memory) => false,
        Ok(set) => is_back(rt, &set),
    }
}

// Whether the bytes of a set are read as that set.
fn is_back(rt: &(impl Abort + AllocGlobal), set: &RoaringSet) -> bool {
    let bytes = ok(rt, set.to_bytes(true));
    match RoaringSet::from_bytes(rt.alloc(), &bytes) {
        Ok(back) => back == *set,
        Err(_) => false,
    }
}

// Writes a byte at a place.
fn put(rt: &impl Abort, bytes: &mut [u8], place: usize, byte: u8) {
    match bytes.get_mut(place) {
        Some(old) => *old = byte,
        None => check(rt, false),
    }
}

#[test]
fn bytes_cut_at_each_place(rt: HostRuntime) {
    for place in 0..59usize {
        check(&rt, is_short(&rt, &FOUR[..place]));
    }
    check(&rt, is_judged(&rt, FOUR.as_slice()));
}

#[test]
fn bits_cut_at_each_place(rt: HostRuntime) {
    let bytes = bytes_of(&rt, 3, evens(&rt), false);
    check(&rt, bytes.len() == 8208);
    for place in 0..8208usize {
        match bytes.get(..place) {
            Some(front) => check(&rt, is_short(&rt, front)),
            None => check(&rt, false),
        }
    }
}

#[test]
fn each_byte_changed(rt: HostRuntime) {
    for place in 0..59usize {
        for byte in 0..255u8 {
            let mut bytes = FOUR;
            put(&rt, bytes.as_mut_slice(), place, byte);
            check(&rt, is_judged(&rt, bytes.as_slice()));
        }
    }
}

#[test]
fn each_byte_of_bits_changed(rt: HostRuntime) {
    let mut bytes = bytes_of(&rt, 3, evens(&rt), false);
    for place in 0..8208usize {
        let old = bytes.get(place).copied().unwrap_or(0);
        put(&rt, &mut bytes, place, old ^ 2);
        check(&rt, is_judged(&rt, &bytes));
        put(&rt, &mut bytes, place, old);
    }
}
