//! Short lists in an array.
mod callers;

use crate::{check, ok};
use bit_addressing::{Lsb0, Msb0};
use bit_containers::{BitList, BitListMut, BitSlice};
use bit_small::{Full, SmallBits};

#[test]
fn pushed_until_full(rt: HostRuntime) {
    let mut bits = SmallBits::<u8, Msb0>::new();
    for i in 0..8u8 {
        check(&rt, bits.push(i % 3 == 0).is_ok());
    }
    check(&rt, bits.push(true) == Err(Full));
    check(&rt, bits.count_ones() == 3);
    check(&rt, bits.capacity() == 8);
}

#[test]
fn popped(rt: HostRuntime) {
    let mut bits = SmallBits::<u16, Lsb0>::new();
    check(&rt, bits.pop().is_none());
    check(&rt, bits.push(true).is_ok());
    check(&rt, bits.push(false).is_ok());
    check(&rt, [bits.pop(), bits.pop()] == [Some(false), Some(true)]);
    check(&rt, bits.is_empty());
}

#[test]
fn lengthened_by_a_view(rt: HostRuntime) {
    let view = BitSlice::<u8, Msb0>::from_slice(&[0x69]);
    let Ok(mut bits) = SmallBits::<[u8; 2], Msb0>::from_bitslice(view.get_range(0..6)) else {
        return check(&rt, false);
    };
    check(&rt, bits.extend_from_bitslice(view).is_ok());
    check(&rt, bits.len() == 14);
    check(&rt, bits.extend_from_bitslice(view) == Err(Full));
    bits.truncate(3);
    check(&rt, bits.get(2) == Some(true));
    bits.clear();
    check(&rt, bits.first().is_none());
}

#[test]
fn written_and_compared(rt: HostRuntime) {
    let mut bits = SmallBits::<u32, Lsb0>::new();
    check(&rt, bits.push(false).is_ok());
    let mut other = ok(&rt, bits.clone());
    assert!(rt; other.len() == 1);
    other.set(0, true);
    check(&rt, bits != other);
    assert!(rt; other.len() == 1);
    other.flip(0);
    check(&rt, bits == other);
}

#[test]
fn inserted_and_removed(rt: HostRuntime) {
    let mut bits = SmallBits::<u8, Msb0>::new();
    check(&rt, bits.resize(3, false).is_ok());
    assert!(rt; bits.len() == 3);
    check(&rt, bits.insert(1, true).is_ok());
    assert!(rt; bits.len() == 4);
    check(&rt, bits.insert(4, true).is_ok());
    assert!(rt; bits.len() == 5);
    check(&rt, !bits.remove(0));
    check(&rt, [bits.first(), bits.last()] == [Some(true); 2]);
    check(&rt, bits.count_ones() == 2);
}

#[test]
fn resized_until_full(rt: HostRuntime) {
    let mut bits = SmallBits::<u8, Lsb0>::new();
    check(&rt, bits.resize(8, true).is_ok());
    check(&rt, bits.resize(9, true) == Err(Full));
    check(&rt, bits.insert(0, false) == Err(Full));
    check(&rt, bits.count_ones() == 8);
    check(&rt, bits.resize(2, false).is_ok());
    check(&rt, bits.len() == 2);
}
