//! Operators, moves and the iterator.
use crate::common::check;
use crate::rows::orders::Xor4;
use bit_addressing::{Lsb0, Msb0};
use bit_array::BitArray;
use bit_slice::BitListMut;

const LEFT: [u8; 2] = [0xb1, 0x6d];

const RIGHT: [u8; 2] = [0x5a, 0xc3];

#[test]
fn combined(rt: HostRuntime) {
    let and = BitArray::<[u8; 2], Msb0>::new(LEFT) & BitArray::new(RIGHT);
    check(&rt, and.into_inner() == [0x10, 0x41]);
    let or = BitArray::<[u8; 2], Msb0>::new(LEFT) | BitArray::new(RIGHT);
    check(&rt, or.into_inner() == [0xfb, 0xef]);
    let xor = BitArray::<[u8; 2], Msb0>::new(LEFT) ^ BitArray::new(RIGHT);
    check(&rt, xor.into_inner() == [0xeb, 0xae]);
}

#[test]
fn flipped(rt: HostRuntime) {
    let not = !BitArray::<[u8; 2], Msb0>::new(LEFT);
    check(&rt, not.into_inner() == [0x4e, 0x92]);
}

// By an order of the library, and by one of a user.
#[test]
fn moved(rt: HostRuntime) {
    let mut a = BitArray::<u8, Lsb0>::new(0x07);
    a.copy_within(0..3, 5);
    check(&rt, a.into_inner() == 0xe7);
    let mut a = BitArray::<u8, Xor4>::new(0x70);
    a.copy_within(0..3, 5);
    check(&rt, a.into_inner() == 0x7e);
}

#[test]
fn iterated(rt: HostRuntime) {
    let a = BitArray::<u8, Lsb0>::new(0x05);
    check(&rt, a.head() == 0);
    let mut bits = a.iter();
    check(&rt, bits.next() == Some(true));
    check(&rt, bits.next() == Some(false));
    check(&rt, bits.next_back() == Some(false));
    check(&rt, bits.len() == 5);
}
