//! The calls of a view that the box has itself: bits read, written and combined at a head.
use crate::boxes::{headed, shows};
use crate::common::check;
use bit_addressing::{Lsb0, Msb0};
use bit_slice::{BitList, BitListMut, BitSlice};
use std::cmp::Ordering;

#[test]
fn bits_and_parts(rt: HostRuntime) {
    let mut b = headed(&rt, &[0xa8, 0x07]);
    check(&rt, !b.replace(1, true));
    b.swap(0, 3);
    shows(&rt, &b, &[0xf0, 0x07]);
    check(&rt, b.count_zeros() == 1);
    check(&rt, b.any());
    check(&rt, !b.all());
}

#[test]
fn compared_with_views(rt: HostRuntime) {
    let b = headed(&rt, &[0xa8, 0x07]);
    let others = [0xaf00_u16];
    let others = BitSlice::<u16, Msb0>::from_slice(&others);
    check(&rt, b.eq_bits(others.get_range(0..8)));
    check(&rt, b.cmp_bits(others) == Ordering::Less);
    check(&rt, b.get_range(1..8).head() == 4);
}

#[test]
fn copied_from_a_view(rt: HostRuntime) {
    let mut b = headed(&rt, &[0xa8, 0x07]);
    let wide = [0x1234_u16];
    b.clone_from_bitslice(BitSlice::<u16, Msb0>::from_slice(&wide).get_range(4..12));
    shows(&rt, &b, &[0x20, 0x06]);
}

#[test]
fn combined_with_views(rt: HostRuntime) {
    let mut b = headed(&rt, &[0x20, 0x06]);
    let short = [0x03_u8];
    b.or_bits(BitSlice::<u8, Lsb0>::from_slice(&short).get_range(0..2));
    let six = [0x0f_u8];
    b.and_bits(BitSlice::<u8, Lsb0>::from_slice(&six).get_range(0..6));
    let ends = [0x8100_u16];
    b.xor_bits(BitSlice::<u16, Msb0>::from_slice(&ends).get_range(0..8));
    shows(&rt, &b, &[0x30, 0x04]);
}

#[test]
fn copied_within(rt: HostRuntime) {
    let mut b = headed(&rt, &[0x30, 0x04]);
    let _meter = b.copy_within_counted(1..3, 4);
    shows(&rt, &b, &[0xb0, 0x05]);
}
