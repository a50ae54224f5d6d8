//! The calls of a view that the array has itself.
use crate::common::check;
use bit_addressing::{Lsb0, Msb0};
use bit_array::BitArray;
use bit_slice::{BitList, BitListMut, BitSlice};
use std::cmp::Ordering;

#[test]
fn single_bits(rt: HostRuntime) {
    let mut a = BitArray::<[u8; 2], Msb0>::new([0x80, 0x01]);
    check(&rt, !a.replace(1, true));
    a.swap(0, 8);
    check(&rt, a.as_raw_slice() == [0x40, 0x81].as_slice());
}

#[test]
fn a_part(rt: HostRuntime) {
    let a = BitArray::<[u8; 2], Msb0>::new([0x40, 0x81]);
    check(&rt, a.get_range(6..10).count_ones() == 1);
    check(&rt, a.count_zeros() == 13);
    check(&rt, a.any());
    check(&rt, !a.all());
}

#[test]
fn compared_with_views(rt: HostRuntime) {
    let a = BitArray::<[u8; 2], Msb0>::new([0x40, 0x81]);
    let same = [0x4081_u16];
    let view = BitSlice::<u16, Msb0>::from_slice(&same);
    check(&rt, a.eq_bits(view));
    check(&rt, a.cmp_bits(view) == Ordering::Equal);
}

#[test]
fn combined_with_views(rt: HostRuntime) {
    let mut a = BitArray::<[u8; 2], Msb0>::new([0x2c, 0x48]);
    let four = [0x03_u8];
    a.or_bits(BitSlice::<u8, Lsb0>::from_slice(&four).get_range(0..4));
    let twelve = [0xf0_u8, 0xf0];
    a.and_bits(BitSlice::<u8, Msb0>::from_slice(&twelve).get_range(0..12));
    let long = [1_u64];
    a.xor_bits(BitSlice::<u64, Lsb0>::from_slice(&long));
    check(&rt, a.as_raw_slice() == [0x60, 0x40].as_slice());
}

#[test]
fn copied_from_a_view(rt: HostRuntime) {
    let mut a = BitArray::<[u8; 2], Msb0>::zero();
    let wide = [0x0001_2340_u32];
    a.clone_from_bitslice(BitSlice::<u32, Lsb0>::from_slice(&wide).get_range(4..20));
    check(&rt, a.as_raw_slice() == [0x2c, 0x48].as_slice());
    let _meter = a.copy_within_counted(1..3, 12);
    check(&rt, a.as_raw_slice() == [0x2c, 0x44].as_slice());
}
