//! The writing calls of a view that the vector has itself.
use crate::common::{holds, of};
use bit_containers::{BitListMut, BitVec, Lsb0};
use bit_slice::BitSlice;

#[test]
fn parts_filled_and_flipped(rt: HostRuntime) {
    let mut v: BitVec<u8, Lsb0> = of(&rt, b"101100101101");
    v.fill_range(2..5, false);
    v.flip_range(..4);
    v.flip(11);
    holds(&rt, &v, b"011100101100");
}

#[test]
fn parts_written(rt: HostRuntime) {
    let mut v: BitVec<u8, Lsb0> = of(&rt, b"011100101100");
    let ones = [0x0f_u8];
    v.copy_into(
        4..8,
        BitSlice::<u8, Lsb0>::from_slice(&ones).get_range(0..4),
    );
    let first_and_third = [0x05_u16];
    v.and_range(0..4, BitSlice::<u16, Lsb0>::from_slice(&first_and_third));
    holds(&rt, &v, b"001011111100");
}

#[test]
fn parts_combined(rt: HostRuntime) {
    let mut v: BitVec<u8, Lsb0> = of(&rt, b"001011111100");
    let last_two = [0x0c_u8];
    v.or_range(
        8..,
        BitSlice::<u8, Lsb0>::from_slice(&last_two).get_range(0..4),
    );
    let middle = [0x06_u8];
    v.xor_range(
        6..10,
        BitSlice::<u8, Lsb0>::from_slice(&middle).get_range(0..4),
    );
    let taken = [0x30_u8];
    v.and_not_bits(BitSlice::<u8, Lsb0>::from_slice(&taken));
    holds(&rt, &v, b"001000100111");
}

#[test]
fn turned(rt: HostRuntime) {
    let mut v: BitVec<u8, Lsb0> = of(&rt, b"110100011000");
    v.reverse();
    v.rotate_left(5);
    v.rotate_right(2);
    holds(&rt, &v, b"110001011000");
}

#[test]
fn shifted(rt: HostRuntime) {
    let mut v: BitVec<u8, Lsb0> = of(&rt, b"110001011000");
    v.shift_left(3);
    v.shift_right(1);
    holds(&rt, &v, b"000101100000");
}

#[test]
fn combined_within(rt: HostRuntime) {
    let mut v: BitVec<u8, Lsb0> = of(&rt, b"000101100000");
    v.or_within(3..6, 9);
    v.and_within(0..4, 3);
    v.xor_within(6..12, 0);
    holds(&rt, &v, b"100101100101");
}

#[test]
fn numbers_written(rt: HostRuntime) {
    let mut v: BitVec<u8, Lsb0> = of(&rt, b"110100011000");
    v.store_le(0x0a5);
    holds(&rt, &v, b"101001010000");
    v.store_be(0x0a5);
    holds(&rt, &v, b"000010100101");
}

#[test]
fn part_lands(rt: HostRuntime) {
    let mut v: BitVec<u8, Lsb0> = of(&rt, b"101100101101");
    v.part_mut(4, 11).flip_all();
    holds(&rt, &v, b"101111010011");
}

#[test]
fn copied_within(rt: HostRuntime) {
    let mut v: BitVec<u8, Lsb0> = of(&rt, b"10110010");
    let _meter = v.copy_within_counted(1..3, 4);
    holds(&rt, &v, b"10110110");
}
