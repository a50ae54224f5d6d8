//! The writing calls of a view that the array has itself.
use crate::common::check;
use bit_addressing::{Lsb0, Msb0};
use bit_array::BitArray;
use bit_slice::{BitListMut, BitSlice};

#[test]
fn parts_written(rt: HostRuntime) {
    let mut a = BitArray::<[u8; 2], Lsb0>::new([0x4d, 0x8b]);
    a.fill_range(2..5, false);
    a.flip_range(..4);
    a.flip(15);
    let ends = [0x09_u8];
    a.copy_into(
        4..8,
        BitSlice::<u8, Lsb0>::from_slice(&ends).get_range(0..4),
    );
    check(&rt, a.as_raw_slice() == [0x9e, 0x0b].as_slice());
}

#[test]
fn parts_combined(rt: HostRuntime) {
    let mut a = BitArray::<[u8; 2], Lsb0>::new([0x9e, 0x0b]);
    let first_and_third = [0x05_u16];
    a.and_range(0..4, BitSlice::<u16, Lsb0>::from_slice(&first_and_third));
    let second_and_fourth = [0x0a_u8];
    a.or_range(8..12, BitSlice::<u8, Lsb0>::from_slice(&second_and_fourth));
    let middle = [0x06_u8];
    a.xor_range(10..14, BitSlice::<u8, Lsb0>::from_slice(&middle));
    let first_two = [0x03_u8];
    a.and_not_bits(BitSlice::<u8, Lsb0>::from_slice(&first_two));
    check(&rt, a.as_raw_slice() == [0x94, 0x13].as_slice());
}

#[test]
fn turned(rt: HostRuntime) {
    let mut a = BitArray::<[u8; 2], Lsb0>::new([0x4d, 0x8b]);
    a.reverse();
    a.rotate_left(3);
    a.rotate_right(1);
    check(&rt, a.as_raw_slice() == [0xb4, 0x6c].as_slice());
}

#[test]
fn shifted(rt: HostRuntime) {
    let mut a = BitArray::<[u8; 2], Lsb0>::new([0xb4, 0x6c]);
    a.shift_left(1);
    a.shift_right(2);
    check(&rt, a.as_raw_slice() == [0x68, 0xd9].as_slice());
}

#[test]
fn combined_within(rt: HostRuntime) {
    let mut a = BitArray::<[u8; 2], Lsb0>::new([0x68, 0xd9]);
    a.or_within(3..6, 0);
    a.and_within(0..4, 2);
    a.xor_within(3..7, 4);
    check(&rt, a.as_raw_slice() == [0xa5, 0xd9].as_slice());
}

#[test]
fn numbers_written(rt: HostRuntime) {
    let mut a = BitArray::<[u8; 2], Lsb0>::new([0x4d, 0x8b]);
    a.store_le(0xc135);
    check(&rt, a.as_raw_slice() == [0x35, 0xc1].as_slice());
    a.store_be(0xc135);
    check(&rt, a.as_raw_slice() == [0x83, 0xac].as_slice());
}

#[test]
fn part_lands(rt: HostRuntime) {
    let mut a = BitArray::<[u8; 2], Lsb0>::new([0x4d, 0x8b]);
    a.part_mut(6, 13).fill(true);
    check(&rt, a.as_raw_slice() == [0xcd, 0x9f].as_slice());
}

/// A part over several words, between words that stay.
#[test]
fn part_between_words(rt: HostRuntime) {
    let mut a = BitArray::<[u8; 5], Lsb0>::new([0x11, 0x22, 0x33, 0x44, 0x55]);
    a.part_mut(12, 28).fill(true);
    check(
        &rt,
        a.as_raw_slice() == [0x11, 0xf2, 0xff, 0x4f, 0x55].as_slice(),
    );
    a.part_mut(8, 24).set(1, false);
    check(
        &rt,
        a.as_raw_slice() == [0x11, 0xf0, 0xff, 0x4f, 0x55].as_slice(),
    );
}

#[test]
fn part_between_words_from_the_highest_place(rt: HostRuntime) {
    let mut a = BitArray::<[u8; 5], Msb0>::new([0x11, 0x22, 0x33, 0x44, 0x55]);
    a.part_mut(4, 36).fill(false);
    check(&rt, a.as_raw_slice() == [0x10, 0, 0, 0, 0x05].as_slice());
    a.part_mut(16, 24).flip_all();
    check(&rt, a.as_raw_slice() == [0x10, 0, 0xff, 0, 0x05].as_slice());
}
