//! The writing calls of a view that the box has itself: at a head, and dead bits stay.
use crate::boxes::{headed, shows};
use bit_addressing::Lsb0;
use bit_slice::{BitListMut, BitSlice};

#[test]
fn parts_filled_and_flipped(rt: HostRuntime) {
    let mut b = headed(&rt, &[0xa8, 0x07]);
    b.fill_range(2..5, false);
    b.flip_range(..4);
    b.flip(7);
    shows(&rt, &b, &[0x70, 0x03]);
}

#[test]
fn parts_written(rt: HostRuntime) {
    let mut b = headed(&rt, &[0x70, 0x03]);
    let ends = [0x09_u8];
    b.copy_into(4.., BitSlice::<u8, Lsb0>::from_slice(&ends).get_range(0..4));
    let first_and_third = [0x05_u16];
    b.and_range(0..4, BitSlice::<u16, Lsb0>::from_slice(&first_and_third));
    shows(&rt, &b, &[0xa0, 0x04]);
}

#[test]
fn parts_combined(rt: HostRuntime) {
    let mut b = headed(&rt, &[0xa0, 0x04]);
    let second_and_fourth = [0x0a_u8];
    b.or_range(2..6, BitSlice::<u8, Lsb0>::from_slice(&second_and_fourth));
    let middle = [0x06_u8];
    b.xor_range(4..8, BitSlice::<u8, Lsb0>::from_slice(&middle));
    let taken = [0x14_u8];
    b.and_not_bits(BitSlice::<u8, Lsb0>::from_slice(&taken));
    shows(&rt, &b, &[0x40, 0x06]);
}

#[test]
fn turned(rt: HostRuntime) {
    let mut b = headed(&rt, &[0xa8, 0x07]);
    b.reverse();
    b.rotate_left(3);
    b.rotate_right(1);
    shows(&rt, &b, &[0x58, 0x07]);
}

#[test]
fn shifted(rt: HostRuntime) {
    let mut b = headed(&rt, &[0x58, 0x07]);
    b.shift_left(1);
    b.shift_right(2);
    shows(&rt, &b, &[0xa0, 0x06]);
}

#[test]
fn combined_within(rt: HostRuntime) {
    let mut b = headed(&rt, &[0xa0, 0x06]);
    b.or_within(3..6, 0);
    b.and_within(0..4, 2);
    b.xor_within(3..7, 4);
    shows(&rt, &b, &[0x90, 0x03]);
}

#[test]
fn numbers_written(rt: HostRuntime) {
    let mut b = headed(&rt, &[0x90, 0x03]);
    b.store_le(0xc1);
    shows(&rt, &b, &[0x08, 0x06]);
    b.store_be(0xc1);
    shows(&rt, &b, &[0x18, 0x04]);
}

// What is written through a part lands in the box, and the bits around it stay.
#[test]
fn part_lands(rt: HostRuntime) {
    let mut b = headed(&rt, &[0xa8, 0x07]);
    b.part_mut(4, 7).fill(false);
    shows(&rt, &b, &[0x28, 0x04]);
}
