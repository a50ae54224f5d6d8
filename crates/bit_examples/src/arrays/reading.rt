//! Searches, sets and parts.
use crate::common::check;
use bit_addressing::{Lsb0, Msb0};
use bit_array::BitArray;
use bit_slice::{BitList, BitSlice};

#[test]
fn searched(rt: HostRuntime) {
    let a = BitArray::<[u8; 2], Lsb0>::new([0x16, 0x00]);
    check(&rt, a.first_one() == Some(1));
    check(&rt, a.last_one() == Some(4));
    check(&rt, a.first_zero() == Some(0));
    check(&rt, a.last_zero() == Some(15));
    check(&rt, a.next_one(3) == Some(4));
    check(&rt, a.next_zero(1) == Some(3));
}

#[test]
fn indices_given(rt: HostRuntime) {
    let a = BitArray::<[u8; 2], Lsb0>::new([0x16, 0x00]);
    check(&rt, a.iter_ones().len() == 3);
    check(&rt, a.iter_zeros().len() == 13);
    let words = [0xa000_u16];
    let part = BitSlice::<u16, Msb0>::from_slice(&words).get_range(0..3);
    check(&rt, a.find(part) == Some(2));
    check(&rt, a.contains(part));
}

#[test]
fn bits_at_the_ends(rt: HostRuntime) {
    let a = BitArray::<[u8; 2], Lsb0>::new([0x16, 0x00]);
    check(&rt, a.leading_zeros() == 1);
    check(&rt, a.leading_ones() == 0);
    check(&rt, a.trailing_zeros() == 11);
    check(&rt, a.trailing_ones() == 0);
    check(&rt, a.some());
    check(&rt, a.not_all());
    check(&rt, !a.not_any());
}

#[test]
fn beside_a_view(rt: HostRuntime) {
    let a = BitArray::<u8, Msb0>::new(0x68);
    let others = [0x0066_u16];
    let other = BitSlice::<u16, Lsb0>::from_slice(&others).get_range(0..7);
    check(&rt, a.count_and(other) == 2);
    check(&rt, a.count_or(other) == 5);
    check(&rt, a.count_xor(other) == 3);
    check(&rt, a.intersects(other));
    check(&rt, !a.is_disjoint(other));
    check(&rt, !a.is_subset(other));
    check(&rt, a.is_superset(other.get_range(0..3)));
}

#[test]
fn taken_apart(rt: HostRuntime) {
    let a = BitArray::<u8, Lsb0>::new(0x16);
    let (front, back) = a.split_at(3);
    check(&rt, a.starts_with(front));
    check(&rt, a.ends_with(back));
    check(&rt, a.split_first().is_some());
    check(&rt, a.split_last().is_some());
    check(&rt, a.load_be() == 104);
    check(&rt, a.load_le() == 22);
}

#[test]
fn taken_in_chunks(rt: HostRuntime) {
    let a = BitArray::<u8, Lsb0>::new(0x16);
    check(&rt, a.chunk(3, 1).load_be() == 2);
    check(&rt, a.chunks(3).len() == 3);
    check(&rt, a.rchunks(3).len() == 3);
    check(&rt, a.chunks_exact(3).len() == 2);
    check(&rt, a.windows(3).len() == 6);
}
