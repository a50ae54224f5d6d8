//! Searches, sets and parts.
use crate::common::{check, of};
use bit_containers::{BitList, BitSlice, Lsb0, Msb0};

#[test]
fn searched(rt: HostRuntime) {
    let v = of::<u8, Lsb0>(&rt, b"0110100000");
    check(&rt, v.first_one() == Some(1));
    check(&rt, v.last_one() == Some(4));
    check(&rt, v.first_zero() == Some(0));
    check(&rt, v.last_zero() == Some(9));
    check(&rt, v.next_one(3) == Some(4));
    check(&rt, v.next_zero(1) == Some(3));
}

#[test]
fn bits_at_the_ends(rt: HostRuntime) {
    let v = of::<u8, Lsb0>(&rt, b"0110100000");
    check(&rt, v.leading_zeros() == 1);
    check(&rt, v.leading_ones() == 0);
    check(&rt, v.trailing_zeros() == 5);
    check(&rt, v.trailing_ones() == 0);
    check(&rt, v.some());
    check(&rt, v.not_all());
    check(&rt, !v.not_any());
}

#[test]
fn indices_given(rt: HostRuntime) {
    let v = of::<u8, Lsb0>(&rt, b"0110100000");
    check(&rt, v.iter_ones().len() == 3);
    check(&rt, v.iter_zeros().len() == 7);
    let words = [0xa000_u16];
    let part = BitSlice::<u16, Msb0>::from_slice(&words).get_range(0..3);
    check(&rt, v.find(part) == Some(2));
    check(&rt, v.contains(part));
}

#[test]
fn beside_a_view(rt: HostRuntime) {
    let v = of::<u8, Msb0>(&rt, b"01101");
    let others = [0x0066_u16];
    let other = BitSlice::<u16, Lsb0>::from_slice(&others).get_range(0..7);
    check(&rt, v.count_and(other) == 2);
    check(&rt, v.count_or(other) == 5);
    check(&rt, v.count_xor(other) == 3);
    check(&rt, v.intersects(other));
    check(&rt, !v.is_disjoint(other));
    check(&rt, !v.is_subset(other));
    check(&rt, v.is_superset(other.get_range(0..3)));
}

#[test]
fn taken_apart(rt: HostRuntime) {
    let v = of::<u8, Lsb0>(&rt, b"0110100");
    let (front, back) = v.split_at(3);
    check(&rt, v.starts_with(front));
    check(&rt, v.ends_with(back));
    check(&rt, v.split_first().is_some());
    check(&rt, v.split_last().is_some());
    check(&rt, v.load_be() == 52);
    check(&rt, v.load_le() == 22);
}

#[test]
fn taken_in_chunks(rt: HostRuntime) {
    let v = of::<u8, Lsb0>(&rt, b"0110100");
    check(&rt, v.chunk(3, 1).load_be() == 2);
    check(&rt, v.chunks(3).len() == 3);
    check(&rt, v.rchunks(3).len() == 3);
    check(&rt, v.chunks_exact(3).len() == 2);
    check(&rt, v.windows(3).len() == 5);
}
