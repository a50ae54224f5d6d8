//! Searches, sets and parts.
ghost use Rattle.std.specs.Prelude.{◌≡◌, length};

use crate::common::{check, ok};
use bit_addressing::{Lsb0, Msb0};
use bit_boxed::BitBox;
use bit_slice::{BitList, BitSlice};
use std::process::Abort;

// A box of ten bits at head 3, of which bits 1, 2 and 4 are set.
fn ten_bits(rt: &(impl Abort + AllocGlobal)) -> BitBox<u8, Lsb0>
    ensures { length result.list ≡ 10 }
{
    let words = [0xb0_u8, 0x00];
    let view = BitSlice::<u8, Lsb0>::from_slice(&words).get_range(3..13);
    ok(rt, BitBox::from_bitslice_headed(rt.alloc(), view))
}

#[test]
fn searched(rt: HostRuntime) {
    let b = ten_bits(&rt);
    check(&rt, b.first_one() == Some(1));
    check(&rt, b.last_one() == Some(4));
    check(&rt, b.first_zero() == Some(0));
    check(&rt, b.last_zero() == Some(9));
    check(&rt, b.next_one(3) == Some(4));
    check(&rt, b.next_zero(1) == Some(3));
}

#[test]
fn bits_at_the_ends(rt: HostRuntime) {
    let b = ten_bits(&rt);
    check(&rt, b.leading_zeros() == 1);
    check(&rt, b.leading_ones() == 0);
    check(&rt, b.trailing_zeros() == 5);
    check(&rt, b.trailing_ones() == 0);
    check(&rt, b.some());
    check(&rt, b.not_all());
    check(&rt, !b.not_any());
}

#[test]
fn indices_given(rt: HostRuntime) {
    let b = ten_bits(&rt);
    check(&rt, b.iter_ones().len() == 3);
    check(&rt, b.iter_zeros().len() == 7);
    let words = [0xa000_u16];
    let part = BitSlice::<u16, Msb0>::from_slice(&words).get_range(0..3);
    check(&rt, b.find(part) == Some(2));
    check(&rt, b.contains(part));
}

#[test]
fn beside_a_view(rt: HostRuntime) {
    let b = ten_bits(&rt);
    let others = [0x0066_u16];
    let other = BitSlice::<u16, Lsb0>::from_slice(&others).get_range(0..7);
    check(&rt, b.count_and(other) == 2);
    check(&rt, b.count_or(other) == 5);
    check(&rt, b.count_xor(other) == 3);
    check(&rt, b.intersects(other));
    check(&rt, !b.is_disjoint(other));
    check(&rt, !b.is_subset(other));
    check(&rt, b.is_superset(other.get_range(0..3)));
}

#[test]
fn taken_apart(rt: HostRuntime) {
    let b = ten_bits(&rt);
    let (front, back) = b.split_at(3);
    check(&rt, b.starts_with(front));
    check(&rt, b.ends_with(back));
    check(&rt, b.split_first().is_some());
    check(&rt, b.split_last().is_some());
    check(&rt, b.load_be() == 416);
    check(&rt, b.load_le() == 22);
}

#[test]
fn taken_in_chunks(rt: HostRuntime) {
    let b = ten_bits(&rt);
    check(&rt, b.chunk(3, 1).load_be() == 2);
    check(&rt, b.chunks(3).len() == 4);
    check(&rt, b.rchunks(3).len() == 4);
    check(&rt, b.chunks_exact(3).len() == 3);
    check(&rt, b.windows(3).len() == 8);
}
