//! Each call of ranks once.
mod callers;
mod ranked;

use crate::{check, ok};
use bit_boxed::BitBox;
use bit_containers::{BitList, BitVec, Msb0};
use bit_ranks::Ranks;
use std::process::Abort;

// Seven bits, of which three are true.
fn seven_in_vec(rt: &(impl Abort + AllocGlobal)) -> BitVec<u8, Msb0> {
    let mut bits = BitVec::new(rt.alloc());
    for bit in [false, true, true, false, true, false, false] {
        ok(rt, bits.push(bit));
    }
    bits
}

fn seven(rt: &(impl Abort + AllocGlobal)) -> Ranks<u8, Msb0> {
    let bits = ok(rt, seven_in_vec(rt).into_boxed_bitslice());
    ok(rt, Ranks::new(rt.alloc(), bits))
}

#[test]
fn seven_bits(rt: HostRuntime) {
    let ranks = seven(&rt);
    assert!(rt; ranks.len() == 7);
    check(&rt, !ranks.is_empty());
    check(
        &rt,
        [
            ranks.index_len(),
            ranks.count_ones(),
            ranks.count_zeros(),
            ranks.rank1(4),
            ranks.rank0(4),
        ] == [0, 3, 4, 2, 2],
    );
    check(
        &rt,
        [ranks.select1(2), ranks.select1(3), ranks.select0(1)] == [Some(4), None, Some(3)],
    );
}

#[test]
fn ones_of_seven_bits(rt: HostRuntime) {
    let ranks = seven(&rt);
    let ones = ok(
        &rt,
        ranks.iter_ones_from(0).collect::<Vec<usize>>(rt.alloc()),
    );
    check(&rt, ones.as_slice() == [1, 2, 4].as_slice());
}

#[test]
fn last_ones_of_seven_bits(rt: HostRuntime) {
    let ranks = seven(&rt);
    let ones = ok(
        &rt,
        ranks.iter_ones_from(2).collect::<Vec<usize>>(rt.alloc()),
    );
    check(&rt, ones.as_slice() == [4].as_slice());
    check(&rt, ranks.iter_ones_from(3).next().is_none());
}

#[test]
fn ones_from_both_ends(rt: HostRuntime) {
    let ranks = seven(&rt);
    let mut ones = ranks.iter_ones_from(0);
    check(&rt, ones.len() == 3);
    check(&rt, ones.next_back() == Some(4));
    check(&rt, ones.size_hint() == (2, Some(2)));
    check(
        &rt,
        [
            ok(&rt, ones.clone()).next_back(),
            ones.next(),
            ones.next(),
            ones.next_back(),
        ] == [Some(2), Some(1), Some(2), None],
    );
}

#[test]
fn seven_bits_of_a_vector(rt: HostRuntime) {
    let ranks = ok(&rt, Ranks::from_vec(rt.alloc(), seven_in_vec(&rt)));
    check(&rt, ranks == seven(&rt));
}

#[test]
fn seven_bits_copied(rt: HostRuntime) {
    let ranks = seven(&rt);
    let copy = ok(&rt, ranks.clone());
    check(&rt, copy.eq_bits(ranks.as_bitslice()));
}

#[test]
fn seven_bits_converted(rt: HostRuntime) {
    let again = ok(&rt, Ranks::try_from(seven_in_vec(&rt)));
    check(&rt, BitBox::from(again).as_raw_slice() == [0x68].as_slice());
}

#[test]
fn seven_bits_at_an_index(rt: HostRuntime) {
    let ranks = seven(&rt);
    assert!(rt; ranks.len() == 7);
    check(&rt, ranks[1]);
    check(&rt, !ranks[3]);
}

#[test]
fn seven_bits_shown(rt: HostRuntime) {
    let ranks = seven(&rt);
    let text = ok(&rt, format!(in rt.alloc(); "{ranks:?}"));
    check(
        &rt,
        text.as_str() == "Ranks { ones: 3 } BitBox { head: 0, bits: 7 } [0, 1, 1, 0, 1, 0, 0]",
    );
    let ones = ranks.iter_ones_from(1);
    let text = ok(&rt, format!(in rt.alloc(); "{ones:?}"));
    check(
        &rt,
        text.as_str()
            == "OnesFrom { base: 2, left: 2 } IterOnes { from: 0, upto: 5 } [1, 0, 1, 0, 0]",
    );
}

#[test]
fn seven_bits_given_up(rt: HostRuntime) {
    let ranks = seven(&rt);
    check(&rt, ranks.as_bitslice().count_ones() == 3);
    check(&rt, ranks.into_bits().as_raw_slice() == [0x68].as_slice());
}
