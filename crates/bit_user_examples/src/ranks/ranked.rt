//! Each call of ranked bits once, and some beside a plain loop.
use crate::ranks::seven_in_vec;
use crate::{check, ok};
use bit_boxed::BitBox;
use bit_containers::{BitList, BitListMut, BitVec, Lsb0, Msb0};
use bit_ranks::RankedBits;
use std::process::Abort;

fn seven(rt: &(impl Abort + AllocGlobal)) -> RankedBits<u8, Msb0> {
    ok(rt, RankedBits::from_vec(rt.alloc(), seven_in_vec(rt)))
}

#[test]
fn seven_bits(rt: HostRuntime) {
    let ranked = seven(&rt);
    assert!(rt; ranked.len() == 7);
    check(&rt, !ranked.is_empty());
    check(&rt, ranked.get(2) == Some(true));
    check(&rt, ranked.count_ones() == 3);
    check(&rt, ranked.count_zeros() == 4);
    check(&rt, ranked.rank1(4) == 2);
    check(&rt, ranked.rank0(4) == 2);
    check(
        &rt,
        [ranked.select1(2), ranked.select0(1)] == [Some(4), Some(3)],
    );
}

#[test]
fn one_bit_written(rt: HostRuntime) {
    let mut ranked = seven(&rt);
    assert!(rt; ranked.len() == 7);
    ranked.set(0, true);
    ranked.flip(1);
    check(&rt, ranked.replace(2, true));
    check(&rt, ranked.into_bits().as_raw_slice() == [0xA8].as_slice());
}

#[test]
fn compared_and_copied(rt: HostRuntime) {
    let ranked = seven(&rt);
    let copy = ok(&rt, ranked.clone());
    check(&rt, copy == ranked);
    check(&rt, copy.eq_bits(ranked.as_bitslice()));
}

#[test]
fn converted(rt: HostRuntime) {
    let again = ok(&rt, RankedBits::try_from(seven_in_vec(&rt)));
    check(&rt, BitBox::from(again).as_raw_slice() == [0x68].as_slice());
}

#[test]
fn shown(rt: HostRuntime) {
    let ranked = seven(&rt);
    let text = ok(&rt, format!(in rt.alloc(); "{ranked:?}"));
    check(
        &rt,
        text.as_str() == "RankedBits { ones: 3 } BitBox { head: 0, bits: 7 } [0, 1, 1, 0, 1, 0, 0]",
    );
}

// Three thousand bits, of which each seventh is true.
fn sevenths(rt: &(impl Abort + AllocGlobal)) -> RankedBits<u64, Lsb0> {
    let mut bits = ok(rt, BitVec::repeat(rt.alloc(), false, 3000));
    bits.fill_with(|i| i % 7 == 0);
    ok(rt, RankedBits::from_vec(rt.alloc(), bits))
}

// Whether ranks and selections are what a plain loop counts.
fn as_counted(ranked: &RankedBits<u64, Lsb0>) -> bool {
    let mut ones = 0;
    let mut zeros = 0;
    for (i, bit) in ranked.as_bitslice().iter().enumerate() {
        if i > ranked.len() || ranked.rank1(i) != ones || ranked.rank0(i) != zeros {
            return false;
        }
        if bit {
            if ranked.select1(ones) != Some(i) {
                return false;
            }
            ones += 1;
        } else {
            if ranked.select0(zeros) != Some(i) {
                return false;
            }
            zeros += 1;
        }
    }
    (ranked.count_ones() == ones) & ranked.select1(ones).is_none()
}

#[test]
fn many_bits_as_counted(rt: HostRuntime) {
    check(&rt, as_counted(&sevenths(&rt)));
}

#[test]
fn many_bits_written(rt: HostRuntime) {
    let mut ranked = sevenths(&rt);
    for k in 0..500 {
        let i = k * 5 + k % 3;
        if i < ranked.len() {
            ranked.flip(i);
        }
    }
    check(&rt, as_counted(&ranked));
}
