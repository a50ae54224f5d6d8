//! What users of other libraries write, by the calls of this one.
use crate::common::{check, holds, of, ok};
use bit_containers::{BitList, BitListMut, BitRun, BitVec, Lsb0, Msb0, ViewBits, bits};

#[test]
fn made(rt: HostRuntime) {
    let alloc = rt.alloc();
    let v = ok(&rt, bits![alloc; u8, Msb0; 0, 1, 1]);
    holds(&rt, &v, b"011");
    let v = ok(&rt, BitVec::<u8, Msb0>::repeat(alloc, true, 3));
    holds(&rt, &v, b"111");
    let v = ok(&rt, BitVec::<u8, Msb0>::from_text(alloc, "0110"));
    holds(&rt, &v, b"0110");
}

#[test]
fn collected(rt: HostRuntime) {
    let alloc = rt.alloc();
    let v = ok(
        &rt,
        [true, false].into_iter().collect::<BitVec<u8, Msb0>>(alloc),
    );
    holds(&rt, &v, b"10");
    let bytes = [0x60u8];
    check(&rt, bytes.as_slice().view_bits::<Msb0>().count_ones() == 2);
}

#[test]
fn numbers_at_ranges(rt: HostRuntime) {
    let mut v = of::<u8, Msb0>(&rt, b"0000101000");
    check(&rt, v.load_be_at(3, 6) == 20);
    v.store_be_at(3, 6, 5);
    holds(&rt, &v, b"0000001010");
    v.fill_range(2..5, true);
    holds(&rt, &v, b"0011101010");
}

#[test]
fn single_bits(rt: HostRuntime) {
    let mut v = of::<u16, Lsb0>(&rt, b"0000");
    v.set(2, true);
    check(&rt, v.replace(2, true));
    v.flip(1);
    holds(&rt, &v, b"0110");
}

#[test]
fn combined(rt: HostRuntime) {
    let mut v = of::<u8, Lsb0>(&rt, b"0111");
    let w = of::<u64, Msb0>(&rt, b"0101");
    v &= w.as_bitslice();
    check(&rt, v.eq_bits(w.as_bitslice()));
    v -= w.as_bitslice();
    holds(&rt, &v, b"0000");
}

#[test]
fn searched(rt: HostRuntime) {
    let v = of::<u8, Msb0>(&rt, b"0110100101");
    check(&rt, v.nth_one(2) == Some(4));
    check(&rt, v.count_ones_in(2..7) == 2);
    let b = of::<u8, Lsb0>(&rt, b"01");
    check(&rt, v.find_from(3, b.as_bitslice()) == Some(3));
    check(&rt, v.strip_prefix(b.as_bitslice()).is_some());
}

#[test]
fn exchanged(rt: HostRuntime) {
    let mut v = of::<u8, Msb0>(&rt, b"0110");
    let mut w = of::<u64, Lsb0>(&rt, b"1011");
    v.swap_with(&mut w);
    holds(&rt, &w, b"0110");
    v <<= 3;
    holds(&rt, &v, b"1000");
}

#[test]
fn bytes_of_bits(rt: HostRuntime) {
    let v = of::<u16, Lsb0>(&rt, b"101");
    let bytes = ok(&rt, v.to_bytes::<Msb0>(rt.alloc()));
    let same = ok(
        &rt,
        BitVec::<u8, Msb0>::from_bytes::<Msb0>(rt.alloc(), bytes.as_slice()),
    );
    holds(&rt, &same, b"10100000");
}

#[test]
fn runs(rt: HostRuntime) {
    let v = of::<u8, Msb0>(&rt, b"00111");
    let mut longest = 0;
    for run in v.iter_runs() {
        longest = run.len().max(longest);
    }
    check(&rt, longest == 3);
}

#[test]
fn taken_and_put_back_by_a_mask(rt: HostRuntime) {
    let v = of::<u8, Msb0>(&rt, b"01101001");
    let mask = of::<u16, Lsb0>(&rt, b"11110000");
    let mut taken = of::<u8, Lsb0>(&rt, b"01");
    ok(&rt, taken.extend_where(v.as_bitslice(), mask.as_bitslice()));
    holds(&rt, &taken, b"010110");
    assert!(rt; taken.len() == 6);
    let mut w = of::<u8, Msb0>(&rt, b"00000000");
    w.deposit(mask.as_bitslice(), taken.get_range(2..6));
    holds(&rt, &w, b"01100000");
}

#[test]
fn repeated(rt: HostRuntime) {
    let mut v = of::<u8, Msb0>(&rt, b"01");
    let pattern = of::<u64, Lsb0>(&rt, b"110");
    ok(&rt, v.extend_repeated(pattern.as_bitslice(), 3));
    holds(&rt, &v, b"01110110110");
}

#[test]
fn made_again_from_runs(rt: HostRuntime) {
    let mut v = of::<u8, Msb0>(&rt, b"01");
    let runs = [
        BitRun {
            start: 0,
            end: 3,
            bit: true,
        },
        BitRun {
            start: 3,
            end: 5,
            bit: false,
        },
    ];
    ok(&rt, v.extend_from_runs(&runs));
    holds(&rt, &v, b"0111100");
}
