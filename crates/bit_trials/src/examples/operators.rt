//! Vectors combined, flipped and compared.
use crate::common::{check, holds, of, ok, shows};
use bit_containers::array::BitArray;
use bit_containers::{BitSlice, BitVec, Lsb0, Msb0};

#[test]
fn combined(rt: HostRuntime) {
    let both = of::<u8, Lsb0>(&rt, b"0011") & of::<u8, Lsb0>(&rt, b"01");
    holds(&rt, &both, b"0000");
    let either = of::<u8, Lsb0>(&rt, b"0011") | of::<u8, Lsb0>(&rt, b"01");
    holds(&rt, &either, b"0111");
    let one_alone = of::<u8, Lsb0>(&rt, b"0011") ^ of::<u8, Lsb0>(&rt, b"01");
    holds(&rt, &one_alone, b"0111");
}

#[test]
fn combined_in_place(rt: HostRuntime) {
    let mut v = of::<u8, Lsb0>(&rt, b"01");
    v &= of(&rt, b"1111");
    v ^= of(&rt, b"1111");
    holds(&rt, &v, b"10");
    v |= of(&rt, b"1111");
    holds(&rt, &v, b"11");
}

#[test]
fn flipped(rt: HostRuntime) {
    let v = ok(&rt, BitVec::<u8, Lsb0>::repeat(rt.alloc(), true, 5));
    holds(&rt, &v, b"11111");
    let v = !v;
    holds(&rt, &v, b"00000");
    shows(&rt, &v, &[0x00]);
    shows(&rt, &!v, &[0xff]);
}

#[test]
fn compared_at_another_head(rt: HostRuntime) {
    let words = [0xa8, 0x07];
    let view = BitSlice::<u8, Lsb0>::from_slice(&words).get_range(3..11);
    let mut headed = ok(&rt, BitVec::from_bitslice_headed(rt.alloc(), view));
    let aligned = ok(&rt, BitVec::<u8, Lsb0>::from_element(rt.alloc(), 0xf5));
    check(&rt, headed == aligned);
    headed.force_align();
    headed.set_uninitialized(false);
    shows(&rt, &headed, &[0xf5]);
}

#[test]
fn compared_with_a_longer(rt: HostRuntime) {
    let short = of::<u8, Lsb0>(&rt, b"0");
    let long = of::<u8, Lsb0>(&rt, b"00");
    check(&rt, short.as_raw_slice() == long.as_raw_slice());
    check(&rt, short != long);
    check(&rt, short < long);
}

#[test]
fn combined_with_views(rt: HostRuntime) {
    let mask = of::<u64, Msb0>(&rt, b"101");
    let mut v = of::<u8, Lsb0>(&rt, b"0111");
    v &= mask.as_bitslice();
    v |= mask.as_bitslice();
    v ^= mask.get_range(..1);
    holds(&rt, &v, b"0010");
    v |= mask.as_bitslice();
    v -= mask.get_range(..1);
    v <<= 2;
    v >>= 3;
    holds(&rt, &v, b"0001");
}

#[test]
fn boxes_combined_with_views(rt: HostRuntime) {
    let mask = of::<u16, Lsb0>(&rt, b"101");
    let mut b = ok(&rt, of::<u8, Msb0>(&rt, b"0111").into_boxed_bitslice());
    b &= mask.as_bitslice();
    b <<= 1;
    b |= mask.as_bitslice();
    b ^= mask.get_range(..1);
    b -= mask.get_range(1..);
    b >>= 1;
    check(&rt, b.as_raw_slice() == [0x10].as_slice());
}

#[test]
fn arrays_combined_with_views(rt: HostRuntime) {
    let mask = of::<u16, Lsb0>(&rt, b"101");
    let mut a = BitArray::<u8, Msb0>::new(0x70);
    a &= mask.as_bitslice();
    a |= mask.as_bitslice();
    a ^= mask.get_range(..1);
    a -= mask.get_range(1..);
    a <<= 1;
    a >>= 2;
    check(&rt, a.into_inner() == 0x10);
}

#[test]
fn compared_by_the_first_bit(rt: HostRuntime) {
    let (low, high) = (of::<u8, Msb0>(&rt, b"01"), of(&rt, b"1"));
    check(&rt, low < high);
}
