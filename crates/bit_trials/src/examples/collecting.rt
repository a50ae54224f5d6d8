//! Vectors and boxes collected, extended, taken and written down.
use crate::common::{check, holds, of, ok, shows};
use bit_containers::array::BitArray;
use bit_containers::boxed::BitBox;
use bit_containers::{
    BitList, BitSlice, BitSliceMut, BitVec, FromBits, Lsb0, Msb0, ToBytes, ViewBits, ViewBitsMut,
    array_bits, bits, boxed_bits,
};
use std::default::MadeWith;
use std::iter::Extend;
use std::mem;

#[test]
fn more_bits_than_a_word_are_collected(rt: HostRuntime) {
    let mut many = [false; 130];
    many[0] = true;
    many[64] = true;
    many[129] = true;
    let v: BitVec<u32, Msb0> = ok(&rt, many.iter().copied().collect(rt.alloc()));
    check(&rt, v.len() == 130);
    check(&rt, v.count_ones() == 3);
    check(&rt, v.last_one() == Some(129));
    let b: BitBox<u8, Lsb0> = ok(&rt, many.iter().collect(rt.alloc()));
    check(&rt, b.len() == 130);
    check(&rt, b.eq_bits(v.as_bitslice()));
}

#[test]
fn extended_by_the_trait(rt: HostRuntime) {
    let mut v = of::<u8, Lsb0>(&rt, b"01");
    ok(&rt, Extend::extend(&mut v, [true, true]));
    ok(&rt, Extend::extend(&mut v, &[false, true]));
    holds(&rt, &v, b"011101");
}

#[test]
fn taken(rt: HostRuntime) {
    let mut v = of::<u8, Lsb0>(&rt, b"01");
    let taken = ok(&rt, mem::try_take(&mut v));
    check(&rt, v.is_empty());
    let mut b = ok(&rt, taken.into_boxed_bitslice());
    check(&rt, ok(&rt, mem::try_take(&mut b)).len() == 2);
    check(&rt, b.is_empty());
    let made: BitBox<u8, Lsb0> = MadeWith::made_with(rt.alloc());
    check(&rt, made.is_empty());
}

#[test]
fn as_it_is_written(rt: HostRuntime) {
    let v = ok(&rt, bits![rt.alloc(); u8, Msb0; 0, 1, 1, 0, 1]);
    holds(&rt, &v, b"01101");
    shows(&rt, &v, &[0x68]);
    let ones = ok(&rt, bits![rt.alloc(); u16, Lsb0; 1; 20]);
    check(&rt, ones.count_ones() == 20);
}

#[test]
fn boxes_as_they_are_written(rt: HostRuntime) {
    let b = ok(&rt, boxed_bits![rt.alloc(); u8, Lsb0; 0, 1, 1]);
    check(&rt, b.as_raw_slice() == [0x06].as_slice());
    let none = ok(&rt, boxed_bits![rt.alloc(); u8, Lsb0; 0; 3]);
    check(&rt, none.len() == 3);
}

#[test]
fn arrays_as_they_are_written(rt: HostRuntime) {
    check(
        &rt,
        array_bits![[u8; 2], Msb0; 0, 1, 1].into_inner() == [0x60, 0],
    );
    check(
        &rt,
        array_bits![[u8; 2], Lsb0; 1; 9].into_inner() == [0xff, 1],
    );
}

#[test]
fn arrays_made_of_bytes(rt: HostRuntime) {
    let bytes = [0xa0, 0x01];
    let a = ok(
        &rt,
        BitArray::<u16, Lsb0>::from_bytes::<Msb0>(rt.alloc(), &bytes),
    );
    check(&rt, a.into_inner() == 0x8005);
    let back = ok(&rt, a.to_bytes::<Msb0>(rt.alloc()));
    check(&rt, back.as_slice() == bytes.as_slice());
    let short = BitArray::<u32, Lsb0>::from_bytes::<Msb0>(rt.alloc(), &bytes);
    check(&rt, short.is_err());
}

#[test]
fn arrays_made_of_indices_and_text(rt: HostRuntime) {
    let marked = ok(
        &rt,
        BitArray::<u8, Msb0>::from_indices(rt.alloc(), 8, &[3, 0]),
    );
    check(&rt, marked.into_inner() == 0x90);
    let read = ok(&rt, BitArray::<u8, Msb0>::from_text(rt.alloc(), "00000011"));
    check(&rt, read.into_inner() == 3);
}

#[test]
fn view_for_writing_compared(rt: HostRuntime) {
    let (mut left, mut right) = ([0x16_u8], [0x16_u8]);
    let a = BitSliceMut::<u8, Lsb0>::from_slice_mut(&mut left);
    let mut b = BitSliceMut::<u8, Lsb0>::from_slice_mut(&mut right);
    check(&rt, a == b);
    b.set(7, true);
    check(&rt, a < b);
    let mut bits = b.into_iter();
    check(
        &rt,
        [bits.next(), bits.next_back()] == [Some(false), Some(true)],
    );
}

#[test]
fn view_for_writing_shown(rt: HostRuntime) {
    let mut words = [0x96_u8];
    let b = BitSliceMut::<u8, Lsb0>::from_slice_mut(&mut words);
    let text = ok(&rt, format!(in rt.alloc(); "{b} {b:?}"));
    check(
        &rt,
        text.as_str()
            == "[0, 1, 1, 0, 1, 0, 0, 1] BitSliceMut { head: 0, bits: 8 } [0, 1, 1, 0, 1, 0, 0, 1]",
    );
}

#[test]
fn iterators_copied_and_shown(rt: HostRuntime) {
    let words = [0x96_u8];
    let view = BitSlice::<u8, Lsb0>::from_slice(&words);
    let mut bits = view.iter();
    check(&rt, bits.next() == Some(false));
    let again = ok(&rt, bits.clone());
    check(&rt, again.count() == 7);
    check(&rt, bits.as_bitslice().count_ones() == 4);
    let shown = ok(&rt, format!(in rt.alloc(); "{bits:?}"));
    check(
        &rt,
        shown.as_str() == "Iter { bits: 7 } [1, 1, 0, 1, 0, 0, 1]",
    );
}

#[test]
fn indices_copied_and_shown(rt: HostRuntime) {
    let words = [0x96_u8];
    let view = BitSlice::<u8, Lsb0>::from_slice(&words);
    let mut ones = view.iter_ones();
    check(&rt, ones.next() == Some(1));
    let mut others = ok(&rt, ones.clone());
    check(&rt, others.next() == Some(2));
    let shown = ok(&rt, format!(in rt.alloc(); "{ones:?}"));
    check(
        &rt,
        shown.as_str() == "IterOnes { from: 2, upto: 8 } [0, 1, 1, 0, 1, 0, 0, 1]",
    );
    let mut zeros = ok(&rt, view.iter_zeros().clone());
    check(&rt, zeros.next() == Some(0));
}

#[test]
fn runs_copied_and_shown(rt: HostRuntime) {
    let words = [0x96_u8];
    let view = BitSlice::<u8, Lsb0>::from_slice(&words);
    let mut runs = view.iter_runs();
    check(&rt, runs.next().is_some());
    check(&rt, ok(&rt, runs.clone()).count() == 5);
    let ranges = ok(&rt, view.iter_ranges(true).clone());
    let shown = ok(&rt, format!(in rt.alloc(); "{ranges:?}"));
    check(
        &rt,
        shown.as_str() == "IterRanges { bit: true } IterRuns { start: 0 } [0, 1, 1, 0, 1, 0, 0, 1]",
    );
}

#[test]
fn places_copied(rt: HostRuntime) {
    let words = [0x96_u8];
    let view = BitSlice::<u8, Lsb0>::from_slice(&words);
    let mut places = view.find_all(view.get_range(0..2));
    check(&rt, places.next() == Some(0));
    let mut again = ok(&rt, places.clone());
    check(&rt, again.next() == Some(3));
}

#[test]
fn chunks_copied(rt: HostRuntime) {
    let words = [0x96_u8];
    let view = BitSlice::<u8, Lsb0>::from_slice(&words);
    check(&rt, ok(&rt, view.chunks(3).clone()).count() == 3);
    check(&rt, ok(&rt, view.chunks_exact(3).clone()).count() == 2);
    check(&rt, ok(&rt, view.rchunks(3).clone()).count() == 3);
}

#[test]
fn windows_shown(rt: HostRuntime) {
    let words = [0x96_u8];
    let view = BitSlice::<u8, Lsb0>::from_slice(&words);
    let shown = ok(&rt, format!(in rt.alloc(); "{:?}", view.windows(3)));
    check(
        &rt,
        shown.as_str() == "Windows { size: 3, from: 0, upto: 6 } [0, 1, 1, 0, 1, 0, 0, 1]",
    );
}

#[test]
fn words_seen_as_bits(rt: HostRuntime) {
    let mut words = [0x1234_u16, 0];
    check(&rt, words.as_slice().view_bits::<Msb0>().count_ones() == 5);
    words.as_mut_slice().view_bits_mut::<Lsb0>().set(16, true);
    check(&rt, words == [0x1234, 1]);
}
