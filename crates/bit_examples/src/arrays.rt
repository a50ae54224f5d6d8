//! Examples, and each public call of an array once.
mod callers;
mod operators;
mod reading;
mod slice;
mod writing;

use crate::common::{check, ok};
use crate::radix::{In, Radix};
use bit_addressing::{Lsb0, Msb0};
use bit_array::{BitArray, BitViewSized, BitWords, IntoIter, TryFromBitSliceError};
use bit_slice::{BitList, BitListMut, BitSlice};
use std::cmp::Ordering;
use std::hash::{DefaultHasher, Hash, Hasher};

#[test]
fn made_of_words(rt: HostRuntime) {
    let a = BitArray::<[u8; 2], Msb0>::new([0x80, 0x01]);
    check(&rt, a.len() == 16);
    check(&rt, a.first() == Some(true));
    check(&rt, a.last() == Some(true));
    check(&rt, a.count_ones() == 2);
    check(&rt, a.into_inner().as_slice() == [0x80, 0x01].as_slice());
}

#[test]
fn made_of_no_words(rt: HostRuntime) {
    let none = BitArray::<[u8; 0], Lsb0>::new([]);
    check(&rt, none.len() == 0);
    check(&rt, none.is_empty());
    check(&rt, BitArray::<[u8; 2], Lsb0>::fits());
    let zero = BitArray::<[u16; 2], Lsb0>::zero();
    check(&rt, zero.into_inner().as_slice() == [0, 0].as_slice());
}

#[test]
fn of_each_word(rt: HostRuntime) {
    check(&rt, BitArray::<u8, Lsb0>::new(5).count_ones() == 2);
    check(&rt, BitArray::<u16, Msb0>::new(5).get(15) == Some(true));
    check(&rt, BitArray::<u32, Lsb0>::new(5).len() == 32);
    check(&rt, BitArray::<u64, Msb0>::new(5).last() == Some(true));
    check(&rt, BitArray::<usize, Lsb0>::new(5).get(2) == Some(true));
}

// A word is an array of itself.
#[test]
fn words_as_arrays(rt: HostRuntime) {
    check(&rt, u32::zero() == 0);
    let mut word = 7_u16;
    word.as_raw_mut_slice()[0] = 9;
    check(&rt, word.as_raw_slice() == [9].as_slice());
}

#[test]
fn written(rt: HostRuntime) {
    let mut a = BitArray::<[u8; 2], Msb0>::new([0xff, 0xff]);
    a.as_raw_mut_slice()[1] = 0x0f;
    a.as_mut_bitslice().set(0, false);
    a.as_mut_slice().set(1, false);
    check(&rt, a.as_slice().count_ones() == 10);
    check(&rt, a.as_bitslice().count_zeros() == 6);
}

#[test]
fn combined(rt: HostRuntime) {
    let a = BitArray::<u8, Msb0>::new(0x30);
    let b = BitArray::<u8, Msb0>::new(0x50);
    let mut c = a;
    c &= b;
    c |= a;
    c ^= b;
    check(&rt, c.into_inner() == 0x60);
}

#[test]
fn compared(rt: HostRuntime) {
    let a = BitArray::<u8, Lsb0>::new(0x02);
    let b = BitArray::<u8, Lsb0>::new(0x01);
    check(&rt, a.cmp(&b) == Ordering::Less);
    check(&rt, b.partial_cmp(&a) == Some(Ordering::Greater));
    check(&rt, a == ok(&rt, a.clone()));
}

#[test]
fn hashed(rt: HostRuntime) {
    let (mut one, mut other) = (DefaultHasher::new(), DefaultHasher::new());
    BitArray::<u8, Lsb0>::new(0x02).hash(&mut one);
    BitArray::<u8, Msb0>::new(0x40).hash(&mut other);
    check(&rt, one.finish() == other.finish());
}

#[test]
fn texts(rt: HostRuntime) {
    let a = BitArray::<u8, Lsb0>::new(5);
    let text = ok(&rt, format!(in rt.alloc(); "{a:?} {a:>30}"));
    check(
        &rt,
        text.as_str() == "BitArray { bits: 8 } [1, 0, 1, 0, 0, 0, 0, 0] [1, 0, 1, 0, 0, 0, 0, 0]",
    );
}

#[test]
fn texts_in_a_radix(rt: HostRuntime) {
    let a = BitArray::<u8, Msb0>::new(0xd0);
    let (b, o) = (In(&a, Radix::Binary), In(&a, Radix::Octal));
    let (x, u) = (In(&a, Radix::LowerHex), In(&a, Radix::UpperHex));
    let text = ok(&rt, format!(in rt.alloc(); "{b} {o} {x} {u}"));
    check(&rt, text.as_str() == "[11010000] [640] [d0] [D0]");
}

#[test]
fn views_of_another_length(rt: HostRuntime) {
    let words = [0xb5_u8, 0x6d];
    let view = BitSlice::<u8, Lsb0>::from_slice(&words).get_range(1..3);
    let Err(short) = BitArray::<u8, Lsb0>::try_from(view) else {
        panic!(rt; "two bits are no array of eight");
    };
    let text = ok(&rt, format!(in rt.alloc(); "{short:?}: {short}"));
    check(
        &rt,
        text.as_str()
            == "TryFromBitSliceError::UnequalLen(2 != 8): bit-slice with length 2 cannot be viewed as bit-array with length 8",
    );
}

#[test]
fn views_at_another_head(rt: HostRuntime) {
    let words = [0xb5_u8, 0x6d];
    let view = BitSlice::<u8, Lsb0>::from_slice(&words);
    let Err(off) = BitArray::<u8, Lsb0>::try_from(view.get_range(1..9)) else {
        panic!(rt; "eight bits from bit 1 are no array");
    };
    let text = ok(&rt, format!(in rt.alloc(); "{off:?}: {off}"));
    check(
        &rt,
        text.as_str()
            == "TryFromBitSliceError::Misaligned: a bit-slice must begin at the front edge of a storage element in order to be viewed as a bit-array",
    );
    let none = BitArray::<[u8; 0], Lsb0>::try_from(view.get_range(3..3));
    check(&rt, none.is_err_and(|e| e == off));
}

// The errors are ordered: a wrong head is after a wrong length.
#[test]
fn errors_in_order(rt: HostRuntime) {
    let words = [0xb5_u8, 0x6d];
    let view = BitSlice::<u8, Lsb0>::from_slice(&words);
    let Err(short) = BitArray::<u8, Lsb0>::try_from(view.get_range(1..3)) else {
        panic!(rt; "two bits are no array of eight");
    };
    let Err(off) = BitArray::<u8, Lsb0>::try_from(view.get_range(1..9)) else {
        panic!(rt; "eight bits from bit 1 are no array");
    };
    check(&rt, short < off);
    check(&rt, short.order(off) == Ordering::Less);
}

#[test]
fn views_taken(rt: HostRuntime) {
    let words = [0xb5_u8, 0x6d];
    let view = BitSlice::<u8, Lsb0>::from_slice(&words);
    let all = ok(&rt, BitArray::<[u8; 2], Lsb0>::try_from(view));
    check(&rt, all.into_inner().as_slice() == words.as_slice());
}

#[test]
fn iterated(rt: HostRuntime) {
    let a = BitArray::<[u64; 2], Lsb0>::new([0x0123456789abcdef, 0xfedcba9876543210]);
    let mut bits = a.into_iter();
    check(&rt, bits.next() == Some(true));
    check(&rt, bits.next_back() == Some(true));
    check(&rt, bits.nth(6) == Some(true));
    check(&rt, bits.nth_back(6) == Some(false));
    check(&rt, bits.len() == 112);
    check(
        &rt,
        bits.as_bitslice()
            .eq_bits(a.as_bitslice().get_range(8..120)),
    );
}

// An array given by reference, and an iterator that is copied.
#[test]
fn iterated_to_the_end(rt: HostRuntime) {
    let a = BitArray::<u8, Msb0>::new(0x60);
    check(&rt, (&a).into_iter().len() == 8);
    let bits = a.into_iter();
    check(&rt, bits.size_hint() == (8, Some(8)));
    check(&rt, bits.as_slice().len() == 8);
    check(&rt, ok(&rt, bits.clone()).count() == 8);
}

#[test]
fn text_of_an_iterator(rt: HostRuntime) {
    let mut few = IntoIter::new(BitArray::<u8, Msb0>::new(0x60));
    few.next();
    let text = ok(&rt, format!(in rt.alloc(); "{few:?}"));
    check(&rt, text.as_str() == "IntoIter([1, 1, 0, 0, 0, 0, 0])");
}

#[test]
fn written_while_given(rt: HostRuntime) {
    let mut bits = IntoIter::new(BitArray::<u8, Msb0>::new(0x60));
    bits.as_mut_bitslice().set(7, true);
    bits.as_mut_slice().flip_all();
    check(&rt, bits.next() == Some(true));
    check(&rt, bits.next_back() == Some(false));
}

/// What is lent again after a step from either end, over several words.
#[test]
fn lent_again_after_steps(rt: HostRuntime) {
    let mut bits = IntoIter::new(BitArray::<[u8; 4], Lsb0>::new([0x00, 0xff, 0x00, 0xff]));
    check(&rt, bits.next() == Some(false));
    bits.as_mut_bitslice().set(0, true);
    check(&rt, bits.len() == 31);
    check(&rt, bits.as_bitslice().first() == Some(true));
    check(&rt, bits.next_back() == Some(true));
    assert!(&rt; bits.len() == 30);
    bits.as_mut_slice().set(29, false);
    check(&rt, bits.as_slice().last() == Some(false));
    check(&rt, bits.as_slice().count_ones() == 15);
    check(&rt, bits.next() == Some(true));
    check(&rt, bits.next_back() == Some(false));
    check(&rt, bits.len() == 28);
}

/// What is lent again after some bits are skipped from either end.
#[test]
fn lent_again_after_skips(rt: HostRuntime) {
    let mut bits = IntoIter::new(BitArray::<[u8; 4], Lsb0>::new([0x00, 0xff, 0x00, 0xff]));
    check(&rt, bits.nth(8) == Some(true));
    assert!(&rt; bits.len() == 23);
    bits.as_mut_bitslice().flip(0);
    check(&rt, bits.nth_back(7) == Some(true));
    assert!(&rt; bits.len() == 15);
    bits.as_mut_bitslice().set(14, true);
    check(&rt, bits.as_bitslice().count_ones() == 7);
    check(&rt, bits.next() == Some(false));
    check(&rt, bits.next() == Some(true));
    check(&rt, bits.next_back() == Some(true));
    check(&rt, bits.next_back() == Some(false));
}

/// The word and the order of an array that names neither.
#[test]
fn of_the_default_words(rt: HostRuntime) {
    let a: BitArray = BitArray::new([5]);
    check(&rt, a.get(2) == Some(true));
    check(&rt, a.into_inner()[0] == 5);
}
