//! Making and growing.
use crate::common::{check, holds, of, ok, shows};
use crate::orders::{Scramble, Xor4};
use bit_containers::{BitSlice, BitVec, Lsb0, Msb0};

// An order that exchanges the halves of a byte.
#[test]
fn appended_by_an_order_of_a_user(rt: HostRuntime) {
    let v = of::<u8, Xor4>(&rt, b"11001");
    shows(&rt, &v, &[0x31]);
}

/// An order that puts neighbours five places apart.
#[test]
fn appended_by_another_order_of_a_user(rt: HostRuntime) {
    let v = of::<u8, Scramble>(&rt, b"11001");
    shows(&rt, &v, &[0x89]);
    let v = of::<u16, Scramble>(&rt, b"11001");
    shows(&rt, &v, &[0x0188]);
}

#[test]
fn joined_within(rt: HostRuntime) {
    let mut v = of::<u8, Msb0>(&rt, b"01");
    ok(&rt, v.extend_from_within(..));
    holds(&rt, &v, b"0101");
}

#[test]
fn pulled(rt: HostRuntime) {
    let mut v = BitVec::<u8, Msb0>::new(rt.alloc());
    ok(&rt, v.push(false));
    ok(&rt, v.push(true));
    ok(&rt, v.extend([false; 4]));
    let words = [0x0f];
    let view = BitSlice::<u8, Lsb0>::from_slice(&words);
    ok(&rt, v.extend_from_bitslice(view.get_range(..4)));
    shows(&rt, &v, &[0x43, 0xc0]);
    check(&rt, v.len() == 10);
}

#[test]
fn words_pulled(rt: HostRuntime) {
    let mut v = of::<u8, Lsb0>(&rt, b"1");
    ok(&rt, v.extend_words([3]));
    shows(&rt, &v, &[0x07, 0x00]);
    check(&rt, v.len() == 9);
}

#[test]
fn filled_by_results(rt: HostRuntime) {
    let mut v = of::<u8, Lsb0>(&rt, b"11");
    ok(&rt, v.resize_with(5, |i| i % 2 == 1));
    holds(&rt, &v, b"11010");
    ok(&rt, v.resize_with(1, |_| false));
    holds(&rt, &v, b"1");
}

#[test]
fn appended(rt: HostRuntime) {
    let mut v = ok(&rt, BitVec::<u16, Msb0>::repeat(rt.alloc(), false, 10));
    let mut other = ok(&rt, BitVec::<u32, Lsb0>::repeat(rt.alloc(), true, 10));
    ok(&rt, v.append(&mut other));
    shows(&rt, &v, &[0x003f, 0xf000]);
    check(&rt, v.len() == 20);
    check(&rt, other.is_empty());
    check(&rt, other.as_raw_slice().is_empty());
}

// A vector with a head that shows a word has room in it.
#[test]
fn room_after_a_head(rt: HostRuntime) {
    let words = [0xff];
    let view = BitSlice::<u8, Lsb0>::from_slice(&words).get_range(5..5);
    let mut v = ok(&rt, BitVec::from_bitslice_headed(rt.alloc(), view));
    shows(&rt, &v, &[0x00]);
    check(&rt, v.head() == 5);
    check(&rt, v.is_empty());
    ok(&rt, v.reserve(3));
    for _ in 0..3 {
        ok(&rt, v.push(true));
    }
    shows(&rt, &v, &[0xe0]);
    ok(&rt, v.push(true));
    shows(&rt, &v, &[0xe0, 0x01]);
}

#[test]
fn room_at_head_0(rt: HostRuntime) {
    let words = [0xff];
    let view = BitSlice::<u8, Lsb0>::from_slice(&words).get_range(5..5);
    let mut v = ok(&rt, BitVec::from_bitslice(rt.alloc(), view));
    check(&rt, v.head() == 0);
    check(&rt, v.as_raw_slice().is_empty());
    ok(&rt, v.reserve(3));
    ok(&rt, v.extend([true; 3]));
    shows(&rt, &v, &[0x07]);
    ok(&rt, v.push(true));
    shows(&rt, &v, &[0x0f]);
}

#[test]
fn resized_by_a_function_of_the_index(rt: HostRuntime) {
    let mut v = of::<u8, Lsb0>(&rt, b"10");
    ok(&rt, v.resize_by(5, &mut |i: usize| i != 3));
    holds(&rt, &v, b"10101");
}

/// A copy of a view that shows a word and no bit, one bit at a time.
#[test]
fn pushed_to_a_copy_of_nothing(rt: HostRuntime) {
    let words = [0xff];
    let view = BitSlice::<u8, Lsb0>::from_slice(&words).get_range(5..5);
    let mut v = ok(&rt, BitVec::from_bitslice(rt.alloc(), view));
    for _ in 0..3 {
        ok(&rt, v.push(true));
    }
    check(&rt, v.head() == 0);
    shows(&rt, &v, &[0x07]);
}

/// All bits of the word are ones, and flipping flips those that are not in the list too.
#[test]
fn repeated_and_flipped(rt: HostRuntime) {
    let v = ok(&rt, BitVec::<u8, Lsb0>::repeat(rt.alloc(), true, 5));
    holds(&rt, &v, b"11111");
    shows(&rt, &v, &[0xff]);
    let v = !v;
    holds(&rt, &v, b"00000");
    shows(&rt, &v, &[0x00]);
}

/// The word and the order of a vector that names neither.
#[test]
fn of_the_default_words(rt: HostRuntime) {
    let mut v: BitVec = BitVec::new(rt.alloc());
    ok(&rt, v.extend([true, false, true]));
    shows(&rt, &v, &[5]);
}
