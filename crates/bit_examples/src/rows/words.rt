//! Words, and ranges of them.
use crate::common::{check, ok};
use bit_addressing::{BitStore, GrowError, RangeExt, elts};
use bit_rows::equal_words;
use std::process::Abort;

fn operations<T: BitStore>(rt: &impl Abort) {
    let low = T::ZERO.with_bit(0, true);
    let high = low.shl(T::BITS - 1);
    check(rt, high.bit(T::BITS - 1));
    check(rt, !high.bit(0));
    check(rt, high.shr(T::BITS - 1).bit(0));
    check(rt, low.or(high).xor(high).bit(0));
    check(rt, !low.and(high).bit(0));
    check(rt, !low.not().bit(0));
    check(rt, low.not().bit(1));
    check(rt, !low.with_bit(0, false).bit(0));
    let (front, back) = low.reverse_pair(high);
    check(rt, front.bit(0));
    check(rt, back.bit(T::BITS - 1));
}

#[test]
fn words(rt: HostRuntime) {
    operations::<u8>(&rt);
    operations::<u16>(&rt);
    operations::<u32>(&rt);
    operations::<u64>(&rt);
    operations::<usize>(&rt);
    check(&rt, elts::<u8>(9) == 2);
}

#[test]
fn equal_slices(rt: HostRuntime) {
    check(&rt, equal_words(&[1_u16, 2], &[1, 2]));
}

#[test]
fn ranges(rt: HostRuntime) {
    check(&rt, (0..=4).lies_in(5));
    check(&rt, (5..5).lies_in(5));
    check(&rt, (5..=4).lies_in(5));
    check(&rt, (..5).lies_in(5));
    check(&rt, (..=4).lies_in(5));
    check(&rt, (..).lies_in(5));
    check(&rt, !(0..=5).lies_in(5));
    check(&rt, !(6..).lies_in(5));
    let (high, low) = (3, 2);
    check(&rt, !(high..low).lies_in(5));
    check(&rt, !(0..=usize::MAX).lies_in(5));
}

#[test]
fn ranges_normalized(rt: HostRuntime) {
    check(&rt, (1..=3).normalize(5) == (1..4));
    check(&rt, (1..4).normalize(5) == (1..4));
    check(&rt, (2..).normalize(5) == (2..5));
    check(&rt, (..2).normalize(5) == (0..2));
    check(&rt, (..=2).normalize(5) == (0..3));
    check(&rt, (..).normalize(5) == (0..5));
}

#[test]
fn texts_of_errors(rt: HostRuntime) {
    let too_long = ok(&rt, format!(in rt.alloc(); "{}", GrowError::TooLong));
    check(&rt, too_long.as_str() == "more bits than a container holds");
    let memory = ok(&rt, format!(in rt.alloc(); "{}", GrowError::OutOfMemory));
    check(&rt, memory.as_str() == "memory was refused");
}
