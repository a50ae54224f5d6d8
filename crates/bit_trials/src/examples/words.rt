//! The words of a vector.
use crate::common::{check, holds, of_words, ok, shows};
use bit_containers::{BitList, BitVec, Lsb0, MAX_BITS, Msb0};

#[test]
fn words_are_kept(rt: HostRuntime) {
    let mut v = of_words::<Lsb0>(&rt, &[0xdc]);
    check(&rt, v.pop() == Some(true));
    v.truncate(4);
    check(&rt, v.into_vec().as_slice() == [0xdc].as_slice());
}

#[test]
fn no_words_are_kept(rt: HostRuntime) {
    let mut v = of_words::<Lsb0>(&rt, &[0xdc]);
    v.truncate(0);
    check(&rt, v.into_vec().as_slice() == [].as_slice());
}

#[test]
fn limits(rt: HostRuntime) {
    check(&rt, BitVec::<u8, Lsb0>::fits(288230376151711743));
    check(&rt, !BitVec::<u8, Lsb0>::fits(288230376151711744));
    check(&rt, BitVec::<u64, Lsb0>::fits(36028797018963967));
    check(&rt, !BitVec::<u64, Lsb0>::fits(36028797018963968));
    check(&rt, MAX_BITS == 2305843009213693951);
}

#[test]
fn past_the_limits(rt: HostRuntime) {
    check(&rt, !BitVec::<u8, Lsb0>::fits(usize::MAX));
    check(&rt, !BitVec::<u16, Lsb0>::fits(usize::MAX));
    check(&rt, !BitVec::<u32, Lsb0>::fits(usize::MAX));
    check(&rt, !BitVec::<u64, Lsb0>::fits(usize::MAX));
    check(&rt, !BitVec::<usize, Lsb0>::fits(usize::MAX));
}

#[test]
fn words_and_lengths_set(rt: HostRuntime) {
    let words = ok(&rt, vec![in rt.alloc(); 0xdc]);
    let mut v = BitVec::<u8, Lsb0>::from_vec(words);
    v.truncate(4);
    check(&rt, v.as_raw_slice() == [0xdc].as_slice());
    v.set_len(8);
    holds(&rt, &v, b"00111011");
}

#[test]
fn dead_bits_set(rt: HostRuntime) {
    let mut v = of_words::<Lsb0>(&rt, &[0xdc]);
    v.truncate(4);
    shows(&rt, &v, &[0xdc]);
    holds(&rt, &v, b"0011");
    v.set_uninitialized(false);
    shows(&rt, &v, &[0x0c]);
    v.set_uninitialized(true);
    shows(&rt, &v, &[0xfc]);
}

#[test]
fn all_words_set(rt: HostRuntime) {
    let mut v = ok(&rt, BitVec::<u8, Msb0>::repeat(rt.alloc(), false, 20));
    v.set_elements(0xa5);
    shows(&rt, &v, &[0xa5, 0xa5, 0xa5]);
    check(&rt, v.count_ones() == 10);
}

#[test]
fn words_that_fit_are_taken(rt: HostRuntime) {
    let words = ok(&rt, vec![in rt.alloc(); 0xdc]);
    match BitVec::<u8, Lsb0>::try_from_vec(words) {
        Ok(v) => holds(&rt, &v, b"00111011"),
        Err(_) => check(&rt, false),
    }
}
