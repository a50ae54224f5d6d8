//! Copies of views and of vectors.
use crate::common::{check, ok, shows};
use bit_containers::{BitSlice, BitVec, Lsb0};
use std::process::Abort;

// A copy begins at head 0.
#[test]
fn copy_of_a_vector(rt: HostRuntime) {
    let words = [0xaf, 0xff];
    let view = BitSlice::<u8, Lsb0>::from_slice(&words).get_range(3..11);
    let v = ok(&rt, BitVec::from_bitslice_headed(rt.alloc(), view));
    shows(&rt, &v, &[0xa8, 0x07]);
    check(&rt, v.head() == 3);
    let copy = ok(&rt, v.clone());
    shows(&rt, &copy, &[0xf5]);
    check(&rt, copy.head() == 0);
}

#[test]
fn copy_of_a_view(rt: HostRuntime) {
    let words = [0xa8, 0x07];
    let view = BitSlice::<u8, Lsb0>::from_slice(&words).get_range(3..11);
    let copy = ok(&rt, BitVec::from_bitslice(rt.alloc(), view));
    shows(&rt, &copy, &[0xf5]);
    check(&rt, copy.head() == 0);
}

#[test]
fn aligned_after_copying(rt: HostRuntime) {
    let words = [0xaf, 0xff];
    let view = BitSlice::<u8, Lsb0>::from_slice(&words).get_range(3..13);
    let mut v = ok(&rt, BitVec::from_bitslice_headed(rt.alloc(), view));
    shows(&rt, &v, &[0xa8, 0x1f]);
    v.force_align();
    shows(&rt, &v, &[0xf5, 0x1f]);
    check(&rt, v.head() == 0);
    check(&rt, v.len() == 10);
}

// No bit at a head of 5, in a word of its own.
fn empty_after_a_head(rt: &(impl Abort + AllocGlobal)) -> BitVec<u8, Lsb0> {
    let words = [0xff];
    let view = BitSlice::<u8, Lsb0>::from_slice(&words).get_range(5..5);
    ok(rt, BitVec::from_bitslice_headed(rt.alloc(), view))
}

#[test]
fn dead_bits_after_a_head(rt: HostRuntime) {
    let mut v = empty_after_a_head(&rt);
    v.set_uninitialized(true);
    shows(&rt, &v, &[0xff]);
    let v = !empty_after_a_head(&rt);
    shows(&rt, &v, &[0xff]);
}

#[test]
fn bits_after_a_head(rt: HostRuntime) {
    let mut v = empty_after_a_head(&rt);
    ok(&rt, v.push(true));
    shows(&rt, &v, &[0x20]);
    let mut v = empty_after_a_head(&rt);
    v.force_align();
    check(&rt, v.as_raw_slice().is_empty());
    check(&rt, v.head() == 0);
}
