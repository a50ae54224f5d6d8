//! Vectors made of boxes, made boxes, and given up.
use crate::common::{check, of, ok, shows};
use bit_containers::boxed::BitBox;
use bit_containers::vec::IntoIter;
use bit_containers::{BitSlice, BitVec, IntoBitVec, Lsb0};
use std::alloc::AllocError;
use std::process::Abort;

// What becomes a vector, as one.
fn vector_of<B: IntoBitVec>(b: B) -> Result<BitVec<B::Store, B::Order>, AllocError> {
    b.into_bitvec()
}

#[test]
fn box_as_a_vector(rt: HostRuntime) {
    let words = [0xa8, 0x07];
    let view = BitSlice::<u8, Lsb0>::from_slice(&words).get_range(3..11);
    let mut b = ok(&rt, BitBox::from_bitslice_headed(rt.alloc(), view));
    b.force_align();
    b.fill_uninitialized(false);
    check(&rt, b.as_raw_slice() == [0xf5, 0x00].as_slice());
    let v = ok(&rt, vector_of(b));
    shows(&rt, &v, &[0xf5]);
}

// A vector of eight bits at head 3.
fn headed(rt: &(impl Abort + AllocGlobal)) -> BitVec<u8, Lsb0> {
    let words = [0xa8, 0x07];
    let view = BitSlice::<u8, Lsb0>::from_slice(&words).get_range(3..11);
    ok(rt, BitVec::from_bitslice_headed(rt.alloc(), view))
}

#[test]
fn boxed(rt: HostRuntime) {
    let b = ok(&rt, headed(&rt).into_boxed_slice());
    check(&rt, b.as_raw_slice() == [0xa8, 0x07].as_slice());
    let v = ok(&rt, b.into_vec());
    shows(&rt, &v, &[0xa8, 0x07]);
}

#[test]
fn given_up(rt: HostRuntime) {
    let mut bits: IntoIter<u8, Lsb0> = of(&rt, b"011001").into_iter();
    check(
        &rt,
        [
            bits.next(),
            bits.next_back(),
            bits.nth(1),
            bits.nth_back(1),
            bits.next(),
        ] == [Some(false), Some(true), Some(true), Some(false), None],
    );
}
