//! Each request for memory refused: what is returned then, and what stays.
//!
//! The tests pass with ample memory, and whichever request `rt try --test --fail-alloc N` refuses.
use crate::boxes::{holds, shows};
use crate::common::check;
use bit_addressing::{BitOrder, BitStore, GrowError, Lsb0, Msb0};
use bit_array::BitArray;
use bit_boxed::{BitBox, IntoIter};
use bit_slice::BitSlice;
use std::alloc::AllocError;
use std::process::Abort;
use std::test::Fail;

// That a result is the box of these digits, or that memory was refused.
fn made<T: BitStore, O: BitOrder>(
    rt: &impl Abort,
    outcome: Result<BitBox<T, O>, AllocError>,
    digits: &[u8],
) {
    if let Ok(b) = outcome {
        holds(rt, &b, digits);
    }
}

// That these are the bits that are left, and no more.
fn gives<T: BitStore, O: BitOrder>(rt: &impl Abort, bits: IntoIter<T, O>, digits: &[u8]) {
    let mut bits = bits;
    for digit in digits {
        check(rt, bits.next() == Some(*digit == b'1'));
    }
    check(rt, bits.next().is_none());
}

#[test]
fn copies_of_views_refused(rt: HostRuntime) {
    let words = [0xa8_u8, 0x07];
    let view = BitSlice::<u8, Lsb0>::from_slice(&words).get_range(3..11);
    made(&rt, BitBox::from_bitslice(rt.alloc(), view), b"10101111");
    made(
        &rt,
        BitBox::from_bitslice_headed(rt.alloc(), view),
        b"10101111",
    );
}

#[test]
fn makers_refused(rt: HostRuntime) {
    let array = BitArray::<[u8; 2], Lsb0>::new([0xa8, 0x07]);
    made(
        &rt,
        BitBox::from_bitarray(rt.alloc(), array),
        b"0001010111100000",
    );
    match BitBox::<u8, Lsb0>::from_bits(rt.alloc(), [true, false, true]) {
        Ok(b) => holds(&rt, &b, b"101"),
        Err(why) => check(&rt, why == GrowError::OutOfMemory),
    }
}

#[test]
fn box_of_a_word_refused(rt: HostRuntime) {
    if let Ok(word) = Box::new(rt.alloc(), 0x05_u8) {
        made(
            &rt,
            BitBox::<u8, Msb0>::from_box(rt.alloc(), word),
            b"00000101",
        );
    }
}

#[test]
fn makers_that_take_none(rt: HostRuntime) {
    let words = [0xff_u8];
    let view = BitSlice::<u8, Lsb0>::from_slice(&words).get_range(5..5);
    let none = BitArray::<[u8; 0], Lsb0>::new([]);
    check(&rt, BitBox::<u8, Lsb0>::empty(rt.alloc()).is_ok());
    check(&rt, BitBox::from_bitslice(rt.alloc(), view).is_ok());
    check(&rt, BitBox::from_bitarray(rt.alloc(), none).is_ok());
}

#[test]
#[tactic(auto, unfolding(bit_addressing::specs::Row::words_for))]
fn makers_of_no_bits(rt: HostRuntime) {
    check(&rt, BitBox::<u8, Lsb0>::from_bits(rt.alloc(), None).is_ok());
    let owned = Vec::<u8>::new(rt.alloc());
    check(&rt, BitBox::<u8, Lsb0>::from_parts(owned, 0, 0).is_ok());
}

#[test]
fn copies_refused(rt: HostRuntime) -> Result<(), Fail> {
    let words = [0xa8_u8, 0x07];
    let view = BitSlice::<u8, Lsb0>::from_slice(&words).get_range(3..11);
    let Ok(b) = BitBox::from_bitslice_headed(rt.alloc(), view) else {
        return Ok(());
    };
    made(&rt, b.clone(), b"10101111");
    shows(&rt, &b, &[0xa8, 0x07]);
    check(&rt, b.head() == 3);
    holds(&rt, &b, b"10101111");
    let mut bits = b.into_iter();
    check(&rt, bits.next() == Some(true));
    if let Ok(copy) = bits.clone() {
        gives(&rt, copy, b"0101111");
    }
    gives(&rt, bits, b"0101111");
    Ok(())
}
