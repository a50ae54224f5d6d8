//! Orders, masks and indices.
ghost use Rattle.std.specs.Prelude.{bit_xor, refl};
ghost use Rattle.bit_addressing.specs.Order.{lawful_by_test};

use crate::common::check;
use bit_addressing::{BitEnd, BitIdx, BitOrder, BitPos, BitStore, Lsb0, Msb0};
use std::process::Abort;

// The order whose halves of each byte change places.
pub(crate) struct Xor4;

impl BitOrder for Xor4 {
    ghost place = { λ w i. bit_xor i 4 };

    ghost lawful = { lawful_by_test (λ w i. bit_xor i 4) refl refl refl refl };

    fn at<T: BitStore>(i: BitIdx<T>) -> BitPos<T> {
        BitPos::new_unchecked(i.into_inner() ^ 4)
    }
}

// That the mask of the bits from `from` to `upto` is this number.
fn masks<T: BitStore, O: BitOrder>(rt: &impl Abort, from: u8, upto: u8, want: u64) {
    assert!(rt; from <= upto && from < T::BITS && upto <= T::BITS);
    let mask: T = O::mask(BitIdx::new_unchecked(from), BitEnd::new_unchecked(upto));
    check(rt, mask.to_u64() == want);
}

#[test]
fn masks_of_bytes(rt: HostRuntime) {
    masks::<u8, Lsb0>(&rt, 2, 5, 0x1c);
    masks::<u8, Msb0>(&rt, 2, 5, 0x38);
    masks::<u8, Xor4>(&rt, 2, 5, 0xc1);
    masks::<u8, Lsb0>(&rt, 0, 8, 0xff);
    masks::<u8, Msb0>(&rt, 0, 8, 0xff);
    masks::<u8, Lsb0>(&rt, 3, 3, 0);
    masks::<u8, Msb0>(&rt, 3, 3, 0);
}

// The place of the first bit of a word.
fn first_place<T: BitStore, O: BitOrder>() -> u8 {
    O::at(BitIdx::<T>::new_unchecked(0)).into_inner()
}

#[test]
fn orders(rt: HostRuntime) {
    check(&rt, first_place::<u8, Lsb0>() == 0);
    check(&rt, first_place::<u16, Msb0>() == 15);
    check(&rt, first_place::<u8, Xor4>() == 4);
}

#[test]
fn indices(rt: HostRuntime) {
    check(&rt, BitIdx::<u8>::new(7).map(|i| i.into_inner()) == Some(7));
    check(&rt, BitIdx::<u8>::new(8).is_none());
    check(&rt, BitEnd::<u8>::new(8).map(|e| e.into_inner()) == Some(8));
    check(&rt, BitEnd::<u8>::new(9).is_none());
    check(&rt, BitPos::<u8>::new(7).map(|p| p.into_inner()) == Some(7));
    check(&rt, BitPos::<u8>::new(8).is_none());
}

#[test]
fn indices_compared(rt: HostRuntime) {
    check(&rt, BitIdx::<u8>::new(3) < BitIdx::<u8>::new(4));
    check(&rt, BitEnd::<u8>::new(3) < BitEnd::<u8>::new(4));
    check(&rt, BitPos::<u8>::new(3) < BitPos::<u8>::new(4));
    check(&rt, BitIdx::<u8>::new(3) == BitIdx::<u8>::new(3));
    check(&rt, BitEnd::<u8>::new(8) != BitEnd::<u8>::new(7));
    check(&rt, BitPos::<u8>::new(3) == BitPos::<u8>::new(3));
}

#[test]
fn fronts(rt: HostRuntime) {
    check(&rt, Lsb0::front::<u8, u32>(0x1234_5678) == 0x78);
    check(&rt, Msb0::front::<u8, u32>(0x1234_5678) == 0x12);
}
