//! Examples of boxes, and public calls, once each.
ghost use Rattle.std.specs.Prelude.{◌≡◌, length};

mod callers;
mod memory;
mod reading;
mod slice;
mod writing;

use crate::common::{check, ok};
use bit_addressing::{BitOrder, BitStore, Lsb0, Msb0};
use bit_boxed::{BitBox, IntoIter};
use bit_slice::{BitList, BitSlice};
use std::boxed::BoxedSlice;
use std::process::Abort;

// That the box holds these digits.
fn holds<T: BitStore, O: BitOrder>(rt: &impl Abort, b: &BitBox<T, O>, digits: &[u8]) {
    check(rt, b.len() == digits.len());
    for (i, digit) in digits.iter().enumerate() {
        check(rt, b.get(i) == Some(*digit == b'1'));
    }
    check(rt, b.get(digits.len()).is_none());
}

// That the words of the box are these.
fn shows<T: BitStore, O: BitOrder>(rt: &impl Abort, b: &BitBox<T, O>, words: &[T]) {
    let kept = b.as_raw_slice();
    check(rt, kept.len() == words.len());
    for (word, want) in kept.iter().zip(words) {
        check(rt, word.to_u64() == want.to_u64());
    }
}

// A box of eight bits at head 3.
fn headed(rt: &(impl Abort + AllocGlobal), words: &[u8; 2]) -> BitBox<u8, Lsb0>
    ensures { length result.list ≡ 8 }
{
    let view = BitSlice::<u8, Lsb0>::from_slice(words).get_range(3..11);
    ok(rt, BitBox::from_bitslice_headed(rt.alloc(), view))
}

#[test]
fn copied_with_a_head(rt: HostRuntime) {
    let words = [0xb5_u8];
    let view = BitSlice::<u8, Msb0>::from_slice(&words).get_range(2..6);
    let mut b = ok(&rt, BitBox::from_bitslice_headed(rt.alloc(), view));
    shows(&rt, &b, &[0x34]);
    check(&rt, b.head() == 2);
    holds(&rt, &b, b"1101");
    b.fill_uninitialized(true);
    shows(&rt, &b, &[0xf7]);
}

#[test]
fn aligned_after_copying(rt: HostRuntime) {
    let words = [0xb5_u8];
    let view = BitSlice::<u8, Msb0>::from_slice(&words).get_range(2..6);
    let mut b = ok(&rt, BitBox::from_bitslice_headed(rt.alloc(), view));
    b.force_align();
    shows(&rt, &b, &[0xd4]);
    check(&rt, b.head() == 0);
    holds(&rt, &b, b"1101");
    b.fill_uninitialized(false);
    shows(&rt, &b, &[0xd0]);
}

// A copy begins at head 0.
#[test]
fn copied_from_the_beginning(rt: HostRuntime) {
    let words = [0xb5_u8];
    let view = BitSlice::<u8, Msb0>::from_slice(&words).get_range(2..6);
    let mut b = ok(&rt, BitBox::from_bitslice(rt.alloc(), view));
    shows(&rt, &b, &[0xd0]);
    check(&rt, b.head() == 0);
    b.fill_uninitialized(true);
    shows(&rt, &b, &[0xdf]);
}

#[test]
fn aligned_at_the_beginning(rt: HostRuntime) {
    let words = [0xb5_u8];
    let view = BitSlice::<u8, Msb0>::from_slice(&words).get_range(2..6);
    let mut b = ok(&rt, BitBox::from_bitslice(rt.alloc(), view));
    b.force_align();
    shows(&rt, &b, &[0xd0]);
}

#[test]
#[tactic(auto, unfolding(bit_addressing::specs::Row::words_for))]
fn made_of_words(rt: HostRuntime) {
    let boxed: BoxedSlice<u8> = ok(&rt, vec![in rt.alloc(); 0x80, 0x01]).into_boxed_slice();
    assert!(rt; boxed.as_slice().len() == 2);
    let b = BitBox::<u8, Msb0>::from_boxed_slice(boxed);
    check(&rt, b.count_ones() == 2);
    let boxed: BoxedSlice<u8> = b.into();
    check(&rt, boxed.as_slice() == [0x80, 0x01].as_slice());
}

#[test]
fn made_of_one_word(rt: HostRuntime) {
    let boxed: BoxedSlice<u8> = ok(&rt, vec![in rt.alloc(); 0x05]).into_boxed_slice();
    check(&rt, BitBox::<u8, Lsb0>::try_from(boxed).is_ok());
    let boxed: BoxedSlice<u8> = ok(&rt, vec![in rt.alloc(); 0x05]).into_boxed_slice();
    check(&rt, BitBox::<u8, Lsb0>::try_from_boxed_slice(boxed).is_ok());
}

// A box of the first bits of a byte.
fn first_bits(rt: &(impl Abort + AllocGlobal), byte: u8, count: usize) -> BitBox<u8, Lsb0> {
    assert!(rt; count <= 8);
    let words = [byte];
    let view = BitSlice::<u8, Lsb0>::from_slice(&words).get_range(0..count);
    ok(rt, BitBox::from_bitslice(rt.alloc(), view))
}

#[test]
fn combined_in_place(rt: HostRuntime) {
    let mut b = first_bits(&rt, 0x02, 2);
    b &= first_bits(&rt, 0x0f, 4);
    b ^= first_bits(&rt, 0x0f, 4);
    holds(&rt, &b, b"10");
    b |= first_bits(&rt, 0x0f, 4);
    holds(&rt, &b, b"11");
}

#[test]
fn texts(rt: HostRuntime) {
    let words = [0x0b_u8];
    let view = BitSlice::<u8, Lsb0>::from_slice(&words).get_range(1..4);
    let headed = ok(&rt, BitBox::from_bitslice_headed(rt.alloc(), view));
    let text = ok(&rt, format!(in rt.alloc(); "{headed:?} {headed:>9}"));
    check(
        &rt,
        text.as_str() == "BitBox { head: 1, bits: 3 } [1, 0, 1] [1, 0, 1]",
    );
}

#[test]
fn iterated(rt: HostRuntime) {
    let b = first_bits(&rt, 0x26, 6);
    check(&rt, (&b).into_iter().len() == 6);
}

// What an iterator has yet to give, as text.
#[test]
fn iterator_seen(rt: HostRuntime) {
    let mut bits = first_bits(&rt, 0x26, 6).into_iter();
    check(&rt, bits.next() == Some(false));
    check(&rt, bits.next_back() == Some(true));
    check(&rt, bits.size_hint() == (4, Some(4)));
    let text = ok(&rt, format!(in rt.alloc(); "{bits:?}"));
    check(&rt, text.as_str() == "IntoIter([1, 1, 0, 0])");
}

#[test]
#[tactic(auto, unfolding(bit_addressing::specs::Row::words_for))]
fn iterator_of_parts(rt: HostRuntime) {
    let words = ok(&rt, vec![in rt.alloc(); 0xa8, 0x07]);
    let mut parts = IntoIter::<u8, Lsb0>::from_parts(words, 3, 8);
    check(&rt, parts.as_mut_slice().count_ones() == 6);
}

/// The word and the order of a box that names neither.
#[test]
fn of_the_default_words(rt: HostRuntime) {
    let b: BitBox = ok(&rt, BitBox::from_bits(rt.alloc(), [true, false, true]));
    check(&rt, b.get(2) == Some(true));
    check(&rt, b.as_raw_slice() == [5].as_slice());
}
