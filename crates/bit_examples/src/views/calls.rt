//! What views read and write.
ghost use Rattle.std.specs.Prelude.{◌≡◌, ◌*◌, ◌<◌, ◌≤◌, true, length, set};
ghost use Rattle.bit_addressing.specs.Typed.{row};
ghost use Rattle.bit_addressing.specs.declared.length.TheConstants.{MAX_BITS};

use crate::common::{check, ok};
use crate::rows::orders::Xor4;
use bit_addressing::{BitOrder, BitStore, Lsb0, MAX_BITS, Msb0};
use bit_slice::{BitList, BitListMut, BitRun, BitSlice, BitSliceMut, split_run_mut};
use std::process::Abort;

// What is written through a view stands in the caller's own words.
fn set_third<T: BitStore, O: BitOrder>(words: &mut [T])
    requires some { 3 < T.BITS * length words.old }
    requires fits { T.BITS * length words.old ≤ MAX_BITS }
    ensures { row T.BitStore O.BitOrder words.new ≡ set (row T.BitStore O.BitOrder words.old) 3 true }
{
    let mut view = BitSliceMut::<T, O>::from_slice_mut(words);
    view.set(3, true);
}

#[test]
fn writes_in_the_callers_words(rt: HostRuntime) {
    let mut words = [0x13_u8, 0x00];
    set_third::<u8, Xor4>(&mut words);
    check(&rt, words == [0x93, 0x00]);
}

#[test]
fn part_lands(rt: HostRuntime) {
    let mut words = [0x00ff_u16, 0x0000, 0xffff];
    let mut view = BitSliceMut::<u16, Lsb0>::from_slice_mut(&mut words);
    let mut part = view.part_mut(4, 36);
    check(&rt, part.head() == 4);
    part.flip_all();
    check(&rt, words.as_slice() == [0xff0f, 0xffff, 0xfff0].as_slice());
}

#[test]
fn parts_changed(rt: HostRuntime) {
    let (mut words, ends) = ([0x4d_u8, 0x8b], [0x09_u8]);
    let mut view = BitSliceMut::<u8, Lsb0>::from_slice_mut(&mut words);
    view.flip(15);
    view.copy_into(4..12, BitSlice::<u8, Lsb0>::from_slice(&ends));
    view.and_within(0..4, 2);
    view.xor_within(3..7, 4);
    check(&rt, words == [0xb5, 0x00]);
}

#[test]
fn two_runs_land(rt: HostRuntime) {
    let mut words = [0xff_u8, 0xff, 0xff];
    let (mut left, mut right) = split_run_mut::<u8, Lsb0>(&mut words, 3, 8, 20);
    left.fill(false);
    right.flip_all();
    check(&rt, words.as_slice() == [0x07, 0x00, 0xf0].as_slice());
}

// That the remainder is the bits 100.
fn is_rest(rt: &impl Abort, rest: BitSlice<'_, u8, Lsb0>) {
    check(rt, rest.len() == 3);
    check(rt, rest.get(0) == Some(true));
    check(rt, rest.get(1) == Some(false));
    check(rt, rest.get(2) == Some(false));
}

#[test]
fn remainder_stays(rt: HostRuntime) {
    let words = [0x5a_u8, 0xc3];
    let mut chunks = BitSlice::<u8, Lsb0>::from_slice(&words)
        .get_range(1..12)
        .chunks_exact(4);
    is_rest(&rt, chunks.remainder());
    check(&rt, chunks.next().is_some());
    is_rest(&rt, chunks.remainder());
    check(&rt, chunks.next_back().is_some());
    is_rest(&rt, chunks.remainder());
    check(&rt, chunks.nth(0).is_none());
    is_rest(&rt, chunks.remainder());
}

#[test]
fn parts_of_a_word(rt: HostRuntime) {
    let words = [0x1234_u16];
    let part = BitSlice::<u16, Msb0>::from_slice(&words).get_range(4..12);
    check(&rt, part.head() == 4);
    let list = ok(&rt, part.iter().collect::<Vec<bool>>(rt.alloc()));
    check(
        &rt,
        list.as_slice() == [false, false, true, false, false, false, true, true].as_slice(),
    );
    check(&rt, part.count_ones() == 3);
}

#[test]
fn writes_to_a_word(rt: HostRuntime) {
    let mut words = [0x1234_u16];
    BitSliceMut::<u16, Msb0>::from_slice_mut(&mut words).set(4, true);
    check(&rt, words[0] == 0x1a34);
    let mut words = [0x1234_u16];
    BitSliceMut::<u16, Msb0>::from_slice_mut(&mut words).swap(0, 3);
    check(&rt, words[0] == 0x8234);
}

#[test]
fn view_copied_to_a_word(rt: HostRuntime) {
    let mut words = [0_u16];
    let bytes = [0xff_u8, 0];
    let view = BitSlice::<u8, Lsb0>::from_slice(&bytes);
    BitSliceMut::<u16, Msb0>::from_slice_mut(&mut words).clone_from_bitslice(view);
    check(&rt, words[0] == 0xff00);
}

#[test]
fn both_ends(rt: HostRuntime) {
    let words = [0xb2_u8, 0x01];
    let mut bits = BitSlice::<u8, Lsb0>::from_slice(&words)
        .get_range(1..=8)
        .iter();
    check(&rt, bits.next() == Some(true));
    check(&rt, bits.next_back() == Some(true));
    check(&rt, bits.len() == 6);
    check(&rt, bits.size_hint() == (6, Some(6)));
}

// A view for reading, its words and a copy of it.
#[test]
fn views_of_words(rt: HostRuntime) {
    let words = [0x08_u8, 0x02];
    let view = ok(&rt, BitSlice::<u8, Msb0>::try_from_slice(&words));
    check(&rt, view.as_raw_slice() == words.as_slice());
    let copy = ok(&rt, view.clone());
    check(&rt, copy.len() == 16);
}

// What a view for writing says of its bits: lengths and counts.
#[test]
fn counts_while_written(rt: HostRuntime) {
    let mut words = [0x08_u8, 0x02];
    let view = BitSliceMut::<u8, Lsb0>::from_slice_mut(&mut words);
    check(&rt, view.head() == 0);
    check(&rt, view.len() == 16);
    check(&rt, !view.is_empty());
    check(&rt, view.any());
    check(&rt, !view.all());
    check(&rt, view.count_ones() == 2);
    check(&rt, view.count_zeros() == 14);
}

// The same: single bits and parts.
#[test]
fn reads_while_written(rt: HostRuntime) {
    let mut words = [0x08_u8, 0x02];
    let view = BitSliceMut::<u8, Lsb0>::from_slice_mut(&mut words);
    check(&rt, view[3]);
    check(&rt, view.get(9) == Some(true));
    check(&rt, view.first() == Some(false));
    check(&rt, view.last() == Some(false));
    check(&rt, view.get_range(3..10).count_ones() == 2);
    check(&rt, view.iter().len() == 16);
}

// The words of a view for writing, and the view of it for reading.
#[test]
fn words_while_written(rt: HostRuntime) {
    let mut words = [0x08_u8, 0x02];
    let mut view = BitSliceMut::<u8, Lsb0>::from_slice_mut(&mut words);
    check(&rt, !view.replace(0, true));
    let raw = view.as_raw_mut_slice();
    raw[1] = 0;
    check(&rt, view.as_bitslice().count_ones() == 2);
    check(&rt, view.as_raw_slice() == [0x09, 0x00].as_slice());
}

// Bits outside a view stay.
#[test]
#[tactic(auto, unfolding(bit_addressing::specs::Row::words_for))]
fn bits_outside(rt: HostRuntime) {
    let mut words = [0xff_u8, 0xff, 0xff];
    let mut view = BitSliceMut::<u8, Lsb0>::from_parts_mut(&mut words, 2, 19);
    view.fill(false);
    check(&rt, words == [0x03, 0x00, 0xe0]);
    let view = BitSlice::<u8, Msb0>::from_parts(&words, 2, 19);
    check(&rt, view.head() == 2);
}

#[test]
fn copies_within_one_word(rt: HostRuntime) {
    let mut word = [0x07_u8];
    let mut view = BitSliceMut::<u8, Lsb0>::from_slice_mut(&mut word);
    view.copy_within(3..3, 0);
    check(&rt, view.as_raw_slice()[0] == 0x07);
    view.copy_within(0..3, 5);
    check(&rt, word[0] == 0xe7);
}

#[test]
fn copies_within_many_words(rt: HostRuntime) {
    let mut bytes = [0x01_u8, 0x80, 0xff];
    BitSliceMut::<u8, Lsb0>::from_slice_mut(&mut bytes).copy_within(..20, 4);
    check(&rt, bytes == [0x11, 0x00, 0xf8]);
    let mut words = [0x1234_u16, 0xabcd];
    BitSliceMut::<u16, Lsb0>::from_slice_mut(&mut words).copy_within(8..24, 0);
    check(&rt, words == [0xcd12, 0xabcd]);
}

/// Two runs over several words, between words and bits that stay.
#[test]
fn two_long_runs_land(rt: HostRuntime) {
    let mut words = [0x11_u8, 0x22, 0x33, 0x44, 0x55, 0x66];
    let (mut left, mut right) = split_run_mut::<u8, Lsb0>(&mut words, 12, 24, 36);
    left.fill(true);
    right.fill(false);
    check(
        &rt,
        words.as_slice() == [0x11, 0xf2, 0xff, 0x00, 0x50, 0x66].as_slice(),
    );
}

#[test]
fn told_apart(rt: HostRuntime) {
    let words = [0x0b_u8];
    let view = BitSlice::<u8, Lsb0>::from_slice(&words).get_range(1..4);
    let text = ok(&rt, format!(in rt.alloc(); "{view:?}"));
    check(
        &rt,
        text.as_str() == "BitSlice { head: 1, bits: 3 } [1, 0, 1]",
    );
}

#[test]
fn searched_backward(rt: HostRuntime) {
    let view = BitSlice::<u8, Msb0>::from_slice(&[0x69, 0x00, 0x10]);
    check(&rt, view.prev_one(24) == Some(19));
    check(&rt, view.prev_one(19) == Some(7));
    check(&rt, view.prev_one(1).is_none());
    check(&rt, view.prev_zero(5) == Some(3));
}

#[test]
fn found_by_number(rt: HostRuntime) {
    let view = BitSlice::<u8, Msb0>::from_slice(&[0x69, 0x00, 0x10]);
    check(&rt, view.nth_one(4) == Some(19));
    check(&rt, view.nth_one(5).is_none());
    check(&rt, view.nth_zero(4) == Some(8));
    check(&rt, view.count_ones_in(2..8) == 3);
    check(&rt, view.any_in(19..20) && !view.any_in(8..19));
    check(&rt, view.all_in(1..3));
}

// Runs within a word, over words and at both ends, where the list begins and ends inside of words.
#[test]
fn cut_into_runs(rt: HostRuntime) {
    let words = [0x69_u8, 0x00, 0x10];
    let view = BitSlice::<u8, Msb0>::from_slice(&words).get_range(2..23);
    let mut ends = [0_usize; 9];
    let mut count = 0;
    for run in view.iter_runs() {
        check(&rt, view.get(run.start) == Some(run.bit));
        if count < 9 {
            ends[count] = run.end;
            count += 1;
        }
    }
    check(&rt, count == 8);
    check(&rt, ends == [1, 2, 3, 5, 6, 17, 18, 21, 0]);
    check(
        &rt,
        view.iter_runs().nth(4)
            == Some(BitRun {
                start: 5,
                end: 6,
                bit: true,
            }),
    );
    check(&rt, view.next_run(4, false, 0) == Some(6));
    check(&rt, view.next_run(12, false, 0).is_none());
}

#[test]
fn stripped(rt: HostRuntime) {
    let view = BitSlice::<u8, Msb0>::from_slice(&[0x69]);
    let part = BitSlice::<u8, Lsb0>::from_slice(&[0x06]).get_range(0..4);
    check(
        &rt,
        view.strip_prefix(part).map_or(0, |rest| rest.load_be()) == 9,
    );
    check(&rt, view.strip_suffix(part).is_none());
    check(&rt, view.find_from(1, part.get_range(0..2)) == Some(3));
}

#[test]
fn lists_exchanged(rt: HostRuntime) {
    let (mut left, mut right) = ([0x69_u8, 0xf0], [0x000a_u16]);
    let mut first = BitSliceMut::<u8, Msb0>::from_slice_mut(&mut left);
    let mut part = first.part_mut(4, 12);
    let mut second = BitSliceMut::<u16, Lsb0>::from_slice_mut(&mut right);
    let mut other = second.part_mut(0, 8);
    part.swap_with(&mut other);
    check(&rt, left == [0x65, 0x00]);
    check(&rt, right == [0x00f9]);
}

#[test]
fn written_by_a_function(rt: HostRuntime) {
    let mut words = [0x00_u8, 0xff];
    let mut view = BitSliceMut::<u8, Msb0>::from_slice_mut(&mut words);
    let mut part = view.part_mut(2, 12);
    part.fill_with(|i| i % 3 == 0);
    check(&rt, words == [0x24, 0x9f]);
}

#[test]
fn written_at_a_mask(rt: HostRuntime) {
    let mut words = [0x69_u8, 0xf0];
    let mut view = BitSliceMut::<u8, Msb0>::from_slice_mut(&mut words);
    let mask = BitSlice::<u16, Lsb0>::from_slice(&[0x00f0]);
    let source = BitSlice::<u8, Msb0>::from_slice(&[0xaa, 0xaa]);
    view.copy_where(mask, source);
    check(&rt, words == [0x6a, 0xf0]);
}

#[test]
fn two_views_in_one(rt: HostRuntime) {
    let left = BitSlice::<u8, Msb0>::from_slice(&[0x5a, 0xf0]);
    let right = BitSlice::<u16, Lsb0>::from_slice(&[0x00f3]);
    let mut words = [0_u8; 2];
    BitSliceMut::<u8, Msb0>::from_slice_mut(&mut words).assign_and(left, right);
    check(&rt, words == [0x4a, 0x00]);
    BitSliceMut::<u8, Msb0>::from_slice_mut(&mut words).assign_or(left, right);
    check(&rt, words == [0xdf, 0xf0]);
    BitSliceMut::<u8, Msb0>::from_slice_mut(&mut words).assign_xor(left, right);
    check(&rt, words == [0x95, 0xf0]);
}

// Two parts at other heads, and the bits beside the part that is written.
#[test]
fn two_parts_in_a_part(rt: HostRuntime) {
    let left = BitSlice::<u8, Msb0>::from_slice(&[0x5a, 0xf0]).get_range(1..9);
    let right = BitSlice::<u16, Lsb0>::from_slice(&[0x00f3]).get_range(0..8);
    let mut words = [0xff_u8, 0x01];
    let mut view = BitSliceMut::<u8, Msb0>::from_slice_mut(&mut words);
    let mut part = view.part_mut(4, 12);
    part.assign_and_not(left, right);
    check(&rt, words == [0xf3, 0x01]);
}

#[test]
fn deposited(rt: HostRuntime) {
    let mut words = [0x00_u8];
    let mut view = BitSliceMut::<u8, Msb0>::from_slice_mut(&mut words);
    let mask = BitSlice::<u8, Msb0>::from_slice(&[0x69]);
    let source = BitSlice::<u8, Lsb0>::from_slice(&[0x0d]).get_range(0..4);
    view.deposit(mask, source);
    check(&rt, words == [0x49]);
}

#[test]
fn searched_together(rt: HostRuntime) {
    let left = BitSlice::<u8, Msb0>::from_slice(&[0x69, 0x00, 0x10]);
    let right = BitSlice::<u8, Msb0>::from_slice(&[0x55, 0x00, 0x10]);
    check(&rt, left.next_and(right, 2) == Some(7));
    check(&rt, left.next_and_not(right, 0) == Some(2));
    check(&rt, left.next_or(right, 8) == Some(19));
    check(&rt, left.next_xor(right, 6).is_none());
    check(&rt, left.next_xor(right.get_range(0..8), 6) == Some(19));
    check(&rt, left.count_and_not(right) == 2);
}

#[test]
fn runs_at_multiples(rt: HostRuntime) {
    let view = BitSlice::<u8, Msb0>::from_slice(&[0x81]);
    check(&rt, view.next_aligned_run(2, 4, false, 1) == Some(4));
    check(&rt, view.next_aligned_run(2, 4, false, 5).is_none());
}

#[test]
fn combined_by_operators(rt: HostRuntime) {
    let mut words = [0x69_u8];
    let mut view = BitSliceMut::<u8, Msb0>::from_slice_mut(&mut words);
    view &= BitSlice::<u8, Msb0>::from_slice(&[0x55]);
    view |= BitSlice::<u16, Msb0>::from_slice(&[0x0fff]);
    view ^= BitSlice::<u8, Lsb0>::from_slice(&[0xff]);
    view -= BitSlice::<u8, Msb0>::from_slice(&[0x80]);
    view <<= 1;
    view >>= 2;
    check(&rt, words == [0x18]);
}

#[test]
fn last_places(rt: HostRuntime) {
    let view = BitSlice::<u8, Msb0>::from_slice(&[0x69]);
    let pattern = BitSlice::<u16, Msb0>::from_slice(&[0x4000]).get_range(0..2);
    check(&rt, view.rfind(pattern) == Some(6));
    check(&rt, view.get_range(1..6).rfind(pattern) == Some(2));
    check(&rt, view.get_range(0..1).rfind(pattern).is_none());
}

#[test]
fn last_place_far_from_the_end(rt: HostRuntime) {
    let mut words = [0_u8; 40];
    words[0] = 0x05;
    let view = BitSlice::<u8, Msb0>::from_slice(&words);
    let pattern = BitSlice::<u8, Msb0>::from_slice(&[0xa0]).get_range(0..3);
    check(&rt, view.rfind(pattern) == Some(5));
}

#[test]
fn all_places(rt: HostRuntime) {
    let view = BitSlice::<u8, Msb0>::from_slice(&[0x74]);
    let pattern = BitSlice::<u8, Msb0>::from_slice(&[0xc0]).get_range(0..2);
    let mut places = view.find_all(pattern);
    check(&rt, places.next() == Some(1));
    check(&rt, places.next() == Some(2));
    check(&rt, places.next().is_none());
}

#[test]
fn chunks_rewritten(rt: HostRuntime) {
    let mut words = [0x69_u8, 0xff];
    let mut view = BitSliceMut::<u8, Msb0>::from_slice_mut(&mut words);
    let mut part = view.part_mut(0, 11);
    part.map_chunks(4, |n| n.wrapping_add(1));
    check(&rt, words == [0xe5, 0x1f]);
}

#[test]
fn as_digits(rt: HostRuntime) {
    let view = BitSlice::<u8, Msb0>::from_slice(&[0x69; 9]).get_range(1..71);
    let text = ok(&rt, view.to_text(rt.alloc()));
    check(
        &rt,
        text.as_str() == "1101001011010010110100101101001011010010110100101101001011010010110100",
    );
}

#[test]
fn ranges_of_a_bit(rt: HostRuntime) {
    let view = BitSlice::<u8, Msb0>::from_slice(&[0x69]);
    let mut ranges = view.iter_ranges(true);
    check(&rt, ranges.next() == Some(1..3));
    check(&rt, ranges.next() == Some(4..5));
    check(&rt, ranges.next() == Some(7..8));
    check(&rt, ranges.next().is_none());
}

#[test]
fn ranges_as_text(rt: HostRuntime) {
    let view = BitSlice::<u8, Msb0>::from_slice(&[0x69]);
    let (ones, zeros) = (view.ranges_text(true), view.ranges_text(false));
    let text = ok(&rt, format!(in rt.alloc(); "{ones} {zeros}"));
    check(&rt, text.as_str() == "1-2,4,7 0,3,5-6");
}

// The number of bits of a part.
fn length_of<T: BitStore, O: BitOrder>(part: Option<BitSlice<'_, T, O>>) -> Option<usize> {
    match part {
        Some(part) => Some(part.len()),
        None => None,
    }
}

#[test]
fn split_at_ones(rt: HostRuntime) {
    let view = BitSlice::<u8, Msb0>::from_slice(&[0x69]);
    let mut parts = view.split(|_, bit| bit);
    check(&rt, length_of(parts.next()) == Some(1));
    check(&rt, length_of(parts.next()) == Some(0));
    check(&rt, length_of(parts.next()) == Some(1));
    check(&rt, length_of(parts.next()) == Some(2));
    check(&rt, length_of(parts.next()) == Some(0));
    check(&rt, parts.next().is_none());
}

#[test]
fn split_copied_and_shown(rt: HostRuntime) {
    let view = BitSlice::<u8, Msb0>::from_slice(&[0x69]);
    let mut parts = view.split(|_, bit| bit);
    check(&rt, length_of(parts.next()) == Some(1));
    let mut copy = ok(&rt, parts.clone());
    check(&rt, length_of(copy.next()) == Some(0));
    let text = ok(&rt, format!(in rt.alloc(); "{parts:?} {copy:?}"));
    check(
        &rt,
        text.as_str()
            == "Split { from: 2, done: false } [0, 1, 1, 0, 1, 0, 0, 1] Split { from: 3, done: false } [0, 1, 1, 0, 1, 0, 0, 1]",
    );
}
