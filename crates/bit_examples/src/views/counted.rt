//! Views whose reads and writes of words are counted.
ghost use Rattle.std.specs.Prelude.{◌≡◌, ◌↔◌, IsTrue, count_by, ◌+◌, ◌≤◌};
ghost use Rattle.bit_addressing.specs.Row.{moved};
ghost use Rattle.bit_slice.specs.CountedMut.{head_of as head_counted, len_of as len_counted, loan_of as loan_counted, list_of as list_counted, reads_of as reads_counted, writes_of};
ghost use Rattle.bit_slice.specs.BitSlice.{head_of as head_seen, len_of as len_seen};
ghost use Rattle.bit_slice.specs.Counted.{head_of as head_read, len_of as len_read, list_of as list_read, reads_of, WasRead};

use crate::common::check;
use bit_addressing::Lsb0;
use bit_slice::{BitList, BitSlice, BitSliceMut, Counted, CountedMut};

// A counted move of bits 1..12 to 3 writes two words at most, and reads six at most.
#[tactic(auto, unfolding(bit_addressing::specs::Row::touched))]
fn count_writes(view: &mut CountedMut<'_, u8, Lsb0>)
    requires head { head_counted view.old ≡ 0 }
    requires len { len_counted view.old ≡ 16 }
    ensures same_words { loan_counted view.new ≡ loan_counted view.old }
    ensures writes { writes_of view.new ≤ writes_of view.old + 2 }
    ensures reads { reads_counted view.new ≤ reads_counted view.old + 6 }
    ensures list { list_counted view.new ≡ moved (list_counted view.old) 1 3 11 }
    ensures head { head_counted view.new ≡ head_counted view.old }
    ensures len { len_counted view.new ≡ len_counted view.old }
{
    view.copy_within_counted(1..12, 3);
}

// What is moved through a meter stands in the view's words.
#[test]
#[tactic(auto, unfolding(bit_addressing::specs::Row::words_for))]
fn counted_move(rt: HostRuntime) {
    let mut words = [0x05_u8, 0x00, 0xff];
    let mut view = BitSliceMut::<u8, Lsb0>::from_parts_mut(&mut words, 2, 19);
    let mut counted = view.counted_mut();
    check(&rt, counted.head() == 2);
    check(&rt, counted.len() == 19);
    check(&rt, !counted.is_empty());
    counted.copy_within_counted(0..=2, 8);
    check(&rt, words == [0x05, 0x04, 0xff]);
}

#[test]
#[tactic(auto, unfolding(bit_addressing::specs::Row::words_for))]
fn counted_rows(rt: HostRuntime) {
    let mut words = [0xb1_u8, 0x6d];
    let mut view = BitSliceMut::<u8, Lsb0>::from_parts_mut(&mut words, 0, 16);
    count_writes(&mut view.counted_mut());
    check(&rt, words == [0xc1, 0x76]);
}

// Eight bits from head 3 on lie in two words on either side.
#[tactic(auto, unfolding(bit_addressing::specs::Row::words_for))]
fn compare_in_four(left: &mut Counted<'_, u8, Lsb0>, right: &mut Counted<'_, u8, Lsb0>) -> bool
    requires left_head { head_read left.old ≡ 3 }
    requires left_len { len_read left.old ≡ 8 }
    requires right_head { head_read right.old ≡ 3 }
    requires right_len { len_read right.old ≡ 8 }
    ensures value { IsTrue result ↔ (list_read left.old ≡ list_read right.old) }
    ensures left { WasRead left.old left.new }
    ensures reads { reads_of left.new + reads_of right.new ≤ reads_of left.old + reads_of right.old + 4 }
{
    left.eq_counted(right)
}

#[tactic(auto, unfolding(bit_addressing::specs::Row::words_for))]
fn count_in_two(view: &mut Counted<'_, u8, Lsb0>) -> usize
    requires head { head_read view.old ≡ 3 }
    requires len { len_read view.old ≤ 8 }
    ensures value { result ≡ count_by (λ b. b) (list_read view.old) }
    ensures reads { reads_of view.new ≤ reads_of view.old + 2 }
    ensures none { len_read view.old ≡ 0 → reads_of view.new ≤ reads_of view.old + 1 }
{
    view.count_ones_counted()
}

// The eight bits from head 3 on.
fn eight(words: &[u8; 2]) -> BitSlice<'_, u8, Lsb0>
    ensures head { head_seen result ≡ 3 }
    ensures len { len_seen result ≡ 8 }
{
    BitSlice::<u8, Lsb0>::from_slice(words).get_range(3..11)
}

#[test]
fn compared_in_four_reads(rt: HostRuntime) {
    let (first, second, third) = ([0xa8_u8, 0x07], [0xaf_u8, 0xff], [0xa8_u8, 0x03]);
    let mut counted = eight(&first).counted();
    check(&rt, counted.head() == 3);
    check(&rt, counted.len() == 8);
    check(&rt, !counted.is_empty());
    let mut other = eight(&second).counted();
    check(&rt, compare_in_four(&mut counted, &mut other));
    let mut other = eight(&third).counted();
    check(&rt, !compare_in_four(&mut counted, &mut other));
}

#[test]
fn ones_counted_in_two_reads(rt: HostRuntime) {
    let words = [0xa8_u8, 0x07];
    check(&rt, count_in_two(&mut eight(&words).counted()) == 6);
    let byte = [0xff_u8];
    let none = BitSlice::<u8, Lsb0>::from_slice(&byte).get_range(3..3);
    check(&rt, count_in_two(&mut none.counted()) == 0);
}

#[test]
fn compared_at_other_heads(rt: HostRuntime) {
    let (words, byte) = ([0xa8_u8, 0x07], [0xf5_u8]);
    let aligned = BitSlice::<u8, Lsb0>::from_slice(&byte);
    let mut counted = eight(&words).counted();
    check(&rt, counted.eq_counted(&mut aligned.counted()));
    check(&rt, eight(&words).eq_bits(aligned));
}

#[tactic(auto, unfolding(bit_addressing::specs::Row::touched))]
fn count_down(view: &mut CountedMut<'_, u8, Lsb0>)
    requires head { head_counted view.old ≡ 0 }
    requires len { len_counted view.old ≡ 16 }
    ensures writes { writes_of view.new ≤ writes_of view.old + 2 }
    ensures reads { reads_counted view.new ≤ reads_counted view.old + 6 }
{
    view.copy_within_counted(3..14, 1);
}

#[tactic(auto, unfolding(bit_addressing::specs::Row::touched))]
fn count_over_three_words(view: &mut CountedMut<'_, u8, Lsb0>)
    requires head { head_counted view.old ≡ 0 }
    requires len { len_counted view.old ≡ 24 }
    ensures writes { writes_of view.new ≤ writes_of view.old + 3 }
    ensures reads { reads_counted view.new ≤ reads_counted view.old + 9 }
{
    view.copy_within_counted(0..20, 4);
}

#[tactic(auto, unfolding(bit_addressing::specs::Row::touched))]
fn count_into_a_whole_word(view: &mut CountedMut<'_, u16, Lsb0>)
    requires head { head_counted view.old ≡ 0 }
    requires len { len_counted view.old ≡ 32 }
    ensures writes { writes_of view.new ≤ writes_of view.old + 1 }
    ensures reads { reads_counted view.new ≤ reads_counted view.old + 3 }
{
    view.copy_within_counted(8..24, 0);
}

#[tactic(auto, unfolding(bit_addressing::specs::Row::touched))]
fn count_in_one_word(view: &mut CountedMut<'_, u8, Lsb0>)
    requires head { head_counted view.old ≡ 0 }
    requires len { len_counted view.old ≡ 8 }
    ensures writes { writes_of view.new ≤ writes_of view.old + 1 }
    ensures reads { reads_counted view.new ≤ reads_counted view.old + 3 }
{
    view.copy_within_counted(0..3, 5);
}

#[tactic(auto, unfolding(bit_addressing::specs::Row::touched))]
fn count_nothing(view: &mut CountedMut<'_, u8, Lsb0>)
    requires head { head_counted view.old ≡ 0 }
    requires len { len_counted view.old ≡ 8 }
    ensures writes { writes_of view.new ≤ writes_of view.old }
    ensures reads { reads_counted view.new ≤ reads_counted view.old }
{
    view.copy_within_counted(3..3, 0);
}

/// The moves whose reads and writes are bounded over rows, through views.
#[test]
#[tactic(auto, unfolding(bit_addressing::specs::Row::words_for))]
fn counted_through_views(rt: HostRuntime) {
    let mut words = [0xb1_u8, 0x6d];
    let mut view = BitSliceMut::<u8, Lsb0>::from_parts_mut(&mut words, 0, 16);
    count_down(&mut view.counted_mut());
    check(&rt, words == [0x6d, 0x6b]);
    let mut words = [0x01_u8, 0x80, 0xff];
    let mut view = BitSliceMut::<u8, Lsb0>::from_parts_mut(&mut words, 0, 24);
    count_over_three_words(&mut view.counted_mut());
    check(&rt, words == [0x11, 0x00, 0xf8]);
    let mut words = [0x1234_u16, 0xabcd];
    let mut view = BitSliceMut::<u16, Lsb0>::from_parts_mut(&mut words, 0, 32);
    count_into_a_whole_word(&mut view.counted_mut());
    check(&rt, words == [0xcd12, 0xabcd]);
}

#[test]
#[tactic(auto, unfolding(bit_addressing::specs::Row::words_for))]
fn counted_in_one_word_through_views(rt: HostRuntime) {
    let mut words = [0x07_u8];
    let mut view = BitSliceMut::<u8, Lsb0>::from_parts_mut(&mut words, 0, 8);
    count_in_one_word(&mut view.counted_mut());
    check(&rt, words == [0xe7]);
    let mut words = [0x07_u8];
    let mut view = BitSliceMut::<u8, Lsb0>::from_parts_mut(&mut words, 0, 8);
    count_nothing(&mut view.counted_mut());
    check(&rt, words == [0x07]);
}
