//! Moves, whose reads and writes contracts count.
ghost use Rattle.std.specs.Prelude.{◌≡◌, ◌+◌, ◌*◌, ◌≤◌, length};

use crate::common::check;
use crate::rows::orders::Xor4;
use bit_addressing::{BitOrder, BitStore, Lsb0, Msb0, WordRead, WordRow};

// 11 bits over an edge touch two words.
fn move_up(row: &mut WordRow<u8>)
    requires { length row.old.words.now ≡ 2 }
    ensures writes { row.new.meter.writes ≤ row.old.meter.writes + 2 }
    ensures reads { row.new.meter.reads ≤ row.old.meter.reads + 6 }
{
    Lsb0::move_run(row, 1, 3, 11);
}

fn move_down(row: &mut WordRow<u8>)
    requires { length row.old.words.now ≡ 2 }
    ensures writes { row.new.meter.writes ≤ row.old.meter.writes + 2 }
    ensures reads { row.new.meter.reads ≤ row.old.meter.reads + 6 }
{
    Lsb0::move_run(row, 3, 1, 11);
}

fn move_up_from_the_highest_place(row: &mut WordRow<u8>)
    requires { length row.old.words.now ≡ 2 }
    ensures writes { row.new.meter.writes ≤ row.old.meter.writes + 2 }
    ensures reads { row.new.meter.reads ≤ row.old.meter.reads + 6 }
{
    Msb0::move_run(row, 1, 3, 11);
}

fn move_down_from_the_highest_place(row: &mut WordRow<u8>)
    requires { length row.old.words.now ≡ 2 }
    ensures writes { row.new.meter.writes ≤ row.old.meter.writes + 2 }
    ensures reads { row.new.meter.reads ≤ row.old.meter.reads + 6 }
{
    Msb0::move_run(row, 3, 1, 11);
}

fn move_in_one_word(row: &mut WordRow<u8>)
    requires { length row.old.words.now ≡ 1 }
    ensures writes { row.new.meter.writes ≤ row.old.meter.writes + 1 }
    ensures reads { row.new.meter.reads ≤ row.old.meter.reads + 3 }
{
    Lsb0::move_run(row, 0, 5, 3);
}

fn move_nothing(row: &mut WordRow<u8>)
    requires { length row.old.words.now ≡ 1 }
    ensures writes { row.new.meter.writes ≤ row.old.meter.writes }
    ensures reads { row.new.meter.reads ≤ row.old.meter.reads }
{
    Lsb0::move_run(row, 3, 0, 0);
}

fn move_over_three_words(row: &mut WordRow<u8>)
    requires { length row.old.words.now ≡ 3 }
    ensures writes { row.new.meter.writes ≤ row.old.meter.writes + 3 }
    ensures reads { row.new.meter.reads ≤ row.old.meter.reads + 9 }
{
    Lsb0::move_run(row, 0, 4, 20);
}

fn move_into_a_whole_word(row: &mut WordRow<u16>)
    requires { length row.old.words.now ≡ 2 }
    ensures writes { row.new.meter.writes ≤ row.old.meter.writes + 1 }
    ensures reads { row.new.meter.reads ≤ row.old.meter.reads + 3 }
{
    Lsb0::move_run(row, 8, 0, 16);
}

fn move_by_a_users_order(row: &mut WordRow<u8>)
    requires { length row.old.words.now ≡ 2 }
    ensures writes { row.new.meter.writes ≤ row.old.meter.writes + 2 }
    ensures reads { row.new.meter.reads ≤ row.old.meter.reads + 6 }
{
    Xor4::move_run(row, 1, 3, 11);
}

#[test]
fn counted_moves(rt: HostRuntime) {
    let mut words = [0xb1, 0x6d];
    move_up(&mut WordRow::new(&mut words));
    check(&rt, words == [0xc1, 0x76]);
    let mut words = [0xb1, 0x6d];
    move_down(&mut WordRow::new(&mut words));
    check(&rt, words == [0x6d, 0x6b]);
}

#[test]
fn counted_moves_by_other_orders(rt: HostRuntime) {
    let mut words = [0xb1, 0x6d];
    move_up_from_the_highest_place(&mut WordRow::new(&mut words));
    check(&rt, words == [0xac, 0x59]);
    let mut words = [0xb1, 0x6d];
    move_down_from_the_highest_place(&mut WordRow::new(&mut words));
    check(&rt, words == [0xc5, 0xbd]);
    let mut words = [0xb1, 0x6d];
    move_by_a_users_order(&mut WordRow::new(&mut words));
    check(&rt, words == [0xb6, 0x8d]);
}

#[test]
fn counted_moves_in_one_word(rt: HostRuntime) {
    let mut words = [0x07];
    move_in_one_word(&mut WordRow::new(&mut words));
    check(&rt, words == [0xe7]);
    let mut words = [0x07];
    move_nothing(&mut WordRow::new(&mut words));
    check(&rt, words == [0x07]);
}

#[test]
fn counted_moves_of_whole_words(rt: HostRuntime) {
    let mut words = [0x01, 0x80, 0xff];
    move_over_three_words(&mut WordRow::new(&mut words));
    check(&rt, words == [0x11, 0x00, 0xf8]);
    let mut words = [0x1234, 0xabcd];
    move_into_a_whole_word(&mut WordRow::new(&mut words));
    check(&rt, words == [0xcd12, 0xabcd]);
}

#[test]
fn moves_of_words(rt: HostRuntime) {
    let mut words = [0x07u8];
    let mut row = WordRow::new(&mut words);
    check(&rt, row.row_len() == 8);
    let word = row.load(0);
    row.store(0, word.not());
    check(&rt, words == [0xf8]);
}

// Two words are read in three loads.
fn read_thrice(words: &mut WordRead<u8>) -> u8
    requires { length words.old.words.now ≡ 2 }
    ensures { words.new.meter.reads ≡ words.old.meter.reads + 3 }
{
    let first = words.load(0);
    let second = words.load(1);
    first.xor(second).xor(words.load(0))
}

#[test]
fn counted_reads(rt: HostRuntime) {
    let mut words = WordRead::new(&[0xb1, 0x6d]);
    check(&rt, read_thrice(&mut words) == 0x6d);
}
