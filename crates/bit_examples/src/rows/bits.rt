//! Rows of words: single bits, vectors of words, numbers in binary and blocks of two rows.
use crate::common::{check, ok};
use bit_addressing::{Lsb0, Msb0};
use bit_rows::{
    And, Or, append_run_in_vec, copy_bits_in_vec, count_blocks, cut_words_in_vec, false_blocks,
    fill_bits, flip_words, move_bits_in_vec, push_bit_in_vec, read_binary, read_bit,
    resize_words_in_vec, write_binary, write_bit, write_bit_in_vec,
};

#[test]
fn bits_of_words(rt: HostRuntime) {
    let mut words = [0x1234u16, 0xabcd];
    check(&rt, read_bit::<u16, Msb0>(&words, 3));
    write_bit::<u16, Msb0>(&mut words, 4, true);
    flip_words::<u16, Lsb0>(&mut words);
    check(&rt, words == [0xe5cb, 0x5432]);
}

#[test]
fn runs_appended(rt: HostRuntime) {
    let mut words = ok(&rt, vec![in rt.alloc(); 0x05u8]);
    cut_words_in_vec::<u8, Lsb0>(&mut words, 3);
    ok(&rt, append_run_in_vec::<u8, Lsb0>(&mut words, 3, 18, true));
    check(&rt, words.as_slice() == [0xfd, 0xff, 0x03].as_slice());
}

#[test]
fn words_of_a_vector(rt: HostRuntime) {
    let mut words = ok(&rt, vec![in rt.alloc(); 0xffu8]);
    ok(&rt, resize_words_in_vec::<u8, Lsb0>(&mut words, 9));
    write_bit_in_vec::<u8, Lsb0>(&mut words, 0, false);
    fill_bits::<u8, Lsb0>(words.as_mut_slice(), 6, 10, true);
    check(&rt, words.as_slice() == [0xfe, 0x03].as_slice());
}

#[test]
fn runs_of_a_vector(rt: HostRuntime) {
    let mut words = ok(&rt, vec![in rt.alloc(); 0xfeu8, 0x03]);
    flip_words::<u8, Lsb0>(words.as_mut_slice());
    copy_bits_in_vec::<u8, Lsb0, u16, Msb0>(&mut words, 4, &[0xf000], 0, 4);
    move_bits_in_vec::<u8, Lsb0>(&mut words, 4, 0, 8);
    check(&rt, words.as_slice() == [0xcf, 0xfc].as_slice());
}

#[test]
fn words_cut_and_pushed(rt: HostRuntime) {
    let mut words = ok(&rt, vec![in rt.alloc(); 0xcfu8, 0xfc]);
    cut_words_in_vec::<u8, Lsb0>(&mut words, 8);
    ok(&rt, push_bit_in_vec::<u8, Lsb0>(&mut words, 8, true));
    check(&rt, words.as_slice() == [0xcf, 0x01].as_slice());
}

#[test]
fn binary_numbers(rt: HostRuntime) {
    let mut bytes = [0u8; 3];
    write_binary::<u8, Msb0>(&mut bytes, 6, 12, 0xfd);
    check(&rt, bytes == [0x00, 0x3f, 0x40]);
    check(&rt, read_binary::<u8, Msb0>(&bytes, 6, 12) == 0xfd);
}

#[test]
fn blocks_of_false(rt: HostRuntime) {
    let (low, high) = ([0x0f_u8; 256], [0xf0_u8; 256]);
    check(
        &rt,
        false_blocks::<And, u8, Msb0, u8, Msb0>(&low, 0, &high, 0, 2048) == 32,
    );
}

#[test]
fn blocks_counted(rt: HostRuntime) {
    let low = [0x0f_u8; 256];
    let (blocks, ones) = count_blocks::<Or, u8, Msb0, u8, Msb0>(&low, 0, &low, 0, 2048);
    check(&rt, blocks == 32);
    check(&rt, ones == 1024);
}
