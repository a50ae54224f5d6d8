//! Blocks as bytes of the portable format, and those bytes as blocks: bytes that are worked out by hand.
ghost use Rattle.std.specs.Prelude.{◌<◌, length};
ghost use Rattle.bit_blocks.specs.Numbers.{Ascends};

use crate::blocks::{block_of, is_list};
use crate::{check, ok};
use bit_blocks::{Block, Keyed};
use bit_portable::{Data, Head, read, read_stored, write};
use std::process::Abort;

// That a block has a number.
fn is_filled(rt: &impl Abort, block: &Block)
    ensures some { 0 < length block.now }
    ensures ascends { Ascends block.now }
{
    assert!(rt; 0 < block.len());
}

// The bytes of one block.
pub fn bytes_of(
    rt: &(impl Abort + AllocGlobal),
    key: u16,
    block: Block,
    with_runs: bool,
) -> Vec<u8> {
    is_filled(rt, &block);
    let row = [Keyed { key, block }];
    ok(rt, write(rt.alloc(), row.as_slice(), with_runs))
}

// The blocks of bytes.
fn blocks_of(rt: &(impl Abort + AllocGlobal), bytes: &[u8]) -> Vec<Keyed> {
    match read(rt.alloc(), bytes) {
        Ok(blocks) => blocks,
        Err(_) => panic!(rt; "the bytes were refused"),
    }
}

// Whether bytes are read as one block of these numbers.
fn is_block(rt: &(impl Abort + AllocGlobal), bytes: &[u8], key: u16, numbers: &[u16]) -> bool {
    match blocks_of(rt, bytes).as_slice() {
        [one] => one.key == key && is_list(rt, &one.block, numbers),
        _ => false,
    }
}

#[test]
fn no_block(rt: HostRuntime) {
    let expected = [58, 48, 0, 0, 0, 0, 0, 0];
    let plain = ok(&rt, write(rt.alloc(), &[], false));
    check(&rt, plain.as_slice() == expected.as_slice());
    let with_runs = ok(&rt, write(rt.alloc(), &[], true));
    check(&rt, with_runs.as_slice() == expected.as_slice());
    check(&rt, blocks_of(&rt, &plain).len() == 0);
}

#[test]
fn a_list_of_two(rt: HostRuntime) {
    let expected = [
        58, 48, 0, 0, 1, 0, 0, 0, 0, 0, 1, 0, 16, 0, 0, 0, 3, 0, 7, 0,
    ];
    for with_runs in [false, true] {
        let block = block_of(&rt, [3, 7].as_slice());
        let bytes = bytes_of(&rt, 0, block, with_runs);
        check(&rt, bytes.as_slice() == expected.as_slice());
    }
    check(&rt, is_block(&rt, expected.as_slice(), 0, &[3, 7]));
}

#[test]
fn a_run_of_ten(rt: HostRuntime) {
    let block = ok(&rt, Block::from_range(rt.alloc(), 0, 9));
    let bytes = bytes_of(&rt, 258, block, true);
    let expected = [59, 48, 0, 0, 1, 2, 1, 9, 0, 1, 0, 0, 0, 9, 0];
    check(&rt, bytes.as_slice() == expected.as_slice());
    let numbers = [0, 1, 2, 3, 4, 5, 6, 7, 8, 9];
    check(&rt, is_block(&rt, &bytes, 258, numbers.as_slice()));
}

#[test]
fn a_run_of_ten_as_a_list(rt: HostRuntime) {
    let block = ok(&rt, Block::from_range(rt.alloc(), 0, 9));
    let bytes = bytes_of(&rt, 258, block, false);
    let expected = [
        58, 48, 0, 0, 1, 0, 0, 0, 2, 1, 9, 0, 16, 0, 0, 0, 0, 0, 1, 0, 2, 0, 3, 0, 4, 0, 5, 0, 6,
        0, 7, 0, 8, 0, 9, 0,
    ];
    check(&rt, bytes.as_slice() == expected.as_slice());
    let numbers = [0, 1, 2, 3, 4, 5, 6, 7, 8, 9];
    check(&rt, is_block(&rt, &bytes, 258, numbers.as_slice()));
}

#[test]
fn all_numbers_as_a_run(rt: HostRuntime) {
    let block = ok(&rt, Block::from_range(rt.alloc(), 0, 65535));
    let bytes = bytes_of(&rt, 65535, block, true);
    let expected = [59, 48, 0, 0, 1, 255, 255, 255, 255, 1, 0, 0, 0, 255, 255];
    check(&rt, bytes.as_slice() == expected.as_slice());
    match blocks_of(&rt, &bytes).as_slice() {
        [one] => {
            check(&rt, one.key == 65535);
            check(&rt, one.block.len() == 65536);
        }
        _ => check(&rt, false),
    }
}

// The block of the 5000 even numbers below 10000.
pub fn evens(rt: &(impl Abort + AllocGlobal)) -> Block {
    let mut block = Block::new(rt.alloc());
    for half in 0..5000u16 {
        check(rt, ok(rt, block.insert(2 * half)));
    }
    block
}

// The byte at a place of the even numbers' form with key 3: 4999 is 19 * 256 + 135, and each byte of bits is 0101_0101
// up to number 9999.
fn evens_byte(place: usize) -> u8 {
    let header = [58u8, 48, 0, 0, 1, 0, 0, 0, 3, 0, 135, 19, 16, 0, 0, 0];
    match header.get(place) {
        Some(&byte) => byte,
        None => { if place < 1266 { 85 } else { 0 } }
    }
}

#[test]
fn bits_of_five_thousand(rt: HostRuntime) {
    for with_runs in [false, true] {
        let bytes = bytes_of(&rt, 3, evens(&rt), with_runs);
        check(&rt, bytes.len() == 8208);
        for (place, &byte) in bytes.iter().enumerate() {
            check(&rt, byte == evens_byte(place));
        }
        match blocks_of(&rt, &bytes).as_slice() {
            [one] => {
                check(&rt, one.key == 3);
                check(&rt, one.block.len() == 5000);
                check(&rt, one.block.last() == Some(9998));
                check(&rt, one.block.rank(5001) == 2501);
            }
            _ => check(&rt, false),
        }
    }
}

// Four blocks, of which all but the third are runs: flags 1101, and data at 37, 43, 49 and 53.
pub const FOUR: [u8; 59] = [
    59, 48, 3, 0, 11, 0, 0, 9, 0, 1, 0, 9, 0, 2, 0, 1, 0, 5, 0, 9, 0, 37, 0, 0, 0, 43, 0, 0, 0, 49,
    0, 0, 0, 53, 0, 0, 0, 1, 0, 0, 0, 9, 0, 1, 0, 0, 0, 9, 0, 3, 0, 7, 0, 1, 0, 100, 0, 9, 0,
];

#[test]
fn four_blocks_have_offsets(rt: HostRuntime) {
    let first = ok(&rt, Block::from_range(rt.alloc(), 0, 9));
    let second = ok(&rt, Block::from_range(rt.alloc(), 0, 9));
    let third = block_of(&rt, [3, 7].as_slice());
    let fourth = ok(&rt, Block::from_range(rt.alloc(), 100, 109));
    is_filled(&rt, &first);
    is_filled(&rt, &second);
    is_filled(&rt, &third);
    is_filled(&rt, &fourth);
    let row = [
        Keyed {
            key: 0,
            block: first,
        },
        Keyed {
            key: 1,
            block: second,
        },
        Keyed {
            key: 2,
            block: third,
        },
        Keyed {
            key: 5,
            block: fourth,
        },
    ];
    let bytes = ok(&rt, write(rt.alloc(), row.as_slice(), true));
    check(&rt, bytes.as_slice() == FOUR.as_slice());
}

#[test]
fn four_blocks_are_read(rt: HostRuntime) {
    match blocks_of(&rt, FOUR.as_slice()).as_slice() {
        [first, second, third, fourth] => {
            check(
                &rt,
                [first.key, second.key, third.key, fourth.key] == [0, 1, 2, 5],
            );
            check(&rt, first.block.len() == 10);
            check(&rt, second.block.last() == Some(9));
            check(&rt, is_list(&rt, &third.block, &[3, 7]));
            check(&rt, fourth.block.first() == Some(100));
        }
        _ => check(&rt, false),
    }
}

#[test]
fn forms_that_are_not_written_are_read(rt: HostRuntime) {
    let a_run_of_one = [59, 48, 0, 0, 1, 7, 0, 0, 0, 1, 0, 5, 0, 0, 0];
    check(&rt, is_block(&rt, a_run_of_one.as_slice(), 7, &[5]));
    let no_flag_set = [59, 48, 0, 0, 0, 0, 0, 1, 0, 3, 0, 7, 0];
    check(&rt, is_block(&rt, no_flag_set.as_slice(), 0, &[3, 7]));
    let flags_of_no_block = [59, 48, 0, 0, 254, 0, 0, 1, 0, 3, 0, 7, 0];
    check(&rt, is_block(&rt, flags_of_no_block.as_slice(), 0, &[3, 7]));
}

#[test]
fn what_is_stored(rt: HostRuntime) {
    let bytes = [59, 48, 0, 0, 1, 2, 1, 9, 0, 1, 0, 0, 0, 9, 0];
    let head = Head {
        key: 258,
        count: 10,
        as_runs: true,
    };
    match read_stored(rt.alloc(), bytes.as_slice()) {
        Ok(stored) => match stored.as_slice() {
            [one] => {
                check(&rt, one.head == head);
                match &one.content {
                    Data::Runs(runs) => check(&rt, runs.len() == 1),
                    _ => check(&rt, false),
                }
            }
            _ => check(&rt, false),
        },
        Err(_) => check(&rt, false),
    }
}
