//! Blocks that gain and lose numbers, beside a list of truth values.
use crate::{check, ok};
use bit_blocks::Block;
use std::process::Abort;

// Whether a block has the numbers of the values that are true. Each is looked for, and each of some is counted to,
// which takes longer.
fn is_as(block: &Block, truths: &[bool]) -> bool {
    let mut below = 0usize;
    let mut number = 0u16;
    for &holds in truths {
        if block.contains(number) != holds {
            return false;
        }
        if number % 127 == 0 && block.rank(number) != below {
            return false;
        }
        if holds && number % 127 == 0 && block.select(below) != Some(number) {
            return false;
        }
        if holds {
            below = below.wrapping_add(1);
        }
        number = number.wrapping_add(1);
    }
    block.len() == below && block.select(below) == None
}

// The number that comes at a turn: each once in 65536 turns, and in no order.
fn number_at(turn: u16) -> u16 {
    turn.wrapping_mul(40503)
}

// Notes whether a number is in.
fn note(rt: &impl Abort, truths: &mut Vec<bool>, number: u16, holds: bool) {
    match truths.get_mut(number as usize) {
        Some(place) => *place = holds,
        None => check(rt, false),
    }
}

// Puts the number of a turn in, which was not there.
fn put(rt: &impl Abort, block: &mut Block, truths: &mut Vec<bool>, turn: u16) {
    check(rt, ok(rt, block.insert(number_at(turn))));
    note(rt, truths, number_at(turn), true);
}

// Takes the number of a turn out, which was there.
fn take(rt: &impl Abort, block: &mut Block, truths: &mut Vec<bool>, turn: u16) {
    check(rt, ok(rt, block.remove(number_at(turn))));
    note(rt, truths, number_at(turn), false);
}

// Checks that a block has `count` numbers, and that these are the noted ones.
fn stands_at(rt: &impl Abort, block: &Block, truths: &[bool], count: usize) {
    check(rt, truths.len() == 65536);
    check(rt, block.len() == count);
    check(rt, is_as(block, truths));
}

#[test]
fn numbers_are_put_in(rt: HostRuntime) {
    let mut block = Block::new(rt.alloc());
    let mut truths = ok(&rt, vec![in rt.alloc(); false; 65536]);
    stands_at(&rt, &block, &truths, 0);
    for turn in 0..4095u16 {
        put(&rt, &mut block, &mut truths, turn);
    }
    stands_at(&rt, &block, &truths, 4095);
    put(&rt, &mut block, &mut truths, 4095);
    stands_at(&rt, &block, &truths, 4096);
    put(&rt, &mut block, &mut truths, 4096);
    stands_at(&rt, &block, &truths, 4097);
    check(&rt, !ok(&rt, block.insert(number_at(7))));
    for turn in 4097..65535u16 {
        put(&rt, &mut block, &mut truths, turn);
    }
    stands_at(&rt, &block, &truths, 65535);
    put(&rt, &mut block, &mut truths, 65535);
    stands_at(&rt, &block, &truths, 65536);
    check(&rt, !ok(&rt, block.insert(65535)));
}

// The block of all numbers, each put in.
fn full(rt: &(impl Abort + AllocGlobal)) -> Block {
    let mut block = Block::new(rt.alloc());
    for number in 0..65535u16 {
        check(rt, ok(rt, block.insert(number)));
    }
    check(rt, ok(rt, block.insert(65535)));
    block
}

#[test]
fn numbers_are_taken_out(rt: HostRuntime) {
    let mut block = full(&rt);
    let mut truths = ok(&rt, vec![in rt.alloc(); true; 65536]);
    stands_at(&rt, &block, &truths, 65536);
    for turn in 0..61439u16 {
        take(&rt, &mut block, &mut truths, turn);
    }
    stands_at(&rt, &block, &truths, 4097);
    take(&rt, &mut block, &mut truths, 61439);
    stands_at(&rt, &block, &truths, 4096);
    take(&rt, &mut block, &mut truths, 61440);
    stands_at(&rt, &block, &truths, 4095);
    check(&rt, !ok(&rt, block.remove(number_at(7))));
    for turn in 61441..65535u16 {
        take(&rt, &mut block, &mut truths, turn);
    }
    stands_at(&rt, &block, &truths, 1);
    take(&rt, &mut block, &mut truths, 65535);
    stands_at(&rt, &block, &truths, 0);
}

#[test]
fn runs_gain_and_lose(rt: HostRuntime) {
    let mut block = full(&rt);
    let mut truths = ok(&rt, vec![in rt.alloc(); true; 65536]);
    ok(&rt, block.optimize());
    stands_at(&rt, &block, &truths, 65536);
    take(&rt, &mut block, &mut truths, 9);
    stands_at(&rt, &block, &truths, 65535);
    ok(&rt, block.optimize());
    take(&rt, &mut block, &mut truths, 10);
    put(&rt, &mut block, &mut truths, 9);
    stands_at(&rt, &block, &truths, 65535);
    ok(&rt, block.optimize());
    stands_at(&rt, &block, &truths, 65535);
}
