//! Examples through the bound, at each of the containers.
mod callers;

use crate::{check, ok};
use bit_addressing::{BitOrder, BitStore, GrowError, Lsb0, Msb0};
use bit_array::BitArray;
use bit_boxed::BitBox;
use bit_containers::BitVec;
use bit_fixed::{Bits, FixedCommand, Reply, Stop, run_fixed};
use bit_slice::BitSlice;
use std::process::Abort;

// That these are the digits, and no more.
fn holds<B: Bits>(rt: &impl Abort, bits: &B, digits: &[u8]) {
    assert!(rt; bits.len() == digits.len());
    for (i, digit) in digits.iter().enumerate() {
        check(rt, bits.get(i) == Some(*digit == b'1'));
    }
    check(rt, bits.get(digits.len()) == None);
}

// A run over eight bits that are false: its replies, and what it leaves.
fn worked<B: Bits>(rt: &(impl Abort + AllocGlobal), bits: &mut B) {
    holds(rt, bits, b"00000000");
    let commands = [
        FixedCommand::Set(1, true),
        FixedCommand::Flip,
        FixedCommand::CopyWithin(0, 3, 5),
        FixedCommand::Get(8),
        FixedCommand::Len,
    ];
    let mut replies = Vec::new(rt.alloc());
    let ran = run_fixed(bits, &commands, &mut replies);
    check(rt, ran.is_ok());
    let wanted = [
        Reply::Done,
        Reply::Done,
        Reply::Done,
        Reply::OutOfRange,
        Reply::Number(8),
    ];
    check(rt, replies.as_slice() == wanted.as_slice());
    holds(rt, bits, b"10111101");
}

// Each command that was not run there, and those that are out of range.
fn gave<B: Bits>(rt: &(impl Abort + AllocGlobal), bits: &mut B) {
    let commands = [
        FixedCommand::Fill(true),
        FixedCommand::Get(7),
        FixedCommand::Set(8, true),
        FixedCommand::CopyWithin(2, 1, 0),
        FixedCommand::CopyWithin(0, 9, 0),
        FixedCommand::CopyWithin(0, 3, 6),
        FixedCommand::CopyWithin(8, 8, 8),
        FixedCommand::CopyWithin(0, 1, usize::MAX),
        FixedCommand::Set(7, false),
        FixedCommand::Get(7),
    ];
    let mut replies = Vec::new(rt.alloc());
    let ran = run_fixed(bits, &commands, &mut replies);
    check(rt, ran.is_ok());
    let wanted = [
        Reply::Done,
        Reply::Bit(true),
        Reply::OutOfRange,
        Reply::OutOfRange,
        Reply::OutOfRange,
        Reply::OutOfRange,
        Reply::Done,
        Reply::OutOfRange,
        Reply::Done,
        Reply::Bit(false),
    ];
    check(rt, replies.as_slice() == wanted.as_slice());
    holds(rt, bits, b"11111110");
    check(rt, run_fixed(bits, &[], &mut replies).is_ok());
    assert!(rt; replies.len() == 10);
}

// Each call of the trait once.
fn called<B: Bits>(rt: &impl Abort, bits: &mut B) {
    bits.fill(false);
    let len = bits.len();
    assert!(rt; len == 8);
    bits.set(6, true);
    holds(rt, bits, b"00000010");
    bits.copy_within(5, 8, 0);
    holds(rt, bits, b"01000010");
    bits.flip_all();
    holds(rt, bits, b"10111101");
    check(rt, bits.get(1) == Some(false));
}

// The whole of it over eight bits that are false.
fn run_over<B: Bits>(rt: &(impl Abort + AllocGlobal), bits: &mut B) {
    worked(rt, bits);
    gave(rt, bits);
    called(rt, bits);
}

#[test]
fn arrays(rt: HostRuntime) {
    let mut word = BitArray::<u8, Lsb0>::zero();
    run_over(&rt, &mut word);
    check(&rt, word.into_inner() == 0xbd);
    let mut words = BitArray::<[u8; 1], Msb0>::zero();
    run_over(&rt, &mut words);
    check(&rt, words.as_raw_slice() == [0xbd].as_slice());
}

#[test]
fn boxes(rt: HostRuntime) {
    let word = ok(&rt, Box::new(rt.alloc(), 0));
    let mut b = ok(&rt, BitBox::<u8, Lsb0>::from_box(rt.alloc(), word));
    run_over(&rt, &mut b);
    check(&rt, b.as_raw_slice() == [0xbd].as_slice());
    let zeros = [0_u16];
    let view = BitSlice::<u16, Msb0>::from_slice(&zeros).get_range(5..13);
    let mut b = ok(&rt, BitBox::from_bitslice_headed(rt.alloc(), view));
    run_over(&rt, &mut b);
    check(&rt, b.head() == 5);
    check(&rt, b.as_raw_slice() == [0x05e8].as_slice());
}

#[test]
fn vectors(rt: HostRuntime) {
    let words = ok(&rt, vec![in rt.alloc(); 0]);
    assert!(rt; words.len() == 1);
    let mut v = BitVec::<u8, Lsb0>::from_vec(words);
    run_over(&rt, &mut v);
    check(&rt, v.as_raw_slice() == [0xbd].as_slice());
    let zeros = [0_u16];
    let view = BitSlice::<u16, Msb0>::from_slice(&zeros).get_range(5..13);
    let mut v = ok(&rt, BitVec::from_bitslice_headed(rt.alloc(), view));
    run_over(&rt, &mut v);
    check(&rt, v.head() == 5);
    check(&rt, v.as_raw_slice() == [0x05e8].as_slice());
}

// A run: where its replies find no memory, it stops before its first command, and changes nothing. It passes
// with ample memory, and whichever request `rt try --test --fail-alloc N` refuses.
fn stopped<B: Bits>(rt: &(impl Abort + AllocGlobal), bits: &mut B) {
    let mut replies = Vec::new(rt.alloc());
    let commands = [FixedCommand::Fill(true), FixedCommand::Len];
    match run_fixed(bits, &commands, &mut replies) {
        Ok(()) => {
            assert!(rt; replies.len() == 2);
            holds(rt, bits, b"11111111");
        }
        Err(stop) => {
            let wanted = Stop {
                done: 0,
                why: GrowError::OutOfMemory,
            };
            check(rt, stop == wanted);
            check(rt, replies.is_empty());
            holds(rt, bits, b"00000000");
        }
    }
}

#[test]
fn refused(rt: HostRuntime) {
    stopped(&rt, &mut BitArray::<u8, Msb0>::zero());
    let zeros = [0_u8];
    let view = BitSlice::<u8, Lsb0>::from_slice(&zeros);
    if let Ok(mut b) = BitBox::from_bitslice(rt.alloc(), view) {
        stopped(&rt, &mut b);
    }
    if let Ok(mut v) = BitVec::from_bitslice(rt.alloc(), view) {
        stopped(&rt, &mut v);
    }
}
