//! Each request for memory refused: what is returned then, and what stays.
//!
//! The tests pass with ample memory, and whichever request `rt try --test --fail-alloc N` refuses.
ghost use Rattle.std.specs.Prelude.{◌≡◌, length, IfSome};

use crate::common::{check, holds};
use bit_containers::array::BitArray;
use bit_containers::boxed::BitBox;
use bit_containers::{
    BitList, BitOrder, BitSlice, BitStore, BitVec, Command, FromBits, GrowError, IntoBitVec, Lsb0,
    Msb0, ParseBitsError, Reply, ToBits, ToBytes, run,
};
use std::alloc::AllocError;
use std::process::Abort;

// That a result is the vector of these digits, or that memory was refused.
fn made<T: BitStore, O: BitOrder>(
    rt: &impl Abort,
    outcome: Result<BitVec<T, O>, AllocError>,
    digits: &[u8],
) {
    if let Ok(v) = outcome {
        holds(rt, &v, digits);
    }
}

// That a result is the vector of these digits, or that memory was refused, and never that it would be too long.
fn grown<T: BitStore, O: BitOrder>(
    rt: &impl Abort,
    outcome: Result<BitVec<T, O>, GrowError>,
    digits: &[u8],
) {
    match outcome {
        Ok(v) => holds(rt, &v, digits),
        Err(why) => check(rt, why == GrowError::OutOfMemory),
    }
}

#[test]
fn makers_from_views_refused(rt: HostRuntime) {
    let words = [0xa8_u8, 0x07];
    let view = BitSlice::<u8, Lsb0>::from_slice(&words).get_range(3..11);
    made(&rt, BitVec::from_bitslice(rt.alloc(), view), b"10101111");
    made(
        &rt,
        BitVec::from_bitslice_headed(rt.alloc(), view),
        b"10101111",
    );
    made(
        &rt,
        BitVec::from_bitarray(rt.alloc(), BitArray::<[u8; 2], Lsb0>::new(words)),
        b"0001010111100000",
    );
}

#[test]
fn makers_from_words_refused(rt: HostRuntime) {
    let words = [0xa8_u8, 0x07];
    let all = b"0001010111100000";
    made(
        &rt,
        BitVec::<u8, Msb0>::from_element(rt.alloc(), 0x05),
        b"00000101",
    );
    made(&rt, BitVec::<u8, Lsb0>::from_slice(rt.alloc(), &words), all);
    grown(
        &rt,
        BitVec::<u8, Lsb0>::try_from_slice(rt.alloc(), &words),
        all,
    );
    grown(&rt, BitVec::<u8, Lsb0>::from_words(rt.alloc(), words), all);
}

#[test]
fn makers_from_bits_refused(rt: HostRuntime) {
    let bits = [true, false, true];
    grown(&rt, BitVec::<u8, Lsb0>::from_bits(rt.alloc(), bits), b"101");
    grown(
        &rt,
        BitVec::<u8, Lsb0>::repeat(rt.alloc(), true, 5),
        b"11111",
    );
    grown(&rt, BitVec::<u8, Lsb0>::with_capacity(rt.alloc(), 100), b"");
}

#[test]
fn makers_that_take_none(rt: HostRuntime) {
    let words = [0xff_u8];
    let view = BitSlice::<u8, Lsb0>::from_slice(&words).get_range(5..5);
    let none = BitArray::<[u8; 0], Lsb0>::new([]);
    check(
        &rt,
        [
            BitVec::from_bitslice(rt.alloc(), view).is_ok(),
            BitVec::from_bitarray(rt.alloc(), none).is_ok(),
            BitVec::<u8, Lsb0>::from_slice(rt.alloc(), &[]).is_ok(),
            BitVec::<u8, Lsb0>::from_bits(rt.alloc(), None).is_ok(),
            BitVec::<u8, Lsb0>::from_words(rt.alloc(), None).is_ok(),
            BitVec::<u8, Lsb0>::repeat(rt.alloc(), true, 0).is_ok(),
            BitVec::<u8, Lsb0>::with_capacity(rt.alloc(), 0).is_ok(),
        ] == [true; 7],
    );
}

#[test]
fn calls_that_take_none(rt: HostRuntime) {
    let mut v = BitVec::<u8, Lsb0>::new(rt.alloc());
    check(
        &rt,
        [
            v.clone().is_ok(),
            v.split_off(0).is_ok(),
            v.reserve(0).is_ok(),
            v.splice(.., None).finish().is_ok(),
            v.shrink_to_fit().is_ok(),
            v.into_boxed_bitslice().is_ok(),
        ] == [true; 6],
    );
}

// That a vector has 96 ones after its eight bits, or, where it was refused, those bits alone.
fn stands(rt: &impl Abort, v: &BitVec<u8, Lsb0>, outcome: Result<(), GrowError>) {
    match outcome {
        Ok(()) => {
            check(rt, v.len() == 104);
            check(rt, v.count_ones() == 102);
            check(rt, [v.get(1), v.get(3)] == [Some(false); 2]);
        }
        Err(why) => {
            check(rt, why == GrowError::OutOfMemory);
            holds(rt, v, b"10101111");
        }
    }
}

// The eight bits that the tests begin with, at head 3, where memory is found.
fn eight(rt: &impl AllocGlobal) -> Option<BitVec<u8, Lsb0>>
    ensures { IfSome result (λ v. length v.list ≡ 8) }
{
    let words = [0xa8_u8, 0x07];
    let view = BitSlice::<u8, Lsb0>::from_slice(&words).get_range(3..11);
    BitVec::from_bitslice_headed(rt.alloc(), view).ok()
}

// Grows a vector of eight bits by 96 ones, in one of ten ways.
fn grow(v: &mut BitVec<u8, Lsb0>, way: u8) -> Result<(), GrowError>
    requires { length v.old.list ≡ 8 }
{
    let ones = [0xff_u8; 12];
    let more = BitSlice::<u8, Lsb0>::from_slice(&ones);
    let longer = [0xff_u8; 13];
    match way {
        0 => v.resize(104, true),
        1 => v.extend_from_bitslice(more),
        2 => v.extend_from_slice(more),
        3 => v.extend_from_raw_slice(&ones),
        4 => v.extend((0..96).map(|_| true)),
        5 => v.extend_words(ones),
        6 => v.splice(8..8, [true; 96]).finish(),
        7 => v.splice(5..6, [true; 97]).finish(),
        8 => v.replace_range(8..8, more),
        _ => v.replace_range(
            5..6,
            BitSlice::<u8, Lsb0>::from_slice(&longer).get_range(..97),
        ),
    }
}

#[test]
fn growing_refused(rt: HostRuntime) {
    for way in 0..10u8 {
        let Some(mut v) = eight(&rt) else {
            return;
        };
        let outcome = grow(&mut v, way);
        stands(&rt, &v, outcome);
        check(&rt, v.head() == 3);
    }
}

// The function is called only where memory was found.
#[test]
fn resizing_by_calls_refused(rt: HostRuntime) {
    let Some(mut v) = eight(&rt) else {
        return;
    };
    let mut calls = 0_u8;
    let outcome = v.resize_with(104, |_| {
        calls = calls.wrapping_add(1);
        true
    });
    check(&rt, calls == if outcome.is_ok() { 96 } else { 0 });
    stands(&rt, &v, outcome);
}

// Combines a vector of eight bits with twelve bytes of ones.
fn combine_longer(v: &mut BitVec<u8, Lsb0>, xor: bool) -> Result<(), GrowError> {
    let ones = [0xff_u8; 12];
    let more = BitSlice::<u8, Msb0>::from_slice(&ones);
    if xor {
        v.xor_growing(more)
    } else {
        v.or_growing(more)
    }
}

#[test]
fn combined_with_longer_refused(rt: HostRuntime) {
    for (xor, ones) in [(false, 96), (true, 90)] {
        let Some(mut v) = eight(&rt) else {
            return;
        };
        match combine_longer(&mut v, xor) {
            Ok(()) => {
                check(&rt, v.len() == 96);
                check(&rt, v.count_ones() == ones);
            }
            Err(why) => {
                check(&rt, why == GrowError::OutOfMemory);
                holds(&rt, &v, b"10101111");
            }
        }
    }
}

// A view of as many bits, for which no memory is taken.
#[test]
fn combined_with_as_long(rt: HostRuntime) {
    let ones = [0xff_u8];
    let more = BitSlice::<u8, Msb0>::from_slice(&ones);
    let Some(mut v) = eight(&rt) else {
        return;
    };
    check(&rt, v.xor_growing(more).is_ok());
    holds(&rt, &v, b"01010000");
}

#[test]
fn copies_of_views_refused(rt: HostRuntime) {
    let words = [0xa8_u8, 0x07];
    let view = BitSlice::<u8, Lsb0>::from_slice(&words).get_range(3..11);
    made(&rt, view.to_bitvec(rt.alloc()), b"10101111");
    if let Ok(b) = view.to_bitbox(rt.alloc()) {
        check(&rt, b.len() == 8);
        check(&rt, b.count_ones() == 6);
    }
}

#[test]
fn makers_from_bytes_and_text_refused(rt: HostRuntime) {
    let words = [0xa8_u8, 0x07];
    grown(
        &rt,
        BitVec::<u32, Lsb0>::from_bytes::<Lsb0>(rt.alloc(), &words),
        b"0001010111100000",
    );
    grown(
        &rt,
        BitVec::<u32, Lsb0>::from_indices(rt.alloc(), 4, &[2]),
        b"0010",
    );
    match BitVec::<u8, Msb0>::from_text(rt.alloc(), "[1, 0]") {
        Ok(v) => holds(&rt, &v, b"10"),
        Err(why) => check(&rt, why == ParseBitsError::OutOfMemory),
    }
}

#[test]
fn bytes_refused(rt: HostRuntime) {
    let words = [0xa8_u8, 0x07];
    let Ok(v) = BitVec::<u32, Lsb0>::from_bytes::<Lsb0>(rt.alloc(), &words) else {
        return;
    };
    if let Ok(bytes) = v.to_bytes::<Lsb0>(rt.alloc()) {
        check(&rt, bytes.as_slice() == words.as_slice());
    }
}

// Numbers appended one by one, up to the first that is refused.
#[test]
fn numbers_refused(rt: HostRuntime) {
    let Some(mut v) = eight(&rt) else {
        return;
    };
    for i in 0..12usize {
        if let Err(why) = v.push_be(64, u64::MAX) {
            check(&rt, why == GrowError::OutOfMemory);
            check(&rt, v.len() == 8 + 64 * i);
            check(&rt, v.count_ones() == 6 + 64 * i);
            return;
        }
    }
    check(&rt, v.len() == 776);
    check(&rt, v.count_ones() == 774);
}

// Boxes of bytes, of indices and of text, and the bytes of a view.
#[test]
fn makers_of_boxes_refused(rt: HostRuntime) {
    let words = [0xa8_u8, 0x07];
    if let Ok(b) = BitBox::<u32, Lsb0>::from_bytes::<Lsb0>(rt.alloc(), &words) {
        check(&rt, b.len() == 16);
    }
    if let Ok(b) = BitBox::<u32, Lsb0>::from_indices(rt.alloc(), 4, &[2]) {
        check(&rt, b.len() == 4);
    }
    match BitBox::<u8, Msb0>::from_text(rt.alloc(), "[1, 0]") {
        Ok(b) => check(&rt, b.len() == 2),
        Err(why) => check(&rt, why == ParseBitsError::OutOfMemory),
    }
    let view = BitSlice::<u8, Lsb0>::from_slice(&words).get_range(3..11);
    if let Ok(bytes) = view.to_bytes::<Lsb0>(rt.alloc()) {
        check(&rt, bytes.as_slice() == [0xf5].as_slice());
    }
}

// Both sides are looked at.
#[test]
fn appending_refused(rt: HostRuntime) {
    let Some(mut v) = eight(&rt) else {
        return;
    };
    let Ok(mut other) = BitVec::<u32, Msb0>::repeat(rt.alloc(), true, 96) else {
        return;
    };
    let outcome = v.append(&mut other);
    check(&rt, other.len() == if outcome.is_ok() { 0 } else { 96 });
    check(&rt, other.count_ones() == other.len());
    stands(&rt, &v, outcome);
}

// Adds a bit, appends all bits once more, or makes room.
fn grow_once(v: &mut BitVec<u8, Msb0>, way: usize) -> Result<(), GrowError> {
    match way {
        0 => v.push(true),
        1 => v.insert(0, true),
        2 => v.extend_from_within(..),
        3 => v.reserve(100),
        _ => v.reserve_exact(200),
    }
}

// Bits one by one, room, and a range appended once more: each refusal leaves what stood before it.
#[test]
fn one_by_one_refused(rt: HostRuntime) {
    let mut v = BitVec::<u8, Msb0>::new(rt.alloc());
    for turn in 0..70usize {
        let (len, ones, first) = (v.len(), v.count_ones(), v.first());
        assert!(rt; len < 1000);
        let more = match turn % 5 {
            0 | 1 => 1,
            2 => len,
            _ => 0,
        };
        match grow_once(&mut v, turn % 5) {
            Ok(()) => {
                check(&rt, v.len() == len + more);
                check(&rt, v.count_ones() == v.len());
            }
            Err(why) => {
                check(&rt, why == GrowError::OutOfMemory);
                check(&rt, v.len() == len);
                check(&rt, v.count_ones() == ones);
                check(&rt, v.first() == first);
            }
        }
        v.truncate(60);
    }
}

#[test]
fn copies_refused(rt: HostRuntime) {
    let Some(mut v) = eight(&rt) else {
        return;
    };
    made(&rt, v.clone(), b"10101111");
    holds(&rt, &v, b"10101111");
    match v.split_off(3) {
        Ok(rest) => {
            holds(&rt, &rest, b"01111");
            holds(&rt, &v, b"101");
        }
        Err(_) => holds(&rt, &v, b"10101111"),
    }
}

// Room that is refused, and given back.
#[test]
fn shrinking_refused(rt: HostRuntime) {
    let Some(mut v) = eight(&rt) else {
        return;
    };
    check(&rt, v.reserve(100).is_err() || v.capacity() >= 108);
    check(&rt, v.shrink_to_fit().is_ok());
    holds(&rt, &v, b"10101111");
}

// The words are kept, so no memory is taken.
#[test]
fn boxing_takes_none(rt: HostRuntime) {
    let Some(v) = eight(&rt) else {
        return;
    };
    let Ok(boxed) = v.into_boxed_bitslice() else {
        panic!(rt; "the words are kept");
    };
    let Ok(v) = boxed.into_bitvec() else {
        panic!(rt; "the words are kept");
    };
    holds(&rt, &v, b"10101111");
}

// A run that is stopped has done the commands before that one, and no more.
#[test]
fn runs_refused(rt: HostRuntime) {
    let commands = [
        Command::Push(true),
        Command::Resize(100, true),
        Command::Push(false),
        Command::SplitOff(50),
        Command::Splice(0, 1, false, 300),
        Command::Insert(0, true),
        Command::ExtendWithin(0, 350),
        Command::Len,
    ];
    let wanted = [
        (Reply::Done, 1, 1),
        (Reply::Done, 100, 100),
        (Reply::Done, 101, 100),
        (Reply::Number(51), 50, 50),
        (Reply::Done, 349, 49),
        (Reply::Done, 350, 50),
        (Reply::Done, 700, 100),
        (Reply::Number(700), 700, 100),
    ];
    let mut v = BitVec::<u16, Msb0>::new(rt.alloc());
    let mut replies = Vec::new(rt.alloc());
    let done = match run(&mut v, &commands, &mut replies) {
        Ok(()) => commands.len(),
        Err(stop) => {
            check(&rt, stop.why == GrowError::OutOfMemory);
            stop.done
        }
    };
    assert!(rt; replies.len() == done);
    let (mut len, mut ones) = (0usize, 0usize);
    for (reply, want) in replies.iter().zip(wanted) {
        check(&rt, *reply == want.0);
        (len, ones) = (want.1, want.2);
    }
    check(&rt, v.len() == len);
    check(&rt, v.count_ones() == ones);
    check(
        &rt,
        done < 5 || v.get(if done == 5 { 0 } else { 1 }) == Some(false),
    );
}
