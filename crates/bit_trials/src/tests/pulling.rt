//! Iterators of a caller's own, with loose hints, whose calls are counted; what is left early.
ghost use Rattle.std.specs.Iterator.{at_most};

use crate::common::{check, holds, of, ok};
use bit_containers::boxed::BitBox;
use bit_containers::{BitList, BitVec, GrowError, Lsb0, Msb0};
use std::cell::Cell;
use std::process::Abort;
use std::rc::Rc;

// One item or the other, the first of them at each third place from the end, under a hint that says nothing, or as
// good as nothing. It counts the calls, and those that found none; after the first None there are more items.
#[derive(Drop)]
struct Loose<X: Copy> {
    left: usize,
    items: (X, X),
    bounded: bool,
    calls: usize,
    nones: usize,
}

impl<X: Copy> Loose<X> {
    fn of(left: usize, items: (X, X), bounded: bool) -> Self {
        Loose {
            left,
            items,
            bounded,
            calls: 0,
            nones: 0,
        }
    }
}

impl<X: Copy> Iterator for Loose<X> {
    type Item = X;

    ghost remaining = { λ items. at_most items.left };

    fn next(&mut self) -> Option<X> {
        self.calls = self.calls.wrapping_add(1);
        if self.left == 0 {
            self.nones = self.nones.wrapping_add(1);
            self.left = 3;
            return None;
        }
        self.left -= 1;
        Some(if self.left % 3 == 0 {
            self.items.0
        } else {
            self.items.1
        })
    }

    fn size_hint(&self) -> (usize, Option<usize>) {
        let upper = usize::MAX.max(self.left);
        (0, if self.bounded { Some(upper) } else { None })
    }
}

const BITS: (bool, bool) = (true, false);

const WORDS: (u8, u8) = (0xa5, 0x0f);

// The `n` bits that the tests pull, in a list.
fn bits(rt: &(impl Abort + AllocGlobal), n: usize) -> Vec<bool> {
    let mut list = Vec::new(rt.alloc());
    for i in 0..n {
        ok(rt, list.push((n - 1 - i) % 3 == 0));
    }
    list
}

// That a vector holds two bits and then the `n` that were pulled.
fn ends_with(rt: &impl Abort, v: &BitVec<u8, Lsb0>, n: usize) {
    assert!(rt; n < 2000);
    assert!(rt; v.len() == n + 2);
    check(rt, v.get(0) == Some(false));
    check(rt, v.get(1) == Some(true));
    for i in 0..n {
        check(rt, v.get(2 + i) == Some((n - 1 - i) % 3 == 0));
    }
}

// Bits appended, and put in place of others.
fn joined(rt: &(impl Abort + AllocGlobal), n: usize, bounded: bool) {
    let mut v = of::<u8, Lsb0>(rt, b"01");
    ok(rt, v.extend(Loose::of(n, BITS, bounded)));
    ends_with(rt, &v, n);
    let mut v = of::<u8, Lsb0>(rt, b"0110");
    ok(rt, v.splice(2.., Loose::of(n, BITS, bounded)).finish());
    ends_with(rt, &v, n);
}

// A vector made of bits, beside the one that is made of a list of them.
fn made(rt: &(impl Abort + AllocGlobal), n: usize, bounded: bool) {
    let loose = Loose::of(n, BITS, bounded);
    let made = ok(rt, BitVec::<u8, Lsb0>::from_bits(rt.alloc(), loose));
    let exact = ok(rt, BitVec::<u8, Lsb0>::from_bits(rt.alloc(), bits(rt, n)));
    check(rt, made == exact);
    check(rt, made.as_raw_slice() == exact.as_raw_slice());
}

// A box made of bits, beside the vector that is made of a list of them.
fn boxed(rt: &(impl Abort + AllocGlobal), n: usize, bounded: bool) {
    let loose = Loose::of(n, BITS, bounded);
    let boxed = ok(rt, BitBox::<u8, Lsb0>::from_bits(rt.alloc(), loose));
    let exact = ok(rt, BitVec::<u8, Lsb0>::from_bits(rt.alloc(), bits(rt, n)));
    check(rt, boxed.eq_bits(exact.as_bitslice()));
}

// A vector made of words, and one that they are appended to.
fn of_words(rt: &(impl Abort + AllocGlobal), n: usize, bounded: bool) {
    let words = Loose::of(n, WORDS, bounded);
    let made = ok(rt, BitVec::<u8, Msb0>::from_words(rt.alloc(), words));
    let mut v = BitVec::<u8, Msb0>::new(rt.alloc());
    ok(rt, v.extend_words(Loose::of(n, WORDS, bounded)));
    check(rt, made == v);
    check(rt, v.len() / 8 == n);
    for (i, bit) in bits(rt, n).iter().enumerate() {
        let word = if *bit { 0xa5 } else { 0x0f };
        check(rt, v.as_raw_slice().get(i) == Some(&word));
    }
}

#[test]
fn loose_hints(rt: HostRuntime) {
    for n in [0usize, 1, 7, 8, 63, 64, 65, 200] {
        for bounded in [false, true] {
            joined(&rt, n, bounded);
            made(&rt, n, bounded);
            boxed(&rt, n, bounded);
            of_words(&rt, n, bounded);
        }
    }
}

// Bits by reference: each call but the last one finds one.
fn bits_counted(rt: &(impl Abort + AllocGlobal), n: usize, bounded: bool) {
    let mut bits = Loose::of(n, BITS, bounded);
    if bounded {
        let mut v = of::<u8, Lsb0>(rt, b"01");
        ok(rt, v.extend(bits.by_ref()));
        ends_with(rt, &v, n);
    } else {
        let v = ok(
            rt,
            BitVec::<u16, Msb0>::from_bits(rt.alloc(), bits.by_ref()),
        );
        check(rt, v.len() == n);
    }
    check(rt, bits.nones == 1);
    check(rt, bits.calls.wrapping_sub(1) == n);
}

// Bits by reference, into a box.
fn boxed_counted(rt: &(impl Abort + AllocGlobal), n: usize, bounded: bool) {
    let mut bits = Loose::of(n, BITS, bounded);
    let b = ok(
        rt,
        BitBox::<u16, Msb0>::from_bits(rt.alloc(), bits.by_ref()),
    );
    check(rt, b.len() == n);
    check(rt, bits.nones == 1);
    check(rt, bits.calls.wrapping_sub(1) == n);
}

// Words by reference, so too.
fn words_counted(rt: &(impl Abort + AllocGlobal), n: usize, bounded: bool) {
    let mut words = Loose::of(n, WORDS, bounded);
    let mut v = BitVec::<u8, Lsb0>::new(rt.alloc());
    if bounded {
        ok(rt, v.extend_words(words.by_ref()));
    } else {
        v = ok(rt, BitVec::from_words(rt.alloc(), words.by_ref()));
    }
    check(rt, v.len() / 8 == n);
    check(rt, words.nones == 1);
    check(rt, words.calls.wrapping_sub(1) == n);
}

// No call follows the first None, after which there would be more.
#[test]
fn calls_counted(rt: HostRuntime) {
    for n in [0usize, 1, 63, 64, 65, 200] {
        for bounded in [false, true] {
            bits_counted(&rt, n, bounded);
            boxed_counted(&rt, n, bounded);
            words_counted(&rt, n, bounded);
        }
    }
}

// That a thousand items were pulled and one call more, or fewer where memory was refused.
fn stopped<X: Copy>(rt: &impl Abort, pulled: &Loose<X>, outcome: Result<(), GrowError>) {
    let (calls, nones) = (pulled.calls, pulled.nones);
    match outcome {
        Ok(()) => {
            check(rt, nones == 1);
            check(rt, calls == 1001);
        }
        Err(why) => {
            check(rt, why == GrowError::OutOfMemory);
            check(rt, nones == 0);
            check(rt, calls < 1000);
        }
    }
}

// A vector of two bits appended to, by bits or by words.
fn appended_until_refused(rt: &(impl Abort + AllocGlobal), by_words: bool) {
    let Ok(mut v) = BitVec::<u8, Lsb0>::from_bits(rt.alloc(), [false, true]) else {
        return;
    };
    let outcome = if by_words {
        let mut words = Loose::of(1000, WORDS, false);
        let outcome = v.extend_words(words.by_ref());
        stopped(rt, &words, outcome);
        outcome
    } else {
        let mut bits = Loose::of(1000, BITS, true);
        let outcome = v.extend(bits.by_ref());
        stopped(rt, &bits, outcome);
        outcome
    };
    if outcome.is_err() {
        holds(rt, &v, b"01");
    }
}

// A vector or a box made of bits.
fn made_until_refused(rt: &(impl Abort + AllocGlobal), boxed: bool) {
    let mut bits = Loose::of(1000, BITS, true);
    let outcome = if boxed {
        BitBox::<u8, Msb0>::from_bits(rt.alloc(), bits.by_ref()).map(|_| ())
    } else {
        BitVec::<u8, Msb0>::from_bits(rt.alloc(), bits.by_ref()).map(|_| ())
    };
    stopped(rt, &bits, outcome);
}

// A vector made of words.
fn made_of_words_until_refused(rt: &(impl Abort + AllocGlobal)) {
    let mut words = Loose::of(1000, WORDS, false);
    let outcome = BitVec::<u8, Msb0>::from_words(rt.alloc(), words.by_ref()).map(|_| ());
    stopped(rt, &words, outcome);
}

// Where a request for memory is refused, no more is pulled, and the list stays; whichever request
// `rt try --test --fail-alloc N` refuses.
#[test]
fn pulled_until_refused(rt: HostRuntime) {
    for other in [false, true] {
        appended_until_refused(&rt, other);
        made_until_refused(&rt, other);
    }
    made_of_words_until_refused(&rt);
}

// A splice finished at once, or after one bit from either end.
fn left_early(rt: &(impl Abort + AllocGlobal), way: u8) {
    let mut v = of::<u16, Msb0>(rt, b"0110100");
    let mut splice = v.splice(1..5, [true, false]);
    let right = match way {
        0 => splice.len() == 4,
        1 => splice.next() == Some(true),
        _ => splice.next_back() == Some(true),
    };
    ok(rt, splice.finish());
    check(rt, right);
    holds(rt, &v, b"01000");
}

// A splice finished after all of its bits, from the front.
fn left_after_all(rt: &(impl Abort + AllocGlobal)) {
    let mut v = of::<u16, Msb0>(rt, b"0110100");
    let mut splice = v.splice(1..5, [true, false]);
    check(rt, splice.items().filter(|bit| *bit).count() == 3);
    ok(rt, splice.finish());
    holds(rt, &v, b"01000");
}

// A splice finished after all of its bits, from the end.
fn left_after_all_from_the_end(rt: &(impl Abort + AllocGlobal)) {
    let mut v = of::<u16, Msb0>(rt, b"0110100");
    let mut splice = v.splice(1..5, [true, false]);
    check(rt, splice.items().rev().filter(|bit| !*bit).count() == 1);
    ok(rt, splice.finish());
    holds(rt, &v, b"01000");
}

// A splice finished after it was asked for more bits than it has, from the front or from the end.
fn left_past_an_end(rt: &(impl Abort + AllocGlobal), back: bool) {
    let mut v = of::<u16, Msb0>(rt, b"0110100");
    let mut splice = v.splice(1..5, [true, false]);
    let right = if back {
        splice.nth_back(4).is_none() && splice.next().is_none()
    } else {
        splice.nth(4).is_none() && splice.next_back().is_none()
    };
    ok(rt, splice.finish());
    check(rt, right);
    holds(rt, &v, b"01000");
}

// Splices finished after none of their bits, one from either end, all, and past the end.
#[test]
fn splices_left_early(rt: HostRuntime) {
    for way in 0..3u8 {
        left_early(&rt, way);
    }
    left_after_all(&rt);
    left_after_all_from_the_end(&rt);
    for back in [false, true] {
        left_past_an_end(&rt, back);
    }
}

/// Bits that are counted as they are given, also where the iterator is handed over.
#[derive(Drop)]
struct Told {
    left: usize,
    told: Rc<Cell<(usize, usize)>>,
}

impl Iterator for Told {
    type Item = bool;

    ghost remaining = { λ items. at_most items.left };

    fn next(&mut self) -> Option<bool> {
        let (given, nones) = self.told.get();
        if self.left == 0 {
            self.told.set((given, nones.wrapping_add(1)));
            return None;
        }
        self.left -= 1;
        self.told.set((given.wrapping_add(1), nones));
        Some(self.left % 3 == 0)
    }
}

/// A splice pulls its whole replacement and one call more, and where memory is refused no more after that; whichever
/// request `rt try --test --fail-alloc N` refuses.
#[test]
fn spliced_until_refused(rt: HostRuntime) {
    let Ok(mut v) = BitVec::<u8, Lsb0>::from_bits(rt.alloc(), [false, true, true, false]) else {
        return;
    };
    let Ok(told) = Rc::new(rt.alloc(), Cell::new((0usize, 0usize))) else {
        return;
    };
    let Ok(seen) = told.clone() else {
        return;
    };
    let outcome = v.splice(1..3, Told { left: 1000, told }).finish();
    let (given, nones) = seen.get();
    if outcome.is_ok() {
        check(&rt, v.len() == 1002);
        check(&rt, given == 1000);
        check(&rt, nones == 1);
    } else {
        holds(&rt, &v, b"0110");
        check(&rt, given == 1000 || nones == 0);
    }
}
