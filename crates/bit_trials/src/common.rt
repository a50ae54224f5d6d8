//! Vectors of given bits and words, and what all tests use.
ghost use Rattle.std.specs.Prelude.{Ok, ◌≡◌, length};

use bit_containers::{BitOrder, BitStore, BitVec, Command, Reply, run};
use std::process::Abort;

// That this holds. A test calls it in place of `assert!`, which costs the prover more: a failed
// test is told by its name.
pub(crate) fn check(rt: &impl Abort, holds: bool) {
    assert!(rt; holds);
}

// What a call returns that found memory.
pub(crate) fn ok<V, E>(rt: &impl Abort, outcome: Result<V, E>) -> V
    ensures { outcome ≡ Ok result }
{
    match outcome {
        Ok(value) => value,
        Err(_) => panic!(rt; "memory was refused"),
    }
}

// A vector of the bits that these digits write, appended one by one.
pub(crate) fn of<T: BitStore, O: BitOrder>(
    rt: &(impl Abort + AllocGlobal),
    digits: &[u8],
) -> BitVec<T, O>
    ensures { length result.list ≡ length digits.now }
{
    let mut v = BitVec::new(rt.alloc());
    for digit in digits {
        ok(rt, v.push(*digit == b'1'));
    }
    assert!(rt; v.len() == digits.len());
    v
}

// The vector of these words.
pub(crate) fn of_words<O: BitOrder>(
    rt: &(impl Abort + AllocGlobal),
    words: &[u8],
) -> BitVec<u8, O> {
    let words = ok(rt, words.to_vec(rt.alloc()));
    assert!(rt; words.len() < 100);
    BitVec::from_vec(words)
}

// That the vector holds these digits.
pub(crate) fn holds<T: BitStore, O: BitOrder>(rt: &impl Abort, v: &BitVec<T, O>, digits: &[u8]) {
    check(rt, v.len() == digits.len());
    check(rt, v.get(digits.len()).is_none());
    for (i, digit) in digits.iter().enumerate() {
        check(rt, v.get(i) == Some(*digit == b'1'));
    }
}

// That the words of the vector are these.
pub(crate) fn shows<T: BitStore, O: BitOrder>(rt: &impl Abort, v: &BitVec<T, O>, words: &[T]) {
    let kept = v.as_raw_slice();
    check(rt, kept.len() == words.len());
    for (word, want) in kept.iter().zip(words) {
        check(rt, word.to_u64() == want.to_u64());
    }
}

// That a run of these commands goes to its end, and gives these replies.
pub(crate) fn results<T: BitStore, O: BitOrder>(
    rt: &(impl Abort + AllocGlobal),
    v: &mut BitVec<T, O>,
    commands: &[Command],
    want: &[Reply],
) {
    let mut replies = Vec::new(rt.alloc());
    check(rt, run(v, commands, &mut replies).is_ok());
    check(rt, replies.as_slice() == want);
}
