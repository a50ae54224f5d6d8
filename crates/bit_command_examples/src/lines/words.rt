//! The program's arguments.
use crate::lines::{FIRST_RUN, Run, replies};

/// Each word and order: where the second bit stands in the first word.
const CALLS: [Run; 10] = [
    ("u8 lsb0", SCRIPT, b"ok\nok\n02\nrange\n1\n", 0),
    ("u8 msb0", SCRIPT, b"ok\nok\n40\nrange\n1\n", 0),
    ("u16 lsb0", SCRIPT, b"ok\nok\n0002\nrange\n1\n", 0),
    ("u16 msb0", SCRIPT, b"ok\nok\n4000\nrange\n1\n", 0),
    ("u32 lsb0", SCRIPT, b"ok\nok\n00000002\nrange\n1\n", 0),
    ("u32 msb0", SCRIPT, b"ok\nok\n40000000\nrange\n1\n", 0),
    (
        "u64 lsb0",
        SCRIPT,
        b"ok\nok\n0000000000000002\nrange\n1\n",
        0,
    ),
    (
        "u64 msb0",
        SCRIPT,
        b"ok\nok\n4000000000000000\nrange\n1\n",
        0,
    ),
    (
        "usize lsb0",
        SCRIPT,
        b"ok\nok\n0000000000000002\nrange\n1\n",
        0,
    ),
    (
        "usize msb0",
        SCRIPT,
        b"ok\nok\n4000000000000000\nrange\n1\n",
        0,
    ),
];

const SCRIPT: &[u8] = b"push 0\npush 1\nraw\nget 5\npop\n";

#[test]
fn each_word_and_order(rt: HostRuntime) {
    for (call, input, want, status) in CALLS {
        replies(&rt, call, input, want, status);
    }
}

const WRONG: [&str; 7] = [
    "",
    "u8",
    "u8 lsb",
    "U8 lsb0",
    "u128 msb0",
    "lsb0 u8",
    "u8 lsb0 raw",
];

#[test]
fn wrong_words(rt: HostRuntime) {
    for call in WRONG {
        replies(&rt, call, FIRST_RUN, b"usage: bitrun WORD ORDER\n", 2);
    }
}
