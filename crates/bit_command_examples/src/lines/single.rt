//! Lines, good and bad.
use crate::lines::{Run, replies};

const BAD: [&[u8]; 14] = [
    b"\n",
    b"push  1\n",
    b" pop\n",
    b"pop \n",
    b"pop\r\n",
    b"push 2\n",
    b"push\n",
    b"get +5\n",
    b"get 18446744073709551616\n",
    b"get 000000000000000000005\n",
    b"copy 0 0 0 0\n",
    b"\xff\n",
    b"pop\xff",
    &[b'x'; 101],
];

#[test]
fn bad_lines(rt: HostRuntime) {
    for input in BAD {
        replies(&rt, "u8 lsb0", input, b"line 1: bad command\n", 2);
    }
}

const EDGES: [Run; 5] = [
    ("u8 lsb0", b"", b"", 0),
    ("u8 lsb0", b"push 1\nlen", b"ok\n1\n", 0),
    (
        "u8 lsb0",
        b"pop\nx\npop\n",
        b"none\nline 2: bad command\n",
        2,
    ),
    ("u8 lsb0", b"get 18446744073709551615\n", b"range\n", 0),
    ("u8 lsb0", b"get 00000000000000000005\n", b"range\n", 0),
];

#[test]
fn edges_of_lines(rt: HostRuntime) {
    for (call, input, want, status) in EDGES {
        replies(&rt, call, input, want, status);
    }
}
