//! Scripts to their end.
use crate::lines::{FIRST_RUN, Run, replies};
use crate::{check, ok};
use bit_containers::Msb0;
use bit_lines::{Sink, Source, serve_lines};
use std::alloc::Global;
use std::io;

const RUNS: [Run; 11] = [
    (
        "u8 lsb0",
        b"push 1\npush 0\nset 1 1\nset 2 1\ntruncate 1\nlen\nget 0\npop\npop\n",
        b"ok\nok\nok\nrange\nok\n1\n1\n1\nnone\n",
        0,
    ),
    (
        "u8 msb0",
        b"push 0\npush 1\nraw\nget 5\npop\nlist\n",
        b"ok\nok\n40\nrange\n1\n[0]\n",
        0,
    ),
    (
        "u8 lsb0",
        b"push 1\npush 0\ninsert 1 1\ncopy 0 2 1\ncopy 0 3 1\nremove 0\nswapremove 2\nlist\n",
        b"ok\nok\nok\nok\nrange\n1\nrange\n[1, 1]\n",
        0,
    ),
    (
        "u8 lsb0",
        b"resize 5 1\nsplice 1 4 0 1\nlist\ndrain 0 2\ndrain 2 1\nsplitoff 1\nlist\n",
        b"ok\nok\n[1, 0, 1]\n1\nrange\n0\n[1]\n",
        0,
    ),
    (
        "u16 lsb0",
        b"resize 20 1\nraw\nclear\nraw\nlist\npush 2\n",
        b"ok\nffff 000f\nok\n\n[]\nline 6: bad command\n",
        2,
    ),
    (
        "u8 lsb0",
        b"resize 3 1\nwithin 1 3\nwithin 4 6\nreserve 100\nlen\n",
        b"ok\nok\nrange\nok\n5\n",
        0,
    ),
    (
        "u8 lsb0",
        b"reserve 2305843009213693952\n",
        b"too long\n",
        1,
    ),
    (
        "u16 lsb0",
        b"resize 20 1\nraw\nresize 0 0\nraw\nlist\npush 2\n",
        b"ok\nffff 000f\nok\n\n[]\nline 6: bad command\n",
        2,
    ),
    (
        "u8 lsb0",
        b"resize 5 1\ntruncate 2\nraw\nclean\nraw\n",
        b"ok\nok\n1f\nok\n03\n",
        0,
    ),
    (
        "u8 msb0",
        b"push 1\npush 0\nnot\nlist\nraw\nalign\nclean\nraw\nnot 1\n",
        b"ok\nok\nok\n[0, 1]\n7f\nok\nok\n40\nline 9: bad command\n",
        2,
    ),
    (
        "u8 lsb0",
        b"insert 1 0\nremove 0\nset 0 0\n",
        b"range\nrange\nrange\n",
        0,
    ),
];

#[test]
fn whole_runs(rt: HostRuntime) {
    for (call, input, want, status) in RUNS {
        replies(&rt, call, input, want, status);
    }
}

#[test]
fn shown_words(rt: HostRuntime) {
    let mut input = ok(&rt, Vec::from_slice(rt.alloc(), b"raw\nlist\n"));
    let mut want = ok(&rt, Vec::from_slice(rt.alloc(), b"\n[]\n"));
    for _ in 0..20 {
        ok(&rt, input.extend_from_slice(b"push 1\n"));
        ok(&rt, want.extend_from_slice(b"ok\n"));
    }
    let last = b"raw\ntruncate 0\nraw\nlist\nalign\npush 2".as_slice();
    ok(&rt, input.extend_from_slice(last));
    let last = b"ffff 000f\nok\n\n[]\nok\nline 28: bad command\n".as_slice();
    ok(&rt, want.extend_from_slice(last));
    replies(&rt, "u16 lsb0", input.as_slice(), want.as_slice(), 2);
}

// Runs a script from any source to any sink.
fn runs<S: Source, K: Sink>(alloc: Global, input: &mut S, output: &mut K) -> bool {
    serve_lines::<u64, Msb0, S, K>(alloc, input, output).is_ok()
}

#[test]
fn sure_ends(rt: HostRuntime) {
    let mut input = FIRST_RUN;
    check(&rt, runs(rt.alloc(), &mut input, &mut io::sink()));
}
