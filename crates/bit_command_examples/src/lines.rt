//! Command lines: whole scripts, and readers and writers of all kinds.
mod callers;
mod failing;
mod scripts;
mod single;
mod words;

use crate::{check, ok};
use bit_lines::start;
use std::process::Abort;

/// The arguments, the input, what is written, and the status.
type Run = (&'static str, &'static [u8], &'static [u8], u8);

// The program's arguments.
fn words_of(rt: &(impl Abort + AllocGlobal), call: &str) -> Vec<String> {
    let mut list = Vec::new(rt.alloc());
    for word in call.split_whitespace() {
        let word = ok(rt, String::from_str(rt.alloc(), word));
        ok(rt, list.push(word));
    }
    list
}

// Starts the program on an input, and compares what it writes and returns.
fn replies(rt: &(impl Abort + AllocGlobal), call: &str, input: &[u8], want: &[u8], status: u8) {
    let words = words_of(rt, call);
    let mut output = Vec::new(rt.alloc());
    let ended = start(rt.alloc(), words.as_slice(), input, &mut output);
    check(rt, output.as_slice() == want);
    check(rt, ended == status);
}

const FIRST_RUN: &[u8] = b"push 0\npush 1\nget 5\npop\n";
