//! Runs command lines over a vector of bits.
#![tactic(auto)]

use bit_lines::start;
use std::process::ExitCode;
use std::{env, io};

// The program's arguments.
fn words(rt: &HostRuntime) -> io::Result<Vec<String>> {
    let mut words = Vec::new(rt.alloc());
    for word in env::args(rt)?.skip(1) {
        words.push(word)?;
    }
    Ok(words)
}

fn main(rt: HostRuntime) -> ExitCode {
    match words(&rt) {
        Ok(words) => {
            let status = start(rt.alloc(), words.as_slice(), rt.stdin(), rt.stdout());
            ExitCode::from(status)
        }
        // An argument that is no text is none of the words that the program takes.
        Err(why) if why.kind() == io::ErrorKind::InvalidData => {
            let status = start(rt.alloc(), &[], rt.stdin(), rt.stdout());
            ExitCode::from(status)
        }
        Err(_) => ExitCode::from(1),
    }
}
