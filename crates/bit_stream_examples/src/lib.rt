//! Examples of streams of bits, and callers that are proved from the contracts alone. All of it is tests.
#![tactic(auto)]

#[cfg(test)]
use std::process::Abort;

#[cfg(test)]
mod buffer;
#[cfg(test)]
mod bytes;
#[cfg(test)]
mod callers;
#[cfg(test)]
mod codes;
#[cfg(test)]
mod fields;
#[cfg(test)]
mod formats;
#[cfg(test)]
mod own;
#[cfg(test)]
mod streams;

// That this holds. A test calls it in place of `assert!`, which costs the prover more: a failed
// test is told by its name.
#[cfg(test)]
fn check(rt: &impl Abort, holds: bool) {
    assert!(rt; holds);
}

// What a call returns that found memory.
#[cfg(test)]
fn ok<V, E>(rt: &impl Abort, outcome: Result<V, E>) -> V {
    match outcome {
        Ok(value) => value,
        Err(_) => panic!(rt; "memory was refused"),
    }
}
