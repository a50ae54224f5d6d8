//! Examples of sets of numbers, of their blocks and of the portable format. All of it is tests.
#![tactic(auto)]

#[cfg(test)]
use std::process::Abort;

#[cfg(test)]
mod beside;
#[cfg(test)]
mod block_ranges;
#[cfg(test)]
mod blocks;
#[cfg(test)]
mod callers;
#[cfg(test)]
mod combined;
#[cfg(test)]
mod compared;
#[cfg(test)]
mod cut;
#[cfg(test)]
mod forms;
#[cfg(test)]
mod grown;
#[cfg(test)]
mod in_place;
#[cfg(test)]
mod listed;
#[cfg(test)]
mod many;
#[cfg(test)]
mod nearest;
#[cfg(test)]
mod ranges;
#[cfg(test)]
mod refusals;
#[cfg(test)]
mod refused;
#[cfg(test)]
mod sets;
#[cfg(test)]
mod stored;
#[cfg(test)]
mod written;

// That this holds. A test calls it in place of `assert!`, which costs the prover more: a failed
// test is told by its name.
#[cfg(test)]
fn check(rt: &impl Abort, holds: bool) {
    assert!(rt; holds);
}

// What a call returns that found memory.
#[cfg(test)]
fn ok<V, E>(rt: &impl Abort, outcome: Result<V, E>) -> V {
    match outcome {
        Ok(value) => value,
        Err(_) => panic!(rt; "memory was refused"),
    }
}
