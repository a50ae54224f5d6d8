//! What all tests use.
ghost use Rattle.std.specs.Prelude.{Ok, ◌≡◌};

use std::process::Abort;

// That this holds. A test calls it in place of `assert!`, which costs the prover more: a failed
// test is told by its name.
pub(crate) fn check(rt: &impl Abort, holds: bool) {
    assert!(rt; holds);
}

// What a call returns that found memory.
pub(crate) fn ok<V, E>(rt: &impl Abort, outcome: Result<V, E>) -> V
    ensures { outcome ≡ Ok result }
{
    match outcome {
        Ok(value) => value,
        Err(_) => panic!(rt; "memory was refused"),
    }
}
