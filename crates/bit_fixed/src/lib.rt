//! One trait for arrays, boxes and vectors of bits, and executions of commands over any of them.
#![tactic(auto)]

mod bits;
mod machine;

pub use bit_containers::{Reply, Stop};
pub use bits::Bits;
pub use machine::{FixedCommand, run_fixed};
