//! A list of bits that grows and shrinks within a word or a fixed array, and takes no memory.
#![tactic(auto)]

mod small;

pub use small::{Full, SmallBits};
