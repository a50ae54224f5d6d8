//! Boxed slices of words as bits: `BitBox`, and its owned iterator.
#![tactic(auto)]

mod boxed;

pub use boxed::{BitBox, IntoIter};
