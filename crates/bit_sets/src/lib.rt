//! Sets of numbers, one bit each; sorted numbers in little memory; a Bloom filter.
#![tactic(auto)]

mod bloom;
mod number_set;
mod sorted;

pub use bloom::{BloomFilter, OtherShape};
pub use number_set::{Merged, NumberSet, SetRange};
pub use sorted::{Numbers, SortedError, SortedNumbers};
