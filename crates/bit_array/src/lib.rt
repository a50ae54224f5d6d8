//! Arrays of words as bits: `BitArray`, the words that one is made of, and its owned iterator.
#![tactic(auto)]

mod array;
mod errors;
mod sized;

pub use array::{BitArray, IntoIter};
pub use errors::TryFromBitSliceError;
pub use sized::{BitViewSized, BitWords, OneWord};
