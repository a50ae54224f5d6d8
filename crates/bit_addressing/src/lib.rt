//! Where bits lie in words: words, orders of bits, ranges, and the counted move of a run of bits.
#![tactic(auto)]

mod each_shift;
mod errors;
mod index;
mod length;
mod meter;
mod move_run;
mod order;
mod pair_table;
mod parts;
mod range;
mod store;
mod vectors;
mod word_read;
mod word_row;

pub use errors::GrowError;
pub use index::{BitEnd, BitIdx, BitPos};
pub use length::{MAX_BITS, elts};
pub use meter::Meter;
pub use move_run::{move_bits, move_bits_counted};
pub use order::{BitOrder, Lsb0, Msb0};
pub use range::RangeExt;
pub use store::{BitStore, BitStore as BitRegister};
pub use word_read::WordRead;
pub use word_row::WordRow;

/// What the crates above make of words and of runs of bits. Users of bits need none of it.
pub mod inner {
    pub use crate::length::{Span, in_row, in_word};
    pub use crate::move_run::window_by;
    pub use crate::pair_table::PairTable;
    pub use crate::parts::{blend, repeated};
}
