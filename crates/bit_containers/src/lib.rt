//! A vector of bits, and executions of commands over it. The crates of arrays and boxes are here as
//! `array` and `boxed`.
#![tactic(auto)]

mod literals;
mod machine;
mod parted;
pub mod vec;

pub use bit_addressing::{
    BitEnd, BitIdx, BitOrder, BitPos, BitRegister, BitStore, GrowError, Lsb0, MAX_BITS, Meter,
    Msb0, RangeExt, elts,
};
pub use bit_array as array;
pub use bit_boxed as boxed;
pub use bit_rows::{And, BitOperator, Or, Xor, equal_words, find_bit};
pub use bit_slice::{
    AndNot, BitList, BitListMut, BitRun, BitSlice, BitSliceMut, Chunks, ChunksExact, Counted,
    CountedMut, FindAll, Iter, IterOnes, IterRanges, IterRuns, IterZeros, RChunks, RangesText,
    Split, ViewBits, ViewBitsMut, Windows, run_mut, split_run_mut,
};
pub use machine::{Command, Reply, Stop, run};
pub use vec::{
    BitVec, Drain, FromBits, IntoBitVec, Items, ParseBitsError, Splice, ToBits, ToBytes,
};

/// What the crates above read of texts. Users of bits need none of it.
pub mod inner {
    pub use crate::parted::{cut_part, part_number};
}
