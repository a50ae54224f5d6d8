//! Views of bits in borrowed words: `BitSlice` for reading, `BitSliceMut` for writing, `Counted` for
//! comparisons and counts that count their reads, and `CountedMut` for moves that count their reads and
//! writes.
#![tactic(auto)]

mod counted;
mod counted_mut;
mod edits;
mod iter;
mod lists;
mod lists_mut;
mod numbers;
mod ops;
mod over;
mod run;
mod slice;
mod slice_mut;
mod texts;
mod view_bits;

pub use counted::Counted;
pub use counted_mut::CountedMut;
pub use edits::AndNot;
pub use iter::Iter;
pub use lists::BitList;
pub use lists_mut::BitListMut;
pub use run::{run_mut, split_run_mut};
pub use slice::BitSlice;
pub use slice::chunks::{Chunks, ChunksExact, RChunks, Windows};
pub use slice::indices::{IterOnes, IterZeros};
pub use slice::places::FindAll;
pub use slice::ranges::{IterRanges, RangesText};
pub use slice::runs::{BitRun, IterRuns};
pub use slice::split::Split;
pub use slice_mut::BitSliceMut;
pub use view_bits::{ViewBits, ViewBitsMut};

/// What the crates above make of words and of texts. Users of bits need none of it.
pub mod inner {
    pub use crate::lists_mut::flip_row;
    pub use crate::numbers::{extended, reversed, with_next};
    pub use crate::slice::nth::nth_from;
    pub use crate::texts::{hash_bits, write_digits, write_list};
}
