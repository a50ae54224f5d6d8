//! Blocks as the format stores them.

use bit_blocks::Run;

/// What the header says of a block.
#[derive(Clone, Copy, Debug, PartialEq, Eq)]
pub struct Head {
    /// The upper half of each number.
    pub key: u16,
    /// How many numbers there are, from 1 to 65536.
    pub count: u32,
    /// Whether the block is stored as runs.
    pub as_runs: bool,
}

/// The lower halves of a block's numbers, as the format stores them.
#[derive(Debug, Drop)]
pub enum Data {
    /// At most 4096 numbers, ascending.
    Numbers(Vec<u16>),
    /// 65536 bits in 1024 words, the least significant bit of each word first.
    Words(Vec<u64>),
    /// Runs, ascending, with a number left out between two.
    Runs(Vec<Run>),
}

/// A block as the format stores it.
#[derive(Debug, Drop)]
pub struct Stored {
    /// What the header says of it.
    pub head: Head,
    /// Its numbers.
    pub content: Data,
}

// The numbers of a block as they are written. What was stored is lent, and so is what a block keeps in this form.
#[derive(Drop)]
pub(crate) enum Lent<'a> {
    Stored(&'a Data),
    Numbers(&'a [u16]),
    Words(&'a [u64]),
    Runs(&'a [Run]),
    Made(Data),
}

// A block as it is written.
#[derive(Drop)]
pub(crate) struct Part<'a> {
    pub(crate) head: Head,
    pub(crate) content: Lent<'a>,
}
