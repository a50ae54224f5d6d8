//! A block with its key.
use crate::block::Block;

/// A block of numbers that have the same upper half: it has numbers from `key * 65536` on.
#[derive(Drop)]
pub struct Keyed {
    /// The upper half of each number.
    pub key: u16,
    /// The lower halves.
    pub block: Block,
}
