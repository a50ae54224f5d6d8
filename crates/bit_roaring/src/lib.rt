//! Sets of numbers of 32 bits that are small where they are sparse.
#![tactic(auto)]

mod iter;
mod keyed;
mod set;

pub use bit_blocks::{Block, Keyed, Operation};
pub use iter::SetIter;
pub use set::RoaringSet;
