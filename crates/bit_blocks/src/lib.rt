//! Sets of numbers below 65536, kept as a list, as bits or as runs, whichever is small.
#![tactic(auto)]

mod bit_block;
mod block;
mod form;
mod iter;
mod keyed;
pub mod listed;
mod mapped;
mod operation;
mod ranged;
mod runs_left;
mod splice;
mod stretches;

pub use bit_block::BitBlock;
pub use block::Block;
pub use form::runs_pay;
pub use iter::BlockIter;
pub use keyed::Keyed;
pub use operation::Operation;
pub use ranged::Run;
