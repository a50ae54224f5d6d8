//! Boxed lists of bits in which ones and zeros are counted before any index and found by
//! number.
#![tactic(auto)]

mod counts;
mod ones;
mod ranked;
mod ranks;

pub use ones::OnesFrom;
pub use ranked::RankedBits;
pub use ranks::Ranks;
