//! Numbers of one width, packed in a vector of bits.
#![tactic(auto)]

mod iter;
mod records;
mod signed;

pub use iter::Iter;
pub use records::Records;
