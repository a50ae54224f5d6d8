//! The portable format of Roaring: sets of numbers of 32 bits as bytes.
#![tactic(auto)]

mod bits;
mod fault;
mod reading;
mod sets;
mod stored;
mod writing;

pub use fault::{Fault, ReadError};
pub use reading::read_stored;
pub use sets::{read, write};
pub use stored::{Data, Head, Stored};
pub use writing::write_stored;
