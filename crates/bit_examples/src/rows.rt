//! Words, orders and rows of words.

mod bits;
mod moves;
pub(crate) mod orders;
mod words;
