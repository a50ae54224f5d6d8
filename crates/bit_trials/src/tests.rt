//! Vectors with memory refused, at the limits of lengths, and filled by loose iterators; calls that the examples leave out.
mod calls;
mod commands;
mod digits;
mod idioms;
mod limits;
mod memory;
mod pulling;
