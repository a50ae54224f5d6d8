//! An allocator's map of frames, one bit each: which of them are taken, where runs of free ones are, and lists of
//! requests that are served one after another.
#![tactic(auto)]

mod free_map;

pub use free_map::{FreeMap, NotFree, NotTaken, Reply, Request};
