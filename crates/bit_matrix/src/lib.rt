//! A matrix of truth values, one bit each, whose set bits are also the edges of a graph.
#![tactic(auto)]

mod matrix;

pub use matrix::{Column, Matrix, Rows, RowsFault};
