//! Callers that know what they get from the contracts alone: none has a proof of its own, and one loop has an invariant.

mod arrays;
mod bits;
mod collecting;
mod generic;
mod growing;
mod iterating;
mod laws;
mod lending;
mod literals;
mod making;
mod numbers;
mod operators;
mod own;
mod reading;
mod removing;
mod rules;
mod views;
mod words;
mod writing;
