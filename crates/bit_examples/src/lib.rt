//! Examples of the base, of views, of arrays and of boxes: exact words and lists, and most calls once. All of it
//! is tests.
#![tactic(auto)]

#[cfg(test)]
mod arrays;
#[cfg(test)]
mod boxes;
#[cfg(test)]
mod common;
#[cfg(test)]
mod laws;
#[cfg(test)]
mod radix;
#[cfg(test)]
mod rows;
#[cfg(test)]
mod views;
