//! Command lines over a vector of bits: lines in, reply lines out. The program `bitrun` runs them on its standard
//! input.
#![tactic(auto)]

mod parsing;
mod replying;
mod serving;
mod session;
mod source;
mod starting;

pub use replying::Ending;
pub use serving::{serve, serve_lines};
pub use source::{Reader, Sink, Source, Writer};
pub use starting::start;
