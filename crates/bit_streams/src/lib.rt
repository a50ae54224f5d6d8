//! Streams of bits: `BitReader` reads the bits of a view in order, `BitWriter` appends bits to a vector of its own.
#![tactic(auto)]

mod blocks;
mod buffer;
mod codes;
mod drain;
mod fields;
mod formats;
mod given;
mod items;
mod least_first;
mod reader;
mod register;
mod signed;
mod sink;
mod source;
mod taken;
mod words;
mod writer;

pub use buffer::BitBuffer;
pub use codes::CodeError;
pub use codes::zigzag::{unzigzag, zigzag};
pub use fields::{Fields, Number, Signed};
pub use formats::header::{Header, HeaderFault};
pub use formats::listed::ListFault;
pub use formats::tagged::{Tagged, TaggedFault};
pub use items::{ItemsError, read_items, write_items};
pub use reader::BitReader;
pub use sink::BitSink;
pub use source::{BitSource, SourceError};
pub use writer::BitWriter;
