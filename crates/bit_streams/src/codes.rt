//! Codes of numbers of any size, each by a number of bits that grows with it.
pub(crate) mod elias;
pub(crate) mod golomb;
pub(crate) mod leb128;
pub(crate) mod unary;
pub(crate) mod zigzag;

/// Why no number was read: the reader stays where it was.
#[derive(Clone, Copy, PartialEq, Eq, Debug)]
pub enum CodeError {
    /// The bits end inside a code.
    Ended,
    /// The code's number has more than 64 binary digits.
    TooLong,
    /// The code is not the shortest one of its number, as LEB128 with a last byte of 0.
    NotShortest,
}
