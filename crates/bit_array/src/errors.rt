//! Why a view can't become an array.
ghost use Rattle.std.specs.Prelude.{Some};
ghost use Rattle.bit_array.specs.Errors.{text_of};

use std::cmp::Ordering;
use std::error::Error;
use std::fmt;

// Why: the actual length and the expected one, or the head.
#[derive(Clone, Copy, PartialEq, Eq, PartialOrd, Ord, Drop)]
pub(crate) enum Reason {
    UnequalLen(usize, usize),
    Misaligned,
}

/// Why a view can't become an array: it has another length, or its head isn't 0.
///
/// A fault of the length comes before one of the head: `BitArray::try_from` looks at the length first, and in
/// the order of errors those of a length come first, by the actual and then by the expected length.
///
/// ```text
/// println!(rt; "{error:?}")    // TryFromBitSliceError::UnequalLen(2 != 8)
/// ```
#[derive(Clone, Copy, PartialEq, Eq, PartialOrd, Ord, Drop)]
pub struct TryFromBitSliceError {
    reason: Reason,
}

impl TryFromBitSliceError {
    ghost use Rattle.std.specs.Prelude.{◌≡◌};
    ghost use Rattle.bit_array.specs.Errors.{UnequalLen, Misaligned, order_of};

    pub(crate) fn unequal(actual: usize, expected: usize) -> Self
        ensures { result ≡ UnequalLen actual expected }
    {
        TryFromBitSliceError {
            reason: Reason::UnequalLen(actual, expected),
        }
    }

    pub(crate) fn misaligned() -> Self
        ensures { result ≡ Misaligned }
    {
        TryFromBitSliceError {
            reason: Reason::Misaligned,
        }
    }

    /// Like `cmp`: a fault of the length comes before one of the head, and faults of the length are compared by the
    /// actual and then by the expected length.
    pub fn order(self, other: Self) -> Ordering
        ensures { result ≡ order_of self other }
    {
        self.cmp(&other)
    }
}

/// What is wrong, in words, with both lengths.
impl fmt::Display for TryFromBitSliceError {
    ghost output = { λ e. Some (text_of e) };

    fn fmt<W: fmt::Write>(&self, f: &mut fmt::Formatter<W>) -> fmt::Result {
        match self.reason {
            Reason::UnequalLen(actual, expected) => {
                write!(
                    f,
                    "bit-slice with length {actual} cannot be viewed as bit-array with length {expected}"
                )
            }
            Reason::Misaligned => {
                f.write_str(
                    "a bit-slice must begin at the front edge of a storage element in order to be viewed as a bit-array",
                )
            }
        }
    }
}

/// The type's name, the kind of the fault, and for a fault of the length both lengths.
impl fmt::Debug for TryFromBitSliceError {
    fn fmt<W: fmt::Write>(&self, f: &mut fmt::Formatter<W>) -> fmt::Result {
        match self.reason {
            Reason::UnequalLen(actual, expected) => {
                write!(
                    f,
                    "TryFromBitSliceError::UnequalLen({actual} != {expected})"
                )
            }
            Reason::Misaligned => f.write_str("TryFromBitSliceError::Misaligned"),
        }
    }
}

impl Error for TryFromBitSliceError {}
