//! Why sorted numbers are not made.
ghost use Rattle.std.specs.Prelude.{Some};
ghost use Rattle.bit_sets.specs.SortedErrors.{sorted_error_text};

use std::error::Error;
use std::fmt;

/// Why sorted numbers are not made.
///
/// Its text is `numbers that descend`, `more bits than a container holds` or `memory was refused`, whatever the
/// flags and widths.
#[derive(Clone, Copy, PartialEq, Eq, Debug)]
pub enum SortedError {
    /// The index of the first number that is below the one before.
    Descends(usize),
    /// One of the two lists would have more than `MAX_BITS` bits.
    TooLong,
    /// Memory was refused.
    OutOfMemory,
}

impl fmt::Display for SortedError {
    ghost output = { λ e. Some (sorted_error_text e) };

    ghost styled_output = { λ e _. Some (sorted_error_text e) };

    fn fmt<W: fmt::Write>(&self, f: &mut fmt::Formatter<W>) -> fmt::Result {
        match self {
            SortedError::Descends(_) => f.write_str("numbers that descend"),
            SortedError::TooLong => f.write_str("more bits than a container holds"),
            SortedError::OutOfMemory => f.write_str("memory was refused"),
        }
    }
}

impl Error for SortedError {}
