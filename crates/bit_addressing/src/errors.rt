//! Why calls are refused.
ghost use Rattle.std.specs.Prelude.{Some};
ghost use Rattle.bit_addressing.specs.Errors.{grow_error_text};

use std::alloc::AllocError;
use std::error::Error;
use std::fmt;

/// Why a container did not grow.
///
/// Its text is `more bits than a container holds` or `memory was refused`, whatever the flags and widths.
#[derive(Clone, Copy, PartialEq, Eq, Debug)]
pub enum GrowError {
    /// It would hold more than `MAX_BITS` bits.
    TooLong,
    /// Memory was refused.
    OutOfMemory,
}

impl fmt::Display for GrowError {
    ghost output = { λ e. Some (grow_error_text e) };

    ghost styled_output = { λ e _. Some (grow_error_text e) };

    fn fmt<W: fmt::Write>(&self, f: &mut fmt::Formatter<W>) -> fmt::Result {
        match self {
            GrowError::TooLong => f.write_str("more bits than a container holds"),
            GrowError::OutOfMemory => f.write_str("memory was refused"),
        }
    }
}

impl Error for GrowError {}

/// A refused request for memory is `OutOfMemory`.
impl From<AllocError> for GrowError {
    ghost use Rattle.std.specs.Prelude.{◌≡◌};
    ghost use Rattle.bit_addressing.specs.declared.errors.GrowError.TheVariants.{OutOfMemory};

    ghost from_gives = { λ _ e. e ≡ OutOfMemory };

    fn from(_refused: AllocError) -> GrowError {
        GrowError::OutOfMemory
    }
}
