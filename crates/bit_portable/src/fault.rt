//! Why bytes could not be read.

ghost use Rattle.std.specs.Prelude.{◌≡◌};
ghost use Rattle.bit_portable.specs.declared.fault.ReadError.TheVariants.{Memory};

use std::alloc::{AllocError, AllocFailed};

/// What is wrong with the bytes: the first fault from left to right.
#[derive(Clone, Copy, Debug, PartialEq, Eq)]
pub enum Fault {
    /// The bytes end before what they announce.
    Short,
    /// The first number is none that the format has.
    Cookie,
    /// More than 65536 blocks are announced.
    TooMany,
    /// A key is not above the one before it.
    Keys,
    /// The numbers of a list do not ascend.
    Unsorted,
    /// A block of runs has none.
    NoRun,
    /// A run is not after the one before it with a number left out between them, or passes 65535.
    Runs,
    /// The bits or the runs of a block have more or fewer numbers than the header says.
    Cardinality,
    /// An offset is not the place of its block.
    Offset,
    /// Bytes stand after the last block.
    Trailing,
}

/// Why nothing was read.
#[derive(Debug, Drop)]
pub enum ReadError {
    /// Memory ran out.
    Memory,
    /// The bytes are not in the format.
    Fault(Fault),
}

impl From<AllocError> for ReadError {
    ghost from_gives = { λ _ e. e ≡ Memory };

    fn from(_e: AllocError) -> ReadError {
        ReadError::Memory
    }
}

impl<T: Drop> From<AllocFailed<T>> for ReadError {
    ghost from_gives = { λ _ e. e ≡ Memory };

    fn from(_e: AllocFailed<T>) -> ReadError {
        ReadError::Memory
    }
}
