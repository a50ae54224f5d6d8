//! The vector read from a text of digits.
ghost use Rattle.std.specs.Prelude.{◌≡◌, ◌↔◌, ◌<◌, ◌≤◌, Bool, List, Err, IfErr, IfOk, IsTrue, OnErr, Some, length};
ghost use Rattle.bit_addressing.specs.declared.length.TheConstants.{MAX_BITS};
ghost use Rattle.bit_containers.specs.BitVec.{IsClean};
ghost use Rattle.bit_containers.specs.Text.{IsTextOf, IsWrongAt, bits_said, may_end, parse_error_text, part_after};

use crate::vec::BitVec;
use bit_addressing::{BitOrder, BitStore, GrowError};
use std::alloc::Global;
use std::error::Error;
use std::fmt;

/// Why a text is not read as bits.
///
/// Its text is `no text of bits`, `more bits than a container holds` or `memory was refused`, whatever the flags and
/// widths.
#[derive(Clone, Copy, PartialEq, Eq, Debug)]
pub enum ParseBitsError {
    /// The index of the first byte at which it is no text of bits, or the text's length where it
    /// ends too early.
    Wrong(usize),
    /// It would say more than `MAX_BITS` bits.
    TooLong,
    /// Memory was refused.
    OutOfMemory,
}

impl fmt::Display for ParseBitsError {
    ghost output = { λ e. Some (parse_error_text e) };

    ghost styled_output = { λ e _. Some (parse_error_text e) };

    fn fmt<W: fmt::Write>(&self, f: &mut fmt::Formatter<W>) -> fmt::Result {
        match self {
            ParseBitsError::Wrong(_) => f.write_str("no text of bits"),
            ParseBitsError::TooLong => f.write_str("more bits than a container holds"),
            ParseBitsError::OutOfMemory => f.write_str("memory was refused"),
        }
    }
}

impl Error for ParseBitsError {}

/// `TooLong` and `OutOfMemory`, as in `GrowError`.
impl From<GrowError> for ParseBitsError {
    ghost use Rattle.std.specs.Prelude.{◌≡◌};
    ghost use Rattle.bit_containers.specs.Text.{refused};

    ghost from_gives = { λ why e. e ≡ refused why };

    fn from(why: GrowError) -> ParseBitsError {
        match why {
            GrowError::TooLong => ParseBitsError::TooLong,
            GrowError::OutOfMemory => ParseBitsError::OutOfMemory,
        }
    }
}

// What was read of a text of bits so far.
#[derive(Clone, Copy, PartialEq, Eq, Debug)]
pub(crate) enum Part {
    /// Nothing.
    Start,
    /// Digits alone.
    Digits,
    /// The opening bracket.
    Opened,
    /// Up to a digit between brackets.
    Digit,
    /// Up to the comma after one.
    Comma,
    /// Up to the space after that.
    Space,
    /// Up to the closing bracket.
    Closed,
}

// What was read with one byte more, or None where the text is wrong at it.
fn after(part: Part, byte: u8) -> Option<Part>
    ensures { result ≡ part_after part byte }
{
    match byte {
        b'0' | b'1' => match part {
            Part::Start | Part::Digits => Some(Part::Digits),
            Part::Opened | Part::Space => Some(Part::Digit),
            _ => None,
        },
        b'[' => match part {
            Part::Start => Some(Part::Opened),
            _ => None,
        },
        b',' => match part {
            Part::Digit => Some(Part::Comma),
            _ => None,
        },
        b' ' => match part {
            Part::Comma => Some(Part::Space),
            _ => None,
        },
        b']' => match part {
            Part::Opened | Part::Digit => Some(Part::Closed),
            _ => None,
        },
        _ => None,
    }
}

// Whether a text may end here.
fn ends(part: Part) -> bool
    ensures { result ≡ may_end part }
{
    match part {
        Part::Start | Part::Digits | Part::Closed => true,
        Part::Opened | Part::Digit | Part::Comma | Part::Space => false,
    }
}

impl<T: BitStore, O: BitOrder> BitVec<T, O> {
    /// The bits that a text says, from head 0 on: digits alone, as `0110`, or what `Display` writes of a list, as
    /// `[0, 1, 1, 0]`. Returns `Wrong` with the index of the first wrong byte, or with the text's length where it
    /// ends too early, and `TooLong` only where the text has more than `MAX_BITS` bytes. Takes memory where there
    /// is a digit.
    ///
    /// ```text
    /// BitVec::<u8, Msb0>::from_text(alloc, "[1, 0]")?      // 1, 0
    /// BitVec::<u8, Msb0>::from_text(alloc, "012")          // Err(Wrong(2))
    /// ```
    pub fn from_text(alloc: Global, text: &str) -> Result<Self, ParseBitsError>
        ensures head { IfOk result (λ v. v.head ≡ 0) }
        ensures list { IfOk result (λ v. bits_said text.now ≡ Some v.list) }
        ensures clean { IfOk result (λ v. IsClean T.BITS v) }
        ensures says { IfOk result (λ v. IsTextOf text.now v.list) }
        ensures reads_back { IfOk result (λ v. (bits : List Bool) → IsTextOf text.now bits → v.list ≡ bits) }
        ensures wrong { IfErr result (IsWrongAt text.now) }
        ensures too_long { result ≡ Err ParseBitsError.TooLong → MAX_BITS < length text.now }
        ensures memory { result ≡ Err ParseBitsError.OutOfMemory → 0 < length text.now }
    {
        let bytes = text.as_bytes();
        let mut v = Self::new(alloc);
        let mut part = Part::Start;
        for at in 0..bytes.len() {
            let byte = bytes[at];
            let Some(next) = after(part, byte) else {
                return Err(ParseBitsError::Wrong(at));
            };
            if byte == b'0' || byte == b'1' {
                v.push(byte == b'1')?;
            }
            part = next;
        }
        if ends(part) {
            Ok(v)
        } else {
            Err(ParseBitsError::Wrong(bytes.len()))
        }
    }
}
