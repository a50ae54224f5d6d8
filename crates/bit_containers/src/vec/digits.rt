//! The vector read from binary, octal and hexadecimal digits.
ghost use Rattle.std.specs.Prelude.{◌≡◌, ◌↔◌, ℕ, ◌+◌, ◌*◌, ◌<◌, ◌≤◌, Bool, List, Err, IfErr, IfNone, IfOk, IfSome, None, Ok, Some, length, slice_range};
ghost use Rattle.bit_addressing.specs.Row.{binary};
ghost use Rattle.bit_addressing.specs.declared.length.TheConstants.{MAX_BITS};
ghost use Rattle.bit_containers.specs.BitVec.{IsClean};
ghost use Rattle.bit_containers.specs.DigitTexts.{IsDigitsOf, IsWrongDigit, bits_of_value, digits_of_text, digits_said, first_digit, value_of_digit};

use crate::vec::BitVec;
use crate::vec::text::ParseBitsError;
use bit_addressing::{BitOrder, BitStore, MAX_BITS};
use std::alloc::Global;

// Where the digits of a text begin and end: between brackets, or all of it.
fn digits_range(text: &[u8]) -> (usize, usize)
    ensures first { result.0 ≡ first_digit text.now }
    ensures ordered { result.0 ≤ result.1 }
    ensures inside { result.1 ≤ length text.now }
    ensures digits { slice_range text.now result.0 result.1 ≡ digits_of_text text.now }
{
    let n = text.len();
    if n > 1 && text[0] == b'[' && text[n - 1] == b']' {
        return (1, n - 1);
    }
    (0, n)
}

// The value of a hexadecimal digit, in lower or upper case.
fn value_of(byte: u8) -> Option<u8>
    ensures { result ≡ value_of_digit byte }
{
    match byte {
        b'0'..=b'9' => Some(byte - b'0'),
        b'A'..=b'F' => Some(byte - b'A' + 10),
        b'a'..=b'f' => Some(byte - b'a' + 10),
        _ => None,
    }
}

// The value of a digit that `n` bits write, or None where it is none or too large.
fn digit_of_bits(byte: u8, n: u8) -> Option<u8>
    requires few { n ≤ 4 }
    ensures some { IfSome result (λ v. bits_of_value n (value_of_digit byte) ≡ Some (binary n v)) }
    ensures none { IfNone result (bits_of_value n (value_of_digit byte) ≡ None) }
{
    let value = value_of(byte)?;
    if value < 1 << n { Some(value) } else { None }
}

impl<T: BitStore, O: BitOrder> BitVec<T, O> {
    /// The list of `len` bits that digits write, from head 0 on: each digit is `size` bits, the most significant first, and
    /// the last one is the bits that are left. Letters are in either case, and the digits may stand between brackets, as
    /// `Binary`, `Octal`, `LowerHex` and `UpperHex` write them. Returns `Wrong` with the index of the first character that
    /// is no digit for its place, or of the end where digits are missing, and `TooLong` exactly where `len` is above
    /// `MAX_BITS`. Takes memory where there is a digit. Requires that `size` is from 1 to 4.
    ///
    /// ```text
    /// BitVec::<u8, Msb0>::from_digits(alloc, "[d0]", 4, 5)? holds 11010
    /// ```
    pub fn from_digits(
        alloc: Global,
        text: &str,
        size: u8,
        len: usize,
    ) -> Result<Self, ParseBitsError>
        requires some { 0 < size }
        requires few { size ≤ 4 }
        ensures head { IfOk result (λ v. v.head ≡ 0) }
        ensures list { IfOk result (λ v. digits_said size len (digits_of_text text.now) ≡ Ok v.list) }
        ensures clean { IfOk result (λ v. IsClean T.BITS v) }
        ensures reads_back { IfOk result (λ v. (upper : Bool) (bits : List Bool) → length bits ≡ len
            → IsDigitsOf size upper text.now bits → v.list ≡ bits) }
        ensures wrong { IfErr result (IsWrongDigit size len text.now) }
        ensures too_long { (result ≡ Err ParseBitsError.TooLong) ↔ (MAX_BITS < len) }
        ensures memory { result ≡ Err ParseBitsError.OutOfMemory → 0 < length text.now }
    {
        if len > MAX_BITS {
            return Err(ParseBitsError::TooLong);
        }
        let bytes = text.as_bytes();
        let (first, end) = digits_range(bytes);
        let mut v = Self::new(alloc);
        for at in first..end {
            let n = (len - v.len()).min(size as usize) as u8;
            if n == 0 {
                return Err(ParseBitsError::Wrong(at));
            }
            let Some(value) = digit_of_bits(bytes[at], n) else {
                return Err(ParseBitsError::Wrong(at));
            };
            v.push_be(n, value as u64)?;
        }
        if v.len() < len {
            return Err(ParseBitsError::Wrong(end));
        }
        Ok(v)
    }

    /// Like `from_digits`, of all hexadecimal digits of the text, four bits each.
    ///
    /// ```text
    /// BitVec::<u8, Msb0>::from_hex(alloc, "d0")? holds 11010000
    /// ```
    pub fn from_hex(alloc: Global, text: &str) -> Result<Self, ParseBitsError>
        ensures head { IfOk result (λ v. v.head ≡ 0) }
        ensures list { IfOk result
            (λ v. digits_said 4 (4 * length (digits_of_text text.now)) (digits_of_text text.now) ≡ Ok v.list) }
        ensures clean { IfOk result (λ v. IsClean T.BITS v) }
        ensures reads_back { IfOk result (λ v. (upper : Bool) (bits : List Bool)
            → length bits ≡ 4 * length (digits_of_text text.now) → IsDigitsOf 4 upper text.now bits → v.list ≡ bits) }
        ensures wrong { IfErr result (IsWrongDigit 4 (4 * length (digits_of_text text.now)) text.now) }
        ensures too_long { (result ≡ Err ParseBitsError.TooLong)
            ↔ (MAX_BITS < 4 * length (digits_of_text text.now)) }
        ensures memory { result ≡ Err ParseBitsError.OutOfMemory → 0 < length text.now }
    {
        let (first, end) = digits_range(text.as_bytes());
        if end - first > MAX_BITS / 4 {
            return Err(ParseBitsError::TooLong);
        }
        Self::from_digits(alloc, text, 4, (end - first) * 4)
    }
}
