//! LEB128: seven binary digits in a byte, the lowest first.
ghost use Rattle.std.specs.Prelude.{◌≡◌, ℕ, ◌+◌, ◌*◌, ◌^◌, ◌<◌, ◌≤◌, ◌++◌, Bool, List, Err, IfOk, IfSome, None, OnErr, OnOk, Ok, length, take};
ghost use Rattle.bit_addressing.specs.Row.{binary};
ghost use Rattle.bit_streams.specs.Codes.{leb128, leb_bytes};
ghost use Rattle.bit_streams.specs.Refusals.{LebEnds, LebPadded, LebPasses};
ghost use Rattle.bit_streams.specs.Streams.{MayRefuse, Refuses};
ghost use Rattle.bit_streams.specs.declared.codes.CodeError.TheVariants as errors;

use crate::codes::CodeError;
use crate::reader::BitReader;
use crate::writer::BitWriter;
use bit_addressing::{BitOrder, BitStore, GrowError};

// The first bytes of a number's code, at most eight, as a number and how many digits it has, and what is left of the number
// for the bytes after them: 0 where there are none.
#[inline(always)]
fn first_bytes(x: u64) -> (u64, u8, u64)
    ensures whole { result.2 ≡ 0 → binary result.1 result.0 ≡ leb128 x }
    ensures parted { 0 < result.2 → leb128 x ≡ binary 64 result.0 ++ leb_bytes 1 result.2 }
    ensures few { result.1 ≤ 64 }
{
    let mut code = 0;
    let mut left = x;
    for i in 0..8u8 {
        if left < 128 {
            return ((code << 8) + left, 8 * i + 8, 0);
        }
        code = (code << 8) + (left % 128 + 128);
        left = left / 128;
    }
    (code, 64, left)
}

// The number whose code 64 bits begin with, and how many bytes the code has: 0 bytes where no such code ends in them.
#[inline(always)]
fn number_in(block: u64) -> (u64, u8)
    ensures code { 0 < result.1 → leb128 result.0 ≡ take (8 * result.1) (binary 64 block) }
    ensures few { result.1 ≤ 8 }
    ensures below { result.0 < 2 ^ 64 }
{
    let mut x = 0;
    for i in 0..8u8 {
        let byte = (block >> (56 - 8 * i)) % 256;
        if byte < 128 {
            if byte == 0 && i > 0 {
                return (0, 0);
            }
            return (x + (byte << (7 * i)), i + 1);
        }
        x = x + ((byte % 128) << (7 * i));
    }
    (0, 0)
}

// The 56 digits of the eight bytes that 64 bits are, where each of these says that more follow.
#[inline(always)]
fn marked_in(block: u64) -> Option<u64>
    ensures code { IfSome result (λ x. (upper : ℕ) → 0 < upper
        → leb_bytes 9 (upper * 2 ^ 56 + x) ≡ binary 64 block ++ leb_bytes 1 upper) }
    ensures below { IfSome result (λ x. x < 2 ^ 56) }
{
    let mut x = 0;
    for i in 0..8u8 {
        let byte = (block >> (56 - 8 * i)) % 256;
        if byte < 128 {
            return None;
        }
        x += (byte % 128) << (7 * i);
    }
    Some(x)
}

impl<T: BitStore, O: BitOrder> BitWriter<T, O> {
    /// Appends a number in LEB128, 1 to 10 bytes, each from its most significant bit on: seven digits, the lowest group
    /// first, below a bit that says whether more follow. A refusal keeps what was written before.
    ///
    /// ```text
    /// writer.write_leb128(300)?;       // appends the bytes 172, 2
    /// ```
    pub fn write_leb128(&mut self, x: u64) -> Result<(), GrowError>
        ensures list { OnOk result (self.new.list ≡ self.old.list ++ leb128 x) }
        ensures refusal { MayRefuse result (leb128 x) self.old self.new }
        ensures capacity { self.old.capacity ≤ self.new.capacity }
    {
        let (code, n, left) = first_bytes(x);
        if left == 0 {
            return match self.write(n, code) {
                Ok(()) => Ok(()),
                Err(why) => Err(why),
            };
        }
        self.write_long(code, left)
    }

    // Appends eight bytes, and the one or two of what is left of a number after them.
    #[inline(never)]
    fn write_long(&mut self, code: u64, left: u64) -> Result<(), GrowError>
        ensures list { OnOk result (self.new.list ≡ self.old.list ++ (binary 64 code ++ leb_bytes 1 left)) }
        ensures refusal { MayRefuse result (binary 64 code ++ leb_bytes 1 left) self.old self.new }
        ensures capacity { self.old.capacity ≤ self.new.capacity }
    {
        let before = self.len();
        match self.write(64, code) {
            Ok(()) => {}
            Err(why) => return Err(why),
        }
        match self.write_bytes(1, left) {
            Ok(()) => Ok(()),
            Err(why) => {
                self.truncate(before);
                Err(why)
            }
        }
    }

    // Appends the last byte.
    fn write_last(&mut self, x: u64) -> Result<(), GrowError>
        ensures list { OnOk result (self.new.list ≡ self.old.list ++ binary 8 x) }
        ensures refusal { Refuses result (length self.old.list + 8) self.old self.new }
        ensures capacity { self.old.capacity ≤ self.new.capacity }
    {
        match self.write(8, x) {
            Ok(()) => Ok(()),
            Err(why) => Err(why),
        }
    }

    // Appends a number in at most `more + 1` bytes.
    fn write_bytes(&mut self, more: u8, x: u64) -> Result<(), GrowError>
        ensures list { OnOk result (self.new.list ≡ self.old.list ++ leb_bytes more x) }
        ensures refusal { MayRefuse result (leb_bytes more x) self.old self.new }
        ensures capacity { self.old.capacity ≤ self.new.capacity }
    {
        if more == 0 {
            return self.write_last(x);
        }
        if x < 128 {
            return self.write_last(x);
        }
        let before = self.len();
        match self.write(8, x % 128 + 128) {
            Ok(()) => {}
            Err(why) => return Err(why),
        }
        match self.write_bytes(more - 1, x / 128) {
            Ok(()) => Ok(()),
            Err(why) => {
                self.truncate(before);
                Err(why)
            }
        }
    }
}

impl<'a, T: BitStore, O: BitOrder> BitReader<'a, T, O> {
    /// Reads a number in LEB128. `Ended` where the bits end before a last byte, `TooLong` where the number has more than 64
    /// binary digits, `NotShortest` where a last byte of 0 follows another: then the reader stays where it is.
    pub fn read_leb128(&mut self) -> Result<u64, CodeError>
        ensures found { IfOk result (λ x. self.old.rest ≡ leb128 x ++ self.new.rest) }
        ensures ended { result ≡ Err errors.Ended → LebEnds 9 self.old.rest }
        ensures too_long { result ≡ Err errors.TooLong → LebPasses 9 self.old.rest }
        ensures padded { result ≡ Err errors.NotShortest → LebPadded 9 self.old.rest }
        ensures kept { OnErr result (self.new ≡ self.old) }
        ensures back { (x : ℕ) → (more : List Bool) → x < 2 ^ 64 → self.old.rest ≡ leb128 x ++ more
            → (result ≡ Ok x) × (self.new.rest ≡ more) }
    {
        let (x, bytes) = self.first_number();
        if bytes > 0 {
            self.pass(8 * bytes as usize);
            return Ok(x);
        }
        self.read_long()
    }

    // The number whose code comes next, and how many bytes the code has: 0 bytes where it does not end in the next 64 bits.
    #[inline(always)]
    fn first_number(&self) -> (u64, u8)
        ensures code { 0 < result.1 → leb128 result.0 ≡ take (8 * result.1) self.now.rest }
        ensures there { 8 * result.1 ≤ length self.now.rest }
        ensures below { result.0 < 2 ^ 64 }
    {
        match self.peek(64) {
            None => (0, 0),
            Some(block) => number_in(block),
        }
    }

    // Like `read_leb128`, byte by byte.
    #[inline(never)]
    fn read_long(&mut self) -> Result<u64, CodeError>
        ensures found { IfOk result (λ x. self.old.rest ≡ leb128 x ++ self.new.rest) }
        ensures ended { result ≡ Err errors.Ended → LebEnds 9 self.old.rest }
        ensures too_long { result ≡ Err errors.TooLong → LebPasses 9 self.old.rest }
        ensures padded { result ≡ Err errors.NotShortest → LebPadded 9 self.old.rest }
        ensures kept { OnErr result (self.new ≡ self.old) }
        ensures back { (x : ℕ) → (more : List Bool) → x < 2 ^ 64 → self.old.rest ≡ leb128 x ++ more
            → (result ≡ Ok x) × (self.new.rest ≡ more) }
    {
        let before = self.copied();
        match self.read_longest() {
            Some(x) => return Ok(x),
            None => *self = before.copied(),
        }
        match self.read_bytes(9) {
            Ok(x) => Ok(x),
            Err(why) => {
                *self = before;
                Err(why)
            }
        }
    }

    // Reads a number in nine or ten bytes: eight at once, and one or two after them. Where none comes, the reader may be
    // anywhere.
    fn read_longest(&mut self) -> Option<u64>
        ensures found { IfSome result (λ x. self.old.rest ≡ leb128 x ++ self.new.rest) }
        ensures below { IfSome result (λ x. x < 2 ^ 64) }
    {
        match self.read(64) {
            None => None,
            Some(block) => match marked_in(block) {
                None => None,
                Some(low) => match self.read_bytes(1) {
                    Err(_) => None,
                    Ok(upper) => {
                        if upper == 0 {
                            return None;
                        }
                        if upper > 255 {
                            return None;
                        }
                        Some((upper << 56) + low)
                    }
                },
            },
        }
    }

    // Reads a number in at most `most + 1` bytes; after an error the reader may be anywhere.
    fn read_bytes(&mut self, most: u8) -> Result<u64, CodeError>
        ensures found { IfOk result (λ x. self.old.rest ≡ leb_bytes most x ++ self.new.rest) }
        ensures ended { result ≡ Err errors.Ended → LebEnds most self.old.rest }
        ensures too_long { result ≡ Err errors.TooLong → LebPasses most self.old.rest }
        ensures padded { result ≡ Err errors.NotShortest → LebPadded most self.old.rest }
        ensures back { (x : ℕ) → (more : List Bool) → x < 2 ^ 64 → self.old.rest ≡ leb_bytes most x ++ more
            → x < 2 ^ (8 + 7 * most) → (result ≡ Ok x) × (self.new.rest ≡ more) }
    {
        match self.read(8) {
            None => Err(CodeError::Ended),
            Some(byte) => {
                if most == 0 {
                    return Ok(byte);
                }
                if byte < 128 {
                    return Ok(byte);
                }
                match self.read_bytes(most - 1) {
                    Err(why) => Err(why),
                    Ok(upper) => {
                        if upper == 0 {
                            return Err(CodeError::NotShortest);
                        }
                        if upper > u64::MAX / 128 {
                            return Err(CodeError::TooLong);
                        }
                        Ok(upper * 128 + byte % 128)
                    }
                }
            }
        }
    }
}
