//! Elias's gamma and delta codes of numbers from 1 on.
ghost use Rattle.std.specs.Prelude.{◌≡◌, ◌≢◌, ℕ, ◌^◌, ◌<◌, ◌≤◌, ◌++◌, Bool, List, Err, IfOk, OnErr, OnOk, Ok};
ghost use Rattle.bit_streams.specs.Codes.{delta, gamma, top_place};
ghost use Rattle.bit_streams.specs.Refusals.{DeltaEnds, DeltaPasses, GammaEnds, GammaPasses};
ghost use Rattle.bit_streams.specs.Streams.{MayRefuse};
ghost use Rattle.bit_streams.specs.declared.codes.CodeError.TheVariants as errors;

use crate::codes::CodeError;
use crate::reader::BitReader;
use crate::register::joined;
use crate::writer::BitWriter;
use bit_addressing::{BitOrder, BitStore, GrowError};

// The place of the highest digit of a number from 1 on: how many digits it has after the first.
#[inline(always)]
pub(crate) fn top_of(x: u64) -> u8
    requires { 0 < x }
    ensures place { result ≡ top_place x }
    ensures few { result < 64 }
{
    63 - x.leading_zeros() as u8
}

impl<T: BitStore, O: BitOrder> BitWriter<T, O> {
    /// Appends the gamma code of a number: as many zeros as its binary digits after the first, and then its digits. A
    /// refusal keeps what was written before. Requires that the number is not 0.
    ///
    /// ```text
    /// writer.write_gamma(6)?;       // appends 00110
    /// ```
    #[inline(always)]
    pub fn write_gamma(&mut self, x: u64) -> Result<(), GrowError>
        requires { 0 < x }
        ensures list { OnOk result (self.new.list ≡ self.old.list ++ gamma x) }
        ensures refusal { MayRefuse result (gamma x) self.old self.new }
        ensures capacity { self.old.capacity ≤ self.new.capacity }
    {
        let top = top_of(x);
        if top < 32 {
            return match self.write(2 * top + 1, x) {
                Ok(()) => Ok(()),
                Err(why) => Err(why),
            };
        }
        self.write_long_gamma(top, x)
    }

    // Like `write_gamma`, in two parts: the zeros with the first digit, and the digits after it.
    #[inline(never)]
    fn write_long_gamma(&mut self, top: u8, x: u64) -> Result<(), GrowError>
        requires { top ≡ top_place x }
        ensures list { OnOk result (self.new.list ≡ self.old.list ++ gamma x) }
        ensures refusal { MayRefuse result (gamma x) self.old self.new }
        ensures capacity { self.old.capacity ≤ self.new.capacity }
    {
        let before = self.len();
        match self.write_unary(top as usize) {
            Ok(()) => {}
            Err(why) => return Err(why),
        }
        match self.write(top, x) {
            Ok(()) => Ok(()),
            Err(why) => {
                self.truncate(before);
                Err(why)
            }
        }
    }

    /// Appends the delta code of a number: the gamma code of how many binary digits it has, and then its digits after the
    /// first. A refusal keeps what was written before. Requires that the number is not 0.
    ///
    /// ```text
    /// writer.write_delta(6)?;       // appends 01110
    /// ```
    pub fn write_delta(&mut self, x: u64) -> Result<(), GrowError>
        requires { 0 < x }
        ensures list { OnOk result (self.new.list ≡ self.old.list ++ delta x) }
        ensures refusal { MayRefuse result (delta x) self.old self.new }
        ensures capacity { self.old.capacity ≤ self.new.capacity }
    {
        let before = self.len();
        let top = top_of(x);
        match self.write_gamma(top as u64 + 1) {
            Ok(()) => {}
            Err(why) => return Err(why),
        }
        match self.write(top, x) {
            Ok(()) => Ok(()),
            Err(why) => {
                self.truncate(before);
                Err(why)
            }
        }
    }
}

impl<'a, T: BitStore, O: BitOrder> BitReader<'a, T, O> {
    /// Reads the number of a gamma code. `Ended` where the bits end inside the code, `TooLong` where it begins with 64 zeros
    /// or more before a one: then the reader stays where it is.
    #[inline(always)]
    pub fn read_gamma(&mut self) -> Result<u64, CodeError>
        ensures found { IfOk result (λ x. self.old.rest ≡ gamma x ++ self.new.rest) }
        ensures some { IfOk result (λ x. 0 < x) }
        ensures ended { result ≡ Err errors.Ended → GammaEnds self.old.rest }
        ensures too_long { result ≡ Err errors.TooLong → GammaPasses self.old.rest }
        ensures shortest { result ≢ Err errors.NotShortest }
        ensures kept { OnErr result (self.new ≡ self.old) }
        ensures back { (x : ℕ) → (more : List Bool) → 0 < x → x < 2 ^ 64 → self.old.rest ≡ gamma x ++ more
            → (result ≡ Ok x) × (self.new.rest ≡ more) }
    {
        let block = self.block_ahead();
        let zeros = block.leading_zeros() as u8;
        if zeros < 32 {
            self.pass(2 * zeros as usize + 1);
            return Ok(block >> (63 - 2 * zeros));
        }
        self.read_long_gamma()
    }

    // Like `read_gamma`, in two parts.
    #[inline(never)]
    fn read_long_gamma(&mut self) -> Result<u64, CodeError>
        ensures found { IfOk result (λ x. self.old.rest ≡ gamma x ++ self.new.rest) }
        ensures some { IfOk result (λ x. 0 < x) }
        ensures ended { result ≡ Err errors.Ended → GammaEnds self.old.rest }
        ensures too_long { result ≡ Err errors.TooLong → GammaPasses self.old.rest }
        ensures shortest { result ≢ Err errors.NotShortest }
        ensures kept { OnErr result (self.new ≡ self.old) }
        ensures back { (x : ℕ) → (more : List Bool) → 0 < x → x < 2 ^ 64 → self.old.rest ≡ gamma x ++ more
            → (result ≡ Ok x) × (self.new.rest ≡ more) }
    {
        let before = self.copied();
        match self.gamma_parts() {
            Ok(x) => Ok(x),
            Err(why) => {
                *self = before;
                Err(why)
            }
        }
    }

    // What `read_gamma` returns; after an error the reader may be anywhere.
    fn gamma_parts(&mut self) -> Result<u64, CodeError>
        ensures found { IfOk result (λ x. self.old.rest ≡ gamma x ++ self.new.rest) }
        ensures some { IfOk result (λ x. 0 < x) }
        ensures ended { result ≡ Err errors.Ended → GammaEnds self.old.rest }
        ensures too_long { result ≡ Err errors.TooLong → GammaPasses self.old.rest }
        ensures shortest { result ≢ Err errors.NotShortest }
        ensures back { (x : ℕ) → (more : List Bool) → 0 < x → x < 2 ^ 64 → self.old.rest ≡ gamma x ++ more
            → (result ≡ Ok x) × (self.new.rest ≡ more) }
    {
        match self.read_unary() {
            None => Err(CodeError::Ended),
            Some(top) => {
                if top > 63 {
                    return Err(CodeError::TooLong);
                }
                match self.read(top as u8) {
                    None => Err(CodeError::Ended),
                    Some(rest) => Ok(joined(1, 1, top as u8, rest)),
                }
            }
        }
    }

    /// Reads the number of a delta code. `Ended` where the bits end inside the code, `TooLong` where its count of digits
    /// passes 64, or has itself no gamma code below 64 zeros: then the reader stays where it is.
    pub fn read_delta(&mut self) -> Result<u64, CodeError>
        ensures found { IfOk result (λ x. self.old.rest ≡ delta x ++ self.new.rest) }
        ensures some { IfOk result (λ x. 0 < x) }
        ensures ended { result ≡ Err errors.Ended → DeltaEnds self.old.rest }
        ensures too_long { result ≡ Err errors.TooLong → DeltaPasses self.old.rest }
        ensures shortest { result ≢ Err errors.NotShortest }
        ensures kept { OnErr result (self.new ≡ self.old) }
        ensures back { (x : ℕ) → (more : List Bool) → 0 < x → x < 2 ^ 64 → self.old.rest ≡ delta x ++ more
            → (result ≡ Ok x) × (self.new.rest ≡ more) }
    {
        let before = self.copied();
        match self.delta_parts() {
            Ok(x) => Ok(x),
            Err(why) => {
                *self = before;
                Err(why)
            }
        }
    }

    // What `read_delta` returns; after an error the reader may be anywhere.
    fn delta_parts(&mut self) -> Result<u64, CodeError>
        ensures found { IfOk result (λ x. self.old.rest ≡ delta x ++ self.new.rest) }
        ensures some { IfOk result (λ x. 0 < x) }
        ensures ended { result ≡ Err errors.Ended → DeltaEnds self.old.rest }
        ensures too_long { result ≡ Err errors.TooLong → DeltaPasses self.old.rest }
        ensures shortest { result ≢ Err errors.NotShortest }
        ensures back { (x : ℕ) → (more : List Bool) → 0 < x → x < 2 ^ 64 → self.old.rest ≡ delta x ++ more
            → (result ≡ Ok x) × (self.new.rest ≡ more) }
    {
        match self.read_gamma() {
            Err(why) => Err(why),
            Ok(count) => {
                if count > 64 {
                    return Err(CodeError::TooLong);
                }
                let top = (count - 1) as u8;
                match self.read(top) {
                    None => Err(CodeError::Ended),
                    Some(rest) => Ok(joined(1, 1, top, rest)),
                }
            }
        }
    }
}
