//! Golomb's codes, and Rice's, which are those by a power of two.
ghost use Rattle.std.specs.Prelude.{◌≡◌, ◌≢◌, ℕ, ◌+◌, ◌-◌, ◌*◌, ◌/◌, ◌%◌, ◌^◌, ◌<◌, ◌≤◌, ◌++◌, Bool, List, Err, IfOk, IfSome, None, OnErr, OnOk, Ok, Some};
ghost use Rattle.bit_streams.specs.Codes.{golomb, rest_code, rice, top_place, unary};
ghost use Rattle.bit_streams.specs.Refusals.{GolombEnds, GolombPasses, RiceEnds};
ghost use Rattle.bit_streams.specs.Streams.{MayRefuse};
ghost use Rattle.bit_streams.specs.declared.codes.CodeError.TheVariants as errors;

use crate::codes::CodeError;
use crate::codes::elias::top_of;
use crate::reader::BitReader;
use crate::register::{digit_of, joined};
use crate::writer::BitWriter;
use bit_addressing::{BitOrder, BitStore, GrowError};

// How many rests by `m` have a code of one digit fewer than the others.
#[inline(always)]
fn short_rests(m: u64, top: u8) -> u64
    requires some { 0 < m }
    requires top { top ≡ top_place m }
    ensures value { result ≡ 2 ^ (top + 1) - m }
    ensures within { m + result ≡ 2 ^ (top + 1) }
    ensures few { top < 64 }
{
    (1 << top) - (m - (1 << top))
}

impl<T: BitStore, O: BitOrder> BitWriter<T, O> {
    /// Appends the Rice code of a number by the parameter `k`: its quotient by 2 to the power `k` in unary, and the `k`
    /// lowest of its binary digits. A refusal keeps what was written before. Requires that `k` is below 64.
    ///
    /// ```text
    /// writer.write_rice(2, 6)?;       // appends 01 10
    /// ```
    pub fn write_rice(&mut self, k: u8, x: u64) -> Result<(), GrowError>
        requires { k < 64 }
        ensures list { OnOk result (self.new.list ≡ self.old.list ++ rice k x) }
        ensures refusal { MayRefuse result (rice k x) self.old self.new }
        ensures capacity { self.old.capacity ≤ self.new.capacity }
    {
        let before = self.len();
        match self.write_unary((x >> k) as usize) {
            Ok(()) => {}
            Err(why) => return Err(why),
        }
        match self.write(k, x) {
            Ok(()) => Ok(()),
            Err(why) => {
                self.truncate(before);
                Err(why)
            }
        }
    }

    /// Appends the Golomb code of a number by the parameter `m`: its quotient by `m` in unary, and the rest by as few
    /// binary digits as serve for the `m` rests. A refusal keeps what was written before. Requires that `m` is not 0.
    ///
    /// ```text
    /// writer.write_golomb(3, 5)?;       // appends 01 11
    /// ```
    pub fn write_golomb(&mut self, m: u64, x: u64) -> Result<(), GrowError>
        requires { 0 < m }
        ensures list { OnOk result (self.new.list ≡ self.old.list ++ golomb m x) }
        ensures refusal { MayRefuse result (golomb m x) self.old self.new }
        ensures capacity { self.old.capacity ≤ self.new.capacity }
    {
        let before = self.len();
        match self.write_unary((x / m) as usize) {
            Ok(()) => {}
            Err(why) => return Err(why),
        }
        match self.write_rest(m, x % m) {
            Ok(()) => Ok(()),
            Err(why) => {
                self.truncate(before);
                Err(why)
            }
        }
    }

    // Appends a number below `m`.
    fn write_rest(&mut self, m: u64, rest: u64) -> Result<(), GrowError>
        requires { rest < m }
        ensures list { OnOk result (self.new.list ≡ self.old.list ++ rest_code m rest) }
        ensures refusal { MayRefuse result (rest_code m rest) self.old self.new }
        ensures capacity { self.old.capacity ≤ self.new.capacity }
    {
        let top = top_of(m);
        let short = short_rests(m, top);
        if rest < short {
            return match self.write(top, rest) {
                Ok(()) => Ok(()),
                Err(why) => Err(why),
            };
        }
        match self.write(top + 1, rest + short) {
            Ok(()) => Ok(()),
            Err(why) => Err(why),
        }
    }
}

impl<'a, T: BitStore, O: BitOrder> BitReader<'a, T, O> {
    /// Reads the number of a Rice code by the parameter `k`. `Ended` where the bits end inside the code, `TooLong` where the
    /// number has more than 64 binary digits: then the reader stays where it is. Requires that `k` is below 64.
    pub fn read_rice(&mut self, k: u8) -> Result<u64, CodeError>
        requires { k < 64 }
        ensures found { IfOk result (λ x. self.old.rest ≡ rice k x ++ self.new.rest) }
        ensures ended { result ≡ Err errors.Ended → RiceEnds k self.old.rest }
        ensures shortest { result ≢ Err errors.NotShortest }
        ensures too_long { result ≡ Err errors.TooLong
            → (quotient : ℕ) × (2 ^ 64 ≤ quotient * 2 ^ k) × (more : List Bool)
            × (self.old.rest ≡ unary quotient ++ more) }
        ensures kept { OnErr result (self.new ≡ self.old) }
        ensures back { (x : ℕ) → (more : List Bool) → x < 2 ^ 64 → self.old.rest ≡ rice k x ++ more
            → (result ≡ Ok x) × (self.new.rest ≡ more) }
    {
        let before = self.copied();
        match self.rice_parts(k) {
            Ok(x) => Ok(x),
            Err(why) => {
                *self = before;
                Err(why)
            }
        }
    }

    // What `read_rice` returns; after an error the reader may be anywhere.
    fn rice_parts(&mut self, k: u8) -> Result<u64, CodeError>
        requires { k < 64 }
        ensures found { IfOk result (λ x. self.old.rest ≡ rice k x ++ self.new.rest) }
        ensures ended { result ≡ Err errors.Ended → RiceEnds k self.old.rest }
        ensures shortest { result ≢ Err errors.NotShortest }
        ensures too_long { result ≡ Err errors.TooLong
            → (quotient : ℕ) × (2 ^ 64 ≤ quotient * 2 ^ k) × (more : List Bool)
            × (self.old.rest ≡ unary quotient ++ more) }
        ensures back { (x : ℕ) → (more : List Bool) → x < 2 ^ 64 → self.old.rest ≡ rice k x ++ more
            → (result ≡ Ok x) × (self.new.rest ≡ more) }
    {
        match self.read_unary() {
            None => Err(CodeError::Ended),
            Some(quotient) => {
                if quotient as u64 > u64::MAX >> k {
                    return Err(CodeError::TooLong);
                }
                match self.read(k) {
                    None => Err(CodeError::Ended),
                    Some(rest) => Ok(joined(quotient as u64, 64 - k, k, rest)),
                }
            }
        }
    }

    /// Reads the number of a Golomb code by the parameter `m`. `Ended` where the bits end inside the code, `TooLong` where
    /// the number has more than 64 binary digits: then the reader stays where it is. Requires that `m` is not 0.
    pub fn read_golomb(&mut self, m: u64) -> Result<u64, CodeError>
        requires { 0 < m }
        ensures found { IfOk result (λ x. self.old.rest ≡ golomb m x ++ self.new.rest) }
        ensures ended { result ≡ Err errors.Ended → GolombEnds m self.old.rest }
        ensures too_long { result ≡ Err errors.TooLong → GolombPasses m self.old.rest }
        ensures shortest { result ≢ Err errors.NotShortest }
        ensures kept { OnErr result (self.new ≡ self.old) }
        ensures back { (x : ℕ) → (more : List Bool) → x < 2 ^ 64 → self.old.rest ≡ golomb m x ++ more
            → (result ≡ Ok x) × (self.new.rest ≡ more) }
    {
        let before = self.copied();
        match self.golomb_parts(m) {
            Ok(x) => Ok(x),
            Err(why) => {
                *self = before;
                Err(why)
            }
        }
    }

    // What `read_golomb` returns; after an error the reader may be anywhere.
    fn golomb_parts(&mut self, m: u64) -> Result<u64, CodeError>
        requires { 0 < m }
        ensures found { IfOk result (λ x. self.old.rest ≡ golomb m x ++ self.new.rest) }
        ensures ended { result ≡ Err errors.Ended → GolombEnds m self.old.rest }
        ensures too_long { result ≡ Err errors.TooLong → GolombPasses m self.old.rest }
        ensures shortest { result ≢ Err errors.NotShortest }
        ensures back { (x : ℕ) → (more : List Bool) → x < 2 ^ 64 → self.old.rest ≡ golomb m x ++ more
            → (result ≡ Ok x) × (self.new.rest ≡ more) }
    {
        match self.read_unary() {
            None => Err(CodeError::Ended),
            Some(quotient) => match self.read_rest(m) {
                None => Err(CodeError::Ended),
                Some(rest) => {
                    if quotient as u64 > (u64::MAX - rest) / m {
                        return Err(CodeError::TooLong);
                    }
                    Ok(quotient as u64 * m + rest)
                }
            },
        }
    }

    // Reads a number below `m`; where the bits end the reader may be anywhere.
    fn read_rest(&mut self, m: u64) -> Option<u64>
        requires { 0 < m }
        ensures found { IfSome result (λ x. self.old.rest ≡ rest_code m x ++ self.new.rest) }
        ensures below { IfSome result (λ x. x < m) }
        ensures back { (x : ℕ) → (more : List Bool) → x < m → self.old.rest ≡ rest_code m x ++ more
            → (result ≡ Some x) × (self.new.rest ≡ more) }
    {
        let top = top_of(m);
        let short = short_rests(m, top);
        match self.read(top) {
            None => None,
            Some(rest) => {
                if rest < short {
                    return Some(rest);
                }
                match self.read_bit() {
                    None => None,
                    Some(bit) => Some(rest - short + rest + digit_of(bit)),
                }
            }
        }
    }
}
