//! Signed numbers in two's complement.
ghost use Rattle.std.specs.Prelude.{◌≡◌, ℕ, ℤ, ◌+◌, ◌<◌, ◌≤◌, ◌++◌, ◌↔◌, [], Bool, List, IfSome, None, OnOk, Some, length, take};
ghost use Rattle.bit_addressing.specs.Binary.{value};
ghost use Rattle.bit_slice.specs.Signed.{IsSigned, signed_binary, signed_bits, signed_of};
ghost use Rattle.bit_streams.specs.Streams.{Passed, Refuses};

use crate::reader::BitReader;
use crate::writer::BitWriter;
use bit_addressing::{BitOrder, BitStore, GrowError};
use bit_slice::inner::extended;

impl<T: BitStore, O: BitOrder> BitWriter<T, O> {
    /// Appends the `n` lowest digits of a number in two's complement, the most significant first. Refused like `write`.
    /// Requires that `n` is at most 64.
    ///
    /// ```text
    /// writer.write_signed(3, -2)?;       // appends 110
    /// ```
    #[inline(always)]
    pub fn write_signed(&mut self, n: u8, x: i64) -> Result<(), GrowError>
        requires { n ≤ 64 }
        ensures list { OnOk result (self.new.list ≡ self.old.list ++ signed_binary n x) }
        ensures len { OnOk result (length self.new.list ≡ length self.old.list + n) }
        ensures refusal { Refuses result (length self.old.list + n) self.old self.new }
        ensures capacity { self.old.capacity ≤ self.new.capacity }
    {
        match self.write(n, x.cast_unsigned()) {
            Ok(()) => Ok(()),
            Err(why) => Err(why),
        }
    }

    /// Appends the `n` lowest digits of a number in two's complement, the least significant first. Refused like `write`.
    /// Requires that `n` is at most 64.
    #[inline(always)]
    pub fn write_signed_le(&mut self, n: u8, x: i64) -> Result<(), GrowError>
        requires { n ≤ 64 }
        ensures list { OnOk result (self.new.list ≡ self.old.list ++ signed_bits x n) }
        ensures len { OnOk result (length self.new.list ≡ length self.old.list + n) }
        ensures refusal { Refuses result (length self.old.list + n) self.old self.new }
        ensures capacity { self.old.capacity ≤ self.new.capacity }
    {
        match self.write_le(n, x.cast_unsigned()) {
            Ok(()) => Ok(()),
            Err(why) => Err(why),
        }
    }
}

impl<'a, T: BitStore, O: BitOrder> BitReader<'a, T, O> {
    /// Reads the number that the next `n` bits stand for in two's complement, the most significant digit first. Requires
    /// that `n` is from 1 to 64.
    ///
    /// ```text
    /// of 11010: reader.read_signed(3) == Some(-2)
    /// ```
    #[inline(always)]
    pub fn read_signed(&mut self, n: u8) -> Option<i64>
        requires some { 0 < n }
        requires few { n ≤ 64 }
        ensures none { (result ≡ None) ↔ (length self.old.rest < n) }
        ensures value { IfSome result (λ x. x ≡ signed_of n (value (take n self.old.rest))) }
        ensures digits { IfSome result (λ x. self.old.rest ≡ signed_binary n x ++ self.new.rest) }
        ensures within { IfSome result (IsSigned n) }
        ensures passed { IfSome result (λ _. Passed n self.old self.new) }
        ensures kept { result ≡ None → self.new ≡ self.old }
        ensures back { (x : ℤ) → (more : List Bool) → self.old.rest ≡ signed_binary n x ++ more → IsSigned n x
            → (result ≡ Some x) × (self.new.rest ≡ more) }
        ensures whole { (x : ℤ) → self.old.rest ≡ signed_binary n x → IsSigned n x
            → (result ≡ Some x) × (self.new.rest ≡ []) }
    {
        match self.read(n) {
            None => None,
            Some(x) => Some(extended(n, x)),
        }
    }

    /// Reads the number that the next `n` bits stand for in two's complement, the least significant digit first. Requires
    /// that `n` is from 1 to 64.
    #[inline(always)]
    pub fn read_signed_le(&mut self, n: u8) -> Option<i64>
        requires some { 0 < n }
        requires few { n ≤ 64 }
        ensures none { (result ≡ None) ↔ (length self.old.rest < n) }
        ensures digits { IfSome result (λ x. self.old.rest ≡ signed_bits x n ++ self.new.rest) }
        ensures within { IfSome result (IsSigned n) }
        ensures passed { IfSome result (λ _. Passed n self.old self.new) }
        ensures kept { result ≡ None → self.new ≡ self.old }
        ensures back { (x : ℤ) → (more : List Bool) → self.old.rest ≡ signed_bits x n ++ more → IsSigned n x
            → (result ≡ Some x) × (self.new.rest ≡ more) }
        ensures whole { (x : ℤ) → self.old.rest ≡ signed_bits x n → IsSigned n x
            → (result ≡ Some x) × (self.new.rest ≡ []) }
    {
        match self.read_le(n) {
            None => None,
            Some(x) => Some(extended(n, x)),
        }
    }
}
