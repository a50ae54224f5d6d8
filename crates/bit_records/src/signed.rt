//! The numbers as signed ones, in two's complement.
ghost use Rattle.std.specs.Prelude.{◌≡◌, ◌+◌, ◌*◌, ◌%◌, ◌^◌, ◌<◌, ◌≤◌, ◌↔◌, ◌++◌, [], ◌∷◌, Err, IfSome, OnErr, OnOk, length, set, slice_get};
ghost use Rattle.std.specs.Int.{w64, cast_unsigned};
ghost use Rattle.bit_addressing.specs.declared.errors.GrowError.{GrowError};
ghost use Rattle.bit_addressing.specs.declared.length.TheConstants.{MAX_BITS};
ghost use Rattle.bit_containers.specs.BitVec.{IsClean};
ghost use Rattle.bit_records.specs.Records.{AreKept};
ghost use Rattle.bit_records.specs.Signed.{signed_numbers};
ghost use Rattle.bit_slice.specs.Signed.{IsSigned};

use crate::records::Records;
use bit_containers::{BitOrder, BitStore, GrowError};
use bit_slice::inner::extended;

// The `n` lowest digits of a number in two's complement.
fn low_digits(n: u8, number: i64) -> u64
    requires some { 0 < n }
    requires few { n ≤ 64 }
    ensures { result ≡ cast_unsigned w64 number % 2 ^ n }
{
    number.cast_unsigned() & (u64::MAX >> (64 - n))
}

impl<T: BitStore, O: BitOrder> Records<T, O> {
    /// Like `get`, but the number is in two's complement: its first digit is the sign.
    ///
    /// ```text
    /// of 30, by 5 digits: records.get_signed(0) == Some(-2)
    /// ```
    pub fn get_signed(&self, i: usize) -> Option<i64>
        ensures value { result ≡ slice_get (signed_numbers self.now) i }
        ensures fits { IfSome result (IsSigned self.now.width) }
    {
        match self.get(i) {
            None => None,
            Some(number) => Some(extended(self.width(), number)),
        }
    }

    /// Like `set`, but writes a number in two's complement. Requires that `i` is below the length, and that the number
    /// has as many digits as the width: by 5 digits, that it is from -16 to 15.
    pub fn set_signed(&mut self, i: usize, number: i64)
        requires inside { i < length self.old.list }
        requires fits { IsSigned self.old.width number }
        ensures list { signed_numbers self.new ≡ set (signed_numbers self.old) i number }
        ensures width { self.new.width ≡ self.old.width }
        ensures clean { IsClean T.BITS self.new.bits }
        ensures capacity { self.new.bits.capacity ≡ self.old.bits.capacity }
    {
        let width = self.width();
        self.set(i, low_digits(width, number));
    }

    /// Like `push`, but appends a number in two's complement. Requires that it has as many digits as the width: by 5
    /// digits, that it is from -16 to 15.
    ///
    /// ```text
    /// of none, by 5 digits: records.push_signed(-2)? leaves 30
    /// ```
    pub fn push_signed(&mut self, number: i64) -> Result<(), GrowError>
        requires { IsSigned self.old.width number }
        ensures list { OnOk result (signed_numbers self.new ≡ signed_numbers self.old ++ number ∷ []) }
        ensures width { self.new.width ≡ self.old.width }
        ensures too_long { (result ≡ Err GrowError.TooLong)
            ↔ (MAX_BITS < length self.old.list * self.old.width + self.old.width) }
        ensures memory { result ≡ Err GrowError.OutOfMemory
            → self.old.bits.capacity < length self.old.list * self.old.width + self.old.width }
        ensures unchanged { OnErr result (AreKept self.old self.new) }
        ensures clean { IsClean T.BITS self.new.bits }
        ensures capacity { self.old.bits.capacity ≤ self.new.bits.capacity }
        ensures no_memory { length self.old.list * self.old.width + self.old.width ≤ self.old.bits.capacity
            → self.new.bits.capacity ≡ self.old.bits.capacity }
    {
        let width = self.width();
        match self.push(low_digits(width, number)) {
            Ok(()) => Ok(()),
            Err(why) => Err(why),
        }
    }
}
