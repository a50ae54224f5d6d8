//! Numbers that are written with their least significant digit first.
ghost use Rattle.std.specs.Prelude.{◌≡◌, ℕ, ◌+◌, ◌^◌, ◌<◌, ◌≤◌, ◌++◌, ◌↔◌, [], Bool, List, IfSome, None, OnOk, Some, length, take};
ghost use Rattle.bit_addressing.specs.Row.{number_bits};
ghost use Rattle.bit_streams.specs.Streams.{Passed, Refuses};

use crate::reader::BitReader;
use crate::writer::BitWriter;
use bit_addressing::{BitOrder, BitStore, GrowError};

impl<T: BitStore, O: BitOrder> BitWriter<T, O> {
    /// Appends the `n` lowest binary digits of a number, the least significant first. Refused like `write`. Requires that
    /// `n` is at most 64.
    #[inline(always)]
    pub fn write_le(&mut self, n: u8, x: u64) -> Result<(), GrowError>
        requires { n ≤ 64 }
        ensures list { OnOk result (self.new.list ≡ self.old.list ++ number_bits x n) }
        ensures len { OnOk result (length self.new.list ≡ length self.old.list + n) }
        ensures refusal { Refuses result (length self.old.list + n) self.old self.new }
        ensures capacity { self.old.capacity ≤ self.new.capacity }
    {
        self.append_le(n, x)
    }
}

impl<'a, T: BitStore, O: BitOrder> BitReader<'a, T, O> {
    /// Reads the number that the next `n` bits write in binary, the least significant digit first. Requires that `n` is at
    /// most 64; where it is 0 the number is 0.
    ///
    /// ```text
    /// of 01101001: reader.read_le(3) == Some(6)
    /// ```
    #[inline(always)]
    pub fn read_le(&mut self, n: u8) -> Option<u64>
        requires { n ≤ 64 }
        ensures none { (result ≡ None) ↔ (length self.old.rest < n) }
        ensures digits { IfSome result (λ x. self.old.rest ≡ number_bits x n ++ self.new.rest) }
        ensures below { IfSome result (λ x. x < 2 ^ n) }
        ensures passed { IfSome result (λ _. Passed n self.old self.new) }
        ensures kept { result ≡ None → self.new ≡ self.old }
        ensures back { (x : ℕ) → (more : List Bool) → self.old.rest ≡ number_bits x n ++ more → x < 2 ^ n
            → (result ≡ Some x) × (self.new.rest ≡ more) }
        ensures whole { (x : ℕ) → self.old.rest ≡ number_bits x n → x < 2 ^ n
            → (result ≡ Some x) × (self.new.rest ≡ []) }
    {
        match self.next_le(n) {
            None => None,
            Some(x) => Some(x),
        }
    }

    /// The number that `read_le` would read; the reader stays where it is. Requires that `n` is at most 64.
    #[inline(always)]
    pub fn peek_le(&self, n: u8) -> Option<u64>
        requires { n ≤ 64 }
        ensures none { (result ≡ None) ↔ (length self.now.rest < n) }
        ensures digits { IfSome result (λ x. number_bits x n ≡ take n self.now.rest) }
        ensures below { IfSome result (λ x. x < 2 ^ n) }
    {
        self.look_le(n)
    }
}
