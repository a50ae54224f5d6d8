//! Numbers of up to 64 bits appended to a vector.
ghost use Rattle.std.specs.Prelude.{◌≡◌, ◌+◌, ◌≤◌, ◌++◌, OnOk, length};
ghost use Rattle.bit_addressing.specs.Row.{binary, number_bits};
ghost use Rattle.bit_containers.specs.BitVec.{Grew, IsClean, RefusesOnly};

use crate::vec::BitVec;
use bit_addressing::{BitOrder, BitStore, GrowError, MAX_BITS};
use bit_rows::{push_binary_in_vec, push_chunk_in_vec};

impl<T: BitStore, O: BitOrder> BitVec<T, O> {
    /// Appends the `n` lowest binary digits of a number, the most significant first. Returns `TooLong` exactly
    /// where the length would pass `MAX_BITS`, and `OutOfMemory` only where it would pass the capacity. A
    /// refusal changes nothing but perhaps the capacity. Requires that `n` is at most 64.
    ///
    /// ```text
    /// of 01: bits.push_be(3, 5)? leaves 01101
    /// ```
    #[inline(always)]
    #[tactic(auto, using(bit_slice::proofs::Parts::shown_length))]
    pub fn push_be(&mut self, n: u8, number: u64) -> Result<(), GrowError>
        requires { n ≤ 64 }
        ensures list { OnOk result (self.new.list ≡ self.old.list ++ binary n number) }
        ensures len { OnOk result (length self.new.list ≡ length self.old.list + n) }
        ensures row { OnOk result (Grew T.BITS self.old self.new (binary n number)) }
        ensures clean { OnOk result (IsClean T.BITS self.old → IsClean T.BITS self.new) }
        ensures refusal { RefusesOnly result (length self.old.list + n) self.old self.new }
        ensures capacity { self.old.capacity ≤ self.new.capacity }
        ensures no_memory { length self.old.list + n ≤ self.old.capacity
            → self.new.capacity ≡ self.old.capacity }
    {
        let more = n as usize;
        if more > MAX_BITS - self.len {
            return Err(GrowError::TooLong);
        }
        let (end, len) = (self.head + self.len, self.len + more);
        push_binary_in_vec::<T, O>(&mut self.words, end, n, number)?;
        self.len = len;
        Ok(())
    }

    /// Like `push_be`, but the least significant digit is the first.
    ///
    /// ```text
    /// of 01: bits.push_le(3, 6)? leaves 01011
    /// ```
    #[inline(always)]
    #[tactic(auto, using(bit_slice::proofs::Parts::shown_length))]
    pub fn push_le(&mut self, n: u8, number: u64) -> Result<(), GrowError>
        requires { n ≤ 64 }
        ensures list { OnOk result (self.new.list ≡ self.old.list ++ number_bits number n) }
        ensures len { OnOk result (length self.new.list ≡ length self.old.list + n) }
        ensures row { OnOk result (Grew T.BITS self.old self.new (number_bits number n)) }
        ensures clean { OnOk result (IsClean T.BITS self.old → IsClean T.BITS self.new) }
        ensures refusal { RefusesOnly result (length self.old.list + n) self.old self.new }
        ensures capacity { self.old.capacity ≤ self.new.capacity }
        ensures no_memory { length self.old.list + n ≤ self.old.capacity
            → self.new.capacity ≡ self.old.capacity }
    {
        let more = n as usize;
        if more > MAX_BITS - self.len {
            return Err(GrowError::TooLong);
        }
        let (end, len) = (self.head + self.len, self.len + more);
        push_chunk_in_vec::<T, O>(&mut self.words, end, n, number)?;
        self.len = len;
        Ok(())
    }
}
