//! How much room the vector has.
ghost use Rattle.std.specs.Prelude.{◌≡◌, ◌+◌, ◌-◌, ◌≤◌, ◌↔◌, length, max, Err, IfOk, OnOk, OnErr, IsOk};
ghost use Rattle.bit_addressing.specs.Row.{words_for};
ghost use Rattle.bit_addressing.specs.declared.length.TheConstants.{MAX_BITS};
ghost use Rattle.bit_containers.specs.BitVec.{IsKept, RefusesOnly, bits_in};

use crate::vec::BitVec;
use bit_addressing::{BitOrder, BitStore, GrowError, MAX_BITS, elts};
use std::alloc::{AllocError, Global};

impl<T: BitStore, O: BitOrder> BitVec<T, O> {
    /// The number of bits that the vector has room for without new memory: as many as the words in its memory have,
    /// or `usize::MAX` where that is less, minus the head.
    ///
    /// ```text
    /// of 0110: bits.capacity() % 8 == 0
    /// ```
    pub fn capacity(&self) -> usize
        ensures value { result ≡ self.now.capacity }
        ensures enough { length self.now.list ≤ result }
    {
        let all = self.words.capacity().saturating_mul(T::BITS as usize);
        all - self.head
    }

    // How many further words it takes for `more` further bits.
    fn words_to_add(&self, more: usize) -> Result<usize, GrowError>
        ensures words { IfOk result (λ n. n
            ≡ words_for T.BITS (self.now.head + (length self.now.list + more)) - length self.now.words) }
        ensures fits { IsOk result ↔ (length self.now.list + more ≤ MAX_BITS) }
        ensures refusal { OnErr result (result ≡ Err GrowError.TooLong) }
    {
        if more > MAX_BITS - self.len {
            return Err(GrowError::TooLong);
        }
        let wanted = elts::<T>(self.head + (self.len + more));
        Ok(wanted.saturating_sub(self.words.len()))
    }

    /// Makes room for `more` further bits, and for some beyond them where memory is taken. Words and list
    /// stay. Returns `TooLong` exactly where the length would pass `MAX_BITS`, and `OutOfMemory` only where
    /// it would pass the capacity. A refusal leaves the capacity too.
    ///
    /// ```text
    /// of 0110: bits.reserve(100)? leaves 0110
    /// ```
    pub fn reserve(&mut self, more: usize) -> Result<(), GrowError>
        ensures kept { IsKept self.old self.new }
        ensures room { OnOk result (length self.old.list + more ≤ self.new.capacity) }
        ensures fits { OnOk result (length self.old.list + more ≤ MAX_BITS) }
        ensures refusal { RefusesOnly result (length self.old.list + more) self.old self.new }
        ensures capacity { self.old.capacity ≤ self.new.capacity }
        ensures no_memory { length self.old.list + more ≤ self.old.capacity
            → self.new.capacity ≡ self.old.capacity }
        ensures refused { OnErr result (self.new.capacity ≡ self.old.capacity) }
    {
        let words = self.words_to_add(more)?;
        if words > self.words.capacity() - self.words.len() {
            self.words.reserve(words)?;
        }
        Ok(())
    }

    /// Like `reserve`, but where memory is taken it is for exactly the words that the bits take.
    ///
    /// ```text
    /// of 0110: bits.reserve_exact(100)? leaves 0110
    /// ```
    pub fn reserve_exact(&mut self, more: usize) -> Result<(), GrowError>
        ensures kept { IsKept self.old self.new }
        ensures room { OnOk result (length self.old.list + more ≤ self.new.capacity) }
        ensures fits { OnOk result (length self.old.list + more ≤ MAX_BITS) }
        ensures refusal { RefusesOnly result (length self.old.list + more) self.old self.new }
        ensures capacity { self.old.capacity ≤ self.new.capacity }
        ensures exact { OnOk result (self.new.capacity ≡ max self.old.capacity
            (bits_in T.BITS (words_for T.BITS (self.old.head + (length self.old.list + more))) self.old.head)) }
        ensures refused { OnErr result (self.new.capacity ≡ self.old.capacity) }
    {
        let words = self.words_to_add(more)?;
        self.words.reserve_exact(words)?;
        Ok(())
    }

    /// Gives back memory that no visible word takes, where the allocator can: all of it where there is no word. Words
    /// and list stay. It always succeeds.
    ///
    /// ```text
    /// of 0110: bits.shrink_to_fit()? leaves 0110
    /// ```
    pub fn shrink_to_fit(&mut self) -> Result<(), AllocError>
        ensures kept { IsKept self.old self.new }
        ensures succeeds { IsOk result }
        ensures capacity { self.new.capacity ≤ self.old.capacity }
        ensures frees { length self.old.words ≡ 0 → self.new.capacity ≡ 0 }
    {
        self.words.shrink_to_fit();
        Ok(())
    }

    /// The allocator that the vector was made with.
    ///
    /// ```text
    /// of 0110: BitVec::<u8, Lsb0>::new(bits.allocator()).len() == 0
    /// ```
    pub fn allocator(&self) -> Global {
        *self.words.allocator()
    }
}
