//! The words of a writer, and the last digits, which wait in a register until there are 64 of them.
ghost use Rattle.std.specs.Prelude.{◌≡◌, ◌≢◌, ◌+◌, ◌*◌, ◌≤◌, ◌<◌, ◌++◌, ◌↔◌, [], Err, IfOk, OnOk, false, length, take, true, ◌%◌};
ghost use Rattle.bit_addressing.specs.Row.{binary, number_bits};
ghost use Rattle.bit_addressing.specs.declared.errors.GrowError.{GrowError};
ghost use Rattle.bit_addressing.specs.declared.length.TheConstants.{MAX_BITS};
ghost use Rattle.bit_containers.specs.BitVec.{IsClean};
ghost use Rattle.bit_streams.specs.Streams.{Refuses};

use crate::register::{filled, front_of, joined, low_digits};
use crate::words::Words;
use bit_addressing::{BitOrder, BitStore, GrowError, MAX_BITS};
use bit_containers::{BitList, BitVec};
use bit_slice::inner::reversed;
use std::alloc::Global;
use std::marker::Model;

// Appends digits to words that it owns, each number with its most significant digit first. In contracts `w` is `w.list`,
// what was written, and `w.capacity`, the number of bits that there is room for.
#[derive(Drop)]
pub(crate) struct Blocks<T: BitStore, O: BitOrder> {
    // What was written, but for the last bits.
    words: Words<T, O>,
    // The last bits as a number of `count` digits, fewer than 64.
    pending: u64,
    count: u8,
}

impl<T: BitStore, O: BitOrder> Model for Blocks<T, O> {
    ghost use Rattle.std.specs.Prelude.{◌++◌, length};
    ghost use Rattle.bit_addressing.specs.Row.{binary};
    ghost use Rattle.bit_streams.specs.Streams.{IsPending, Writing, writing_code};

    ghost Value = { Writing };

    ghost coded = { writing_code };

    ghost view = { λ w. record {
      list = w.words.list ++ binary w.count w.pending;
      capacity = w.words.capacity;
    } };

    ghost invariant = { λ w. IsPending (length w.words.list) w.count w.pending };
}

impl<T: BitStore, O: BitOrder> Blocks<T, O> {
    // A writer with no bit yet. Takes no memory.
    pub(crate) fn new(alloc: Global) -> Self
        ensures list { result.list ≡ [] }
        ensures capacity { result.capacity ≡ 0 }
    {
        Blocks {
            words: Words::new(alloc),
            pending: 0,
            count: 0,
        }
    }

    // A writer with no bit yet, and with room for `n` of them. Returns `TooLong` exactly where `n` passes `MAX_BITS`.
    pub(crate) fn with_capacity(alloc: Global, n: usize) -> Result<Self, GrowError>
        ensures list { IfOk result (λ w. w.list ≡ []) }
        ensures capacity { IfOk result (λ w. n ≤ w.capacity) }
        ensures too_long { (result ≡ Err GrowError.TooLong) ↔ (MAX_BITS < n) }
        ensures memory { result ≡ Err GrowError.OutOfMemory → 0 < n }
    {
        match BitVec::<T, O>::with_capacity(alloc, n) {
            Ok(bits) => Ok(Blocks {
                words: Words::of(bits.into_vec()),
                pending: 0,
                count: 0,
            }),
            Err(why) => Err(why),
        }
    }

    // A writer that appends to the bits of a vector, and keeps its words. Where the vector's head is not 0 its bits move.
    // Takes no memory.
    pub(crate) fn over(bits: BitVec<T, O>) -> Self
        ensures { result.list ≡ bits.list }
    {
        let mut bits = bits;
        bits.force_align();
        let len = bits.len();
        let count = (len % 64) as u8;
        let at = len - count as usize;
        let pending = bits.load_be_at(at, count);
        bits.truncate(at);
        Blocks {
            words: Words::of(bits.into_vec()),
            pending,
            count,
        }
    }

    // The allocator of the words.
    #[inline(always)]
    pub(crate) fn allocator(&self) -> Global {
        self.words.allocator()
    }

    // The number of bits written.
    #[inline(always)]
    pub(crate) fn len(&self) -> usize
        ensures value { result ≡ length self.now.list }
        ensures few { result ≤ MAX_BITS }
    {
        self.words.len() + self.count as usize
    }

    // The number of bits that wait in the register. A register that isn't full stays within `MAX_BITS`, since the
    // words are whole blocks.
    #[inline(always)]
    pub(crate) fn waits(&self) -> u8
        ensures value { result ≡ length self.now.list % 64 }
        ensures few { result < 64 }
        ensures room { length self.now.list + 63 ≤ MAX_BITS + result }
    {
        self.count
    }

    // Makes room for `n` more bits, so that they are not refused for memory. Changes nothing but perhaps the capacity.
    pub(crate) fn reserve(&mut self, n: usize) -> Result<(), GrowError>
        ensures list { self.new.list ≡ self.old.list }
        ensures room { OnOk result (length self.old.list + n ≤ self.new.capacity) }
        ensures few { OnOk result (length self.old.list + n ≤ MAX_BITS) }
        ensures refusal { Refuses result (length self.old.list + n) self.old self.new }
        ensures capacity { self.old.capacity ≤ self.new.capacity }
    {
        let len = self.len();
        if n > MAX_BITS - len {
            return Err(GrowError::TooLong);
        }
        match self.words.make_room(self.count as usize + n) {
            Ok(()) => {}
            Err(_) => return Err(GrowError::OutOfMemory),
        }
        Ok(())
    }

    // Appends the `n` lowest binary digits of a number, the most significant first. Requires that `n` is at most 64.
    #[inline(always)]
    pub(crate) fn write(&mut self, n: u8, x: u64) -> Result<(), GrowError>
        requires { n ≤ 64 }
        ensures list { OnOk result (self.new.list ≡ self.old.list ++ binary n x) }
        ensures len { OnOk result (length self.new.list ≡ length self.old.list + n) }
        ensures refusal { Refuses result (length self.old.list + n) self.old self.new }
        ensures capacity { self.old.capacity ≤ self.new.capacity }
    {
        let count = self.count + n;
        if count < 64 {
            self.pending = joined(self.pending, self.count, n, x);
            self.count = count;
            return Ok(());
        }
        // Up to here no test is needed: a register that isn't full stays within MAX_BITS, since the words are whole blocks.
        if self.words.is_full() {
            return Err(GrowError::TooLong);
        }
        let rest = count - 64;
        let block = filled(self.pending, self.count, x >> rest);
        match self.words.push(block) {
            Ok(()) => {
                self.pending = low_digits(rest, x);
                self.count = rest;
                Ok(())
            }
            Err(_) => Err(GrowError::OutOfMemory),
        }
    }

    // Appends digits that the register has room for, the least significant first: none of it is refused.
    #[inline(always)]
    pub(crate) fn join_le(&mut self, n: u8, x: u64)
        requires { length self.old.list % 64 + n < 64 }
        ensures list { self.new.list ≡ self.old.list ++ number_bits x n }
        ensures capacity { self.new.capacity ≡ self.old.capacity }
    {
        if n == 0 {
            return;
        }
        self.pending = joined(self.pending, self.count, n, reversed(n, x));
        self.count += n;
    }

    // Appends the 64 digits of a number to whole blocks, the least significant first.
    #[inline(always)]
    pub(crate) fn push_le(&mut self, x: u64) -> Result<(), GrowError>
        requires { length self.old.list % 64 ≡ 0 }
        ensures list { OnOk result (self.new.list ≡ self.old.list ++ number_bits x 64) }
        ensures refusal { Refuses result (length self.old.list + 64) self.old self.new }
        ensures capacity { self.old.capacity ≤ self.new.capacity }
    {
        if self.words.is_full() {
            return Err(GrowError::TooLong);
        }
        match self.words.push_le(x) {
            Ok(()) => {}
            Err(_) => return Err(GrowError::OutOfMemory),
        }
        Ok(())
    }

    // Keeps the first `n` bits, or all where there are no more. Takes no memory and gives none back.
    pub(crate) fn truncate(&mut self, n: usize)
        ensures list { self.new.list ≡ take n self.old.list }
        ensures capacity { self.new.capacity ≡ self.old.capacity }
    {
        let whole = self.words.len();
        if n >= whole + self.count as usize {
            return;
        }
        if n >= whole {
            let count = (n - whole) as u8;
            self.pending = front_of(self.pending, self.count, count);
            self.count = count;
            return;
        }
        let (pending, count) = self.words.cut(n);
        self.pending = pending;
        self.count = count;
    }

    // The vector of the bits that were written, from head 0 on, with each dead bit false. Refused only for memory.
    pub(crate) fn finish(self) -> Result<BitVec<T, O>, GrowError>
        ensures list { IfOk result (λ v. v.list ≡ self.list) }
        ensures head { IfOk result (λ v. v.head ≡ 0) }
        ensures clean { IfOk result (λ v. IsClean T.BITS v) }
        ensures not_long { result ≢ Err GrowError.TooLong }
        ensures memory { result ≡ Err GrowError.OutOfMemory → self.capacity < length self.list }
    {
        let mut bits = BitVec::from_vec(self.words.into_vec());
        match bits.push_be(self.count, self.pending) {
            Ok(()) => Ok(bits),
            Err(why) => Err(why),
        }
    }
}
