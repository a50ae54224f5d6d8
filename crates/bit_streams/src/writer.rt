//! The writer: bits, numbers and lists of bits, one after another.
ghost use Rattle.std.specs.Prelude.{◌≡◌, ◌≢◌, ◌+◌, ◌*◌, ◌≤◌, ◌<◌, ◌++◌, ◌↔◌, [], ◌∷◌, Err, IfOk, OnErr, OnOk, length, replicate, take, ◌-◌, ◌%◌};
ghost use Rattle.bit_addressing.specs.Row.{binary, number_bits};
ghost use Rattle.bit_addressing.specs.declared.errors.GrowError.{GrowError};
ghost use Rattle.bit_addressing.specs.declared.length.TheConstants.{MAX_BITS};
ghost use Rattle.bit_containers.specs.BitVec.{IsClean};
ghost use Rattle.bit_slice.specs.BitSlice.{list_of};
ghost use Rattle.bit_streams.specs.Streams.{Refuses};

use crate::blocks::Blocks;
use crate::register::{digit_of, filled_le, joined_le, rest_le, run_of};
use bit_addressing::{BitOrder, BitStore, GrowError, MAX_BITS};
use bit_containers::{BitList, BitVec};
use bit_slice::BitSlice;
use bit_slice::inner::reversed;
use std::alloc::Global;
use std::marker::Model;
use std::mem::replace;

/// Appends bits to words that it owns, and gives them back as a vector.
///
/// The last bits wait in registers until there are 64 of them, so words are written whole. Bits and numbers are refused
/// as `TooLong` exactly where the list would pass `MAX_BITS`, and as `OutOfMemory` only where it would pass the capacity;
/// what was written before stays. Codes, formats and fields are written in several steps, of which each may be refused:
/// `TooLong` too comes only where the list with all their bits would pass the limit, and what was written before stays. In
/// contracts a writer `w` is `w.list`, the bits that were written, and `w.capacity`, how many there is room for.
///
/// ```rust
/// use bit_addressing::Msb0;
/// use bit_streams::BitWriter;
///
/// let mut writer = BitWriter::<u8, Msb0>::new(rt.alloc());
/// writer.write(3, 5)?;
/// writer.write(13, 8080)?;
/// writer.write_gamma(3)?;
/// writer.align(8, false)?;
/// println!(&rt; "{} bits", writer.len())?;
/// println!(&rt; "in words {:?}", writer.finish()?.into_vec().as_slice())?;
/// ```
///
/// ```text
/// 24 bits
/// in words [191, 144, 96]
/// ```
#[derive(Drop)]
pub struct BitWriter<T: BitStore, O: BitOrder> {
    // What was written, but for the last digits where those came with the least significant first.
    blocks: Blocks<T, O>,
    // The last bits, as a number of `tails` digits whose first bit is the lowest. They and what waits in the blocks are
    // fewer than 64: so digits are turned round once for a block, and not once for each number.
    tail: u64,
    tails: u8,
}

impl<T: BitStore, O: BitOrder> Model for BitWriter<T, O> {
    ghost use Rattle.std.specs.Prelude.{◌++◌, length};
    ghost use Rattle.bit_addressing.specs.Row.{number_bits};
    ghost use Rattle.bit_streams.specs.Streams.{IsTail, Writing, writing_code};

    ghost Value = { Writing };

    ghost coded = { writing_code };

    ghost view = { λ w. record { list = w.blocks.list ++ number_bits w.tail w.tails; capacity = w.blocks.capacity } };

    ghost invariant = { λ w. IsTail (length w.blocks.list) w.tails w.tail };
}

// Appends the bits of a view by blocks.
fn written_over<T: BitStore, O: BitOrder, U: BitStore, P: BitOrder>(
    writer: BitWriter<T, O>,
    bits: BitSlice<'_, U, P>,
) -> (BitWriter<T, O>, Result<(), GrowError>)
    ensures list { OnOk result.1 (result.0.list ≡ writer.list ++ list_of bits.entry) }
    ensures refusal { Refuses result.1 (length writer.list + length (list_of bits.entry)) writer result.0 }
    ensures capacity { writer.capacity ≤ result.0.capacity }
{
    let mut writer = writer;
    let done = writer.write_blocks(bits);
    (writer, done)
}

// The writer with the first `n` bits. It takes the writer by value, so that a caller which goes back only where it is
// refused keeps the words and the registers in registers of its own.
#[cold]
#[inline(never)]
fn cut_back<T: BitStore, O: BitOrder>(writer: BitWriter<T, O>, n: usize) -> BitWriter<T, O>
    ensures list { result.list ≡ take n writer.list }
    ensures capacity { result.capacity ≡ writer.capacity }
{
    let mut writer = writer;
    writer.cut(n);
    writer
}

impl<T: BitStore, O: BitOrder> BitWriter<T, O> {
    /// A writer with no bit yet. Takes no memory.
    pub fn new(alloc: Global) -> Self
        ensures list { result.list ≡ [] }
        ensures capacity { result.capacity ≡ 0 }
    {
        BitWriter {
            blocks: Blocks::new(alloc),
            tail: 0,
            tails: 0,
        }
    }

    /// A writer with no bit yet, and with room for `n` of them. Returns `TooLong` exactly where `n` passes `MAX_BITS`.
    pub fn with_capacity(alloc: Global, n: usize) -> Result<Self, GrowError>
        ensures list { IfOk result (λ w. w.list ≡ []) }
        ensures capacity { IfOk result (λ w. n ≤ w.capacity) }
        ensures too_long { (result ≡ Err GrowError.TooLong) ↔ (MAX_BITS < n) }
        ensures memory { result ≡ Err GrowError.OutOfMemory → 0 < n }
    {
        match Blocks::with_capacity(alloc, n) {
            Ok(blocks) => Ok(BitWriter {
                blocks,
                tail: 0,
                tails: 0,
            }),
            Err(why) => Err(why),
        }
    }

    /// A writer that appends to the bits of a vector, and keeps its words. Where the vector's head is not 0 its bits move.
    /// Takes no memory.
    pub fn over(bits: BitVec<T, O>) -> Self
        ensures { result.list ≡ bits.list }
    {
        BitWriter {
            blocks: Blocks::over(bits),
            tail: 0,
            tails: 0,
        }
    }

    /// The number of bits that were written.
    #[inline(always)]
    pub fn len(&self) -> usize
        ensures value { result ≡ length self.now.list }
        ensures few { result ≤ MAX_BITS }
    {
        self.blocks.len() + self.tails as usize
    }

    /// Makes room for `n` more bits, so that they are not refused for memory. Changes nothing but perhaps the capacity.
    pub fn reserve(&mut self, n: usize) -> Result<(), GrowError>
        ensures list { self.new.list ≡ self.old.list }
        ensures room { OnOk result (length self.old.list + n ≤ self.new.capacity) }
        ensures few { OnOk result (length self.old.list + n ≤ MAX_BITS) }
        ensures refusal { Refuses result (length self.old.list + n) self.old self.new }
        ensures capacity { self.old.capacity ≤ self.new.capacity }
    {
        let len = self.len();
        if n > MAX_BITS - len {
            return Err(GrowError::TooLong);
        }
        self.blocks.reserve(self.tails as usize + n)
    }

    /// Appends a bit.
    #[inline(always)]
    pub fn write_bit(&mut self, bit: bool) -> Result<(), GrowError>
        ensures list { OnOk result (self.new.list ≡ self.old.list ++ bit ∷ []) }
        ensures len { OnOk result (length self.new.list ≡ length self.old.list + 1) }
        ensures refusal { Refuses result (length self.old.list + 1) self.old self.new }
        ensures capacity { self.old.capacity ≤ self.new.capacity }
    {
        if self.tails != 0 {
            return self.append_le(1, digit_of(bit));
        }
        self.write(1, digit_of(bit))
    }

    /// Appends the `n` lowest binary digits of a number, the most significant first. Requires that `n` is at most 64.
    ///
    /// ```text
    /// writer.write(3, 6)?;       // appends 110
    /// ```
    #[inline(always)]
    pub fn write(&mut self, n: u8, x: u64) -> Result<(), GrowError>
        requires { n ≤ 64 }
        ensures list { OnOk result (self.new.list ≡ self.old.list ++ binary n x) }
        ensures len { OnOk result (length self.new.list ≡ length self.old.list + n) }
        ensures refusal { Refuses result (length self.old.list + n) self.old self.new }
        ensures capacity { self.old.capacity ≤ self.new.capacity }
    {
        let (tail, tails) = (self.tail, self.tails);
        self.tail = 0;
        self.tails = 0;
        self.blocks.join_le(tails, tail);
        self.blocks.write(n, x)
    }

    // What `write_le` does: digits wait as they come, until they and those before them are 64.
    #[inline(always)]
    pub(crate) fn append_le(&mut self, n: u8, x: u64) -> Result<(), GrowError>
        requires { n ≤ 64 }
        ensures list { OnOk result (self.new.list ≡ self.old.list ++ number_bits x n) }
        ensures len { OnOk result (length self.new.list ≡ length self.old.list + n) }
        ensures refusal { Refuses result (length self.old.list + n) self.old self.new }
        ensures capacity { self.old.capacity ≤ self.new.capacity }
    {
        let waits = self.blocks.waits();
        let count = waits + self.tails + n;
        if count < 64 {
            self.tail = joined_le(self.tails, self.tail, n, x);
            self.tails += n;
            return Ok(());
        }
        if waits != 0 {
            return self.write(n, reversed(n, x));
        }
        let rest = count - 64;
        match self.blocks.push_le(filled_le(self.tails, self.tail, x)) {
            Ok(()) => {
                self.tail = rest_le(n, x, rest);
                self.tails = rest;
                Ok(())
            }
            Err(why) => Err(why),
        }
    }

    /// Appends the bits of a view, of words of any width and order.
    #[inline(always)]
    pub fn write_bits<U: BitStore, P: BitOrder>(
        &mut self,
        bits: BitSlice<'_, U, P>,
    ) -> Result<(), GrowError>
        ensures list { OnOk result (self.new.list ≡ self.old.list ++ list_of bits.entry) }
        ensures len { OnOk result (length self.new.list ≡ length self.old.list + length (list_of bits.entry)) }
        ensures refusal { Refuses result (length self.old.list + length (list_of bits.entry)) self.old self.new }
        ensures capacity { self.old.capacity ≤ self.new.capacity }
    {
        let len = bits.len();
        // Few bits are one number, which is refused as they are.
        if len <= 64 {
            return self.write(len as u8, bits.load_be());
        }
        let (writer, done) = written_over(self.moved_out(), bits);
        let _empty = replace(self, writer);
        done
    }

    // Appends the bits of a view by blocks.
    fn write_blocks<U: BitStore, P: BitOrder>(
        &mut self,
        bits: BitSlice<'_, U, P>,
    ) -> Result<(), GrowError>
        ensures list { OnOk result (self.new.list ≡ self.old.list ++ list_of bits.entry) }
        ensures refusal { Refuses result (length self.old.list + length (list_of bits.entry)) self.old self.new }
        ensures capacity { self.old.capacity ≤ self.new.capacity }
    {
        let len = bits.len();
        match self.reserve(len) {
            Ok(()) => {}
            Err(why) => return Err(why),
        }
        for i in 0..len / 64 {
            let block = bits.get_range(i * 64..i * 64 + 64).load_be();
            match self.write(64, block) {
                Ok(()) => {}
                Err(why) => return Err(why),
            }
        }
        let last = len - len % 64;
        match self.write((len % 64) as u8, bits.get_range(last..).load_be()) {
            Ok(()) => Ok(()),
            Err(why) => Err(why),
        }
    }

    // The writer itself: one with no bit stays. A call that is no part of its caller takes it by value, so that the words and
    // the registers need no place in memory where no such call is made.
    #[inline(always)]
    pub(crate) fn moved_out(&mut self) -> BitWriter<T, O>
        ensures { result ≡ self.old }
    {
        let empty = BitWriter::new(self.blocks.allocator());
        replace(self, empty)
    }

    /// Appends `bit` until the length is a multiple of `multiple`: nothing where it is one already. Requires that
    /// `multiple` is from 1 to 64.
    ///
    /// ```text
    /// writer.align(8, false)?;      // at whole bytes
    /// ```
    pub fn align(&mut self, multiple: u8, bit: bool) -> Result<(), GrowError>
        requires some { 0 < multiple }
        requires few { multiple ≤ 64 }
        ensures aligned { OnOk result (length self.new.list % multiple ≡ 0) }
        ensures list { OnOk result (self.new.list
            ≡ self.old.list ++ replicate ((multiple - length self.old.list % multiple) % multiple) bit) }
        ensures refusal { Refuses result
            (length self.old.list + (multiple - length self.old.list % multiple) % multiple) self.old self.new }
        ensures capacity { self.old.capacity ≤ self.new.capacity }
    {
        let over = self.len() % multiple as usize;
        if over == 0 {
            return Ok(());
        }
        let pad = multiple - over as u8;
        match self.write(pad, run_of(bit, pad)) {
            Ok(()) => Ok(()),
            Err(why) => Err(why),
        }
    }

    /// Keeps the first `n` bits, or all where there are no more. Takes no memory and gives none back. A call that writes
    /// several fields goes back by it where one of them is refused.
    ///
    /// ```text
    /// let before = writer.len();
    /// writer.write(3, kind)?;
    /// writer.truncate(before);      // as before
    /// ```
    #[inline(always)]
    pub fn truncate(&mut self, n: usize)
        ensures list { self.new.list ≡ take n self.old.list }
        ensures capacity { self.new.capacity ≡ self.old.capacity }
    {
        let writer = cut_back(self.moved_out(), n);
        let _empty = replace(self, writer);
    }

    // What `truncate` does, in place.
    fn cut(&mut self, n: usize)
        ensures list { self.new.list ≡ take n self.old.list }
        ensures capacity { self.new.capacity ≡ self.old.capacity }
    {
        if n >= self.len() {
            return;
        }
        let (tail, tails) = (self.tail, self.tails);
        self.tail = 0;
        self.tails = 0;
        self.blocks.join_le(tails, tail);
        self.blocks.truncate(n);
    }

    /// The vector of the bits that were written, from head 0 on, with each dead bit false. Refused only for memory, and
    /// then what was written is lost: `reserve(0)` before it makes the room that it takes.
    pub fn finish(self) -> Result<BitVec<T, O>, GrowError>
        ensures list { IfOk result (λ v. v.list ≡ self.list) }
        ensures head { IfOk result (λ v. v.head ≡ 0) }
        ensures clean { IfOk result (λ v. IsClean T.BITS v) }
        ensures not_long { result ≢ Err GrowError.TooLong }
        ensures memory { result ≡ Err GrowError.OutOfMemory → self.capacity < length self.list }
    {
        let mut blocks = self.blocks;
        blocks.join_le(self.tails, self.tail);
        blocks.finish()
    }
}
