//! Whole bytes of a writer of bits, given to a writer of bytes.
ghost use Rattle.std.specs.Prelude.{◌≡◌, ◌-◌, ◌<◌, ◌≤◌, IsOk, OnOk, drop, length, take};
ghost use Rattle.std.specs.Io.KnownBytes.{Appends};
ghost use Rattle.bit_streams.specs.Buffers.{known_bits};
ghost use Rattle.bit_streams.specs.Streamed.{Gains};

use crate::buffer::{cut_front, no_memory};
use crate::given::give_some;
use crate::writer::BitWriter;
use bit_addressing::{BitOrder, BitStore, GrowError};
use std::io;
use std::io::Write;
use std::mem::replace;

// Gives bytes until all are taken or a call fails, and returns the number of those that were taken. Calls the writer, and
// so can fail, only if there is a byte.
#[tactic(auto, using(crate::proofs::Buffers::given_none))]
fn give_all<W: Write>(out: &mut W, bytes: &[u8]) -> (usize, io::Result<()>)
    ensures few { result.0 ≤ length bytes.now }
    ensures given { Appends (W.contents out.old) (W.contents out.new) (take result.0 bytes.now) }
    ensures all { OnOk result.1 (result.0 ≡ length bytes.now) }
    ensures called { length bytes.now ≡ 0 → IsOk result.1 }
{
    let mut taken = 0;
    while taken < bytes.len() {
        match give_some(out, &bytes[taken..]) {
            Ok(n) => taken += n,
            Err(why) => return (taken, Err(why)),
        }
    }
    (taken, Ok(()))
}

// What `drain_to` does with at least a byte of bits. It takes the writer by value, so that a caller which drains now and then
// keeps the words and the registers in registers of its own.
#[inline(never)]
fn drained<O: BitOrder, W: Write>(
    mut writer: BitWriter<u8, O>,
    out: &mut W,
) -> (BitWriter<u8, O>, io::Result<()>)
    ensures given { Gains (known_bits O.place (W.contents out.old)) (known_bits O.place (W.contents out.new))
        (take (length writer.list - length result.0.list) writer.list) }
    ensures rest { result.0.list ≡ drop (length writer.list - length result.0.list) writer.list }
    ensures shorter { length result.0.list ≤ length writer.list }
    ensures whole { OnOk result.1 (length result.0.list < 8) }
{
    let done = writer.drain_whole(out);
    (writer, done)
}

impl<O: BitOrder> BitWriter<u8, O> {
    /// Gives the whole bytes to `out`, and keeps the bits after them, fewer than 8. After an error it keeps all bits that
    /// `out` has not taken: the same call can be made again. Calls `out`, and so can fail, only if there is a whole byte,
    /// and then takes memory only if there is no room for the bits that wait in the registers. It does not flush `out`. Each
    /// call that gives bytes costs as much as many writes do: a writer is best drained when it holds some hundred numbers or
    /// more.
    ///
    /// ```text
    /// of 11 bits: writer.drain_to(&mut file)?      // gives a byte, and keeps 3 bits
    /// ```
    #[inline(always)]
    pub fn drain_to<W: Write>(&mut self, out: &mut W) -> io::Result<()>
        ensures given { Gains (known_bits O.place (W.contents out.old)) (known_bits O.place (W.contents out.new))
            (take (length self.old.list - length self.new.list) self.old.list) }
        ensures rest { self.new.list ≡ drop (length self.old.list - length self.new.list) self.old.list }
        ensures shorter { length self.new.list ≤ length self.old.list }
        ensures whole { OnOk result (length self.new.list < 8) }
        ensures called { length self.old.list < 8 → IsOk result }
    {
        if self.len() < 8 {
            return Ok(());
        }
        let (writer, done) = drained(self.moved_out(), out);
        let _empty = replace(self, writer);
        done
    }

    // What `drain_to` does where there is a whole byte. The writer is lent to it as one of its own, so that a caller which
    // drains now and then keeps the words and the registers in registers.
    #[inline(always)]
    fn drain_whole<W: Write>(&mut self, out: &mut W) -> io::Result<()>
        ensures given { Gains (known_bits O.place (W.contents out.old)) (known_bits O.place (W.contents out.new))
            (take (length self.old.list - length self.new.list) self.old.list) }
        ensures rest { self.new.list ≡ drop (length self.old.list - length self.new.list) self.old.list }
        ensures shorter { length self.new.list ≤ length self.old.list }
        ensures whole { OnOk result (length self.new.list < 8) }
    {
        match self.reserve(0) {
            Ok(()) => {}
            Err(_) => return Err(no_memory()),
        }
        match self.moved_out().finish() {
            Ok(bits) => {
                let mut bits = bits;
                let whole = bits.len() / 8;
                let (taken, done) = give_all(out, &bits.as_raw_slice()[..whole]);
                cut_front(&mut bits, 8 * taken);
                let _empty = replace(self, BitWriter::over(bits));
                done
            }
            Err(GrowError::TooLong) => Err(no_memory()),
            Err(GrowError::OutOfMemory) => Err(no_memory()),
        }
    }
}
