//! Bytes that a reader gives, a few ahead of those that are read.
ghost use Rattle.std.specs.Prelude.{◌≡◌, ◌+◌, ◌*◌, ◌^◌, ◌<◌, ◌≤◌, IfOk, IsOk, OnErr, OnOk, false, length, take};
ghost use Rattle.std.specs.Io.KnownBytes.{Consumes, IsAtEnd, Keeps};
ghost use Rattle.bit_addressing.specs.Row.{binary};
ghost use Rattle.bit_streams.specs.Streamed.{Loses};

use bit_addressing::BitOrder;
use bit_rows::read_binary;
use std::io;
use std::io::Read;
use std::marker::Model;

// As many as there is room for: with 63 bits of a source's register, and no more, their bits are counted by a `u8`.
const ROOM: u8 = 24;

// A reader and the bytes that were taken from it ahead. In contracts it is `left`, the bytes that are left, where they are
// known, `taken`, how many of them were taken from the reader, and `buffered`, whether it takes more than is asked for.
#[derive(Drop)]
pub(crate) struct Taken<R: Read> {
    inner: R,
    // Those from `at` up to `end` are waiting.
    bytes: [u8; 24],
    at: u8,
    end: u8,
    buffered: bool,
}

impl<R: Read> Model for Taken<R> {
    ghost use Rattle.std.specs.Prelude.{◌-◌, slice_range};
    ghost use Rattle.std.specs.Io.KnownBytes.{prepend_known};
    ghost use Rattle.bit_streams.specs.Streamed.{IsWaiting, TakenBytes, taken_code};

    ghost Value = { TakenBytes };

    ghost coded = { taken_code };

    ghost view = { λ t. record {
      left = prepend_known (slice_range t.bytes t.at t.end) (R.remaining t.inner);
      taken = t.end - t.at;
      buffered = t.buffered;
    } };

    ghost invariant = { λ t. IsWaiting t.at t.end };
}

// Reads up to `limit` bytes to the front of a slice, by one call, and returns how many.
#[inline(always)]
fn read_into<R: Read>(inner: &mut R, bytes: &mut [u8], limit: u8) -> io::Result<u8>
    requires some { 0 < limit }
    requires room { limit ≤ length bytes.old }
    ensures taken { IfOk result (λ n. Consumes (R.remaining inner.old) (R.remaining inner.new) (take n bytes.new)) }
    ensures few { IfOk result (λ n. n ≤ limit) }
    ensures end { IfOk result (λ n. n ≡ 0 → IsAtEnd (R.remaining inner.old)) }
    ensures failed { OnErr result (Keeps (R.remaining inner.old) (R.remaining inner.new)) }
    ensures size { length bytes.new ≡ length bytes.old }
{
    match inner.read(&mut bytes[..limit as usize]) {
        Ok(n) => Ok(n as u8),
        Err(why) => Err(why),
    }
}

impl<R: Read> Taken<R> {
    pub(crate) fn new(inner: R, buffered: bool) -> Self
        ensures left { result.left ≡ R.remaining inner }
        ensures taken { result.taken ≡ 0 }
        ensures buffered { result.buffered ≡ buffered }
    {
        Taken {
            inner,
            bytes: [0; 24],
            at: 0,
            end: 0,
            buffered,
        }
    }

    // The reader. Bytes that were taken ahead are lost.
    pub(crate) fn into_inner(self) -> R
        ensures { self.taken ≡ 0 → self.left ≡ R.remaining result }
    {
        let Taken {
            inner,
            bytes: _,
            at: _,
            end: _,
            buffered: _,
        } = self;
        inner
    }

    // How many bytes were taken ahead.
    #[inline(always)]
    pub(crate) fn count(&self) -> u8
        ensures value { result ≡ self.now.taken }
        ensures few { result ≤ 24 }
    {
        self.end - self.at
    }

    // The next eight of the bytes that were taken ahead, as `give` gives them. Requires that there are as many.
    #[inline(always)]
    pub(crate) fn give_block<O: BitOrder>(&mut self) -> u64
        requires { 8 ≤ self.old.taken }
        ensures bits { Loses O.place self.old.left self.new.left (binary 64 result) }
        ensures taken { self.new.taken + 8 ≡ self.old.taken }
        ensures buffered { self.new.buffered ≡ self.old.buffered }
    {
        let x = read_binary::<u8, O>(&self.bytes, 8 * self.at as usize, 64);
        self.at += 8;
        x
    }

    // Takes up to `limit` bytes of the reader, by one call.
    #[inline(always)]
    fn refill(&mut self, limit: u8) -> io::Result<()>
        requires none { self.old.taken ≡ 0 }
        requires some { 0 < limit }
        requires few { limit ≤ 24 }
        ensures left { Keeps self.old.left self.new.left }
        ensures few { self.new.taken ≤ limit }
        ensures end { OnOk result (self.new.taken ≡ 0 → IsAtEnd self.old.left) }
        ensures failed { OnErr result (self.new.taken ≡ 0) }
        ensures buffered { self.new.buffered ≡ self.old.buffered }
    {
        match read_into(&mut self.inner, &mut self.bytes, limit) {
            Ok(n) => {
                self.at = 0;
                self.end = n;
                Ok(())
            }
            Err(why) => Err(why),
        }
    }

    // The next of the bytes that were taken ahead, at most eight: the number that their bits write by an order, the first
    // the most significant, and how many bytes they are.
    #[inline(always)]
    fn give<O: BitOrder>(&mut self) -> (u64, u8)
        ensures bits { Loses O.place self.old.left self.new.left (binary (8 * result.1) result.0) }
        ensures below { result.0 < 2 ^ (8 * result.1) }
        ensures few { result.1 ≤ 8 }
        ensures some { 0 < self.old.taken → 0 < result.1 }
        ensures taken { self.new.taken + result.1 ≡ self.old.taken }
        ensures all { self.old.taken ≤ 8 → self.new.taken ≡ 0 }
        ensures buffered { self.new.buffered ≡ self.old.buffered }
    {
        let n = (self.end - self.at).min(8);
        let x = read_binary::<u8, O>(&self.bytes, 8 * self.at as usize, 8 * n);
        self.at += n;
        (x, n)
    }

    // The next bytes as a number, and how many they are: at most `count`, or at most eight where more were taken ahead, and
    // none only at the end. Calls the reader where no byte was taken ahead, by one call.
    #[inline(always)]
    pub(crate) fn next<O: BitOrder>(&mut self, count: u8) -> io::Result<(u64, u8)>
        requires some { 0 < count }
        requires few { count ≤ 8 }
        ensures bits { IfOk result (λ r. Loses O.place self.old.left self.new.left (binary (8 * r.1) r.0)) }
        ensures below { IfOk result (λ r. r.0 < 2 ^ (8 * r.1)) }
        ensures few { IfOk result (λ r. r.1 ≤ 8) }
        ensures end { IfOk result (λ r. r.1 ≡ 0 → IsAtEnd self.old.left) }
        ensures failed { OnErr result (Keeps self.old.left self.new.left) }
        ensures exact { self.old.buffered ≡ false → self.old.taken ≡ 0 → self.new.taken ≡ 0 }
        ensures asked { self.old.buffered ≡ false → self.old.taken ≡ 0 → IfOk result (λ r. r.1 ≤ count) }
        ensures called { 0 < self.old.taken → IsOk result }
        ensures ahead { 0 < self.old.taken → IfOk result (λ r. self.new.taken + r.1 ≡ self.old.taken) }
        ensures some { 0 < self.old.taken → IfOk result (λ r. 0 < r.1) }
        ensures buffered { self.new.buffered ≡ self.old.buffered }
    {
        if self.count() == 0 {
            let limit = if self.buffered { ROOM } else { count };
            match self.refill(limit) {
                Ok(()) => {}
                Err(why) => return Err(why),
            }
        }
        Ok(self.give::<O>())
    }
}
