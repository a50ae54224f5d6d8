//! Bits through the buffer of a source, and whole bytes out of a writer, also where the reader or the writer fails.
ghost use Rattle.std.specs.Prelude.{◌≡◌, ◌≤◌, ◌++◌, IfSome, length};
ghost use Rattle.bit_streams.specs.Codes.{gamma};
ghost use Rattle.bit_streams.specs.Streamed.{Passes, Stays};

use super::{check, ok};
use bit_addressing::{BitOrder, Lsb0, Msb0};
use bit_slice::BitSlice;
use bit_streams::{BitBuffer, BitReader, BitWriter};
use std::io;
use std::io::{ErrorKind, Read, Write};
use std::process::Abort;

/// The code that comes first in the bits of a source is read, and the bits after it are left.
pub fn next_code<R: Read + Drop, O: BitOrder>(source: &mut BitBuffer<R, O>) -> Option<u64>
    ensures { IfSome result (λ x. Passes source.old.rest source.new.rest (gamma x)) }
{
    let mut reader = source.reader();
    let code = reader.read_gamma();
    let left = reader.remaining();
    match code {
        Ok(x) => {
            source.consume(source.held() - left);
            Some(x)
        }
        Err(_) => None,
    }
}

#[test]
fn what_is_held_is_read(rt: HostRuntime) {
    let bytes = [0b1010_0001u8, 0xff, 0b0110_0000];
    let mut source = BitBuffer::<_, Msb0>::new(rt.alloc(), bytes.as_slice());
    check(&rt, source.held() == 0);
    check(&rt, is_filled(&mut source, 16));
    let mut reader = source.reader();
    check(&rt, reader.read(3) == Some(5));
    check(&rt, reader.read(13) == Some(0x1ff));
    pass(&rt, &mut source, 16);
    check(&rt, next_code(&mut source) == Some(3));
    check(&rt, source.held() == 5);
    check(&rt, ends_before(&mut source, 6));
    check(&rt, source.held() == 5);
}

#[test]
fn the_lowest_bit_is_held_first(rt: HostRuntime) {
    let bytes = [0b1010_0001u8, 0x01];
    let mut source = BitBuffer::<_, Lsb0>::new(rt.alloc(), bytes.as_slice());
    check(&rt, is_filled(&mut source, 9));
    check(&rt, source.reader().read(9) == Some(0b1_0000_1011));
}

// Whether at least `n` bits are held once the source is filled.
fn is_filled<R: Read + Drop, O: BitOrder>(source: &mut BitBuffer<R, O>, n: usize) -> bool {
    match source.fill(n) {
        Ok(is_held) => is_held,
        Err(_) => false,
    }
}

// Whether the bytes end before `n` bits are held.
fn ends_before<R: Read + Drop, O: BitOrder>(source: &mut BitBuffer<R, O>, n: usize) -> bool {
    match source.fill(n) {
        Ok(is_held) => !is_held,
        Err(_) => false,
    }
}

// Passes bits that are held.
fn pass<R: Read + Drop, O: BitOrder>(rt: &impl Abort, source: &mut BitBuffer<R, O>, n: usize) {
    check(rt, n <= source.held());
    if n <= source.held() {
        source.consume(n);
    }
}

// Gives a byte, then an error, and then the next byte.
#[derive(Drop)]
struct Halting {
    turn: u8,
}

impl Read for Halting {
    fn read(&mut self, buf: &mut [u8]) -> io::Result<usize> {
        self.turn = self.turn.wrapping_add(1);
        if self.turn % 2 == 0 {
            return Err(io::Error::from(ErrorKind::TimedOut));
        }
        if buf.is_empty() {
            return Ok(0);
        }
        buf[0] = self.turn;
        Ok(1)
    }
}

#[test]
fn a_fill_that_fails_loses_nothing(rt: HostRuntime) {
    let mut source = BitBuffer::<_, Msb0>::new(rt.alloc(), Halting { turn: 0 });
    check(&rt, source.fill(24).is_err());
    check(&rt, source.held() == 8);
    check(&rt, source.fill(24).is_err());
    check(&rt, is_filled(&mut source, 24));
    check(&rt, source.reader().read(24) == Some(0x010305));
}

#[test]
fn whole_bytes_are_given(rt: HostRuntime) {
    let mut out = Vec::<u8>::new(rt.alloc());
    let mut writer = BitWriter::<u8, Msb0>::new(rt.alloc());
    ok(&rt, writer.write(3, 5));
    ok(&rt, writer.write(16, 0x1ff << 3));
    check(&rt, writer.drain_to(&mut out).is_ok());
    check(&rt, writer.len() == 3);
    ok(&rt, writer.align(8, true));
    check(&rt, writer.drain_to(&mut out).is_ok());
    check(&rt, writer.len() == 0);
    check(
        &rt,
        out.as_slice() == [0b1010_0001u8, 0xff, 0b0001_1111].as_slice(),
    );
}

// Takes a byte, then fails, and then takes the next.
#[derive(Drop)]
struct Refusing {
    turn: u8,
    taken: u64,
}

impl Write for Refusing {
    fn write(&mut self, buf: &[u8]) -> io::Result<usize> {
        self.turn = self.turn.wrapping_add(1);
        if self.turn % 2 == 0 {
            return Err(io::Error::from(ErrorKind::TimedOut));
        }
        if buf.is_empty() {
            return Ok(0);
        }
        self.taken = self.taken % (1 << 56) * 256 + buf[0] as u64;
        Ok(1)
    }

    fn flush(&mut self) -> io::Result<()> {
        Ok(())
    }
}

#[test]
fn a_drain_that_fails_loses_nothing(rt: HostRuntime) {
    let mut out = Refusing { turn: 0, taken: 0 };
    let mut writer = BitWriter::<u8, Msb0>::new(rt.alloc());
    ok(&rt, writer.write(28, 0x0102_030f));
    check(&rt, writer.drain_to(&mut out).is_err());
    check(&rt, writer.len() == 20);
    check(&rt, writer.drain_to(&mut out).is_err());
    check(&rt, writer.drain_to(&mut out).is_ok());
    check(&rt, writer.len() == 4);
    check(&rt, out.taken == 0x10_2030);
}

// Gives the bytes 1, 2, 3, .. 250 again and again, 1000 bytes at most by a call, and 40000 of them in all.
#[derive(Drop)]
struct Counting {
    last: u8,
    left: usize,
}

impl Read for Counting {
    fn read(&mut self, buf: &mut [u8]) -> io::Result<usize> {
        for k in 0..buf.len() {
            if k == 1000 || self.left == 0 {
                return Ok(k);
            }
            self.left -= 1;
            self.last = self.last % 250 + 1;
            buf[k] = self.last;
        }
        Ok(buf.len())
    }
}

// Fills the buffer, also where memory is refused at first: then what was held stays, and the same call goes on.
fn fill_again(rt: &impl Abort, source: &mut BitBuffer<Counting, Msb0>, n: usize) {
    let before = source.held();
    match source.fill(n) {
        Ok(is_held) => check(rt, is_held),
        Err(why) => {
            check(rt, why.kind() == ErrorKind::OutOfMemory);
            check(rt, source.held() >= before);
            check(rt, is_filled(source, n));
        }
    }
}

// Every request for memory may be refused: no bit is lost.
#[test]
fn a_fill_that_is_refused_loses_nothing(rt: HostRuntime) {
    let reader = Counting {
        last: 0,
        left: 40000,
    };
    let mut source = BitBuffer::<_, Msb0>::new(rt.alloc(), reader);
    fill_again(&rt, &mut source, 100);
    fill_again(&rt, &mut source, 100000);
    pass(&rt, &mut source, 8000);
    fill_again(&rt, &mut source, 300000);
    check(&rt, counts_on(&mut source, 312000));
}

// Whether `n` bits are held, those of the bytes from the 1001st on, and nothing after them.
fn counts_on(source: &mut BitBuffer<Counting, Msb0>, n: usize) -> bool {
    if !is_filled(source, n) {
        return false;
    }
    let mut reader = source.reader();
    let mut last = 0u64;
    for _ in 0..n / 8 {
        last = last % 250 + 1;
        if reader.read(8) != Some(last) {
            return false;
        }
    }
    reader.remaining() == 0
}

// Appends a number, also where memory is refused at first.
fn write_again(rt: &impl Abort, writer: &mut BitWriter<u8, Msb0>, x: u64) {
    if writer.write(24, x).is_err() {
        ok(rt, writer.write(24, x));
    }
}

// Drains the writer, also where memory is refused at first, to the writer or to `out`: then it keeps what `out` hasn't taken.
fn drain_again(rt: &impl Abort, writer: &mut BitWriter<u8, Msb0>, out: &mut Vec<u8>) {
    let (before, given) = (writer.len(), out.len());
    match writer.drain_to(out) {
        Ok(()) => {}
        Err(why) => {
            check(rt, why.kind() == ErrorKind::OutOfMemory);
            check(rt, writer.len() == before);
            check(rt, out.len() == given);
            check(rt, writer.drain_to(out).is_ok());
        }
    }
    check(rt, writer.len() < 8);
}

// Every request for memory may be refused: no bit is lost.
#[test]
fn a_drain_that_is_refused_loses_nothing(rt: HostRuntime) {
    let mut out = Vec::<u8>::new(rt.alloc());
    let mut writer = BitWriter::<u8, Msb0>::new(rt.alloc());
    ok(&rt, writer.write(4, 1));
    for k in 0..200u64 {
        write_again(&rt, &mut writer, k);
        if k % 7 == 0 {
            drain_again(&rt, &mut writer, &mut out);
        }
    }
    drain_again(&rt, &mut writer, &mut out);
    check(&rt, writer.len() == 4);
    assert!(rt; out.len() == 600);
    let mut reader = BitReader::new(BitSlice::<u8, Msb0>::from_slice(out.as_slice()));
    check(&rt, reader.read(4) == Some(1));
    for k in 0..199u64 {
        check(&rt, reader.read(24) == Some(k));
    }
    check(&rt, reader.remaining() == 20);
}
