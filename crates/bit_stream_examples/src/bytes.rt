//! Bits out of the bytes of readers and into those of writers, also of such as fail.
ghost use Rattle.std.specs.Prelude.{◌≤◌};

use super::{check, ok};
use bit_addressing::{Lsb0, Msb0};
use bit_streams::{BitSink, BitSource, SourceError};
use std::io;
use std::io::{ErrorKind, Read, Write};
use std::process::Abort;

#[test]
fn bytes_in_turn(rt: HostRuntime) {
    let bytes = [
        0b1010_0001u8,
        0xff,
        0x00,
        0x12,
        0x34,
        0x56,
        0x78,
        0x9a,
        0xbc,
        0xde,
    ];
    let mut source = BitSource::<_, Msb0>::new(bytes.as_slice());
    check(&rt, read_is(&mut source, 3, 5));
    check(&rt, read_is(&mut source, 13, 0x1ff));
    check(&rt, read_is(&mut source, 64, 0x0012_3456_789a_bcde));
    match source.read(1) {
        Err(SourceError::Ended) => {}
        _ => check(&rt, false),
    }
    check(&rt, read_is(&mut source, 0, 0));
}

fn read_is<R: Read + Drop>(source: &mut BitSource<R, Msb0>, n: u8, x: u64) -> bool
    requires { n ≤ 64 }
{
    match source.read(n) {
        Ok(read) => read == x,
        Err(_) => false,
    }
}

#[test]
fn the_lowest_bit_first(rt: HostRuntime) {
    let bytes = [0b1010_0001u8, 0x01];
    let mut source = BitSource::<_, Lsb0>::new(bytes.as_slice());
    match source.read(9) {
        Ok(read) => check(&rt, read == 0b1_0000_1011),
        Err(_) => check(&rt, false),
    }
    match source.read(8) {
        Err(SourceError::Ended) => {}
        _ => check(&rt, false),
    }
    match source.read(7) {
        Ok(read) => check(&rt, read == 0),
        Err(_) => check(&rt, false),
    }
}

// Gives a byte, then an error, and then a byte again.
#[derive(Drop)]
struct Halting {
    turn: u8,
}

impl Read for Halting {
    fn read(&mut self, buf: &mut [u8]) -> io::Result<usize> {
        self.turn = self.turn.wrapping_add(1);
        if self.turn % 2 == 0 {
            return Err(io::Error::from(ErrorKind::TimedOut));
        }
        if buf.is_empty() {
            return Ok(0);
        }
        buf[0] = 0xc3;
        Ok(1)
    }
}

#[test]
fn a_read_that_fails_loses_nothing(rt: HostRuntime) {
    let mut source = BitSource::<_, Msb0>::new(Halting { turn: 0 });
    for _ in 0..3 {
        match source.read(32) {
            Err(SourceError::Failed(_)) => {}
            _ => check(&rt, false),
        }
    }
    check(&rt, source.held() == 24);
    check(&rt, read_is(&mut source, 32, 0xc3c3_c3c3));
}

#[test]
fn a_buffered_read_that_fails_loses_nothing(rt: HostRuntime) {
    let mut source = BitSource::<_, Msb0>::buffered(Halting { turn: 0 });
    for _ in 0..3 {
        match source.read(32) {
            Err(SourceError::Failed(_)) => {}
            _ => check(&rt, false),
        }
    }
    check(&rt, read_is(&mut source, 32, 0xc3c3_c3c3));
    check(&rt, source.held() == 0);
}

// Gives the bytes 1, 2, 3, .. up to 40, at most `each` of them a call.
#[derive(Drop)]
struct Slow {
    last: u8,
    each: usize,
}

impl Read for Slow {
    fn read(&mut self, buf: &mut [u8]) -> io::Result<usize> {
        for k in 0..buf.len() {
            if k == self.each || self.last >= 40 {
                return Ok(k);
            }
            self.last += 1;
            buf[k] = self.last;
        }
        Ok(buf.len())
    }
}

fn slow_bytes_in_turn(rt: &impl Abort, mut source: BitSource<Slow, Msb0>) {
    check(rt, read_is(&mut source, 24, 0x0001_0203));
    check(rt, read_is(&mut source, 4, 0));
    check(rt, read_is(&mut source, 64, 0x4050_6070_8090_a0b0));
    check(rt, read_is(&mut source, 4, 0xc));
}

#[test]
fn a_few_bytes_at_a_time(rt: HostRuntime) {
    for each in 1..6 {
        slow_bytes_in_turn(&rt, BitSource::new(Slow { last: 0, each }));
        slow_bytes_in_turn(&rt, BitSource::buffered(Slow { last: 0, each }));
    }
}

#[test]
fn a_source_reads_ahead(rt: HostRuntime) {
    let mut source = BitSource::<_, Msb0>::buffered(Slow { last: 0, each: 100 });
    check(&rt, read_is(&mut source, 8, 1));
    check(&rt, source.held() == 184);
    for k in 2..41 {
        check(&rt, read_is(&mut source, 8, k));
    }
    match source.read(1) {
        Err(SourceError::Ended) => {}
        _ => check(&rt, false),
    }
}

#[test]
fn bytes_are_written(rt: HostRuntime) {
    let mut sink = BitSink::<_, Msb0>::new(Vec::<u8>::new(rt.alloc()));
    io_ok(&rt, sink.write(3, 5));
    io_ok(&rt, sink.write(13, 0x1ff));
    io_ok(&rt, sink.write(64, 0x0012_3456_789a_bcde));
    io_ok(&rt, sink.write(5, 0x1f));
    io_ok(&rt, sink.finish());
    check(&rt, sink.held() == 0);
    let bytes = sink.into_inner();
    let expected = [
        0b1010_0001u8,
        0xff,
        0x00,
        0x12,
        0x34,
        0x56,
        0x78,
        0x9a,
        0xbc,
        0xde,
        0xf8,
    ];
    check(&rt, bytes.as_slice() == expected.as_slice());
}

fn io_ok(rt: &impl Abort, outcome: io::Result<()>) {
    check(rt, outcome.is_ok());
}

// Takes a byte, then fails, and then takes one again.
#[derive(Drop)]
struct Refusing {
    turn: u8,
    last: u8,
}

impl Write for Refusing {
    fn write(&mut self, buf: &[u8]) -> io::Result<usize> {
        self.turn = self.turn.wrapping_add(1);
        if self.turn % 2 == 0 {
            return Err(io::Error::from(ErrorKind::TimedOut));
        }
        if buf.is_empty() {
            return Ok(0);
        }
        self.last = buf[0];
        Ok(1)
    }

    fn flush(&mut self) -> io::Result<()> {
        Ok(())
    }
}

#[test]
fn a_write_that_fails_loses_nothing(rt: HostRuntime) {
    let mut sink = BitSink::<_, Msb0>::new(Refusing { turn: 0, last: 0 });
    io_ok(&rt, sink.write(24, 0x010203));
    check(&rt, sink.write(8, 4).is_err());
    check(&rt, sink.held() == 16);
    check(&rt, sink.write(8, 4).is_err());
    io_ok(&rt, sink.write(8, 4));
    check(&rt, sink.held() == 8);
    check(&rt, sink.finish().is_err());
    io_ok(&rt, sink.finish());
    check(&rt, sink.held() == 0);
}

#[test]
fn a_buffered_write_that_fails_loses_nothing(rt: HostRuntime) {
    let mut sink = BitSink::<_, Msb0>::buffered(Refusing { turn: 0, last: 0 });
    io_ok(&rt, sink.write(24, 0x010203));
    io_ok(&rt, sink.write(40, 0x0405060708));
    check(&rt, sink.held() == 64);
    check(&rt, sink.write(8, 9).is_err());
    check(&rt, sink.held() == 56);
    io_ok(&rt, sink.write(8, 9));
    check(&rt, sink.held() == 64);
}

// Takes at most `each` bytes a call, and keeps the last eight as a number.
#[derive(Drop)]
struct Narrow {
    each: usize,
    last: u64,
}

impl Write for Narrow {
    fn write(&mut self, buf: &[u8]) -> io::Result<usize> {
        for k in 0..buf.len() {
            if k == self.each {
                return Ok(k);
            }
            self.last = self.last << 8 | u64::from(buf[k]);
        }
        Ok(buf.len())
    }

    fn flush(&mut self) -> io::Result<()> {
        Ok(())
    }
}

fn slow_bytes_are_written(rt: &impl Abort, mut sink: BitSink<Narrow, Msb0>) {
    io_ok(rt, sink.write(60, 0x123_4567_89ab_cdef));
    io_ok(rt, sink.write(28, 0x0fed_cba9));
    io_ok(rt, sink.write(3, 5));
    io_ok(rt, sink.finish());
    check(rt, sink.into_inner().last == 0x9abc_deff_edcb_a9a0);
}

#[test]
fn a_writer_that_takes_a_few_bytes(rt: HostRuntime) {
    for each in 1..6 {
        slow_bytes_are_written(&rt, BitSink::new(Narrow { each, last: 0 }));
        slow_bytes_are_written(&rt, BitSink::buffered(Narrow { each, last: 0 }));
    }
}
