//! Readers and writers that fail, are interrupted, or are full.
use crate::lines::{FIRST_RUN, words_of};
use crate::{check, ok};
use bit_lines::start;
use std::io;
use std::io::{Read, Write};

// A reader that gives a number of bytes at each read, and fails when no read is left.
#[derive(Drop)]
struct Stuttering<'a> {
    bytes: &'a [u8],
    step: usize,
    reads: usize,
}

impl Read for Stuttering<'_> {
    fn read(&mut self, buffer: &mut [u8]) -> io::Result<usize> {
        if self.reads == 0 {
            return Err(io::Error::from(io::ErrorKind::Other));
        }
        self.reads -= 1;
        let count = self.step.min(buffer.len());
        self.bytes.read(&mut buffer[..count])
    }
}

// A writer that keeps what it takes, and fails when no write is left.
#[derive(Drop)]
struct Filling<'a> {
    kept: &'a mut Vec<u8>,
    writes: usize,
}

impl Write for Filling<'_> {
    fn write(&mut self, bytes: &[u8]) -> io::Result<usize> {
        if self.writes == 0 {
            return Err(io::Error::from(io::ErrorKind::Other));
        }
        self.writes -= 1;
        self.kept.write(bytes)
    }

    fn flush(&mut self) -> io::Result<()> {
        Ok(())
    }
}

const REPLIES: &[u8] = b"ok\nok\nrange\n1\n";

// What is replied to the first lines of the first run that end within a number of bytes.
fn replies_within(bytes: usize) -> &'static [u8] {
    match bytes {
        0..7 => b"",
        7..14 => b"ok\n",
        14..20 => b"ok\nok\n",
        20..24 => b"ok\nok\nrange\n",
        _ => REPLIES,
    }
}

#[test]
fn failing_reads(rt: HostRuntime) {
    let alloc = rt.alloc();
    let words = words_of(&rt, "u8 msb0");
    for reads in 0..30usize {
        let input = Stuttering {
            bytes: FIRST_RUN,
            step: 1,
            reads,
        };
        let mut output = Vec::new(alloc);
        let status = start(alloc, words.as_slice(), input, &mut output);
        let mut want = ok(&rt, Vec::from_slice(alloc, replies_within(reads)));
        if reads <= FIRST_RUN.len() {
            ok(&rt, want.extend_from_slice(b"read failed\n"));
        }
        check(&rt, output.as_slice() == want.as_slice());
        check(&rt, status == u8::from(reads <= FIRST_RUN.len()));
    }
}

#[test]
fn failing_writes(rt: HostRuntime) {
    let alloc = rt.alloc();
    let words = words_of(&rt, "u8 msb0");
    for writes in 0..8usize {
        let input = Stuttering {
            bytes: FIRST_RUN,
            step: 1,
            reads: 100,
        };
        let mut kept = Vec::new(alloc);
        let output = Filling {
            kept: &mut kept,
            writes,
        };
        let status = start(alloc, words.as_slice(), input, output);
        let want = match writes {
            0 => b"".as_slice(),
            1 => b"ok\n".as_slice(),
            2 => b"ok\nok\n".as_slice(),
            3 => b"ok\nok\nrange\n".as_slice(),
            _ => REPLIES,
        };
        check(&rt, kept.as_slice() == want);
        check(&rt, status == u8::from(writes < 4));
    }
}

#[test]
fn long_line(rt: HostRuntime) {
    // The 101st byte is read, and then the reader fails.
    let alloc = rt.alloc();
    let words = words_of(&rt, "u8 lsb0");
    for (reads, want, wanted) in [
        (100, b"read failed\n".as_slice(), 1),
        (101, b"line 1: bad command\n".as_slice(), 2),
    ] {
        let input = Stuttering {
            bytes: &[b'7'; 200],
            step: 1,
            reads,
        };
        let mut output = Vec::new(alloc);
        let status = start(alloc, words.as_slice(), input, &mut output);
        check(&rt, output.as_slice() == want);
        check(&rt, status == wanted);
    }
}

// A reader whose every other read is interrupted.
#[derive(Drop)]
struct Interrupted<'a> {
    bytes: &'a [u8],
    again: bool,
}

impl Read for Interrupted<'_> {
    fn read(&mut self, buffer: &mut [u8]) -> io::Result<usize> {
        self.again = !self.again;
        if self.again {
            return Err(io::Error::from(io::ErrorKind::Interrupted));
        }
        let count = buffer.len().min(3);
        self.bytes.read(&mut buffer[..count])
    }
}

#[test]
fn interrupted_reads(rt: HostRuntime) {
    let alloc = rt.alloc();
    let words = words_of(&rt, "u8 msb0");
    let input = Interrupted {
        bytes: FIRST_RUN,
        again: false,
    };
    let mut output = Vec::new(alloc);
    let status = start(alloc, words.as_slice(), input, &mut output);
    check(&rt, output.as_slice() == REPLIES);
    check(&rt, status == 0);
}

// A writer that counts its flushes, and how many bytes wait for one.
#[derive(Drop)]
struct Flushing<'a> {
    kept: &'a mut Vec<u8>,
    waiting: &'a mut usize,
    flushes: &'a mut usize,
}

impl Write for Flushing<'_> {
    fn write(&mut self, bytes: &[u8]) -> io::Result<usize> {
        *self.waiting = self.waiting.saturating_add(bytes.len());
        self.kept.write(bytes)
    }

    fn flush(&mut self) -> io::Result<()> {
        if *self.waiting > 0 {
            *self.flushes = self.flushes.saturating_add(1);
        }
        *self.waiting = 0;
        Ok(())
    }
}

// Each reply is flushed before the next line is read, and nothing waits at the end.
#[test]
fn flushed_writes(rt: HostRuntime) {
    let alloc = rt.alloc();
    let words = words_of(&rt, "u8 msb0");
    let input = Stuttering {
        bytes: FIRST_RUN,
        step: 1,
        reads: 100,
    };
    let mut kept = Vec::new(alloc);
    let mut waiting = 0;
    let mut flushes = 0;
    let output = Flushing {
        kept: &mut kept,
        waiting: &mut waiting,
        flushes: &mut flushes,
    };
    let status = start(alloc, words.as_slice(), input, output);
    check(&rt, kept.as_slice() == REPLIES);
    check(&rt, status == 0);
    check(&rt, waiting == 0);
    check(&rt, flushes == 4);
}

const GROWING: &[u8] =
    b"push 1\nresize 200 1\nsplitoff 120\nsplice 3 5 0 400\nwithin 0 100\nreserve 2000\n\
insert 0 0\ndrain 5 10\nlen\n";

// Where a request for memory is refused, what is written is a beginning of all replies, in whole lines, and then the
// refusal; whichever request `rt try --test --fail-alloc N` refuses.
#[test]
fn refused_memory(rt: HostRuntime) {
    let all = b"ok\nok\n80\nok\nok\nok\nok\n0\n614\n".as_slice();
    let alloc = rt.alloc();
    let mut words = Vec::new(alloc);
    for word in ["u8", "msb0"] {
        let Ok(word) = String::from_str(alloc, word) else {
            return;
        };
        if words.push(word).is_err() {
            return;
        }
    }
    let Ok(mut output) = Vec::with_capacity(alloc, 100) else {
        return;
    };
    let status = start(alloc, words.as_slice(), GROWING, &mut output);
    if status == 0 {
        check(&rt, output.as_slice() == all);
        return;
    }
    check(&rt, status == 1);
    let Some(front) = output.as_slice().strip_suffix(b"no memory\n".as_slice()) else {
        panic!(rt; "the refusal is told");
    };
    check(&rt, front.len() < all.len());
    check(&rt, all.starts_with(front));
    check(&rt, front.is_empty() || front.ends_with(b"\n".as_slice()));
}

#[test]
fn usage_to_a_full_writer(rt: HostRuntime) {
    let alloc = rt.alloc();
    let words = words_of(&rt, "u8");
    let mut kept = Vec::new(alloc);
    let output = Filling {
        kept: &mut kept,
        writes: 0,
    };
    check(&rt, start(alloc, words.as_slice(), FIRST_RUN, output) == 1);
    check(&rt, kept.is_empty());
}
