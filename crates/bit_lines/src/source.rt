//! Where bytes come from and go to.
ghost use Rattle.std.specs.Prelude.{◌≡◌, ℕ, List, IsOk, OnOk, Option, Some, None};
ghost use Rattle.std.specs.Io.KnownBytes.{ReadConsumes, Appends};
ghost use Rattle.std.specs.Io.{ReadsAtMost};

use std::io;
use std::io::{Read, Write};

/// A source of bytes. It may be known not to fail.
pub trait Source {
    // The bytes that are left, where they are known.
    ghost left: { Self → Option (List ℕ) };

    // That no read fails from here on.
    ghost is_sure: { Self → Type 0 };

    /// Fills the front of `buffer`, and returns how many bytes it wrote there: 0 at the end.
    fn give(&mut self, buffer: &mut [u8]) -> io::Result<usize>
        ensures bound { ReadsAtMost result buffer.new }
        ensures bytes { ReadConsumes (left self.old) (left self.new) result buffer.new }
        ensures sure { is_sure self.old → IsOk result × is_sure self.new };
}

/// A sink for bytes. It may be known not to fail.
pub trait Sink {
    // The bytes that it holds, where they are known.
    ghost held: { Self → Option (List ℕ) };

    // That no write fails from here on.
    ghost is_sure: { Self → Type 0 };

    /// Takes all these bytes, so that they can be seen outside.
    fn put(&mut self, bytes: &[u8]) -> io::Result<()>
        ensures held { OnOk result (Appends (held self.old) (held self.new) bytes.now) }
        ensures sure { is_sure self.old → IsOk result × is_sure self.new };
}

/// Any reader. It may fail.
#[derive(Drop)]
pub struct Reader<R> {
    pub reader: R,
}

impl<R: Read> Source for Reader<R> {
    ghost left = { λ s. R.remaining s.reader };

    ghost is_sure = { λ _. ⊥ };

    fn give(&mut self, buffer: &mut [u8]) -> io::Result<usize> {
        self.reader.read(buffer)
    }
}

/// Bytes in memory, which are read without failing.
impl Source for &[u8] {
    ghost left = { λ s. Some s.now };

    ghost is_sure = { λ _. Unit {0} };

    fn give(&mut self, buffer: &mut [u8]) -> io::Result<usize> {
        self.read(buffer)
    }
}

/// Any writer. It may fail.
#[derive(Drop)]
pub struct Writer<W> {
    pub writer: W,
}

impl<W: Write> Sink for Writer<W> {
    ghost held = { λ s. W.contents s.writer };

    ghost is_sure = { λ _. ⊥ };

    fn put(&mut self, bytes: &[u8]) -> io::Result<()> {
        self.writer.write_all(bytes)?;
        self.writer.flush()
    }
}

/// A sink that keeps no byte, and does not fail.
impl Sink for io::Sink {
    ghost held = { λ _. None };

    ghost is_sure = { λ _. Unit {0} };

    fn put(&mut self, bytes: &[u8]) -> io::Result<()> {
        let _ = bytes;
        Ok(())
    }
}
