//! Bits of a reader's bytes, through a buffer that every call of `BitReader` reads.
ghost use Rattle.std.specs.Prelude.{◌≡◌, ◌+◌, ◌*◌, ◌<◌, ◌≤◌, ◌↔◌, [], Err, IfOk, IfSome, IsTrue, OnErr, OnOk, Ok, Some, drop, false, length, take, true};
ghost use Rattle.std.specs.Io.KnownBytes.{IsAtEnd};
ghost use Rattle.bit_streams.specs.Buffers.{bits_ahead, known_bits};
ghost use Rattle.bit_streams.specs.Streamed.{Passes, Stays};

use crate::reader::BitReader;
use bit_addressing::{BitOrder, BitStore, GrowError};
use bit_containers::{BitListMut, BitVec};
use bit_slice::BitSlice;
use std::alloc::Global;
use std::io;
use std::io::{ErrorKind, Read};
use std::marker::Model;

// The number of bytes that are asked for at a time.
const CHUNK: usize = 4096;

/// Bits of the bytes that a reader gives, through a buffer: `fill` takes bytes, `reader` lends the bits that are held to
/// the calls of `BitReader`, with its codes and fields, and `consume` passes those that were read.
///
/// Each byte is read by an order: by `Msb0` its most significant bit first, by `Lsb0` its least significant one. In
/// contracts a buffer `b` is `b.rest`, None where it isn't known which bytes the reader has left, and else Some of the bits
/// that are left, and `b.held`, the first of them, which it holds.
///
/// ```rust
/// use bit_addressing::Msb0;
/// use bit_streams::BitBuffer;
///
/// let bytes = [191_u8, 144, 96];
/// let mut buffer = BitBuffer::<_, Msb0>::new(rt.alloc(), bytes.as_slice());
/// println!(&rt; "16 bits held: {}", buffer.fill(16)?)?;
/// let mut reader = buffer.reader();
/// println!(&rt; "{:?}, {:?}, {:?}", reader.read(3), reader.read(13), reader.read_gamma())?;
/// let passed = reader.position();
/// buffer.consume(passed);
/// println!(&rt; "64 bits held: {}, but {}", buffer.fill(64)?, buffer.held())?;
/// ```
///
/// ```text
/// 16 bits held: true
/// Some(5), Some(8080), Ok(3)
/// 64 bits held: false, but 5
/// ```
#[derive(Drop)]
pub struct BitBuffer<R: Read, O: BitOrder> {
    inner: R,
    // The bits of whole bytes that were taken from the reader, of which the first `passed` were consumed.
    bits: BitVec<u8, O>,
    passed: usize,
}

impl<R: Read, O: BitOrder> Model for BitBuffer<R, O> {
    ghost use Rattle.std.specs.Prelude.{◌≤◌, drop, length};
    ghost use Rattle.bit_streams.specs.Buffers.{Buffering, bits_ahead, buffering_code};

    ghost Value = { Buffering };

    ghost coded = { buffering_code };

    ghost view = { λ s. record {
      rest = bits_ahead O.place (drop s.passed s.bits.list) (R.remaining s.inner);
      held = drop s.passed s.bits.list;
    } };

    ghost invariant = { λ s. s.passed ≤ length s.bits.list };
}

// The error where memory was refused.
pub(crate) fn no_memory() -> io::Error {
    io::Error::from(ErrorKind::OutOfMemory)
}

// Appends the bits of the bytes that one read gives, and returns the number of these bytes: 0 at the end of the bytes.
// Memory is asked for before, so no byte is lost.
fn take_chunk<R: Read, O: BitOrder>(inner: &mut R, bits: &mut BitVec<u8, O>) -> io::Result<usize>
    ensures front { take (length bits.old.list) bits.new.list ≡ bits.old.list }
    ensures taken { Passes (known_bits O.place (R.remaining inner.old)) (known_bits O.place (R.remaining inner.new))
        (drop (length bits.old.list) bits.new.list) }
    ensures count { IfOk result (λ n. length bits.new.list ≡ length bits.old.list + 8 * n) }
    ensures end { result ≡ Ok 0 → IsAtEnd (R.remaining inner.new) }
{
    let mut chunk = [0_u8; CHUNK];
    match bits.reserve(8 * CHUNK) {
        Ok(()) => {}
        Err(_) => return Err(no_memory()),
    }
    match inner.read(&mut chunk) {
        Err(why) => Err(why),
        Ok(n) => match bits.extend_from_bitslice(BitSlice::<u8, O>::from_slice(&chunk[..n])) {
            Ok(()) => Ok(n),
            Err(GrowError::TooLong) => Err(no_memory()),
            Err(GrowError::OutOfMemory) => Err(no_memory()),
        },
    }
}

// Removes the first `n` bits.
pub(crate) fn cut_front<T: BitStore, O: BitOrder>(bits: &mut BitVec<T, O>, n: usize)
    requires { n ≤ length bits.old.list }
    ensures { bits.new.list ≡ drop n bits.old.list }
{
    let left = bits.len() - n;
    bits.copy_within(n.., 0);
    bits.truncate(left);
}

impl<R: Read, O: BitOrder> BitBuffer<R, O> {
    /// A buffer that holds no bit yet, before the first one that the reader has left. Takes no memory.
    pub fn new(alloc: Global, inner: R) -> Self
        ensures rest { result.rest ≡ known_bits O.place (R.remaining inner) }
        ensures held { result.held ≡ [] }
    {
        BitBuffer {
            inner,
            bits: BitVec::new(alloc),
            passed: 0,
        }
    }

    /// The number of bits that are held.
    #[inline(always)]
    pub fn held(&self) -> usize
        ensures { result ≡ length self.now.held }
    {
        self.bits.len() - self.passed
    }

    /// A reader of the bits that are held, at the first of them. What it reads stays held until `consume`.
    #[inline(always)]
    pub fn reader(&self) -> BitReader<'_, u8, O>
        ensures rest { result.rest ≡ self.now.held }
        ensures position { result.position ≡ 0 }
    {
        BitReader::new(self.bits.get_range(self.passed..))
    }

    /// Passes the first `n` bits that are held. Requires that there are as many.
    #[inline(always)]
    pub fn consume(&mut self, n: usize)
        requires { n ≤ length self.old.held }
        ensures rest { Passes self.old.rest self.new.rest (take n self.old.held) }
        ensures held { self.new.held ≡ drop n self.old.held }
    {
        // Proof only: the length of the list.
        let _len = self.bits.len();
        self.passed += n;
    }

    /// Takes bytes from the reader until at least `n` bits are held, and returns whether they are: false only where the
    /// bytes have ended, and all bits that are left are held. Calls the reader only if fewer than `n` bits are held, and
    /// then takes memory. After an error no bit is lost: the same call can be made again.
    #[inline(always)]
    pub fn fill(&mut self, n: usize) -> io::Result<bool>
        ensures rest { Stays self.old.rest self.new.rest }
        ensures held { take (length self.old.held) self.new.held ≡ self.old.held }
        ensures enough { IfOk result (λ is_held. IsTrue is_held ↔ (n ≤ length self.new.held)) }
        ensures ended { result ≡ Ok false → IfSome self.new.rest (λ bits. bits ≡ self.new.held) }
        ensures called { n ≤ length self.old.held → (result ≡ Ok true) × (self.new ≡ self.old) }
    {
        if self.held() >= n {
            return Ok(true);
        }
        self.fill_on(n)
    }

    // What `fill` does where fewer bits are held. It is a function of its own, so that a call which finds them held makes
    // no error's room.
    #[inline(never)]
    #[tactic(auto, using(crate::proofs::Held::stays_on, crate::proofs::Buffers::front_on, crate::proofs::Held::stays_same))]
    fn fill_on(&mut self, n: usize) -> io::Result<bool>
        ensures rest { Stays self.old.rest self.new.rest }
        ensures held { take (length self.old.held) self.new.held ≡ self.old.held }
        ensures enough { IfOk result (λ is_held. IsTrue is_held ↔ (n ≤ length self.new.held)) }
        ensures ended { result ≡ Ok false → IfSome self.new.rest (λ bits. bits ≡ self.new.held) }
    {
        self.drop_passed();
        while self.held() < n {
            match self.take_more() {
                Ok(0) => return Ok(false),
                Ok(_) => {}
                Err(why) => return Err(why),
            }
        }
        Ok(true)
    }

    // Gives up the whole bytes that were consumed.
    fn drop_passed(&mut self)
        ensures { self.new ≡ self.old }
    {
        let whole = self.passed - self.passed % 8;
        if whole == 0 {
            return;
        }
        cut_front(&mut self.bits, whole);
        self.passed -= whole;
    }

    // Holds the bits of one read, and returns the number of its bytes.
    fn take_more(&mut self) -> io::Result<usize>
        ensures rest { Stays self.old.rest self.new.rest }
        ensures held { take (length self.old.held) self.new.held ≡ self.old.held }
        ensures count { IfOk result (λ n. length self.new.held ≡ length self.old.held + 8 * n) }
        ensures end { result ≡ Ok 0 → IfSome self.new.rest (λ bits. bits ≡ self.new.held) }
    {
        match take_chunk(&mut self.inner, &mut self.bits) {
            Ok(n) => Ok(n),
            Err(why) => return Err(why),
        }
    }

    /// The reader. Bits that are held are lost.
    pub fn into_inner(self) -> R
        ensures { self.held ≡ [] → self.rest ≡ known_bits O.place (R.remaining result) }
    {
        let BitBuffer {
            inner,
            bits: _,
            passed: _,
        } = self;
        inner
    }
}
