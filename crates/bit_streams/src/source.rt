//! Bits out of the bytes that a reader gives.
ghost use Rattle.std.specs.Prelude.{◌≡◌, ◌+◌, ◌*◌, ◌^◌, ◌<◌, ◌≤◌, Err, IsOk, IfOk, IfSome, OnErr, OnOk, true, false, length};
ghost use Rattle.bit_addressing.specs.Row.{binary};
ghost use Rattle.bit_streams.specs.Streamed.{Passes, Stays, bits_left, held_after};
ghost use Rattle.bit_streams.specs.declared.source.SourceError.TheVariants as errors;

use crate::register::{joined, joined_parts, low_digits};
use crate::taken::Taken;
use bit_addressing::BitOrder;
use std::io;
use std::io::Read;
use std::marker::{Model, PhantomData};

/// Why no number was read out of a reader's bytes: no bit is lost, and the next call begins with the same ones.
#[derive(Drop, Debug)]
pub enum SourceError {
    /// The bytes end before the number does.
    Ended,
    /// The reader failed.
    Failed(io::Error),
}

/// Reads the bits of the bytes that a reader gives, each byte by an order: by `Msb0` its most significant bit first, by
/// `Lsb0` its least significant one.
///
/// A source by `new` takes only the bytes that a number needs, all by one call if the reader gives them; one by `buffered`
/// takes up to 24 bytes ahead. Both want a file or a socket wrapped in a `BufReader`. In contracts a source `s` is `s.rest`,
/// None where it isn't known which bytes the reader has left, and else Some of the bits that are left, `s.held`, how many of
/// them were taken from the reader, and `s.buffered`.
///
/// ```rust
/// use bit_addressing::Msb0;
/// use bit_streams::BitSource;
///
/// let bytes = [191_u8, 144];
/// let mut source = BitSource::<_, Msb0>::new(bytes.as_slice());
/// println!(&rt; "{:?}, {} bits of the byte held", source.read(3)?, source.held())?;
/// println!(&rt; "{:?}, then {:?}", source.read(13)?, source.read(1).is_err())?;
/// ```
///
/// ```text
/// 5, 5 bits of the byte held
/// 8080, then true
/// ```
#[derive(Drop)]
pub struct BitSource<R: Read, O: BitOrder> {
    inner: Taken<R>,
    // The bits that come before the bytes that were taken ahead, as a number of `count` digits, fewer than 64.
    pending: u64,
    count: u8,
    order: PhantomData<O>,
}

impl<R: Read, O: BitOrder> Model for BitSource<R, O> {
    ghost use Rattle.std.specs.Prelude.{◌+◌, ◌*◌};
    ghost use Rattle.bit_streams.specs.Streamed.{IsFilled, Sourced, sourced_code, bits_left};

    ghost Value = { Sourced };

    ghost coded = { sourced_code };

    ghost view = { λ s. record {
      rest = bits_left O.place s.count s.pending s.inner.left;
      held = s.count + 8 * s.inner.taken;
      buffered = s.inner.buffered;
    } };

    ghost invariant = { λ s. IsFilled s.count s.pending s.inner.taken s.inner.buffered };
}

// What `BitSource::read` does where `pending` of `count` digits comes first and the number has more: the number, and what
// comes first after it, as a number and how many digits it has.
#[inline(always)]
fn read_on<R: Read, O: BitOrder>(
    inner: &mut Taken<R>,
    pending: u64,
    count: u8,
    n: u8,
) -> (Result<u64, SourceError>, u64, u8)
    requires few { n ≤ 64 }
    requires need { count < n }
    requires small { pending < 2 ^ count }
    ensures digits { IfOk result.0 (λ x. Passes (bits_left O.place count pending inner.old.left)
        (bits_left O.place result.2 result.1 inner.new.left) (binary n x)) }
    ensures below { IfOk result.0 (λ x. x < 2 ^ n) }
    ensures kept { OnErr result.0 (Stays (bits_left O.place count pending inner.old.left)
        (bits_left O.place result.2 result.1 inner.new.left)) }
    ensures few { result.2 < 64 }
    ensures small { result.1 < 2 ^ result.2 }
    ensures exact { inner.old.buffered ≡ false → inner.old.taken ≡ 0 → inner.new.taken ≡ 0 }
    ensures held { inner.old.buffered ≡ false → inner.old.taken ≡ 0 → OnOk result.0 (result.2 ≡ held_after n count) }
    ensures ended { result.0 ≡ Err errors.Ended
        → IfSome (bits_left O.place count pending inner.old.left) (λ bits. length bits < n) }
    ensures called { n ≤ count + 8 * inner.old.taken → IsOk result.0 }
    ensures ahead { n ≤ count + 8 * inner.old.taken
        → OnOk result.0 (result.2 + 8 * inner.new.taken + n ≡ count + 8 * inner.old.taken) }
    ensures buffered { inner.new.buffered ≡ inner.old.buffered }
{
    let mut pending = pending;
    let mut count = count;
    for _ in 0..8u8 {
        let need = n - count;
        let (x, bytes) = match inner.next::<O>((need + 7) / 8) {
            Ok(next) => next,
            Err(why) => return (Err(SourceError::Failed(why)), pending, count),
        };
        if bytes == 0 {
            return (Err(SourceError::Ended), pending, count);
        }
        let bits = 8 * bytes;
        if need <= bits {
            let (number, rest) = joined_parts(pending, count, need, x, bits);
            return (Ok(number), rest, bits - need);
        }
        pending = joined(pending, count, bits, x);
        count += bits;
    }
    (Err(SourceError::Ended), pending, count)
}

impl<R: Read, O: BitOrder> BitSource<R, O> {
    /// A source at the first bit that the reader has left. It takes no byte before a number needs it.
    pub fn new(inner: R) -> Self
        ensures rest { result.rest ≡ bits_left O.place 0 0 (R.remaining inner) }
        ensures held { result.held ≡ 0 }
        ensures buffered { result.buffered ≡ false }
    {
        BitSource {
            inner: Taken::new(inner, false),
            pending: 0,
            count: 0,
            order: PhantomData,
        }
    }

    /// Like `new`, but a call of the reader asks for 24 bytes, so that most numbers are read without one.
    ///
    /// ```text
    /// let mut source = BitSource::<_, Msb0>::buffered(bytes.as_slice());
    /// source.read(3)?;       // takes 24 bytes, where there are as many
    /// source.held()          // 189
    /// ```
    pub fn buffered(inner: R) -> Self
        ensures rest { result.rest ≡ bits_left O.place 0 0 (R.remaining inner) }
        ensures held { result.held ≡ 0 }
        ensures buffered { result.buffered ≡ true }
    {
        BitSource {
            inner: Taken::new(inner, true),
            pending: 0,
            count: 0,
            order: PhantomData,
        }
    }

    /// The reader. Bits that were taken from it and not read are lost.
    pub fn into_inner(self) -> R
        ensures { self.held ≡ 0 → self.rest ≡ bits_left O.place 0 0 (R.remaining result) }
    {
        let BitSource {
            inner,
            pending: _,
            count: _,
            order: _,
        } = self;
        inner.into_inner()
    }

    /// Reads the number that the next `n` bits write in binary, the most significant digit first. After an error no bit is
    /// lost: the same call can be made again. Calls the reader, and so can fail, only if fewer than `n` bits are held.
    /// Requires that `n` is at most 64.
    #[inline(always)]
    pub fn read(&mut self, n: u8) -> Result<u64, SourceError>
        requires { n ≤ 64 }
        ensures digits { IfOk result (λ x. Passes self.old.rest self.new.rest (binary n x)) }
        ensures below { IfOk result (λ x. x < 2 ^ n) }
        ensures held { self.old.buffered ≡ false → OnOk result (self.new.held ≡ held_after n self.old.held) }
        ensures ahead { n ≤ self.old.held → OnOk result (self.new.held + n ≡ self.old.held) }
        ensures kept { OnErr result (Stays self.old.rest self.new.rest) }
        ensures ended { result ≡ Err errors.Ended → IfSome self.old.rest (λ bits. length bits < n) }
        ensures called { n ≤ self.old.held → IsOk result }
        ensures buffered { self.new.buffered ≡ self.old.buffered }
    {
        if n <= self.count {
            let left = self.count - n;
            let x = self.pending >> left;
            self.pending = low_digits(left, self.pending);
            self.count = left;
            return Ok(x);
        }
        if self.inner.count() >= 8 {
            let need = n - self.count;
            let block = self.inner.give_block::<O>();
            let (x, rest) = joined_parts(self.pending, self.count, need, block, 64);
            self.pending = rest;
            self.count = 64 - need;
            return Ok(x);
        }
        let (read, pending, count) = read_on::<R, O>(&mut self.inner, self.pending, self.count, n);
        self.pending = pending;
        self.count = count;
        read
    }

    /// The number of bits that were taken from the reader and not read yet.
    pub fn held(&self) -> u8
        ensures { result ≡ self.now.held }
    {
        self.count + 8 * self.inner.count()
    }
}
