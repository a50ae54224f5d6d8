//! Bits into the bytes that a writer takes.
ghost use Rattle.std.specs.Prelude.{◌≡◌, ◌+◌, ◌-◌, ◌*◌, ◌/◌, ◌%◌, ◌^◌, ◌<◌, ◌≤◌, IfOk, IsOk, OnErr, OnOk, true, false, replicate};
ghost use Rattle.bit_addressing.specs.Row.{binary};
ghost use Rattle.std.specs.Io.KnownBytes.{Keeps};
ghost use Rattle.bit_streams.specs.Streamed.{Adds, Gains, MayFill, Stays, bits_made};

use crate::given::give_some;
use crate::register::{bytes_of, joined};
use bit_addressing::BitOrder;
use std::io;
use std::io::Write;
use std::marker::{Model, PhantomData};

/// Writes bits as bytes to a writer, each byte by an order: by `Msb0` its most significant bit first, by `Lsb0` its least
/// significant one.
///
/// By `new`, whole bytes go to the writer at the next call that writes, all by one call if the writer takes them; by
/// `buffered`, once there are up to eight of them. Both want a file or a socket wrapped in a `BufWriter`. A call that fails
/// keeps all bits that were written before and adds none. In contracts a sink `s` is `s.list`, None where it isn't known
/// which bytes the writer holds, and else Some of the bits that were written, `s.held`, how many of them the writer has not
/// taken yet, and `s.buffered`.
///
/// ```rust
/// use bit_addressing::Msb0;
/// use bit_streams::BitSink;
///
/// let mut sink = BitSink::<_, Msb0>::new(Vec::<u8>::new(rt.alloc()));
/// sink.write(3, 5)?;
/// sink.write(14, 8080)?;
/// sink.finish()?;
/// println!(&rt; "{:?}", sink.into_inner().as_slice())?;
/// ```
///
/// ```text
/// [175, 200, 0]
/// ```
#[derive(Drop)]
pub struct BitSink<W: Write, O: BitOrder> {
    inner: W,
    // The bits that the writer has not taken, as a number of `held` digits.
    pending: u128,
    held: u8,
    // Whether whole bytes wait for more of them.
    buffered: bool,
    order: PhantomData<O>,
}

impl<W: Write, O: BitOrder> Model for BitSink<W, O> {
    ghost use Rattle.bit_streams.specs.Streamed.{IsHeldBack, Sunk, sunk_code, bits_made};

    ghost Value = { Sunk };

    ghost coded = { sunk_code };

    ghost view = { λ s. record { list = bits_made O.place s.held s.pending (W.contents s.inner); held = s.held; buffered = s.buffered } };

    ghost invariant = { λ s. IsHeldBack s.held s.pending };
}

// Gives the first of the `count` bytes that show a number, by one call, and returns how many the writer took.
#[inline(always)]
fn give_number<W: Write, O: BitOrder>(inner: &mut W, count: u8, number: u64) -> io::Result<u8>
    requires some { 0 < count }
    requires few { count ≤ 8 }
    requires small { number < 2 ^ (8 * count) }
    ensures taken { IfOk result (λ n. 0 < n) }
    ensures within { IfOk result (λ n. n ≤ count) }
    ensures ok { IfOk result (λ n. Adds O.place (W.contents inner.old) (W.contents inner.new)
        (binary (8 * n) (number / 2 ^ (8 * count - 8 * n)))) }
    ensures failed { OnErr result (Keeps (W.contents inner.old) (W.contents inner.new)) }
{
    let bytes = bytes_of::<O>(number << (64 - 8 * count));
    match give_some(inner, &bytes[..count as usize]) {
        Ok(taken) => Ok(taken as u8),
        Err(why) => Err(why),
    }
}

// `pending` of `held` digits with the `n` lowest digits of `x` after them.
#[inline(always)]
fn held_with(pending: u128, held: u8, n: u8, x: u64) -> u128
    requires few { n ≤ 64 }
    requires room { held + n < 72 }
    requires small { pending < 2 ^ held }
    ensures { result ≡ pending * 2 ^ n + x % 2 ^ n }
{
    // Mostly by one word, which takes fewer steps.
    if held + n < 64 {
        return joined(pending as u64, held, n, x) as u128;
    }
    (pending << n) + (x as u128) % (1 << n)
}

impl<W: Write, O: BitOrder> BitSink<W, O> {
    /// A sink that goes on after the bytes that the writer holds.
    pub fn new(inner: W) -> Self
        ensures list { result.list ≡ bits_made O.place 0 0 (W.contents inner) }
        ensures held { result.held ≡ 0 }
        ensures buffered { result.buffered ≡ false }
    {
        BitSink {
            inner,
            pending: 0,
            held: 0,
            buffered: false,
            order: PhantomData,
        }
    }

    /// Like `new`, but whole bytes are held back as long as they and the next number have at most 64 bits: so the writer is
    /// called once for seven bytes or eight, where they are many.
    ///
    /// ```text
    /// let mut sink = BitSink::<_, Msb0>::buffered(file);
    /// sink.write(20, 1)?;      // 20 bits are held, and the file isn't called
    /// ```
    pub fn buffered(inner: W) -> Self
        ensures list { result.list ≡ bits_made O.place 0 0 (W.contents inner) }
        ensures held { result.held ≡ 0 }
        ensures buffered { result.buffered ≡ true }
    {
        BitSink {
            inner,
            pending: 0,
            held: 0,
            buffered: true,
            order: PhantomData,
        }
    }

    /// The writer. After a `finish` that did not fail it holds all bits that were written; bits that it has not taken are
    /// lost.
    pub fn into_inner(self) -> W
        ensures { self.held ≡ 0 → self.list ≡ bits_made O.place 0 0 (W.contents result) }
    {
        let BitSink {
            inner,
            pending: _,
            held: _,
            buffered: _,
            order: _,
        } = self;
        inner
    }

    /// The number of bits that the writer has not taken yet.
    pub fn held(&self) -> u8
        ensures { result ≡ self.now.held }
    {
        self.held
    }

    // Gives the writer the whole bytes that are held, by one call: it takes at least one of them.
    #[inline(always)]
    fn push_some(&mut self) -> io::Result<()>
        requires { 8 ≤ self.old.held }
        ensures list { Stays self.old.list self.new.list }
        ensures fewer { OnOk result (self.new.held + 8 ≤ self.old.held) }
        ensures whole { self.new.held % 8 ≡ self.old.held % 8 }
        ensures as_before { OnErr result (self.new.held ≡ self.old.held) }
        ensures buffered { self.new.buffered ≡ self.old.buffered }
    {
        let rest = self.held % 8;
        let number = (self.pending >> rest) as u64;
        match give_number::<W, O>(&mut self.inner, self.held / 8, number) {
            Ok(taken) => {
                self.held -= 8 * taken;
                self.pending %= 1 << self.held;
                Ok(())
            }
            Err(why) => Err(why),
        }
    }

    // Gives the writer all whole bytes that are held.
    #[inline(always)]
    fn push_bytes(&mut self) -> io::Result<()>
        ensures list { Stays self.old.list self.new.list }
        ensures held { OnOk result (self.new.held < 8) }
        ensures whole { self.new.held % 8 ≡ self.old.held % 8 }
        ensures none { self.old.held < 8 → IsOk result }
        ensures buffered { self.new.buffered ≡ self.old.buffered }
    {
        for _ in 0..self.held() / 8 {
            if self.held() < 8 {
                return Ok(());
            }
            match self.push_some() {
                Ok(()) => {}
                Err(why) => return Err(why),
            }
        }
        Ok(())
    }

    // Holds the `n` lowest digits of a number.
    #[inline(always)]
    fn hold(&mut self, n: u8, x: u64)
        requires few { n ≤ 64 }
        requires room { self.old.held + n < 72 }
        ensures list { Gains self.old.list self.new.list (binary n x) }
        ensures held { self.new.held ≡ self.old.held + n }
        ensures buffered { self.new.buffered ≡ self.old.buffered }
    {
        self.pending = held_with(self.pending, self.held, n, x);
        self.held += n;
    }

    /// Writes the `n` lowest binary digits of a number, the most significant first. After an error nothing is lost of what
    /// was written before, and nothing of this number is written. Calls the writer, and so can fail, only if a whole byte
    /// is held, and by `buffered` only if these bits and the held ones are more than 64. Requires that `n` is at most 64.
    #[inline(always)]
    pub fn write(&mut self, n: u8, x: u64) -> io::Result<()>
        requires { n ≤ 64 }
        ensures list { OnOk result (Gains self.old.list self.new.list (binary n x)) }
        ensures held { self.old.buffered ≡ false → OnOk result (self.new.held ≡ self.old.held % 8 + n) }
        ensures waits { self.old.buffered ≡ true → self.old.held + n ≤ 64
            → OnOk result (self.new.held ≡ self.old.held + n) }
        ensures kept { OnErr result (Stays self.old.list self.new.list) }
        ensures whole { OnErr result (self.new.held % 8 ≡ self.old.held % 8) }
        ensures called { self.old.held < 8 → IsOk result }
        ensures called_late { self.old.buffered ≡ true → self.old.held + n ≤ 64 → IsOk result }
        ensures buffered { self.new.buffered ≡ self.old.buffered }
    {
        if self.held < 8 || self.buffered && self.held + n <= 64 {
            self.hold(n, x);
            return Ok(());
        }
        self.write_on(n, x)
    }

    // What `write` does where the writer takes whole bytes first. All that is needed for that alone is in a function of its
    // own: a result of io takes many steps to be made.
    #[inline(always)]
    fn write_on(&mut self, n: u8, x: u64) -> io::Result<()>
        requires { n ≤ 64 }
        ensures list { OnOk result (Gains self.old.list self.new.list (binary n x)) }
        ensures held { OnOk result (self.new.held ≡ self.old.held % 8 + n) }
        ensures kept { OnErr result (Stays self.old.list self.new.list) }
        ensures whole { OnErr result (self.new.held % 8 ≡ self.old.held % 8) }
        ensures called { self.old.held < 8 → IsOk result }
        ensures buffered { self.new.buffered ≡ self.old.buffered }
    {
        match self.push_bytes() {
            Ok(()) => {
                self.hold(n, x);
                Ok(())
            }
            Err(why) => Err(why),
        }
    }

    /// Fills the last byte up with zeros, gives the writer all bytes, and flushes it. After an error the bits that were
    /// written are kept, with or without those zeros, and the same call can be made again.
    pub fn finish(&mut self) -> io::Result<()>
        ensures list { OnOk result (Gains self.old.list self.new.list (replicate ((8 - self.old.held % 8) % 8) false)) }
        ensures done { OnOk result (self.new.held ≡ 0) }
        ensures kept { OnErr result (MayFill self.old self.new (replicate ((8 - self.old.held % 8) % 8) false)) }
        ensures buffered { self.new.buffered ≡ self.old.buffered }
    {
        match self.push_bytes() {
            Ok(()) => {}
            Err(why) => return Err(why),
        }
        self.pad();
        match self.push_bytes() {
            Ok(()) => {}
            Err(why) => return Err(why),
        }
        self.flush()
    }

    // Fills the byte that is begun up with zeros.
    fn pad(&mut self)
        requires { self.old.held < 8 }
        ensures list { Gains self.old.list self.new.list (replicate ((8 - self.old.held % 8) % 8) false) }
        ensures held { self.new.held % 8 ≡ 0 }
        ensures buffered { self.new.buffered ≡ self.old.buffered }
    {
        let over = self.held();
        if over == 0 {
            return;
        }
        self.hold(8 - over, 0);
    }

    // Has the writer flushed.
    fn flush(&mut self) -> io::Result<()>
        ensures list { Stays self.old.list self.new.list }
        ensures held { self.new.held ≡ self.old.held }
        ensures buffered { self.new.buffered ≡ self.old.buffered }
    {
        match self.inner.flush() {
            Ok(()) => Ok(()),
            Err(why) => Err(why),
        }
    }
}
