//! The unary code: a number of zeros and a one.
ghost use Rattle.std.specs.Prelude.{◌≡◌, ℕ, ◌+◌, ◌<◌, ◌≤◌, ◌++◌, [], ◌∷◌, Bool, List, IfSome, None, OnOk, Some, false, length, replicate, take};
ghost use Rattle.bit_addressing.specs.Row.{binary};
ghost use Rattle.bit_streams.specs.Codes.{unary};
ghost use Rattle.bit_streams.specs.Streams.{MayRefuse};

use crate::reader::BitReader;
use crate::writer::BitWriter;
use bit_addressing::{BitOrder, BitStore, GrowError};

impl<T: BitStore, O: BitOrder> BitWriter<T, O> {
    /// Appends `zeros` zeros and a one. A refusal keeps what was written before.
    ///
    /// ```text
    /// writer.write_unary(3)?;       // appends 0001
    /// ```
    pub fn write_unary(&mut self, zeros: usize) -> Result<(), GrowError>
        ensures list { OnOk result (self.new.list ≡ self.old.list ++ unary zeros) }
        ensures refusal { MayRefuse result (unary zeros) self.old self.new }
        ensures capacity { self.old.capacity ≤ self.new.capacity }
    {
        let before = self.len();
        for _ in 0..zeros / 64 {
            match self.write(64, 0) {
                Ok(()) => {}
                Err(why) => {
                    self.truncate(before);
                    return Err(why);
                }
            }
        }
        match self.write((zeros % 64) as u8 + 1, 1) {
            Ok(()) => Ok(()),
            Err(why) => {
                self.truncate(before);
                Err(why)
            }
        }
    }
}

impl<'a, T: BitStore, O: BitOrder> BitReader<'a, T, O> {
    /// Reads zeros and the one after them, and returns how many zeros there were. None exactly where no bit that is left is
    /// a one, and then the reader stays where it is.
    ///
    /// ```text
    /// of 0001101: reader.read_unary() == Some(3)
    /// ```
    #[inline(always)]
    pub fn read_unary(&mut self) -> Option<usize>
        ensures found { IfSome result (λ zeros. self.old.rest ≡ unary zeros ++ self.new.rest) }
        ensures none { result ≡ None → self.old.rest ≡ replicate (length self.old.rest) false }
        ensures kept { result ≡ None → self.new ≡ self.old }
        ensures back { (zeros : ℕ) → (more : List Bool) → self.old.rest ≡ unary zeros ++ more
            → (result ≡ Some zeros) × (self.new.rest ≡ more) }
    {
        let block = self.block_ahead();
        if block != 0 {
            let zeros = block.leading_zeros() as usize;
            self.pass(zeros + 1);
            return Some(zeros);
        }
        self.read_zeros()
    }

    // The number that the next 64 bits write, the first its most significant digit: 0 where fewer are left.
    #[inline(always)]
    pub(crate) fn block_ahead(&self) -> u64
        ensures bits { 0 < result → binary 64 result ≡ take 64 self.now.rest }
        ensures there { 0 < result → 64 ≤ length self.now.rest }
    {
        match self.peek(64) {
            None => 0,
            Some(block) => block,
        }
    }

    // Like `read_unary`, bit by bit.
    #[inline(never)]
    fn read_zeros(&mut self) -> Option<usize>
        ensures found { IfSome result (λ zeros. self.old.rest ≡ unary zeros ++ self.new.rest) }
        ensures none { result ≡ None → self.old.rest ≡ replicate (length self.old.rest) false }
        ensures kept { result ≡ None → self.new ≡ self.old }
        ensures back { (zeros : ℕ) → (more : List Bool) → self.old.rest ≡ unary zeros ++ more
            → (result ≡ Some zeros) × (self.new.rest ≡ more) }
    {
        let before = self.copied();
        for zeros in 0..self.remaining() {
            match self.read_bit() {
                Some(false) => {}
                Some(true) => return Some(zeros),
                None => {}
            }
        }
        *self = before;
        None
    }
}
