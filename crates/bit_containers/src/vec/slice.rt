//! The calls of a view that the vector has itself.
ghost use Rattle.std.specs.Prelude.{◌≡◌, ◌+◌, ◌-◌, ◌<◌, ◌≤◌, count_by, length, replicate, set, slice_get, slice_range};
ghost use Rattle.bit_addressing.specs.Range.{LiesIn};
ghost use Rattle.bit_addressing.specs.Row.{moved, put};
ghost use Rattle.bit_containers.specs.BitVec.{IsClean, Stayed};

use crate::vec::BitVec;
use bit_addressing::{BitOrder, BitStore, RangeExt};
use bit_rows::read_bit;
use bit_slice::BitListMut;

impl<T: BitStore, O: BitOrder> BitVec<T, O> {
    /// The bit at `i`. None exactly where `i` is the length or more.
    ///
    /// ```text
    /// of 01101001: bits.get(1) == Some(true)
    /// ```
    pub fn get(&self, i: usize) -> Option<bool>
        ensures { result ≡ slice_get self.now.list i }
    {
        if i < self.len {
            Some(read_bit::<T, O>(self.words.as_slice(), self.head + i))
        } else {
            None
        }
    }

    /// The first bit. None exactly where the vector is empty.
    ///
    /// ```text
    /// of 01101001: bits.first() == Some(false)
    /// ```
    pub fn first(&self) -> Option<bool>
        ensures { result ≡ slice_get self.now.list 0 }
    {
        self.get(0)
    }

    /// The last bit. None exactly where the vector is empty.
    ///
    /// ```text
    /// of 01101001: bits.last() == Some(true)
    /// ```
    pub fn last(&self) -> Option<bool>
        ensures { result ≡ slice_get self.now.list (length self.now.list - 1) }
    {
        self.as_bitslice().last()
    }

    /// The number of true bits.
    ///
    /// ```text
    /// of 01101001: bits.count_ones() == 4
    /// ```
    pub fn count_ones(&self) -> usize
        ensures value { result ≡ count_by (λ bit. bit) self.now.list }
        ensures few { result ≤ length self.now.list }
    {
        self.as_bitslice().count_ones()
    }

    /// Writes the bit at `i`, and no other bit. Takes no memory. Requires that `i` is below the length.
    ///
    /// ```text
    /// of 01101001: bits.set(0, true) leaves 11101001
    /// ```
    pub fn set(&mut self, i: usize, bit: bool)
        requires { i < length self.old.list }
        ensures list { self.new.list ≡ set self.old.list i bit }
        ensures row { self.new.row ≡ set self.old.row (self.old.head + i) bit }
        ensures clean { IsClean T.BITS self.old → IsClean T.BITS self.new }
        ensures stayed { Stayed self.old self.new }
    {
        BitListMut::set(self, i, bit);
    }

    /// Makes every bit of the list `bit`, and changes no dead bit. Takes no memory.
    ///
    /// ```text
    /// of 01101001: bits.fill(true) leaves 11111111
    /// ```
    pub fn fill(&mut self, bit: bool)
        ensures list { self.new.list ≡ replicate (length self.old.list) bit }
        ensures row { self.new.row ≡ put self.old.row self.old.head (replicate (length self.old.list) bit) }
        ensures clean { IsClean T.BITS self.old → IsClean T.BITS self.new }
        ensures stayed { Stayed self.old self.new }
    {
        BitListMut::fill(self, bit);
    }

    /// Copies the bits of a range to index `dest`, as if they were copied out first. No other bit changes, dead
    /// bits included. Takes no memory. Requires that the range lies in the length and that its bits have room
    /// from `dest` on.
    ///
    /// ```text
    /// of 01101001: bits.copy_within(2..5, 0) leaves 10101001
    /// ```
    pub fn copy_within<R: RangeExt>(&mut self, range: R, dest: usize)
        requires lies { LiesIn (R.start_of range) (R.end_of range (length self.old.list)) (length self.old.list) }
        requires room { dest + (R.end_of range (length self.old.list) - R.start_of range) ≤ length self.old.list }
        ensures list { self.new.list
            ≡ moved self.old.list (R.start_of range) dest
            (R.end_of range (length self.old.list) - R.start_of range) }
        ensures row { self.new.row
            ≡ moved self.old.row (self.old.head + R.start_of range) (self.old.head + dest)
            (R.end_of range (length self.old.list) - R.start_of range) }
        ensures landed { let n = R.end_of range (length self.old.list)
            - R.start_of range in slice_range self.new.list dest (dest + n)
            ≡ slice_range self.old.list (R.start_of range) (R.start_of range + n) }
        ensures clean { IsClean T.BITS self.old → IsClean T.BITS self.new }
        ensures stayed { Stayed self.old self.new }
    {
        BitListMut::copy_within(self, range, dest);
    }
}
