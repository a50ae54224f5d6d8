//! The trait, which each list of bits has that can be written.
ghost use Rattle.std.specs.Prelude.{◌≡◌, ◌+◌, ◌-◌, ◌<◌, ◌≤◌, ℕ, Bool, List, length, map, not, replicate, set, slice_get};
ghost use Rattle.bit_addressing.specs.Row.{moved};

use bit_slice::{BitList, BitListMut};

/// Bits that are read and written, and whose number stays: each list of bits that has `BitListMut`.
///
/// In contracts a value is the list of its bits and its capacity; words, order and head are not named. No call
/// takes memory, and none changes the capacity.
pub trait Bits {
    // The bits, the first first.
    ghost list: { Self → List Bool };

    // The number of bits of the container room for without new memory. For one that never grows, that
    // is its length.
    ghost capacity: { Self → ℕ };

    /// The number of bits.
    fn len(&self) -> usize
        ensures { result ≡ length (list self.now) };

    /// The bit at `i`. None exactly where `i` is the length or more.
    fn get(&self, i: usize) -> Option<bool>
        ensures { result ≡ slice_get (list self.now) i };

    /// Writes the bit at `i`, and no other bit. Requires that `i` is below the length.
    fn set(&mut self, i: usize, bit: bool)
        requires { i < length (list self.old) }
        ensures list { list self.new ≡ set (list self.old) i bit }
        ensures capacity { capacity self.new ≡ capacity self.old };

    /// Makes every bit `bit`.
    fn fill(&mut self, bit: bool)
        ensures list { list self.new ≡ replicate (length (list self.old)) bit }
        ensures capacity { capacity self.new ≡ capacity self.old };

    /// Flips every bit.
    fn flip_all(&mut self)
        ensures list { list self.new ≡ map not (list self.old) }
        ensures capacity { capacity self.new ≡ capacity self.old };

    /// Copies the bits from index `a` up to index `b` to index `dest`, as if they were copied out first, and changes
    /// no other bit. Requires that `a..b` is a range of the list and that its bits have room from `dest` on.
    fn copy_within(&mut self, a: usize, b: usize, dest: usize)
        requires ordered { a ≤ b }
        requires inside { b ≤ length (list self.old) }
        requires room { dest + (b - a) ≤ length (list self.old) }
        ensures list { list self.new ≡ moved (list self.old) a dest (b - a) }
        ensures capacity { capacity self.new ≡ capacity self.old };
}

impl<B: BitListMut> Bits for B {
    ghost list = { B.list };

    ghost capacity = { B.capacity };

    fn len(&self) -> usize {
        BitList::len(self)
    }

    fn get(&self, i: usize) -> Option<bool> {
        BitList::get(self, i)
    }

    fn set(&mut self, i: usize, bit: bool) {
        // Proof only: the length of the list.
        let _len = BitList::len(self);
        BitListMut::set(self, i, bit);
    }

    fn fill(&mut self, bit: bool) {
        // Proof only: the length of the list.
        let _len = BitList::len(self);
        BitListMut::fill(self, bit);
    }

    fn flip_all(&mut self) {
        let len = BitList::len(self);
        self.flip_range(0..len);
    }

    fn copy_within(&mut self, a: usize, b: usize, dest: usize) {
        // Proof only: the length of the list.
        let _len = BitList::len(self);
        BitListMut::copy_within(self, a..b, dest);
    }
}
