//! Removal of equal neighbours.
ghost use Rattle.std.specs.List.{dedup};
ghost use Rattle.std.specs.Prelude.{◌≡◌, length};
ghost use Rattle.std.proofs.Math.Bool.{beq};
ghost use Rattle.bit_addressing.specs.Row.{number_bits};
ghost use Rattle.bit_containers.specs.Repeated.{alternating};

use crate::vec::BitVec;
use bit_addressing::{BitOrder, BitStore};
use bit_slice::{BitList, BitListMut};

// A number whose 64 bits are in turn, the first of which is `first`.
fn in_turn(first: bool) -> u64
    ensures { number_bits result 64 ≡ alternating 64 first }
{
    if first {
        0x5555_5555_5555_5555
    } else {
        0xAAAA_AAAA_AAAA_AAAA
    }
}

impl<T: BitStore, O: BitOrder> BitVec<T, O> {
    // Writes bits in turn from index 0 on, the first of which is `first`, over the whole list.
    fn alternate(&mut self, first: bool)
        ensures list { self.new.list ≡ alternating (length self.old.list) first }
        ensures head { self.new.head ≡ self.old.head }
        ensures capacity { self.new.capacity ≡ self.old.capacity }
    {
        let len = self.len();
        let mut at = len.min(64);
        self.store_le_at(0, at as u8, in_turn(first));
        while at < len {
            // What stands is copied, twice as much at each step.
            let more = at.min(len - at);
            self.copy_within(0..more, at);
            at += more;
        }
    }

    /// Keeps the first bit of each run of equal bits, by whole words. The head and the capacity stay. Takes no memory.
    /// What becomes of dead bits is open.
    ///
    /// ```text
    /// of 0110111: bits.dedup() leaves 0101
    /// ```
    pub fn dedup(&mut self)
        ensures list { self.new.list ≡ dedup beq self.old.list }
        ensures head { self.new.head ≡ self.old.head }
        ensures capacity { self.new.capacity ≡ self.old.capacity }
    {
        let len = self.len();
        if len == 0 {
            return;
        }
        let first = self.bit(0);
        let changes = self.get_range(..len - 1).count_xor(self.get_range(1..));
        self.truncate(changes + 1);
        self.alternate(first);
    }
}
