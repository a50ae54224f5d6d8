//! Lists in few words, 64 bits at a time.
ghost use Rattle.std.specs.Prelude.{◌≡◌, ◌+◌, ◌-◌, ◌*◌, ◌/◌, ◌%◌, ◌^◌, ◌<◌, ◌≤◌, ◌↔◌, IsTrue, count_by, slice_range, true};
ghost use Rattle.bit_addressing.specs.Row.{number_of};
ghost use Rattle.bit_addressing.specs.Typed.{row};
ghost use Rattle.bit_small.specs.SmallBits.{front};

use crate::small::SmallBits;
use bit_addressing::BitOrder;
use bit_array::BitWords;
use bit_rows::read_block;
use bit_slice::BitList;

// The number whose `n` lowest bits are set.
#[inline(always)]
fn low_ones(n: usize) -> u64
    requires { n ≤ 64 }
    ensures some { 0 < n → result ≡ (2 ^ 64 - 1) / 2 ^ (64 - n) }
    ensures none { n ≡ 0 → result ≡ 0 }
{
    if n == 0 {
        return 0;
    }
    u64::MAX >> (64 - n)
}

impl<A: BitWords, O: BitOrder> SmallBits<A, O> {
    // Whether the words are at most four blocks of 64 bits, in an order that goes by shifts. Then all blocks are read,
    // whatever the length, so that the compiler makes no loop of them.
    #[inline(always)]
    pub(super) fn goes_by_blocks(&self) -> bool
        ensures { result ≡ true → (A.Store.BITS * A.count) % 64 ≡ 0 }
    {
        let bits = self.array.len();
        O::goes_by_shifts() && bits <= 256 && bits % 64 == 0
    }

    // The bits of the list from index `64 * t` on, up to 64 of them, as a number. Requires that the words have 64 there.
    #[inline(always)]
    fn block(&self, t: usize) -> u64
        requires { 64 * t + 64 ≤ A.Store.BITS * A.count }
        ensures { result ≡ number_of (slice_range
            (front (row A.Store.BitStore O.BitOrder (A.words self.now.array)) self.now.len) (64 * t) (64 * t + 64)) }
    {
        // Proof only: how many bits the words have.
        let _len = self.array.len();
        let at = 64 * t;
        let number = read_block::<A::Store, O>(self.array.as_raw_slice(), at);
        number & low_ones(self.len.saturating_sub(at).min(64))
    }

    // Whether both have the same bits, 64 at a time. Requires that they go by blocks.
    #[inline(always)]
    pub(super) fn has_blocks_of(&self, other: &Self) -> bool
        requires { (A.Store.BITS * A.count) % 64 ≡ 0 }
        ensures { IsTrue result
            ↔ (front (row A.Store.BitStore O.BitOrder (A.words self.now.array)) self.now.len
            ≡ front (row A.Store.BitStore O.BitOrder (A.words other.now.array)) other.now.len) }
    {
        let blocks = self.array.len() / 64;
        // Proof only: how many bits the words have.
        let _len = other.array.len();
        if self.len != other.len {
            return false;
        }
        for t in 0..blocks {
            if self.block(t) != other.block(t) {
                return false;
            }
        }
        true
    }

    /// The number of true bits.
    ///
    /// ```text
    /// of 0110: bits.count_ones() == 2
    /// ```
    pub fn count_ones(&self) -> usize
        ensures value { result
            ≡ count_by (λ bit. bit) (front (row A.Store.BitStore O.BitOrder (A.words self.now.array)) self.now.len) }
        ensures few { result ≤ self.now.len }
    {
        if !self.goes_by_blocks() {
            return self.as_bitslice().count_ones();
        }
        let mut count = 0;
        for t in 0..self.array.len() / 64 {
            count += self.block(t).count_ones() as usize;
        }
        count
    }
}
