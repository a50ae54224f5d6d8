//! The indices of a view's ones and zeros by their number.
ghost use Rattle.std.specs.Prelude.{◌≡◌, ℕ, ◌+◌, ◌%◌, ◌^◌, ◌<◌, ◌≤◌, IfNone, IfSome, count_by, count_ones, map, slice_range, true};
ghost use Rattle.bit_addressing.specs.Bits.{has_bit};
ghost use Rattle.bit_addressing.specs.Row.{number_of};
ghost use Rattle.bit_slice.specs.BitSlice.{len_of, list_of};
ghost use Rattle.bit_slice.specs.Numbered.{IsNumbered, count_before, is_bit};

use crate::slice::BitSlice;
use bit_addressing::{BitOrder, BitStore};

// The place of the `k`-th set bit of a number, counted from 0 and from the lowest on: the part that has it is
// halved six times.
#[inline(always)]
fn place_of(number: u64, k: u32) -> u32
    requires { k < count_ones number }
    ensures below { result < 64 }
    ensures set { has_bit number result ≡ true }
    ensures before { count_ones (number % 2 ^ result) ≡ k }
{
    let mut rest = number;
    let mut left = k;
    let mut place = 0u32;
    let mut width = 64u32;
    'halves: while width > 1 {
        let half = width / 2;
        let low = (rest & ((1u64 << half) - 1)).count_ones();
        if left >= low {
            left -= low;
            place += half;
            rest >>= half;
        }
        width = half;
    }
    place
}

impl<'a, T: BitStore, O: BitOrder> BitSlice<'a, T, O> {
    // Which of the `n` bits from index `at` on are `bit`, as a number: the first at place 0. Requires that the view has
    // them, and that they are from 1 to 64.
    #[inline(always)]
    fn marked_at(self, at: usize, n: usize, bit: bool) -> u64
        requires some { 0 < n }
        requires few { n ≤ 64 }
        requires inside { at + n ≤ len_of self }
        ensures { result ≡ number_of (map (is_bit bit) (slice_range (list_of self.entry) at (at + n))) }
    {
        let number = self.chunk_at(at, n);
        if bit {
            number
        } else {
            !number & (u64::MAX >> (64 - n))
        }
    }
}

/// The index of the `k`-th bit from index `from` on, counted from 0, of those that are `bit`. None exactly where there
/// are at most `k` there. 64 bits are counted at a time. Requires that `from` is at most the length.
pub fn nth_from<T: BitStore, O: BitOrder>(
    view: BitSlice<'_, T, O>,
    from: usize,
    k: usize,
    bit: bool,
) -> Option<usize>
    requires { from ≤ len_of view }
    ensures some { IfSome result
        (λ i. IsNumbered bit (list_of view.entry) (count_before bit (list_of view.entry) from + k) i) }
    ensures none { IfNone result
        (count_by (is_bit bit) (list_of view.entry) ≤ count_before bit (list_of view.entry) from + k) }
    ensures inside { IfSome result (λ i. i < len_of view.entry) }
{
    let len = view.len;
    let mut at = from;
    let mut left = k;
    'scan: while at < len {
        let n = (64 - (view.head + at) % 64).min(len - at);
        let word = view.marked_at(at, n, bit);
        let count = word.count_ones() as usize;
        if left < count {
            return Some(at + place_of(word, left as u32) as usize);
        }
        left -= count;
        at += n;
    }
    None
}
