//! Bits written where a mask has ones.
ghost use Rattle.std.specs.Prelude.{◌≡◌, ◌+◌, ◌*◌, ◌^◌, ◌<◌, ◌≤◌, length};
ghost use Rattle.bit_addressing.specs.Row.{number_bits};
ghost use Rattle.bit_slice.specs.BitSlice.{list_of as list_seen};
ghost use Rattle.bit_slice.specs.Masked.{deposited, masked};
ghost use Rattle.bit_slice.specs.Overwritten.{list_in, IsRewritten};

use crate::edits::AndNot;
use crate::numbers::with_next;
use crate::over::combine_over;
use crate::slice::BitSlice;
use bit_addressing::{BitOrder, BitRegister, BitStore};
use bit_rows::{Xor, read_chunk, write_chunk};

// Writes the bits of `source` over those of the list at the indices where `mask` has ones. A bit past the end of
// `source` is false, and one past the end of `mask` does not change.
pub(crate) fn copy_masked<
    T: BitStore,
    O: BitOrder,
    U: BitStore,
    P: BitOrder,
    V: BitStore,
    Q: BitOrder,
>(words: &mut [T], head: usize, len: usize, mask: BitSlice<'_, U, P>, source: BitSlice<'_, V, Q>)
    requires within { head + len ≤ T.BITS * length words.old }
    requires fits { head + len < 2 ^ 64 }
    ensures { IsRewritten T.BitStore O.BitOrder words.old words.new head len
        (masked (list_in T.BitStore O.BitOrder words.old head len) (list_seen mask.entry) (list_seen source.entry)) }
{
    combine_over::<Xor, T, O, V, Q>(words, head, len, source);
    combine_over::<AndNot, T, O, U, P>(words, head, len, mask);
    combine_over::<Xor, T, O, V, Q>(words, head, len, source);
}

// The `n` lowest bits of `old`, but at the ones of `mask` the lowest bits of `source` in turn. Requires that `n` is at
// most 64.
#[inline(always)]
fn deposit_number(old: u64, mask: u64, source: u64, n: u8) -> u64
    requires { n ≤ 64 }
    ensures { number_bits result n ≡ deposited (number_bits old n) (number_bits mask n) (number_bits source 64) }
{
    let mut number = 0;
    let mut left = source;
    for i in 0..n {
        if mask.bit(i) {
            number = with_next(number, i, left.bit(0));
            left >>= 1;
        } else {
            number = with_next(number, i, old.bit(i));
        }
    }
    number
}

// Writes the bits of `source`, one after another, at the indices where `mask` has ones, or false where none is left.
// A bit past the end of `mask` does not change.
pub(crate) fn deposit_masked<
    T: BitStore,
    O: BitOrder,
    U: BitStore,
    P: BitOrder,
    V: BitStore,
    Q: BitOrder,
>(words: &mut [T], head: usize, len: usize, mask: BitSlice<'_, U, P>, source: BitSlice<'_, V, Q>)
    requires within { head + len ≤ T.BITS * length words.old }
    requires fits { head + len < 2 ^ 64 }
    ensures { IsRewritten T.BitStore O.BitOrder words.old words.new head len
        (deposited (list_in T.BitStore O.BitOrder words.old head len) (list_seen mask.entry) (list_seen source.entry)) }
{
    let upto = len.min(mask.len());
    let mut at = 0;
    let mut taken = 0;
    while at < upto {
        let n = (upto - at).min(64);
        let ones = mask.chunk_at(at, n);
        let more = (ones.count_ones() as usize).min(source.len() - taken);
        let bits = source.chunk_at(taken, more);
        let old = read_chunk::<T, O>(words, head + at, n as u8);
        write_chunk::<T, O>(
            words,
            head + at,
            n as u8,
            deposit_number(old, ones, bits, n as u8),
        );
        taken += more;
        at += n;
    }
}
