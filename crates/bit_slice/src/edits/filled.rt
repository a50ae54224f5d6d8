//! Bits written by the results of a function.
ghost use Rattle.std.specs.Prelude.{◌≡◌, ◌+◌, ◌*◌, ◌^◌, ◌<◌, ◌≤◌, Bool, List, length};
ghost use Rattle.bit_addressing.specs.Row.{number_bits};
ghost use Rattle.bit_slice.specs.Closures.{CallableFrom, ResultsFrom};
ghost use Rattle.bit_slice.specs.Overwritten.{IsRewritten};

use crate::numbers::with_next;
use bit_addressing::{BitOrder, BitStore};
use bit_rows::write_chunk;

// Calls a function at `n` indices, from `from` on, in order. Returns a number with the results, the first at place 0.
// Requires that `n` is at most 64, and that the function can be called there.
#[inline(always)]
fn number_by<F: FnMut(usize) -> bool>(f: &mut F, from: usize, n: u8) -> u64
    requires few { n ≤ 64 }
    requires fits { from + n < 2 ^ 64 }
    requires callable { CallableFrom F.pre F.step f.old from (from + n) }
    ensures { ResultsFrom F.step f.old from (number_bits result n) f.new }
{
    let mut number = 0;
    for i in 0..n {
        let bit = f(from + i as usize);
        number = with_next(number, i, bit);
    }
    number
}

// Writes at each index of the list what a function returns there. It is called once for each, in order. Requires that
// it can be called at each index.
pub(crate) fn fill_by<T: BitStore, O: BitOrder, F: FnMut(usize) -> bool>(
    words: &mut [T],
    head: usize,
    len: usize,
    f: &mut F,
)
    requires within { head + len ≤ T.BITS * length words.old }
    requires fits { head + len < 2 ^ 64 }
    requires callable { CallableFrom F.pre F.step f.old 0 len }
    ensures { (results : List Bool) × (length results ≡ len) × ResultsFrom F.step f.old 0 results f.new
        × IsRewritten T.BitStore O.BitOrder words.old words.new head len results }
{
    let mut at = 0;
    while at < len {
        let n = (len - at).min(64);
        let number = number_by(f, at, n as u8);
        write_chunk::<T, O>(words, head + at, n as u8, number);
        at += n;
    }
}
