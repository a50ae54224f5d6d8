//! Runs of bits copied from one row into another, by whole words of the target.
ghost use Rattle.std.specs.Prelude.{◌≡◌, ◌+◌, ◌*◌, ◌^◌, ◌<◌, ◌≤◌, length};
ghost use Rattle.bit_addressing.specs.Row.{put};
ghost use Rattle.bit_addressing.specs.Typed.{row};
ghost use Rattle.bit_rows.specs.Runs.{run_at};

use crate::combined::{Second, combine_bits};
use bit_addressing::{BitOrder, BitStore};

/// Copies `n` bits of the row of `source`, from `from` on, to the places from `at` on, and changes no other
/// bit. The words may be of any type and the bits in any order; it goes by whole words of the target.
/// Requires that both runs lie in their words.
pub fn copy_bits<T: BitStore, O: BitOrder, U: BitStore, P: BitOrder>(
    words: &mut [T],
    at: usize,
    source: &[U],
    from: usize,
    n: usize,
)
    requires target { at + n ≤ T.BITS * length words.old }
    requires source { from + n ≤ U.BITS * length source.now }
    requires target_fits { at + n < 2 ^ 64 }
    requires source_fits { from + n < 2 ^ 64 }
    ensures bits { row T.BitStore O.BitOrder words.new ≡ put (row T.BitStore O.BitOrder words.old) at (run_at (row U.BitStore P.BitOrder source.now) from n) }
    ensures size { length words.new ≡ length words.old }
{
    combine_bits::<Second, T, O, U, P>(words, at, source, from, n);
}
