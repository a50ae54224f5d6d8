//! Chunks written by the results of a function of their numbers.
ghost use Rattle.std.specs.Prelude.{◌≡◌, ℕ, ◌+◌, ◌*◌, ◌^◌, ◌<◌, ◌≤◌, List, length};
ghost use Rattle.bit_slice.specs.Closures.{CallableFrom, ResultsFrom};
ghost use Rattle.bit_slice.specs.Mapped.{chunk_number, from_chunk_numbers};
ghost use Rattle.bit_slice.specs.Overwritten.{IsRewritten, list_in};
ghost use Rattle.bit_slice.specs.Pieces.{chunk_count};

use bit_addressing::{BitOrder, BitStore};
use bit_rows::{read_chunk, write_chunk};

// Writes over each chunk of `size` bits, the last perhaps shorter, the number that a function returns of its number. It
// is called once for each, in order. Requires that it can be called with each, and that `size` is from 1 to 64.
pub(crate) fn map_numbers<T: BitStore, O: BitOrder, F: FnMut(u64) -> u64>(
    words: &mut [T],
    head: usize,
    len: usize,
    size: usize,
    f: &mut F,
)
    requires some { 0 < size }
    requires few { size ≤ 64 }
    requires within { head + len ≤ T.BITS * length words.old }
    requires fits { head + len < 2 ^ 64 }
    requires callable { CallableFrom
        (λ state k. F.pre state (chunk_number size (list_in T.BitStore O.BitOrder words.old head len) k))
        (λ state k. F.step state (chunk_number size (list_in T.BitStore O.BitOrder words.old head len) k))
        f.old 0 (chunk_count len size) }
    ensures { (numbers : List ℕ) × (length numbers ≡ chunk_count len size)
        × ResultsFrom
        (λ state k. F.step state (chunk_number size (list_in T.BitStore O.BitOrder words.old head len) k))
        f.old 0 numbers f.new
        × IsRewritten T.BitStore O.BitOrder words.old words.new head len (from_chunk_numbers size len numbers) }
{
    let mut at = 0;
    while at < len {
        let n = (len - at).min(size);
        let number = f(read_chunk::<T, O>(words, head + at, n as u8));
        write_chunk::<T, O>(words, head + at, n as u8, number);
        at += n;
    }
}
