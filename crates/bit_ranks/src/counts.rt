//! Ones counted in a part of a list.
ghost use Rattle.std.specs.Prelude.{◌≡◌, ◌+◌, ◌-◌, ◌*◌, ◌/◌, ◌%◌, ◌≤◌, count_by, slice_range};
ghost use Rattle.bit_addressing.specs.Row.{number_of};
ghost use Rattle.bit_slice.specs.BitSlice.{head_of, len_of, list_of};

use bit_containers::{BitOrder, BitStore, Lsb0};
use bit_rows::read_block;
use bit_slice::BitSlice;

// The number of ones of the 64 bits from index `at` on, as they lie: their words have as many in each order. Requires that
// the view has these bits, and that a block of 64 bits begins there.
#[inline(always)]
fn ones_of_block<T: BitStore, O: BitOrder>(view: BitSlice<'_, T, O>, at: usize) -> usize
    requires begins { (head_of view + at) % 64 ≡ 0 }
    requires inside { at + 64 ≤ len_of view }
    ensures { result ≡ count_by (λ b. b) (slice_range (list_of view.entry) at (at + 64)) }
{
    let block = read_block::<T, Lsb0>(view.as_raw_slice(), view.head() + at);
    block.count_ones() as usize
}

// The 64 bits from index `at` on as a number, the first at place 0. Requires the same.
#[inline(always)]
fn block_at<T: BitStore, O: BitOrder>(view: BitSlice<'_, T, O>, at: usize) -> u64
    requires begins { (head_of view + at) % 64 ≡ 0 }
    requires inside { at + 64 ≤ len_of view }
    ensures { result ≡ number_of (slice_range (list_of view.entry) at (at + 64)) }
{
    read_block::<T, O>(view.as_raw_slice(), view.head() + at)
}

// The number of ones of the `n` bits from index `from` on, by blocks of 64 bits, of which the last is cut. Requires that
// a block begins there, and that the view has each of the blocks.
#[inline(always)]
fn ones_by_blocks<T: BitStore, O: BitOrder>(
    view: BitSlice<'_, T, O>,
    from: usize,
    n: usize,
) -> usize
    requires begins { (head_of view + from) % 64 ≡ 0 }
    requires inside { from + n / 64 * 64 + 64 ≤ len_of view }
    ensures value { result ≡ count_by (λ b. b) (slice_range (list_of view.entry) from (from + n)) }
    ensures few { result ≤ n }
{
    let blocks = n / 64;
    let mut count = 0;
    for t in 0..blocks {
        count += ones_of_block(view, from + t * 64);
    }
    let rest = block_at(view, from + blocks * 64) & ((1u64 << (n % 64)) - 1);
    count + rest.count_ones() as usize
}

// The number of ones from index `from` up to index `upto`. Words narrower than 64 bits are counted by blocks where the view
// has them all, so that none is counted by itself. Requires that the range lies in the length.
#[inline(always)]
pub(crate) fn ones_between<T: BitStore, O: BitOrder>(
    view: BitSlice<'_, T, O>,
    from: usize,
    upto: usize,
) -> usize
    requires ordered { from ≤ upto }
    requires inside { upto ≤ len_of view }
    ensures value { result ≡ count_by (λ b. b) (slice_range (list_of view.entry) from upto) }
    ensures few { result ≤ upto - from }
{
    if T::BITS < 64 && O::goes_by_shifts() {
        let n = upto - from;
        if (view.head() + from) % 64 == 0 && from + n / 64 * 64 + 64 <= view.len() {
            return ones_by_blocks(view, from, n);
        }
    }
    view.get_range(from..upto).count_ones()
}
