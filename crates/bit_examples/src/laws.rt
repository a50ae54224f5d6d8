//! Laws of definitions that contracts cite.
ghost use Rattle.std.specs.Prelude.{◌≡◌, ℕ, ◌+◌, ◌-◌, ◌/◌, ◌^◌, ◌<◌, ◌≤◌, ◌↔◌};
ghost use Rattle.bit_addressing.specs.Row.{touched};
ghost use Rattle.bit_slice.specs.Operators.{BelowTheNext, EqualWhereEqual, FalseFirst, PrefixFirst, SameFromEitherSide};

use crate::common::check;
use bit_addressing::BitStore;
use std::ops::Range;

// The words of type `T` that hold a bit of the `n` bits from index `from` of a row on, by their numbers.
fn touched_words<T: BitStore>(from: usize, n: usize) -> Range<usize>
    requires { from + n < 2 ^ 64 }
    ensures count { result.end - result.start ≡ touched T.BITS from n }
    ensures hold { (k : ℕ)
        → ((result.start ≤ k) × (k < result.end))
        ↔ ((i : ℕ) × (from ≤ i) × (i < from + n) × (i / T.BITS ≡ k)) }
{
    let width = T::BITS as usize;
    let first = from / width;
    if n == 0 {
        return first..first;
    }
    first..(from + n - 1) / width + 1
}

// Proof only: its clauses are the laws of the order of lists of bits. The order is total, and the same from either
// side. Two lists are `Equal` exactly where they are equal. At the first items that differ, false comes before true,
// and a list comes before each longer list that begins with it.
pub(crate) fn order_of_bits()
    ensures sides { SameFromEitherSide }
    ensures equal { EqualWhereEqual }
    ensures next { BelowTheNext }
    ensures false_first { FalseFirst }
    ensures prefix_first { PrefixFirst }
{}

#[test]
fn laws(rt: HostRuntime) {
    let words = touched_words::<u8>(7, 2);
    check(&rt, words.start == 0);
    check(&rt, words.end == 2);
    order_of_bits();
}
