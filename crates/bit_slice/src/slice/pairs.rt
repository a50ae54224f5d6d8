//! Searches of two views combined, without a copy.
ghost use Rattle.std.specs.Prelude.{◌≡◌, ◌≤◌, MatchOption, false, true};
ghost use Rattle.bit_slice.specs.BitSlice.{len_of, list_of};
ghost use Rattle.bit_slice.specs.Operators.{combined};
ghost use Rattle.bit_slice.specs.Places.{IsAbsent, IsNext};

use crate::slice::BitSlice;
use crate::slice::sets::pair_chunk;
use bit_addressing::{BitOrder, BitStore};
use bit_rows::BitOperator;

impl<'a, T: BitStore, O: BitOrder> BitSlice<'a, T, O> {
    // The first index of the view from `from` on at which the operator makes a one of its bit and that of `other`, or
    // false past the end of `other`. 64 bits are combined at a time.
    pub(crate) fn find_pair<F: BitOperator, U: BitStore, P: BitOrder>(
        self,
        other: BitSlice<'_, U, P>,
        from: usize,
    ) -> Option<usize>
        requires quiet { F.made false false ≡ false }
        requires inside { from ≤ len_of self }
        ensures { MatchOption result
            (IsAbsent true (combined F.made (list_of self.entry) (list_of other.entry)) from (len_of self.entry))
            (λ i. IsNext true (combined F.made (list_of self.entry) (list_of other.entry)) from (len_of self.entry) i) }
    {
        let both = self.len.min(other.len);
        let mut at = from;
        while at < both {
            let n = (both - at).min(64);
            let chunk = pair_chunk::<F, T, O, U, P>(self, other, at, n as u8);
            if chunk != 0 {
                return Some(at + chunk.trailing_zeros() as usize);
            }
            at += n;
        }
        if F::clears() {
            return None;
        }
        self.find_next(at, self.len, true)
    }
}
