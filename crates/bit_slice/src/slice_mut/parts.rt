//! A part of a view, lent for writing.
ghost use Rattle.std.specs.Prelude.{◌≡◌, ◌+◌, ◌-◌, ◌*◌, ◌/◌, ◌%◌, ◌<◌, ◌≤◌, length, slice_range};
ghost use Rattle.std.specs.Borrow.{sem};
ghost use Rattle.bit_addressing.specs.Row.{words_for};
ghost use Rattle.bit_slice.specs.BitSliceMut.{words_of, head_of, len_of, list_of, loan_of};
ghost use Rattle.bit_slice.specs.Lends.{lends_run};

use crate::run::run_mut;
use crate::slice_mut::BitSliceMut;
use bit_addressing::{BitOrder, BitStore};

impl<'a, T: BitStore, O: BitOrder> BitSliceMut<'a, T, O> {
    /// The part of the view from index `from` up to index `upto`, for writing: what is written lands in the view,
    /// and the words around the part stay. Requires that `from..upto` is a range of the view's length.
    ///
    /// The clauses say the list, head and words of the part. Where a caller's own proof needs the whole view after a
    /// write, call one that takes a range: `fill_range`, `flip_range`, `copy_into` or `or_range`.
    ///
    /// ```text
    /// view.part_mut(8, 24).reverse();
    /// ```
    pub fn part_mut(&mut self, from: usize, upto: usize) -> BitSliceMut<'_, T, O>
        requires ordered { from ≤ upto }
        requires inside { upto ≤ len_of self.old }
        ensures* writes_back { sem 𝓛 (lends_run T.row O.row T.BitStore O.BitOrder self.entry from upto
            (loan_of result)) }
        ensures words { let first = (head_of self.old + from) / T.BITS
            in words_of result ≡ slice_range (words_of self.old) first
            (first + words_for T.BITS (head_of result + len_of result)) }
        ensures head { head_of result ≡ (head_of self.old + from) % T.BITS }
        ensures len { len_of result ≡ upto - from }
        ensures list { list_of result ≡ slice_range (list_of self.old) from upto }
    {
        let head = self.head;
        let first = head + from;
        let end = head + upto;
        run_mut(&mut *self.words, first, end)
    }
}
