//! The parts of a view between the bits that a test takes out.
ghost use Rattle.std.specs.Iterator.{at_most};
ghost use Rattle.std.specs.Prelude.{◌≡◌, ◌+◌, ◌-◌, ◌<◌, ◌≤◌, false, if◌then◌else◌};
ghost use Rattle.bit_slice.specs.BitSlice.{len_of, list_of};

use crate::slice::BitSlice;
use crate::texts::write_list;
use bit_addressing::{BitOrder, BitStore};
use std::alloc::AllocError;
use std::fmt;
use std::iter::Iterator;

/// The parts of a view between the bits that a test takes out, in order: one more than it takes out.
///
/// After the first None there is no more, and the test is not called again. It takes no memory.
#[derive(Drop)]
pub struct Split<'a, T: BitStore, O: BitOrder, F> {
    view: BitSlice<'a, T, O>,
    // Where the next part begins.
    from: usize,
    // Whether the last part was returned.
    done: bool,
    test: F,
    ghost fits: { from ≤ len_of view },
}

impl<'a, T: BitStore, O: BitOrder> BitSlice<'a, T, O> {
    ghost use Rattle.bit_slice.specs.Split.{NoneTaken, TakenAfter, Testable, split_done, split_from, split_list, split_test};

    // The first index from `from` on at which a test returns true, or the length. It is called once for each index up to
    // there, in order. Requires that it can be called at each.
    fn first_taken<F: FnMut(usize, bool) -> bool>(self, from: usize, test: &mut F) -> usize
        requires inside { from ≤ len_of self }
        requires testable { Testable F.pre F.step (list_of self) test.old from (len_of self) }
        ensures begins { from ≤ result }
        ensures ends { result ≤ len_of self.entry }
        ensures taken { result < len_of self.entry
            → TakenAfter F.step (list_of self.entry) test.old from (result - from) test.new }
        ensures none { len_of self.entry ≤ result
            → NoneTaken F.step (list_of self.entry) test.old from (result - from) test.new }
    {
        let mut at = from;
        while at < self.len {
            if test(at, self.bit(at)) {
                return at;
            }
            at += 1;
        }
        at
    }

    /// The parts between the bits at which `test` returns true, which are in no part. It is called with each index and
    /// the bit there, in order, and no more than once. Requires, at each part that is asked for, that it can
    /// be.
    ///
    /// ```text
    /// of 01101001: bits.split(|_i, bit| bit).count() == 5
    /// ```
    pub fn split<F: FnMut(usize, bool) -> bool>(self, test: F) -> Split<'a, T, O, F>
        ensures list { split_list result ≡ list_of self.entry }
        ensures from { split_from result ≡ 0 }
        ensures done { split_done result ≡ false }
        ensures test { split_test result ≡ test }
    {
        Split {
            view: self,
            from: 0,
            done: false,
            test,
        }
    }
}

impl<'a, T: BitStore, O: BitOrder, F: FnMut(usize, bool) -> bool> Iterator for Split<'a, T, O, F> {
    ghost use Rattle.bit_slice.specs.Split.{GivesPart, Testable};

    type Item = BitSlice<'a, T, O>;

    ghost can_next = { λ s. Testable F.pre F.step (list_of s.view) s.test s.from (len_of s.view) };

    ghost next_gives = { GivesPart F.step };

    ghost remaining = { λ s. at_most (if s.done then 0 else len_of s.view - s.from + 1) };

    /// The next part. None exactly where none is left.
    fn next(&mut self) -> Option<BitSlice<'a, T, O>> {
        if self.done {
            return None;
        }
        let from = self.from;
        let end = self.view.first_taken(from, &mut self.test);
        if end == self.view.len {
            self.done = true;
            self.from = end;
            return Some(self.view.get_range(from..end));
        }
        self.from = end + 1;
        Some(self.view.get_range(from..end))
    }
}

impl<'a, T: BitStore, O: BitOrder, F: Clone> Clone for Split<'a, T, O, F> {
    ghost use Rattle.bit_slice.specs.Split.{split_done, split_from, split_list, split_test};

    ghost is_clone = { λ a b. (split_list b ≡ split_list a) × (split_from b ≡ split_from a) × (split_done b ≡ split_done a)
        × F.is_clone (split_test a) (split_test b) };

    ghost is_infallible = { λ s. F.is_infallible (split_test s) };

    /// The same parts left, with a clone of the test. Takes memory where that clone does.
    fn clone(&self) -> Result<Self, AllocError> {
        let test = self.test.clone()?;
        Ok(Split {
            view: self.view,
            from: self.from,
            done: self.done,
            test,
        })
    }
}

/// `Split { from: `, the index at which the next part begins, `, done: `, whether the last part was returned, ` } `, and
/// the text of `Display` of the view.
impl<'a, T: BitStore, O: BitOrder, F> fmt::Debug for Split<'a, T, O, F> {
    fn fmt<W: fmt::Write>(&self, f: &mut fmt::Formatter<W>) -> fmt::Result {
        let (from, done) = (self.from, self.done);
        write!(f, "Split {{ from: {from}, done: {done} }} ")?;
        write_list(self.view, f)
    }
}
