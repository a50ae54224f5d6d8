//! The ranges of indices whose bits are alike, and their text.
ghost use Rattle.std.specs.Iterator.{YieldsFirst};
ghost use Rattle.std.specs.Iterator.Runs.{YieldsInOrder};
ghost use Rattle.std.specs.Prelude.{◌≡◌, Some};
ghost use Rattle.std.specs.Fmt.{WritesOnOk};
ghost use Rattle.bit_slice.specs.BitRuns.{range_text, ranges_left, ranges_of, ranges_text, shown_ranges};
ghost use Rattle.bit_slice.specs.BitSlice.{list_of};

use crate::slice::BitSlice;
use crate::slice::runs::IterRuns;
use bit_addressing::{BitOrder, BitStore};
use std::alloc::AllocError;
use std::fmt;
use std::iter::{FusedIterator, Iterator};
use std::ops::Range;

/// The ranges of the indices of a view at which the bits are true, or those at which they are false, ascending, each as
/// long as it is.
///
/// After the first None there is no more. It takes no memory.
#[derive(Drop)]
pub struct IterRanges<'a, T: BitStore, O: BitOrder> {
    runs: IterRuns<'a, T, O>,
    bit: bool,
}

/// A view that is written as the ranges of the indices at which its bits are true, or false: `0-3,7`.
#[derive(Clone, Copy, Drop)]
pub struct RangesText<'a, T: BitStore, O: BitOrder> {
    view: BitSlice<'a, T, O>,
    bit: bool,
}

impl<'a, T: BitStore, O: BitOrder> BitSlice<'a, T, O> {
    /// The ranges of the indices whose bits are `bit`, ascending, each a whole run. 64 bits are read at a time.
    ///
    /// ```text
    /// of 01101001: bits.iter_ranges(true) gives 1..3, 4..5, 7..8
    /// ```
    pub fn iter_ranges(self, bit: bool) -> IterRanges<'a, T, O>
        ensures list { ranges_left result ≡ ranges_of bit (list_of self.entry) }
        ensures runs { YieldsInOrder (YieldsFirst (ranges_left {X = T} {Y = O} {W = T.BitStore} {P = O.BitOrder}))
            ranges_left }
    {
        IterRanges {
            runs: self.iter_runs(),
            bit,
        }
    }

    /// What is written as the ranges of the indices whose bits are `bit`, ascending, with `,` between two: the first
    /// index, and after `-` the last, where it is another.
    ///
    /// ```text
    /// of 01101001: format!(in alloc; "{}", bits.ranges_text(true))?.as_str() == "1-2,4,7"
    /// ```
    pub fn ranges_text(self, bit: bool) -> RangesText<'a, T, O>
        ensures { shown_ranges result ≡ ranges_text bit (list_of self.entry) }
    {
        RangesText { view: self, bit }
    }
}

impl<'a, T: BitStore, O: BitOrder> Iterator for IterRanges<'a, T, O> {
    ghost use Rattle.std.specs.Iterator.{YieldsFirst, item_count};
    ghost use Rattle.bit_slice.specs.BitRuns.{ranges_left};

    type Item = Range<usize>;

    ghost next_gives = { YieldsFirst ranges_left };

    ghost remaining = { item_count ranges_left };

    /// The next range. None exactly where none is left.
    #[tactic(auto, using(crate::proofs::BitRuns::range_passed, crate::proofs::BitRuns::range_given))]
    fn next(&mut self) -> Option<Range<usize>> {
        while let Some(run) = self.runs.next() {
            if run.bit == self.bit {
                return Some(run.range());
            }
        }
        None
    }
}

impl<'a, T: BitStore, O: BitOrder> FusedIterator for IterRanges<'a, T, O> {}

impl<'a, T: BitStore, O: BitOrder> Clone for IterRanges<'a, T, O> {
    ghost use Rattle.std.specs.Prelude.{⊤};

    ghost is_clone = { λ a b. ranges_left b ≡ ranges_left a };

    ghost is_infallible = { λ _. ⊤ };

    /// The same iterator, with the same left. Takes no memory.
    fn clone(&self) -> Result<Self, AllocError> {
        Ok(IterRanges {
            runs: self.runs.clone()?,
            bit: self.bit,
        })
    }
}

/// `IterRanges { bit: `, the bit, ` } ` and the text of `Debug` of the runs that are left.
impl<'a, T: BitStore, O: BitOrder> fmt::Debug for IterRanges<'a, T, O> {
    fn fmt<W: fmt::Write>(&self, f: &mut fmt::Formatter<W>) -> fmt::Result {
        write!(f, "IterRanges {{ bit: {} }} {:?}", self.bit, self.runs)
    }
}

// Writes the first index of a range, and the last where it is another.
fn write_range<W: fmt::Write>(range: Range<usize>, f: &mut fmt::Formatter<W>) -> fmt::Result
    ensures { WritesOnOk W.write_str_gives f.old result (range_text range) f.new }
{
    let (first, last) = (range.start, range.end.saturating_sub(1));
    if first == last {
        return write!(f, "{first}");
    }
    write!(f, "{first}-{last}")
}

impl<'a, T: BitStore, O: BitOrder> fmt::Display for RangesText<'a, T, O> {
    ghost output = { λ text. Some (shown_ranges text) };

    fn fmt<W: fmt::Write>(&self, f: &mut fmt::Formatter<W>) -> fmt::Result {
        let mut ranges = self.view.iter_ranges(self.bit);
        let Some(first) = ranges.next() else {
            return f.write_str("");
        };
        write_range(first, f)?;
        for range in ranges {
            f.write_str(",")?;
            write_range(range, f)?;
        }
        Ok(())
    }
}
