//! Ranges of indices.
ghost use Rattle.std.specs.Prelude.{◌≡◌, ℕ, ◌+◌, ◌↔◌, IsTrue};
ghost use Rattle.bit_addressing.specs.Range.{LiesIn};

use std::ops::{Range, RangeFrom, RangeFull, RangeInclusive, RangeTo, RangeToInclusive};

/// A range of indices: `a..b`, `..b`, `a..`, `..`, `a..=b` or `..=b`.
///
/// Its ends are compared as unbounded whole numbers, so `..=usize::MAX` lies in no length.
///
/// ```text
/// (2..5).lies_in(5)     == true
/// (2..=5).lies_in(5)    == false
/// (..=4).normalize(5)   == 0..5
/// ```
pub trait RangeExt: Drop {
    // The first index.
    ghost start_of: { Self → ℕ };

    // The index after the last, in a list of a length.
    ghost end_of: { Self → ℕ → ℕ };

    /// Whether the range's start is at most its end, and its end at most `len`.
    fn lies_in(&self, len: usize) -> bool
        ensures { IsTrue result ↔ LiesIn (start_of self.now) (end_of self.now len) len };

    /// The range with both its ends. Requires that it lies in `len`.
    fn normalize(self, len: usize) -> Range<usize>
        requires lies { LiesIn (start_of self) (end_of self len) len }
        ensures start { result.start ≡ start_of self }
        ensures end { result.end ≡ end_of self len };
}

impl RangeExt for Range<usize> {
    ghost start_of = { λ r. r.start };

    ghost end_of = { λ r len. r.end };

    fn lies_in(&self, len: usize) -> bool {
        self.start <= self.end && self.end <= len
    }

    fn normalize(self, _len: usize) -> Range<usize> {
        self
    }
}

impl RangeExt for RangeTo<usize> {
    ghost start_of = { λ r. 0 };

    ghost end_of = { λ r len. r.end };

    fn lies_in(&self, len: usize) -> bool {
        self.end <= len
    }

    fn normalize(self, _len: usize) -> Range<usize> {
        0..self.end
    }
}

impl RangeExt for RangeFrom<usize> {
    ghost start_of = { λ r. r.start };

    ghost end_of = { λ r len. len };

    fn lies_in(&self, len: usize) -> bool {
        self.start <= len
    }

    fn normalize(self, len: usize) -> Range<usize> {
        self.start..len
    }
}

impl RangeExt for RangeFull {
    ghost start_of = { λ r. 0 };

    ghost end_of = { λ r len. len };

    fn lies_in(&self, _len: usize) -> bool {
        true
    }

    fn normalize(self, len: usize) -> Range<usize> {
        0..len
    }
}

impl RangeExt for RangeInclusive<usize> {
    ghost use Rattle.std.specs.Prelude.{ℕ, ◌+◌};
    ghost use Rattle.std.specs.Range.{range_inclusive_start, range_inclusive_end};

    ghost start_of = { λ r. range_inclusive_start r };

    ghost end_of = { λ r len. range_inclusive_end r + 1 };

    fn lies_in(&self, len: usize) -> bool {
        let end = *self.end();
        end < len && *self.start() <= end + 1
    }

    fn normalize(self, _len: usize) -> Range<usize> {
        *self.start()..*self.end() + 1
    }
}

impl RangeExt for RangeToInclusive<usize> {
    ghost start_of = { λ r. 0 };

    ghost end_of = { λ r len. r.end + 1 };

    fn lies_in(&self, len: usize) -> bool {
        self.end < len
    }

    fn normalize(self, _len: usize) -> Range<usize> {
        0..self.end + 1
    }
}
