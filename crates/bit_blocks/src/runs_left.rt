//! The numbers of runs, one after another.
ghost use Rattle.std.specs.Prelude.{◌≡◌, ◌≤◌, All};
ghost use Rattle.bit_blocks.specs.Numbers.{numbers_between};
ghost use Rattle.bit_blocks.specs.RunPlaces.{EachMeets};
ghost use Rattle.bit_blocks.specs.Runs.{AreRuns, run_numbers};

use crate::ranged;
use crate::ranged::Run;
use std::iter::{DoubleEndedIterator, FusedIterator, Iterator};

/// The numbers of runs that are left, from both ends.
#[derive(Drop)]
pub struct RunsLeft<'a> {
    // What is left of the run that was begun from the front.
    from: u32,
    upto: u32,
    // The runs that were not begun.
    middle: &'a [Run],
    // What is left of the run that was begun from the back.
    back_from: u32,
    back_upto: u32,
    ghost front_small: { upto ≤ 65536 },
    ghost middle_ordered: { All (λ run. run.first ≤ run.last) middle.now },
    ghost back_small: { back_upto ≤ 65536 },
}

impl<'a> RunsLeft<'a> {
    ghost use Rattle.std.specs.Iterator.{YieldsFirst, YieldsLast};
    ghost use Rattle.bit_blocks.specs.RunsLeft.{runs_left};

    // All numbers of runs. Requires that these are in order and apart.
    pub(crate) fn of(runs: &'a [Run]) -> Self
        requires { AreRuns runs.now }
        ensures { runs_left result ≡ run_numbers runs.now }
    {
        RunsLeft {
            from: 0,
            upto: 0,
            middle: runs,
            back_from: 0,
            back_upto: 0,
        }
    }

    // The numbers of runs from `first` to `last`. Requires that the runs are in order and apart.
    pub(crate) fn between(runs: &'a [Run], first: u16, last: u16) -> Self
        requires runs { AreRuns runs.now }
        requires ordered { first ≤ last }
        ensures { runs_left result ≡ numbers_between first last (run_numbers runs.now) }
    {
        RunsLeft::clipped(ranged::meeting(runs, first, last), first, last)
    }

    // The same of runs that all have some of these numbers.
    fn clipped(runs: &'a [Run], first: u16, last: u16) -> Self
        requires runs { AreRuns runs.now }
        requires ordered { first ≤ last }
        requires meet { EachMeets runs.now first last }
        ensures { runs_left result ≡ numbers_between first last (run_numbers runs.now) }
    {
        let count = runs.len();
        if count == 0 {
            return RunsLeft::of(runs);
        }
        let (front, back) = (runs[0], runs[count - 1]);
        if count == 1 {
            return RunsLeft {
                from: front.first.max(first) as u32,
                upto: front.last.min(last) as u32 + 1,
                middle: &runs[1..],
                back_from: 0,
                back_upto: 0,
            };
        }
        RunsLeft {
            from: front.first.max(first) as u32,
            upto: front.last as u32 + 1,
            middle: &runs[1..count - 1],
            back_from: back.first as u32,
            back_upto: back.last.min(last) as u32 + 1,
        }
    }

    // Takes the first number that is left.
    #[inline(always)]
    pub(crate) fn pop_first(&mut self) -> Option<u16>
        ensures { YieldsFirst runs_left self.old result self.new }
    {
        if self.from < self.upto {
            self.from += 1;
            return Some((self.from - 1) as u16);
        }
        if self.middle.len() > 0 {
            let run = self.middle[0];
            self.middle = &self.middle[1..];
            self.from = run.first as u32 + 1;
            self.upto = run.last as u32 + 1;
            return Some(run.first);
        }
        if self.back_from < self.back_upto {
            self.back_from += 1;
            return Some((self.back_from - 1) as u16);
        }
        None
    }

    // Takes the last number that is left.
    fn pop_last(&mut self) -> Option<u16>
        ensures { YieldsLast runs_left self.old result self.new }
    {
        if self.back_from < self.back_upto {
            self.back_upto -= 1;
            return Some(self.back_upto as u16);
        }
        if self.middle.len() > 0 {
            let last = self.middle.len() - 1;
            let run = self.middle[last];
            self.middle = &self.middle[..last];
            self.back_from = run.first as u32;
            self.back_upto = run.last as u32;
            return Some(run.last);
        }
        if self.from < self.upto {
            self.upto -= 1;
            return Some(self.upto as u16);
        }
        None
    }
}

impl<'a> Iterator for RunsLeft<'a> {
    ghost use Rattle.std.specs.Iterator.{YieldsFirst, item_count};
    ghost use Rattle.bit_blocks.specs.RunsLeft.{runs_left};

    type Item = u16;

    ghost next_gives = { YieldsFirst runs_left };

    ghost remaining = { item_count runs_left };

    /// The least number that is left. None exactly where none is.
    #[inline(always)]
    fn next(&mut self) -> Option<u16> {
        self.pop_first()
    }
}

impl<'a> DoubleEndedIterator for RunsLeft<'a> {
    ghost use Rattle.std.specs.Iterator.{YieldsLast};
    ghost use Rattle.bit_blocks.specs.RunsLeft.{runs_left};

    ghost next_back_gives = { YieldsLast runs_left };

    /// The greatest number that is left. None exactly where none is.
    fn next_back(&mut self) -> Option<u16> {
        self.pop_last()
    }
}

impl<'a> FusedIterator for RunsLeft<'a> {}
