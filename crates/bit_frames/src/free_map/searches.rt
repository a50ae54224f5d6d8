//! Searches for runs of free frames.
ghost use Rattle.std.specs.Prelude.{◌≡◌, ◌+◌, ◌-◌, ◌^◌, ◌<◌, ◌≤◌, ℕ, true, MatchOption, length, replicate, slice_range};
ghost use Rattle.bit_addressing.specs.Row.{number_of, put};
ghost use Rattle.bit_frames.specs.FreeMap.{AreFree, IsFirstRun, IsFree, IsLastRun, IsNextRun, IsTaken};

use crate::free_map::FreeMap;
use bit_containers::BitList;

impl FreeMap {
    /// The lowest frame at which `count` free frames in a row begin. None exactly where there is no such run. Requires
    /// that `count` is at least 1. `take_run` takes them too.
    ///
    /// ```text
    /// frames.find_first_fit(4)        // Some(1), where frame 0 alone is taken
    /// ```
    pub fn find_first_fit(&self, count: usize) -> Option<usize>
        requires { 0 < count }
        ensures { MatchOption result ((k : ℕ) → AreFree self.now count k → ⊥)
            (λ first. IsFirstRun self.now count first) }
    {
        self.find_next_fit(0, count)
    }

    /// Like `find_first_fit`, but the lowest such frame from `from` on. None exactly where there is no such run from
    /// there on. Up to 512 frames are searched 64 at a time: those are passed of which fewer than `count` could be of a
    /// run.
    ///
    /// ```text
    /// frames.find_next_fit(64, 4)     // Some(64), where frame 0 alone is taken
    /// ```
    pub fn find_next_fit(&self, from: usize, count: usize) -> Option<usize>
        requires { 0 < count }
        ensures { MatchOption result ((k : ℕ) → from ≤ k → AreFree self.now count k → ⊥)
            (λ first. IsNextRun self.now count from first) }
    {
        let frames = self.frames();
        // Steps from one free frame to the next pass as many frames as are asked for.
        if count > 512 {
            return self.fit_within(from, frames, count);
        }
        let mut start = from;
        let mut at = from.min(frames) / 64 * 64;
        'scan: while frames - at >= 64 {
            let block = self.taken.load_le_at(at, 64);
            if let Some(first) = self.fit_near(start, at, block, count) {
                return Some(first);
            }
            start = self.after_taken(start, at, block);
            at += 64;
        }
        self.fit_within(start, frames, count)
    }

    // Like `find_next_fit`, where a run that ends in the 64 frames from `at` on is enough. Fewer frames than `count` that
    // could be of it are counted without a search. Requires that `block` has the bits of the 64 frames.
    #[inline(always)]
    fn fit_near(&self, start: usize, at: usize, block: u64, count: usize) -> Option<usize>
        requires some { 0 < count }
        requires inside { at + 64 ≤ length self.now }
        requires fits { at + 64 < 2 ^ 63 }
        requires block { block ≡ number_of (slice_range self.now at (at + 64)) }
        ensures { MatchOption result ((k : ℕ) → start ≤ k → k + count ≤ at + 64 → AreFree self.now count k → ⊥)
            (λ first. IsNextRun self.now count start first) }
    {
        let free = 64 - block.count_ones() as usize;
        if at.saturating_sub(start) + free < count {
            return None;
        }
        self.fit_within(start, at + 64, count)
    }

    // The frame after the last taken one of the 64 frames from `at` on, or `start` where that is a later one, or none is
    // taken. Requires that `block` has the bits of the 64 frames.
    #[inline(always)]
    fn after_taken(&self, start: usize, at: usize, block: u64) -> usize
        requires inside { at + 64 ≤ length self.now }
        requires fits { at + 64 < 2 ^ 63 }
        requires block { block ≡ number_of (slice_range self.now at (at + 64)) }
        ensures later { start ≤ result }
        ensures taken { start < result → (result ≤ at + 64) × IsTaken self.now (result - 1) }
    {
        if block == 0 {
            return start;
        }
        start.max(at + (64 - block.leading_zeros() as usize))
    }

    // Like `find_next_fit`, where a run that ends by `end` is enough: step by step from one free frame to the next.
    fn fit_within(&self, from: usize, end: usize, count: usize) -> Option<usize>
        requires some { 0 < count }
        requires inside { end ≤ length self.now }
        ensures { MatchOption result ((k : ℕ) → from ≤ k → k + count ≤ end → AreFree self.now count k → ⊥)
            (λ first. IsNextRun self.now count from first) }
    {
        let mut at = from;
        while let Some(first) = self.taken.next_zero(at) {
            if first > end || end - first < count {
                return None;
            }
            // Each run up to the last taken frame of these has one that is taken, so the frames before it are passed.
            let Some(last) = self.last_taken(first, count) else {
                return Some(first);
            };
            at = last + 1;
        }
        None
    }

    // The last taken one of `count` frames from `first` on. Requires that the map has them, and that the first is free.
    fn last_taken(&self, first: usize, count: usize) -> Option<usize>
        requires free { IsFree self.now first }
        requires inside { first + count ≤ length self.now }
        ensures { MatchOption result (AreFree self.now count first)
            (λ last. (first ≤ last) × (last < first + count) × IsTaken self.now last) }
    {
        match self.taken.prev_one(first + count) {
            Some(last) if last > first => Some(last),
            _ => None,
        }
    }

    /// Like `find_first_fit`, but the highest such frame, which is searched from the end on.
    ///
    /// ```text
    /// frames.find_last_fit(4)         // Some(1020), where frame 0 of 1024 is taken
    /// ```
    pub fn find_last_fit(&self, count: usize) -> Option<usize>
        requires { 0 < count }
        ensures { MatchOption result ((k : ℕ) → AreFree self.now count k → ⊥)
            (λ first. IsLastRun self.now count first) }
    {
        let mut upto = self.frames();
        while let Some(last) = self.taken.prev_zero(upto) {
            let start = self.begin_of(last);
            if last - start >= count - 1 {
                return Some(last - (count - 1));
            }
            upto = start;
        }
        None
    }

    // The first of the free frames in a row that end with this one. Requires that it is free.
    fn begin_of(&self, last: usize) -> usize
        requires { IsFree self.now last }
        ensures order { result ≤ last }
        ensures free { (j : ℕ) → result ≤ j → j ≤ last → IsFree self.now j }
        ensures before { (j : ℕ) → j + 1 ≡ result → IsTaken self.now j }
    {
        match self.taken.prev_one(last) {
            None => 0,
            Some(taken) => taken + 1,
        }
    }

    /// Takes `count` free frames in a row like `take_run`, but the lowest ones from `from` on. None exactly where there
    /// is no such run from there on, and then nothing changes. Requires that `count` is at least 1.
    ///
    /// ```text
    /// frames.take_next_fit(64, 4)     // Some(64), and the second time Some(68)
    /// ```
    #[tactic(auto, using(crate::proofs::Frames::marked_length))]
    pub fn take_next_fit(&mut self, from: usize, count: usize) -> Option<usize>
        requires { 0 < count }
        ensures run { MatchOption result
            ((self.new ≡ self.old) × ((k : ℕ) → from ≤ k → AreFree self.old count k → ⊥))
            (λ first. (self.new ≡ put self.old first (replicate count true)) × IsNextRun self.old count from first) }
        ensures frames { length self.new ≡ length self.old }
    {
        match self.find_next_fit(from, count) {
            None => None,
            Some(first) => {
                self.mark_taken(first, count);
                Some(first)
            }
        }
    }

    /// Takes `count` free frames in a row like `take_run`, but the highest ones. None exactly where there is no such
    /// run, and then nothing changes. Requires that `count` is at least 1.
    ///
    /// ```text
    /// frames.take_last_fit(4)         // Some(1020) of 1024 frames, and the second time Some(1016)
    /// ```
    #[tactic(auto, using(crate::proofs::Frames::marked_length))]
    pub fn take_last_fit(&mut self, count: usize) -> Option<usize>
        requires { 0 < count }
        ensures run { MatchOption result ((self.new ≡ self.old) × ((k : ℕ) → AreFree self.old count k → ⊥))
            (λ first. (self.new ≡ put self.old first (replicate count true)) × IsLastRun self.old count first) }
        ensures frames { length self.new ≡ length self.old }
    {
        match self.find_last_fit(count) {
            None => None,
            Some(first) => {
                self.mark_taken(first, count);
                Some(first)
            }
        }
    }
}
