//! Calls that take frames from a multiple of a number on, or where they fit best.
ghost use Rattle.std.specs.Prelude.{◌≡◌, ◌%◌, ◌<◌, ◌≤◌, ℕ, true, IfNone, IfSome, MatchOption, Some, length, replicate};
ghost use Rattle.bit_addressing.specs.Row.{put};
ghost use Rattle.bit_frames.specs.FreeMap.{AreFree, IsBestBelow, IsBestFit, IsFirstAligned};

use crate::free_map::FreeMap;
use bit_containers::BitList;

impl FreeMap {
    /// Like `take_run`, but the first frame is a multiple of `align`. Requires that `count` and `align` are at least 1.
    ///
    /// ```text
    /// frames.take_aligned(4, 16)      // Some(16), where frame 0 is taken
    /// ```
    #[tactic(auto, using(crate::proofs::Frames::marked_length))]
    pub fn take_aligned(&mut self, count: usize, align: usize) -> Option<usize>
        requires count { 0 < count }
        requires align { 0 < align }
        ensures run { MatchOption result
            ((self.new ≡ self.old) × ((k : ℕ) → k % align ≡ 0 → AreFree self.old count k → ⊥))
            (λ first. (self.new ≡ put self.old first (replicate count true))
            × IsFirstAligned self.old count align first) }
        ensures frames { length self.new ≡ length self.old }
    {
        match self.find_aligned(count, align) {
            None => None,
            Some(first) => {
                self.mark_taken(first, count);
                Some(first)
            }
        }
    }

    // The lowest multiple of `align` at which a run of `count` free frames begins.
    fn find_aligned(&self, count: usize, align: usize) -> Option<usize>
        requires count { 0 < count }
        requires align { 0 < align }
        ensures { MatchOption result ((k : ℕ) → k % align ≡ 0 → AreFree self.now count k → ⊥)
            (λ first. IsFirstAligned self.now count align first) }
    {
        let mut from = 0;
        while let Some(first) = self.taken.next_zero(from) {
            let end = self.taken.next_one(first).unwrap_or(self.taken.len());
            let gap = (align - first % align) % align;
            if gap <= end - first && count <= end - first - gap {
                return Some(first + gap);
            }
            from = end;
        }
        None
    }

    /// Takes `count` free frames in a row where they fit best: the first of the shortest run of free frames that is
    /// long enough, or of the lowest such run where several are as short. None exactly where no run is long enough,
    /// and then nothing changes. Requires that `count` is at least 1.
    ///
    /// ```text
    /// frames.take_best_fit(2)         // Some(9), where frames 4 to 7 and 9 to 10 are free
    /// ```
    #[tactic(auto, using(crate::proofs::Frames::marked_length))]
    pub fn take_best_fit(&mut self, count: usize) -> Option<usize>
        requires { 0 < count }
        ensures run { MatchOption result ((self.new ≡ self.old) × ((k : ℕ) → AreFree self.old count k → ⊥))
            (λ first. (self.new ≡ put self.old first (replicate count true)) × IsBestFit self.old count first) }
        ensures frames { length self.new ≡ length self.old }
    {
        match self.find_best_fit(count) {
            None => None,
            Some(first) => {
                self.mark_taken(first, count);
                Some(first)
            }
        }
    }

    // The lowest of the shortest runs of free frames that are long enough.
    fn find_best_fit(&self, count: usize) -> Option<usize>
        requires { 0 < count }
        ensures { MatchOption result ((k : ℕ) → AreFree self.now count k → ⊥)
            (λ first. IsBestFit self.now count first) }
    {
        match self.best_run(count) {
            None => None,
            Some((first, _)) => Some(first),
        }
    }

    // The first frame and the length of the run of free frames in which `count` frames fit best.
    fn best_run(&self, count: usize) -> Option<(usize, usize)>
        requires { 0 < count }
        ensures { IsBestBelow self.now count (length self.now) result }
    {
        let mut best = None;
        let mut from = 0;
        while let Some(first) = self.taken.next_zero(from) {
            from = self.taken.next_one(first).unwrap_or(self.taken.len());
            best = better(best, first, from - first, count);
        }
        best
    }
}

// Of the best run so far and one that is higher, the shorter that is long enough.
fn better(
    best: Option<(usize, usize)>,
    first: usize,
    len: usize,
    count: usize,
) -> Option<(usize, usize)>
    ensures short { len < count → result ≡ best }
    ensures alone { count ≤ len → IfNone best (result ≡ Some (first, len)) }
    ensures kept { count ≤ len → IfSome best (λ b. b.1 ≤ len → result ≡ best) }
    ensures shorter { count ≤ len → IfSome best (λ b. len < b.1 → result ≡ Some (first, len)) }
{
    if len < count {
        return best;
    }
    let Some((_, shortest)) = best else {
        return Some((first, len));
    };
    if shortest <= len {
        return best;
    }
    Some((first, len))
}
