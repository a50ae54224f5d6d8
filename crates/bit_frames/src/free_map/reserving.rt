//! Calls on given frames: whether they are free, and taking them.
ghost use Rattle.std.specs.Prelude.{◌≡◌, ◌-◌, ◌<◌, ◌≤◌, ◌↔◌, ℕ, true, IsTrue, OnErr, OnOk, length, replicate};
ghost use Rattle.bit_addressing.specs.Row.{put};
ghost use Rattle.bit_frames.specs.FreeMap.{AreFree, IsFree, IsTaken};

use crate::free_map::FreeMap;
use bit_containers::BitList;
use std::ops::Range;

/// A frame that was to be reserved is not free: it is taken, or none of the map's.
#[derive(Debug, Drop, Clone, Copy, PartialEq, Eq)]
pub struct NotFree;

impl FreeMap {
    /// Whether a frame is free. One that is not of the map isn't.
    ///
    /// ```text
    /// frames.is_free(0)               // false, where frame 0 is taken
    /// ```
    pub fn is_free(&self, frame: usize) -> bool
        ensures { IsTrue result ↔ IsFree self.now frame }
    {
        matches!(self.taken.get(frame), Some(false))
    }

    /// Whether each frame of a range is free, which is tested by whole words. Of an empty range it is true; a frame that
    /// is not of the map isn't free.
    ///
    /// ```text
    /// frames.is_run_free(16..20)      // true, where frame 0 alone is taken
    /// ```
    pub fn is_run_free(&self, frames: Range<usize>) -> bool
        ensures { IsTrue result ↔ AreFree self.now (frames.end - frames.start) frames.start }
    {
        if frames.start >= frames.end {
            return true;
        }
        frames.end <= self.frames() && !self.taken.any_in(frames)
    }

    /// Takes each frame of a range, by whole words. It is refused where one of them is not free, and then nothing
    /// changes. Of an empty range nothing changes either.
    ///
    /// ```text
    /// frames.reserve(0..16)           // Ok(()), and the second time Err(NotFree)
    /// ```
    pub fn reserve(&mut self, frames: Range<usize>) -> Result<(), NotFree>
        ensures list { OnOk result
            (self.new ≡ put self.old frames.start (replicate (frames.end - frames.start) true)) }
        ensures free { OnOk result (AreFree self.old (frames.end - frames.start) frames.start) }
        ensures now { OnOk result ((j : ℕ) → frames.start ≤ j → j < frames.end → IsTaken self.new j) }
        ensures inside { OnOk result (frames.start < frames.end → frames.end ≤ length self.old) }
        ensures taken { OnErr result (AreFree self.old (frames.end - frames.start) frames.start → ⊥) }
        ensures refused { OnErr result (self.new ≡ self.old) }
        ensures frames { length self.new ≡ length self.old }
    {
        let (start, end) = (frames.start, frames.end);
        if start >= end {
            return Ok(());
        }
        if !self.is_run_free(frames) {
            return Err(NotFree);
        }
        self.mark_taken(start, end - start);
        Ok(())
    }
}
