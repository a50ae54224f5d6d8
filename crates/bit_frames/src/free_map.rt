//! An allocator's map of frames, one bit each.
ghost use Rattle.std.specs.Prelude.{◌≡◌, ◌+◌, ◌-◌, ◌++◌, ◌≤◌, ◌<◌, ◌↔◌, ℕ, Bool, List, false, true, not, EachIndex, Err, IfNone, IfOk, IfSome, IsOk, IsTrue, MatchOption, OnErr, OnOk, Some, length, replicate, set, slice_get};
ghost use Rattle.std.specs.List.{count_by};
ghost use Rattle.bit_addressing.specs.declared.errors.GrowError.TheVariants as errors;
ghost use Rattle.bit_addressing.specs.declared.length.TheConstants.{MAX_BITS};
ghost use Rattle.bit_addressing.specs.Row.{put};
ghost use Rattle.bit_slice.specs.BitSlice.{len_of, list_of};
ghost use Rattle.bit_frames.specs.FreeMap.{AreFree, AreTaken, IsFirstRun};

mod fits;
mod reserving;
mod runs;
mod searches;
mod serving;
mod traits;

use bit_addressing::{GrowError, Lsb0};
use bit_containers::{BitList, BitListMut, BitSlice, BitVec};
pub use reserving::NotFree;
pub use serving::{Reply, Request};
use std::alloc::Global;
use std::marker::Model;

/// A frame that was given back is free already.
#[derive(Debug, Drop, Clone, Copy, PartialEq, Eq)]
pub struct NotTaken;

/// Which of an allocator's frames are taken.
///
/// In contracts a map is a list of truth values: item `k` says whether frame `k` is taken.
///
/// ```rust
/// use bit_frames::FreeMap;
///
/// let mut frames = FreeMap::new(rt.alloc(), 64)?;
/// println!(&rt; "{:?}, {:?}", frames.take(), frames.take_run(16))?;
/// println!(&rt; "{}, again {}", frames.give_back(0, 1).is_ok(), frames.give_back(0, 1).is_ok())?;
/// println!(&rt; "{} free: {frames}", frames.count_free())?;
/// ```
///
/// ```text
/// Some(0), Some(1)
/// true, again false
/// 48 free: 0,17-63
/// ```
#[derive(Drop)]
pub struct FreeMap {
    taken: BitVec<usize, Lsb0>,
    free: usize,
}

impl Model for FreeMap {
    ghost use Rattle.std.specs.Prelude.{Bool, List};
    ghost use Rattle.std.specs.Coded.{coded_list, coded_bool};
    ghost use Rattle.bit_frames.specs.FreeMap.{IsCounted};

    ghost Value = { List Bool };

    ghost coded = { coded_list coded_bool };

    ghost view = { λ m. m.taken.list };

    ghost invariant = { λ m. IsCounted m.taken.list m.free };
}

impl FreeMap {
    /// A map of `frames` frames, all free. Returns `TooLong` exactly where `frames` passes `MAX_BITS`. Takes no
    /// memory where `frames` is 0.
    pub fn new(alloc: Global, frames: usize) -> Result<Self, GrowError>
        ensures free { IfOk result (λ m. m ≡ replicate frames false) }
        ensures too_long { (result ≡ Err errors.TooLong) ↔ (MAX_BITS < frames) }
        ensures memory { result ≡ Err errors.OutOfMemory → 0 < frames }
    {
        let taken = BitVec::repeat(alloc, false, frames)?;
        Ok(FreeMap {
            taken,
            free: frames,
        })
    }

    /// The number of frames.
    pub fn frames(&self) -> usize
        ensures { result ≡ length self.now }
    {
        self.taken.len()
    }

    /// Whether a frame is taken. Requires that it is one of the map's.
    pub fn is_taken(&self, frame: usize) -> bool
        requires { frame < length self.now }
        ensures { slice_get self.now frame ≡ Some result }
    {
        self.taken[frame]
    }

    /// The bits of the map, as a view: bit `k` says whether frame `k` is taken.
    ///
    /// ```text
    /// frames.as_bitslice().count_ones()       // how many frames are taken
    /// ```
    pub fn as_bitslice(&self) -> BitSlice<'_, usize, Lsb0>
        ensures list { list_of result ≡ self.now }
        ensures len { len_of result ≡ length self.now }
    {
        self.taken.as_bitslice()
    }

    /// The number of free frames. The map keeps the count.
    pub fn count_free(&self) -> usize
        ensures { result ≡ count_by not self.now }
    {
        self.free
    }

    /// Takes the lowest free frame, which is searched by whole words. None exactly where no frame is free,
    /// and then nothing changes.
    pub fn take(&mut self) -> Option<usize>
        ensures taken { IfSome result (λ frame. self.new ≡ set self.old frame true) }
        ensures free { IfSome result (λ frame. slice_get self.old frame ≡ Some false) }
        ensures lowest { IfSome result (λ frame. (j : ℕ) → j < frame → slice_get self.old j ≡ Some true) }
        ensures none { IfNone result ((self.new ≡ self.old)
            × EachIndex self.old (λ j. slice_get self.old j ≡ Some true)) }
    {
        match self.taken.first_zero() {
            None => None,
            Some(frame) => {
                self.taken.set(frame, true);
                self.free -= 1;
                Some(frame)
            }
        }
    }

    /// Takes the lowest `count` free frames in a row, which are searched by whole words. None exactly where
    /// there is no such run, and then nothing changes. Requires that `count` is at least 1.
    #[tactic(auto, using(crate::proofs::Frames::marked_length))]
    pub fn take_run(&mut self, count: usize) -> Option<usize>
        requires { 0 < count }
        ensures run { MatchOption result ((self.new ≡ self.old) × ((k : ℕ) → AreFree self.old count k → ⊥))
            (λ first. (self.new ≡ put self.old first (replicate count true)) × IsFirstRun self.old count first) }
        ensures frames { length self.new ≡ length self.old }
    {
        match self.find_first_fit(count) {
            None => None,
            Some(first) => {
                self.mark_taken(first, count);
                Some(first)
            }
        }
    }

    // Marks free frames as taken. Requires that they are frames of the map, and free.
    #[tactic(auto, using(crate::proofs::Counted::taken_count, crate::proofs::Frames::marked_length))]
    fn mark_taken(&mut self, first: usize, count: usize)
        requires inside { first + count ≤ length self.old }
        requires free { AreFree self.old count first }
        ensures { self.new ≡ put self.old first (replicate count true) }
    {
        self.taken.fill_range(first..first + count, true);
        self.free -= count;
    }

    /// Makes the map one of `frames` frames; those that are added are free. Returns `TooLong` exactly where `frames`
    /// passes `MAX_BITS`. Takes memory only where a frame is added; a refusal changes nothing. Requires that `frames`
    /// is not less than it is now.
    pub fn grow(&mut self, frames: usize) -> Result<(), GrowError>
        requires { length self.old ≤ frames }
        ensures list { OnOk result (self.new ≡ self.old ++ replicate (frames - length self.old) false) }
        ensures too_long { (result ≡ Err errors.TooLong) ↔ ((length self.old < frames) × (MAX_BITS < frames)) }
        ensures memory { result ≡ Err errors.OutOfMemory → length self.old < frames }
        ensures refused { OnErr result (self.new ≡ self.old) }
    {
        let added = frames - self.taken.len();
        self.taken.resize(frames, false)?;
        self.free += added;
        Ok(())
    }

    /// Gives back `count` frames from `first` on: they are free afterwards, and no other frame changes. It is refused
    /// where one of them is free already, and then nothing changes. Giving back frames that were taken makes the map
    /// what it was before they were taken. Requires that they are frames of the map.
    #[tactic(auto, using(crate::proofs::Frames::marked_length))]
    pub fn give_back(&mut self, first: usize, count: usize) -> Result<(), NotTaken>
        requires { first + count ≤ length self.old }
        ensures list { OnOk result (self.new ≡ put self.old first (replicate count false)) }
        ensures taken { OnOk result (AreTaken self.old count first) }
        ensures free { OnErr result (AreTaken self.old count first → ⊥) }
        ensures refused { OnErr result (self.new ≡ self.old) }
        ensures frames { length self.new ≡ length self.old }
        ensures restores { (before : List Bool) → AreFree before count first
            → self.old ≡ put before first (replicate count true) → IsOk result × (self.new ≡ before) }
    {
        if !self.are_taken(first, count) {
            return Err(NotTaken);
        }
        self.taken.fill_range(first..first + count, false);
        self.free += count;
        Ok(())
    }

    // Whether `count` frames from `first` on are all taken. Requires that they are frames of the map.
    #[tactic(auto, using(crate::proofs::Frames::all_taken))]
    fn are_taken(&self, first: usize, count: usize) -> bool
        requires { first + count ≤ length self.now }
        ensures { IsTrue result ↔ AreTaken self.now count first }
    {
        self.taken.get_range(first..first + count).all()
    }
}
