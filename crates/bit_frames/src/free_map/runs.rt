//! The runs of free frames, one by one.
ghost use Rattle.std.specs.Iterator.{YieldsFirst};
ghost use Rattle.std.specs.Iterator.Runs.{YieldsInOrder};
ghost use Rattle.std.specs.Prelude.{◌≡◌};
ghost use Rattle.bit_slice.specs.BitRuns.{ranges_left};
ghost use Rattle.bit_frames.specs.FreeRuns.{free_runs_of};

use crate::free_map::FreeMap;
use bit_addressing::{BitOrder, BitStore, Lsb0};
use bit_containers::{BitList, IterRanges};

impl FreeMap {
    /// The runs of free frames, ascending, each a whole run. 64 frames are read at a time.
    ///
    /// ```text
    /// frames.iter_free_runs()         // 1..1024, where frame 0 of 1024 is taken
    /// ```
    pub fn iter_free_runs(&self) -> IterRanges<'_, usize, Lsb0>
        ensures list { ranges_left result ≡ free_runs_of self.now }
        ensures runs { YieldsInOrder
            (YieldsFirst (ranges_left {W = ⟦<usize as BitStore>⟧} {P = ⟦<Lsb0 as BitOrder>⟧})) ranges_left }
    {
        self.taken.iter_ranges(false)
    }
}
