//! The impls of std's traits for the map.
ghost use Rattle.std.specs.Prelude.{◌≡◌, ◌↔◌, IsTrue, Some};
ghost use Rattle.std.specs.Cmp.{partial_equiv_from_equiv};
ghost use Rattle.bit_slice.specs.Comparisons.{bits_equal, bits_equiv};
ghost use Rattle.bit_frames.specs.FreeRuns.{map_text};

use crate::free_map::FreeMap;
use bit_containers::BitList;
use std::alloc::AllocError;
use std::fmt;

impl Clone for FreeMap {
    ghost use Rattle.std.specs.Prelude.{◌≡◌, []};

    ghost is_clone = { λ map copy. copy ≡ map };

    ghost is_infallible = { λ map. map ≡ [] };

    /// A copy. Allocates, and can fail, only where there is a frame.
    fn clone(&self) -> Result<Self, AllocError> {
        let taken = self.taken.clone()?;
        Ok(FreeMap {
            taken,
            free: self.free,
        })
    }
}

impl PartialEq for FreeMap {
    ghost eq = { bits_equal };

    ghost laws = { partial_equiv_from_equiv bits_equiv };

    /// Whether both have as many frames, of which the same are taken.
    #[tactic(auto, using(bit_slice::specs::Comparisons::equal_lists, std::proofs::lemmas::Bool::Decides::same_from_decides))]
    fn eq(&self, other: &Self) -> bool
        ensures value { result ≡ bits_equal self.now other.now }
        ensures maps { IsTrue result ↔ (self.now ≡ other.now) }
    {
        self.taken == other.taken
    }
}

impl Eq for FreeMap {
    ghost laws = { bits_equiv };
}

/// The number of frames, and the runs of free ones.
impl fmt::Debug for FreeMap {
    fn fmt<W: fmt::Write>(&self, f: &mut fmt::Formatter<W>) -> fmt::Result {
        let frames = self.frames();
        write!(f, "FreeMap {{ frames: {frames}, free: {self} }}")
    }
}

/// The runs of free frames, ascending, with `,` between two: the first frame, and after `-` the last, where it is
/// another.
///
/// ```text
/// println!(rt; "{frames}")?;      // 0-3,7
/// ```
impl fmt::Display for FreeMap {
    ghost output = { λ m. Some (map_text m) };

    fn fmt<W: fmt::Write>(&self, f: &mut fmt::Formatter<W>) -> fmt::Result {
        self.taken.ranges_text(false).fmt(f)
    }
}
