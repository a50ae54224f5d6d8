//! The impls of std's traits for the set.
ghost use Rattle.std.specs.Prelude.{◌≡◌, ◌^◌, ◌↔◌, IsTrue, Some, refl};
ghost use Rattle.std.specs.Cmp.{partial_equiv_from_equiv};
ghost use Rattle.std.specs.Iterator.{YieldsFirst, YieldsLast};
ghost use Rattle.std.specs.Iterator.Runs.{YieldsInOrder, YieldsInReverse};
ghost use Rattle.bit_roaring.specs.Compared.{numbers_alike, numbers_cmp, numbers_equiv, numbers_fed, numbers_partial, numbers_tie, numbers_total, same_numbers};
ghost use Rattle.bit_roaring.specs.SetLeft.{set_left};

use crate::iter::SetIter;
use crate::keyed;
use crate::set::RoaringSet;
use std::alloc::AllocError;
use std::cmp::Ordering;
use std::fmt;
use std::hash::{Hash, Hasher};

impl Clone for RoaringSet {
    ghost use Rattle.std.specs.Prelude.{◌≡◌};

    ghost is_clone = { λ set copy. copy ≡ set };

    ghost is_infallible = { λ _. ⊥ };

    /// A copy, its blocks in the same forms.
    fn clone(&self) -> Result<Self, AllocError> {
        let blocks = keyed::copied(*self.blocks.allocator(), &self.blocks)?;
        Ok(RoaringSet { blocks })
    }
}

impl PartialEq for RoaringSet {
    ghost eq = { same_numbers };

    ghost laws = { partial_equiv_from_equiv numbers_equiv };

    /// Whether both have the same numbers, however they keep them. Takes no memory.
    fn eq(&self, other: &Self) -> bool
        ensures value { result ≡ same_numbers self.now other.now }
        ensures numbers { IsTrue result ↔ (self.now ≡ other.now) }
    {
        self.has_same_numbers(other)
    }
}

impl Eq for RoaringSet {
    ghost laws = { numbers_equiv };
}

impl RoaringSet {
    // Whether both have the same numbers.
    fn has_same_numbers(&self, other: &Self) -> bool
        ensures { IsTrue result ↔ (self.now ≡ other.now) }
    {
        keyed::are_same(&self.blocks, &other.blocks)
    }
}

impl PartialOrd for RoaringSet {
    ghost partial_cmp = { λ a b. Some (numbers_cmp a b) };

    ghost laws = { numbers_partial };

    /// Like `cmp`.
    fn partial_cmp(&self, other: &Self) -> Option<Ordering> {
        Some(self.cmp(other))
    }
}

impl Ord for RoaringSet {
    ghost cmp = { numbers_cmp };

    ghost total = { numbers_total };

    ghost matches_partial_cmp = { λ a b. refl };

    ghost matches_eq = { numbers_tie };

    /// How the ascending lists of the numbers are ordered: the first numbers that differ decide, and where none do the
    /// shorter list is the smaller. Takes no memory.
    fn cmp(&self, other: &Self) -> Ordering {
        self.iter().cmp(other.iter())
    }
}

impl Hash for RoaringSet {
    ghost hash_input = { numbers_fed };

    ghost respects_eq = { numbers_alike.fed };

    /// Feeds how many numbers there are, and then each, ascending.
    fn hash<H: Hasher>(&self, state: &mut H) {
        state.write_usize(self.len() as usize);
        for number in self.iter() {
            state.write_u32(number);
        }
    }
}

impl<'a> IntoIterator for &'a RoaringSet {
    type Item = u32;

    type IntoIter = SetIter<'a>;

    ghost into_iter_gives = { λ s r. (set_left r ≡ s.now) × YieldsInOrder (YieldsFirst set_left) set_left
        × YieldsInReverse (YieldsLast set_left) set_left };

    /// Like `iter`.
    fn into_iter(self) -> SetIter<'a> {
        self.iter()
    }
}

/// The numbers, ascending, between braces.
///
/// ```text
/// println!(rt; "{set:?}")?;      // {1, 4, 9}
/// ```
impl fmt::Debug for RoaringSet {
    fn fmt<W: fmt::Write>(&self, f: &mut fmt::Formatter<W>) -> fmt::Result {
        f.debug_set().entries(self.iter()).finish()
    }
}
