//! A set of numbers of 32 bits.
ghost use Rattle.std.specs.Prelude.{◌≡◌, ◌≤◌, ◌<◌, ◌-◌, ◌↔◌, ◌^◌, ℕ, [], IfOk, IsTrue, OnErr, OnOk, false, length, not, slice_get, true};
ghost use Rattle.std.specs.Iterator.{YieldsFirst, YieldsLast};
ghost use Rattle.std.specs.Iterator.Runs.{YieldsInOrder, YieldsInReverse};
ghost use Rattle.bit_roaring.specs.Changes.{Toggles};
ghost use Rattle.bit_roaring.specs.SetLeft.{set_left};
ghost use Rattle.bit_blocks.specs.Numbers.{AscendsIn, Combines, Gains, Loses, count_below, count_where, has};
ghost use Rattle.bit_blocks.specs.Operation.{made_by};

mod bytes;
mod collect;
mod combined;
mod counted;
mod nearest;
mod ranges;
mod traits;

use crate::iter::SetIter;
use crate::keyed;
use crate::keyed::get;
use bit_blocks::Keyed;
use std::alloc::{AllocError, Global};
use std::marker::Model;

/// A set of numbers of 32 bits that is small where it is sparse.
///
/// Its numbers lie in blocks of 65536, each a sorted list, a bit for each number, or, after `optimize`, runs. In
/// contracts a set is the ascending list of its numbers.
///
/// ```rust
/// use bit_roaring::RoaringSet;
///
/// let mut seen = RoaringSet::new(rt.alloc());
/// seen.insert(4000000000)?;
/// seen.insert_range(10..13)?;
/// seen.remove(11)?;
/// println!(&rt; "{seen:?}, below 20: {}", seen.count_in(..20))?;
/// for number in seen.range(12..) {
///     println!(&rt; "{number}, rank {}", seen.rank(number))?;
/// }
/// let bytes = seen.to_bytes(true)?;
/// let read = RoaringSet::from_bytes(rt.alloc(), &bytes)?;
/// println!(&rt; "{} bytes, the same set: {}", bytes.len(), read == seen)?;
/// ```
///
/// ```text
/// {10, 12, 4000000000}, below 20: 2
/// 12, rank 1
/// 4000000000, rank 2
/// 30 bytes, the same set: true
/// ```
#[derive(Drop)]
pub struct RoaringSet {
    blocks: Vec<Keyed>,
}

impl Model for RoaringSet {
    ghost use Rattle.std.specs.Prelude.{ℕ, List};
    ghost use Rattle.std.specs.Coded.{coded_list, coded_ℕ};
    ghost use Rattle.bit_roaring.specs.Keyed.{AreKeyed, set_numbers};

    ghost Value = { List ℕ };

    ghost coded = { coded_list coded_ℕ };

    ghost view = { λ s. set_numbers s.blocks.items };

    ghost invariant = { λ s. AreKeyed s.blocks.items };
}

impl RoaringSet {
    /// The empty set. Takes no memory.
    pub fn new(alloc: Global) -> Self
        ensures { result ≡ [] }
    {
        RoaringSet {
            blocks: Vec::new(alloc),
        }
    }

    /// The set of ascending numbers. Requires that each is greater than the one before it; `collect` takes numbers in
    /// whatever order. Takes memory for its blocks alone.
    ///
    /// ```text
    /// RoaringSet::from_ascending(alloc, &[2, 3, 70000])? holds 2, 3, 70000
    /// ```
    pub fn from_ascending(alloc: Global, numbers: &[u32]) -> Result<Self, AllocError>
        requires { AscendsIn 0 (2 ^ 32) numbers.now }
        ensures { IfOk result (λ set. set ≡ numbers.now) }
    {
        let blocks = keyed::ascending::of_ascending(alloc, numbers)?;
        Ok(RoaringSet { blocks })
    }

    /// The count of numbers.
    #[tactic(auto, using(crate::proofs::Sets::set_ascends))]
    pub fn len(&self) -> u64
        ensures value { result ≡ length self.now }
        ensures ascends { AscendsIn 0 (2 ^ 32) self.now }
    {
        keyed::count(&self.blocks)
    }

    // The numbers ascend. Does nothing: a proof that has the set alone calls it.
    #[tactic(auto, using(crate::proofs::Sets::set_ascends))]
    fn prove_order(&self)
        ensures { AscendsIn 0 (2 ^ 32) self.now }
    {
        let _ = &self.blocks;
    }

    /// Whether there is no number.
    #[tactic(auto, using(crate::proofs::Counted::no_blocks, crate::proofs::Counted::no_numbers))]
    pub fn is_empty(&self) -> bool
        ensures { IsTrue result ↔ (self.now ≡ []) }
    {
        self.blocks.len() == 0
    }

    /// Whether a number is in the set.
    pub fn contains(&self, number: u32) -> bool
        ensures { result ≡ has self.now number }
    {
        keyed::contains(&self.blocks, number)
    }

    /// The count of numbers below `number`.
    pub fn rank(&self, number: u32) -> u64
        ensures { result ≡ count_below self.now number }
    {
        keyed::rank(&self.blocks, number)
    }

    /// The `k`-th number, ascending, counted from 0. None exactly where there are at most `k`.
    pub fn select(&self, k: u64) -> Option<u32>
        ensures { result ≡ slice_get self.now k }
    {
        keyed::select(&self.blocks, k)
    }

    /// The least number. None exactly where there is none.
    pub fn first(&self) -> Option<u32>
        ensures { result ≡ slice_get self.now 0 }
    {
        self.select(0)
    }

    /// The greatest number. None exactly where there is none.
    pub fn last(&self) -> Option<u32>
        ensures { result ≡ slice_get self.now (length self.now - 1) }
    {
        self.iter().next_back()
    }

    /// Puts a number in, and returns whether it was not there. Where memory is refused, the set is as it was.
    #[tactic(auto, using(crate::proofs::Sets::found_in_set, crate::proofs::Sets::set_gains_at))]
    pub fn insert(&mut self, number: u32) -> Result<bool, AllocError>
        ensures new { IfOk result (λ new. new ≡ not (has self.old number)) }
        ensures gains { OnOk result (Gains self.old self.new number) }
        ensures refused { OnErr result (self.new ≡ self.old) }
    {
        keyed::insert(
            &mut self.blocks,
            (number / 65536) as u16,
            (number % 65536) as u16,
        )
    }

    /// Takes a number out, and returns whether it was there. Where memory is refused, the set is as it was.
    #[tactic(auto, using(crate::proofs::Sets::found_in_set, crate::proofs::Sets::set_loses_at))]
    pub fn remove(&mut self, number: u32) -> Result<bool, AllocError>
        ensures old { IfOk result (λ old. old ≡ has self.old number) }
        ensures loses { OnOk result (Loses self.old self.new number) }
        ensures refused { OnErr result (self.new ≡ self.old) }
    {
        keyed::remove(
            &mut self.blocks,
            (number / 65536) as u16,
            (number % 65536) as u16,
        )
    }

    /// Takes a number out where it is there, and else puts it in. Returns whether it is in the set afterwards. Where memory
    /// is refused, the set is as it was.
    ///
    /// ```text
    /// of 2, 3: set.toggle(3)? == false leaves 2
    /// ```
    pub fn toggle(&mut self, number: u32) -> Result<bool, AllocError>
        ensures now { IfOk result (λ now. now ≡ not (has self.old number)) }
        ensures toggles { OnOk result (Toggles self.old self.new number) }
        ensures refused { OnErr result (self.new ≡ self.old) }
    {
        if self.contains(number) {
            self.remove(number)?;
            return Ok(false);
        }
        self.insert(number)?;
        Ok(true)
    }

    /// The numbers, ascending, from both ends.
    pub fn iter(&self) -> SetIter<'_>
        ensures list { set_left result ≡ self.now }
        ensures runs { YieldsInOrder (YieldsFirst set_left) set_left }
        ensures runs_back { YieldsInReverse (YieldsLast set_left) set_left }
    {
        SetIter::of(&self.blocks)
    }

    /// The numbers, ascending, as a vector. Takes memory where there are some.
    pub fn members(&self, alloc: Global) -> Result<Vec<u32>, AllocError>
        ensures { IfOk result (λ members. members.items ≡ self.now) }
    {
        keyed::members::members(alloc, &self.blocks)
    }

    /// Keeps each block in the form that takes the least memory: runs, a list or bits. The set stays the same, also where
    /// memory is refused.
    pub fn optimize(&mut self) -> Result<(), AllocError>
        ensures { self.new ≡ self.old }
    {
        keyed::optimize(&mut self.blocks)
    }

    /// Takes all numbers out. Takes no memory.
    pub fn clear(&mut self)
        ensures { self.new ≡ [] }
    {
        self.blocks.clear();
    }
}
