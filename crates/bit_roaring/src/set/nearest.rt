//! The numbers nearest to one, and those at the ends taken out.
ghost use Rattle.std.specs.Prelude.{◌≡◌, ◌≤◌, ◌<◌, ◌++◌, ℕ, [], ◌∷◌, IfNone, IfOk, IfSome, OnErr, false, true};
ghost use Rattle.bit_blocks.specs.Numbers.{has};

use crate::set::RoaringSet;
use std::alloc::AllocError;
use std::iter::{DoubleEndedIterator, Iterator};

impl RoaringSet {
    /// The least number that is at least `from`. None exactly where there is none. Takes no memory.
    ///
    /// ```text
    /// of 2, 3, 70000: set.next_at_least(4) == Some(70000)
    /// ```
    pub fn next_at_least(&self, from: u32) -> Option<u32>
        ensures member { IfSome result (λ least. (from ≤ least) × (has self.now least ≡ true)) }
        ensures before { IfSome result (λ least. (k : ℕ) → from ≤ k → k < least → has self.now k ≡ false) }
        ensures none { IfNone result ((k : ℕ) → from ≤ k → has self.now k ≡ false) }
    {
        self.prove_order();
        self.range(from..).next()
    }

    /// The greatest number that is at most `upto`. None exactly where there is none. Takes no memory.
    ///
    /// ```text
    /// of 2, 3, 70000: set.previous_at_most(69999) == Some(3)
    /// ```
    pub fn previous_at_most(&self, upto: u32) -> Option<u32>
        ensures member { IfSome result (λ greatest. (greatest ≤ upto) × (has self.now greatest ≡ true)) }
        ensures after { IfSome result (λ greatest. (k : ℕ) → greatest < k → k ≤ upto → has self.now k ≡ false) }
        ensures none { IfNone result ((k : ℕ) → k ≤ upto → has self.now k ≡ false) }
    {
        self.prove_order();
        self.range(..=upto).next_back()
    }

    /// Takes the least number out, and returns it. None exactly where there is none. Where memory is refused, the set is
    /// as it was.
    ///
    /// ```text
    /// of 2, 3, 70000: set.pop_first()? == Some(2) leaves 3, 70000
    /// ```
    pub fn pop_first(&mut self) -> Result<Option<u32>, AllocError>
        ensures list { IfOk result (λ popped. IfSome popped (λ least. self.old ≡ least ∷ self.new)) }
        ensures none { IfOk result (λ popped. IfNone popped (self.old ≡ [])) }
        ensures stays { IfOk result (λ popped. IfNone popped (self.new ≡ self.old)) }
        ensures refused { OnErr result (self.new ≡ self.old) }
    {
        let Some(least) = self.first() else {
            return Ok(None);
        };
        self.prove_order();
        self.remove(least)?;
        self.prove_order();
        Ok(Some(least))
    }

    /// Takes the greatest number out, and returns it. None exactly where there is none. Where memory is refused, the set
    /// is as it was.
    ///
    /// ```text
    /// of 2, 3, 70000: set.pop_last()? == Some(70000) leaves 2, 3
    /// ```
    pub fn pop_last(&mut self) -> Result<Option<u32>, AllocError>
        ensures list { IfOk result (λ popped. IfSome popped (λ greatest. self.old ≡ self.new ++ greatest ∷ [])) }
        ensures none { IfOk result (λ popped. IfNone popped (self.old ≡ [])) }
        ensures stays { IfOk result (λ popped. IfNone popped (self.new ≡ self.old)) }
        ensures refused { OnErr result (self.new ≡ self.old) }
    {
        let Some(greatest) = self.last() else {
            return Ok(None);
        };
        self.prove_order();
        self.remove(greatest)?;
        self.prove_order();
        Ok(Some(greatest))
    }
}
