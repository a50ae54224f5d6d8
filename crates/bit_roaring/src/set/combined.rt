//! Sets combined.
ghost use Rattle.std.specs.Prelude.{◌≡◌, IfOk, OnErr, OnOk};
ghost use Rattle.bit_blocks.specs.Numbers.{Combines};
ghost use Rattle.bit_blocks.specs.Operation.{made_by};
ghost use Rattle.bit_blocks.specs.declared.operation.Operation.TheVariants as operations;

use crate::keyed;
use crate::keyed::changed::combine;
use crate::set::RoaringSet;
use bit_blocks::Operation;
use std::alloc::AllocError;

impl RoaringSet {
    /// What an operation makes of this set and another, as a new set.
    #[tactic(auto, using(crate::proofs::Sets::sets_combined))]
    pub fn combined(&self, other: &Self, operation: Operation) -> Result<Self, AllocError>
        ensures { IfOk result (λ made. Combines (made_by operation) self.now other.now made) }
    {
        let alloc = *self.blocks.allocator();
        let blocks = keyed::combined(alloc, &self.blocks, &other.blocks, operation)?;
        Ok(RoaringSet { blocks })
    }

    /// The numbers of either set.
    pub fn union(&self, other: &Self) -> Result<Self, AllocError>
        ensures { IfOk result (λ made. Combines (made_by operations.Union) self.now other.now made) }
    {
        self.combined(other, Operation::Union)
    }

    /// The numbers of both sets.
    pub fn intersection(&self, other: &Self) -> Result<Self, AllocError>
        ensures { IfOk result (λ made. Combines (made_by operations.Intersection) self.now other.now made) }
    {
        self.combined(other, Operation::Intersection)
    }

    /// The numbers of this set that are not in the other.
    pub fn difference(&self, other: &Self) -> Result<Self, AllocError>
        ensures { IfOk result (λ made. Combines (made_by operations.Difference) self.now other.now made) }
    {
        self.combined(other, Operation::Difference)
    }

    /// The numbers of exactly one of the sets.
    pub fn symmetric_difference(&self, other: &Self) -> Result<Self, AllocError>
        ensures { IfOk result (λ made. Combines (made_by operations.SymmetricDifference) self.now other.now made) }
    {
        self.combined(other, Operation::SymmetricDifference)
    }

    /// Puts what an operation makes of this set and another in its place. Where memory is refused, the set is as it was.
    /// If it keeps the numbers of this set that the other has not, their blocks are not copied.
    #[tactic(auto, using(crate::proofs::Sets::sets_combined))]
    pub fn combine_with(&mut self, other: &Self, operation: Operation) -> Result<(), AllocError>
        ensures members { OnOk result (Combines (made_by operation) self.old other.now self.new) }
        ensures refused { OnErr result (self.new ≡ self.old) }
    {
        if operation.keeps_left() {
            return combine(&mut self.blocks, &other.blocks, operation);
        }
        *self = self.combined(other, operation)?;
        Ok(())
    }

    /// Puts in the numbers of another set. Where memory is refused, the set is as it was.
    pub fn union_with(&mut self, other: &Self) -> Result<(), AllocError>
        ensures members { OnOk result (Combines (made_by operations.Union) self.old other.now self.new) }
        ensures refused { OnErr result (self.new ≡ self.old) }
    {
        self.combine_with(other, Operation::Union)
    }

    /// Takes out the numbers that are not in another set. Where memory is refused, the set is as it was.
    pub fn intersect_with(&mut self, other: &Self) -> Result<(), AllocError>
        ensures members { OnOk result (Combines (made_by operations.Intersection) self.old other.now self.new) }
        ensures refused { OnErr result (self.new ≡ self.old) }
    {
        self.combine_with(other, Operation::Intersection)
    }

    /// Takes out the numbers of another set. Where memory is refused, the set is as it was.
    pub fn difference_with(&mut self, other: &Self) -> Result<(), AllocError>
        ensures members { OnOk result (Combines (made_by operations.Difference) self.old other.now self.new) }
        ensures refused { OnErr result (self.new ≡ self.old) }
    {
        self.combine_with(other, Operation::Difference)
    }

    /// Puts in the numbers of another set that are not there, and takes out those that are. Where memory is refused,
    /// the set is as it was.
    pub fn symmetric_difference_with(&mut self, other: &Self) -> Result<(), AllocError>
        ensures members { OnOk result (Combines (made_by operations.SymmetricDifference) self.old other.now self.new) }
        ensures refused { OnErr result (self.new ≡ self.old) }
    {
        self.combine_with(other, Operation::SymmetricDifference)
    }
}
