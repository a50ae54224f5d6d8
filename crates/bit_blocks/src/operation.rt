//! What is made of two sets.
ghost use Rattle.std.specs.Prelude.{◌≡◌, true, false};
ghost use Rattle.bit_blocks.specs.Operation.{made_by};

/// What is made of two sets: which numbers of either are in it.
#[derive(Clone, Copy, Debug, PartialEq, Eq)]
pub enum Operation {
    /// The numbers of either set.
    Union,
    /// The numbers of both sets.
    Intersection,
    /// The numbers of the left set that are not in the right one.
    Difference,
    /// The numbers of exactly one of the sets.
    SymmetricDifference,
}

impl Operation {
    /// Whether a number of the left set alone is kept.
    pub fn keeps_left(self) -> bool
        ensures { result ≡ made_by self true false }
    {
        match self {
            Operation::Union => true,
            Operation::Intersection => false,
            Operation::Difference => true,
            Operation::SymmetricDifference => true,
        }
    }

    /// Whether a number of both sets is kept.
    pub fn keeps_both(self) -> bool
        ensures { result ≡ made_by self true true }
    {
        match self {
            Operation::Union => true,
            Operation::Intersection => true,
            Operation::Difference => false,
            Operation::SymmetricDifference => false,
        }
    }

    /// Whether a number of the right set alone is kept.
    pub fn keeps_right(self) -> bool
        ensures { result ≡ made_by self false true }
    {
        match self {
            Operation::Union => true,
            Operation::Intersection => false,
            Operation::Difference => false,
            Operation::SymmetricDifference => true,
        }
    }

    // Whether a number is kept, by whether it is in the left set and in the right one.
    pub(crate) fn keeps(self, in_left: bool, in_right: bool) -> bool
        ensures { result ≡ made_by self in_left in_right }
    {
        match self {
            Operation::Union => in_left | in_right,
            Operation::Intersection => in_left & in_right,
            Operation::Difference => in_left & !in_right,
            Operation::SymmetricDifference => in_left ^ in_right,
        }
    }
}
