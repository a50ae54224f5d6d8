//! Counts of the words that are read and written.
ghost use Rattle.std.specs.Prelude.{◌≡◌, ℕ, ◌+◌};
ghost use base.Fml.{ftrue};

use std::marker::{Model, PhantomData};

/// How often a row of words was read and written.
///
/// Contracts alone see the two counts, `reads` and `writes`. They have no upper bound, are 0 when the
/// meter is made, and never fall. A meter takes no bytes and its calls no time.
#[derive(Drop)]
pub struct Meter {
    marker: PhantomData<()>,
    pub ghost reads: { ℕ },
    pub ghost writes: { ℕ },
}

impl Model for Meter {
    ghost also_owns = { λ _. ftrue };
}

impl Meter {
    // A meter at 0.
    pub(crate) fn new() -> Meter
        ensures { (result.reads ≡ 0) × (result.writes ≡ 0) }
    {
        Meter {
            marker: PhantomData,
        }
    }

    // Counts one read.
    pub(crate) fn count_read(&mut self)
        ensures { (self.new.reads ≡ self.old.reads + 1) × (self.new.writes ≡ self.old.writes) }
    {}

    // Counts one write.
    pub(crate) fn count_write(&mut self)
        ensures { (self.new.reads ≡ self.old.reads) × (self.new.writes ≡ self.old.writes + 1) }
    {}
}
