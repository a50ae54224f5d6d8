//! The impls of std's traits for sorted numbers.
ghost use Rattle.std.specs.Prelude.{◌≡◌, ◌↔◌, IsTrue, nat_eq};
ghost use Rattle.std.specs.Cmp.{partial_equiv_from_equiv};
ghost use Rattle.std.specs.Cmp.Lexicographic.{pointwise, nat_list_eq_equiv};
ghost use Rattle.std.specs.Iterator.{YieldsFirst, YieldsLast};
ghost use Rattle.std.specs.Iterator.Runs.{YieldsInOrder, YieldsInReverse};
ghost use Rattle.bit_sets.specs.Numbers.{numbers_left};

use crate::sorted::{Numbers, SortedNumbers};
use std::alloc::AllocError;
use std::fmt;

impl Clone for SortedNumbers {
    ghost is_clone = { λ numbers copy. copy ≡ numbers };

    /// A copy of the two lists and of the counts. Takes memory.
    fn clone(&self) -> Result<Self, AllocError> {
        let high = self.high.clone()?;
        let low = self.low.clone()?;
        Ok(SortedNumbers {
            high,
            low,
            width: self.width,
            len: self.len,
        })
    }
}

impl PartialEq for SortedNumbers {
    ghost eq = { pointwise nat_eq };

    ghost laws = { partial_equiv_from_equiv nat_list_eq_equiv };

    /// Whether both have the same numbers.
    fn eq(&self, other: &Self) -> bool
        ensures value { result ≡ pointwise nat_eq self.now other.now }
        ensures lists { IsTrue result ↔ (self.now ≡ other.now) }
    {
        are_same(self.iter(), other.iter())
    }
}

// Whether two iterators have the same numbers left.
fn are_same(mut numbers: Numbers<'_>, mut others: Numbers<'_>) -> bool
    ensures { IsTrue result ↔ (numbers_left numbers.entry ≡ numbers_left others.entry) }
{
    while let Some(number) = numbers.next() {
        match others.next() {
            None => return false,
            Some(other) => if other != number {
                return false;
            },
        }
    }
    match others.next() {
        None => true,
        Some(_) => false,
    }
}

impl Eq for SortedNumbers {
    ghost laws = { nat_list_eq_equiv };
}

impl<'a> IntoIterator for &'a SortedNumbers {
    type Item = u64;

    type IntoIter = Numbers<'a>;

    ghost into_iter_gives = { λ numbers r. (numbers_left r ≡ numbers.now)
        × YieldsInOrder (YieldsFirst numbers_left) numbers_left
        × YieldsInReverse (YieldsLast numbers_left) numbers_left };

    /// Like `iter`.
    fn into_iter(self) -> Numbers<'a> {
        self.iter()
    }
}

/// `[`, the numbers with `, ` between two, and `]`, whatever the flags.
impl fmt::Debug for SortedNumbers {
    fn fmt<W: fmt::Write>(&self, f: &mut fmt::Formatter<W>) -> fmt::Result {
        f.write_str("[")?;
        let mut numbers = self.iter();
        if let Some(first) = numbers.next() {
            write!(f, "{first}")?;
        }
        for number in numbers {
            write!(f, ", {number}")?;
        }
        f.write_str("]")
    }
}
