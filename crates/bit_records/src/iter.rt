//! The numbers of records one after another.
ghost use Rattle.std.specs.Prelude.{◌≡◌, ◌≤◌, length, IfSome, Some};
ghost use Rattle.bit_addressing.specs.declared.length.TheConstants.{MAX_BITS};

use crate::records::Records;
use bit_containers::{BitOrder, BitStore};
use std::alloc::AllocError;
use std::fmt;
use std::iter::{DoubleEndedIterator, ExactSizeIterator, FusedIterator, IntoIterator, Iterator};

/// The numbers of records, from both ends, each once.
///
/// Its length is known, and after the first None there is no more. It takes no memory.
#[derive(Drop)]
pub struct Iter<'a, T: BitStore, O: BitOrder> {
    records: &'a Records<T, O>,
    from: usize,
    upto: usize,
    ghost fits: { (from ≤ upto) × (upto ≤ length records.now.list) },
}

impl<T: BitStore, O: BitOrder> Records<T, O> {
    ghost use Rattle.std.specs.Iterator.{YieldsFirst, YieldsLast};
    ghost use Rattle.std.specs.Iterator.Runs.{YieldsInOrder, YieldsInReverse};
    ghost use Rattle.bit_records.specs.Iter.{numbers_left};

    /// The numbers in order, from both ends. Takes no memory.
    ///
    /// ```text
    /// for age in ages.iter() { .. }    // of 41, 8: age is 41, then 8
    /// ```
    pub fn iter(&self) -> Iter<'_, T, O>
        ensures list { numbers_left result ≡ self.now.list }
        ensures few { length (numbers_left result) ≤ MAX_BITS }
        ensures runs { YieldsInOrder
            (YieldsFirst (numbers_left {X = T} {Y = O} {W = T.BitStore} {P = O.BitOrder})) numbers_left }
        ensures runs_back { YieldsInReverse
            (YieldsLast (numbers_left {X = T} {Y = O} {W = T.BitStore} {P = O.BitOrder})) numbers_left }
    {
        let upto = self.len();
        Iter {
            records: self,
            from: 0,
            upto,
        }
    }
}

impl<'a, T: BitStore, O: BitOrder> IntoIterator for &'a Records<T, O> {
    ghost use Rattle.std.specs.Iterator.{YieldsFirst, YieldsLast};
    ghost use Rattle.std.specs.Iterator.Runs.{YieldsInOrder, YieldsInReverse};
    ghost use Rattle.bit_records.specs.Iter.{numbers_left};

    type Item = u64;

    type IntoIter = Iter<'a, T, O>;

    ghost into_iter_gives = { λ r it. (numbers_left it ≡ r.now.list) × (length (numbers_left it) ≤ MAX_BITS)
        × YieldsInOrder (YieldsFirst (numbers_left {X = T} {Y = O} {W = T.BitStore} {P = O.BitOrder})) numbers_left
        × YieldsInReverse (YieldsLast (numbers_left {X = T} {Y = O} {W = T.BitStore} {P = O.BitOrder})) numbers_left };

    /// Like `iter`.
    fn into_iter(self) -> Iter<'a, T, O> {
        self.iter()
    }
}

impl<'a, T: BitStore, O: BitOrder> Iterator for Iter<'a, T, O> {
    ghost use Rattle.std.specs.Iterator.{YieldsFirst, UpTo, at_most, item_count};
    ghost use Rattle.std.specs.Iterator.SizeHint.{IsWithinCount};
    ghost use Rattle.bit_records.specs.Iter.{numbers_left};

    type Item = u64;

    ghost next_gives = { YieldsFirst numbers_left };

    ghost remaining = { item_count numbers_left };

    /// The first number that is left. None exactly where none is.
    fn next(&mut self) -> Option<u64> {
        if self.from == self.upto {
            return None;
        }
        let number = self.records.get(self.from);
        self.from += 1;
        number
    }

    /// The number of numbers that are left, as both bounds: it is exact.
    fn size_hint(&self) -> (usize, Option<usize>)
        ensures lower { IsWithinCount result.0 (at_most (length (numbers_left self.now))) }
        ensures upper { IfSome result.1 (UpTo (at_most (length (numbers_left self.now)))) }
        ensures value { result ≡ (length (numbers_left self.now), Some (length (numbers_left self.now))) }
    {
        let count = self.upto - self.from;
        (count, Some(count))
    }
}

impl<'a, T: BitStore, O: BitOrder> DoubleEndedIterator for Iter<'a, T, O> {
    ghost use Rattle.std.specs.Iterator.{YieldsLast};
    ghost use Rattle.bit_records.specs.Iter.{numbers_left};

    ghost next_back_gives = { YieldsLast numbers_left };

    /// The last number that is left. None exactly where none is.
    fn next_back(&mut self) -> Option<u64> {
        if self.upto == self.from {
            return None;
        }
        self.upto -= 1;
        self.records.get(self.upto)
    }
}

impl<'a, T: BitStore, O: BitOrder> ExactSizeIterator for Iter<'a, T, O> {
    /// The count of numbers left.
    fn len(&self) -> usize {
        self.upto - self.from
    }
}

impl<'a, T: BitStore, O: BitOrder> FusedIterator for Iter<'a, T, O> {}

impl<'a, T: BitStore, O: BitOrder> Iter<'a, T, O> {
    ghost use Rattle.bit_records.specs.Iter.{numbers_left};

    // The same iterator, with the same left.
    fn same(&self) -> Self
        ensures { numbers_left result ≡ numbers_left self.now }
    {
        Iter {
            records: self.records,
            from: self.from,
            upto: self.upto,
        }
    }
}

impl<'a, T: BitStore, O: BitOrder> Clone for Iter<'a, T, O> {
    ghost use Rattle.std.specs.Prelude.{⊤};
    ghost use Rattle.bit_records.specs.Iter.{numbers_left};

    ghost is_clone = { λ a b. numbers_left b ≡ numbers_left a };

    ghost is_infallible = { λ _. ⊤ };

    /// The same iterator, with the same left. Takes no memory.
    fn clone(&self) -> Result<Self, AllocError> {
        Ok(self.same())
    }
}

/// The numbers that are left, as a list.
impl<'a, T: BitStore, O: BitOrder> fmt::Debug for Iter<'a, T, O> {
    fn fmt<W: fmt::Write>(&self, f: &mut fmt::Formatter<W>) -> fmt::Result {
        f.debug_list().entries(self.same()).finish()
    }
}
