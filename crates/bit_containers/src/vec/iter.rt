//! Iterators over the bits of the vector: a borrowed one and an owned one.
ghost use Rattle.std.specs.Prelude.{◌≡◌, ◌≤◌, length};
ghost use Rattle.std.specs.Iterator.{YieldsFirst, YieldsLast};
ghost use Rattle.std.specs.Iterator.Runs.{YieldsInOrder, YieldsInReverse};
ghost use Rattle.bit_addressing.specs.declared.length.TheConstants.{MAX_BITS};
ghost use Rattle.bit_slice.specs.Iter.{rest_of};
ghost use Rattle.bit_boxed.specs.IntoIter.{rest_of as rest_owned, first_left, last_left};

use crate::vec::BitVec;
use bit_addressing::{BitOrder, BitStore};
use bit_boxed::IntoIter;
use bit_slice::Iter;

impl<T: BitStore, O: BitOrder> BitVec<T, O> {
    /// The bits in order, from both ends.
    ///
    /// ```text
    /// of 01101001: bits.iter() gives false, true, true, false, true, false, false, true
    /// ```
    pub fn iter(&self) -> Iter<'_, T, O>
        ensures list { rest_of result ≡ self.now.list }
        ensures few { length (rest_of result) ≤ MAX_BITS }
        ensures runs { YieldsInOrder
            (YieldsFirst (rest_of {X = T} {Y = O} {W = T.BitStore} {P = O.BitOrder})) rest_of }
        ensures runs_back { YieldsInReverse
            (YieldsLast (rest_of {X = T} {Y = O} {W = T.BitStore} {P = O.BitOrder})) rest_of }
    {
        self.as_bitslice().iter()
    }
}

impl<'a, T: BitStore, O: BitOrder> IntoIterator for &'a BitVec<T, O> {
    type Item = bool;

    type IntoIter = Iter<'a, T, O>;

    ghost into_iter_gives = { λ v r. (rest_of r ≡ v.now.list) × (length (rest_of r) ≤ MAX_BITS)
        × YieldsInOrder (YieldsFirst (rest_of {X = T} {Y = O} {W = T.BitStore} {P = O.BitOrder})) rest_of
        × YieldsInReverse (YieldsLast (rest_of {X = T} {Y = O} {W = T.BitStore} {P = O.BitOrder})) rest_of };

    /// Like `iter`: the items are truth values.
    fn into_iter(self) -> Iter<'a, T, O> {
        self.iter()
    }
}

impl<T: BitStore, O: BitOrder> IntoIterator for BitVec<T, O> {
    type Item = bool;

    type IntoIter = IntoIter<T, O>;

    ghost into_iter_gives = { λ v r. (r.words ≡ v.words) × (r.head ≡ v.head) × (r.list ≡ v.list)
        × (length r.list ≤ MAX_BITS) × YieldsInOrder (first_left {X = T}) rest_owned
        × YieldsInReverse (last_left {X = T}) rest_owned };

    /// The bits in order, from both ends; the vector is consumed, and its words are kept. Takes no memory.
    fn into_iter(self) -> IntoIter<T, O> {
        IntoIter::from_parts(self.words, self.head, self.len)
    }
}
