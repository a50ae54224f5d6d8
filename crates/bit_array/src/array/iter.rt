//! Iterators over the bits of the array: a borrowed one and an owned one.
ghost use Rattle.std.specs.Prelude.{◌≡◌, ℕ, ◌+◌, ◌*◌, ◌≤◌, length, slice_range, IfSome, Some};
ghost use Rattle.std.specs.Iterator.{YieldsFirst, YieldsLast};
ghost use Rattle.std.specs.Iterator.Runs.{YieldsInOrder, YieldsInReverse};
ghost use Rattle.bit_addressing.specs.declared.length.TheConstants.{MAX_BITS};
ghost use Rattle.bit_addressing.specs.Typed.{row};
ghost use Rattle.bit_slice.specs.BitSlice.{list_of};
ghost use Rattle.bit_slice.specs.BitSliceMut.{len_of as lent_len, list_of as lent_list};
ghost use Rattle.bit_slice.specs.Iter.{rest_of as rest_lent};
ghost use Rattle.bit_slice.specs.Owned.{rest_of, GivesInOrder, GivesInReverse};

use crate::array::BitArray;
use crate::sized::{BitViewSized, BitWords};
use bit_addressing::{BitOrder, BitStore};
use bit_rows::read_bit;
use bit_slice::inner::write_list;
use bit_slice::{BitSlice, BitSliceMut, Iter, run_mut};
use std::alloc::AllocError;
use std::fmt;
use std::iter::{DoubleEndedIterator, ExactSizeIterator, FusedIterator, Iterator};
use std::marker::Model;

impl<A: BitWords, O: BitOrder> BitArray<A, O> {
    /// The bits in order, from both ends.
    ///
    /// ```text
    /// of 01101001: bits.iter() gives false, true, true, false, true, false, false, true
    /// ```
    #[tactic(auto, using(bit_slice::proofs::Parts::shown_length))]
    pub fn iter(&self) -> Iter<'_, A::Store, O>
        ensures list { rest_lent result ≡ row A.Store.BitStore O.BitOrder (A.words self.now) }
        ensures len { length (rest_lent result) ≡ A.Store.BITS * A.count }
        ensures few { length (rest_lent result) ≤ MAX_BITS }
        ensures runs { YieldsInOrder
            (YieldsFirst (rest_lent {X = A.Store} {Y = O} {W = A.Store.BitStore} {P = O.BitOrder}))
            rest_lent }
        ensures runs_back { YieldsInReverse
            (YieldsLast (rest_lent {X = A.Store} {Y = O} {W = A.Store.BitStore} {P = O.BitOrder}))
            rest_lent }
    {
        self.as_bitslice().iter()
    }
}

/// The bits of an array that was consumed, from both ends, each once.
///
/// Its length is known, and after the first None there is no more. It takes no memory. In contracts it is the
/// list of the bits that it has left.
#[derive(Drop)]
pub struct IntoIter<A: BitWords, O: BitOrder> {
    array: BitArray<A, O>,
    from: usize,
    upto: usize,
}

impl<A: BitWords, O: BitOrder> Model for IntoIter<A, O> {
    ghost use Rattle.std.specs.Prelude.{◌≡◌, ◌*◌, ◌≤◌, Bool, List, length, slice_range};
    ghost use Rattle.bit_addressing.specs.declared.length.TheConstants.{MAX_BITS};
    ghost use Rattle.bit_addressing.specs.Typed.{row};

    ghost Value = { List Bool };

    ghost view = { λ s. slice_range (row A.Store.BitStore O.BitOrder (A.words s.array)) s.from s.upto };

    ghost invariant = { λ s. (s.from ≤ s.upto) × (s.upto ≤ A.Store.BITS * A.count)
        × (A.Store.BITS * A.count ≤ MAX_BITS) };
}

impl<A: BitWords, O: BitOrder> IntoIter<A, O> {
    /// The bits of an array, in order.
    pub fn new(array: BitArray<A, O>) -> Self
        ensures list { result ≡ row A.Store.BitStore O.BitOrder (A.words array) }
        ensures len { length result ≡ A.Store.BITS * A.count }
        ensures few { length result ≤ MAX_BITS }
        ensures runs { GivesInOrder rest_of }
        ensures runs_back { GivesInReverse rest_of }
    {
        let upto = array.as_raw_slice().len() * A::Store::BITS as usize;
        IntoIter {
            array,
            from: 0,
            upto,
        }
    }

    /// The view of the bits that are left, for reading.
    pub fn as_bitslice(&self) -> BitSlice<'_, A::Store, O>
        ensures { list_of result ≡ self.now }
    {
        self.array.as_bitslice().get_range(self.from..self.upto)
    }

    /// Like `as_bitslice`.
    pub fn as_slice(&self) -> BitSlice<'_, A::Store, O>
        ensures { list_of result ≡ self.now }
    {
        self.as_bitslice()
    }
}

impl<A: BitViewSized, O: BitOrder> IntoIter<A, O> {
    /// The view of the bits that are left, for writing. That what is written lands in the bits that are
    /// still to come, no clause says.
    pub fn as_mut_bitslice(&mut self) -> BitSliceMut<'_, A::Store, O>
        ensures list { lent_list result ≡ self.old }
        ensures len { lent_len result ≡ length self.old }
    {
        let (from, upto) = (self.from, self.upto);
        run_mut::<A::Store, O>(self.array.as_raw_mut_slice(), from, upto)
    }

    /// Like `as_mut_bitslice`.
    pub fn as_mut_slice(&mut self) -> BitSliceMut<'_, A::Store, O>
        ensures list { lent_list result ≡ self.old }
        ensures len { lent_len result ≡ length self.old }
    {
        self.as_mut_bitslice()
    }
}

impl<A: BitWords, O: BitOrder> Iterator for IntoIter<A, O> {
    ghost use Rattle.std.specs.Iterator.{YieldsFirst, UpTo, at_most, item_count};
    ghost use Rattle.std.specs.Iterator.SizeHint.{IsWithinCount};

    type Item = bool;

    ghost next_gives = { YieldsFirst rest_of };

    ghost remaining = { item_count rest_of };

    /// The first bit that is left. None exactly where none is.
    fn next(&mut self) -> Option<bool> {
        if self.from == self.upto {
            return None;
        }
        let bit = read_bit::<A::Store, O>(self.array.as_raw_slice(), self.from);
        self.from += 1;
        Some(bit)
    }

    /// The number of bits that are left, as both bounds: it is exact.
    fn size_hint(&self) -> (usize, Option<usize>)
        ensures lower { IsWithinCount result.0 (at_most (length self.now)) }
        ensures upper { IfSome result.1 (UpTo (at_most (length self.now))) }
        ensures value { result ≡ (length self.now, Some (length self.now)) }
    {
        let count = self.len();
        (count, Some(count))
    }
}

impl<A: BitWords, O: BitOrder> DoubleEndedIterator for IntoIter<A, O> {
    ghost use Rattle.std.specs.Iterator.{YieldsLast};

    ghost next_back_gives = { YieldsLast rest_of };

    /// The last bit that is left. None exactly where none is.
    fn next_back(&mut self) -> Option<bool> {
        if self.from == self.upto {
            return None;
        }
        self.upto -= 1;
        Some(read_bit::<A::Store, O>(self.array.as_raw_slice(), self.upto))
    }
}

impl<A: BitWords, O: BitOrder> ExactSizeIterator for IntoIter<A, O> {
    /// The number of bits left.
    fn len(&self) -> usize {
        self.as_bitslice().len()
    }
}

impl<A: BitWords, O: BitOrder> FusedIterator for IntoIter<A, O> {}

impl<A: BitWords, O: BitOrder> IntoIterator for BitArray<A, O> {
    type Item = bool;

    type IntoIter = IntoIter<A, O>;

    ghost into_iter_gives = { λ a r. (r ≡ row A.Store.BitStore O.BitOrder (A.words a))
        × (length r ≤ MAX_BITS) × GivesInOrder rest_of × GivesInReverse rest_of };

    /// The bits in order, from both ends; the array is consumed.
    fn into_iter(self) -> IntoIter<A, O> {
        IntoIter::new(self)
    }
}

impl<'a, A: BitWords, O: BitOrder> IntoIterator for &'a BitArray<A, O> {
    type Item = bool;

    type IntoIter = IntoIter<A, O>;

    ghost into_iter_gives = { λ a r. (r ≡ row A.Store.BitStore O.BitOrder (A.words a.now))
        × (length r ≤ MAX_BITS) × GivesInOrder rest_of × GivesInReverse rest_of };

    /// The bits in order, from both ends, of a copy of the words: `iter` lends them.
    fn into_iter(self) -> IntoIter<A, O> {
        IntoIter::new(self.copied())
    }
}

impl<A: BitWords, O: BitOrder> Clone for IntoIter<A, O> {
    ghost use Rattle.std.specs.Prelude.{◌≡◌, ⊤};

    ghost is_clone = { λ a b. b ≡ a };

    ghost is_infallible = { λ _. ⊤ };

    /// An iterator over the same bits. Takes no memory.
    fn clone(&self) -> Result<Self, AllocError> {
        Ok(IntoIter {
            array: self.array.copied(),
            from: self.from,
            upto: self.upto,
        })
    }
}

/// `IntoIter(`, the text of the bits that are left, and `)`.
impl<A: BitWords, O: BitOrder> fmt::Debug for IntoIter<A, O> {
    fn fmt<W: fmt::Write>(&self, f: &mut fmt::Formatter<W>) -> fmt::Result {
        f.write_str("IntoIter(")?;
        write_list(self.as_bitslice(), f)?;
        f.write_str(")")
    }
}
