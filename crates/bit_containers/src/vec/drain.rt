//! Removal of a range of bits, which an iterator gives.
ghost use Rattle.std.specs.Prelude.{◌≡◌, ◌+◌, ◌-◌, ◌≤◌, [], length, slice_range};
ghost use Rattle.std.specs.Iterator.{at_most};
ghost use Rattle.std.specs.Iterator.Runs.{YieldsInOrder, YieldsInReverse};
ghost use Rattle.std.specs.List.{splice};
ghost use Rattle.bit_addressing.specs.Range.{LiesIn};
ghost use Rattle.bit_slice.specs.BitSlice.{list_of};

use crate::vec::BitVec;
use bit_addressing::{BitOrder, BitStore, Lsb0, RangeExt};
use bit_rows::{cut_words_in_vec, move_bits_in_vec};
use bit_slice::BitSlice;
use bit_slice::inner::write_list;
use std::fmt;
use std::iter::FusedIterator;

/// The bits of a range of a vector, from both ends, each once, and then None for good.
///
/// When the iterator ends, the whole range is removed from the vector, also the bits that were not taken: the
/// bits after the range move down by one move. No call takes memory.
///
/// ```text
/// let first = v.drain(1..4).next();     // afterwards v has lost three bits
/// ```
pub struct Drain<'a, T: BitStore = usize, O: BitOrder = Lsb0> {
    pub(crate) vec: &'a mut BitVec<T, O>,
    pub(crate) start: usize,
    pub(crate) end: usize,
    pub(crate) front: usize,
    pub(crate) back: usize,
    ghost in_order: { (start ≤ front) × (front ≤ back) × (back ≤ end) },
}

impl<'a, T: BitStore, O: BitOrder> Drop for Drain<'a, T, O> {
    ghost use Rattle.bit_containers.specs.Drain.{drain_kept, drain_head, drain_capacity};

    fn drop(self)
        ensures list { self.exit.0.now.list ≡ drain_kept self.entry }
        ensures head { self.exit.0.now.head ≡ drain_head self.entry }
        ensures capacity { self.exit.0.now.capacity ≡ drain_capacity self.entry }
    {
        let Drain {
            vec,
            start,
            end,
            front: _,
            back: _,
        } = self;
        vec.remove_within(start, end);
    }
}

impl<'a, T: BitStore, O: BitOrder> Iterator for Drain<'a, T, O> {
    ghost use Rattle.std.specs.Prelude.{IfSome, Some};
    ghost use Rattle.std.specs.Iterator.{UpTo};
    ghost use Rattle.std.specs.Iterator.SizeHint.{IsWithinCount};
    ghost use Rattle.bit_containers.specs.Drain.{DrainCanStep, DrainSteps, drain_left};

    type Item = bool;

    ghost can_next = { DrainCanStep };

    ghost next_gives = { DrainSteps };

    ghost remaining = { λ d. at_most (drain_left d) };

    fn next(&mut self) -> Option<bool> {
        if self.front == self.back {
            return None;
        }
        let bit = self.vec.bit(self.front);
        self.front += 1;
        Some(bit)
    }

    fn size_hint(&self) -> (usize, Option<usize>)
        ensures lower { IsWithinCount result.0 (at_most (drain_left self.now)) }
        ensures upper { IfSome result.1 (UpTo (at_most (drain_left self.now))) }
        ensures value { result ≡ (drain_left self.now, Some (drain_left self.now)) }
    {
        let len = self.len();
        (len, Some(len))
    }
}

impl<'a, T: BitStore, O: BitOrder> DoubleEndedIterator for Drain<'a, T, O> {
    ghost use Rattle.bit_containers.specs.Drain.{DrainCanStep, DrainStepsBack};

    ghost can_next_back = { DrainCanStep };

    ghost next_back_gives = { DrainStepsBack };

    fn next_back(&mut self) -> Option<bool> {
        if self.front == self.back {
            return None;
        }
        self.back -= 1;
        Some(self.vec.bit(self.back))
    }
}

impl<'a, T: BitStore, O: BitOrder> ExactSizeIterator for Drain<'a, T, O> {
    fn len(&self) -> usize {
        self.back - self.front
    }
}

impl<'a, T: BitStore, O: BitOrder> FusedIterator for Drain<'a, T, O> {}

impl<'a, T: BitStore, O: BitOrder> Drain<'a, T, O> {
    ghost use Rattle.bit_containers.specs.Drain.{drain_rest, DrainCanStep};

    /// The bits that are still to come. Requires that the range still lies in the vector, which
    /// `drain` ensures and each step keeps.
    pub fn as_bitslice(&self) -> BitSlice<'_, T, O>
        requires { DrainCanStep self.now }
        ensures { list_of result ≡ drain_rest self.now }
    {
        self.vec.get_range(self.front..self.back)
    }

    /// Like `as_bitslice`.
    pub fn as_slice(&self) -> BitSlice<'_, T, O>
        requires { DrainCanStep self.now }
        ensures { list_of result ≡ drain_rest self.now }
    {
        self.as_bitslice()
    }
}

/// `Drain(`, the text of the bits that are still to come, and `)`.
impl<T: BitStore, O: BitOrder> fmt::Debug for Drain<'_, T, O> {
    fn fmt<W: fmt::Write>(&self, f: &mut fmt::Formatter<W>) -> fmt::Result {
        let upto = self.back.min(self.vec.len());
        let from = self.front.min(upto);
        f.write_str("Drain(")?;
        write_list(self.vec.get_range(from..upto), f)?;
        f.write_str(")")
    }
}

impl<T: BitStore, O: BitOrder> BitVec<T, O> {
    ghost use Rattle.bit_containers.specs.Drain.{drain_rest, drain_kept, drain_head, drain_capacity, drain_lender, DrainKeepsAlong, DrainCanStep, DrainSteps, DrainStepsBack};
    ghost use Rattle.std.specs.Prelude.{◌<◌, false, slice_index_or};

    // The bit at `i`, which is below the length.
    pub(crate) fn bit(&self, i: usize) -> bool
        requires { i < length self.now.list }
        ensures { result ≡ slice_index_or self.now.list i false }
    {
        self[i]
    }

    // Removes the bits from `start` up to `end`, by one move of what follows them.
    #[tactic(auto, using(bit_slice::proofs::Parts::shown_length))]
    pub(crate) fn remove_range(&mut self, start: usize, end: usize)
        requires ordered { start ≤ end }
        requires within { end ≤ length self.old.list }
        ensures list { self.new.list ≡ splice self.old.list start end [] }
        ensures head { self.new.head ≡ self.old.head }
        ensures capacity { self.new.capacity ≡ self.old.capacity }
    {
        let (from, to) = (self.head + end, self.head + start);
        let tail = self.len - end;
        move_bits_in_vec::<T, O>(&mut self.words, from, to, tail);
        cut_words_in_vec::<T, O>(&mut self.words, to + tail);
        self.len = start + tail;
    }

    // Like `remove_range`, for as much of the range as lies in the length.
    fn remove_within(&mut self, start: usize, end: usize)
        requires { start ≤ end }
        ensures list { self.new.list ≡ splice self.old.list start end [] }
        ensures head { self.new.head ≡ self.old.head }
        ensures capacity { self.new.capacity ≡ self.old.capacity }
    {
        let upto = end.min(self.len());
        if start < upto {
            self.remove_range(start, upto);
        }
    }

    /// Removes the bits at a range of indices: the iterator gives them, and when it ends all of them are gone,
    /// however many it gave. What becomes of dead bits is open. Requires that the range lies in the length.
    ///
    /// ```text
    /// of 01101001: bits.drain(1..3) gives true, true
    /// ```
    pub fn drain<R: RangeExt>(&mut self, range: R) -> Drain<'_, T, O>
        requires lies { LiesIn (R.start_of range) (R.end_of range (length self.old.list)) (length self.old.list) }
        ensures list { drain_rest result
            ≡ slice_range self.old.list (R.start_of range) (R.end_of range (length self.old.list)) }
        ensures ready { DrainCanStep result }
        ensures same_vector { drain_lender result ≡ self.entry.ghost_name }
        ensures kept { drain_kept result
            ≡ splice self.old.list (R.start_of range) (R.end_of range (length self.old.list)) [] }
        ensures head { drain_head result ≡ self.old.head }
        ensures capacity { drain_capacity result ≡ self.old.capacity }
        ensures runs { YieldsInOrder (DrainSteps {X = T} {Y = O} {W = T.BitStore} {P = O.BitOrder}) drain_rest }
        ensures runs_back { YieldsInReverse
            (DrainStepsBack {X = T} {Y = O} {W = T.BitStore} {P = O.BitOrder}) drain_rest }
        ensures stays { DrainKeepsAlong result }
    {
        let len = self.len();
        let range = range.normalize(len);
        let (start, end) = (range.start, range.end);
        Drain {
            vec: self,
            start,
            end,
            front: start,
            back: end,
        }
    }
}
