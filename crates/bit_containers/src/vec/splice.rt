//! Calls that replace a range of bits, and that cut a vector in two.
ghost use Rattle.std.specs.Prelude.{◌≡◌, ◌≢◌, ◌+◌, ◌-◌, ◌<◌, ◌≤◌, Bool, List, [], length, take, drop, replicate, reverse, slice_get, slice_range, Err, IfOk, OnOk, OnErr};
ghost use Rattle.std.specs.Iterator.{IsFinite, Drains, Yields, YieldsFirst, YieldsLast};
ghost use Rattle.std.specs.Iterator.Runs.{EachRunFrom, WholeRun, YieldsInOrder, YieldsInReverse};
ghost use Rattle.std.specs.List.{splice};
ghost use Rattle.bit_addressing.specs.Range.{LiesIn};
ghost use Rattle.bit_addressing.specs.declared.length.TheConstants.{MAX_BITS};
ghost use Rattle.bit_slice.specs.BitSlice.{len_of, list_of};
ghost use Rattle.bit_containers.specs.BitVec.{IsClean, IsKept, RefusesOnly, Shrank};

use crate::vec::collect::shifted_down;
use crate::vec::{BitVec, Items};
use bit_addressing::{BitOrder, BitStore, GrowError, Lsb0, MAX_BITS, RangeExt};
use bit_slice::{BitListMut, BitSlice};
use std::alloc::{AllocError, Global};

/// The bits of a range of a vector, from both ends, and what is to replace them.
///
/// It has to be spent by `finish`, which puts the replacement in place of the range: before that nothing is pulled,
/// and the vector stays. Its calls require that the range still lies in the vector, which `splice` ensures and each
/// call keeps.
///
/// ```text
/// v.splice(1..4, bits).finish()?;
/// ```
pub struct Splice<'a, T: BitStore, O: BitOrder, I> {
    vec: &'a mut BitVec<T, O>,
    start: usize,
    end: usize,
    front: usize,
    back: usize,
    replacement: I,
}

impl<T: BitStore, O: BitOrder> BitVec<T, O> {
    ghost use Rattle.bit_containers.specs.Splice.{splice_rest, splice_vector, splice_lender, SpliceIsReady};

    /// Drops all bits. The words are dropped too, and the capacity stays. Takes no memory.
    ///
    /// ```text
    /// of 0110: bits.clear() leaves nothing
    /// ```
    pub fn clear(&mut self)
        ensures list { self.new.list ≡ [] }
        ensures row { Shrank T.BITS self.old self.new 0 }
    {
        self.truncate(0);
    }

    /// Cuts the vector at `at`, and returns the bits from there on as a clean vector. Allocates, and can fail, only
    /// where there is a bit from `at` on; a refusal leaves the vector. Requires that `at` is at most the length.
    ///
    /// ```text
    /// of 01101001: bits.split_off(3)?.as_bitslice() shows 01001
    /// ```
    pub fn split_off(&mut self, at: usize) -> Result<Self, AllocError>
        requires { at ≤ length self.old.list }
        ensures left { OnOk result (self.new.list ≡ take at self.old.list) }
        ensures row { OnOk result (Shrank T.BITS self.old self.new at) }
        ensures rest { IfOk result (λ rest. rest.list ≡ drop at self.old.list) }
        ensures clean { IfOk result (λ rest. IsClean T.BITS rest) }
        ensures unchanged { OnErr result (self.new ≡ self.old) }
        ensures memory { OnErr result (at < length self.old.list) }
        ensures capacity { self.new.capacity ≡ self.old.capacity }
    {
        let alloc = self.allocator();
        let rest = Self::from_bitslice(alloc, self.get_range(at..))?;
        self.truncate(at);
        Ok(rest)
    }

    /// Replaces the bits at a range of indices by what an iterator gives, once the splice is finished; until then it
    /// gives the bits of the range. Requires that the range lies in the length.
    ///
    /// A caller's proof covers sources that own what they give: a `Vec<bool>`, an `Option<bool>`, a
    /// vector's `into_iter`, mapped or not. It covers no source that borrows, as `iter()` or `by_ref()`:
    /// collect it first.
    ///
    /// ```text
    /// of 0110: bits.splice(1..3, Some(false)).finish()? leaves 000
    /// ```
    pub fn splice<R: RangeExt, U: IntoIterator<Item = bool>>(
        &mut self,
        range: R,
        replacement: U,
    ) -> Splice<'_, T, O, U::IntoIter>
        requires lies { LiesIn (R.start_of range) (R.end_of range (length self.old.list)) (length self.old.list) }
        ensures list { splice_rest result
            ≡ slice_range self.old.list (R.start_of range) (R.end_of range (length self.old.list)) }
        ensures vector { splice_vector result ≡ self.old }
        ensures start { result.start ≡ R.start_of range }
        ensures end { result.end ≡ R.end_of range (length self.old.list) }
        ensures replacement { U.into_iter_gives replacement result.replacement }
        ensures same_vector { splice_lender result ≡ self.entry.ghost_name }
        ensures ready { SpliceIsReady result }
    {
        let len = self.len();
        let range = range.normalize(len);
        let (start, end) = (range.start, range.end);
        Splice {
            vec: self,
            start,
            end,
            front: start,
            back: end,
            replacement: replacement.into_iter(),
        }
    }

    /// Replaces the bits at a range of indices by those of a view, with any word type and order: what follows
    /// moves once. Takes memory only where the list grows, and is refused like `resize` to the new length. What
    /// becomes of dead bits is open. Requires that the range lies in the length.
    ///
    /// ```text
    /// of 0110 and 101: bits.replace_range(1..2, other)? leaves 010110
    /// ```
    pub fn replace_range<R: RangeExt, U: BitStore, P: BitOrder>(
        &mut self,
        range: R,
        view: BitSlice<'_, U, P>,
    ) -> Result<(), GrowError>
        requires lies { LiesIn (R.start_of range) (R.end_of range (length self.old.list)) (length self.old.list) }
        ensures list { OnOk result (self.new.list
            ≡ splice self.old.list (R.start_of range) (R.end_of range (length self.old.list)) (list_of view.entry)) }
        ensures head { self.new.head ≡ self.old.head }
        ensures refusal { RefusesOnly result (length self.old.list
            - (R.end_of range (length self.old.list) - R.start_of range) + len_of view.entry) self.old self.new }
        ensures capacity { self.old.capacity ≤ self.new.capacity }
        ensures no_memory { length self.old.list - (R.end_of range (length self.old.list) - R.start_of range)
            + len_of view.entry ≤ self.old.capacity → self.new.capacity ≡ self.old.capacity }
    {
        let len = self.len();
        let range = range.normalize(len);
        let (start, end) = (range.start, range.end);
        if view.len() > MAX_BITS - (len - (end - start)) {
            return Err(GrowError::TooLong);
        }
        self.put_range(start, end, view)
    }

    // Replaces the bits from `start` up to `end` by those of a view: what follows moves once.
    fn put_range<U: BitStore, P: BitOrder>(
        &mut self,
        start: usize,
        end: usize,
        view: BitSlice<'_, U, P>,
    ) -> Result<(), GrowError>
        requires ordered { start ≤ end }
        requires within { end ≤ length self.old.list }
        requires fits { length self.old.list - (end - start) + len_of view ≤ MAX_BITS }
        ensures list { OnOk result (self.new.list ≡ splice self.old.list start end (list_of view.entry)) }
        ensures head { self.new.head ≡ self.old.head }
        ensures too_long { result ≢ Err GrowError.TooLong }
        ensures memory { result ≡ Err GrowError.OutOfMemory → end - start < len_of view.entry }
        ensures wanted { result ≡ Err GrowError.OutOfMemory
            → self.old.capacity < length self.old.list - (end - start) + len_of view.entry }
        ensures unchanged { OnErr result (IsKept self.old self.new) }
        ensures capacity { self.old.capacity ≤ self.new.capacity }
        ensures no_memory { length self.old.list - (end - start) + len_of view.entry ≤ self.old.capacity
            → self.new.capacity ≡ self.old.capacity }
    {
        let (len, more) = (self.len(), view.len());
        if more <= end - start {
            self.copy_into(start..start + more, view);
            self.remove_range(start + more, end);
            return Ok(());
        }
        let extra = more - (end - start);
        self.resize(len + extra, false)?;
        self.copy_within(end..len, end + extra);
        self.copy_into(start..start + more, view);
        Ok(())
    }

    // Replaces the bits from `start` up to `end` by a bit, `n` times. Requires that the range lies in the length.
    pub(crate) fn replace_by(
        &mut self,
        start: usize,
        end: usize,
        bit: bool,
        n: usize,
    ) -> Result<(), GrowError>
        requires ordered { start ≤ end }
        requires within { end ≤ length self.old.list }
        ensures list { OnOk result (self.new.list ≡ splice self.old.list start end (replicate n bit)) }
        ensures fits { OnOk result (length self.old.list - (end - start) + n ≤ MAX_BITS) }
        ensures head { self.new.head ≡ self.old.head }
        ensures too_long { result ≡ Err GrowError.TooLong → MAX_BITS < length self.old.list - (end - start) + n }
        ensures memory { result ≡ Err GrowError.OutOfMemory → 0 < n }
        ensures small { result ≡ Err GrowError.OutOfMemory → length self.old.list - (end - start) + n ≤ MAX_BITS }
        ensures unchanged { OnErr result (self.new.list ≡ self.old.list) }
        ensures capacity { self.old.capacity ≤ self.new.capacity }
        ensures no_memory { length self.old.list - (end - start) + n ≤ self.old.capacity
            → self.new.capacity ≡ self.old.capacity }
    {
        let kept = self.len() - (end - start);
        if n > MAX_BITS - kept {
            return Err(GrowError::TooLong);
        }
        let alloc = self.allocator();
        let bits = Self::repeat(alloc, bit, n)?;
        self.put_range(start, end, bits.as_bitslice())
    }

    // What an iterator gives before its first None, at most `most` bits, 64 at a time.
    fn pulled<I: Iterator<Item = bool>>(
        alloc: Global,
        most: usize,
        iter: I,
    ) -> Result<Self, GrowError>
        requires few { most ≤ MAX_BITS }
        requires ends { I.can_next iter × IsFinite (I.remaining iter) }
        ensures list { IfOk result (λ v. Drains I.next_gives iter v.list) }
        ensures few { IfOk result (λ v. length v.list ≤ most) }
        ensures too_long { result ≡ Err GrowError.TooLong
            → (bits : List Bool) × (rest : I) × Yields I.next_gives iter bits rest × (most < length bits) }
        ensures memory { result ≡ Err GrowError.OutOfMemory
            → (bits : List Bool) × (rest : I) × Yields I.next_gives iter bits rest × (0 < length bits)
            × (length bits ≤ most) }
    {
        let mut v = Self::new(alloc);
        let (mut number, mut got) = (0, 0);
        let mut room = v.gathers();
        for bit in iter {
            if v.len() + got as usize == most {
                return Err(GrowError::TooLong);
            }
            (number, got, room) = v.gather(number, got, room, bit)?;
        }
        v.prove_in_words();
        v.push_le(got, shifted_down(number, got))?;
        Ok(v)
    }

    // Replaces the bits from `start` up to `end` by what an iterator gives.
    fn replace_by_items<I: Iterator<Item = bool>>(
        &mut self,
        start: usize,
        end: usize,
        replacement: I,
    ) -> Result<(), GrowError>
        requires ordered { start ≤ end }
        requires within { end ≤ length self.old.list }
        requires ends { I.can_next replacement × IsFinite (I.remaining replacement) }
        ensures list { OnOk result ((bits : List Bool) × Drains I.next_gives replacement bits
            × (self.new.list ≡ splice self.old.list start end bits)) }
        ensures head { self.new.head ≡ self.old.head }
        ensures too_long { result ≡ Err GrowError.TooLong
            → (bits : List Bool) × (rest : I) × Yields I.next_gives replacement bits rest
            × (MAX_BITS < length self.old.list - (end - start) + length bits) }
        ensures memory { result ≡ Err GrowError.OutOfMemory
            → (bits : List Bool) × (rest : I) × Yields I.next_gives replacement bits rest
            × (0 < length bits) × (length self.old.list - (end - start) + length bits ≤ MAX_BITS) }
        ensures unchanged { OnErr result (self.new.list ≡ self.old.list) }
        ensures capacity { self.old.capacity ≤ self.new.capacity }
        ensures grown { self.old.capacity < self.new.capacity
            → (bits : List Bool) × (rest : I) × Yields I.next_gives replacement bits rest
            × (self.old.capacity < length self.old.list - (end - start) + length bits) }
    {
        let kept = self.len() - (end - start);
        let alloc = self.allocator();
        let bits = Self::pulled(alloc, MAX_BITS - kept, replacement)?;
        self.put_range(start, end, bits.as_bitslice())
    }
}

impl<'a, T: BitStore, O: BitOrder, I: Iterator<Item = bool>> Splice<'a, T, O, I> {
    ghost use Rattle.bit_containers.specs.Splice.{splice_rest, SpliceIsReady, SpliceIsEmptied, SpliceKeeps, SpliceSteps, SpliceStepsBack};
    ghost use Rattle.bit_containers.specs.Items.{items_rest};
    ghost use Rattle.std.specs.Borrow.{sem, follows_so};
    ghost use Rattle.std.specs.Prelude.{⊤};
    ghost use mathlib.Core.Option.{none};
    ghost use mir.Syntax.{named};
    ghost use Rattle.bit_containers.specs.contracts.vec.splice.Splice.{the_row};

    /// The next of the replaced bits.
    pub fn next(&mut self) -> Option<bool>
        requires { SpliceIsReady self.old }
        ensures steps { SpliceSteps self.old result self.new }
        ensures ready { SpliceIsReady self.new }
    {
        if self.front == self.back {
            return None;
        }
        let bit = self.vec.bit(self.front);
        self.front += 1;
        Some(bit)
    }

    /// The last of the replaced bits that are still to come.
    pub fn next_back(&mut self) -> Option<bool>
        requires { SpliceIsReady self.old }
        ensures steps { SpliceStepsBack self.old result self.new }
        ensures ready { SpliceIsReady self.new }
    {
        if self.front == self.back {
            return None;
        }
        self.back -= 1;
        Some(self.vec.bit(self.back))
    }

    /// The replaced bit after the next `n`, which are skipped. None exactly where at most `n` are left; then none
    /// is left.
    pub fn nth(&mut self, n: usize) -> Option<bool>
        requires { SpliceIsReady self.old }
        ensures item { result ≡ slice_get (splice_rest self.old) n }
        ensures rest { splice_rest self.new ≡ drop (n + 1) (splice_rest self.old) }
        ensures keeps { SpliceKeeps self.old self.new }
        ensures ready { SpliceIsReady self.new }
    {
        if n >= self.back - self.front {
            self.front = self.back;
            return None;
        }
        let at = self.front + n;
        self.front = at + 1;
        Some(self.vec.bit(at))
    }

    /// The replaced bit before the last `n` that are still to come, which are skipped. None exactly where at
    /// most `n` are left; then none is left.
    pub fn nth_back(&mut self, n: usize) -> Option<bool>
        requires { SpliceIsReady self.old }
        ensures item { result ≡ slice_get (reverse (splice_rest self.old)) n }
        ensures rest { splice_rest self.new ≡ take (length (splice_rest self.old) - (n + 1)) (splice_rest self.old) }
        ensures keeps { SpliceKeeps self.old self.new }
        ensures ready { SpliceIsReady self.new }
    {
        if n >= self.back - self.front {
            self.back = self.front;
            return None;
        }
        self.back -= n + 1;
        Some(self.vec.bit(self.back))
    }

    /// An iterator over the replaced bits that are still to come, from both ends. It takes all of them: the
    /// splice has none left.
    pub fn items(&mut self) -> Items<'_, T, O>
        requires { SpliceIsReady self.old }
        ensures* writes_back { sem 𝓛 (follows_so
            (the_row (record { mir = named 1; lft = [] }) T.row O.row I.row T.BitStore O.BitOrder)
            (the_row (record { mir = named 1; lft = [] }) T.row O.row I.row T.BitStore O.BitOrder)
            self.entry.ghost_name none (λ _ _. ⊤) (λ v. SpliceIsEmptied self.old v)) }
        ensures rest { items_rest result ≡ splice_rest self.old }
        ensures runs { YieldsInOrder
            (YieldsFirst (items_rest {X = T} {Y = O} {W = T.BitStore} {P = O.BitOrder})) items_rest }
        ensures runs_back { YieldsInReverse
            (YieldsLast (items_rest {X = T} {Y = O} {W = T.BitStore} {P = O.BitOrder})) items_rest }
    {
        let (front, back) = (self.front, self.back);
        self.front = back;
        Items::of(self.vec.get_range(front..back).iter())
    }

    /// The number of replaced bits still to come.
    pub fn len(&self) -> usize
        requires { SpliceIsReady self.now }
        ensures { result ≡ length (splice_rest self.now) }
    {
        self.back - self.front
    }

    /// Pulls the whole replacement, and puts it in place of the range: what follows moves once. Returns `TooLong` at
    /// the first bit with which the length would pass `MAX_BITS`, and `OutOfMemory` only where a bit was pulled and
    /// the length would not pass `MAX_BITS`. A refusal pulls no more, and leaves the list. What becomes of dead bits
    /// is open. Requires that the replacement ends.
    pub fn finish(self) -> Result<(), GrowError>
        requires ready { SpliceIsReady self }
        requires ends { I.can_next self.replacement × IsFinite (I.remaining self.replacement) }
        ensures list { OnOk result ((bits : List Bool) × Drains I.next_gives self.entry.replacement bits
            × (self.exit.0.now.list
            ≡ splice self.entry.vec.now.list self.entry.start self.entry.end bits)) }
        ensures runs { OnOk result (WholeRun I.next_gives self.entry.replacement
            (λ p. self.exit.0.now.list
            ≡ splice self.entry.vec.now.list self.entry.start self.entry.end p.items)) }
        ensures head { self.exit.0.now.head ≡ self.entry.vec.now.head }
        ensures too_long { result ≡ Err GrowError.TooLong
            → (bits : List Bool) × (rest : I) × Yields I.next_gives self.entry.replacement bits rest
            × (MAX_BITS
            < length self.entry.vec.now.list - (self.entry.end - self.entry.start) + length bits) }
        ensures memory { result ≡ Err GrowError.OutOfMemory
            → (bits : List Bool) × (rest : I) × Yields I.next_gives self.entry.replacement bits rest
            × (0 < length bits)
            × (length self.entry.vec.now.list - (self.entry.end - self.entry.start) + length bits
            ≤ MAX_BITS) }
        ensures unchanged { OnErr result (self.exit.0.now.list ≡ self.entry.vec.now.list) }
        ensures capacity { self.entry.vec.now.capacity ≤ self.exit.0.now.capacity }
        ensures no_memory { EachRunFrom I.next_gives self.entry.replacement
            (λ run. length self.entry.vec.now.list - (self.entry.end - self.entry.start) + length run.items
            ≤ self.entry.vec.now.capacity) → self.exit.0.now.capacity ≡ self.entry.vec.now.capacity }
    {
        let Splice {
            vec,
            start,
            end,
            front: _,
            back: _,
            replacement,
        } = self;
        vec.replace_by_items(start, end, replacement)
    }
}
