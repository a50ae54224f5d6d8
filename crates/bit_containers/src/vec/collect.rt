//! Growth by the bits or words that an iterator gives.
ghost use Rattle.std.specs.Prelude.{◌≡◌, ℕ, ◌+◌, ◌*◌, ◌<◌, ◌≤◌, Bool, List, [], ◌∷◌, ◌++◌, length, Err, IfOk, IsOk, OnOk, OnErr};
ghost use Rattle.std.specs.Iterator.{IsFiniteIterable};
ghost use Rattle.std.specs.Iterator.Runs.{EachRunFrom};
ghost use Rattle.bit_addressing.specs.Row.{number_bits, words_for};
ghost use Rattle.bit_addressing.specs.Typed.{row};
ghost use Rattle.bit_addressing.specs.declared.length.TheConstants.{MAX_BITS};
ghost use Rattle.bit_containers.specs.BitVec.{Grew, IsClean, RefusesOnly};
ghost use Rattle.bit_containers.specs.Making.{highest_bits};
ghost use Rattle.bit_slice.specs.Pulls.{GivesAll, GivesFirst, RunsThrough};

use crate::vec::BitVec;
use bit_addressing::{BitOrder, BitStore, GrowError, MAX_BITS};
use std::alloc::Global;

// The number shifted down by one place, with a bit put in at its highest place: where its highest bits are what was
// gathered, it gains one. Takes less time than a shift by as many places as there are bits (docs/SPEED.md, collect).
#[inline(always)]
fn with_last(number: u64, bit: bool) -> u64
    ensures { (n : ℕ) → n < 64 → highest_bits result (n + 1) ≡ highest_bits number n ++ bit ∷ [] }
{
    (number >> 1).with_bit(63, bit)
}

// The number whose `got` lowest bits are the `got` highest bits of this one. Requires that `got` is at most 64.
#[inline(always)]
pub(crate) fn shifted_down(number: u64, got: u8) -> u64
    requires { got ≤ 64 }
    ensures { number_bits result got ≡ highest_bits number got }
{
    if got == 0 { 0 } else { number >> (64 - got) }
}

impl<T: BitStore, O: BitOrder> BitVec<T, O> {
    /// Appends what an iterator gives before its first None, 64 bits at a time, and pulls nothing after that None.
    /// Returns `TooLong` at the first bit with which the length would pass `MAX_BITS`, and `OutOfMemory` only where
    /// the length would pass the capacity and not `MAX_BITS`. A refusal pulls no more, and leaves the list. Items
    /// that were pulled are lost. Requires that the iterator ends.
    ///
    /// A caller's proof knows the new list where it knows what the source gives, as of a `Vec<bool>`, an
    /// `Option<bool>`, or the bits of another vector by `into_iter` or `iter`, mapped or not. Views and words
    /// have calls of their own, which copy whole words.
    ///
    /// ```text
    /// of 01: bits.extend(Some(true))? leaves 011
    /// ```
    pub fn extend<I: IntoIterator<Item = bool>>(&mut self, iter: I) -> Result<(), GrowError>
        requires { IsFiniteIterable I.into_iter_gives I.IntoIter.can_next I.IntoIter.remaining iter }
        ensures joined { OnOk result (GivesAll I.into_iter_gives I.IntoIter.next_gives iter
            (λ bits. (self.new.list ≡ self.old.list ++ bits) × Grew T.BITS self.old self.new bits)) }
        ensures runs { OnOk result (RunsThrough I.into_iter_gives I.IntoIter.next_gives iter
            (λ bits. self.new.list ≡ self.old.list ++ bits)) }
        ensures clean { OnOk result (IsClean T.BITS self.old → IsClean T.BITS self.new) }
        ensures few { length self.new.list ≤ MAX_BITS }
        ensures too_long { result ≡ Err GrowError.TooLong
            → GivesFirst I.into_iter_gives I.IntoIter.next_gives iter
            (λ bits. MAX_BITS < length self.old.list + length bits) }
        ensures memory { result ≡ Err GrowError.OutOfMemory
            → GivesFirst I.into_iter_gives I.IntoIter.next_gives iter
            (λ bits. (self.old.capacity < length self.old.list + length bits)
            × (length self.old.list + length bits ≤ MAX_BITS)) }
        ensures fits { ((it : I.IntoIter) → I.into_iter_gives iter it
            → EachRunFrom I.IntoIter.next_gives it (λ run. (length self.old.list + length run.items
            ≤ self.old.capacity) × (length self.old.list + length run.items ≤ MAX_BITS))) → IsOk result }
        ensures unchanged { OnErr result (self.new.list ≡ self.old.list) }
        ensures head { self.new.head ≡ self.old.head }
        ensures capacity { self.old.capacity ≤ self.new.capacity }
        ensures no_memory { ((it : I.IntoIter) → I.into_iter_gives iter it
            → EachRunFrom I.IntoIter.next_gives it
            (λ run. length self.old.list + length run.items ≤ self.old.capacity))
            → self.new.capacity ≡ self.old.capacity }
    {
        self.extend_by(iter)
    }

    // Like `extend`.
    fn extend_by<I: IntoIterator<Item = bool>>(&mut self, iter: I) -> Result<(), GrowError>
        requires { IsFiniteIterable I.into_iter_gives I.IntoIter.can_next I.IntoIter.remaining iter }
        ensures joined { OnOk result (GivesAll I.into_iter_gives I.IntoIter.next_gives iter
            (λ bits. (self.new.list ≡ self.old.list ++ bits) × Grew T.BITS self.old self.new bits)) }
        ensures few { length self.new.list ≤ MAX_BITS }
        ensures too_long { result ≡ Err GrowError.TooLong
            → GivesFirst I.into_iter_gives I.IntoIter.next_gives iter
            (λ bits. MAX_BITS < length self.old.list + length bits) }
        ensures memory { result ≡ Err GrowError.OutOfMemory
            → GivesFirst I.into_iter_gives I.IntoIter.next_gives iter
            (λ bits. (self.old.capacity < length self.old.list + length bits)
            × (length self.old.list + length bits ≤ MAX_BITS)) }
        ensures unchanged { OnErr result (self.new.list ≡ self.old.list) }
        ensures head { self.new.head ≡ self.old.head }
        ensures capacity { self.old.capacity ≤ self.new.capacity }
        ensures grown { self.old.capacity < self.new.capacity
            → GivesFirst I.into_iter_gives I.IntoIter.next_gives iter
            (λ bits. self.old.capacity < length self.old.list + length bits) }
    {
        let len = self.len();
        let (mut number, mut got) = (0, 0);
        let mut most = self.gathers();
        self.prove_in_words();
        for bit in iter {
            match self.gather(number, got, most, bit) {
                Ok(next) => (number, got, most) = next,
                Err(why) => {
                    self.truncate(len);
                    return Err(why);
                }
            }
        }
        if let Err(why) = self.push_le(got, shifted_down(number, got)) {
            self.truncate(len);
            return Err(why);
        }
        Ok(())
    }

    // Proof only: its clauses say that the row has exactly the words that head and list take, and that the capacity
    // has room for the list.
    pub(crate) fn prove_in_words(&self)
        ensures size { length self.now.row ≡ T.BITS * words_for T.BITS (self.now.head + length self.now.list) }
        ensures few { length self.now.list ≤ MAX_BITS }
        ensures room { length self.now.list ≤ self.now.capacity }
    {
        let _room = self.capacity();
        let _words = &self.words;
    }

    // How many bits may be gathered in a number before they are appended: 64, or as many as the list may grow by where
    // those are fewer.
    #[inline(always)]
    pub(crate) fn gathers(&self) -> u8
        ensures few { result ≤ 64 }
        ensures fits { length self.now.list + result ≤ MAX_BITS }
        ensures full { result < 64 → length self.now.list + result ≡ MAX_BITS }
        ensures some { length self.now.list < MAX_BITS → 0 < result }
    {
        (MAX_BITS - self.len()).min(64) as u8
    }

    // Gathers one bit more after the `got` highest bits of a number, which are to be appended. Where they are as
    // many as may be gathered, they are appended first. Returns the number after that, how many of its highest bits
    // are to be appended, and how many may be gathered.
    #[inline(always)]
    pub(crate) fn gather(
        &mut self,
        number: u64,
        got: u8,
        most: u8,
        bit: bool,
    ) -> Result<(u64, u8, u8), GrowError>
        requires room { got ≤ most }
        requires word { most ≤ 64 }
        requires few { length self.old.list + most ≤ MAX_BITS }
        requires full { most < 64 → length self.old.list + most ≡ MAX_BITS }
        ensures joined { IfOk result (λ next. (more : List Bool) × (self.new.list ≡ self.old.list ++ more)
            × Grew T.BITS self.old self.new more
            × (more ++ highest_bits next.0 next.1 ≡ highest_bits number got ++ bit ∷ [])) }
        ensures next { IfOk result
            (λ next. (next.1 ≤ next.2) × (next.2 ≤ 64) × (length self.new.list + next.2 ≤ MAX_BITS)) }
        ensures full { IfOk result (λ next. next.2 < 64 → length self.new.list + next.2 ≡ MAX_BITS) }
        ensures refusal { RefusesOnly result (length self.old.list + (got + 1)) self.old self.new }
        ensures capacity { self.old.capacity ≤ self.new.capacity }
        ensures no_memory { length self.old.list + got ≤ self.old.capacity
            → self.new.capacity ≡ self.old.capacity }
    {
        self.prove_in_words();
        if got < most {
            return Ok((with_last(number, bit), got + 1, most));
        }
        if self.len() + got as usize == MAX_BITS {
            return Err(GrowError::TooLong);
        }
        self.push_le(got, number)?;
        Ok((with_last(0, bit), 1, self.gathers()))
    }

    /// The bits that an iterator gives before its first None, from head 0 on: the words are canonical. It is refused
    /// like `extend`. Requires that the iterator ends.
    ///
    /// ```text
    /// BitVec::<u8, Lsb0>::from_bits(alloc, Some(true))? holds 1
    /// ```
    pub fn from_bits<I: IntoIterator<Item = bool>>(
        alloc: Global,
        iter: I,
    ) -> Result<Self, GrowError>
        requires { IsFiniteIterable I.into_iter_gives I.IntoIter.can_next I.IntoIter.remaining iter }
        ensures list { IfOk result
            (λ v. GivesAll I.into_iter_gives I.IntoIter.next_gives iter (λ bits. v.list ≡ bits)) }
        ensures runs { IfOk result
            (λ v. RunsThrough I.into_iter_gives I.IntoIter.next_gives iter (λ bits. v.list ≡ bits)) }
        ensures clean { IfOk result (λ v. IsClean T.BITS v) }
        ensures few { IfOk result (λ v. length v.list ≤ MAX_BITS) }
        ensures too_long { result ≡ Err GrowError.TooLong
            → GivesFirst I.into_iter_gives I.IntoIter.next_gives iter (λ bits. MAX_BITS < length bits) }
        ensures memory { result ≡ Err GrowError.OutOfMemory
            → GivesFirst I.into_iter_gives I.IntoIter.next_gives iter
            (λ bits. (0 < length bits) × (length bits ≤ MAX_BITS)) }
    {
        let mut v = Self::new(alloc);
        match v.extend(iter) {
            Ok(()) => Ok(v),
            Err(why) => Err(why),
        }
    }

    /// Appends all bits of the words that an iterator gives before its first None, and pulls nothing after that
    /// None. Returns `TooLong` at the first word with which the length would pass `MAX_BITS`; otherwise it is
    /// refused like `extend`. Requires that the iterator ends.
    ///
    /// ```text
    /// of 01: bits.extend_words(Some(3))? leaves 0111000000
    /// ```
    pub fn extend_words<I: IntoIterator<Item = T>>(&mut self, iter: I) -> Result<(), GrowError>
        requires { IsFiniteIterable I.into_iter_gives I.IntoIter.can_next I.IntoIter.remaining iter }
        ensures joined { OnOk result (GivesAll I.into_iter_gives I.IntoIter.next_gives iter
            (λ words. (self.new.list ≡ self.old.list ++ row T.BitStore O.BitOrder words)
            × Grew T.BITS self.old self.new (row T.BitStore O.BitOrder words))) }
        ensures runs { OnOk result (RunsThrough I.into_iter_gives I.IntoIter.next_gives iter
            (λ words. self.new.list ≡ self.old.list ++ row T.BitStore O.BitOrder words)) }
        ensures clean { OnOk result (IsClean T.BITS self.old → IsClean T.BITS self.new) }
        ensures few { length self.new.list ≤ MAX_BITS }
        ensures too_long { result ≡ Err GrowError.TooLong
            → GivesFirst I.into_iter_gives I.IntoIter.next_gives iter
            (λ words. MAX_BITS < length self.old.list + T.BITS * length words) }
        ensures memory { result ≡ Err GrowError.OutOfMemory
            → GivesFirst I.into_iter_gives I.IntoIter.next_gives iter
            (λ words. (self.old.capacity < length self.old.list + T.BITS * length words)
            × (length self.old.list + T.BITS * length words ≤ MAX_BITS)) }
        ensures unchanged { OnErr result (self.new.list ≡ self.old.list) }
        ensures head { self.new.head ≡ self.old.head }
        ensures capacity { self.old.capacity ≤ self.new.capacity }
        ensures no_memory { ((it : I.IntoIter) → I.into_iter_gives iter it
            → EachRunFrom I.IntoIter.next_gives it
            (λ run. length self.old.list + T.BITS * length run.items ≤ self.old.capacity))
            → self.new.capacity ≡ self.old.capacity }
    {
        self.extend_by_words(iter)
    }

    // Appends all bits of one word.
    fn extend_from_word(&mut self, word: T) -> Result<(), GrowError>
        ensures list { OnOk result (self.new.list ≡ self.old.list ++ row T.BitStore O.BitOrder (word ∷ [])) }
        ensures row { OnOk result (Grew T.BITS self.old self.new (row T.BitStore O.BitOrder (word ∷ []))) }
        ensures refusal { RefusesOnly result (length self.old.list + T.BITS) self.old self.new }
        ensures capacity { self.old.capacity ≤ self.new.capacity }
        ensures no_memory { length self.old.list + T.BITS ≤ self.old.capacity
            → self.new.capacity ≡ self.old.capacity }
    {
        self.push_le(T::BITS, O::to_lsb0(word).to_u64())
    }

    // Like `extend_words`.
    fn extend_by_words<I: IntoIterator<Item = T>>(&mut self, iter: I) -> Result<(), GrowError>
        requires { IsFiniteIterable I.into_iter_gives I.IntoIter.can_next I.IntoIter.remaining iter }
        ensures joined { OnOk result (GivesAll I.into_iter_gives I.IntoIter.next_gives iter
            (λ words. (self.new.list ≡ self.old.list ++ row T.BitStore O.BitOrder words)
            × Grew T.BITS self.old self.new (row T.BitStore O.BitOrder words))) }
        ensures few { length self.new.list ≤ MAX_BITS }
        ensures too_long { result ≡ Err GrowError.TooLong
            → GivesFirst I.into_iter_gives I.IntoIter.next_gives iter
            (λ words. MAX_BITS < length self.old.list + T.BITS * length words) }
        ensures memory { result ≡ Err GrowError.OutOfMemory
            → GivesFirst I.into_iter_gives I.IntoIter.next_gives iter
            (λ words. (self.old.capacity < length self.old.list + T.BITS * length words)
            × (length self.old.list + T.BITS * length words ≤ MAX_BITS)) }
        ensures unchanged { OnErr result (self.new.list ≡ self.old.list) }
        ensures head { self.new.head ≡ self.old.head }
        ensures capacity { self.old.capacity ≤ self.new.capacity }
        ensures grown { self.old.capacity < self.new.capacity
            → GivesFirst I.into_iter_gives I.IntoIter.next_gives iter
            (λ words. self.old.capacity < length self.old.list + T.BITS * length words) }
    {
        let len = self.len();
        self.prove_in_words();
        for word in iter {
            if let Err(why) = self.extend_from_word(word) {
                self.truncate(len);
                return Err(why);
            }
        }
        self.prove_in_words();
        Ok(())
    }

    /// The words that an iterator gives before its first None, as they are: head 0. Returns `TooLong` at the
    /// first word with which the length would pass `MAX_BITS`; otherwise it is refused like `from_bits`.
    /// Requires that the iterator ends.
    ///
    /// ```text
    /// BitVec::<u8, Lsb0>::from_words(alloc, Some(3))? holds 11000000
    /// ```
    pub fn from_words<I: IntoIterator<Item = T>>(alloc: Global, iter: I) -> Result<Self, GrowError>
        requires { IsFiniteIterable I.into_iter_gives I.IntoIter.can_next I.IntoIter.remaining iter }
        ensures words { IfOk result
            (λ v. GivesAll I.into_iter_gives I.IntoIter.next_gives iter (λ words. v.words ≡ words)) }
        ensures runs { IfOk result
            (λ v. RunsThrough I.into_iter_gives I.IntoIter.next_gives iter (λ words. v.words ≡ words)) }
        ensures head { IfOk result (λ v. v.head ≡ 0) }
        ensures list { IfOk result (λ v. v.list ≡ row T.BitStore O.BitOrder v.words) }
        ensures row { IfOk result (λ v. v.row ≡ row T.BitStore O.BitOrder v.words) }
        ensures len { IfOk result (λ v. length v.list ≡ T.BITS * length v.words) }
        ensures clean { IfOk result (λ v. IsClean T.BITS v) }
        ensures too_long { result ≡ Err GrowError.TooLong
            → GivesFirst I.into_iter_gives I.IntoIter.next_gives iter
            (λ words. MAX_BITS < T.BITS * length words) }
        ensures memory { result ≡ Err GrowError.OutOfMemory
            → GivesFirst I.into_iter_gives I.IntoIter.next_gives iter
            (λ words. (0 < length words) × (T.BITS * length words ≤ MAX_BITS)) }
    {
        let mut words = Vec::new(alloc);
        for word in iter {
            if !Self::fits(words.len() + 1) {
                return Err(GrowError::TooLong);
            }
            let Ok(()) = words.push(word) else {
                return Err(GrowError::OutOfMemory);
            };
        }
        Ok(Self::from_vec(words))
    }
}
