//! The length of the vector, and calls that append, insert and remove single bits.
ghost use Rattle.std.specs.Prelude.{◌≡◌, ◌≢◌, ◌+◌, ◌-◌, ◌*◌, ◌<◌, ◌≤◌, false, true, [], ◌∷◌, ◌++◌, length, min, take, insert, remove, OnOk, MatchOption, Some, slice_get, IsTrue, IsSome, ◌↔◌};
ghost use Rattle.std.specs.List.{swap_remove};
ghost use Rattle.bit_addressing.specs.declared.length.TheConstants.{MAX_BITS};
ghost use Rattle.bit_containers.specs.BitVec.{Grew, Shrank, IsClean, RefusesOnly};

use crate::vec::BitVec;
use bit_addressing::{BitOrder, BitStore, GrowError, MAX_BITS};
use bit_rows::{
    cut_words_in_vec, insert_bit_in_vec, push_bit_in_vec, read_bit, remove_bit_in_vec,
    write_bit_in_vec,
};

impl<T: BitStore, O: BitOrder> BitVec<T, O> {
    /// The length, in bits.
    ///
    /// ```text
    /// of 01101001: bits.len() == 8
    /// ```
    pub fn len(&self) -> usize
        ensures value { result ≡ length self.now.list }
        ensures bound { result ≤ MAX_BITS }
        ensures fits { self.now.head + length self.now.list ≤ T.BITS * length self.now.words }
    {
        self.len
    }

    /// The head: the index, in the first word, at which the list begins.
    ///
    /// ```text
    /// of 01101001: bits.head() == 0
    /// ```
    pub fn head(&self) -> usize
        ensures value { result ≡ self.now.head }
        ensures bound { result < T.BITS }
    {
        self.head
    }

    /// Whether there is no bit.
    ///
    /// ```text
    /// of 01101001: bits.is_empty() == false
    /// ```
    pub fn is_empty(&self) -> bool
        ensures { IsTrue result ↔ (length self.now.list ≡ 0) }
    {
        self.len == 0
    }

    /// Appends a bit. Where the visible words are full, a word of zero is appended first; no other
    /// dead bit changes. Returns `TooLong` exactly where the length would pass `MAX_BITS`, and
    /// `OutOfMemory` only where it would pass the capacity. A refusal changes nothing but perhaps
    /// the capacity.
    ///
    /// ```text
    /// of 011: bits.push(true)? leaves 0111
    /// ```
    #[tactic(auto, using(bit_slice::proofs::Parts::shown_length))]
    pub fn push(&mut self, bit: bool) -> Result<(), GrowError>
        ensures list { OnOk result (self.new.list ≡ self.old.list ++ bit ∷ []) }
        ensures row { OnOk result (Grew T.BITS self.old self.new (bit ∷ [])) }
        ensures clean { OnOk result (IsClean T.BITS self.old → IsClean T.BITS self.new) }
        ensures refusal { RefusesOnly result (length self.old.list + 1) self.old self.new }
        ensures bound { length self.old.list ≤ MAX_BITS }
        ensures capacity { self.old.capacity ≤ self.new.capacity }
        ensures no_memory { length self.old.list < self.old.capacity → self.new.capacity ≡ self.old.capacity }
    {
        if self.len == MAX_BITS {
            return Err(GrowError::TooLong);
        }
        let end = self.head + self.len;
        push_bit_in_vec::<T, O>(&mut self.words, end, bit)?;
        self.len += 1;
        Ok(())
    }

    /// Removes the last bit and returns it. None exactly where the vector is empty. A word that is left
    /// with no bit of the list is dropped, and nothing is written. Takes no memory, and the capacity stays.
    ///
    /// ```text
    /// of 0111: bits.pop() == Some(true)
    /// ```
    #[tactic(auto, using(bit_slice::proofs::Parts::shown_length))]
    pub fn pop(&mut self) -> Option<bool>
        ensures popped { MatchOption result (length self.old.list ≡ 0)
            (λ bit. self.old.list ≡ self.new.list ++ bit ∷ []) }
        ensures value { result ≡ slice_get self.old.list (length self.old.list - 1) }
        ensures list { self.new.list ≡ take (length self.old.list - 1) self.old.list }
        ensures bound { length self.old.list ≤ MAX_BITS }
        ensures room { length self.old.list ≤ self.new.capacity }
        ensures clean { result ≢ Some true → IsClean T.BITS self.old → IsClean T.BITS self.new }
        ensures row { Shrank T.BITS self.old self.new (length self.old.list - 1) }
        ensures variant { IsSome result ↔ (0 < length self.old.list) }
    {
        if self.len == 0 {
            return None;
        }
        let last = self.head + (self.len - 1);
        let bit = read_bit::<T, O>(self.words.as_slice(), last);
        cut_words_in_vec::<T, O>(&mut self.words, last);
        self.len -= 1;
        Some(bit)
    }

    /// Keeps the first `n` bits, or all where there are no more. The words are cut to the visible ones, and
    /// nothing is written. The capacity stays. Takes no memory.
    ///
    /// ```text
    /// of 0110: bits.truncate(2) leaves 01
    /// ```
    #[tactic(auto, using(bit_slice::proofs::Parts::shown_length))]
    pub fn truncate(&mut self, n: usize)
        ensures list { self.new.list ≡ take n self.old.list }
        ensures row { Shrank T.BITS self.old self.new (min n (length self.old.list)) }
    {
        if n < self.len {
            cut_words_in_vec::<T, O>(&mut self.words, self.head + n);
            self.len = n;
        }
    }

    /// Inserts a bit before the one at `i`, or at the end where `i` is the length; the bits from `i` on
    /// move up, by one move. It is refused like `push`, and a refusal changes nothing but perhaps the
    /// capacity. Requires that `i` is at most the length. What becomes of dead bits is open.
    ///
    /// ```text
    /// of 011: bits.insert(1, false)? leaves 0011
    /// ```
    #[tactic(auto, using(bit_slice::proofs::Parts::shown_length))]
    pub fn insert(&mut self, i: usize, bit: bool) -> Result<(), GrowError>
        requires { i ≤ length self.old.list }
        ensures list { OnOk result (self.new.list ≡ insert self.old.list i bit) }
        ensures len { OnOk result (length self.new.list ≡ length self.old.list + 1) }
        ensures head { self.new.head ≡ self.old.head }
        ensures clean { OnOk result (IsClean T.BITS self.old → IsClean T.BITS self.new) }
        ensures refusal { RefusesOnly result (length self.old.list + 1) self.old self.new }
        ensures capacity { self.old.capacity ≤ self.new.capacity }
        ensures no_memory { length self.old.list < self.old.capacity → self.new.capacity ≡ self.old.capacity }
    {
        self.push(bit)?;
        let at = self.head + i;
        let tail = self.len - 1 - i;
        insert_bit_in_vec::<T, O>(&mut self.words, at, tail, bit);
        Ok(())
    }

    /// Removes the bit at `i` and returns it; the bits after it move down, by one move. Takes no memory.
    /// Requires that `i` is below the length. What becomes of dead bits is open.
    ///
    /// ```text
    /// of 011: bits.remove(1) == true
    /// ```
    #[tactic(auto, using(bit_slice::proofs::Parts::shown_length))]
    pub fn remove(&mut self, i: usize) -> bool
        requires { i < length self.old.list }
        ensures removed { slice_get self.old.list i ≡ Some result }
        ensures list { self.new.list ≡ remove self.old.list i }
        ensures head { self.new.head ≡ self.old.head }
        ensures len { length self.new.list + 1 ≡ length self.old.list }
        ensures capacity { self.new.capacity ≡ self.old.capacity }
    {
        let at = self.head + i;
        let less = self.len - 1;
        let bit = read_bit::<T, O>(self.words.as_slice(), at);
        remove_bit_in_vec::<T, O>(&mut self.words, at, less - i);
        cut_words_in_vec::<T, O>(&mut self.words, self.head + less);
        self.len = less;
        bit
    }

    /// Removes the bit at `i` and returns it; the last bit takes its place. No other bit moves. Takes
    /// no memory. Requires that `i` is below the length. What becomes of dead bits is open.
    ///
    /// ```text
    /// of 0111: bits.swap_remove(0) == false
    /// ```
    #[tactic(auto, using(bit_slice::proofs::Parts::shown_length))]
    pub fn swap_remove(&mut self, i: usize) -> bool
        requires { i < length self.old.list }
        ensures removed { slice_get self.old.list i ≡ Some result }
        ensures list { self.new.list ≡ swap_remove self.old.list i false }
        ensures head { self.new.head ≡ self.old.head }
        ensures len { length self.new.list + 1 ≡ length self.old.list }
        ensures capacity { self.new.capacity ≡ self.old.capacity }
    {
        let at = self.head + i;
        let less = self.len - 1;
        let bit = read_bit::<T, O>(self.words.as_slice(), at);
        let last = read_bit::<T, O>(self.words.as_slice(), self.head + less);
        write_bit_in_vec::<T, O>(&mut self.words, at, last);
        cut_words_in_vec::<T, O>(&mut self.words, self.head + less);
        self.len = less;
        bit
    }
}
