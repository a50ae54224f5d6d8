//! Calls that write all words, and that set the length within them.
ghost use Rattle.std.specs.Prelude.{◌≡◌, ◌+◌, ◌*◌, ◌≤◌, length, replicate, slice_range, vec_capacity};
ghost use Rattle.bit_addressing.specs.declared.length.TheConstants.{MAX_BITS};
ghost use Rattle.bit_addressing.specs.Typed.{row};
ghost use Rattle.bit_containers.specs.BitVec.{Stayed, Shrank};

use crate::vec::BitVec;
use bit_addressing::{BitOrder, BitStore};
use bit_rows::cut_words_in_vec;

// Writes `word` over each of the words.
fn set_words<T: BitStore>(words: &mut [T], word: T)
    ensures { words.new ≡ replicate (length words.old) word }
{
    for slot in words {
        *slot = word;
    }
}

// Like `set_words`, over the words of a vector.
fn set_words_in_vec<T: BitStore>(words: &mut Vec<T>, word: T)
    ensures items { words.new.items ≡ replicate (length words.old.items) word }
    ensures size { length words.new.items ≡ length words.old.items }
    ensures capacity { vec_capacity words.new ≡ vec_capacity words.old }
{
    set_words(words.as_mut_slice(), word);
}

impl<T: BitStore, O: BitOrder> BitVec<T, O> {
    /// Makes every visible word `word`, bits of the list and dead bits alike. Takes no memory.
    ///
    /// ```text
    /// of 0110: bits.set_elements(3) leaves 1100
    /// ```
    #[tactic(auto, using(bit_slice::proofs::Parts::shown_length))]
    pub fn set_elements(&mut self, word: T)
        ensures words { self.new.words ≡ replicate (length self.old.words) word }
        ensures row { self.new.row ≡ row T.BitStore O.BitOrder (replicate (length self.old.words) word) }
        ensures list { self.new.list
            ≡ slice_range (row T.BitStore O.BitOrder (replicate (length self.old.words) word)) self.old.head
            (self.old.head + length self.old.list) }
        ensures stayed { Stayed self.old self.new }
    {
        set_words_in_vec(&mut self.words, word);
    }

    /// Makes the length `n`, and writes nothing: where the list grows, it gets the dead bits after it as they
    /// are. Takes no memory. Requires that the visible words have `n` bits from the head on, and that `n` is
    /// at most `MAX_BITS`.
    ///
    /// ```text
    /// of 0110: bits.set_len(2) leaves 01
    /// ```
    #[tactic(auto, using(bit_slice::proofs::Parts::shown_length, crate::proofs::Elements::run_kept))]
    pub fn set_len(&mut self, n: usize)
        requires visible { self.old.head + n ≤ T.BITS * length self.old.words }
        requires few { n ≤ MAX_BITS }
        ensures list { self.new.list ≡ slice_range self.old.row self.old.head (self.old.head + n) }
        ensures row { Shrank T.BITS self.old self.new n }
    {
        cut_words_in_vec::<T, O>(&mut self.words, self.head + n);
        self.len = n;
    }
}
