//! The vector made of an array or a box, and made into a box.
ghost use Rattle.std.specs.Prelude.{◌≡◌, ◌+◌, ◌*◌, ◌<◌, ◌≤◌, IfOk, IsOk, OnErr, length, slice_range, take};
ghost use Rattle.bit_addressing.specs.declared.length.TheConstants.{MAX_BITS};
ghost use Rattle.bit_addressing.specs.Row.{words_for};
ghost use Rattle.bit_addressing.specs.Typed.{row};
ghost use Rattle.bit_containers.specs.BitVec.{Held, IsClean};

use crate::vec::BitVec;
use bit_addressing::{BitOrder, BitStore};
use bit_array::{BitArray, BitWords};
use bit_boxed::BitBox;
use bit_rows::cut_words_in_vec;
use std::alloc::{AllocError, Global};
use std::marker::PhantomData;

impl<T: BitStore, O: BitOrder> BitVec<T, O> {
    /// The bits of an array, whose words are copied: head 0. Allocates, and can fail, only where it has a word.
    ///
    /// ```text
    /// BitVec::from_bitarray(alloc, BitArray::<u8, Lsb0>::new(6))? holds 01100000
    /// ```
    pub fn from_bitarray<A: BitWords<Store = T>>(
        alloc: Global,
        array: BitArray<A, O>,
    ) -> Result<Self, AllocError>
        ensures words { IfOk result (λ v. v.words ≡ A.words array) }
        ensures head { IfOk result (λ v. v.head ≡ 0) }
        ensures list { IfOk result (λ v. v.list ≡ row T.BitStore O.BitOrder (A.words array)) }
        ensures row { IfOk result (λ v. v.row ≡ row T.BitStore O.BitOrder (A.words array)) }
        ensures len { IfOk result (λ v. length v.list ≡ T.BITS * A.count) }
        ensures clean { IfOk result (λ v. IsClean T.BITS v) }
        ensures memory { OnErr result (0 < A.count) }
    {
        Self::from_slice(alloc, array.as_raw_slice())
    }

    // These words with a head and a length. The vector is kept, and no memory is taken. Requires that the head
    // is in the first word, that there are exactly as many words as the bits take, and that there are at most
    // `MAX_BITS` bits.
    fn of_parts(words: Vec<T>, head: usize, len: usize) -> Self
        requires in_word { head < T.BITS }
        requires few { len ≤ MAX_BITS }
        requires exact { length words.items ≡ words_for T.BITS (head + len) }
        ensures words { result.words ≡ words.items }
        ensures row { result.row ≡ row T.BitStore O.BitOrder words.items }
        ensures head { result.head ≡ head }
        ensures list { result.list ≡ slice_range (row T.BitStore O.BitOrder words.items) head (head + len) }
    {
        BitVec {
            words,
            head,
            len,
            order: PhantomData,
        }
    }

    /// The box of the same words, head and list. Gives back the memory past the last word. It always succeeds.
    ///
    /// ```text
    /// of 0110: bits.into_boxed_bitslice()?.as_bitslice() shows 0110
    /// ```
    pub fn into_boxed_bitslice(self) -> Result<BitBox<T, O>, AllocError>
        ensures words { IfOk result (λ b. b.words ≡ self.words) }
        ensures row { IfOk result (λ b. b.row ≡ self.row) }
        ensures head { IfOk result (λ b. b.head ≡ self.head) }
        ensures list { IfOk result (λ b. b.list ≡ self.list) }
        ensures succeeds { IsOk result }
    {
        BitBox::from_parts(self.words, self.head, self.len)
    }

    /// Like `into_boxed_bitslice`.
    ///
    /// ```text
    /// of 0110: bits.into_boxed_slice()?.len() == 4
    /// ```
    pub fn into_boxed_slice(self) -> Result<BitBox<T, O>, AllocError>
        ensures words { IfOk result (λ b. b.words ≡ self.words) }
        ensures row { IfOk result (λ b. b.row ≡ self.row) }
        ensures head { IfOk result (λ b. b.head ≡ self.head) }
        ensures list { IfOk result (λ b. b.list ≡ self.list) }
        ensures succeeds { IsOk result }
    {
        self.into_boxed_bitslice()
    }
}

/// Values that become a vector of their bits.
///
/// ```text
/// let b = v.into_boxed_bitslice()?;
/// let v = b.into_bitvec()?;           // the same words again
/// ```
pub trait IntoBitVec: Sized {
    /// The type of the words.
    type Store: BitStore;

    /// The order of the bits in a word.
    type Order: BitOrder;

    // What holds of the vector that it becomes.
    ghost into_bitvec_gives: { Self → Held Self.Store → Type 0 };

    /// The vector of the same head and list, whose words are the visible ones.
    fn into_bitvec(self) -> Result<BitVec<Self::Store, Self::Order>, AllocError>
        ensures { IfOk result (into_bitvec_gives self) };

    /// Like `into_bitvec`.
    fn into_vec(self) -> Result<BitVec<Self::Store, Self::Order>, AllocError>
        ensures { IfOk result (into_bitvec_gives self) };
}

impl<T: BitStore, O: BitOrder> IntoBitVec for BitBox<T, O> {
    type Store = T;

    type Order = O;

    ghost into_bitvec_gives = { λ b v. (v.words ≡ take (words_for T.BITS (b.head + length b.list)) b.words)
        × (v.head ≡ b.head) × (v.list ≡ b.list) };

    /// The vector of the same head and list, whose words are the box's visible ones. The words are kept, no
    /// memory is taken, and it always succeeds.
    #[tactic(auto, using(crate::proofs::Elements::run_kept))]
    fn into_bitvec(self) -> Result<BitVec<T, O>, AllocError>
        ensures words { IfOk result
            (λ v. v.words ≡ take (words_for T.BITS (self.head + length self.list)) self.words) }
        ensures head { IfOk result (λ v. v.head ≡ self.head) }
        ensures list { IfOk result (λ v. v.list ≡ self.list) }
        ensures succeeds { IsOk result }
    {
        let (head, len) = (self.head(), self.len());
        let mut words = self.into_boxed_slice().into_vec();
        cut_words_in_vec::<T, O>(&mut words, head + len);
        Ok(BitVec::of_parts(words, head, len))
    }

    /// Like `into_bitvec`.
    fn into_vec(self) -> Result<BitVec<T, O>, AllocError>
        ensures words { IfOk result
            (λ v. v.words ≡ take (words_for T.BITS (self.head + length self.list)) self.words) }
        ensures head { IfOk result (λ v. v.head ≡ self.head) }
        ensures list { IfOk result (λ v. v.list ≡ self.list) }
        ensures succeeds { IsOk result }
    {
        self.into_bitvec()
    }
}
