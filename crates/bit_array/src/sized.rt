//! What an array is made of: a word, or some words.
ghost use Rattle.std.specs.Prelude.{◌≡◌, ℕ, List, [], ◌∷◌, length, replicate, slice_index_or, refl};
ghost use Rattle.std.specs.Borrow.{sem};
ghost use Rattle.std.specs.Mem.{FitsInMemory};
ghost use Rattle.std.proofs.Common.{rules, ◌∙◌};
ghost use Rattle.bit_array.specs.Sized.{one_kept};
ghost use Rattle.bit_slice.specs.Lists.{lends_to};

use bit_addressing::BitStore;
use std::slice;

/// A fixed number of words that lie one after another: a word, or `[T; N]` with any `N`.
///
/// Nothing takes memory.
pub trait BitWords: Copy {
    /// The type of the words.
    type Store: BitStore;

    // The words, the first first.
    ghost words: { Self → List Self.Store };

    // Their number.
    ghost count: { ℕ };

    /// The number of words.
    fn count() -> usize
        ensures { result ≡ count };

    /// All words 0.
    fn zero() -> Self
        ensures { words result ≡ replicate count Self.Store.ZERO };

    /// The words, for reading.
    fn as_raw_slice(&self) -> &[Self::Store]
        ensures value { result.now ≡ words self.now }
        ensures len { length result.now ≡ count };
}

/// Words that are lent for writing as a slice.
///
/// Each word implements it, as the one word of itself, and so does `[T; N]`.
pub trait BitViewSized: BitWords {
    // What it becomes when its words are these.
    ghost refilled: { Self → List Self.Store → Self };

    /// The words, for writing: what is written lands here.
    fn as_raw_mut_slice(&mut self) -> &mut [Self::Store]
        ensures* writes_back { sem 𝓛 (lends_to Self.row Self.Store.row self.entry (refilled self.old) result) }
        ensures value { result.now ≡ Self.words self.old }
        ensures len { length result.now ≡ Self.count };

    ghost kept: { (a : Self) (ws : List Self.Store) → length ws ≡ Self.count → Self.words (refilled a ws) ≡ ws };
}

/// A word, which is the one word of itself.
pub trait OneWord: BitStore + BitWords<Store = Self> {
    ghost is_one: { (w : Self) → Self.words w ≡ w ∷ [] };

    ghost counts_one: { Self.count ≡ 1 };

    ghost is_small: { FitsInMemory Self.row };
}

impl<T: BitStore, const N: usize> BitWords for [T; N] {
    type Store = T;

    ghost words = { λ a. a };

    ghost count = { N };

    fn count() -> usize {
        N
    }

    fn zero() -> [T; N] {
        [T::ZERO; N]
    }

    fn as_raw_slice(&self) -> &[T] {
        self
    }
}

impl<T: BitStore, const N: usize> BitViewSized for [T; N] {
    ghost refilled = { λ a ws. ws };

    fn as_raw_mut_slice(&mut self) -> &mut [T] {
        self
    }

    ghost kept = { λ a ws e. refl };
}

impl<W: OneWord> BitViewSized for W {
    ghost refilled = { λ w ws. slice_index_or ws 0 w };

    fn as_raw_mut_slice(&mut self) -> &mut [W] {
        slice::from_mut(self)
    }

    ghost kept = { λ a ws e. W.is_one (slice_index_or ws 0 a) ∙ one_kept a ws (e ∙ W.counts_one) };
}

impl BitWords for u8 {
    type Store = u8;

    ghost words = { λ w. w ∷ [] };

    ghost count = { 1 };

    fn count() -> usize {
        1
    }

    fn zero() -> u8 {
        0
    }

    fn as_raw_slice(&self) -> &[u8] {
        slice::from_ref(self)
    }
}

impl OneWord for u8 {
    ghost is_one = { λ w. refl };

    ghost counts_one = { refl };

    ghost is_small = { Prim.search rules };
}

impl BitWords for u16 {
    type Store = u16;

    ghost words = { λ w. w ∷ [] };

    ghost count = { 1 };

    fn count() -> usize {
        1
    }

    fn zero() -> u16 {
        0
    }

    fn as_raw_slice(&self) -> &[u16] {
        slice::from_ref(self)
    }
}

impl OneWord for u16 {
    ghost is_one = { λ w. refl };

    ghost counts_one = { refl };

    ghost is_small = { Prim.search rules };
}

impl BitWords for u32 {
    type Store = u32;

    ghost words = { λ w. w ∷ [] };

    ghost count = { 1 };

    fn count() -> usize {
        1
    }

    fn zero() -> u32 {
        0
    }

    fn as_raw_slice(&self) -> &[u32] {
        slice::from_ref(self)
    }
}

impl OneWord for u32 {
    ghost is_one = { λ w. refl };

    ghost counts_one = { refl };

    ghost is_small = { Prim.search rules };
}

impl BitWords for u64 {
    type Store = u64;

    ghost words = { λ w. w ∷ [] };

    ghost count = { 1 };

    fn count() -> usize {
        1
    }

    fn zero() -> u64 {
        0
    }

    fn as_raw_slice(&self) -> &[u64] {
        slice::from_ref(self)
    }
}

impl OneWord for u64 {
    ghost is_one = { λ w. refl };

    ghost counts_one = { refl };

    ghost is_small = { Prim.search rules };
}

impl BitWords for usize {
    type Store = usize;

    ghost words = { λ w. w ∷ [] };

    ghost count = { 1 };

    fn count() -> usize {
        1
    }

    fn zero() -> usize {
        0
    }

    fn as_raw_slice(&self) -> &[usize] {
        slice::from_ref(self)
    }
}

impl OneWord for usize {
    ghost is_one = { λ w. refl };

    ghost counts_one = { refl };

    ghost is_small = { Prim.search rules };
}
