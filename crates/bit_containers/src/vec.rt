//! The vector, what makes one, and what gives back its words.
ghost use Rattle.std.specs.Prelude.{◌≡◌, ◌+◌, ◌*◌, ◌<◌, ◌≤◌, ◌↔◌, false, [], IsTrue, IfOk, IfErr, IsOk, OnErr, Err, ◌∷◌, length, replicate, slice_range, vec_capacity};
ghost use Rattle.bit_addressing.specs.declared.length.TheConstants.{MAX_BITS};
ghost use Rattle.bit_addressing.specs.Row.{filled, moved, sized, words_for};
ghost use Rattle.bit_addressing.specs.Typed.{row, words_from, words_for_list};
ghost use Rattle.bit_containers.specs.BitVec.{Stayed, IsClean, bits_in};
ghost use Rattle.bit_slice.specs.BitSlice.{words_of, head_of, len_of, row_of, list_of};

use bit_addressing::{BitOrder, BitStore, GrowError, Lsb0, MAX_BITS, elts};
use bit_rows::{
    append_run_in_vec, cut_words_in_vec, fill_outside_in_vec, move_bits_in_vec, prove_exact_words,
};
use bit_slice::BitSlice;
use std::alloc::{AllocError, Global};
use std::marker::{Model, PhantomData};

mod api;
mod arrays;
mod assign;
mod boxes;
mod capacity;
mod closures;
mod collect;
mod convert;
mod dedup;
mod digits;
mod drain;
mod elements;
mod extend;
mod filling;
mod items;
mod iter;
mod lists;
mod making;
mod numbers;
mod ops;
mod pieces;
mod ranges;
mod slice;
mod splice;
mod text;
mod to_bits;
mod traits;
mod views;

pub use bit_boxed::IntoIter;
pub use boxes::{FromBits, ToBytes};
pub use convert::IntoBitVec;
pub use drain::Drain;
pub use items::Items;
pub use splice::Splice;
pub use text::ParseBitsError;
pub use to_bits::ToBits;

/// A vector of truth values, one bit each, in words of type `T`, in the order `O` of the bits in a word.
///
/// It grows and shrinks like a `Vec<bool>`. Its bits begin at the head, an index in the first word,
/// and lie one after another in the visible words, which are exactly those that they take. The other
/// bits of these words are dead.
///
/// In contracts a vector `v` is its visible words `v.words`, their bits in a row `v.row`, the head
/// `v.head`, the list `v.list` and the capacity in bits `v.capacity`.
///
/// ```rust
/// use bit_containers::{BitList, BitVec, Msb0};
///
/// let mut bits = BitVec::<u8, Msb0>::repeat(rt.alloc(), false, 10)?;
/// bits.set(1, true);
/// bits.push(true)?;
/// println!(&rt; "{bits}: {} ones, the last at {:?}", bits.count_ones(), bits.last_one())?;
/// println!(&rt; "in words {:?}", bits.into_vec().as_slice())?;
/// ```
///
/// ```text
/// [0, 1, 0, 0, 0, 0, 0, 0, 0, 0, 1]: 2 ones, the last at Some(10)
/// in words [64, 32]
/// ```
#[derive(Drop)]
pub struct BitVec<T: BitStore = usize, O: BitOrder = Lsb0> {
    words: Vec<T>,
    head: usize,
    len: usize,
    order: PhantomData<O>,
}

impl<T: BitStore, O: BitOrder> Model for BitVec<T, O> {
    ghost use Rattle.std.specs.Prelude.{◌+◌, length, slice_range, vec_capacity};
    ghost use Rattle.bit_addressing.specs.Typed.{row};
    ghost use Rattle.bit_containers.specs.BitVec.{Held, IsVector, held_code, bits_in};

    ghost Value = { Held T };

    ghost coded = { held_code T.code };

    ghost view = { λ v. record {
      words = v.words.items;
      row = row T.BitStore O.BitOrder v.words.items;
      head = v.head;
      list = slice_range (row T.BitStore O.BitOrder v.words.items) v.head (v.head + v.len);
      capacity = bits_in T.BITS (vec_capacity v.words) v.head;
    } };

    ghost invariant = { λ v. IsVector T.BITS (length v.words.items) v.head v.len
        (length (slice_range (row T.BitStore O.BitOrder v.words.items) v.head (v.head + v.len))) };
}

impl<T: BitStore, O: BitOrder> BitVec<T, O> {
    /// The empty vector: head 0, and no word. Takes no memory.
    ///
    /// ```text
    /// BitVec::<u8, Lsb0>::new(alloc) holds nothing
    /// ```
    pub fn new(alloc: Global) -> Self
        ensures words { result.words ≡ [] }
        ensures row { result.row ≡ [] }
        ensures head { result.head ≡ 0 }
        ensures list { result.list ≡ [] }
        ensures clean { IsClean T.BITS result }
        ensures capacity { result.capacity ≡ 0 }
    {
        BitVec {
            words: Vec::new(alloc),
            head: 0,
            len: 0,
            order: PhantomData,
        }
    }

    /// Like `new`.
    ///
    /// ```text
    /// BitVec::<u8, Lsb0>::empty(alloc) holds nothing
    /// ```
    pub fn empty(alloc: Global) -> Self
        ensures words { result.words ≡ [] }
        ensures row { result.row ≡ [] }
        ensures head { result.head ≡ 0 }
        ensures list { result.list ≡ [] }
        ensures clean { IsClean T.BITS result }
        ensures capacity { result.capacity ≡ 0 }
    {
        Self::new(alloc)
    }

    /// The empty vector, with room for exactly the words that `n` bits take. Returns `TooLong` exactly where `n` passes
    /// `MAX_BITS`. Takes no memory where `n` is 0.
    ///
    /// ```text
    /// BitVec::<u8, Lsb0>::with_capacity(alloc, 100)? holds nothing
    /// ```
    pub fn with_capacity(alloc: Global, n: usize) -> Result<Self, GrowError>
        ensures words { IfOk result (λ v. v.words ≡ []) }
        ensures head { IfOk result (λ v. v.head ≡ 0) }
        ensures list { IfOk result (λ v. v.list ≡ []) }
        ensures clean { IfOk result (λ v. IsClean T.BITS v) }
        ensures capacity { IfOk result (λ v. n ≤ v.capacity) }
        ensures exact { IfOk result (λ v. v.capacity ≡ bits_in T.BITS (words_for T.BITS n) 0) }
        ensures too_long { (result ≡ Err GrowError.TooLong) ↔ (MAX_BITS < n) }
        ensures memory { result ≡ Err GrowError.OutOfMemory → 0 < n }
    {
        let mut v = Self::new(alloc);
        v.reserve_exact(n)?;
        Ok(v)
    }

    /// The list of `n` times `bit`, from head 0 on: all bits of the words are `bit`, dead ones too. Returns
    /// `TooLong` exactly where `n` passes `MAX_BITS`. Takes no memory where `n` is 0.
    ///
    /// ```text
    /// BitVec::<u8, Lsb0>::repeat(alloc, true, 3)? holds 111
    /// ```
    pub fn repeat(alloc: Global, bit: bool, n: usize) -> Result<Self, GrowError>
        ensures head { IfOk result (λ v. v.head ≡ 0) }
        ensures list { IfOk result (λ v. v.list ≡ replicate n bit) }
        ensures len { IfOk result (λ v. length v.list ≡ n) }
        ensures row { IfOk result (λ v. v.row ≡ replicate (T.BITS * words_for T.BITS n) bit) }
        ensures clean { IfOk result (λ v. bit ≡ false → IsClean T.BITS v) }
        ensures too_long { (result ≡ Err GrowError.TooLong) ↔ (MAX_BITS < n) }
        ensures memory { result ≡ Err GrowError.OutOfMemory → 0 < n }
    {
        if n > MAX_BITS {
            return Err(GrowError::TooLong);
        }
        let mut words = Vec::new(alloc);
        let all = T::BITS as usize * elts::<T>(n);
        append_run_in_vec::<T, O>(&mut words, 0, all, bit)?;
        Ok(BitVec {
            words,
            head: 0,
            len: n,
            order: PhantomData,
        })
    }

    /// Whether `words` words have at most `MAX_BITS` bits, which `from_vec` requires.
    ///
    /// ```text
    /// BitVec::<u8, Lsb0>::fits(3) == true
    /// ```
    pub fn fits(words: usize) -> bool
        ensures { IsTrue result ↔ (T.BITS * words ≤ MAX_BITS) }
    {
        words <= MAX_BITS / T::BITS as usize
    }

    /// All bits of these words, which are kept: head 0. Takes no memory. Requires that they fit, as `fits` tests.
    ///
    /// ```text
    /// of 0110: BitVec::<u8, Lsb0>::from_vec(bits.into_vec()).as_bitslice() shows 01100000
    /// ```
    pub fn from_vec(words: Vec<T>) -> Self
        requires { T.BITS * length words.items ≤ MAX_BITS }
        ensures words { result.words ≡ words.items }
        ensures head { result.head ≡ 0 }
        ensures row { result.row ≡ row T.BitStore O.BitOrder words.items }
        ensures list { result.list ≡ row T.BitStore O.BitOrder words.items }
        ensures len { length result.list ≡ T.BITS * length words.items }
        ensures clean { IsClean T.BITS result }
        ensures capacity { result.capacity ≡ bits_in T.BITS (vec_capacity words) 0 }
    {
        let len = T::BITS as usize * words.len();
        BitVec {
            words,
            head: 0,
            len,
            order: PhantomData,
        }
    }

    /// All bits of one word: head 0. Takes memory.
    ///
    /// ```text
    /// BitVec::<u8, Lsb0>::from_element(alloc, 3)? holds 11000000
    /// ```
    pub fn from_element(alloc: Global, word: T) -> Result<Self, AllocError>
        ensures words { IfOk result (λ v. v.words ≡ word ∷ []) }
        ensures head { IfOk result (λ v. v.head ≡ 0) }
        ensures list { IfOk result (λ v. v.list ≡ row T.BitStore O.BitOrder (word ∷ [])) }
        ensures row { IfOk result (λ v. v.row ≡ row T.BitStore O.BitOrder (word ∷ [])) }
        ensures len { IfOk result (λ v. length v.list ≡ T.BITS) }
        ensures clean { IfOk result (λ v. IsClean T.BITS v) }
    {
        let mut words = Vec::new(alloc);
        words.push(word)?;
        Ok(Self::from_vec(words))
    }

    /// All bits of these words, which are copied: head 0. Allocates, and can fail, only where there is a word.
    /// Requires that they fit, as `fits` tests.
    ///
    /// ```text
    /// BitVec::<u8, Lsb0>::from_slice(alloc, &[3])? holds 11000000
    /// ```
    pub fn from_slice(alloc: Global, words: &[T]) -> Result<Self, AllocError>
        requires { T.BITS * length words.now ≤ MAX_BITS }
        ensures words { IfOk result (λ v. v.words ≡ words.now) }
        ensures head { IfOk result (λ v. v.head ≡ 0) }
        ensures list { IfOk result (λ v. v.list ≡ row T.BitStore O.BitOrder words.now) }
        ensures row { IfOk result (λ v. v.row ≡ row T.BitStore O.BitOrder words.now) }
        ensures len { IfOk result (λ v. length v.list ≡ T.BITS * length words.now) }
        ensures clean { IfOk result (λ v. IsClean T.BITS v) }
        ensures memory { OnErr result (0 < length words.now) }
    {
        let mut copied = Vec::new(alloc);
        copied.extend_from_slice(words)?;
        Ok(Self::from_vec(copied))
    }

    /// Like `from_slice`, for any number of words: returns `TooLong` exactly where they don't fit.
    ///
    /// ```text
    /// BitVec::<u8, Lsb0>::try_from_slice(alloc, &[6])? holds 01100000
    /// ```
    pub fn try_from_slice(alloc: Global, words: &[T]) -> Result<Self, GrowError>
        ensures words { IfOk result (λ v. v.words ≡ words.now) }
        ensures head { IfOk result (λ v. v.head ≡ 0) }
        ensures list { IfOk result (λ v. v.list ≡ row T.BitStore O.BitOrder words.now) }
        ensures row { IfOk result (λ v. v.row ≡ row T.BitStore O.BitOrder words.now) }
        ensures len { IfOk result (λ v. length v.list ≡ T.BITS * length words.now) }
        ensures clean { IfOk result (λ v. IsClean T.BITS v) }
        ensures too_long { (result ≡ Err GrowError.TooLong) ↔ (MAX_BITS < T.BITS * length words.now) }
        ensures memory { result ≡ Err GrowError.OutOfMemory → 0 < length words.now }
    {
        if !Self::fits(words.len()) {
            return Err(GrowError::TooLong);
        }
        Ok(Self::from_slice(alloc, words)?)
    }

    /// Like `from_vec`, for any number of words: returns the words as the error exactly where they don't
    /// fit. Takes no memory.
    ///
    /// ```text
    /// BitVec::<u8, Lsb0>::try_from_vec(vec![in alloc; 6]?)? holds 01100000
    /// ```
    pub fn try_from_vec(words: Vec<T>) -> Result<Self, Vec<T>>
        ensures words { IfOk result (λ v. v.words ≡ words.items) }
        ensures head { IfOk result (λ v. v.head ≡ 0) }
        ensures list { IfOk result (λ v. v.list ≡ row T.BitStore O.BitOrder words.items) }
        ensures row { IfOk result (λ v. v.row ≡ row T.BitStore O.BitOrder words.items) }
        ensures len { IfOk result (λ v. length v.list ≡ T.BITS * length words.items) }
        ensures capacity { IfOk result (λ v. v.capacity ≡ bits_in T.BITS (vec_capacity words) 0) }
        ensures clean { IfOk result (λ v. IsClean T.BITS v) }
        ensures fits { IsOk result ↔ (T.BITS * length words.items ≤ MAX_BITS) }
        ensures back { IfErr result (λ back. back ≡ words) }
    {
        if Self::fits(words.len()) {
            Ok(Self::from_vec(words))
        } else {
            Err(words)
        }
    }

    /// The bits of a view, from head 0 on, by whole words: the words are canonical, those of the list and then false.
    /// Allocates, and can fail, only where the view has a bit.
    ///
    /// ```text
    /// of 0110: BitVec::from_bitslice(alloc, bits.as_bitslice())?.as_bitslice() shows 0110
    /// ```
    pub fn from_bitslice(alloc: Global, view: BitSlice<'_, T, O>) -> Result<Self, AllocError>
        ensures list { IfOk result (λ v. v.list ≡ list_of view.entry) }
        ensures len { IfOk result (λ v. length v.list ≡ len_of view.entry) }
        ensures clean { IfOk result (λ v. IsClean T.BITS v) }
        ensures memory { OnErr result (0 < len_of view.entry) }
    {
        if view.head() == 0 && !view.is_empty() {
            return Self::from_bitslice_headed(alloc, view);
        }
        let mut copy = Self::new(alloc);
        let _len = view.len();
        match copy.extend_from_bitslice(view) {
            Ok(()) => Ok(copy),
            Err(GrowError::TooLong) => Err(AllocError),
            Err(GrowError::OutOfMemory) => Err(AllocError),
        }
    }

    /// The bits of a view: its head is kept, its words are copied, and their dead bits are false. Allocates, and can
    /// fail, only where the view has a word.
    ///
    /// ```text
    /// of 0110: BitVec::from_bitslice_headed(alloc, bits.as_bitslice())?.as_bitslice() shows 0110
    /// ```
    #[tactic(auto, using(bit_slice::proofs::Parts::shown_length))]
    pub fn from_bitslice_headed(alloc: Global, view: BitSlice<'_, T, O>) -> Result<Self, AllocError>
        ensures head { IfOk result (λ v. v.head ≡ head_of view.entry) }
        ensures list { IfOk result (λ v. v.list ≡ list_of view.entry) }
        ensures len { IfOk result (λ v. length v.list ≡ len_of view.entry) }
        ensures row { IfOk result
            (λ v. v.row ≡ filled (row_of view.entry) (head_of view.entry) (len_of view.entry) false) }
        ensures clean { IfOk result (λ v. head_of view.entry ≡ 0 → IsClean T.BITS v) }
        ensures memory { OnErr result (0 < length (words_of view.entry)) }
    {
        let (head, len) = (view.head(), view.len());
        let shown = view.as_raw_slice();
        let mut words = Vec::with_capacity(alloc, shown.len())?;
        words.extend_from_slice(shown)?;
        fill_outside_in_vec::<T, O>(&mut words, head, len, false);
        Ok(BitVec {
            words,
            head,
            len,
            order: PhantomData,
        })
    }

    /// The visible words, as they are. Takes no memory.
    ///
    /// ```text
    /// of 01101001: bits.into_vec()[0] == 150
    /// ```
    pub fn into_vec(self) -> Vec<T>
        ensures words { result.items ≡ self.words }
        ensures row { row T.BitStore O.BitOrder result.items ≡ self.row }
        ensures from_row { result.items ≡ words_from T.BitStore O.BitOrder self.row }
        ensures clean { IsClean T.BITS self → result.items ≡ words_for_list T.BitStore O.BitOrder self.list }
        ensures exact { length result.items ≡ words_for T.BITS (self.head + length self.list) }
        ensures shows { slice_range (row T.BitStore O.BitOrder result.items) self.head
            (self.head + length self.list) ≡ self.list }
        ensures capacity { bits_in T.BITS (vec_capacity result) self.head ≡ self.capacity }
    {
        prove_exact_words::<T, O>(self.words.as_slice());
        self.words
    }

    /// Makes the head 0: the list moves to the beginning of the words, by one counted move, and the words
    /// are cut to the visible ones. Takes no memory.
    ///
    /// ```text
    /// of 0110: bits.force_align() leaves 0110
    /// ```
    #[tactic(auto, using(bit_slice::proofs::Parts::shown_length))]
    pub fn force_align(&mut self)
        ensures head { self.new.head ≡ 0 }
        ensures list { self.new.list ≡ self.old.list }
        ensures row { self.new.row
            ≡ sized T.BITS (moved self.old.row self.old.head 0 (length self.old.list))
            (length self.old.list) }
        ensures clean { IsClean T.BITS self.old → IsClean T.BITS self.new }
        ensures capacity { self.new.capacity ≡ self.old.capacity + self.old.head }
    {
        move_bits_in_vec::<T, O>(&mut self.words, self.head, 0, self.len);
        cut_words_in_vec::<T, O>(&mut self.words, self.len);
        self.head = 0;
    }

    /// Makes every dead bit `bit`, and changes no bit of the list. Takes no memory. Where the head is 0 and
    /// `bit` is false, the words are canonical: those of the list and then false.
    ///
    /// ```text
    /// of 0110: bits.set_uninitialized(true) leaves 0110
    /// ```
    #[tactic(auto, using(bit_slice::proofs::Parts::shown_length))]
    pub fn set_uninitialized(&mut self, bit: bool)
        ensures list { self.new.list ≡ self.old.list }
        ensures row { self.new.row ≡ filled self.old.row self.old.head (length self.old.list) bit }
        ensures clean { self.old.head ≡ 0 → bit ≡ false → IsClean T.BITS self.new }
        ensures stayed { Stayed self.old self.new }
    {
        fill_outside_in_vec::<T, O>(&mut self.words, self.head, self.len, bit);
    }
}
