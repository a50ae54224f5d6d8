//! The box, what makes one, and what gives back its words.
ghost use Rattle.std.specs.Prelude.{◌≡◌, ◌+◌, ◌*◌, ◌<◌, ◌≤◌, ◌↔◌, false, [], ◌∷◌, Err, IfOk, IfErr, IsOk, OnErr, length, slice_range};
ghost use Rattle.std.specs.Box.{boxed_slice_items};
ghost use Rattle.std.specs.Iterator.{IsFiniteIterable};
ghost use Rattle.bit_addressing.specs.declared.length.TheConstants.{MAX_BITS};
ghost use Rattle.bit_addressing.specs.Row.{filled, moved, words_for};
ghost use Rattle.bit_addressing.specs.Typed.{row, words_from};
ghost use Rattle.bit_slice.specs.BitSlice.{words_of, head_of, len_of, row_of, list_of};
ghost use Rattle.bit_slice.specs.Held.{IsClean, Stayed};
ghost use Rattle.bit_slice.specs.Pulls.{GivesAll, GivesFirst, RunsThrough};

use bit_addressing::{BitOrder, BitStore, GrowError, Lsb0, MAX_BITS};
use bit_array::{BitArray, BitWords};
use bit_rows::{
    copy_bits_in_vec, fill_outside_in_vec, move_bits_in_vec, prove_exact_words, push_bit_in_vec,
    resize_words_in_vec,
};
use bit_slice::BitSlice;
use std::alloc::{AllocError, Global};
use std::boxed::BoxedSlice;
use std::marker::{Model, PhantomData};

mod assign;
mod filling;
mod iter;
mod lists;
mod ops;
mod slice;
mod traits;
mod views;

pub use iter::IntoIter;

/// A fixed number of truth values, one bit each, in words of type `T` that it owns, in the order `O` of the
/// bits in a word.
///
/// Its bits begin at the head, an index in the first word, and lie one after another. The words that they
/// take are the visible words. The box may own words after them, and all its other bits are dead.
///
/// In contracts a box `b` is all its words `b.words`, their bits in a row `b.row`, the head `b.head` and the
/// list `b.list`.
///
/// ```rust
/// use bit_addressing::Lsb0;
/// use bit_boxed::BitBox;
/// use bit_slice::{BitList, BitListMut, BitSlice};
///
/// let mut flags = BitBox::<u8, Lsb0>::from_bitslice(rt.alloc(), BitSlice::from_slice(&[5, 1]))?;
/// flags.set(1, true);
/// println!(&rt; "{} of {} are set, the last at {:?}", flags.count_ones(), flags.len(), flags.last_one())?;
/// flags.rotate_left(8);
/// println!(&rt; "in words {:?}", flags.into_boxed_slice().as_slice())?;
/// ```
///
/// ```text
/// 4 of 16 are set, the last at Some(8)
/// in words [1, 7]
/// ```
#[derive(Drop)]
pub struct BitBox<T: BitStore = usize, O: BitOrder = Lsb0> {
    words: Vec<T>,
    head: usize,
    len: usize,
    order: PhantomData<O>,
}

impl<T: BitStore, O: BitOrder> Model for BitBox<T, O> {
    ghost use Rattle.std.specs.Prelude.{◌+◌, length, slice_range, vec_capacity};
    ghost use Rattle.bit_addressing.specs.Typed.{row};
    ghost use Rattle.bit_boxed.specs.BitBox.{IsBox};
    ghost use Rattle.bit_slice.specs.Held.{Held, bits_in, held_code};

    ghost Value = { Held T };

    ghost coded = { held_code T.code };

    ghost view = { λ b. record {
      words = b.words.items;
      row = row T.BitStore O.BitOrder b.words.items;
      head = b.head;
      list = slice_range (row T.BitStore O.BitOrder b.words.items) b.head (b.head + b.len);
      capacity = bits_in T.BITS (vec_capacity b.words) b.head;
    } };

    ghost invariant = { λ b. IsBox T.BITS (length b.words.items) b.head b.len
        (length (slice_range (row T.BitStore O.BitOrder b.words.items) b.head (b.head + b.len))) };
}

impl<T: BitStore, O: BitOrder> BitBox<T, O> {
    // All bits of these words: head 0.
    fn of_words(words: Vec<T>) -> Self
        requires { T.BITS * length words.items ≤ MAX_BITS }
        ensures words { result.words ≡ words.items }
        ensures row { result.row ≡ row T.BitStore O.BitOrder words.items }
        ensures head { result.head ≡ 0 }
        ensures list { result.list ≡ row T.BitStore O.BitOrder words.items }
        ensures len { length result.list ≡ T.BITS * length words.items }
        ensures clean { IsClean T.BITS result }
    {
        let len = T::BITS as usize * words.len();
        BitBox {
            words,
            head: 0,
            len,
            order: PhantomData,
        }
    }

    // Like `from_parts`, which always succeeds.
    fn of_parts(words: Vec<T>, head: usize, len: usize) -> Self
        requires in_word { head < T.BITS }
        requires few { len ≤ MAX_BITS }
        requires exact { length words.items ≡ words_for T.BITS (head + len) }
        ensures words { result.words ≡ words.items }
        ensures row { result.row ≡ row T.BitStore O.BitOrder words.items }
        ensures head { result.head ≡ head }
        ensures list { result.list ≡ slice_range (row T.BitStore O.BitOrder words.items) head (head + len) }
        ensures len { length result.list ≡ len }
    {
        let mut words = words;
        words.shrink_to_fit();
        Self::kept(words, head, len)
    }

    // The box of these words, a head and a length, with all the memory that the vector has.
    pub(crate) fn kept(words: Vec<T>, head: usize, len: usize) -> Self
        requires in_word { head < T.BITS }
        requires few { len ≤ MAX_BITS }
        requires exact { length words.items ≡ words_for T.BITS (head + len) }
        ensures words { result.words ≡ words.items }
        ensures row { result.row ≡ row T.BitStore O.BitOrder words.items }
        ensures head { result.head ≡ head }
        ensures list { result.list ≡ slice_range (row T.BitStore O.BitOrder words.items) head (head + len) }
        ensures len { length result.list ≡ len }
    {
        BitBox {
            words,
            head,
            len,
            order: PhantomData,
        }
    }

    /// The empty box: head 0, and no word. It always succeeds, and takes no memory.
    ///
    /// ```text
    /// BitBox::<u8, Lsb0>::empty(alloc)? holds nothing
    /// ```
    pub fn empty(alloc: Global) -> Result<Self, AllocError>
        ensures words { IfOk result (λ b. b.words ≡ []) }
        ensures head { IfOk result (λ b. b.head ≡ 0) }
        ensures list { IfOk result (λ b. b.list ≡ []) }
        ensures clean { IfOk result (λ b. IsClean T.BITS b) }
        ensures succeeds { IsOk result }
    {
        Ok(Self::of_words(Vec::new(alloc)))
    }

    /// These words with a head and a length. Gives back the memory past the last word. It always succeeds. Requires
    /// that the head is in the first word, that there are exactly as many words as the bits take, and that there are
    /// at most `MAX_BITS` bits.
    ///
    /// ```text
    /// BitBox::<u8, Lsb0>::from_parts(vec![in alloc; 6]?, 1, 3)? holds 110
    /// ```
    pub fn from_parts(words: Vec<T>, head: usize, len: usize) -> Result<Self, AllocError>
        requires in_word { head < T.BITS }
        requires few { len ≤ MAX_BITS }
        requires exact { length words.items ≡ words_for T.BITS (head + len) }
        ensures words { IfOk result (λ b. b.words ≡ words.items) }
        ensures row { IfOk result (λ b. b.row ≡ row T.BitStore O.BitOrder words.items) }
        ensures head { IfOk result (λ b. b.head ≡ head) }
        ensures list { IfOk result
            (λ b. b.list ≡ slice_range (row T.BitStore O.BitOrder words.items) head (head + len)) }
        ensures len { IfOk result (λ b. length b.list ≡ len) }
        ensures succeeds { IsOk result }
    {
        Ok(Self::of_parts(words, head, len))
    }

    /// All bits of these words, which are kept: head 0. Takes no memory. Requires that they are at most
    /// `MAX_BITS` bits.
    ///
    /// ```text
    /// BitBox::<u8, Lsb0>::from_boxed_slice(vec![in alloc; 6]?.into_boxed_slice()) holds 01100000
    /// ```
    pub fn from_boxed_slice(words: BoxedSlice<T>) -> Self
        requires { T.BITS * length (boxed_slice_items words) ≤ MAX_BITS }
        ensures words { result.words ≡ boxed_slice_items words }
        ensures row { result.row ≡ row T.BitStore O.BitOrder (boxed_slice_items words) }
        ensures head { result.head ≡ 0 }
        ensures list { result.list ≡ row T.BitStore O.BitOrder (boxed_slice_items words) }
        ensures len { length result.list ≡ T.BITS * length (boxed_slice_items words) }
        ensures clean { IsClean T.BITS result }
    {
        Self::of_words(words.into_vec())
    }

    /// Like `from_boxed_slice`, for any number of words: returns the words as the error exactly where
    /// they have more than `MAX_BITS` bits. Takes no memory.
    ///
    /// ```text
    /// BitBox::<u8, Lsb0>::try_from_boxed_slice(vec![in alloc; 6]?.into_boxed_slice())? holds 01100000
    /// ```
    pub fn try_from_boxed_slice(words: BoxedSlice<T>) -> Result<Self, BoxedSlice<T>>
        ensures words { IfOk result (λ b. b.words ≡ boxed_slice_items words) }
        ensures row { IfOk result (λ b. b.row ≡ row T.BitStore O.BitOrder (boxed_slice_items words)) }
        ensures head { IfOk result (λ b. b.head ≡ 0) }
        ensures list { IfOk result (λ b. b.list ≡ row T.BitStore O.BitOrder (boxed_slice_items words)) }
        ensures len { IfOk result (λ b. length b.list ≡ T.BITS * length (boxed_slice_items words)) }
        ensures clean { IfOk result (λ b. IsClean T.BITS b) }
        ensures fits { IsOk result ↔ (T.BITS * length (boxed_slice_items words) ≤ MAX_BITS) }
        ensures back { IfErr result (λ back. back ≡ words) }
    {
        if words.as_slice().len() <= MAX_BITS / T::BITS as usize {
            Ok(Self::from_boxed_slice(words))
        } else {
            Err(words)
        }
    }

    /// All bits of a boxed word, which is placed in a new box: head 0. Takes memory.
    ///
    /// ```text
    /// BitBox::<u8, Lsb0>::from_box(alloc, Box::new(alloc, 6)?)? holds 01100000
    /// ```
    pub fn from_box(alloc: Global, word: Box<T>) -> Result<Self, AllocError>
        ensures words { IfOk result (λ b. b.words ≡ word.value ∷ []) }
        ensures head { IfOk result (λ b. b.head ≡ 0) }
        ensures list { IfOk result (λ b. b.list ≡ row T.BitStore O.BitOrder (word.value ∷ [])) }
        ensures len { IfOk result (λ b. length b.list ≡ T.BITS) }
        ensures clean { IfOk result (λ b. IsClean T.BITS b) }
    {
        let word = Box::into_inner(word);
        let mut words = Vec::new(alloc);
        words.push(word)?;
        Ok(Self::of_words(words))
    }

    /// The bits of an array, whose words are copied: head 0. Allocates, and can fail, only where it has a word.
    ///
    /// ```text
    /// BitBox::from_bitarray(alloc, BitArray::<u8, Lsb0>::new(6))? holds 01100000
    /// ```
    pub fn from_bitarray<A: BitWords<Store = T>>(
        alloc: Global,
        array: BitArray<A, O>,
    ) -> Result<Self, AllocError>
        ensures words { IfOk result (λ b. b.words ≡ A.words array) }
        ensures head { IfOk result (λ b. b.head ≡ 0) }
        ensures list { IfOk result (λ b. b.list ≡ row T.BitStore O.BitOrder (A.words array)) }
        ensures len { IfOk result (λ b. length b.list ≡ T.BITS * A.count) }
        ensures clean { IfOk result (λ b. IsClean T.BITS b) }
        ensures memory { OnErr result (0 < A.count) }
    {
        let mut words = Vec::new(alloc);
        words.extend_from_slice(array.as_raw_slice())?;
        Ok(Self::of_words(words))
    }

    /// The bits of a view, from head 0 on, by whole words: the words are canonical, those of the list and then false.
    /// Allocates, and can fail, only where the view has a bit.
    ///
    /// ```text
    /// of 0110: BitBox::from_bitslice(alloc, bits.as_bitslice())?.as_bitslice() shows 0110
    /// ```
    pub fn from_bitslice(alloc: Global, view: BitSlice<'_, T, O>) -> Result<Self, AllocError>
        ensures list { IfOk result (λ b. b.list ≡ list_of view.entry) }
        ensures len { IfOk result (λ b. length b.list ≡ len_of view.entry) }
        ensures clean { IfOk result (λ b. IsClean T.BITS b) }
        ensures memory { OnErr result (0 < len_of view.entry) }
    {
        let (from, len) = (view.head(), view.len());
        let mut words = Vec::new(alloc);
        resize_words_in_vec::<T, O>(&mut words, len)?;
        copy_bits_in_vec::<T, O, T, O>(&mut words, 0, view.as_raw_slice(), from, len);
        Ok(Self::of_parts(words, 0, len))
    }

    /// The bits of a view: its head is kept, its words are copied, and their dead bits are false. Allocates, and can
    /// fail, only where the view has a word.
    ///
    /// ```text
    /// of 0110: BitBox::from_bitslice_headed(alloc, bits.as_bitslice())?.as_bitslice() shows 0110
    /// ```
    pub fn from_bitslice_headed(alloc: Global, view: BitSlice<'_, T, O>) -> Result<Self, AllocError>
        ensures head { IfOk result (λ b. b.head ≡ head_of view.entry) }
        ensures list { IfOk result (λ b. b.list ≡ list_of view.entry) }
        ensures len { IfOk result (λ b. length b.list ≡ len_of view.entry) }
        ensures row { IfOk result
            (λ b. b.row ≡ filled (row_of view.entry) (head_of view.entry) (len_of view.entry) false) }
        ensures clean { IfOk result (λ b. head_of view.entry ≡ 0 → IsClean T.BITS b) }
        ensures memory { OnErr result (0 < length (words_of view.entry)) }
    {
        let (head, len) = (view.head(), view.len());
        let mut words = Vec::new(alloc);
        words.extend_from_slice(view.as_raw_slice())?;
        fill_outside_in_vec::<T, O>(&mut words, head, len, false);
        Ok(Self::of_parts(words, head, len))
    }

    /// The bits that an iterator gives before its first None, from head 0 on: the words are canonical. It pulls
    /// nothing after that None. Returns `TooLong` at the first bit with which the length would pass `MAX_BITS`, and
    /// `OutOfMemory` only where at least one bit and at most `MAX_BITS` were pulled. A refusal pulls no more. Items
    /// that were pulled are lost. Requires that the iterator ends.
    ///
    /// ```text
    /// BitBox::<u8, Lsb0>::from_bits(alloc, Some(true))? holds 1
    /// ```
    pub fn from_bits<I: IntoIterator<Item = bool>>(
        alloc: Global,
        iter: I,
    ) -> Result<Self, GrowError>
        requires { IsFiniteIterable I.into_iter_gives I.IntoIter.can_next I.IntoIter.remaining iter }
        ensures list { IfOk result
            (λ b. GivesAll I.into_iter_gives I.IntoIter.next_gives iter (λ bits. b.list ≡ bits)) }
        ensures runs { IfOk result
            (λ b. RunsThrough I.into_iter_gives I.IntoIter.next_gives iter (λ bits. b.list ≡ bits)) }
        ensures clean { IfOk result (λ b. IsClean T.BITS b) }
        ensures too_long { result ≡ Err GrowError.TooLong
            → GivesFirst I.into_iter_gives I.IntoIter.next_gives iter (λ bits. MAX_BITS < length bits) }
        ensures memory { result ≡ Err GrowError.OutOfMemory
            → GivesFirst I.into_iter_gives I.IntoIter.next_gives iter
            (λ bits. (0 < length bits) × (length bits ≤ MAX_BITS)) }
    {
        let mut words = Vec::new(alloc);
        let mut len = 0;
        for bit in iter {
            if len == MAX_BITS {
                return Err(GrowError::TooLong);
            }
            push_bit_in_vec::<T, O>(&mut words, len, bit)?;
            len += 1;
        }
        Ok(Self::of_parts(words, 0, len))
    }

    /// All the words, as they are. Takes no memory.
    ///
    /// ```text
    /// of 0110: bits.into_boxed_slice().len() == 1
    /// ```
    pub fn into_boxed_slice(self) -> BoxedSlice<T>
        ensures words { boxed_slice_items result ≡ self.words }
        ensures row { row T.BitStore O.BitOrder (boxed_slice_items result) ≡ self.row }
        ensures from_row { boxed_slice_items result ≡ words_from T.BitStore O.BitOrder self.row }
    {
        prove_exact_words::<T, O>(self.words.as_slice());
        self.words.into_boxed_slice()
    }

    /// Makes the head 0: the list moves to the beginning of the words, by one counted move. The number of
    /// words stays. Takes no memory.
    ///
    /// ```text
    /// of 0110: bits.force_align() leaves 0110
    /// ```
    #[tactic(auto, using(bit_slice::proofs::Parts::shown_length))]
    pub fn force_align(&mut self)
        ensures head { self.new.head ≡ 0 }
        ensures list { self.new.list ≡ self.old.list }
        ensures row { self.new.row ≡ moved self.old.row self.old.head 0 (length self.old.list) }
        ensures clean { IsClean T.BITS self.old → IsClean T.BITS self.new }
        ensures size { length self.new.words ≡ length self.old.words }
    {
        move_bits_in_vec::<T, O>(&mut self.words, self.head, 0, self.len);
        self.head = 0;
    }

    /// Makes every dead bit of all the words `bit`, and changes no bit of the list. Takes no memory.
    ///
    /// ```text
    /// of 0110: bits.fill_uninitialized(true) leaves 0110
    /// ```
    #[tactic(auto, using(bit_slice::proofs::Parts::shown_length))]
    pub fn fill_uninitialized(&mut self, bit: bool)
        ensures list { self.new.list ≡ self.old.list }
        ensures row { self.new.row ≡ filled self.old.row self.old.head (length self.old.list) bit }
        ensures stayed { Stayed self.old self.new }
    {
        fill_outside_in_vec::<T, O>(&mut self.words, self.head, self.len, bit);
    }

    /// The allocator that the words came from.
    ///
    /// ```text
    /// of 0110: BitVec::<u8, Lsb0>::new(bits.allocator()).len() == 0
    /// ```
    pub fn allocator(&self) -> Global {
        *self.words.allocator()
    }
}
