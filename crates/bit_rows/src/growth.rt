//! Words grown or cut to a number of bits.
ghost use Rattle.std.specs.Prelude.{◌≡◌, ◌+◌, ◌-◌, ◌*◌, ◌%◌, ◌^◌, ◌<◌, ◌≤◌, ◌++◌, [], ◌∷◌, false, length, replicate, take, OnOk, OnErr, vec_capacity};
ghost use Rattle.bit_addressing.specs.Row.{words_for, put, sized};
ghost use Rattle.bit_addressing.specs.Typed.{row};

use bit_addressing::inner::{blend, in_word, repeated};
use bit_addressing::{BitEnd, BitIdx, BitOrder, BitStore, elts};
use std::alloc::AllocError;
use std::mem::replace;

/// Cuts the words to those for `bits` bits, or fills them up with words of zero. Allocates, and can fail, only where
/// the capacity, in words, is too small.
#[inline(always)]
pub fn resize_words_in_vec<T: BitStore, O: BitOrder>(
    words: &mut Vec<T>,
    bits: usize,
) -> Result<(), AllocError>
    ensures bits { OnOk result (row T.BitStore O.BitOrder words.new.items
        ≡ sized T.BITS (row T.BitStore O.BitOrder words.old.items) bits) }
    ensures size { OnOk result (length words.new.items ≡ words_for T.BITS bits) }
    ensures room { OnOk result (bits ≤ T.BITS * length words.new.items) }
    ensures capacity { vec_capacity words.old ≤ vec_capacity words.new }
    ensures no_memory { words_for T.BITS bits ≤ vec_capacity words.old
        → vec_capacity words.new ≡ vec_capacity words.old }
    ensures full { OnErr result (vec_capacity words.old < words_for T.BITS bits) }
    ensures unchanged { OnErr result (words.new.items ≡ words.old.items) }
{
    let (count, old) = (elts::<T>(bits), words.len());
    if count == old {
        return Ok(());
    }
    if count < old {
        words.truncate(count);
        return Ok(());
    }
    if count - old == 1 {
        push_word(words, T::ZERO)?;
        return Ok(());
    }
    push_words(words, count - old, T::ZERO)?;
    Ok(())
}

// Appends words whose bits are all `bit` until there are `count`. Allocates, and can fail, only where the capacity is
// too small. Requires that there are no more than `count`. One word is pushed without a loop; of more, each of the two
// words is known to the compiler, which then fills memory by one call (docs/TUNING.md, resize).
#[inline(always)]
fn grow_words_by_bit<T: BitStore, O: BitOrder>(
    words: &mut Vec<T>,
    count: usize,
    bit: bool,
) -> Result<(), AllocError>
    requires { length words.old.items ≤ count }
    ensures bits { OnOk result (row T.BitStore O.BitOrder words.new.items
        ≡ row T.BitStore O.BitOrder words.old.items ++ replicate (T.BITS * (count - length words.old.items)) bit) }
    ensures size { OnOk result (length words.new.items ≡ count) }
    ensures capacity { vec_capacity words.old ≤ vec_capacity words.new }
    ensures no_memory { count ≤ vec_capacity words.old → vec_capacity words.new ≡ vec_capacity words.old }
    ensures full { OnErr result (vec_capacity words.old < count) }
    ensures unchanged { OnErr result (words.new.items ≡ words.old.items) }
{
    let more = count - words.len();
    if more == 1 {
        push_word(words, repeated::<T>(bit))?;
    } else if bit {
        push_words(words, more, repeated::<T>(true))?;
    } else {
        push_words(words, more, repeated::<T>(false))?;
    }
    Ok(())
}

// Like `fill_bits`, in one word of a vector. Requires that the word has all of these bits.
#[inline(always)]
fn fill_in_word<T: BitStore, O: BitOrder>(words: &mut Vec<T>, from: usize, upto: usize, bit: bool)
    requires ordered { from ≤ upto }
    requires within { upto ≤ T.BITS * length words.old.items }
    requires one { from % T.BITS + (upto - from) ≤ T.BITS }
    ensures bits { row T.BitStore O.BitOrder words.new.items
        ≡ put (row T.BitStore O.BitOrder words.old.items) from (replicate (upto - from) bit) }
    ensures size { length words.new.items ≡ length words.old.items }
    ensures capacity { vec_capacity words.new ≡ vec_capacity words.old }
{
    if from == upto {
        return;
    }
    let (k, low) = in_word::<T>(from);
    let mask = O::mask(
        BitIdx::<T>::new_unchecked(low),
        BitEnd::<T>::new_unchecked(low + (upto - from) as u8),
    );
    let old = words[k];
    words[k] = blend(old, repeated::<T>(bit), mask);
}

/// Appends words up to those for `upto` bits, and writes `bit` over the bits from `end` up to `upto`, each word
/// once; the other bits of a word that is added are false. Takes memory where a word is added. Requires that
/// `end` is at most `upto`, and that the words are those for `end` bits, and that `upto` is at most one word's
/// bits below 2 to the power 64. It is refused only where the capacity, in words, is too small.
///
/// ```text
/// of the words 05 by u8 and Lsb0: append_run_in_vec(&mut words, 3, 10, true)? leaves fd 03
/// ```
pub fn append_run_in_vec<T: BitStore, O: BitOrder>(
    words: &mut Vec<T>,
    end: usize,
    upto: usize,
    bit: bool,
) -> Result<(), AllocError>
    requires ordered { end ≤ upto }
    requires count { length words.old.items ≡ words_for T.BITS end }
    requires fits { upto + T.BITS ≤ 2 ^ 64 }
    ensures bits { OnOk result (row T.BitStore O.BitOrder words.new.items
        ≡ put (sized T.BITS (row T.BitStore O.BitOrder words.old.items) upto) end
        (replicate (upto - end) bit)) }
    ensures size { OnOk result (length words.new.items ≡ words_for T.BITS upto) }
    ensures room { OnOk result (upto ≤ T.BITS * length words.new.items) }
    ensures capacity { vec_capacity words.old ≤ vec_capacity words.new }
    ensures no_memory { words_for T.BITS upto ≤ vec_capacity words.old
        → vec_capacity words.new ≡ vec_capacity words.old }
    ensures full { OnErr result (vec_capacity words.old < words_for T.BITS upto) }
    ensures unchanged { OnErr result (words.new.items ≡ words.old.items) }
{
    let (count, old) = (elts::<T>(upto), words.len());
    if count == old {
        fill_in_word::<T, O>(words, end, upto, bit);
        return Ok(());
    }
    let width = T::BITS as usize;
    grow_words_by_bit::<T, O>(words, count, bit)?;
    fill_in_word::<T, O>(words, end, width * old, bit);
    fill_in_word::<T, O>(words, upto, width * count, false);
    Ok(())
}

/// Cuts the words to those for `bits` bits. Requires that they have room for them.
#[inline(always)]
pub fn cut_words_in_vec<T: BitStore, O: BitOrder>(words: &mut Vec<T>, bits: usize)
    requires { bits ≤ T.BITS * length words.old.items }
    ensures items { words.new.items ≡ take (words_for T.BITS bits) words.old.items }
    ensures bits { row T.BitStore O.BitOrder words.new.items
        ≡ sized T.BITS (row T.BitStore O.BitOrder words.old.items) bits }
    ensures size { length words.new.items ≡ words_for T.BITS bits }
    ensures room { bits ≤ T.BITS * length words.new.items }
    ensures capacity { vec_capacity words.new ≡ vec_capacity words.old }
{
    let count = elts::<T>(bits);
    words.truncate(count);
}

/// Makes room for `more` words after those that are there. Allocates, and can fail, only where the capacity is too
/// small: then the words are moved out and back, so that the path that takes no memory keeps them in registers.
#[inline(always)]
pub fn make_room_in_vec<T: BitStore>(words: &mut Vec<T>, more: usize) -> Result<(), AllocError>
    ensures items { words.new.items ≡ words.old.items }
    ensures room { OnOk result (length words.new.items + more ≤ vec_capacity words.new) }
    ensures capacity { vec_capacity words.old ≤ vec_capacity words.new }
    ensures no_memory { length words.old.items + more ≤ vec_capacity words.old
        → vec_capacity words.new ≡ vec_capacity words.old }
    ensures full { OnErr result (vec_capacity words.old < length words.old.items + more) }
{
    if more <= words.capacity() - words.len() {
        return Ok(());
    }
    grow_by(words, more)
}

// Like `make_room_in_vec`, where the capacity may be too small. The words are handed over and handed back: a vector that is
// lent to a call stays in memory wherever words are pushed (docs/SPEED.md, push).
#[inline(always)]
fn grow_by<T: BitStore>(words: &mut Vec<T>, more: usize) -> Result<(), AllocError>
    ensures items { words.new.items ≡ words.old.items }
    ensures room { OnOk result (length words.new.items + more ≤ vec_capacity words.new) }
    ensures capacity { vec_capacity words.old ≤ vec_capacity words.new }
    ensures full { OnErr result (vec_capacity words.old < length words.old.items + more) }
{
    let alloc = *words.allocator();
    let (grown, done) = grown_by(replace(words, Vec::new(alloc)), more);
    let _empty = replace(words, grown);
    done
}

// Makes room for `more` words, of a vector by value.
#[cold]
#[inline(never)]
fn grown_by<T: BitStore>(words: Vec<T>, more: usize) -> (Vec<T>, Result<(), AllocError>)
    ensures items { result.0.items ≡ words.items }
    ensures room { OnOk result.1 (length result.0.items + more ≤ vec_capacity result.0) }
    ensures capacity { vec_capacity words ≤ vec_capacity result.0 }
    ensures full { OnErr result.1 (vec_capacity words < length words.items + more) }
{
    let mut words = words;
    let done = words.reserve(more);
    (words, done)
}

// Appends a word. Takes memory only where the capacity is full.
#[inline(always)]
pub(crate) fn push_word<T: BitStore>(words: &mut Vec<T>, word: T) -> Result<(), AllocError>
    ensures items { OnOk result (words.new.items ≡ words.old.items ++ word ∷ []) }
    ensures capacity { vec_capacity words.old ≤ vec_capacity words.new }
    ensures no_memory { length words.old.items < vec_capacity words.old
        → vec_capacity words.new ≡ vec_capacity words.old }
    ensures full { OnErr result (vec_capacity words.old ≤ length words.old.items) }
    ensures unchanged { OnErr result (words.new.items ≡ words.old.items) }
{
    make_room_in_vec(words, 1)?;
    words.push_reserved(word);
    Ok(())
}

// Appends `more` times a word. Allocates, and can fail, only where the capacity is too small.
#[inline(always)]
fn push_words<T: BitStore>(words: &mut Vec<T>, more: usize, word: T) -> Result<(), AllocError>
    ensures items { OnOk result (words.new.items ≡ words.old.items ++ replicate more word) }
    ensures size { OnOk result (length words.new.items ≡ length words.old.items + more) }
    ensures capacity { vec_capacity words.old ≤ vec_capacity words.new }
    ensures no_memory { length words.old.items + more ≤ vec_capacity words.old
        → vec_capacity words.new ≡ vec_capacity words.old }
    ensures full { OnErr result (vec_capacity words.old < length words.old.items + more) }
    ensures unchanged { OnErr result (words.new.items ≡ words.old.items) }
{
    make_room_in_vec(words, more)?;
    let alloc = *words.allocator();
    let filled = with_words(replace(words, Vec::new(alloc)), more, word);
    let _empty = replace(words, filled);
    Ok(())
}

// A vector with `more` times a word appended. It is handed over, so that its length and its address stay in registers
// while the words are written. Takes no memory. Requires that the capacity has room.
#[inline(always)]
fn with_words<T: BitStore>(words: Vec<T>, more: usize, word: T) -> Vec<T>
    requires { length words.items + more ≤ vec_capacity words }
    ensures items { result.items ≡ words.items ++ replicate more word }
    ensures capacity { vec_capacity result ≡ vec_capacity words }
{
    let mut words = words;
    for _ in 0..more {
        words.push_reserved(word);
    }
    words
}

/// Appends a bit after the first `end` bits: a word is added only where no word has room for it, and the other bits
/// of a word that is added are false. Takes memory where a word is added. Requires that the words are those for
/// `end` bits. It is refused only where the capacity, in words, is too small.
pub fn push_bit_in_vec<T: BitStore, O: BitOrder>(
    words: &mut Vec<T>,
    end: usize,
    bit: bool,
) -> Result<(), AllocError>
    requires count { length words.old.items ≡ words_for T.BITS end }
    requires fits { end + 1 < 2 ^ 64 }
    ensures bits { OnOk result (row T.BitStore O.BitOrder words.new.items
        ≡ put (sized T.BITS (row T.BitStore O.BitOrder words.old.items) (end + 1)) end (bit ∷ [])) }
    ensures size { OnOk result (length words.new.items ≡ words_for T.BITS (end + 1)) }
    ensures room { OnOk result (end + 1 ≤ T.BITS * length words.new.items) }
    ensures capacity { vec_capacity words.old ≤ vec_capacity words.new }
    ensures no_memory { words_for T.BITS (end + 1) ≤ vec_capacity words.old
        → vec_capacity words.new ≡ vec_capacity words.old }
    ensures full { OnErr result (vec_capacity words.old < words_for T.BITS (end + 1)) }
    ensures unchanged { OnErr result (words.new.items ≡ words.old.items) }
{
    let width = T::BITS as usize;
    let place = O::at(BitIdx::<T>::new_unchecked((end % width) as u8)).into_inner();
    let k = end / width;
    if k == words.len() {
        push_word(words, T::ZERO.with_bit(place, bit))?;
    } else {
        let word = words[k];
        words[k] = word.with_bit(place, bit);
    }
    Ok(())
}
