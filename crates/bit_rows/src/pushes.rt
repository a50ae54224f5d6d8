//! Numbers of up to 64 bits appended to words.
ghost use Rattle.std.specs.Prelude.{◌≡◌, ℕ, false, ◌+◌, ◌-◌, ◌*◌, ◌/◌, ◌%◌, ◌^◌, ◌<◌, ◌≤◌, ◌++◌, [], ◌∷◌, length, replicate, OnOk, OnErr, vec_capacity};
ghost use Rattle.bit_addressing.specs.Bits.{has_bit};
ghost use Rattle.bit_addressing.specs.Row.{binary, number_bits, row_of, words_for, put, sized};
ghost use Rattle.bit_addressing.specs.Typed.{row};
ghost use Rattle.bit_rows.specs.Runs.{run_at};

use crate::chunks::{digits_from, word_number, word_of_block};
use crate::growth::{cut_words_in_vec, push_word, resize_words_in_vec};
use crate::vectors::{write_chunk_in_vec, write_part_in_vec};
use bit_addressing::inner::in_word;
use bit_addressing::{BitIdx, BitOrder, BitStore};
use std::alloc::AllocError;
use std::mem::replace;

// Appends a word whose first `n` indices have the lowest bits of a number, that of place 0 first, and whose other bits
// are false. Takes memory only where the capacity is full.
#[inline(always)]
fn push_part<T: BitStore, O: BitOrder>(
    words: &mut Vec<T>,
    n: u8,
    chunk: u64,
) -> Result<(), AllocError>
    requires some { 0 < n }
    requires within { n ≤ T.BITS }
    ensures bits { OnOk result (row T.BitStore O.BitOrder words.new.items
        ≡ row T.BitStore O.BitOrder words.old.items ++ number_bits chunk n ++ replicate (T.BITS - n) false) }
    ensures size { OnOk result (length words.new.items ≡ length words.old.items + 1) }
    ensures capacity { vec_capacity words.old ≤ vec_capacity words.new }
    ensures no_memory { length words.old.items < vec_capacity words.old
        → vec_capacity words.new ≡ vec_capacity words.old }
    ensures full { OnErr result (vec_capacity words.old ≤ length words.old.items) }
    ensures unchanged { OnErr result (words.new.items ≡ words.old.items) }
{
    let bits = chunk & (u64::MAX >> (64 - n));
    push_word(words, O::from_lsb0(T::from_u64(bits)))?;
    Ok(())
}

// Writes the `n` lowest bits of a number at the indices of word `k` from `low` on, that of place 0 first.
#[inline(always)]
fn write_in_word<T: BitStore, O: BitOrder>(words: &mut Vec<T>, k: usize, low: u8, n: u8, chunk: u64)
    requires word { k < length words.old.items }
    requires some { 0 < n }
    requires within { low + n ≤ T.BITS }
    ensures bits { row T.BitStore O.BitOrder words.new.items
        ≡ put (row T.BitStore O.BitOrder words.old.items) (k * T.BITS + low) (number_bits chunk n) }
    ensures size { length words.new.items ≡ length words.old.items }
    ensures capacity { vec_capacity words.new ≡ vec_capacity words.old }
{
    let new = O::from_lsb0(T::from_u64(chunk << low));
    write_part_in_vec::<T, O>(words, k, low, low + n, new);
}

// Like `push_chunk_in_vec`: a number of at most one word's bits goes into one word or two, and a longer one into words that
// are added first.
#[inline(always)]
fn push_by_words<T: BitStore, O: BitOrder>(
    words: &mut Vec<T>,
    end: usize,
    n: u8,
    chunk: u64,
) -> Result<(), AllocError>
    requires few { n ≤ 64 }
    requires count { length words.old.items ≡ words_for T.BITS end }
    requires fits { end + n < 2 ^ 64 }
    ensures bits { OnOk result (row T.BitStore O.BitOrder words.new.items
        ≡ put (sized T.BITS (row T.BitStore O.BitOrder words.old.items) (end + n)) end (number_bits chunk n)) }
    ensures size { OnOk result (length words.new.items ≡ words_for T.BITS (end + n)) }
    ensures room { OnOk result (end + n ≤ T.BITS * length words.new.items) }
    ensures capacity { vec_capacity words.old ≤ vec_capacity words.new }
    ensures no_memory { words_for T.BITS (end + n) ≤ vec_capacity words.old
        → vec_capacity words.new ≡ vec_capacity words.old }
    ensures full { OnErr result (vec_capacity words.old < words_for T.BITS (end + n)) }
    ensures unchanged { OnErr result (words.new.items ≡ words.old.items) }
{
    if n == 0 {
        return Ok(());
    }
    if T::BITS < 64 && n > T::BITS {
        resize_words_in_vec::<T, O>(words, end + n as usize)?;
        write_chunk_in_vec::<T, O>(words, end, n, chunk);
        return Ok(());
    }
    let width = T::BITS as usize;
    let low = (end % width) as u8;
    if low == 0 {
        push_part::<T, O>(words, n, chunk)?;
        return Ok(());
    }
    let room = T::BITS - low;
    if n <= room {
        let k = words.len() - 1;
        write_in_word::<T, O>(words, k, low, n, chunk);
        return Ok(());
    }
    let k = words.len() - 1;
    push_part::<T, O>(words, n - room, chunk >> room)?;
    write_in_word::<T, O>(words, k, low, room, chunk);
    Ok(())
}

// Like `push_by_words`, of words by value.
#[cold]
#[inline(never)]
fn pushed_by_words<T: BitStore, O: BitOrder>(
    words: Vec<T>,
    end: usize,
    n: u8,
    chunk: u64,
) -> (Vec<T>, Result<(), AllocError>)
    requires few { n ≤ 64 }
    requires count { length words.items ≡ words_for T.BITS end }
    requires fits { end + n < 2 ^ 64 }
    ensures bits { OnOk result.1 (row T.BitStore O.BitOrder result.0.items
        ≡ put (sized T.BITS (row T.BitStore O.BitOrder words.items) (end + n)) end (number_bits chunk n)) }
    ensures size { OnOk result.1 (length result.0.items ≡ words_for T.BITS (end + n)) }
    ensures room { OnOk result.1 (end + n ≤ T.BITS * length result.0.items) }
    ensures capacity { vec_capacity words ≤ vec_capacity result.0 }
    ensures no_memory { words_for T.BITS (end + n) ≤ vec_capacity words
        → vec_capacity result.0 ≡ vec_capacity words }
    ensures full { OnErr result.1 (vec_capacity words < words_for T.BITS (end + n)) }
    ensures unchanged { OnErr result.1 (result.0.items ≡ words.items) }
{
    let mut words = words;
    let done = push_by_words::<T, O>(&mut words, end, n, chunk);
    (words, done)
}

/// Appends a block of 64 bits as whole words, the first bits in the first. Takes no memory. Requires that the capacity
/// has room for it.
///
/// ```text
/// of the words 05 by u8 and Lsb0: append_block_in_vec(&mut words, 0x0807060504030201) leaves 05 01 02 03 04 05 06 07 08
/// ```
#[inline(always)]
pub fn append_block_in_vec<T: BitStore, O: BitOrder>(words: &mut Vec<T>, block: u64)
    requires room { length words.old.items + 64 / T.BITS ≤ vec_capacity words.old }
    ensures bits { row T.BitStore O.BitOrder words.new.items
        ≡ row T.BitStore O.BitOrder words.old.items ++ row_of O.place 64 (block ∷ []) }
    ensures size { length words.new.items ≡ length words.old.items + 64 / T.BITS }
    ensures capacity { vec_capacity words.new ≡ vec_capacity words.old }
{
    // The compiler makes one store of them.
    for i in 0..64 / T::BITS {
        words.push_reserved(word_of_block::<T, O>(block, i));
    }
}

// The bits of a block from index `low` on, the first one there. The bits before it are false, and the last `low` are left
// out. Requires that `low` is not 0.
#[inline(always)]
fn moved_up<O: BitOrder>(block: u64, low: u8) -> u64
    requires some { 0 < low }
    requires few { low < 64 }
    ensures { (i : ℕ) → i + low < 64 → has_bit result (O.place 64 (low + i)) ≡ has_bit block (O.place 64 i) }
{
    O::window::<u64>(0, block, BitIdx::<u64>::new_unchecked(64 - low))
}

// Writes the first `n` bits of a block at the places from `at` on, and no other bit. Requires that `at` lies inside a word,
// and that the run ends in that word, which is there.
#[inline(always)]
fn write_front<T: BitStore, O: BitOrder>(words: &mut Vec<T>, at: usize, n: u8, block: u64)
    requires some { 0 < n }
    requires inside { 0 < at % T.BITS }
    requires word { at % T.BITS + n ≤ T.BITS }
    requires within { at + n ≤ T.BITS * length words.old.items }
    ensures bits { row T.BitStore O.BitOrder words.new.items
        ≡ put (row T.BitStore O.BitOrder words.old.items) at (run_at (row_of O.place 64 (block ∷ [])) 0 n) }
    ensures size { length words.new.items ≡ length words.old.items }
    ensures capacity { vec_capacity words.new ≡ vec_capacity words.old }
{
    let (k, low) = in_word::<T>(at);
    let new = word_of_block::<T, O>(moved_up::<O>(block, low), 0);
    write_part_in_vec::<T, O>(words, k, low, low + n, new);
}

// Appends the first `n` bits of a block of 64 bits, whose other bits are false. Where the capacity has room for a whole
// block, the words are stored as one and then cut, whatever `n` is: there is no loop, and no branch for each word.
#[inline(always)]
fn push_block<T: BitStore, O: BitOrder>(
    words: &mut Vec<T>,
    end: usize,
    n: u8,
    block: u64,
) -> Result<(), AllocError>
    requires some { 0 < n }
    requires few { n ≤ 64 }
    requires rest { (i : ℕ) → n ≤ i → i < 64 → has_bit block (O.place 64 i) ≡ false }
    requires count { length words.old.items ≡ words_for T.BITS end }
    requires fits { end + n < 2 ^ 64 }
    ensures bits { OnOk result (row T.BitStore O.BitOrder words.new.items
        ≡ put (sized T.BITS (row T.BitStore O.BitOrder words.old.items) (end + n)) end (run_at (row_of O.place 64 (block ∷ [])) 0 n)) }
    ensures size { OnOk result (length words.new.items ≡ words_for T.BITS (end + n)) }
    ensures room { OnOk result (end + n ≤ T.BITS * length words.new.items) }
    ensures capacity { vec_capacity words.old ≤ vec_capacity words.new }
    ensures no_memory { words_for T.BITS (end + n) ≤ vec_capacity words.old
        → vec_capacity words.new ≡ vec_capacity words.old }
    ensures full { OnErr result (vec_capacity words.old < words_for T.BITS (end + n)) }
    ensures unchanged { OnErr result (words.new.items ≡ words.old.items) }
{
    let low = (end % T::BITS as usize) as u8;
    let room = T::BITS - low;
    if low > 0 && n <= room {
        write_front::<T, O>(words, end, n, block);
        return Ok(());
    }
    if words.capacity() - words.len() < (64 / T::BITS) as usize {
        let alloc = *words.allocator();
        let old = replace(words, Vec::new(alloc));
        let (grown, done) = pushed_by_words::<T, O>(old, end, n, word_number::<u64, O>(block));
        let _empty = replace(words, grown);
        return done;
    }
    if low == 0 {
        append_block_in_vec::<T, O>(words, block);
        cut_words_in_vec::<T, O>(words, end + n as usize);
        return Ok(());
    }
    let rest = O::window::<u64>(block, 0, BitIdx::<u64>::new_unchecked(room));
    append_block_in_vec::<T, O>(words, rest);
    cut_words_in_vec::<T, O>(words, end + n as usize);
    write_front::<T, O>(words, end, room, block);
    Ok(())
}

/// Appends the `n` lowest bits of a number after the first `end` bits, that of place 0 first: words are added only where
/// those that are there have no room, and the other bits of a word that is added are false. Takes memory only where the
/// capacity is too small. Requires that the words are those for `end` bits, and that `n` is at most 64. It is refused
/// only where the capacity, in words, is too small.
///
/// ```text
/// of the words 05 by u8 and Lsb0: push_chunk_in_vec(&mut words, 3, 6, 63)? leaves fd 01
/// ```
#[inline(always)]
pub fn push_chunk_in_vec<T: BitStore, O: BitOrder>(
    words: &mut Vec<T>,
    end: usize,
    n: u8,
    chunk: u64,
) -> Result<(), AllocError>
    requires few { n ≤ 64 }
    requires count { length words.old.items ≡ words_for T.BITS end }
    requires fits { end + n < 2 ^ 64 }
    ensures bits { OnOk result (row T.BitStore O.BitOrder words.new.items
        ≡ put (sized T.BITS (row T.BitStore O.BitOrder words.old.items) (end + n)) end (number_bits chunk n)) }
    ensures size { OnOk result (length words.new.items ≡ words_for T.BITS (end + n)) }
    ensures room { OnOk result (end + n ≤ T.BITS * length words.new.items) }
    ensures capacity { vec_capacity words.old ≤ vec_capacity words.new }
    ensures no_memory { words_for T.BITS (end + n) ≤ vec_capacity words.old
        → vec_capacity words.new ≡ vec_capacity words.old }
    ensures full { OnErr result (vec_capacity words.old < words_for T.BITS (end + n)) }
    ensures unchanged { OnErr result (words.new.items ≡ words.old.items) }
{
    if n > T::BITS && O::goes_by_shifts() {
        let block = O::from_lsb0::<u64>(chunk & (u64::MAX >> (64 - n)));
        push_block::<T, O>(words, end, n, block)?;
        return Ok(());
    }
    push_by_words::<T, O>(words, end, n, chunk)?;
    Ok(())
}

/// Like `push_chunk_in_vec`, of a number in binary, the most significant of the `n` digits first; digits above the `n`
/// lowest are left out.
#[inline(always)]
pub fn push_binary_in_vec<T: BitStore, O: BitOrder>(
    words: &mut Vec<T>,
    end: usize,
    n: u8,
    number: u64,
) -> Result<(), AllocError>
    requires few { n ≤ 64 }
    requires count { length words.old.items ≡ words_for T.BITS end }
    requires fits { end + n < 2 ^ 64 }
    ensures bits { OnOk result (row T.BitStore O.BitOrder words.new.items
        ≡ put (sized T.BITS (row T.BitStore O.BitOrder words.old.items) (end + n)) end (binary n number)) }
    ensures size { OnOk result (length words.new.items ≡ words_for T.BITS (end + n)) }
    ensures room { OnOk result (end + n ≤ T.BITS * length words.new.items) }
    ensures capacity { vec_capacity words.old ≤ vec_capacity words.new }
    ensures no_memory { words_for T.BITS (end + n) ≤ vec_capacity words.old
        → vec_capacity words.new ≡ vec_capacity words.old }
    ensures full { OnErr result (vec_capacity words.old < words_for T.BITS (end + n)) }
    ensures unchanged { OnErr result (words.new.items ≡ words.old.items) }
{
    if n == 0 {
        return Ok(());
    }
    if O::goes_by_shifts() {
        let block = O::from_lsb0::<u64>(digits_from::<O>(number, n, 0));
        push_block::<T, O>(words, end, n, block)?;
        return Ok(());
    }
    push_by_words::<T, O>(words, end, n, number.reverse() >> (64 - n))?;
    Ok(())
}
