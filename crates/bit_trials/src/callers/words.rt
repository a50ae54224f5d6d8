//! Callers that prove exact words. Where words are computed from other words, one hint opens what computes.
ghost use Rattle.std.specs.Prelude.{◌≡◌, ◌*◌, ◌<◌, ◌≤◌, true, false, [], ◌∷◌, if◌then◌else◌, length, map, not, set, IfOk};
ghost use Rattle.bit_addressing.specs.Row.{moved};
ghost use Rattle.bit_addressing.specs.Typed.{row};
ghost use Rattle.bit_addressing.specs.declared.length.TheConstants.{MAX_BITS};

use bit_addressing::move_bits;
use bit_containers::{BitListMut, BitOrder, BitStore, BitVec, GrowError, Lsb0, Msb0};
use bit_rows::{flip_words, write_bit};
use std::alloc::{AllocError, Global};

pub fn permission_byte(alloc: Global, write: bool) -> Result<Vec<u8>, GrowError>
    ensures { IfOk result (λ words. words.items ≡ (if write then 224 else 160) ∷ []) }
{
    let mut v = BitVec::<u8, Msb0>::new(alloc);
    v.push(true)?;
    v.push(write)?;
    v.push(true)?;
    Ok(v.into_vec())
}

pub fn in_a_wide_word(alloc: Global) -> Result<Vec<u64>, GrowError>
    ensures { IfOk result (λ words. words.items ≡ 5 ∷ []) }
{
    let mut v = BitVec::<u64, Lsb0>::new(alloc);
    v.push(true)?;
    v.push(false)?;
    v.push(true)?;
    Ok(v.into_vec())
}

pub fn five_pushes(alloc: Global, bit: bool) -> Result<Vec<u64>, GrowError>
    ensures { IfOk result (λ words. words.items ≡ (if bit then 21 else 20) ∷ []) }
{
    let mut v = BitVec::<u64, Lsb0>::new(alloc);
    v.push(bit)?;
    v.push(false)?;
    v.push(true)?;
    v.push(false)?;
    v.push(true)?;
    Ok(v.into_vec())
}

pub fn pushed_and_set(alloc: Global) -> Result<Vec<u8>, GrowError>
    ensures { IfOk result (λ words. words.items ≡ 0xc0 ∷ []) }
{
    let mut v = BitVec::<u8, Msb0>::new(alloc);
    v.push(true)?;
    v.push(false)?;
    v.set(1, true);
    Ok(v.into_vec())
}

#[tactic(auto, unfolding(bit_containers::proofs::OnLiterals::words_on_literals))]
pub fn popped_and_set(words: Vec<u8>) -> Vec<u8>
    requires { words.items ≡ 0xdc ∷ [] }
    ensures { result.items ≡ 221 ∷ [] }
{
    let mut v = BitVec::<u8, Lsb0>::from_vec(words);
    v.pop();
    v.set(0, true);
    v.into_vec()
}

#[tactic(auto, unfolding(bit_containers::proofs::OnLiterals::clean_on_literals))]
pub fn cut_and_cleared(words: Vec<u8>) -> Vec<u8>
    requires { words.items ≡ 0xdc ∷ [] }
    ensures { result.items ≡ 0x1c ∷ [] }
{
    let mut v = BitVec::<u8, Lsb0>::from_vec(words);
    v.truncate(5);
    v.force_align();
    v.set_uninitialized(false);
    v.into_vec()
}

/// Equal lists, equal words: for every word type and order.
pub fn canonical<T: BitStore, O: BitOrder>(a: BitVec<T, O>, b: BitVec<T, O>) -> (Vec<T>, Vec<T>)
    requires { a.list ≡ b.list }
    ensures { result.0.items ≡ result.1.items }
{
    let (mut a, mut b) = (a, b);
    a.force_align();
    a.set_uninitialized(false);
    b.force_align();
    b.set_uninitialized(false);
    (a.into_vec(), b.into_vec())
}

/// A copy has the words for the list, wherever the list stood.
pub fn copied(v: &BitVec<u8, Lsb0>) -> Result<Vec<u8>, AllocError>
    requires { v.now.list ≡ true ∷ false ∷ true ∷ [] }
    ensures { IfOk result (λ words. words.items ≡ 5 ∷ []) }
{
    let copy = v.clone()?;
    Ok(copy.into_vec())
}

/// Copies of equal lists have equal words, wherever the lists stood.
pub fn copied_alike<T: BitStore, O: BitOrder>(
    a: &BitVec<T, O>,
    b: &BitVec<T, O>,
) -> Result<(Vec<T>, Vec<T>), AllocError>
    requires { a.now.list ≡ b.now.list }
    ensures { IfOk result (λ both. both.0.items ≡ both.1.items) }
{
    let first = a.clone()?;
    let second = b.clone()?;
    Ok((first.into_vec(), second.into_vec()))
}

/// The row of a vector is that of its words.
pub fn shown_row<T: BitStore, O: BitOrder>(v: BitVec<T, O>) -> Vec<T>
    ensures { row T.BitStore O.BitOrder result.items ≡ v.row }
{
    v.into_vec()
}

/// Whole words after whole words.
pub fn words_of_both(mut v: BitVec<u8, Msb0>, more: &[u8]) -> Result<Vec<u8>, GrowError>
    requires head { v.head ≡ 0 }
    requires words { v.words ≡ 7 ∷ 9 ∷ [] }
    requires whole { length v.list ≡ 16 }
    requires more { more.now ≡ 5 ∷ [] }
    ensures { IfOk result (λ words. words.items ≡ 7 ∷ 9 ∷ 5 ∷ []) }
{
    v.extend_from_raw_slice(more)?;
    Ok(v.into_vec())
}

pub fn close_gap<T: BitStore, O: BitOrder>(words: &mut [T])
    requires room { T.BITS * length words.old ≤ MAX_BITS }
    requires within { 24 ≤ T.BITS * length words.old }
    ensures { row T.BitStore O.BitOrder words.new ≡ moved (row T.BitStore O.BitOrder words.old) 16 8 8 }
{
    move_bits::<T, O>(words, 16, 8, 8);
}

pub fn flip_and_set<T: BitStore, O: BitOrder>(words: &mut [T], at: usize)
    requires { at < T.BITS * length words.old }
    ensures { row T.BitStore O.BitOrder words.new ≡ set (map not (row T.BitStore O.BitOrder words.old)) at true }
{
    flip_words::<T, O>(words);
    write_bit::<T, O>(words, at, true);
}
