//! Callers that make calls one after another, and know what both together leave.
ghost use Rattle.std.specs.Prelude.{◌≡◌, ◌↔◌, ◌*◌, ◌≤◌, ◌++◌, ◌∷◌, [], IsTrue, IfOk, OnOk, None, drop, length, take};
ghost use Rattle.std.specs.Box.{boxed_slice_items};
ghost use Rattle.bit_addressing.specs.Row.{moved, touched};
ghost use Rattle.bit_addressing.specs.Typed.{row};
ghost use Rattle.std.specs.declared.cmp.Ordering.TheVariants.{Equal};
ghost use Rattle.bit_addressing.specs.declared.length.TheConstants.{MAX_BITS};

use bit_containers::array::{BitArray, BitViewSized};
use bit_containers::boxed::BitBox;
use bit_containers::vec::IntoIter;
use bit_containers::{
    BitListMut, BitOrder, BitStore, BitVec, Command, GrowError, IntoBitVec, Meter, Reply, Stop, run,
};
use std::alloc::{AllocError, Global};
use std::boxed::BoxedSlice;
use std::cmp::Ordering;

/// Aligned and cleared, vectors of one type have the same list exactly where they have the same length and the
/// same words.
pub fn same_words<T: BitStore, O: BitOrder>(
    a: BitVec<T, O>,
    b: BitVec<T, O>,
) -> ((usize, Vec<T>), (usize, Vec<T>))
    ensures { ((result.0.0 ≡ result.1.0) × (result.0.1.items ≡ result.1.1.items)) ↔ (a.list ≡ b.list) }
{
    let (mut a, mut b) = (a, b);
    a.force_align();
    a.set_uninitialized(false);
    b.force_align();
    b.set_uninitialized(false);
    ((a.len(), a.into_vec()), (b.len(), b.into_vec()))
}

/// Copies of vectors with the same list have the same words.
pub fn copied_words<T: BitStore, O: BitOrder>(
    a: &BitVec<T, O>,
    b: &BitVec<T, O>,
) -> Result<(Vec<T>, Vec<T>), AllocError>
    requires { a.now.list ≡ b.now.list }
    ensures { IfOk result (λ words. words.0.items ≡ words.1.items) }
{
    let (a, b) = (a.clone()?, b.clone()?);
    Ok((a.into_vec(), b.into_vec()))
}

/// Copies of boxes with the same list have the same words.
pub fn copied_box_words<T: BitStore, O: BitOrder>(
    a: &BitBox<T, O>,
    b: &BitBox<T, O>,
) -> Result<(BoxedSlice<T>, BoxedSlice<T>), AllocError>
    requires { a.now.list ≡ b.now.list }
    ensures { IfOk result (λ words. boxed_slice_items words.0 ≡ boxed_slice_items words.1) }
{
    let (a, b) = (a.clone()?, b.clone()?);
    Ok((a.into_boxed_slice(), b.into_boxed_slice()))
}

/// One list of commands over two vectors with the same list, of any words, orders and heads: the same replies,
/// and the same list afterwards.
pub fn replies_alike<T: BitStore, O: BitOrder, U: BitStore, P: BitOrder>(
    a: &mut BitVec<T, O>,
    b: &mut BitVec<U, P>,
    commands: &[Command],
    alloc: Global,
) -> Result<(Vec<Reply>, Vec<Reply>), Stop>
    requires { a.old.list ≡ b.old.list }
    ensures replies { IfOk result (λ replies. replies.0.items ≡ replies.1.items) }
    ensures lists { OnOk result (a.new.list ≡ b.new.list) }
{
    let mut first = Vec::new(alloc);
    let mut second = Vec::new(alloc);
    run(a, commands, &mut first)?;
    run(b, commands, &mut second)?;
    Ok((first, second))
}

/// The last two of three bytes moved to the front: two words are written at most, and six read.
pub fn closed_up<O: BitOrder>(v: &mut BitVec<u8, O>) -> Meter
    requires aligned { v.old.head ≡ 0 }
    requires size { length v.old.list ≡ 24 }
    ensures list { v.new.list ≡ moved v.old.list 8 0 16 }
    ensures row { v.new.row ≡ moved v.old.row 8 0 16 }
    ensures writes { result.writes ≤ 2 }
    ensures reads { result.reads ≤ 6 }
{
    v.copy_within_counted(8..24, 0)
}

/// Like `closed_up`, of a box.
pub fn closed_up_in_a_box<O: BitOrder>(b: &mut BitBox<u8, O>) -> Meter
    requires aligned { b.old.head ≡ 0 }
    requires size { length b.old.list ≡ 24 }
    ensures list { b.new.list ≡ moved b.old.list 8 0 16 }
    ensures row { b.new.row ≡ moved b.old.row 8 0 16 }
    ensures writes { result.writes ≤ 2 }
    ensures reads { result.reads ≤ 6 }
{
    b.copy_within_counted(8..24, 0)
}

/// Like `closed_up`, of an array, whose row is its list.
pub fn closed_up_in_an_array<A: BitViewSized, O: BitOrder>(a: &mut BitArray<A, O>) -> Meter
    requires { 24 ≤ A.Store.BITS * A.count }
    ensures list { row A.Store.BitStore O.BitOrder (A.words a.new)
        ≡ moved (row A.Store.BitStore O.BitOrder (A.words a.old)) 8 0 16 }
    ensures writes { result.writes ≤ touched A.Store.BITS 0 16 }
    ensures reads { result.reads ≤ 3 * touched A.Store.BITS 0 16 }
{
    a.copy_within_counted(8..24, 0)
}

/// Words that are taken in come out again.
pub fn words_kept<T: BitStore, O: BitOrder>(words: Vec<T>) -> Vec<T>
    requires { T.BITS * length words.items ≤ MAX_BITS }
    ensures { result.items ≡ words.items }
{
    BitVec::<T, O>::from_vec(words).into_vec()
}

/// A vector that becomes a box, and a vector again.
pub fn boxed_and_back<T: BitStore, O: BitOrder>(v: BitVec<T, O>) -> Result<BitVec<T, O>, AllocError>
    ensures list { IfOk result (λ back. back.list ≡ v.list) }
    ensures head { IfOk result (λ back. back.head ≡ v.head) }
{
    v.into_boxed_bitslice()?.into_bitvec()
}

/// A vector cut in two, and the second part appended again.
pub fn cut_and_joined<T: BitStore, O: BitOrder>(
    v: &mut BitVec<T, O>,
    at: usize,
) -> Result<(), GrowError>
    requires { at ≤ length v.old.list }
    ensures { OnOk result (v.new.list ≡ v.old.list) }
{
    let mut rest = v.split_off(at)?;
    v.append(&mut rest)
}

/// A copy cut in two: the first part with one more bit, the second part through a box. Calls that fail with
/// `AllocError` and calls that fail with `GrowError` stand in one function.
pub fn copied_and_cut<T: BitStore, O: BitOrder>(
    v: &BitVec<T, O>,
    at: usize,
    bit: bool,
) -> Result<(BitVec<T, O>, BitVec<T, O>), GrowError>
    requires { at ≤ length v.now.list }
    ensures first { IfOk result (λ parts. parts.0.list ≡ take at v.now.list ++ bit ∷ []) }
    ensures second { IfOk result (λ parts. parts.1.list ≡ drop at v.now.list) }
{
    let mut first = v.clone()?;
    let second = first.split_off(at)?.into_boxed_bitslice()?.into_bitvec()?;
    first.push(bit)?;
    Ok((first, second))
}

/// A vector flipped twice has the same words, dead bits included.
#[tactic(auto, using(bit_addressing::proofs::lists::Shown::flipped_twice))]
pub fn flipped_twice<T: BitStore, O: BitOrder>(v: BitVec<T, O>) -> Vec<T>
    ensures { result.items ≡ v.words }
{
    let _words = v.as_raw_slice();
    (!!v).into_vec()
}

/// After its last bit an iterator that owns its bits gives None for good, from either end.
pub fn after_the_end<T: BitStore, O: BitOrder>(
    bits: &mut IntoIter<T, O>,
) -> (Option<bool>, Option<bool>)
    requires { bits.old.list ≡ [] }
    ensures first { result.0 ≡ None }
    ensures last { result.1 ≡ None }
    ensures stays { bits.new.list ≡ [] }
{
    (bits.next(), bits.next_back())
}

/// Vectors are `Equal` in order exactly where they are equal.
#[tactic(auto, using(bit_slice::specs::Comparisons::equal_lists, bit_slice::proofs::Comparing::equal_where_equal))]
pub fn compared<T: BitStore, O: BitOrder>(a: &BitVec<T, O>, b: &BitVec<T, O>) -> (Ordering, bool)
    ensures order { (result.0 ≡ Equal) ↔ (a.now.list ≡ b.now.list) }
    ensures equality { IsTrue result.1 ↔ (a.now.list ≡ b.now.list) }
{
    (a.cmp(b), *a == *b)
}
