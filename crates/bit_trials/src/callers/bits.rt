//! Callers that prove the list.
ghost use Rattle.std.specs.Prelude.{◌≡◌, ◌+◌, ◌-◌, ◌*◌, ◌<◌, ◌≤◌, ◌↔◌, Some, Ok, Err, true, false, [], ◌∷◌, length, set, insert, swap, slice_get, slice_range, OnOk, OnErr, IfOk, not};
ghost use Rattle.bit_addressing.specs.declared.length.TheConstants.{MAX_BITS};

use bit_containers::{BitList, BitListMut, BitOrder, BitStore, BitVec, GrowError, Lsb0, Msb0};
use bit_rows::write_bit;
use std::alloc::{AllocError, Global};

pub fn push_then_pop<T: BitStore, O: BitOrder>(
    v: &mut BitVec<T, O>,
    bit: bool,
) -> Result<Option<bool>, GrowError>
    ensures value { IfOk result (λ r. r ≡ Some bit) }
    ensures list { OnOk result (v.new.list ≡ v.old.list) }
{
    v.push(bit)?;
    Ok(v.pop())
}

pub fn set_then_get(v: &mut BitVec<u8, Msb0>, i: usize) -> Option<bool>
    requires { i < length v.old.list }
    ensures value { result ≡ Some true }
    ensures list { v.new.list ≡ set v.old.list i true }
{
    v.set(i, true);
    v.get(i)
}

/// The bits of a permission: read, write, execute.
pub fn permission(alloc: Global, write: bool) -> Result<BitVec<u8, Msb0>, GrowError>
    ensures { IfOk result (λ v. v.list ≡ true ∷ write ∷ false ∷ []) }
{
    let mut bits = BitVec::new(alloc);
    bits.push(true)?;
    bits.push(write)?;
    bits.push(false)?;
    Ok(bits)
}

pub fn insert_in_the_middle<T: BitStore, O: BitOrder>(v: &mut BitVec<T, O>) -> Result<(), GrowError>
    requires { 3 ≤ length v.old.list }
    ensures { OnOk result (v.new.list ≡ insert v.old.list 2 true) }
{
    v.insert(2, true)?;
    Ok(())
}

pub fn remove_of_known<T: BitStore, O: BitOrder>(v: &mut BitVec<T, O>) -> bool
    requires { v.old.list ≡ true ∷ false ∷ true ∷ [] }
    ensures value { result ≡ false }
    ensures list { v.new.list ≡ true ∷ true ∷ [] }
{
    v.remove(1)
}

pub fn refused_leaves_all<T: BitStore, O: BitOrder>(
    v: &mut BitVec<T, O>,
    bit: bool,
) -> Result<(), GrowError>
    ensures list { OnErr result (v.new.list ≡ v.old.list) }
    ensures too_long { (result ≡ Err GrowError.TooLong) ↔ (MAX_BITS < length v.old.list + 1) }
{
    v.push(bit)
}

pub fn ends(v: &BitVec<u8, Lsb0>) -> (Option<bool>, Option<bool>, bool)
    requires { v.now.list ≡ true ∷ false ∷ [] }
    ensures first { result.0 ≡ Some true }
    ensures last { result.1 ≡ Some false }
    ensures empty { result.2 ≡ false }
{
    (v.first(), v.last(), v.is_empty())
}

pub fn put_back<T: BitStore, O: BitOrder>(v: &mut BitVec<T, O>) -> Result<(), GrowError>
    ensures ok { result ≡ Ok tt }
    ensures list { v.new.list ≡ v.old.list }
{
    if let Some(bit) = v.pop() {
        return v.push(bit);
    }
    Ok(())
}

pub fn lengths_stay<T: BitStore, O: BitOrder>(v: &mut BitVec<T, O>)
    requires { 10 ≤ length v.old.list }
    ensures { length v.new.list ≡ length v.old.list }
{
    v.copy_within(1..4, 6);
    v.force_align();
    v.fill(false);
    v.set(9, true);
}

pub fn lengths_shrink<T: BitStore, O: BitOrder>(v: &mut BitVec<T, O>)
    requires { 10 ≤ length v.old.list }
    ensures { length v.new.list ≡ 6 }
{
    v.truncate(9);
    v.pop();
    let _a = v.remove(7);
    let _b = v.swap_remove(0);
    v.set(5, true);
}

pub fn through_view<T: BitStore, O: BitOrder>(v: &mut BitVec<T, O>)
    requires { 0 < length v.old.list }
    ensures { length v.new.list ≡ length v.old.list }
{
    v.as_mut_bitslice().fill(true);
    v.set(0, true);
}

pub fn through_words<T: BitStore, O: BitOrder>(v: &mut BitVec<T, O>, word: T)
    requires some { 0 < length v.old.list }
    requires words { 0 < length v.old.words }
    ensures { length v.new.list ≡ length v.old.list }
{
    v.as_raw_mut_slice()[0] = word;
    v.set(0, true);
}

#[tactic(auto, unfolding(bit_containers::proofs::OnLiterals::words_on_literals))]
pub fn words_written(v: &mut BitVec<u8, Lsb0>)
    requires words { v.old.words ≡ 0 ∷ [] }
    requires head { v.old.head ≡ 0 }
    requires list { v.old.list ≡ false ∷ false ∷ false ∷ false ∷ [] }
    ensures { v.new.list ≡ true ∷ false ∷ true ∷ false ∷ [] }
{
    v.as_raw_mut_slice()[0] = 0xf5;
}

pub fn written_by_a_function<T: BitStore, O: BitOrder>(v: &mut BitVec<T, O>, at: usize)
    requires { at < T.BITS * length v.old.words }
    ensures { v.new.row ≡ set v.old.row at true }
{
    write_bit::<T, O>(v.as_raw_mut_slice(), at, true);
}

pub fn exchanged<T: BitStore, O: BitOrder>(v: &mut BitVec<T, O>, i: usize, bit: bool) -> bool
    requires { i < length v.old.list }
    ensures old { Some result ≡ slice_get v.old.list i }
    ensures list { v.new.list ≡ set v.old.list i bit }
{
    let old = v[i];
    v.replace(i, bit);
    old
}

pub fn ends_swapped<T: BitStore, O: BitOrder>(v: &mut BitVec<T, O>)
    requires { 1 < length v.old.list }
    ensures { v.new.list ≡ swap v.old.list 0 (length v.old.list - 1) }
{
    let last = v.len() - 1;
    v.swap(0, last);
}

pub fn overwritten<T: BitStore, O: BitOrder, U: BitStore, P: BitOrder>(
    v: &mut BitVec<T, O>,
    source: &BitVec<U, P>,
)
    requires { length source.now.list ≡ length v.old.list }
    ensures { v.new.list ≡ source.now.list }
{
    v.clone_from_bitslice(source.as_bitslice());
}

pub fn counts(v: &BitVec<u16, Msb0>) -> (usize, usize, bool, bool)
    requires { v.now.list ≡ true ∷ false ∷ true ∷ [] }
    ensures ones { result.0 ≡ 2 }
    ensures zeros { result.1 ≡ 1 }
    ensures any { result.2 ≡ true }
    ensures all { result.3 ≡ false }
{
    (v.count_ones(), v.count_zeros(), v.any(), v.all())
}

pub fn part_copied<T: BitStore, O: BitOrder>(
    alloc: Global,
    v: &BitVec<T, O>,
    from: usize,
    upto: usize,
) -> Result<BitVec<T, O>, AllocError>
    requires ordered { from ≤ upto }
    requires within { upto ≤ length v.now.list }
    ensures { IfOk result (λ part. part.list ≡ slice_range v.now.list from upto) }
{
    BitVec::from_bitslice(alloc, v.get_range(from..upto))
}

pub fn moved_bit(v: &mut BitVec<u8, Lsb0>) -> Option<bool>
    requires { v.old.list ≡ true ∷ false ∷ false ∷ [] }
    ensures { result ≡ Some true }
{
    v.copy_within(0..1, 2);
    v.get(2)
}

/// A bit that is set on both sides is set in the intersection.
pub fn set_in_both<T: BitStore, O: BitOrder>(
    a: BitVec<T, O>,
    b: BitVec<T, O>,
    i: usize,
) -> Option<bool>
    requires left { slice_get a.list i ≡ Some true }
    requires right { slice_get b.list i ≡ Some true }
    ensures { result ≡ Some true }
{
    (a & b).get(i)
}

/// A clear bit is set after all bits were flipped.
pub fn set_by_flipping<T: BitStore, O: BitOrder>(v: &mut BitVec<T, O>, i: usize) -> Option<bool>
    requires { slice_get v.old.list i ≡ Some false }
    ensures { result ≡ Some true }
{
    v.flip_all();
    v.get(i)
}
