//! Callers that need a rule of lists: the line at the head of this module switches the rules on.
#![tactic(auto, using(bit_addressing::proofs::lists::Shown::flipped_twice, bit_slice::proofs::Parts::row_size, bit_slice::specs::Comparisons::equal_lists, bit_slice::proofs::Rules::and_with_itself, bit_slice::proofs::Rules::and_with_true, bit_slice::proofs::Rules::or_with_false, bit_slice::proofs::Rules::xor_with_itself, bit_slice::proofs::Rules::xor_twice, bit_slice::proofs::Rules::not_of_and, bit_slice::proofs::Rules::not_of_or))]

ghost use Rattle.std.specs.Prelude.{◌≡◌, ◌+◌, ◌*◌, ◌<◌, ◌≤◌, IfOk, Some, true, false, not, map, length, replicate, count_by, slice_get};
ghost use Rattle.bit_slice.specs.Operators.{and_of, or_of};

use bit_containers::{BitList, BitListMut, BitOrder, BitSlice, BitStore, BitVec, Lsb0};

/// A list combined with itself by `&` stays.
pub fn with_itself<T: BitStore, O: BitOrder>(a: BitVec<T, O>, b: BitVec<T, O>) -> BitVec<T, O>
    requires { a.list ≡ b.list }
    ensures { result.list ≡ a.list }
{
    a & b
}

/// A mask of ones changes nothing.
pub fn masked<T: BitStore, O: BitOrder>(a: BitVec<T, O>, mask: BitVec<T, O>) -> BitVec<T, O>
    requires { mask.list ≡ replicate (length a.list) true }
    ensures { result.list ≡ a.list }
{
    a & mask
}

/// Zeros set nothing.
pub fn with_zeros<T: BitStore, O: BitOrder>(a: BitVec<T, O>, zeros: BitVec<T, O>) -> BitVec<T, O>
    requires { zeros.list ≡ replicate (length a.list) false }
    ensures { result.list ≡ a.list }
{
    a | zeros
}

/// Flipped by a view twice, the list is as it was.
pub fn toggled_twice<T: BitStore, O: BitOrder>(v: &mut BitVec<T, O>, view: BitSlice<'_, u8, Lsb0>)
    ensures { v.new.list ≡ v.old.list }
{
    v.xor_bits(view);
    v.xor_bits(view);
}

/// What is in neither list.
pub fn neither<T: BitStore, O: BitOrder>(a: BitVec<T, O>, b: BitVec<T, O>) -> BitVec<T, O>
    requires { length a.list ≤ length b.list }
    ensures { result.list ≡ and_of (map not a.list) (map not b.list) }
{
    !(a | b)
}

/// The zeros are what the ones leave of the length.
pub fn zeros<T: BitStore, O: BitOrder>(v: &BitVec<T, O>) -> usize
    ensures { result + count_by (λ bit. bit) v.now.list ≡ length v.now.list }
{
    v.len() - v.count_ones()
}
