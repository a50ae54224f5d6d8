//! Callers of the searches, counts, parts and numbers of the containers; those of views are in `bit_examples`.
ghost use Rattle.std.specs.Prelude.{◌≡◌, ◌<◌, ◌↔◌, EachIndex, IfOk, IfSome, IsTrue, Some, false, slice_get, true};
ghost use Rattle.bit_slice.specs.Patterns.{places_of_pattern};

use bit_addressing::{BitOrder, BitStore, Lsb0, Msb0};
use bit_array::BitArray;
use bit_boxed::BitBox;
use bit_containers::{BitList, BitListMut, BitVec};
use std::alloc::{AllocError, Global};

pub fn bit_at_first<T: BitStore, O: BitOrder>(v: &BitVec<T, O>) -> Option<bool>
    ensures { IfSome result (λ b. b ≡ true) }
{
    match v.first_one() {
        Some(i) => v.get(i),
        None => None,
    }
}

pub fn before_first<T: BitStore, O: BitOrder>(b: &BitBox<T, O>, j: usize) -> Option<bool>
    ensures { IfSome result (λ b. b ≡ true) }
{
    if j >= b.len() {
        return None;
    }
    match b.first_zero() {
        Some(i) => if j < i { b.get(j) } else { None },
        None => b.get(j),
    }
}

pub fn empty_of_members<T: BitStore, O: BitOrder>(v: &BitVec<T, O>) -> bool
    ensures { IsTrue result ↔ EachIndex v.now.list (λ i. slice_get v.now.list i ≡ Some false) }
{
    v.not_any()
}

pub fn counted_without_a_copy<T: BitStore, O: BitOrder>(
    v: &mut BitVec<T, O>,
    b: &BitBox<T, O>,
) -> bool
    ensures { IsTrue result }
{
    let there = b.as_bitslice();
    let count = v.count_and(there);
    v.and_bits(there);
    v.count_ones() == count
}

pub fn how_many_parts<T: BitStore, O: BitOrder>(b: &BitBox<T, O>, n: usize) -> bool
    requires { 0 < n }
    ensures { IsTrue result }
{
    (b.chunks_exact(n).len() == b.len() / n) & (b.chunks(n).len() == b.rchunks(n).len())
}

pub fn same_numbers(a: &BitArray<[u8; 4], Msb0>) -> bool
    ensures { IsTrue result }
{
    (a.load_be() == a.as_bitslice().load_be()) & (a.get_range(8..16).load_be() < 256)
}

/// All places of a pattern in a vector.
pub fn places_in_a_vector(
    v: &BitVec<u64, Lsb0>,
    pattern: &BitVec<u8, Msb0>,
    alloc: Global,
) -> Result<Vec<usize>, AllocError>
    ensures { IfOk result (λ places. places.items ≡ places_of_pattern pattern.now.list v.now.list) }
{
    v.find_all(pattern.as_bitslice()).collect(alloc)
}
