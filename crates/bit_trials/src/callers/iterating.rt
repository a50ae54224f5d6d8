//! Callers that go over the bits.
ghost use Rattle.std.specs.Prelude.{◌≡◌, ◌+◌, length, slice_get, count_by, reverse, IfOk};

use bit_containers::boxed::IntoIter;
use bit_containers::{BitOrder, BitStore, BitVec};
use std::alloc::{AllocError, Global};

pub fn how_many_true<T: BitStore, O: BitOrder>(v: &BitVec<T, O>) -> usize
    ensures { result ≡ count_by (λ bit. bit) v.now.list }
{
    v.iter().filter(|bit| *bit).count()
}

pub fn third<T: BitStore, O: BitOrder>(v: &BitVec<T, O>) -> Option<bool>
    ensures { result ≡ slice_get v.now.list 2 }
{
    v.iter().nth(2)
}

pub fn listed<T: BitStore, O: BitOrder>(
    alloc: Global,
    v: &BitVec<T, O>,
) -> Result<Vec<bool>, AllocError>
    ensures { IfOk result (λ all. all.items ≡ v.now.list) }
{
    v.iter().collect::<Vec<bool>>(alloc)
}

pub fn backward<T: BitStore, O: BitOrder>(
    alloc: Global,
    v: &BitVec<T, O>,
) -> Result<Vec<bool>, AllocError>
    ensures { IfOk result (λ all. all.items ≡ reverse v.now.list) }
{
    v.iter().rev().collect::<Vec<bool>>(alloc)
}

pub fn handed_over<T: BitStore, O: BitOrder>(v: &BitVec<T, O>) -> usize
    ensures { result ≡ length v.now.list }
{
    v.into_iter().count()
}

pub fn after_third<T: BitStore, O: BitOrder>(v: BitVec<T, O>) -> (Option<bool>, IntoIter<T, O>)
    ensures bit { result.0 ≡ slice_get v.list 2 }
    ensures words { result.1.words ≡ v.words }
    ensures end { result.1.head + length result.1.list ≡ v.head + length v.list }
{
    let mut bits = v.into_iter();
    let third = bits.nth(2);
    (third, bits)
}
