//! Callers that take bits out of a vector, and put others in their place.
ghost use Rattle.std.specs.Prelude.{◌≡◌, ◌+◌, ◌≤◌, ◌++◌, true, false, [], ◌∷◌, take, drop, length, slice_get, slice_range, count_by, IfOk, OnOk, OnErr};
ghost use Rattle.std.specs.List.{dedup, filter, splice};
ghost use Rattle.std.proofs.Math.Bool.{beq};
ghost use Rattle.bit_slice.specs.BitSlice.{list_of};
ghost use Rattle.bit_containers.specs.Closures.{keep_where};

use bit_containers::{BitOrder, BitSlice, BitStore, BitVec, GrowError, Lsb0, Msb0};
use std::alloc::AllocError;

/// A range is gone though its first bit alone was asked for.
pub fn drained_once<T: BitStore, O: BitOrder>(v: &mut BitVec<T, O>) -> Option<bool>
    requires { 3 ≤ length v.old.list }
    ensures first { result ≡ slice_get v.old.list 1 }
    ensures list { v.new.list ≡ splice v.old.list 1 3 [] }
{
    let mut drain = v.drain(1..3);
    drain.next()
}

pub fn cut_in_two<T: BitStore, O: BitOrder>(
    v: &mut BitVec<T, O>,
    at: usize,
) -> Result<BitVec<T, O>, AllocError>
    requires { at ≤ length v.old.list }
    ensures front { OnOk result (v.new.list ≡ take at v.old.list) }
    ensures rest { IfOk result (λ rest. rest.list ≡ drop at v.old.list) }
    ensures kept { OnErr result (v.new.list ≡ v.old.list) }
{
    v.split_off(at)
}

/// A function that counts its calls decides which bits stay.
#[tactic(auto, using(bit_containers::proofs::Calling::kept_where))]
pub fn counted_and_kept<T: BitStore, O: BitOrder>(v: &mut BitVec<T, O>) -> usize
    ensures { v.new.list ≡ keep_where (λ index bit. bit) 0 v.old.list }
{
    let mut count = 0usize;
    v.retain(|_, bit| {
        count = count.wrapping_add(1);
        *bit
    });
    count
}

/// The true bits stay.
#[tactic(auto, using(bit_containers::proofs::Calling::kept_filter))]
pub fn ones_kept<T: BitStore, O: BitOrder>(v: &mut BitVec<T, O>)
    ensures { v.new.list ≡ filter (λ bit. bit) v.old.list }
{
    v.retain(|_, bit| *bit);
}

/// The replaced bits are counted, and then replaced.
pub fn counted_and_replaced(v: &mut BitVec<u8, Lsb0>, bits: Vec<bool>) -> Result<usize, GrowError>
    requires { 4 ≤ length v.old.list }
    ensures ones { IfOk result (λ ones. ones ≡ count_by (λ bit. bit) (slice_range v.old.list 1 4)) }
    ensures list { OnOk result (v.new.list ≡ splice v.old.list 1 4 bits.items) }
    ensures kept { OnErr result (v.new.list ≡ v.old.list) }
{
    let mut splice = v.splice(1..4, bits);
    let ones = splice.items().filter(|bit| *bit).count();
    splice.finish()?;
    Ok(ones)
}

/// A range gives way to the bits of a view; what could not grow is as it was.
pub fn replaced_by_a_view<T: BitStore, O: BitOrder>(
    v: &mut BitVec<u8, Lsb0>,
    view: BitSlice<'_, T, O>,
) -> Result<(), GrowError>
    requires { 4 ≤ length v.old.list }
    ensures list { OnOk result (v.new.list ≡ splice v.old.list 1 4 (list_of view.entry)) }
    ensures kept { OnErr result (v.new.list ≡ v.old.list) }
{
    v.replace_range(1..4, view)
}

pub fn emptied(v: &mut BitVec<u32, Msb0>)
    ensures { v.new.list ≡ [] }
{
    v.clear();
}

pub fn without_equal_neighbours<T: BitStore, O: BitOrder>(v: &mut BitVec<T, O>)
    ensures { v.new.list ≡ dedup beq v.old.list }
{
    v.dedup();
}
