//! Callers of ranks: what each proves stands in its clauses, and none has a file.
ghost use Rattle.std.specs.Prelude.{◌≡◌, ◌-◌, ◌<◌, ◌≤◌, ◌↔◌, false, true, count_by, drop, not, set, IfErr, IfOk, IfSome, IsTrue, Some, length, slice_get, slice_index_or};
ghost use Rattle.bit_slice.specs.Numbered.{ones_before, zeros_before};
ghost use Rattle.bit_slice.specs.Places.{ones_of};

use bit_boxed::BitBox;
use bit_containers::{BitList, BitOrder, BitStore, BitVec};
use bit_ranks::{RankedBits, Ranks};
use std::alloc::{AllocError, Global};

pub fn number_of_found<T: BitStore, O: BitOrder>(ranks: &Ranks<T, O>, k: usize) -> Option<usize>
    ensures { IfSome result (λ number. number ≡ k) }
{
    let i = ranks.select1(k)?;
    Some(ranks.rank1(i))
}

pub fn found_by_number<T: BitStore, O: BitOrder>(ranks: &Ranks<T, O>, i: usize) -> Option<usize>
    requires inside { i < length ranks.now.list }
    requires one { slice_get ranks.now.list i ≡ Some true }
    ensures { result ≡ Some i }
{
    ranks.select1(ranks.rank1(i))
}

pub fn zero_found_by_number<T: BitStore, O: BitOrder>(
    ranks: &Ranks<T, O>,
    i: usize,
) -> Option<usize>
    requires inside { i < length ranks.now.list }
    requires zero { slice_get ranks.now.list i ≡ Some false }
    ensures { result ≡ Some i }
{
    ranks.select0(ranks.rank0(i))
}

pub fn given_back<T: BitStore, O: BitOrder>(alloc: Global, bits: BitBox<T, O>) -> BitBox<T, O>
    ensures { result ≡ bits }
{
    match Ranks::new(alloc, bits) {
        Ok(ranks) => ranks.into_bits(),
        Err(back) => back,
    }
}

pub fn ones_of_box<T: BitStore, O: BitOrder>(
    alloc: Global,
    bits: BitBox<T, O>,
    i: usize,
) -> Result<usize, BitBox<T, O>>
    requires { i ≤ length bits.list }
    ensures { IfOk result (λ count. count ≡ ones_before bits.list i) }
{
    let ranks = Ranks::new(alloc, bits)?;
    Ok(ranks.rank1(i))
}

pub fn ranks_of_vec<T: BitStore, O: BitOrder>(
    alloc: Global,
    bits: BitVec<T, O>,
    i: usize,
) -> Result<usize, BitVec<T, O>>
    requires { i ≤ length bits.list }
    ensures count { IfOk result (λ count. count ≡ ones_before bits.list i) }
    ensures back { IfErr result (λ back. back ≡ bits) }
{
    let ranks = Ranks::from_vec(alloc, bits)?;
    Ok(ranks.rank1(i))
}

#[tactic(auto, using(bit_slice::specs::Comparisons::equal_lists))]
pub fn same_bits<T: BitStore, O: BitOrder>(a: &Ranks<T, O>, b: &Ranks<T, O>) -> bool
    ensures { IsTrue result ↔ (a.now.list ≡ b.now.list) }
{
    a == b
}

pub fn same_bits_as<T: BitStore, O: BitOrder, U: BitStore, P: BitOrder>(
    a: &Ranks<T, O>,
    b: &Ranks<U, P>,
) -> bool
    ensures { IsTrue result ↔ (a.now.list ≡ b.now.list) }
{
    a.eq_bits(b.as_bitslice())
}

pub fn bit_at<T: BitStore, O: BitOrder>(ranks: &Ranks<T, O>, i: usize) -> bool
    requires { i < length ranks.now.list }
    ensures { slice_get ranks.now.list i ≡ Some result }
{
    ranks[i]
}

pub fn how_many_ones_from<T: BitStore, O: BitOrder>(ranks: &Ranks<T, O>, k: usize) -> usize
    ensures { result ≡ count_by (λ b. b) ranks.now.list - k }
{
    ranks.iter_ones_from(k).len()
}

pub fn ones_from_in_vec<T: BitStore, O: BitOrder>(
    alloc: Global,
    ranks: &Ranks<T, O>,
    k: usize,
) -> Result<Vec<usize>, AllocError>
    ensures { IfOk result (λ v. v.items ≡ drop k (ones_of ranks.now.list)) }
{
    ranks.iter_ones_from(k).collect::<Vec<usize>>(alloc)
}

pub fn how_many_ranked_ones_from<T: BitStore, O: BitOrder>(
    ranked: &RankedBits<T, O>,
    k: usize,
) -> usize
    ensures { result ≡ count_by (λ b. b) ranked.now.list - k }
{
    ranked.iter_ones_from(k).len()
}

pub fn counted_after_a_write<T: BitStore, O: BitOrder>(
    ranked: &mut RankedBits<T, O>,
    i: usize,
    bit: bool,
    j: usize,
) -> usize
    requires written { i < length ranked.old.list }
    requires counted { j ≤ length ranked.old.list }
    ensures { result ≡ ones_before (set ranked.old.list i bit) j }
{
    ranked.set(i, bit);
    ranked.rank1(j)
}

pub fn zeros_after_a_flip<T: BitStore, O: BitOrder>(
    ranked: &mut RankedBits<T, O>,
    i: usize,
    j: usize,
) -> usize
    requires flipped { i < length ranked.old.list }
    requires counted { j ≤ length ranked.old.list }
    ensures { result ≡ zeros_before (set ranked.old.list i (not (slice_index_or ranked.old.list i false))) j }
{
    ranked.flip(i);
    ranked.rank0(j)
}

pub fn found_after_a_write<T: BitStore, O: BitOrder>(
    ranked: &mut RankedBits<T, O>,
    i: usize,
    k: usize,
) -> Option<usize>
    requires { i < length ranked.old.list }
    ensures { result ≡ slice_get (ones_of (set ranked.old.list i false)) k }
{
    ranked.set(i, false);
    ranked.select1(k)
}

pub fn ranked_and_back<T: BitStore, O: BitOrder>(alloc: Global, bits: BitBox<T, O>) -> BitBox<T, O>
    ensures { result ≡ bits }
{
    match RankedBits::new(alloc, bits) {
        Ok(ranked) => ranked.into_bits(),
        Err(back) => back,
    }
}
