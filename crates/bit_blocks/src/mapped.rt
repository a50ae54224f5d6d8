//! Numbers below 65536 as the true bits of a vector of that length.
ghost use Rattle.std.specs.Prelude.{◌≡◌, ◌≤◌, ◌<◌, ◌||◌, ◌↔◌, ℕ, Bool, Some, true, [], IfOk, IsTrue, false, length, not, set, slice_get};
ghost use Rattle.bit_slice.specs.Places.{ones_of};
ghost use Rattle.bit_blocks.specs.Bits.{AreBits};
ghost use Rattle.bit_blocks.specs.Numbers.{Ascends, Combines, Gains, GainsBetween, Loses, LosesBetween, count_below, count_where, has};
ghost use Rattle.bit_blocks.specs.Operation.{made_by};
ghost use Rattle.bit_blocks.specs.Runs.{AreRuns, numbers_of_run, run_numbers, runs_of};

use crate::iter::OnesLeft;
use crate::operation::Operation;
use crate::ranged::Run;
use bit_addressing::{BitOrder, BitStore, Lsb0};
use bit_array::BitArray;
use bit_containers::{And, BitList, BitListMut, BitOperator, BitVec, Or, Xor};
use bit_slice::AndNot;
use std::alloc::{AllocError, Global};

/// The bits of a block: bit `k` says whether `k` is in it.
pub(crate) type Bits = BitVec<u64, Lsb0>;

// How many bits there are.
pub(crate) const COUNT: usize = 65536;

// No number.
#[tactic(auto, using(crate::proofs::Bits::none_ones))]
pub(crate) fn empty(alloc: Global) -> Result<Bits, AllocError>
    ensures size { IfOk result (λ bits. AreBits bits.list) }
    ensures none { IfOk result (λ bits. ones_of bits.list ≡ []) }
{
    let Ok(bits) = BitVec::repeat(alloc, false, COUNT) else {
        return Err(AllocError);
    };
    Ok(bits)
}

// The count of numbers.
#[tactic(auto, using(crate::proofs::Bits::ones_count))]
pub(crate) fn count(bits: &Bits) -> usize
    ensures { result ≡ length (ones_of bits.now.list) }
{
    bits.count_ones()
}

// Whether `number` is there.
#[tactic(auto, using(crate::proofs::Bits::there_in, crate::proofs::Bits::past_in))]
pub(crate) fn contains(bits: &Bits, number: u16) -> bool
    requires { AreBits bits.now.list }
    ensures { result ≡ has (ones_of bits.now.list) number }
{
    match bits.get(number as usize) {
        None => false,
        Some(bit) => bit,
    }
}

// The count of numbers below `number`.
#[tactic(auto, using(crate::proofs::Bits::ones_below))]
pub(crate) fn count_below(bits: &Bits, number: u16) -> usize
    requires { AreBits bits.now.list }
    ensures { result ≡ count_below (ones_of bits.now.list) number }
{
    BitList::count_ones_in(bits, ..number as usize)
}

// The count of numbers of a run that are there.
#[tactic(auto, using(crate::proofs::Between::count_part))]
pub(crate) fn count_in(bits: &Bits, run: Run) -> usize
    requires size { AreBits bits.now.list }
    requires ordered { run.first ≤ run.last }
    ensures { result ≡ count_where (has (ones_of bits.now.list)) (numbers_of_run run) }
{
    BitList::count_ones_in(bits, run.first as usize..run.last as usize + 1)
}

// The `k`-th number, counted from 0. None exactly where there are at most `k`.
pub(crate) fn nth(bits: &Bits, k: usize) -> Option<u16>
    requires { AreBits bits.now.list }
    ensures { result ≡ slice_get (ones_of bits.now.list) k }
{
    match BitList::nth_one(bits, k) {
        None => None,
        Some(number) => Some(number as u16),
    }
}

// Puts `number` in, and returns whether it was not there.
#[tactic(auto, using(crate::proofs::Bits::ones_gain))]
pub(crate) fn insert(bits: &mut Bits, number: u16) -> bool
    requires { AreBits bits.old.list }
    ensures size { AreBits bits.new.list }
    ensures new { result ≡ not (has (ones_of bits.old.list) number) }
    ensures gains { Gains (ones_of bits.old.list) (ones_of bits.new.list) number }
{
    let old = contains(bits, number);
    BitListMut::set(bits, number as usize, true);
    !old
}

// Takes `number` out, and returns whether it was there.
#[tactic(auto, using(crate::proofs::Bits::ones_lose))]
pub(crate) fn remove(bits: &mut Bits, number: u16) -> bool
    requires { AreBits bits.old.list }
    ensures size { AreBits bits.new.list }
    ensures old { result ≡ has (ones_of bits.old.list) number }
    ensures loses { Loses (ones_of bits.old.list) (ones_of bits.new.list) number }
{
    let old = contains(bits, number);
    BitListMut::set(bits, number as usize, false);
    old
}

// Puts in the numbers from `first` to `last`.
#[tactic(auto, using(crate::proofs::Ranges::ones_filled))]
pub(crate) fn insert_range(bits: &mut Bits, first: u16, last: u16)
    requires size { AreBits bits.old.list }
    requires ordered { first ≤ last }
    ensures size { AreBits bits.new.list }
    ensures gains { GainsBetween (ones_of bits.old.list) (ones_of bits.new.list) first last }
{
    BitListMut::fill_range(bits, first as usize..last as usize + 1, true);
}

// Takes out the numbers from `first` to `last`.
#[tactic(auto, using(crate::proofs::Ranges::ones_cleared))]
pub(crate) fn remove_range(bits: &mut Bits, first: u16, last: u16)
    requires size { AreBits bits.old.list }
    requires ordered { first ≤ last }
    ensures size { AreBits bits.new.list }
    ensures loses { LosesBetween (ones_of bits.old.list) (ones_of bits.new.list) first last }
{
    BitListMut::fill_range(bits, first as usize..last as usize + 1, false);
}

// Puts a number in, takes it out or leaves it, as an operation says of a number of the right set, where the bits are the
// left one. Returns how many numbers there are then, of `count` before.
#[tactic(auto, using(crate::proofs::Bits::count_set, crate::proofs::Bits::few_ones))]
fn change(bits: &mut Bits, count: usize, number: u16, operation: Operation) -> usize
    requires size { AreBits bits.old.list }
    requires count { count ≡ length (ones_of bits.old.list) }
    ensures list { bits.new.list ≡ set bits.old.list number (made_by operation (has (ones_of bits.old.list) number) true) }
    ensures count { result ≡ length (ones_of bits.new.list) }
{
    let was_there = contains(bits, number);
    let is_there = operation.keeps(was_there, true);
    BitListMut::set(bits, number as usize, is_there);
    count + is_there as usize - was_there as usize
}

// Puts numbers in, takes them out or flips them, as an operation says, and returns how many numbers there are then, of
// `count` before. Requires that the numbers ascend, and that the operation leaves each other number as it is.
pub(crate) fn change_list(
    bits: &mut Bits,
    count: usize,
    numbers: &[u16],
    operation: Operation,
) -> usize
    requires size { AreBits bits.old.list }
    requires count { count ≡ length (ones_of bits.old.list) }
    requires numbers { Ascends numbers.now }
    requires keeps { (b : Bool) → made_by operation b false ≡ b }
    ensures size { AreBits bits.new.list }
    ensures members { Combines (made_by operation) (ones_of bits.old.list) numbers.now (ones_of bits.new.list) }
    ensures count { result ≡ length (ones_of bits.new.list) }
{
    let mut count = count;
    for number in numbers {
        count = change(bits, count, *number, operation);
    }
    count
}

// Puts the numbers of runs in.
pub(crate) fn put_runs(bits: &mut Bits, runs: &[Run])
    requires size { AreBits bits.old.list }
    requires runs { AreRuns runs.now }
    ensures size { AreBits bits.new.list }
    ensures members { Combines (λ x y. x || y) (ones_of bits.old.list) (run_numbers runs.now) (ones_of bits.new.list) }
{
    for run in runs {
        BitListMut::fill_range(bits, run.first as usize..run.last as usize + 1, true);
    }
}

// Combines the numbers with others, by an operation.
pub(crate) fn combine(bits: &mut Bits, other: &Bits, operation: Operation)
    requires left { AreBits bits.old.list }
    requires right { AreBits other.now.list }
    ensures size { AreBits bits.new.list }
    ensures members { Combines (made_by operation) (ones_of bits.old.list) (ones_of other.now.list) (ones_of bits.new.list) }
{
    match operation {
        Operation::Union => combine_by::<Or>(bits, other),
        Operation::Intersection => combine_by::<And>(bits, other),
        Operation::Difference => combine_by::<AndNot>(bits, other),
        Operation::SymmetricDifference => combine_by::<Xor>(bits, other),
    }
}

// Like `combine`, by an operator that makes nothing of nothing.
fn combine_by<F: BitOperator>(bits: &mut Bits, other: &Bits)
    requires left { AreBits bits.old.list }
    requires right { AreBits other.now.list }
    requires none { F.made false false ≡ false }
    ensures size { AreBits bits.new.list }
    ensures members { Combines F.made (ones_of bits.old.list) (ones_of other.now.list) (ones_of bits.new.list) }
{
    BitListMut::combine::<F, _, _>(bits, other.as_bitslice());
}

// The numbers, ascending.
pub(crate) fn list_of(alloc: Global, bits: &Bits) -> Result<Vec<u16>, AllocError>
    requires { AreBits bits.now.list }
    ensures { IfOk result (λ numbers. numbers.items ≡ ones_of bits.now.list) }
{
    let mut numbers = Vec::with_capacity(alloc, bits.count_ones())?;
    let mut ones = OnesLeft::of(bits);
    while let Some(number) = ones.pop_first() {
        numbers.push(number)?;
    }
    Ok(numbers)
}

// A copy.
pub(crate) fn copied(bits: &Bits) -> Result<Bits, AllocError>
    ensures { IfOk result (λ copy. copy.list ≡ bits.now.list) }
{
    bits.clone()
}

// The count of numbers that are in both.
#[tactic(auto, using(crate::proofs::Bits::ones_both))]
pub(crate) fn count_both(bits: &Bits, others: &Bits) -> usize
    requires left { AreBits bits.now.list }
    requires right { AreBits others.now.list }
    ensures { result ≡ count_where (has (ones_of others.now.list)) (ones_of bits.now.list) }
{
    bits.count_and(others.as_bitslice())
}

// Whether both have the same numbers.
pub(crate) fn are_same(bits: &Bits, others: &Bits) -> bool
    requires left { AreBits bits.now.list }
    requires right { AreBits others.now.list }
    ensures { IsTrue result ↔ (ones_of bits.now.list ≡ ones_of others.now.list) }
{
    bits == others
}

// The count of runs of `count` numbers, where as many numbers as possible are in each: one for each number that does not
// follow another. Each bit is copied to the next index, since two lists of bits whose words begin alike are counted by
// whole words.
pub(crate) fn count_runs(bits: &Bits, count: usize) -> usize
    requires size { AreBits bits.now.list }
    requires count { count ≡ length (ones_of bits.now.list) }
    ensures { result ≡ length (runs_of (ones_of bits.now.list)) }
{
    let mut earlier = BitArray::<[u64; 1024], Lsb0>::zero();
    BitListMut::copy_into(&mut earlier, 1.., BitList::get_range(bits, ..COUNT - 1));
    count - bits.count_and(earlier.as_bitslice())
}

// Where the run of true bits ends to which the one at `first` belongs: the index after its last bit.
fn end_of_run(bits: &Bits, first: usize) -> usize
    requires size { AreBits bits.now.list }
    requires here { slice_get bits.now.list first ≡ Some true }
    ensures more { first < result }
    ensures within { result ≤ 65536 }
    ensures ones { (j : ℕ) → first ≤ j → j < result → slice_get bits.now.list j ≡ Some true }
    ensures ends { result < 65536 → slice_get bits.now.list result ≡ Some false }
{
    match BitList::next_zero(bits, first) {
        None => COUNT,
        Some(end) => end,
    }
}

// The runs: as many numbers as possible in each.
pub(crate) fn runs_of(alloc: Global, bits: &Bits) -> Result<Vec<Run>, AllocError>
    requires { AreBits bits.now.list }
    ensures runs { IfOk result (λ runs. AreRuns runs.items) }
    ensures numbers { IfOk result (λ runs. run_numbers runs.items ≡ ones_of bits.now.list) }
{
    let mut runs = Vec::with_capacity(alloc, count_runs(bits, count(bits)))?;
    let mut from = 0;
    while let Some(first) = BitList::next_one(bits, from) {
        from = end_of_run(bits, first);
        let last = (from - 1) as u16;
        runs.push(Run {
            first: first as u16,
            last,
        })?;
    }
    Ok(runs)
}
