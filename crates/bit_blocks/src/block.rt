//! A set of numbers below 65536 that takes little memory.
ghost use Rattle.std.specs.Prelude.{◌≡◌, ◌≤◌, ◌<◌, ◌+◌, ◌-◌, ◌↔◌, Bool, [], IfOk, IfSome, IsTrue, MatchResult, OnErr, OnOk, false, length, not, slice_get};
ghost use Rattle.std.specs.Iterator.{YieldsFirst, YieldsLast};
ghost use Rattle.std.specs.Iterator.Runs.{YieldsInOrder, YieldsInReverse};
ghost use Rattle.std.specs.List.{range_with_len};
ghost use Rattle.bit_slice.specs.BitSlice.{len_of, list_of};
ghost use Rattle.bit_slice.specs.Places.{ones_of};
ghost use Rattle.bit_blocks.specs.Bits.{AreBits};
ghost use Rattle.bit_blocks.specs.BlockLeft.{block_left};
ghost use Rattle.bit_blocks.specs.Numbers.{Ascends, Combines, Gains, GainsBetween, Loses, LosesBetween, count_below, count_where, has, numbers_between};
ghost use Rattle.bit_blocks.specs.Operation.{made_by};
ghost use Rattle.bit_blocks.specs.Form.{IsForm, numbers_of};
ghost use Rattle.bit_blocks.specs.Runs.{AreRuns, run_numbers, runs_of};

use crate::bit_block::BitBlock;
use crate::form::Form;
use crate::iter::BlockIter;
use crate::mapped::Bits;
use crate::operation::Operation;
use crate::ranged::Run;
use crate::{form, mapped};
use bit_addressing::Lsb0;
use bit_containers::{BitSlice, BitVec};
use std::alloc::{AllocError, Global};
use std::marker::Model;

/// A set of numbers below 65536: a sorted list where they are few, a bit for each where they are many, and runs of
/// numbers that follow one another after `optimize`, where these take the least memory.
///
/// In contracts a block is the ascending list of its numbers.
///
/// ```rust
/// use bit_blocks::{Block, Operation};
///
/// let mut evens = Block::new(rt.alloc());
/// for half in 0..5000u16 {
///     evens.insert(2 * half)?;
/// }
/// let tens = Block::from_range(rt.alloc(), 10, 19)?;
/// let both = evens.combined(rt.alloc(), &tens, Operation::Intersection)?;
/// println!(&rt; "{} numbers, {} of them below 100", evens.len(), evens.rank(100))?;
/// for number in both.iter().rev() {
///     println!(&rt; "{number}")?;
/// }
/// ```
///
/// ```text
/// 5000 numbers, 50 of them below 100
/// 18
/// 16
/// 14
/// 12
/// 10
/// ```
#[derive(Drop)]
pub struct Block {
    form: Form,
    // How many numbers there are.
    count: usize,
}

impl Model for Block {
    ghost use Rattle.std.specs.Prelude.{ℕ, List};
    ghost use Rattle.std.specs.Coded.{coded_list, coded_ℕ};
    ghost use Rattle.bit_blocks.specs.Block.{IsBlock};
    ghost use Rattle.bit_blocks.specs.Form.{numbers_of};

    ghost Value = { List ℕ };

    ghost coded = { coded_list coded_ℕ };

    ghost view = { λ b. numbers_of b.form };

    ghost invariant = { λ b. IsBlock b.form b.count };
}

impl Block {
    /// The empty set. Takes no memory.
    pub fn new(alloc: Global) -> Self
        ensures { result ≡ [] }
    {
        Block {
            form: Form::Listed(Vec::new(alloc)),
            count: 0,
        }
    }

    /// The set of ascending numbers.
    pub fn from_list(numbers: Vec<u16>) -> Result<Self, AllocError>
        requires { Ascends numbers.items }
        ensures numbers { IfOk result (λ b. b ≡ numbers.items) }
    {
        let count = numbers.len();
        let form = form::of_list(numbers)?;
        Ok(Block { form, count })
    }

    /// The numbers from `first` to `last`, as one run. Requires that `first` is at most `last`.
    pub fn from_range(alloc: Global, first: u16, last: u16) -> Result<Self, AllocError>
        requires { first ≤ last }
        ensures { IfOk result (λ b. b ≡ range_with_len first (last + 1 - first)) }
    {
        let form = form::of_run(alloc, first, last)?;
        Ok(Block::of(form))
    }

    /// The set of the indices of true bits. Requires 65536 bits.
    pub fn from_bits(alloc: Global, bits: BitVec<u64, Lsb0>) -> Result<Self, AllocError>
        requires { length bits.list ≡ 65536 }
        ensures numbers { IfOk result (λ b. b ≡ ones_of bits.list) }
    {
        let count = mapped::count(&bits);
        let form = form::form_of_counted(alloc, bits, count)?;
        Ok(Block { form, count })
    }

    /// The set of the numbers of runs. Requires that these are in order and apart. Takes no memory.
    pub fn from_runs(runs: Vec<Run>) -> Self
        requires { AreRuns runs.items }
        ensures numbers { result ≡ run_numbers runs.items }
    {
        Block::of(Form::Ranged(runs))
    }

    // A block of this form.
    #[tactic(auto, using(crate::proofs::Forms::ascends_form))]
    fn of(form: Form) -> Self
        requires { IsForm form }
        ensures numbers { result ≡ numbers_of form }
        ensures ascends { Ascends result }
    {
        let count = form::count(&form);
        Block { form, count }
    }

    /// The count of numbers.
    #[tactic(auto, using(crate::proofs::Forms::few_of_form, crate::proofs::Forms::ascends_form))]
    pub fn len(&self) -> usize
        ensures value { result ≡ length self.now }
        ensures few { result ≤ 65536 }
        ensures ascends { Ascends self.now }
    {
        self.count
    }

    /// Whether there is no number.
    pub fn is_empty(&self) -> bool
        ensures { IsTrue result ↔ (self.now ≡ []) }
    {
        self.len() == 0
    }

    /// Whether a number is in the set.
    pub fn contains(&self, number: u16) -> bool
        ensures { result ≡ has self.now number }
    {
        form::contains(&self.form, number)
    }

    /// The count of numbers below `number`.
    pub fn rank(&self, number: u16) -> usize
        ensures { result ≡ count_below self.now number }
    {
        form::rank(&self.form, number)
    }

    /// The `k`-th number, ascending, counted from 0. None exactly where there are at most `k`.
    pub fn select(&self, k: usize) -> Option<u16>
        ensures { result ≡ slice_get self.now k }
    {
        form::select(&self.form, k)
    }

    /// The least number. None exactly where there is none.
    pub fn first(&self) -> Option<u16>
        ensures { result ≡ slice_get self.now 0 }
    {
        self.select(0)
    }

    /// The greatest number. None exactly where there is none.
    pub fn last(&self) -> Option<u16>
        ensures { result ≡ slice_get self.now (length self.now - 1) }
    {
        self.select(self.len().saturating_sub(1))
    }

    /// Puts a number in, and returns whether it was not there. Where memory is refused, the set is as it was.
    #[tactic(auto, using(crate::proofs::Forms::ascends_form))]
    pub fn insert(&mut self, number: u16) -> Result<bool, AllocError>
        ensures new { IfOk result (λ new. new ≡ not (has self.old number)) }
        ensures gains { OnOk result (Gains self.old self.new number) }
        ensures ascends { Ascends self.new }
        ensures refused { OnErr result (self.new ≡ self.old) }
    {
        let new = form::insert(&mut self.form, number, self.count)?;
        if new {
            self.count += 1;
        }
        Ok(new)
    }

    /// Takes a number out, and returns whether it was there. Where memory is refused, the set is as it was.
    #[tactic(auto, using(crate::proofs::Forms::ascends_form))]
    pub fn remove(&mut self, number: u16) -> Result<bool, AllocError>
        ensures old { IfOk result (λ old. old ≡ has self.old number) }
        ensures loses { OnOk result (Loses self.old self.new number) }
        ensures ascends { Ascends self.new }
        ensures refused { OnErr result (self.new ≡ self.old) }
    {
        let old = form::remove(&mut self.form, number, self.count)?;
        if old {
            self.count -= 1;
        }
        Ok(old)
    }

    /// Puts in the numbers from `first` to `last`, both included. Where memory is refused, the set is as it was. Requires
    /// that `first` is at most `last`.
    #[tactic(auto, using(crate::proofs::Forms::ascends_form, crate::proofs::Forms::same_count, crate::proofs::Forms::few_of_block))]
    pub fn insert_range(&mut self, first: u16, last: u16) -> Result<(), AllocError>
        requires { first ≤ last }
        ensures gains { OnOk result (GainsBetween self.old self.new first last) }
        ensures ascends { Ascends self.new }
        ensures refused { OnErr result (self.new ≡ self.old) }
    {
        let there = form::count_in(&self.form, Run { first, last });
        let count = self.count + ((last - first) as usize + 1 - there);
        form::insert_range(&mut self.form, first, last, count)?;
        self.count = count;
        Ok(())
    }

    /// Takes out the numbers from `first` to `last`, both included. Where memory is refused, the set is as it was. Requires
    /// that `first` is at most `last`.
    #[tactic(auto, using(crate::proofs::Forms::ascends_form, crate::proofs::Forms::same_count))]
    pub fn remove_range(&mut self, first: u16, last: u16) -> Result<(), AllocError>
        requires { first ≤ last }
        ensures loses { OnOk result (LosesBetween self.old self.new first last) }
        ensures ascends { Ascends self.new }
        ensures refused { OnErr result (self.new ≡ self.old) }
    {
        let gone = form::count_in(&self.form, Run { first, last });
        let count = self.count - gone;
        form::remove_range(&mut self.form, first, last, count)?;
        self.count = count;
        Ok(())
    }

    /// What an operation makes of this set and another.
    pub fn combined(
        &self,
        alloc: Global,
        other: &Self,
        operation: Operation,
    ) -> Result<Self, AllocError>
        ensures members { IfOk result (λ made. Combines (made_by operation) self.now other.now made) }
        ensures ascends { IfOk result (λ made. Ascends made) }
    {
        match (&self.form, &other.form) {
            (Form::Mapped(bits), Form::Listed(numbers)) if operation.keeps_left() => {
                Block::changed(alloc, bits, self.count, numbers, operation)
            }
            (Form::Listed(numbers), Form::Mapped(bits)) if operation.keeps_right() => {
                Block::changed(alloc, bits, other.count, numbers, operation)
            }
            _ => {
                let form = form::combined(alloc, &self.form, &other.form, operation)?;
                Ok(Block::of(form))
            }
        }
    }

    // Like `combined`, of bits of which `count` are true and a list, by an operation that leaves each number that is not of
    // the list as it is.
    #[tactic(auto, using(crate::proofs::Forms::ascends_form))]
    fn changed(
        alloc: Global,
        bits: &Bits,
        count: usize,
        numbers: &[u16],
        operation: Operation,
    ) -> Result<Self, AllocError>
        requires size { AreBits bits.now.list }
        requires count { count ≡ length (ones_of bits.now.list) }
        requires numbers { Ascends numbers.now }
        requires keeps { (b : Bool) → made_by operation b false ≡ b }
        ensures members { IfOk result (λ made. Combines (made_by operation) (ones_of bits.now.list) numbers.now made) }
        ensures ascends { IfOk result (λ made. Ascends made) }
    {
        let mut bits = mapped::copied(bits)?;
        let count = mapped::change_list(&mut bits, count, numbers, operation);
        let form = form::form_of_counted(alloc, bits, count)?;
        Ok(Block { form, count })
    }

    /// The count of numbers that are in another set too. Takes no memory.
    pub fn count_both(&self, other: &Self) -> usize
        ensures { result ≡ count_where (has other.now) self.now }
    {
        form::count_both(&self.form, &other.form)
    }

    /// Whether another set has the same numbers, in whatever form. Takes no memory.
    pub fn has_same_numbers(&self, other: &Self) -> bool
        ensures { IsTrue result ↔ (self.now ≡ other.now) }
    {
        form::are_same(&self.form, &other.form)
    }

    /// The numbers, ascending, from both ends.
    pub fn iter(&self) -> BlockIter<'_>
        ensures list { block_left result ≡ self.now }
        ensures runs { YieldsInOrder (YieldsFirst block_left) block_left }
        ensures runs_back { YieldsInReverse (YieldsLast block_left) block_left }
    {
        BlockIter {
            left: form::left_of(&self.form),
        }
    }

    /// The numbers from `first` to `last`, both included, ascending, from both ends. None where `first` is above `last`.
    /// Takes no memory.
    pub fn range(&self, first: u16, last: u16) -> BlockIter<'_>
        ensures list { block_left result ≡ numbers_between first last self.now }
        ensures runs { YieldsInOrder (YieldsFirst block_left) block_left }
        ensures runs_back { YieldsInReverse (YieldsLast block_left) block_left }
    {
        BlockIter {
            left: form::left_between(&self.form, first, last),
        }
    }

    /// The numbers, ascending, as a list.
    pub fn to_list(&self, alloc: Global) -> Result<Vec<u16>, AllocError>
        ensures { IfOk result (λ numbers. numbers.items ≡ self.now) }
    {
        form::list_of(alloc, &self.form)
    }

    /// The numbers as they are kept, where they are kept as a list, and None where they are not: a list has at most 4096.
    /// Takes no memory.
    pub fn as_list(&self) -> Option<&[u16]>
        ensures numbers { IfSome result (λ numbers. numbers.now ≡ self.now) }
        ensures few { IfSome result (λ numbers. length numbers.now ≤ 4096) }
    {
        form::as_list(&self.form)
    }

    /// The numbers as the indices of true bits, of 65536, where they are kept so, and None where they are not: more than
    /// 4096 are. Takes no memory.
    pub fn as_bits(&self) -> Option<BitSlice<'_, u64, Lsb0>>
        ensures len { IfSome result (λ bits. len_of bits ≡ 65536) }
        ensures size { IfSome result (λ bits. length (list_of bits) ≡ 65536) }
        ensures numbers { IfSome result (λ bits. ones_of (list_of bits) ≡ self.now) }
        ensures many { IfSome result (λ bits. 4096 < length self.now) }
    {
        form::as_bits(&self.form)
    }

    /// The numbers as the indices of true bits, of 65536.
    pub fn to_bits(&self, alloc: Global) -> Result<BitVec<u64, Lsb0>, AllocError>
        ensures len { IfOk result (λ bits. length bits.list ≡ 65536) }
        ensures head { IfOk result (λ bits. bits.head ≡ 0) }
        ensures numbers { IfOk result (λ bits. ones_of bits.list ≡ self.now) }
    {
        let mut bits = form::bits_of(alloc, &self.form)?;
        bits.force_align();
        Ok(bits)
    }

    /// The same numbers, to be changed without memory, where they are kept as bits, and else the block in Err.
    pub fn into_bits(self) -> Result<BitBlock, Self>
        ensures { MatchResult result (λ bits. bits ≡ self) (λ block. block ≡ self) }
    {
        let Block { form, count } = self;
        match form {
            Form::Mapped(bits) => Ok(BitBlock { bits, count }),
            form => Err(Block { form, count }),
        }
    }

    /// The block whose bits `into_bits` gave.
    pub fn from_bit_block(bits: BitBlock) -> Self
        ensures { result ≡ bits }
    {
        Block {
            form: Form::Mapped(bits.bits),
            count: bits.count,
        }
    }

    /// The numbers as runs: as many numbers as possible in each.
    #[tactic(auto, using(crate::proofs::Joined::are_runs_of))]
    pub fn to_runs(&self, alloc: Global) -> Result<Vec<Run>, AllocError>
        ensures exact { IfOk result (λ runs. runs.items ≡ runs_of self.now) }
        ensures runs { IfOk result (λ runs. AreRuns runs.items) }
        ensures numbers { IfOk result (λ runs. run_numbers runs.items ≡ self.now) }
    {
        form::runs_of(alloc, &self.form)
    }

    /// The numbers as runs, where they are kept so, and None where they are not: as many numbers as possible in each.
    /// Takes no memory.
    #[tactic(auto, using(crate::proofs::Joined::are_runs_of))]
    pub fn as_runs(&self) -> Option<&[Run]>
        ensures { IfSome result (λ runs. runs.now ≡ runs_of self.now) }
    {
        form::as_runs(&self.form)
    }

    /// The count of runs that `to_runs` makes. Takes no memory.
    pub fn count_runs(&self) -> usize
        ensures value { result ≡ length (runs_of self.now) }
        ensures few { result ≤ 32768 }
    {
        form::count_runs(&self.form, self.count)
    }

    /// Keeps the numbers in the form that takes the least memory: runs where they are fewer than half of the numbers, and
    /// than 2048, and else a list, which gives back the room to spare, or bits. Takes no memory where they are in that
    /// form. Where memory is refused, they are kept as they were.
    #[tactic(auto, using(crate::proofs::Forms::same_count))]
    pub fn optimize(&mut self) -> Result<(), AllocError>
        ensures { self.new ≡ self.old }
    {
        form::optimize(&mut self.form, self.count)
    }
}

impl Clone for Block {
    ghost use Rattle.std.specs.Prelude.{◌≡◌};

    ghost is_clone = { λ block copy. copy ≡ block };

    ghost is_infallible = { λ _. ⊥ };

    /// A copy, in the same form.
    #[tactic(auto, using(crate::proofs::Forms::same_count))]
    fn clone(&self) -> Result<Self, AllocError> {
        let form = form::copied(&self.form)?;
        Ok(Block {
            form,
            count: self.count,
        })
    }
}
