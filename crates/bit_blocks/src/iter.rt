//! The numbers of a block, one after another.
ghost use Rattle.std.specs.Prelude.{◌≡◌, ◌<◌, ◌≤◌, ◌+◌, ℕ, All};
ghost use Rattle.bit_slice.specs.Indices.{ones_left};
ghost use Rattle.bit_slice.specs.Places.{ones_of};
ghost use Rattle.bit_blocks.specs.Bits.{AreBits};
ghost use Rattle.bit_blocks.specs.Numbers.{numbers_between};

use crate::mapped::Bits;
use crate::runs_left::RunsLeft;
use bit_addressing::{BitOrder, BitStore, Lsb0};
use bit_containers::{BitList, IterOnes};
use std::iter::{DoubleEndedIterator, FusedIterator, Iterator};

// The indices of true bits that are left, each with `base` added.
#[derive(Drop)]
pub(crate) struct OnesLeft<'a> {
    pub(crate) ones: IterOnes<'a, u64, Lsb0>,
    pub(crate) base: usize,
    ghost small: { All (λ i. base + i < 65536) (ones_left ones) },
}

impl<'a> OnesLeft<'a> {
    ghost use Rattle.std.specs.Iterator.{YieldsFirst, YieldsLast};
    ghost use Rattle.bit_blocks.specs.BlockLeft.{based_left};

    // The numbers of bits.
    pub(crate) fn of(bits: &'a Bits) -> Self
        requires { AreBits bits.now.list }
        ensures { based_left result ≡ ones_of bits.now.list }
    {
        OnesLeft {
            ones: BitList::iter_ones(bits),
            base: 0,
        }
    }

    // The numbers of bits from `first` to `last`.
    pub(crate) fn between(bits: &'a Bits, first: u16, last: u16) -> Self
        requires size { AreBits bits.now.list }
        requires ordered { first ≤ last }
        ensures { based_left result ≡ numbers_between first last (ones_of bits.now.list) }
    {
        let part = first as usize..last as usize + 1;
        OnesLeft {
            ones: bits.as_bitslice().get_range(part).iter_ones(),
            base: first as usize,
        }
    }

    // Takes the first number that is left.
    #[inline(always)]
    pub(crate) fn pop_first(&mut self) -> Option<u16>
        ensures { YieldsFirst based_left self.old result self.new }
    {
        match self.ones.next() {
            None => None,
            Some(index) => Some((self.base + index) as u16),
        }
    }

    // Takes the last number that is left.
    pub(crate) fn pop_last(&mut self) -> Option<u16>
        ensures { YieldsLast based_left self.old result self.new }
    {
        match self.ones.next_back() {
            None => None,
            Some(index) => Some((self.base + index) as u16),
        }
    }
}

// What is left of a form.
#[derive(Drop)]
pub(crate) enum Left<'a> {
    Listed(&'a [u16]),
    Mapped(OnesLeft<'a>),
    Ranged(RunsLeft<'a>),
}

/// The numbers of a block that are left, ascending, from both ends, each once. After the first None there is no more.
/// It takes no memory.
#[derive(Drop)]
pub struct BlockIter<'a> {
    pub(crate) left: Left<'a>,
}

impl<'a> BlockIter<'a> {
    ghost use Rattle.std.specs.Prelude.{[]};
    ghost use Rattle.std.specs.Iterator.{YieldsFirst, YieldsLast};
    ghost use Rattle.bit_blocks.specs.BlockLeft.{block_left};

    /// No number.
    pub fn empty() -> Self
        ensures { block_left result ≡ [] }
    {
        BlockIter {
            left: Left::Listed(&[]),
        }
    }

    #[inline(always)]
    fn pop_first(&mut self) -> Option<u16>
        ensures { YieldsFirst block_left self.old result self.new }
    {
        match &mut self.left {
            Left::Listed(numbers) => {
                if numbers.len() == 0 {
                    return None;
                }
                let first = numbers[0];
                *numbers = &numbers[1..];
                Some(first)
            }
            Left::Mapped(ones) => ones.pop_first(),
            Left::Ranged(runs) => runs.next(),
        }
    }

    fn pop_last(&mut self) -> Option<u16>
        ensures { YieldsLast block_left self.old result self.new }
    {
        match &mut self.left {
            Left::Listed(numbers) => {
                if numbers.len() == 0 {
                    return None;
                }
                let end = numbers.len() - 1;
                let last = numbers[end];
                *numbers = &numbers[..end];
                Some(last)
            }
            Left::Mapped(ones) => ones.pop_last(),
            Left::Ranged(runs) => runs.next_back(),
        }
    }
}

impl<'a> Iterator for BlockIter<'a> {
    ghost use Rattle.std.specs.Iterator.{YieldsFirst, item_count};
    ghost use Rattle.bit_blocks.specs.BlockLeft.{block_left};

    type Item = u16;

    ghost next_gives = { YieldsFirst block_left };

    ghost remaining = { item_count block_left };

    /// The least number that is left. None exactly where none is.
    #[inline(always)]
    fn next(&mut self) -> Option<u16> {
        self.pop_first()
    }
}

impl<'a> DoubleEndedIterator for BlockIter<'a> {
    ghost use Rattle.std.specs.Iterator.{YieldsLast};
    ghost use Rattle.bit_blocks.specs.BlockLeft.{block_left};

    ghost next_back_gives = { YieldsLast block_left };

    /// The greatest number that is left. None exactly where none is.
    fn next_back(&mut self) -> Option<u16> {
        self.pop_last()
    }
}

impl<'a> FusedIterator for BlockIter<'a> {}
