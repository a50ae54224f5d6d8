//! The numbers of a set, one after another.
ghost use Rattle.std.specs.Prelude.{◌≡◌, ◌≤◌, ◌<◌, ◌+◌, All, length};

use crate::keyed::ranges::{blocks_between, part_at};
use bit_blocks::{BlockIter, Keyed};
use std::iter::{DoubleEndedIterator, FusedIterator, Iterator};

/// The numbers of a set that are left, ascending, from both ends, each once. After the first None there is no more. It
/// takes no memory.
#[derive(Drop)]
pub struct SetIter<'a> {
    // What is left of the block that was begun from the front, and the number that is added to each of its numbers.
    pub(crate) begun: BlockIter<'a>,
    pub(crate) base: u32,
    // The blocks that were not begun.
    pub(crate) blocks: &'a [Keyed],
    // What is left of the block that was begun from the back, and the number that is added to each of its numbers.
    pub(crate) ended: BlockIter<'a>,
    pub(crate) back_base: u32,
    ghost whole: { base ≤ 4294901760 },
    ghost full: { All (λ b. (b.key < 65536) × (0 < length b.block)) blocks.now },
    ghost back_whole: { back_base ≤ 4294901760 },
}

impl<'a> SetIter<'a> {
    ghost use Rattle.std.specs.Iterator.{YieldsFirst, YieldsLast};
    ghost use Rattle.bit_roaring.specs.Keyed.{AreKeyed, set_numbers};
    ghost use Rattle.bit_roaring.specs.Ranges.{numbers_within};
    ghost use Rattle.bit_roaring.specs.SetLeft.{set_left};

    // All numbers of blocks.
    #[tactic(auto, using(crate::proofs::SetLeft::all_full, crate::proofs::SetLeft::nothing_after))]
    pub(crate) fn of(blocks: &'a [Keyed]) -> Self
        requires { AreKeyed blocks.now }
        ensures { set_left result ≡ set_numbers blocks.now }
    {
        SetIter {
            begun: BlockIter::empty(),
            base: 0,
            blocks,
            ended: BlockIter::empty(),
            back_base: 0,
        }
    }

    // The numbers of blocks from `first` to `last`. Requires that `first` is at most `last`.
    pub(crate) fn between(blocks: &'a [Keyed], first: u32, last: u32) -> Self
        requires keyed { AreKeyed blocks.now }
        requires ordered { first ≤ last }
        ensures { set_left result ≡ numbers_within first (last + 1) (set_numbers blocks.now) }
    {
        let (from, upto) = ((first / 65536) as u16, (last / 65536) as u16);
        let (low, high) = ((first % 65536) as u16, (last % 65536) as u16);
        if from == upto {
            return SetIter {
                begun: part_at(blocks, from, low, high),
                base: from as u32 * 65536,
                blocks: &[],
                ended: BlockIter::empty(),
                back_base: 0,
            };
        }
        SetIter {
            begun: part_at(blocks, from, low, 65535),
            base: from as u32 * 65536,
            blocks: blocks_between(blocks, from, upto),
            ended: part_at(blocks, upto, 0, high),
            back_base: upto as u32 * 65536,
        }
    }

    // Takes the first number that is left.
    #[inline(always)]
    fn pop_first(&mut self) -> Option<u32>
        ensures { YieldsFirst set_left self.old result self.new }
    {
        if let Some(low) = self.begun.next() {
            return Some(self.base + low as u32);
        }
        if self.blocks.len() > 0 {
            let keyed = &self.blocks[0];
            self.blocks = &self.blocks[1..];
            self.base = keyed.key as u32 * 65536;
            self.begun = keyed.block.iter();
            return match self.begun.next() {
                None => None,
                Some(low) => Some(self.base + low as u32),
            };
        }
        match self.ended.next() {
            None => None,
            Some(low) => Some(self.back_base + low as u32),
        }
    }

    // Takes the last number that is left.
    fn pop_last(&mut self) -> Option<u32>
        ensures { YieldsLast set_left self.old result self.new }
    {
        if let Some(low) = self.ended.next_back() {
            return Some(self.back_base + low as u32);
        }
        if self.blocks.len() > 0 {
            let last = self.blocks.len() - 1;
            let keyed = &self.blocks[last];
            self.blocks = &self.blocks[..last];
            self.back_base = keyed.key as u32 * 65536;
            self.ended = keyed.block.iter();
            return match self.ended.next_back() {
                None => None,
                Some(low) => Some(self.back_base + low as u32),
            };
        }
        match self.begun.next_back() {
            None => None,
            Some(low) => Some(self.base + low as u32),
        }
    }
}

impl<'a> Iterator for SetIter<'a> {
    ghost use Rattle.std.specs.Iterator.{YieldsFirst, item_count};
    ghost use Rattle.bit_roaring.specs.SetLeft.{set_left};

    type Item = u32;

    ghost next_gives = { YieldsFirst set_left };

    ghost remaining = { item_count set_left };

    /// The least number that is left. None exactly where none is.
    #[inline(always)]
    fn next(&mut self) -> Option<u32> {
        self.pop_first()
    }
}

impl<'a> DoubleEndedIterator for SetIter<'a> {
    ghost use Rattle.std.specs.Iterator.{YieldsLast};
    ghost use Rattle.bit_roaring.specs.SetLeft.{set_left};

    ghost next_back_gives = { YieldsLast set_left };

    /// The greatest number that is left. None exactly where none is.
    fn next_back(&mut self) -> Option<u32> {
        self.pop_last()
    }
}

impl<'a> FusedIterator for SetIter<'a> {}
