//! Blocks looked for by keys that ascend or descend, each near the place of the one before it.
ghost use Rattle.std.specs.Prelude.{◌≡◌, ◌≤◌, [], IsTrue, MatchOption, MatchResult, length};
ghost use Rattle.bit_roaring.specs.Keyed.{AreKeyed, block_at};
ghost use Rattle.bit_roaring.specs.Places.{IsAbsent, IsKeyPlace, IsThere};

use crate::keyed::{found_at, place_of};
use bit_blocks::{Block, Keyed};

// Near which places the blocks of two lists are looked for. It says nothing of where they are found.
#[derive(Default, Drop)]
pub(crate) struct Near {
    pub(crate) left: usize,
    pub(crate) right: usize,
}

// The key's place, if it is at `place` or after it, and else a place. It is looked for in steps that are twice as long each
// time.
fn place_after(blocks: &[Keyed], key: u16, place: usize) -> usize
    requires { place ≤ length blocks.now }
    ensures { result ≤ length blocks.now }
{
    let (mut low, mut high, mut step) = (place, place, 1usize);
    while high < blocks.len() && blocks[high].key < key {
        low = high + 1;
        high = low.saturating_add(step).min(blocks.len());
        step = step.saturating_mul(2);
    }
    low + blocks[low..high].partition_point(|keyed| keyed.key < key)
}

// Like `place_after`, if it is at `place` or before it.
fn place_before(blocks: &[Keyed], key: u16, place: usize) -> usize
    requires { place ≤ length blocks.now }
    ensures { result ≤ length blocks.now }
{
    let (mut low, mut high, mut step) = (place, place, 1usize);
    while low > 0 && key <= blocks[low - 1].key {
        high = low - 1;
        low = high.saturating_sub(step);
        step = step.saturating_mul(2);
    }
    low + blocks[low..high].partition_point(|keyed| keyed.key < key)
}

// Whether a place is the key's: the key before it is below `key`, and its own is not.
fn is_place(blocks: &[Keyed], key: u16, place: usize) -> bool
    requires keyed { AreKeyed blocks.now }
    requires within { place ≤ length blocks.now }
    ensures { IsTrue result → IsKeyPlace blocks.now key place }
{
    if place > 0 && key <= blocks[place - 1].key {
        return false;
    }
    if place < blocks.len() && blocks[place].key < key {
        return false;
    }
    true
}

// Like `place_of`, but looks near a place first.
fn place_near(blocks: &[Keyed], key: u16, near: usize) -> usize
    requires { AreKeyed blocks.now }
    ensures within { result ≤ length blocks.now }
    ensures place { IsKeyPlace blocks.now key result }
{
    let after = place_after(blocks, key, near.min(blocks.len()));
    let place = place_before(blocks, key, after);
    if is_place(blocks, key, place) {
        return place;
    }
    place_of(blocks, key)
}

// Like `find`, but looks near a place first, and leaves in its place the one that it found.
pub(crate) fn find_near(blocks: &[Keyed], key: u16, near: &mut usize) -> Result<usize, usize>
    requires { AreKeyed blocks.now }
    ensures { MatchResult result (IsThere blocks.now key) (IsAbsent blocks.now key) }
{
    let place = place_near(blocks, key, *near);
    *near = place;
    found_at(blocks, key, place)
}

// Like `get`, but looks near a place first, and leaves in its place the one that it found.
pub(crate) fn get_near<'a>(blocks: &'a [Keyed], key: u16, near: &mut usize) -> Option<&'a Block>
    requires { AreKeyed blocks.now }
    ensures { MatchOption result (block_at blocks.now key ≡ []) (λ block. block.now ≡ block_at blocks.now key) }
{
    match find_near(blocks, key, near) {
        Ok(place) => Some(&blocks[place].block),
        Err(_) => None,
    }
}
