//! Numbers that two lists of blocks have in common.
ghost use Rattle.std.specs.Prelude.{◌≡◌, ◌≤◌, ◌<◌, ◌↔◌, ℕ, IsTrue, false, length, true};
ghost use Rattle.bit_blocks.specs.Numbers.{Ascends, count_where, has};
ghost use Rattle.bit_roaring.specs.Keyed.{AreKeyed, keyed_numbers, set_numbers};

use crate::keyed::near::get_near;
use bit_blocks::Keyed;

// The count of numbers that are in both lists of blocks. Each block of the shorter list is looked for in the other.
#[tactic(auto, using(crate::proofs::Counted::both_swapped))]
pub(crate) fn count_both(blocks: &[Keyed], others: &[Keyed]) -> u64
    requires left { AreKeyed blocks.now }
    requires right { AreKeyed others.now }
    ensures { result ≡ count_where (has (set_numbers others.now)) (set_numbers blocks.now) }
{
    if others.len() < blocks.len() {
        count_in(others, blocks)
    } else {
        count_in(blocks, others)
    }
}

// The count of numbers of some blocks that are in others too.
#[tactic(auto, using(crate::proofs::Keys::item_key, crate::proofs::Keys::item_ascends))]
fn count_in(blocks: &[Keyed], others: &[Keyed]) -> u64
    requires left { AreKeyed blocks.now }
    requires right { AreKeyed others.now }
    ensures { result ≡ count_where (has (set_numbers others.now)) (set_numbers blocks.now) }
{
    let mut count = 0;
    let mut near = 0;
    for keyed in blocks {
        count += count_at(keyed, others, &mut near);
    }
    count
}

// The count of numbers of a block that are in other blocks too. The one with its key is looked for near a place.
fn count_at(keyed: &Keyed, others: &[Keyed], near: &mut usize) -> u64
    requires key { keyed.now.key < 65536 }
    requires ascends { Ascends keyed.now.block }
    requires right { AreKeyed others.now }
    ensures value { result ≡ count_where (has (set_numbers others.now)) (keyed_numbers keyed.now) }
    ensures few { result ≤ length keyed.now.block }
{
    match get_near(others, keyed.key, near) {
        None => 0,
        Some(other) => keyed.block.count_both(other) as u64,
    }
}

// Whether each number of some blocks is in others too. No block is looked at after one with a number that is not.
#[tactic(auto, using(crate::proofs::Keys::item_key, crate::proofs::Keys::item_ascends))]
pub(crate) fn is_subset(blocks: &[Keyed], others: &[Keyed]) -> bool
    requires left { AreKeyed blocks.now }
    requires right { AreKeyed others.now }
    ensures { IsTrue result ↔ ((k : ℕ) → has (set_numbers blocks.now) k ≡ true → has (set_numbers others.now) k ≡ true) }
{
    let mut near = 0;
    for keyed in blocks {
        if count_at(keyed, others, &mut near) != keyed.block.len() as u64 {
            return false;
        }
    }
    true
}

// Whether no number is in both lists of blocks. Each block of the shorter list is looked for in the other.
#[tactic(auto, using(crate::proofs::Counted::apart_swapped))]
pub(crate) fn are_disjoint(blocks: &[Keyed], others: &[Keyed]) -> bool
    requires left { AreKeyed blocks.now }
    requires right { AreKeyed others.now }
    ensures { IsTrue result ↔ ((k : ℕ) → has (set_numbers blocks.now) k ≡ true → has (set_numbers others.now) k ≡ false) }
{
    if others.len() < blocks.len() {
        has_none_in(others, blocks)
    } else {
        has_none_in(blocks, others)
    }
}

// Whether no number of some blocks is in others. No block is looked at after one with a number that is.
#[tactic(auto, using(crate::proofs::Keys::item_key, crate::proofs::Keys::item_ascends))]
fn has_none_in(blocks: &[Keyed], others: &[Keyed]) -> bool
    requires left { AreKeyed blocks.now }
    requires right { AreKeyed others.now }
    ensures { IsTrue result ↔ ((k : ℕ) → has (set_numbers blocks.now) k ≡ true → has (set_numbers others.now) k ≡ false) }
{
    let mut near = 0;
    for keyed in blocks {
        if count_at(keyed, others, &mut near) != 0 {
            return false;
        }
    }
    true
}
