//! Blocks of ascending numbers.
ghost use Rattle.std.specs.Prelude.{◌≡◌, ◌≢◌, ◌≤◌, ◌<◌, ◌+◌, ◌*◌, ◌/◌, ◌%◌, ◌^◌, ℕ, IfOk, length, map, slice_index_or};
ghost use Rattle.bit_blocks.specs.Numbers.{Ascends, AscendsIn};
ghost use Rattle.bit_roaring.specs.Keyed.{AreKeyed, set_numbers};

use bit_blocks::{Block, Keyed};
use std::alloc::{AllocError, Global};

// The count of numbers at the front that have a key.
fn count_with(numbers: &[u32], key: u16) -> usize
    ensures within { result ≤ length numbers.now }
    ensures same { (i d : ℕ) → i < result → slice_index_or numbers.now i d / 65536 ≡ key }
    ensures other { (d : ℕ) → result < length numbers.now → slice_index_or numbers.now result d / 65536 ≢ key }
{
    let mut count = 0;
    while count < numbers.len() && numbers[count] / 65536 == key as u32 {
        count += 1;
    }
    count
}

// The low halves of numbers.
fn lows_of(alloc: Global, numbers: &[u32]) -> Result<Vec<u16>, AllocError>
    ensures { IfOk result (λ lows. lows.items ≡ map (λ n. n % 65536) numbers.now) }
{
    let mut lows = Vec::with_capacity(alloc, numbers.len())?;
    for number in numbers {
        lows.push((*number % 65536) as u16)?;
    }
    Ok(lows)
}

// The block of ascending numbers that have a key.
#[tactic(auto, using(crate::proofs::Cut::lows_up, crate::proofs::Cut::block_up))]
fn block_of(alloc: Global, numbers: &[u32], key: u16) -> Result<Block, AllocError>
    requires { AscendsIn (key * 65536) ((key + 1) * 65536) numbers.now }
    ensures numbers { IfOk result (λ block. map (λ k. key * 65536 + k) block ≡ numbers.now) }
    ensures ascends { IfOk result (λ block. Ascends block) }
{
    let lows = lows_of(alloc, numbers)?;
    let block = Block::from_list(lows)?;
    Ok(block)
}

// The blocks of ascending numbers.
pub(crate) fn of_ascending(alloc: Global, numbers: &[u32]) -> Result<Vec<Keyed>, AllocError>
    requires { AscendsIn 0 (2 ^ 32) numbers.now }
    ensures keyed { IfOk result (λ made. AreKeyed made.items) }
    ensures numbers { IfOk result (λ made. set_numbers made.items ≡ numbers.now) }
{
    let mut blocks = Vec::new(alloc);
    let mut from = 0;
    while from < numbers.len() {
        let rest = &numbers[from..];
        let key = (rest[0] / 65536) as u16;
        let count = count_with(rest, key);
        let block = block_of(alloc, &rest[..count], key)?;
        blocks.push(Keyed { key, block })?;
        from += count;
    }
    Ok(blocks)
}
