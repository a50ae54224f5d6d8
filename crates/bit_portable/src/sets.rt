//! Sets of numbers as bytes, and bytes as sets of numbers.
ghost use Rattle.std.specs.Prelude.{All, map, ◌≡◌, ◌≤◌, ◌<◌, Bool, List, Ok, IfErr, IfOk, false, length, true};
ghost use Rattle.bit_blocks.specs.Numbers.{Ascends};
ghost use Rattle.bit_blocks.specs.Runs.{runs_of};
ghost use Rattle.bit_portable.specs.Stored.{Holds, Numbers, Runs, Words, content_lent, content_of, piece_lent, piece_of, pieces_lent, pieces_of};
ghost use Rattle.bit_portable.specs.Keyed.{all_numbered, numbered};
ghost use Rattle.bit_portable.specs.Form.{heads_of};
ghost use Rattle.bit_portable.specs.Portable.{AreBlocks, IsGood, numbered_of, IsFormOf, Numbered, any_runs, content_for, numbers_of, piece_for, pieces_for, portable, words_of};
ghost use Rattle.bit_portable.specs.Reading.{Fails, Gives, all_of};
ghost use Rattle.bit_portable.specs.Faults.{FailsBy, Tells};

use crate::bits::{bits_of, prove_words, words_lent, words_of};
use crate::fault::ReadError;
use crate::reading::read_stored;
use crate::stored::{Data, Head, Lent, Part, Stored};
use crate::writing::write_parts;
use bit_blocks::{Block, Keyed, runs_pay};
use std::alloc::{AllocError, Global};

// The numbers of a block as a list, lent where the block has one.
fn lent_list<'a>(alloc: Global, block: &'a Block) -> Result<Lent<'a>, AllocError>
    ensures { IfOk result (λ c. content_lent c ≡ Numbers block.now) }
{
    if let Some(numbers) = block.as_list() {
        return Ok(Lent::Numbers(numbers));
    }
    let numbers = block.to_list(alloc)?;
    Ok(Lent::Made(Data::Numbers(numbers)))
}

// The numbers of a block as words of bits, lent where the block has these.
fn lent_words<'a>(alloc: Global, block: &'a Block) -> Result<Lent<'a>, AllocError>
    ensures { IfOk result (λ c. content_lent c ≡ Words (words_of block.now)) }
{
    if let Some(bits) = block.as_bits() {
        if bits.head() == 0 {
            let words = words_lent(bits);
            prove_words(words);
            return Ok(Lent::Words(words));
        }
    }
    let bits = block.to_bits(alloc)?;
    let words = words_of(bits);
    prove_words(&words);
    Ok(Lent::Made(Data::Words(words)))
}

// The numbers of a block as a list or as bits.
fn lent_plain<'a>(alloc: Global, block: &'a Block) -> Result<Lent<'a>, AllocError>
    ensures { IfOk result (λ c. content_lent c ≡ content_for false block.now) }
{
    if block.len() <= 4096 {
        lent_list(alloc, block)
    } else {
        lent_words(alloc, block)
    }
}

// A block as it is stored without runs.
fn plain_part<'a>(alloc: Global, keyed: &'a Keyed) -> Result<Part<'a>, AllocError>
    ensures { IfOk result (λ s. piece_lent s ≡ piece_for false (numbered keyed.now)) }
{
    let count = keyed.block.len();
    let content = lent_plain(alloc, &keyed.block)?;
    let head = Head {
        key: keyed.key,
        count: count as u32,
        as_runs: false,
    };
    Ok(Part { head, content })
}

// The numbers of a block as runs, lent where the block has these.
fn lent_runs<'a>(alloc: Global, block: &'a Block) -> Result<Lent<'a>, AllocError>
    ensures { IfOk result (λ c. content_lent c ≡ Runs (runs_of block.now)) }
{
    if let Some(runs) = block.as_runs() {
        return Ok(Lent::Runs(runs));
    }
    let runs = block.to_runs(alloc)?;
    Ok(Lent::Made(Data::Runs(runs)))
}

// A block as it is stored with runs where they take fewer bytes.
fn part_with_runs<'a>(alloc: Global, keyed: &'a Keyed) -> Result<Part<'a>, AllocError>
    ensures { IfOk result (λ s. piece_lent s ≡ piece_for true (numbered keyed.now)) }
{
    let count = keyed.block.len();
    if !runs_pay(count, keyed.block.count_runs()) {
        return plain_part(alloc, keyed);
    }
    let content = lent_runs(alloc, &keyed.block)?;
    let head = Head {
        key: keyed.key,
        count: count as u32,
        as_runs: true,
    };
    Ok(Part { head, content })
}

// A block as it is stored.
fn part<'a>(alloc: Global, with_runs: bool, keyed: &'a Keyed) -> Result<Part<'a>, AllocError>
    ensures { IfOk result (λ s. piece_lent s ≡ piece_for with_runs (numbered keyed.now)) }
{
    if with_runs {
        part_with_runs(alloc, keyed)
    } else {
        plain_part(alloc, keyed)
    }
}

// Blocks as they are stored.
fn all_parts<'a>(
    alloc: Global,
    with_runs: bool,
    blocks: &'a [Keyed],
) -> Result<Vec<Part<'a>>, AllocError>
    ensures { IfOk result (λ v. pieces_lent v.items ≡ pieces_for with_runs (all_numbered blocks.now)) }
{
    let mut all = Vec::with_capacity(alloc, blocks.len())?;
    for keyed in blocks {
        let one = part(alloc, with_runs, keyed)?;
        all.push(one)?;
    }
    Ok(all)
}

// Whether a block is stored as runs.
fn any_runs(blocks: &[Part<'_>]) -> bool
    ensures { result ≡ any_runs (pieces_lent blocks.now) }
{
    for block in blocks {
        if block.head.as_runs {
            return true;
        }
    }
    false
}

/// The bytes of the set that has these blocks: with runs where they take fewer bytes, or without runs.
pub fn write(alloc: Global, blocks: &[Keyed], with_runs: bool) -> Result<Vec<u8>, AllocError>
    requires { AreBlocks (all_numbered blocks.now) }
    ensures { IfOk result (λ v. v.items ≡ portable with_runs (all_numbered blocks.now)) }
{
    let all = all_parts(alloc, with_runs, blocks)?;
    let flagged = any_runs(&all);
    let bytes = write_parts(alloc, flagged, &all)?;
    Ok(bytes)
}

// The block of what is stored.
fn block_of(alloc: Global, content: Data) -> Result<Block, AllocError>
    requires { IsGood (content_of content) }
    ensures { IfOk result (λ b. b ≡ numbers_of (content_of content)) }
{
    match content {
        Data::Numbers(numbers) => Block::from_list(numbers),
        Data::Words(words) => Block::from_bits(alloc, bits_of(words)),
        Data::Runs(runs) => Ok(Block::from_runs(runs)),
    }
}

// A block with its key.
fn keyed_of(alloc: Global, stored: Stored) -> Result<Keyed, AllocError>
    requires { IsGood (content_of stored.content) }
    ensures { IfOk result (λ k. numbered k ≡ numbered_of (piece_of stored)) }
{
    let key = stored.head.key;
    let block = block_of(alloc, stored.content)?;
    Ok(Keyed { key, block })
}

// Blocks with their keys.
fn all_keyed(alloc: Global, stored: Vec<Stored>) -> Result<Vec<Keyed>, AllocError>
    requires { All (λ s. IsGood (content_of s.content)) stored.items }
    ensures { IfOk result (λ v. all_numbered v.items ≡ map numbered_of (pieces_of stored.items)) }
{
    let mut blocks = Vec::with_capacity(alloc, stored.len())?;
    for one in stored {
        let keyed = keyed_of(alloc, one)?;
        blocks.push(keyed)?;
    }
    Ok(blocks)
}

/// The blocks of the set that the bytes are a form of.
///
/// The bytes are a form of what is read, and the keys ascend and no block is empty. Blocks that the bytes are a form of
/// are read, unless memory runs out, and so is what `write` made. A fault is the first that reading comes to, and tells
/// something of the bytes: that no front of them is a form, or (`Trailing`) that one is.
pub fn read(alloc: Global, bytes: &[u8]) -> Result<Vec<Keyed>, ReadError>
    ensures found { IfOk result (λ v. IsFormOf bytes.now (all_numbered v.items)) }
    ensures blocks { IfOk result (λ v. AreBlocks (all_numbered v.items)) }
    ensures only { (bs : List Numbered) → IsFormOf bytes.now bs → Gives (λ v. all_numbered v.items) result (Ok bs) }
    ensures back { (with_runs : Bool) (bs : List Numbered) → AreBlocks bs → bytes.now ≡ portable with_runs bs → Gives (λ v. all_numbered v.items) result (Ok bs) }
    ensures exact { IfErr result (λ e. Fails e (all_of bytes.now)) }
    ensures fault { FailsBy result (Tells bytes.now) }
{
    let stored = read_stored(alloc, bytes)?;
    let blocks = all_keyed(alloc, stored)?;
    Ok(blocks)
}
