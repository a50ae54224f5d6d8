//! Blocks as bytes.

ghost use Rattle.std.specs.Prelude.{◌≡◌, ◌+◌, ◌≤◌, ◌<◌, ◌-◌, ◌*◌, ◌/◌, ◌++◌, ◌^◌, length, map, drop, OnOk, IfOk, All, IsTrue, vec_capacity};
ghost use Rattle.std.specs.List.{flat_map};
ghost use Rattle.bit_portable.specs.Stored.{Holds, IsPiece, IsWritable, Runs, content_of, content_lent, content_bytes, piece_lent, pieces_lent, pieces_of, two, eight, run_bytes, head_bytes};
ghost use Rattle.bit_portable.specs.Form.{AreWritable, data_bytes, data_start, digits, flag_bytes, flags_for, form, offsets_for, start_bytes, four, heads_of, offset_bytes, run_flags};

use crate::stored::{Data, Head, Lent, Part, Stored};
use bit_blocks::Run;
use std::alloc::{AllocError, Global};
use std::mem::replace;

// Appends each number as two bytes. Requires that the capacity has room for them.
fn with_numbers(bytes: Vec<u8>, numbers: &[u16]) -> Vec<u8>
    requires { length bytes.items + 2 * length numbers.now ≤ vec_capacity bytes }
    ensures { result.items ≡ bytes.items ++ flat_map two numbers.now }
{
    let mut out = bytes;
    for &number in numbers {
        let [low, high] = number.to_le_bytes();
        out.push_reserved(low);
        out.push_reserved(high);
    }
    out
}

// Appends each number as two bytes. The vector is passed on by value: the compiler stores many numbers at once where no
// reference to the vector is left.
fn push_numbers(out: &mut Vec<u8>, numbers: &[u16]) -> Result<(), AllocError>
    requires { length numbers.now < 65536 }
    ensures appended { OnOk result (out.new.items ≡ out.old.items ++ flat_map two numbers.now) }
{
    out.reserve(2 * numbers.len())?;
    let alloc = *out.allocator();
    let all = with_numbers(replace(out, Vec::new(alloc)), numbers);
    let _empty = replace(out, all);
    Ok(())
}

// Appends each word as eight bytes. Requires that the capacity has room for them.
fn with_words(bytes: Vec<u8>, words: &[u64]) -> Vec<u8>
    requires { length bytes.items + 8 * length words.now ≤ vec_capacity bytes }
    ensures { result.items ≡ bytes.items ++ flat_map eight words.now }
{
    let mut out = bytes;
    for &word in words {
        for byte in word.to_le_bytes() {
            out.push_reserved(byte);
        }
    }
    out
}

// Like `push_numbers`, of words as eight bytes each.
fn push_words(out: &mut Vec<u8>, words: &[u64]) -> Result<(), AllocError>
    requires { length words.now < 65536 }
    ensures appended { OnOk result (out.new.items ≡ out.old.items ++ flat_map eight words.now) }
{
    out.reserve(8 * words.len())?;
    let alloc = *out.allocator();
    let all = with_words(replace(out, Vec::new(alloc)), words);
    let _empty = replace(out, all);
    Ok(())
}

// Appends each run's first number, and how many more it has.
fn push_each_run(out: &mut Vec<u8>, runs: &[Run]) -> Result<(), AllocError>
    requires { All (λ r. r.first ≤ r.last) runs.now }
    ensures appended { OnOk result (out.new.items ≡ out.old.items ++ flat_map run_bytes runs.now) }
{
    for run in runs {
        out.extend_from_slice(&run.first.to_le_bytes())?;
        out.extend_from_slice(&(run.last - run.first).to_le_bytes())?;
    }
    Ok(())
}

// Appends how many runs there are, and each run.
fn push_runs(out: &mut Vec<u8>, runs: &[Run]) -> Result<(), AllocError>
    requires { IsWritable (Runs runs.now) }
    ensures appended { OnOk result (out.new.items ≡ out.old.items ++ content_bytes (Runs runs.now)) }
{
    out.extend_from_slice(&(runs.len() as u16).to_le_bytes())?;
    push_each_run(out, runs)
}

// Appends what the header says of each block.
fn push_heads(out: &mut Vec<u8>, blocks: &[Part<'_>]) -> Result<(), AllocError>
    requires { All (λ s. IsPiece (piece_lent s)) blocks.now }
    ensures appended { OnOk result (out.new.items ≡ out.old.items ++ flat_map head_bytes (heads_of (pieces_lent blocks.now))) }
{
    for block in blocks {
        out.extend_from_slice(&block.head.key.to_le_bytes())?;
        out.extend_from_slice(&((block.head.count - 1) as u16).to_le_bytes())?;
    }
    Ok(())
}

// The byte of at most eight flags, one for each block, the lowest bit first.
fn flag_byte(blocks: &[Part<'_>]) -> u8
    requires { length blocks.now ≤ 8 }
    ensures value { result ≡ digits (run_flags (heads_of (pieces_lent blocks.now))) }
    ensures below { result < 2 ^ length blocks.now }
{
    match blocks {
        [] => 0,
        [block, rest @ ..] => (block.head.as_runs as u8) + 2 * flag_byte(rest),
    }
}

// Appends the flags, one bit for each block.
fn push_flags(out: &mut Vec<u8>, blocks: &[Part<'_>]) -> Result<(), AllocError>
    ensures appended { OnOk result (out.new.items ≡ out.old.items ++ flag_bytes ((length blocks.now + 7) / 8) (run_flags (heads_of (pieces_lent blocks.now)))) }
{
    let mut from = 0;
    while from < blocks.len() {
        let count = 8usize.min(blocks.len() - from);
        out.push(flag_byte(&blocks[from..from + count]))?;
        from += count;
    }
    Ok(())
}

// How many bytes the numbers of a block take.
fn data_len(content: &Data) -> usize
    requires { length (content_bytes (content_of content.now)) < 2 ^ 32 }
    ensures { result ≡ length (content_bytes (content_of content.now)) }
{
    match content {
        Data::Numbers(numbers) => 2 * numbers.len(),
        Data::Words(words) => 8 * words.len(),
        Data::Runs(runs) => 2 + 4 * runs.len(),
    }
}

// Appends the numbers of a block.
fn push_data(out: &mut Vec<u8>, content: &Data) -> Result<(), AllocError>
    requires { IsWritable (content_of content.now) }
    ensures appended { OnOk result (out.new.items ≡ out.old.items ++ content_bytes (content_of content.now)) }
{
    match content {
        Data::Numbers(numbers) => push_numbers(out, numbers),
        Data::Words(words) => push_words(out, words),
        Data::Runs(runs) => push_runs(out, runs),
    }
}

// How many bytes the numbers of a block take.
fn lent_len(content: &Lent<'_>) -> usize
    requires { length (content_bytes (content_lent content.now)) < 2 ^ 32 }
    ensures { result ≡ length (content_bytes (content_lent content.now)) }
{
    match content {
        Lent::Stored(content) => data_len(content),
        Lent::Numbers(numbers) => 2 * numbers.len(),
        Lent::Words(words) => 8 * words.len(),
        Lent::Runs(runs) => 2 + 4 * runs.len(),
        Lent::Made(content) => data_len(content),
    }
}

// Appends the numbers of a block.
fn push_lent(out: &mut Vec<u8>, content: &Lent<'_>) -> Result<(), AllocError>
    requires { IsWritable (content_lent content.now) }
    ensures appended { OnOk result (out.new.items ≡ out.old.items ++ content_bytes (content_lent content.now)) }
{
    match content {
        Lent::Stored(content) => push_data(out, content),
        Lent::Numbers(numbers) => push_numbers(out, numbers),
        Lent::Words(words) => push_words(out, words),
        Lent::Runs(runs) => push_runs(out, runs),
        Lent::Made(content) => push_data(out, content),
    }
}

// Appends the offset of each block, where the first is at `start`.
fn push_offsets(out: &mut Vec<u8>, start: usize, blocks: &[Part<'_>]) -> Result<(), AllocError>
    requires { start + length (data_bytes (pieces_lent blocks.now)) < 2 ^ 32 }
    ensures appended { OnOk result (out.new.items ≡ out.old.items ++ offset_bytes start (pieces_lent blocks.now)) }
{
    let mut at = start;
    for block in blocks {
        out.extend_from_slice(&(at as u32).to_le_bytes())?;
        at += lent_len(&block.content);
    }
    Ok(())
}

// Appends the numbers of each block.
fn push_all(out: &mut Vec<u8>, blocks: &[Part<'_>]) -> Result<(), AllocError>
    requires { All (λ s. IsPiece (piece_lent s)) blocks.now }
    ensures appended { OnOk result (out.new.items ≡ out.old.items ++ data_bytes (pieces_lent blocks.now)) }
{
    for block in blocks {
        push_lent(out, &block.content)?;
    }
    Ok(())
}

// Appends the beginning: whether there are flags, and how many blocks.
fn push_start(out: &mut Vec<u8>, flagged: bool, count: usize) -> Result<(), AllocError>
    requires most { count ≤ 65536 }
    requires some { IsTrue flagged → 0 < count }
    ensures appended { OnOk result (out.new.items ≡ out.old.items ++ start_bytes flagged count) }
{
    if flagged {
        out.extend_from_slice(&12347u16.to_le_bytes())?;
        out.extend_from_slice(&((count - 1) as u16).to_le_bytes())?;
        Ok(())
    } else {
        out.extend_from_slice(&12346u32.to_le_bytes())?;
        out.extend_from_slice(&(count as u32).to_le_bytes())?;
        Ok(())
    }
}

// Appends the flags, if there are to be any.
fn push_flags_if(out: &mut Vec<u8>, flagged: bool, blocks: &[Part<'_>]) -> Result<(), AllocError>
    ensures appended { OnOk result (out.new.items ≡ out.old.items ++ flags_for flagged (heads_of (pieces_lent blocks.now))) }
{
    if flagged {
        push_flags(out, blocks)
    } else {
        Ok(())
    }
}

// The place of the first block's data.
fn data_start(flagged: bool, count: usize) -> usize
    requires { count ≤ 65536 }
    ensures { result ≡ data_start flagged count }
{
    if !flagged {
        8 + 8 * count
    } else if count >= 4 {
        4 + (count + 7) / 8 + 4 * count + 4 * count
    } else {
        4 + (count + 7) / 8 + 4 * count
    }
}

// Appends the offsets, if there are to be any.
fn push_offsets_if(out: &mut Vec<u8>, flagged: bool, blocks: &[Part<'_>]) -> Result<(), AllocError>
    requires most { length blocks.now ≤ 65536 }
    requires small { data_start flagged (length blocks.now) + length (data_bytes (pieces_lent blocks.now)) < 2 ^ 32 }
    ensures appended { OnOk result (out.new.items ≡ out.old.items ++ offsets_for flagged (pieces_lent blocks.now)) }
{
    if !flagged || blocks.len() >= 4 {
        push_offsets(out, data_start(flagged, blocks.len()), blocks)
    } else {
        Ok(())
    }
}

// How many bytes the numbers of all blocks take.
fn data_total(blocks: &[Part<'_>]) -> usize
    requires { length (data_bytes (pieces_lent blocks.now)) < 2 ^ 32 }
    ensures { result ≡ length (data_bytes (pieces_lent blocks.now)) }
{
    let mut total = 0;
    for block in blocks {
        total += lent_len(&block.content);
    }
    total
}

// The bytes of blocks, with a flag for each block or without flags.
pub(crate) fn write_parts(
    alloc: Global,
    flagged: bool,
    blocks: &[Part<'_>],
) -> Result<Vec<u8>, AllocError>
    requires { AreWritable flagged (pieces_lent blocks.now) }
    ensures { IfOk result (λ v. v.items ≡ form flagged (flags_for flagged (heads_of (pieces_lent blocks.now))) (pieces_lent blocks.now)) }
{
    let total = data_start(flagged, blocks.len()) + data_total(blocks);
    let mut out = Vec::with_capacity(alloc, total)?;
    push_start(&mut out, flagged, blocks.len())?;
    push_flags_if(&mut out, flagged, blocks)?;
    push_heads(&mut out, blocks)?;
    push_offsets_if(&mut out, flagged, blocks)?;
    push_all(&mut out, blocks)?;
    Ok(out)
}

// What was stored, lent to be written.
fn parts_of<'a>(alloc: Global, blocks: &'a [Stored]) -> Result<Vec<Part<'a>>, AllocError>
    ensures { IfOk result (λ v. pieces_lent v.items ≡ pieces_of blocks.now) }
{
    let mut parts = Vec::with_capacity(alloc, blocks.len())?;
    for block in blocks {
        parts.push(Part {
            head: block.head,
            content: Lent::Stored(&block.content),
        })?;
    }
    Ok(parts)
}

/// The bytes of blocks, with a flag for each block or without flags.
pub fn write_stored(alloc: Global, flagged: bool, blocks: &[Stored]) -> Result<Vec<u8>, AllocError>
    requires { AreWritable flagged (pieces_of blocks.now) }
    ensures { IfOk result (λ v. v.items ≡ form flagged (flags_for flagged (heads_of (pieces_of blocks.now))) (pieces_of blocks.now)) }
{
    let parts = parts_of(alloc, blocks)?;
    let bytes = write_parts(alloc, flagged, &parts)?;
    Ok(bytes)
}
