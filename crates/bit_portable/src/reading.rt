//! Bytes as blocks.

ghost use Rattle.std.specs.Prelude.{◌≡◌, ◌+◌, ◌≤◌, ◌<◌, ◌-◌, ◌*◌, ◌/◌, ◌^◌, nat_eq, List, Ok, length, vec_capacity, vec_len, IfOk, IsTrue};
ghost use Rattle.std.specs.Int.{from_le_bytes, w16, w32, w64};
ghost use Rattle.bit_portable.specs.Stored.{Piece, content_of, piece_of, pieces_of, run_total, word_total};
ghost use Rattle.bit_portable.specs.Form.{IsWritten, flag_at, has_offsets};
ghost use Rattle.bit_portable.specs.Faults.{FailsBy, Tells};
ghost use Rattle.bit_portable.specs.Reading.{Gives, ascends, bytes_at, heads_in, one_head, one_run, content_at, counted_runs_at, eights, number_at, numbers_at, flags_len, offset_at, offsets_len, all_of, piece_at, pieces_in, plain_start_at, runs_at, runs_in, start_at, twos, words_at};

use crate::fault::{Fault, ReadError};
use crate::stored::{Data, Head, Stored};
use bit_blocks::Run;
use std::alloc::{AllocError, Global};

// What the first bytes say.
#[derive(Clone, Copy)]
pub(crate) struct Start {
    // Whether there are flags.
    flagged: bool,
    // How many blocks there are, at most 65536.
    count: usize,
}

// The first `n` bytes, and the others.
fn bytes_at(n: usize, bytes: &[u8]) -> Result<(&[u8], &[u8]), ReadError>
    ensures value { Gives (λ x. (x.0.now, x.1.now)) result (bytes_at n bytes.now) }
    ensures front { IfOk result (λ x. length x.0.now ≡ n) }
    ensures rest { IfOk result (λ x. length x.1.now ≤ length bytes.now) }
{
    if bytes.len() < n {
        return Err(ReadError::Fault(Fault::Short));
    }
    Ok(bytes.split_at(n))
}

// The number of the first two bytes, and the other bytes.
fn u16_at(bytes: &[u8]) -> Result<(u16, &[u8]), ReadError>
    ensures rest { IfOk result (λ x. length x.1.now ≤ length bytes.now) }
    ensures value { Gives (λ x. (x.0, x.1.now)) result (number_at w16 bytes.now) }
{
    if bytes.len() < 2 {
        return Err(ReadError::Fault(Fault::Short));
    }
    let (front, rest) = bytes.split_at(2);
    Ok((u16::from_le_bytes([front[0], front[1]]), rest))
}

// The number of the first four bytes, and the other bytes.
fn u32_at(bytes: &[u8]) -> Result<(u32, &[u8]), ReadError>
    ensures rest { IfOk result (λ x. length x.1.now ≤ length bytes.now) }
    ensures value { Gives (λ x. (x.0, x.1.now)) result (number_at w32 bytes.now) }
{
    if bytes.len() < 4 {
        return Err(ReadError::Fault(Fault::Short));
    }
    let (front, rest) = bytes.split_at(4);
    let number = u32::from_le_bytes([front[0], front[1], front[2], front[3]]);
    Ok((number, rest))
}

// The numbers of two bytes each. No memory is asked for but that of as many numbers.
fn twos(alloc: Global, bytes: &[u8]) -> Result<Vec<u16>, AllocError>
    ensures value { IfOk result (λ v. v.items ≡ twos bytes.now) }
    ensures memory { IfOk result (λ v. vec_capacity v ≡ length bytes.now / 2) }
{
    let mut numbers = Vec::with_capacity(alloc, bytes.len() / 2)?;
    let mut rest = bytes;
    while let [a, b, after @ ..] = rest {
        numbers.push_reserved(u16::from_le_bytes([*a, *b]));
        rest = after;
    }
    Ok(numbers)
}

// The number of eight bytes.
fn eight(bytes: &[u8]) -> u64
    requires { length bytes.now ≡ 8 }
    ensures { result ≡ from_le_bytes w64 bytes.now }
{
    u64::from_le_bytes([
        bytes[0], bytes[1], bytes[2], bytes[3], bytes[4], bytes[5], bytes[6], bytes[7],
    ])
}

// The numbers of eight bytes each. No memory is asked for but that of as many numbers.
fn eights(alloc: Global, bytes: &[u8]) -> Result<Vec<u64>, AllocError>
    ensures value { IfOk result (λ v. v.items ≡ eights bytes.now) }
    ensures few { IfOk result (λ v. 8 * vec_len v ≤ length bytes.now) }
    ensures memory { IfOk result (λ v. vec_capacity v ≡ length bytes.now / 8) }
{
    let mut numbers = Vec::with_capacity(alloc, bytes.len() / 8)?;
    let mut rest = bytes;
    while rest.len() >= 8 {
        let (front, after) = rest.split_at(8);
        numbers.push_reserved(eight(front));
        rest = after;
    }
    Ok(numbers)
}

// Whether the numbers ascend. All of them are read, so that the compiler compares eight at a time.
fn ascends(numbers: &[u16]) -> bool
    ensures { result ≡ ascends 0 numbers.now }
{
    if numbers.len() == 0 {
        return true;
    }
    let mut is_sorted = true;
    for i in 1..numbers.len() {
        is_sorted &= numbers[i - 1] < numbers[i];
    }
    is_sorted
}

// How many bits of the words are 1.
fn word_total(words: &[u64]) -> u32
    requires { length words.now ≤ 1024 }
    ensures { result ≡ word_total words.now }
{
    let mut total = 0;
    for &word in words {
        total += word.count_ones();
    }
    total
}

// How many numbers the runs have.
fn run_total(runs: &[Run]) -> u64
    requires { length runs.now ≤ 65536 }
    ensures { result ≡ run_total runs.now }
{
    let mut total = 0;
    for run in runs {
        if run.first <= run.last {
            total += run.last as u64 + 1 - run.first as u64;
        }
    }
    total
}

// A run of its first number and how many more it has, if it begins at `from` or after it.
fn one_run(from: u32, first: u16, more: u16) -> Result<Run, ReadError>
    ensures { Gives (λ r. r) result (one_run from first more) }
{
    let last = first as u32 + more as u32;
    if (first as u32) < from || last > 65535 {
        return Err(ReadError::Fault(Fault::Runs));
    }
    Ok(Run {
        first,
        last: last as u16,
    })
}

// The runs of four bytes each. No memory is asked for but that of as many runs.
fn runs_in(alloc: Global, bytes: &[u8]) -> Result<Vec<Run>, ReadError>
    ensures value { Gives (λ v. v.items) result (runs_in 0 bytes.now) }
    ensures few { IfOk result (λ v. 4 * vec_len v ≤ length bytes.now) }
    ensures memory { IfOk result (λ v. vec_capacity v ≡ length bytes.now / 4) }
{
    let mut runs = Vec::with_capacity(alloc, bytes.len() / 4)?;
    let mut rest = bytes;
    let mut from: u32 = 0;
    while rest.len() >= 4 {
        let (front, after) = rest.split_at(4);
        let first = u16::from_le_bytes([front[0], front[1]]);
        let more = u16::from_le_bytes([front[2], front[3]]);
        let run = one_run(from, first, more)?;
        runs.push_reserved(run);
        from = run.last as u32 + 2;
        rest = after;
    }
    Ok(runs)
}

// Flag `k` of the bytes.
fn flag_at(flags: &[u8], k: usize) -> bool
    ensures { result ≡ flag_at flags.now k }
{
    match flags.get(k / 8) {
        Some(byte) => (*byte >> (k % 8)) % 2 == 1,
        None => false,
    }
}

// What the header says of a block, if its key is at least `from`.
fn one_head(from: u32, key: u16, others: u16, as_runs: bool) -> Result<Head, ReadError>
    ensures { Gives (λ h. h) result (one_head from key others as_runs) }
{
    if (key as u32) < from {
        return Err(ReadError::Fault(Fault::Keys));
    }
    Ok(Head {
        key,
        count: others as u32 + 1,
        as_runs,
    })
}

// What the header says of the blocks. No memory is asked for but that of as many as there are bytes for.
fn heads_in(alloc: Global, flags: &[u8], bytes: &[u8]) -> Result<Vec<Head>, ReadError>
    ensures value { Gives (λ v. v.items) result (heads_in flags.now 0 0 bytes.now) }
    ensures few { IfOk result (λ v. 4 * vec_len v ≤ length bytes.now) }
    ensures memory { IfOk result (λ v. vec_capacity v ≡ length bytes.now / 4) }
{
    let mut heads = Vec::with_capacity(alloc, bytes.len() / 4)?;
    let mut rest = bytes;
    let mut k = 0;
    let mut from: u32 = 0;
    while rest.len() >= 4 {
        let (front, after) = rest.split_at(4);
        let key = u16::from_le_bytes([front[0], front[1]]);
        let others = u16::from_le_bytes([front[2], front[3]]);
        let as_runs = flag_at(flags, k);
        let head = one_head(from, key, others, as_runs)?;
        heads.push_reserved(head);
        from = head.key as u32 + 1;
        k += 1;
        rest = after;
    }
    Ok(heads)
}

// `count` numbers as a list.
#[tactic(auto, unfolding(crate::specs::Reading::numbers_at))]
fn numbers_at(alloc: Global, count: u32, bytes: &[u8]) -> Result<(Data, &[u8]), ReadError>
    ensures value { Gives (λ x. (content_of x.0, x.1.now)) result (numbers_at count bytes.now) }
    ensures rest { IfOk result (λ x. length x.1.now ≤ length bytes.now) }
{
    let (front, rest) = bytes_at(2 * count as usize, bytes)?;
    let numbers = twos(alloc, front)?;
    if !ascends(&numbers) {
        return Err(ReadError::Fault(Fault::Unsorted));
    }
    Ok((Data::Numbers(numbers), rest))
}

// `count` numbers as bits.
#[tactic(auto, unfolding(crate::specs::Reading::words_at))]
fn words_at(alloc: Global, count: u32, bytes: &[u8]) -> Result<(Data, &[u8]), ReadError>
    ensures value { Gives (λ x. (content_of x.0, x.1.now)) result (words_at count bytes.now) }
    ensures rest { IfOk result (λ x. length x.1.now ≤ length bytes.now) }
{
    let (front, rest) = bytes_at(8192, bytes)?;
    let words = eights(alloc, front)?;
    if word_total(&words) != count {
        return Err(ReadError::Fault(Fault::Cardinality));
    }
    Ok((Data::Words(words), rest))
}

// The given number of runs, which have `count` numbers.
#[tactic(auto, unfolding(crate::specs::Reading::counted_runs_at))]
fn counted_runs_at(
    alloc: Global,
    count: u32,
    runs: u16,
    bytes: &[u8],
) -> Result<(Data, &[u8]), ReadError>
    ensures value { Gives (λ x. (content_of x.0, x.1.now)) result (counted_runs_at count runs bytes.now) }
    ensures rest { IfOk result (λ x. length x.1.now ≤ length bytes.now) }
{
    if runs == 0 {
        return Err(ReadError::Fault(Fault::NoRun));
    }
    let (front, rest) = bytes_at(4 * runs as usize, bytes)?;
    let runs = runs_in(alloc, front)?;
    if run_total(&runs) != count as u64 {
        return Err(ReadError::Fault(Fault::Cardinality));
    }
    Ok((Data::Runs(runs), rest))
}

// `count` numbers as runs.
#[tactic(auto, unfolding(crate::specs::Reading::runs_at))]
fn runs_at(alloc: Global, count: u32, bytes: &[u8]) -> Result<(Data, &[u8]), ReadError>
    ensures value { Gives (λ x. (content_of x.0, x.1.now)) result (runs_at count bytes.now) }
    ensures rest { IfOk result (λ x. length x.1.now ≤ length bytes.now) }
{
    let (runs, rest) = u16_at(bytes)?;
    counted_runs_at(alloc, count, runs, rest)
}

// The numbers of a block.
#[tactic(auto, unfolding(crate::specs::Reading::content_at))]
fn content_at(alloc: Global, head: Head, bytes: &[u8]) -> Result<(Data, &[u8]), ReadError>
    ensures value { Gives (λ x. (content_of x.0, x.1.now)) result (content_at head bytes.now) }
    ensures rest { IfOk result (λ x. length x.1.now ≤ length bytes.now) }
{
    if head.as_runs {
        runs_at(alloc, head.count, bytes)
    } else if head.count <= 4096 {
        numbers_at(alloc, head.count, bytes)
    } else {
        words_at(alloc, head.count, bytes)
    }
}

// Whether the offset of block `k` is this place.
fn is_offset(offsets: &[u8], k: usize, place: usize) -> bool
    requires { 4 * k + 4 ≤ length offsets.now }
    ensures { result ≡ nat_eq (offset_at offsets.now k) place }
{
    let at = 4 * k;
    let offset = u32::from_le_bytes([
        offsets[at],
        offsets[at + 1],
        offsets[at + 2],
        offsets[at + 3],
    ]);
    offset as usize == place
}

// Block `k`, whose offset is checked where there are any, among `total` bytes.
#[tactic(auto, unfolding(crate::specs::Reading::piece_at))]
fn piece_at<'a>(
    alloc: Global,
    checked: bool,
    total: usize,
    offsets: &[u8],
    k: usize,
    head: Head,
    bytes: &'a [u8],
) -> Result<(Stored, &'a [u8]), ReadError>
    requires room { IsTrue checked → 4 * k + 4 ≤ length offsets.now }
    requires within { length bytes.now ≤ total }
    ensures value { Gives (λ x. (piece_of x.0, x.1.now)) result (piece_at checked total offsets.now k head bytes.now) }
    ensures rest { IfOk result (λ x. length x.1.now ≤ length bytes.now) }
{
    if checked && !is_offset(offsets, k, total - bytes.len()) {
        return Err(ReadError::Fault(Fault::Offset));
    }
    let (content, rest) = content_at(alloc, head, bytes)?;
    Ok((Stored { head, content }, rest))
}

// The blocks, whose offsets are checked where there are any, among `total` bytes.
fn pieces_in<'a>(
    alloc: Global,
    checked: bool,
    total: usize,
    offsets: &[u8],
    heads: &[Head],
    bytes: &'a [u8],
) -> Result<(Vec<Stored>, &'a [u8]), ReadError>
    requires room { IsTrue checked → 4 * length heads.now ≤ length offsets.now }
    requires within { length bytes.now ≤ total }
    ensures value { Gives (λ x. (pieces_of x.0.items, x.1.now)) result (pieces_in checked total offsets.now 0 heads.now bytes.now) }
    ensures memory { IfOk result (λ x. vec_capacity x.0 ≡ length heads.now) }
{
    let mut blocks = Vec::with_capacity(alloc, heads.len())?;
    let mut rest = bytes;
    for (k, head) in heads.iter().enumerate() {
        let (block, after) = piece_at(alloc, checked, total, offsets, k, *head, rest)?;
        blocks.push_reserved(block);
        rest = after;
    }
    Ok((blocks, rest))
}

// What the first bytes say, where there are no flags.
#[tactic(auto, unfolding(crate::specs::Reading::plain_start_at))]
fn plain_start_at(bytes: &[u8]) -> Result<(Start, &[u8]), ReadError>
    ensures value { Gives (λ x. (x.0, x.1.now)) result (plain_start_at bytes.now) }
    ensures most { IfOk result (λ x. x.0.count ≤ 65536) }
    ensures rest { IfOk result (λ x. length x.1.now ≤ length bytes.now) }
{
    let (count, rest) = u32_at(bytes)?;
    if count > 65536 {
        return Err(ReadError::Fault(Fault::TooMany));
    }
    Ok((
        Start {
            flagged: false,
            count: count as usize,
        },
        rest,
    ))
}

// What the first bytes say.
#[tactic(auto, unfolding(crate::specs::Reading::start_at))]
fn start_at(bytes: &[u8]) -> Result<(Start, &[u8]), ReadError>
    ensures value { Gives (λ x. (x.0, x.1.now)) result (start_at bytes.now) }
    ensures most { IfOk result (λ x. x.0.count ≤ 65536) }
    ensures rest { IfOk result (λ x. length x.1.now ≤ length bytes.now) }
{
    let (cookie, rest) = u16_at(bytes)?;
    let (number, rest) = u16_at(rest)?;
    if cookie == 12347 {
        let start = Start {
            flagged: true,
            count: number as usize + 1,
        };
        return Ok((start, rest));
    }
    if cookie == 12346 && number == 0 {
        return plain_start_at(rest);
    }
    Err(ReadError::Fault(Fault::Cookie))
}

// How many bytes the flags take.
fn flags_len(start: Start) -> usize
    requires { start.count ≤ 65536 }
    ensures { result ≡ flags_len start }
{
    if start.flagged {
        (start.count + 7) / 8
    } else {
        0
    }
}

// Whether there are offsets.
fn has_offsets(start: Start) -> bool
    ensures { result ≡ has_offsets start.flagged start.count }
{
    !start.flagged || 4 <= start.count
}

// How many bytes the offsets take.
fn offsets_len(start: Start) -> usize
    requires { start.count ≤ 65536 }
    ensures { result ≡ offsets_len start }
{
    if has_offsets(start) {
        4 * start.count
    } else {
        0
    }
}

// All of the bytes.
#[tactic(auto, unfolding(crate::specs::Reading::all_of))]
fn all_of(alloc: Global, bytes: &[u8]) -> Result<Vec<Stored>, ReadError>
    ensures { Gives (λ v. pieces_of v.items) result (all_of bytes.now) }
{
    let (start, rest) = start_at(bytes)?;
    let (flags, rest) = bytes_at(flags_len(start), rest)?;
    let (described, rest) = bytes_at(4 * start.count, rest)?;
    let heads = heads_in(alloc, flags, described)?;
    let (offsets, rest) = bytes_at(offsets_len(start), rest)?;
    let (blocks, rest) = pieces_in(
        alloc,
        has_offsets(start),
        bytes.len(),
        offsets,
        &heads,
        rest,
    )?;
    if !rest.is_empty() {
        return Err(ReadError::Fault(Fault::Trailing));
    }
    Ok(blocks)
}

/// The blocks that the bytes are a form of.
///
/// The bytes are a form of what is read. Blocks that the bytes are a form of are read, unless memory runs out. A fault
/// is the first that reading comes to, and tells something of the bytes, as that of `read` does.
pub fn read_stored(alloc: Global, bytes: &[u8]) -> Result<Vec<Stored>, ReadError>
    ensures found { IfOk result (λ v. IsWritten bytes.now (pieces_of v.items)) }
    ensures only { (ps : List Piece) → IsWritten bytes.now ps → Gives (λ v. pieces_of v.items) result (Ok ps) }
    ensures exact { Gives (λ v. pieces_of v.items) result (all_of bytes.now) }
    ensures fault { FailsBy result (Tells bytes.now) }
{
    all_of(alloc, bytes)
}
