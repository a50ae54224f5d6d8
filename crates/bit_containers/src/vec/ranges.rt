//! The vector read from a text of ranges.
ghost use Rattle.std.specs.Prelude.{◌≡◌, ◌↔◌, ℕ, ◌<◌, ◌≤◌, List, Bool, Err, IfOk, IfSome, Ok, true, length};
ghost use Rattle.bit_addressing.specs.declared.length.TheConstants.{MAX_BITS};
ghost use Rattle.bit_slice.specs.BitRuns.{ranges_text};
ghost use Rattle.bit_containers.specs.BitVec.{IsClean};
ghost use Rattle.bit_containers.specs.RangesRead.{range_said, range_to, ranges_read};

use crate::parted::{cut_part, part_number};
use crate::vec::BitVec;
use crate::vec::text::ParseBitsError;
use bit_addressing::{BitOrder, BitStore};
use bit_slice::BitListMut;
use std::alloc::Global;
use std::ops::Range;

// The range from a first to a last index. None where one is missing, they are not in order, or the last is not below
// `len`.
fn range_between(len: usize, first: Option<usize>, last: Option<usize>) -> Option<Range<usize>>
    ensures value { result ≡ range_to len first last }
    ensures inside { IfSome result (λ range. (range.start ≤ range.end) × (range.end ≤ len)) }
{
    let (first, last) = (first?, last?);
    if first <= last && last < len {
        return Some(first..last + 1);
    }
    None
}

// The range that a part of a text says. None where it says none below `len`.
fn range_of(part: &[u8], len: usize) -> Option<Range<usize>>
    ensures value { result ≡ range_said len part.now }
    ensures inside { IfSome result (λ range. (range.start ≤ range.end) × (range.end ≤ len)) }
{
    let (first, rest) = cut_part(part, b'-');
    let Some(rest) = rest else {
        return range_between(len, part_number(first), part_number(first));
    };
    let (last, more) = cut_part(rest, b'-');
    if more.is_some() {
        return None;
    }
    range_between(len, part_number(first), part_number(last))
}

impl<T: BitStore, O: BitOrder> BitVec<T, O> {
    /// The list of `len` bits of which those at the indices of a text are true, from head 0 on: `0-3,7` says 0 to 3 and
    /// 7, in any order, as `ranges_text(true)` writes a list. Each part is an index below `len`, or two of them in order:
    /// `Wrong` has the place where the first other part begins. Returns `TooLong` exactly where `len` is above `MAX_BITS`.
    /// Takes memory unless `len` is 0.
    ///
    /// ```text
    /// BitVec::<u8, Lsb0>::from_ranges_text(alloc, "1-2,4", 6)? holds 011010
    /// ```
    pub fn from_ranges_text(alloc: Global, text: &str, len: usize) -> Result<Self, ParseBitsError>
        ensures head { IfOk result (λ v. v.head ≡ 0) }
        ensures list { IfOk result (λ v. ranges_read len text.now ≡ Ok v.list) }
        ensures clean { IfOk result (λ v. IsClean T.BITS v) }
        ensures wrong { (at : ℕ) → result ≡ Err (ParseBitsError.Wrong at) → ranges_read len text.now ≡ Err at }
        ensures reads_back { IfOk result (λ v. (bits : List Bool) → length bits ≡ len
            → text.now ≡ ranges_text true bits → v.list ≡ bits) }
        ensures is_read { (bits : List Bool) (at : ℕ) → length bits ≡ len → text.now ≡ ranges_text true bits
            → result ≡ Err (ParseBitsError.Wrong at) → ⊥ }
        ensures too_long { (result ≡ Err ParseBitsError.TooLong) ↔ (MAX_BITS < len) }
        ensures memory { result ≡ Err ParseBitsError.OutOfMemory → 0 < len }
    {
        let mut v = Self::repeat(alloc, false, len)?;
        let bytes = text.as_bytes();
        let mut rest = if bytes.is_empty() { None } else { Some(bytes) };
        while let Some(left) = rest {
            let (part, more) = cut_part(left, b',');
            let Some(range) = range_of(part, len) else {
                return Err(ParseBitsError::Wrong(bytes.len() - left.len()));
            };
            v.fill_range(range, true);
            rest = more;
        }
        Ok(v)
    }
}
