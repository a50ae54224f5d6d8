//! Ascending numbers in little more memory than their gaps need.
ghost use Rattle.std.specs.Prelude.{◌≡◌, ℕ, ◌+◌, ◌-◌, ◌*◌, ◌/◌, ◌^◌, ◌<◌, ◌≤◌, ◌↔◌, All, IsTrue, length, slice_get};
ghost use Rattle.std.specs.List.Sorted.{IsNonDecreasing};
ghost use Rattle.bit_addressing.specs.declared.length.TheConstants.{MAX_BITS};
ghost use Rattle.bit_sets.specs.Sorted.{last_of, low_part, low_width};

mod errors;
mod iter;
mod making;
mod search;
mod traits;

use bit_containers::{BitList, BitVec, Lsb0};
use bit_ranks::Ranks;
pub use errors::SortedError;
pub use iter::Numbers;
use std::marker::Model;

/// An ascending list of numbers, equal ones allowed. It takes about two bits for each number more than the
/// logarithm of their mean gap.
///
/// Each number is in two parts: its low bits are in binary in one list; its high bits are a one in
/// another list, and their value is the number of zeros before it. The numbers can't be changed.
///
/// In contracts sorted numbers are the list of the numbers.
///
/// ```rust
/// use bit_sets::SortedNumbers;
///
/// let numbers = SortedNumbers::from_slice(rt.alloc(), &[2, 3, 9, 9])?;
/// println!(&rt; "{:?}, {:?}, {} below 9", numbers.get(1), numbers.next_at_least(4), numbers.rank(9))?;
/// println!(&rt; "{}", numbers.contains(4))?;
/// ```
///
/// ```text
/// Some(3), Some((2, 9)), 2 below 9
/// false
/// ```
#[derive(Drop)]
pub struct SortedNumbers {
    high: Ranks<u64, Lsb0>,
    low: BitVec<u64, Lsb0>,
    width: u8,
    len: usize,
}

impl Model for SortedNumbers {
    ghost use Rattle.std.specs.Prelude.{ℕ, List};
    ghost use Rattle.std.specs.Coded.{coded_list, coded_ℕ};
    ghost use Rattle.bit_sets.specs.Sorted.{IsPacked, numbers_of};

    ghost Value = { List ℕ };

    ghost coded = { coded_list coded_ℕ };

    ghost view = { λ s. numbers_of s.len s.width s.high.list s.low.list };

    ghost invariant = { λ s. IsPacked s.len s.width s.high.list s.low.list };
}

impl SortedNumbers {
    /// The count of numbers.
    pub fn len(&self) -> usize
        ensures { result ≡ length self.now }
    {
        self.len
    }

    /// Whether there is no number.
    pub fn is_empty(&self) -> bool
        ensures { IsTrue result ↔ (length self.now ≡ 0) }
    {
        self.len() == 0
    }

    /// The first number, the smallest. None exactly where there is none.
    pub fn first(&self) -> Option<u64>
        ensures { result ≡ slice_get self.now 0 }
    {
        self.get(0)
    }

    /// The last number, the greatest. None exactly where there is none.
    pub fn last(&self) -> Option<u64>
        ensures { result ≡ slice_get self.now (length self.now - 1) }
    {
        self.get(self.len().saturating_sub(1))
    }

    /// How many bits the two lists take, without the counts of the ones: at most `w + 2` for each number, where
    /// no number is larger than `len` times 2 to the power `w`.
    ///
    /// ```text
    /// of 2, 3, 9, 9:  numbers.size_in_bits() == 12    // 8 bits for the high parts, 4 for the low ones
    /// ```
    pub fn size_in_bits(&self) -> usize
        ensures value { result
            ≡ length self.now * (low_width self.now + 1) + last_of self.now / 2 ^ low_width self.now }
        ensures bound { (w : ℕ) → All (λ number. number ≤ length self.now * 2 ^ w) self.now
            → result ≤ (w + 2) * length self.now }
    {
        self.high.len() + self.low.len()
    }

    /// The number at index `k`. None exactly where `k` is the length or more. It is one `select1`, and one read
    /// of the low bits.
    ///
    /// ```text
    /// of 2, 3, 9, 9:  numbers.get(2) == Some(9)
    /// ```
    pub fn get(&self, k: usize) -> Option<u64>
        ensures value { result ≡ slice_get self.now k }
        ensures ascends { IsNonDecreasing self.now }
    {
        match self.high.select1(k) {
            None => None,
            Some(place) => {
                let low = low_bits_at(&self.low, self.width, k);
                Some((((place - k) as u64) << self.width) + low)
            }
        }
    }
}

// The low bits of number `k`.
#[inline(always)]
fn low_bits_at(low: &BitVec<u64, Lsb0>, width: u8, k: usize) -> u64
    requires narrow { width < 64 }
    requires inside { k * width + width ≤ length low.now.list }
    requires few { k * width ≤ MAX_BITS }
    ensures value { result ≡ low_part width low.now.list k }
    ensures below { result < 2 ^ width }
{
    low.load_be_at(k * width as usize, width)
}
