//! The first number that is large enough.
ghost use Rattle.std.specs.Prelude.{◌≡◌, ℕ, ◌+◌, ◌*◌, ◌<◌, ◌≤◌, ◌↔◌, All, Contains, IfNone, IfSome, IsTrue, None, Some, count_by, drop, length, nat_lt, slice_get, take};
ghost use Rattle.std.specs.List.Sorted.{IsNonDecreasing};
ghost use Rattle.bit_addressing.specs.declared.length.TheConstants.{MAX_BITS};
ghost use Rattle.bit_slice.specs.Places.{ones_of};
ghost use Rattle.bit_slice.specs.Numbered.{zeros_before};
ghost use Rattle.bit_sets.specs.Sorted.{AreSameHigh, IsUptoHigh, high_part, low_part};

use crate::sorted::{SortedNumbers, low_bits_at};
use bit_containers::{BitList, BitVec, Lsb0};
use bit_ranks::Ranks;
use std::ops::Range;

impl SortedNumbers {
    /// The index of the first number that is at least `x`, and that number. None exactly where all numbers
    /// are below `x`. It is one `select0`, and a binary search among the numbers with the high bits of `x`.
    ///
    /// ```text
    /// of 2, 3, 9, 9:  numbers.next_at_least(4) == Some((2, 9))
    /// ```
    pub fn next_at_least(&self, x: u64) -> Option<(usize, u64)>
        ensures found { IfSome result (λ found. slice_get self.now found.0 ≡ Some found.1) }
        ensures enough { IfSome result (λ found. x ≤ found.1) }
        ensures before { IfSome result (λ found. All (λ number. number < x) (take found.0 self.now)) }
        ensures none { (result ≡ None) ↔ All (λ number. number < x) self.now }
        ensures ascends { IsNonDecreasing self.now }
    {
        let high = x >> self.width;
        match same_high(&self.high, self.len, high as usize) {
            None => None,
            Some(same) => {
                let rest = x - (high << self.width);
                let k = first_low(&self.low, self.width, same.start, same.end, rest);
                match self.high.as_bitslice().next_one(k + high as usize) {
                    None => None,
                    Some(place) => {
                        let low = low_bits_at(&self.low, self.width, k);
                        Some((k, (((place - k) as u64) << self.width) + low))
                    }
                }
            }
        }
    }

    /// The index of the last number that is at most `x`, and that number. None exactly where all numbers are above
    /// `x`. It is a search like that of `next_at_least`, and one `select1`.
    ///
    /// ```text
    /// of 2, 3, 9, 9:  numbers.previous_at_most(4) == Some((1, 3))
    /// ```
    pub fn previous_at_most(&self, x: u64) -> Option<(usize, u64)>
        ensures found { IfSome result (λ found. slice_get self.now found.0 ≡ Some found.1) }
        ensures most { IfSome result (λ found. found.1 ≤ x) }
        ensures after { IfSome result (λ found. All (λ number. x < number) (drop (found.0 + 1) self.now)) }
        ensures none { (result ≡ None) ↔ All (λ number. x < number) self.now }
    {
        let upto = self.count_upto(x);
        if upto == 0 {
            return None;
        }
        let k = upto - 1;
        match self.get(k) {
            None => None,
            Some(number) => Some((k, number)),
        }
    }

    /// The count of numbers below `x`. It searches like `next_at_least`.
    ///
    /// ```text
    /// of 2, 3, 9, 9:  numbers.rank(9) == 2
    /// ```
    pub fn rank(&self, x: u64) -> usize
        ensures value { result ≡ count_by (λ number. nat_lt number x) self.now }
        ensures below { All (λ number. number < x) (take result self.now) }
        ensures from { All (λ number. x ≤ number) (drop result self.now) }
        ensures few { result ≤ length self.now }
    {
        match self.next_at_least(x) {
            None => self.len(),
            Some((k, _)) => k,
        }
    }

    // How many numbers are at most `x`.
    fn count_upto(&self, x: u64) -> usize
        ensures upto { All (λ number. number ≤ x) (take result self.now) }
        ensures after { All (λ number. x < number) (drop result self.now) }
        ensures few { result ≤ length self.now }
    {
        if x == u64::MAX {
            return self.len;
        }
        self.rank(x + 1)
    }

    /// Whether `x` is one of the numbers. It searches like `next_at_least`.
    pub fn contains(&self, x: u64) -> bool
        ensures { IsTrue result ↔ Contains self.now x }
    {
        match self.next_at_least(x) {
            None => false,
            Some((_, number)) => number == x,
        }
    }
}

// The indices of the numbers with these high bits, whose ones are between two zeros. None where there are too
// few zeros for such numbers, or for larger ones.
#[inline(always)]
fn same_high(ones: &Ranks<u64, Lsb0>, len: usize, high: usize) -> Option<Range<usize>>
    requires { length (ones_of ones.now.list) ≡ len }
    ensures some { IfSome result (λ same. AreSameHigh ones.now.list high same.start same.end) }
    ensures none { IfNone result ((k : ℕ) → k < len → high_part ones.now.list k < high) }
{
    if high == 0 {
        return Some(0..upto_zero(ones, len, 0, 0));
    }
    match ones.select0(high - 1) {
        None => None,
        Some(place) => {
            let end = upto_zero(ones, len, place + 1, high);
            Some(place + 1 - high..end)
        }
    }
}

// The count of numbers that have at most these high bits: how many ones are before the first zero at `from` or after
// it. Requires that as many zeros are before `from` as the high bits say.
#[inline(always)]
fn upto_zero(ones: &Ranks<u64, Lsb0>, len: usize, from: usize, high: usize) -> usize
    requires count { length (ones_of ones.now.list) ≡ len }
    requires inside { from ≤ length ones.now.list }
    requires zeros { zeros_before ones.now.list from ≡ high }
    ensures begins { from ≤ result + high }
    ensures upto { IsUptoHigh ones.now.list high result }
{
    match ones.as_bitslice().next_zero(from) {
        None => len,
        Some(place) => place - high,
    }
}

// The index of the first of the numbers `first..end` whose low bits are at least `rest`, or `end`.
// Requires that the low bits of these numbers ascend.
fn first_low(low: &BitVec<u64, Lsb0>, width: u8, first: usize, end: usize, rest: u64) -> usize
    requires narrow { width < 64 }
    requires ordered { first ≤ end }
    requires inside { end * width ≤ length low.now.list }
    requires few { end * width ≤ MAX_BITS }
    requires ascend { (i j : ℕ) → first ≤ i → i ≤ j → j < end
        → low_part width low.now.list i ≤ low_part width low.now.list j }
    ensures begins { first ≤ result }
    ensures ends { result ≤ end }
    ensures below { (k : ℕ) → first ≤ k → k < result → low_part width low.now.list k < rest }
    ensures above { (k : ℕ) → result ≤ k → k < end → rest ≤ low_part width low.now.list k }
{
    let mut from = first;
    let mut upto = end;
    'halve: while from < upto {
        let middle = from + (upto - from) / 2;
        if low_bits_at(low, width, middle) < rest {
            from = middle + 1;
        } else {
            upto = middle;
        }
    }
    from
}
