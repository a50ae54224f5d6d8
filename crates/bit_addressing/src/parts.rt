//! Words made of parts of other words, and words of one bit.
ghost use Rattle.std.specs.Prelude.{◌≡◌, ℕ, ◌+◌, ◌-◌, ◌<◌, ◌≤◌, if◌then◌else◌, false};
ghost use Rattle.bit_addressing.specs.Bits.{has_bit};

use crate::store::BitStore;

/// The word with the bits of `new` where `mask` has one, and those of `old` elsewhere.
pub fn blend<T: BitStore>(old: T, new: T, mask: T) -> T
    ensures { (p : ℕ) → p < T.BITS
        → has_bit (T.value result) p
        ≡ (if has_bit (T.value mask) p then has_bit (T.value new) p else has_bit (T.value old) p) }
{
    old.and(mask.not()).or(new.and(mask))
}

/// The word whose bits are all `bit`.
pub fn repeated<T: BitStore>(bit: bool) -> T
    ensures { (p : ℕ) → p < T.BITS → has_bit (T.value result) p ≡ bit }
{
    if bit { T::ZERO.not() } else { T::ZERO }
}

// The word moved up until its lowest bit stands where those of a word moved down by `count` end. Words of 16
// and 32 bits go in two steps, of which the compiler makes a faster loop (docs/TUNING.md, "What is not fast",
// words of 16 bits). Requires that `count` is above 0 and below `T::BITS`.
#[inline(always)]
pub(crate) fn shl_by_rest<T: BitStore>(word: T, count: u8) -> T
    requires some { 0 < count }
    requires within { count < T.BITS }
    ensures low { (p : ℕ) → p < T.BITS - count → has_bit (T.value result) p ≡ false }
    ensures high { (p : ℕ) → T.BITS - count ≤ p → p < T.BITS
        → has_bit (T.value result) p ≡ has_bit (T.value word) (p - (T.BITS - count)) }
{
    if T::BITS == 8 || T::BITS == 64 {
        return word.shl(T::BITS - count);
    }
    word.shl(T::BITS - 1 - count).shl(1)
}

// Like `shl_by_rest`, downward: after a word that was moved up by `count`.
#[inline(always)]
pub(crate) fn shr_by_rest<T: BitStore>(word: T, count: u8) -> T
    requires some { 0 < count }
    requires within { count < T.BITS }
    ensures low { (p : ℕ) → p + (T.BITS - count) < T.BITS
        → has_bit (T.value result) p ≡ has_bit (T.value word) (p + (T.BITS - count)) }
    ensures high { (p : ℕ) → T.BITS ≤ p + (T.BITS - count) → has_bit (T.value result) p ≡ false }
{
    if T::BITS == 8 || T::BITS == 64 {
        return word.shr(T::BITS - count);
    }
    word.shr(T::BITS - 1 - count).shr(1)
}
