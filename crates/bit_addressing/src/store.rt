//! The words that bits lie in.
ghost use Rattle.std.specs.Prelude.{◌≡◌, ◌≢◌, ℕ, ◌+◌, ◌-◌, ◌<◌, ◌≤◌, Bool, false, not, ◌&&◌, ◌||◌, if◌then◌else◌, eqb, refl, count_ones, map};
ghost use Rattle.std.proofs.Common.{inl, inr};
ghost use Rattle.bit_addressing.specs.Bits.{has_bit, IsWidth};
ghost use Rattle.bit_addressing.specs.Row.{AreWords};

use crate::vectors::reverse_both;

/// A word of bits: `u8`, `u16`, `u32`, `u64` or `usize`, which has 64 bits.
///
/// Places are counted from the least significant one: place `p` is worth 2 to the power `p`. Each
/// operation is stated bit by bit, for the places below `BITS`, and none takes memory.
///
/// ```text
/// 0x1c_u8.bit(2)                == true
/// 0x1c_u8.with_bit(2, false)    == 0x18
/// ```
pub trait BitStore: Copy + Drop {
    // The number that a word is.
    ghost value: { Self → ℕ };

    // The word that a number of `BITS` bits is.
    ghost number: { ℕ → Self };

    ghost BITS: { ℕ };

    ghost ZERO: { Self };

    /// The number of bits of a word.
    const BITS: u8;

    /// The word with no bit set.
    const ZERO: Self;

    /// The bits that are set in both.
    fn and(self, other: Self) -> Self
        ensures { (p : ℕ) → p < BITS
            → has_bit (value result) p ≡ (has_bit (value self) p && has_bit (value other) p) };

    /// The bits that are set in one or in both.
    fn or(self, other: Self) -> Self
        ensures { (p : ℕ) → p < BITS
            → has_bit (value result) p ≡ (has_bit (value self) p || has_bit (value other) p) };

    /// The bits that are set in one alone.
    fn xor(self, other: Self) -> Self
        ensures { (p : ℕ) → p < BITS
            → has_bit (value result) p
            ≡ (if has_bit (value self) p then not (has_bit (value other) p) else has_bit (value other) p) };

    /// Every bit flipped.
    fn not(self) -> Self
        ensures { (p : ℕ) → p < BITS → has_bit (value result) p ≡ not (has_bit (value self) p) };

    /// Moves the bits up by `count` places, and clears the places below. Requires that `count` is below `BITS`.
    fn shl(self, count: u8) -> Self
        requires { count < BITS }
        ensures low { (p : ℕ) → p < count → has_bit (value result) p ≡ false }
        ensures high { (p : ℕ) → count ≤ p → p < BITS → has_bit (value result) p ≡ has_bit (value self) (p - count) };

    /// Moves the bits down by `count` places, and clears the places above. Requires that `count` is below `BITS`.
    fn shr(self, count: u8) -> Self
        requires { count < BITS }
        ensures low { (p : ℕ) → p + count < BITS → has_bit (value result) p ≡ has_bit (value self) (p + count) }
        ensures high { (p : ℕ) → BITS ≤ p + count → has_bit (value result) p ≡ false };

    /// The bit at a place. Requires that `place` is below `BITS`.
    fn bit(self, place: u8) -> bool
        requires { place < BITS }
        ensures { result ≡ has_bit (value self) place };

    /// The word with `bit` written at a place, and its other bits kept. Requires that `place` is below `BITS`.
    fn with_bit(self, place: u8, bit: bool) -> Self
        requires { place < BITS }
        ensures { (p : ℕ) → p < BITS
            → has_bit (value result) p ≡ (if eqb p place then bit else has_bit (value self) p) };

    /// The bits in the opposite places: place `p` gets the bit of place `BITS - 1 - p`.
    fn reverse(self) -> Self
        ensures { (p : ℕ) → p < BITS → has_bit (value result) p ≡ has_bit (value self) (BITS - 1 - p) };

    /// This word and the next in the opposite order, each reversed: first `next.reverse()`, then `self.reverse()`.
    fn reverse_pair(self, next: Self) -> (Self, Self)
        ensures front { (p : ℕ) → p < BITS → has_bit (value result.0) p ≡ has_bit (value next) (BITS - 1 - p) }
        ensures back { (p : ℕ) → p < BITS → has_bit (value result.1) p ≡ has_bit (value self) (BITS - 1 - p) }
    {
        (next.reverse(), self.reverse())
    }

    /// The bits at their places in 64, with the places above clear.
    fn to_u64(self) -> u64
        ensures low { (p : ℕ) → p < BITS → has_bit result p ≡ has_bit (value self) p }
        ensures high { (p : ℕ) → BITS ≤ p → has_bit result p ≡ false };

    /// The word of the lowest `BITS` bits of `n`.
    fn from_u64(n: u64) -> Self
        ensures { (p : ℕ) → p < BITS → has_bit (value result) p ≡ has_bit n p };

    /// The number of set bits.
    fn count_ones(self) -> u32
        ensures { result ≡ count_ones (value self) };

    /// Proof only: that these words are numbers of `BITS` bits is known of each type, and a proof over any type
    /// learns it here.
    fn are_words(words: &[Self])
        ensures { AreWords BITS (map value words.now) };

    ghost width: { IsWidth BITS };

    ghost number_is: { (word : Self) → number (value word) ≡ word };

    ghost zero_is: { value ZERO ≡ 0 };
}

impl BitStore for u8 {
    ghost value = { λ w. w };

    ghost number = { λ n. n };

    ghost BITS = { 8 };

    ghost ZERO = { 0 };

    ghost width = { inl refl };

    ghost zero_is = { refl };

    ghost number_is = { λ w. refl };

    const BITS: u8 = 8;

    const ZERO: u8 = 0;

    #[tactic(auto, using(crate::proofs::Words::has_and))]
    fn and(self, other: u8) -> u8 {
        self & other
    }

    #[tactic(auto, using(crate::proofs::Words::has_or))]
    fn or(self, other: u8) -> u8 {
        self | other
    }

    #[tactic(auto, using(crate::proofs::Words::has_xor))]
    fn xor(self, other: u8) -> u8 {
        self ^ other
    }

    fn not(self) -> u8 {
        !self
    }

    fn shl(self, count: u8) -> u8 {
        self << count
    }

    fn shr(self, count: u8) -> u8 {
        self >> count
    }

    fn bit(self, place: u8) -> bool {
        (self >> place) & 1 == 1
    }

    fn with_bit(self, place: u8, bit: bool) -> u8 {
        (self & !(1 << place)) | ((bit as u8) << place)
    }

    fn reverse(self) -> u8 {
        let pairs = ((self >> 1) & 0x55) | ((self & 0x55) << 1);
        let fours = ((pairs >> 2) & 0x33) | ((pairs & 0x33) << 2);
        ((fours >> 4) & 0x0f) | ((fours & 0x0f) << 4)
    }

    fn to_u64(self) -> u64 {
        self as u64
    }

    fn from_u64(n: u64) -> u8 {
        (n % 256) as u8
    }

    fn count_ones(self) -> u32 {
        self.count_ones()
    }

    fn are_words(words: &[u8]) {}
}

impl BitStore for u16 {
    ghost value = { λ w. w };

    ghost number = { λ n. n };

    ghost BITS = { 16 };

    ghost ZERO = { 0 };

    ghost width = { inr (inl refl) };

    ghost zero_is = { refl };

    ghost number_is = { λ w. refl };

    const BITS: u8 = 16;

    const ZERO: u16 = 0;

    #[tactic(auto, using(crate::proofs::Words::has_and))]
    fn and(self, other: u16) -> u16 {
        self & other
    }

    #[tactic(auto, using(crate::proofs::Words::has_or))]
    fn or(self, other: u16) -> u16 {
        self | other
    }

    #[tactic(auto, using(crate::proofs::Words::has_xor))]
    fn xor(self, other: u16) -> u16 {
        self ^ other
    }

    fn not(self) -> u16 {
        !self
    }

    fn shl(self, count: u8) -> u16 {
        self << count
    }

    fn shr(self, count: u8) -> u16 {
        self >> count
    }

    fn bit(self, place: u8) -> bool {
        (self >> place) & 1 == 1
    }

    fn with_bit(self, place: u8, bit: bool) -> u16 {
        (self & !(1 << place)) | ((bit as u16) << place)
    }

    fn reverse(self) -> u16 {
        let pairs = ((self >> 1) & 0x5555) | ((self & 0x5555) << 1);
        let fours = ((pairs >> 2) & 0x3333) | ((pairs & 0x3333) << 2);
        let bytes = ((fours >> 4) & 0x0f0f) | ((fours & 0x0f0f) << 4);
        ((bytes >> 8) & 0x00ff) | ((bytes & 0x00ff) << 8)
    }

    fn to_u64(self) -> u64 {
        self as u64
    }

    fn from_u64(n: u64) -> u16 {
        (n % 65536) as u16
    }

    fn count_ones(self) -> u32 {
        self.count_ones()
    }

    fn are_words(words: &[u16]) {}
}

impl BitStore for u32 {
    ghost value = { λ w. w };

    ghost number = { λ n. n };

    ghost BITS = { 32 };

    ghost ZERO = { 0 };

    ghost width = { inr (inr (inl refl)) };

    ghost zero_is = { refl };

    ghost number_is = { λ w. refl };

    const BITS: u8 = 32;

    const ZERO: u32 = 0;

    #[tactic(auto, using(crate::proofs::Words::has_and))]
    fn and(self, other: u32) -> u32 {
        self & other
    }

    #[tactic(auto, using(crate::proofs::Words::has_or))]
    fn or(self, other: u32) -> u32 {
        self | other
    }

    #[tactic(auto, using(crate::proofs::Words::has_xor))]
    fn xor(self, other: u32) -> u32 {
        self ^ other
    }

    fn not(self) -> u32 {
        !self
    }

    fn shl(self, count: u8) -> u32 {
        self << count
    }

    fn shr(self, count: u8) -> u32 {
        self >> count
    }

    fn bit(self, place: u8) -> bool {
        (self >> place) & 1 == 1
    }

    fn with_bit(self, place: u8, bit: bool) -> u32 {
        (self & !(1 << place)) | ((bit as u32) << place)
    }

    fn reverse(self) -> u32 {
        let pairs = ((self >> 1) & 0x55555555) | ((self & 0x55555555) << 1);
        let fours = ((pairs >> 2) & 0x33333333) | ((pairs & 0x33333333) << 2);
        let bytes = ((fours >> 4) & 0x0f0f0f0f) | ((fours & 0x0f0f0f0f) << 4);
        let halves = ((bytes >> 8) & 0x00ff00ff) | ((bytes & 0x00ff00ff) << 8);
        ((halves >> 16) & 0x0000ffff) | ((halves & 0x0000ffff) << 16)
    }

    fn to_u64(self) -> u64 {
        self as u64
    }

    fn from_u64(n: u64) -> u32 {
        (n % 4294967296) as u32
    }

    fn count_ones(self) -> u32 {
        self.count_ones()
    }

    fn are_words(words: &[u32]) {}
}

impl BitStore for u64 {
    ghost value = { λ w. w };

    ghost number = { λ n. n };

    ghost BITS = { 64 };

    ghost ZERO = { 0 };

    ghost width = { inr (inr (inr refl)) };

    ghost zero_is = { refl };

    ghost number_is = { λ w. refl };

    const BITS: u8 = 64;

    const ZERO: u64 = 0;

    #[tactic(auto, using(crate::proofs::Words::has_and))]
    fn and(self, other: u64) -> u64 {
        self & other
    }

    #[tactic(auto, using(crate::proofs::Words::has_or))]
    fn or(self, other: u64) -> u64 {
        self | other
    }

    #[tactic(auto, using(crate::proofs::Words::has_xor))]
    fn xor(self, other: u64) -> u64 {
        self ^ other
    }

    fn not(self) -> u64 {
        !self
    }

    fn shl(self, count: u8) -> u64 {
        self << count
    }

    fn shr(self, count: u8) -> u64 {
        self >> count
    }

    fn bit(self, place: u8) -> bool {
        (self >> place) & 1 == 1
    }

    fn with_bit(self, place: u8, bit: bool) -> u64 {
        (self & !(1 << place)) | ((bit as u64) << place)
    }

    fn reverse(self) -> u64 {
        let pairs = ((self >> 1) & 0x5555555555555555) | ((self & 0x5555555555555555) << 1);
        let fours = ((pairs >> 2) & 0x3333333333333333) | ((pairs & 0x3333333333333333) << 2);
        let bytes = ((fours >> 4) & 0x0f0f0f0f0f0f0f0f) | ((fours & 0x0f0f0f0f0f0f0f0f) << 4);
        let halves = ((bytes >> 8) & 0x00ff00ff00ff00ff) | ((bytes & 0x00ff00ff00ff00ff) << 8);
        let words = ((halves >> 16) & 0x0000ffff0000ffff) | ((halves & 0x0000ffff0000ffff) << 16);
        ((words >> 32) & 0x00000000ffffffff) | ((words & 0x00000000ffffffff) << 32)
    }

    fn reverse_pair(self, next: u64) -> (u64, u64) {
        reverse_both(self, next)
    }

    fn to_u64(self) -> u64 {
        self
    }

    fn from_u64(n: u64) -> u64 {
        n
    }

    fn count_ones(self) -> u32 {
        self.count_ones()
    }

    fn are_words(words: &[u64]) {}
}

impl BitStore for usize {
    ghost value = { λ w. w };

    ghost number = { λ n. n };

    ghost BITS = { 64 };

    ghost ZERO = { 0 };

    ghost width = { inr (inr (inr refl)) };

    ghost zero_is = { refl };

    ghost number_is = { λ w. refl };

    const BITS: u8 = 64;

    const ZERO: usize = 0;

    #[tactic(auto, using(crate::proofs::Words::has_and))]
    fn and(self, other: usize) -> usize {
        self & other
    }

    #[tactic(auto, using(crate::proofs::Words::has_or))]
    fn or(self, other: usize) -> usize {
        self | other
    }

    #[tactic(auto, using(crate::proofs::Words::has_xor))]
    fn xor(self, other: usize) -> usize {
        self ^ other
    }

    fn not(self) -> usize {
        !self
    }

    fn shl(self, count: u8) -> usize {
        self << count
    }

    fn shr(self, count: u8) -> usize {
        self >> count
    }

    fn bit(self, place: u8) -> bool {
        (self >> place) & 1 == 1
    }

    fn with_bit(self, place: u8, bit: bool) -> usize {
        (self & !(1 << place)) | ((bit as usize) << place)
    }

    fn reverse(self) -> usize {
        let pairs = ((self >> 1) & 0x5555555555555555) | ((self & 0x5555555555555555) << 1);
        let fours = ((pairs >> 2) & 0x3333333333333333) | ((pairs & 0x3333333333333333) << 2);
        let bytes = ((fours >> 4) & 0x0f0f0f0f0f0f0f0f) | ((fours & 0x0f0f0f0f0f0f0f0f) << 4);
        let halves = ((bytes >> 8) & 0x00ff00ff00ff00ff) | ((bytes & 0x00ff00ff00ff00ff) << 8);
        let words = ((halves >> 16) & 0x0000ffff0000ffff) | ((halves & 0x0000ffff0000ffff) << 16);
        ((words >> 32) & 0x00000000ffffffff) | ((words & 0x00000000ffffffff) << 32)
    }

    fn reverse_pair(self, next: usize) -> (usize, usize) {
        let (front, back) = reverse_both(self as u64, next as u64);
        (front as usize, back as usize)
    }

    fn to_u64(self) -> u64 {
        self as u64
    }

    fn from_u64(n: u64) -> usize {
        n as usize
    }

    fn count_ones(self) -> u32 {
        self.count_ones()
    }

    fn are_words(words: &[usize]) {}
}
