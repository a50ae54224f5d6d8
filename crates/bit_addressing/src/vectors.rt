//! Two words reversed at once, as one vector of their bytes.
ghost use Rattle.std.specs.Prelude.{◌≡◌, ℕ, ◌-◌, ◌<◌, slice_index};
ghost use Rattle.std.specs.Simd.Lanes.{Each1};
ghost use Rattle.bit_addressing.specs.Bits.{has_bit};

use std::simd::prelude::*;

// The numbers of four bits, each reversed.
const FOUR_BITS: [u8; 16] = [
    0x0, 0x8, 0x4, 0xc, 0x2, 0xa, 0x6, 0xe, 0x1, 0x9, 0x5, 0xd, 0x3, 0xb, 0x7, 0xf,
];

// The same, as the highest four bits of a byte.
const HIGHEST_FOUR: [u8; 16] = [
    0x00, 0x80, 0x40, 0xc0, 0x20, 0xa0, 0x60, 0xe0, 0x10, 0x90, 0x50, 0xd0, 0x30, 0xb0, 0x70, 0xf0,
];

// Each byte reversed, by a lookup of its lowest four bits and one of its highest.
#[inline(always)]
fn reverse_bytes(bytes: u8x16) -> u8x16
    ensures bytes { Each1 (λ b. b < 256) result }
    ensures bits { (i p : ℕ) → i < 16 → p < 8
        → has_bit (slice_index result i) p ≡ has_bit (slice_index bytes i) (7 - p) }
{
    let lowest = u8x16::from_array(HIGHEST_FOUR).swizzle_dyn(bytes & u8x16::splat(15));
    let highest = u8x16::from_array(FOUR_BITS).swizzle_dyn(bytes >> u8x16::splat(4));
    lowest | highest
}

// The second word reversed, and the first reversed. The bytes change places before the lookups, so that the change of
// the two words and that of the bytes in each is one shuffle.
#[inline(always)]
pub(crate) fn reverse_both(first: u64, second: u64) -> (u64, u64)
    ensures first { (p : ℕ) → p < 64 → has_bit result.0 p ≡ has_bit second (63 - p) }
    ensures second { (p : ℕ) → p < 64 → has_bit result.1 p ≡ has_bit first (63 - p) }
{
    let bytes = u64x2::from_array([first, second]).to_le_bytes().reverse();
    let words = u64x2::from_le_bytes(reverse_bytes(bytes)).to_array();
    (words[0], words[1])
}
