//! Numbers of up to 64 digits: their digits in reverse, and those of two's complement.
ghost use Rattle.std.specs.Prelude.{◌≡◌, ◌+◌, ◌^◌, ◌<◌, ◌≤◌, [], ◌∷◌, ◌++◌};
ghost use Rattle.bit_addressing.specs.Row.{binary, number_bits};
ghost use Rattle.bit_slice.specs.Signed.{signed_of};

use bit_addressing::{BitRegister, BitStore};

/// A number with bit `i` written. Requires that `i` is below 64.
///
/// ```text
/// with_next(0b0010, 2, true) == 0b0110
/// ```
#[inline(always)]
pub fn with_next(number: u64, i: u8, bit: bool) -> u64
    requires { i < 64 }
    ensures { number_bits result (i + 1) ≡ number_bits number i ++ bit ∷ [] }
{
    number.with_bit(i, bit)
}

// Like `reversed`, of one digit or more.
#[inline(always)]
fn reversed_some(n: u8, x: u64) -> u64
    requires some { 0 < n }
    requires few { n ≤ 64 }
    ensures written { binary n result ≡ number_bits x n }
    ensures read { number_bits result n ≡ binary n x }
    ensures below { result < 2 ^ n }
{
    x.reverse() >> (64 - n)
}

/// The `n` lowest digits of a number in reverse: its digit `i` is the digit `n - 1 - i` of `x`. It is 0 where `n` is 0.
/// Requires that `n` is at most 64.
///
/// ```text
/// reversed(4, 0b0010) == 0b0100
/// ```
#[inline(always)]
pub fn reversed(n: u8, x: u64) -> u64
    requires { n ≤ 64 }
    ensures written { binary n result ≡ number_bits x n }
    ensures read { number_bits result n ≡ binary n x }
    ensures below { result < 2 ^ n }
{
    if n == 0 {
        return 0;
    }
    reversed_some(n, x)
}

/// The number in two's complement whose `n` digits are those of `x`. Requires that `n` is from 1 to 64, and that `x` has
/// no more digits.
///
/// ```text
/// extended(3, 6) == -2
/// ```
#[inline(always)]
pub fn extended(n: u8, x: u64) -> i64
    requires some { 0 < n }
    requires few { n ≤ 64 }
    requires below { x < 2 ^ n }
    ensures { result ≡ signed_of n x }
{
    if x >> (n - 1) == 0 {
        x as i64
    } else {
        -1 - ((u64::MAX >> (64 - n)) - x) as i64
    }
}
