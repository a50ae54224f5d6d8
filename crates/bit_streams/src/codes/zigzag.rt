//! Signed numbers as unsigned ones: 0, -1, 1, -2, 2 as 0, 1, 2, 3, 4.
ghost use Rattle.std.specs.Prelude.{◌≡◌, ℤ, ◌^◌, ◌<◌};
ghost use Rattle.bit_streams.specs.Codes.{zigzag as zigzag_of};

/// The unsigned number that stands for a signed one: twice the number where it is not negative, and else one less than
/// twice what it is below 0. Small numbers of either sign become small, so that any code of numbers serves for signed ones.
///
/// ```text
/// zigzag(-2) == 3
/// zigzag(2) == 4
/// ```
#[inline(always)]
pub fn zigzag(x: i64) -> u64
    ensures { result ≡ zigzag_of x }
{
    if x >= 0 {
        2 * x as u64
    } else {
        2 * (-1 - x) as u64 + 1
    }
}

/// The signed number that an unsigned one stands for: what `zigzag` is undone by.
#[inline(always)]
pub fn unzigzag(n: u64) -> i64
    ensures value { zigzag_of result ≡ n }
    ensures back { (x : ℤ) → zigzag_of x ≡ n → result ≡ x }
{
    let half = (n / 2) as i64;
    if n % 2 == 0 { half } else { -1 - half }
}
