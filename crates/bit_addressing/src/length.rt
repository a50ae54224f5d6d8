//! How long containers may be, and how many words a number of bits takes.
ghost use Rattle.std.specs.Prelude.{◌≡◌, ℕ, ◌+◌, ◌-◌, ◌*◌, ◌/◌, ◌^◌, ◌<◌, ◌≤◌};
ghost use Rattle.bit_addressing.specs.Row.{IsSpan, words_for};

use crate::store::BitStore;

/// The most bits that a container or a view holds, whatever its words: 2305843009213693951.
pub const MAX_BITS: usize = usize::MAX >> 3;

/// The least number of words of type `T` that have room for `bits` bits.
///
/// ```text
/// elts::<u8>(8) == 1
/// elts::<u8>(9) == 2
/// ```
pub fn elts<T: BitStore>(bits: usize) -> usize
    ensures value { result ≡ words_for T.BITS bits }
    ensures room { bits ≤ T.BITS * result }
    ensures least { (n : ℕ) → bits ≤ T.BITS * n → result ≤ n }
{
    let width = T::BITS as usize;
    if bits % width == 0 {
        bits / width
    } else {
        bits / width + 1
    }
}

/// The word that holds the bit of a row at an index, and the bit's index in that word.
#[inline(always)]
pub fn in_word<T: BitStore>(at: usize) -> (usize, u8)
    ensures index { result.0 * T.BITS + result.1 ≡ at }
    ensures within { result.1 < T.BITS }
{
    let width = T::BITS as usize;
    (at / width, (at % width) as u8)
}

/// The index in a row of the bit at index `index` of word `k`. Requires that it is below 2 to the power 64.
#[inline(always)]
pub fn in_row<T: BitStore>(k: usize, index: u8) -> usize
    requires { k * T.BITS + index < 2 ^ 64 }
    ensures { result ≡ k * T.BITS + index }
{
    k * T::BITS as usize + index as usize
}

/// The words that a run of bits takes: an edge in the word `first`, the whole words between it and `last`, and
/// an edge in `last`. Where both are one word, its indices `low..end`.
#[derive(Drop)]
pub struct Span {
    /// The first word that holds a bit of the run.
    pub first: usize,
    /// The index of the run's first bit in that word.
    pub low: usize,
    /// The last word that holds a bit of the run.
    pub last: usize,
    /// The index after the run's last bit in that word, above 0.
    pub end: usize,
}

impl Span {
    /// The span of the bits `from..upto` in words of type `T`. Requires that the run has a bit.
    #[inline(always)]
    pub fn of<T: BitStore>(from: usize, upto: usize) -> Span
        requires { from < upto }
        ensures { IsSpan T.BITS from upto result.first result.low result.last result.end }
    {
        let width = T::BITS as usize;
        Span {
            first: from / width,
            low: from % width,
            last: (upto - 1) / width,
            end: (upto - 1) % width + 1,
        }
    }
}
