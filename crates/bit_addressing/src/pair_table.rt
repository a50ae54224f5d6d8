//! Words made of the bits of two words one after the other, four bits at a time, by a table that a call makes
//! once: what makes an order that a user writes fast in long runs.
ghost use Rattle.std.specs.Prelude.{◌≡◌, ℕ, Bool, ◌+◌, ◌*◌, ◌/◌, ◌%◌, ◌<◌, ◌≤◌, ◌&&◌, [], ◌∷◌, eqb, slice_index_or};
ghost use Rattle.bit_addressing.specs.Bits.{has_bit};
ghost use Rattle.bit_addressing.specs.Row.{row_bit};
ghost use Rattle.bit_addressing.specs.Table.{IsEntry, IsTaken, IsPairTable};

use crate::index::BitIdx;
use crate::order::BitOrder;
use crate::store::BitStore;

// For each place of one of two words, 0 for the first and 1 for the second, the word of type `T` that its bit
// alone becomes: that at index `i` comes from bit `at + i` of the two words.
#[inline(always)]
fn columns<T: BitStore, O: BitOrder, U: BitStore, P: BitOrder>(at: u8, word: u8) -> [u64; 64]
    requires width { U.BITS ≡ T.BITS }
    requires within { at < T.BITS }
    ensures { (i p : ℕ) → i < T.BITS → p < 64
        → has_bit (slice_index_or result p 0) (O.place T.BITS i)
        ≡ (eqb ((at + i) / T.BITS) word && eqb p (P.place T.BITS ((at + i) % T.BITS))) }
{
    let mut columns = [0u64; 64];
    for i in 0..T::BITS {
        let from = P::at(BitIdx::<U>::new_unchecked((at + i) % T::BITS)).into_inner() as usize;
        let place = O::at(BitIdx::<T>::new_unchecked(i)).into_inner();
        columns[from] = columns[from].with_bit(place, (at + i) / T::BITS == word);
    }
    columns
}

// The column where bit `b` of a number is set, else 0.
#[inline(always)]
fn column_if(column: u64, v: u8, b: u8) -> u64
    requires { b < 8 }
    ensures { (q : ℕ) → has_bit result q ≡ (has_bit v b && has_bit column q) }
{
    if v >> b & 1 == 1 { column } else { 0 }
}

// Writes the words that four places at once become: entry `k * 16 + v` is for the places from `4 * k` on, where
// `v` has their bits. The compiler writes the inner loop out, so that no bit of `v` is tested.
#[inline(always)]
fn fill_entries(entries: &mut [u64; 256], columns: &[u64; 64])
    ensures { (k v : ℕ) → k < 16 → v < 16
        → IsEntry columns.now k v (slice_index_or entries.new (k * 16 + v) 0) }
{
    for k in 0..16usize {
        for v in 0..16u8 {
            entries[k * 16 + v as usize] = column_if(columns[k * 4], v, 0)
                | column_if(columns[k * 4 + 1], v, 1)
                | column_if(columns[k * 4 + 2], v, 2)
                | column_if(columns[k * 4 + 3], v, 3);
        }
    }
}

// The entries of the `count` lowest groups of four bits of a word, put together.
#[inline(always)]
fn taken(entries: &[u64; 256], word: u64, count: u8) -> u64
    requires { count ≤ 16 }
    ensures { (p q : ℕ) (b : Bool) → p < 4 * count → IsTaken entries.now p q b
        → has_bit result q ≡ (b && has_bit word p) }
{
    let mut made = 0u64;
    for k in 0..count {
        let four = (word >> (4 * k)) & 15;
        made |= entries[k as usize * 16 + four as usize];
    }
    made
}

/// What makes a word of type `T` out of two words of one width: for each of the two, the words that four of its
/// bits become.
#[derive(Drop)]
pub struct PairTable {
    low: [u64; 256],
    high: [u64; 256],
}

impl PairTable {
    /// Whether this many words are made faster with a table than without: to make it takes as long as 400 to 700 bits
    /// one by one.
    #[inline(always)]
    pub fn pays<T: BitStore>(words: usize) -> bool {
        768 / T::BITS as usize <= words
    }

    /// The table of the words that begin with bit `at` of two words one after the other.
    #[inline(always)]
    pub fn new<T: BitStore, O: BitOrder, U: BitStore, P: BitOrder>(at: u8) -> Self
        requires width { U.BITS ≡ T.BITS }
        requires within { at < T.BITS }
        ensures { IsPairTable (O.place T.BITS) (P.place T.BITS) T.BITS at result.low result.high }
    {
        let mut table = PairTable {
            low: [0; 256],
            high: [0; 256],
        };
        fill_entries(&mut table.low, &columns::<T, O, U, P>(at, 0));
        fill_entries(&mut table.high, &columns::<T, O, U, P>(at, 1));
        table
    }

    /// The word whose bit at index `i` is bit `at + i` of the two words one after the other, of a table that was
    /// made for `at`.
    #[inline(always)]
    pub fn window<T: BitStore, O: BitOrder, U: BitStore, P: BitOrder>(&self, low: U, high: U) -> T
        requires width { U.BITS ≡ T.BITS }
        ensures { (at i : ℕ) → at < T.BITS → i < T.BITS
            → IsPairTable (O.place T.BITS) (P.place T.BITS) T.BITS at self.now.low self.now.high
            → has_bit (T.value result) (O.place T.BITS i)
            ≡ row_bit P.place U.BITS (U.value low ∷ U.value high ∷ []) (at + i) }
    {
        let count = T::BITS / 4;
        T::from_u64(taken(&self.low, low.to_u64(), count) | taken(&self.high, high.to_u64(), count))
    }
}
