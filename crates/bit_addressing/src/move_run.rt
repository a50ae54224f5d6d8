//! Moves of runs of bits in a row, a word at a time: two neighbours, shifted, give a word of the target.
ghost use Rattle.std.specs.Prelude.{◌≡◌, ℕ, ◌+◌, ◌-◌, ◌*◌, ◌<◌, ◌≤◌, [], ◌∷◌, map, length, IfSome};
ghost use Rattle.bit_addressing.specs.Bits.{has_bit};
ghost use Rattle.bit_addressing.specs.Row.{row_bit, row_of, moved, touched};
ghost use Rattle.bit_addressing.specs.Table.{IsPairTable};
ghost use Rattle.bit_addressing.specs.declared.length.TheConstants.{MAX_BITS};
ghost use Rattle.bit_addressing.specs.Typed.{row};

use crate::each_shift;
use crate::index::{BitEnd, BitIdx};
use crate::length::in_word;
use crate::meter::Meter;
use crate::order::BitOrder;
use crate::pair_table::PairTable;
use crate::store::BitStore;
use crate::word_row::WordRow;

// Two words and an index: bit `index + i` of the two, for the indices `i` of `low..high`, is that of the
// row at `from + (i - low)`.
#[inline(always)]
fn gather<T: BitStore, O: BitOrder>(
    row: &mut WordRow<T>,
    from: usize,
    low: usize,
    high: usize,
) -> (T, T, BitIdx<T>)
    requires some { low < high }
    requires within { high ≤ T.BITS }
    requires source { from + (high - low) ≤ T.BITS * length row.old.words.now }
    ensures bits { (i : ℕ) → low ≤ i → i < high
        → row_bit O.place T.BITS (T.value result.0 ∷ T.value result.1 ∷ []) (result.2 + i)
        ≡ row_bit O.place T.BITS (map T.value row.old.words.now) (from + (i - low)) }
    ensures same_words { row.new.words.ghost_name ≡ row.old.words.ghost_name }
    ensures words { row.new.words.now ≡ row.old.words.now }
    ensures reads { row.new.meter.reads ≤ row.old.meter.reads + 2 }
    ensures reads_rise { row.old.meter.reads ≤ row.new.meter.reads }
    ensures writes { row.new.meter.writes ≡ row.old.meter.writes }
{
    let width = T::BITS as usize;
    let k = from / width;
    let at = from % width;
    let word = row.load(k);
    if at < low {
        let begin = BitIdx::<T>::new_unchecked((width + at - low) as u8);
        return (word, word, begin);
    }
    let begin = BitIdx::<T>::new_unchecked((at - low) as u8);
    if at - low + high <= width {
        return (word, word, begin);
    }
    (word, row.load(k + 1), begin)
}

// Moves the bits from `from` on to the indices `low..high` of word `k`, by three reads at most.
#[inline(always)]
pub(crate) fn move_part<T: BitStore, O: BitOrder>(
    row: &mut WordRow<T>,
    from: usize,
    k: usize,
    low: usize,
    high: usize,
)
    requires some { low < high }
    requires within { high ≤ T.BITS }
    requires word { k < length row.old.words.now }
    requires source { from + (high - low) ≤ T.BITS * length row.old.words.now }
    ensures same_words { row.new.words.ghost_name ≡ row.old.words.ghost_name }
    ensures size { length row.new.words.now ≡ length row.old.words.now }
    ensures bits { row_of O.place T.BITS (map T.value row.new.words.now)
        ≡ moved (row_of O.place T.BITS (map T.value row.old.words.now)) from (k * T.BITS + low)
        (high - low) }
    ensures reads { row.new.meter.reads ≤ row.old.meter.reads + 3 }
    ensures reads_rise { row.old.meter.reads ≤ row.new.meter.reads }
    ensures writes { row.new.meter.writes ≡ row.old.meter.writes + 1 }
{
    let (word, next, begin) = gather::<T, O>(row, from, low, high);
    let old = row.load(k);
    let start = BitIdx::<T>::new_unchecked(low as u8);
    let end = BitEnd::<T>::new_unchecked(high as u8);
    row.store(k, O::with_run(old, word, next, begin, start, end));
}

/// Like `BitOrder::window`, by a table where there is one: one that `PairTable::new` made for this index.
#[inline(always)]
pub fn window_by<T: BitStore, O: BitOrder>(
    table: Option<&PairTable>,
    low: T,
    high: T,
    at: BitIdx<T>,
) -> T
    requires { IfSome table
        (λ t. IsPairTable (O.place T.BITS) (O.place T.BITS) T.BITS at t.now.low t.now.high) }
    ensures { (i : ℕ) → i < T.BITS
        → has_bit (T.value result) (O.place T.BITS i)
        ≡ row_bit O.place T.BITS (T.value low ∷ T.value high ∷ []) (at + i) }
{
    match table {
        Some(table) => table.window::<T, O, T, O>(low, high),
        None => O::window(low, high, at),
    }
}

// Moves the bits from index `at` of word `begin` on to the `count` whole words from word `first` on, which
// lie no higher.
#[inline(always)]
fn shift_down<T: BitStore, O: BitOrder>(
    row: &mut WordRow<T>,
    begin: usize,
    at: BitIdx<T>,
    first: usize,
    count: usize,
    table: Option<&PairTable>,
)
    requires table { IfSome table
        (λ t. IsPairTable (O.place T.BITS) (O.place T.BITS) T.BITS at t.now.low t.now.high) }
    requires within { at < T.BITS }
    requires down { first ≤ begin }
    requires source { begin + count < length row.old.words.now }
    ensures same_words { row.new.words.ghost_name ≡ row.old.words.ghost_name }
    ensures size { length row.new.words.now ≡ length row.old.words.now }
    ensures bits { row_of O.place T.BITS (map T.value row.new.words.now)
        ≡ moved (row_of O.place T.BITS (map T.value row.old.words.now)) (begin * T.BITS + at)
        (first * T.BITS) (count * T.BITS) }
    ensures reads { row.new.meter.reads ≡ row.old.meter.reads + 2 * count }
    ensures writes { row.new.meter.writes ≡ row.old.meter.writes + count }
{
    for t in 0..count {
        let low = row.load(begin + t);
        let high = row.load(begin + t + 1);
        row.store(first + t, window_by::<T, O>(table, low, high, at));
    }
}

// Like `shift_down`, to words that lie higher: the last one goes first.
#[inline(always)]
fn shift_up<T: BitStore, O: BitOrder>(
    row: &mut WordRow<T>,
    begin: usize,
    at: BitIdx<T>,
    first: usize,
    count: usize,
    table: Option<&PairTable>,
)
    requires table { IfSome table
        (λ t. IsPairTable (O.place T.BITS) (O.place T.BITS) T.BITS at t.now.low t.now.high) }
    requires within { at < T.BITS }
    requires up { begin < first }
    requires target { first + count ≤ length row.old.words.now }
    ensures same_words { row.new.words.ghost_name ≡ row.old.words.ghost_name }
    ensures size { length row.new.words.now ≡ length row.old.words.now }
    ensures bits { row_of O.place T.BITS (map T.value row.new.words.now)
        ≡ moved (row_of O.place T.BITS (map T.value row.old.words.now)) (begin * T.BITS + at)
        (first * T.BITS) (count * T.BITS) }
    ensures reads { row.new.meter.reads ≡ row.old.meter.reads + 2 * count }
    ensures writes { row.new.meter.writes ≡ row.old.meter.writes + count }
{
    for t in 0..count {
        let k = count - 1 - t;
        let low = row.load(begin + k);
        let high = row.load(begin + k + 1);
        row.store(first + k, window_by::<T, O>(table, low, high, at));
    }
}

// Moves the bits from index `at` of word `begin` on to the `count` whole words from word `first` on. Each loop is
// inlined and compiled for its case: words that are neighbours, and words that are not.
#[inline(always)]
fn shift_words<T: BitStore, O: BitOrder>(
    row: &mut WordRow<T>,
    begin: usize,
    at: u8,
    first: usize,
    count: usize,
    table: Option<&PairTable>,
)
    requires table { IfSome table
        (λ t. IsPairTable (O.place T.BITS) (O.place T.BITS) T.BITS at t.now.low t.now.high) }
    requires within { at < T.BITS }
    requires target { first + count ≤ length row.old.words.now }
    requires source { begin + count < length row.old.words.now }
    ensures same_words { row.new.words.ghost_name ≡ row.old.words.ghost_name }
    ensures size { length row.new.words.now ≡ length row.old.words.now }
    ensures bits { row_of O.place T.BITS (map T.value row.new.words.now)
        ≡ moved (row_of O.place T.BITS (map T.value row.old.words.now)) (begin * T.BITS + at)
        (first * T.BITS) (count * T.BITS) }
    ensures reads { row.new.meter.reads ≡ row.old.meter.reads + 2 * count }
    ensures writes { row.new.meter.writes ≡ row.old.meter.writes + count }
{
    let index = BitIdx::<T>::new_unchecked(at);
    if first < begin {
        shift_down::<T, O>(row, begin, index, first, count, table);
    } else if first == begin {
        shift_down::<T, O>(row, first, index, first, count, table);
    } else if begin + 1 < first {
        shift_up::<T, O>(row, begin, index, first, count, table);
    } else {
        shift_up::<T, O>(row, first - 1, index, first, count, table);
    }
}

// Like `shift_words`, by a table that is made here (docs/TUNING.md, "An order that a user writes", the moves).
#[inline(never)]
fn shift_by_table<T: BitStore, O: BitOrder>(
    row: &mut WordRow<T>,
    begin: usize,
    at: u8,
    first: usize,
    count: usize,
)
    requires within { at < T.BITS }
    requires target { first + count ≤ length row.old.words.now }
    requires source { begin + count < length row.old.words.now }
    ensures same_words { row.new.words.ghost_name ≡ row.old.words.ghost_name }
    ensures size { length row.new.words.now ≡ length row.old.words.now }
    ensures bits { row_of O.place T.BITS (map T.value row.new.words.now)
        ≡ moved (row_of O.place T.BITS (map T.value row.old.words.now)) (begin * T.BITS + at)
        (first * T.BITS) (count * T.BITS) }
    ensures reads { row.new.meter.reads ≡ row.old.meter.reads + 2 * count }
    ensures writes { row.new.meter.writes ≡ row.old.meter.writes + count }
{
    let table = PairTable::new::<T, O, T, O>(at);
    shift_words::<T, O>(row, begin, at, first, count, Some(&table));
}

// Moves the bits from `from` on to the `count` whole words from word `first` on. Requires that the row
// has one bit more after those that are moved.
#[inline(always)]
pub(crate) fn move_words<T: BitStore, O: BitOrder>(
    row: &mut WordRow<T>,
    from: usize,
    first: usize,
    count: usize,
)
    requires target { first + count ≤ length row.old.words.now }
    requires source { from + count * T.BITS < T.BITS * length row.old.words.now }
    ensures same_words { row.new.words.ghost_name ≡ row.old.words.ghost_name }
    ensures size { length row.new.words.now ≡ length row.old.words.now }
    ensures bits { row_of O.place T.BITS (map T.value row.new.words.now)
        ≡ moved (row_of O.place T.BITS (map T.value row.old.words.now)) from (first * T.BITS)
        (count * T.BITS) }
    ensures reads { row.new.meter.reads ≤ row.old.meter.reads + 2 * count }
    ensures reads_rise { row.old.meter.reads ≤ row.new.meter.reads }
    ensures writes { row.new.meter.writes ≡ row.old.meter.writes + count }
{
    let (begin, at) = in_word::<T>(from);
    if T::BITS == 8 && O::goes_by_shifts() {
        each_shift!(at, by => shift_words::<T, O>(row, begin, by, first, count, None));
    } else if at == 0 {
        shift_words::<T, O>(row, begin, 0, first, count, None);
    } else if O::goes_by_shifts() || !PairTable::pays::<T>(count) {
        shift_words::<T, O>(row, begin, at, first, count, None);
    } else {
        shift_by_table::<T, O>(row, begin, at, first, count);
    }
}

/// Moves the `n` bits from index `src` to index `dst`, as if they were copied out first, by one
/// `BitOrder::move_run` over these words. Requires that both runs lie in the words, which have at most
/// `MAX_BITS + 2 * T::BITS` bits.
pub fn move_bits<T: BitStore, O: BitOrder>(words: &mut [T], src: usize, dst: usize, n: usize)
    requires room { T.BITS * length words.old ≤ MAX_BITS + 2 * T.BITS }
    requires source { src + n ≤ T.BITS * length words.old }
    requires target { dst + n ≤ T.BITS * length words.old }
    ensures bits { row T.BitStore O.BitOrder words.new ≡ moved (row T.BitStore O.BitOrder words.old) src dst n }
    ensures size { length words.new ≡ length words.old }
{
    let _meter = move_bits_counted::<T, O>(words, src, dst, n);
}

/// Like `move_bits`, but returns the meter of the words that were read and written: at most one write for each
/// word that holds a bit of the target, and at most three reads for each.
pub fn move_bits_counted<T: BitStore, O: BitOrder>(
    words: &mut [T],
    src: usize,
    dst: usize,
    n: usize,
) -> Meter
    requires room { T.BITS * length words.old ≤ MAX_BITS + 2 * T.BITS }
    requires source { src + n ≤ T.BITS * length words.old }
    requires target { dst + n ≤ T.BITS * length words.old }
    ensures bits { row T.BitStore O.BitOrder words.new ≡ moved (row T.BitStore O.BitOrder words.old) src dst n }
    ensures size { length words.new ≡ length words.old }
    ensures writes { result.writes ≤ touched T.BITS dst n }
    ensures reads { result.reads ≤ 3 * touched T.BITS dst n }
{
    let mut row = WordRow::new(words);
    O::move_run(&mut row, src, dst, n);
    row.into_meter()
}
