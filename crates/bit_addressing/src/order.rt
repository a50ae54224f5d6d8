//! Orders of the bits in a word.
ghost use Rattle.std.specs.Prelude.{◌≡◌, ℕ, ◌+◌, ◌-◌, ◌*◌, ◌/◌, ◌%◌, ◌^◌, ◌<◌, ◌≤◌, ◌&&◌, if◌then◌else◌, [], ◌∷◌, leb, length, ltb, map, slice_range};
ghost use Rattle.bit_addressing.specs.Bits.{has_bit};
ghost use Rattle.bit_addressing.specs.Order.{IsLawful, lsb0_lawful, msb0_lawful};
ghost use Rattle.bit_addressing.specs.Row.{row_bit, row_of, moved, touched};

use crate::index::{BitEnd, BitIdx, BitPos};
use crate::length::Span;
use crate::move_run::{move_part, move_words};
use crate::parts::{blend, shl_by_rest, shr_by_rest};
use crate::store::BitStore;
use crate::word_row::WordRow;

/// An order of the bits in a word: it maps each index to a place.
///
/// An implementation proves its law, that the indices of a word of 8, 16, 32 or 64 bits go to different
/// places of the word. Where the places can be computed, the proof is one line:
///
/// ```text
/// pub struct HalvesExchanged;
///
/// impl BitOrder for HalvesExchanged {
///     ghost place = { λ w i. bit_xor i 4 };
///     ghost lawful = { lawful_by_test (λ w i. bit_xor i 4) refl refl refl refl };
///     ..
/// }
/// ```
pub trait BitOrder {
    // The place of an index, in words of a width.
    ghost place: { ℕ → ℕ → ℕ };

    /// The place of the bit at index `i`.
    fn at<T: BitStore>(i: BitIdx<T>) -> BitPos<T>
        ensures { result ≡ place T.BITS i };

    /// Whether a word's bits are taken by shifts. It is a hint for speed alone: of another order, bits are
    /// cheaper taken one by one than by way of a number.
    #[inline(always)]
    fn goes_by_shifts() -> bool {
        false
    }

    /// The word whose set bits are those at the indices `from..upto`. Requires that `from` is at most `upto`.
    fn mask<T: BitStore>(from: BitIdx<T>, upto: BitEnd<T>) -> T
        requires { from ≤ upto }
        ensures { (i : ℕ) → i < T.BITS → has_bit (T.value result) (place T.BITS i) ≡ (leb from i && ltb i upto) }
    {
        let mut word = T::ZERO;
        for i in from.into_inner()..upto.into_inner() {
            let place = Self::at(BitIdx::<T>::new_unchecked(i));
            word = word.with_bit(place.into_inner(), true);
        }
        word
    }

    /// The word whose place `i` has the bit at index `i`.
    fn to_lsb0<T: BitStore>(word: T) -> T
        ensures { (i : ℕ) → i < T.BITS → has_bit (T.value result) i ≡ has_bit (T.value word) (place T.BITS i) }
    {
        let mut made = T::ZERO;
        for i in 0..T::BITS {
            let bit = word.bit(Self::at(BitIdx::<T>::new_unchecked(i)).into_inner());
            made = made.with_bit(i, bit);
        }
        made
    }

    /// The word whose index `i` has the bit of place `i`: `to_lsb0` gives `word` back.
    fn from_lsb0<T: BitStore>(word: T) -> T
        ensures { (i : ℕ) → i < T.BITS → has_bit (T.value result) (place T.BITS i) ≡ has_bit (T.value word) i }
    {
        let mut made = T::ZERO;
        for i in 0..T::BITS {
            let bit = word.bit(i);
            made = made.with_bit(Self::at(BitIdx::<T>::new_unchecked(i)).into_inner(), bit);
        }
        made
    }

    /// Bit `j` of two words one after the other. Requires that `j` is below twice `T::BITS`.
    #[inline(always)]
    fn bit_of_pair<T: BitStore>(low: T, high: T, j: u8) -> bool
        requires { j < 2 * T.BITS }
        ensures { result ≡ row_bit place T.BITS (T.value low ∷ T.value high ∷ []) j }
    {
        if j < T::BITS {
            low.bit(Self::at(BitIdx::<T>::new_unchecked(j)).into_inner())
        } else {
            high.bit(Self::at(BitIdx::<T>::new_unchecked(j - T::BITS)).into_inner())
        }
    }

    /// The word whose bit at index `i` is bit `at + i` of the two words one after the other.
    fn window<T: BitStore>(low: T, high: T, at: BitIdx<T>) -> T
        ensures { (i : ℕ) → i < T.BITS
            → has_bit (T.value result) (place T.BITS i)
            ≡ row_bit place T.BITS (T.value low ∷ T.value high ∷ []) (at + i) }
    {
        if at.into_inner() == 0 {
            return low;
        }
        let from = BitIdx::<T>::new_unchecked(0);
        let upto = BitEnd::<T>::new_unchecked(T::BITS);
        Self::with_run(T::ZERO, low, high, at, from, upto)
    }

    /// Like `window`, as a number: the word whose place `i` has bit `at + i` of the two words.
    fn window_lsb0<T: BitStore>(low: T, high: T, at: BitIdx<T>) -> T
        ensures { (i : ℕ) → i < T.BITS
            → has_bit (T.value result) i ≡ row_bit place T.BITS (T.value low ∷ T.value high ∷ []) (at + i) }
    {
        let begin = at.into_inner();
        let mut word = T::ZERO;
        for i in 0..T::BITS {
            word = word.with_bit(i, Self::bit_of_pair(low, high, begin + i));
        }
        word
    }

    /// `old` with its bits at the indices `from..upto` replaced: that at index `i` is bit `at + i` of the
    /// two words one after the other. Requires that `from` is at most `upto`.
    fn with_run<T: BitStore>(
        old: T,
        low: T,
        high: T,
        at: BitIdx<T>,
        from: BitIdx<T>,
        upto: BitEnd<T>,
    ) -> T
        requires { from ≤ upto }
        ensures { (i : ℕ) → i < T.BITS
            → has_bit (T.value result) (place T.BITS i)
            ≡ (if leb from i
            && ltb i upto then row_bit place T.BITS (T.value low ∷ T.value high ∷ []) (at + i) else has_bit
            (T.value old) (place T.BITS i)) }
    {
        let begin = at.into_inner();
        let mut word = old;
        for i in from.into_inner()..upto.into_inner() {
            let place = Self::at(BitIdx::<T>::new_unchecked(i)).into_inner();
            word = word.with_bit(place, Self::bit_of_pair(low, high, begin + i));
        }
        word
    }

    /// The word whose bits are the first of a word that may be wider. Requires that it is not narrower.
    fn front<T: BitStore, U: BitStore>(word: U) -> T
        requires { T.BITS ≤ U.BITS }
        ensures { (i : ℕ) → i < T.BITS
            → has_bit (T.value result) (place T.BITS i) ≡ has_bit (U.value word) (place U.BITS i) }
    {
        Self::from_lsb0(T::from_u64(Self::to_lsb0(word).to_u64()))
    }

    /// The 64 bits from word `k` on as one word, in the same order. Requires that the words hold
    /// them.
    fn pack<T: BitStore>(words: &[T], k: usize) -> u64
        requires { k * T.BITS + 64 ≤ T.BITS * length words.now }
        ensures { row_of place 64 (result ∷ [])
            ≡ slice_range (row_of place T.BITS (map T.value words.now)) (k * T.BITS) (k * T.BITS + 64) }
    {
        let mut bits = 0u64;
        for i in 0..64 / T::BITS {
            bits |= Self::to_lsb0(words[k + i as usize]).to_u64() << (i * T::BITS);
        }
        Self::from_lsb0(bits)
    }

    /// The words whose bits are those of a word of 64 bits, in the same order: word `i` is at the places from
    /// `i * T::BITS` on.
    fn unpack<T: BitStore>(block: u64) -> u64
        ensures { (i : ℕ) → i < 64
            → has_bit result (i / T.BITS * T.BITS + place T.BITS (i % T.BITS)) ≡ has_bit block (place 64 i) }
    {
        let mut bits = 0u64;
        for i in 0..64 {
            let bit = block.bit(Self::at(BitIdx::<u64>::new_unchecked(i)).into_inner());
            let place = Self::at(BitIdx::<T>::new_unchecked(i % T::BITS)).into_inner();
            bits = bits.with_bit(i / T::BITS * T::BITS + place, bit);
        }
        bits
    }

    /// Moves the `n` bits from `src` on to the places from `dst` on, as if they were copied out first: the
    /// two runs may overlap. No other bit changes, and no more words are written than have a bit of the
    /// target. Requires that both runs lie in the row.
    #[inline(always)]
    final fn move_run<T: BitStore>(row: &mut WordRow<T>, src: usize, dst: usize, n: usize)
        requires source { src + n ≤ T.BITS * length row.old.words.now }
        requires target { dst + n ≤ T.BITS * length row.old.words.now }
        ensures same_words { row.new.words.ghost_name ≡ row.old.words.ghost_name }
        ensures size { length row.new.words.now ≡ length row.old.words.now }
        ensures bits { row_of place T.BITS (map T.value row.new.words.now)
            ≡ moved (row_of place T.BITS (map T.value row.old.words.now)) src dst n }
        ensures reads { row.new.meter.reads ≤ row.old.meter.reads + 3 * touched T.BITS dst n }
        ensures writes { row.new.meter.writes ≤ row.old.meter.writes + touched T.BITS dst n }
        ensures reads_rise { row.old.meter.reads ≤ row.new.meter.reads }
        ensures writes_rise { row.old.meter.writes ≤ row.new.meter.writes }
    {
        if n == 0 {
            return;
        }
        let width = T::BITS as usize;
        let Span {
            first,
            low,
            last,
            end,
        } = Span::of::<T>(dst, dst + n);
        if first == last {
            move_part::<T, Self>(row, src, first, low, end);
            return;
        }
        let inner = src + (width - low);
        let tail = src + (n - end);
        let count = last - first - 1;
        if dst <= src {
            move_part::<T, Self>(row, src, first, low, width);
            move_words::<T, Self>(row, inner, first + 1, count);
            move_part::<T, Self>(row, tail, last, 0, end);
            return;
        }
        move_part::<T, Self>(row, tail, last, 0, end);
        move_words::<T, Self>(row, inner, first + 1, count);
        move_part::<T, Self>(row, src, first, low, width);
    }

    ghost lawful: { IsLawful place };
}

/// The order from the least significant bit: index `i` is place `i`.
#[derive(Drop, Clone, Copy)]
pub struct Lsb0;

impl BitOrder for Lsb0 {
    ghost place = { λ w i. i };

    ghost lawful = { lsb0_lawful };

    fn at<T: BitStore>(i: BitIdx<T>) -> BitPos<T> {
        BitPos::new_unchecked(i.into_inner())
    }

    #[inline(always)]
    fn goes_by_shifts() -> bool {
        true
    }

    fn mask<T: BitStore>(from: BitIdx<T>, upto: BitEnd<T>) -> T {
        let (low, high) = (from.into_inner(), upto.into_inner());
        if low == high {
            return T::ZERO;
        }
        let ones = T::ZERO.not();
        ones.shr(T::BITS - (high - low)).shl(low)
    }

    fn to_lsb0<T: BitStore>(word: T) -> T {
        word
    }

    fn from_lsb0<T: BitStore>(word: T) -> T {
        word
    }

    fn window<T: BitStore>(low: T, high: T, at: BitIdx<T>) -> T {
        let begin = at.into_inner();
        if begin == 0 {
            return low;
        }
        low.shr(begin).or(shl_by_rest(high, begin))
    }

    fn window_lsb0<T: BitStore>(low: T, high: T, at: BitIdx<T>) -> T {
        Lsb0::window(low, high, at)
    }

    fn with_run<T: BitStore>(
        old: T,
        low: T,
        high: T,
        at: BitIdx<T>,
        from: BitIdx<T>,
        upto: BitEnd<T>,
    ) -> T {
        blend(old, Lsb0::window(low, high, at), Lsb0::mask(from, upto))
    }

    fn unpack<T: BitStore>(block: u64) -> u64 {
        block
    }
}

/// The order from the most significant bit: index `i` is place `T::BITS - 1 - i`.
#[derive(Drop, Clone, Copy)]
pub struct Msb0;

impl BitOrder for Msb0 {
    ghost place = { λ w i. w - 1 - i };

    ghost lawful = { msb0_lawful };

    fn at<T: BitStore>(i: BitIdx<T>) -> BitPos<T> {
        BitPos::new_unchecked(T::BITS - 1 - i.into_inner())
    }

    #[inline(always)]
    fn goes_by_shifts() -> bool {
        true
    }

    fn mask<T: BitStore>(from: BitIdx<T>, upto: BitEnd<T>) -> T {
        let (low, high) = (from.into_inner(), upto.into_inner());
        if low == high {
            return T::ZERO;
        }
        let ones = T::ZERO.not();
        ones.shl(T::BITS - (high - low)).shr(low)
    }

    fn to_lsb0<T: BitStore>(word: T) -> T {
        word.reverse()
    }

    fn from_lsb0<T: BitStore>(word: T) -> T {
        word.reverse()
    }

    fn window<T: BitStore>(low: T, high: T, at: BitIdx<T>) -> T {
        let begin = at.into_inner();
        if begin == 0 {
            return low;
        }
        low.shl(begin).or(shr_by_rest(high, begin))
    }

    fn window_lsb0<T: BitStore>(low: T, high: T, at: BitIdx<T>) -> T {
        Msb0::window(low, high, at).reverse()
    }

    fn with_run<T: BitStore>(
        old: T,
        low: T,
        high: T,
        at: BitIdx<T>,
        from: BitIdx<T>,
        upto: BitEnd<T>,
    ) -> T {
        blend(old, Msb0::window(low, high, at), Msb0::mask(from, upto))
    }

    fn front<T: BitStore, U: BitStore>(word: U) -> T {
        T::from_u64(word.shr(U::BITS - T::BITS).to_u64())
    }

    fn pack<T: BitStore>(words: &[T], k: usize) -> u64 {
        turned::<T>(Lsb0::pack(words, k))
    }

    fn unpack<T: BitStore>(block: u64) -> u64 {
        turned::<T>(block)
    }
}

// The words of type `T` that lie in 64 bits, the last one first.
fn turned<T: BitStore>(block: u64) -> u64
    ensures packed { (i : ℕ) → i < 64
        → has_bit result (63 - i) ≡ has_bit block (i / T.BITS * T.BITS + (T.BITS - 1 - i % T.BITS)) }
    ensures unpacked { (i : ℕ) → i < 64
        → has_bit result (i / T.BITS * T.BITS + (T.BITS - 1 - i % T.BITS)) ≡ has_bit block (63 - i) }
{
    if T::BITS == 64 {
        return block;
    }
    let words = ((block >> 32) & 0x00000000ffffffff) | ((block & 0x00000000ffffffff) << 32);
    if T::BITS == 32 {
        return words;
    }
    let halves = ((words >> 16) & 0x0000ffff0000ffff) | ((words & 0x0000ffff0000ffff) << 16);
    if T::BITS == 16 {
        return halves;
    }
    ((halves >> 8) & 0x00ff00ff00ff00ff) | ((halves & 0x00ff00ff00ff00ff) << 8)
}
