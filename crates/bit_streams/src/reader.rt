//! The reader: bits, numbers and parts of a view, one after another.
ghost use Rattle.std.specs.Prelude.{◌≡◌, ℕ, ◌+◌, ◌-◌, ◌*◌, ◌/◌, ◌%◌, ◌^◌, ◌<◌, ◌≤◌, ◌++◌, ◌↔◌, [], ◌∷◌, Bool, List, None, Some, IfSome, drop, length, slice_range, take};
ghost use Rattle.bit_addressing.specs.Binary.{value};
ghost use Rattle.bit_addressing.specs.Row.{binary, number_bits};
ghost use Rattle.bit_addressing.specs.Typed.{row};
ghost use Rattle.bit_addressing.specs.declared.length.TheConstants.{MAX_BITS};
ghost use Rattle.bit_slice.specs.BitSlice.{len_of, list_of};
ghost use Rattle.bit_streams.specs.Streams.{Passed, padded};

use crate::register::{filled_le, low_digits, lowest_first, turned, turned_in};
use bit_addressing::{BitOrder, BitStore};
use bit_rows::{read_binary, read_block, read_chunk};
use bit_slice::BitSlice;
use bit_slice::inner::reversed;
use std::marker::{Model, PhantomData};

/// Reads the bits of a view from the first to the last.
///
/// A call that reads returns None exactly where fewer bits are left than it takes, and then the reader stays where it is.
/// In contracts a reader `r` is `r.rest`, the bits that are left, and `r.position`, how many bits it has passed. No call
/// takes memory.
///
/// ```rust
/// use bit_addressing::Msb0;
/// use bit_containers::BitSlice;
/// use bit_streams::BitReader;
///
/// let words = [191_u8, 144, 96];
/// let mut reader = BitReader::new(BitSlice::<u8, Msb0>::from_slice(&words));
/// println!(&rt; "{:?}, {:?}", reader.read(3), reader.read(13))?;
/// println!(&rt; "{:?}, {} left", reader.read_gamma(), reader.remaining())?;
/// println!(&rt; "{:?}", reader.read(6))?;
/// ```
///
/// ```text
/// Some(5), Some(8080)
/// Ok(3), 5 left
/// None
/// ```
#[derive(Drop)]
pub struct BitReader<'a, T: BitStore, O: BitOrder> {
    words: &'a [T],
    // The indices, in the row of the words, of the view's first bit, and after its last bit.
    start: usize,
    end: usize,
    // The number of bits of the view that are left.
    left: usize,
    // The next `have` bits, fewer than 64: the first is the highest, and the bits below them are 0. They may lie past the
    // view's end, where the words' bits or zeros are held: so a read fills the register by 64 bits everywhere, and a
    // compiler that sees the widths of a record's fields knows how many are held at each.
    window: u64,
    have: usize,
    // The same for numbers whose least significant digit comes first: the next `lows` bits, fewer than 64, of which the first
    // is the lowest. One of the two holds nothing: a read that finds its register empty fills it, and empties the other.
    low: u64,
    lows: usize,
    order: PhantomData<O>,
}

impl<'a, T: BitStore, O: BitOrder> Model for BitReader<'a, T, O> {
    ghost use Rattle.std.specs.Prelude.{◌-◌, length, slice_range};
    ghost use Rattle.bit_addressing.specs.Typed.{row};
    ghost use Rattle.bit_streams.specs.Streams.{IsReadingBoth, Reading, reading_code};

    ghost Value = { Reading };

    ghost coded = { reading_code };

    ghost view = { λ r. record {
      rest = slice_range (row T.BitStore O.BitOrder r.words.now) (r.end - r.left) r.end;
      position = r.end - r.left - r.start;
    } };

    ghost invariant = { λ r. IsReadingBoth (row T.BitStore O.BitOrder r.words.now)
        T.BITS (length r.words.now) r.start r.left r.end r.have r.window r.lows r.low };
}

// The number that the 64 bits from `at` on write, the first the most significant. Requires that a word begins at `at`.
#[inline(always)]
fn block_at<T: BitStore, O: BitOrder>(words: &[T], at: usize) -> u64
    requires begins { at % T.BITS ≡ 0 }
    requires within { at + 64 ≤ T.BITS * length words.now }
    ensures { binary 64 result ≡ slice_range (row T.BitStore O.BitOrder words.now) at (at + 64) }
{
    turned_in::<O>(read_block::<T, O>(words, at))
}

// The number that the 64 bits from `at` on write, where those past the words are 0, of a view that has `left` bits from
// `have` before `at` on. None where they are fewer than `n`. It asks first whether they are many, so that a compiler knows
// of the reads after this one that they have their bits.
#[inline(always)]
fn bits_for<T: BitStore, O: BitOrder>(
    words: &[T],
    at: usize,
    have: usize,
    left: usize,
    n: usize,
) -> Option<u64>
    requires few { n ≤ 64 }
    requires need { have < n }
    requires begins { have ≤ at }
    requires known { at + left ≤ T.BITS * length words.now + have }
    requires fits { T.BITS * length words.now < 2 ^ 64 }
    ensures none { result ≡ None → left < n }
    ensures enough { IfSome result (λ _. n ≤ left) }
    ensures digits { IfSome result (λ block.
        binary 64 block ≡ slice_range (padded (row T.BitStore O.BitOrder words.now)) at (at + 64)) }
{
    if left >= have + 128 {
        return Some(blocks_at::<T, O>(words, at));
    }
    if left < n {
        return None;
    }
    Some(last_bits::<T, O>(words, at))
}

// Like `bits_for`, the first bit the least significant digit.
#[inline(always)]
fn lows_for<T: BitStore, O: BitOrder>(
    words: &[T],
    at: usize,
    have: usize,
    left: usize,
    n: usize,
) -> Option<u64>
    requires few { n ≤ 64 }
    requires need { have < n }
    requires begins { have ≤ at }
    requires known { at + left ≤ T.BITS * length words.now + have }
    requires fits { T.BITS * length words.now < 2 ^ 64 }
    ensures none { result ≡ None → left < n }
    ensures enough { IfSome result (λ _. n ≤ left) }
    ensures digits { IfSome result (λ block.
        number_bits block 64 ≡ slice_range (padded (row T.BitStore O.BitOrder words.now)) at (at + 64)) }
{
    if left >= have + 128 {
        return Some(lows_at::<T, O>(words, at));
    }
    if left < n {
        return None;
    }
    Some(turned(last_bits::<T, O>(words, at)))
}

// The number that the 64 bits from `at` on write, out of one block or two. Requires that 128 bits from `at` on lie in the
// words.
#[inline(always)]
fn blocks_at<T: BitStore, O: BitOrder>(words: &[T], at: usize) -> u64
    requires within { at + 128 ≤ T.BITS * length words.now }
    requires fits { T.BITS * length words.now < 2 ^ 64 }
    ensures { binary 64 result ≡ slice_range (padded (row T.BitStore O.BitOrder words.now)) at (at + 64) }
{
    let skip = at % T::BITS as usize;
    if skip == 0 {
        return block_at::<T, O>(words, at);
    }
    joined_blocks::<T, O>(words, at, skip)
}

// Like `blocks_at`, the first bit the least significant digit.
#[inline(always)]
fn lows_at<T: BitStore, O: BitOrder>(words: &[T], at: usize) -> u64
    requires within { at + 128 ≤ T.BITS * length words.now }
    requires fits { T.BITS * length words.now < 2 ^ 64 }
    ensures { number_bits result 64 ≡ slice_range (padded (row T.BitStore O.BitOrder words.now)) at (at + 64) }
{
    if lowest_first::<O>() {
        return read_chunk::<T, O>(words, at, 64);
    }
    turned(blocks_at::<T, O>(words, at))
}

// The 64 bits from `at` on out of two blocks of whole words. Requires that `skip` bits of a word lie before `at`.
#[inline(always)]
fn joined_blocks<T: BitStore, O: BitOrder>(words: &[T], at: usize, skip: usize) -> u64
    requires within { at + 128 ≤ T.BITS * length words.now }
    requires before { skip ≡ at % T.BITS }
    requires some { 0 < skip }
    requires fits { T.BITS * length words.now < 2 ^ 64 }
    ensures { binary 64 result ≡ slice_range (row T.BitStore O.BitOrder words.now) at (at + 64) }
{
    let first = block_at::<T, O>(words, at - skip);
    let second = block_at::<T, O>(words, at - skip + 64);
    ((first << (skip - 1)) << 1) + (second >> (64 - skip))
}

// Like `blocks_at`, where fewer than 128 bits may be there. Requires that `at` lies in the words.
#[cold]
#[inline(never)]
fn last_bits<T: BitStore, O: BitOrder>(words: &[T], at: usize) -> u64
    requires inside { at < T.BITS * length words.now }
    requires fits { T.BITS * length words.now < 2 ^ 64 }
    ensures { binary 64 result ≡ slice_range (padded (row T.BitStore O.BitOrder words.now)) at (at + 64) }
{
    let n = (words.len() * T::BITS as usize - at).min(64) as u8;
    read_binary::<T, O>(words, at, n) << (64 - n)
}

impl<'a, T: BitStore, O: BitOrder> BitReader<'a, T, O> {
    /// A reader before the first bit of a view.
    pub fn new(bits: BitSlice<'a, T, O>) -> Self
        ensures rest { result.rest ≡ list_of bits.entry }
        ensures position { result.position ≡ 0 }
    {
        let (start, len) = (bits.head(), bits.len());
        BitReader {
            words: bits.as_raw_slice(),
            start,
            end: start + len,
            left: len,
            window: 0,
            have: 0,
            low: 0,
            lows: 0,
            order: PhantomData,
        }
    }

    /// A second reader at the same place. A call that reads several fields takes one first, and puts it back where a
    /// field is missing.
    ///
    /// ```text
    /// let before = reader.copied();
    /// let pair = read_pair(&mut reader);
    /// if pair.is_none() {
    ///     reader = before;
    /// }
    /// ```
    #[inline(always)]
    pub fn copied(&self) -> BitReader<'a, T, O>
        ensures { result ≡ self.now }
    {
        BitReader {
            words: self.words,
            start: self.start,
            end: self.end,
            left: self.left,
            window: self.window,
            have: self.have,
            low: self.low,
            lows: self.lows,
            order: PhantomData,
        }
    }

    /// The number of bits left.
    #[inline(always)]
    pub fn remaining(&self) -> usize
        ensures value { result ≡ length self.now.rest }
        ensures few { result ≤ MAX_BITS }
    {
        self.left
    }

    /// The number of bits of the view that the reader has passed.
    #[inline(always)]
    pub fn position(&self) -> usize
        ensures { result ≡ self.now.position }
    {
        self.end - self.left - self.start
    }

    /// The bits that are left, as a view.
    #[inline(always)]
    pub fn rest(&self) -> BitSlice<'a, T, O>
        ensures { list_of result ≡ self.now.rest }
    {
        let all = BitSlice::from_parts(self.words, self.start, self.end - self.start);
        all.get_range(self.end - self.left - self.start..self.end - self.start)
    }

    /// Reads the next `n` bits as a view of them.
    ///
    /// ```text
    /// let name = reader.read_part(8 * 16)?;      // 16 bytes, without a copy
    /// ```
    #[inline(always)]
    pub fn read_part(&mut self, n: usize) -> Option<BitSlice<'a, T, O>>
        ensures none { (result ≡ None) ↔ (length self.old.rest < n) }
        ensures part { IfSome result (λ part. list_of part ≡ take n self.old.rest) }
        ensures len { IfSome result (λ part. len_of part ≡ n) }
        ensures digits { IfSome result (λ part. self.old.rest ≡ list_of part ++ self.new.rest) }
        ensures passed { IfSome result (λ _. Passed n self.old self.new) }
        ensures kept { result ≡ None → self.new ≡ self.old }
    {
        let rest = self.rest();
        match self.skip(n) {
            None => None,
            Some(()) => Some(rest.get_range(..n)),
        }
    }

    /// The number that the next `n` bits write in binary, the most significant digit first, like `read`; the reader stays
    /// where it is. Requires that `n` is at most 64.
    #[inline(always)]
    pub fn peek(&self, n: u8) -> Option<u64>
        requires { n ≤ 64 }
        ensures none { (result ≡ None) ↔ (length self.now.rest < n) }
        ensures value { IfSome result (λ x. x ≡ value (take n self.now.rest)) }
        ensures digits { IfSome result (λ x. binary n x ≡ take n self.now.rest) }
        ensures below { IfSome result (λ x. x < 2 ^ n) }
    {
        let mut ahead = self.copied();
        ahead.read(n)
    }

    /// Passes the next `n` bits, of any number.
    #[inline(always)]
    pub fn skip(&mut self, n: usize) -> Option<()>
        ensures none { (result ≡ None) ↔ (length self.old.rest < n) }
        ensures passed { IfSome result (λ _. Passed n self.old self.new) }
        ensures kept { result ≡ None → self.new ≡ self.old }
    {
        if n <= 64 {
            self.skip_few(n as u8)
        } else {
            self.skip_far(n)
        }
    }

    // Passes bits as `read` does, and then fills the register, so that a look finds its bits there.
    #[inline(always)]
    fn skip_few(&mut self, n: u8) -> Option<()>
        requires { n ≤ 64 }
        ensures none { (result ≡ None) ↔ (length self.old.rest < n) }
        ensures passed { IfSome result (λ _. Passed n self.old self.new) }
        ensures kept { result ≡ None → self.new ≡ self.old }
    {
        match self.next(n) {
            None => None,
            Some(_x) => {
                self.fill();
                Some(())
            }
        }
    }

    // Where fewer than 16 bits are held, holds 63, but not near the view's end: codes are mostly looked up by fewer.
    #[inline(always)]
    fn fill(&mut self)
        ensures { self.new ≡ self.old }
    {
        if self.have >= 16 || self.left < self.have + 128 {
            return;
        }
        let block = blocks_at::<T, O>(self.words, self.end - self.left + self.have);
        self.window += (block >> (self.have + 1)) << 1;
        self.have = 63;
        self.low = 0;
        self.lows = 0;
    }

    // Passes more bits than the register holds.
    #[inline(always)]
    fn skip_far(&mut self, n: usize) -> Option<()>
        ensures none { (result ≡ None) ↔ (length self.old.rest < n) }
        ensures passed { IfSome result (λ _. Passed n self.old self.new) }
        ensures kept { result ≡ None → self.new ≡ self.old }
    {
        if self.remaining() < n {
            return None;
        }
        self.pass(n);
        Some(())
    }

    // Passes bits by the index: the register keeps what it holds past them. Requires that they are left.
    #[inline(always)]
    pub(crate) fn pass(&mut self, n: usize)
        requires { n ≤ length self.old.rest }
        ensures { Passed n self.old self.new }
    {
        self.left -= n;
        self.low = 0;
        self.lows = 0;
        if n <= self.have {
            self.window = self.window << n;
            self.have -= n;
            return;
        }
        self.window = 0;
        self.have = 0;
    }

    // The number that the next `n` bits stand for, the least significant digit first, out of the words. Requires that they
    // are left.
    #[inline(always)]
    fn seen_le(&self, n: u8) -> u64
        requires few { n ≤ 64 }
        requires left { n ≤ length self.now.rest }
        ensures digits { number_bits result n ≡ take n self.now.rest }
        ensures below { result < 2 ^ n }
    {
        read_chunk::<T, O>(self.words, self.end - self.left, n)
    }

    // What `peek_le` returns: out of the register, or out of words in which no digit has to be turned round.
    #[inline(always)]
    pub(crate) fn look_le(&self, n: u8) -> Option<u64>
        requires { n ≤ 64 }
        ensures none { (result ≡ None) ↔ (length self.now.rest < n) }
        ensures digits { IfSome result (λ x. number_bits x n ≡ take n self.now.rest) }
        ensures below { IfSome result (λ x. x < 2 ^ n) }
    {
        if lowest_first::<O>() {
            if self.remaining() < n as usize {
                return None;
            }
            return Some(self.seen_le(n));
        }
        match self.peek(n) {
            None => None,
            Some(x) => Some(reversed(n, x)),
        }
    }

    // What `read_le` returns.
    #[inline(always)]
    pub(crate) fn next_le(&mut self, n: u8) -> Option<u64>
        requires { n ≤ 64 }
        ensures none { (result ≡ None) ↔ (length self.old.rest < n) }
        ensures digits { IfSome result (λ x. self.old.rest ≡ number_bits x n ++ self.new.rest) }
        ensures below { IfSome result (λ x. x < 2 ^ n) }
        ensures passed { IfSome result (λ _. Passed n self.old self.new) }
        ensures kept { result ≡ None → self.new ≡ self.old }
    {
        let n = n as usize;
        if n <= self.lows {
            if self.left < n {
                return None;
            }
            let x = low_digits(n as u8, self.low);
            self.low = self.low >> n;
            self.lows -= n;
            self.left -= n;
            return Some(x);
        }
        let at = self.end - self.left + self.lows;
        let block = match lows_for::<T, O>(self.words, at, self.lows, self.left, n) {
            None => return None,
            Some(block) => block,
        };
        let need = n - self.lows;
        let ahead = filled_le(self.lows as u8, self.low, block);
        let x = (ahead << (64 - n)) >> (64 - n);
        // By two shifts, so that none is by 64.
        self.low = (block >> 1) >> (need - 1);
        self.lows = 64 - need;
        self.left -= n;
        self.window = 0;
        self.have = 0;
        Some(x)
    }

    // What `read` returns, with the clauses that the others follow from.
    #[inline(always)]
    fn next(&mut self, n: u8) -> Option<u64>
        requires { n ≤ 64 }
        ensures none { (result ≡ None) ↔ (length self.old.rest < n) }
        ensures digits { IfSome result (λ x. self.old.rest ≡ binary n x ++ self.new.rest) }
        ensures below { IfSome result (λ x. x < 2 ^ n) }
        ensures position { IfSome result (λ _. self.new.position ≡ self.old.position + n) }
        ensures kept { result ≡ None → self.new ≡ self.old }
    {
        let n = n as usize;
        if n <= self.have {
            if self.left < n {
                return None;
            }
            // By two shifts, so that where `n` is 0 none is by 64, and no test of it is needed.
            let x = (self.window >> 1) >> (63 - n);
            self.window = self.window << n;
            self.have -= n;
            self.left -= n;
            return Some(x);
        }
        let at = self.end - self.left + self.have;
        let block = match bits_for::<T, O>(self.words, at, self.have, self.left, n) {
            None => return None,
            Some(block) => block,
        };
        let need = n - self.have;
        let x = (self.window >> (64 - n)) + (block >> (64 - need));
        self.window = (block << (need - 1)) << 1;
        self.have = 64 - need;
        self.left -= n;
        self.low = 0;
        self.lows = 0;
        Some(x)
    }

    /// Reads the number that the next `n` bits write in binary, the most significant digit first. Requires that `n` is at
    /// most 64; where it is 0 the number is 0.
    ///
    /// ```text
    /// of 01101001: reader.read(3) == Some(3)
    /// ```
    #[inline(always)]
    pub fn read(&mut self, n: u8) -> Option<u64>
        requires { n ≤ 64 }
        ensures none { (result ≡ None) ↔ (length self.old.rest < n) }
        ensures value { IfSome result (λ x. x ≡ value (take n self.old.rest)) }
        ensures digits { IfSome result (λ x. self.old.rest ≡ binary n x ++ self.new.rest) }
        ensures below { IfSome result (λ x. x < 2 ^ n) }
        ensures passed { IfSome result (λ _. Passed n self.old self.new) }
        ensures kept { result ≡ None → self.new ≡ self.old }
        ensures back { (x : ℕ) → (more : List Bool) → self.old.rest ≡ binary n x ++ more → x < 2 ^ n
            → (result ≡ Some x) × (self.new.rest ≡ more) }
        ensures whole { (x : ℕ) → self.old.rest ≡ binary n x → x < 2 ^ n → (result ≡ Some x) × (self.new.rest ≡ []) }
    {
        match self.next(n) {
            None => None,
            Some(x) => Some(x),
        }
    }

    /// Reads the next bit.
    #[inline(always)]
    pub fn read_bit(&mut self) -> Option<bool>
        ensures none { (result ≡ None) ↔ (self.old.rest ≡ []) }
        ensures digits { IfSome result (λ bit. self.old.rest ≡ bit ∷ self.new.rest) }
        ensures passed { IfSome result (λ _. Passed 1 self.old self.new) }
        ensures kept { result ≡ None → self.new ≡ self.old }
        ensures back { (bit : Bool) → (more : List Bool) → self.old.rest ≡ bit ∷ more
            → (result ≡ Some bit) × (self.new.rest ≡ more) }
    {
        if self.lows != 0 {
            return match self.next_le(1) {
                None => None,
                Some(x) => Some(x == 1),
            };
        }
        match self.next(1) {
            None => None,
            Some(x) => Some(x == 1),
        }
    }

    /// Passes bits until the position is a multiple of `multiple`: none where it is one already. Requires that `multiple`
    /// is not 0.
    ///
    /// ```text
    /// at position 5:  reader.align(8)    // at position 8
    /// at position 16: reader.align(8)    // at position 16
    /// ```
    pub fn align(&mut self, multiple: usize) -> Option<()>
        requires { 0 < multiple }
        ensures none { (result ≡ None)
            ↔ (length self.old.rest < (multiple - self.old.position % multiple) % multiple) }
        ensures aligned { IfSome result (λ _. self.new.position % multiple ≡ 0) }
        ensures passed { IfSome result (λ _.
            Passed ((multiple - self.old.position % multiple) % multiple) self.old self.new) }
        ensures kept { result ≡ None → self.new ≡ self.old }
    {
        let over = self.position() % multiple;
        if over == 0 {
            return Some(());
        }
        match self.skip(multiple - over) {
            None => None,
            Some(()) => Some(()),
        }
    }
}
