//! The calls that write, once for views, arrays, boxes and vectors.
ghost use Rattle.std.specs.Prelude.{◌≡◌, ◌≢◌, ℕ, ◌+◌, ◌-◌, ◌*◌, ◌^◌, ◌<◌, ◌≤◌, ◌++◌, Bool, List, Some, drop, false, length, map, not, replicate, reverse, set, slice_get, slice_index_or, slice_range, swap, take, true};
ghost use Rattle.std.specs.Borrow.{sem};
ghost use Rattle.std.specs.Option.{option_map};
ghost use Rattle.bit_addressing.specs.declared.length.TheConstants.{MAX_BITS};
ghost use Rattle.bit_addressing.specs.Binary.{value};
ghost use Rattle.bit_addressing.specs.Range.{LiesIn};
ghost use Rattle.bit_addressing.specs.Row.{binary, moved, number_bits, number_of, put, touched};
ghost use Rattle.bit_addressing.specs.Typed.{row as row_of};
ghost use Rattle.bit_slice.specs.BitSlice.{len_of, list_of};
ghost use Rattle.bit_slice.specs.Clean.{StaysClean};
ghost use Rattle.bit_slice.specs.Closures.{CallableFrom, ResultsFrom};
ghost use Rattle.bit_slice.specs.Mapped.{chunk_number, from_chunk_numbers};
ghost use Rattle.bit_slice.specs.Pieces.{chunk_count};
ghost use Rattle.bit_slice.specs.Lists.{lends_to, BecomesWhole, Stays};
ghost use Rattle.bit_slice.specs.Masked.{deposited, masked};
ghost use Rattle.bit_slice.specs.Operators.{and_not_of, and_of, combined, or_of, part_onto, xor_of, AndsEach, OrsEach, XorsEach, CombinesEach, FlipsEach};
ghost use Rattle.bit_slice.specs.Overwritten.{list_in, StaysBefore, StaysFrom};
ghost use Rattle.bit_slice.specs.Written.{AndNotsEach};
ghost use Rattle.bit_slice.specs.Signed.{IsSigned, signed_binary, signed_bits, signed_of};

use crate::edits::{AndNot, copy_masked, deposit_masked, fill_by, map_numbers};
use crate::lists::BitList;
use crate::over::{
    assign_over, combine_over, combine_range_over, combine_within_over, copy_into_over, copy_over,
    fill_over, fill_range_over, flip_range_over, move_within_over, reverse_over, rotate_over,
    set_over, shift_left_over, shift_right_over, store_be_at_over, store_be_over, store_le_at_over,
    store_le_over, swap_over,
};
use crate::slice::BitSlice;
use crate::slice_mut::BitSliceMut;
use bit_addressing::{BitOrder, BitStore, Meter, RangeExt};
use bit_rows::{And, BitOperator, Or, Xor, flip_words};

/// A list of bits that is written: a view for writing, an array, a box or a vector.
pub trait BitListMut: BitList {
    // The number of words.
    ghost count: { Self → ℕ };

    // The number of bits that it has room for without new memory.
    ghost capacity: { Self → ℕ };

    // The loan of its words, where they are borrowed: what is written lands in the words that were lent under this
    // name. 0 where it owns them.
    ghost loan: { Self → ℕ };

    // What it becomes when its words are these.
    ghost rewritten: { Self → List Self.Store → Self };

    /// All its words, for writing: what is written lands in it.
    fn as_raw_mut_slice(&mut self) -> &mut [Self::Store]
        ensures* writes_back { sem 𝓛 (lends_to Self.row Self.Store.row self.entry (rewritten self.old) result) }
        ensures value { result.now ≡ Self.words self.old }
        ensures len { length result.now ≡ count self.old }
        ensures row { row_of Self.Store.BitStore Self.Order.BitOrder result.now ≡ Self.bits self.old }
        ensures fits { Self.head self.old + Self.len self.old ≤ Self.Store.BITS * length result.now }
        ensures few { Self.Store.BITS * length result.now ≤ MAX_BITS + 2 * Self.Store.BITS }
        ensures shows { list_in Self.Store.BitStore Self.Order.BitOrder result.now (Self.head self.old) (Self.len self.old) ≡ Self.list self.old };

    ghost words_rewritten: { (s : Self) (ws : List Self.Store) → length ws ≡ count s → Self.words (rewritten s ws) ≡ ws };

    ghost bits_rewritten: { (s : Self) (ws : List Self.Store) → length ws ≡ count s
        → Self.bits (rewritten s ws) ≡ row_of Self.Store.BitStore Self.Order.BitOrder ws };

    ghost list_rewritten: { (s : Self) (ws : List Self.Store) → length ws ≡ count s
        → Self.head s + Self.len s ≤ Self.Store.BITS * length ws
        → Self.list (rewritten s ws) ≡ list_in Self.Store.BitStore Self.Order.BitOrder ws (Self.head s) (Self.len s) };

    ghost stays_rewritten: { (s : Self) (ws : List Self.Store) → Stays Self.head Self.len count capacity loan s (rewritten s ws) };

    /// Writes the bit at `i`, and no other bit. Takes no memory. Requires that `i` is below the length.
    ///
    /// ```text
    /// of 01101001: bits.set(0, true) leaves 11101001
    /// ```
    final fn set(&mut self, i: usize, bit: bool)
        requires { i < Self.len self.old }
        ensures list { Self.list self.new ≡ set (Self.list self.old) i bit }
        ensures row { Self.bits self.new ≡ set (Self.bits self.old) (Self.head self.old + i) bit }
        ensures clean { StaysClean Self.Store.BITS Self.head Self.bits Self.list self.old self.new }
        ensures stays { Stays Self.head Self.len count capacity loan self.old self.new }
    {
        let (head, len) = (self.head(), self.len());
        set_over::<Self::Store, Self::Order>(self.as_raw_mut_slice(), head, len, i, bit);
    }

    /// Writes the bit at `i`, and returns the one that was there. Takes no memory. Requires that `i` is below
    /// the length.
    ///
    /// ```text
    /// of 01101001: bits.replace(0, true) == false
    /// ```
    final fn replace(&mut self, i: usize, bit: bool) -> bool
        requires { i < Self.len self.old }
        ensures old { slice_get (Self.list self.old) i ≡ Some result }
        ensures list { Self.list self.new ≡ set (Self.list self.old) i bit }
        ensures row { Self.bits self.new ≡ set (Self.bits self.old) (Self.head self.old + i) bit }
        ensures stays { Stays Self.head Self.len count capacity loan self.old self.new }
        ensures clean { StaysClean Self.Store.BITS Self.head Self.bits Self.list self.old self.new }
    {
        let old = self.as_bitslice()[i];
        self.set(i, bit);
        old
    }

    /// Swaps the bits at `i` and `j`, and changes no other bit. Takes no memory. Requires that both are below
    /// the length.
    ///
    /// ```text
    /// of 01101001: bits.swap(0, 1) leaves 10101001
    /// ```
    final fn swap(&mut self, i: usize, j: usize)
        requires first { i < Self.len self.old }
        requires second { j < Self.len self.old }
        ensures list { Self.list self.new ≡ swap (Self.list self.old) i j }
        ensures row { Self.bits self.new ≡ swap (Self.bits self.old) (Self.head self.old + i) (Self.head self.old + j) }
        ensures clean { StaysClean Self.Store.BITS Self.head Self.bits Self.list self.old self.new }
        ensures stays { Stays Self.head Self.len count capacity loan self.old self.new }
    {
        let (head, len) = (self.head(), self.len());
        swap_over::<Self::Store, Self::Order>(self.as_raw_mut_slice(), head, len, i, j);
    }

    /// Flips the bit at `i`, and no other bit. Takes no memory. Requires that `i` is below the length.
    ///
    /// ```text
    /// of 01101001: bits.flip(2) leaves 01001001
    /// ```
    final fn flip(&mut self, i: usize)
        requires { i < Self.len self.old }
        ensures list { Self.list self.new ≡ set (Self.list self.old) i (not (slice_index_or (Self.list self.old) i false)) }
        ensures row { Self.bits self.new
            ≡ set (Self.bits self.old) (Self.head self.old + i) (not (slice_index_or (Self.list self.old) i false)) }
        ensures item { slice_get (Self.list self.new) i ≡ option_map not (slice_get (Self.list self.old) i) }
        ensures clean { StaysClean Self.Store.BITS Self.head Self.bits Self.list self.old self.new }
        ensures stays { Stays Self.head Self.len count capacity loan self.old self.new }
    {
        let bit = self.as_bitslice().bit(i);
        self.set(i, !bit);
    }

    /// Makes every bit of the list `bit`, and changes no dead bit. Takes no memory.
    ///
    /// ```text
    /// of 01101001: bits.fill(true) leaves 11111111
    /// ```
    final fn fill(&mut self, bit: bool)
        ensures list { Self.list self.new ≡ replicate (Self.len self.old) bit }
        ensures row { Self.bits self.new ≡ put (Self.bits self.old) (Self.head self.old) (replicate (Self.len self.old) bit) }
        ensures whole { BecomesWhole Self.Store.BITS Self.head Self.len count Self.bits self.old self.new
            (replicate (Self.len self.old) bit) }
        ensures clean { StaysClean Self.Store.BITS Self.head Self.bits Self.list self.old self.new }
        ensures stays { Stays Self.head Self.len count capacity loan self.old self.new }
    {
        let (head, len) = (self.head(), self.len());
        fill_over::<Self::Store, Self::Order>(self.as_raw_mut_slice(), head, len, bit);
    }

    /// Writes `bit` at each index of a range, and no other bit. Takes no memory. Requires that the range lies in
    /// the length.
    ///
    /// ```text
    /// of 01101001: bits.fill_range(2..6, true) leaves 01111101
    /// ```
    final fn fill_range<R: RangeExt>(&mut self, range: R, bit: bool)
        requires lies { LiesIn (R.start_of range) (R.end_of range (Self.len self.old)) (Self.len self.old) }
        ensures list { Self.list self.new
            ≡ put (Self.list self.old) (R.start_of range)
            (replicate (R.end_of range (Self.len self.old) - R.start_of range) bit) }
        ensures row { Self.bits self.new
            ≡ put (Self.bits self.old) (Self.head self.old + R.start_of range)
            (replicate (R.end_of range (Self.len self.old) - R.start_of range) bit) }
        ensures within { (j : ℕ) → R.start_of range ≤ j → j < R.end_of range (Self.len self.old)
            → slice_get (Self.list self.new) j ≡ Some bit }
        ensures before { StaysBefore (R.start_of range) (Self.list self.old) (Self.list self.new) }
        ensures after { StaysFrom (R.end_of range (Self.len self.old)) (Self.list self.old) (Self.list self.new) }
        ensures clean { StaysClean Self.Store.BITS Self.head Self.bits Self.list self.old self.new }
        ensures stays { Stays Self.head Self.len count capacity loan self.old self.new }
    {
        let (head, len) = (self.head(), self.len());
        fill_range_over::<Self::Store, Self::Order, R>(
            self.as_raw_mut_slice(),
            head,
            len,
            range,
            bit,
        );
    }

    /// Writes at each index what `f` returns there. It is called once for each index, in order. No dead bit changes.
    /// Takes no memory. Requires that `f` can be called at each index.
    ///
    /// ```text
    /// of 01101001: bits.fill_with(|i| i % 3 == 0) leaves 10010010
    /// ```
    final fn fill_with<F: FnMut(usize) -> bool>(&mut self, mut f: F)
        requires { CallableFrom F.pre F.step f 0 (Self.len self.old) }
        ensures list { (last : F) × ResultsFrom F.step f 0 (Self.list self.new) last }
        ensures row { Self.bits self.new ≡ put (Self.bits self.old) (Self.head self.old) (Self.list self.new) }
        ensures whole { BecomesWhole Self.Store.BITS Self.head Self.len count Self.bits self.old self.new (Self.list self.new) }
        ensures clean { StaysClean Self.Store.BITS Self.head Self.bits Self.list self.old self.new }
        ensures stays { Stays Self.head Self.len count capacity loan self.old self.new }
    {
        self.fill_by(&mut f);
    }

    /// Like `fill_with`, with a function that is lent: it ends in the state that the last call left, and where there is
    /// no bit in the one that it had.
    ///
    /// ```text
    /// of 01101001: bits.fill_by(&mut |i: usize| i % 3 == 0) leaves 10010010
    /// ```
    final fn fill_by<F: FnMut(usize) -> bool>(&mut self, f: &mut F)
        requires { CallableFrom F.pre F.step f.old 0 (Self.len self.old) }
        ensures list { ResultsFrom F.step f.old 0 (Self.list self.new) f.new }
        ensures row { Self.bits self.new ≡ put (Self.bits self.old) (Self.head self.old) (Self.list self.new) }
        ensures whole { BecomesWhole Self.Store.BITS Self.head Self.len count Self.bits self.old self.new (Self.list self.new) }
        ensures clean { StaysClean Self.Store.BITS Self.head Self.bits Self.list self.old self.new }
        ensures stays { Stays Self.head Self.len count capacity loan self.old self.new }
    {
        let (head, len) = (self.head(), self.len());
        fill_by::<Self::Store, Self::Order, F>(self.as_raw_mut_slice(), head, len, f);
    }

    /// Writes over each chunk of `size` bits, the last perhaps shorter, what `f` returns of it. Both are numbers whose
    /// least significant bit is the chunk's first, as `load_le` reads them; of a number that `f` returns, the lowest
    /// bits count, as many as the chunk has. It is called once for each chunk, in order. No dead bit changes. Takes no
    /// memory. Requires that `size` is from 1 to 64, and that `f` can be called with each number.
    ///
    /// ```text
    /// of 01101001: bits.map_chunks(4, |n| n ^ 15) leaves 10010110
    /// ```
    final fn map_chunks<F: FnMut(u64) -> u64>(&mut self, size: usize, mut f: F)
        requires some { 0 < size }
        requires few { size ≤ 64 }
        requires callable { CallableFrom
            (λ state k. F.pre state (chunk_number size (Self.list self.old) k))
            (λ state k. F.step state (chunk_number size (Self.list self.old) k))
            f 0 (chunk_count (Self.len self.old) size) }
        ensures list { (numbers : List ℕ) × (last : F) × (length numbers ≡ chunk_count (Self.len self.old) size)
            × ResultsFrom (λ state k. F.step state (chunk_number size (Self.list self.old) k)) f 0 numbers last
            × (Self.list self.new ≡ from_chunk_numbers size (Self.len self.old) numbers) }
        ensures row { Self.bits self.new ≡ put (Self.bits self.old) (Self.head self.old) (Self.list self.new) }
        ensures whole { BecomesWhole Self.Store.BITS Self.head Self.len count Self.bits self.old self.new (Self.list self.new) }
        ensures clean { StaysClean Self.Store.BITS Self.head Self.bits Self.list self.old self.new }
        ensures stays { Stays Self.head Self.len count capacity loan self.old self.new }
    {
        let (head, len) = (self.head(), self.len());
        map_numbers::<Self::Store, Self::Order, F>(
            self.as_raw_mut_slice(),
            head,
            len,
            size,
            &mut f,
        );
    }

    /// Flips the bit at each index of a range, and no other bit. Takes no memory. Requires that the range lies in
    /// the length.
    ///
    /// ```text
    /// of 01101001: bits.flip_range(1..4) leaves 00011001
    /// ```
    final fn flip_range<R: RangeExt>(&mut self, range: R)
        requires lies { LiesIn (R.start_of range) (R.end_of range (Self.len self.old)) (Self.len self.old) }
        ensures list { Self.list self.new
            ≡ put (Self.list self.old) (R.start_of range) (map not
            (slice_range (Self.list self.old) (R.start_of range) (R.end_of range (Self.len self.old)))) }
        ensures row { Self.bits self.new
            ≡ put (Self.bits self.old) (Self.head self.old + R.start_of range)
            (map not
            (slice_range (Self.list self.old) (R.start_of range) (R.end_of range (Self.len self.old)))) }
        ensures within { (j : ℕ) → R.start_of range ≤ j → j < R.end_of range (Self.len self.old)
            → slice_get (Self.list self.new) j ≡ option_map not (slice_get (Self.list self.old) j) }
        ensures before { StaysBefore (R.start_of range) (Self.list self.old) (Self.list self.new) }
        ensures after { StaysFrom (R.end_of range (Self.len self.old)) (Self.list self.old) (Self.list self.new) }
        ensures clean { StaysClean Self.Store.BITS Self.head Self.bits Self.list self.old self.new }
        ensures stays { Stays Self.head Self.len count capacity loan self.old self.new }
    {
        let (head, len) = (self.head(), self.len());
        flip_range_over::<Self::Store, Self::Order, R>(self.as_raw_mut_slice(), head, len, range);
    }

    /// Combines each bit at the indices of a range, by `F`, with the bit of a view for it, or with false past the
    /// view's end. Requires that the range lies in the length.
    ///
    /// ```text
    /// of 01101001 and 01010101: bits.combine_range::<Xor, _, _, _>(..4, other) leaves 00111001
    /// ```
    final fn combine_range<F: BitOperator, R: RangeExt, U: BitStore, P: BitOrder>(
        &mut self,
        range: R,
        other: BitSlice<'_, U, P>,
    )
        requires lies { LiesIn (R.start_of range) (R.end_of range (Self.len self.old)) (Self.len self.old) }
        ensures list { Self.list self.new
            ≡ put (Self.list self.old) (R.start_of range) (combined F.made
            (slice_range (Self.list self.old) (R.start_of range) (R.end_of range (Self.len self.old)))
            (list_of other.entry)) }
        ensures row { Self.bits self.new
            ≡ put (Self.bits self.old) (Self.head self.old + R.start_of range)
            (combined F.made
            (slice_range (Self.list self.old) (R.start_of range) (R.end_of range (Self.len self.old)))
            (list_of other.entry)) }
        ensures before { StaysBefore (R.start_of range) (Self.list self.old) (Self.list self.new) }
        ensures after { StaysFrom (R.end_of range (Self.len self.old)) (Self.list self.old) (Self.list self.new) }
        ensures clean { StaysClean Self.Store.BITS Self.head Self.bits Self.list self.old self.new }
        ensures stays { Stays Self.head Self.len count capacity loan self.old self.new }
    {
        let (head, len) = (self.head(), self.len());
        combine_range_over::<F, Self::Store, Self::Order, R, U, P>(
            self.as_raw_mut_slice(),
            head,
            len,
            range,
            other,
        );
    }

    /// Clears each bit at the indices of a range that is false in a view, and each past the view's end. The
    /// first bit of the view is for the first of the range. Takes no memory. Requires that the range lies in the
    /// length.
    ///
    /// ```text
    /// of 01101001 and 0101: bits.and_range(1..5, other) leaves 00101001
    /// ```
    final fn and_range<R: RangeExt, U: BitStore, P: BitOrder>(
        &mut self,
        range: R,
        other: BitSlice<'_, U, P>,
    )
        requires lies { LiesIn (R.start_of range) (R.end_of range (Self.len self.old)) (Self.len self.old) }
        ensures list { Self.list self.new
            ≡ put (Self.list self.old) (R.start_of range) (and_of
            (slice_range (Self.list self.old) (R.start_of range) (R.end_of range (Self.len self.old)))
            (list_of other.entry)) }
        ensures row { Self.bits self.new
            ≡ put (Self.bits self.old) (Self.head self.old + R.start_of range)
            (and_of (slice_range (Self.list self.old) (R.start_of range) (R.end_of range (Self.len self.old)))
            (list_of other.entry)) }
        ensures before { StaysBefore (R.start_of range) (Self.list self.old) (Self.list self.new) }
        ensures after { StaysFrom (R.end_of range (Self.len self.old)) (Self.list self.old) (Self.list self.new) }
        ensures clean { StaysClean Self.Store.BITS Self.head Self.bits Self.list self.old self.new }
        ensures stays { Stays Self.head Self.len count capacity loan self.old self.new }
    {
        self.combine_range::<And, R, U, P>(range, other);
    }

    /// Sets each bit at the indices of a range that is true in a view. The first bit of the view is for the first
    /// of the range. Takes no memory. Requires that the range lies in the length.
    ///
    /// ```text
    /// of 01101001 and 0101: bits.or_range(1..5, other) leaves 01101001
    /// ```
    final fn or_range<R: RangeExt, U: BitStore, P: BitOrder>(
        &mut self,
        range: R,
        other: BitSlice<'_, U, P>,
    )
        requires lies { LiesIn (R.start_of range) (R.end_of range (Self.len self.old)) (Self.len self.old) }
        ensures list { Self.list self.new
            ≡ put (Self.list self.old) (R.start_of range) (or_of
            (slice_range (Self.list self.old) (R.start_of range) (R.end_of range (Self.len self.old)))
            (list_of other.entry)) }
        ensures row { Self.bits self.new
            ≡ put (Self.bits self.old) (Self.head self.old + R.start_of range)
            (or_of (slice_range (Self.list self.old) (R.start_of range) (R.end_of range (Self.len self.old)))
            (list_of other.entry)) }
        ensures before { StaysBefore (R.start_of range) (Self.list self.old) (Self.list self.new) }
        ensures after { StaysFrom (R.end_of range (Self.len self.old)) (Self.list self.old) (Self.list self.new) }
        ensures clean { StaysClean Self.Store.BITS Self.head Self.bits Self.list self.old self.new }
        ensures stays { Stays Self.head Self.len count capacity loan self.old self.new }
    {
        self.combine_range::<Or, R, U, P>(range, other);
    }

    /// Flips each bit at the indices of a range that is true in a view. The first bit of the view is for the first
    /// of the range. Takes no memory. Requires that the range lies in the length.
    ///
    /// ```text
    /// of 01101001 and 0101: bits.xor_range(1..5, other) leaves 01000001
    /// ```
    final fn xor_range<R: RangeExt, U: BitStore, P: BitOrder>(
        &mut self,
        range: R,
        other: BitSlice<'_, U, P>,
    )
        requires lies { LiesIn (R.start_of range) (R.end_of range (Self.len self.old)) (Self.len self.old) }
        ensures list { Self.list self.new
            ≡ put (Self.list self.old) (R.start_of range) (xor_of
            (slice_range (Self.list self.old) (R.start_of range) (R.end_of range (Self.len self.old)))
            (list_of other.entry)) }
        ensures row { Self.bits self.new
            ≡ put (Self.bits self.old) (Self.head self.old + R.start_of range)
            (xor_of (slice_range (Self.list self.old) (R.start_of range) (R.end_of range (Self.len self.old)))
            (list_of other.entry)) }
        ensures before { StaysBefore (R.start_of range) (Self.list self.old) (Self.list self.new) }
        ensures after { StaysFrom (R.end_of range (Self.len self.old)) (Self.list self.old) (Self.list self.new) }
        ensures clean { StaysClean Self.Store.BITS Self.head Self.bits Self.list self.old self.new }
        ensures stays { Stays Self.head Self.len count capacity loan self.old self.new }
    {
        self.combine_range::<Xor, R, U, P>(range, other);
    }

    /// Writes the bits of a view, with any word type and order, at the indices of a range, and no other bit.
    /// Takes no memory. Requires that the range lies in the length, and is as long as the view.
    ///
    /// ```text
    /// of 01101001 and 0101: bits.copy_into(1..5, other) leaves 00101001
    /// ```
    final fn copy_into<R: RangeExt, U: BitStore, P: BitOrder>(
        &mut self,
        range: R,
        source: BitSlice<'_, U, P>,
    )
        requires lies { LiesIn (R.start_of range) (R.end_of range (Self.len self.old)) (Self.len self.old) }
        requires same_len { len_of source ≡ R.end_of range (Self.len self.old) - R.start_of range }
        ensures list { Self.list self.new ≡ put (Self.list self.old) (R.start_of range) (list_of source.entry) }
        ensures row { Self.bits self.new ≡ put (Self.bits self.old) (Self.head self.old + R.start_of range) (list_of source.entry) }
        ensures within { (k : ℕ) → k < len_of source.entry
            → slice_get (Self.list self.new) (R.start_of range + k) ≡ slice_get (list_of source.entry) k }
        ensures before { StaysBefore (R.start_of range) (Self.list self.old) (Self.list self.new) }
        ensures after { StaysFrom (R.end_of range (Self.len self.old)) (Self.list self.old) (Self.list self.new) }
        ensures clean { StaysClean Self.Store.BITS Self.head Self.bits Self.list self.old self.new }
        ensures stays { Stays Self.head Self.len count capacity loan self.old self.new }
    {
        let (head, len) = (self.head(), self.len());
        copy_into_over::<Self::Store, Self::Order, R, U, P>(
            self.as_raw_mut_slice(),
            head,
            len,
            range,
            source,
        );
    }

    /// Writes the lowest bits of a number over the list, the least significant first. No dead bit changes. Takes
    /// no memory. Requires that the list has at most 64 bits.
    ///
    /// ```text
    /// of 01101001: bits.store_le(5) leaves 10100000
    /// ```
    final fn store_le(&mut self, number: u64)
        requires { Self.len self.old ≤ 64 }
        ensures list { Self.list self.new ≡ number_bits number (Self.len self.old) }
        ensures row { Self.bits self.new ≡ put (Self.bits self.old) (Self.head self.old) (number_bits number (Self.len self.old)) }
        ensures clean { StaysClean Self.Store.BITS Self.head Self.bits Self.list self.old self.new }
        ensures stays { Stays Self.head Self.len count capacity loan self.old self.new }
    {
        let (head, len) = (self.head(), self.len());
        store_le_over::<Self::Store, Self::Order>(self.as_raw_mut_slice(), head, len, number);
    }

    /// Writes the lowest bits of a number over the list, the most significant first. No dead bit changes. Takes
    /// no memory. Requires that the list has at most 64 bits.
    ///
    /// ```text
    /// of 01101001: bits.store_be(5) leaves 00000101
    /// ```
    final fn store_be(&mut self, number: u64)
        requires { Self.len self.old ≤ 64 }
        ensures list { Self.list self.new ≡ binary (Self.len self.old) number }
        ensures row { Self.bits self.new ≡ put (Self.bits self.old) (Self.head self.old) (binary (Self.len self.old) number) }
        ensures clean { StaysClean Self.Store.BITS Self.head Self.bits Self.list self.old self.new }
        ensures stays { Stays Self.head Self.len count capacity loan self.old self.new }
    {
        let (head, len) = (self.head(), self.len());
        store_be_over::<Self::Store, Self::Order>(self.as_raw_mut_slice(), head, len, number);
    }

    /// Writes the `n` lowest bits of a number over those from index `at` on, the least significant first, and changes
    /// no other bit. Takes no memory. Requires that `n` is at most 64, and that the bits lie in the list.
    ///
    /// ```text
    /// of 00000000: bits.store_le_at(1, 3, 6) leaves 00110000
    /// ```
    #[inline(always)]
    final fn store_le_at(&mut self, at: usize, n: u8, number: u64)
        requires few { n ≤ 64 }
        requires within { at + n ≤ Self.len self.old }
        ensures list { Self.list self.new ≡ put (Self.list self.old) at (number_bits number n) }
        ensures row { Self.bits self.new ≡ put (Self.bits self.old) (Self.head self.old + at) (number_bits number n) }
        ensures written { slice_range (Self.list self.new) at (at + n) ≡ number_bits number n }
        ensures read_back { number < 2 ^ n → number_of (slice_range (Self.list self.new) at (at + n)) ≡ number }
        ensures before { StaysBefore at (Self.list self.old) (Self.list self.new) }
        ensures after { StaysFrom (at + n) (Self.list self.old) (Self.list self.new) }
        ensures clean { StaysClean Self.Store.BITS Self.head Self.bits Self.list self.old self.new }
        ensures stays { Stays Self.head Self.len count capacity loan self.old self.new }
    {
        let (head, len) = (self.head(), self.len());
        store_le_at_over::<Self::Store, Self::Order>(
            self.as_raw_mut_slice(),
            head,
            len,
            at,
            n,
            number,
        );
    }

    /// Writes the `n` lowest bits of a number over those from index `at` on, the most significant first, and changes
    /// no other bit. Takes no memory. Requires that `n` is at most 64, and that the bits lie in the list.
    ///
    /// ```text
    /// of 00000000: bits.store_be_at(1, 3, 6) leaves 01100000
    /// ```
    #[inline(always)]
    final fn store_be_at(&mut self, at: usize, n: u8, number: u64)
        requires few { n ≤ 64 }
        requires within { at + n ≤ Self.len self.old }
        ensures list { Self.list self.new ≡ put (Self.list self.old) at (binary n number) }
        ensures row { Self.bits self.new ≡ put (Self.bits self.old) (Self.head self.old + at) (binary n number) }
        ensures written { slice_range (Self.list self.new) at (at + n) ≡ binary n number }
        ensures read_back { number < 2 ^ n → value (slice_range (Self.list self.new) at (at + n)) ≡ number }
        ensures before { StaysBefore at (Self.list self.old) (Self.list self.new) }
        ensures after { StaysFrom (at + n) (Self.list self.old) (Self.list self.new) }
        ensures clean { StaysClean Self.Store.BITS Self.head Self.bits Self.list self.old self.new }
        ensures stays { Stays Self.head Self.len count capacity loan self.old self.new }
    {
        let (head, len) = (self.head(), self.len());
        store_be_at_over::<Self::Store, Self::Order>(
            self.as_raw_mut_slice(),
            head,
            len,
            at,
            n,
            number,
        );
    }

    /// Like `store_le_at`, but writes a number in two's complement: its last bit is the sign where the number has `n`
    /// digits.
    ///
    /// ```text
    /// of 00000000: bits.store_signed_le_at(1, 3, -2) leaves 00110000
    /// ```
    final fn store_signed_le_at(&mut self, at: usize, n: u8, number: i64)
        requires few { n ≤ 64 }
        requires within { at + n ≤ Self.len self.old }
        ensures list { Self.list self.new ≡ put (Self.list self.old) at (signed_bits number n) }
        ensures row { Self.bits self.new ≡ put (Self.bits self.old) (Self.head self.old + at) (signed_bits number n) }
        ensures written { slice_range (Self.list self.new) at (at + n) ≡ signed_bits number n }
        ensures read_back { 0 < n → IsSigned n number → signed_of n (number_of (slice_range (Self.list self.new) at (at + n))) ≡ number }
        ensures before { StaysBefore at (Self.list self.old) (Self.list self.new) }
        ensures after { StaysFrom (at + n) (Self.list self.old) (Self.list self.new) }
        ensures clean { StaysClean Self.Store.BITS Self.head Self.bits Self.list self.old self.new }
        ensures stays { Stays Self.head Self.len count capacity loan self.old self.new }
    {
        self.store_le_at(at, n, number.cast_unsigned());
    }

    /// Like `store_be_at`, but writes a number in two's complement: its first bit is the sign where the number has `n`
    /// digits.
    ///
    /// ```text
    /// of 00000000: bits.store_signed_be_at(1, 3, -2) leaves 01100000
    /// ```
    final fn store_signed_be_at(&mut self, at: usize, n: u8, number: i64)
        requires few { n ≤ 64 }
        requires within { at + n ≤ Self.len self.old }
        ensures list { Self.list self.new ≡ put (Self.list self.old) at (signed_binary n number) }
        ensures row { Self.bits self.new ≡ put (Self.bits self.old) (Self.head self.old + at) (signed_binary n number) }
        ensures written { slice_range (Self.list self.new) at (at + n) ≡ signed_binary n number }
        ensures read_back { 0 < n → IsSigned n number → signed_of n (value (slice_range (Self.list self.new) at (at + n))) ≡ number }
        ensures before { StaysBefore at (Self.list self.old) (Self.list self.new) }
        ensures after { StaysFrom (at + n) (Self.list self.old) (Self.list self.new) }
        ensures clean { StaysClean Self.Store.BITS Self.head Self.bits Self.list self.old self.new }
        ensures stays { Stays Self.head Self.len count capacity loan self.old self.new }
    {
        self.store_be_at(at, n, number.cast_unsigned());
    }

    /// Clears each bit that is true in a view. No dead bit changes. Takes no memory.
    ///
    /// ```text
    /// of 01101001 and 01010101: bits.and_not_bits(other) leaves 00101000
    /// ```
    final fn and_not_bits<U: BitStore, P: BitOrder>(&mut self, other: BitSlice<'_, U, P>)
        ensures list { Self.list self.new ≡ and_not_of (Self.list self.old) (list_of other.entry) }
        ensures row { Self.bits self.new ≡ put (Self.bits self.old) (Self.head self.old) (and_not_of (Self.list self.old) (list_of other.entry)) }
        ensures both { (j : ℕ) → slice_get (list_of other.entry) j ≡ Some true → j < Self.len self.old
            → slice_get (Self.list self.new) j ≡ Some false }
        ensures kept { (j : ℕ) → (slice_get (list_of other.entry) j ≢ Some true)
            → slice_get (Self.list self.new) j ≡ slice_get (Self.list self.old) j }
        ensures whole { BecomesWhole Self.Store.BITS Self.head Self.len count Self.bits self.old self.new
            (and_not_of (Self.list self.old) (list_of other.entry)) }
        ensures clean { StaysClean Self.Store.BITS Self.head Self.bits Self.list self.old self.new }
        ensures stays { Stays Self.head Self.len count capacity loan self.old self.new }
    {
        // Proof only: the length of the list.
        let _len = self.len();
        self.combine::<AndNot, U, P>(other);
    }

    /// Combines each bit, by `F`, with the bit at its index in a view, or with false past the view's end.
    ///
    /// ```text
    /// of 01101001 and 01010101: bits.combine::<Xor, _, _>(other) leaves 00111100
    /// ```
    #[tactic(auto, using(crate::proofs::Rules::item_of_combined))]
    final fn combine<F: BitOperator, U: BitStore, P: BitOrder>(&mut self, other: BitSlice<'_, U, P>)
        ensures list { Self.list self.new ≡ combined F.made (Self.list self.old) (list_of other.entry) }
        ensures index { CombinesEach F.made (Self.list self.old) (list_of other.entry) (Self.list self.new) }
        ensures row { Self.bits self.new
            ≡ put (Self.bits self.old) (Self.head self.old) (combined F.made (Self.list self.old) (list_of other.entry)) }
        ensures whole { BecomesWhole Self.Store.BITS Self.head Self.len count Self.bits self.old self.new
            (combined F.made (Self.list self.old) (list_of other.entry)) }
        ensures clean { StaysClean Self.Store.BITS Self.head Self.bits Self.list self.old self.new }
        ensures stays { Stays Self.head Self.len count capacity loan self.old self.new }
    {
        let (head, len) = (self.head(), self.len());
        combine_over::<F, Self::Store, Self::Order, U, P>(
            self.as_raw_mut_slice(),
            head,
            len,
            other,
        );
    }

    /// Clears each bit that is false in a view, and each past the view's end. No dead bit changes. Takes no
    /// memory.
    ///
    /// ```text
    /// of 01101001 and 01010101: bits.and_bits(other) leaves 01000001
    /// ```
    final fn and_bits<U: BitStore, P: BitOrder>(&mut self, other: BitSlice<'_, U, P>)
        ensures list { Self.list self.new ≡ and_of (Self.list self.old) (list_of other.entry) }
        ensures index { AndsEach (Self.list self.old) (list_of other.entry) (Self.list self.new) }
        ensures row { Self.bits self.new ≡ put (Self.bits self.old) (Self.head self.old) (and_of (Self.list self.old) (list_of other.entry)) }
        ensures whole { BecomesWhole Self.Store.BITS Self.head Self.len count Self.bits self.old self.new
            (and_of (Self.list self.old) (list_of other.entry)) }
        ensures clean { StaysClean Self.Store.BITS Self.head Self.bits Self.list self.old self.new }
        ensures stays { Stays Self.head Self.len count capacity loan self.old self.new }
    {
        self.combine::<And, U, P>(other);
    }

    /// Sets each bit that is true in a view; bits of the view past the length don't count. No dead bit
    /// changes. Takes no memory.
    ///
    /// ```text
    /// of 01101001 and 01010101: bits.or_bits(other) leaves 01111101
    /// ```
    final fn or_bits<U: BitStore, P: BitOrder>(&mut self, other: BitSlice<'_, U, P>)
        ensures list { Self.list self.new ≡ or_of (Self.list self.old) (list_of other.entry) }
        ensures index { OrsEach (Self.list self.old) (list_of other.entry) (Self.list self.new) }
        ensures row { Self.bits self.new ≡ put (Self.bits self.old) (Self.head self.old) (or_of (Self.list self.old) (list_of other.entry)) }
        ensures whole { BecomesWhole Self.Store.BITS Self.head Self.len count Self.bits self.old self.new
            (or_of (Self.list self.old) (list_of other.entry)) }
        ensures clean { StaysClean Self.Store.BITS Self.head Self.bits Self.list self.old self.new }
        ensures stays { Stays Self.head Self.len count capacity loan self.old self.new }
    {
        self.combine::<Or, U, P>(other);
    }

    /// Flips each bit that is true in a view; bits of the view past the length don't count. No dead bit
    /// changes. Takes no memory.
    ///
    /// ```text
    /// of 01101001 and 01010101: bits.xor_bits(other) leaves 00111100
    /// ```
    final fn xor_bits<U: BitStore, P: BitOrder>(&mut self, other: BitSlice<'_, U, P>)
        ensures list { Self.list self.new ≡ xor_of (Self.list self.old) (list_of other.entry) }
        ensures index { XorsEach (Self.list self.old) (list_of other.entry) (Self.list self.new) }
        ensures row { Self.bits self.new ≡ put (Self.bits self.old) (Self.head self.old) (xor_of (Self.list self.old) (list_of other.entry)) }
        ensures whole { BecomesWhole Self.Store.BITS Self.head Self.len count Self.bits self.old self.new
            (xor_of (Self.list self.old) (list_of other.entry)) }
        ensures clean { StaysClean Self.Store.BITS Self.head Self.bits Self.list self.old self.new }
        ensures stays { Stays Self.head Self.len count capacity loan self.old self.new }
    {
        self.combine::<Xor, U, P>(other);
    }

    /// Writes the bits of a view at the indices where a mask has ones: a multiplexer. A bit past the end of the view is
    /// false, and one past the end of the mask does not change, nor does a dead bit. Takes no memory.
    ///
    /// ```text
    /// of 01101001, the mask 11110000 and 10101010: bits.copy_where(mask, source) leaves 10101001
    /// ```
    final fn copy_where<U: BitStore, P: BitOrder, V: BitStore, Q: BitOrder>(
        &mut self,
        mask: BitSlice<'_, U, P>,
        source: BitSlice<'_, V, Q>,
    )
        ensures list { Self.list self.new ≡ masked (Self.list self.old) (list_of mask.entry) (list_of source.entry) }
        ensures row { Self.bits self.new ≡ put (Self.bits self.old) (Self.head self.old)
            (masked (Self.list self.old) (list_of mask.entry) (list_of source.entry)) }
        ensures copied { (j : ℕ) → slice_get (list_of mask.entry) j ≡ Some true → j < Self.len self.old
            → j < len_of source.entry → slice_get (Self.list self.new) j ≡ slice_get (list_of source.entry) j }
        ensures kept { (j : ℕ) → (slice_get (list_of mask.entry) j ≢ Some true)
            → slice_get (Self.list self.new) j ≡ slice_get (Self.list self.old) j }
        ensures whole { BecomesWhole Self.Store.BITS Self.head Self.len count Self.bits self.old self.new
            (masked (Self.list self.old) (list_of mask.entry) (list_of source.entry)) }
        ensures clean { StaysClean Self.Store.BITS Self.head Self.bits Self.list self.old self.new }
        ensures stays { Stays Self.head Self.len count capacity loan self.old self.new }
    {
        let (head, len) = (self.head(), self.len());
        copy_masked::<Self::Store, Self::Order, U, P, V, Q>(
            self.as_raw_mut_slice(),
            head,
            len,
            mask,
            source,
        );
    }

    /// Writes the bits of a view, one after another, at the indices where a mask has ones, or false where none is
    /// left: what `extend_where` of a vector takes out of a list by a mask goes back by the same mask. A bit past the
    /// end of the mask does not change, nor does a dead bit. Takes no memory.
    ///
    /// ```text
    /// of 00000000, the mask 01101001 and 1011: bits.deposit(mask, source) leaves 01001001
    /// ```
    final fn deposit<U: BitStore, P: BitOrder, V: BitStore, Q: BitOrder>(
        &mut self,
        mask: BitSlice<'_, U, P>,
        source: BitSlice<'_, V, Q>,
    )
        ensures list { Self.list self.new ≡ deposited (Self.list self.old) (list_of mask.entry) (list_of source.entry) }
        ensures row { Self.bits self.new ≡ put (Self.bits self.old) (Self.head self.old)
            (deposited (Self.list self.old) (list_of mask.entry) (list_of source.entry)) }
        ensures kept { (j : ℕ) → (slice_get (list_of mask.entry) j ≢ Some true)
            → slice_get (Self.list self.new) j ≡ slice_get (Self.list self.old) j }
        ensures whole { BecomesWhole Self.Store.BITS Self.head Self.len count Self.bits self.old self.new
            (deposited (Self.list self.old) (list_of mask.entry) (list_of source.entry)) }
        ensures clean { StaysClean Self.Store.BITS Self.head Self.bits Self.list self.old self.new }
        ensures stays { Stays Self.head Self.len count capacity loan self.old self.new }
    {
        let (head, len) = (self.head(), self.len());
        deposit_masked::<Self::Store, Self::Order, U, P, V, Q>(
            self.as_raw_mut_slice(),
            head,
            len,
            mask,
            source,
        );
    }

    /// Exchanges the bits with those of another list, of any kind, word type and order. No dead bit changes. Takes no
    /// memory. Requires that both have as many bits.
    ///
    /// ```text
    /// of 01101001 and 01010101: bits.swap_with(&mut other) leaves 01010101
    /// ```
    final fn swap_with<B: BitListMut>(&mut self, other: &mut B)
        requires { Self.len self.old ≡ B.len other.old }
        ensures list { Self.list self.new ≡ B.list other.old }
        ensures other_list { B.list other.new ≡ Self.list self.old }
        ensures row { Self.bits self.new ≡ put (Self.bits self.old) (Self.head self.old) (B.list other.old) }
        ensures other_row { B.bits other.new ≡ put (B.bits other.old) (B.head other.old) (Self.list self.old) }
        ensures whole { BecomesWhole Self.Store.BITS Self.head Self.len count Self.bits self.old self.new (B.list other.old) }
        ensures other_whole { BecomesWhole B.Store.BITS B.head B.len B.count B.bits other.old other.new (Self.list self.old) }
        ensures clean { StaysClean Self.Store.BITS Self.head Self.bits Self.list self.old self.new }
        ensures other_clean { StaysClean B.Store.BITS B.head B.bits B.list other.old other.new }
        ensures stays { Stays Self.head Self.len count capacity loan self.old self.new }
        ensures other_stays { Stays B.head B.len B.count B.capacity B.loan other.old other.new }
    {
        // Proof only: the bits lie in the words.
        let _view = self.as_bitslice();
        self.xor_bits(other.as_bitslice());
        other.xor_bits(self.as_bitslice());
        self.xor_bits(other.as_bitslice());
    }

    /// Writes the bits of a view, with any word type and order, over those of the list. No dead bit
    /// changes. Takes no memory. Requires that the view has as many bits as the list.
    ///
    /// ```text
    /// of 01101001 and 01010101: bits.clone_from_bitslice(other) leaves 01010101
    /// ```
    final fn clone_from_bitslice<U: BitStore, P: BitOrder>(&mut self, source: BitSlice<'_, U, P>)
        requires { len_of source ≡ Self.len self.old }
        ensures list { Self.list self.new ≡ list_of source.entry }
        ensures row { Self.bits self.new ≡ put (Self.bits self.old) (Self.head self.old) (list_of source.entry) }
        ensures whole { BecomesWhole Self.Store.BITS Self.head Self.len count Self.bits self.old self.new
            (list_of source.entry) }
        ensures clean { StaysClean Self.Store.BITS Self.head Self.bits Self.list self.old self.new }
        ensures stays { Stays Self.head Self.len count capacity loan self.old self.new }
    {
        let (head, len) = (self.head(), self.len());
        copy_over::<Self::Store, Self::Order, U, P>(self.as_raw_mut_slice(), head, len, source);
    }

    /// Writes the combination, by `F`, of the bits of two views at each index. A view may be a part, so either side may
    /// be shifted. No dead bit changes. Takes no memory. Requires that both views have as many bits as the list.
    ///
    /// ```text
    /// of 0000, 0101 and 0011: bits.assign::<Xor, u8, Lsb0, u8, Lsb0>(left, right) leaves 0110
    /// ```
    #[tactic(auto, using(crate::proofs::Rules::item_of_combined))]
    final fn assign<F: BitOperator, U: BitStore, P: BitOrder, V: BitStore, Q: BitOrder>(
        &mut self,
        left: BitSlice<'_, U, P>,
        right: BitSlice<'_, V, Q>,
    )
        requires left { len_of left ≡ Self.len self.old }
        requires right { len_of right ≡ Self.len self.old }
        ensures list { Self.list self.new ≡ combined F.made (list_of left.entry) (list_of right.entry) }
        ensures index { CombinesEach F.made (list_of left.entry) (list_of right.entry) (Self.list self.new) }
        ensures row { Self.bits self.new
            ≡ put (Self.bits self.old) (Self.head self.old) (combined F.made (list_of left.entry) (list_of right.entry)) }
        ensures whole { BecomesWhole Self.Store.BITS Self.head Self.len count Self.bits self.old self.new
            (combined F.made (list_of left.entry) (list_of right.entry)) }
        ensures clean { StaysClean Self.Store.BITS Self.head Self.bits Self.list self.old self.new }
        ensures stays { Stays Self.head Self.len count capacity loan self.old self.new }
    {
        let (head, len) = (self.head(), self.len());
        assign_over::<F, Self::Store, Self::Order, U, P, V, Q>(
            self.as_raw_mut_slice(),
            head,
            len,
            left,
            right,
        );
    }

    /// Writes which bits are true in both of two views. Like `assign`.
    ///
    /// ```text
    /// of 0000, 0101 and 0011: bits.assign_and(left, right) leaves 0001
    /// ```
    final fn assign_and<U: BitStore, P: BitOrder, V: BitStore, Q: BitOrder>(
        &mut self,
        left: BitSlice<'_, U, P>,
        right: BitSlice<'_, V, Q>,
    )
        requires left { len_of left ≡ Self.len self.old }
        requires right { len_of right ≡ Self.len self.old }
        ensures list { Self.list self.new ≡ and_of (list_of left.entry) (list_of right.entry) }
        ensures index { AndsEach (list_of left.entry) (list_of right.entry) (Self.list self.new) }
        ensures row { Self.bits self.new ≡ put (Self.bits self.old) (Self.head self.old) (and_of (list_of left.entry) (list_of right.entry)) }
        ensures whole { BecomesWhole Self.Store.BITS Self.head Self.len count Self.bits self.old self.new
            (and_of (list_of left.entry) (list_of right.entry)) }
        ensures clean { StaysClean Self.Store.BITS Self.head Self.bits Self.list self.old self.new }
        ensures stays { Stays Self.head Self.len count capacity loan self.old self.new }
    {
        self.assign::<And, U, P, V, Q>(left, right);
    }

    /// Writes which bits are true in either of two views. Like `assign`.
    ///
    /// ```text
    /// of 0000, 0101 and 0011: bits.assign_or(left, right) leaves 0111
    /// ```
    final fn assign_or<U: BitStore, P: BitOrder, V: BitStore, Q: BitOrder>(
        &mut self,
        left: BitSlice<'_, U, P>,
        right: BitSlice<'_, V, Q>,
    )
        requires left { len_of left ≡ Self.len self.old }
        requires right { len_of right ≡ Self.len self.old }
        ensures list { Self.list self.new ≡ or_of (list_of left.entry) (list_of right.entry) }
        ensures index { OrsEach (list_of left.entry) (list_of right.entry) (Self.list self.new) }
        ensures row { Self.bits self.new ≡ put (Self.bits self.old) (Self.head self.old) (or_of (list_of left.entry) (list_of right.entry)) }
        ensures whole { BecomesWhole Self.Store.BITS Self.head Self.len count Self.bits self.old self.new
            (or_of (list_of left.entry) (list_of right.entry)) }
        ensures clean { StaysClean Self.Store.BITS Self.head Self.bits Self.list self.old self.new }
        ensures stays { Stays Self.head Self.len count capacity loan self.old self.new }
    {
        self.assign::<Or, U, P, V, Q>(left, right);
    }

    /// Writes which bits differ in two views. Like `assign`.
    ///
    /// ```text
    /// of 0000, 0101 and 0011: bits.assign_xor(left, right) leaves 0110
    /// ```
    final fn assign_xor<U: BitStore, P: BitOrder, V: BitStore, Q: BitOrder>(
        &mut self,
        left: BitSlice<'_, U, P>,
        right: BitSlice<'_, V, Q>,
    )
        requires left { len_of left ≡ Self.len self.old }
        requires right { len_of right ≡ Self.len self.old }
        ensures list { Self.list self.new ≡ xor_of (list_of left.entry) (list_of right.entry) }
        ensures index { XorsEach (list_of left.entry) (list_of right.entry) (Self.list self.new) }
        ensures row { Self.bits self.new ≡ put (Self.bits self.old) (Self.head self.old) (xor_of (list_of left.entry) (list_of right.entry)) }
        ensures whole { BecomesWhole Self.Store.BITS Self.head Self.len count Self.bits self.old self.new
            (xor_of (list_of left.entry) (list_of right.entry)) }
        ensures clean { StaysClean Self.Store.BITS Self.head Self.bits Self.list self.old self.new }
        ensures stays { Stays Self.head Self.len count capacity loan self.old self.new }
    {
        self.assign::<Xor, U, P, V, Q>(left, right);
    }

    /// Writes which bits are true in one view and not in another. Like `assign`.
    ///
    /// ```text
    /// of 0000, 0101 and 0011: bits.assign_and_not(left, right) leaves 0100
    /// ```
    final fn assign_and_not<U: BitStore, P: BitOrder, V: BitStore, Q: BitOrder>(
        &mut self,
        left: BitSlice<'_, U, P>,
        right: BitSlice<'_, V, Q>,
    )
        requires left { len_of left ≡ Self.len self.old }
        requires right { len_of right ≡ Self.len self.old }
        ensures list { Self.list self.new ≡ and_not_of (list_of left.entry) (list_of right.entry) }
        ensures index { AndNotsEach (list_of left.entry) (list_of right.entry) (Self.list self.new) }
        ensures row { Self.bits self.new ≡ put (Self.bits self.old) (Self.head self.old) (and_not_of (list_of left.entry) (list_of right.entry)) }
        ensures whole { BecomesWhole Self.Store.BITS Self.head Self.len count Self.bits self.old self.new
            (and_not_of (list_of left.entry) (list_of right.entry)) }
        ensures clean { StaysClean Self.Store.BITS Self.head Self.bits Self.list self.old self.new }
        ensures stays { Stays Self.head Self.len count capacity loan self.old self.new }
    {
        self.assign::<AndNot, U, P, V, Q>(left, right);
    }

    /// Copies the bits of a range to index `dest`, as if they were copied out first. No other bit changes, dead
    /// bits included. Takes no memory. Requires that the range lies in the length and that its bits have room
    /// from `dest` on.
    ///
    /// ```text
    /// of 01101001: bits.copy_within(2..5, 0) leaves 10101001
    /// ```
    final fn copy_within<R: RangeExt>(&mut self, range: R, dest: usize)
        requires lies { LiesIn (R.start_of range) (R.end_of range (Self.len self.old)) (Self.len self.old) }
        requires room { dest + (R.end_of range (Self.len self.old) - R.start_of range) ≤ Self.len self.old }
        ensures list { Self.list self.new
            ≡ moved (Self.list self.old) (R.start_of range) dest
            (R.end_of range (Self.len self.old) - R.start_of range) }
        ensures row { Self.bits self.new
            ≡ moved (Self.bits self.old) (Self.head self.old + R.start_of range) (Self.head self.old + dest)
            (R.end_of range (Self.len self.old) - R.start_of range) }
        ensures landed { let n = R.end_of range (Self.len self.old)
            - R.start_of range in slice_range (Self.list self.new) dest (dest + n)
            ≡ slice_range (Self.list self.old) (R.start_of range) (R.start_of range + n) }
        ensures clean { StaysClean Self.Store.BITS Self.head Self.bits Self.list self.old self.new }
        ensures stays { Stays Self.head Self.len count capacity loan self.old self.new }
    {
        let _meter = self.copy_within_counted(range, dest);
    }

    /// Like `copy_within`, but returns the meter of the words that were read and written: at most one write for
    /// each word that holds a bit of the target, and at most three reads for each.
    ///
    /// ```text
    /// let meter = v.copy_within_counted(0..9, 3);   // 12 bits in bytes: meter.writes ≤ 2, meter.reads ≤ 6
    /// ```
    final fn copy_within_counted<R: RangeExt>(&mut self, range: R, dest: usize) -> Meter
        requires lies { LiesIn (R.start_of range) (R.end_of range (Self.len self.old)) (Self.len self.old) }
        requires room { dest + (R.end_of range (Self.len self.old) - R.start_of range) ≤ Self.len self.old }
        ensures list { Self.list self.new
            ≡ moved (Self.list self.old) (R.start_of range) dest
            (R.end_of range (Self.len self.old) - R.start_of range) }
        ensures row { Self.bits self.new
            ≡ moved (Self.bits self.old) (Self.head self.old + R.start_of range) (Self.head self.old + dest)
            (R.end_of range (Self.len self.old) - R.start_of range) }
        ensures landed { let n = R.end_of range (Self.len self.old)
            - R.start_of range in slice_range (Self.list self.new) dest (dest + n)
            ≡ slice_range (Self.list self.old) (R.start_of range) (R.start_of range + n) }
        ensures clean { StaysClean Self.Store.BITS Self.head Self.bits Self.list self.old self.new }
        ensures stays { Stays Self.head Self.len count capacity loan self.old self.new }
        ensures writes { result.writes
            ≤ touched Self.Store.BITS (Self.head self.old + dest)
            (R.end_of range (Self.len self.old) - R.start_of range) }
        ensures reads { result.reads
            ≤ 3
            * touched Self.Store.BITS (Self.head self.old + dest)
            (R.end_of range (Self.len self.old) - R.start_of range) }
    {
        let (head, len) = (self.head(), self.len());
        move_within_over::<Self::Store, Self::Order, R>(
            self.as_raw_mut_slice(),
            head,
            len,
            range,
            dest,
        )
    }

    /// Reverses the list. No dead bit changes. Takes no memory.
    ///
    /// ```text
    /// of 01101001: bits.reverse() leaves 10010110
    /// ```
    #[tactic(auto, using(crate::proofs::Moved::reversed_at))]
    final fn reverse(&mut self)
        ensures list { Self.list self.new ≡ reverse (Self.list self.old) }
        ensures index { (j : ℕ) → j < Self.len self.old
            → slice_get (Self.list self.new) j ≡ slice_get (Self.list self.old) (Self.len self.old - 1 - j) }
        ensures row { Self.bits self.new ≡ put (Self.bits self.old) (Self.head self.old) (reverse (Self.list self.old)) }
        ensures clean { StaysClean Self.Store.BITS Self.head Self.bits Self.list self.old self.new }
        ensures stays { Stays Self.head Self.len count capacity loan self.old self.new }
    {
        let (head, len) = (self.head(), self.len());
        reverse_over::<Self::Store, Self::Order>(self.as_raw_mut_slice(), head, len);
    }

    /// Moves the first `by` bits after the others. No dead bit changes. Takes no memory. Requires that `by` is at
    /// most the length.
    ///
    /// ```text
    /// of 01101001: bits.rotate_left(2) leaves 10100101
    /// ```
    #[tactic(auto, using(crate::proofs::Moved::rotated_front, crate::proofs::Moved::rotated_back))]
    final fn rotate_left(&mut self, by: usize)
        requires { by ≤ Self.len self.old }
        ensures list { Self.list self.new ≡ drop by (Self.list self.old) ++ take by (Self.list self.old) }
        ensures front { (j : ℕ) → j + by < Self.len self.old
            → slice_get (Self.list self.new) j ≡ slice_get (Self.list self.old) (j + by) }
        ensures back { (j : ℕ) → j < by
            → slice_get (Self.list self.new) (Self.len self.old - by + j) ≡ slice_get (Self.list self.old) j }
        ensures row { Self.bits self.new ≡ put (Self.bits self.old) (Self.head self.old) (drop by (Self.list self.old) ++ take by (Self.list self.old)) }
        ensures clean { StaysClean Self.Store.BITS Self.head Self.bits Self.list self.old self.new }
        ensures stays { Stays Self.head Self.len count capacity loan self.old self.new }
    {
        let (head, len) = (self.head(), self.len());
        rotate_over::<Self::Store, Self::Order>(self.as_raw_mut_slice(), head, len, by);
    }

    /// Moves the last `by` bits before the others. No dead bit changes. Takes no memory. Requires that `by` is at
    /// most the length.
    ///
    /// ```text
    /// of 01101001: bits.rotate_right(2) leaves 01011010
    /// ```
    #[tactic(auto, using(crate::proofs::Moved::rotated_right_front, crate::proofs::Moved::rotated_right_back))]
    final fn rotate_right(&mut self, by: usize)
        requires { by ≤ Self.len self.old }
        ensures list { Self.list self.new
            ≡ drop (Self.len self.old - by) (Self.list self.old)
            ++ take (Self.len self.old - by) (Self.list self.old) }
        ensures front { (j : ℕ) → j < by
            → slice_get (Self.list self.new) j ≡ slice_get (Self.list self.old) (Self.len self.old - by + j) }
        ensures back { (j : ℕ) → j + by < Self.len self.old
            → slice_get (Self.list self.new) (j + by) ≡ slice_get (Self.list self.old) j }
        ensures row { Self.bits self.new
            ≡ put (Self.bits self.old) (Self.head self.old) (drop (Self.len self.old - by) (Self.list self.old)
            ++ take (Self.len self.old - by) (Self.list self.old)) }
        ensures clean { StaysClean Self.Store.BITS Self.head Self.bits Self.list self.old self.new }
        ensures stays { Stays Self.head Self.len count capacity loan self.old self.new }
    {
        let (head, len) = (self.head(), self.len());
        rotate_over::<Self::Store, Self::Order>(self.as_raw_mut_slice(), head, len, len - by);
    }

    /// Moves each bit by `by` indices towards the front. The first `by` bits are dropped, and the last `by`
    /// become false. No dead bit changes. Takes no memory. Requires that `by` is at most the length.
    ///
    /// ```text
    /// of 01101001: bits.shift_left(2) leaves 10100100
    /// ```
    #[tactic(auto, using(crate::proofs::Moved::shifted_left_at, crate::proofs::Moved::shifted_left_end))]
    final fn shift_left(&mut self, by: usize)
        requires { by ≤ Self.len self.old }
        ensures list { Self.list self.new ≡ drop by (Self.list self.old) ++ replicate by false }
        ensures kept { (j : ℕ) → j + by < Self.len self.old
            → slice_get (Self.list self.new) j ≡ slice_get (Self.list self.old) (j + by) }
        ensures cleared { (j : ℕ) → Self.len self.old ≤ j + by → j < Self.len self.old
            → slice_get (Self.list self.new) j ≡ Some false }
        ensures row { Self.bits self.new ≡ put (Self.bits self.old) (Self.head self.old) (drop by (Self.list self.old) ++ replicate by false) }
        ensures clean { StaysClean Self.Store.BITS Self.head Self.bits Self.list self.old self.new }
        ensures stays { Stays Self.head Self.len count capacity loan self.old self.new }
    {
        let (head, len) = (self.head(), self.len());
        shift_left_over::<Self::Store, Self::Order>(self.as_raw_mut_slice(), head, len, by);
    }

    /// Moves each bit by `by` indices towards the end. The last `by` bits are dropped, and the first `by`
    /// become false. No dead bit changes. Takes no memory. Requires that `by` is at most the length.
    ///
    /// ```text
    /// of 01101001: bits.shift_right(2) leaves 00011010
    /// ```
    #[tactic(auto, using(crate::proofs::Moved::shifted_right_at, crate::proofs::Moved::shifted_right_front))]
    final fn shift_right(&mut self, by: usize)
        requires { by ≤ Self.len self.old }
        ensures list { Self.list self.new ≡ replicate by false ++ take (Self.len self.old - by) (Self.list self.old) }
        ensures kept { (j : ℕ) → j + by < Self.len self.old
            → slice_get (Self.list self.new) (j + by) ≡ slice_get (Self.list self.old) j }
        ensures cleared { (j : ℕ) → j < by → slice_get (Self.list self.new) j ≡ Some false }
        ensures row { Self.bits self.new
            ≡ put (Self.bits self.old) (Self.head self.old)
            (replicate by false ++ take (Self.len self.old - by) (Self.list self.old)) }
        ensures clean { StaysClean Self.Store.BITS Self.head Self.bits Self.list self.old self.new }
        ensures stays { Stays Self.head Self.len count capacity loan self.old self.new }
    {
        let (head, len) = (self.head(), self.len());
        shift_right_over::<Self::Store, Self::Order>(self.as_raw_mut_slice(), head, len, by);
    }

    /// Combines each bit at `dest + k`, by `F`, with bit `k` of a range, as if the range was read before any
    /// bit is written. Requires that the range lies in the length, and that its bits have room from `dest` on.
    ///
    /// ```text
    /// of 01101001: bits.combine_within::<Xor, _>(..4, 4) leaves 01101111
    /// ```
    final fn combine_within<F: BitOperator, R: RangeExt>(&mut self, range: R, dest: usize)
        requires lies { LiesIn (R.start_of range) (R.end_of range (Self.len self.old)) (Self.len self.old) }
        requires room { dest + (R.end_of range (Self.len self.old) - R.start_of range) ≤ Self.len self.old }
        ensures list { Self.list self.new
            ≡ put (Self.list self.old) dest (part_onto (combined F.made) (Self.list self.old) (R.start_of range)
            (R.end_of range (Self.len self.old)) dest) }
        ensures row { Self.bits self.new
            ≡ put (Self.bits self.old) (Self.head self.old + dest)
            (part_onto (combined F.made) (Self.list self.old) (R.start_of range)
            (R.end_of range (Self.len self.old)) dest) }
        ensures clean { StaysClean Self.Store.BITS Self.head Self.bits Self.list self.old self.new }
        ensures stays { Stays Self.head Self.len count capacity loan self.old self.new }
    {
        let (head, len) = (self.head(), self.len());
        combine_within_over::<F, Self::Store, Self::Order, R>(
            self.as_raw_mut_slice(),
            head,
            len,
            range,
            dest,
        );
    }

    /// Clears each bit at `dest + k` where bit `k` of a range is false, as if the range was read before any bit
    /// is written. The two runs may overlap. Takes no memory. Requires that the range lies in the length, and
    /// that its bits have room from `dest` on.
    ///
    /// ```text
    /// of 01101001: bits.and_within(4..8, 0) leaves 00001001
    /// ```
    final fn and_within<R: RangeExt>(&mut self, range: R, dest: usize)
        requires lies { LiesIn (R.start_of range) (R.end_of range (Self.len self.old)) (Self.len self.old) }
        requires room { dest + (R.end_of range (Self.len self.old) - R.start_of range) ≤ Self.len self.old }
        ensures list { Self.list self.new
            ≡ put (Self.list self.old) dest (part_onto and_of (Self.list self.old) (R.start_of range)
            (R.end_of range (Self.len self.old)) dest) }
        ensures row { Self.bits self.new
            ≡ put (Self.bits self.old) (Self.head self.old + dest)
            (part_onto and_of (Self.list self.old) (R.start_of range) (R.end_of range (Self.len self.old))
            dest) }
        ensures clean { StaysClean Self.Store.BITS Self.head Self.bits Self.list self.old self.new }
        ensures stays { Stays Self.head Self.len count capacity loan self.old self.new }
    {
        self.combine_within::<And, R>(range, dest);
    }

    /// Sets each bit at `dest + k` where bit `k` of a range is true, as if the range was read before any bit is
    /// written. The two runs may overlap. Takes no memory. Requires that the range lies in the length, and that
    /// its bits have room from `dest` on.
    ///
    /// ```text
    /// of 01101001: bits.or_within(4..8, 0) leaves 11111001
    /// ```
    final fn or_within<R: RangeExt>(&mut self, range: R, dest: usize)
        requires lies { LiesIn (R.start_of range) (R.end_of range (Self.len self.old)) (Self.len self.old) }
        requires room { dest + (R.end_of range (Self.len self.old) - R.start_of range) ≤ Self.len self.old }
        ensures list { Self.list self.new
            ≡ put (Self.list self.old) dest (part_onto or_of (Self.list self.old) (R.start_of range)
            (R.end_of range (Self.len self.old)) dest) }
        ensures row { Self.bits self.new
            ≡ put (Self.bits self.old) (Self.head self.old + dest)
            (part_onto or_of (Self.list self.old) (R.start_of range) (R.end_of range (Self.len self.old))
            dest) }
        ensures clean { StaysClean Self.Store.BITS Self.head Self.bits Self.list self.old self.new }
        ensures stays { Stays Self.head Self.len count capacity loan self.old self.new }
    {
        self.combine_within::<Or, R>(range, dest);
    }

    /// Flips each bit at `dest + k` where bit `k` of a range is true, as if the range was read before any bit is
    /// written. The two runs may overlap. Takes no memory. Requires that the range lies in the length, and that
    /// its bits have room from `dest` on.
    ///
    /// ```text
    /// of 01101001: bits.xor_within(4..8, 0) leaves 11111001
    /// ```
    final fn xor_within<R: RangeExt>(&mut self, range: R, dest: usize)
        requires lies { LiesIn (R.start_of range) (R.end_of range (Self.len self.old)) (Self.len self.old) }
        requires room { dest + (R.end_of range (Self.len self.old) - R.start_of range) ≤ Self.len self.old }
        ensures list { Self.list self.new
            ≡ put (Self.list self.old) dest (part_onto xor_of (Self.list self.old) (R.start_of range)
            (R.end_of range (Self.len self.old)) dest) }
        ensures row { Self.bits self.new
            ≡ put (Self.bits self.old) (Self.head self.old + dest)
            (part_onto xor_of (Self.list self.old) (R.start_of range) (R.end_of range (Self.len self.old))
            dest) }
        ensures clean { StaysClean Self.Store.BITS Self.head Self.bits Self.list self.old self.new }
        ensures stays { Stays Self.head Self.len count capacity loan self.old self.new }
    {
        self.combine_within::<Xor, R>(range, dest);
    }
}

/// Flips every bit of the words of a list of bits, those outside the list too. Takes no memory.
///
/// ```text
/// of the words 01101001, with the list 101 from head 2 on: flip_row(&mut bits) leaves the words 10010110
/// ```
#[tactic(auto, using(crate::proofs::Parts::shown_length, bit_addressing::proofs::lists::Shown::shows_map, crate::proofs::Rules::item_of_not))]
pub fn flip_row<B: BitListMut>(bits: &mut B)
    ensures list { B.list bits.new ≡ map not (B.list bits.old) }
    ensures index { FlipsEach (B.list bits.old) (B.list bits.new) }
    ensures row { B.bits bits.new ≡ map not (B.bits bits.old) }
    ensures stays { Stays B.head B.len B.count B.capacity B.loan bits.old bits.new }
{
    flip_words::<B::Store, B::Order>(bits.as_raw_mut_slice());
}

impl<'a, T: BitStore, O: BitOrder> BitListMut for BitSliceMut<'a, T, O> {
    ghost use Rattle.bit_slice.specs.BitSliceMut.{words_of, len_of as lent_len, loan_of};
    ghost use Rattle.bit_slice.specs.Lends.{with_words};
    ghost use Rattle.std.specs.Prelude.{refl};
    ghost use Rattle.std.specs.List.{length_refill};
    ghost use Rattle.std.proofs.Common.{sym};
    ghost use Rattle.bit_addressing.proofs.lists.Refilled.{refilled};

    ghost count = { λ v. length (words_of v) };

    ghost capacity = { λ v. lent_len v };

    ghost loan = { λ v. loan_of v };

    ghost rewritten = { λ v ws. with_words T.BitStore O.BitOrder v ws };

    fn as_raw_mut_slice(&mut self) -> &mut [T] {
        &mut *self.words
    }

    ghost words_rewritten = { λ v ws e. refilled (length (words_of v)) (words_of v) ws e };

    ghost bits_rewritten = { λ v ws e. Prim.rw (refilled (length (words_of v)) (words_of v) ws e) refl };

    ghost list_rewritten = { λ v ws e f. Prim.rw (refilled (length (words_of v)) (words_of v) ws e) refl };

    ghost stays_rewritten = { λ v ws. record {
      head = refl;
      len = refl;
      size = sym (length_refill (length (words_of v)) (words_of v) ws refl);
      capacity = refl;
      same_words = refl;
    } };
}
