//! The calls that read, once for views, arrays, boxes and vectors.
ghost use Rattle.std.specs.Iterator.{YieldsFirst, YieldsFirstBy, YieldsLast, YieldsLastBy};
ghost use Rattle.std.specs.Iterator.Runs.{EveryRun, ItemsMapTo, ItemsMapToReversed, YieldsInOrder, YieldsInReverse};
ghost use Rattle.std.specs.List.{list_any, list_all, position, prefix_len, suffix_len, All};
ghost use Rattle.std.specs.String.{string_bytes};
ghost use Rattle.std.specs.Prelude.{◌≡◌, ◌≢◌, ℕ, ◌+◌, ◌-◌, ◌*◌, ◌/◌, ◌%◌, ◌^◌, ◌<◌, ◌≤◌, ◌&&◌, ◌↔◌, ◌++◌, ◌∷◌, [], Bool, List, IsNone, IsTrue, IfNone, IfOk, IfSome, OnErr, EachIndex, SomeIndex, Some, count_by, drop, false, length, map, not, replicate, slice_get, slice_range, take, true};
ghost use Rattle.bit_addressing.specs.declared.length.TheConstants.{MAX_BITS};
ghost use Rattle.bit_addressing.specs.Binary.{value};
ghost use Rattle.bit_addressing.specs.Range.{LiesIn};
ghost use Rattle.bit_addressing.specs.Row.{binary, number_bits, number_of, words_for};
ghost use Rattle.bit_addressing.specs.Text.{digit_of};
ghost use Rattle.bit_addressing.specs.Typed.{row as row_in};
ghost use Rattle.bit_slice.specs.BitRuns.{ranges_left, ranges_of, ranges_text, runs_left, runs_of, shown_ranges};
ghost use Rattle.bit_slice.specs.BitSlice.{words_of, head_of, len_of, row_of, list_of, IsPlaced};
ghost use Rattle.bit_slice.specs.Indices.{ones_left, zeros_left};
ghost use Rattle.bit_slice.specs.Numbered.{ones_before, zeros_before};
ghost use Rattle.bit_slice.specs.Operators.{bits_cmp, and_of, or_of, xor_of, and_not_of};
ghost use Rattle.bit_slice.specs.Pieces.{part, chunk_count, chunks_of, exact_chunks_of, back_chunks_of, windows_of};
ghost use Rattle.bit_slice.specs.PiecesLeft.{chunks_left, chunks_walk, exact_chunks_left, exact_chunks_walk, exact_first, exact_last, remainder_of, back_chunks_left, back_chunks_walk, windows_left, windows_walk, BeginsIn};
ghost use Rattle.bit_slice.specs.Patterns.{places_left, places_of_pattern};
ghost use Rattle.bit_slice.specs.Places.{ones_of, zeros_of};
ghost use Rattle.bit_slice.specs.Split.{split_done, split_from, split_list, split_test};
ghost use Rattle.bit_slice.specs.Signed.{IsSigned, signed_binary, signed_bits, signed_of};

use crate::edits::AndNot;
use crate::numbers::extended;
use crate::ops::{equal_views, first_difference};
use crate::slice::BitSlice;
use crate::slice::chunks::{Chunks, ChunksExact, RChunks, Windows};
use crate::slice::indices::{IterOnes, IterZeros};
use crate::slice::nth::nth_from;
use crate::slice::places::FindAll;
use crate::slice::ranges::{IterRanges, RangesText};
use crate::slice::runs::IterRuns;
use crate::slice::sets::{any_pair, count_pairs};
use crate::slice::split::Split;
use crate::slice_mut::BitSliceMut;
use crate::texts::digits_of;
use bit_addressing::{BitOrder, BitStore, RangeExt};
use bit_rows::{And, Or, Xor, find_bit, read_binary, read_chunk};
use std::alloc::{AllocError, Global};
use std::cmp::Ordering;

/// What shows a list of bits.
pub trait BitList {
    type Store: BitStore;

    type Order: BitOrder;

    // The index, in its first word, at which the list begins.
    ghost head: { Self → ℕ };

    // The number of bits of the list.
    ghost len: { Self → ℕ };

    // The bits, the first first.
    ghost list: { Self → List Bool };

    // All its words. There may be more than the head and the length take.
    ghost words: { Self → List Self.Store };

    // All bits of its words in a row.
    ghost bits: { Self → List Bool };

    /// The view of the bits, for reading: it borrows the words that the head and the length take.
    fn as_bitslice(&self) -> BitSlice<'_, Self::Store, Self::Order>
        ensures head { head_of result ≡ head self.now }
        ensures len { len_of result ≡ len self.now }
        ensures list { list_of result ≡ list self.now }
        ensures size { len self.now ≡ length (list self.now) }
        ensures words { words_of result
            ≡ take (words_for Self.Store.BITS (head self.now + len self.now)) (words self.now) }
        ensures row { bits self.now ≡ row_in Self.Store.BitStore Self.Order.BitOrder (words self.now) }
        ensures room { words_for Self.Store.BITS (head self.now + len self.now) ≤ length (words self.now) };

    /// The index, in the first word, at which the list begins.
    ///
    /// ```text
    /// of 01101001: bits.head() == 0
    /// ```
    final fn head(&self) -> usize
        ensures value { result ≡ head self.now }
        ensures in_word { result < Self.Store.BITS }
    {
        self.as_bitslice().head()
    }

    /// The number of bits.
    ///
    /// ```text
    /// of 01101001: bits.len() == 8
    /// ```
    final fn len(&self) -> usize
        ensures value { result ≡ len self.now }
        ensures list { result ≡ length (list self.now) }
        ensures few { result ≤ MAX_BITS }
    {
        self.as_bitslice().len()
    }

    /// Whether there is no bit.
    ///
    /// ```text
    /// of 01101001: bits.is_empty() == false
    /// ```
    final fn is_empty(&self) -> bool
        ensures { IsTrue result ↔ (len self.now ≡ 0) }
    {
        self.as_bitslice().is_empty()
    }

    /// The bit at `i`. None exactly where `i` is the length or more.
    ///
    /// ```text
    /// of 01101001: bits.get(1) == Some(true)
    /// ```
    final fn get(&self, i: usize) -> Option<bool>
        ensures { result ≡ slice_get (list self.now) i }
    {
        self.as_bitslice().get(i)
    }

    /// The view of the bits at a range of indices, for reading. Requires that the range lies in the length.
    ///
    /// ```text
    /// of 01101001: bits.get_range(1..5) shows 1101
    /// ```
    final fn get_range<R: RangeExt>(&self, range: R) -> BitSlice<'_, Self::Store, Self::Order>
        requires lies { LiesIn (R.start_of range) (R.end_of range (len self.now)) (len self.now) }
        ensures list { list_of result
            ≡ slice_range (list self.now) (R.start_of range) (R.end_of range (len self.now)) }
        ensures head { head_of result ≡ (head self.now + R.start_of range) % Self.Store.BITS }
        ensures len { len_of result ≡ R.end_of range (len self.now) - R.start_of range }
        ensures place { IsPlaced (words self.now) (head self.now) (R.start_of range) result }
    {
        self.as_bitslice().get_range(range)
    }

    /// The first bit. None exactly where the list is empty.
    ///
    /// ```text
    /// of 01101001: bits.first() == Some(false)
    /// ```
    final fn first(&self) -> Option<bool>
        ensures { result ≡ slice_get (list self.now) 0 }
    {
        self.as_bitslice().first()
    }

    /// The last bit. None exactly where the list is empty.
    ///
    /// ```text
    /// of 01101001: bits.last() == Some(true)
    /// ```
    final fn last(&self) -> Option<bool>
        ensures { result ≡ slice_get (list self.now) (len self.now - 1) }
    {
        self.as_bitslice().last()
    }

    /// The number of true bits.
    ///
    /// ```text
    /// of 01101001: bits.count_ones() == 4
    /// ```
    final fn count_ones(&self) -> usize
        ensures value { result ≡ count_by (λ bit. bit) (list self.now) }
        ensures few { result ≤ len self.now }
    {
        self.as_bitslice().count_ones()
    }

    /// The number of false bits.
    ///
    /// ```text
    /// of 01101001: bits.count_zeros() == 4
    /// ```
    final fn count_zeros(&self) -> usize
        ensures value { result ≡ count_by not (list self.now) }
        ensures with_ones { result + count_by (λ bit. bit) (list self.now) ≡ len self.now }
        ensures few { result ≤ len self.now }
    {
        let view = self.as_bitslice();
        view.len - view.count_ones()
    }

    /// Whether some bit is true. Of an empty list it is false.
    ///
    /// ```text
    /// of 01101001: bits.any() == true
    /// ```
    final fn any(&self) -> bool
        ensures value { result ≡ list_any (λ bit. bit) (list self.now) }
        ensures index { IsTrue result ↔ SomeIndex (list self.now) (λ i. slice_get (list self.now) i ≡ Some true) }
    {
        let view = self.as_bitslice();
        find_bit::<Self::Store, Self::Order>(
            view.words,
            view.head,
            view.head + view.len,
            true,
        ).is_some()
    }

    /// Whether every bit is true. Of an empty list it is true.
    ///
    /// ```text
    /// of 01101001: bits.all() == false
    /// ```
    final fn all(&self) -> bool
        ensures value { result ≡ list_all (λ bit. bit) (list self.now) }
        ensures index { IsTrue result ↔ EachIndex (list self.now) (λ i. slice_get (list self.now) i ≡ Some true) }
    {
        let view = self.as_bitslice();
        find_bit::<Self::Store, Self::Order>(
            view.words,
            view.head,
            view.head + view.len,
            false,
        ).is_none()
    }

    /// The number of bits at a range of indices that are true. Requires that the range lies in the length.
    ///
    /// ```text
    /// of 01101001: bits.count_ones_in(1..5) == 3
    /// ```
    final fn count_ones_in<R: RangeExt>(&self, range: R) -> usize
        requires lies { LiesIn (R.start_of range) (R.end_of range (len self.now)) (len self.now) }
        ensures value { result
            ≡ count_by (λ bit. bit) (slice_range (list self.now) (R.start_of range) (R.end_of range (len self.now))) }
        ensures few { result ≤ R.end_of range (len self.now) - R.start_of range }
    {
        self.as_bitslice().get_range(range).count_ones()
    }

    /// Whether some bit at a range of indices is true. Of an empty range it is false. Requires that the range lies in
    /// the length.
    ///
    /// ```text
    /// of 01101001: bits.any_in(5..7) == false
    /// ```
    final fn any_in<R: RangeExt>(&self, range: R) -> bool
        requires lies { LiesIn (R.start_of range) (R.end_of range (len self.now)) (len self.now) }
        ensures value { result
            ≡ list_any (λ bit. bit) (slice_range (list self.now) (R.start_of range) (R.end_of range (len self.now))) }
        ensures index { IsTrue result ↔ SomeIndex (slice_range (list self.now) (R.start_of range) (R.end_of range (len self.now)))
            (λ i. slice_get (slice_range (list self.now) (R.start_of range) (R.end_of range (len self.now))) i
            ≡ Some true) }
    {
        self.as_bitslice().get_range(range).any()
    }

    /// Whether every bit at a range of indices is true. Of an empty range it is true. Requires that the range lies in
    /// the length.
    ///
    /// ```text
    /// of 01101001: bits.all_in(1..3) == true
    /// ```
    final fn all_in<R: RangeExt>(&self, range: R) -> bool
        requires lies { LiesIn (R.start_of range) (R.end_of range (len self.now)) (len self.now) }
        ensures value { result
            ≡ list_all (λ bit. bit) (slice_range (list self.now) (R.start_of range) (R.end_of range (len self.now))) }
        ensures index { IsTrue result ↔ EachIndex (slice_range (list self.now) (R.start_of range) (R.end_of range (len self.now)))
            (λ i. slice_get (slice_range (list self.now) (R.start_of range) (R.end_of range (len self.now))) i
            ≡ Some true) }
    {
        self.as_bitslice().get_range(range).all()
    }

    /// Whether the list and that of `other`, of any word type and order, are equal. Heads and dead bits don't
    /// count.
    ///
    /// ```text
    /// of 01101001 and 01101001: bits.eq_bits(other) == true
    /// ```
    final fn eq_bits<U: BitStore, P: BitOrder>(&self, other: BitSlice<'_, U, P>) -> bool
        ensures { IsTrue result ↔ (list self.now ≡ list_of other.entry) }
    {
        equal_views(self.as_bitslice(), other)
    }

    /// How the list and that of `other` are ordered: the first bits that differ decide, false before true, and where
    /// none do the shorter list comes first.
    ///
    /// ```text
    /// of 01101001 and 0111: bits.cmp_bits(other) == Ordering::Less
    /// ```
    final fn cmp_bits<U: BitStore, P: BitOrder>(&self, other: BitSlice<'_, U, P>) -> Ordering
        ensures { result ≡ bits_cmp (list self.now) (list_of other.entry) }
    {
        let view = self.as_bitslice();
        let both = view.len().min(other.len());
        match first_difference(view, other, both) {
            None => view.len().cmp(&other.len()),
            Some(k) => if view.bit(k) {
                Ordering::Greater
            } else {
                Ordering::Less
            },
        }
    }

    /// Whether each index that is true is true in `other`. An index past the end of `other` counts as false
    /// there.
    ///
    /// ```text
    /// of 01101001 and 01101111: bits.is_subset(other) == true
    /// ```
    final fn is_subset<U: BitStore, P: BitOrder>(&self, other: BitSlice<'_, U, P>) -> bool
        ensures value { result ≡ not (list_any (λ b. b) (and_not_of (list self.now) (list_of other.entry))) }
        ensures index { IsTrue result
            ↔ ((j : ℕ) → slice_get (list self.now) j ≡ Some true
            → slice_get (list_of other.entry) j ≡ Some true) }
        ensures and { IsTrue result ↔ (and_of (list self.now) (list_of other.entry) ≡ (list self.now)) }
    {
        !self.as_bitslice().exceeds(other)
    }

    /// Whether each index that is true in `other` is true.
    ///
    /// ```text
    /// of 01101001 and 01000001: bits.is_superset(other) == true
    /// ```
    final fn is_superset<U: BitStore, P: BitOrder>(&self, other: BitSlice<'_, U, P>) -> bool
        ensures value { result ≡ not (list_any (λ b. b) (and_not_of (list_of other.entry) (list self.now))) }
        ensures index { IsTrue result
            ↔ ((j : ℕ) → slice_get (list_of other.entry) j ≡ Some true
            → slice_get (list self.now) j ≡ Some true) }
        ensures and { IsTrue result ↔ (and_of (list_of other.entry) (list self.now) ≡ list_of other.entry) }
    {
        !other.exceeds(self.as_bitslice())
    }

    /// Whether no index is true both here and in `other`.
    ///
    /// ```text
    /// of 01101001 and 10010110: bits.is_disjoint(other) == true
    /// ```
    final fn is_disjoint<U: BitStore, P: BitOrder>(&self, other: BitSlice<'_, U, P>) -> bool
        ensures value { result ≡ not (list_any (λ b. b) (and_of (list self.now) (list_of other.entry))) }
        ensures index { IsTrue result
            ↔ ((j : ℕ) → slice_get (list self.now) j ≡ Some true
            → slice_get (list_of other.entry) j ≢ Some true) }
    {
        !self.intersects(other)
    }

    /// Whether an index is true both here and in `other`.
    ///
    /// ```text
    /// of 01101001 and 11110000: bits.intersects(other) == true
    /// ```
    final fn intersects<U: BitStore, P: BitOrder>(&self, other: BitSlice<'_, U, P>) -> bool
        ensures value { result ≡ list_any (λ b. b) (and_of (list self.now) (list_of other.entry)) }
        ensures index { IsTrue result
            ↔ SomeIndex (list self.now) (λ j. (slice_get (list self.now) j ≡ Some true)
            × (slice_get (list_of other.entry) j ≡ Some true)) }
    {
        let view = self.as_bitslice();
        any_pair::<And, Self::Store, Self::Order, U, P>(view, other, view.len.min(other.len))
    }

    /// The number of indices that are true both here and in `other`.
    ///
    /// ```text
    /// of 01101001 and 11110000: bits.count_and(other) == 2
    /// ```
    final fn count_and<U: BitStore, P: BitOrder>(&self, other: BitSlice<'_, U, P>) -> usize
        ensures value { result ≡ count_by (λ b. b) (and_of (list self.now) (list_of other.entry)) }
        ensures few { result ≤ len self.now }
    {
        let view = self.as_bitslice();
        count_pairs::<And, Self::Store, Self::Order, U, P>(view, other, view.len.min(other.len))
    }

    /// The number of indices that are true here or in `other`. The shorter list counts as filled up with false.
    ///
    /// ```text
    /// of 01101001 and 11110000: bits.count_or(other) == 6
    /// ```
    final fn count_or<U: BitStore, P: BitOrder>(&self, other: BitSlice<'_, U, P>) -> usize
        ensures value { result
            ≡ count_by (λ b. b) (or_of (list self.now) (list_of other.entry))
            + count_by (λ b. b) (drop (len self.now) (list_of other.entry)) }
        ensures with_and { result + count_by (λ b. b) (and_of (list self.now) (list_of other.entry))
            ≡ count_by (λ b. b) (list self.now) + count_by (λ b. b) (list_of other.entry) }
    {
        let view = self.as_bitslice();
        let both = view.len.min(other.len);
        let shared = count_pairs::<Or, Self::Store, Self::Order, U, P>(view, other, both);
        shared + view.ones_from(both) + other.ones_from(both)
    }

    /// The number of indices that differ from those of `other`. The shorter list counts as filled up with false.
    ///
    /// ```text
    /// of 01101001 and 11110000: bits.count_xor(other) == 4
    /// ```
    final fn count_xor<U: BitStore, P: BitOrder>(&self, other: BitSlice<'_, U, P>) -> usize
        ensures value { result
            ≡ count_by (λ b. b) (xor_of (list self.now) (list_of other.entry))
            + count_by (λ b. b) (drop (len self.now) (list_of other.entry)) }
        ensures with_and { result + 2 * count_by (λ b. b) (and_of (list self.now) (list_of other.entry))
            ≡ count_by (λ b. b) (list self.now) + count_by (λ b. b) (list_of other.entry) }
    {
        let view = self.as_bitslice();
        let both = view.len.min(other.len);
        let shared = count_pairs::<Xor, Self::Store, Self::Order, U, P>(view, other, both);
        shared + view.ones_from(both) + other.ones_from(both)
    }

    /// The number of indices that are true here, and false in `other` or past its end.
    ///
    /// ```text
    /// of 01101001 and 11110000: bits.count_and_not(other) == 2
    /// ```
    final fn count_and_not<U: BitStore, P: BitOrder>(&self, other: BitSlice<'_, U, P>) -> usize
        ensures value { result ≡ count_by (λ b. b) (and_not_of (list self.now) (list_of other.entry)) }
        ensures few { result ≤ len self.now }
    {
        let view = self.as_bitslice();
        let both = view.len.min(other.len);
        let shared = count_pairs::<AndNot, Self::Store, Self::Order, U, P>(view, other, both);
        shared + view.ones_from(both)
    }

    /// The index of the first bit that is true. None exactly where none is.
    ///
    /// ```text
    /// of 01101001: bits.first_one() == Some(1)
    /// ```
    final fn first_one(&self) -> Option<usize>
        ensures value { result ≡ position (λ b. b) (list self.now) }
        ensures inside { IfSome result (λ i. i < len self.now) }
        ensures few { IfSome result (λ i. i < MAX_BITS) }
        ensures found { IfSome result (λ i. slice_get (list self.now) i ≡ Some true) }
        ensures before { IfSome result (λ i. (j : ℕ) → j < i → slice_get (list self.now) j ≡ Some false) }
        ensures none { IfNone result (EachIndex (list self.now) (λ j. slice_get (list self.now) j ≡ Some false)) }
    {
        let view = self.as_bitslice();
        view.find_next(0, view.len, true)
    }

    /// The index of the first bit that is false. None exactly where none is.
    ///
    /// ```text
    /// of 01101001: bits.first_zero() == Some(0)
    /// ```
    final fn first_zero(&self) -> Option<usize>
        ensures value { result ≡ position not (list self.now) }
        ensures inside { IfSome result (λ i. i < len self.now) }
        ensures few { IfSome result (λ i. i < MAX_BITS) }
        ensures found { IfSome result (λ i. slice_get (list self.now) i ≡ Some false) }
        ensures before { IfSome result (λ i. (j : ℕ) → j < i → slice_get (list self.now) j ≡ Some true) }
        ensures none { IfNone result (EachIndex (list self.now) (λ j. slice_get (list self.now) j ≡ Some true)) }
    {
        let view = self.as_bitslice();
        view.find_next(0, view.len, false)
    }

    /// The index of the last bit that is true. None exactly where none is.
    ///
    /// ```text
    /// of 01101001: bits.last_one() == Some(7)
    /// ```
    final fn last_one(&self) -> Option<usize>
        ensures inside { IfSome result (λ i. i < len self.now) }
        ensures few { IfSome result (λ i. i < MAX_BITS) }
        ensures found { IfSome result (λ i. slice_get (list self.now) i ≡ Some true) }
        ensures after { IfSome result
            (λ i. (j : ℕ) → i < j → j < len self.now → slice_get (list self.now) j ≡ Some false) }
        ensures none { IfNone result (EachIndex (list self.now) (λ j. slice_get (list self.now) j ≡ Some false)) }
    {
        let view = self.as_bitslice();
        view.find_last(0, view.len, true)
    }

    /// The index of the last bit that is false. None exactly where none is.
    ///
    /// ```text
    /// of 01101001: bits.last_zero() == Some(6)
    /// ```
    final fn last_zero(&self) -> Option<usize>
        ensures inside { IfSome result (λ i. i < len self.now) }
        ensures few { IfSome result (λ i. i < MAX_BITS) }
        ensures found { IfSome result (λ i. slice_get (list self.now) i ≡ Some false) }
        ensures after { IfSome result
            (λ i. (j : ℕ) → i < j → j < len self.now → slice_get (list self.now) j ≡ Some true) }
        ensures none { IfNone result (EachIndex (list self.now) (λ j. slice_get (list self.now) j ≡ Some true)) }
    {
        let view = self.as_bitslice();
        view.find_last(0, view.len, false)
    }

    /// The index of the first bit from index `from` on that is true. None exactly where none is, as where
    /// `from` is the length or more.
    ///
    /// ```text
    /// of 01101001: bits.next_one(3) == Some(4)
    /// ```
    final fn next_one(&self, from: usize) -> Option<usize>
        ensures begins { IfSome result (λ i. from ≤ i) }
        ensures inside { IfSome result (λ i. i < len self.now) }
        ensures few { IfSome result (λ i. i < MAX_BITS) }
        ensures found { IfSome result (λ i. slice_get (list self.now) i ≡ Some true) }
        ensures before { IfSome result (λ i. (j : ℕ) → from ≤ j → j < i → slice_get (list self.now) j ≡ Some false) }
        ensures none { IfNone result
            ((j : ℕ) → from ≤ j → j < len self.now → slice_get (list self.now) j ≡ Some false) }
    {
        let view = self.as_bitslice();
        view.find_next(from.min(view.len), view.len, true)
    }

    /// The index of the first bit from index `from` on that is false. None exactly where none is, as where
    /// `from` is the length or more.
    ///
    /// ```text
    /// of 01101001: bits.next_zero(1) == Some(3)
    /// ```
    final fn next_zero(&self, from: usize) -> Option<usize>
        ensures begins { IfSome result (λ i. from ≤ i) }
        ensures inside { IfSome result (λ i. i < len self.now) }
        ensures few { IfSome result (λ i. i < MAX_BITS) }
        ensures found { IfSome result (λ i. slice_get (list self.now) i ≡ Some false) }
        ensures before { IfSome result (λ i. (j : ℕ) → from ≤ j → j < i → slice_get (list self.now) j ≡ Some true) }
        ensures none { IfNone result
            ((j : ℕ) → from ≤ j → j < len self.now → slice_get (list self.now) j ≡ Some true) }
    {
        let view = self.as_bitslice();
        view.find_next(from.min(view.len), view.len, false)
    }

    /// The index of the first bit from index `from` on that is true here and in `other`. None exactly where none is, as
    /// where `from` is the length or more. 64 bits are combined at a time.
    ///
    /// ```text
    /// of 01101001 and 01010101: bits.next_and(other, 2) == Some(7)
    /// ```
    final fn next_and<U: BitStore, P: BitOrder>(
        &self,
        other: BitSlice<'_, U, P>,
        from: usize,
    ) -> Option<usize>
        ensures begins { IfSome result (λ i. from ≤ i) }
        ensures inside { IfSome result (λ i. i < len self.now) }
        ensures few { IfSome result (λ i. i < MAX_BITS) }
        ensures found { IfSome result (λ i. slice_get (and_of (list self.now) (list_of other.entry)) i ≡ Some true) }
        ensures before { IfSome result (λ i. (j : ℕ) → from ≤ j → j < i
            → slice_get (and_of (list self.now) (list_of other.entry)) j ≡ Some false) }
        ensures none { IfNone result ((j : ℕ) → from ≤ j → j < len self.now
            → slice_get (and_of (list self.now) (list_of other.entry)) j ≡ Some false) }
    {
        let view = self.as_bitslice();
        view.find_pair::<And, U, P>(other, from.min(view.len))
    }

    /// The index of the first bit from index `from` on that is true here, and false in `other` or past its end. None
    /// exactly where none is, as where `from` is the length or more. 64 bits are combined at a time.
    ///
    /// ```text
    /// of 01101001 and 01010101: bits.next_and_not(other, 3) == Some(4)
    /// ```
    final fn next_and_not<U: BitStore, P: BitOrder>(
        &self,
        other: BitSlice<'_, U, P>,
        from: usize,
    ) -> Option<usize>
        ensures begins { IfSome result (λ i. from ≤ i) }
        ensures inside { IfSome result (λ i. i < len self.now) }
        ensures few { IfSome result (λ i. i < MAX_BITS) }
        ensures found { IfSome result (λ i. slice_get (and_not_of (list self.now) (list_of other.entry)) i ≡ Some true) }
        ensures before { IfSome result (λ i. (j : ℕ) → from ≤ j → j < i
            → slice_get (and_not_of (list self.now) (list_of other.entry)) j ≡ Some false) }
        ensures none { IfNone result ((j : ℕ) → from ≤ j → j < len self.now
            → slice_get (and_not_of (list self.now) (list_of other.entry)) j ≡ Some false) }
    {
        let view = self.as_bitslice();
        view.find_pair::<AndNot, U, P>(other, from.min(view.len))
    }

    /// The index of the first bit of this list from index `from` on that is true here or in `other`. None exactly where
    /// none is, as where `from` is the length or more. 64 bits are combined at a time.
    ///
    /// ```text
    /// of 01101001 and 01010101: bits.next_or(other, 5) == Some(5)
    /// ```
    final fn next_or<U: BitStore, P: BitOrder>(
        &self,
        other: BitSlice<'_, U, P>,
        from: usize,
    ) -> Option<usize>
        ensures begins { IfSome result (λ i. from ≤ i) }
        ensures inside { IfSome result (λ i. i < len self.now) }
        ensures few { IfSome result (λ i. i < MAX_BITS) }
        ensures found { IfSome result (λ i. slice_get (or_of (list self.now) (list_of other.entry)) i ≡ Some true) }
        ensures before { IfSome result (λ i. (j : ℕ) → from ≤ j → j < i
            → slice_get (or_of (list self.now) (list_of other.entry)) j ≡ Some false) }
        ensures none { IfNone result ((j : ℕ) → from ≤ j → j < len self.now
            → slice_get (or_of (list self.now) (list_of other.entry)) j ≡ Some false) }
    {
        let view = self.as_bitslice();
        view.find_pair::<Or, U, P>(other, from.min(view.len))
    }

    /// The index of the first bit of this list from index `from` on that differs from that of `other`, or from false
    /// past its end. None exactly where none is, as where `from` is the length or more. 64 bits are combined at a time.
    ///
    /// ```text
    /// of 01101001 and 01010101: bits.next_xor(other, 5) == Some(5)
    /// ```
    final fn next_xor<U: BitStore, P: BitOrder>(
        &self,
        other: BitSlice<'_, U, P>,
        from: usize,
    ) -> Option<usize>
        ensures begins { IfSome result (λ i. from ≤ i) }
        ensures inside { IfSome result (λ i. i < len self.now) }
        ensures few { IfSome result (λ i. i < MAX_BITS) }
        ensures found { IfSome result (λ i. slice_get (xor_of (list self.now) (list_of other.entry)) i ≡ Some true) }
        ensures before { IfSome result (λ i. (j : ℕ) → from ≤ j → j < i
            → slice_get (xor_of (list self.now) (list_of other.entry)) j ≡ Some false) }
        ensures none { IfNone result ((j : ℕ) → from ≤ j → j < len self.now
            → slice_get (xor_of (list self.now) (list_of other.entry)) j ≡ Some false) }
    {
        let view = self.as_bitslice();
        view.find_pair::<Xor, U, P>(other, from.min(view.len))
    }

    /// The index of the last bit before index `before` that is true. None exactly where none is. Bits from the length
    /// on count as none.
    ///
    /// ```text
    /// of 01101001: bits.prev_one(4) == Some(2)
    /// ```
    final fn prev_one(&self, before: usize) -> Option<usize>
        ensures ends { IfSome result (λ i. i < before) }
        ensures inside { IfSome result (λ i. i < len self.now) }
        ensures few { IfSome result (λ i. i < MAX_BITS) }
        ensures found { IfSome result (λ i. slice_get (list self.now) i ≡ Some true) }
        ensures between { IfSome result
            (λ i. (j : ℕ) → i < j → j < before → j < len self.now → slice_get (list self.now) j ≡ Some false) }
        ensures none { IfNone result
            ((j : ℕ) → j < before → j < len self.now → slice_get (list self.now) j ≡ Some false) }
    {
        let view = self.as_bitslice();
        view.find_last(0, before.min(view.len), true)
    }

    /// The index of the last bit before index `before` that is false. None exactly where none is. Bits from the length
    /// on count as none.
    ///
    /// ```text
    /// of 01101001: bits.prev_zero(3) == Some(0)
    /// ```
    final fn prev_zero(&self, before: usize) -> Option<usize>
        ensures ends { IfSome result (λ i. i < before) }
        ensures inside { IfSome result (λ i. i < len self.now) }
        ensures few { IfSome result (λ i. i < MAX_BITS) }
        ensures found { IfSome result (λ i. slice_get (list self.now) i ≡ Some false) }
        ensures between { IfSome result
            (λ i. (j : ℕ) → i < j → j < before → j < len self.now → slice_get (list self.now) j ≡ Some true) }
        ensures none { IfNone result
            ((j : ℕ) → j < before → j < len self.now → slice_get (list self.now) j ≡ Some true) }
    {
        let view = self.as_bitslice();
        view.find_last(0, before.min(view.len), false)
    }

    /// The index of the `k`-th bit that is true, counted from 0. None exactly where at most `k` are. 64 bits are
    /// counted at a time.
    ///
    /// ```text
    /// of 01101001: bits.nth_one(2) == Some(4)
    /// ```
    final fn nth_one(&self, k: usize) -> Option<usize>
        ensures value { result ≡ slice_get (ones_of (list self.now)) k }
        ensures inside { IfSome result (λ i. i < len self.now) }
        ensures few { IfSome result (λ i. i < MAX_BITS) }
        ensures found { IfSome result (λ i. slice_get (list self.now) i ≡ Some true) }
        ensures before { IfSome result (λ i. ones_before (list self.now) i ≡ k) }
        ensures only { (i : ℕ) → slice_get (list self.now) i ≡ Some true → ones_before (list self.now) i ≡ k
            → result ≡ Some i }
        ensures none { IsNone result ↔ (count_by (λ bit. bit) (list self.now) ≤ k) }
    {
        nth_from::<Self::Store, Self::Order>(self.as_bitslice(), 0, k, true)
    }

    /// The index of the `k`-th bit that is false, counted from 0. None exactly where at most `k` are. 64 bits are
    /// counted at a time.
    ///
    /// ```text
    /// of 01101001: bits.nth_zero(1) == Some(3)
    /// ```
    final fn nth_zero(&self, k: usize) -> Option<usize>
        ensures value { result ≡ slice_get (zeros_of (list self.now)) k }
        ensures inside { IfSome result (λ i. i < len self.now) }
        ensures few { IfSome result (λ i. i < MAX_BITS) }
        ensures found { IfSome result (λ i. slice_get (list self.now) i ≡ Some false) }
        ensures before { IfSome result (λ i. zeros_before (list self.now) i ≡ k) }
        ensures only { (i : ℕ) → slice_get (list self.now) i ≡ Some false → zeros_before (list self.now) i ≡ k
            → result ≡ Some i }
        ensures none { IsNone result ↔ (count_by not (list self.now) ≤ k) }
    {
        nth_from::<Self::Store, Self::Order>(self.as_bitslice(), 0, k, false)
    }

    /// The number of bits at the front that are true, up to the first that is false.
    ///
    /// ```text
    /// of 01101001: bits.leading_ones() == 0
    /// ```
    final fn leading_ones(&self) -> usize
        ensures value { result ≡ prefix_len (λ b. b) (list self.now) }
        ensures most { result ≤ len self.now }
        ensures each { (j : ℕ) → j < result → slice_get (list self.now) j ≡ Some true }
        ensures next { result < len self.now → slice_get (list self.now) result ≡ Some false }
    {
        let view = self.as_bitslice();
        match view.find_next(0, view.len, false) {
            None => view.len,
            Some(i) => i,
        }
    }

    /// The number of bits at the front that are false, up to the first that is true.
    ///
    /// ```text
    /// of 01101001: bits.leading_zeros() == 1
    /// ```
    final fn leading_zeros(&self) -> usize
        ensures value { result ≡ prefix_len not (list self.now) }
        ensures most { result ≤ len self.now }
        ensures each { (j : ℕ) → j < result → slice_get (list self.now) j ≡ Some false }
        ensures next { result < len self.now → slice_get (list self.now) result ≡ Some true }
    {
        let view = self.as_bitslice();
        match view.find_next(0, view.len, true) {
            None => view.len,
            Some(i) => i,
        }
    }

    /// The number of bits at the end that are true, after the last that is false.
    ///
    /// ```text
    /// of 01101001: bits.trailing_ones() == 1
    /// ```
    final fn trailing_ones(&self) -> usize
        ensures value { result ≡ suffix_len (λ b. b) (list self.now) }
        ensures most { result ≤ len self.now }
        ensures each { (j : ℕ) → j < result → slice_get (list self.now) (len self.now - 1 - j) ≡ Some true }
        ensures next { result < len self.now
            → slice_get (list self.now) (len self.now - 1 - result) ≡ Some false }
    {
        let view = self.as_bitslice();
        match view.find_last(0, view.len, false) {
            None => view.len,
            Some(i) => view.len - 1 - i,
        }
    }

    /// The number of bits at the end that are false, after the last that is true.
    ///
    /// ```text
    /// of 01101001: bits.trailing_zeros() == 0
    /// ```
    final fn trailing_zeros(&self) -> usize
        ensures value { result ≡ suffix_len not (list self.now) }
        ensures most { result ≤ len self.now }
        ensures each { (j : ℕ) → j < result → slice_get (list self.now) (len self.now - 1 - j) ≡ Some false }
        ensures next { result < len self.now
            → slice_get (list self.now) (len self.now - 1 - result) ≡ Some true }
    {
        let view = self.as_bitslice();
        match view.find_last(0, view.len, true) {
            None => view.len,
            Some(i) => view.len - 1 - i,
        }
    }

    /// Whether no bit is true. Of an empty list it is true.
    ///
    /// ```text
    /// of 01101001: bits.not_any() == false
    /// ```
    final fn not_any(&self) -> bool
        ensures value { result ≡ not (list_any (λ b. b) (list self.now)) }
        ensures index { IsTrue result ↔ EachIndex (list self.now) (λ i. slice_get (list self.now) i ≡ Some false) }
    {
        !self.any()
    }

    /// Whether some bit is false. Of an empty list it is false.
    ///
    /// ```text
    /// of 01101001: bits.not_all() == true
    /// ```
    final fn not_all(&self) -> bool
        ensures value { result ≡ not (list_all (λ b. b) (list self.now)) }
        ensures index { IsTrue result ↔ SomeIndex (list self.now) (λ i. slice_get (list self.now) i ≡ Some false) }
    {
        !self.all()
    }

    /// Whether some bit is true and some bit is false.
    ///
    /// ```text
    /// of 01101001: bits.some() == true
    /// ```
    final fn some(&self) -> bool
        ensures value { result ≡ (list_any (λ b. b) (list self.now) && not (list_all (λ b. b) (list self.now))) }
        ensures one { IsTrue result → SomeIndex (list self.now) (λ i. slice_get (list self.now) i ≡ Some true) }
        ensures zero { IsTrue result → SomeIndex (list self.now) (λ i. slice_get (list self.now) i ≡ Some false) }
    {
        self.any() && self.not_all()
    }

    /// The indices of the bits that are true, ascending, from both ends. Bits are read 64 at a time.
    ///
    /// ```text
    /// of 01101001: bits.iter_ones() gives 1, 2, 4, 7
    /// ```
    final fn iter_ones(&self) -> IterOnes<'_, Self::Store, Self::Order>
        ensures list { ones_left result ≡ ones_of (list self.now) }
        ensures count { length (ones_left result) ≡ count_by (λ b. b) (list self.now) }
        ensures few { length (ones_left result) ≤ MAX_BITS }
        ensures set { All (λ i. slice_get (list self.now) i ≡ Some true) (ones_left result) }
        ensures inside { All (λ i. i < len self.now) (ones_left result) }
        ensures runs { YieldsInOrder
            (YieldsFirst (ones_left {X = Self.Store} {Y = Self.Order} {W = Self.Store.BitStore} {P = Self.Order.BitOrder})) ones_left }
        ensures runs_back { YieldsInReverse
            (YieldsLast (ones_left {X = Self.Store} {Y = Self.Order} {W = Self.Store.BitStore} {P = Self.Order.BitOrder})) ones_left }
    {
        self.as_bitslice().iter_ones()
    }

    /// The indices of the bits that are false, ascending, from both ends. Each step is a search.
    ///
    /// ```text
    /// of 01101001: bits.iter_zeros() gives 0, 3, 5, 6
    /// ```
    final fn iter_zeros(&self) -> IterZeros<'_, Self::Store, Self::Order>
        ensures list { zeros_left result ≡ zeros_of (list self.now) }
        ensures count { length (zeros_left result) ≡ count_by not (list self.now) }
        ensures few { length (zeros_left result) ≤ MAX_BITS }
        ensures set { All (λ i. slice_get (list self.now) i ≡ Some false) (zeros_left result) }
        ensures inside { All (λ i. i < len self.now) (zeros_left result) }
        ensures runs { YieldsInOrder
            (YieldsFirst (zeros_left {X = Self.Store} {Y = Self.Order} {W = Self.Store.BitStore} {P = Self.Order.BitOrder})) zeros_left }
        ensures runs_back { YieldsInReverse
            (YieldsLast (zeros_left {X = Self.Store} {Y = Self.Order} {W = Self.Store.BitStore} {P = Self.Order.BitOrder})) zeros_left }
    {
        self.as_bitslice().iter_zeros()
    }

    /// The runs of equal bits, in order: where each begins and ends, and what its bits are. 64 bits are read at a
    /// time.
    ///
    /// ```text
    /// of 01101001: bits.iter_runs().nth(1) == Some(BitRun { start: 1, end: 3, bit: true })
    /// ```
    final fn iter_runs(&self) -> IterRuns<'_, Self::Store, Self::Order>
        ensures list { runs_left result ≡ runs_of (list self.now) }
        ensures most { length (runs_left result) ≤ len self.now }
        ensures few { length (runs_left result) ≤ MAX_BITS }
        ensures runs { YieldsInOrder
            (YieldsFirst (runs_left {X = Self.Store} {Y = Self.Order} {W = Self.Store.BitStore} {P = Self.Order.BitOrder})) runs_left }
    {
        self.as_bitslice().iter_runs()
    }

    /// The ranges of the indices whose bits are `bit`, ascending, each a whole run. 64 bits are read at a time.
    ///
    /// ```text
    /// of 01101001: bits.iter_ranges(true) gives 1..3, 4..5, 7..8
    /// ```
    final fn iter_ranges(&self, bit: bool) -> IterRanges<'_, Self::Store, Self::Order>
        ensures list { ranges_left result ≡ ranges_of bit (list self.now) }
        ensures runs { YieldsInOrder
            (YieldsFirst (ranges_left {X = Self.Store} {Y = Self.Order} {W = Self.Store.BitStore} {P = Self.Order.BitOrder})) ranges_left }
    {
        self.as_bitslice().iter_ranges(bit)
    }

    /// What is written as the ranges of the indices whose bits are `bit`, ascending, with `,` between two: the first
    /// index, and after `-` the last, where it is another.
    ///
    /// ```text
    /// of 01101001: format!(in alloc; "{}", bits.ranges_text(true))?.as_str() == "1-2,4,7"
    /// ```
    final fn ranges_text(&self, bit: bool) -> RangesText<'_, Self::Store, Self::Order>
        ensures { shown_ranges result ≡ ranges_text bit (list self.now) }
    {
        self.as_bitslice().ranges_text(bit)
    }

    /// The first index from `from` on at which `n` bits side by side are `bit`. None exactly where they are so
    /// nowhere.
    ///
    /// ```text
    /// of 01101001: bits.next_run(2, false, 1) == Some(5)
    /// ```
    final fn next_run(&self, n: usize, bit: bool, from: usize) -> Option<usize>
        ensures begins { IfSome result (λ i. from ≤ i) }
        ensures inside { IfSome result (λ i. i + n ≤ len self.now) }
        ensures few { IfSome result (λ i. i + n ≤ MAX_BITS) }
        ensures found { IfSome result (λ i. part n (list self.now) i ≡ replicate n bit) }
        ensures each { IfSome result (λ i. (j : ℕ) → i ≤ j → j < i + n → slice_get (list self.now) j ≡ Some bit) }
        ensures before { IfSome result
            (λ i. (j : ℕ) → from ≤ j → j < i → part n (list self.now) j ≢ replicate n bit) }
        ensures none { IfNone result ((j : ℕ) → from ≤ j → j + n ≤ len self.now
            → part n (list self.now) j ≢ replicate n bit) }
    {
        self.as_bitslice().find_run(n, bit, from)
    }

    /// Like `next_run`, but the index is a multiple of `align`. Requires that `align` is at least 1.
    ///
    /// ```text
    /// of 10000001: bits.next_aligned_run(2, 4, false, 1) == Some(4)
    /// ```
    final fn next_aligned_run(
        &self,
        n: usize,
        align: usize,
        bit: bool,
        from: usize,
    ) -> Option<usize>
        requires { 0 < align }
        ensures begins { IfSome result (λ i. from ≤ i) }
        ensures aligned { IfSome result (λ i. i % align ≡ 0) }
        ensures inside { IfSome result (λ i. i + n ≤ len self.now) }
        ensures few { IfSome result (λ i. i + n ≤ MAX_BITS) }
        ensures found { IfSome result (λ i. part n (list self.now) i ≡ replicate n bit) }
        ensures each { IfSome result (λ i. (j : ℕ) → i ≤ j → j < i + n → slice_get (list self.now) j ≡ Some bit) }
        ensures before { IfSome result (λ i. (j : ℕ) → from ≤ j → j < i → j % align ≡ 0
            → part n (list self.now) j ≢ replicate n bit) }
        ensures none { IfNone result ((j : ℕ) → from ≤ j → j + n ≤ len self.now → j % align ≡ 0
            → part n (list self.now) j ≢ replicate n bit) }
    {
        self.as_bitslice().find_aligned_run(n, align, bit, from)
    }

    /// The first index at which the bits of `other`, of any word type and order, begin in the list. None
    /// exactly where they begin nowhere. The first 64 bits of `other` are tried at 64 indices at once.
    ///
    /// ```text
    /// of 01101001 and 001: bits.find(other) == Some(5)
    /// ```
    final fn find<U: BitStore, P: BitOrder>(&self, other: BitSlice<'_, U, P>) -> Option<usize>
        ensures inside { IfSome result (λ i. i + len_of other.entry ≤ len self.now) }
        ensures few { IfSome result (λ i. i + len_of other.entry ≤ MAX_BITS) }
        ensures found { IfSome result (λ i. part (len_of other.entry) (list self.now) i ≡ list_of other.entry) }
        ensures before { IfSome result
            (λ i. (j : ℕ) → j < i → part (len_of other.entry) (list self.now) j ≢ list_of other.entry) }
        ensures none { IfNone result ((j : ℕ) → j + len_of other.entry ≤ len self.now
            → part (len_of other.entry) (list self.now) j ≢ list_of other.entry) }
    {
        self.as_bitslice().find_part(other)
    }

    /// Like `find`, but the first index from `from` on.
    ///
    /// ```text
    /// of 01101001 and 01: bits.find_from(1, other) == Some(3)
    /// ```
    final fn find_from<U: BitStore, P: BitOrder>(
        &self,
        from: usize,
        other: BitSlice<'_, U, P>,
    ) -> Option<usize>
        ensures begins { IfSome result (λ i. from ≤ i) }
        ensures inside { IfSome result (λ i. i + len_of other.entry ≤ len self.now) }
        ensures few { IfSome result (λ i. i + len_of other.entry ≤ MAX_BITS) }
        ensures found { IfSome result (λ i. part (len_of other.entry) (list self.now) i ≡ list_of other.entry) }
        ensures before { IfSome result
            (λ i. (j : ℕ) → from ≤ j → j < i → part (len_of other.entry) (list self.now) j ≢ list_of other.entry) }
        ensures none { IfNone result ((j : ℕ) → from ≤ j → j + len_of other.entry ≤ len self.now
            → part (len_of other.entry) (list self.now) j ≢ list_of other.entry) }
    {
        let view = self.as_bitslice();
        if from > view.len {
            return None;
        }
        match view.get_range(from..view.len).find_part(other) {
            None => None,
            Some(i) => Some(from + i),
        }
    }

    /// Like `find`, but the last index. The search begins at the end.
    ///
    /// ```text
    /// of 01101001 and 01: bits.rfind(other) == Some(6)
    /// ```
    final fn rfind<U: BitStore, P: BitOrder>(&self, other: BitSlice<'_, U, P>) -> Option<usize>
        ensures inside { IfSome result (λ i. i + len_of other.entry ≤ len self.now) }
        ensures few { IfSome result (λ i. i + len_of other.entry ≤ MAX_BITS) }
        ensures found { IfSome result (λ i. part (len_of other.entry) (list self.now) i ≡ list_of other.entry) }
        ensures after { IfSome result (λ i. (j : ℕ) → i < j → j + len_of other.entry ≤ len self.now
            → part (len_of other.entry) (list self.now) j ≢ list_of other.entry) }
        ensures none { IfNone result ((j : ℕ) → j + len_of other.entry ≤ len self.now
            → part (len_of other.entry) (list self.now) j ≢ list_of other.entry) }
    {
        self.as_bitslice().find_last_part(other)
    }

    /// The indices at which the bits of `other` begin, ascending. They may lie closer than the length of `other`.
    ///
    /// ```text
    /// of 01110100 and 11: bits.find_all(other) gives 1, 2
    /// ```
    final fn find_all<'b, U: BitStore, P: BitOrder>(
        &'b self,
        other: BitSlice<'b, U, P>,
    ) -> FindAll<'b, Self::Store, Self::Order, U, P>
        ensures list { places_left result ≡ places_of_pattern (list_of other.entry) (list self.now) }
        ensures runs { YieldsInOrder
            (YieldsFirst (places_left {X = Self.Store} {Y = Self.Order} {Z = U} {V = P} {W = Self.Store.BitStore} {P = Self.Order.BitOrder} {U = U.BitStore} {Q = P.BitOrder})) places_left }
    {
        self.as_bitslice().find_all(other)
    }

    /// Whether the bits of `other` begin somewhere in the list.
    ///
    /// ```text
    /// of 01101001 and 001: bits.contains(other) == true
    /// ```
    final fn contains<U: BitStore, P: BitOrder>(&self, other: BitSlice<'_, U, P>) -> bool
        ensures found { IsTrue result → ((i : ℕ) × (part (len_of other.entry) (list self.now) i ≡ list_of other.entry)) }
        ensures none { (j : ℕ) → j + len_of other.entry ≤ len self.now
            → part (len_of other.entry) (list self.now) j ≡ list_of other.entry → IsTrue result }
    {
        self.find(other).is_some()
    }

    /// The views of the bits before index `mid`, and of those from it on. Requires that `mid` is at most the
    /// length.
    ///
    /// ```text
    /// of 01101001: bits.split_at(3).1 shows 01001
    /// ```
    final fn split_at(
        &self,
        mid: usize,
    ) -> (
        BitSlice<'_, Self::Store, Self::Order>,
        BitSlice<'_, Self::Store, Self::Order>,
    )
        requires { mid ≤ len self.now }
        ensures front { list_of result.0 ≡ take mid (list self.now) }
        ensures back { list_of result.1 ≡ drop mid (list self.now) }
        ensures both { list self.now ≡ list_of result.0 ++ list_of result.1 }
        ensures front_len { len_of result.0 ≡ mid }
        ensures back_len { len_of result.1 + mid ≡ len self.now }
        ensures front_place { IsPlaced (words self.now) (head self.now) 0 result.0 }
        ensures back_place { IsPlaced (words self.now) (head self.now) mid result.1 }
    {
        self.as_bitslice().split_at(mid)
    }

    /// The first bit, and a view of the others. None exactly where the list is empty.
    ///
    /// ```text
    /// of 01101001: bits.split_first().is_some() == true
    /// ```
    final fn split_first(&self) -> Option<(bool, BitSlice<'_, Self::Store, Self::Order>)>
        ensures none { IsNone result ↔ (len self.now ≡ 0) }
        ensures both { IfSome result (λ r. list self.now ≡ r.0 ∷ list_of r.1) }
        ensures rest_len { IfSome result (λ r. len_of r.1 + 1 ≡ len self.now) }
        ensures rest_place { IfSome result (λ r. IsPlaced (words self.now) (head self.now) 1 r.1) }
    {
        self.as_bitslice().split_first()
    }

    /// The last bit, and a view of the others. None exactly where the list is empty.
    ///
    /// ```text
    /// of 01101001: bits.split_last().is_some() == true
    /// ```
    final fn split_last(&self) -> Option<(bool, BitSlice<'_, Self::Store, Self::Order>)>
        ensures none { IsNone result ↔ (len self.now ≡ 0) }
        ensures both { IfSome result (λ r. list self.now ≡ list_of r.1 ++ r.0 ∷ []) }
        ensures rest_len { IfSome result (λ r. len_of r.1 + 1 ≡ len self.now) }
        ensures rest_place { IfSome result (λ r. IsPlaced (words self.now) (head self.now) 0 r.1) }
    {
        self.as_bitslice().split_last()
    }

    /// Whether the list begins with the bits of `other`.
    ///
    /// ```text
    /// of 01101001 and 0110: bits.starts_with(other) == true
    /// ```
    final fn starts_with<U: BitStore, P: BitOrder>(&self, other: BitSlice<'_, U, P>) -> bool
        ensures { IsTrue result ↔ (take (len_of other.entry) (list self.now) ≡ list_of other.entry) }
    {
        let view = self.as_bitslice();
        other.len() <= view.len && equal_views(view.get_range(0..other.len()), other)
    }

    /// Whether the list ends with the bits of `other`.
    ///
    /// ```text
    /// of 01101001 and 001: bits.ends_with(other) == true
    /// ```
    final fn ends_with<U: BitStore, P: BitOrder>(&self, other: BitSlice<'_, U, P>) -> bool
        ensures { IsTrue result
            ↔ (drop (len self.now - len_of other.entry) (list self.now) ≡ list_of other.entry) }
    {
        let view = self.as_bitslice();
        other.len() <= view.len
            && equal_views(view.get_range(view.len - other.len()..view.len), other)
    }

    /// The view of what follows the bits of `other`. None exactly where the list does not begin with them.
    ///
    /// ```text
    /// of 01101001 and 011: bits.strip_prefix(other)? shows 01001
    /// ```
    final fn strip_prefix<U: BitStore, P: BitOrder>(
        &self,
        other: BitSlice<'_, U, P>,
    ) -> Option<BitSlice<'_, Self::Store, Self::Order>>
        ensures both { IfSome result (λ rest. list self.now ≡ list_of other.entry ++ list_of rest) }
        ensures none { IsNone result ↔ (take (len_of other.entry) (list self.now) ≢ list_of other.entry) }
        ensures rest_len { IfSome result (λ rest. len_of other.entry + len_of rest ≡ len self.now) }
        ensures rest_place { IfSome result
            (λ rest. IsPlaced (words self.now) (head self.now) (len_of other.entry) rest) }
    {
        if self.starts_with(other) {
            Some(self.get_range(other.len..self.len()))
        } else {
            None
        }
    }

    /// The view of what precedes the bits of `other`. None exactly where the list does not end with them.
    ///
    /// ```text
    /// of 01101001 and 001: bits.strip_suffix(other)? shows 01101
    /// ```
    final fn strip_suffix<U: BitStore, P: BitOrder>(
        &self,
        other: BitSlice<'_, U, P>,
    ) -> Option<BitSlice<'_, Self::Store, Self::Order>>
        ensures both { IfSome result (λ rest. list self.now ≡ list_of rest ++ list_of other.entry) }
        ensures none { IsNone result
            ↔ (drop (len self.now - len_of other.entry) (list self.now) ≢ list_of other.entry) }
        ensures rest_len { IfSome result (λ rest. len_of rest + len_of other.entry ≡ len self.now) }
        ensures rest_place { IfSome result (λ rest. IsPlaced (words self.now) (head self.now) 0 rest) }
    {
        if self.ends_with(other) {
            Some(self.get_range(0..self.len() - other.len))
        } else {
            None
        }
    }

    /// The chunk of number `k`: the view that `chunks(size)` gives after `k` others. Requires that `size` is
    /// not 0, and that the chunk begins before the end.
    ///
    /// ```text
    /// of 01101001: bits.chunk(3, 1) shows 010
    /// ```
    final fn chunk(&self, size: usize, k: usize) -> BitSlice<'_, Self::Store, Self::Order>
        requires some { 0 < size }
        requires begins { k * size < len self.now }
        ensures list { list_of result ≡ part size (list self.now) (k * size) }
        ensures most { len_of result ≤ size }
        ensures inside { k * size + len_of result ≤ len self.now }
        ensures place { IsPlaced (words self.now) (head self.now) (k * size) result }
    {
        self.as_bitslice().chunk(size, k)
    }

    /// Views of the parts of `size` bits side by side, from the front and from the end. The last has the bits
    /// that are left, so it may be shorter. Requires that `size` is not 0.
    ///
    /// ```text
    /// of 01101001: bits.chunks(3).len() == 3
    /// ```
    final fn chunks(&self, size: usize) -> Chunks<'_, Self::Store, Self::Order>
        requires some { 0 < size }
        ensures list { chunks_left result ≡ chunks_of size (list self.now) }
        ensures count { length (chunks_left result) ≡ chunk_count (len self.now) size }
        ensures begins { BeginsIn (take (words_for Self.Store.BITS (head self.now + len self.now)) (words self.now))
            (head self.now) (len self.now) size (chunk_count (len self.now) size) (chunks_walk result) }
        ensures runs { EveryRun (YieldsFirstBy (list_of {X = Self.Store} {Y = Self.Order} {W = Self.Store.BitStore} {P = Self.Order.BitOrder})
            (chunks_left {X = Self.Store} {Y = Self.Order} {W = Self.Store.BitStore} {P = Self.Order.BitOrder}))
            (λ p. ItemsMapTo p list_of (chunks_left p.from)) }
        ensures runs_back { EveryRun (YieldsLastBy
            (list_of {X = Self.Store} {Y = Self.Order} {W = Self.Store.BitStore} {P = Self.Order.BitOrder})
            (chunks_left {X = Self.Store} {Y = Self.Order} {W = Self.Store.BitStore} {P = Self.Order.BitOrder}))
            (λ p. ItemsMapToReversed p list_of (chunks_left p.from)) }
    {
        self.as_bitslice().chunks(size)
    }

    /// Views of the parts of `size` bits side by side, from the front and from the end, as long as there are
    /// that many bits. The bits that are left are the iterator's `remainder`. Requires that `size` is not 0.
    ///
    /// ```text
    /// of 01101001: bits.chunks_exact(3).len() == 2
    /// ```
    final fn chunks_exact(&self, size: usize) -> ChunksExact<'_, Self::Store, Self::Order>
        requires some { 0 < size }
        ensures list { exact_chunks_left result ≡ exact_chunks_of size (list self.now) }
        ensures count { length (exact_chunks_left result) ≡ len self.now / size }
        ensures remainder { remainder_of result ≡ drop (len self.now / size * size) (list self.now) }
        ensures begins { BeginsIn (take (words_for Self.Store.BITS (head self.now + len self.now)) (words self.now))
            (head self.now) (len self.now) size (len self.now / size) (exact_chunks_walk result) }
        ensures runs { EveryRun (exact_first {X = Self.Store} {Y = Self.Order} {W = Self.Store.BitStore} {P = Self.Order.BitOrder})
            (λ p. ItemsMapTo p list_of (exact_chunks_left p.from)) }
        ensures runs_back { EveryRun (exact_last {X = Self.Store} {Y = Self.Order} {W = Self.Store.BitStore} {P = Self.Order.BitOrder})
            (λ p. ItemsMapToReversed p list_of (exact_chunks_left p.from)) }
    {
        self.as_bitslice().chunks_exact(size)
    }

    /// Views of the parts of `size` bits side by side, beginning at the end. The last, at the front, has the
    /// bits that are left, so it may be shorter. Requires that `size` is not 0.
    ///
    /// ```text
    /// of 01101001: bits.rchunks(3).len() == 3
    /// ```
    final fn rchunks(&self, size: usize) -> RChunks<'_, Self::Store, Self::Order>
        requires some { 0 < size }
        ensures list { back_chunks_left result ≡ back_chunks_of size (list self.now) }
        ensures count { length (back_chunks_left result) ≡ chunk_count (len self.now) size }
        ensures begins { BeginsIn (take (words_for Self.Store.BITS (head self.now + len self.now)) (words self.now))
            (head self.now) (len self.now) size (chunk_count (len self.now) size) (back_chunks_walk result) }
        ensures runs { EveryRun (YieldsFirstBy (list_of {X = Self.Store} {Y = Self.Order} {W = Self.Store.BitStore} {P = Self.Order.BitOrder})
            (back_chunks_left {X = Self.Store} {Y = Self.Order} {W = Self.Store.BitStore} {P = Self.Order.BitOrder}))
            (λ p. ItemsMapTo p list_of (back_chunks_left p.from)) }
        ensures runs_back { EveryRun (YieldsLastBy
            (list_of {X = Self.Store} {Y = Self.Order} {W = Self.Store.BitStore} {P = Self.Order.BitOrder})
            (back_chunks_left {X = Self.Store} {Y = Self.Order} {W = Self.Store.BitStore} {P = Self.Order.BitOrder}))
            (λ p. ItemsMapToReversed p list_of (back_chunks_left p.from)) }
    {
        self.as_bitslice().rchunks(size)
    }

    /// Views of each run of `size` bits, one for each index at which one begins. There are none where the
    /// list is shorter. Requires that `size` is not 0.
    ///
    /// ```text
    /// of 01101001: bits.windows(3).len() == 6
    /// ```
    final fn windows(&self, size: usize) -> Windows<'_, Self::Store, Self::Order>
        requires some { 0 < size }
        ensures list { windows_left result ≡ windows_of size (list self.now) }
        ensures count { length (windows_left result) ≡ len self.now + 1 - size }
        ensures begins { BeginsIn (take (words_for Self.Store.BITS (head self.now + len self.now)) (words self.now))
            (head self.now) (len self.now) size (len self.now + 1 - size) (windows_walk result) }
        ensures runs { EveryRun (YieldsFirstBy (list_of {X = Self.Store} {Y = Self.Order} {W = Self.Store.BitStore} {P = Self.Order.BitOrder})
            (windows_left {X = Self.Store} {Y = Self.Order} {W = Self.Store.BitStore} {P = Self.Order.BitOrder}))
            (λ p. ItemsMapTo p list_of (windows_left p.from)) }
        ensures runs_back { EveryRun (YieldsLastBy
            (list_of {X = Self.Store} {Y = Self.Order} {W = Self.Store.BitStore} {P = Self.Order.BitOrder})
            (windows_left {X = Self.Store} {Y = Self.Order} {W = Self.Store.BitStore} {P = Self.Order.BitOrder}))
            (λ p. ItemsMapToReversed p list_of (windows_left p.from)) }
    {
        self.as_bitslice().windows(size)
    }

    /// The parts between the bits at which `test` returns true, which are in no part. It is called with each index and
    /// the bit there, in order, and no more than once. Requires, at each part that is asked for, that it can be.
    ///
    /// ```text
    /// of 01101001: bits.split(|_i, bit| bit).count() == 5
    /// ```
    final fn split<F: FnMut(usize, bool) -> bool>(
        &self,
        test: F,
    ) -> Split<'_, Self::Store, Self::Order, F>
        ensures list { split_list result ≡ list self.now }
        ensures from { split_from result ≡ 0 }
        ensures done { split_done result ≡ false }
        ensures test { split_test result ≡ test }
    {
        self.as_bitslice().split(test)
    }

    /// The list as a number, the first bit the least significant, whatever the order of bits in a word.
    /// Requires that the list has at most 64 bits.
    ///
    /// ```text
    /// of 01101001: bits.load_le() == 150
    /// ```
    final fn load_le(&self) -> u64
        requires { len self.now ≤ 64 }
        ensures value { result ≡ number_of (list self.now) }
        ensures bits { number_bits result (len self.now) ≡ list self.now }
    {
        let view = self.as_bitslice();
        read_chunk::<Self::Store, Self::Order>(view.words, view.head, view.len as u8)
    }

    /// The list as a number, the first bit the most significant, whatever the order of bits in a word. Requires
    /// that the list has at most 64 bits.
    ///
    /// ```text
    /// of 01101001: bits.load_be() == 105
    /// ```
    final fn load_be(&self) -> u64
        requires { len self.now ≤ 64 }
        ensures value { result ≡ value (list self.now) }
        ensures digits { binary (len self.now) result ≡ list self.now }
        ensures below { result < 2 ^ len self.now }
    {
        let view = self.as_bitslice();
        read_binary::<Self::Store, Self::Order>(view.words, view.head, view.len as u8)
    }

    /// The `n` bits from index `at` on as a number, the first bit the least significant. Requires that `n` is at
    /// most 64, and that the bits lie in the list.
    ///
    /// ```text
    /// of 01101001: bits.load_le_at(1, 4) == 11
    /// ```
    #[inline(always)]
    final fn load_le_at(&self, at: usize, n: u8) -> u64
        requires few { n ≤ 64 }
        requires within { at + n ≤ len self.now }
        ensures value { result ≡ number_of (slice_range (list self.now) at (at + n)) }
        ensures bits { number_bits result n ≡ slice_range (list self.now) at (at + n) }
        ensures below { result < 2 ^ n }
    {
        let view = self.as_bitslice();
        read_chunk::<Self::Store, Self::Order>(view.words, view.head + at, n)
    }

    /// The `n` bits from index `at` on as a number, the first bit the most significant. Requires that `n` is at
    /// most 64, and that the bits lie in the list.
    ///
    /// ```text
    /// of 01101001: bits.load_be_at(1, 4) == 13
    /// ```
    #[inline(always)]
    final fn load_be_at(&self, at: usize, n: u8) -> u64
        requires few { n ≤ 64 }
        requires within { at + n ≤ len self.now }
        ensures value { result ≡ value (slice_range (list self.now) at (at + n)) }
        ensures digits { binary n result ≡ slice_range (list self.now) at (at + n) }
        ensures below { result < 2 ^ n }
    {
        let view = self.as_bitslice();
        read_binary::<Self::Store, Self::Order>(view.words, view.head + at, n)
    }

    /// Like `load_le_at`, but the number is in two's complement: the last of the `n` bits is its sign. Requires
    /// that `n` is from 1 to 64, and that the bits lie in the list.
    ///
    /// ```text
    /// of 01101001: bits.load_signed_le_at(1, 4) == -5
    /// ```
    final fn load_signed_le_at(&self, at: usize, n: u8) -> i64
        requires some { 0 < n }
        requires few { n ≤ 64 }
        requires within { at + n ≤ len self.now }
        ensures value { result ≡ signed_of n (number_of (slice_range (list self.now) at (at + n))) }
        ensures bits { signed_bits result n ≡ slice_range (list self.now) at (at + n) }
        ensures fits { IsSigned n result }
    {
        extended(n, self.load_le_at(at, n))
    }

    /// Like `load_be_at`, but the number is in two's complement: the first of the `n` bits is its sign. Requires
    /// that `n` is from 1 to 64, and that the bits lie in the list.
    ///
    /// ```text
    /// of 01101001: bits.load_signed_be_at(1, 4) == -3
    /// ```
    final fn load_signed_be_at(&self, at: usize, n: u8) -> i64
        requires some { 0 < n }
        requires few { n ≤ 64 }
        requires within { at + n ≤ len self.now }
        ensures value { result ≡ signed_of n (value (slice_range (list self.now) at (at + n))) }
        ensures digits { signed_binary n result ≡ slice_range (list self.now) at (at + n) }
        ensures fits { IsSigned n result }
    {
        extended(n, self.load_be_at(at, n))
    }

    /// The bits as digits in a text of their own, as `0110`. Takes memory where there is a bit.
    ///
    /// ```text
    /// of 01101001: bits.to_text(alloc)?.as_str() == "01101001"
    /// ```
    final fn to_text(&self, alloc: Global) -> Result<String, AllocError>
        ensures digits { IfOk result (λ text. string_bytes text ≡ map digit_of (list self.now)) }
        ensures memory { OnErr result (0 < len self.now) }
    {
        digits_of(alloc, self.as_bitslice())
    }
}

impl<'a, T: BitStore, O: BitOrder> BitList for BitSlice<'a, T, O> {
    type Store = T;

    type Order = O;

    ghost head = { λ v. head_of v };

    ghost len = { λ v. len_of v };

    ghost list = { λ v. list_of v };

    ghost words = { λ v. words_of v };

    ghost bits = { λ v. row_of v };

    fn as_bitslice(&self) -> BitSlice<'_, T, O> {
        let view = *self;
        // Proof only: the length of the list, and how many words there are.
        let _len = view.len();
        let _words = view.as_raw_slice();
        view
    }
}

impl<'a, T: BitStore, O: BitOrder> BitList for BitSliceMut<'a, T, O> {
    ghost use Rattle.bit_slice.specs.BitSliceMut.{words_of as lent_words, head_of as lent_head, len_of as lent_len, row_of as lent_row, list_of as lent_list};

    type Store = T;

    type Order = O;

    ghost head = { λ v. lent_head v };

    ghost len = { λ v. lent_len v };

    ghost list = { λ v. lent_list v };

    ghost words = { λ v. lent_words v };

    ghost bits = { λ v. lent_row v };

    fn as_bitslice(&self) -> BitSlice<'_, T, O> {
        // Proof only: the length of the list, and how many words there are.
        let _len = BitSliceMut::len(self);
        let _words = BitSliceMut::as_raw_slice(self);
        BitSliceMut::as_bitslice(self)
    }
}
