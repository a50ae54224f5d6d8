//! Growth by many bits at once.
ghost use Rattle.std.specs.Prelude.{◌≡◌, ◌+◌, ◌-◌, ◌*◌, ◌^◌, ◌<◌, ◌≤◌, [], ◌++◌, length, take, replicate, slice_range, vec_capacity, OnOk, OnErr, IsOk};
ghost use Rattle.bit_addressing.specs.Range.{LiesIn};
ghost use Rattle.bit_addressing.specs.Row.{put};
ghost use Rattle.bit_addressing.specs.Typed.{row};
ghost use Rattle.bit_containers.specs.BitVec.{Grew, Shrank, IsClean, RefusesOnly};
ghost use Rattle.bit_slice.specs.BitSlice.{len_of, list_of};

use crate::vec::BitVec;
use bit_addressing::{BitOrder, BitStore, GrowError, MAX_BITS, RangeExt};
use bit_rows::{append_run_in_vec, copy_bits_in_vec, move_bits_in_vec, resize_words_in_vec};
use bit_slice::BitSlice;

impl<T: BitStore, O: BitOrder> BitVec<T, O> {
    /// Appends the bits of a view, with any word type and order, by whole words. Words of zero are appended
    /// first, as many as the bits take beside the visible ones. Returns `TooLong` exactly where the length would pass
    /// `MAX_BITS`, and `OutOfMemory` only where it would pass the capacity. A refusal changes nothing but perhaps the
    /// capacity.
    ///
    /// ```text
    /// of 01 and 10: bits.extend_from_bitslice(other)? leaves 0110
    /// ```
    #[tactic(auto, using(bit_slice::proofs::Parts::shown_length))]
    pub fn extend_from_bitslice<U: BitStore, P: BitOrder>(
        &mut self,
        view: BitSlice<'_, U, P>,
    ) -> Result<(), GrowError>
        ensures list { OnOk result (self.new.list ≡ self.old.list ++ list_of view.entry) }
        ensures row { OnOk result (Grew T.BITS self.old self.new (list_of view.entry)) }
        ensures clean { OnOk result (IsClean T.BITS self.old → IsClean T.BITS self.new) }
        ensures refusal { RefusesOnly result (length self.old.list + len_of view.entry) self.old self.new }
        ensures capacity { self.old.capacity ≤ self.new.capacity }
        ensures no_memory { length self.old.list + len_of view.entry ≤ self.old.capacity
            → self.new.capacity ≡ self.old.capacity }
    {
        let more = view.len();
        if more > MAX_BITS - self.len {
            return Err(GrowError::TooLong);
        }
        let (end, len) = (self.head + self.len, self.len + more);
        resize_words_in_vec::<T, O>(&mut self.words, self.head + len)?;
        let from = view.head();
        copy_bits_in_vec::<T, O, U, P>(&mut self.words, end, view.as_raw_slice(), from, more);
        self.len = len;
        Ok(())
    }

    /// Like `extend_from_bitslice`.
    ///
    /// ```text
    /// of 01 and 10: bits.extend_from_slice(other)? leaves 0110
    /// ```
    pub fn extend_from_slice<U: BitStore, P: BitOrder>(
        &mut self,
        view: BitSlice<'_, U, P>,
    ) -> Result<(), GrowError>
        ensures list { OnOk result (self.new.list ≡ self.old.list ++ list_of view.entry) }
        ensures row { OnOk result (Grew T.BITS self.old self.new (list_of view.entry)) }
        ensures clean { OnOk result (IsClean T.BITS self.old → IsClean T.BITS self.new) }
        ensures refusal { RefusesOnly result (length self.old.list + len_of view.entry) self.old self.new }
        ensures capacity { self.old.capacity ≤ self.new.capacity }
        ensures no_memory { length self.old.list + len_of view.entry ≤ self.old.capacity
            → self.new.capacity ≡ self.old.capacity }
    {
        self.extend_from_bitslice(view)
    }

    /// Appends the list of another vector, of any word type and order, by whole words, and empties that
    /// one. It is refused like `extend_from_bitslice`, and a refusal leaves both vectors.
    ///
    /// ```text
    /// of 01 and 101: bits.append(&mut others)? leaves 01101
    /// ```
    pub fn append<U: BitStore, P: BitOrder>(
        &mut self,
        other: &mut BitVec<U, P>,
    ) -> Result<(), GrowError>
        ensures list { OnOk result (self.new.list ≡ self.old.list ++ other.old.list) }
        ensures row { OnOk result (Grew T.BITS self.old self.new other.old.list) }
        ensures clean { OnOk result (IsClean T.BITS self.old → IsClean T.BITS self.new) }
        ensures emptied { OnOk result (other.new.list ≡ []) }
        ensures shrank { OnOk result (Shrank U.BITS other.old other.new 0) }
        ensures refusal { RefusesOnly result (length self.old.list + length other.old.list) self.old self.new }
        ensures other_unchanged { OnErr result (other.new ≡ other.old) }
        ensures capacity { self.old.capacity ≤ self.new.capacity }
        ensures no_memory { length self.old.list + length other.old.list ≤ self.old.capacity
            → self.new.capacity ≡ self.old.capacity }
    {
        self.extend_from_bitslice(other.as_bitslice())?;
        other.truncate(0);
        Ok(())
    }

    /// Keeps the first `n` bits, or appends `bit` until there are `n`, by whole words. Where it grows it is
    /// refused like `push`, and a refusal changes nothing but perhaps the capacity. Where it shrinks it is
    /// like `truncate`.
    ///
    /// ```text
    /// of 0110: bits.resize(6, true)? leaves 011011
    /// ```
    #[tactic(auto, using(bit_slice::proofs::Parts::shown_length))]
    pub fn resize(&mut self, n: usize, bit: bool) -> Result<(), GrowError>
        ensures list { OnOk result (self.new.list ≡ take n self.old.list ++ replicate (n - length self.old.list) bit) }
        ensures len { OnOk result (length self.new.list ≡ n) }
        ensures succeeds { n ≤ length self.old.list → IsOk result }
        ensures grew { OnOk result (length self.old.list < n
            → Grew T.BITS self.old self.new (replicate (n - length self.old.list) bit)) }
        ensures shrank { n ≤ length self.old.list → Shrank T.BITS self.old self.new n }
        ensures clean { OnOk result (length self.old.list < n → IsClean T.BITS self.old → IsClean T.BITS self.new) }
        ensures refusal { RefusesOnly result n self.old self.new }
        ensures capacity { self.old.capacity ≤ self.new.capacity }
        ensures no_memory { n ≤ self.old.capacity → self.new.capacity ≡ self.old.capacity }
    {
        if n <= self.len {
            self.truncate(n);
            return Ok(());
        }
        if n > MAX_BITS {
            return Err(GrowError::TooLong);
        }
        let (end, upto) = (self.head + self.len, self.head + n);
        append_run_in_vec::<T, O>(&mut self.words, end, upto, bit)?;
        self.len = n;
        Ok(())
    }

    /// Appends all bits of these words. It is refused like `extend_from_bitslice`. Where the vector is whole
    /// words from head 0, its words are the old ones and then these.
    ///
    /// ```text
    /// of 01: bits.extend_from_raw_slice(&[3])? leaves 0111000000
    /// ```
    #[tactic(auto, using(bit_slice::proofs::Parts::row_size))]
    pub fn extend_from_raw_slice(&mut self, words: &[T]) -> Result<(), GrowError>
        ensures len { OnOk result (length self.new.list ≡ length self.old.list + T.BITS * length words.now) }
        ensures list { OnOk result (self.new.list ≡ self.old.list ++ row T.BitStore O.BitOrder words.now) }
        ensures row { OnOk result (Grew T.BITS self.old self.new (row T.BitStore O.BitOrder words.now)) }
        ensures words { OnOk result (self.old.head ≡ 0
            → length self.old.list ≡ T.BITS * length self.old.words
            → self.new.words ≡ self.old.words ++ words.now) }
        ensures clean { OnOk result (IsClean T.BITS self.old → IsClean T.BITS self.new) }
        ensures refusal { RefusesOnly result (length self.old.list + T.BITS * length words.now) self.old self.new }
        ensures capacity { self.old.capacity ≤ self.new.capacity }
        ensures no_memory { length self.old.list + T.BITS * length words.now ≤ self.old.capacity
            → self.new.capacity ≡ self.old.capacity }
    {
        if !Self::fits(words.len()) {
            return Err(GrowError::TooLong);
        }
        T::are_words(self.words.as_slice());
        self.extend_from_bitslice(BitSlice::<T, O>::from_slice(words))?;
        T::are_words(self.words.as_slice());
        T::are_words(words);
        Ok(())
    }

    /// Appends the bits at a range of indices once more, by one move. It is refused like
    /// `extend_from_bitslice`. Requires that the range lies in the length.
    ///
    /// ```text
    /// of 0110: bits.extend_from_within(1..3)? leaves 011011
    /// ```
    #[tactic(auto, using(bit_slice::proofs::Parts::shown_length))]
    pub fn extend_from_within<R: RangeExt>(&mut self, range: R) -> Result<(), GrowError>
        requires lies { LiesIn (R.start_of range) (R.end_of range (length self.old.list)) (length self.old.list) }
        ensures list { OnOk result (self.new.list
            ≡ self.old.list
            ++ slice_range self.old.list (R.start_of range) (R.end_of range (length self.old.list))) }
        ensures row { OnOk result (Grew T.BITS self.old self.new
            (slice_range self.old.list (R.start_of range) (R.end_of range (length self.old.list)))) }
        ensures clean { OnOk result (IsClean T.BITS self.old → IsClean T.BITS self.new) }
        ensures refusal { RefusesOnly result
            (length self.old.list + (R.end_of range (length self.old.list) - R.start_of range)) self.old
            self.new }
        ensures capacity { self.old.capacity ≤ self.new.capacity }
        ensures no_memory { length self.old.list + (R.end_of range (length self.old.list) - R.start_of range) ≤ self.old.capacity
            → self.new.capacity ≡ self.old.capacity }
    {
        let range = range.normalize(self.len);
        let more = range.end - range.start;
        if more > MAX_BITS - self.len {
            return Err(GrowError::TooLong);
        }
        let (end, len) = (self.head + self.len, self.len + more);
        resize_words_in_vec::<T, O>(&mut self.words, self.head + len)?;
        move_bits_in_vec::<T, O>(&mut self.words, self.head + range.start, end, more);
        self.len = len;
        Ok(())
    }
}
