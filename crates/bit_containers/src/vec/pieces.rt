//! Growth by the bits that a mask has, by a pattern again and again, and by runs.
ghost use Rattle.std.specs.Prelude.{◌≡◌, ◌+◌, ◌-◌, ◌*◌, ◌<◌, ◌≤◌, ◌++◌, length, replicate, slice_range, OnOk};
ghost use Rattle.std.specs.List.{flat_map, items_where_true};
ghost use Rattle.bit_addressing.specs.Row.{number_bits};
ghost use Rattle.bit_addressing.specs.declared.length.TheConstants.{MAX_BITS};
ghost use Rattle.bit_containers.specs.BitVec.{Grew, IsClean, IsKept, RefusesOnly};
ghost use Rattle.bit_containers.specs.Repeated.{repeated};
ghost use Rattle.bit_slice.specs.BitRuns.{bits_of_run};
ghost use Rattle.bit_slice.specs.BitSlice.{len_of, list_of};

use crate::vec::BitVec;
use bit_addressing::{BitOrder, BitRegister, BitStore, GrowError, MAX_BITS};
use bit_slice::inner::with_next;
use bit_slice::{BitList, BitRun, BitSlice};

// The `n` lowest bits of a number at which a mask has ones, gathered from place 0 on, and how many they are. Requires
// that `n` is at most 64.
#[inline(always)]
fn gather_bits(number: u64, mask: u64, n: u8) -> (u64, u8)
    requires { n ≤ 64 }
    ensures bits { number_bits result.0 result.1 ≡ items_where_true (number_bits mask n) (number_bits number n) }
    ensures few { result.1 ≤ n }
{
    let mut gathered = 0;
    let mut got = 0;
    for i in 0..n {
        if mask.bit(i) {
            gathered = with_next(gathered, got, number.bit(i));
            got += 1;
        }
    }
    (gathered, got)
}

impl<T: BitStore, O: BitOrder> BitVec<T, O> {
    // Like `push_le`, where there is room.
    fn push_gathered(&mut self, n: u8, number: u64)
        requires few { n ≤ 64 }
        requires room { length self.old.list + n ≤ self.old.capacity }
        requires fits { length self.old.list + n ≤ MAX_BITS }
        ensures list { self.new.list ≡ self.old.list ++ number_bits number n }
        ensures row { Grew T.BITS self.old self.new (number_bits number n) }
        ensures clean { IsClean T.BITS self.old → IsClean T.BITS self.new }
        ensures capacity { self.new.capacity ≡ self.old.capacity }
    {
        let _there_is_room = self.push_le(n, number);
    }

    /// Appends the bits of a view at which a mask has ones, in order: what they extract. Bits past the end of either
    /// don't count. It is refused like `extend_from_bitslice`. `deposit` writes them back by the same mask.
    ///
    /// ```text
    /// of 01, the bits 01101001 and the mask 11110000: bits.extend_where(source, mask)? leaves 010110
    /// ```
    pub fn extend_where<U: BitStore, P: BitOrder, V: BitStore, Q: BitOrder>(
        &mut self,
        source: BitSlice<'_, U, P>,
        mask: BitSlice<'_, V, Q>,
    ) -> Result<(), GrowError>
        ensures list { OnOk result
            (self.new.list ≡ self.old.list ++ items_where_true (list_of mask.entry) (list_of source.entry)) }
        ensures row { OnOk result
            (Grew T.BITS self.old self.new (items_where_true (list_of mask.entry) (list_of source.entry))) }
        ensures clean { OnOk result (IsClean T.BITS self.old → IsClean T.BITS self.new) }
        ensures refusal { RefusesOnly result
            (length self.old.list + length (items_where_true (list_of mask.entry) (list_of source.entry))) self.old self.new }
        ensures capacity { self.old.capacity ≤ self.new.capacity }
        ensures no_memory { length self.old.list + length (items_where_true (list_of mask.entry) (list_of source.entry))
            ≤ self.old.capacity → self.new.capacity ≡ self.old.capacity }
    {
        self.prove_in_words();
        let upto = source.len().min(mask.len());
        self.reserve(mask.count_ones_in(..upto))?;
        let mut at = 0;
        while at < upto {
            let n = (upto - at).min(64) as u8;
            let (gathered, got) = gather_bits(source.load_le_at(at, n), mask.load_le_at(at, n), n);
            self.push_gathered(got, gathered);
            at += n as usize;
        }
        Ok(())
    }

    // Like `extend_from_bitslice`, where there is room.
    fn append_reserved<U: BitStore, P: BitOrder>(&mut self, view: BitSlice<'_, U, P>)
        requires room { length self.old.list + len_of view ≤ self.old.capacity }
        requires fits { length self.old.list + len_of view ≤ MAX_BITS }
        ensures list { self.new.list ≡ self.old.list ++ list_of view.entry }
        ensures row { Grew T.BITS self.old self.new (list_of view.entry) }
        ensures clean { IsClean T.BITS self.old → IsClean T.BITS self.new }
        ensures capacity { self.new.capacity ≡ self.old.capacity }
    {
        let _there_is_room = self.extend_from_bitslice(view);
    }

    // Like `extend_from_within`, where there is room.
    fn copy_reserved(&mut self, from: usize, upto: usize)
        requires ordered { from ≤ upto }
        requires inside { upto ≤ length self.old.list }
        requires room { length self.old.list + (upto - from) ≤ self.old.capacity }
        requires fits { length self.old.list + (upto - from) ≤ MAX_BITS }
        ensures list { self.new.list ≡ self.old.list ++ slice_range self.old.list from upto }
        ensures row { Grew T.BITS self.old self.new (slice_range self.old.list from upto) }
        ensures clean { IsClean T.BITS self.old → IsClean T.BITS self.new }
        ensures capacity { self.new.capacity ≡ self.old.capacity }
    {
        let _there_is_room = self.extend_from_within(from..upto);
    }

    // Appends a bit `more` times, where there is room.
    fn run_reserved(&mut self, more: usize, bit: bool)
        requires some { 0 < more }
        requires room { length self.old.list + more ≤ self.old.capacity }
        requires fits { length self.old.list + more ≤ MAX_BITS }
        ensures list { self.new.list ≡ self.old.list ++ replicate more bit }
        ensures row { Grew T.BITS self.old self.new (replicate more bit) }
        ensures clean { IsClean T.BITS self.old → IsClean T.BITS self.new }
        ensures capacity { self.new.capacity ≡ self.old.capacity }
    {
        let _there_is_room = self.resize(self.len + more, bit);
    }

    /// Appends the bits of a view `times` times. What was appended is copied, twice as much at each step. It is
    /// refused like `extend_from_bitslice`.
    ///
    /// ```text
    /// of 01 and 110: bits.extend_repeated(other, 2)? leaves 01110110
    /// ```
    pub fn extend_repeated<U: BitStore, P: BitOrder>(
        &mut self,
        view: BitSlice<'_, U, P>,
        times: usize,
    ) -> Result<(), GrowError>
        ensures list { OnOk result (self.new.list ≡ self.old.list ++ repeated times (list_of view.entry)) }
        ensures row { OnOk result (Grew T.BITS self.old self.new (repeated times (list_of view.entry))) }
        ensures clean { OnOk result (IsClean T.BITS self.old → IsClean T.BITS self.new) }
        ensures refusal { RefusesOnly result (length self.old.list + times * len_of view.entry) self.old self.new }
        ensures capacity { self.old.capacity ≤ self.new.capacity }
        ensures no_memory { length self.old.list + times * len_of view.entry ≤ self.old.capacity
            → self.new.capacity ≡ self.old.capacity }
    {
        self.prove_in_words();
        let (start, len) = (self.len(), view.len());
        if len == 0 || times == 0 {
            return Ok(());
        }
        if times > (MAX_BITS - start) / len {
            return Err(GrowError::TooLong);
        }
        self.reserve(times * len)?;
        self.append_reserved(view);
        let mut done = 1;
        while done < times {
            let more = done.min(times - done);
            self.copy_reserved(start, start + more * len);
            done += more;
        }
        Ok(())
    }

    /// Appends the bits of runs, one after another: what `iter_runs` gives of a list makes that list again. Only how
    /// long a run is counts, and one that ends before it begins has no bits. It is refused like `extend_from_bitslice`.
    ///
    /// ```text
    /// of 01: bits.extend_from_runs(&[BitRun { start: 0, end: 3, bit: true }])? leaves 01111
    /// ```
    pub fn extend_from_runs(&mut self, runs: &[BitRun]) -> Result<(), GrowError>
        ensures list { OnOk result (self.new.list ≡ self.old.list ++ flat_map bits_of_run runs.now) }
        ensures row { OnOk result (Grew T.BITS self.old self.new (flat_map bits_of_run runs.now)) }
        ensures clean { OnOk result (IsClean T.BITS self.old → IsClean T.BITS self.new) }
        ensures refusal { RefusesOnly result (length self.old.list + length (flat_map bits_of_run runs.now)) self.old self.new }
        ensures capacity { self.old.capacity ≤ self.new.capacity }
        ensures no_memory { length self.old.list + length (flat_map bits_of_run runs.now) ≤ self.old.capacity
            → self.new.capacity ≡ self.old.capacity }
    {
        self.prove_in_words();
        let mut more: usize = 0;
        for run in runs {
            if run.len() > MAX_BITS - more {
                return Err(GrowError::TooLong);
            }
            more += run.len();
        }
        self.reserve(more)?;
        for run in runs {
            if run.len() != 0 {
                self.run_reserved(run.len(), run.bit);
            }
        }
        Ok(())
    }
}
