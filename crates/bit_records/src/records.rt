//! Numbers of one width, one after another in the bits of a vector.
ghost use Rattle.std.specs.Prelude.{◌≡◌, ◌+◌, ◌-◌, ◌*◌, ◌^◌, ◌<◌, ◌≤◌, ◌↔◌, ◌++◌, ◌||◌, [], ◌∷◌, All, Err, IfOk, IfSome, IsOk, IsTrue, MatchOption, OnErr, OnOk, eqb, length, ltb, set, slice_get, take};
ghost use Rattle.std.specs.Iterator.{ExtendsWithItems, HoldsAlong, IsFinite};
ghost use Rattle.std.specs.Iterator.Runs.{EachRunFrom};
ghost use Rattle.bit_addressing.specs.declared.errors.GrowError.{GrowError};
ghost use Rattle.bit_addressing.specs.declared.length.TheConstants.{MAX_BITS};
ghost use Rattle.bit_containers.specs.BitVec.{IsClean};
ghost use Rattle.bit_containers.specs.Pulls.{GivesAll, GivesFirst, RunsThrough};
ghost use Rattle.bit_records.specs.Records.{AreKept, joined};

use bit_containers::{BitList, BitListMut, BitOrder, BitStore, BitVec, GrowError, Lsb0, MAX_BITS};
use std::alloc::{AllocError, Global};
use std::fmt;
use std::iter::{Extend, IntoIterator};
use std::marker::Model;

/// Numbers of one width, from 1 to 64 binary digits, packed without a gap: the most significant digit of
/// each comes first.
///
/// In contracts records `r` are their width `r.width`, the numbers `r.list`, and the vector of their
/// bits `r.bits`.
///
/// ```rust
/// use bit_records::Records;
///
/// let Some(mut ages) = Records::<u64>::new(rt.alloc(), 7) else {
///     return Ok(());
/// };
/// ages.push(41)?;
/// ages.push(8)?;
/// println!(&rt; "{:?} of {} numbers, {} bits each", ages.get(1), ages.len(), ages.width())?;
/// for age in ages.iter() {
///     println!(&rt; "{age}")?;
/// }
/// ```
///
/// ```text
/// Some(8) of 2 numbers, 7 bits each
/// 41
/// 8
/// ```
#[derive(Drop)]
pub struct Records<T: BitStore = usize, O: BitOrder = Lsb0> {
    bits: BitVec<T, O>,
    width: u8,
    len: usize,
}

impl<T: BitStore, O: BitOrder> Model for Records<T, O> {
    ghost use Rattle.bit_records.specs.Records.{AreRecords, Filed, filed_code, numbers_in};

    ghost Value = { Filed T };

    ghost coded = { filed_code T.code };

    ghost view = { λ r. record { width = r.width; list = numbers_in r.width r.bits.list; bits = r.bits } };

    ghost invariant = { λ r. AreRecords T.BITS r.width r.len r.bits };
}

impl<T: BitStore, O: BitOrder> Records<T, O> {
    /// Records of `width` digits each, with no number yet. None exactly where `width` is 0 or above 64.
    /// Takes no memory.
    pub fn new(alloc: Global, width: u8) -> Option<Self>
        ensures made { MatchOption result (IsTrue (eqb width 0 || ltb 64 width))
            (λ r. (r.width ≡ width) × ((r.list ≡ []) × (r.bits.capacity ≡ 0))) }
        ensures clean { IfSome result (λ r. IsClean T.BITS r.bits) }
    {
        if width == 0 || width > 64 {
            return None;
        }
        Some(Records {
            bits: BitVec::new(alloc),
            width,
            len: 0,
        })
    }

    /// The count of numbers; their digits together are at most `MAX_BITS`.
    pub fn len(&self) -> usize
        ensures value { result ≡ length self.now.list }
        ensures digits { result * self.now.width ≤ MAX_BITS }
        ensures few { result ≤ MAX_BITS }
    {
        self.len
    }

    /// Whether there is no number.
    pub fn is_empty(&self) -> bool
        ensures { IsTrue result ↔ (length self.now.list ≡ 0) }
    {
        self.len() == 0
    }

    /// The number of digits of each number: 1 to 64.
    pub fn width(&self) -> u8
        ensures value { result ≡ self.now.width }
        ensures some { 0 < result }
        ensures few { result ≤ 64 }
    {
        self.width
    }

    /// The number at `i`. None exactly where `i` is the length or more.
    pub fn get(&self, i: usize) -> Option<u64>
        ensures value { result ≡ slice_get self.now.list i }
        ensures below { IfSome result (λ number. number < 2 ^ self.now.width) }
    {
        if i >= self.len {
            return None;
        }
        let width = self.width;
        Some(self.bits.load_be_at(i * width as usize, width))
    }

    /// Writes the number at `i`, and no other. Takes no memory. Requires that `i` is below the length, and that
    /// the number has at most as many digits as the width.
    pub fn set(&mut self, i: usize, number: u64)
        requires inside { i < length self.old.list }
        requires fits { number < 2 ^ self.old.width }
        ensures list { self.new.list ≡ set self.old.list i number }
        ensures width { self.new.width ≡ self.old.width }
        ensures clean { IsClean T.BITS self.new.bits }
        ensures capacity { self.new.bits.capacity ≡ self.old.bits.capacity }
    {
        let width = self.width;
        self.bits.store_be_at(i * width as usize, width, number);
    }

    /// Appends a number. Returns `TooLong` exactly where the bits with it would pass `MAX_BITS`, and
    /// `OutOfMemory` only where they would pass the capacity. A refusal changes nothing but perhaps the
    /// capacity. Requires that the number has at most as many digits as the width.
    #[inline(always)]
    pub fn push(&mut self, number: u64) -> Result<(), GrowError>
        requires { number < 2 ^ self.old.width }
        ensures list { OnOk result (self.new.list ≡ self.old.list ++ number ∷ []) }
        ensures width { self.new.width ≡ self.old.width }
        ensures too_long { (result ≡ Err GrowError.TooLong)
            ↔ (MAX_BITS < length self.old.list * self.old.width + self.old.width) }
        ensures memory { result ≡ Err GrowError.OutOfMemory
            → self.old.bits.capacity < length self.old.list * self.old.width + self.old.width }
        ensures unchanged { OnErr result (AreKept self.old self.new) }
        ensures clean { IsClean T.BITS self.new.bits }
        ensures capacity { self.old.bits.capacity ≤ self.new.bits.capacity }
        ensures no_memory { length self.old.list * self.old.width + self.old.width ≤ self.old.bits.capacity
            → self.new.bits.capacity ≡ self.old.bits.capacity }
    {
        match self.bits.push_be(self.width, number) {
            Ok(()) => {
                self.len += 1;
                Ok(())
            }
            Err(why) => Err(why),
        }
    }

    /// Appends the numbers of a slice. Returns `TooLong` exactly where the bits with them would pass `MAX_BITS`, and
    /// `OutOfMemory` only where they would pass the capacity. A refusal changes nothing but perhaps the
    /// capacity. Requires that each number has at most as many digits as the width.
    ///
    /// ```text
    /// of 41: ages.extend_from_slice(&[8, 7])? leaves 41, 8, 7
    /// ```
    pub fn extend_from_slice(&mut self, numbers: &[u64]) -> Result<(), GrowError>
        requires { All (λ number. number < 2 ^ self.old.width) numbers.now }
        ensures list { OnOk result (self.new.list ≡ self.old.list ++ numbers.now) }
        ensures width { self.new.width ≡ self.old.width }
        ensures too_long { (result ≡ Err GrowError.TooLong)
            ↔ (MAX_BITS < (length self.old.list + length numbers.now) * self.old.width) }
        ensures memory { result ≡ Err GrowError.OutOfMemory
            → self.old.bits.capacity < (length self.old.list + length numbers.now) * self.old.width }
        ensures unchanged { OnErr result (AreKept self.old self.new) }
        ensures clean { IsClean T.BITS self.new.bits }
        ensures capacity { self.old.bits.capacity ≤ self.new.bits.capacity }
        ensures no_memory { (length self.old.list + length numbers.now) * self.old.width ≤ self.old.bits.capacity
            → self.new.bits.capacity ≡ self.old.bits.capacity }
    {
        self.reserve(numbers.len())?;
        for i in 0..numbers.len() {
            self.push(numbers[i])?;
        }
        Ok(())
    }

    /// Appends the numbers that an iterator gives before its first None. Returns `TooLong` where the bits with one of them
    /// would pass `MAX_BITS`, and `OutOfMemory` only where they would pass the capacity; then it pulls no more. A refusal
    /// changes nothing but perhaps the capacity. Requires that the iterator ends, and that each number has at most as many
    /// digits as the width.
    ///
    /// ```text
    /// of 41: ages.extend(others.iter())? leaves 41, 8, 7 where others are 8, 7
    /// ```
    pub fn extend<I: IntoIterator<Item = u64>>(&mut self, iter: I) -> Result<(), GrowError>
        requires { (it : I.IntoIter) → I.into_iter_gives iter it → I.IntoIter.can_next it
            × IsFinite (I.IntoIter.remaining it)
            × HoldsAlong I.IntoIter.next_gives it (All (λ number. number < 2 ^ self.old.width)) }
        ensures joined { OnOk result (GivesAll I.into_iter_gives I.IntoIter.next_gives iter
            (λ numbers. self.new.list ≡ self.old.list ++ numbers)) }
        ensures runs { OnOk result (RunsThrough I.into_iter_gives I.IntoIter.next_gives iter
            (λ numbers. self.new.list ≡ self.old.list ++ numbers)) }
        ensures width { self.new.width ≡ self.old.width }
        ensures too_long { result ≡ Err GrowError.TooLong
            → GivesFirst I.into_iter_gives I.IntoIter.next_gives iter
            (λ numbers. MAX_BITS < (length self.old.list + length numbers) * self.old.width) }
        ensures memory { result ≡ Err GrowError.OutOfMemory
            → GivesFirst I.into_iter_gives I.IntoIter.next_gives iter
            (λ numbers. self.old.bits.capacity < (length self.old.list + length numbers) * self.old.width) }
        ensures fits { ((it : I.IntoIter) → I.into_iter_gives iter it
            → EachRunFrom I.IntoIter.next_gives it (λ run.
            ((length self.old.list + length run.items) * self.old.width ≤ self.old.bits.capacity)
            × ((length self.old.list + length run.items) * self.old.width ≤ MAX_BITS))) → IsOk result }
        ensures unchanged { OnErr result (AreKept self.old self.new) }
        ensures clean { IsClean T.BITS self.new.bits }
        ensures capacity { self.old.bits.capacity ≤ self.new.bits.capacity }
        ensures no_memory { ((it : I.IntoIter) → I.into_iter_gives iter it
            → EachRunFrom I.IntoIter.next_gives it (λ run.
            (length self.old.list + length run.items) * self.old.width ≤ self.old.bits.capacity))
            → self.new.bits.capacity ≡ self.old.bits.capacity }
    {
        let before = self.len;
        for number in iter {
            match self.push(number) {
                Ok(()) => {}
                Err(why) => {
                    self.truncate(before);
                    return Err(why);
                }
            }
        }
        Ok(())
    }

    /// Makes room for `more` further numbers, so that appending them takes no memory. Returns `TooLong` exactly where the
    /// bits with them would pass `MAX_BITS`, and `OutOfMemory` only where they would pass the capacity. No number
    /// changes.
    pub fn reserve(&mut self, more: usize) -> Result<(), GrowError>
        ensures kept { AreKept self.old self.new }
        ensures room { OnOk result ((length self.old.list + more) * self.old.width ≤ self.new.bits.capacity) }
        ensures fits { OnOk result ((length self.old.list + more) * self.old.width ≤ MAX_BITS) }
        ensures too_long { (result ≡ Err GrowError.TooLong)
            ↔ (MAX_BITS < (length self.old.list + more) * self.old.width) }
        ensures memory { result ≡ Err GrowError.OutOfMemory
            → self.old.bits.capacity < (length self.old.list + more) * self.old.width }
        ensures clean { IsClean T.BITS self.new.bits }
        ensures capacity { self.old.bits.capacity ≤ self.new.bits.capacity }
        ensures no_memory { (length self.old.list + more) * self.old.width ≤ self.old.bits.capacity
            → self.new.bits.capacity ≡ self.old.bits.capacity }
    {
        let room = (MAX_BITS - self.bits.len()) / self.width as usize;
        if more > room {
            return Err(GrowError::TooLong);
        }
        self.bits.reserve(more * self.width as usize)
    }

    /// Removes the last number and returns it. None exactly where there is no number; then nothing changes.
    /// Takes no memory, and the capacity stays.
    ///
    /// ```text
    /// of 41, 8: ages.pop() returns Some(8), and 41 is left
    /// ```
    pub fn pop(&mut self) -> Option<u64>
        ensures popped { MatchOption result (length self.old.list ≡ 0)
            (λ number. self.old.list ≡ self.new.list ++ number ∷ []) }
        ensures value { result ≡ slice_get self.old.list (length self.old.list - 1) }
        ensures list { self.new.list ≡ take (length self.old.list - 1) self.old.list }
        ensures below { IfSome result (λ number. number < 2 ^ self.old.width) }
        ensures width { self.new.width ≡ self.old.width }
        ensures clean { IsClean T.BITS self.new.bits }
        ensures capacity { self.new.bits.capacity ≡ self.old.bits.capacity }
    {
        if self.len == 0 {
            return None;
        }
        let last = self.len - 1;
        let number = self.get(last);
        self.truncate(last);
        number
    }

    /// Keeps the first `len` numbers and removes the others. Changes nothing where `len` is the length or more.
    /// Takes no memory, and the capacity stays.
    ///
    /// ```text
    /// of 41, 8, 7: ages.truncate(1) leaves 41
    /// ```
    pub fn truncate(&mut self, len: usize)
        ensures list { self.new.list ≡ take len self.old.list }
        ensures width { self.new.width ≡ self.old.width }
        ensures clean { IsClean T.BITS self.new.bits }
        ensures capacity { self.new.bits.capacity ≡ self.old.bits.capacity }
    {
        if len < self.len {
            self.bits.truncate(len * self.width as usize);
            self.bits.set_uninitialized(false);
            self.len = len;
        }
    }

    /// Removes every number. The width and the capacity stay.
    pub fn clear(&mut self)
        ensures list { self.new.list ≡ [] }
        ensures width { self.new.width ≡ self.old.width }
        ensures clean { IsClean T.BITS self.new.bits }
        ensures capacity { self.new.bits.capacity ≡ self.old.bits.capacity }
    {
        self.truncate(0);
    }

    /// The bits of the numbers, one after another, each from its most significant digit on: they begin at head 0, and
    /// every dead bit is false. Takes no memory.
    pub fn into_bits(self) -> BitVec<T, O>
        ensures bits { result ≡ self.bits }
        ensures list { result.list ≡ joined self.width self.list }
        ensures len { length result.list ≡ length self.list * self.width }
        ensures clean { IsClean T.BITS result }
    {
        self.bits
    }
}

impl<T: BitStore, O: BitOrder> Extend<u64> for Records<T, O> {
    ghost use Rattle.std.specs.Prelude.{◌≡◌, ◌^◌, ◌<◌, ◌++◌, All};

    ghost can_extend = { λ old. All (λ number. number < 2 ^ old.width) };

    ghost extend_gives = { λ old numbers new. (new.list ≡ old.list ++ numbers) × (new.width ≡ old.width) };

    /// Like the records' own `extend`, but with one error for both refusals.
    fn extend<I: IntoIterator<Item = u64>>(&mut self, iter: I) -> Result<(), AllocError>
        requires { (it : I.IntoIter) → I.into_iter_gives iter it → I.IntoIter.can_next it
            × IsFinite (I.IntoIter.remaining it)
            × HoldsAlong I.IntoIter.next_gives it (All (λ number. number < 2 ^ self.old.width)) }
        ensures ran { ExtendsWithItems I.into_iter_gives I.IntoIter.next_gives
            (λ old numbers new. (new.list ≡ old.list ++ numbers) × (new.width ≡ old.width))
            iter self.old self.new result }
        ensures runs { OnOk result (RunsThrough I.into_iter_gives I.IntoIter.next_gives iter
            (λ numbers. self.new.list ≡ self.old.list ++ numbers)) }
        ensures unchanged { OnErr result (AreKept self.old self.new) }
    {
        match Records::extend(self, iter) {
            Ok(()) => Ok(()),
            Err(_) => Err(AllocError),
        }
    }
}

impl<T: BitStore, O: BitOrder> Clone for Records<T, O> {
    ghost use Rattle.std.specs.Prelude.{◌≡◌, []};
    ghost use Rattle.bit_records.specs.Records.{AreCopied};

    ghost is_clone = { AreCopied T.BITS };

    ghost is_infallible = { λ r. r.list ≡ [] };

    /// A copy, whose bits begin at head 0, with every dead bit false. Takes memory where there is a number.
    fn clone(&self) -> Result<Self, AllocError> {
        match self.bits.clone() {
            Ok(bits) => Ok(Records {
                bits,
                width: self.width,
                len: self.len,
            }),
            Err(refused) => Err(refused),
        }
    }
}

impl<T: BitStore, O: BitOrder> PartialEq for Records<T, O> {
    ghost use Rattle.std.specs.Cmp.{partial_equiv_from_equiv};
    ghost use Rattle.bit_records.specs.Compared.{are_equal, equal_equiv};

    ghost eq = { are_equal };

    ghost laws = { partial_equiv_from_equiv equal_equiv };

    /// Whether both have the same width and the same numbers.
    fn eq(&self, other: &Self) -> bool
        ensures value { result ≡ are_equal self.now other.now }
        ensures same { IsTrue result ↔ ((self.now.width ≡ other.now.width) × (self.now.list ≡ other.now.list)) }
    {
        self.width == other.width && self.bits == other.bits
    }
}

impl<T: BitStore, O: BitOrder> Eq for Records<T, O> {
    ghost use Rattle.bit_records.specs.Compared.{equal_equiv};

    ghost laws = { equal_equiv };
}

/// The numbers as a list, like those of a `Vec`: `[41, 8]`.
impl<T: BitStore, O: BitOrder> fmt::Debug for Records<T, O> {
    fn fmt<W: fmt::Write>(&self, f: &mut fmt::Formatter<W>) -> fmt::Result {
        f.debug_list().entries(self.iter()).finish()
    }
}
