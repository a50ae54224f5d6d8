//! The list, what makes it, and how it grows and shrinks.
ghost use Rattle.std.specs.Prelude.{◌≡◌, ◌+◌, ◌-◌, ◌*◌, ◌<◌, ◌≤◌, ◌↔◌, ◌++◌, ◌∷◌, [], IfNone, IfOk, IfSome, IsOk, OnErr, OnOk, Some, min, replicate, slice_get, take};
ghost use Rattle.std.specs.List.{insert, remove};
ghost use Rattle.bit_addressing.specs.declared.length.TheConstants.{MAX_BITS};
ghost use Rattle.bit_addressing.specs.Typed.{row};
ghost use Rattle.bit_slice.specs.BitSlice.{len_of, list_of};
ghost use Rattle.bit_small.specs.SmallBits.{front};

use bit_addressing::{BitOrder, BitStore, Lsb0};
use bit_array::{BitArray, BitViewSized, BitWords};
use bit_slice::{BitList, BitListMut, BitSlice};
use std::marker::Model;

mod blocks;
mod lists;
mod traits;

/// There is no room for a bit more.
#[derive(Clone, Copy, Debug, Drop, PartialEq, Eq)]
pub struct Full;

/// A list of truth values, one bit each, from head 0 on in the words of `A`, a word or an array of words, in the order `O`
/// of the bits in a word. It grows and shrinks like a vector, up to all bits of the words, and takes no memory.
///
/// In contracts such a list `s` is `front (row (A.words s.array)) s.len`: the first `s.len` bits of its words.
///
/// ```rust
/// use bit_addressing::Lsb0;
/// use bit_slice::{BitList, BitListMut};
/// use bit_small::SmallBits;
///
/// let mut flags = SmallBits::<u32, Lsb0>::new();
/// flags.push(true)?;
/// flags.push(false)?;
/// flags.set(1, true);
/// println!(&rt; "{} ones of {} bits, room for {}", flags.count_ones(), flags.len(), flags.capacity())?;
/// println!(&rt; "{:?}, then {}", flags.pop(), flags.as_bitslice())?;
/// ```
///
/// ```text
/// 2 ones of 2 bits, room for 32
/// Some(true), then [1]
/// ```
#[derive(Drop)]
pub struct SmallBits<A: BitWords = [usize; 1], O: BitOrder = Lsb0> {
    array: BitArray<A, O>,
    len: usize,
}

impl<A: BitWords, O: BitOrder> Model for SmallBits<A, O> {
    ghost use Rattle.std.specs.Prelude.{◌*◌, ◌≤◌};
    ghost use Rattle.bit_small.specs.SmallBits.{Small, small_code};

    ghost Value = { Small A };

    ghost coded = { small_code A.code };

    ghost view = { λ s. record { array = s.array; len = s.len } };

    ghost invariant = { λ s. s.len ≤ A.Store.BITS * A.count };
}

impl<A: BitWords, O: BitOrder> SmallBits<A, O> {
    /// The empty list. Requires that the words have at most `MAX_BITS` bits, as `BitArray::fits` tests.
    ///
    /// ```text
    /// SmallBits::<u8, Lsb0>::new().is_empty() == true
    /// ```
    pub fn new() -> Self
        requires { A.Store.BITS * A.count ≤ MAX_BITS }
        ensures len { result.len ≡ 0 }
    {
        SmallBits {
            array: BitArray::zero(),
            len: 0,
        }
    }

    /// The number of bits that it has room for: all of its words.
    ///
    /// ```text
    /// SmallBits::<[u8; 2], Lsb0>::new().capacity() == 16
    /// ```
    pub fn capacity(&self) -> usize
        ensures { result ≡ A.Store.BITS * A.count }
    {
        self.array.len()
    }

    /// Keeps the first `n` bits, or all where there are no more.
    ///
    /// ```text
    /// of 0110: bits.truncate(2) leaves 01
    /// ```
    pub fn truncate(&mut self, n: usize)
        ensures len { self.new.len ≡ min self.old.len n }
        ensures list { front (row A.Store.BitStore O.BitOrder (A.words self.new.array)) self.new.len
            ≡ take n (front (row A.Store.BitStore O.BitOrder (A.words self.old.array)) self.old.len) }
    {
        self.len = self.len.min(n);
    }

    /// Removes all bits.
    ///
    /// ```text
    /// of 0110: bits.clear() leaves nothing
    /// ```
    pub fn clear(&mut self)
        ensures { self.new.len ≡ 0 }
    {
        self.len = 0;
    }
}

impl<A: BitViewSized, O: BitOrder> SmallBits<A, O> {
    /// A list of the bits of a view. `Full` exactly where they are more than the words have.
    ///
    /// ```text
    /// SmallBits::<u8, Msb0>::from_bitslice(view)?
    /// ```
    pub fn from_bitslice<T: BitStore, P: BitOrder>(view: BitSlice<'_, T, P>) -> Result<Self, Full>
        requires { A.Store.BITS * A.count ≤ MAX_BITS }
        ensures len { IfOk result (λ s. s.len ≡ len_of view.entry) }
        ensures list { IfOk result (λ s. front (row A.Store.BitStore O.BitOrder (A.words s.array)) s.len ≡ list_of view.entry) }
        ensures full { IsOk result ↔ (len_of view.entry ≤ A.Store.BITS * A.count) }
    {
        let mut bits = Self::new();
        bits.extend_from_bitslice(view)?;
        Ok(bits)
    }

    /// Appends a bit. `Full`, and nothing changes, exactly where all bits of the words are taken.
    ///
    /// ```text
    /// of 011: bits.push(false)? leaves 0110
    /// ```
    pub fn push(&mut self, bit: bool) -> Result<(), Full>
        ensures len { OnOk result (self.new.len ≡ self.old.len + 1) }
        ensures list { OnOk result (front (row A.Store.BitStore O.BitOrder (A.words self.new.array)) self.new.len ≡ front (row A.Store.BitStore O.BitOrder (A.words self.old.array)) self.old.len ++ bit ∷ []) }
        ensures full { IsOk result ↔ (self.old.len < A.Store.BITS * A.count) }
        ensures stays { OnErr result (self.new ≡ self.old) }
    {
        if self.len == self.array.len() {
            return Err(Full);
        }
        self.array.set(self.len, bit);
        self.len += 1;
        Ok(())
    }

    /// Removes and returns the last bit. None exactly where there is none.
    ///
    /// ```text
    /// of 0110: bits.pop() == Some(false)
    /// ```
    pub fn pop(&mut self) -> Option<bool>
        ensures len { IfSome result (λ _. self.old.len ≡ self.new.len + 1) }
        ensures some { IfSome result (λ bit. front (row A.Store.BitStore O.BitOrder (A.words self.old.array)) self.old.len ≡ front (row A.Store.BitStore O.BitOrder (A.words self.new.array)) self.new.len ++ bit ∷ []) }
        ensures none { IfNone result (self.old.len ≡ 0) }
        ensures stays { IfNone result (self.new ≡ self.old) }
    {
        if self.len == 0 {
            return None;
        }
        // Proof only: how many bits the words have.
        let _len = self.array.len();
        let last = self.array[self.len - 1];
        self.len -= 1;
        Some(last)
    }

    /// Appends the bits of a view. `Full`, and nothing changes, exactly where there is no room for all of them.
    ///
    /// ```text
    /// of 01 and 10: bits.extend_from_bitslice(other)? leaves 0110
    /// ```
    pub fn extend_from_bitslice<T: BitStore, P: BitOrder>(
        &mut self,
        view: BitSlice<'_, T, P>,
    ) -> Result<(), Full>
        ensures len { OnOk result (self.new.len ≡ self.old.len + len_of view.entry) }
        ensures list { OnOk result (front (row A.Store.BitStore O.BitOrder (A.words self.new.array)) self.new.len ≡ front (row A.Store.BitStore O.BitOrder (A.words self.old.array)) self.old.len ++ list_of view.entry) }
        ensures full { IsOk result ↔ (self.old.len + len_of view.entry ≤ A.Store.BITS * A.count) }
        ensures stays { OnErr result (self.new ≡ self.old) }
    {
        if view.len() > self.array.len() - self.len {
            return Err(Full);
        }
        let end = self.len + view.len();
        self.array.copy_into(self.len..end, view);
        self.len = end;
        Ok(())
    }

    /// Inserts a bit at index `i`, and moves the bits from there on to the next index. `Full`, and nothing changes, exactly
    /// where all bits of the words are taken. Requires that `i` is at most the length.
    ///
    /// ```text
    /// of 010: bits.insert(1, true)? leaves 0110
    /// ```
    pub fn insert(&mut self, i: usize, bit: bool) -> Result<(), Full>
        requires { i ≤ self.old.len }
        ensures len { OnOk result (self.new.len ≡ self.old.len + 1) }
        ensures list { OnOk result (front (row A.Store.BitStore O.BitOrder (A.words self.new.array)) self.new.len
            ≡ insert (front (row A.Store.BitStore O.BitOrder (A.words self.old.array)) self.old.len) i bit) }
        ensures full { IsOk result ↔ (self.old.len < A.Store.BITS * A.count) }
        ensures stays { OnErr result (self.new ≡ self.old) }
    {
        let end = self.len;
        self.push(bit)?;
        // Proof only: how many bits the words have.
        let _len = self.array.len();
        self.array.copy_within(i..end, i + 1);
        self.array.set(i, bit);
        Ok(())
    }

    /// Removes and returns the bit at index `i`, and moves the later bits to the index before. Requires that `i` is below
    /// the length.
    ///
    /// ```text
    /// of 0110: bits.remove(1) leaves 010
    /// ```
    pub fn remove(&mut self, i: usize) -> bool
        requires { i < self.old.len }
        ensures len { self.old.len ≡ self.new.len + 1 }
        ensures value { Some result
            ≡ slice_get (front (row A.Store.BitStore O.BitOrder (A.words self.old.array)) self.old.len) i }
        ensures list { front (row A.Store.BitStore O.BitOrder (A.words self.new.array)) self.new.len
            ≡ remove (front (row A.Store.BitStore O.BitOrder (A.words self.old.array)) self.old.len) i }
    {
        // Proof only: how many bits the words have.
        let _len = self.array.len();
        let bit = self.array[i];
        self.array.copy_within(i + 1..self.len, i);
        self.len -= 1;
        bit
    }

    /// Keeps the first `n` bits, or appends `bit` until there are `n`. `Full`, and nothing changes, exactly where `n` is
    /// more than the words have.
    ///
    /// ```text
    /// of 0110: bits.resize(6, true)? leaves 011011
    /// ```
    pub fn resize(&mut self, n: usize, bit: bool) -> Result<(), Full>
        ensures len { OnOk result (self.new.len ≡ n) }
        ensures list { OnOk result (front (row A.Store.BitStore O.BitOrder (A.words self.new.array)) self.new.len
            ≡ take n (front (row A.Store.BitStore O.BitOrder (A.words self.old.array)) self.old.len)
            ++ replicate (n - self.old.len) bit) }
        ensures full { IsOk result ↔ (n ≤ A.Store.BITS * A.count) }
        ensures stays { OnErr result (self.new ≡ self.old) }
    {
        if n <= self.len {
            self.truncate(n);
            return Ok(());
        }
        if n > self.array.len() {
            return Err(Full);
        }
        self.array.fill_range(self.len..n, bit);
        self.len = n;
        Ok(())
    }
}
