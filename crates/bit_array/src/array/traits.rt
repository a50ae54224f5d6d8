//! The impls of std's traits for the array.
ghost use Rattle.std.specs.Prelude.{◌≡◌, ◌↔◌, IsTrue, map, refl, Some};
ghost use Rattle.std.specs.Cmp.{on_equiv, on_total, on_po, on_per, partial_equiv_from_equiv};
ghost use Rattle.std.specs.Hash.{on_Alike};
ghost use Rattle.bit_addressing.specs.Row.{row_of};
ghost use Rattle.bit_addressing.specs.Text.{list_text};
ghost use Rattle.bit_addressing.specs.Typed.{row};
ghost use Rattle.bit_slice.specs.Operators.{bits_cmp};
ghost use Rattle.bit_slice.specs.Comparisons.{bits_equal, bits_equiv, bits_total, bits_partial, bits_tie, bits_fed, bits_alike};

use crate::array::BitArray;
use crate::errors::TryFromBitSliceError;
use crate::sized::{BitViewSized, BitWords};
use bit_addressing::{BitOrder, BitStore};
use bit_slice::inner::{hash_bits, write_digits, write_list};
use bit_slice::{BitList, BitSlice};
use std::alloc::AllocError;
use std::cmp::Ordering;
use std::fmt;
use std::hash::{Hash, Hasher};

impl<A: BitWords, O: BitOrder> Clone for BitArray<A, O> {
    ghost use Rattle.std.specs.Prelude.{◌≡◌, ⊤};

    ghost is_clone = { λ a b. b ≡ a };

    ghost is_infallible = { λ _. ⊤ };

    /// The same array. Takes no memory.
    fn clone(&self) -> Result<Self, AllocError> {
        Ok(self.copied())
    }
}

impl<A: BitWords, O: BitOrder> PartialEq for BitArray<A, O> {
    ghost eq = { λ a b. bits_equal (row A.Store.BitStore O.BitOrder (A.words a))
        (row A.Store.BitStore O.BitOrder (A.words b)) };

    ghost laws = { on_per (λ a. row_of O.place A.Store.BITS (map A.Store.value (A.words a)))
        (partial_equiv_from_equiv bits_equiv) };

    /// Whether both have the same bits.
    #[tactic(auto, using(bit_slice::specs::Comparisons::equal_lists, std::proofs::lemmas::Bool::Decides::same_from_decides))]
    fn eq(&self, other: &Self) -> bool
        ensures value { result
            ≡ bits_equal (row A.Store.BitStore O.BitOrder (A.words self.now))
            (row A.Store.BitStore O.BitOrder (A.words other.now)) }
        ensures lists { IsTrue result
            ↔ ((row A.Store.BitStore O.BitOrder (A.words self.now))
            ≡ (row A.Store.BitStore O.BitOrder (A.words other.now))) }
    {
        self.as_bitslice().eq_bits(other.as_bitslice())
    }
}

impl<A: BitWords, O: BitOrder> Eq for BitArray<A, O> {
    ghost laws = { on_equiv (λ a. row_of O.place A.Store.BITS (map A.Store.value (A.words a))) bits_equiv };
}

impl<A: BitWords, O: BitOrder> PartialOrd for BitArray<A, O> {
    ghost partial_cmp = { λ a b. Some (bits_cmp (row A.Store.BitStore O.BitOrder (A.words a))
        (row A.Store.BitStore O.BitOrder (A.words b))) };

    ghost laws = { on_po (λ a. row_of O.place A.Store.BITS (map A.Store.value (A.words a))) bits_partial };

    /// Like `cmp`.
    fn partial_cmp(&self, other: &Self) -> Option<Ordering> {
        Some(self.cmp(other))
    }
}

impl<A: BitWords, O: BitOrder> Ord for BitArray<A, O> {
    ghost cmp = { λ a b. bits_cmp (row A.Store.BitStore O.BitOrder (A.words a))
        (row A.Store.BitStore O.BitOrder (A.words b)) };

    ghost total = { on_total (λ a. row_of O.place A.Store.BITS (map A.Store.value (A.words a))) bits_total };

    ghost matches_partial_cmp = { λ a b. refl };

    ghost matches_eq = { λ a b. bits_tie (row_of O.place A.Store.BITS (map A.Store.value (A.words a)))
        (row_of O.place A.Store.BITS (map A.Store.value (A.words b))) };

    /// How the bits are ordered: the first that differ decide, false before true.
    fn cmp(&self, other: &Self) -> Ordering {
        self.as_bitslice().cmp_bits(other.as_bitslice())
    }
}

impl<A: BitWords, O: BitOrder> Hash for BitArray<A, O> {
    ghost hash_input = { λ a. bits_fed (row A.Store.BitStore O.BitOrder (A.words a)) };

    ghost respects_eq = { (on_Alike (λ a. row_of O.place A.Store.BITS (map A.Store.value (A.words a))) bits_alike).fed };

    /// Feeds the hash of each bit as a truth value, in order, and nothing else.
    fn hash<H: Hasher>(&self, state: &mut H) {
        hash_bits(self.as_bitslice(), state);
    }
}

/// `[`, the digits of the list joined by `, `, and `]`. Flags and widths have no effect.
///
/// ```text
/// println!(rt; "{a}")    // [0, 1, 1, 0, 0, 0, 0, 0]
/// ```
impl<A: BitWords, O: BitOrder> fmt::Display for BitArray<A, O> {
    ghost output = { λ a. Some (list_text (row A.Store.BitStore O.BitOrder (A.words a))) };

    ghost styled_output = { λ a _. Some (list_text (row A.Store.BitStore O.BitOrder (A.words a))) };

    fn fmt<W: fmt::Write>(&self, f: &mut fmt::Formatter<W>) -> fmt::Result {
        write_list(self.as_bitslice(), f)
    }
}

/// `BitArray { bits: `, the length, ` } `, and the text of `Display`.
impl<A: BitWords, O: BitOrder> fmt::Debug for BitArray<A, O> {
    fn fmt<W: fmt::Write>(&self, f: &mut fmt::Formatter<W>) -> fmt::Result {
        let len = self.len();
        write!(f, "BitArray {{ bits: {len} }} ")?;
        write_list(self.as_bitslice(), f)
    }
}

/// `[`, a digit for each group of one bit, the first the most significant, and `]`. Flags and widths
/// have no effect.
impl<A: BitWords, O: BitOrder> fmt::Binary for BitArray<A, O> {
    ghost use Rattle.std.specs.Prelude.{false};
    ghost use Rattle.std.specs.Fmt.{WritesStyledOnOk};
    ghost use Rattle.bit_slice.specs.Texts.{digits_text};

    fn fmt<W: fmt::Write>(&self, f: &mut fmt::Formatter<W>) -> fmt::Result
        ensures { WritesStyledOnOk W.write_str_gives f.old result
            (digits_text 1 false (row A.Store.BitStore O.BitOrder (A.words self.now))) f.new }
    {
        write_digits(self.as_bitslice(), 1, false, f)
    }
}

/// `[`, a digit for each group of three bits, the first the most significant, and `]`. Flags and widths
/// have no effect.
impl<A: BitWords, O: BitOrder> fmt::Octal for BitArray<A, O> {
    ghost use Rattle.std.specs.Prelude.{false};
    ghost use Rattle.std.specs.Fmt.{WritesStyledOnOk};
    ghost use Rattle.bit_slice.specs.Texts.{digits_text};

    fn fmt<W: fmt::Write>(&self, f: &mut fmt::Formatter<W>) -> fmt::Result
        ensures { WritesStyledOnOk W.write_str_gives f.old result
            (digits_text 3 false (row A.Store.BitStore O.BitOrder (A.words self.now))) f.new }
    {
        write_digits(self.as_bitslice(), 3, false, f)
    }
}

/// `[`, a digit for each group of four bits, the first the most significant, the digits above 9 in lower case,
/// and `]`. Flags and widths have no effect.
impl<A: BitWords, O: BitOrder> fmt::LowerHex for BitArray<A, O> {
    ghost use Rattle.std.specs.Prelude.{false};
    ghost use Rattle.std.specs.Fmt.{WritesStyledOnOk};
    ghost use Rattle.bit_slice.specs.Texts.{digits_text};

    fn fmt<W: fmt::Write>(&self, f: &mut fmt::Formatter<W>) -> fmt::Result
        ensures { WritesStyledOnOk W.write_str_gives f.old result
            (digits_text 4 false (row A.Store.BitStore O.BitOrder (A.words self.now))) f.new }
    {
        write_digits(self.as_bitslice(), 4, false, f)
    }
}

/// `[`, a digit for each group of four bits, the first the most significant, the digits above 9 in upper case,
/// and `]`. Flags and widths have no effect.
impl<A: BitWords, O: BitOrder> fmt::UpperHex for BitArray<A, O> {
    ghost use Rattle.std.specs.Prelude.{true};
    ghost use Rattle.std.specs.Fmt.{WritesStyledOnOk};
    ghost use Rattle.bit_slice.specs.Texts.{digits_text};

    fn fmt<W: fmt::Write>(&self, f: &mut fmt::Formatter<W>) -> fmt::Result
        ensures { WritesStyledOnOk W.write_str_gives f.old result
            (digits_text 4 true (row A.Store.BitStore O.BitOrder (A.words self.now))) f.new }
    {
        write_digits(self.as_bitslice(), 4, true, f)
    }
}

impl<'a, A: BitViewSized, O: BitOrder> TryFrom<BitSlice<'a, A::Store, O>> for BitArray<A, O> {
    ghost use Rattle.std.specs.Prelude.{◌≡◌, ◌*◌, ◌^◌, ◌-◌, min, MatchResult};
    ghost use Rattle.bit_slice.specs.BitSlice.{words_of, head_of, len_of, list_of};
    ghost use Rattle.bit_array.specs.Errors.{Refuses};

    type Error = TryFromBitSliceError;

    ghost try_from_gives = { λ v r. MatchResult r (λ a. (len_of v ≡ A.Store.BITS * A.count)
        × (head_of v ≡ 0) × (A.words a ≡ words_of v)
        × (row A.Store.BitStore O.BitOrder (A.words a) ≡ list_of v))
        (Refuses (len_of v) (head_of v) (min (A.Store.BITS * A.count) (2 ^ 64 - 1))) };

    /// The array of the view's bits. Refused where the length is not the array's, and else where the
    /// head is not 0. Takes no memory.
    fn try_from(view: BitSlice<'a, A::Store, O>) -> Result<Self, TryFromBitSliceError> {
        let expected = A::count().saturating_mul(A::Store::BITS as usize);
        if view.len() != expected {
            return Err(TryFromBitSliceError::unequal(view.len(), expected));
        }
        if view.head() != 0 {
            return Err(TryFromBitSliceError::misaligned());
        }
        let mut inner = A::zero();
        inner
            .as_raw_mut_slice()
            .copy_from_slice(view.as_raw_slice());
        Ok(BitArray::new(inner))
    }
}
