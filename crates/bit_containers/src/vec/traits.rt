//! The impls of std's traits for the vector.
ghost use Rattle.std.specs.Prelude.{◌≡◌, ◌↔◌, IsTrue, refl, Some};
ghost use Rattle.std.specs.Cmp.{on_equiv, on_total, on_po, on_per, partial_equiv_from_equiv};
ghost use Rattle.std.specs.Hash.{on_Alike};
ghost use Rattle.bit_addressing.specs.Text.{list_text};
ghost use Rattle.bit_slice.specs.Operators.{bits_cmp};
ghost use Rattle.bit_slice.specs.Comparisons.{bits_equal, bits_equiv, bits_total, bits_partial, bits_tie, bits_fed, bits_alike};
ghost use Rattle.bit_containers.specs.Compared.{list_in};

use crate::vec::BitVec;
use bit_addressing::{BitOrder, BitStore};
use bit_slice::BitList;
use bit_slice::inner::{hash_bits, write_digits, write_list};
use std::alloc::AllocError;
use std::cmp::Ordering;
use std::fmt;
use std::hash::{Hash, Hasher};

impl<T: BitStore, O: BitOrder> Clone for BitVec<T, O> {
    ghost use Rattle.std.specs.Prelude.{◌≡◌, []};
    ghost use Rattle.bit_containers.specs.BitVec.{IsCopy};

    ghost is_clone = { IsCopy T.BITS };

    ghost is_infallible = { λ v. v.list ≡ [] };

    /// A copy: as `from_bitslice` of the vector's view. Takes memory where there is a bit.
    fn clone(&self) -> Result<Self, AllocError> {
        let alloc = *self.words.allocator();
        Self::from_bitslice(alloc, self.as_bitslice())
    }
}

impl<T: BitStore, O: BitOrder> PartialEq for BitVec<T, O> {
    ghost eq = { λ a b. bits_equal a.list b.list };

    ghost laws = { on_per list_in (partial_equiv_from_equiv bits_equiv) };

    /// Whether both have the same bits.
    #[tactic(auto, using(bit_slice::specs::Comparisons::equal_lists, std::proofs::lemmas::Bool::Decides::same_from_decides))]
    fn eq(&self, other: &Self) -> bool
        ensures value { result ≡ bits_equal self.now.list other.now.list }
        ensures lists { IsTrue result ↔ (self.now.list ≡ other.now.list) }
    {
        self.eq_bits(other.as_bitslice())
    }
}

impl<T: BitStore, O: BitOrder> Eq for BitVec<T, O> {
    ghost laws = { on_equiv list_in bits_equiv };
}

impl<T: BitStore, O: BitOrder> PartialOrd for BitVec<T, O> {
    ghost partial_cmp = { λ a b. Some (bits_cmp a.list b.list) };

    ghost laws = { on_po list_in bits_partial };

    /// Like `cmp`.
    fn partial_cmp(&self, other: &Self) -> Option<Ordering> {
        Some(self.cmp(other))
    }
}

impl<T: BitStore, O: BitOrder> Ord for BitVec<T, O> {
    ghost cmp = { λ a b. bits_cmp a.list b.list };

    ghost total = { on_total list_in bits_total };

    ghost matches_partial_cmp = { λ a b. refl };

    ghost matches_eq = { λ a b. bits_tie a.list b.list };

    /// How the bits are ordered: the first that differ decide, false before true,
    /// and where none do the shorter comes first.
    fn cmp(&self, other: &Self) -> Ordering {
        self.cmp_bits(other.as_bitslice())
    }
}

impl<T: BitStore, O: BitOrder> Hash for BitVec<T, O> {
    ghost hash_input = { λ a. bits_fed a.list };

    ghost respects_eq = { (on_Alike list_in bits_alike).fed };

    /// Feeds the hash of each bit as a truth value, in order, and nothing else.
    fn hash<H: Hasher>(&self, state: &mut H) {
        hash_bits(self.as_bitslice(), state);
    }
}

/// `[`, the digits of the list joined by `, `, and `]`. Flags and widths have no effect.
///
/// ```text
/// println!(rt; "{v}")    // [0, 1, 1]
/// ```
impl<T: BitStore, O: BitOrder> fmt::Display for BitVec<T, O> {
    ghost output = { λ v. Some (list_text v.list) };

    ghost styled_output = { λ v _. Some (list_text v.list) };

    fn fmt<W: fmt::Write>(&self, f: &mut fmt::Formatter<W>) -> fmt::Result {
        write_list(self.as_bitslice(), f)
    }
}

/// `BitVec { head: `, the head, `, bits: `, the length, `, capacity: `, the capacity, ` } `, and the text of
/// `Display`.
impl<T: BitStore, O: BitOrder> fmt::Debug for BitVec<T, O> {
    fn fmt<W: fmt::Write>(&self, f: &mut fmt::Formatter<W>) -> fmt::Result {
        let (head, len, capacity) = (self.head(), self.len(), self.capacity());
        write!(
            f,
            "BitVec {{ head: {head}, bits: {len}, capacity: {capacity} }} "
        )?;
        write_list(self.as_bitslice(), f)
    }
}

/// `[`, a digit for each group of one bit, the first the most significant, and `]`. Flags and widths
/// have no effect.
impl<T: BitStore, O: BitOrder> fmt::Binary for BitVec<T, O> {
    ghost use Rattle.std.specs.Prelude.{false};
    ghost use Rattle.std.specs.Fmt.{WritesStyledOnOk};
    ghost use Rattle.bit_slice.specs.Texts.{digits_text};

    fn fmt<W: fmt::Write>(&self, f: &mut fmt::Formatter<W>) -> fmt::Result
        ensures { WritesStyledOnOk W.write_str_gives f.old result (digits_text 1 false (self.now.list)) f.new }
    {
        write_digits(self.as_bitslice(), 1, false, f)
    }
}

/// `[`, a digit for each group of three bits, the first the most significant, and `]`. Flags and widths
/// have no effect.
impl<T: BitStore, O: BitOrder> fmt::Octal for BitVec<T, O> {
    ghost use Rattle.std.specs.Prelude.{false};
    ghost use Rattle.std.specs.Fmt.{WritesStyledOnOk};
    ghost use Rattle.bit_slice.specs.Texts.{digits_text};

    fn fmt<W: fmt::Write>(&self, f: &mut fmt::Formatter<W>) -> fmt::Result
        ensures { WritesStyledOnOk W.write_str_gives f.old result (digits_text 3 false (self.now.list)) f.new }
    {
        write_digits(self.as_bitslice(), 3, false, f)
    }
}

/// `[`, a digit for each group of four bits, the first the most significant, the digits above 9 in lower case,
/// and `]`. Flags and widths have no effect.
impl<T: BitStore, O: BitOrder> fmt::LowerHex for BitVec<T, O> {
    ghost use Rattle.std.specs.Prelude.{false};
    ghost use Rattle.std.specs.Fmt.{WritesStyledOnOk};
    ghost use Rattle.bit_slice.specs.Texts.{digits_text};

    fn fmt<W: fmt::Write>(&self, f: &mut fmt::Formatter<W>) -> fmt::Result
        ensures { WritesStyledOnOk W.write_str_gives f.old result (digits_text 4 false (self.now.list)) f.new }
    {
        write_digits(self.as_bitslice(), 4, false, f)
    }
}

/// `[`, a digit for each group of four bits, the first the most significant, the digits above 9 in upper case,
/// and `]`. Flags and widths have no effect.
impl<T: BitStore, O: BitOrder> fmt::UpperHex for BitVec<T, O> {
    ghost use Rattle.std.specs.Prelude.{true};
    ghost use Rattle.std.specs.Fmt.{WritesStyledOnOk};
    ghost use Rattle.bit_slice.specs.Texts.{digits_text};

    fn fmt<W: fmt::Write>(&self, f: &mut fmt::Formatter<W>) -> fmt::Result
        ensures { WritesStyledOnOk W.write_str_gives f.old result (digits_text 4 true (self.now.list)) f.new }
    {
        write_digits(self.as_bitslice(), 4, true, f)
    }
}

impl<T: BitStore, O: BitOrder> TryFrom<Vec<T>> for BitVec<T, O> {
    ghost use Rattle.std.specs.Prelude.{◌≡◌, ◌*◌, ◌≤◌, ◌↔◌, IsOk, MatchResult, length, vec_capacity};
    ghost use Rattle.bit_addressing.specs.Typed.{row};
    ghost use Rattle.bit_addressing.specs.declared.length.TheConstants.{MAX_BITS};
    ghost use Rattle.bit_containers.specs.BitVec.{IsClean, bits_in};

    type Error = Vec<T>;

    ghost try_from_gives = { λ words r. MatchResult r
        (λ v. (v.words ≡ words.items) × (v.row ≡ row T.BitStore O.BitOrder words.items) × (v.head ≡ 0)
        × (v.list ≡ row T.BitStore O.BitOrder words.items) × (length v.list ≡ T.BITS * length words.items)
        × IsClean T.BITS v × (v.capacity ≡ bits_in T.BITS (vec_capacity words) 0)) (λ back. back ≡ words)
        × (IsOk r ↔ (T.BITS * length words.items ≤ MAX_BITS)) };

    /// The call `BitVec::try_from_vec`.
    fn try_from(words: Vec<T>) -> Result<Self, Vec<T>> {
        Self::try_from_vec(words)
    }
}

impl<T: BitStore, O: BitOrder> From<BitVec<T, O>> for Vec<T> {
    ghost use Rattle.std.specs.Prelude.{◌≡◌, ◌+◌, length, slice_range, vec_capacity};
    ghost use Rattle.bit_addressing.specs.Row.{words_for};
    ghost use Rattle.bit_addressing.specs.Typed.{row, words_from, words_for_list};
    ghost use Rattle.bit_containers.specs.BitVec.{IsClean, bits_in};

    ghost from_gives = { λ v words. (words.items ≡ v.words)
        × (row T.BitStore O.BitOrder words.items ≡ v.row)
        × (words.items ≡ words_from T.BitStore O.BitOrder v.row)
        × (IsClean T.BITS v → words.items ≡ words_for_list T.BitStore O.BitOrder v.list)
        × (length words.items ≡ words_for T.BITS (v.head + length v.list))
        × (slice_range (row T.BitStore O.BitOrder words.items) v.head (v.head + length v.list) ≡ v.list)
        × (bits_in T.BITS (vec_capacity words) v.head ≡ v.capacity) };

    /// Like `BitVec::into_vec`.
    fn from(v: BitVec<T, O>) -> Vec<T> {
        v.into_vec()
    }
}
