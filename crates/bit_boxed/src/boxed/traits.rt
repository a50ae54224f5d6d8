//! The impls of std's traits for the box.
ghost use Rattle.std.specs.Prelude.{◌≡◌, ◌↔◌, IsTrue, refl, Some};
ghost use Rattle.std.specs.Cmp.{on_equiv, on_total, on_po, on_per, partial_equiv_from_equiv};
ghost use Rattle.std.specs.Hash.{on_Alike};
ghost use Rattle.bit_addressing.specs.Text.{list_text};
ghost use Rattle.bit_slice.specs.Operators.{bits_cmp};
ghost use Rattle.bit_slice.specs.Comparisons.{bits_equal, bits_equiv, bits_total, bits_partial, bits_tie, bits_fed, bits_alike};
ghost use Rattle.bit_boxed.specs.BitBox.{list_in};
ghost use Rattle.bit_slice.specs.Held.{Held};

use crate::boxed::BitBox;
use bit_addressing::{BitOrder, BitStore};
use bit_slice::BitList;
use bit_slice::inner::{hash_bits, write_digits, write_list};
use std::alloc::AllocError;
use std::boxed::BoxedSlice;
use std::cmp::Ordering;
use std::fmt;
use std::hash::{Hash, Hasher};

impl<T: BitStore, O: BitOrder> Clone for BitBox<T, O> {
    ghost use Rattle.std.specs.Prelude.{◌≡◌, []};
    ghost use Rattle.bit_slice.specs.Held.{IsCopy};

    ghost is_clone = { IsCopy T.BITS };

    ghost is_infallible = { λ b. b.list ≡ [] };

    /// A copy: as `from_bitslice` of the box's view. Takes memory where there is a bit.
    fn clone(&self) -> Result<Self, AllocError> {
        Self::from_bitslice(self.allocator(), self.as_bitslice())
    }
}

impl<T: BitStore, O: BitOrder> PartialEq for BitBox<T, O> {
    ghost eq = { λ a b. bits_equal a.list b.list };

    ghost laws = { on_per list_in (partial_equiv_from_equiv bits_equiv) };

    /// Whether both have the same bits.
    #[tactic(auto, using(bit_slice::specs::Comparisons::equal_lists, std::proofs::lemmas::Bool::Decides::same_from_decides))]
    fn eq(&self, other: &Self) -> bool
        ensures value { result ≡ bits_equal self.now.list other.now.list }
        ensures lists { IsTrue result ↔ (self.now.list ≡ other.now.list) }
    {
        self.as_bitslice().eq_bits(other.as_bitslice())
    }
}

impl<T: BitStore, O: BitOrder> Eq for BitBox<T, O> {
    ghost laws = { on_equiv list_in bits_equiv };
}

impl<T: BitStore, O: BitOrder> PartialOrd for BitBox<T, O> {
    ghost partial_cmp = { λ a b. Some (bits_cmp a.list b.list) };

    ghost laws = { on_po list_in bits_partial };

    /// Like `cmp`.
    fn partial_cmp(&self, other: &Self) -> Option<Ordering> {
        Some(self.cmp(other))
    }
}

impl<T: BitStore, O: BitOrder> Ord for BitBox<T, O> {
    ghost cmp = { λ a b. bits_cmp a.list b.list };

    ghost total = { on_total list_in bits_total };

    ghost matches_partial_cmp = { λ a b. refl };

    ghost matches_eq = { λ a b. bits_tie a.list b.list };

    /// How the bits are ordered: the first that differ decide, false before true,
    /// and where none do the shorter comes first.
    fn cmp(&self, other: &Self) -> Ordering {
        self.as_bitslice().cmp_bits(other.as_bitslice())
    }
}

impl<T: BitStore, O: BitOrder> Hash for BitBox<T, O> {
    ghost hash_input = { λ a. bits_fed a.list };

    ghost respects_eq = { (on_Alike list_in bits_alike).fed };

    /// Feeds the hash of each bit as a truth value, in order, and nothing else.
    fn hash<H: Hasher>(&self, state: &mut H) {
        hash_bits(self.as_bitslice(), state);
    }
}

/// `[`, the digits of the list joined by `, `, and `]`. Flags and widths have no effect.
///
/// ```text
/// println!(rt; "{b}")    // [0, 1, 1]
/// ```
impl<T: BitStore, O: BitOrder> fmt::Display for BitBox<T, O> {
    ghost output = { λ a. Some (list_text a.list) };

    ghost styled_output = { λ a _. Some (list_text a.list) };

    fn fmt<W: fmt::Write>(&self, f: &mut fmt::Formatter<W>) -> fmt::Result {
        write_list(self.as_bitslice(), f)
    }
}

/// `BitBox { head: `, the head, `, bits: `, the length, ` } `, and the text of `Display`.
impl<T: BitStore, O: BitOrder> fmt::Debug for BitBox<T, O> {
    fn fmt<W: fmt::Write>(&self, f: &mut fmt::Formatter<W>) -> fmt::Result {
        let (head, len) = (self.head(), self.len());
        write!(f, "BitBox {{ head: {head}, bits: {len} }} ")?;
        write_list(self.as_bitslice(), f)
    }
}

/// `[`, a digit for each group of one bit, the first the most significant, and `]`. Flags and widths
/// have no effect.
impl<T: BitStore, O: BitOrder> fmt::Binary for BitBox<T, O> {
    ghost use Rattle.std.specs.Prelude.{false};
    ghost use Rattle.std.specs.Fmt.{WritesStyledOnOk};
    ghost use Rattle.bit_slice.specs.Texts.{digits_text};

    fn fmt<W: fmt::Write>(&self, f: &mut fmt::Formatter<W>) -> fmt::Result
        ensures { WritesStyledOnOk W.write_str_gives f.old result (digits_text 1 false (self.now.list)) f.new }
    {
        write_digits(self.as_bitslice(), 1, false, f)
    }
}

/// `[`, a digit for each group of three bits, the first the most significant, and `]`. Flags and widths
/// have no effect.
impl<T: BitStore, O: BitOrder> fmt::Octal for BitBox<T, O> {
    ghost use Rattle.std.specs.Prelude.{false};
    ghost use Rattle.std.specs.Fmt.{WritesStyledOnOk};
    ghost use Rattle.bit_slice.specs.Texts.{digits_text};

    fn fmt<W: fmt::Write>(&self, f: &mut fmt::Formatter<W>) -> fmt::Result
        ensures { WritesStyledOnOk W.write_str_gives f.old result (digits_text 3 false (self.now.list)) f.new }
    {
        write_digits(self.as_bitslice(), 3, false, f)
    }
}

/// `[`, a digit for each group of four bits, the first the most significant, the digits above 9 in lower case,
/// and `]`. Flags and widths have no effect.
impl<T: BitStore, O: BitOrder> fmt::LowerHex for BitBox<T, O> {
    ghost use Rattle.std.specs.Prelude.{false};
    ghost use Rattle.std.specs.Fmt.{WritesStyledOnOk};
    ghost use Rattle.bit_slice.specs.Texts.{digits_text};

    fn fmt<W: fmt::Write>(&self, f: &mut fmt::Formatter<W>) -> fmt::Result
        ensures { WritesStyledOnOk W.write_str_gives f.old result (digits_text 4 false (self.now.list)) f.new }
    {
        write_digits(self.as_bitslice(), 4, false, f)
    }
}

/// `[`, a digit for each group of four bits, the first the most significant, the digits above 9 in upper case,
/// and `]`. Flags and widths have no effect.
impl<T: BitStore, O: BitOrder> fmt::UpperHex for BitBox<T, O> {
    ghost use Rattle.std.specs.Prelude.{true};
    ghost use Rattle.std.specs.Fmt.{WritesStyledOnOk};
    ghost use Rattle.bit_slice.specs.Texts.{digits_text};

    fn fmt<W: fmt::Write>(&self, f: &mut fmt::Formatter<W>) -> fmt::Result
        ensures { WritesStyledOnOk W.write_str_gives f.old result (digits_text 4 true (self.now.list)) f.new }
    {
        write_digits(self.as_bitslice(), 4, true, f)
    }
}

impl<T: BitStore, O: BitOrder> TryFrom<BoxedSlice<T>> for BitBox<T, O> {
    ghost use Rattle.std.specs.Prelude.{◌≡◌, ◌*◌, ◌≤◌, ◌↔◌, IsOk, MatchResult, length};
    ghost use Rattle.std.specs.Box.{boxed_slice_items};
    ghost use Rattle.bit_addressing.specs.declared.length.TheConstants.{MAX_BITS};
    ghost use Rattle.bit_addressing.specs.Typed.{row};
    ghost use Rattle.bit_boxed.specs.BitBox.{IsWhole};

    type Error = BoxedSlice<T>;

    ghost try_from_gives = { λ words r. MatchResult r
        (λ b. IsWhole T.BITS (boxed_slice_items words) (row T.BitStore O.BitOrder (boxed_slice_items words))
        b) (λ back. back ≡ words) × (IsOk r ↔ (T.BITS * length (boxed_slice_items words) ≤ MAX_BITS)) };

    /// The call `BitBox::try_from_boxed_slice`.
    fn try_from(words: BoxedSlice<T>) -> Result<Self, BoxedSlice<T>> {
        Self::try_from_boxed_slice(words)
    }
}

impl<T: BitStore, O: BitOrder> From<BitBox<T, O>> for BoxedSlice<T> {
    ghost use Rattle.std.specs.Prelude.{◌≡◌};
    ghost use Rattle.std.specs.Box.{boxed_slice_items};
    ghost use Rattle.bit_addressing.specs.Typed.{row, words_from};

    ghost from_gives = { λ b words. (boxed_slice_items words ≡ b.words)
        × (row T.BitStore O.BitOrder (boxed_slice_items words) ≡ b.row)
        × (boxed_slice_items words ≡ words_from T.BitStore O.BitOrder b.row) };

    /// Like `BitBox::into_boxed_slice`.
    fn from(b: BitBox<T, O>) -> BoxedSlice<T> {
        b.into_boxed_slice()
    }
}
