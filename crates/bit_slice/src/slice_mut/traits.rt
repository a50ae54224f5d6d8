//! The impls of std's traits for a view for writing.
ghost use Rattle.std.specs.Prelude.{◌≡◌, ◌↔◌, ◌≤◌, IsTrue, length, refl, Some};
ghost use Rattle.std.specs.Cmp.{on_equiv, on_total, on_po, on_per, partial_equiv_from_equiv};
ghost use Rattle.std.specs.Hash.{on_Alike};
ghost use Rattle.std.specs.Iterator.{YieldsFirst, YieldsLast};
ghost use Rattle.std.specs.Iterator.Runs.{YieldsInOrder, YieldsInReverse};
ghost use Rattle.bit_addressing.specs.Text.{list_text};
ghost use Rattle.bit_addressing.specs.declared.length.TheConstants.{MAX_BITS};
ghost use Rattle.bit_slice.specs.BitSliceMut.{list_of};
ghost use Rattle.bit_slice.specs.Iter.{rest_of};
ghost use Rattle.bit_slice.specs.Operators.{bits_cmp};
ghost use Rattle.bit_slice.specs.Comparisons.{bits_equal, bits_equiv, bits_total, bits_partial, bits_tie, bits_fed, bits_alike};

use crate::iter::Iter;
use crate::lists::BitList;
use crate::slice::BitSlice;
use crate::slice_mut::BitSliceMut;
use crate::texts::{hash_bits, write_digits, write_list};
use bit_addressing::{BitOrder, BitStore};
use std::cmp::Ordering;
use std::fmt;
use std::hash::{Hash, Hasher};
use std::iter::IntoIterator;

impl<'a, T: BitStore, O: BitOrder> PartialEq for BitSliceMut<'a, T, O> {
    ghost eq = { λ a b. bits_equal (list_of a) (list_of b) };

    ghost laws = { on_per list_of (partial_equiv_from_equiv bits_equiv) };

    /// Whether both have the same bits.
    #[tactic(auto, using(crate::specs::Comparisons::equal_lists, std::proofs::lemmas::Bool::Decides::same_from_decides))]
    fn eq(&self, other: &Self) -> bool
        ensures value { result ≡ bits_equal (list_of self.now) (list_of other.now) }
        ensures lists { IsTrue result ↔ (list_of self.now ≡ list_of other.now) }
    {
        self.as_bitslice().eq_bits(other.as_bitslice())
    }
}

impl<'a, T: BitStore, O: BitOrder> Eq for BitSliceMut<'a, T, O> {
    ghost laws = { on_equiv list_of bits_equiv };
}

impl<'a, T: BitStore, O: BitOrder> PartialOrd for BitSliceMut<'a, T, O> {
    ghost partial_cmp = { λ a b. Some (bits_cmp (list_of a) (list_of b)) };

    ghost laws = { on_po list_of bits_partial };

    /// Like `cmp`.
    fn partial_cmp(&self, other: &Self) -> Option<Ordering> {
        Some(self.cmp(other))
    }
}

impl<'a, T: BitStore, O: BitOrder> Ord for BitSliceMut<'a, T, O> {
    ghost cmp = { λ a b. bits_cmp (list_of a) (list_of b) };

    ghost total = { on_total list_of bits_total };

    ghost matches_partial_cmp = { λ a b. refl };

    ghost matches_eq = { λ a b. bits_tie (list_of a) (list_of b) };

    /// How the bits are ordered: the first that differ decide, false before true,
    /// and where none do the shorter comes first.
    fn cmp(&self, other: &Self) -> Ordering {
        self.as_bitslice().cmp_bits(other.as_bitslice())
    }
}

impl<'a, T: BitStore, O: BitOrder> Hash for BitSliceMut<'a, T, O> {
    ghost hash_input = { λ a. bits_fed (list_of a) };

    ghost respects_eq = { (on_Alike list_of bits_alike).fed };

    /// Feeds the hash of each bit as a truth value, in order, and nothing else.
    fn hash<H: Hasher>(&self, state: &mut H) {
        hash_bits(self.as_bitslice(), state);
    }
}

/// `[`, the digits of the list joined by `, `, and `]`. Flags and widths have no effect.
///
/// ```text
/// println!(rt; "{view}")    // [0, 1, 1]
/// ```
impl<'a, T: BitStore, O: BitOrder> fmt::Display for BitSliceMut<'a, T, O> {
    ghost output = { λ a. Some (list_text (list_of a)) };

    ghost styled_output = { λ a _. Some (list_text (list_of a)) };

    fn fmt<W: fmt::Write>(&self, f: &mut fmt::Formatter<W>) -> fmt::Result {
        write_list(self.as_bitslice(), f)
    }
}

/// `BitSliceMut { head: `, the head, `, bits: `, the length, ` } `, and the text of `Display`.
impl<'a, T: BitStore, O: BitOrder> fmt::Debug for BitSliceMut<'a, T, O> {
    fn fmt<W: fmt::Write>(&self, f: &mut fmt::Formatter<W>) -> fmt::Result {
        let (head, len) = (self.head(), self.len());
        write!(f, "BitSliceMut {{ head: {head}, bits: {len} }} ")?;
        write_list(self.as_bitslice(), f)
    }
}

/// `[`, a digit for each group of one bit, the first the most significant, and `]`. Flags and widths
/// have no effect.
impl<'a, T: BitStore, O: BitOrder> fmt::Binary for BitSliceMut<'a, T, O> {
    ghost use Rattle.std.specs.Prelude.{false};
    ghost use Rattle.std.specs.Fmt.{WritesStyledOnOk};
    ghost use Rattle.bit_slice.specs.Texts.{digits_text};

    fn fmt<W: fmt::Write>(&self, f: &mut fmt::Formatter<W>) -> fmt::Result
        ensures { WritesStyledOnOk W.write_str_gives f.old result (digits_text 1 false (list_of self.now)) f.new }
    {
        write_digits(self.as_bitslice(), 1, false, f)
    }
}

/// `[`, a digit for each group of three bits, the first the most significant, and `]`. Flags and widths
/// have no effect.
impl<'a, T: BitStore, O: BitOrder> fmt::Octal for BitSliceMut<'a, T, O> {
    ghost use Rattle.std.specs.Prelude.{false};
    ghost use Rattle.std.specs.Fmt.{WritesStyledOnOk};
    ghost use Rattle.bit_slice.specs.Texts.{digits_text};

    fn fmt<W: fmt::Write>(&self, f: &mut fmt::Formatter<W>) -> fmt::Result
        ensures { WritesStyledOnOk W.write_str_gives f.old result (digits_text 3 false (list_of self.now)) f.new }
    {
        write_digits(self.as_bitslice(), 3, false, f)
    }
}

/// `[`, a digit for each group of four bits, the first the most significant, the digits above 9 in lower case, and `]`.
/// Flags and widths have no effect.
impl<'a, T: BitStore, O: BitOrder> fmt::LowerHex for BitSliceMut<'a, T, O> {
    ghost use Rattle.std.specs.Prelude.{false};
    ghost use Rattle.std.specs.Fmt.{WritesStyledOnOk};
    ghost use Rattle.bit_slice.specs.Texts.{digits_text};

    fn fmt<W: fmt::Write>(&self, f: &mut fmt::Formatter<W>) -> fmt::Result
        ensures { WritesStyledOnOk W.write_str_gives f.old result (digits_text 4 false (list_of self.now)) f.new }
    {
        write_digits(self.as_bitslice(), 4, false, f)
    }
}

/// `[`, a digit for each group of four bits, the first the most significant, the digits above 9 in upper case, and `]`.
/// Flags and widths have no effect.
impl<'a, T: BitStore, O: BitOrder> fmt::UpperHex for BitSliceMut<'a, T, O> {
    ghost use Rattle.std.specs.Prelude.{true};
    ghost use Rattle.std.specs.Fmt.{WritesStyledOnOk};
    ghost use Rattle.bit_slice.specs.Texts.{digits_text};

    fn fmt<W: fmt::Write>(&self, f: &mut fmt::Formatter<W>) -> fmt::Result
        ensures { WritesStyledOnOk W.write_str_gives f.old result (digits_text 4 true (list_of self.now)) f.new }
    {
        write_digits(self.as_bitslice(), 4, true, f)
    }
}

impl<'a, T: BitStore, O: BitOrder> IntoIterator for BitSliceMut<'a, T, O> {
    type Item = bool;

    type IntoIter = Iter<'a, T, O>;

    ghost into_iter_gives = { λ v r. (rest_of r ≡ list_of v) × (length (rest_of r) ≤ MAX_BITS)
        × YieldsInOrder (YieldsFirst (rest_of {X = T} {Y = O} {W = T.BitStore} {P = O.BitOrder})) rest_of
        × YieldsInReverse (YieldsLast (rest_of {X = T} {Y = O} {W = T.BitStore} {P = O.BitOrder})) rest_of };

    /// The bits of the view, from both ends. The view is consumed, and its words are read as they are.
    fn into_iter(self) -> Iter<'a, T, O> {
        let (head, len) = (self.head, self.len);
        let words = self.words;
        BitSlice::from_parts(words, head, len).iter()
    }
}
