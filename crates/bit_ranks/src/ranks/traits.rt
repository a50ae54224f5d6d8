//! The impls of std's traits for ranks, and ranks as a list of bits.
ghost use Rattle.std.specs.Prelude.{◌≡◌, ◌↔◌, IsTrue, Some, length};
ghost use Rattle.std.specs.Cmp.{on_equiv, on_per, partial_equiv_from_equiv};
ghost use Rattle.bit_addressing.specs.Text.{list_text};
ghost use Rattle.bit_boxed.specs.BitBox.{list_in};
ghost use Rattle.bit_slice.specs.Comparisons.{bits_equal, bits_equiv};

use crate::ranks::Ranks;
use bit_boxed::BitBox;
use bit_containers::{BitList, BitOrder, BitStore, BitVec};
use bit_slice::BitSlice;
use std::fmt;
use std::ops::Index;

impl<T: BitStore, O: BitOrder> BitList for Ranks<T, O> {
    type Store = T;

    type Order = O;

    ghost head = { λ r. r.head };

    ghost len = { λ r. length r.list };

    ghost list = { λ r. r.list };

    ghost words = { λ r. r.words };

    ghost bits = { λ r. r.row };

    fn as_bitslice(&self) -> BitSlice<'_, T, O> {
        BitList::as_bitslice(&self.bits)
    }
}

impl<T: BitStore, O: BitOrder> PartialEq for Ranks<T, O> {
    ghost eq = { λ a b. bits_equal a.list b.list };

    ghost laws = { on_per list_in (partial_equiv_from_equiv bits_equiv) };

    /// Whether both have the same bits. With bits of other words or another order `eq_bits` compares.
    #[tactic(auto, using(bit_slice::specs::Comparisons::equal_lists, std::proofs::lemmas::Bool::Decides::same_from_decides))]
    fn eq(&self, other: &Self) -> bool
        ensures value { result ≡ bits_equal self.now.list other.now.list }
        ensures lists { IsTrue result ↔ (self.now.list ≡ other.now.list) }
    {
        self.bits == other.bits
    }
}

impl<T: BitStore, O: BitOrder> Eq for Ranks<T, O> {
    ghost laws = { on_equiv list_in bits_equiv };
}

impl<T: BitStore, O: BitOrder> Index<usize> for Ranks<T, O> {
    ghost use Rattle.std.specs.Prelude.{◌≡◌, ◌<◌, Some, length, slice_get};

    type Output = bool;

    ghost can_index = { λ r i. i < length r.list };

    ghost index_gives = { λ r i bit. Some bit ≡ slice_get r.list i };

    /// The bit at `i`. Requires that `i` is below the length.
    fn index(&self, i: usize) -> &bool {
        if self.bits[i] { &true } else { &false }
    }
}

/// `[`, the digits of the list joined by `, `, and `]`. Flags and widths have no effect.
///
/// ```text
/// println!(rt; "{ranks}")    // [0, 1, 1]
/// ```
impl<T: BitStore, O: BitOrder> fmt::Display for Ranks<T, O> {
    ghost output = { λ r. Some (list_text r.list) };

    ghost styled_output = { λ r _. Some (list_text r.list) };

    fn fmt<W: fmt::Write>(&self, f: &mut fmt::Formatter<W>) -> fmt::Result {
        fmt::Display::fmt(&self.bits, f)
    }
}

/// `Ranks { ones: `, how many ones there are, ` } `, and the text of `Debug` of the box.
impl<T: BitStore, O: BitOrder> fmt::Debug for Ranks<T, O> {
    fn fmt<W: fmt::Write>(&self, f: &mut fmt::Formatter<W>) -> fmt::Result {
        let ones = self.count_ones();
        write!(f, "Ranks {{ ones: {ones} }} ")?;
        fmt::Debug::fmt(&self.bits, f)
    }
}

impl<T: BitStore, O: BitOrder> TryFrom<BitBox<T, O>> for Ranks<T, O> {
    ghost use Rattle.std.specs.Prelude.{◌≡◌, ◌≤◌, MatchResult, length};

    type Error = BitBox<T, O>;

    ghost try_from_gives = { λ bits r. MatchResult r (λ ranks. ranks ≡ bits)
        (λ back. (back ≡ bits) × (512 ≤ length bits.list)) };

    /// Like `Ranks::new`, with the allocator of the box.
    fn try_from(bits: BitBox<T, O>) -> Result<Self, BitBox<T, O>> {
        Ranks::new(bits.allocator(), bits)
    }
}

impl<T: BitStore, O: BitOrder> TryFrom<BitVec<T, O>> for Ranks<T, O> {
    ghost use Rattle.std.specs.Prelude.{◌≡◌, ◌≤◌, MatchResult, length};

    type Error = BitVec<T, O>;

    ghost try_from_gives = { λ bits r. MatchResult r
        (λ ranks. (ranks.words ≡ bits.words) × (ranks.row ≡ bits.row) × (ranks.head ≡ bits.head)
        × (ranks.list ≡ bits.list))
        (λ back. (back ≡ bits) × (512 ≤ length bits.list)) };

    /// Like `Ranks::from_vec`, with the allocator of the vector.
    fn try_from(bits: BitVec<T, O>) -> Result<Self, BitVec<T, O>> {
        Ranks::from_vec(bits.allocator(), bits)
    }
}

impl<T: BitStore, O: BitOrder> From<Ranks<T, O>> for BitBox<T, O> {
    ghost use Rattle.std.specs.Prelude.{◌≡◌};

    ghost from_gives = { λ ranks bits. bits ≡ ranks };

    /// Like `Ranks::into_bits`.
    fn from(ranks: Ranks<T, O>) -> BitBox<T, O> {
        ranks.into_bits()
    }
}
