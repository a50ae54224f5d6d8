//! The impls of std's traits for the list.
ghost use Rattle.std.specs.Prelude.{◌≡◌, ◌↔◌, IsTrue, Some, map};
ghost use Rattle.std.specs.Cmp.{on_equiv, on_per, partial_equiv_from_equiv};
ghost use Rattle.bit_addressing.specs.Row.{row_of};
ghost use Rattle.bit_addressing.specs.Text.{list_text};
ghost use Rattle.bit_addressing.specs.Typed.{row};
ghost use Rattle.bit_slice.specs.Comparisons.{bits_equal, bits_equiv};
ghost use Rattle.bit_small.specs.SmallBits.{front};

use crate::small::SmallBits;
use bit_addressing::BitOrder;
use bit_array::BitWords;
use bit_slice::BitList;
use bit_slice::inner::write_list;
use std::alloc::AllocError;
use std::fmt;

impl<A: BitWords, O: BitOrder> Clone for SmallBits<A, O> {
    ghost use Rattle.std.specs.Prelude.{◌≡◌, ⊤};

    ghost is_clone = { λ a b. b ≡ a };

    ghost is_infallible = { λ _. ⊤ };

    /// The same list. Takes no memory.
    fn clone(&self) -> Result<Self, AllocError> {
        Ok(SmallBits {
            array: self.array.clone()?,
            len: self.len,
        })
    }
}

impl<A: BitWords, O: BitOrder> PartialEq for SmallBits<A, O> {
    ghost eq = { λ a b. bits_equal (front (row A.Store.BitStore O.BitOrder (A.words a.array)) a.len)
        (front (row A.Store.BitStore O.BitOrder (A.words b.array)) b.len) };

    ghost laws = { on_per (λ a. front (row_of O.place A.Store.BITS (map A.Store.value (A.words a.array))) a.len)
        (partial_equiv_from_equiv bits_equiv) };

    /// Whether both have the same bits.
    #[tactic(auto, using(bit_slice::specs::Comparisons::equal_lists, std::proofs::lemmas::Bool::Decides::same_from_decides))]
    fn eq(&self, other: &Self) -> bool
        ensures value { result
            ≡ bits_equal (front (row A.Store.BitStore O.BitOrder (A.words self.now.array)) self.now.len)
            (front (row A.Store.BitStore O.BitOrder (A.words other.now.array)) other.now.len) }
        ensures lists { IsTrue result
            ↔ (front (row A.Store.BitStore O.BitOrder (A.words self.now.array)) self.now.len
            ≡ front (row A.Store.BitStore O.BitOrder (A.words other.now.array)) other.now.len) }
    {
        if self.goes_by_blocks() {
            return self.has_blocks_of(other);
        }
        self.as_bitslice().eq_bits(other.as_bitslice())
    }
}

impl<A: BitWords, O: BitOrder> Eq for SmallBits<A, O> {
    ghost laws = { on_equiv (λ a. front (row_of O.place A.Store.BITS (map A.Store.value (A.words a.array))) a.len)
        bits_equiv };
}

/// `[`, the digits with `, ` between two, and `]`. Flags and widths have no effect.
impl<A: BitWords, O: BitOrder> fmt::Display for SmallBits<A, O> {
    ghost output = { λ s. Some (list_text (front (row A.Store.BitStore O.BitOrder (A.words s.array)) s.len)) };

    ghost styled_output = { λ s _. Some (list_text (front (row A.Store.BitStore O.BitOrder (A.words s.array)) s.len)) };

    fn fmt<W: fmt::Write>(&self, f: &mut fmt::Formatter<W>) -> fmt::Result {
        write_list(self.as_bitslice(), f)
    }
}

/// `SmallBits { bits: `, the length, ` } `, and the text of `Display`.
impl<A: BitWords, O: BitOrder> fmt::Debug for SmallBits<A, O> {
    fn fmt<W: fmt::Write>(&self, f: &mut fmt::Formatter<W>) -> fmt::Result {
        let len = self.len;
        write!(f, "SmallBits {{ bits: {len} }} ")?;
        write_list(self.as_bitslice(), f)
    }
}
