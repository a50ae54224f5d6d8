//! Words seen as bits.
ghost use Rattle.std.specs.Prelude.{◌≡◌, ◌*◌, ◌≤◌, List, length};
ghost use Rattle.std.specs.Borrow.{GName};
ghost use Rattle.bit_addressing.specs.Typed.{row as row_of};
ghost use Rattle.bit_addressing.specs.declared.length.TheConstants.{MAX_BITS};
ghost use Rattle.bit_slice.specs.BitSlice.{words_of, head_of, len_of, list_of};
ghost use Rattle.bit_slice.specs.BitSliceMut.{words_of as words_lent, head_of as head_lent, len_of as len_lent, list_of as list_lent, loan_of};

use crate::slice::BitSlice;
use crate::slice_mut::BitSliceMut;
use bit_addressing::{BitOrder, BitStore};

/// Borrowed words that are seen as bits, for reading: a slice of words.
///
/// ```text
/// bytes.view_bits::<Msb0>().count_ones()
/// ```
pub trait ViewBits<'a>: Sized {
    /// The type of the words.
    type Store: BitStore;

    // The words.
    ghost words: { Self → List Self.Store };

    /// The words, as a slice.
    fn into_words(self) -> &'a [Self::Store]
        ensures { result.now ≡ words self };

    /// All bits of the words, in the order `O`: as `BitSlice::from_slice`. Requires that they are at most `MAX_BITS`
    /// bits.
    ///
    /// ```text
    /// of the slice [6_u8]: words.view_bits::<Lsb0>() shows 01100000
    /// ```
    final fn view_bits<O: BitOrder>(self) -> BitSlice<'a, Self::Store, O>
        requires { Self.Store.BITS * length (Self.words self) ≤ MAX_BITS }
        ensures words { words_of result ≡ Self.words self }
        ensures head { head_of result ≡ 0 }
        ensures len { len_of result ≡ Self.Store.BITS * length (Self.words self) }
        ensures list { list_of result ≡ row_of Self.Store.BitStore O.BitOrder (Self.words self) }
    {
        BitSlice::from_slice(self.into_words())
    }
}

impl<'a, T: BitStore> ViewBits<'a> for &'a [T] {
    type Store = T;

    ghost words = { λ ws. ws.now };

    fn into_words(self) -> &'a [T] {
        self
    }
}

/// Borrowed words that are seen as bits, for writing: a slice of words.
///
/// ```text
/// words.view_bits_mut::<Lsb0>().fill(true)
/// ```
pub trait ViewBitsMut<'a>: Sized {
    /// The type of the words.
    type Store: BitStore;

    // The words.
    ghost words: { Self → List Self.Store };

    // The loan of the words: what is written through the view lands in those that were lent under this name.
    ghost loan: { Self → GName };

    /// The words, as a slice for writing.
    fn into_words_mut(self) -> &'a mut [Self::Store]
        ensures value { result.now ≡ words self }
        ensures same_words { result.ghost_name ≡ loan self };

    /// All bits of the words, in the order `O`: as `BitSliceMut::from_slice_mut`. What is written lands in the words.
    /// Requires that they are at most `MAX_BITS` bits.
    ///
    /// ```text
    /// of the slice [6_u8]: words.view_bits_mut::<Lsb0>().set(0, true) leaves [7]
    /// ```
    final fn view_bits_mut<O: BitOrder>(self) -> BitSliceMut<'a, Self::Store, O>
        requires { Self.Store.BITS * length (Self.words self) ≤ MAX_BITS }
        ensures same_words { loan_of result ≡ Self.loan self }
        ensures words { words_lent result ≡ Self.words self }
        ensures head { head_lent result ≡ 0 }
        ensures len { len_lent result ≡ Self.Store.BITS * length (Self.words self) }
        ensures list { list_lent result ≡ row_of Self.Store.BitStore O.BitOrder (Self.words self) }
    {
        BitSliceMut::from_slice_mut(self.into_words_mut())
    }
}

impl<'a, T: BitStore> ViewBitsMut<'a> for &'a mut [T] {
    type Store = T;

    ghost words = { λ ws. ws.now };

    ghost loan = { λ ws. ws.ghost_name };

    fn into_words_mut(self) -> &'a mut [T] {
        self
    }
}
