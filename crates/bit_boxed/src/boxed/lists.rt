//! The box as a list of bits.
ghost use Rattle.std.specs.Prelude.{length, refl};
ghost use Rattle.bit_slice.specs.Held.{with_words};
ghost use Rattle.bit_slice.proofs.Kept.{kept_words, kept_row, kept_list, kept_len, kept_count};

use crate::boxed::BitBox;
use bit_addressing::{BitOrder, BitStore};
use bit_slice::{BitList, BitListMut, BitSlice};

impl<T: BitStore, O: BitOrder> BitList for BitBox<T, O> {
    type Store = T;

    type Order = O;

    ghost head = { λ b. b.head };

    ghost len = { λ b. length b.list };

    ghost list = { λ b. b.list };

    ghost words = { λ b. b.words };

    ghost bits = { λ b. b.row };

    fn as_bitslice(&self) -> BitSlice<'_, T, O> {
        // Proof only: the row is that of the words.
        let _words = BitBox::as_raw_slice(self);
        BitBox::as_bitslice(self)
    }
}

impl<T: BitStore, O: BitOrder> BitListMut for BitBox<T, O> {
    ghost count = { λ b. length b.words };

    ghost capacity = { λ b. b.capacity };

    ghost loan = { λ _. 0 };

    ghost rewritten = { λ b ws. with_words T.BitStore O.BitOrder b ws };

    fn as_raw_mut_slice(&mut self) -> &mut [T] {
        BitBox::as_raw_mut_slice(self)
    }

    ghost words_rewritten = { λ b ws e. kept_words T.value O.place T.BITS b.words b.head b.list ws e };

    ghost bits_rewritten = { λ b ws e. kept_row T.value O.place T.BITS b.words b.head b.list ws e };

    ghost list_rewritten = { λ b ws e f. kept_list T.value O.place T.BITS b.words b.head b.list ws e f };

    ghost stays_rewritten = { λ b ws. record {
      head = refl;
      len = kept_len T.value O.place T.BITS b.words b.head b.list ws;
      size = kept_count T.value O.place T.BITS b.words b.head b.list ws;
      capacity = refl;
      same_words = refl;
    } };
}
