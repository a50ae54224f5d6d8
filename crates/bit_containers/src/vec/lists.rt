//! The vector as a list of bits.
ghost use Rattle.std.specs.Prelude.{length, refl};
ghost use Rattle.bit_slice.specs.Held.{with_words};
ghost use Rattle.bit_slice.proofs.Kept.{kept_words, kept_row, kept_list, kept_len, kept_count};

use crate::vec::BitVec;
use bit_addressing::{BitOrder, BitStore};
use bit_slice::{BitList, BitListMut, BitSlice};

impl<T: BitStore, O: BitOrder> BitList for BitVec<T, O> {
    type Store = T;

    type Order = O;

    ghost head = { λ v. v.head };

    ghost len = { λ v. length v.list };

    ghost list = { λ v. v.list };

    ghost words = { λ v. v.words };

    ghost bits = { λ v. v.row };

    fn as_bitslice(&self) -> BitSlice<'_, T, O> {
        // Proof only: the row is that of the words, and how many they are.
        let _words = BitVec::as_raw_slice(self);
        BitVec::as_bitslice(self)
    }
}

impl<T: BitStore, O: BitOrder> BitListMut for BitVec<T, O> {
    ghost count = { λ v. length v.words };

    ghost capacity = { λ v. v.capacity };

    ghost loan = { λ _. 0 };

    ghost rewritten = { λ v ws. with_words T.BitStore O.BitOrder v ws };

    fn as_raw_mut_slice(&mut self) -> &mut [T] {
        BitVec::as_raw_mut_slice(self)
    }

    ghost words_rewritten = { λ v ws e. kept_words T.value O.place T.BITS v.words v.head v.list ws e };

    ghost bits_rewritten = { λ v ws e. kept_row T.value O.place T.BITS v.words v.head v.list ws e };

    ghost list_rewritten = { λ v ws e f. kept_list T.value O.place T.BITS v.words v.head v.list ws e f };

    ghost stays_rewritten = { λ v ws. record {
      head = refl;
      len = kept_len T.value O.place T.BITS v.words v.head v.list ws;
      size = kept_count T.value O.place T.BITS v.words v.head v.list ws;
      capacity = refl;
      same_words = refl;
    } };
}
