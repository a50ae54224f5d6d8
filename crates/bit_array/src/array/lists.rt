//! The array as a list of bits.
ghost use Rattle.std.specs.Prelude.{◌*◌, refl};
ghost use Rattle.bit_addressing.specs.Typed.{row};
ghost use Rattle.bit_array.specs.Lists.{whole_shown};

use crate::array::BitArray;
use crate::sized::{BitViewSized, BitWords};
use bit_addressing::BitOrder;
use bit_slice::{BitList, BitListMut, BitSlice};

impl<A: BitWords, O: BitOrder> BitList for BitArray<A, O> {
    type Store = A::Store;

    type Order = O;

    ghost head = { λ _. 0 };

    ghost len = { λ _. A.Store.BITS * A.count };

    ghost list = { λ a. row A.Store.BitStore O.BitOrder (A.words a) };

    ghost words = { λ a. A.words a };

    ghost bits = { λ a. row A.Store.BitStore O.BitOrder (A.words a) };

    fn as_bitslice(&self) -> BitSlice<'_, A::Store, O> {
        let _len = BitArray::len(self);
        BitArray::as_bitslice(self)
    }
}

impl<A: BitViewSized, O: BitOrder> BitListMut for BitArray<A, O> {
    ghost count = { λ _. A.count };

    ghost capacity = { λ _. A.Store.BITS * A.count };

    ghost loan = { λ _. 0 };

    ghost rewritten = { λ a ws. A.refilled a ws };

    fn as_raw_mut_slice(&mut self) -> &mut [A::Store] {
        BitArray::as_raw_mut_slice(self)
    }

    ghost words_rewritten = { λ a ws e. A.kept a ws e };

    ghost bits_rewritten = { λ a ws e. Prim.rw (A.kept a ws e) refl };

    ghost list_rewritten = { λ a ws e _. Prim.rw (A.kept a ws e)
        (whole_shown A.Store.value O.place A.Store.BITS ws A.count e) };

    ghost stays_rewritten = { λ a ws. record {
      head = refl;
      len = refl;
      size = refl;
      capacity = refl;
      same_words = refl;
    } };
}
