//! The list as a list of bits.
ghost use Rattle.std.specs.Prelude.{◌+◌, ◌*◌, length, refl, slice_range};
ghost use Rattle.bit_addressing.specs.Typed.{row};
ghost use Rattle.bit_small.specs.SmallBits.{front};

use crate::small::SmallBits;
use bit_addressing::BitOrder;
use bit_array::{BitViewSized, BitWords};
use bit_slice::{BitList, BitListMut, BitSlice};

impl<A: BitWords, O: BitOrder> BitList for SmallBits<A, O> {
    type Store = A::Store;

    type Order = O;

    ghost head = { λ _. 0 };

    ghost len = { λ s. s.len };

    ghost list = { λ s. front (row A.Store.BitStore O.BitOrder (A.words s.array)) s.len };

    ghost words = { λ s. A.words s.array };

    ghost bits = { λ s. row A.Store.BitStore O.BitOrder (A.words s.array) };

    fn as_bitslice(&self) -> BitSlice<'_, A::Store, O> {
        let _len = self.array.len();
        self.array.get_range(..self.len)
    }
}

impl<A: BitViewSized, O: BitOrder> BitListMut for SmallBits<A, O> {
    ghost count = { λ _. A.count };

    ghost capacity = { λ _. A.Store.BITS * A.count };

    ghost loan = { λ _. 0 };

    ghost rewritten = { λ s ws. record { array = A.refilled s.array ws; len = s.len } };

    fn as_raw_mut_slice(&mut self) -> &mut [A::Store] {
        self.array.as_raw_mut_slice()
    }

    ghost words_rewritten = { λ s ws e. A.kept s.array ws e };

    ghost bits_rewritten = { λ s ws e. Prim.rw (A.kept s.array ws e) refl };

    ghost list_rewritten = { λ s ws e _. Prim.rw (A.kept s.array ws e) refl };

    ghost stays_rewritten = { λ s ws. record {
      head = refl;
      len = refl;
      size = refl;
      capacity = refl;
      same_words = refl;
    } };
}
