//! Orders that a user could write.
ghost use Rattle.std.specs.Prelude.{◌+◌, ◌*◌, ◌%◌, bit_xor, refl};
ghost use Rattle.bit_addressing.specs.Order.{lawful_by_test};

use bit_addressing::{BitIdx, BitOrder, BitPos, BitStore};

// The order whose halves of each byte change places.
pub(crate) struct Xor4;

impl BitOrder for Xor4 {
    ghost place = { λ w i. bit_xor i 4 };

    ghost lawful = { lawful_by_test (λ w i. bit_xor i 4) refl refl refl refl };

    fn at<T: BitStore>(i: BitIdx<T>) -> BitPos<T> {
        BitPos::new_unchecked(i.into_inner() ^ 4)
    }
}

/// The order whose neighbours lie five places apart.
pub(crate) struct Scramble;

impl BitOrder for Scramble {
    ghost place = { λ w i. (5 * i + 3) % w };

    ghost lawful = { lawful_by_test (λ w i. (5 * i + 3) % w) refl refl refl refl };

    fn at<T: BitStore>(i: BitIdx<T>) -> BitPos<T> {
        BitPos::new_unchecked(((5 * i.into_inner() as u16 + 3) % T::BITS as u16) as u8)
    }
}
