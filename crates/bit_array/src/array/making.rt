//! The array made of truth values.
ghost use Rattle.std.specs.Prelude.{◌≡◌, ◌-◌, ◌*◌, ◌≤◌, ◌++◌, false, length, replicate};
ghost use Rattle.bit_addressing.specs.declared.length.TheConstants.{MAX_BITS};
ghost use Rattle.bit_addressing.specs.Typed.{row};

use crate::array::BitArray;
use crate::sized::{BitViewSized, BitWords};
use bit_addressing::BitOrder;

impl<A: BitViewSized, O: BitOrder> BitArray<A, O> {
    /// The array that begins with these bits, and whose other bits are false. Takes no memory. Requires that the
    /// array's bits are at most `MAX_BITS`, as `fits` tests, and that these are at most as many.
    ///
    /// ```text
    /// BitArray::<u8, Msb0>::from_bools(&[false, true, true]) holds 01100000
    /// ```
    pub fn from_bools(bits: &[bool]) -> Self
        requires few { A.Store.BITS * A.count ≤ MAX_BITS }
        requires room { length bits.now ≤ A.Store.BITS * A.count }
        ensures list { row A.Store.BitStore O.BitOrder (A.words result)
            ≡ bits.now ++ replicate (A.Store.BITS * A.count - length bits.now) false }
        ensures len { length (row A.Store.BitStore O.BitOrder (A.words result)) ≡ A.Store.BITS * A.count }
    {
        let mut array = Self::zero();
        for i in 0..bits.len() {
            array.set(i, bits[i]);
        }
        array
    }
}
