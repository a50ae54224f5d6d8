//! The array, what makes one, and what gives back its words.
ghost use Rattle.std.specs.Prelude.{◌≡◌, ℕ, ◌*◌, ◌≤◌, ◌↔◌, false, length, replicate, IsTrue};
ghost use Rattle.bit_addressing.specs.declared.length.TheConstants.{MAX_BITS};
ghost use Rattle.bit_addressing.specs.Typed.{row, words_for_list};

use crate::sized::{BitViewSized, BitWords};
use bit_addressing::{BitOrder, BitStore, Lsb0, MAX_BITS};
use bit_rows::prove_exact_words;
use std::marker::{Model, PhantomData};

mod assign;
mod iter;
mod lists;
mod making;
mod ops;
mod slice;
mod traits;
mod views;

pub use iter::IntoIter;

/// A fixed number of truth values, one bit each, in the words of `A`, in the order `O` of the bits in a word.
///
/// `A` is a word or an array of words. All bits of the words are the array's, from head 0 on. Nothing takes
/// memory.
///
/// In contracts an array is the `A` that it was made of: its words are `A.words a`, and its list of bits is
/// their row, `row A.Store.BitStore O.BitOrder (A.words a)`.
///
/// ```rust
/// use bit_addressing::Msb0;
/// use bit_array::BitArray;
/// use bit_slice::{BitList, BitListMut};
///
/// let mut flags = BitArray::<[u8; 2], Msb0>::new([0x80, 0x01]);
/// flags.set(1, true);
/// println!(&rt; "{} bits, {} of them set, the first two {}", flags.len(), flags.count_ones(), flags.get_range(..2))?;
/// println!(&rt; "in words {:?}", flags.into_inner())?;
/// ```
///
/// ```text
/// 16 bits, 3 of them set, the first two [1, 1]
/// in words [192, 1]
/// ```
pub struct BitArray<A: BitWords = [usize; 1], O: BitOrder = Lsb0> {
    inner: A,
    order: PhantomData<O>,
}

impl<A: BitWords, O: BitOrder> Model for BitArray<A, O> {
    ghost use Rattle.std.specs.Prelude.{◌*◌, ◌≤◌};
    ghost use Rattle.bit_addressing.specs.declared.length.TheConstants.{MAX_BITS};

    ghost Value = { A };

    ghost coded = { A.code };

    ghost view = { λ a. a.inner };

    ghost invariant = { λ a. A.Store.BITS * A.count ≤ MAX_BITS };

    ghost inverse = { λ inner. record { inner = inner; order = record {} } };
}

impl<A: BitWords, O: BitOrder> Copy for BitArray<A, O> {}

impl<A: BitWords, O: BitOrder> BitArray<A, O> {
    /// Whether the words have at most `MAX_BITS` bits, which `zero` and `new` require.
    ///
    /// ```text
    /// BitArray::<[u8; 2], Lsb0>::fits() == true
    /// ```
    pub fn fits() -> bool
        ensures { IsTrue result ↔ (A.Store.BITS * A.count ≤ MAX_BITS) }
    {
        A::count() <= MAX_BITS / A::Store::BITS as usize
    }

    /// All bits false. Requires that they are at most `MAX_BITS`, as `fits` tests.
    ///
    /// ```text
    /// BitArray::<u8, Lsb0>::zero() holds 00000000
    /// ```
    pub fn zero() -> Self
        requires { A.Store.BITS * A.count ≤ MAX_BITS }
        ensures words { A.words result ≡ replicate A.count A.Store.ZERO }
        ensures list { row A.Store.BitStore O.BitOrder (A.words result) ≡ replicate (A.Store.BITS * A.count) false }
        ensures len { length (row A.Store.BitStore O.BitOrder (A.words result)) ≡ A.Store.BITS * A.count }
    {
        BitArray {
            inner: A::zero(),
            order: PhantomData,
        }
    }

    /// The bits of these words, which are kept as they are. Requires that they are at most `MAX_BITS`, as
    /// `fits` tests.
    ///
    /// ```text
    /// BitArray::<u8, Lsb0>::new(3) holds 11000000
    /// ```
    #[tactic(auto, using(bit_slice::proofs::Parts::row_size))]
    pub fn new(inner: A) -> Self
        requires { A.Store.BITS * A.count ≤ MAX_BITS }
        ensures value { result ≡ inner }
        ensures len { length (row A.Store.BitStore O.BitOrder (A.words result)) ≡ A.Store.BITS * A.count }
    {
        prove_exact_words::<A::Store, O>(inner.as_raw_slice());
        BitArray {
            inner,
            order: PhantomData,
        }
    }

    /// The words, as they are.
    ///
    /// ```text
    /// of 01101001: bits.into_inner() == 150
    /// ```
    pub fn into_inner(self) -> A
        ensures value { result ≡ self }
        ensures words { A.words result
            ≡ words_for_list A.Store.BitStore O.BitOrder (row A.Store.BitStore O.BitOrder (A.words self)) }
    {
        self.as_raw_slice();
        self.inner
    }

    // The same array.
    pub(crate) fn copied(&self) -> Self
        ensures { result ≡ self.now }
    {
        BitArray {
            inner: self.inner,
            order: PhantomData,
        }
    }
}
