//! Values that are written as bits and read back.
ghost use Rattle.std.specs.Prelude.{◌≡◌, ℕ, ℤ, ◌+◌, ◌^◌, ◌<◌, ◌≤◌, ◌++◌, [], ◌∷◌, All, Bool, List, IfSome, None, OnOk, Some, ⊤, false, true, length};
ghost use Rattle.bit_addressing.specs.Row.{binary};
ghost use Rattle.bit_streams.specs.Fields.{OptionFits, items_bits, option_bits};
ghost use Rattle.bit_streams.specs.Streams.{MayRefuse};
ghost use Rattle.bit_slice.specs.Signed.{IsSigned, signed_binary};

use crate::items::write_items;
use crate::reader::BitReader;
use crate::writer::BitWriter;
use bit_addressing::{BitOrder, BitStore, GrowError};

/// Values that are written as bits, and read back from them.
///
/// The clauses `back` and `whole` of `read` are the round trip: where the bits of a value come first, that value is read,
/// and the bits after it are left. So no two values have bits of which one begins the other. The round trip of a pair
/// follows from those of its fields, and that of a record from pairs of its fields, or from a function that reads them.
///
/// ```text
/// (Number::<3> { value: 5 }, true).write(&mut writer)?;      // appends 1011
/// <(Number<3>, bool)>::read(&mut reader)                     // Some of the same
/// ```
pub trait Fields: Sized {
    /// Which values can be written.
    ghost fits: { Self → Type 0 };

    /// The bits of a value.
    ghost bits_of: { Self → List Bool };

    /// Appends the bits of the value. A refusal keeps what was written before: as `TooLong` only where the list would pass
    /// `MAX_BITS`, as `OutOfMemory` only where it would pass the capacity. Requires that the value can be written.
    fn write<T: BitStore, O: BitOrder>(&self, writer: &mut BitWriter<T, O>) -> Result<(), GrowError>
        requires { fits self.now }
        ensures list { OnOk result (writer.new.list ≡ writer.old.list ++ bits_of self.now) }
        ensures refusal { MayRefuse result (bits_of self.now) writer.old writer.new }
        ensures capacity { writer.old.capacity ≤ writer.new.capacity };

    /// Reads a value. None exactly where the bits of no value come first, and then the reader stays where it is.
    fn read<T: BitStore, O: BitOrder>(reader: &mut BitReader<'_, T, O>) -> Option<Self>
        ensures found { IfSome result (λ x. reader.old.rest ≡ bits_of x ++ reader.new.rest) }
        ensures fitting { IfSome result fits }
        ensures kept { result ≡ None → reader.new ≡ reader.old }
        ensures back { (x : Self) → (more : List Bool) → fits x → reader.old.rest ≡ bits_of x ++ more
            → (result ≡ Some x) × (reader.new.rest ≡ more) }
        ensures whole { (x : Self) → fits x → reader.old.rest ≡ bits_of x
            → (result ≡ Some x) × (reader.new.rest ≡ []) };
}

/// One bit.
impl Fields for bool {
    ghost fits = { λ _. ⊤ };

    ghost bits_of = { λ bit. bit ∷ [] };

    fn write<T: BitStore, O: BitOrder>(
        &self,
        writer: &mut BitWriter<T, O>,
    ) -> Result<(), GrowError> {
        writer.write_bit(*self)
    }

    fn read<T: BitStore, O: BitOrder>(reader: &mut BitReader<'_, T, O>) -> Option<bool> {
        reader.read_bit()
    }
}

/// A number of `N` binary digits, at most 64, the most significant first.
#[derive(Clone, Copy, Drop, PartialEq, Eq, Debug)]
pub struct Number<const N: u8> {
    /// Below 2 to the power `N`.
    pub value: u64,
}

impl<const N: u8> Fields for Number<N> {
    ghost fits = { λ x. (N ≤ 64) × (x.value < 2 ^ N) };

    ghost bits_of = { λ x. binary N x.value };

    fn write<T: BitStore, O: BitOrder>(
        &self,
        writer: &mut BitWriter<T, O>,
    ) -> Result<(), GrowError> {
        writer.write(N, self.value)
    }

    fn read<T: BitStore, O: BitOrder>(reader: &mut BitReader<'_, T, O>) -> Option<Self> {
        if N > 64 {
            return None;
        }
        match reader.read(N) {
            None => None,
            Some(value) => Some(Number { value }),
        }
    }
}

/// A signed number of `N` digits in two's complement, 1 to 64, the most significant first.
#[derive(Clone, Copy, Drop, PartialEq, Eq, Debug)]
pub struct Signed<const N: u8> {
    /// From -2 to the power `N - 1` on, and below 2 to that power.
    pub value: i64,
}

impl<const N: u8> Fields for Signed<N> {
    ghost fits = { λ x. (0 < N) × (N ≤ 64) × IsSigned N x.value };

    ghost bits_of = { λ x. signed_binary N x.value };

    fn write<T: BitStore, O: BitOrder>(
        &self,
        writer: &mut BitWriter<T, O>,
    ) -> Result<(), GrowError> {
        writer.write_signed(N, self.value)
    }

    fn read<T: BitStore, O: BitOrder>(reader: &mut BitReader<'_, T, O>) -> Option<Self> {
        if N == 0 || N > 64 {
            return None;
        }
        match reader.read_signed(N) {
            None => None,
            Some(value) => Some(Signed { value }),
        }
    }
}

/// The first field, and then the second.
impl<A: Fields + Drop, B: Fields + Drop> Fields for (A, B) {
    ghost fits = { λ p. A.fits p.0 × B.fits p.1 };

    ghost bits_of = { λ p. A.bits_of p.0 ++ B.bits_of p.1 };

    fn write<T: BitStore, O: BitOrder>(
        &self,
        writer: &mut BitWriter<T, O>,
    ) -> Result<(), GrowError> {
        let before = writer.len();
        self.0.write(writer)?;
        match self.1.write(writer) {
            Ok(()) => Ok(()),
            Err(why) => {
                writer.truncate(before);
                Err(why)
            }
        }
    }

    fn read<T: BitStore, O: BitOrder>(reader: &mut BitReader<'_, T, O>) -> Option<Self> {
        let before = reader.copied();
        match A::read(reader) {
            None => None,
            Some(a) => match B::read(reader) {
                None => {
                    *reader = before;
                    None
                }
                Some(b) => Some((a, b)),
            },
        }
    }
}

/// A bit that says whether there is a value, and the value.
impl<V: Fields + Drop> Fields for Option<V> {
    ghost fits = { OptionFits V.fits };

    ghost bits_of = { option_bits V.bits_of };

    fn write<T: BitStore, O: BitOrder>(
        &self,
        writer: &mut BitWriter<T, O>,
    ) -> Result<(), GrowError> {
        let before = writer.len();
        writer.write_bit(self.is_some())?;
        match self {
            None => Ok(()),
            Some(value) => match value.write(writer) {
                Ok(()) => Ok(()),
                Err(why) => {
                    writer.truncate(before);
                    Err(why)
                }
            },
        }
    }

    fn read<T: BitStore, O: BitOrder>(reader: &mut BitReader<'_, T, O>) -> Option<Self> {
        let before = reader.copied();
        match reader.read_bit() {
            None => None,
            Some(false) => Some(None),
            Some(true) => match V::read(reader) {
                None => {
                    *reader = before;
                    None
                }
                Some(value) => Some(Some(value)),
            },
        }
    }
}

/// Fields of one kind, at least one, one after another.
impl<F: Fields + Copy + Drop, const N: usize> Fields for [F; N] {
    ghost fits = { λ xs. (0 < N) × (length xs ≡ N) × All F.fits xs };

    ghost bits_of = { λ xs. items_bits F.bits_of xs };

    fn write<T: BitStore, O: BitOrder>(
        &self,
        writer: &mut BitWriter<T, O>,
    ) -> Result<(), GrowError> {
        write_items(self.as_slice(), writer)
    }

    fn read<T: BitStore, O: BitOrder>(reader: &mut BitReader<'_, T, O>) -> Option<[F; N]> {
        if N == 0 {
            return None;
        }
        let before = reader.copied();
        let mut all = match F::read(reader) {
            None => return None,
            Some(first) => [first; N],
        };
        for i in 1..N {
            match F::read(reader) {
                None => {
                    *reader = before;
                    return None;
                }
                Some(next) => all[i] = next,
            }
        }
        Some(all)
    }
}
