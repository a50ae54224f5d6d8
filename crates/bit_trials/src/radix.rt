//! Containers in a radix, as text.
use std::fmt;

// How bits are written in a radix.
#[derive(Drop)]
pub(crate) enum Radix {
    Binary,
    Octal,
    LowerHex,
    UpperHex,
}

// A container, in a radix.
#[derive(Drop)]
pub(crate) struct In<'a, D>(pub(crate) &'a D, pub(crate) Radix);

impl<D: fmt::Binary + fmt::Octal + fmt::LowerHex + fmt::UpperHex> fmt::Display for In<'_, D> {
    fn fmt<W: fmt::Write>(&self, f: &mut fmt::Formatter<W>) -> fmt::Result {
        match self.1 {
            Radix::Binary => fmt::Binary::fmt(self.0, f),
            Radix::Octal => fmt::Octal::fmt(self.0, f),
            Radix::LowerHex => fmt::LowerHex::fmt(self.0, f),
            Radix::UpperHex => fmt::UpperHex::fmt(self.0, f),
        }
    }
}
