//! Indices, ends and places of bits in a word.
ghost use Rattle.std.specs.Prelude.{◌≡◌, ℕ, ◌<◌, ◌≤◌, MatchOption};
ghost use Rattle.std.specs.Ordering.{nat_cmp};

use crate::store::BitStore;
use std::cmp::Ordering;
use std::marker::{Model, PhantomData};

/// The index of a bit in a word of type `T`: below `T::BITS`.
///
/// An order maps each index to a place.
#[derive(Drop, Clone, Copy)]
#[derive_where(PartialEq, Eq, PartialOrd, Ord)]
pub struct BitIdx<T: BitStore> {
    index: u8,
    #[derive_where(skip)]
    of: PhantomData<T>,
}

impl<T: BitStore> Model for BitIdx<T> {
    ghost Value = { ℕ };

    ghost view = { λ i. i.index };

    ghost invariant = { λ i. i.index < T.BITS };

    ghost inverse = { λ n. record { index = n; of = record {} } };
}

impl<T: BitStore> BitIdx<T> {
    /// The index `n`. None exactly where `n` is `T::BITS` or more.
    pub fn new(n: u8) -> Option<Self>
        ensures { MatchOption result (T.BITS ≤ n) (λ i. (i ≡ n) × (n < T.BITS)) }
    {
        if n < T::BITS {
            Some(BitIdx {
                index: n,
                of: PhantomData,
            })
        } else {
            None
        }
    }

    /// The index `n`, without a test. Requires that `n` is below `T::BITS`.
    pub fn new_unchecked(n: u8) -> Self
        requires { n < T.BITS }
        ensures { result ≡ n }
    {
        BitIdx {
            index: n,
            of: PhantomData,
        }
    }

    /// The index as a number.
    pub fn into_inner(self) -> u8
        ensures value { result ≡ self }
        ensures range { result < T.BITS }
    {
        self.index
    }

    /// Like `cmp`: compares the two as numbers.
    pub fn order(self, other: Self) -> Ordering
        ensures { result ≡ nat_cmp self other }
    {
        self.cmp(&other)
    }
}

/// The end of a run of indices in a word of type `T`: at most `T::BITS`.
#[derive(Drop, Clone, Copy)]
#[derive_where(PartialEq, Eq, PartialOrd, Ord)]
pub struct BitEnd<T: BitStore> {
    end: u8,
    #[derive_where(skip)]
    of: PhantomData<T>,
}

impl<T: BitStore> Model for BitEnd<T> {
    ghost Value = { ℕ };

    ghost view = { λ e. e.end };

    ghost invariant = { λ e. e.end ≤ T.BITS };

    ghost inverse = { λ n. record { end = n; of = record {} } };
}

impl<T: BitStore> BitEnd<T> {
    /// The end `n`. None exactly where `n` is more than `T::BITS`.
    pub fn new(n: u8) -> Option<Self>
        ensures { MatchOption result (T.BITS < n) (λ e. (e ≡ n) × (n ≤ T.BITS)) }
    {
        if n <= T::BITS {
            Some(BitEnd {
                end: n,
                of: PhantomData,
            })
        } else {
            None
        }
    }

    /// The end `n`, without a test. Requires that `n` is at most `T::BITS`.
    pub fn new_unchecked(n: u8) -> Self
        requires { n ≤ T.BITS }
        ensures { result ≡ n }
    {
        BitEnd {
            end: n,
            of: PhantomData,
        }
    }

    /// The end as a number.
    pub fn into_inner(self) -> u8
        ensures value { result ≡ self }
        ensures range { result ≤ T.BITS }
    {
        self.end
    }

    /// Like `cmp`: compares the two as numbers.
    pub fn order(self, other: Self) -> Ordering
        ensures { result ≡ nat_cmp self other }
    {
        self.cmp(&other)
    }
}

/// The place of a bit in a word of type `T`: below `T::BITS`, counted from the least significant bit.
#[derive(Drop, Clone, Copy)]
#[derive_where(PartialEq, Eq, PartialOrd, Ord)]
pub struct BitPos<T: BitStore> {
    place: u8,
    #[derive_where(skip)]
    of: PhantomData<T>,
}

impl<T: BitStore> Model for BitPos<T> {
    ghost Value = { ℕ };

    ghost view = { λ p. p.place };

    ghost invariant = { λ p. p.place < T.BITS };

    ghost inverse = { λ n. record { place = n; of = record {} } };
}

impl<T: BitStore> BitPos<T> {
    /// The place `n`. None exactly where `n` is `T::BITS` or more.
    pub fn new(n: u8) -> Option<Self>
        ensures { MatchOption result (T.BITS ≤ n) (λ p. (p ≡ n) × (n < T.BITS)) }
    {
        if n < T::BITS {
            Some(BitPos {
                place: n,
                of: PhantomData,
            })
        } else {
            None
        }
    }

    /// The place `n`, without a test. Requires that `n` is below `T::BITS`.
    pub fn new_unchecked(n: u8) -> Self
        requires { n < T.BITS }
        ensures { result ≡ n }
    {
        BitPos {
            place: n,
            of: PhantomData,
        }
    }

    /// The place as a number.
    pub fn into_inner(self) -> u8
        ensures value { result ≡ self }
        ensures range { result < T.BITS }
    {
        self.place
    }

    /// Like `cmp`: compares the two as numbers.
    pub fn order(self, other: Self) -> Ordering
        ensures { result ≡ nat_cmp self other }
    {
        self.cmp(&other)
    }
}
