//! The last index, and all indices, at which the bits of one view begin in another.
ghost use Rattle.std.specs.Prelude.{◌≡◌, ◌≢◌, ℕ, ◌+◌, ◌-◌, ◌<◌, ◌≤◌, IfNone, IfSome};
ghost use Rattle.bit_slice.specs.BitSlice.{len_of, list_of};
ghost use Rattle.bit_slice.specs.Pieces.{part};

use crate::lists::BitList;
use crate::slice::BitSlice;
use crate::texts::write_list;
use bit_addressing::{BitOrder, BitStore};
use std::alloc::AllocError;
use std::fmt;
use std::iter::{FusedIterator, Iterator};

/// The indices at which the bits of a pattern begin in a view, ascending, each once.
///
/// After the first None there is no more. It takes no memory.
#[derive(Drop)]
pub struct FindAll<'a, T: BitStore, O: BitOrder, U: BitStore, P: BitOrder> {
    view: BitSlice<'a, T, O>,
    pattern: BitSlice<'a, U, P>,
    // The first index that was not searched, or the length and one more.
    from: usize,
    ghost fits: { from ≤ len_of view + 1 },
}

impl<'a, T: BitStore, O: BitOrder> BitSlice<'a, T, O> {
    // The last of the indices `from..upto` at which the bits of `other` begin. Requires that they have room at each.
    fn find_last_between<U: BitStore, P: BitOrder>(
        self,
        from: usize,
        upto: usize,
        other: BitSlice<'_, U, P>,
    ) -> Option<usize>
        requires some { from < upto }
        requires inside { upto - 1 + len_of other ≤ len_of self }
        ensures begins { IfSome result (λ i. from ≤ i) }
        ensures ends { IfSome result (λ i. i < upto) }
        ensures found { IfSome result (λ i. part (len_of other.entry) (list_of self.entry) i ≡ list_of other.entry) }
        ensures after { IfSome result
            (λ i. (j : ℕ) → i < j → j < upto → part (len_of other.entry) (list_of self.entry) j ≢ list_of other.entry) }
        ensures none { IfNone result ((j : ℕ) → from ≤ j → j < upto
            → part (len_of other.entry) (list_of self.entry) j ≢ list_of other.entry) }
    {
        let end = upto - 1 + other.len;
        let mut last = None;
        let mut at = from;
        while at < upto {
            match self.get_range(at..end).find_part(other) {
                None => return last,
                Some(i) => {
                    last = Some(at + i);
                    at += i + 1;
                }
            }
        }
        last
    }

    // The last index at which the bits of `other` begin. Each step back searches as many indices as were searched, and
    // 128 more.
    pub(crate) fn find_last_part<U: BitStore, P: BitOrder>(
        self,
        other: BitSlice<'_, U, P>,
    ) -> Option<usize>
        ensures inside { IfSome result (λ i. i + len_of other.entry ≤ len_of self.entry) }
        ensures found { IfSome result (λ i. part (len_of other.entry) (list_of self.entry) i ≡ list_of other.entry) }
        ensures after { IfSome result (λ i. (j : ℕ) → i < j → j + len_of other.entry ≤ len_of self.entry
            → part (len_of other.entry) (list_of self.entry) j ≢ list_of other.entry) }
        ensures none { IfNone result ((j : ℕ) → j + len_of other.entry ≤ len_of self.entry
            → part (len_of other.entry) (list_of self.entry) j ≢ list_of other.entry) }
    {
        if other.len > self.len {
            return None;
        }
        let all = self.len - other.len + 1;
        let mut upto = all;
        while upto > 0 {
            let from = upto.saturating_sub(all - upto + 128);
            if let Some(i) = self.find_last_between(from, upto, other) {
                return Some(i);
            }
            upto = from;
        }
        None
    }
}

impl<'a, T: BitStore, O: BitOrder> BitSlice<'a, T, O> {
    ghost use Rattle.std.specs.Iterator.{YieldsFirst};
    ghost use Rattle.std.specs.Iterator.Runs.{YieldsInOrder};
    ghost use Rattle.bit_slice.specs.Patterns.{places_left, places_of_pattern};

    /// The indices at which the bits of `other` begin, ascending. They may lie closer than the length of `other`.
    ///
    /// ```text
    /// of 01110 and 11: bits.find_all(other) gives 1, 2
    /// ```
    pub fn find_all<U: BitStore, P: BitOrder>(
        self,
        other: BitSlice<'a, U, P>,
    ) -> FindAll<'a, T, O, U, P>
        ensures list { places_left result ≡ places_of_pattern (list_of other.entry) (list_of self.entry) }
        ensures runs { YieldsInOrder
            (YieldsFirst (places_left {X = T} {Y = O} {Z = U} {V = P} {W = T.BitStore} {P = O.BitOrder} {U = U.BitStore} {Q = P.BitOrder})) places_left }
    {
        FindAll {
            view: self,
            pattern: other,
            from: 0,
        }
    }
}

impl<'a, T: BitStore, O: BitOrder, U: BitStore, P: BitOrder> Iterator for FindAll<'a, T, O, U, P> {
    ghost use Rattle.std.specs.Iterator.{YieldsFirst, item_count};
    ghost use Rattle.bit_slice.specs.Patterns.{places_left};

    type Item = usize;

    ghost next_gives = { YieldsFirst places_left };

    ghost remaining = { item_count places_left };

    /// The next index. None exactly where none is left.
    fn next(&mut self) -> Option<usize> {
        match self.view.find_from(self.from, self.pattern) {
            None => {
                self.from = self.view.len + 1;
                None
            }
            Some(i) => {
                self.from = i + 1;
                Some(i)
            }
        }
    }
}

impl<'a, T: BitStore, O: BitOrder, U: BitStore, P: BitOrder> FusedIterator
    for FindAll<'a, T, O, U, P> {}

impl<'a, T: BitStore, O: BitOrder, U: BitStore, P: BitOrder> Clone for FindAll<'a, T, O, U, P> {
    ghost use Rattle.std.specs.Prelude.{◌≡◌, ⊤};
    ghost use Rattle.bit_slice.specs.Patterns.{places_left};

    ghost is_clone = { λ a b. places_left b ≡ places_left a };

    ghost is_infallible = { λ _. ⊤ };

    /// The same iterator, with the same left. Takes no memory.
    fn clone(&self) -> Result<Self, AllocError> {
        Ok(FindAll {
            view: self.view,
            pattern: self.pattern,
            from: self.from,
        })
    }
}

/// `FindAll { from: `, the first index that was not searched, ` } `, and the text of `Display` of the view.
impl<'a, T: BitStore, O: BitOrder, U: BitStore, P: BitOrder> fmt::Debug
    for FindAll<'a, T, O, U, P> {
    fn fmt<W: fmt::Write>(&self, f: &mut fmt::Formatter<W>) -> fmt::Result {
        let from = self.from;
        write!(f, "FindAll {{ from: {from} }} ")?;
        write_list(self.view, f)
    }
}
