//! Views cut in two, and their beginnings and ends compared.
ghost use Rattle.std.specs.Prelude.{◌≡◌, ◌+◌, ◌-◌, ◌<◌, ◌≤◌, ◌↔◌, ◌++◌, ◌∷◌, [], IfSome, IsTrue, IsNone, drop, length, take};
ghost use Rattle.bit_slice.specs.BitSlice.{words_of, head_of, len_of, list_of, IsPlaced};

use crate::slice::BitSlice;
use bit_addressing::{BitOrder, BitStore};

impl<'a, T: BitStore, O: BitOrder> BitSlice<'a, T, O> {
    /// The bits before index `mid`, and those from it on. Requires that `mid` is at most the length.
    ///
    /// ```text
    /// of 01101001: bits.split_at(3).1 shows 01001
    /// ```
    pub fn split_at(self, mid: usize) -> (Self, Self)
        requires { mid ≤ len_of self }
        ensures front { list_of result.0 ≡ take mid (list_of self.entry) }
        ensures back { list_of result.1 ≡ drop mid (list_of self.entry) }
        ensures both { list_of self.entry ≡ list_of result.0 ++ list_of result.1 }
        ensures front_len { len_of result.0 ≡ mid }
        ensures back_len { len_of result.1 + mid ≡ len_of self.entry }
        ensures front_place { IsPlaced (words_of self.entry) (head_of self.entry) 0 result.0 }
        ensures back_place { IsPlaced (words_of self.entry) (head_of self.entry) mid result.1 }
    {
        (self.get_range(0..mid), self.get_range(mid..self.len))
    }

    /// The first bit, and the others. None exactly where the view is empty.
    ///
    /// ```text
    /// of 01101001: bits.split_first().is_some() == true
    /// ```
    pub fn split_first(self) -> Option<(bool, Self)>
        ensures none { IsNone result ↔ (len_of self.entry ≡ 0) }
        ensures both { IfSome result (λ r. list_of self.entry ≡ r.0 ∷ list_of r.1) }
        ensures rest_len { IfSome result (λ r. len_of r.1 + 1 ≡ len_of self.entry) }
        ensures rest_place { IfSome result (λ r. IsPlaced (words_of self.entry) (head_of self.entry) 1 r.1) }
    {
        if self.len == 0 {
            return None;
        }
        Some((self.bit(0), self.get_range(1..self.len)))
    }

    /// The last bit, and the others. None exactly where the view is empty.
    ///
    /// ```text
    /// of 01101001: bits.split_last().is_some() == true
    /// ```
    pub fn split_last(self) -> Option<(bool, Self)>
        ensures none { IsNone result ↔ (len_of self.entry ≡ 0) }
        ensures both { IfSome result (λ r. list_of self.entry ≡ list_of r.1 ++ r.0 ∷ []) }
        ensures rest_len { IfSome result (λ r. len_of r.1 + 1 ≡ len_of self.entry) }
        ensures rest_place { IfSome result (λ r. IsPlaced (words_of self.entry) (head_of self.entry) 0 r.1) }
    {
        if self.len == 0 {
            return None;
        }
        let last = self.len - 1;
        Some((self.bit(last), self.get_range(0..last)))
    }
}
