//! Growth and removal by the results of a function.
ghost use Rattle.std.specs.Prelude.{◌≡◌, ◌+◌, ◌-◌, ◌%◌, ◌<◌, ◌≤◌, Bool, List, [], ◌∷◌, ◌++◌, length, take, drop, OnOk, OnErr, IsOk};
ghost use Rattle.bit_addressing.specs.Row.{number_bits, put};
ghost use Rattle.bit_addressing.specs.declared.length.TheConstants.{MAX_BITS};
ghost use Rattle.bit_containers.specs.BitVec.{Grew, Shrank, Stayed, RefusesOnly};
ghost use Rattle.bit_slice.specs.Closures.{CallableAtEach, CallableFrom, ResultsFrom, ResultsAtEach, kept};

use crate::vec::BitVec;
use bit_addressing::{BitOrder, BitStore, GrowError};
use bit_rows::write_chunk_in_vec;
use bit_slice::inner::with_next;

impl<T: BitStore, O: BitOrder> BitVec<T, O> {
    /// Keeps the first `n` bits, or appends what `f` returns at each new index until there are `n`. Memory is taken
    /// first; then `f` is called once for each new index, in order. Where it grows it is refused like `push`, and a
    /// refusal makes no call and changes nothing but perhaps the capacity. Where it shrinks it is like `truncate`,
    /// and makes no call. Requires that `f` can be called at the new indices, where the length is not too large.
    ///
    /// ```text
    /// of 0110: bits.resize_with(6, |i| i == 5)? leaves 011001
    /// ```
    pub fn resize_with<F: FnMut(usize) -> bool>(
        &mut self,
        n: usize,
        mut f: F,
    ) -> Result<(), GrowError>
        requires { n ≤ MAX_BITS → CallableFrom F.pre F.step f (length self.old.list) n }
        ensures cut { n ≤ length self.old.list → OnOk result (self.new.list ≡ take n self.old.list) }
        ensures shrank { n ≤ length self.old.list → Shrank T.BITS self.old self.new n }
        ensures filled { length self.old.list < n
            → OnOk result ((results : List Bool) × (last : F)
            × ResultsFrom F.step f (length self.old.list) results last
            × (self.new.list ≡ self.old.list ++ results) × Grew T.BITS self.old self.new results) }
        ensures len { OnOk result (length self.new.list ≡ n) }
        ensures succeeds { n ≤ length self.old.list → IsOk result }
        ensures refusal { RefusesOnly result n self.old self.new }
        ensures capacity { self.old.capacity ≤ self.new.capacity }
        ensures no_memory { n ≤ self.old.capacity → self.new.capacity ≡ self.old.capacity }
    {
        self.resize_by(n, &mut f)
    }

    /// Like `resize_with`, with a function that is lent: it ends in the state that the last call left, and where the
    /// vector shrinks or is refused, in the one that it had.
    ///
    /// ```text
    /// of 0110: bits.resize_by(6, &mut |i: usize| i == 5)? leaves 011001
    /// ```
    pub fn resize_by<F: FnMut(usize) -> bool>(
        &mut self,
        n: usize,
        f: &mut F,
    ) -> Result<(), GrowError>
        requires { n ≤ MAX_BITS → CallableFrom F.pre F.step f.old (length self.old.list) n }
        ensures cut { n ≤ length self.old.list → OnOk result (self.new.list ≡ take n self.old.list) }
        ensures shrank { n ≤ length self.old.list → Shrank T.BITS self.old self.new n }
        ensures filled { length self.old.list < n
            → OnOk result ((results : List Bool)
            × ResultsFrom F.step f.old (length self.old.list) results f.new
            × (self.new.list ≡ self.old.list ++ results) × Grew T.BITS self.old self.new results) }
        ensures uncalled_shrinking { n ≤ length self.old.list → f.new ≡ f.old }
        ensures uncalled_refused { OnErr result (f.new ≡ f.old) }
        ensures len { OnOk result (length self.new.list ≡ n) }
        ensures succeeds { n ≤ length self.old.list → IsOk result }
        ensures refusal { RefusesOnly result n self.old self.new }
        ensures capacity { self.old.capacity ≤ self.new.capacity }
        ensures no_memory { n ≤ self.old.capacity → self.new.capacity ≡ self.old.capacity }
    {
        self.prove_in_words();
        let len = self.len();
        if n <= len {
            self.truncate(n);
            return Ok(());
        }
        self.reserve(n - len)?;
        for index in len..n {
            let bit = f(index);
            self.push_reserved(bit);
        }
        Ok(())
    }

    // Like `push`, where there is room.
    fn push_reserved(&mut self, bit: bool)
        requires room { length self.old.list < self.old.capacity }
        requires few { length self.old.list < MAX_BITS }
        ensures list { self.new.list ≡ self.old.list ++ bit ∷ [] }
        ensures row { Grew T.BITS self.old self.new (bit ∷ []) }
        ensures capacity { self.new.capacity ≡ self.old.capacity }
    {
        let _there_is_room = self.push(bit);
    }

    /// Keeps the bits at which `f` returns true, in order. `f` is called once for each bit, with its index and the
    /// bit, by ascending index. The bits that stay are gathered in words, and each word is stored once. Takes no
    /// memory. What becomes of dead bits is open. Requires that `f` can be called at each bit.
    ///
    /// ```text
    /// of 0110: bits.retain(|i, bit| *bit || i == 0) leaves 011
    /// ```
    pub fn retain<F: FnMut(usize, &bool) -> bool>(&mut self, mut f: F)
        requires { CallableAtEach F.pre F.step f self.old.list }
        ensures list { (results : List Bool) × (last : F)
            × ResultsAtEach F.step f 0 self.old.list results last
            × (self.new.list ≡ kept self.old.list results) }
        ensures head { self.new.head ≡ self.old.head }
        ensures capacity { self.new.capacity ≡ self.old.capacity }
    {
        self.retain_by(&mut f)
    }

    /// Like `retain`, with a function that is lent: it ends in the state that the last call left, and where there is
    /// no bit in the one that it had.
    ///
    /// ```text
    /// of 0110: bits.retain_by(&mut |_i: usize, bit: &bool| *bit) leaves 11
    /// ```
    pub fn retain_by<F: FnMut(usize, &bool) -> bool>(&mut self, f: &mut F)
        requires { CallableAtEach F.pre F.step f.old self.old.list }
        ensures list { (results : List Bool) × ResultsAtEach F.step f.old 0 self.old.list results f.new
            × (self.new.list ≡ kept self.old.list results) }
        ensures head { self.new.head ≡ self.old.head }
        ensures capacity { self.new.capacity ≡ self.old.capacity }
    {
        let mut count = 0;
        let mut number = 0;
        for index in 0..self.len() {
            let bit = self.bit(index);
            if f(index, &bit) {
                number = self.keep(count, number, bit);
                count += 1;
            }
        }
        let got = (count % 64) as u8;
        self.write_number(count - count % 64, got, number);
        self.truncate(count);
    }

    // Writes the `n` lowest bits of a number at the indices from `at` on. Requires that they lie in the length.
    #[tactic(auto, using(bit_slice::proofs::Parts::shown_length))]
    fn write_number(&mut self, at: usize, n: u8, number: u64)
        requires few { n ≤ 64 }
        requires within { at + n ≤ length self.old.list }
        ensures list { self.new.list ≡ put self.old.list at (number_bits number n) }
        ensures stayed { Stayed self.old self.new }
    {
        let from = self.head + at;
        write_chunk_in_vec::<T, O>(&mut self.words, from, n, number);
    }

    // Keeps one bit more, as item `count` of those that stay. The number has the kept bits that are not written
    // yet; where they are 64 they are written. Returns the number after that. Requires that `count` is below the
    // length.
    fn keep(&mut self, count: usize, number: u64, bit: bool) -> u64
        requires { count < length self.old.list }
        ensures front { take (count + 1 - (count + 1) % 64) self.new.list
            ++ number_bits result ((count + 1) % 64)
            ≡ (take (count - count % 64) self.old.list ++ number_bits number (count % 64)) ++ bit ∷ [] }
        ensures rest { drop (count + 1) self.new.list ≡ drop (count + 1) self.old.list }
        ensures stayed { Stayed self.old self.new }
    {
        let got = (count % 64) as u8;
        let number = with_next(number, got, bit);
        if got == 63 {
            self.write_number(count - 63, 64, number);
        }
        number
    }
}
