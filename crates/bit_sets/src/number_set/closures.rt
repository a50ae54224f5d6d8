//! The numbers that a function keeps.
ghost use Rattle.std.specs.Prelude.{◌≡◌, Bool, List, length};
ghost use Rattle.std.specs.List.{items_where_true};
ghost use Rattle.bit_slice.specs.Places.{ones_of};
ghost use Rattle.bit_sets.specs.InTurn.{ResultsInTurn};

use crate::number_set::NumberSet;

impl NumberSet {
    /// Keeps the numbers for which `f` returns true. `f` is called once for each number of the set, ascending. The
    /// bound stays. Takes no memory. Requires that `f` can always be called.
    ///
    /// ```text
    /// of 2, 3, 5, 8: seen.retain(|number| number % 2 == 1) leaves 3, 5
    /// ```
    pub fn retain<F: FnMut(usize) -> bool>(&mut self, mut f: F)
        requires { F.IsAlwaysCallable f }
        ensures bound { length self.new ≡ length self.old }
        ensures numbers { (results : List Bool) × (last : F) × ResultsInTurn F.step f (ones_of self.old) results last
            × (ones_of self.new ≡ items_where_true results (ones_of self.old)) }
    {
        self.retain_by(&mut f)
    }

    /// Like `retain`, with a function that is lent: it ends in the state that the last call left, and where there is no
    /// number in the one that it had.
    ///
    /// ```text
    /// of 2, 3, 5, 8: seen.retain_by(&mut |number: usize| number < 5) leaves 2, 3
    /// ```
    pub fn retain_by<F: FnMut(usize) -> bool>(&mut self, f: &mut F)
        requires { F.IsAlwaysCallable f.old }
        ensures bound { length self.new ≡ length self.old }
        ensures numbers { (results : List Bool) × ResultsInTurn F.step f.old (ones_of self.old) results f.new
            × (ones_of self.new ≡ items_where_true results (ones_of self.old)) }
    {
        let mut from = 0;
        while let Some(number) = self.next_at_least(from) {
            if !f(number) {
                self.remove(number);
            }
            from = number + 1;
        }
    }
}
