//! The inverse of a matrix mod 2, by elimination.
ghost use Rattle.std.specs.Prelude.{◌≡◌, ◌≢◌, ◌+◌, ◌<◌, ◌≤◌, ◌↔◌, ℕ, Bool, false, true, IfNone, IfOk, IfSome, IsSome, MatchOption, OnErr};
ghost use Rattle.bit_matrix.specs.Elimination.{AreLinked, AreUnits, IsAdded};
ghost use Rattle.bit_matrix.specs.Matrix.{AreAlike, Grid, IsInverse, item};
ghost use Rattle.bit_matrix.specs.Rank.{IsRank};

use crate::matrix::Matrix;
use std::alloc::{AllocError, Global};

impl Matrix {
    /// The inverse mod 2, by Gauss-Jordan elimination over whole rows: its products with this matrix, from both
    /// sides, are the identity. None exactly where there is no inverse, which is where the rank is less than the
    /// number of rows. Allocates, and can fail, only where there is a bit. Requires that the matrix is square.
    ///
    /// ```text
    /// let undo = scramble.inverse_mod_2(alloc)?;
    /// ```
    pub fn inverse_mod_2(&self, alloc: Global) -> Result<Option<Self>, AllocError>
        requires { self.now.rows ≡ self.now.columns }
        ensures inverse { IfOk result (λ found. IfSome found (λ m. IsInverse self.now m)) }
        ensures none { IfOk result (λ found. IfNone found ((m : Grid) → IsInverse self.now m → ⊥)) }
        ensures full_rank { IfOk result (λ found. IsSome found ↔ IsRank self.now self.now.rows) }
        ensures memory { OnErr result (0 < self.now.rows) }
    {
        let mut work = self.clone()?;
        let Ok(mut made) = Self::identity(alloc, self.rows()) else {
            return Err(AllocError);
        };
        for column in 0..self.rows() {
            if !work.reduce_column(&mut made, column) {
                return Ok(None);
            }
        }
        Ok(Some(made))
    }

    // Makes a column that of the identity, by adding rows to others here and in `made`. Returns false where the
    // column has no bit from its own row on, and then nothing changes. Requires that the columns before it are those
    // of the identity.
    fn reduce_column(&mut self, made: &mut Self, column: usize) -> bool
        requires square { self.old.rows ≡ self.old.columns }
        requires alike { AreAlike made.old self.old }
        requires inside { column < self.old.columns }
        requires before { AreUnits (item self.old) self.old.columns column }
        ensures alike { AreAlike self.new self.old }
        ensures made_alike { AreAlike made.new made.old }
        ensures linked { (a : ℕ → ℕ → Bool) → AreLinked a (item self.old) (item made.old) self.old.columns
            → AreLinked a (item self.new) (item made.new) self.old.columns }
        ensures reduced { result ≡ true → AreUnits (item self.new) self.old.columns (column + 1) }
        ensures stuck { result ≡ false → (i : ℕ) → i < self.old.columns → column ≤ i → item self.old i column ≡ false }
        ensures stays { result ≡ false → (self.new ≡ self.old) × (made.new ≡ made.old) }
    {
        let Some(pivot) = self.pivot_row(column, column) else {
            return false;
        };
        self.set_pivot(made, column, pivot);
        self.clear_column(made, column);
        true
    }

    // Makes a row have a bit in the column of its index, by adding a later row that has one. Requires that the
    // columns before it are those of the identity.
    fn set_pivot(&mut self, made: &mut Self, column: usize, pivot: usize)
        requires square { self.old.rows ≡ self.old.columns }
        requires alike { AreAlike made.old self.old }
        requires before { AreUnits (item self.old) self.old.columns column }
        requires later { column ≤ pivot }
        requires inside { pivot < self.old.columns }
        requires bit { item self.old pivot column ≡ true }
        ensures alike { AreAlike self.new self.old }
        ensures made_alike { AreAlike made.new made.old }
        ensures linked { (a : ℕ → ℕ → Bool) → AreLinked a (item self.old) (item made.old) self.old.columns
            → AreLinked a (item self.new) (item made.new) self.old.columns }
        ensures before { AreUnits (item self.new) self.old.columns column }
        ensures pivot { item self.new column column ≡ true }
    {
        if self.get(column, column) {
            return;
        }
        self.add_in_both(made, column, pivot);
    }

    // The first row from row `from` on that has a bit in a column.
    pub(super) fn pivot_row(&self, from: usize, column: usize) -> Option<usize>
        requires { column < self.now.columns }
        ensures { MatchOption result ((i : ℕ) → i < self.now.rows → from ≤ i → item self.now i column ≡ false)
            (λ pivot. (pivot < self.now.rows) × (from ≤ pivot) × (item self.now pivot column ≡ true)) }
    {
        for row in from..self.rows() {
            if self.get(row, column) {
                return Some(row);
            }
        }
        None
    }

    // Adds the row of a column's index to each other row that has a bit in the column, here and in `made`. Requires
    // that the columns before it are those of the identity, and its own row has a bit in it.
    fn clear_column(&mut self, made: &mut Self, column: usize)
        requires square { self.old.rows ≡ self.old.columns }
        requires alike { AreAlike made.old self.old }
        requires inside { column < self.old.columns }
        requires before { AreUnits (item self.old) self.old.columns column }
        requires pivot { item self.old column column ≡ true }
        ensures alike { AreAlike self.new self.old }
        ensures made_alike { AreAlike made.new made.old }
        ensures linked { (a : ℕ → ℕ → Bool) → AreLinked a (item self.old) (item made.old) self.old.columns
            → AreLinked a (item self.new) (item made.new) self.old.columns }
        ensures reduced { AreUnits (item self.new) self.old.columns (column + 1) }
    {
        for row in 0..self.rows() {
            self.clear_bit(made, row, column);
        }
    }

    // Like `clear_column`, for one row alone.
    fn clear_bit(&mut self, made: &mut Self, row: usize, column: usize)
        requires square { self.old.rows ≡ self.old.columns }
        requires alike { AreAlike made.old self.old }
        requires row { row < self.old.columns }
        requires inside { column < self.old.columns }
        requires before { AreUnits (item self.old) self.old.columns column }
        requires pivot { item self.old column column ≡ true }
        ensures alike { AreAlike self.new self.old }
        ensures made_alike { AreAlike made.new made.old }
        ensures linked { (a : ℕ → ℕ → Bool) → AreLinked a (item self.old) (item made.old) self.old.columns
            → AreLinked a (item self.new) (item made.new) self.old.columns }
        ensures before { AreUnits (item self.new) self.old.columns column }
        ensures pivot { item self.new column column ≡ true }
        ensures cleared { row ≢ column → item self.new row column ≡ false }
        ensures others { (i : ℕ) → i < self.old.columns → i ≢ row → item self.new i column ≡ item self.old i column }
    {
        if row == column || !self.get(row, column) {
            return;
        }
        self.add_in_both(made, row, column);
    }

    // Adds a row to another mod 2, here and in `made`.
    fn add_in_both(&mut self, made: &mut Self, into: usize, from: usize)
        requires square { self.old.rows ≡ self.old.columns }
        requires alike { AreAlike made.old self.old }
        requires into { into < self.old.columns }
        requires from { from < self.old.columns }
        ensures alike { AreAlike self.new self.old }
        ensures made_alike { AreAlike made.new made.old }
        ensures here { IsAdded (item self.old) (item self.new) self.old.columns into from }
        ensures there { IsAdded (item made.old) (item made.new) self.old.columns into from }
    {
        self.xor_row(from, into);
        made.xor_row(from, into);
    }
}
