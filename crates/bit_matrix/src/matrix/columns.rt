//! Columns that are swapped.
ghost use Rattle.std.specs.Prelude.{◌≡◌, ◌≢◌, ◌<◌, ℕ};
ghost use Rattle.bit_matrix.specs.Matrix.{AreAlike, item};

use crate::matrix::Matrix;

impl Matrix {
    /// Swaps two columns, bit by bit. Takes no memory. Requires that the matrix has both columns.
    ///
    /// ```text
    /// of the rows 110 and 011: m.swap_columns(0, 2) leaves 011 and 110
    /// ```
    pub fn swap_columns(&mut self, a: usize, b: usize)
        requires a { a < self.old.columns }
        requires b { b < self.old.columns }
        ensures alike { AreAlike self.new self.old }
        ensures first { (i : ℕ) → i < self.old.rows → item self.new i a ≡ item self.old i b }
        ensures second { (i : ℕ) → i < self.old.rows → item self.new i b ≡ item self.old i a }
        ensures others { (i j : ℕ) → i < self.old.rows → j < self.old.columns → j ≢ a → j ≢ b
            → item self.new i j ≡ item self.old i j }
    {
        for row in 0..self.rows() {
            self.swap_in_row(row, a, b);
        }
    }

    // Like `swap_columns`, in one row alone.
    fn swap_in_row(&mut self, row: usize, a: usize, b: usize)
        requires row { row < self.old.rows }
        requires a { a < self.old.columns }
        requires b { b < self.old.columns }
        ensures alike { AreAlike self.new self.old }
        ensures first { item self.new row a ≡ item self.old row b }
        ensures second { item self.new row b ≡ item self.old row a }
        ensures others { (i j : ℕ) → i < self.old.rows → j < self.old.columns → j ≢ a → j ≢ b
            → item self.new i j ≡ item self.old i j }
        ensures rows { (i j : ℕ) → i < self.old.rows → j < self.old.columns → i ≢ row
            → item self.new i j ≡ item self.old i j }
    {
        let (first, second) = (self.get(row, a), self.get(row, b));
        self.set(row, a, second);
        self.set(row, b, first);
    }
}
