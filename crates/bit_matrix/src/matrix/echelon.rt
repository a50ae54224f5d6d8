//! Reduced echelon forms mod 2, by elimination over whole rows.
ghost use Rattle.std.specs.Prelude.{◌≡◌, ◌≢◌, ◌+◌, ◌<◌, ◌≤◌, ℕ, false, true};
ghost use Rattle.bit_matrix.specs.Echelon.{AreSumsOf, IsEchelon, IsMadeOf};
ghost use Rattle.bit_matrix.specs.Matrix.{AreAlike, item};
ghost use Rattle.bit_matrix.specs.Rank.{IsRank};

use crate::matrix::Matrix;

impl Matrix {
    /// Makes the matrix its reduced echelon form mod 2, by adding rows to others, and returns its rank: that many rows
    /// have a bit then, and they stand first. The first bit of each is to the left of those of the rows after it, and no
    /// other row has a bit in its column; `first_in_row` returns that column. The rows have the sums that they had.
    /// Takes no memory.
    ///
    /// ```text
    /// of the rows 011, 110 and 101: m.reduce_mod_2() == 2, and leaves 101, 011 and 000
    /// ```
    pub fn reduce_mod_2(&mut self) -> usize
        ensures alike { AreAlike self.new self.old }
        ensures echelon { IsEchelon (item self.new) self.old.rows self.old.columns result }
        ensures sums { AreSumsOf (item self.new) (item self.old) self.old.rows self.old.columns }
        ensures back { AreSumsOf (item self.old) (item self.new) self.old.rows self.old.columns }
        ensures rank { IsRank self.new result }
        ensures one { (q : ℕ) → IsRank self.old q → q ≡ result }
    {
        let columns = self.columns();
        self.eliminate(columns)
    }

    // Like `reduce_mod_2`, for the first `columns` columns alone.
    pub(super) fn eliminate(&mut self, columns: usize) -> usize
        requires { columns ≤ self.old.columns }
        ensures alike { AreAlike self.new self.old }
        ensures echelon { IsEchelon (item self.new) self.old.rows columns result }
        ensures made { IsMadeOf (item self.old) (item self.new) self.old.rows self.old.columns }
    {
        let mut rank = 0;
        for column in 0..columns {
            if self.eliminate_column(rank, column) {
                rank += 1;
            }
        }
        rank
    }

    // Makes the columns up to this one an echelon form, of which those before it are one with `rank` rows. Returns
    // whether one row more has a bit.
    fn eliminate_column(&mut self, rank: usize, column: usize) -> bool
        requires column { column < self.old.columns }
        requires before { IsEchelon (item self.old) self.old.rows column rank }
        ensures alike { AreAlike self.new self.old }
        ensures reduced { result ≡ true → IsEchelon (item self.new) self.old.rows (column + 1) (rank + 1) }
        ensures none { result ≡ false → IsEchelon (item self.new) self.old.rows (column + 1) rank }
        ensures made { IsMadeOf (item self.old) (item self.new) self.old.rows self.old.columns }
    {
        let Some(pivot) = self.pivot_row(rank, column) else {
            return false;
        };
        self.add_pivot(pivot, rank, column);
        self.clear_others(rank, column);
        true
    }

    // Makes row `rank` have a bit in a column, by adding a row that has one and that is this row or a later one.
    fn add_pivot(&mut self, pivot: usize, rank: usize, column: usize)
        requires later { rank ≤ pivot }
        requires pivot { pivot < self.old.rows }
        requires column { column < self.old.columns }
        requires bit { item self.old pivot column ≡ true }
        requires none { (j : ℕ) → j < column → item self.old pivot j ≡ false }
        ensures alike { AreAlike self.new self.old }
        ensures made { IsMadeOf (item self.old) (item self.new) self.old.rows self.old.columns }
        ensures before { (i j : ℕ) → i < self.old.rows → j < column → item self.new i j ≡ item self.old i j }
        ensures bit { item self.new rank column ≡ true }
    {
        if !self.get(rank, column) {
            self.xor_row(pivot, rank);
        }
    }

    // Adds row `rank`, which has no bit before a column and one in it, to each other row with a bit in that column.
    fn clear_others(&mut self, rank: usize, column: usize)
        requires rank { rank < self.old.rows }
        requires column { column < self.old.columns }
        requires bit { item self.old rank column ≡ true }
        requires none { (j : ℕ) → j < column → item self.old rank j ≡ false }
        ensures alike { AreAlike self.new self.old }
        ensures made { IsMadeOf (item self.old) (item self.new) self.old.rows self.old.columns }
        ensures before { (i j : ℕ) → i < self.old.rows → j < column → item self.new i j ≡ item self.old i j }
        ensures bit { item self.new rank column ≡ true }
        ensures cleared { (i : ℕ) → i < self.old.rows → i ≢ rank → item self.new i column ≡ false }
    {
        for row in 0..self.rows() {
            self.clear_other(row, rank, column);
        }
    }

    // Like `clear_others`, for one row alone.
    fn clear_other(&mut self, row: usize, rank: usize, column: usize)
        requires row { row < self.old.rows }
        requires rank { rank < self.old.rows }
        requires column { column < self.old.columns }
        requires bit { item self.old rank column ≡ true }
        requires none { (j : ℕ) → j < column → item self.old rank j ≡ false }
        ensures alike { AreAlike self.new self.old }
        ensures made { IsMadeOf (item self.old) (item self.new) self.old.rows self.old.columns }
        ensures before { (i j : ℕ) → i < self.old.rows → j < column → item self.new i j ≡ item self.old i j }
        ensures cleared { row ≢ rank → item self.new row column ≡ false }
        ensures others { (i : ℕ) → i < self.old.rows → i ≢ row → item self.new i column ≡ item self.old i column }
        ensures pivot { item self.new rank column ≡ true }
    {
        if row == rank || !self.get(row, column) {
            return;
        }
        self.xor_row(rank, row);
    }
}
