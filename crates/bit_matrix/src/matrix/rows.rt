//! Rows that are written from views.
ghost use Rattle.std.specs.Prelude.{◌≡◌, ◌≢◌, ◌+◌, ◌*◌, ◌<◌, ◌≤◌, ◌⊎◌, ℕ, length};
ghost use Rattle.bit_slice.specs.BitSlice.{len_of, list_of};
ghost use Rattle.bit_matrix.specs.Matrix.{AreAlike, bit_of, item, row_bits};

use crate::matrix::Matrix;
use bit_addressing::{BitOrder, BitStore};
use bit_containers::{BitListMut, BitSlice};

impl Matrix {
    /// Writes the bits of a view over a row, whatever its words and order. Takes no memory. Requires that the matrix has
    /// the row, and that the view has as many bits as there are columns.
    ///
    /// ```text
    /// of the rows 110 and 011, and of 101: m.set_row(0, bits) leaves 101 and 011
    /// ```
    pub fn set_row<T: BitStore, O: BitOrder>(&mut self, row: usize, bits: BitSlice<'_, T, O>)
        requires row { row < self.old.rows }
        requires len { len_of bits ≡ self.old.columns }
        ensures alike { AreAlike self.new self.old }
        ensures list { row_bits self.new row ≡ list_of bits.entry }
        ensures items { (j : ℕ) → j < self.old.columns → item self.new row j ≡ bit_of (list_of bits.entry) j }
        ensures others { (i j : ℕ) → i < self.old.rows → j < self.old.columns → i ≢ row
            → item self.new i j ≡ item self.old i j }
        ensures rows { (i : ℕ) → i < self.old.rows → i ≢ row → row_bits self.new i ≡ row_bits self.old i }
    {
        self.write_bits(row, 0, bits);
    }

    // Writes the bits of a view over those of a row, from a column on.
    #[tactic(auto, using(crate::proofs::Padding::length_grid))]
    pub(super) fn write_bits<T: BitStore, O: BitOrder>(
        &mut self,
        row: usize,
        column: usize,
        bits: BitSlice<'_, T, O>,
    )
        requires row { row < self.old.rows }
        requires within { column + len_of bits ≤ self.old.columns }
        ensures alike { AreAlike self.new self.old }
        ensures size { length self.new.bits ≡ self.new.rows * self.new.columns }
        ensures old_size { length self.old.bits ≡ self.old.rows * self.old.columns }
        ensures part { (j : ℕ) → j < len_of bits.entry
            → item self.new row (column + j) ≡ bit_of (list_of bits.entry) j }
        ensures others { (i j : ℕ) → i < self.old.rows → j < self.old.columns
            → (i ≢ row) ⊎ (j < column) ⊎ (column + len_of bits.entry ≤ j) → item self.new i j ≡ item self.old i j }
    {
        let start = row * self.stride + column;
        self.bits.copy_into(start..start + bits.len(), bits);
    }
}
