//! Rows into columns, by squares of 64 x 64 bits.
ghost use Rattle.std.specs.Prelude.{◌≡◌, ◌≢◌, ◌+◌, ◌*◌, ◌<◌, ◌≤◌, ◌⊎◌, ◌↔◌, ℕ, Err, IfOk, false, length};
ghost use Rattle.bit_addressing.specs.Bits.{has_bit};
ghost use Rattle.bit_addressing.specs.declared.errors.GrowError.TheVariants as errors;
ghost use Rattle.bit_addressing.specs.declared.length.TheConstants.{MAX_BITS};
ghost use Rattle.bit_matrix.specs.Matrix.{AreAlike, item, padded};
ghost use Rattle.bit_matrix.specs.Squares.{square_bit};

use crate::matrix::Matrix;
use crate::matrix::squares::turn;
use bit_addressing::{GrowError, Lsb0};
use bit_containers::{BitList, BitSlice};
use std::alloc::Global;

impl Matrix {
    /// The matrix whose rows are the columns of this one, by squares of 64 x 64 bits. Returns `TooLong` exactly where
    /// the bits of the result, with the padding of each row, pass `MAX_BITS`. Allocates, and can fail, only where
    /// there is a bit.
    ///
    /// ```text
    /// of the rows 110 and 001: m.transpose(alloc)? has the rows 10, 10 and 01
    /// ```
    pub fn transpose(&self, alloc: Global) -> Result<Self, GrowError>
        ensures rows { IfOk result (λ m. m.rows ≡ self.now.columns) }
        ensures columns { IfOk result (λ m. m.columns ≡ self.now.rows) }
        ensures items { IfOk result (λ m. (i j : ℕ) → i < self.now.columns → j < self.now.rows
            → item m i j ≡ item self.now j i) }
        ensures too_long { (result ≡ Err errors.TooLong) ↔ (MAX_BITS < self.now.columns * padded self.now.rows) }
        ensures memory { result ≡ Err errors.OutOfMemory → 0 < self.now.rows * self.now.columns }
    {
        let mut turned = Self::new(alloc, self.columns(), self.rows())?;
        if self.rows() == 0 {
            return Ok(turned);
        }
        for band in 0..self.columns().div_ceil(64) {
            self.turn_band(64 * band, &mut turned);
        }
        Ok(turned)
    }

    // Writes up to 64 columns, from `left` on, into the rows with the same indices of the transpose.
    fn turn_band(&self, left: usize, turned: &mut Self)
        requires left { left < self.now.columns }
        requires rows { turned.old.rows ≡ self.now.columns }
        requires columns { turned.old.columns ≡ self.now.rows }
        ensures alike { AreAlike turned.new turned.old }
        ensures band { (i j : ℕ) → left ≤ i → i < left + 64 → i < self.now.columns → j < self.now.rows
            → item turned.new i j ≡ item self.now j i }
        ensures others { (i j : ℕ) → i < self.now.columns → j < self.now.rows → (i < left) ⊎ (left + 64 ≤ i)
            → item turned.new i j ≡ item turned.old i j }
    {
        for part in 0..self.rows().div_ceil(64) {
            let mut square = self.read_square(64 * part, left);
            turn(&mut square);
            turned.write_square(left, 64 * part, &square);
        }
    }

    // The square of up to 64 rows from `top` on and up to 64 columns from `left` on.
    fn read_square(&self, top: usize, left: usize) -> [u64; 64]
        requires top { top < self.now.rows }
        requires left { left < self.now.columns }
        ensures { (i j : ℕ) → i < 64 → j < 64 → top + i < self.now.rows → left + j < self.now.columns
            → square_bit result i j ≡ item self.now (top + i) (left + j) }
    {
        let mut square = [0u64; 64];
        let count = (self.columns() - left).min(64);
        for row in 0..(self.rows() - top).min(64) {
            square[row] = self.read_part(top + row, left, count);
        }
        square
    }

    // Writes such a square, in the rows and columns that the matrix has.
    fn write_square(&mut self, top: usize, left: usize, square: &[u64; 64])
        requires top { top < self.old.rows }
        requires left { left < self.old.columns }
        ensures alike { AreAlike self.new self.old }
        ensures inside { (i j : ℕ) → i < 64 → j < 64 → top + i < self.old.rows → left + j < self.old.columns
            → item self.new (top + i) (left + j) ≡ square_bit square.now i j }
        ensures others { (i j : ℕ) → i < self.old.rows → j < self.old.columns
            → (i < top) ⊎ (top + 64 ≤ i) ⊎ (j < left) ⊎ (left + 64 ≤ j) → item self.new i j ≡ item self.old i j }
    {
        let count = (self.columns() - left).min(64);
        for row in 0..(self.rows() - top).min(64) {
            self.write_part(top + row, left, count, square[row]);
        }
    }

    // Up to 64 bits of a row, from a column on, as a number: bit `j` is the one in column `column + j`.
    pub(super) fn read_part(&self, row: usize, column: usize, count: usize) -> u64
        requires row { row < self.now.rows }
        requires few { count ≤ 64 }
        requires within { column + count ≤ self.now.columns }
        ensures bits { (j : ℕ) → j < count → has_bit result j ≡ item self.now row (column + j) }
        ensures above { (j : ℕ) → count ≤ j → has_bit result j ≡ false }
    {
        let start = row * self.stride + column;
        self.bits.load_le_at(start, count as u8)
    }

    // Writes up to 64 bits of a row, from a column on: bit `j` of the number in column `column + j`.
    pub(super) fn write_part(&mut self, row: usize, column: usize, count: usize, number: u64)
        requires row { row < self.old.rows }
        requires few { count ≤ 64 }
        requires within { column + count ≤ self.old.columns }
        ensures alike { AreAlike self.new self.old }
        ensures size { length self.new.bits ≡ self.new.rows * self.new.columns }
        ensures part { (j : ℕ) → j < count → item self.new row (column + j) ≡ has_bit number j }
        ensures others { (i j : ℕ) → i < self.old.rows → j < self.old.columns
            → (i ≢ row) ⊎ (j < column) ⊎ (column + count ≤ j) → item self.new i j ≡ item self.old i j }
    {
        let words = [number];
        self.write_bits(
            row,
            column,
            BitSlice::<u64, Lsb0>::from_slice(&words).get_range(0..count),
        );
    }
}
