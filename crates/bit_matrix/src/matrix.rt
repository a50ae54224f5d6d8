//! A matrix of truth values, one bit each.
ghost use Rattle.std.specs.Prelude.{◌≡◌, ◌≢◌, ◌+◌, ◌*◌, ◌<◌, ◌≤◌, ◌⊎◌, ◌↔◌, ◌==◌, ◌||◌, ℕ, Err, IfOk, IsTrue, Some, false, length, set, slice_get, slice_index_or, slice_range};
ghost use Rattle.bit_addressing.specs.declared.errors.GrowError.TheVariants as errors;
ghost use Rattle.bit_addressing.specs.declared.length.TheConstants.{MAX_BITS};
ghost use Rattle.bit_slice.specs.BitSlice.{head_of, len_of, list_of};
ghost use Rattle.bit_matrix.specs.Matrix.{AreAlike, IsSet, item, padded, plus_mod_2, row_bits, zeros};

mod columns;
mod echelon;
mod elimination;
mod equations;
mod graph;
mod iter;
mod making;
mod products;
mod rank;
mod rows;
mod squares;
mod tables;
mod traits;
mod transpose;
mod vectors;

use bit_addressing::{GrowError, Lsb0};
use bit_containers::{BitList, BitListMut, BitSlice, BitVec};
pub use iter::{Column, Rows};
pub use making::RowsFault;
use std::alloc::Global;
use std::marker::Model;

/// A matrix of truth values.
///
/// In contracts a matrix `m` is its number of rows, `m.rows`, its number of columns, `m.columns`, and its bits
/// in a list, row after row, `m.bits`. `item m i j` is the bit in row `i` and column `j`. A square matrix is
/// also a graph: its nodes are the indices, and an edge leads from `i` to `j` where `IsSet m i j`.
///
/// Each row begins with a word, so that its bits and their padding take `padded m.columns` bits, a multiple of 64.
///
/// ```rust
/// use bit_matrix::Matrix;
///
/// let mut leads = Matrix::new(rt.alloc(), 3, 3)?;
/// leads.set(0, 1, true);
/// leads.set(1, 2, true);
/// leads.close();
/// println!(&rt; "{} {}, from 0 to {}", leads.get(0, 2), leads.get(2, 0), leads.row(0))?;
/// println!(&rt; "rank {}", leads.rank_mod_2(rt.alloc())?)?;
/// ```
///
/// ```text
/// true false, from 0 to [0, 1, 1]
/// rank 2
/// ```
#[derive(Drop)]
pub struct Matrix {
    rows: usize,
    columns: usize,
    stride: usize,
    bits: BitVec<usize, Lsb0>,
}

impl Model for Matrix {
    ghost use Rattle.std.specs.Prelude.{length};
    ghost use Rattle.bit_addressing.specs.Row.{row_of};
    ghost use Rattle.bit_matrix.specs.Matrix.{Grid, IsGrid, grid_code, unpadded};

    ghost Value = { Grid };

    ghost coded = { grid_code };

    ghost view = { λ m. record {
      rows = m.rows;
      columns = m.columns;
      bits = unpadded m.rows m.columns m.stride m.bits.list;
    } };

    ghost invariant = { λ m. IsGrid m.rows m.columns m.stride m.bits.head (length m.bits.list) };
}

impl Matrix {
    /// A matrix of false bits. Returns `TooLong` exactly where its bits, with the padding of each row, pass
    /// `MAX_BITS`. Takes no memory where it has no bit.
    pub fn new(alloc: Global, rows: usize, columns: usize) -> Result<Self, GrowError>
        ensures zeros { IfOk result (λ m. m ≡ zeros rows columns) }
        ensures too_long { (result ≡ Err errors.TooLong) ↔ (MAX_BITS < rows * padded columns) }
        ensures memory { result ≡ Err errors.OutOfMemory → 0 < rows * columns }
    {
        let stride = stride_of(columns);
        let Some(size) = rows.checked_mul(stride) else {
            return Err(GrowError::TooLong);
        };
        let bits = BitVec::repeat(alloc, false, size)?;
        Ok(Matrix {
            rows,
            columns,
            stride,
            bits,
        })
    }

    /// The identity matrix of `size` rows and columns: true on the diagonal alone. Returns `TooLong` exactly where
    /// its bits, with the padding of each row, pass `MAX_BITS`. Takes no memory where `size` is 0.
    ///
    /// ```text
    /// Matrix::identity(alloc, 3)?      // 100, 010, 001
    /// ```
    pub fn identity(alloc: Global, size: usize) -> Result<Self, GrowError>
        ensures rows { IfOk result (λ m. m.rows ≡ size) }
        ensures columns { IfOk result (λ m. m.columns ≡ size) }
        ensures items { IfOk result (λ m. (i j : ℕ) → i < size → j < size → item m i j ≡ (i == j)) }
        ensures too_long { (result ≡ Err errors.TooLong) ↔ (MAX_BITS < size * padded size) }
        ensures memory { result ≡ Err errors.OutOfMemory → 0 < size }
    {
        let mut made = Self::new(alloc, size, size)?;
        for place in 0..size {
            made.set(place, place, true);
        }
        Ok(made)
    }

    /// The number of rows.
    #[tactic(auto, using(crate::proofs::Padding::length_grid))]
    pub fn rows(&self) -> usize
        ensures value { result ≡ self.now.rows }
        ensures size { length self.now.bits ≡ self.now.rows * self.now.columns }
    {
        self.rows
    }

    /// The number of columns.
    #[tactic(auto, using(crate::proofs::Padding::length_grid))]
    pub fn columns(&self) -> usize
        ensures value { result ≡ self.now.columns }
        ensures size { length self.now.bits ≡ self.now.rows * self.now.columns }
    {
        self.columns
    }

    /// The bit in a row and a column. Requires that the matrix has them.
    #[tactic(auto, using(crate::proofs::Padding::place_padded))]
    pub fn get(&self, row: usize, column: usize) -> bool
        requires row { row < self.now.rows }
        requires column { column < self.now.columns }
        ensures bit { result ≡ item self.now row column }
        ensures set { IsTrue result ↔ IsSet self.now row column }
    {
        self.bits.load_le_at(row * self.stride + column, 1) != 0
    }

    /// Writes the bit in a row and a column. Requires that the matrix has them.
    #[tactic(auto, using(crate::proofs::Padding::place_padded))]
    pub fn set(&mut self, row: usize, column: usize, bit: bool)
        requires row { row < self.old.rows }
        requires column { column < self.old.columns }
        ensures alike { AreAlike self.new self.old }
        ensures bits { self.new.bits ≡ set self.old.bits (row * self.old.columns + column) bit }
        ensures here { item self.new row column ≡ bit }
        ensures others { (i j : ℕ) → i < self.old.rows → j < self.old.columns → (i ≢ row) ⊎ (j ≢ column)
            → item self.new i j ≡ item self.old i j }
    {
        self.bits.set(row * self.stride + column, bit);
    }

    /// The bits of a row, as a view that begins with a word. Requires that the matrix has the row.
    pub fn row(&self, row: usize) -> BitSlice<'_, usize, Lsb0>
        requires { row < self.now.rows }
        ensures list { list_of result ≡ row_bits self.now row }
        ensures len { len_of result ≡ self.now.columns }
        ensures head { head_of result ≡ 0 }
        ensures items { (j : ℕ) → j < self.now.columns → slice_get (list_of result) j ≡ Some (item self.now row j) }
    {
        let start = row * self.stride;
        self.bits.get_range(start..start + self.columns)
    }

    // The bits of a row and their padding.
    fn padded_row(&self, row: usize) -> BitSlice<'_, usize, Lsb0>
        requires { row < self.now.rows }
        ensures len { len_of result ≡ padded self.now.columns }
        ensures items { (j : ℕ) → j < self.now.columns → slice_index_or (list_of result) j false ≡ item self.now row j }
    {
        let start = row * self.stride;
        self.bits.get_range(start..start + self.stride)
    }

    /// Sets each bit of row `into` whose column is set in row `from`, by whole words. Requires that the matrix has both
    /// rows.
    ///
    /// ```text
    /// of the rows 110 and 011: m.or_row(0, 1) leaves 110 and 111
    /// ```
    pub fn or_row(&mut self, from: usize, into: usize)
        requires from { from < self.old.rows }
        requires into { into < self.old.rows }
        ensures alike { AreAlike self.new self.old }
        ensures row { (j : ℕ) → j < self.old.columns
            → item self.new into j ≡ (item self.old into j || item self.old from j) }
        ensures others { (i j : ℕ) → i < self.old.rows → j < self.old.columns → i ≢ into
            → item self.new i j ≡ item self.old i j }
    {
        if from == into {
            return;
        }
        let stride = self.stride;
        let start = from * stride;
        self.bits.or_within(start..start + stride, into * stride);
    }

    /// Flips each bit of row `into` whose column is set in row `from`, by whole words: the row becomes the sum mod 2 of
    /// both. Requires that the matrix has both rows.
    ///
    /// ```text
    /// of the rows 110 and 011: m.xor_row(0, 1) leaves 110 and 101
    /// ```
    pub fn xor_row(&mut self, from: usize, into: usize)
        requires from { from < self.old.rows }
        requires into { into < self.old.rows }
        ensures alike { AreAlike self.new self.old }
        ensures row { (j : ℕ) → j < self.old.columns
            → item self.new into j ≡ plus_mod_2 (item self.old into j) (item self.old from j) }
        ensures others { (i j : ℕ) → i < self.old.rows → j < self.old.columns → i ≢ into
            → item self.new i j ≡ item self.old i j }
    {
        let stride = self.stride;
        let start = from * stride;
        self.bits.xor_within(start..start + stride, into * stride);
    }

    /// Like `or_row`, with a row of another matrix. Requires that both matrices have the same number of columns, and
    /// that each has its row.
    pub fn or_row_of(&mut self, other: &Self, from: usize, into: usize)
        requires from { from < other.now.rows }
        requires into { into < self.old.rows }
        requires columns { other.now.columns ≡ self.old.columns }
        ensures alike { AreAlike self.new self.old }
        ensures row { (j : ℕ) → j < self.old.columns
            → item self.new into j ≡ (item self.old into j || item other.now from j) }
        ensures others { (i j : ℕ) → i < self.old.rows → j < self.old.columns → i ≢ into
            → item self.new i j ≡ item self.old i j }
    {
        let start = into * self.stride;
        self.bits
            .or_range(start..start + self.stride, other.padded_row(from));
    }

    /// Like `xor_row`, with a row of another matrix. Requires that both matrices have the same number of columns,
    /// and that each has its row.
    pub fn xor_row_of(&mut self, other: &Self, from: usize, into: usize)
        requires from { from < other.now.rows }
        requires into { into < self.old.rows }
        requires columns { other.now.columns ≡ self.old.columns }
        ensures alike { AreAlike self.new self.old }
        ensures row { (j : ℕ) → j < self.old.columns
            → item self.new into j ≡ plus_mod_2 (item self.old into j) (item other.now from j) }
        ensures others { (i j : ℕ) → i < self.old.rows → j < self.old.columns → i ≢ into
            → item self.new i j ≡ item self.old i j }
    {
        let start = into * self.stride;
        self.bits
            .xor_range(start..start + self.stride, other.padded_row(from));
    }

    /// Writes row `from` over row `to`, by one move. Requires that the matrix has both rows.
    #[tactic(auto, using(crate::proofs::Grids::row_inside))]
    pub fn copy_row(&mut self, from: usize, to: usize)
        requires from { from < self.old.rows }
        requires to { to < self.old.rows }
        ensures alike { AreAlike self.new self.old }
        ensures row { (j : ℕ) → j < self.old.columns → item self.new to j ≡ item self.old from j }
        ensures others { (i j : ℕ) → i < self.old.rows → j < self.old.columns → i ≢ to
            → item self.new i j ≡ item self.old i j }
    {
        let stride = self.stride;
        let start = from * stride;
        self.bits.copy_within(start..start + stride, to * stride);
    }

    /// Swaps two rows, by whole words. Takes no memory. Requires that the matrix has both rows.
    pub fn swap_rows(&mut self, a: usize, b: usize)
        requires a { a < self.old.rows }
        requires b { b < self.old.rows }
        ensures alike { AreAlike self.new self.old }
        ensures first { (j : ℕ) → j < self.old.columns → item self.new a j ≡ item self.old b j }
        ensures second { (j : ℕ) → j < self.old.columns → item self.new b j ≡ item self.old a j }
        ensures others { (i j : ℕ) → i < self.old.rows → j < self.old.columns → i ≢ a → i ≢ b
            → item self.new i j ≡ item self.old i j }
    {
        if a != b {
            self.xor_row(b, a);
            self.xor_row(a, b);
            self.xor_row(b, a);
        }
    }
}

// How many bits a row of `columns` columns takes with its padding. Where that passes the largest usize, the result is
// more than any matrix has.
fn stride_of(columns: usize) -> usize
    ensures exact { columns ≤ MAX_BITS → result ≡ padded columns }
    ensures past { MAX_BITS < columns → MAX_BITS < result }
{
    columns.div_ceil(64).saturating_mul(64)
}
