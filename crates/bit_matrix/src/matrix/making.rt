//! Matrices made of rows.
ghost use Rattle.std.specs.Prelude.{◌≡◌, ◌≢◌, ℕ, ◌+◌, ◌*◌, ◌^◌, ◌<◌, ◌≤◌, ◌↔◌, All, Err, IfOk, IsTrue, OnErr, length, map};
ghost use Rattle.bit_addressing.specs.Row.{number_bits};
ghost use Rattle.bit_addressing.specs.declared.errors.GrowError.TheVariants as errors;
ghost use Rattle.bit_addressing.specs.declared.length.TheConstants.{MAX_BITS};
ghost use Rattle.bit_slice.specs.Closures.{CallableFrom, ResultsFrom};
ghost use Rattle.bit_matrix.specs.Matrix.{AreAlike, padded, row_bits, rows_bits};
ghost use Rattle.bit_matrix.specs.Making.{CallableAtRows, RowsFrom, first_length};
ghost use Rattle.bit_matrix.specs.declared.matrix.making.RowsFault.TheVariants as faults;

use crate::matrix::Matrix;
use bit_addressing::GrowError;
use bit_containers::BitList;
use bit_slice::inner::with_next;
use std::alloc::Global;

/// Why no matrix was made of rows.
#[derive(Debug, Drop, Clone, Copy, PartialEq, Eq)]
pub enum RowsFault {
    /// Two rows have different lengths.
    UnequalLengths,
    /// The bits, with the padding of each row, are more than `MAX_BITS`.
    TooLong,
    /// Memory was refused.
    OutOfMemory,
}

impl From<GrowError> for RowsFault {
    ghost use Rattle.std.specs.Prelude.{◌≡◌};
    ghost use Rattle.bit_matrix.specs.Making.{refused};

    ghost from_gives = { λ why fault. fault ≡ refused why };

    /// The fault of the same name.
    fn from(why: GrowError) -> RowsFault {
        match why {
            GrowError::TooLong => RowsFault::TooLong,
            GrowError::OutOfMemory => RowsFault::OutOfMemory,
        }
    }
}

impl Matrix {
    /// The matrix whose rows are these lists of bits, of any word type and order. Returns `UnequalLengths` exactly where
    /// two of them have different lengths, and else `TooLong` exactly where their bits, with the padding of each row,
    /// pass `MAX_BITS`. Takes no memory where there is no bit.
    ///
    /// ```text
    /// Matrix::from_rows(alloc, &[first, second])?      // of 110 and 011 the matrix with these rows
    /// ```
    pub fn from_rows<B: BitList>(alloc: Global, rows: &[B]) -> Result<Self, RowsFault>
        ensures rows { IfOk result (λ m. rows_bits m ≡ map B.list rows.now) }
        ensures count { IfOk result (λ m. m.rows ≡ length rows.now) }
        ensures columns { IfOk result (λ m. m.columns ≡ first_length (map B.list rows.now)) }
        ensures unequal { (result ≡ Err faults.UnequalLengths)
            ↔ (All (λ row. length (B.list row) ≡ first_length (map B.list rows.now)) rows.now → ⊥) }
        ensures too_long { (result ≡ Err faults.TooLong)
            ↔ (All (λ row. length (B.list row) ≡ first_length (map B.list rows.now)) rows.now
            × (MAX_BITS < length rows.now * padded (first_length (map B.list rows.now)))) }
        ensures memory { result ≡ Err faults.OutOfMemory
            → 0 < length rows.now * first_length (map B.list rows.now) }
    {
        let columns = first_len(rows);
        if !have_len(rows, columns) {
            return Err(RowsFault::UnequalLengths);
        }
        let mut made = Self::new(alloc, rows.len(), columns)?;
        for (i, row) in rows.iter().enumerate() {
            made.set_row(i, row.as_bitslice());
        }
        Ok(made)
    }

    /// The matrix whose bit in each row and column is what `f` returns of the two. It is called once for each, row after
    /// row, and ends in the state that the last call left. Returns `TooLong` exactly where the bits, with the padding of
    /// each row, pass `MAX_BITS`; a refusal calls nothing. Takes no memory where there is no bit. Requires that `f` can
    /// be called at each row and column.
    ///
    /// ```text
    /// Matrix::from_fn(alloc, 2, 3, &mut |i: usize, j: usize| i < j)?      // 011 and 001
    /// ```
    pub fn from_fn<F: FnMut(usize, usize) -> bool>(
        alloc: Global,
        rows: usize,
        columns: usize,
        f: &mut F,
    ) -> Result<Self, GrowError>
        requires { CallableAtRows F.pre F.step f.old rows columns }
        ensures rows { IfOk result (λ m. m.rows ≡ rows) }
        ensures columns { IfOk result (λ m. m.columns ≡ columns) }
        ensures given { IfOk result (λ m. RowsFrom F.step f.old 0 (rows_bits m) f.new) }
        ensures uncalled { OnErr result (f.new ≡ f.old) }
        ensures too_long { (result ≡ Err errors.TooLong) ↔ (MAX_BITS < rows * padded columns) }
        ensures memory { result ≡ Err errors.OutOfMemory → 0 < rows * columns }
    {
        let mut made = Self::new(alloc, rows, columns)?;
        for row in 0..rows {
            made.fill_row_by(row, f);
        }
        Ok(made)
    }

    // Writes in each column of a row what a function returns there, 64 columns at a time. It is called once for each, in
    // order. Requires that it can be called there.
    fn fill_row_by<F: FnMut(usize, usize) -> bool>(&mut self, row: usize, f: &mut F)
        requires row { row < self.old.rows }
        requires callable { CallableFrom (λ s j. F.pre s row j) (λ s j given t. F.step s row j given t)
            f.old 0 self.old.columns }
        ensures alike { AreAlike self.new self.old }
        ensures size { length self.new.bits ≡ self.new.rows * self.new.columns }
        ensures given { ResultsFrom (λ s j given t. F.step s row j given t) f.old 0 (row_bits self.new row) f.new }
        ensures others { (i : ℕ) → i < self.old.rows → i ≢ row → row_bits self.new i ≡ row_bits self.old i }
    {
        let columns = self.columns();
        let mut column = 0;
        while column < columns {
            let count = (columns - column).min(64);
            let number = number_by(f, row, column, count as u8);
            self.write_part(row, column, count, number);
            column += count;
        }
    }
}

// Calls a function at up to 64 columns of a row, from `from` on, in order. Returns a number with the results, the first
// at place 0. Requires that the function can be called there.
#[inline(always)]
fn number_by<F: FnMut(usize, usize) -> bool>(f: &mut F, row: usize, from: usize, n: u8) -> u64
    requires few { n ≤ 64 }
    requires fits { from + n < 2 ^ 64 }
    requires callable { CallableFrom (λ s j. F.pre s row j) (λ s j given t. F.step s row j given t) f.old from (from + n) }
    ensures { ResultsFrom (λ s j given t. F.step s row j given t) f.old from (number_bits result n) f.new }
{
    let mut number = 0;
    for i in 0..n {
        let bit = f(row, from + i as usize);
        number = with_next(number, i, bit);
    }
    number
}

// The length of the first list, or 0 where there is none.
fn first_len<B: BitList>(rows: &[B]) -> usize
    ensures { result ≡ first_length (map B.list rows.now) }
{
    match rows.first() {
        None => 0,
        Some(row) => row.len(),
    }
}

// Whether each list has this length.
fn have_len<B: BitList>(rows: &[B], len: usize) -> bool
    ensures { IsTrue result ↔ All (λ row. length (B.list row) ≡ len) rows.now }
{
    for row in rows {
        if row.len() != len {
            return false;
        }
    }
    true
}
