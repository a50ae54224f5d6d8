//! The impls of std's traits for the matrix.
ghost use Rattle.std.specs.Prelude.{◌≡◌, ◌<◌, ◌↔◌, IsTrue, Some, map};
ghost use Rattle.std.specs.Cmp.{partial_equiv_from_equiv};
ghost use Rattle.std.specs.Fmt.{WritesStyledOnOk};
ghost use Rattle.bit_addressing.specs.Text.{digit_of};
ghost use Rattle.bit_slice.specs.Comparisons.{bits_equal};
ghost use Rattle.bit_matrix.specs.Matrix.{AreAlike, grid_equal, grid_equiv, grid_text, row_bits, row_text};

use crate::matrix::Matrix;
use std::alloc::AllocError;
use std::fmt;

impl Clone for Matrix {
    ghost use Rattle.std.specs.Prelude.{◌≡◌, ◌*◌};

    ghost is_clone = { λ m copy. copy ≡ m };

    ghost is_infallible = { λ m. m.rows * m.columns ≡ 0 };

    /// A copy. Allocates, and can fail, only where there is a bit.
    #[tactic(auto, using(crate::proofs::Padding::nothing_padded))]
    fn clone(&self) -> Result<Self, AllocError> {
        let bits = self.bits.clone()?;
        Ok(Matrix {
            rows: self.rows,
            columns: self.columns,
            stride: self.stride,
            bits,
        })
    }
}

impl PartialEq for Matrix {
    ghost eq = { grid_equal };

    ghost laws = { partial_equiv_from_equiv grid_equiv };

    /// Whether both have as many rows, as many columns, and the same bits.
    #[tactic(auto, using(bit_slice::specs::Comparisons::equal_lists, std::proofs::lemmas::Bool::Decides::same_from_decides))]
    fn eq(&self, other: &Self) -> bool
        ensures value { result ≡ grid_equal self.now other.now }
        ensures matrices { IsTrue result ↔ (self.now ≡ other.now) }
    {
        self.rows == other.rows && self.columns == other.columns && self.has_rows_of(other)
    }
}

impl Eq for Matrix {
    ghost laws = { grid_equiv };
}

/// The numbers of rows and columns, and the digits of each row.
impl fmt::Debug for Matrix {
    fn fmt<W: fmt::Write>(&self, f: &mut fmt::Formatter<W>) -> fmt::Result {
        let (rows, columns) = (self.rows, self.columns);
        write!(f, "Matrix {{ rows: {rows}, columns: {columns}, bits: [")?;
        for row in 0..self.rows {
            if row > 0 {
                f.write_str(", ")?;
            }
            self.write_digits(row, f)?;
        }
        f.write_str("] }")
    }
}

/// A line for each row: its digits, 0 or 1, and a line feed. Flags and widths have no effect.
///
/// ```text
/// println!(rt; "{}", Matrix::identity(alloc, 2)?)?;
/// // 10
/// // 01
/// ```
impl fmt::Display for Matrix {
    ghost output = { λ m. Some (grid_text m) };

    ghost styled_output = { λ m _. Some (grid_text m) };

    fn fmt<W: fmt::Write>(&self, f: &mut fmt::Formatter<W>) -> fmt::Result {
        for row in 0..self.rows {
            self.write_row(row, f)?;
        }
        Ok(())
    }
}

impl Matrix {
    // Whether each row is equal to that of another matrix of the same size.
    fn has_rows_of(&self, other: &Self) -> bool
        requires { AreAlike other.now self.now }
        ensures { result ≡ bits_equal self.now.bits other.now.bits }
    {
        // The proof needs how many bits the other matrix has.
        let _ = &other.bits;
        for row in 0..self.rows {
            if self.row(row) != other.row(row) {
                return false;
            }
        }
        true
    }

    // Writes the line of a row.
    fn write_row<W: fmt::Write>(&self, row: usize, f: &mut fmt::Formatter<W>) -> fmt::Result
        requires { row < self.now.rows }
        ensures { WritesStyledOnOk W.write_str_gives f.old result (row_text self.now row) f.new }
    {
        self.write_digits(row, f)?;
        f.write_str("\n")
    }

    // Writes the digits of a row.
    fn write_digits<W: fmt::Write>(&self, row: usize, f: &mut fmt::Formatter<W>) -> fmt::Result
        requires { row < self.now.rows }
        ensures { WritesStyledOnOk W.write_str_gives f.old result (map digit_of (row_bits self.now row)) f.new }
    {
        for column in 0..self.columns {
            f.write_str(if self.get(row, column) { "1" } else { "0" })?;
        }
        Ok(())
    }
}
