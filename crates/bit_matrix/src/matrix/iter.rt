//! The rows of a matrix as views, and the bits of a column.
ghost use Rattle.std.specs.Iterator.{YieldsFirst, YieldsFirstBy, YieldsLast, YieldsLastBy};
ghost use Rattle.std.specs.Iterator.Runs.{EveryRun, ItemsMapTo, ItemsMapToReversed, YieldsInOrder, YieldsInReverse};
ghost use Rattle.std.specs.Prelude.{◌≡◌, ℕ, ◌^◌, ◌<◌, ◌≤◌, IfSome, Some, length};
ghost use Rattle.bit_slice.specs.BitSlice.{list_of};
ghost use Rattle.bit_matrix.specs.Matrix.{column_bits, item, row_bits, rows_bits};

use crate::matrix::Matrix;
use bit_addressing::{BitOrder, BitStore, Lsb0};
use bit_containers::BitSlice;
use std::alloc::AllocError;
use std::fmt;
use std::iter::{DoubleEndedIterator, ExactSizeIterator, FusedIterator, Iterator};

/// The rows of a matrix as views, from both ends, each once.
///
/// Its length is known, and after the first None there is no more. It takes no memory.
#[derive(Drop)]
pub struct Rows<'a> {
    matrix: &'a Matrix,
    from: usize,
    upto: usize,
    ghost fits: { (from ≤ upto) × (upto ≤ matrix.now.rows) },
}

/// The bits of a column, from both ends, each once.
///
/// Its length is known, and after the first None there is no more. It takes no memory.
#[derive(Drop)]
pub struct Column<'a> {
    matrix: &'a Matrix,
    column: usize,
    from: usize,
    upto: usize,
    ghost fits: { (from ≤ upto) × (upto ≤ matrix.now.rows) × (column < matrix.now.columns) },
}

impl Matrix {
    ghost use Rattle.bit_matrix.specs.MatrixLeft.{column_left, rows_left};

    /// The rows as views, from both ends. Each view begins with a word.
    ///
    /// ```text
    /// Matrix::identity(alloc, 2)?.iter_rows()      // 10, 01
    /// ```
    pub fn iter_rows(&self) -> Rows<'_>
        ensures list { rows_left result ≡ rows_bits self.now }
        ensures count { length (rows_left result) ≡ self.now.rows }
        ensures few { length (rows_left result) < 2 ^ 64 }
        ensures runs { EveryRun (YieldsFirstBy (list_of {W = ⟦<usize as BitStore>⟧} {P = ⟦<Lsb0 as BitOrder>⟧})
            rows_left) (λ p. ItemsMapTo p list_of (rows_left p.from)) }
        ensures runs_back { EveryRun (YieldsLastBy (list_of {W = ⟦<usize as BitStore>⟧} {P = ⟦<Lsb0 as BitOrder>⟧})
            rows_left) (λ p. ItemsMapToReversed p list_of (rows_left p.from)) }
    {
        let upto = self.rows();
        Rows {
            matrix: self,
            from: 0,
            upto,
        }
    }

    /// The bits of a column, from both ends. Requires that the matrix has the column.
    ///
    /// ```text
    /// Matrix::identity(alloc, 2)?.column(1)        // false, true
    /// ```
    pub fn column(&self, column: usize) -> Column<'_>
        requires { column < self.now.columns }
        ensures list { column_left result ≡ column_bits self.now column }
        ensures count { length (column_left result) ≡ self.now.rows }
        ensures few { length (column_left result) < 2 ^ 64 }
        ensures runs { YieldsInOrder (YieldsFirst column_left) column_left }
        ensures runs_back { YieldsInReverse (YieldsLast column_left) column_left }
    {
        let upto = self.rows();
        Column {
            matrix: self,
            column,
            from: 0,
            upto,
        }
    }
}

impl<'a> Rows<'a> {
    ghost use Rattle.bit_matrix.specs.MatrixLeft.{rows_left};

    // The row of number `row`.
    fn at(&self, row: usize) -> BitSlice<'a, usize, Lsb0>
        requires { row < self.now.upto }
        ensures { list_of result ≡ row_bits self.now.matrix.now row }
    {
        self.matrix.row(row)
    }

    // The number of rows left.
    fn count_left(&self) -> usize
        ensures { result ≡ length (rows_left self.now) }
    {
        self.upto - self.from
    }
}

impl<'a> Iterator for Rows<'a> {
    ghost use Rattle.std.specs.Iterator.{YieldsFirstBy, UpTo, at_most, item_count};
    ghost use Rattle.std.specs.Iterator.SizeHint.{IsWithinCount};
    ghost use Rattle.bit_slice.specs.BitSlice.{list_of};
    ghost use Rattle.bit_matrix.specs.MatrixLeft.{rows_left};

    type Item = BitSlice<'a, usize, Lsb0>;

    ghost next_gives = { YieldsFirstBy list_of rows_left };

    ghost remaining = { item_count rows_left };

    /// The first row that is left. None exactly where none is.
    fn next(&mut self) -> Option<BitSlice<'a, usize, Lsb0>> {
        if self.from == self.upto {
            return None;
        }
        let row = self.at(self.from);
        self.from += 1;
        Some(row)
    }

    /// The number of rows that are left, as both bounds: it is exact.
    fn size_hint(&self) -> (usize, Option<usize>)
        ensures lower { IsWithinCount result.0 (at_most (length (rows_left self.now))) }
        ensures upper { IfSome result.1 (UpTo (at_most (length (rows_left self.now)))) }
        ensures value { result ≡ (length (rows_left self.now), Some (length (rows_left self.now))) }
    {
        let count = self.count_left();
        (count, Some(count))
    }
}

impl<'a> DoubleEndedIterator for Rows<'a> {
    ghost use Rattle.std.specs.Iterator.{YieldsLastBy};
    ghost use Rattle.bit_slice.specs.BitSlice.{list_of};
    ghost use Rattle.bit_matrix.specs.MatrixLeft.{rows_left};

    ghost next_back_gives = { YieldsLastBy list_of rows_left };

    /// The last row that is left. None exactly where none is.
    fn next_back(&mut self) -> Option<BitSlice<'a, usize, Lsb0>> {
        if self.upto == self.from {
            return None;
        }
        let row = self.at(self.upto - 1);
        self.upto -= 1;
        Some(row)
    }
}

impl<'a> ExactSizeIterator for Rows<'a> {
    /// The number of rows left.
    fn len(&self) -> usize {
        self.count_left()
    }
}

impl<'a> FusedIterator for Rows<'a> {}

impl<'a> Column<'a> {
    ghost use Rattle.bit_matrix.specs.MatrixLeft.{column_left};

    // The number of bits left.
    fn count_left(&self) -> usize
        ensures { result ≡ length (column_left self.now) }
    {
        self.upto - self.from
    }
}

impl<'a> Iterator for Column<'a> {
    ghost use Rattle.std.specs.Iterator.{YieldsFirst, UpTo, at_most, item_count};
    ghost use Rattle.std.specs.Iterator.SizeHint.{IsWithinCount};
    ghost use Rattle.bit_matrix.specs.MatrixLeft.{column_left};

    type Item = bool;

    ghost next_gives = { YieldsFirst column_left };

    ghost remaining = { item_count column_left };

    /// The first bit that is left. None exactly where none is.
    fn next(&mut self) -> Option<bool> {
        if self.from == self.upto {
            return None;
        }
        let bit = self.matrix.get(self.from, self.column);
        self.from += 1;
        Some(bit)
    }

    /// The number of bits that are left, as both bounds: it is exact.
    fn size_hint(&self) -> (usize, Option<usize>)
        ensures lower { IsWithinCount result.0 (at_most (length (column_left self.now))) }
        ensures upper { IfSome result.1 (UpTo (at_most (length (column_left self.now)))) }
        ensures value { result ≡ (length (column_left self.now), Some (length (column_left self.now))) }
    {
        let count = self.count_left();
        (count, Some(count))
    }
}

impl<'a> DoubleEndedIterator for Column<'a> {
    ghost use Rattle.std.specs.Iterator.{YieldsLast};
    ghost use Rattle.bit_matrix.specs.MatrixLeft.{column_left};

    ghost next_back_gives = { YieldsLast column_left };

    /// The last bit that is left. None exactly where none is.
    fn next_back(&mut self) -> Option<bool> {
        if self.upto == self.from {
            return None;
        }
        let bit = self.matrix.get(self.upto - 1, self.column);
        self.upto -= 1;
        Some(bit)
    }
}

impl<'a> ExactSizeIterator for Column<'a> {
    /// The number of bits left.
    fn len(&self) -> usize {
        self.count_left()
    }
}

impl<'a> FusedIterator for Column<'a> {}

impl<'a> Rows<'a> {
    ghost use Rattle.bit_matrix.specs.MatrixLeft.{rows_left};

    // The same iterator, with the same left.
    fn same(&self) -> Self
        ensures { rows_left result ≡ rows_left self.now }
    {
        Rows {
            matrix: self.matrix,
            from: self.from,
            upto: self.upto,
        }
    }
}

impl<'a> Clone for Rows<'a> {
    ghost use Rattle.std.specs.Prelude.{⊤};
    ghost use Rattle.bit_matrix.specs.MatrixLeft.{rows_left};

    ghost is_clone = { λ a b. rows_left b ≡ rows_left a };

    ghost is_infallible = { λ _. ⊤ };

    /// The same iterator, with the same left. Takes no memory.
    fn clone(&self) -> Result<Self, AllocError> {
        Ok(self.same())
    }
}

/// The rows that are left, as a list.
impl<'a> fmt::Debug for Rows<'a> {
    fn fmt<W: fmt::Write>(&self, f: &mut fmt::Formatter<W>) -> fmt::Result {
        f.debug_list().entries(self.same()).finish()
    }
}

impl<'a> Column<'a> {
    ghost use Rattle.bit_matrix.specs.MatrixLeft.{column_left};

    // The same iterator, with the same left.
    fn same(&self) -> Self
        ensures { column_left result ≡ column_left self.now }
    {
        Column {
            matrix: self.matrix,
            column: self.column,
            from: self.from,
            upto: self.upto,
        }
    }
}

impl<'a> Clone for Column<'a> {
    ghost use Rattle.std.specs.Prelude.{⊤};
    ghost use Rattle.bit_matrix.specs.MatrixLeft.{column_left};

    ghost is_clone = { λ a b. column_left b ≡ column_left a };

    ghost is_infallible = { λ _. ⊤ };

    /// The same iterator, with the same left. Takes no memory.
    fn clone(&self) -> Result<Self, AllocError> {
        Ok(self.same())
    }
}

/// The bits that are left, as a list.
impl<'a> fmt::Debug for Column<'a> {
    fn fmt<W: fmt::Write>(&self, f: &mut fmt::Formatter<W>) -> fmt::Result {
        f.debug_list().entries(self.same()).finish()
    }
}
