//! Callers that need no proof of their own: each has one fact that a user of matrices relies on.
ghost use Rattle.std.specs.Prelude.{◌≡◌, ◌==◌, ◌*◌, ◌<◌, ◌≤◌, ◌⊎◌, ◌↔◌, ℕ, false, All, IfOk, IfSome, IsTrue, OnErr, Some, length, map};
ghost use Rattle.bit_addressing.specs.declared.length.TheConstants.{MAX_BITS};
ghost use Rattle.bit_slice.specs.BitSlice.{len_of, list_of};
ghost use Rattle.bit_matrix.specs.Echelon.{AreIndependent, IsSolution};
ghost use Rattle.bit_matrix.specs.Making.{CallableAtRows, RowsFrom, first_length};
ghost use Rattle.bit_matrix.specs.Matrix.{AreAlike, IsPath, IsSet, bit_of, column_bits, item, padded, product, rows_bits};
ghost use Rattle.bit_matrix.specs.Rank.{IsRank};

use bit_addressing::{BitOrder, BitStore, GrowError, Lsb0};
use bit_containers::{BitList, BitSlice, BitVec};
use bit_matrix::{Matrix, RowsFault};
use std::alloc::{AllocError, Global};

/// Whether a path leads from one node of a graph to another. The graph becomes its transitive closure.
pub fn path_leads(graph: &mut Matrix, from: usize, to: usize) -> bool
    requires square { graph.old.rows ≡ graph.old.columns }
    requires from { from < graph.old.rows }
    requires to { to < graph.old.columns }
    ensures { IsTrue result ↔ IsPath (IsSet graph.old) from to }
{
    graph.close();
    graph.get(from, to)
}

/// A matrix that is transposed twice has its bits again.
pub fn turned_twice(alloc: Global, matrix: &Matrix) -> Result<Matrix, GrowError>
    ensures { IfOk result (λ again. (i j : ℕ) → i < matrix.now.rows → j < matrix.now.columns
        → item again i j ≡ item matrix.now i j) }
{
    let turned = matrix.transpose(alloc)?;
    turned.transpose(alloc)
}

/// A bit that is or-ed into a row is set in it, and a bit that was set there stays set.
pub fn joined(matrix: &mut Matrix, into: usize, from: usize, column: usize) -> bool
    requires into { into < matrix.old.rows }
    requires from { from < matrix.old.rows }
    requires column { column < matrix.old.columns }
    ensures { IsTrue result ↔ (IsSet matrix.old into column ⊎ IsSet matrix.old from column) }
{
    matrix.or_row(from, into);
    matrix.get(into, column)
}

/// A matrix times its inverse is the identity.
pub fn undone(
    matrix: &Matrix,
    alloc: Global,
    row: usize,
    column: usize,
) -> Result<Option<bool>, GrowError>
    requires square { matrix.now.rows ≡ matrix.now.columns }
    requires row { row < matrix.now.rows }
    requires column { column < matrix.now.columns }
    ensures { IfOk result (λ found. IfSome found (λ bit. bit ≡ (row == column))) }
{
    let Ok(Some(inverse)) = matrix.inverse_mod_2(alloc) else {
        return Ok(None);
    };
    let product = matrix.times_mod_2(alloc, &inverse)?;
    Ok(Some(product.get(row, column)))
}

/// Whether a path of two edges leads from one node to another.
pub fn two_edges(graph: &Matrix, alloc: Global, from: usize, to: usize) -> Result<bool, GrowError>
    requires square { graph.now.rows ≡ graph.now.columns }
    requires from { from < graph.now.rows }
    requires to { to < graph.now.columns }
    ensures { IfOk result (λ leads. leads ≡ product graph.now graph.now from to) }
{
    Ok(graph.times(alloc, graph)?.get(from, to))
}

/// Rows that are swapped twice are where they were.
pub fn swapped_twice(matrix: &mut Matrix, a: usize, b: usize, column: usize) -> bool
    requires a { a < matrix.old.rows }
    requires b { b < matrix.old.rows }
    requires column { column < matrix.old.columns }
    ensures { result ≡ item matrix.old a column }
{
    matrix.swap_rows(a, b);
    matrix.swap_rows(a, b);
    matrix.get(a, column)
}

/// A bit of a row's view is that of the matrix.
pub fn in_a_row(matrix: &Matrix, row: usize, column: usize) -> Option<bool>
    requires row { row < matrix.now.rows }
    requires column { column < matrix.now.columns }
    ensures { result ≡ Some (item matrix.now row column) }
{
    matrix.row(row).get(column)
}

/// A matrix has no rank above the smaller of its two sizes.
pub fn rank_within_sizes(matrix: &Matrix, alloc: Global) -> Result<usize, AllocError>
    ensures rows { IfOk result (λ rank. rank ≤ matrix.now.rows) }
    ensures columns { IfOk result (λ rank. rank ≤ matrix.now.columns) }
    ensures rank { IfOk result (λ rank. IsRank matrix.now rank) }
{
    let rank = matrix.rank_mod_2(alloc)?;
    Ok(rank)
}

/// The bits of a column, collected.
pub fn column_collected(
    alloc: Global,
    matrix: &Matrix,
    column: usize,
) -> Result<Vec<bool>, AllocError>
    requires { column < matrix.now.columns }
    ensures { IfOk result (λ bits. bits.items ≡ column_bits matrix.now column) }
{
    matrix.column(column).collect(alloc)
}

/// The iterator over rows gives each row.
pub fn rows_counted(matrix: &Matrix) -> usize
    ensures { result ≡ matrix.now.rows }
{
    matrix.iter_rows().count()
}

/// A row that was written has the bits of the view.
pub fn row_written<T: BitStore, O: BitOrder>(
    matrix: &mut Matrix,
    row: usize,
    bits: BitSlice<'_, T, O>,
    column: usize,
) -> bool
    requires row { row < matrix.old.rows }
    requires len { len_of bits ≡ matrix.old.columns }
    requires column { column < matrix.old.columns }
    ensures { result ≡ bit_of (list_of bits.entry) column }
{
    matrix.set_row(row, bits);
    matrix.get(row, column)
}

/// A matrix of vectors has their lists for its rows.
pub fn of_vectors(alloc: Global, rows: &[BitVec<u64, Lsb0>]) -> Result<Matrix, RowsFault>
    ensures { IfOk result (λ m. rows_bits m ≡ map (λ row. row.list) rows.now) }
{
    Matrix::from_rows(alloc, rows)
}

/// A matrix that is added twice changes nothing.
pub fn added_twice(matrix: &mut Matrix, other: &Matrix, row: usize, column: usize) -> bool
    requires alike { AreAlike other.now matrix.old }
    requires row { row < matrix.old.rows }
    requires column { column < matrix.old.columns }
    ensures { result ≡ item matrix.old row column }
{
    matrix.add_mod_2(other);
    matrix.add_mod_2(other);
    matrix.get(row, column)
}

/// Columns that are swapped twice are where they were.
pub fn columns_swapped_twice(matrix: &mut Matrix, a: usize, b: usize, row: usize) -> bool
    requires a { a < matrix.old.columns }
    requires b { b < matrix.old.columns }
    requires row { row < matrix.old.rows }
    ensures { result ≡ item matrix.old row a }
{
    matrix.swap_columns(a, b);
    matrix.swap_columns(a, b);
    matrix.get(row, a)
}

/// The product with a solution is the right side.
pub fn solved<T: BitStore, O: BitOrder>(
    matrix: &Matrix,
    alloc: Global,
    right: BitSlice<'_, T, O>,
) -> Result<Option<BitVec<usize, Lsb0>>, GrowError>
    requires { len_of right ≡ matrix.now.rows }
    ensures { IfOk result (λ found. IfSome found (λ product. (i : ℕ) → i < matrix.now.rows
        → bit_of product.list i ≡ bit_of (list_of right.entry) i)) }
{
    let Some(solution) = matrix.solve_mod_2(alloc, right)? else {
        return Ok(None);
    };
    let product = matrix.times_vector_mod_2(alloc, solution.as_bitslice())?;
    Ok(Some(product))
}

/// The echelon form has the rank that is returned.
pub fn reduced(matrix: &mut Matrix) -> usize
    ensures { IsRank matrix.new result }
{
    matrix.reduce_mod_2()
}

/// The rows of the kernel have the product zero, and none of them is a sum of others.
pub fn kernel(matrix: &Matrix, alloc: Global) -> Result<Matrix, GrowError>
    ensures inside { IfOk result (λ m. (i : ℕ) → i < m.rows
        → IsSolution (item matrix.now) matrix.now.rows matrix.now.columns (λ k. false) (item m i)) }
    ensures independent { IfOk result (λ m. AreIndependent (item m) m.rows m.columns) }
{
    let kernel = matrix.kernel_mod_2(alloc)?;
    Ok(kernel)
}

/// What a function returned of each row and column is the matrix, row after row.
pub fn made_by<F: FnMut(usize, usize) -> bool>(
    alloc: Global,
    rows: usize,
    columns: usize,
    f: &mut F,
) -> Result<Matrix, GrowError>
    requires { CallableAtRows F.pre F.step f.old rows columns }
    ensures given { IfOk result (λ m. RowsFrom F.step f.old 0 (rows_bits m) f.new) }
    ensures size { IfOk result (λ m. (m.rows ≡ rows) × (m.columns ≡ columns)) }
    ensures refused { OnErr result (f.new ≡ f.old) }
{
    Matrix::from_fn(alloc, rows, columns, f)
}

/// Rows of one length that are too many are told so, whatever memory there is.
pub fn told_too_long<B: BitList>(alloc: Global, rows: &[B]) -> bool
    requires same { All (λ row. length (B.list row) ≡ first_length (map B.list rows.now)) rows.now }
    requires many { MAX_BITS < length rows.now * padded (first_length (map B.list rows.now)) }
    ensures { IsTrue result }
{
    matches!(Matrix::from_rows(alloc, rows), Err(RowsFault::TooLong))
}
