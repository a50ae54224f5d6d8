//! Systems of equations mod 2: their solutions, and the kernel.
ghost use Rattle.std.specs.Prelude.{◌≡◌, ◌+◌, ◌*◌, ◌<◌, ◌≤◌, ◌⊎◌, ◌↔◌, ◌==◌, ℕ, Bool, false, true, Err, IfNone, IfOk, IfSome, length};
ghost use Rattle.bit_addressing.specs.declared.errors.GrowError.TheVariants as errors;
ghost use Rattle.bit_addressing.specs.declared.length.TheConstants.{MAX_BITS};
ghost use Rattle.bit_slice.specs.BitSlice.{len_of, list_of};
ghost use Rattle.bit_matrix.specs.Echelon.{AreIndependent, IsEchelon, IsSolution};
ghost use Rattle.bit_matrix.specs.Matrix.{bit_of, item, padded};
ghost use Rattle.bit_matrix.specs.Rank.{row_sum};
ghost use Rattle.bit_matrix.specs.Reduction.{IsLead};

use crate::matrix::Matrix;
use bit_addressing::{BitOrder, BitStore, GrowError, Lsb0, MAX_BITS};
use bit_containers::{BitList, BitListMut, BitSlice, BitVec};
use std::alloc::Global;

impl Matrix {
    /// A solution of the equations mod 2 whose left sides are the rows, and whose right sides are the bits of a view: its
    /// product with this matrix, as `times_vector_mod_2` makes it, is the view's list. None exactly where there is none.
    /// It makes the echelon form of a copy with one column more. Returns `TooLong` exactly where the columns are more
    /// than `MAX_BITS`, or the bits of that copy are, with the padding of each row. Takes no memory where there is
    /// neither a row nor a column. Requires that the view has as many bits as there are rows.
    ///
    /// ```text
    /// of the rows 110 and 011, and of 10: m.solve_mod_2(alloc, bits)? is Some(100)
    /// ```
    pub fn solve_mod_2<T: BitStore, O: BitOrder>(
        &self,
        alloc: Global,
        right: BitSlice<'_, T, O>,
    ) -> Result<Option<BitVec<usize, Lsb0>>, GrowError>
        requires { len_of right ≡ self.now.rows }
        ensures solution { IfOk result (λ found. IfSome found (λ x. IsSolution (item self.now) self.now.rows
            self.now.columns (bit_of (list_of right.entry)) (bit_of x.list))) }
        ensures len { IfOk result (λ found. IfSome found (λ x. length x.list ≡ self.now.columns)) }
        ensures none { IfOk result (λ found. IfNone found ((x : ℕ → Bool) → IsSolution (item self.now) self.now.rows
            self.now.columns (bit_of (list_of right.entry)) x → ⊥)) }
        ensures too_long { (result ≡ Err errors.TooLong)
            ↔ ((MAX_BITS < self.now.columns) ⊎ (MAX_BITS < self.now.rows * padded (self.now.columns + 1))) }
        ensures memory { result ≡ Err errors.OutOfMemory → 0 < self.now.rows + self.now.columns }
    {
        if self.columns() > MAX_BITS {
            return Err(GrowError::TooLong);
        }
        let mut work = self.with_column(alloc, right)?;
        let mut solution = BitVec::repeat(alloc, false, self.columns())?;
        let rank = work.reduce_mod_2();
        if work.read_solution(rank, &mut solution) {
            return Ok(Some(solution));
        }
        Ok(None)
    }

    // A copy with one column more, which has the bits of a view.
    fn with_column<T: BitStore, O: BitOrder>(
        &self,
        alloc: Global,
        column: BitSlice<'_, T, O>,
    ) -> Result<Self, GrowError>
        requires len { len_of column ≡ self.now.rows }
        requires few { self.now.columns ≤ MAX_BITS }
        ensures rows { IfOk result (λ m. m.rows ≡ self.now.rows) }
        ensures columns { IfOk result (λ m. m.columns ≡ self.now.columns + 1) }
        ensures items { IfOk result (λ m. (i j : ℕ) → i < self.now.rows → j < self.now.columns
            → item m i j ≡ item self.now i j) }
        ensures last { IfOk result (λ m. (i : ℕ) → i < self.now.rows
            → item m i self.now.columns ≡ bit_of (list_of column.entry) i) }
        ensures too_long { (result ≡ Err errors.TooLong) ↔ (MAX_BITS < self.now.rows * padded (self.now.columns + 1)) }
        ensures memory { result ≡ Err errors.OutOfMemory → 0 < self.now.rows }
    {
        let mut made = Self::new(alloc, self.rows(), self.columns() + 1)?;
        for row in 0..self.rows() {
            made.write_bits(row, 0, self.row(row));
            made.set(row, self.columns(), column[row]);
        }
        Ok(made)
    }

    // Reads a solution of the equations whose right sides are the last column of an echelon form. Returns false where
    // there is none. Requires that the solution is false so far.
    fn read_solution(&self, rank: usize, solution: &mut BitVec<usize, Lsb0>) -> bool
        requires wide { self.now.columns ≡ length solution.old.list + 1 }
        requires echelon { IsEchelon (item self.now) self.now.rows self.now.columns rank }
        requires clear { (j : ℕ) → bit_of solution.old.list j ≡ false }
        ensures len { length solution.new.list ≡ length solution.old.list }
        ensures solved { result ≡ true → IsSolution (item self.now) self.now.rows (length solution.old.list)
            (λ i. item self.now i (length solution.old.list)) (bit_of solution.new.list) }
        ensures none { result ≡ false → (x : ℕ → Bool) → IsSolution (item self.now) self.now.rows
            (length solution.old.list) (λ i. item self.now i (length solution.old.list)) x → ⊥ }
    {
        for row in 0..rank {
            if !self.read_row(row, solution) {
                return false;
            }
        }
        true
    }

    // Writes the last bit of a row, whose first bit is in an earlier column, at that column. Returns false where the
    // first bit is the last.
    fn read_row(&self, row: usize, solution: &mut BitVec<usize, Lsb0>) -> bool
        requires row { row < self.now.rows }
        requires wide { self.now.columns ≡ length solution.old.list + 1 }
        ensures len { length solution.new.list ≡ length solution.old.list }
        ensures here { result ≡ true → (p : ℕ) → p < self.now.columns → IsLead (item self.now row) p
            → (p < length solution.old.list)
            × (bit_of solution.new.list p ≡ item self.now row (length solution.old.list)) }
        ensures others { (j : ℕ) → (IsLead (item self.now row) j → ⊥)
            → bit_of solution.new.list j ≡ bit_of solution.old.list j }
        ensures last { result ≡ false → IsLead (item self.now row) (length solution.old.list) }
    {
        let last = solution.len();
        let Some(column) = self.first_in_row(row) else {
            return true;
        };
        if column == last {
            return false;
        }
        solution.set(column, self.get(row, last));
        true
    }

    /// A basis of the kernel mod 2: the rows of the result are vectors whose product with this matrix is zero, none of
    /// them is a sum of others, and each such vector is a sum of some of them. It makes the echelon form of the
    /// transpose beside an identity matrix. Returns `TooLong` exactly where the bits of these two, with the padding of
    /// each row, pass `MAX_BITS`. Takes no memory where there is no column.
    ///
    /// ```text
    /// of the rows 110 and 011: m.kernel_mod_2(alloc)? has the row 111
    /// ```
    pub fn kernel_mod_2(&self, alloc: Global) -> Result<Self, GrowError>
        ensures columns { IfOk result (λ m. m.columns ≡ self.now.columns) }
        ensures inside { IfOk result (λ m. (i : ℕ) → i < m.rows → IsSolution (item self.now) self.now.rows
            self.now.columns (λ k. false) (item m i)) }
        ensures independent { IfOk result (λ m. AreIndependent (item m) m.rows m.columns) }
        ensures spans { IfOk result (λ m. (x : ℕ → Bool) → IsSolution (item self.now) self.now.rows
            self.now.columns (λ k. false) x
            → (part : ℕ → Bool) × ((j : ℕ) → j < self.now.columns → x j ≡ row_sum (item m) part m.rows j)) }
        ensures too_long { (result ≡ Err errors.TooLong)
            ↔ (MAX_BITS < self.now.columns * padded (self.now.rows + self.now.columns)) }
        ensures memory { result ≡ Err errors.OutOfMemory → 0 < self.now.columns }
    {
        let mut work = self.beside_identity(alloc)?;
        let rank = work.eliminate(self.rows());
        work.right_part(alloc, rank, self.rows())
    }

    // The transpose, with the identity matrix to the right of it.
    fn beside_identity(&self, alloc: Global) -> Result<Self, GrowError>
        ensures rows { IfOk result (λ m. m.rows ≡ self.now.columns) }
        ensures columns { IfOk result (λ m. m.columns ≡ self.now.rows + self.now.columns) }
        ensures left { IfOk result (λ m. (i j : ℕ) → i < self.now.columns → j < self.now.rows
            → item m i j ≡ item self.now j i) }
        ensures right { IfOk result (λ m. (i j : ℕ) → i < self.now.columns → j < self.now.columns
            → item m i (self.now.rows + j) ≡ (i == j)) }
        ensures too_long { (result ≡ Err errors.TooLong)
            ↔ (MAX_BITS < self.now.columns * padded (self.now.rows + self.now.columns)) }
        ensures memory { result ≡ Err errors.OutOfMemory → 0 < self.now.columns }
        ensures fits { IfOk result (λ m. self.now.columns * padded (self.now.rows + self.now.columns) ≤ MAX_BITS) }
    {
        let Some(columns) = self.rows().checked_add(self.columns()) else {
            return Err(GrowError::TooLong);
        };
        let mut made = Self::new(alloc, self.columns(), columns)?;
        let turned = self.transpose(alloc)?;
        for row in 0..self.columns() {
            made.write_bits(row, 0, turned.row(row));
            made.set(row, self.rows() + row, true);
        }
        Ok(made)
    }

    // The rows from one on, in the columns from one on, of which there are as many as rows.
    fn right_part(&self, alloc: Global, top: usize, left: usize) -> Result<Self, GrowError>
        requires top { top ≤ self.now.rows }
        requires left { self.now.columns ≡ left + self.now.rows }
        requires few { self.now.rows * padded self.now.columns ≤ MAX_BITS }
        ensures rows { IfOk result (λ m. top + m.rows ≡ self.now.rows) }
        ensures columns { IfOk result (λ m. m.columns ≡ self.now.rows) }
        ensures items { IfOk result (λ m. (i j : ℕ) → top + i < self.now.rows → j < self.now.rows
            → item m i j ≡ item self.now (top + i) (left + j)) }
        ensures not_long { result ≡ Err errors.TooLong → ⊥ }
        ensures memory { result ≡ Err errors.OutOfMemory → 0 < self.now.rows }
    {
        let size = self.rows();
        let mut made = Self::new(alloc, size - top, size)?;
        for row in 0..size - top {
            made.write_bits(row, 0, self.row(top + row).get_range(left..left + size));
        }
        Ok(made)
    }
}
