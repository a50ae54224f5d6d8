//! A matrix times a vector mod 2.
ghost use Rattle.std.specs.Prelude.{◌≡◌, ◌<◌, ◌↔◌, ◌&&◌, Err, IfOk, length};
ghost use Rattle.bit_addressing.specs.declared.errors.GrowError.TheVariants as errors;
ghost use Rattle.bit_addressing.specs.declared.length.TheConstants.{MAX_BITS};
ghost use Rattle.bit_slice.specs.BitSlice.{len_of, list_of};
ghost use Rattle.bit_matrix.specs.Echelon.{IsSolution};
ghost use Rattle.bit_matrix.specs.Matrix.{bit_of, item, sum_mod_2};

use crate::matrix::Matrix;
use bit_addressing::{BitOrder, BitStore, GrowError, Lsb0};
use bit_containers::{BitList, BitListMut, BitSlice, BitVec};
use std::alloc::Global;

impl Matrix {
    /// The product with a vector mod 2, by whole words: bit `i` is set where row `i` and the vector have an odd number
    /// of set bits in common. Returns `TooLong` exactly where the rows are more than `MAX_BITS`. Takes no memory where
    /// there is no row. Requires that the vector has as many bits as there are columns.
    ///
    /// ```text
    /// of the rows 110 and 011, and of 100: m.times_vector_mod_2(alloc, bits)? is 10
    /// ```
    pub fn times_vector_mod_2<T: BitStore, O: BitOrder>(
        &self,
        alloc: Global,
        vector: BitSlice<'_, T, O>,
    ) -> Result<BitVec<usize, Lsb0>, GrowError>
        requires { len_of vector ≡ self.now.columns }
        ensures len { IfOk result (λ product. length product.list ≡ self.now.rows) }
        ensures bits { IfOk result (λ product. IsSolution (item self.now) self.now.rows self.now.columns
            (bit_of product.list) (bit_of (list_of vector.entry))) }
        ensures too_long { (result ≡ Err errors.TooLong) ↔ (MAX_BITS < self.now.rows) }
        ensures memory { result ≡ Err errors.OutOfMemory → 0 < self.now.rows }
    {
        let mut product = BitVec::repeat(alloc, false, self.rows())?;
        for row in 0..self.rows() {
            product.set(row, self.row_times_mod_2(row, vector));
        }
        Ok(product)
    }

    // The product mod 2 of a row and a vector.
    fn row_times_mod_2<T: BitStore, O: BitOrder>(
        &self,
        row: usize,
        vector: BitSlice<'_, T, O>,
    ) -> bool
        requires row { row < self.now.rows }
        requires len { len_of vector ≡ self.now.columns }
        ensures { result
            ≡ sum_mod_2 (λ j. item self.now row j && bit_of (list_of vector.entry) j) self.now.columns }
    {
        self.row(row).count_and(vector) % 2 == 1
    }
}
