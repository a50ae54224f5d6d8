//! Sums and products of matrices, by whole words.
ghost use Rattle.std.specs.Prelude.{◌≡◌, ◌≢◌, ◌*◌, ◌<◌, ◌↔◌, ◌&&◌, ◌||◌, ℕ, Err, IfOk};
ghost use Rattle.bit_addressing.specs.declared.errors.GrowError.TheVariants as errors;
ghost use Rattle.bit_addressing.specs.declared.length.TheConstants.{MAX_BITS};
ghost use Rattle.bit_matrix.specs.Matrix.{AreAlike, any_below, item, padded, plus_mod_2, product, product_mod_2, sum_mod_2};

use crate::matrix::Matrix;
use bit_addressing::GrowError;
use bit_containers::BitListMut;
use std::alloc::Global;

impl Matrix {
    /// Adds another matrix mod 2, by whole words: each bit that is set there is flipped here. Takes no memory. Requires
    /// that both have as many rows, and as many columns.
    ///
    /// ```text
    /// of the rows 11 and 01, and of 10 and 01: m.add_mod_2(&other) leaves 01 and 00
    /// ```
    pub fn add_mod_2(&mut self, other: &Self)
        requires { AreAlike other.now self.old }
        ensures alike { AreAlike self.new self.old }
        ensures items { (i j : ℕ) → i < self.old.rows → j < self.old.columns
            → item self.new i j ≡ plus_mod_2 (item self.old i j) (item other.now i j) }
    {
        self.bits.xor_bits(other.bits.as_bitslice());
    }

    /// The product by `or` and `and`: bit `i, j` is set where for some `k` bit `i, k` is set here and bit `k, j` in
    /// the other matrix. Each bit that is set here costs one `or_row_of`; where many are set, sums of eight rows at a time
    /// are made first, in 256 rows of memory, and where that is refused the product goes without them. Returns `TooLong`
    /// exactly where the bits of the product, with the padding of each row, pass `MAX_BITS`. Takes no memory where the
    /// product has no bit. Requires that the other matrix has as many rows as this one has columns.
    ///
    /// ```text
    /// let two_steps = graph.times(alloc, &graph)?;     // where paths of two edges lead
    /// ```
    pub fn times(&self, alloc: Global, other: &Self) -> Result<Self, GrowError>
        requires { other.now.rows ≡ self.now.columns }
        ensures rows { IfOk result (λ m. m.rows ≡ self.now.rows) }
        ensures columns { IfOk result (λ m. m.columns ≡ other.now.columns) }
        ensures items { IfOk result (λ m. (i j : ℕ) → i < self.now.rows → j < other.now.columns
            → item m i j ≡ product self.now other.now i j) }
        ensures too_long { (result ≡ Err errors.TooLong) ↔ (MAX_BITS < self.now.rows * padded other.now.columns) }
        ensures memory { result ≡ Err errors.OutOfMemory → 0 < self.now.rows * other.now.columns }
    {
        let mut made = Self::new(alloc, self.rows(), other.columns())?;
        if self.is_dense() {
            // Where there is no memory for the sums, the product needs none.
            if let Ok(mut sums) = Self::new(alloc, 256, other.columns()) {
                made.or_products(self, other, &mut sums);
                return Ok(made);
            }
        }
        for row in 0..self.rows() {
            made.or_product_row(row, self, other);
        }
        Ok(made)
    }

    /// The product mod 2: bit `i, j` is set where for an odd number of `k` bit `i, k` is set here and bit `k, j` in
    /// the other matrix. Otherwise like `times`. Requires that the other matrix has as many rows as this one has columns.
    pub fn times_mod_2(&self, alloc: Global, other: &Self) -> Result<Self, GrowError>
        requires { other.now.rows ≡ self.now.columns }
        ensures rows { IfOk result (λ m. m.rows ≡ self.now.rows) }
        ensures columns { IfOk result (λ m. m.columns ≡ other.now.columns) }
        ensures items { IfOk result (λ m. (i j : ℕ) → i < self.now.rows → j < other.now.columns
            → item m i j ≡ product_mod_2 self.now other.now i j) }
        ensures too_long { (result ≡ Err errors.TooLong) ↔ (MAX_BITS < self.now.rows * padded other.now.columns) }
        ensures memory { result ≡ Err errors.OutOfMemory → 0 < self.now.rows * other.now.columns }
    {
        let mut made = Self::new(alloc, self.rows(), other.columns())?;
        if self.is_dense() {
            if let Ok(mut sums) = Self::new(alloc, 256, other.columns()) {
                made.xor_products(self, other, &mut sums);
                return Ok(made);
            }
        }
        for row in 0..self.rows() {
            made.xor_product_row(row, self, other);
        }
        Ok(made)
    }

    // Whether sums of eight rows at a time take fewer steps than a row for each true bit. For each eight columns they take
    // 512 steps, and one for each row of the product.
    fn is_dense(&self) -> bool {
        let parts = self.columns().div_ceil(8);
        self.bits.count_ones() > self.rows().saturating_add(512).saturating_mul(parts)
    }

    // Ors into a row each row of `right` whose index is set in that row of `left`.
    fn or_product_row(&mut self, row: usize, left: &Self, right: &Self)
        requires row { row < self.old.rows }
        requires rows { left.now.rows ≡ self.old.rows }
        requires columns { right.now.columns ≡ self.old.columns }
        requires middle { right.now.rows ≡ left.now.columns }
        ensures alike { AreAlike self.new self.old }
        ensures row { (j : ℕ) → j < self.old.columns
            → item self.new row j ≡ (item self.old row j
            || any_below (λ k. item left.now row k && item right.now k j) left.now.columns) }
        ensures others { (i j : ℕ) → i < self.old.rows → j < self.old.columns → i ≢ row
            → item self.new i j ≡ item self.old i j }
    {
        for middle in 0..left.columns() {
            if left.get(row, middle) {
                self.or_row_of(right, middle, row);
            }
        }
    }

    // Xors into a row each row of `right` whose index is set in that row of `left`.
    fn xor_product_row(&mut self, row: usize, left: &Self, right: &Self)
        requires row { row < self.old.rows }
        requires rows { left.now.rows ≡ self.old.rows }
        requires columns { right.now.columns ≡ self.old.columns }
        requires middle { right.now.rows ≡ left.now.columns }
        ensures alike { AreAlike self.new self.old }
        ensures row { (j : ℕ) → j < self.old.columns
            → item self.new row j ≡ plus_mod_2 (item self.old row j)
            (sum_mod_2 (λ k. item left.now row k && item right.now k j) left.now.columns) }
        ensures others { (i j : ℕ) → i < self.old.rows → j < self.old.columns → i ≢ row
            → item self.new i j ≡ item self.old i j }
    {
        for middle in 0..left.columns() {
            if left.get(row, middle) {
                self.xor_row_of(right, middle, row);
            }
        }
    }
}
