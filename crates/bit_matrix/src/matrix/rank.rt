//! The rank of a matrix mod 2.
ghost use Rattle.std.specs.Prelude.{◌≡◌, ◌≢◌, ◌*◌, ◌<◌, ◌≤◌, ◌+◌, ℕ, Bool, false, IfOk, MatchOption, OnErr};
ghost use Rattle.bit_matrix.specs.Matrix.{AreAlike, item};
ghost use Rattle.bit_matrix.specs.Rank.{IsRank};
ghost use Rattle.bit_matrix.specs.Reduction.{AreReduced, IsLead, IsReducing};

use crate::matrix::Matrix;
use bit_slice::BitList;
use std::alloc::{AllocError, Global};

impl Matrix {
    /// The rank mod 2: the number of rows in a set of independent rows such that each row is a sum mod 2 of some of
    /// them. It reduces each row of a copy by the rows before it. Allocates, and can fail, only where there is a bit.
    ///
    /// ```text
    /// of the rows 110, 011 and 101: m.rank_mod_2(alloc)? == 2
    /// ```
    pub fn rank_mod_2(&self, alloc: Global) -> Result<usize, AllocError>
        ensures rank { IfOk result (λ r. IsRank self.now r) }
        ensures one { IfOk result (λ r. (q : ℕ) → IsRank self.now q → q ≡ r) }
        ensures rows { IfOk result (λ r. r ≤ self.now.rows) }
        ensures columns { IfOk result (λ r. r ≤ self.now.columns) }
        ensures memory { OnErr result (0 < self.now.rows * self.now.columns) }
    {
        if self.columns() == 0 {
            return Ok(0);
        }
        let mut work = self.clone()?;
        let mut rank = 0;
        for row in 0..self.rows() {
            work.reduce_row(row);
            if work.first_in_row(row).is_some() {
                rank += 1;
            }
        }
        Ok(rank)
    }

    // Reduces a row by the rows before it: each is added where the row has a bit in the column of that one's first
    // bit. Requires that the rows before it are reduced.
    fn reduce_row(&mut self, row: usize)
        requires { row < self.old.rows }
        ensures alike { AreAlike self.new self.old }
        ensures reduced { (a : ℕ → ℕ → Bool) → AreReduced a (item self.old) self.old.rows self.old.columns row
            → IsReducing a (item self.old) (item self.new) self.old.rows self.old.columns row row }
    {
        for before in 0..row {
            self.reduce_row_by(row, before);
        }
    }

    // Like `reduce_row`, by one of the rows before it.
    fn reduce_row_by(&mut self, row: usize, before: usize)
        requires row { row < self.old.rows }
        requires before { before < row }
        ensures alike { AreAlike self.new self.old }
        ensures reduced { (a w : ℕ → ℕ → Bool) → AreReduced a w self.old.rows self.old.columns row
            → IsReducing a w (item self.old) self.old.rows self.old.columns row before
            → IsReducing a w (item self.new) self.old.rows self.old.columns row (before + 1) }
    {
        if let Some(column) = self.first_in_row(before) {
            if self.get(row, column) {
                self.xor_row(before, row);
            }
        }
    }

    /// The column of the first bit of a row. None exactly where the row has none. Requires that the matrix has the row.
    ///
    /// ```text
    /// of the rows 011 and 000: m.first_in_row(0) == Some(1), m.first_in_row(1) == None
    /// ```
    pub fn first_in_row(&self, row: usize) -> Option<usize>
        requires { row < self.now.rows }
        ensures { MatchOption result ((j : ℕ) → j < self.now.columns → item self.now row j ≡ false)
            (λ column. (column < self.now.columns) × IsLead (item self.now row) column) }
    {
        self.row(row).first_one()
    }
}
