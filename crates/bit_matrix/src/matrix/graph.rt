//! Where paths lead in the graph that a square matrix stands for.
ghost use Rattle.std.specs.Prelude.{◌≡◌, ◌≢◌, ◌+◌, ◌<◌, ◌≤◌, ◌⊎◌, ◌↔◌, ◌&&◌, ◌||◌, ℕ, IsTrue, eqb, not, true};
ghost use Rattle.bit_addressing.specs.Bits.{has_bit};
ghost use Rattle.bit_matrix.specs.Matrix.{AreAlike, IsClosed, IsPath, IsPathOver, IsSet, LeadsOver};

use crate::matrix::Matrix;
use bit_slice::BitList;

impl Matrix {
    /// Makes the graph its transitive closure, by Warshall's algorithm: afterwards an edge leads from `i` to
    /// `j` exactly where a path of at least one edge led there before. Takes no memory. Requires that the
    /// matrix is square.
    pub fn close(&mut self)
        requires { self.old.rows ≡ self.old.columns }
        ensures alike { AreAlike self.new self.old }
        ensures paths { (i j : ℕ) → IsSet self.new i j ↔ IsPath (IsSet self.old) i j }
    {
        let mut start = 0;
        while start < self.rows() {
            let end = start + (self.rows() - start).min(64);
            self.lead_over(start, end);
            start = end;
        }
    }

    // Adds an edge from each node to each node to which a path leads whose inner nodes are those from `start` up to
    // `end`, at most 64.
    fn lead_over(&mut self, start: usize, end: usize)
        requires square { self.old.rows ≡ self.old.columns }
        requires order { start ≤ end }
        requires within { end ≤ self.old.rows }
        requires few { end ≤ start + 64 }
        ensures alike { AreAlike self.new self.old }
        ensures paths { (i j : ℕ) → IsSet self.new i j ↔ IsPathOver (IsSet self.old) start end i j }
    {
        self.close_block(start, end);
        let leading = self.leading(start, end);
        for row in 0..self.rows() {
            self.lead_row(row, start, end, leading);
        }
    }

    // Like `lead_over`, for paths that begin at the nodes from `start` up to `end`: it goes through
    // these nodes one by one.
    fn close_block(&mut self, start: usize, end: usize)
        requires square { self.old.rows ≡ self.old.columns }
        requires order { start ≤ end }
        requires within { end ≤ self.old.rows }
        ensures alike { AreAlike self.new self.old }
        ensures inside { (i j : ℕ) → start ≤ i → i < end → IsSet self.new i j
            ↔ IsPathOver (IsSet self.old) start end i j }
        ensures outside { (i j : ℕ) → (i < start) ⊎ (end ≤ i) → IsSet self.new i j ↔ IsSet self.old i j }
    {
        for middle in start..end {
            self.lead_through(middle, start, end);
        }
    }

    // For each node from `start` up to `end` with an edge to `middle`, adds an edge from it to each node to which
    // an edge leads from `middle`.
    fn lead_through(&mut self, middle: usize, start: usize, end: usize)
        requires square { self.old.rows ≡ self.old.columns }
        requires order { start ≤ end }
        requires within { end ≤ self.old.rows }
        requires node { middle < self.old.rows }
        ensures alike { AreAlike self.new self.old }
        ensures edges { (i j : ℕ) → IsSet self.new i j
            ↔ (IsSet self.old i j ⊎ ((start ≤ i) × (i < end) × IsSet self.old i middle × IsSet self.old middle j)) }
    {
        for row in start..end {
            self.lead_row_through(row, middle);
        }
    }

    // Like `lead_through`, for one node alone.
    #[tactic(auto, using(crate::proofs::Grids::row_leads, crate::proofs::Grids::row_leads_not))]
    fn lead_row_through(&mut self, row: usize, middle: usize)
        requires square { self.old.rows ≡ self.old.columns }
        requires row { row < self.old.rows }
        requires node { middle < self.old.rows }
        ensures alike { AreAlike self.new self.old }
        ensures edges { (i j : ℕ) → IsSet self.new i j
            ↔ (IsSet self.old i j ⊎ ((i ≡ row) × IsSet self.old row middle × IsSet self.old middle j)) }
    {
        if self.get(row, middle) {
            self.or_row(middle, row);
        }
    }

    // The nodes from `start` up to `end`, at most 64, from which an edge leads: bit `p` is that of node `start + p`.
    fn leading(&self, start: usize, end: usize) -> u64
        requires order { start ≤ end }
        requires within { end ≤ self.now.rows }
        requires few { end ≤ start + 64 }
        ensures { (p j : ℕ) → start + p < end → IsSet self.now (start + p) j → has_bit result p ≡ true }
    {
        let mut leading = 0u64;
        for row in start..end {
            if self.leads(row) {
                leading |= 1u64 << (row - start);
            }
        }
        leading
    }

    // Whether an edge leads from a node.
    fn leads(&self, row: usize) -> bool
        requires { row < self.now.rows }
        ensures { (j : ℕ) → IsSet self.now row j → IsTrue result }
    {
        self.row(row).any()
    }

    // For each node from `start` up to `end`, at most 64, to which an edge leads from `row`, adds an edge from `row`
    // to each node to which an edge leads from it. Nodes whose bits in `leading` are not set have no edge, and are
    // skipped. Requires that these nodes are closed: the edges of one of them include those of each other one to
    // which it has an edge, so these others are skipped after it.
    fn lead_row(&mut self, row: usize, start: usize, end: usize, leading: u64)
        requires square { self.old.rows ≡ self.old.columns }
        requires row { row < self.old.rows }
        requires order { start ≤ end }
        requires within { end ≤ self.old.rows }
        requires few { end ≤ start + 64 }
        requires closed { IsClosed (IsSet self.old) start end }
        requires leading { (p j : ℕ) → start + p < end → IsSet self.old (start + p) j → has_bit leading p ≡ true }
        ensures alike { AreAlike self.new self.old }
        ensures edges { (i j : ℕ) → IsSet self.new i j
            ↔ (IsSet self.old i j ⊎ ((i ≡ row) × LeadsOver (IsSet self.old) start end row j)) }
    {
        let count = end - start;
        let mut chunk = self.read_part(row, start, count) & leading;
        while chunk != 0 {
            let place = chunk.trailing_zeros();
            let middle = start + place as usize;
            let covered = self.read_part(middle, start, count);
            self.or_row(middle, row);
            chunk = left_of(chunk, place, covered);
        }
    }
}

// The set bits of a number without the one at `place` and those that are set in `covered`.
fn left_of(chunk: u64, place: u32, covered: u64) -> u64
    requires { place < 64 }
    ensures bits { (p : ℕ) → has_bit result p ≡ (has_bit chunk p && not (eqb p place || has_bit covered p)) }
    ensures smaller { has_bit chunk place ≡ true → result < chunk }
{
    chunk & !(1u64 << place | covered)
}
