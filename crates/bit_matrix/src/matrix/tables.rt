//! Products by the sums of eight rows at a time.
ghost use Rattle.std.specs.Prelude.{◌≡◌, ℕ, ◌+◌, ◌^◌, ◌<◌, ◌≤◌, ◌&&◌, ◌||◌, false};
ghost use Rattle.bit_addressing.specs.Bits.{has_bit};
ghost use Rattle.bit_matrix.specs.Matrix.{AreAlike, any_below, item, plus_mod_2, sum_mod_2};

use crate::matrix::Matrix;

impl Matrix {
    // Ors into each row the rows of `right` whose indices are set in that row of `left`, eight of them at a time: row `x`
    // of `sums` becomes the or of those of the eight whose bits are set in `x`. Requires that `sums` has 256 rows, of
    // which the first is false.
    pub(super) fn or_products(&mut self, left: &Self, right: &Self, sums: &mut Self)
        requires rows { left.now.rows ≡ self.old.rows }
        requires columns { right.now.columns ≡ self.old.columns }
        requires middle { right.now.rows ≡ left.now.columns }
        requires room { sums.old.rows ≡ 256 }
        requires wide { sums.old.columns ≡ self.old.columns }
        requires empty { (j : ℕ) → j < sums.old.columns → item sums.old 0 j ≡ false }
        ensures alike { AreAlike self.new self.old }
        ensures items { (i j : ℕ) → i < self.old.rows → j < self.old.columns
            → item self.new i j ≡ (item self.old i j
            || any_below (λ k. item left.now i k && item right.now k j) left.now.columns) }
    {
        let columns = left.columns();
        let mut start = 0;
        while start < columns {
            let count = (columns - start).min(8);
            sums.fill_sums(right, start, count as u32);
            self.or_sums(left, sums, start, count);
            start += count;
        }
    }

    // Makes row `x` the or of the rows of `right` from `start` on whose bits are set in `x`, for each `x` of `count` bits.
    fn fill_sums(&mut self, right: &Self, start: usize, count: u32)
        requires few { count ≤ 8 }
        requires within { start + count ≤ right.now.rows }
        requires fits { start + count < 2 ^ 64 }
        requires room { self.old.rows ≡ 256 }
        requires wide { right.now.columns ≡ self.old.columns }
        requires empty { (j : ℕ) → j < self.old.columns → item self.old 0 j ≡ false }
        ensures alike { AreAlike self.new self.old }
        ensures sums { (x j : ℕ) → x < 2 ^ count → j < self.old.columns
            → item self.new x j ≡ any_below (λ p. has_bit x p && item right.now (start + p) j) count }
        ensures empty { (j : ℕ) → j < self.old.columns → item self.new 0 j ≡ false }
    {
        for place in 0..count {
            self.double_sums(right, start + place as usize, place);
        }
    }

    // Makes each of the `2 ^ place` rows from that number on the or of the row that is as far from the first one, and of
    // a row of `right`.
    fn double_sums(&mut self, right: &Self, row: usize, place: u32)
        requires few { place < 8 }
        requires row { row < right.now.rows }
        requires room { self.old.rows ≡ 256 }
        requires wide { right.now.columns ≡ self.old.columns }
        ensures alike { AreAlike self.new self.old }
        ensures low { (x j : ℕ) → x < 2 ^ place → j < self.old.columns → item self.new x j ≡ item self.old x j }
        ensures high { (x j : ℕ) → x < 2 ^ place → j < self.old.columns
            → item self.new (x + 2 ^ place) j ≡ (item self.old x j || item right.now row j) }
    {
        let half = half_of(place);
        for x in 0..half {
            self.copy_row(x, x + half);
            self.or_row_of(right, row, x + half);
        }
    }

    // Ors into each row the row of `sums` whose number is that of up to eight bits of the row of `left`, from `start` on.
    fn or_sums(&mut self, left: &Self, sums: &Self, start: usize, count: usize)
        requires few { count ≤ 8 }
        requires within { start + count ≤ left.now.columns }
        requires rows { left.now.rows ≡ self.old.rows }
        requires room { sums.now.rows ≡ 256 }
        requires wide { sums.now.columns ≡ self.old.columns }
        ensures alike { AreAlike self.new self.old }
        ensures items { (i j : ℕ) → i < self.old.rows → j < self.old.columns → (part : ℕ) × (part < 2 ^ count)
            × ((p : ℕ) → p < count → has_bit part p ≡ item left.now i (start + p))
            × (item self.new i j ≡ (item self.old i j || item sums.now part j)) }
    {
        for row in 0..self.rows() {
            let part = low_part(left.read_part(row, start, count), count as u32);
            self.or_row_of(sums, part, row);
        }
    }

    // Like `or_products`, for sums mod 2.
    pub(super) fn xor_products(&mut self, left: &Self, right: &Self, sums: &mut Self)
        requires rows { left.now.rows ≡ self.old.rows }
        requires columns { right.now.columns ≡ self.old.columns }
        requires middle { right.now.rows ≡ left.now.columns }
        requires room { sums.old.rows ≡ 256 }
        requires wide { sums.old.columns ≡ self.old.columns }
        requires empty { (j : ℕ) → j < sums.old.columns → item sums.old 0 j ≡ false }
        ensures alike { AreAlike self.new self.old }
        ensures items { (i j : ℕ) → i < self.old.rows → j < self.old.columns
            → item self.new i j ≡ plus_mod_2 (item self.old i j)
            (sum_mod_2 (λ k. item left.now i k && item right.now k j) left.now.columns) }
    {
        let columns = left.columns();
        let mut start = 0;
        while start < columns {
            let count = (columns - start).min(8);
            sums.fill_sums_mod_2(right, start, count as u32);
            self.xor_sums(left, sums, start, count);
            start += count;
        }
    }

    // Like `fill_sums`, for sums mod 2.
    fn fill_sums_mod_2(&mut self, right: &Self, start: usize, count: u32)
        requires few { count ≤ 8 }
        requires within { start + count ≤ right.now.rows }
        requires fits { start + count < 2 ^ 64 }
        requires room { self.old.rows ≡ 256 }
        requires wide { right.now.columns ≡ self.old.columns }
        requires empty { (j : ℕ) → j < self.old.columns → item self.old 0 j ≡ false }
        ensures alike { AreAlike self.new self.old }
        ensures sums { (x j : ℕ) → x < 2 ^ count → j < self.old.columns
            → item self.new x j ≡ sum_mod_2 (λ p. has_bit x p && item right.now (start + p) j) count }
        ensures empty { (j : ℕ) → j < self.old.columns → item self.new 0 j ≡ false }
    {
        for place in 0..count {
            self.double_sums_mod_2(right, start + place as usize, place);
        }
    }

    // Like `double_sums`, for sums mod 2.
    fn double_sums_mod_2(&mut self, right: &Self, row: usize, place: u32)
        requires few { place < 8 }
        requires row { row < right.now.rows }
        requires room { self.old.rows ≡ 256 }
        requires wide { right.now.columns ≡ self.old.columns }
        ensures alike { AreAlike self.new self.old }
        ensures low { (x j : ℕ) → x < 2 ^ place → j < self.old.columns → item self.new x j ≡ item self.old x j }
        ensures high { (x j : ℕ) → x < 2 ^ place → j < self.old.columns
            → item self.new (x + 2 ^ place) j ≡ plus_mod_2 (item self.old x j) (item right.now row j) }
    {
        let half = half_of(place);
        for x in 0..half {
            self.copy_row(x, x + half);
            self.xor_row_of(right, row, x + half);
        }
    }

    // Like `or_sums`, for sums mod 2.
    fn xor_sums(&mut self, left: &Self, sums: &Self, start: usize, count: usize)
        requires few { count ≤ 8 }
        requires within { start + count ≤ left.now.columns }
        requires rows { left.now.rows ≡ self.old.rows }
        requires room { sums.now.rows ≡ 256 }
        requires wide { sums.now.columns ≡ self.old.columns }
        ensures alike { AreAlike self.new self.old }
        ensures items { (i j : ℕ) → i < self.old.rows → j < self.old.columns → (part : ℕ) × (part < 2 ^ count)
            × ((p : ℕ) → p < count → has_bit part p ≡ item left.now i (start + p))
            × (item self.new i j ≡ plus_mod_2 (item self.old i j) (item sums.now part j)) }
    {
        for row in 0..self.rows() {
            let part = low_part(left.read_part(row, start, count), count as u32);
            self.xor_row_of(sums, part, row);
        }
    }
}

// The count of numbers of `place` bits.
#[inline(always)]
fn half_of(place: u32) -> usize
    requires { place < 8 }
    ensures half { result ≡ 2 ^ place }
    ensures few { result ≤ 128 }
{
    1 << place
}

// The lowest `count` bits of a number, at most eight, as an index.
#[inline(always)]
fn low_part(number: u64, count: u32) -> usize
    requires { count ≤ 8 }
    ensures bits { (p : ℕ) → p < count → has_bit result p ≡ has_bit number p }
    ensures low { result < 2 ^ count }
    ensures few { result < 256 }
{
    (number % (1 << count)) as usize
}
