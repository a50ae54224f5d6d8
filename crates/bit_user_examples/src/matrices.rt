//! Matrices beside plain loops.
mod callers;
mod equations;
mod graphs;
mod making;

use crate::{check, ok};
use bit_addressing::GrowError;
use bit_matrix::Matrix;
use std::alloc::Global;
use std::process::Abort;

// A matrix with bits here and there, the same at each run.
fn scattered(
    alloc: Global,
    rows: usize,
    columns: usize,
    mut seed: u64,
) -> Result<Matrix, GrowError> {
    let mut made = Matrix::new(alloc, rows, columns)?;
    for row in 0..rows {
        for column in 0..columns {
            seed = seed
                .wrapping_mul(6364136223846793005)
                .wrapping_add(1442695040888963407);
            if row < made.rows() && column < made.columns() {
                made.set(row, column, seed >> 63 == 1);
            }
        }
    }
    Ok(made)
}

// The bit in a row and a column, false where there is none.
fn bit(matrix: &Matrix, row: usize, column: usize) -> bool {
    row < matrix.rows() && column < matrix.columns() && matrix.get(row, column)
}

// How many of the first `middle` indices lead from a row to a column, up to the largest number.
fn ways(left: &Matrix, right: &Matrix, row: usize, column: usize, middle: usize) -> usize {
    let mut count: usize = 0;
    for k in 0..middle {
        if bit(left, row, k) & bit(right, k, column) {
            count = count.saturating_add(1);
        }
    }
    count
}

#[test]
fn rows_of_a_matrix(rt: HostRuntime) {
    let matrix = ok(&rt, scattered(rt.alloc(), 5, 70, 3));
    let mut rows = matrix.iter_rows();
    assert!(rt; rows.len() == 5);
    check(&rt, rows.size_hint() == (5, Some(5)));
    for row in 0..5 {
        let Some(view) = rows.next() else {
            panic!(rt; "a row is missing");
        };
        for column in 0..70 {
            check(&rt, view.get(column) == Some(bit(&matrix, row, column)));
        }
    }
    check(&rt, rows.next().is_none());
    check(&rt, rows.next_back().is_none());
}

#[test]
fn columns_of_a_matrix(rt: HostRuntime) {
    let matrix = ok(&rt, scattered(rt.alloc(), 5, 70, 3));
    assert!(rt; matrix.columns() == 70);
    for column in 0..70 {
        let mut bits = matrix.column(column);
        assert!(rt; bits.len() == 5);
        check(&rt, bits.next_back() == Some(bit(&matrix, 4, column)));
        for row in 0..4 {
            check(&rt, bits.next() == Some(bit(&matrix, row, column)));
        }
        check(&rt, bits.next().is_none());
        check(&rt, bits.next_back().is_none());
    }
}

#[test]
fn products(rt: HostRuntime) {
    let left = ok(&rt, scattered(rt.alloc(), 9, 70, 1));
    let right = ok(&rt, scattered(rt.alloc(), 70, 67, 2));
    assert!(rt; right.rows() == left.columns());
    let any = ok(&rt, left.times(rt.alloc(), &right));
    let sum = ok(&rt, left.times_mod_2(rt.alloc(), &right));
    assert!(rt; any.rows() == 9);
    assert!(rt; any.columns() == 67);
    assert!(rt; sum.rows() == 9);
    assert!(rt; sum.columns() == 67);
    for row in 0..9 {
        for column in 0..67 {
            let count = ways(&left, &right, row, column, 70);
            check(&rt, bit(&any, row, column) == (count > 0));
            check(&rt, bit(&sum, row, column) == (count % 2 == 1));
        }
    }
}

// A matrix with an inverse: true on the diagonal, false below it, and then its rows in another order.
fn invertible(alloc: Global, size: usize) -> Result<Matrix, GrowError> {
    let mut made = scattered(alloc, size, size, 3)?;
    for row in 0..size {
        for column in 0..=row.min(size) {
            if row < made.rows() && column < made.columns() {
                made.set(row, column, column == row);
            }
        }
    }
    for row in 0..size / 2 {
        if row < made.rows() && size - 1 - row < made.rows() {
            made.swap_rows(row, size - 1 - row);
        }
    }
    Ok(made)
}

#[test]
fn inverses(rt: HostRuntime) {
    let matrix = ok(&rt, invertible(rt.alloc(), 66));
    assert!(rt; matrix.rows() == matrix.columns());
    let inverse = ok(&rt, matrix.inverse_mod_2(rt.alloc()));
    assert!(rt; inverse.is_some());
    let inverse = inverse.unwrap();
    for row in 0..66 {
        for column in 0..66 {
            let one = row == column;
            let left = ways(&inverse, &matrix, row, column, 66);
            let right = ways(&matrix, &inverse, row, column, 66);
            check(&rt, (left % 2 == 1) == one);
            check(&rt, (right % 2 == 1) == one);
        }
    }
}

#[test]
fn no_inverse(rt: HostRuntime) {
    let mut matrix = ok(&rt, invertible(rt.alloc(), 66));
    assert!(rt; matrix.rows() == 66);
    assert!(rt; matrix.columns() == 66);
    matrix.copy_row(3, 40);
    check(&rt, ok(&rt, matrix.inverse_mod_2(rt.alloc())).is_none());
    let none = ok(&rt, Matrix::new(rt.alloc(), 0, 0));
    assert!(rt; none.rows() == none.columns());
    check(&rt, ok(&rt, none.inverse_mod_2(rt.alloc())).is_some());
}

#[test]
fn copies(rt: HostRuntime) {
    let mut matrix = ok(&rt, Matrix::identity(rt.alloc(), 3));
    assert!(rt; matrix.rows() == 3);
    assert!(rt; matrix.columns() == 3);
    let copy = ok(&rt, matrix.clone());
    check(&rt, copy == matrix);
    matrix.xor_row(2, 0);
    check(&rt, copy != matrix);
    check(&rt, matrix.row(0).len() == 3);
}

#[test]
fn text_of_a_matrix(rt: HostRuntime) {
    let mut matrix = ok(&rt, Matrix::identity(rt.alloc(), 3));
    assert!(rt; matrix.rows() == 3);
    matrix.xor_row(2, 0);
    let text = ok(&rt, matrix.to_string(rt.alloc()));
    check(&rt, text.as_str() == "101\n010\n001\n");
    let shown = ok(&rt, format!(in rt.alloc(); "{matrix:?}"));
    check(
        &rt,
        shown.as_str() == "Matrix { rows: 3, columns: 3, bits: [101, 010, 001] }",
    );
}

#[test]
fn turned_by_squares(rt: HostRuntime) {
    for (rows, columns) in [(64, 64), (1, 130), (130, 1), (63, 65), (129, 70)] {
        let matrix = ok(&rt, scattered(rt.alloc(), rows, columns, 5));
        let turned = ok(&rt, matrix.transpose(rt.alloc()));
        assert!(rt; turned.rows() == columns);
        assert!(rt; turned.columns() == rows);
        for row in 0..rows {
            for column in 0..columns {
                let old = bit(&matrix, row, column);
                check(&rt, bit(&turned, column, row) == old);
            }
        }
    }
}

// Whether the rows that a number names by its digits have a sum mod 2 of zero.
fn sums_to_zero(matrix: &Matrix, rows: usize, columns: usize, named: usize) -> bool {
    for column in 0..columns {
        let (mut odd, mut rest) = (false, named);
        for row in 0..rows {
            odd ^= (rest % 2 == 1) & bit(matrix, row, column);
            rest /= 2;
        }
        if odd {
            return false;
        }
    }
    true
}

// How many choices of rows have such a sum: 2 to the power of the rows without the rank.
fn zero_sums(matrix: &Matrix, rows: usize, columns: usize) -> usize {
    let mut count: usize = 0;
    for named in 0..128 {
        if sums_to_zero(matrix, rows, columns, named) {
            count = count.saturating_add(1);
        }
    }
    count
}

// The rank of a matrix.
fn rank(rt: &(impl Abort + AllocGlobal), matrix: Result<Matrix, GrowError>) -> usize {
    ok(rt, ok(rt, matrix).rank_mod_2(rt.alloc()))
}

#[test]
fn ranks(rt: HostRuntime) {
    for seed in 1..20 {
        for columns in [3, 6, 7, 70] {
            let matrix = ok(&rt, scattered(rt.alloc(), 7, columns, seed));
            let sums = zero_sums(&matrix, 7, columns);
            let rank = rank(&rt, Ok(matrix));
            check(&rt, rank <= 7 && sums == 1 << (7 - rank));
        }
    }
}

#[test]
fn ranks_that_are_known(rt: HostRuntime) {
    check(&rt, rank(&rt, Matrix::identity(rt.alloc(), 66)) == 66);
    check(&rt, rank(&rt, Matrix::new(rt.alloc(), 5, 0)) == 0);
    check(&rt, rank(&rt, Matrix::new(rt.alloc(), 5, 9)) == 0);
}

// A matrix of three rows with two bits in each, of which one row was or-ed to another, and copied.
fn three_rows(rt: &(impl Abort + AllocGlobal)) -> Matrix {
    let mut matrix = ok(rt, Matrix::new(rt.alloc(), 3, 70));
    assert!(rt; matrix.rows() == 3);
    assert!(rt; matrix.columns() == 70);
    matrix.set(0, 2, true);
    matrix.set(0, 69, true);
    matrix.set(2, 0, true);
    matrix.set(2, 69, true);
    matrix.or_row(0, 2);
    matrix.copy_row(2, 1);
    matrix.set(2, 2, false);
    matrix
}

#[test]
fn rows_into_columns(rt: HostRuntime) {
    let turned = ok(&rt, three_rows(&rt).transpose(rt.alloc()));
    assert!(rt; turned.rows() == 70);
    assert!(rt; turned.columns() == 3);
    for column in 0..70 {
        let expected = [
            column == 2 || column == 69,
            column == 0 || column == 2 || column == 69,
            column == 0 || column == 69,
        ];
        for row in 0..3 {
            let bit = turned.get(column, row);
            check(&rt, bit == expected[row]);
        }
    }
}

#[test]
fn no_rows_or_columns(rt: HostRuntime) {
    let mut none = ok(&rt, Matrix::new(rt.alloc(), 0, 0));
    assert!(rt; none.rows() == 0);
    assert!(rt; none.columns() == 0);
    none.close();
    assert!(rt; none.rows() == 0);
    let wide = ok(&rt, Matrix::new(rt.alloc(), 5, 0));
    let turned = ok(&rt, wide.transpose(rt.alloc()));
    assert!(rt; turned.rows() == 0);
    assert!(rt; turned.columns() == 5);
}

#[test]
fn too_many_bits(rt: HostRuntime) {
    check(
        &rt,
        matches!(
            Matrix::new(rt.alloc(), usize::MAX, 3),
            Err(GrowError::TooLong)
        ),
    );
    check(
        &rt,
        matches!(
            Matrix::new(rt.alloc(), 1 << 31, 1 << 30),
            Err(GrowError::TooLong)
        ),
    );
}

#[test]
fn sums(rt: HostRuntime) {
    let mut sum = ok(&rt, scattered(rt.alloc(), 9, 70, 1));
    let left = ok(&rt, sum.clone());
    let right = ok(&rt, scattered(rt.alloc(), 9, 70, 2));
    assert!(rt; right.rows() == sum.rows());
    assert!(rt; right.columns() == sum.columns());
    sum.add_mod_2(&right);
    for row in 0..9 {
        for column in 0..70 {
            let both = bit(&left, row, column) != bit(&right, row, column);
            check(&rt, bit(&sum, row, column) == both);
        }
    }
}

#[test]
fn columns_swapped(rt: HostRuntime) {
    let mut swapped = ok(&rt, scattered(rt.alloc(), 9, 70, 1));
    let matrix = ok(&rt, swapped.clone());
    assert!(rt; swapped.columns() == 70);
    swapped.swap_columns(3, 66);
    for row in 0..9 {
        for column in 0..70 {
            let from = match column {
                3 => 66,
                66 => 3,
                _ => column,
            };
            check(&rt, bit(&swapped, row, column) == bit(&matrix, row, from));
        }
    }
}
