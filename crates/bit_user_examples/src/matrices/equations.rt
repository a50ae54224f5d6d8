//! Echelon forms, solutions and kernels beside plain loops.
use crate::matrices::{bit, scattered, ways};
use crate::{check, ok};
use bit_addressing::Lsb0;
use bit_containers::{BitList, BitSlice, BitVec, ToBits};
use bit_matrix::Matrix;
use std::process::Abort;

#[test]
fn an_echelon_form(rt: HostRuntime) {
    let words = [0b110u8, 0b011, 0b101];
    let view = BitSlice::<u8, Lsb0>::from_slice(&words);
    assert!(rt; view.len() == 24);
    let rows = [
        view.get_range(0..3),
        view.get_range(8..11),
        view.get_range(16..19),
    ];
    let mut matrix = ok(&rt, Matrix::from_rows(rt.alloc(), &rows));
    check(&rt, matrix.reduce_mod_2() == 2);
    let text = ok(&rt, matrix.to_string(rt.alloc()));
    check(&rt, text.as_str() == "101\n011\n000\n");
    assert!(rt; matrix.rows() == 3);
    check(
        &rt,
        [matrix.first_in_row(1), matrix.first_in_row(2)] == [Some(1), None],
    );
}

// That a matrix is in reduced echelon form, with this rank.
fn is_reduced(rt: &impl Abort, matrix: &Matrix, rank: usize) {
    let mut after = 0;
    for row in 0..matrix.rows() {
        let lead = matrix.first_in_row(row);
        check(rt, lead.is_some() == (row < rank));
        if let Some(column) = lead {
            check(rt, column >= after);
            after = column.saturating_add(1);
            for other in 0..matrix.rows() {
                check(rt, bit(matrix, other, column) == (other == row));
            }
        }
    }
}

#[test]
fn echelon_forms(rt: HostRuntime) {
    for (rows, columns) in [(5, 70), (70, 5), (20, 20), (66, 67), (0, 3), (3, 0)] {
        let mut matrix = ok(&rt, scattered(rt.alloc(), rows, columns, 7));
        let rank = ok(&rt, matrix.rank_mod_2(rt.alloc()));
        check(&rt, matrix.reduce_mod_2() == rank);
        is_reduced(&rt, &matrix, rank);
    }
}

// That a vector times a matrix is another, bit by bit.
fn gives(
    rt: &impl Abort,
    matrix: &Matrix,
    vector: &BitVec<usize, Lsb0>,
    product: &BitVec<usize, Lsb0>,
) {
    check(rt, product.len() == matrix.rows());
    for row in 0..matrix.rows() {
        let mut odd = false;
        for column in 0..matrix.columns() {
            odd ^= bit(matrix, row, column) & (vector.get(column) == Some(true));
        }
        check(rt, product.get(row) == Some(odd));
    }
}

// That the equations with these right sides have a solution, which solves them, or none.
fn solves(
    rt: &(impl Abort + AllocGlobal),
    matrix: &Matrix,
    right: &BitVec<usize, Lsb0>,
    some: bool,
) {
    assert!(rt; right.len() == matrix.rows());
    let found = ok(rt, matrix.solve_mod_2(rt.alloc(), right.as_bitslice()));
    check(rt, found.is_some() == some);
    if let Some(solution) = found {
        check(rt, solution.len() == matrix.columns());
        gives(rt, matrix, &solution, right);
    }
}

#[test]
fn equations_with_solutions(rt: HostRuntime) {
    for (rows, columns) in [(5, 70), (70, 5), (20, 20), (66, 67), (0, 3), (3, 0)] {
        let matrix = ok(&rt, scattered(rt.alloc(), rows, columns, 7));
        let all = ok(
            &rt,
            BitVec::<usize, Lsb0>::from_indices(rt.alloc(), 200, &[0, 2, 3, 64, 65]),
        );
        assert!(rt; matrix.columns() <= 200);
        assert!(rt; all.len() == 200);
        let vector = ok(
            &rt,
            all.get_range(0..matrix.columns()).to_bitvec(rt.alloc()),
        );
        assert!(rt; vector.len() == matrix.columns());
        let right = ok(
            &rt,
            matrix.times_vector_mod_2(rt.alloc(), vector.as_bitslice()),
        );
        gives(&rt, &matrix, &vector, &right);
        solves(&rt, &matrix, &right, true);
    }
}

#[test]
fn equations_without_solutions(rt: HostRuntime) {
    let mut matrix = ok(&rt, scattered(rt.alloc(), 20, 70, 7));
    assert!(rt; matrix.rows() == 20);
    matrix.copy_row(3, 17);
    let one = ok(&rt, BitVec::from_indices(rt.alloc(), 20, &[3]));
    solves(&rt, &matrix, &one, false);
    let both = ok(&rt, BitVec::from_indices(rt.alloc(), 20, &[3, 17]));
    solves(&rt, &matrix, &both, true);
}

#[test]
fn kernels(rt: HostRuntime) {
    for (rows, columns) in [(5, 70), (70, 5), (20, 20), (66, 67), (0, 3), (3, 0)] {
        let matrix = ok(&rt, scattered(rt.alloc(), rows, columns, 7));
        let kernel = ok(&rt, matrix.kernel_mod_2(rt.alloc()));
        let rank = ok(&rt, matrix.rank_mod_2(rt.alloc()));
        check(&rt, kernel.columns() == columns);
        check(&rt, kernel.rows().saturating_add(rank) == columns);
        check(&rt, ok(&rt, kernel.rank_mod_2(rt.alloc())) == kernel.rows());
        let turned = ok(&rt, kernel.transpose(rt.alloc()));
        for row in 0..rows {
            for vector in 0..kernel.rows() {
                check(&rt, ways(&matrix, &turned, row, vector, columns) % 2 == 0);
            }
        }
    }
}
