//! Matrices made of rows, and rows that are written.
use crate::matrices::bit;
use crate::{check, ok};
use bit_addressing::{Lsb0, Msb0};
use bit_containers::{BitList, BitSlice, BitVec};
use bit_matrix::{Matrix, RowsFault};
use std::process::Abort;

#[test]
fn rows_that_are_written(rt: HostRuntime) {
    let bits = ok(
        &rt,
        BitVec::<u8, Msb0>::from_indices(rt.alloc(), 70, &[0, 7, 69]),
    );
    let mut matrix = ok(&rt, Matrix::new(rt.alloc(), 3, 70));
    assert!(rt; matrix.rows() == 3);
    assert!(rt; matrix.columns() == bits.len());
    matrix.set_row(1, bits.as_bitslice());
    for column in 0..70 {
        let set = column == 0 || column == 7 || column == 69;
        check(&rt, bit(&matrix, 1, column) == set);
        check(&rt, !bit(&matrix, 0, column));
        check(&rt, !bit(&matrix, 2, column));
    }
}

#[test]
fn a_matrix_of_views(rt: HostRuntime) {
    let words = [0b0110u8, 0b1011];
    let view = BitSlice::<u8, Lsb0>::from_slice(&words);
    assert!(rt; view.len() == 16);
    let rows = [view.get_range(0..3), view.get_range(8..11)];
    let matrix = ok(&rt, Matrix::from_rows(rt.alloc(), &rows));
    let text = ok(&rt, matrix.to_string(rt.alloc()));
    check(&rt, text.as_str() == "011\n110\n");
}

#[test]
fn a_matrix_of_a_function(rt: HostRuntime) {
    let mut below = |row: usize, column: usize| row < column;
    let matrix = ok(&rt, Matrix::from_fn(rt.alloc(), 2, 3, &mut below));
    let text = ok(&rt, matrix.to_string(rt.alloc()));
    check(&rt, text.as_str() == "011\n001\n");
}

#[test]
fn no_matrix(rt: HostRuntime) {
    let words = [0b0110u8, 0b1011];
    let view = BitSlice::<u8, Lsb0>::from_slice(&words);
    assert!(rt; view.len() == 16);
    let rows = [view.get_range(0..3), view.get_range(8..12)];
    check(
        &rt,
        matches!(
            Matrix::from_rows(rt.alloc(), &rows),
            Err(RowsFault::UnequalLengths)
        ),
    );
}

#[test]
fn a_matrix_of_no_rows(rt: HostRuntime) {
    let rows: [BitVec<u64, Lsb0>; 0] = [];
    let matrix = ok(&rt, Matrix::from_rows(rt.alloc(), &rows));
    check(&rt, matrix.rows() == 0);
    check(&rt, matrix.columns() == 0);
}
