//! Iterators over sets, matrices and records, copied and shown.
use crate::{check, ok};
use bit_containers::{BitList, BitVec, Lsb0, Msb0};
use bit_matrix::Matrix;
use bit_ranks::RankedBits;
use bit_records::Records;
use bit_sets::{NumberSet, SortedNumbers};

#[test]
fn numbers_in_a_range(rt: HostRuntime) {
    let set = ok(&rt, NumberSet::from_numbers(rt.alloc(), 8, &[2, 3, 7]));
    let mut range = set.range(3..);
    let copy = ok(&rt, range.clone());
    check(&rt, range.next() == Some(3));
    let text = ok(&rt, format!(in rt.alloc(); "{range:?} {copy:?}"));
    check(&rt, text.as_str() == "[7] [3, 7]");
}

#[test]
fn numbers_of_two_sets(rt: HostRuntime) {
    let left = ok(&rt, NumberSet::from_numbers(rt.alloc(), 8, &[2, 3]));
    let right = ok(&rt, NumberSet::from_numbers(rt.alloc(), 8, &[3, 7]));
    let mut union = left.union(&right);
    let copy = ok(&rt, union.clone());
    check(&rt, union.next() == Some(2));
    let text = ok(&rt, format!(in rt.alloc(); "{union:?} {copy:?}"));
    check(&rt, text.as_str() == "[3, 7] [2, 3, 7]");
}

#[test]
fn sorted_numbers(rt: HostRuntime) {
    let numbers = ok(&rt, SortedNumbers::from_slice(rt.alloc(), &[2, 3, 9, 9]));
    let mut left = numbers.iter();
    let copy = ok(&rt, left.clone());
    check(&rt, left.next_back() == Some(9));
    let text = ok(&rt, format!(in rt.alloc(); "{left:?} {copy:?}"));
    check(&rt, text.as_str() == "[2, 3, 9] [2, 3, 9, 9]");
}

#[test]
fn numbers_of_records(rt: HostRuntime) {
    let mut records = Records::<u8, Lsb0>::new(rt.alloc(), 5).unwrap();
    ok(&rt, records.extend_from_slice(&[1, 31, 0]));
    let mut left = records.iter();
    let copy = ok(&rt, left.clone());
    check(&rt, left.next() == Some(1));
    let text = ok(&rt, format!(in rt.alloc(); "{left:?} {copy:?}"));
    check(&rt, text.as_str() == "[31, 0] [1, 31, 0]");
}

#[test]
fn rows_and_a_column(rt: HostRuntime) {
    let matrix = ok(&rt, Matrix::identity(rt.alloc(), 2));
    let mut rows = matrix.iter_rows();
    let copy = ok(&rt, rows.clone());
    check(&rt, rows.next().is_some());
    let text = ok(&rt, format!(in rt.alloc(); "{rows:?} {copy:?}"));
    check(
        &rt,
        text.as_str()
            == "[BitSlice { head: 0, bits: 2 } [0, 1]] [BitSlice { head: 0, bits: 2 } [1, 0], BitSlice { head: 0, bits: 2 } [0, 1]]",
    );
    assert!(rt; matrix.columns() == 2);
    let column = ok(&rt, matrix.column(1).clone());
    let text = ok(&rt, format!(in rt.alloc(); "{column:?}"));
    check(&rt, text.as_str() == "[false, true]");
}

#[test]
fn ones_of_ranked_bits(rt: HostRuntime) {
    let bits = ok(&rt, BitVec::<u8, Msb0>::from_text(rt.alloc(), "0110100"));
    let ranked = ok(&rt, RankedBits::from_vec(rt.alloc(), bits));
    check(&rt, ranked.iter_ones_from(1).len() == 2);
    let text = ok(
        &rt,
        format!(in rt.alloc(); "{:?}", ranked.iter_ones_from(1)),
    );
    check(
        &rt,
        text.as_str()
            == "OnesFrom { base: 2, left: 2 } IterOnes { from: 0, upto: 5 } [1, 0, 1, 0, 0]",
    );
    check(&rt, ranked.iter_ones_from(3).next().is_none());
}
