//! Two lists of runs combined. They are read a stretch at a time, the numbers up to the next one where a run of either list
//! begins or ends: each list has all of these, or none.
ghost use Rattle.std.specs.Prelude.{◌≤◌, ◌<◌, ◌+◌, IfOk, length, slice_index_or};
ghost use Rattle.bit_blocks.specs.Numbers.{Combines};
ghost use Rattle.bit_blocks.specs.Operation.{made_by};
ghost use Rattle.bit_blocks.specs.Runs.{AreRuns, run_numbers};
ghost use Rattle.bit_blocks.specs.RunPlaces.{EndBefore, IsEndedBefore, IsStretch};

use crate::listed::give_back;
use crate::mapped::COUNT;
use crate::operation::Operation;
use crate::ranged::{Run, push_run};
use std::alloc::{AllocError, Global};

// Whether `at` is in the runs, and a number above it: those in between are in the runs too, or none of them is. Requires that
// `i` runs end before `at`.
fn stretch(runs: &[Run], i: usize, at: usize) -> (bool, usize)
    requires runs { AreRuns runs.now }
    requires low { at < 65536 }
    requires within { i ≤ length runs.now }
    requires place { IsEndedBefore runs.now at i }
    ensures stretch { IsStretch runs.now at result.1 result.0 }
    ensures near { (d : Run) → i < length runs.now → result.1 ≤ (slice_index_or runs.now i d).last + 1 }
{
    if i == runs.len() {
        return (false, COUNT);
    }
    let run = runs[i];
    if run.first as usize <= at {
        (true, run.last as usize + 1)
    } else {
        (false, run.first as usize)
    }
}

// The count of runs that end before `upto`, where at least `i` do, and the next one not before the number before it.
fn advanced(runs: &[Run], i: usize, upto: usize) -> usize
    requires runs { AreRuns runs.now }
    requires within { i ≤ length runs.now }
    requires before { EndBefore runs.now upto i }
    requires near { (d : Run) → i < length runs.now → upto ≤ (slice_index_or runs.now i d).last + 1 }
    ensures within { result ≤ length runs.now }
    ensures place { IsEndedBefore runs.now upto result }
{
    if i < runs.len() && (runs[i].last as usize) < upto {
        i + 1
    } else {
        i
    }
}

// What an operation makes of two lists of runs. The last run, of the numbers from `first` on that are below `upto`, is appended
// once the next number that is kept does not follow it.
pub(crate) fn combined(
    alloc: Global,
    left: &[Run],
    right: &[Run],
    operation: Operation,
) -> Result<Vec<Run>, AllocError>
    requires left { AreRuns left.now }
    requires right { AreRuns right.now }
    ensures runs { IfOk result (λ made. AreRuns made.items) }
    ensures members { IfOk result (λ made. Combines (made_by operation) (run_numbers left.now) (run_numbers right.now) (run_numbers made.items)) }
{
    let mut made = Vec::with_capacity(alloc, left.len().saturating_add(right.len()))?;
    let (mut i, mut j, mut at) = (0, 0, 0);
    let (mut first, mut upto) = (0, 0);
    while at < COUNT {
        let (in_left, left_end) = stretch(left, i, at);
        let (in_right, right_end) = stretch(right, j, at);
        let end = left_end.min(right_end);
        if operation.keeps(in_left, in_right) {
            if at != upto {
                push_run(&mut made, first, upto)?;
                first = at;
            }
            upto = end;
        }
        i = advanced(left, i, end);
        j = advanced(right, j, end);
        at = end;
    }
    push_run(&mut made, first, upto)?;
    give_back(&mut made);
    Ok(made)
}
