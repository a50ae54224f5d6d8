//! Runs of numbers in a slice.
ghost use Rattle.std.specs.Prelude.{◌≡◌, ◌≤◌, ◌+◌, ◌-◌, ◌↔◌, ◌++◌, ℕ, IfOk, IsTrue, OnErr, OnOk, length, slice_get, true};
ghost use Rattle.std.specs.List.{range_with_len};
ghost use Rattle.bit_blocks.specs.Numbers.{Ascends, GainsBetween, LosesBetween, count_below, count_where, has, numbers_between};
ghost use Rattle.bit_blocks.specs.Runs.{AreRuns, run_below, run_numbers};
ghost use Rattle.bit_blocks.specs.RunPlaces.{Absorbs, EachMeets, IsBegunBefore, IsEndedBefore};

use crate::runs_left::RunsLeft;
use crate::splice;
use std::alloc::{AllocError, Global};

/// A run of numbers that follow one another.
#[derive(Clone, Copy, Debug, PartialEq, Eq)]
pub struct Run {
    /// The first number.
    pub first: u16,
    /// The last number.
    pub last: u16,
}

// The count of runs that begin at `number` or before it. Requires that they are in order and apart.
pub(crate) fn place_of(runs: &[Run], number: u16) -> usize
    requires { AreRuns runs.now }
    ensures within { result ≤ length runs.now }
    ensures split { IsBegunBefore runs.now number result }
{
    runs.partition_point(|run| run.first <= number)
}

// The count of runs that end before `number`. Requires that they are in order and apart.
pub(crate) fn ended_before(runs: &[Run], number: u16) -> usize
    requires { AreRuns runs.now }
    ensures within { result ≤ length runs.now }
    ensures split { IsEndedBefore runs.now number result }
{
    runs.partition_point(|run| run.last < number)
}

// The runs that have numbers from `first` to `last`. Requires that the runs are in order and apart.
pub(crate) fn meeting(runs: &[Run], first: u16, last: u16) -> &[Run]
    requires runs { AreRuns runs.now }
    requires ordered { first ≤ last }
    ensures runs { AreRuns result.now }
    ensures meet { EachMeets result.now first last }
    ensures same { numbers_between first last (run_numbers result.now) ≡ numbers_between first last (run_numbers runs.now) }
{
    let from = ended_before(runs, first);
    let upto = place_of(runs, last);
    &runs[from..upto]
}

// The runs that have numbers from the first one of others to their last one, and all runs where there are no others.
// Requires that the runs of each are in order and apart.
#[tactic(auto, using(crate::proofs::Combined::alike_beside, crate::proofs::Combined::runs_ordered))]
pub(crate) fn beside<'a>(runs: &'a [Run], others: &[Run]) -> &'a [Run]
    requires runs { AreRuns runs.now }
    requires others { AreRuns others.now }
    ensures runs { AreRuns result.now }
    ensures alike { (k : ℕ) → has (run_numbers others.now) k ≡ true → has (run_numbers result.now) k ≡ has (run_numbers runs.now) k }
{
    let count = others.len();
    if count == 0 {
        return runs;
    }
    meeting(runs, others[0].first, others[count - 1].last)
}

// Whether `number` is in one of the runs. Requires that they are in order and apart.
pub(crate) fn contains(runs: &[Run], number: u16) -> bool
    requires { AreRuns runs.now }
    ensures { result ≡ has (run_numbers runs.now) number }
{
    let after = place_of(runs, number);
    if after == 0 {
        return false;
    }
    number <= runs[after - 1].last
}

// The count of numbers of a run.
fn size_of(run: Run) -> usize
    requires { run.first ≤ run.last }
    ensures { result ≡ run.last + 1 - run.first }
{
    (run.last - run.first) as usize + 1
}

// The count of numbers in runs. Requires that these are in order and apart.
pub(crate) fn count(runs: &[Run]) -> usize
    requires { AreRuns runs.now }
    ensures { result ≡ length (run_numbers runs.now) }
{
    let mut count = 0;
    for run in runs {
        count += size_of(*run);
    }
    count
}

// The count of numbers in runs that are below `number`. Requires that the runs are in order and apart.
pub(crate) fn count_below(runs: &[Run], number: u16) -> usize
    requires { AreRuns runs.now }
    ensures { result ≡ count_below (run_numbers runs.now) number }
{
    let mut count = 0;
    for run in runs {
        if number <= run.first {
            return count;
        }
        count += (run.last as usize + 1).min(number as usize) - run.first as usize;
    }
    count
}

// The `k`-th number in runs, counted from 0. None exactly where there are at most `k`. Requires that the runs are in
// order and apart.
pub(crate) fn nth(runs: &[Run], k: usize) -> Option<u16>
    requires { AreRuns runs.now }
    ensures { result ≡ slice_get (run_numbers runs.now) k }
{
    let mut left = k;
    for run in runs {
        let size = size_of(*run);
        if left < size {
            return Some(run.first + left as u16);
        }
        left -= size;
    }
    None
}

// The count of numbers that are in both of two lists of runs, which are read side by side. Requires that the runs of
// each are in order and apart.
pub(crate) fn count_both(left: &[Run], right: &[Run]) -> usize
    requires left { AreRuns left.now }
    requires right { AreRuns right.now }
    ensures { result ≡ count_where (has (run_numbers right.now)) (run_numbers left.now) }
{
    let mut count = 0;
    let (mut i, mut j) = (0, 0);
    while i < left.len() && j < right.len() {
        let (run, other) = (left[i], right[j]);
        let first = run.first.max(other.first);
        let end = run.last.min(other.last) as usize + 1;
        count += end.saturating_sub(first as usize);
        if run.last < other.last {
            i += 1;
        } else {
            j += 1;
        }
    }
    count
}

// Whether two lists of runs have the same numbers. Requires that the runs of each are in order and apart.
pub(crate) fn are_same(runs: &[Run], others: &[Run]) -> bool
    requires left { AreRuns runs.now }
    requires right { AreRuns others.now }
    ensures { IsTrue result ↔ (run_numbers runs.now ≡ run_numbers others.now) }
{
    runs == others
}

// The runs of ascending numbers: as many as possible in each.
pub(crate) fn runs_of(alloc: Global, numbers: &[u16]) -> Result<Vec<Run>, AllocError>
    requires { Ascends numbers.now }
    ensures runs { IfOk result (λ runs. AreRuns runs.items) }
    ensures numbers { IfOk result (λ runs. run_numbers runs.items ≡ numbers.now) }
{
    let mut runs = Vec::new(alloc);
    if numbers.len() == 0 {
        return Ok(runs);
    }
    let (mut first, mut last) = (numbers[0], numbers[0]);
    for i in 1..numbers.len() {
        let number = numbers[i];
        if number as usize != last as usize + 1 {
            runs.push(Run { first, last })?;
            first = number;
        }
        last = number;
    }
    runs.push(Run { first, last })?;
    Ok(runs)
}

// One run.
#[tactic(auto, using(crate::proofs::Runs::one_is_run, crate::proofs::Runs::one_has))]
pub(crate) fn one_run(alloc: Global, first: u16, last: u16) -> Result<Vec<Run>, AllocError>
    requires { first ≤ last }
    ensures runs { IfOk result (λ runs. AreRuns runs.items) }
    ensures numbers { IfOk result (λ runs. run_numbers runs.items ≡ range_with_len first (last + 1 - first)) }
{
    let mut runs = Vec::new(alloc);
    runs.push(Run { first, last })?;
    Ok(runs)
}

// Appends the run of the numbers from `first` on that are below `upto`, if there are any.
pub(crate) fn push_run(made: &mut Vec<Run>, first: usize, upto: usize) -> Result<(), AllocError>
    requires { upto ≤ 65536 }
    ensures { OnOk result (made.new.items ≡ made.old.items ++ run_below first upto) }
{
    if first < upto {
        made.push(Run {
            first: first as u16,
            last: (upto - 1) as u16,
        })?;
    }
    Ok(())
}

// A run with all runs from place `from` on that it meets or that are next to it, and the place of the first that is not.
// Requires that the runs are in order and apart, and that those before `from` end before the number before the run.
fn absorbed(runs: &[Run], from: usize, run: Run) -> (Run, usize)
    requires runs { AreRuns runs.now }
    requires run { run.first ≤ run.last }
    requires within { from ≤ length runs.now }
    requires place { IsEndedBefore runs.now (run.first - 1) from }
    ensures { Absorbs runs.now from run result.0 result.1 }
{
    let mut all = run;
    let mut upto = from;
    while upto < runs.len() && runs[upto].first as usize <= all.last as usize + 1 {
        let next = runs[upto];
        all = Run {
            first: all.first.min(next.first),
            last: all.last.max(next.last),
        };
        upto += 1;
    }
    (all, upto)
}

// Puts in the numbers of a run. Where memory is refused, the runs are as they were. Requires that the runs are in order
// and apart.
pub(crate) fn insert_run(runs: &mut Vec<Run>, run: Run) -> Result<(), AllocError>
    requires runs { AreRuns runs.old.items }
    requires run { run.first ≤ run.last }
    ensures runs { AreRuns runs.new.items }
    ensures gains { OnOk result (GainsBetween (run_numbers runs.old.items) (run_numbers runs.new.items) run.first run.last) }
    ensures refused { OnErr result (runs.new.items ≡ runs.old.items) }
{
    let from = ended_before(runs, run.first.saturating_sub(1));
    let (all, upto) = absorbed(runs, from, run);
    splice::with_one(runs, from, upto, all)?;
    Ok(())
}

// Takes out the numbers of a run. Where memory is refused, the runs are as they were. Requires that the runs are in order
// and apart.
pub(crate) fn remove_run(runs: &mut Vec<Run>, run: Run) -> Result<(), AllocError>
    requires runs { AreRuns runs.old.items }
    requires run { run.first ≤ run.last }
    ensures runs { AreRuns runs.new.items }
    ensures loses { OnOk result (LosesBetween (run_numbers runs.old.items) (run_numbers runs.new.items) run.first run.last) }
    ensures refused { OnErr result (runs.new.items ≡ runs.old.items) }
{
    let from = ended_before(runs, run.first);
    let upto = place_of(runs, run.last);
    if upto <= from {
        return Ok(());
    }
    let (first, last) = (runs[from].first, runs[upto - 1].last);
    if first < run.first {
        let front = Run {
            first,
            last: run.first - 1,
        };
        if run.last < last {
            let back = Run {
                first: run.last + 1,
                last,
            };
            splice::with_two(runs, from, upto, front, back)?;
            return Ok(());
        }
        splice::with_one(runs, from, upto, front)?;
        return Ok(());
    }
    if run.last < last {
        let back = Run {
            first: run.last + 1,
            last,
        };
        splice::with_one(runs, from, upto, back)?;
        return Ok(());
    }
    splice::with_none(runs, from, upto);
    Ok(())
}

// A copy.
pub(crate) fn copied(alloc: Global, runs: &[Run]) -> Result<Vec<Run>, AllocError>
    ensures { IfOk result (λ copy. copy.items ≡ runs.now) }
{
    let mut copy = Vec::with_capacity(alloc, runs.len())?;
    copy.extend_from_slice(runs)?;
    Ok(copy)
}

// The numbers of runs. Requires that these are in order and apart.
pub(crate) fn list_of(alloc: Global, runs: &[Run]) -> Result<Vec<u16>, AllocError>
    requires { AreRuns runs.now }
    ensures { IfOk result (λ numbers. numbers.items ≡ run_numbers runs.now) }
{
    let mut numbers = Vec::with_capacity(alloc, count(runs))?;
    let mut left = RunsLeft::of(runs);
    while let Some(number) = left.pop_first() {
        numbers.push(number)?;
    }
    Ok(numbers)
}
