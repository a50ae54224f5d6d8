//! How the numbers of a block are kept.
ghost use Rattle.std.specs.Prelude.{◌≡◌, ◌≤◌, ◌<◌, ◌+◌, ◌-◌, ◌/◌, ◌↔◌, Bool, IfOk, IfSome, IsTrue, OnErr, OnOk, false, length, not, slice_get, true};
ghost use Rattle.std.specs.List.{range_with_len};
ghost use Rattle.bit_slice.specs.BitSlice.{len_of, list_of};
ghost use Rattle.bit_slice.specs.Places.{ones_of};
ghost use Rattle.bit_blocks.specs.Bits.{AreBits};
ghost use Rattle.bit_blocks.specs.BlockLeft.{form_left};
ghost use Rattle.bit_blocks.specs.Form.{AreListed, IsForm, IsSmallest, is_ranged, numbers_of};
ghost use Rattle.bit_blocks.specs.Numbers.{Ascends, Combines, Gains, GainsBetween, Loses, LosesBetween, count_below, count_where, has, numbers_between};
ghost use Rattle.bit_blocks.specs.Operation.{made_by};
ghost use Rattle.bit_blocks.specs.Runs.{AreRuns, numbers_of_run, run_numbers, runs_of, runs_pay};

use crate::iter::{Left, OnesLeft};
use crate::listed::LISTED;
use crate::mapped::Bits;
use crate::operation::Operation;
use crate::ranged::Run;
use crate::runs_left::RunsLeft;
use crate::{listed, mapped, ranged, stretches};
use bit_addressing::Lsb0;
use bit_containers::{BitList, BitListMut, BitSlice};
use std::alloc::{AllocError, Global};

// A sorted list of at most `LISTED` numbers, a bit for each number where there are more, or runs. The bits lie apart, so
// that a form takes no more room than a list does.
#[derive(Drop)]
pub(crate) enum Form {
    Listed(Vec<u16>),
    Mapped(Box<Bits>),
    Ranged(Vec<Run>),
}

// Ascending numbers as a list where they are few, and else as bits.
pub(crate) fn of_list(numbers: Vec<u16>) -> Result<Form, AllocError>
    requires { Ascends numbers.items }
    ensures numbers { IfOk result (λ form. numbers_of form ≡ numbers.items) }
    ensures form { IfOk result (λ form. IsForm form) }
    ensures plain { IfOk result (λ form. is_ranged form ≡ false) }
{
    if numbers.len() <= LISTED {
        return Ok(Form::Listed(numbers));
    }
    let alloc = *numbers.allocator();
    let bits = bits_of_list(alloc, &numbers)?;
    mapped_form(alloc, bits)
}

// Bits of more numbers than a list may have, as they are.
fn mapped_form(alloc: Global, bits: Bits) -> Result<Form, AllocError>
    requires size { AreBits bits.list }
    requires many { 4096 < length (ones_of bits.list) }
    ensures numbers { IfOk result (λ form. numbers_of form ≡ ones_of bits.list) }
    ensures form { IfOk result (λ form. IsForm form) }
    ensures plain { IfOk result (λ form. is_ranged form ≡ false) }
{
    let Ok(apart) = Box::new(alloc, bits) else {
        return Err(AllocError);
    };
    Ok(Form::Mapped(apart))
}

// The count of numbers.
pub(crate) fn count(form: &Form) -> usize
    requires { IsForm form.now }
    ensures { result ≡ length (numbers_of form.now) }
{
    match form {
        Form::Listed(numbers) => numbers.len(),
        Form::Mapped(bits) => mapped::count(bits),
        Form::Ranged(runs) => ranged::count(runs),
    }
}

// Whether `number` is there.
pub(crate) fn contains(form: &Form, number: u16) -> bool
    requires { IsForm form.now }
    ensures { result ≡ has (numbers_of form.now) number }
{
    match form {
        Form::Listed(numbers) => listed::contains(numbers, number),
        Form::Mapped(bits) => mapped::contains(bits, number),
        Form::Ranged(runs) => ranged::contains(runs, number),
    }
}

// The count of numbers below `number`.
pub(crate) fn rank(form: &Form, number: u16) -> usize
    requires { IsForm form.now }
    ensures { result ≡ count_below (numbers_of form.now) number }
{
    match form {
        Form::Listed(numbers) => listed::place_of(numbers, number),
        Form::Mapped(bits) => mapped::count_below(bits, number),
        Form::Ranged(runs) => ranged::count_below(runs, number),
    }
}

// The `k`-th number, counted from 0. None exactly where there are at most `k`.
pub(crate) fn select(form: &Form, k: usize) -> Option<u16>
    requires { IsForm form.now }
    ensures { result ≡ slice_get (numbers_of form.now) k }
{
    match form {
        Form::Listed(numbers) => numbers.get(k).copied(),
        Form::Mapped(bits) => mapped::nth(bits, k),
        Form::Ranged(runs) => ranged::nth(runs, k),
    }
}

// The numbers as bits.
pub(crate) fn bits_of(alloc: Global, form: &Form) -> Result<Bits, AllocError>
    requires { IsForm form.now }
    ensures size { IfOk result (λ bits. AreBits bits.list) }
    ensures numbers { IfOk result (λ bits. ones_of bits.list ≡ numbers_of form.now) }
{
    match form {
        Form::Listed(numbers) => bits_of_list(alloc, numbers),
        Form::Mapped(bits) => mapped::copied(bits),
        Form::Ranged(runs) => bits_of_runs(alloc, runs),
    }
}

// Ascending numbers as bits.
#[tactic(auto, using(crate::proofs::Bits::ones_put, crate::proofs::Operations::keeps_left_alone))]
fn bits_of_list(alloc: Global, numbers: &[u16]) -> Result<Bits, AllocError>
    requires { Ascends numbers.now }
    ensures size { IfOk result (λ bits. AreBits bits.list) }
    ensures numbers { IfOk result (λ bits. ones_of bits.list ≡ numbers.now) }
{
    let mut bits = mapped::empty(alloc)?;
    let _count = mapped::change_list(&mut bits, 0, numbers, Operation::Union);
    Ok(bits)
}

// The numbers of runs as bits.
#[tactic(auto, using(crate::proofs::Bits::ones_put, crate::proofs::Runs::ascends_all))]
fn bits_of_runs(alloc: Global, runs: &[Run]) -> Result<Bits, AllocError>
    requires { AreRuns runs.now }
    ensures size { IfOk result (λ bits. AreBits bits.list) }
    ensures numbers { IfOk result (λ bits. ones_of bits.list ≡ run_numbers runs.now) }
{
    let mut bits = mapped::empty(alloc)?;
    mapped::put_runs(&mut bits, runs);
    Ok(bits)
}

// Bits as a list where that takes less, and else as they are.
pub(crate) fn form_of(alloc: Global, bits: Bits) -> Result<Form, AllocError>
    requires { AreBits bits.list }
    ensures numbers { IfOk result (λ form. numbers_of form ≡ ones_of bits.list) }
    ensures form { IfOk result (λ form. IsForm form) }
{
    let count = mapped::count(&bits);
    form_of_counted(alloc, bits, count)
}

// Like `form_of`, of bits of which `count` are true.
#[tactic(auto, using(crate::proofs::Bits::ascends_listed))]
pub(crate) fn form_of_counted(alloc: Global, bits: Bits, count: usize) -> Result<Form, AllocError>
    requires size { AreBits bits.list }
    requires count { count ≡ length (ones_of bits.list) }
    ensures numbers { IfOk result (λ form. numbers_of form ≡ ones_of bits.list) }
    ensures form { IfOk result (λ form. IsForm form) }
{
    if count <= LISTED {
        let numbers = mapped::list_of(alloc, &bits)?;
        return Ok(Form::Listed(numbers));
    }
    mapped_form(alloc, bits)
}

// A list is read beside another unless one is this many times as long as the other. Then each number of the short list is
// searched for in the long one, which takes fewer steps.
const LONGER: usize = 32;

// Whether neither of two lengths is `LONGER` times the other.
fn are_alike(left: usize, right: usize) -> bool
    ensures { IsTrue result ↔ ((right / 32 < left) × (left / 32 < right)) }
{
    right / LONGER < left && left / LONGER < right
}

// Whether two lists of these lengths are read side by side to combine them. Where this would make a list of more than
// `LISTED` numbers, it is false.
fn are_merged(left: usize, right: usize, operation: Operation) -> bool
    requires left { left ≤ 4096 }
    requires right { right ≤ 4096 }
    ensures few { IsTrue result → made_by operation false true ≡ true → left + right ≤ 4096 }
{
    match operation {
        Operation::Intersection => are_alike(left, right),
        Operation::Difference => right / LONGER < left,
        Operation::Union => left + right <= LISTED,
        Operation::SymmetricDifference => left + right <= LISTED,
    }
}

// What an operation makes of two forms.
pub(crate) fn combined(
    alloc: Global,
    left: &Form,
    right: &Form,
    operation: Operation,
) -> Result<Form, AllocError>
    requires left { IsForm left.now }
    requires right { IsForm right.now }
    ensures members { IfOk result (λ form. Combines (made_by operation) (numbers_of left.now) (numbers_of right.now) (numbers_of form)) }
    ensures form { IfOk result (λ form. IsForm form) }
{
    if let (Form::Listed(numbers), Form::Listed(others)) = (left, right) {
        if are_merged(numbers.len(), others.len(), operation) {
            let made = combined_lists(alloc, numbers, others, operation)?;
            return Ok(Form::Listed(made));
        }
        if others.len() < numbers.len() {
            return combined_with_list(alloc, left, others, operation);
        }
    }
    match (left, right) {
        (Form::Ranged(runs), Form::Ranged(others)) => combined_runs(alloc, runs, others, operation),
        (Form::Listed(numbers), _) => combined_list(alloc, numbers, right, operation),
        (_, Form::Listed(numbers)) => combined_with_list(alloc, left, numbers, operation),
        _ => combined_bits(alloc, left, right, operation),
    }
}

// Like `combined`, of two lists, as a list. The numbers of one that is much shorter are looked for in a copy of the other,
// where the operation leaves the numbers of this one alone as they are.
#[tactic(auto, using(crate::proofs::Operations::swapped_by_right, crate::proofs::Operations::keeps_left_alone, crate::proofs::Operations::keeps_right_alone))]
fn combined_lists(
    alloc: Global,
    left: &[u16],
    right: &[u16],
    operation: Operation,
) -> Result<Vec<u16>, AllocError>
    requires left { Ascends left.now }
    requires right { Ascends right.now }
    ensures members { IfOk result (λ made. Combines (made_by operation) left.now right.now made.items) }
    ensures ascends { IfOk result (λ made. Ascends made.items) }
    ensures few { IfOk result (λ made. length made.items ≤ length left.now + length right.now) }
{
    if operation.keeps_left() && right.len() < left.len() / LONGER {
        return listed::changed(alloc, left, right, operation);
    }
    if operation.keeps_right() && left.len() < right.len() / LONGER {
        return listed::changed(alloc, right, left, operation);
    }
    listed::combined(alloc, left, right, operation)
}

// Like `combined`, of a list and a form.
#[tactic(auto, using(crate::proofs::Operations::swapped_by_right, crate::proofs::Operations::keeps_right_alone))]
fn combined_list(
    alloc: Global,
    numbers: &[u16],
    form: &Form,
    operation: Operation,
) -> Result<Form, AllocError>
    requires numbers { AreListed numbers.now }
    requires form { IsForm form.now }
    ensures members { IfOk result (λ made. Combines (made_by operation) numbers.now (numbers_of form.now) (numbers_of made)) }
    ensures form { IfOk result (λ made. IsForm made) }
{
    if let Form::Ranged(runs) = form {
        if lie_in_runs(numbers) {
            let others = ranged::runs_of(alloc, numbers)?;
            return combined_runs(alloc, &others, runs, operation);
        }
    }
    if operation.keeps_right() {
        return changed_by_list(alloc, form, numbers, operation);
    }
    filtered_list(alloc, numbers, form, operation)
}

// Whether the numbers of a list take fewer bytes as runs.
fn lie_in_runs(numbers: &[u16]) -> bool
    requires { AreListed numbers.now }
{
    runs_pay(numbers.len(), listed::count_runs(numbers))
}

// Like `combined`, of a form and a list.
#[tactic(auto, using(crate::proofs::Operations::swapped_by_left, crate::proofs::Operations::keeps_left_alone, crate::proofs::Operations::drops_right))]
fn combined_with_list(
    alloc: Global,
    form: &Form,
    numbers: &[u16],
    operation: Operation,
) -> Result<Form, AllocError>
    requires form { IsForm form.now }
    requires numbers { AreListed numbers.now }
    ensures members { IfOk result (λ made. Combines (made_by operation) (numbers_of form.now) numbers.now (numbers_of made)) }
    ensures form { IfOk result (λ made. IsForm made) }
{
    if let Form::Ranged(runs) = form {
        if lie_in_runs(numbers) {
            let others = ranged::runs_of(alloc, numbers)?;
            return combined_runs(alloc, runs, &others, operation);
        }
    }
    if operation.keeps_left() {
        return changed_by_list(alloc, form, numbers, operation);
    }
    filtered_list(alloc, numbers, form, operation)
}

// Like `combined_list`, by an operation that keeps no number of the form alone: what is made has numbers of the list.
fn filtered_list(
    alloc: Global,
    numbers: &[u16],
    form: &Form,
    operation: Operation,
) -> Result<Form, AllocError>
    requires numbers { AreListed numbers.now }
    requires form { IsForm form.now }
    requires drops { made_by operation false true ≡ false }
    ensures members { IfOk result (λ made. Combines (made_by operation) numbers.now (numbers_of form.now) (numbers_of made)) }
    ensures form { IfOk result (λ made. IsForm made) }
{
    let mut kept = listed::copied(alloc, numbers)?;
    kept.retain(|number| operation.keeps(true, contains(form, *number)));
    listed::give_back(&mut kept);
    Ok(Form::Listed(kept))
}

// Like `combined_with_list`, by an operation that leaves each number that is not of the list as it is.
fn changed_by_list(
    alloc: Global,
    form: &Form,
    numbers: &[u16],
    operation: Operation,
) -> Result<Form, AllocError>
    requires form { IsForm form.now }
    requires numbers { AreListed numbers.now }
    requires keeps { (b : Bool) → made_by operation b false ≡ b }
    ensures members { IfOk result (λ made. Combines (made_by operation) (numbers_of form.now) numbers.now (numbers_of made)) }
    ensures form { IfOk result (λ made. IsForm made) }
{
    let mut bits = bits_of(alloc, form)?;
    let count = mapped::change_list(&mut bits, count(form), numbers, operation);
    form_of_counted(alloc, bits, count)
}

// Like `combined`, of two lists of runs. Those of the longer list that lie past the ends of the other are not looked at,
// where the operation keeps none of their numbers.
#[tactic(auto, using(crate::proofs::Operations::right_beside, crate::proofs::Operations::left_beside))]
fn combined_runs(
    alloc: Global,
    left: &[Run],
    right: &[Run],
    operation: Operation,
) -> Result<Form, AllocError>
    requires left { AreRuns left.now }
    requires right { AreRuns right.now }
    ensures members { IfOk result (λ form. Combines (made_by operation) (run_numbers left.now) (run_numbers right.now) (numbers_of form)) }
    ensures form { IfOk result (λ form. IsForm form) }
{
    if left.len() < right.len() && !operation.keeps_right() {
        let near = ranged::beside(right, left);
        let form = combined_all_runs(alloc, left, near, operation)?;
        return Ok(form);
    }
    if right.len() < left.len() && !operation.keeps_left() {
        let near = ranged::beside(left, right);
        let form = combined_all_runs(alloc, near, right, operation)?;
        return Ok(form);
    }
    combined_all_runs(alloc, left, right, operation)
}

// Like `combined_runs`, by a look at all runs.
fn combined_all_runs(
    alloc: Global,
    left: &[Run],
    right: &[Run],
    operation: Operation,
) -> Result<Form, AllocError>
    requires left { AreRuns left.now }
    requires right { AreRuns right.now }
    ensures members { IfOk result (λ form. Combines (made_by operation) (run_numbers left.now) (run_numbers right.now) (numbers_of form)) }
    ensures form { IfOk result (λ form. IsForm form) }
{
    let runs = stretches::combined(alloc, left, right, operation)?;
    form_of_runs(runs)
}

// Runs as they are where they take fewer bytes, and else as a list or as bits.
fn form_of_runs(runs: Vec<Run>) -> Result<Form, AllocError>
    requires { AreRuns runs.items }
    ensures numbers { IfOk result (λ form. numbers_of form ≡ run_numbers runs.items) }
    ensures form { IfOk result (λ form. IsForm form) }
{
    let pays = runs_pay(ranged::count(&runs), runs.len());
    let mut form = Form::Ranged(runs);
    if !pays {
        make_plain(&mut form)?;
    }
    Ok(form)
}

// Like `combined`, by bits.
fn combined_bits(
    alloc: Global,
    left: &Form,
    right: &Form,
    operation: Operation,
) -> Result<Form, AllocError>
    requires left { IsForm left.now }
    requires right { IsForm right.now }
    ensures members { IfOk result (λ form. Combines (made_by operation) (numbers_of left.now) (numbers_of right.now) (numbers_of form)) }
    ensures form { IfOk result (λ form. IsForm form) }
{
    let mut bits = bits_of(alloc, left)?;
    match right {
        Form::Mapped(others) => mapped::combine(&mut bits, others, operation),
        Form::Listed(_) | Form::Ranged(_) => {
            let others = bits_of(alloc, right)?;
            mapped::combine(&mut bits, &others, operation);
        }
    }
    let form = form_of(alloc, bits)?;
    Ok(form)
}

// The allocator of the vector that a form has.
fn allocator(form: &Form) -> Global {
    match form {
        Form::Listed(numbers) => *numbers.allocator(),
        Form::Mapped(bits) => bits.allocator(),
        Form::Ranged(runs) => *runs.allocator(),
    }
}

// Puts in a number, and returns whether it was not there. Where memory is refused, the numbers are as they were. Requires
// that they are `count`.
pub(crate) fn insert(form: &mut Form, number: u16, count: usize) -> Result<bool, AllocError>
    requires form { IsForm form.old }
    requires count { count ≡ length (numbers_of form.old) }
    ensures new { IfOk result (λ new. new ≡ not (has (numbers_of form.old) number)) }
    ensures gains { OnOk result (Gains (numbers_of form.old) (numbers_of form.new) number) }
    ensures refused { OnErr result (numbers_of form.new ≡ numbers_of form.old) }
    ensures form { IsForm form.new }
{
    match form {
        Form::Listed(numbers) => {
            let has_room = count < LISTED;
            if has_room {
                let new = listed::insert(numbers, number)?;
                return Ok(new);
            }
        }
        Form::Mapped(bits) => return Ok(mapped::insert(bits, number)),
        Form::Ranged(_) => {}
    }
    if contains(form, number) {
        return Ok(false);
    }
    insert_new(form, number, count)?;
    Ok(true)
}

// Puts a number that is not there into runs, or into a list that has no room for it.
fn insert_new(form: &mut Form, number: u16, count: usize) -> Result<(), AllocError>
    requires form { IsForm form.old }
    requires count { count ≡ length (numbers_of form.old) }
    requires new { has (numbers_of form.old) number ≡ false }
    ensures gains { OnOk result (Gains (numbers_of form.old) (numbers_of form.new) number) }
    ensures refused { OnErr result (numbers_of form.new ≡ numbers_of form.old) }
    ensures form { IsForm form.new }
{
    if let Form::Ranged(runs) = form {
        ranged::insert_run(
            runs,
            Run {
                first: number,
                last: number,
            },
        )?;
        settle(form, count + 1);
        return Ok(());
    }
    let alloc = allocator(form);
    let mut bits = bits_of(alloc, form)?;
    mapped::insert(&mut bits, number);
    *form = form_of(alloc, bits)?;
    Ok(())
}

// Turns `count` numbers in runs into a list or bits where these take fewer bytes. Where memory is refused, they stay runs.
fn settle(form: &mut Form, count: usize)
    requires form { IsForm form.old }
    requires count { count ≡ length (numbers_of form.old) }
    ensures same { numbers_of form.new ≡ numbers_of form.old }
    ensures form { IsForm form.new }
{
    if let Form::Ranged(runs) = form {
        if !runs_pay(count, runs.len()) {
            let _refused = make_plain(form);
        }
    }
}

// Takes a number out, and returns whether it was there. Where memory is refused, the numbers are as they were. Requires
// that they are `count`.
pub(crate) fn remove(form: &mut Form, number: u16, count: usize) -> Result<bool, AllocError>
    requires form { IsForm form.old }
    requires count { count ≡ length (numbers_of form.old) }
    ensures old { IfOk result (λ old. old ≡ has (numbers_of form.old) number) }
    ensures loses { OnOk result (Loses (numbers_of form.old) (numbers_of form.new) number) }
    ensures refused { OnErr result (numbers_of form.new ≡ numbers_of form.old) }
    ensures form { IsForm form.new }
{
    match form {
        Form::Listed(numbers) => return Ok(listed::remove(numbers, number)),
        Form::Mapped(bits) => {
            let many = LISTED + 1 < count;
            if many {
                return Ok(mapped::remove(bits, number));
            }
        }
        Form::Ranged(_) => {}
    }
    if !contains(form, number) {
        return Ok(false);
    }
    remove_there(form, number, count)?;
    Ok(true)
}

// Takes a number that is there out of runs, or out of bits of which at most `LISTED` stay.
fn remove_there(form: &mut Form, number: u16, count: usize) -> Result<(), AllocError>
    requires form { IsForm form.old }
    requires count { count ≡ length (numbers_of form.old) }
    requires there { has (numbers_of form.old) number ≡ true }
    ensures loses { OnOk result (Loses (numbers_of form.old) (numbers_of form.new) number) }
    ensures refused { OnErr result (numbers_of form.new ≡ numbers_of form.old) }
    ensures form { IsForm form.new }
{
    if let Form::Ranged(runs) = form {
        ranged::remove_run(
            runs,
            Run {
                first: number,
                last: number,
            },
        )?;
        settle(form, count - 1);
        return Ok(());
    }
    let alloc = allocator(form);
    let mut bits = bits_of(alloc, form)?;
    mapped::remove(&mut bits, number);
    *form = form_of(alloc, bits)?;
    Ok(())
}

// Puts in the numbers from `first` to `last`, after which there are `count`. Where memory is refused, the numbers are as
// they were. All numbers are one run.
pub(crate) fn insert_range(
    form: &mut Form,
    first: u16,
    last: u16,
    count: usize,
) -> Result<(), AllocError>
    requires form { IsForm form.old }
    requires ordered { first ≤ last }
    requires count { count + count_where (has (numbers_of form.old)) (range_with_len first (last + 1 - first)) ≡ length (numbers_of form.old) + (last + 1 - first) }
    ensures gains { OnOk result (GainsBetween (numbers_of form.old) (numbers_of form.new) first last) }
    ensures refused { OnErr result (numbers_of form.new ≡ numbers_of form.old) }
    ensures form { IsForm form.new }
{
    let alloc = allocator(form);
    if first == 0 && last == u16::MAX {
        *form = of_run(alloc, first, last)?;
        return Ok(());
    }
    match form {
        Form::Mapped(bits) => {
            mapped::insert_range(bits, first, last);
            return Ok(());
        }
        Form::Ranged(runs) => {
            ranged::insert_run(runs, Run { first, last })?;
            settle(form, count);
            return Ok(());
        }
        Form::Listed(numbers) => {
            let more = (last - first) as usize + 1;
            let has_room = numbers.len() + more <= LISTED;
            if has_room {
                listed::insert_range(numbers, first, last)?;
                return Ok(());
            }
        }
    }
    let mut bits = bits_of(alloc, form)?;
    mapped::insert_range(&mut bits, first, last);
    *form = form_of(alloc, bits)?;
    Ok(())
}

// Takes out the numbers from `first` to `last`, after which there are `count`. Where memory is refused, the numbers are
// as they were. Where no number stays, no memory is taken.
pub(crate) fn remove_range(
    form: &mut Form,
    first: u16,
    last: u16,
    count: usize,
) -> Result<(), AllocError>
    requires form { IsForm form.old }
    requires ordered { first ≤ last }
    requires count { count + count_where (has (numbers_of form.old)) (range_with_len first (last + 1 - first)) ≡ length (numbers_of form.old) }
    ensures loses { OnOk result (LosesBetween (numbers_of form.old) (numbers_of form.new) first last) }
    ensures refused { OnErr result (numbers_of form.new ≡ numbers_of form.old) }
    ensures form { IsForm form.new }
{
    let alloc = allocator(form);
    if first == 0 && last == u16::MAX {
        *form = Form::Listed(Vec::new(alloc));
        return Ok(());
    }
    match form {
        Form::Listed(numbers) => {
            listed::remove_range(numbers, first, last);
            return Ok(());
        }
        Form::Mapped(bits) => {
            let many = LISTED < count;
            if many {
                mapped::remove_range(bits, first, last);
                return Ok(());
            }
        }
        Form::Ranged(runs) => {
            ranged::remove_run(runs, Run { first, last })?;
            settle(form, count);
            return Ok(());
        }
    }
    let mut bits = bits_of(alloc, form)?;
    mapped::remove_range(&mut bits, first, last);
    *form = form_of(alloc, bits)?;
    Ok(())
}

// The count of numbers that are in both of two forms.
#[tactic(auto, using(crate::proofs::Counting::counted_swapped, crate::proofs::Forms::ascends_form))]
pub(crate) fn count_both(left: &Form, right: &Form) -> usize
    requires left { IsForm left.now }
    requires right { IsForm right.now }
    ensures { result ≡ count_where (has (numbers_of right.now)) (numbers_of left.now) }
{
    if let (Form::Listed(numbers), Form::Listed(others)) = (left, right) {
        if are_alike(numbers.len(), others.len()) {
            return listed::count_both(numbers, others);
        }
        if others.len() < numbers.len() {
            return count_listed(others, left);
        }
    }
    match (left, right) {
        (Form::Mapped(bits), Form::Mapped(others)) => mapped::count_both(bits, others),
        (Form::Ranged(runs), Form::Ranged(others)) => ranged::count_both(runs, others),
        (Form::Listed(numbers), Form::Ranged(runs)) if runs.len() < numbers.len() => {
            count_ranged(runs, left)
        }
        (Form::Ranged(runs), Form::Listed(numbers)) if numbers.len() <= runs.len() => {
            count_listed(numbers, left)
        }
        (Form::Listed(numbers), _) => count_listed(numbers, right),
        (Form::Ranged(runs), _) => count_ranged(runs, right),
        (Form::Mapped(_), Form::Listed(numbers)) => count_listed(numbers, left),
        (Form::Mapped(_), Form::Ranged(runs)) => count_ranged(runs, left),
    }
}

// Whether two forms have the same numbers.
pub(crate) fn are_same(left: &Form, right: &Form) -> bool
    requires left { IsForm left.now }
    requires right { IsForm right.now }
    ensures { IsTrue result ↔ (numbers_of left.now ≡ numbers_of right.now) }
{
    match (left, right) {
        (Form::Listed(numbers), Form::Listed(others)) => listed::are_same(numbers, others),
        (Form::Mapped(bits), Form::Mapped(others)) => mapped::are_same(bits, others),
        (Form::Ranged(runs), Form::Ranged(others)) => ranged::are_same(runs, others),
        _ => are_counted_same(left, right),
    }
}

// Like `are_same`, by the count of the numbers in common.
fn are_counted_same(left: &Form, right: &Form) -> bool
    requires left { IsForm left.now }
    requires right { IsForm right.now }
    ensures { IsTrue result ↔ (numbers_of left.now ≡ numbers_of right.now) }
{
    let numbers = count(left);
    numbers == count(right) && numbers == count_both(left, right)
}

// The count of numbers that are in a form too.
fn count_listed(numbers: &[u16], form: &Form) -> usize
    requires numbers { Ascends numbers.now }
    requires form { IsForm form.now }
    ensures { result ≡ count_where (has (numbers_of form.now)) numbers.now }
{
    let mut count = 0;
    for number in numbers {
        if contains(form, *number) {
            count += 1;
        }
    }
    count
}

// The runs that have numbers from a list's first number to its last one, and all runs beside another form.
#[tactic(auto, using(crate::proofs::Clipped::count_met, crate::proofs::Clipped::ends_ordered))]
fn near<'a>(runs: &'a [Run], form: &Form) -> &'a [Run]
    requires runs { AreRuns runs.now }
    requires form { IsForm form.now }
    ensures runs { AreRuns result.now }
    ensures same { count_where (has (numbers_of form.now)) (run_numbers result.now) ≡ count_where (has (numbers_of form.now)) (run_numbers runs.now) }
{
    match form {
        Form::Listed(numbers) if numbers.len() > 0 => {
            ranged::meeting(runs, numbers[0], numbers[numbers.len() - 1])
        }
        _ => runs,
    }
}

// The count of numbers of runs that are in a form too.
fn count_ranged(runs: &[Run], form: &Form) -> usize
    requires runs { AreRuns runs.now }
    requires form { IsForm form.now }
    ensures { result ≡ count_where (has (numbers_of form.now)) (run_numbers runs.now) }
{
    count_each(near(runs, form), form)
}

// Like `count_ranged`, by a look at each run.
fn count_each(runs: &[Run], form: &Form) -> usize
    requires runs { AreRuns runs.now }
    requires form { IsForm form.now }
    ensures { result ≡ count_where (has (numbers_of form.now)) (run_numbers runs.now) }
{
    let mut count = 0;
    for run in runs {
        count += count_in(form, *run);
    }
    count
}

// The count of numbers of a run that are there.
#[tactic(auto, using(crate::proofs::Counting::few_of_run, crate::proofs::Runs::numbers_of_one))]
pub(crate) fn count_in(form: &Form, run: Run) -> usize
    requires form { IsForm form.now }
    requires run { run.first ≤ run.last }
    ensures value { result ≡ count_where (has (numbers_of form.now)) (numbers_of_run run) }
    ensures few { result ≤ run.last + 1 - run.first }
{
    match form {
        Form::Listed(numbers) => listed::count_in(numbers, run),
        Form::Mapped(bits) => mapped::count_in(bits, run),
        Form::Ranged(runs) => ranged::count_both(&[run], runs),
    }
}

// One run.
pub(crate) fn of_run(alloc: Global, first: u16, last: u16) -> Result<Form, AllocError>
    requires { first ≤ last }
    ensures numbers { IfOk result (λ form. numbers_of form ≡ range_with_len first (last + 1 - first)) }
    ensures form { IfOk result (λ form. IsForm form) }
{
    let runs = ranged::one_run(alloc, first, last)?;
    Ok(Form::Ranged(runs))
}

// The numbers as a list.
pub(crate) fn list_of(alloc: Global, form: &Form) -> Result<Vec<u16>, AllocError>
    requires { IsForm form.now }
    ensures { IfOk result (λ numbers. numbers.items ≡ numbers_of form.now) }
{
    match form {
        Form::Listed(numbers) => listed::copied(alloc, numbers),
        Form::Mapped(bits) => mapped::list_of(alloc, bits),
        Form::Ranged(runs) => ranged::list_of(alloc, runs),
    }
}

// The list, where that is the form.
pub(crate) fn as_list(form: &Form) -> Option<&[u16]>
    requires { IsForm form.now }
    ensures numbers { IfSome result (λ numbers. numbers.now ≡ numbers_of form.now) }
    ensures few { IfSome result (λ numbers. length numbers.now ≤ 4096) }
{
    match form {
        Form::Listed(numbers) => Some(numbers.as_slice()),
        Form::Mapped(_) | Form::Ranged(_) => None,
    }
}

// The bits, where that is the form.
pub(crate) fn as_bits(form: &Form) -> Option<BitSlice<'_, u64, Lsb0>>
    requires { IsForm form.now }
    ensures len { IfSome result (λ bits. len_of bits ≡ 65536) }
    ensures size { IfSome result (λ bits. length (list_of bits) ≡ 65536) }
    ensures numbers { IfSome result (λ bits. ones_of (list_of bits) ≡ numbers_of form.now) }
    ensures many { IfSome result (λ bits. 4096 < length (numbers_of form.now)) }
{
    match form {
        Form::Mapped(bits) => Some(bits.as_bitslice()),
        Form::Listed(_) | Form::Ranged(_) => None,
    }
}

// The runs, where that is the form.
pub(crate) fn as_runs(form: &Form) -> Option<&[Run]>
    requires { IsForm form.now }
    ensures runs { IfSome result (λ runs. AreRuns runs.now) }
    ensures numbers { IfSome result (λ runs. run_numbers runs.now ≡ numbers_of form.now) }
{
    match form {
        Form::Ranged(runs) => Some(runs.as_slice()),
        Form::Listed(_) | Form::Mapped(_) => None,
    }
}

// The numbers as runs.
pub(crate) fn runs_of(alloc: Global, form: &Form) -> Result<Vec<Run>, AllocError>
    requires { IsForm form.now }
    ensures runs { IfOk result (λ runs. AreRuns runs.items) }
    ensures numbers { IfOk result (λ runs. run_numbers runs.items ≡ numbers_of form.now) }
{
    match form {
        Form::Listed(numbers) => ranged::runs_of(alloc, numbers),
        Form::Mapped(bits) => mapped::runs_of(alloc, bits),
        Form::Ranged(runs) => ranged::copied(alloc, runs),
    }
}

// A copy.
pub(crate) fn copied(form: &Form) -> Result<Form, AllocError>
    requires { IsForm form.now }
    ensures numbers { IfOk result (λ copy. numbers_of copy ≡ numbers_of form.now) }
    ensures form { IfOk result (λ copy. IsForm copy) }
{
    match form {
        Form::Listed(numbers) => {
            let copy = listed::copied(*numbers.allocator(), numbers)?;
            Ok(Form::Listed(copy))
        }
        Form::Mapped(bits) => {
            let copy = mapped::copied(bits)?;
            mapped_form(bits.allocator(), copy)
        }
        Form::Ranged(runs) => {
            let copy = ranged::copied(*runs.allocator(), runs)?;
            Ok(Form::Ranged(copy))
        }
    }
}

// The count of runs of `count` numbers, where as many numbers as possible are in each.
#[tactic(auto, using(crate::proofs::Joined::count_again, crate::proofs::Joined::few_runs_of, crate::proofs::Forms::ascends_form))]
pub(crate) fn count_runs(form: &Form, count: usize) -> usize
    requires form { IsForm form.now }
    requires count { count ≡ length (numbers_of form.now) }
    ensures value { result ≡ length (runs_of (numbers_of form.now)) }
    ensures few { result ≤ 32768 }
{
    match form {
        Form::Listed(numbers) => listed::count_runs(numbers),
        Form::Mapped(bits) => mapped::count_runs(bits, count),
        Form::Ranged(runs) => runs.len(),
    }
}

/// Whether `runs` runs take fewer bytes than `count` numbers as a list, or as bits where they are more than 4096.
///
/// ```text
/// runs_pay(5, 2) == true
/// ```
pub fn runs_pay(count: usize, runs: usize) -> bool
    ensures { result ≡ runs_pay count runs }
{
    if count <= LISTED {
        runs < (count + 1) / 2
    } else {
        runs < LISTED / 2
    }
}

// Keeps `count` numbers in the form that takes the fewest bytes. Where memory is refused, they are kept as they were.
#[tactic(auto, using(crate::proofs::Forms::ascends_form, crate::proofs::Forms::smallest_same))]
pub(crate) fn optimize(form: &mut Form, count: usize) -> Result<(), AllocError>
    requires form { IsForm form.old }
    requires count { count ≡ length (numbers_of form.old) }
    ensures same { numbers_of form.new ≡ numbers_of form.old }
    ensures smallest { OnOk result (IsSmallest form.new) }
    ensures form { IsForm form.new }
{
    if runs_pay(count, count_runs(form, count)) {
        make_ranged(form)
    } else {
        make_plain(form)
    }
}

// Keeps the numbers as runs without room to spare.
fn make_ranged(form: &mut Form) -> Result<(), AllocError>
    requires { IsForm form.old }
    ensures same { numbers_of form.new ≡ numbers_of form.old }
    ensures form { IsForm form.new }
    ensures ranged { OnOk result (is_ranged form.new ≡ true) }
{
    if let Form::Ranged(runs) = form {
        runs.shrink_to_fit();
        return Ok(());
    }
    let mut runs = runs_of(allocator(form), form)?;
    runs.shrink_to_fit();
    *form = Form::Ranged(runs);
    Ok(())
}

// Keeps the numbers as a list without room to spare where they are few, and else as bits.
#[tactic(auto, using(crate::proofs::Forms::ascends_form))]
fn make_plain(form: &mut Form) -> Result<(), AllocError>
    requires { IsForm form.old }
    ensures same { numbers_of form.new ≡ numbers_of form.old }
    ensures form { IsForm form.new }
    ensures plain { OnOk result (is_ranged form.new ≡ false) }
{
    match form {
        Form::Listed(numbers) => {
            numbers.shrink_to_fit();
            return Ok(());
        }
        Form::Mapped(_) => return Ok(()),
        Form::Ranged(_) => {}
    }
    let numbers = list_of(allocator(form), form)?;
    *form = of_list(numbers)?;
    Ok(())
}

// The numbers, one after another.
pub(crate) fn left_of(form: &Form) -> Left<'_>
    requires { IsForm form.now }
    ensures { form_left result ≡ numbers_of form.now }
{
    match form {
        Form::Listed(numbers) => Left::Listed(numbers.as_slice()),
        Form::Mapped(bits) => Left::Mapped(OnesLeft::of(bits)),
        Form::Ranged(runs) => Left::Ranged(RunsLeft::of(runs)),
    }
}

// The numbers from `first` to `last`, one after another.
#[tactic(auto, using(crate::proofs::Between::none_between))]
pub(crate) fn left_between(form: &Form, first: u16, last: u16) -> Left<'_>
    requires { IsForm form.now }
    ensures { form_left result ≡ numbers_between first last (numbers_of form.now) }
{
    if last < first {
        return Left::Listed(&[]);
    }
    match form {
        Form::Listed(numbers) => Left::Listed(listed::between(numbers, first, last)),
        Form::Mapped(bits) => Left::Mapped(OnesLeft::between(bits, first, last)),
        Form::Ranged(runs) => Left::Ranged(RunsLeft::between(runs, first, last)),
    }
}
