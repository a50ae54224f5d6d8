//! Blocks of each form combined, and read from both ends, beside a plain program.
use crate::{check, ok};
use bit_blocks::{Block, Operation};
use std::process::Abort;

// Numbers that a block keeps in one of its forms.
#[derive(Clone, Copy)]
enum Numbers {
    // 656 numbers, which are kept as a list.
    Hundreds,
    // 9363 numbers, which are kept as bits.
    Sevens,
    // 19001 numbers in one run.
    Range,
}

impl Numbers {
    fn has(self, number: u16) -> bool {
        match self {
            Numbers::Hundreds => number % 100 == 0,
            Numbers::Sevens => number % 7 == 0,
            Numbers::Range => 1000 <= number && number <= 20000,
        }
    }

    fn count(self) -> usize {
        match self {
            Numbers::Hundreds => 656,
            Numbers::Sevens => 9363,
            Numbers::Range => 19001,
        }
    }
}

// The numbers, ascending.
fn list_of(rt: &(impl Abort + AllocGlobal), numbers: Numbers) -> Vec<u16> {
    let mut list = Vec::new(rt.alloc());
    for number in 0..=65535u16 {
        if numbers.has(number) {
            ok(rt, list.push(number));
        }
    }
    list
}

// A block of the numbers, in the form that they are for.
fn block_of(rt: &(impl Abort + AllocGlobal), numbers: Numbers) -> Block {
    let mut block = Block::new(rt.alloc());
    for &number in list_of(rt, numbers).as_slice() {
        ok(rt, block.insert(number));
    }
    ok(rt, block.optimize());
    check(rt, block.len() == numbers.count());
    block
}

// Whether a number is kept that is in the left set, or not, and in the right, or not.
fn keeps(operation: Operation, left: bool, right: bool) -> bool {
    match operation {
        Operation::Union => left || right,
        Operation::Intersection => left && right,
        Operation::Difference => left && !right,
        Operation::SymmetricDifference => left != right,
    }
}

// Whether a block is what an operation makes of two sets.
fn is_made(made: &Block, operation: Operation, left: Numbers, right: Numbers) -> bool {
    let mut count = 0usize;
    for number in 0..=65535u16 {
        let is_in = keeps(operation, left.has(number), right.has(number));
        if made.contains(number) != is_in {
            return false;
        }
        if is_in {
            count = count.wrapping_add(1);
        }
    }
    made.len() == count
}

// That each operation makes what it should of two sets.
fn combine(rt: &(impl Abort + AllocGlobal), left: Numbers, right: Numbers) {
    let (a, b) = (block_of(rt, left), block_of(rt, right));
    for operation in [
        Operation::Union,
        Operation::Intersection,
        Operation::Difference,
        Operation::SymmetricDifference,
    ] {
        let made = ok(rt, a.combined(rt.alloc(), &b, operation));
        check(rt, is_made(&made, operation, left, right));
        if operation == Operation::Intersection {
            check(rt, a.count_both(&b) == made.len());
        }
    }
}

#[test]
fn lists_with_each_form(rt: HostRuntime) {
    combine(&rt, Numbers::Hundreds, Numbers::Hundreds);
    combine(&rt, Numbers::Hundreds, Numbers::Sevens);
    combine(&rt, Numbers::Hundreds, Numbers::Range);
}

#[test]
fn bits_with_each_form(rt: HostRuntime) {
    combine(&rt, Numbers::Sevens, Numbers::Hundreds);
    combine(&rt, Numbers::Sevens, Numbers::Sevens);
    combine(&rt, Numbers::Sevens, Numbers::Range);
}

#[test]
fn runs_with_each_form(rt: HostRuntime) {
    combine(&rt, Numbers::Range, Numbers::Hundreds);
    combine(&rt, Numbers::Range, Numbers::Sevens);
    combine(&rt, Numbers::Range, Numbers::Range);
}

// Whether a number of either set is kept, of both, and of the right one.
fn kept(operation: Operation) -> [bool; 3] {
    [
        operation.keeps_left(),
        operation.keeps_both(),
        operation.keeps_right(),
    ]
}

#[test]
fn what_operations_keep(rt: HostRuntime) {
    check(&rt, kept(Operation::Union) == [true, true, true]);
    check(&rt, kept(Operation::Intersection) == [false, true, false]);
    check(&rt, kept(Operation::Difference) == [true, false, false]);
    check(
        &rt,
        kept(Operation::SymmetricDifference) == [true, false, true],
    );
}

// That a block gives its numbers from the front.
fn give_first(rt: &impl Abort, block: &Block, list: &[u16]) {
    let mut left = block.iter();
    for &number in list {
        check(rt, left.next() == Some(number));
    }
    check(rt, left.next() == None);
}

// That it gives them from the back.
fn give_last(rt: &impl Abort, block: &Block, list: &[u16]) {
    let mut left = block.iter();
    for &number in list.iter().rev() {
        check(rt, left.next_back() == Some(number));
    }
    check(rt, left.next_back() == None);
}

// That it gives them from both ends by turns.
fn give_by_turns(rt: &impl Abort, block: &Block, list: &[u16]) {
    let mut left = block.iter();
    for (&low, &high) in list.iter().zip(list.iter().rev()).take(list.len() / 2) {
        check(rt, left.next() == Some(low));
        check(rt, left.next_back() == Some(high));
    }
    if list.len() % 2 == 1 {
        check(rt, left.next() == list.get(list.len() / 2).copied());
    }
    check(rt, left.next() == None);
    check(rt, left.next_back() == None);
}

// That a block gives its numbers in each way, and as a list.
fn give(rt: &(impl Abort + AllocGlobal), numbers: Numbers) {
    let list = list_of(rt, numbers);
    let block = block_of(rt, numbers);
    give_first(rt, &block, &list);
    give_last(rt, &block, &list);
    give_by_turns(rt, &block, &list);
    check(rt, ok(rt, block.to_list(rt.alloc())) == list);
}

#[test]
fn numbers_from_both_ends(rt: HostRuntime) {
    give(&rt, Numbers::Hundreds);
    give(&rt, Numbers::Sevens);
    give(&rt, Numbers::Range);
}
