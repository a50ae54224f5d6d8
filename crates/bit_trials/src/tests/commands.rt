//! Runs of commands: those that grow, that write the words, and that take bits out.
use crate::common::{check, results, shows};
use bit_containers::{BitOrder, BitStore, BitVec, Command, GrowError, Msb0, Reply, Stop, run};
use std::process::Abort;

// That a run of these commands stops at the second, by which the vector would be too long, and replies `Done` to the first.
pub(super) fn stops<T: BitStore, O: BitOrder>(
    rt: &(impl Abort + AllocGlobal),
    v: &mut BitVec<T, O>,
    commands: &[Command],
) {
    let mut replies = Vec::new(rt.alloc());
    let why = GrowError::TooLong;
    check(
        rt,
        run(v, commands, &mut replies) == Err(Stop { done: 1, why }),
    );
    check(rt, replies.as_slice() == [Reply::Done].as_slice());
}

#[test]
fn growing_commands(rt: HostRuntime) {
    let mut v = BitVec::<u8, Msb0>::new(rt.alloc());
    let commands = [
        Command::Resize(3, true),
        Command::ExtendWithin(1, 3),
        Command::ExtendWithin(4, 6),
        Command::Reserve(100),
        Command::Resize(4, false),
        Command::Len,
    ];
    let want = [
        Reply::Done,
        Reply::Done,
        Reply::OutOfRange,
        Reply::Done,
        Reply::Done,
        Reply::Number(4),
    ];
    results(&rt, &mut v, &commands, &want);
    check(&rt, v.len() == 4);
}

#[test]
fn stopped_at_a_reserve(rt: HostRuntime) {
    let mut v = BitVec::<u8, Msb0>::new(rt.alloc());
    let commands = [
        Command::Push(true),
        Command::Reserve(usize::MAX),
        Command::Pop,
    ];
    stops(&rt, &mut v, &commands);
    check(&rt, v.len() == 1);
}

#[test]
fn commands_on_words(rt: HostRuntime) {
    let mut v = BitVec::<u8, Msb0>::new(rt.alloc());
    let commands = [
        Command::Push(true),
        Command::Push(false),
        Command::Not,
        Command::Clean,
        Command::Get(0),
        Command::Get(1),
    ];
    let want = [
        Reply::Done,
        Reply::Done,
        Reply::Done,
        Reply::Done,
        Reply::Bit(false),
        Reply::Bit(true),
    ];
    results(&rt, &mut v, &commands, &want);
    shows(&rt, &v, &[0x40]);
}

#[test]
fn removing_commands(rt: HostRuntime) {
    let mut v = BitVec::<u16, Msb0>::new(rt.alloc());
    let commands = [
        Command::Resize(5, true),
        Command::Splice(1, 4, false, 1),
        Command::Splice(2, 4, false, 1),
        Command::Drain(0, 2),
        Command::Drain(2, 1),
        Command::SplitOff(1),
        Command::Clear,
        Command::Len,
    ];
    let want = [
        Reply::Done,
        Reply::Done,
        Reply::OutOfRange,
        Reply::Number(1),
        Reply::OutOfRange,
        Reply::Number(0),
        Reply::Done,
        Reply::Number(0),
    ];
    results(&rt, &mut v, &commands, &want);
    check(&rt, v.is_empty());
}

#[test]
fn stopped_at_a_splice(rt: HostRuntime) {
    let mut v = BitVec::<u16, Msb0>::new(rt.alloc());
    let commands = [
        Command::Push(true),
        Command::Splice(0, 1, false, usize::MAX),
    ];
    stops(&rt, &mut v, &commands);
    check(&rt, v.len() == 1);
}
