//! Runs of commands.
use crate::common::{check, results};
use bit_containers::{BitVec, Command, Msb0, Reply};

#[test]
fn runs_of_commands(rt: HostRuntime) {
    let mut v = BitVec::<u8, Msb0>::new(rt.alloc());
    let commands = [
        Command::Push(false),
        Command::Push(true),
        Command::Get(5),
        Command::Insert(0, true),
        Command::CopyWithin(0, 2, 1),
        Command::Remove(0),
        Command::SwapRemove(2),
        Command::Align,
        Command::Set(0, false),
        Command::Len,
        Command::Pop,
        Command::Truncate(0),
        Command::Pop,
    ];
    let want = [
        Reply::Done,
        Reply::Done,
        Reply::OutOfRange,
        Reply::Done,
        Reply::Done,
        Reply::Bit(true),
        Reply::OutOfRange,
        Reply::Done,
        Reply::Done,
        Reply::Number(2),
        Reply::Bit(false),
        Reply::Done,
        Reply::Nothing,
    ];
    results(&rt, &mut v, &commands, &want);
    check(&rt, v.is_empty());
}
