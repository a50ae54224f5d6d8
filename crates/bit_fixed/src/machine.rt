//! Executions of commands over any container.
ghost use Rattle.std.specs.Prelude.{◌≡◌, ◌+◌, ◌<◌, ◌++◌, length, IfErr, OnErr, OnOk};
ghost use Rattle.std.specs.Vec.{vec_capacity, vec_len};
ghost use Rattle.bit_fixed.specs.Machine.{list_after_one, reply_to, list_after, replies_of};

use crate::bits::Bits;
use bit_addressing::GrowError;
use bit_containers::{Reply, Stop};

/// What to do to a list of bits whose length stays.
#[derive(Clone, Copy, PartialEq, Eq, Debug)]
pub enum FixedCommand {
    /// Asks for the bit at an index.
    Get(usize),
    /// Writes a bit at an index.
    Set(usize, bool),
    /// Writes a bit at every index.
    Fill(bool),
    /// Flips every bit.
    Flip,
    /// Copies the bits from the first index up to the second to the indices from the third on.
    CopyWithin(usize, usize, usize),
    /// Asks for the length.
    Len,
}

// Writes a bit, where the index is below the length.
fn set_at<B: Bits>(bits: &mut B, i: usize, bit: bool) -> Reply
    ensures reply { result ≡ reply_to (B.list bits.old) (FixedCommand.Set i bit) }
    ensures list { B.list bits.new ≡ list_after_one (B.list bits.old) (FixedCommand.Set i bit) }
    ensures capacity { B.capacity bits.new ≡ B.capacity bits.old }
{
    if i < bits.len() {
        bits.set(i, bit);
        Reply::Done
    } else {
        Reply::OutOfRange
    }
}

// Copies a range, where it is one of the list and has room at its destination.
fn copy_at<B: Bits>(bits: &mut B, from: usize, upto: usize, dest: usize) -> Reply
    ensures reply { result ≡ reply_to (B.list bits.old) (FixedCommand.CopyWithin from upto dest) }
    ensures list { B.list bits.new ≡ list_after_one (B.list bits.old) (FixedCommand.CopyWithin from upto dest) }
    ensures capacity { B.capacity bits.new ≡ B.capacity bits.old }
{
    let len = bits.len();
    if from <= upto && upto <= len && dest <= len - (upto - from) {
        bits.copy_within(from, upto, dest);
        Reply::Done
    } else {
        Reply::OutOfRange
    }
}

// Does one command.
fn step<B: Bits>(bits: &mut B, command: FixedCommand) -> Reply
    ensures reply { result ≡ reply_to (B.list bits.old) command }
    ensures list { B.list bits.new ≡ list_after_one (B.list bits.old) command }
    ensures capacity { B.capacity bits.new ≡ B.capacity bits.old }
{
    match command {
        FixedCommand::Get(i) => bits.get(i).map_or(Reply::OutOfRange, Reply::Bit),
        FixedCommand::Set(i, bit) => set_at(bits, i, bit),
        FixedCommand::Fill(bit) => {
            bits.fill(bit);
            Reply::Done
        }
        FixedCommand::Flip => {
            bits.flip_all();
            Reply::Done
        }
        FixedCommand::CopyWithin(from, upto, dest) => copy_at(bits, from, upto, dest),
        FixedCommand::Len => Reply::Number(bits.len()),
    }
}

/// Does the commands in order, and appends the reply to each.
///
/// Memory for all replies is taken first: where it is refused, the execution stops with `done` 0 and
/// `OutOfMemory`, and nothing is done. No command stops it: one whose index or range is out of range replies
/// `OutOfRange`, and the list stays. Without commands no memory is taken, and the result is Ok. The capacity
/// stays.
pub fn run_fixed<B: Bits>(
    bits: &mut B,
    commands: &[FixedCommand],
    replies: &mut Vec<Reply>,
) -> Result<(), Stop>
    ensures replies { OnOk result
        (replies.new.items ≡ replies.old.items ++ replies_of (B.list bits.old) commands.now) }
    ensures list { OnOk result (B.list bits.new ≡ list_after (B.list bits.old) commands.now) }
    ensures capacity { B.capacity bits.new ≡ B.capacity bits.old }
    ensures done { IfErr result (λ stop. stop.done ≡ 0) }
    ensures why { IfErr result (λ stop. stop.why ≡ GrowError.OutOfMemory) }
    ensures some { OnErr result (0 < length commands.now) }
    ensures full { OnErr result (vec_capacity replies.old < vec_len replies.old + length commands.now) }
    ensures unchanged { OnErr result (bits.new ≡ bits.old) }
    ensures no_reply { OnErr result (replies.new.items ≡ replies.old.items) }
{
    if replies.reserve(commands.len()).is_err() {
        return Err(Stop {
            done: 0,
            why: GrowError::OutOfMemory,
        });
    }
    for command in commands {
        replies.push_reserved(step(bits, *command));
    }
    Ok(())
}
