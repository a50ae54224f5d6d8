//! Executions of commands.
ghost use Rattle.std.specs.Prelude.{◌⊎◌, Err, Some, slice_get, ◌≡◌, ◌≢◌, ◌+◌, ◌-◌, ◌<◌, ◌≤◌, ◌++◌, length, take, vec_capacity, OnOk, OnErr, IfOk, IfErr};
ghost use Rattle.bit_addressing.specs.declared.length.TheConstants.{MAX_BITS};
ghost use Rattle.bit_containers.specs.Machine.{list_after_one, reply_to, list_after, replies_of, head_after_one, head_after, AllFit, IsRefusal, IsStopReason, asked_room, new_length, room_after, CanWantMemory};

use crate::vec::BitVec;
use bit_addressing::{BitOrder, BitStore, GrowError};
use bit_slice::BitListMut;

/// What to do to a list of bits.
#[derive(Clone, Copy, PartialEq, Eq, Debug)]
pub enum Command {
    /// Appends a bit.
    Push(bool),
    /// Takes the last bit.
    Pop,
    /// Asks for the bit at an index.
    Get(usize),
    /// Writes a bit at an index.
    Set(usize, bool),
    /// Inserts a bit before the one at an index, or at the end.
    Insert(usize, bool),
    /// Takes the bit at an index; the bits after it move down.
    Remove(usize),
    /// Takes the bit at an index, and puts the last one in its place.
    SwapRemove(usize),
    /// Keeps the first bits, as many as the number says.
    Truncate(usize),
    /// Drops all bits.
    Clear,
    /// Keeps the first bits, or appends a bit until the list has this length.
    Resize(usize, bool),
    /// Makes room for this many more bits.
    Reserve(usize),
    /// Appends the bits from the first index up to the second once more.
    ExtendWithin(usize, usize),
    /// Removes the bits from the first index up to the second, and asks how many of them are true.
    Drain(usize, usize),
    /// Replaces the bits from the first index up to the second by a bit, as often as the last number says.
    Splice(usize, usize, bool, usize),
    /// Drops the bits from an index on, and asks how many they are.
    SplitOff(usize),
    /// Copies the bits from the first index up to the second to the indices from the third on.
    CopyWithin(usize, usize, usize),
    /// Flips every bit.
    Not,
    /// Makes the head 0; the list stays.
    Align,
    /// Makes every dead bit of the words false; the list stays.
    Clean,
    /// Asks for the length.
    Len,
}

/// What a command replies.
#[derive(Clone, Copy, PartialEq, Eq, Debug)]
pub enum Reply {
    /// The command is done.
    Done,
    /// The bit that the command asked for or took.
    Bit(bool),
    /// There was no bit to take.
    Nothing,
    /// The number that the command asked for.
    Number(usize),
    /// The command's index or range is out of range, and the list stayed.
    OutOfRange,
}

/// The number of commands that an execution did, and why it stopped.
#[derive(Clone, Copy, PartialEq, Eq, Debug)]
pub struct Stop {
    /// The number of commands that were done.
    pub done: usize,
    /// Why the next command was refused.
    pub why: GrowError,
}

// Writes a bit, where the index is below the length.
fn set_at<T: BitStore, O: BitOrder>(v: &mut BitVec<T, O>, i: usize, b: bool) -> Reply
    ensures reply { result ≡ reply_to v.old.list (Command.Set i b) }
    ensures head { v.new.head ≡ v.old.head }
    ensures capacity { v.old.capacity ≤ v.new.capacity }
    ensures list { v.new.list ≡ list_after_one v.old.list (Command.Set i b) }
    ensures len { length v.new.list ≡ length v.old.list }
{
    if i < v.len() {
        v.set(i, b);
        Reply::Done
    } else {
        Reply::OutOfRange
    }
}

// Inserts a bit before an item, where the index is at most the length.
fn insert_at<T: BitStore, O: BitOrder>(
    v: &mut BitVec<T, O>,
    i: usize,
    b: bool,
) -> Result<Reply, GrowError>
    ensures reply { IfOk result (λ reply. reply ≡ reply_to v.old.list (Command.Insert i b)) }
    ensures head { v.new.head ≡ v.old.head }
    ensures capacity { v.old.capacity ≤ v.new.capacity }
    ensures memory { result ≡ Err GrowError.OutOfMemory → v.old.capacity < new_length v.old.list (Command.Insert i b) }
    ensures list { OnOk result (v.new.list ≡ list_after_one v.old.list (Command.Insert i b)) }
    ensures fits { OnOk result (new_length v.old.list (Command.Insert i b) ≤ MAX_BITS) }
    ensures unchanged { OnErr result (v.new.list ≡ v.old.list) }
    ensures why { IfErr result (λ why. IsRefusal v.old.list (Command.Insert i b) why) }
{
    if i <= v.len() {
        v.insert(i, b)?;
        Ok(Reply::Done)
    } else {
        Ok(Reply::OutOfRange)
    }
}

// Takes a bit, where the index is below the length; the bits after it move down.
fn remove_at<T: BitStore, O: BitOrder>(v: &mut BitVec<T, O>, i: usize) -> Reply
    ensures reply { result ≡ reply_to v.old.list (Command.Remove i) }
    ensures head { v.new.head ≡ v.old.head }
    ensures capacity { v.old.capacity ≤ v.new.capacity }
    ensures list { v.new.list ≡ list_after_one v.old.list (Command.Remove i) }
    ensures len { length v.new.list ≤ length v.old.list }
{
    if i < v.len() {
        Reply::Bit(v.remove(i))
    } else {
        Reply::OutOfRange
    }
}

// Takes a bit and puts the last one in its place, where the index is below the length.
fn swap_remove_at<T: BitStore, O: BitOrder>(v: &mut BitVec<T, O>, i: usize) -> Reply
    ensures reply { result ≡ reply_to v.old.list (Command.SwapRemove i) }
    ensures head { v.new.head ≡ v.old.head }
    ensures capacity { v.old.capacity ≤ v.new.capacity }
    ensures list { v.new.list ≡ list_after_one v.old.list (Command.SwapRemove i) }
    ensures len { length v.new.list ≤ length v.old.list }
{
    if i < v.len() {
        Reply::Bit(v.swap_remove(i))
    } else {
        Reply::OutOfRange
    }
}

// Removes a range, where it is one of the list.
fn drain_at<T: BitStore, O: BitOrder>(v: &mut BitVec<T, O>, from: usize, upto: usize) -> Reply
    ensures reply { result ≡ reply_to v.old.list (Command.Drain from upto) }
    ensures head { v.new.head ≡ v.old.head }
    ensures capacity { v.old.capacity ≤ v.new.capacity }
    ensures list { v.new.list ≡ list_after_one v.old.list (Command.Drain from upto) }
    ensures len { length v.new.list ≤ length v.old.list }
{
    if from <= upto && upto <= v.len() {
        let ones = v.get_range(from..upto).count_ones();
        let _drain = v.drain(from..upto);
        Reply::Number(ones)
    } else {
        Reply::OutOfRange
    }
}

// Replaces a range by a bit, `n` times, where it is one of the list.
fn splice_at<T: BitStore, O: BitOrder>(
    v: &mut BitVec<T, O>,
    from: usize,
    upto: usize,
    bit: bool,
    n: usize,
) -> Result<Reply, GrowError>
    ensures reply { IfOk result (λ reply. reply ≡ reply_to v.old.list (Command.Splice from upto bit n)) }
    ensures head { v.new.head ≡ v.old.head }
    ensures capacity { v.old.capacity ≤ v.new.capacity }
    ensures memory { result ≡ Err GrowError.OutOfMemory
        → CanWantMemory v.old.capacity v.old.list (Command.Splice from upto bit n) }
    ensures list { OnOk result (v.new.list ≡ list_after_one v.old.list (Command.Splice from upto bit n)) }
    ensures fits { OnOk result (new_length v.old.list (Command.Splice from upto bit n) ≤ MAX_BITS) }
    ensures unchanged { OnErr result (v.new.list ≡ v.old.list) }
    ensures why { IfErr result (λ why. IsRefusal v.old.list (Command.Splice from upto bit n) why) }
{
    v.prove_in_words();
    if from <= upto && upto <= v.len() {
        v.replace_by(from, upto, bit, n)?;
        Ok(Reply::Done)
    } else {
        Ok(Reply::OutOfRange)
    }
}

// Drops the bits from an index on, where it is at most the length.
fn split_at<T: BitStore, O: BitOrder>(v: &mut BitVec<T, O>, at: usize) -> Result<Reply, GrowError>
    ensures reply { IfOk result (λ reply. reply ≡ reply_to v.old.list (Command.SplitOff at)) }
    ensures head { v.new.head ≡ v.old.head }
    ensures capacity { v.old.capacity ≤ v.new.capacity }
    ensures only_memory { result ≢ Err GrowError.TooLong }
    ensures list { OnOk result (v.new.list ≡ list_after_one v.old.list (Command.SplitOff at)) }
    ensures unchanged { OnErr result (v.new.list ≡ v.old.list) }
    ensures why { IfErr result (λ why. IsRefusal v.old.list (Command.SplitOff at) why) }
    ensures fits { OnOk result (new_length v.old.list (Command.SplitOff at) ≤ MAX_BITS) }
{
    v.prove_in_words();
    if at <= v.len() {
        let rest = v.split_off(at)?;
        Ok(Reply::Number(rest.len()))
    } else {
        Ok(Reply::OutOfRange)
    }
}

// Appends a range once more, where it is one of the list.
fn extend_at<T: BitStore, O: BitOrder>(
    v: &mut BitVec<T, O>,
    from: usize,
    upto: usize,
) -> Result<Reply, GrowError>
    ensures reply { IfOk result (λ reply. reply ≡ reply_to v.old.list (Command.ExtendWithin from upto)) }
    ensures head { v.new.head ≡ v.old.head }
    ensures capacity { v.old.capacity ≤ v.new.capacity }
    ensures memory { result ≡ Err GrowError.OutOfMemory
        → v.old.capacity < new_length v.old.list (Command.ExtendWithin from upto) }
    ensures list { OnOk result (v.new.list ≡ list_after_one v.old.list (Command.ExtendWithin from upto)) }
    ensures fits { OnOk result (new_length v.old.list (Command.ExtendWithin from upto) ≤ MAX_BITS) }
    ensures unchanged { OnErr result (v.new.list ≡ v.old.list) }
    ensures why { IfErr result (λ why. IsRefusal v.old.list (Command.ExtendWithin from upto) why) }
{
    v.prove_in_words();
    if from <= upto && upto <= v.len() {
        v.extend_from_within(from..upto)?;
        Ok(Reply::Done)
    } else {
        Ok(Reply::OutOfRange)
    }
}

// Cuts the list, or fills it up.
fn resize_to<T: BitStore, O: BitOrder>(
    v: &mut BitVec<T, O>,
    n: usize,
    bit: bool,
) -> Result<Reply, GrowError>
    ensures reply { IfOk result (λ reply. reply ≡ Reply.Done) }
    ensures head { v.new.head ≡ v.old.head }
    ensures capacity { v.old.capacity ≤ v.new.capacity }
    ensures memory { result ≡ Err GrowError.OutOfMemory → v.old.capacity < n }
    ensures list { OnOk result (v.new.list ≡ list_after_one v.old.list (Command.Resize n bit)) }
    ensures fits { OnOk result (n ≤ MAX_BITS) }
    ensures unchanged { OnErr result (v.new.list ≡ v.old.list) }
    ensures why { IfErr result (λ why. IsRefusal v.old.list (Command.Resize n bit) why) }
{
    v.prove_in_words();
    v.resize(n, bit)?;
    Ok(Reply::Done)
}

// Makes room for more bits.
fn reserve_for<T: BitStore, O: BitOrder>(
    v: &mut BitVec<T, O>,
    more: usize,
) -> Result<Reply, GrowError>
    ensures reply { IfOk result (λ reply. reply ≡ Reply.Done) }
    ensures head { v.new.head ≡ v.old.head }
    ensures capacity { v.old.capacity ≤ v.new.capacity }
    ensures memory { result ≡ Err GrowError.OutOfMemory → v.old.capacity < length v.old.list + more }
    ensures asked { OnOk result (asked_room v.old.list (Command.Reserve more) ≤ v.new.capacity) }
    ensures list { v.new.list ≡ v.old.list }
    ensures fits { OnOk result (length v.old.list + more ≤ MAX_BITS) }
    ensures why { IfErr result (λ why. IsRefusal v.old.list (Command.Reserve more) why) }
{
    v.prove_in_words();
    v.reserve(more)?;
    Ok(Reply::Done)
}

// Copies a range, where it is one of the list and has room at its destination.
fn copy_at<T: BitStore, O: BitOrder>(
    v: &mut BitVec<T, O>,
    from: usize,
    upto: usize,
    dest: usize,
) -> Reply
    ensures reply { result ≡ reply_to v.old.list (Command.CopyWithin from upto dest) }
    ensures head { v.new.head ≡ v.old.head }
    ensures capacity { v.old.capacity ≤ v.new.capacity }
    ensures list { v.new.list ≡ list_after_one v.old.list (Command.CopyWithin from upto dest) }
    ensures len { length v.new.list ≡ length v.old.list }
{
    let len = v.len();
    if from <= upto && upto <= len && dest <= len - (upto - from) {
        v.copy_within(from..upto, dest);
        Reply::Done
    } else {
        Reply::OutOfRange
    }
}

// Does one command.
fn step<T: BitStore, O: BitOrder>(
    v: &mut BitVec<T, O>,
    command: Command,
) -> Result<Reply, GrowError>
    ensures reply { IfOk result (λ reply. reply ≡ reply_to v.old.list command) }
    ensures head { OnOk result (v.new.head ≡ head_after_one v.old.head command) }
    ensures head_kept { OnErr result (v.new.head ≡ v.old.head) }
    ensures capacity { v.old.capacity ≤ v.new.capacity }
    ensures asked { OnOk result (asked_room v.old.list command ≤ v.new.capacity) }
    ensures memory { result ≡ Err GrowError.OutOfMemory → CanWantMemory v.old.capacity v.old.list command }
    ensures list { OnOk result (v.new.list ≡ list_after_one v.old.list command) }
    ensures fits { OnOk result (new_length v.old.list command ≤ MAX_BITS) }
    ensures unchanged { OnErr result (v.new.list ≡ v.old.list) }
    ensures why { IfErr result (λ why. IsRefusal v.old.list command why) }
{
    let len = v.len();
    match command {
        Command::Push(b) => {
            v.push(b)?;
            Ok(Reply::Done)
        }
        Command::Pop => Ok(v.pop().map_or(Reply::Nothing, Reply::Bit)),
        Command::Get(i) => Ok(v.get(i).map_or(Reply::OutOfRange, Reply::Bit)),
        Command::Set(i, b) => Ok(set_at(v, i, b)),
        Command::Insert(i, b) => insert_at(v, i, b),
        Command::Remove(i) => Ok(remove_at(v, i)),
        Command::SwapRemove(i) => Ok(swap_remove_at(v, i)),
        Command::Truncate(n) => {
            v.truncate(n);
            Ok(Reply::Done)
        }
        Command::Clear => {
            v.clear();
            Ok(Reply::Done)
        }
        Command::Drain(from, upto) => Ok(drain_at(v, from, upto)),
        Command::Splice(from, upto, b, n) => splice_at(v, from, upto, b, n),
        Command::SplitOff(at) => split_at(v, at),
        Command::Resize(n, b) => resize_to(v, n, b),
        Command::Reserve(more) => reserve_for(v, more),
        Command::ExtendWithin(from, upto) => extend_at(v, from, upto),
        Command::CopyWithin(from, upto, dest) => Ok(copy_at(v, from, upto, dest)),
        Command::Not => {
            v.flip_all();
            Ok(Reply::Done)
        }
        Command::Align => {
            v.force_align();
            Ok(Reply::Done)
        }
        Command::Clean => {
            v.set_uninitialized(false);
            Ok(Reply::Done)
        }
        Command::Len => Ok(Reply::Number(len)),
    }
}

/// Does the commands in order, and appends the reply to each.
///
/// Memory for all replies is taken first: where it is refused, the execution stops with `done` 0 and
/// `OutOfMemory`, and the vector is as it was, dead bits and capacity too. A command whose index or range is out of
/// range replies `OutOfRange`, and the execution goes on. It stops at the first command that is refused, for its
/// length or for memory; memory is wanted only past the room that the commands before it leave, so not by a `Push`
/// after a `Reserve` that was done.
pub fn run<T: BitStore, O: BitOrder>(
    v: &mut BitVec<T, O>,
    commands: &[Command],
    replies: &mut Vec<Reply>,
) -> Result<(), Stop>
    ensures replies { OnOk result (replies.new.items ≡ replies.old.items ++ replies_of v.old.list commands.now) }
    ensures head { OnOk result (v.new.head ≡ head_after v.old.head commands.now) }
    ensures stopped_head { IfErr result (λ stop. v.new.head ≡ head_after v.old.head (take stop.done commands.now)) }
    ensures capacity { v.old.capacity ≤ v.new.capacity }
    ensures room { OnOk result (room_after v.old.capacity v.old.list commands.now ≤ v.new.capacity) }
    ensures no_replies { vec_capacity replies.new < length replies.old.items + length commands.now → v.new ≡ v.old }
    ensures memory { IfErr result (λ stop. stop.why ≡ GrowError.OutOfMemory
        → ((stop.done ≡ 0) × (vec_capacity replies.old < length replies.old.items + length commands.now)
        × (v.new ≡ v.old))
        ⊎ ((command : Command) × (slice_get commands.now stop.done ≡ Some command)
        × CanWantMemory (room_after v.old.capacity v.old.list (take stop.done commands.now)) v.new.list command)) }
    ensures list { OnOk result (v.new.list ≡ list_after v.old.list commands.now) }
    ensures fit { OnOk result (AllFit v.old.list commands.now) }
    ensures stopped_replies { IfErr result (λ stop.
        replies.new.items ≡ replies.old.items ++ replies_of v.old.list (take stop.done commands.now)) }
    ensures stopped_list { IfErr result (λ stop. v.new.list ≡ list_after v.old.list (take stop.done commands.now)) }
    ensures stopped_fit { IfErr result (λ stop. AllFit v.old.list (take stop.done commands.now)) }
    ensures why { IfErr result (λ stop. IsStopReason v.new.list commands.now stop.done stop.why) }
{
    if replies.reserve(commands.len()).is_err() {
        return Err(Stop {
            done: 0,
            why: GrowError::OutOfMemory,
        });
    }
    for (done, command) in commands.iter().enumerate() {
        match step(v, *command) {
            Ok(reply) => {
                v.prove_in_words();
                replies.push_reserved(reply);
            }
            Err(why) => return Err(Stop { done, why }),
        }
    }
    Ok(())
}
