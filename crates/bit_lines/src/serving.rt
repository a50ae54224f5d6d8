//! Whole scripts, from a source to a sink.
ghost use Rattle.std.specs.Prelude.{◌≡◌, ◌≢◌, ℕ, ◌+◌, ◌-◌, ◌<◌, ◌≤◌, ◌^◌, ◌⊎◌, List, [], ◌∷◌, ◌++◌, length, decimal, Ok, IsOk, OnOk, IfOk, IfSome, MatchOption};
ghost use Rattle.std.specs.Io.KnownBytes.{Appends};
ghost use Rattle.bit_lines.specs.Script.{ending_text, ending_status, script_ending};
ghost use Rattle.bit_lines.specs.Served.{Sends, Concludes, IsServed, IsTranscribed, IsShort};

use crate::replying::Ending;
use crate::session::Session;
use crate::source::{Reader, Sink, Source, Writer};
use bit_containers::{BitOrder, BitStore};
use std::alloc::Global;
use std::io;
use std::io::{Read, Write};

/// The number of bytes read at once.
const CHUNK: usize = 8192;

// Writes the bytes that wait.
fn send<T: BitStore, O: BitOrder, K: Sink>(
    session: &mut Session<T, O>,
    output: &mut K,
) -> io::Result<()>
    ensures sent { OnOk result (Appends (K.held output.old) (K.held output.new) session.old.out) }
    ensures cleared { OnOk result (session.new ≡ record session.old { out = [] }) }
    ensures sure { K.is_sure output.old → IsOk result × K.is_sure output.new }
{
    output.put(session.waiting())?;
    session.clear_waiting();
    Ok(())
}

// Writes the decimal digits of a number.
fn put_number<K: Sink>(output: &mut K, number: u64) -> io::Result<()>
    ensures held { OnOk result (Appends (K.held output.old) (K.held output.new) (decimal number)) }
    ensures sure { K.is_sure output.old → IsOk result × K.is_sure output.new }
{
    if number < 10 {
        return output.put(&[b'0' + number as u8]);
    }
    put_number(output, number / 10)?;
    output.put(&[b'0' + (number % 10) as u8])
}

// Writes the line for a bad command.
fn put_bad_command<K: Sink>(output: &mut K, number: u64) -> io::Result<()>
    ensures held { OnOk result
        (Appends (K.held output.old) (K.held output.new) (ending_text (Ending.BadCommand number))) }
    ensures sure { K.is_sure output.old → IsOk result × K.is_sure output.new }
{
    output.put(b"line ")?;
    put_number(output, number)?;
    output.put(b": bad command\n")
}

// Writes the text of an ending.
fn put_ending<K: Sink>(output: &mut K, ending: Ending) -> io::Result<()>
    ensures held { OnOk result (Appends (K.held output.old) (K.held output.new) (ending_text ending)) }
    ensures sure { K.is_sure output.old → IsOk result × K.is_sure output.new }
{
    match ending {
        Ending::Finished => output.put(b""),
        Ending::BadCommand(number) => put_bad_command(output, number),
        Ending::TooLong => output.put(b"too long\n"),
        Ending::NoMemory => output.put(b"no memory\n"),
        Ending::ReadFailed => output.put(b"read failed\n"),
    }
}

// Writes the bytes that wait, and the text of an ending.
fn conclude<T: BitStore, O: BitOrder, K: Sink>(
    session: &mut Session<T, O>,
    output: &mut K,
    ending: Ending,
) -> io::Result<Ending>
    ensures ending { IfOk result (λ last. last ≡ ending) }
    ensures held { OnOk result
        (Appends (K.held output.old) (K.held output.new) (session.old.out ++ ending_text ending)) }
    ensures sure { K.is_sure output.old → IsOk result × K.is_sure output.new }
{
    send(session, output)?;
    put_ending(output, ending)?;
    Ok(ending)
}

// Runs the lines of a piece of a script, writes their replies, and returns the ending if the
// script ended.
fn serve_piece<T: BitStore, O: BitOrder, K: Sink>(
    session: &mut Session<T, O>,
    piece: &[u8],
    output: &mut K,
) -> io::Result<Option<Ending>>
    requires room { session.old.number + length session.old.line + length piece.now < 2 ^ 64 }
    requires blank { session.old.out ≡ [] }
    ensures served { IfOk result (λ ended. MatchOption ended
        (Sends session.old piece.now session.new (K.held output.old) (K.held output.new))
        (λ ending. Concludes session.old piece.now ending (K.held output.old) (K.held output.new))) }
    ensures blank { IfOk result (λ ended. MatchOption ended (session.new.out ≡ []) (λ ending. Unit {0})) }
    ensures number { IfOk result (λ ended. MatchOption ended
        (session.new.number + length session.new.line ≤ session.old.number + length session.old.line + length piece.now)
        (λ ending. Unit {0})) }
    ensures sure { K.is_sure output.old → IsOk result × K.is_sure output.new }
{
    let mut start = 0;
    while start < piece.len() {
        match session.take_bytes(&piece[start..]) {
            Ok(count) => {
                send(session, output)?;
                start += count;
            }
            Err(ending) => {
                conclude(session, output, ending)?;
                return Ok(Some(ending));
            }
        }
    }
    Ok(None)
}

// Runs the lines of a script, writes their replies, and returns how it ended.
fn serve_script<T: BitStore, O: BitOrder, S: Source, K: Sink>(
    alloc: Global,
    input: &mut S,
    output: &mut K,
) -> io::Result<Ending>
    ensures served { IfOk result
        (λ ending. IsServed (S.left input.old) (K.held output.old) (K.held output.new) ending) }
    ensures read { S.is_sure input.old → IsShort (S.left input.old) → result ≢ Ok Ending.ReadFailed }
    ensures written { K.is_sure output.old → IsOk result }
{
    let mut session = Session::<T, O>::new(alloc);
    let mut chunk = [0u8; CHUNK];
    let mut total = 0u64;
    for _ in 0..u64::MAX {
        let count = match input.give(&mut chunk) {
            Ok(count) => count,
            Err(e) => {
                if e.kind() == io::ErrorKind::Interrupted {
                    continue;
                }
                return conclude(&mut session, output, Ending::ReadFailed);
            }
        };
        if count == 0 {
            let ending = session.finish();
            return conclude(&mut session, output, ending);
        }
        if count as u64 >= u64::MAX - total {
            return conclude(&mut session, output, Ending::ReadFailed);
        }
        total += count as u64;
        let ended = serve_piece(&mut session, &chunk[..count], output)?;
        if let Some(ending) = ended {
            return Ok(ending);
        }
    }
    conclude(&mut session, output, Ending::ReadFailed)
}

/// Runs the lines of a script over an empty vector, writes their replies, and returns how it ended.
///
/// Each line is replied to with one line, up to the end of the script or its first line that is no
/// command, and then the text of the ending is written. Where memory is refused, or the source
/// fails, that text follows the replies so far. An error is that of a failing write, after which
/// nothing more is written.
///
/// `served` says the replies and the ending, whatever lines show the words; `transcribed` the transcript of the script,
/// where no line shows them. By `read`, a source that doesn't fail is read to the end of the script; by `written`, writing to
/// a sink that doesn't fail gives no error.
pub fn serve_lines<T: BitStore, O: BitOrder, S: Source, K: Sink>(
    alloc: Global,
    input: &mut S,
    output: &mut K,
) -> io::Result<Ending>
    ensures served { IfOk result
        (λ ending. IsServed (S.left input.old) (K.held output.old) (K.held output.new) ending) }
    ensures transcribed { IfOk result
        (λ ending. IsTranscribed (S.left input.old) (K.held output.old) (K.held output.new) ending) }
    ensures read { S.is_sure input.old → IsShort (S.left input.old) → result ≢ Ok Ending.ReadFailed }
    ensures written { K.is_sure output.old → IsOk result }
{
    serve_script::<T, O, S, K>(alloc, input, output)
}

// The status of an ending.
fn status(ending: Ending) -> u8
    ensures { result ≡ ending_status ending }
{
    match ending {
        Ending::Finished => 0,
        Ending::BadCommand(_) => 2,
        Ending::TooLong | Ending::NoMemory | Ending::ReadFailed => 1,
    }
}

/// Runs the lines of a whole input over an empty vector, writes their replies, and returns the
/// status: 0 at the end of the input, 2 at a line that is no command, 1 where something failed.
pub fn serve<T: BitStore, O: BitOrder, R: Read + Drop, W: Write + Drop>(
    alloc: Global,
    input: R,
    output: W,
) -> u8
    ensures { IfSome (R.remaining input) (λ text. (result ≡ ending_status (script_ending text)) ⊎ (result ≡ 1)) }
{
    let mut input = Reader { reader: input };
    let mut output = Writer { writer: output };
    match serve_lines::<T, O, Reader<R>, Writer<W>>(alloc, &mut input, &mut output) {
        Ok(ending) => status(ending),
        Err(_) => 1,
    }
}
