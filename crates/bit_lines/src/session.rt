//! A script that is run byte by byte.
ghost use Rattle.std.specs.Prelude.{◌≡◌, ◌≢◌, ℕ, ◌+◌, ◌-◌, ◌<◌, ◌≤◌, ◌^◌, List, [], ◌∷◌, ◌++◌, length, take, OnOk, OnErr, IfOk, IfErr};
ghost use Rattle.bit_addressing.specs.declared.length.TheConstants.{MAX_BITS};
ghost use Rattle.bit_containers.specs.Machine.{list_after_one, reply_to, new_length};
ghost use Rattle.bit_lines.specs.declared.parsing.TheConstants.{MAX_LINE};
ghost use Rattle.bit_lines.specs.Script.{with_line_feed, CanRefuse};
ghost use Rattle.bit_addressing.specs.Text.{list_text};
ghost use Rattle.bit_lines.specs.Progress.{IsPart, Replies, Advances, Stops, StopsHere};

use crate::parsing::{Line, MAX_LINE, parse_line};
use crate::replying::{Ending, append_line, append_reply, append_words};
use bit_containers::{BitOrder, BitStore, BitVec, Command, GrowError, Reply, run};
use std::alloc::{AllocError, Global};
use std::marker::Model;

/// The number of bytes that may wait before they are written.
pub const FULL: usize = 65536;

/// A script that is being run: its vector, the line that has begun, and the bytes that wait to be
/// written.
#[derive(Drop)]
pub struct Session<T: BitStore, O: BitOrder> {
    vector: BitVec<T, O>,
    line: Vec<u8>,
    number: u64,
    replies: Vec<Reply>,
    text: String,
    out: Vec<u8>,
}

impl<T: BitStore, O: BitOrder> Model for Session<T, O> {
    ghost use Rattle.bit_lines.specs.Progress.{Progress, progress_code, IsPart};

    ghost Value = { Progress };

    ghost coded = { progress_code };

    ghost view = { λ s. record { list = s.vector.list; line = s.line.items; number = s.number; out = s.out.items } };

    ghost invariant = { λ s. IsPart s.line.items };
}

// Does one command.
fn obey<T: BitStore, O: BitOrder>(
    vector: &mut BitVec<T, O>,
    replies: &mut Vec<Reply>,
    command: Command,
) -> Result<Reply, Ending>
    ensures reply { IfOk result (λ reply. reply ≡ reply_to vector.old.list command) }
    ensures list { OnOk result (vector.new.list ≡ list_after_one vector.old.list command) }
    ensures fits { OnOk result (new_length vector.old.list command ≤ MAX_BITS) }
    ensures err { IfErr result (CanRefuse vector.old.list (Line.Run command)) }
{
    replies.clear();
    match run(vector, &[command], replies) {
        Ok(()) => match replies.pop() {
            Some(reply) => Ok(reply),
            None => unreachable!(),
        },
        Err(stop) => match stop.why {
            GrowError::TooLong => Err(Ending::TooLong),
            GrowError::OutOfMemory => Err(Ending::NoMemory),
        },
    }
}

// Appends the line that shows a vector's list, or nothing.
fn append_list<T: BitStore, O: BitOrder>(
    out: &mut Vec<u8>,
    text: &mut String,
    vector: &BitVec<T, O>,
) -> Result<(), AllocError>
    ensures ok { OnOk result (out.new.items ≡ out.old.items ++ with_line_feed (list_text vector.now.list)) }
    ensures err { OnErr result (out.new.items ≡ out.old.items) }
{
    text.clear();
    write!(text, "{vector}")?;
    append_line(out, text.as_bytes())
}

impl<T: BitStore, O: BitOrder> Session<T, O> {
    /// A script of which nothing was read yet, with an empty vector.
    pub fn new(alloc: Global) -> Self
        ensures list { result.list ≡ [] }
        ensures line { result.line ≡ [] }
        ensures number { result.number ≡ 1 }
        ensures out { result.out ≡ [] }
    {
        Session {
            vector: BitVec::new(alloc),
            line: Vec::new(alloc),
            number: 1,
            replies: Vec::new(alloc),
            text: String::new(alloc),
            out: Vec::new(alloc),
        }
    }

    // The line that has begun.
    fn line(&self) -> &[u8]
        ensures value { result.now ≡ self.now.line }
        ensures part { IsPart self.now.line }
    {
        self.line.as_slice()
    }

    // The ending where the line that was read is no command.
    fn bad_command(&self) -> Ending
        ensures { result ≡ Ending.BadCommand self.now.number }
    {
        Ending::BadCommand(self.number)
    }

    // Appends a byte to the line. Requires that the line has room, and that the byte is no line
    // feed.
    fn push_byte(&mut self, byte: u8) -> Result<(), AllocError>
        requires room { length self.old.line < MAX_LINE }
        requires other { byte ≢ 10 }
        ensures ok { OnOk result (self.new ≡ record self.old { line = self.old.line ++ byte ∷ [] }) }
        ensures err { OnErr result (self.new ≡ self.old) }
    {
        match self.line.push(byte) {
            Ok(()) => Ok(()),
            Err(_) => Err(AllocError),
        }
    }

    // Begins the next line.
    fn next_line(&mut self)
        requires { self.old.number + 1 < 2 ^ 64 }
        ensures { self.new ≡ record self.old { line = []; number = self.old.number + 1 } }
    {
        self.line.clear();
        self.number += 1;
    }

    // Does a command, and appends the line of its reply.
    fn reply_to_command(&mut self, command: Command) -> Result<(), Ending>
        ensures ok { OnOk result (Replies self.old (Line.Run command) self.new) }
        ensures out { OnErr result (self.new.out ≡ self.old.out) }
        ensures err { IfErr result (CanRefuse self.old.list (Line.Run command)) }
    {
        let reply = obey(&mut self.vector, &mut self.replies, command)?;
        match append_reply(&mut self.out, reply) {
            Ok(()) => Ok(()),
            Err(_) => Err(Ending::NoMemory),
        }
    }

    // Appends the line that shows the list.
    fn reply_with_list(&mut self) -> Result<(), Ending>
        ensures ok { OnOk result (Replies self.old Line.ShowList self.new) }
        ensures out { OnErr result (self.new.out ≡ self.old.out) }
        ensures err { IfErr result (CanRefuse self.old.list Line.ShowList) }
    {
        match append_list(&mut self.out, &mut self.text, &self.vector) {
            Ok(()) => Ok(()),
            Err(_) => Err(Ending::NoMemory),
        }
    }

    // Appends the line that shows the words.
    fn reply_with_words(&mut self) -> Result<(), Ending>
        ensures ok { OnOk result (Replies self.old Line.ShowWords self.new) }
        ensures out { OnErr result (self.new.out ≡ self.old.out) }
        ensures err { IfErr result (CanRefuse self.old.list Line.ShowWords) }
    {
        match append_words(&mut self.out, self.vector.as_raw_slice()) {
            Ok(()) => Ok(()),
            Err(_) => Err(Ending::NoMemory),
        }
    }

    // Does what a line asks for, and appends the line of the reply.
    fn reply(&mut self, line: Line) -> Result<(), Ending>
        ensures ok { OnOk result (Replies self.old line self.new) }
        ensures out { OnErr result (self.new.out ≡ self.old.out) }
        ensures err { IfErr result (CanRefuse self.old.list line) }
    {
        match line {
            Line::Run(command) => self.reply_to_command(command),
            Line::ShowList => self.reply_with_list(),
            Line::ShowWords => self.reply_with_words(),
        }
    }

    // Ends the line that was read.
    fn end_line(&mut self) -> Result<(), Ending>
        requires { self.old.number + 1 < 2 ^ 64 }
        ensures ok { OnOk result (Advances self.old (10 ∷ []) self.new) }
        ensures cleared { OnOk result (self.new.line ≡ []) }
        ensures number { OnOk result (self.new.number ≡ self.old.number + 1) }
        ensures ended { IfErr result (λ ending. Stops self.old (10 ∷ []) ending self.new) }
    {
        let Some(line) = parse_line(self.line()) else {
            return Err(self.bad_command());
        };
        match self.reply(line) {
            Ok(()) => {
                self.next_line();
                Ok(())
            }
            Err(ending) => Err(ending),
        }
    }

    // Takes the next byte.
    fn take_byte(&mut self, byte: u8) -> Result<(), Ending>
        requires { self.old.number + length self.old.line + 1 < 2 ^ 64 }
        ensures ok { OnOk result (Advances self.old (byte ∷ []) self.new) }
        ensures number { OnOk result
            (self.new.number + length self.new.line ≤ self.old.number + length self.old.line + 1) }
        ensures ended { IfErr result (λ ending. Stops self.old (byte ∷ []) ending self.new) }
    {
        if byte == b'\n' {
            return self.end_line();
        }
        if self.line().len() == MAX_LINE {
            return Err(self.bad_command());
        }
        match self.push_byte(byte) {
            Ok(()) => Ok(()),
            Err(_) => Err(Ending::NoMemory),
        }
    }

    /// Takes bytes, and returns how many: all of them, or fewer where `FULL` bytes wait to be
    /// written before.
    pub fn take_bytes(&mut self, bytes: &[u8]) -> Result<usize, Ending>
        requires { self.old.number + length self.old.line + length bytes.now < 2 ^ 64 }
        ensures count { IfOk result (λ count. count ≤ length bytes.now) }
        ensures some { IfOk result (λ count. 0 < length bytes.now → 0 < count) }
        ensures ok { IfOk result (λ count. Advances self.old (take count bytes.now) self.new) }
        ensures number { IfOk result (λ count. self.new.number + length self.new.line
            ≤ self.old.number + length self.old.line + count) }
        ensures ended { IfErr result (λ ending. Stops self.old bytes.now ending self.new) }
    {
        for (count, byte) in bytes.iter().enumerate() {
            if let Err(ending) = self.take_byte(*byte) {
                return Err(ending);
            }
            if self.waiting().len() >= FULL {
                return Ok(count + 1);
            }
        }
        Ok(bytes.len())
    }

    /// Ends the script, and the last line if it has no line feed.
    pub fn finish(&mut self) -> Ending
        requires { self.old.number + length self.old.line < 2 ^ 64 }
        ensures { StopsHere self.old result self.new }
    {
        if self.line().is_empty() {
            return Ending::Finished;
        }
        match self.end_line() {
            Ok(()) => Ending::Finished,
            Err(ending) => ending,
        }
    }

    /// The bytes that wait to be written.
    pub fn waiting(&self) -> &[u8]
        ensures { result.now ≡ self.now.out }
    {
        self.out.as_slice()
    }

    /// Forgets the bytes that waited, since they were written.
    pub fn clear_waiting(&mut self)
        ensures { self.new ≡ record self.old { out = [] } }
    {
        self.out.clear();
    }
}
