//! The texts that are written.
ghost use Rattle.std.specs.Prelude.{◌≡◌, ℕ, ◌/◌, ◌<◌, List, ◌++◌, false, map, OnOk, OnErr, decimal};
ghost use Rattle.std.specs.Fmt.{digit_glyph};
ghost use Rattle.bit_lines.specs.Script.{reply_text, with_line_feed, Extends};
ghost use Rattle.bit_lines.specs.Words.{hex_digits, words_text};

use bit_containers::{BitStore, Reply};
use std::alloc::AllocError;

/// How a script of lines ended.
#[derive(Clone, Copy, PartialEq, Eq, Debug)]
pub enum Ending {
    /// Its lines were done.
    Finished,
    /// The line of this number, counted from 1, is no command.
    BadCommand(u64),
    /// A command asked for more bits than a vector holds.
    TooLong,
    /// Memory was refused.
    NoMemory,
    /// The reader failed, or there was too much to read.
    ReadFailed,
}

/// Appends a text and a line feed, or nothing.
pub fn append_line(out: &mut Vec<u8>, text: &[u8]) -> Result<(), AllocError>
    ensures ok { OnOk result (out.new.items ≡ out.old.items ++ with_line_feed text.now) }
    ensures err { OnErr result (out.new.items ≡ out.old.items) }
{
    let start = out.len();
    if out.extend_from_slice(text).is_ok() && out.push(b'\n').is_ok() {
        return Ok(());
    }
    out.truncate(start);
    Err(AllocError)
}

// Appends the decimal digits of a number; where memory is refused, some of them may have been
// appended.
fn append_number(out: &mut Vec<u8>, number: u64) -> Result<(), AllocError>
    ensures ok { OnOk result (out.new.items ≡ out.old.items ++ decimal number) }
    ensures kept { Extends out.old.items out.new.items }
{
    if number < 10 {
        out.push(b'0' + number as u8)?;
        return Ok(());
    }
    append_number(out, number / 10)?;
    out.push(b'0' + (number % 10) as u8)?;
    Ok(())
}

// Appends a number and a line feed, or nothing.
fn append_number_line(out: &mut Vec<u8>, number: u64) -> Result<(), AllocError>
    ensures ok { OnOk result (out.new.items ≡ out.old.items ++ with_line_feed (decimal number)) }
    ensures err { OnErr result (out.new.items ≡ out.old.items) }
{
    let start = out.len();
    if append_number(out, number).is_ok() && out.push(b'\n').is_ok() {
        return Ok(());
    }
    out.truncate(start);
    Err(AllocError)
}

/// Appends the line of a command's reply, or nothing.
pub fn append_reply(out: &mut Vec<u8>, reply: Reply) -> Result<(), AllocError>
    ensures ok { OnOk result (out.new.items ≡ out.old.items ++ with_line_feed (reply_text reply)) }
    ensures err { OnErr result (out.new.items ≡ out.old.items) }
{
    match reply {
        Reply::Done => append_line(out, b"ok"),
        Reply::Bit(true) => append_line(out, b"1"),
        Reply::Bit(false) => append_line(out, b"0"),
        Reply::Nothing => append_line(out, b"none"),
        Reply::Number(n) => append_number_line(out, n as u64),
        Reply::OutOfRange => append_line(out, b"range"),
    }
}

// A hexadecimal digit in lower case. Requires that it is below 16.
fn hex_digit(digit: u64) -> u8
    requires { digit < 16 }
    ensures { result ≡ digit_glyph false digit }
{
    if digit < 10 {
        b'0' + digit as u8
    } else {
        b'a' + (digit - 10) as u8
    }
}

// Appends a word's hexadecimal digits, all of them; where memory is refused, some may have been
// appended.
fn append_word<T: BitStore>(out: &mut Vec<u8>, word: T) -> Result<(), AllocError>
    ensures ok { OnOk result (out.new.items ≡ out.old.items ++ hex_digits (T.BITS / 4) (T.value word)) }
    ensures kept { Extends out.old.items out.new.items }
{
    let number = word.to_u64();
    let digits = T::BITS / 4;
    for i in 0..digits {
        let place = 4 * (digits - 1 - i);
        out.push(hex_digit((number >> place) % 16))?;
    }
    Ok(())
}

// Appends words with a space between them; where memory is refused, some may have been appended.
fn append_row<T: BitStore>(out: &mut Vec<u8>, words: &[T]) -> Result<(), AllocError>
    ensures ok { OnOk result (out.new.items ≡ out.old.items ++ words_text T.BITS (map T.value words.now)) }
    ensures kept { Extends out.old.items out.new.items }
{
    for i in 0..words.len() {
        if i > 0 {
            out.push(b' ')?;
        }
        append_word(out, words[i])?;
    }
    Ok(())
}

/// Appends the line that shows words, or nothing.
pub fn append_words<T: BitStore>(out: &mut Vec<u8>, words: &[T]) -> Result<(), AllocError>
    ensures words { OnOk result
        (out.new.items ≡ out.old.items ++ with_line_feed (words_text T.BITS (map T.value words.now))) }
    ensures line { OnOk result ((text : List ℕ) × (out.new.items ≡ out.old.items ++ with_line_feed text)) }
    ensures err { OnErr result (out.new.items ≡ out.old.items) }
{
    let start = out.len();
    if append_row(out, words).is_ok() && out.push(b'\n').is_ok() {
        return Ok(());
    }
    out.truncate(start);
    Err(AllocError)
}
