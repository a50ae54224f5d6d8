//! The lines of a script.
ghost use Rattle.std.specs.Prelude.{◌≡◌, [], ◌∷◌};
ghost use Rattle.bit_lines.specs.Line.{bit_of, of_fields, fields_of, line_of};

use bit_containers::Command;
use bit_containers::inner::{cut_part, part_number};

/// The most bytes of a line, without its line feed.
pub const MAX_LINE: usize = 100;

/// What a line asks for.
#[derive(Clone, Copy, PartialEq, Eq, Debug)]
pub enum Line {
    /// To run a command over the vector.
    Run(Command),
    /// To show the vector's list.
    ShowList,
    /// To show the vector's words.
    ShowWords,
}

// The bit that a field writes.
fn bit(field: &[u8]) -> Option<bool>
    ensures { result ≡ bit_of field.now }
{
    if field == b"0".as_slice() {
        Some(false)
    } else if field == b"1".as_slice() {
        Some(true)
    } else {
        None
    }
}

// The line of a word alone.
fn of_word(word: &[u8]) -> Option<Line>
    ensures { result ≡ of_fields (word.now ∷ []) }
{
    if word == b"pop".as_slice() {
        Some(Line::Run(Command::Pop))
    } else if word == b"len".as_slice() {
        Some(Line::Run(Command::Len))
    } else if word == b"clear".as_slice() {
        Some(Line::Run(Command::Clear))
    } else if word == b"not".as_slice() {
        Some(Line::Run(Command::Not))
    } else if word == b"align".as_slice() {
        Some(Line::Run(Command::Align))
    } else if word == b"clean".as_slice() {
        Some(Line::Run(Command::Clean))
    } else if word == b"list".as_slice() {
        Some(Line::ShowList)
    } else if word == b"raw".as_slice() {
        Some(Line::ShowWords)
    } else {
        None
    }
}

// The line of a word and one argument.
fn with_one(word: &[u8], a: &[u8]) -> Option<Line>
    ensures { result ≡ of_fields (word.now ∷ a.now ∷ []) }
{
    if word == b"push".as_slice() {
        Some(Line::Run(Command::Push(bit(a)?)))
    } else if word == b"get".as_slice() {
        Some(Line::Run(Command::Get(part_number(a)?)))
    } else if word == b"truncate".as_slice() {
        Some(Line::Run(Command::Truncate(part_number(a)?)))
    } else if word == b"splitoff".as_slice() {
        Some(Line::Run(Command::SplitOff(part_number(a)?)))
    } else if word == b"reserve".as_slice() {
        Some(Line::Run(Command::Reserve(part_number(a)?)))
    } else if word == b"remove".as_slice() {
        Some(Line::Run(Command::Remove(part_number(a)?)))
    } else if word == b"swapremove".as_slice() {
        Some(Line::Run(Command::SwapRemove(part_number(a)?)))
    } else {
        None
    }
}

// The line of a word and two arguments.
fn with_two(word: &[u8], a: &[u8], b: &[u8]) -> Option<Line>
    ensures { result ≡ of_fields (word.now ∷ a.now ∷ b.now ∷ []) }
{
    if word == b"set".as_slice() {
        Some(Line::Run(Command::Set(part_number(a)?, bit(b)?)))
    } else if word == b"insert".as_slice() {
        Some(Line::Run(Command::Insert(part_number(a)?, bit(b)?)))
    } else if word == b"resize".as_slice() {
        Some(Line::Run(Command::Resize(part_number(a)?, bit(b)?)))
    } else if word == b"drain".as_slice() {
        Some(Line::Run(Command::Drain(part_number(a)?, part_number(b)?)))
    } else if word == b"within".as_slice() {
        Some(Line::Run(Command::ExtendWithin(part_number(a)?, part_number(b)?)))
    } else {
        None
    }
}

// The line of a word and three arguments.
fn with_three(word: &[u8], a: &[u8], b: &[u8], c: &[u8]) -> Option<Line>
    ensures { result ≡ of_fields (word.now ∷ a.now ∷ b.now ∷ c.now ∷ []) }
{
    if word == b"copy".as_slice() {
        let command = Command::CopyWithin(part_number(a)?, part_number(b)?, part_number(c)?);
        Some(Line::Run(command))
    } else {
        None
    }
}

// The line of a word and four arguments.
fn with_four(word: &[u8], a: &[u8], b: &[u8], c: &[u8], d: &[u8]) -> Option<Line>
    ensures { result ≡ of_fields (word.now ∷ a.now ∷ b.now ∷ c.now ∷ d.now ∷ []) }
{
    if word == b"splice".as_slice() {
        let command = Command::Splice(part_number(a)?, part_number(b)?, bit(c)?, part_number(d)?);
        Some(Line::Run(command))
    } else {
        None
    }
}

// The line of a word, three arguments and what follows them.
fn with_rest(word: &[u8], a: &[u8], b: &[u8], c: &[u8], rest: &[u8]) -> Option<Line>
    ensures { result ≡ of_fields (word.now ∷ a.now ∷ b.now ∷ c.now ∷ fields_of rest.now) }
{
    let (d, rest) = cut_part(rest, b' ');
    match rest {
        None => with_four(word, a, b, c, d),
        Some(_) => None,
    }
}

// The line of a word, two arguments and what follows them.
fn with_more(word: &[u8], a: &[u8], b: &[u8], rest: &[u8]) -> Option<Line>
    ensures { result ≡ of_fields (word.now ∷ a.now ∷ b.now ∷ fields_of rest.now) }
{
    let (c, rest) = cut_part(rest, b' ');
    match rest {
        None => with_three(word, a, b, c),
        Some(rest) => with_rest(word, a, b, c, rest),
    }
}

// The line of a word and what follows it.
fn with_arguments(word: &[u8], rest: &[u8]) -> Option<Line>
    ensures { result ≡ of_fields (word.now ∷ fields_of rest.now) }
{
    let (a, rest) = cut_part(rest, b' ');
    let Some(rest) = rest else {
        return with_one(word, a);
    };
    let (b, rest) = cut_part(rest, b' ');
    match rest {
        None => with_two(word, a, b),
        Some(rest) => with_more(word, a, b, rest),
    }
}

/// What these bytes ask for. None where they are no line.
pub fn parse_line(line: &[u8]) -> Option<Line>
    ensures { result ≡ line_of line.now }
{
    if line.len() > MAX_LINE {
        return None;
    }
    let (word, rest) = cut_part(line, b' ');
    match rest {
        None => of_word(word),
        Some(rest) => with_arguments(word, rest),
    }
}
