//! Parts of a text between separators, and the numbers that they write, for what reads texts here and in the crates
//! above.
ghost use Rattle.std.specs.Prelude.{◌≡◌, ◌==◌, ◌+◌, MatchOption, List, ◌∷◌, [], length, position, slice_index};
ghost use Rattle.bit_containers.specs.TextParts.{number_of, parts_of};

// A number below 2^64 has no more digits.
const MAX_DIGITS: usize = 20;

// The index of the first separator.
fn find_byte(text: &[u8], separator: u8) -> Option<usize>
    ensures { result ≡ position (λ c. c == separator) text.now }
{
    text.iter().position(|c| *c == separator)
}

/// The part of a text before the first separator, and what follows the separator, or None where there is none.
pub fn cut_part(text: &[u8], separator: u8) -> (&[u8], Option<&[u8]>)
    ensures parts { MatchOption result.1
        (parts_of separator text.now ≡ result.0.now ∷ [])
        (λ rest. parts_of separator text.now ≡ result.0.now ∷ parts_of separator rest.now) }
    ensures size { MatchOption result.1
        (length result.0.now ≡ length text.now)
        (λ rest. length result.0.now + 1 + length rest.now ≡ length text.now) }
{
    match find_byte(text, separator) {
        Some(at) => (&text[..at], Some(&text[at + 1..])),
        None => (text, None),
    }
}

// Whether a part begins with a plus, which the standard library's `parse` passes.
fn has_plus(part: &[u8]) -> bool
    ensures { result ≡ (slice_index part.now 0 == 43) }
{
    match part {
        [first, ..] => *first == b'+',
        [] => false,
    }
}

/// The number that a part writes in decimal. None where it is not one to twenty digits, or the number is 2^64 or more.
pub fn part_number(part: &[u8]) -> Option<usize>
    ensures { result ≡ number_of part.now }
{
    if part.len() > MAX_DIGITS || has_plus(part) {
        return None;
    }
    match str::from_utf8(part) {
        Ok(text) => text.parse().ok(),
        Err(_) => None,
    }
}
