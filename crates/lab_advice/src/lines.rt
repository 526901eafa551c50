ghost use Rattle.std.specs.Prelude.{◌≡◌, drop, option_map};
ghost use Rattle.lab_text.specs.Lines.{lines_left, lines_of};
ghost use Rattle.lab_text.specs.Words.{words_of};
ghost use Rattle.lab_advice.specs.Places.{end_number, first_opening, heading_number, is_bare, is_named, line_of, opens};

use lab_text::{Lines, Words, is_heading};

/// The part of a bundle that a line is in.
#[derive(Clone, Copy)]
pub enum Part<'a> {
    /// The bundle as a whole.
    Whole,
    Table(&'a [u8]),
    Script,
    Log(&'a [u8]),
    History,
}

/// The line of this number, counted from 1.
pub(crate) fn line_at(bytes: &[u8], number: u64) -> Option<&[u8]>
    ensures { option_map (λ line. line.now) result ≡ line_of bytes.now number }
{
    let before = number.checked_sub(1)?;
    Lines::new(bytes).nth(before as usize)
}

/// The number of the line that opens the part; 0 for the whole bundle, and nothing where no line opens it.
pub fn heading_number(bytes: &[u8], part: Part<'_>) -> Option<u64>
    ensures heading { result ≡ heading_number bytes.now part.entry }
{
    match part {
        Part::Whole => Some(0),
        Part::Table(_) | Part::Script | Part::Log(_) | Part::History => first_opening(bytes, part),
    }
}

/// The number of the first line that is the heading of this part.
#[tactic(auto, using(crate::proofs::Rulesets::end_number))]
fn first_opening(bytes: &[u8], part: Part<'_>) -> Option<u64>
    ensures { result ≡ first_opening bytes.now part.entry }
{
    let mut at = 0u64;
    for line in Lines::new(bytes) {
        at += 1;
        if opens(line, part) {
            return Some(at);
        }
    }
    None
}

/// Whether the line is the heading of this part.
fn opens(line: &[u8], part: Part<'_>) -> bool
    ensures { result ≡ opens part.entry line.now }
{
    match part {
        Part::Whole => false,
        Part::Table(name) => is_heading(line) && is_named(line, b"table", name),
        Part::Script => is_heading(line) && is_bare(line, b"script"),
        Part::Log(name) => is_heading(line) && is_named(line, b"log", name),
        Part::History => is_heading(line) && is_bare(line, b"history"),
    }
}

/// Whether the line's words are `==` and this kind.
fn is_bare(line: &[u8], kind: &[u8]) -> bool
    ensures { result ≡ is_bare kind.now (words_of line.now) }
{
    let mut words = Words::new(line);
    match (words.next(), words.next(), words.next()) {
        (Some(mark), Some(word), None) => mark == b"==".as_slice() && word == kind,
        _ => false,
    }
}

/// Whether the line's words are `==`, this kind and this name.
fn is_named(line: &[u8], kind: &[u8], name: &[u8]) -> bool
    ensures { result ≡ is_named kind.now name.now (words_of line.now) }
{
    let mut words = Words::new(line);
    match (words.next(), words.next(), words.next(), words.next()) {
        (Some(mark), Some(word), Some(last), None) => {
            mark == b"==".as_slice() && word == kind && last == name
        }
        _ => false,
    }
}

/// The lines behind the one of this number.
#[tactic(auto, using(crate::proofs::Rulesets::lines_behind))]
pub(crate) fn lines_behind(bytes: &[u8], number: u64) -> Lines<'_>
    ensures { lines_left result ≡ drop number (lines_of bytes.now) }
{
    let mut lines = Lines::new(bytes);
    for _passed in 0..number {
        let _line = lines.next();
    }
    lines
}

/// The number of the line after the part that this line is in: that of the next heading, or the one past the last.
#[tactic(auto, using(crate::proofs::Rulesets::end_number))]
pub fn end_number(bytes: &[u8], number: u64) -> u64
    ensures end { result ≡ end_number bytes.now number }
{
    let mut at = 0u64;
    for line in Lines::new(bytes) {
        at += 1;
        if at > number && is_heading(line) {
            return at;
        }
    }
    at + 1
}
