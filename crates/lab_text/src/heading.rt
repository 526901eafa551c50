ghost use Rattle.std.specs.Prelude.{◌≡◌, List, [], ◌∷◌, ◌++◌, Some, IfOk, IfErr, codes};
ghost use Rattle.std.specs.Str.{bytes_eq};
ghost use Rattle.std.specs.Option.{option_map};
ghost use Rattle.lab_text.specs.Bundle.{is_heading, title_of, title_of_words, text_faults, title_faults, first_of, Title};
ghost use Rattle.lab_text.specs.Reading.{title};

use super::bundle::BundleFault;
use super::lines::is_text;
use super::words::{Words, is_name};

/// What a heading of a bundle opens.
#[derive(Clone, Copy, PartialEq, Eq, Hash)]
pub enum Heading<'a> {
    /// `== table NAME`
    Table(&'a [u8]),
    /// `== script`
    Script,
    /// `== log NAME`
    Log(&'a [u8]),
    /// `== history`
    History,
}

/// Whether the line is a heading: its first two bytes are `==`, literally.
pub fn is_heading(line: &[u8]) -> bool
    ensures { result ≡ is_heading line.now }
{
    match line {
        [first, second, ..] => *first == b'=' && *second == b'=',
        _ => false,
    }
}

/// The heading that the line of that number is; `NotText` or `BadHeading` where it is none.
pub fn read_heading(line: &[u8], number: u64) -> Result<Heading<'_>, BundleFault>
    ensures text { IfOk result (λ _. text_faults number line.now ≡ []) }
    ensures title { IfOk result (λ heading. title_of line.now ≡ Some (title heading)) }
    ensures err { IfErr result (λ fault. (opened : List Title) →
        first_of (text_faults number line.now ++ title_faults opened number (title_of line.now))
        ≡ Some fault) }
{
    if !is_text(line) {
        return Err(BundleFault::NotText(number));
    }
    match heading_of(line) {
        None => Err(BundleFault::BadHeading(number)),
        Some(heading) => Ok(heading),
    }
}

/// The heading of one of the four forms that the line's words make, if they make one.
fn heading_of(line: &[u8]) -> Option<Heading<'_>>
    ensures { option_map title result ≡ title_of line.now }
{
    let mut words = Words::new(line);
    let mark = words.next()?;
    let part = words.next()?;
    if !is_mark(mark) {
        return None;
    }
    let Some(name) = words.next() else {
        return unnamed_heading(part);
    };
    match words.next() {
        None => named_heading(part, name),
        Some(_more) => None,
    }
}

/// Whether the word is `==`.
fn is_mark(word: &[u8]) -> bool
    ensures { result ≡ bytes_eq word.now (codes "==") }
{
    word == b"==".as_slice()
}

/// The heading that the word makes without a name, if it makes one.
fn unnamed_heading<'a>(part: &[u8]) -> Option<Heading<'a>>
    ensures { option_map title result ≡ title_of_words (codes "==" ∷ part.now ∷ []) }
{
    if part == b"script".as_slice() {
        return Some(Heading::Script);
    }
    if part == b"history".as_slice() {
        return Some(Heading::History);
    }
    None
}

/// The heading that the word makes with the name, if it makes one.
fn named_heading<'a>(part: &[u8], name: &'a [u8]) -> Option<Heading<'a>>
    ensures { option_map title result
        ≡ title_of_words (codes "==" ∷ part.now ∷ name.now ∷ []) }
{
    if !is_name(name) {
        return None;
    }
    if part == b"table".as_slice() {
        return Some(Heading::Table(name));
    }
    if part == b"log".as_slice() {
        return Some(Heading::Log(name));
    }
    None
}
