ghost use Rattle.std.specs.Prelude.{◌≡◌, [], ◌∷◌, ◌<◌, ◌==◌, length, position, MatchOption, IfSome, IsTrue, ◌↔◌};
ghost use Rattle.std.specs.List.{list_all};
ghost use Rattle.std.specs.Iterator.{YieldsFirstRef, item_count};
ghost use Rattle.lab_text.specs.Lines.{lines_of, lines_left, is_comment, is_blank, is_skipped, CutsLine};
ghost use Rattle.lab_text.specs.Bundle.{is_body_byte, is_text_byte};
ghost use Rattle.lab_text.specs.Words.{words_of};

use super::words::is_blank_byte;

/// The lines of a text, in order and without their newlines. A line ends at a newline, and a last
/// line without one is a line.
#[derive(Clone, Copy)]
pub struct Lines<'a> {
    rest: &'a [u8],
}

impl<'a> Lines<'a> {
    /// The lines of the text.
    pub fn new(text: &'a [u8]) -> Lines<'a>
        ensures { lines_left result ≡ lines_of text.now }
    {
        Lines { rest: text }
    }
}

impl<'a> Iterator for Lines<'a> {
    type Item = &'a [u8];

    ghost next_gives = { YieldsFirstRef lines_left };

    ghost remaining = { item_count lines_left };

    fn next(&mut self) -> Option<&'a [u8]> {
        let (line, rest) = first_line(self.rest)?;
        self.rest = rest;
        Some(line)
    }
}

/// The text's first line without its newline, and the text after it, or `None` where the text is
/// empty.
pub(crate) fn first_line(text: &[u8]) -> Option<(&[u8], &[u8])>
    ensures first { MatchOption result (text.now ≡ [])
        (λ p. lines_of text.now ≡ p.0.now ∷ lines_of p.1.now) }
    ensures cut { IfSome result (λ p. CutsLine text.now p.0.now p.1.now) }
    ensures shorter { IfSome result (λ p. length p.1.now < length text.now) }
{
    if text.is_empty() {
        return None;
    }
    match newline_at(text) {
        None => Some((text, &[])),
        Some(end) => Some((&text[..end], &text[end + 1..])),
    }
}

/// Where the text's first newline stands, counted from 0.
fn newline_at(text: &[u8]) -> Option<usize>
    ensures { result ≡ position (λ byte. byte == 10) text.now }
{
    text.iter().position(|byte| *byte == b'\n')
}

/// Whether the line is a comment: its first byte is `#`, literally.
pub fn is_comment(line: &[u8]) -> bool
    ensures { result ≡ is_comment line.now }
{
    match line {
        [first, ..] => *first == b'#',
        [] => false,
    }
}

/// Whether the line has no word: only spaces and tabs.
pub fn is_blank(line: &[u8]) -> bool
    ensures exact { result ≡ is_blank line.now }
    ensures no_word { IsTrue result ↔ (words_of line.now ≡ []) }
{
    are_blank_bytes(line)
}

/// Whether the line is skipped where blank lines and comments are: in a table, a script and a history.
pub fn is_skipped(line: &[u8]) -> bool
    ensures { result ≡ is_skipped line.now }
{
    is_blank(line) || is_comment(line)
}

/// Whether each of the bytes is a space or a tab.
fn are_blank_bytes(bytes: &[u8]) -> bool
    ensures { result ≡ is_blank bytes.now }
{
    bytes.iter().all(|byte| is_blank_byte(*byte))
}

/// Whether the line has only bytes that may stand in a text: tabs and 0x20 to 0x7E.
pub(crate) fn is_text(line: &[u8]) -> bool
    ensures { result ≡ list_all is_text_byte line.now }
{
    line.iter().all(|byte| is_text_byte(*byte))
}

/// Whether the byte is a tab or 0x20 to 0x7E.
fn is_text_byte(byte: u8) -> bool
    ensures { result ≡ is_text_byte byte }
{
    byte == b'\t' || (0x20..=0x7e).contains(&byte)
}

/// Whether each line of the text has only bytes that may stand in a text. The answer waits for the
/// last byte, so that many bytes are looked at together.
pub(crate) fn are_body_bytes(text: &[u8]) -> bool
    ensures { result ≡ list_all is_body_byte text.now }
{
    let mut all = true;
    for byte in text {
        all &= is_body_byte(*byte);
    }
    all
}

/// Whether the byte may stand in a line, or ends one.
fn is_body_byte(byte: u8) -> bool
    ensures { result ≡ is_body_byte byte }
{
    byte == b'\n' || is_text_byte(byte)
}
