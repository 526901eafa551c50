ghost use Rattle.std.specs.Prelude.{◌≡◌, not, position};
ghost use Rattle.std.specs.List.{position_or_len, list_all};
ghost use Rattle.std.specs.Iterator.{YieldsFirstRef, item_count};
ghost use Rattle.lab_text.specs.Words.{is_blank_byte, words_of, words_left};
ghost use Rattle.lab_text.specs.Names.{is_name, is_name_start, is_name_byte};

/// The words of a line, in order: the longest runs of bytes that are no space and no tab.
#[derive(Clone, Copy)]
pub struct Words<'a> {
    rest: &'a [u8],
}

impl<'a> Words<'a> {
    /// The words of the line.
    pub fn new(line: &'a [u8]) -> Words<'a>
        ensures { words_left result ≡ words_of line.now }
    {
        Words { rest: line }
    }
}

impl<'a> Iterator for Words<'a> {
    type Item = &'a [u8];

    ghost next_gives = { YieldsFirstRef words_left };

    ghost remaining = { item_count words_left };

    fn next(&mut self) -> Option<&'a [u8]> {
        let start = word_start(self.rest)?;
        let (_blanks, line) = self.rest.split_at(start);
        let (word, rest) = line.split_at(word_len(line));
        self.rest = rest;
        Some(word)
    }
}

/// How many blanks stand before the line's first word, or `None` where there is no word.
fn word_start(line: &[u8]) -> Option<usize>
    ensures { result ≡ position (λ byte. not (is_blank_byte byte)) line.now }
{
    line.iter().position(|byte| !is_blank_byte(*byte))
}

/// How many bytes stand before the line's first blank, or before its end where it has none.
#[tactic(auto, using(crate::proofs::Rulesets::word_len))]
fn word_len(line: &[u8]) -> usize
    ensures { result ≡ position_or_len is_blank_byte line.now }
{
    first_blank(line).unwrap_or(line.len())
}

/// How many bytes stand before the line's first blank, or `None` where it has none.
fn first_blank(line: &[u8]) -> Option<usize>
    ensures { result ≡ position is_blank_byte line.now }
{
    line.iter().position(|byte| is_blank_byte(*byte))
}

/// Whether the byte stands between words: a space or a tab.
pub(crate) fn is_blank_byte(byte: u8) -> bool
    ensures { result ≡ is_blank_byte byte }
{
    byte == b' ' || byte == b'\t'
}

/// Whether the word is a NAME: 1 to 32 of the bytes `A-Z a-z 0-9 _ . -`, the first of them a
/// letter, a digit or `_`.
#[tactic(auto, unfolding(crate::specs::Names::is_name))]
pub fn is_name(word: &[u8]) -> bool
    ensures { result ≡ is_name word.now }
{
    match word.split_first() {
        None => false,
        Some((first, others)) => {
            is_name_start(*first) && others.len() < 32 && are_name_bytes(others)
        }
    }
}

/// Whether each of the bytes may stand in a NAME.
fn are_name_bytes(bytes: &[u8]) -> bool
    ensures { result ≡ list_all is_name_byte bytes.now }
{
    bytes.iter().all(|byte| is_name_byte(*byte))
}

/// Whether a NAME may begin with the byte.
fn is_name_start(byte: u8) -> bool
    ensures { result ≡ is_name_start byte }
{
    byte.is_ascii_alphanumeric() || byte == b'_'
}

/// Whether the byte may stand in a NAME.
fn is_name_byte(byte: u8) -> bool
    ensures { result ≡ is_name_byte byte }
{
    is_name_start(byte) || byte == b'.' || byte == b'-'
}
