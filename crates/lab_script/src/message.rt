ghost use Rattle.std.specs.Prelude.{◌≡◌, ◌<◌, length, drop, not, position, IfSome};
ghost use Rattle.std.specs.List.{position_or_len};
ghost use Rattle.std.specs.Option.{option_map};
ghost use Rattle.lab_text.specs.Words.{words_of, is_blank_byte};
ghost use Rattle.lab_script.specs.Task as task;

use super::command::Command;
use lab_sector::MAX_SECTOR;
use lab_text::{is_name, number_to};

/// The message that a line asks for by its first three words. The text is made of the others.
pub(crate) fn message<'a>(
    line: &'a [u8],
    verb: &[u8],
    device: &'a [u8],
    place: &[u8],
) -> Option<Command<'a>>
    ensures exact { option_map task.task_of result
        ≡ task.message_task verb.now device.now place.now (drop 3 (words_of line.now)) }
    ensures bounded { IfSome result task.IsBounded }
{
    if !(verb == b"message".as_slice() && is_name(device)) {
        return None;
    }
    let sector = number_to(place, MAX_SECTOR)?;
    let text = from_word_to_word(after_word(after_word(after_word(line))));
    Some(Command::Message(device, sector, text))
}

/// The line from its first word to its last.
#[tactic(auto, using(crate::proofs::Rulesets::from_word_to_word))]
fn from_word_to_word(line: &[u8]) -> &[u8]
    ensures { words_of result.now ≡ words_of line.now }
{
    let mut text = from_word(line);
    while let [front @ .., last] = text {
        if !is_blank(*last) {
            break;
        }
        text = front;
    }
    text
}

/// The line behind its first word.
fn after_word(line: &[u8]) -> &[u8]
    ensures { words_of result.now ≡ drop 1 (words_of line.now) }
{
    let line = from_word(line);
    line.split_at(word_len(line)).1
}

/// The line from its first word on.
#[tactic(auto, using(crate::proofs::Rulesets::from_word))]
fn from_word(line: &[u8]) -> &[u8]
    ensures words { words_of result.now ≡ words_of line.now }
    ensures begins { 0 < length result.now → 0 < position_or_len is_blank_byte result.now }
{
    match word_start(line) {
        Some(start) => line.split_at(start).1,
        None => &[],
    }
}

/// How many blanks stand before the line's first word, or `None` where there is no word.
fn word_start(line: &[u8]) -> Option<usize>
    ensures { result ≡ position (λ byte. not (is_blank_byte byte)) line.now }
{
    line.iter().position(|byte| !is_blank(*byte))
}

/// Where the line's first blank stands, or `None` where there is none.
fn first_blank(line: &[u8]) -> Option<usize>
    ensures { result ≡ position is_blank_byte line.now }
{
    line.iter().position(|byte| is_blank(*byte))
}

/// How many bytes stand before the line's first blank.
#[tactic(auto, using(crate::proofs::Rulesets::word_len))]
fn word_len(line: &[u8]) -> usize
    ensures { result ≡ position_or_len is_blank_byte line.now }
{
    first_blank(line).unwrap_or(line.len())
}

/// Whether the byte stands between words: a space or a tab.
fn is_blank(byte: u8) -> bool
    ensures { result ≡ is_blank_byte byte }
{
    byte == b' ' || byte == b'\t'
}
