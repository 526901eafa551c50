ghost use Rattle.std.specs.Prelude.{◌≡◌, ◌==◌, IfOk, position, take};
ghost use Rattle.lab_findings.specs.Lines.{byte_at, culprit_of, culprit_on, first_word, type_word};

use crate::culprit::Culprit;
use lab_model::TableLine;
use lab_sector::{DevNo, NoMemory};
use lab_state::State;
use lab_target::Target;
use std::alloc::Global;

/// The line of this number, counted from 0, of the live table of a device, where that is a mapped one.
pub(crate) fn culprit_on<T: Target>(
    alloc: Global,
    state: &State<T>,
    device: DevNo,
    line: usize,
) -> Result<Option<Culprit>, NoMemory>
    ensures { IfOk result (λ culprit. culprit ≡ culprit_on T.meaning state.now device line) }
{
    let DevNo::Dm(device) = device else {
        return Ok(None);
    };
    let Some(table) = state.traffic.live(device) else {
        return Ok(None);
    };
    match table.lines().get(line) {
        Some(row) => Ok(Some(culprit_of(alloc, device, line, row)?)),
        None => Ok(None),
    }
}

/// A line of a device's table, counted from 0, as the one that did it.
fn culprit_of<T: Target>(
    alloc: Global,
    device: u32,
    line: usize,
    row: &TableLine<T>,
) -> Result<Culprit, NoMemory>
    ensures { IfOk result (λ culprit. culprit ≡ culprit_of T.meaning device line row.now) }
{
    let line = (line as u64).checked_add(1).ok_or(NoMemory)?;
    let text = row.target.print(alloc)?;
    Ok(Culprit {
        device,
        line,
        target: type_word(&text),
    })
}

/// The first eight bytes of a text's first word; zeroes behind a shorter one.
fn type_word(text: &[u8]) -> [u8; 8]
    ensures { result ≡ type_word text.now }
{
    let word = first_word(text);
    [
        byte_at(word, 0),
        byte_at(word, 1),
        byte_at(word, 2),
        byte_at(word, 3),
        byte_at(word, 4),
        byte_at(word, 5),
        byte_at(word, 6),
        byte_at(word, 7),
    ]
}

/// A text up to its first space.
fn first_word(text: &[u8]) -> &[u8]
    ensures { result.now ≡ first_word text.now }
{
    match space_in(text) {
        Some(end) => text_to(text, end),
        None => text,
    }
}

/// A text up to a place.
fn text_to(text: &[u8], end: usize) -> &[u8]
    ensures { result.now ≡ take end text.now }
{
    match text.get(..end) {
        Some(word) => word,
        None => text,
    }
}

/// The place of a text's first space.
fn space_in(text: &[u8]) -> Option<usize>
    ensures { result ≡ position (λ byte. byte == 32) text.now }
{
    text.iter().position(|byte| is_space(*byte))
}

/// Whether a byte is a space.
fn is_space(byte: u8) -> bool
    ensures { result ≡ (byte == 32) }
{
    byte == b' '
}

/// The byte at a place of a word, and zero behind it.
fn byte_at(word: &[u8], place: usize) -> u8
    ensures { result ≡ byte_at word.now place }
{
    match word.get(place) {
        Some(byte) => *byte,
        None => 0,
    }
}
