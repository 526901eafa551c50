ghost use Rattle.std.specs.Prelude.{◌≡◌, false, [], ◌∷◌, IfSome, IfOk, IfErr, Ok, Err};
ghost use Rattle.lab_text.specs.Words.{words_of, words_left};
ghost use Rattle.lab_iolog.specs.Line.{entry_of, timed_entry, sync_entry, range_entry, file_entry};
ghost use Rattle.lab_iolog.specs.Line.{IsBounded, names_sectors};
ghost use Rattle.lab_iolog.specs.Log.{row_of, line_row};

use super::log::{IologLine, LogFault};
use lab_model::{Action, Entry};
use lab_sector::{SECTOR_BYTES, Span};
use lab_text::{Words, number_to};

/// The greatest offset or length of a read, write or trim, in bytes.
const MAX_OFFSET: u64 = 9_223_372_036_854_775_807;

/// The greatest time of a wait, in microseconds.
pub const MAX_WAIT: u64 = 3_600_000_000;

/// The greatest length that a read, write or trim may have, in bytes.
pub const MAX_LENGTH: u64 = 1_048_576;

/// Reads the line of this number.
pub(crate) fn read_line<'a>(at: u64, line: &'a [u8]) -> Result<IologLine<'a>, LogFault>
    ensures read { IfOk result (λ read. line_row at (words_of line.now) ≡ Ok (row_of read)) }
    ensures fault { IfErr result (λ fault. line_row at (words_of line.now) ≡ Err fault) }
    ensures bounded { IfOk result (λ read. IsBounded read.entry) }
{
    let mut words = Words::new(line);
    let Some(file) = words.next() else {
        return Err(LogFault::BadLine(at));
    };
    let entry = read_entry(at, words)?;
    Ok(IologLine {
        number: at,
        file,
        entry,
    })
}

/// What the words behind a line's first one ask for.
fn read_entry(at: u64, mut words: Words<'_>) -> Result<Entry, LogFault>
    ensures exact { result ≡ entry_of at (words_left words.entry) }
    ensures bounded { IfOk result IsBounded }
{
    let Some(word) = words.next() else {
        return Err(LogFault::BadLine(at));
    };
    let Some(first) = words.next() else {
        return read_file_entry(word).ok_or(LogFault::BadLine(at));
    };
    match (words.next(), words.next()) {
        (Some(second), None) => read_timed_entry(at, word, first, second),
        _ => Err(LogFault::BadLine(at)),
    }
}

/// What a line without numbers asks for.
fn read_file_entry(word: &[u8]) -> Option<Entry>
    ensures exact { result ≡ file_entry word.now }
    ensures bounded { IfSome result IsBounded }
{
    if word == b"add".as_slice() {
        Some(Entry::Add)
    } else if word == b"open".as_slice() {
        Some(Entry::Open)
    } else if word == b"close".as_slice() {
        Some(Entry::Close)
    } else {
        None
    }
}

/// What a line with two numbers asks for.
fn read_timed_entry(at: u64, word: &[u8], first: &[u8], second: &[u8]) -> Result<Entry, LogFault>
    ensures exact { result ≡ entry_of at (word.now ∷ first.now ∷ second.now ∷ []) }
    ensures bounded { IfOk result IsBounded }
{
    match (number_to(first, u64::MAX), number_to(second, u64::MAX)) {
        (Some(first), Some(second)) => timed_entry(at, word, first, second),
        _ => Err(LogFault::BadLine(at)),
    }
}

/// What a line with these numbers asks for. A wait's second number and a sync's two are ignored.
fn timed_entry(at: u64, word: &[u8], first: u64, second: u64) -> Result<Entry, LogFault>
    ensures exact { result ≡ timed_entry at word.now first second }
    ensures bounded { IfOk result IsBounded }
{
    if word == b"wait".as_slice() && first <= MAX_WAIT {
        Ok(Entry::Wait(first))
    } else if word == b"read".as_slice() {
        range(at, Action::Read, first, second)
    } else if word == b"write".as_slice() {
        range(at, Action::Write, first, second)
    } else if word == b"sync".as_slice() {
        Ok(sync(Action::Sync))
    } else if word == b"datasync".as_slice() {
        Ok(sync(Action::Datasync))
    } else if word == b"trim".as_slice() {
        range(at, Action::Trim, first, second)
    } else {
        Err(LogFault::BadLine(at))
    }
}

/// A sync, which names no sectors.
fn sync(action: Action) -> Entry
    requires { names_sectors action ≡ false }
    ensures exact { result ≡ sync_entry action }
    ensures bounded { IsBounded result }
{
    Entry::Operate(action, Span { first: 0, len: 0 })
}

/// A read, write or trim of a range that is given in bytes, on the line of this number.
fn range(at: u64, action: Action, offset: u64, length: u64) -> Result<Entry, LogFault>
    ensures exact { result ≡ range_entry at action offset length }
    ensures bounded { IfOk result IsBounded }
{
    if MAX_OFFSET < offset || MAX_OFFSET < length {
        return Err(LogFault::BadLine(at));
    }
    if offset % SECTOR_BYTES != 0 || length % SECTOR_BYTES != 0 {
        return Err(LogFault::Unaligned(at));
    }
    if length == 0 {
        return Err(LogFault::EmptyRange(at));
    }
    if MAX_LENGTH < length {
        return Err(LogFault::TooLong(at));
    }
    let span = Span {
        first: offset / SECTOR_BYTES,
        len: length / SECTOR_BYTES,
    };
    Ok(Entry::Operate(action, span))
}
