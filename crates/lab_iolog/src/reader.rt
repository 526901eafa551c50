ghost use Rattle.std.specs.Prelude.{◌≡◌, ◌≢◌, ◌+◌, ◌<◌, ◌^◌, length, All, IfNone, IfSome, IfOk, IfErr, Ok, Err};
ghost use Rattle.lab_text.specs.Lines.{lines_left};
ghost use Rattle.lab_text.specs.Words.{words_of};
ghost use Rattle.lab_iolog.specs.Line.{IsBounded};
ghost use Rattle.lab_iolog.specs.Log.{is_header, log_of, log_rows, log_rows_read};

use super::line::read_line;
use super::log::{Log, LogFault};
use lab_text::{Lines, Words, is_blank};
use std::alloc::Global;

/// The greatest number of lines after a log's header, blank ones not counted.
const MAX_LINES: usize = 10_000;

/// Reads a log. Of its faults the first one is told: those of lines in the order of the lines, and
/// of one line `TooManyLines`, `BadLine`, `Unaligned`, `EmptyRange` and `TooLong` in this order.
pub fn read_log<'a>(alloc: Global, text: &'a [u8]) -> Result<Log<'a>, LogFault>
    ensures read { IfOk result (λ log. log_of text.now ≡ Ok (log_rows log.lines.items)) }
    ensures bounded { IfOk result (λ log. All (λ line. IsBounded line.entry) log.lines.items) }
    ensures fault { IfErr result (λ fault.
        fault ≢ LogFault.NoMemory → log_of text.now ≡ Err fault) }
{
    let Some(rest) = behind_header(text) else {
        return Err(LogFault::Header);
    };
    let mut lines = Vec::new(alloc);
    let mut number: u64 = 1;
    for line in rest {
        number += 1;
        if is_blank(line) {
            continue;
        }
        if lines.len() == MAX_LINES {
            return Err(LogFault::TooManyLines(number));
        }
        lines.push(read_line(number, line)?)?;
    }
    // The rest of their room goes to the next log.
    lines.shrink_to(0);
    Ok(Log { lines })
}

/// The lines behind the header, or `None` where the first line isn't the header. A text has fewer
/// lines than 64 bits can count, since each takes a byte.
fn behind_header(text: &[u8]) -> Option<Lines<'_>>
    ensures none { IfNone result (log_of text.now ≡ Err LogFault.Header) }
    ensures header { IfSome result (λ rest. log_of text.now ≡ log_rows_read (lines_left rest)) }
    ensures countable { IfSome result (λ rest. length (lines_left rest) + 1 < 2 ^ 64) }
{
    let mut lines = Lines::new(text);
    match lines.next() {
        Some(first) if is_header_line(first) => Some(lines),
        _ => None,
    }
}

/// Whether the line's words are `fio version 2 iolog`.
fn is_header_line(line: &[u8]) -> bool
    ensures { result ≡ is_header (words_of line.now) }
{
    let mut words = Words::new(line);
    match (
        words.next(),
        words.next(),
        words.next(),
        words.next(),
        words.next(),
    ) {
        (Some(name), Some(title), Some(version), Some(kind), None) => {
            name == b"fio".as_slice()
                && title == b"version".as_slice()
                && version == b"2".as_slice()
                && kind == b"iolog".as_slice()
        }
        _ => false,
    }
}
