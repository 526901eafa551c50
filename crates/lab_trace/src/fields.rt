ghost use Rattle.std.specs.Prelude.{◌≡◌, option_copied};
ghost use Rattle.lab_trace.specs.Fields.{entry_row, row_with_bio, with_line, with_origin};

use crate::parents::above;
use crate::row::TraceRow;
use lab_bios::Bio;
use lab_model::Entry;
use lab_next::Origin;
use lab_table::LogLine;

/// The row with the bio of this number, of which only a living one says what it asks for.
pub fn row_with_bio(row: TraceRow, number: u64, bio: Option<&Bio>) -> TraceRow
    ensures row { result ≡ row_with_bio row number (option_copied bio.entry) }
{
    let numbered = TraceRow {
        bio: Some(number),
        ..row
    };
    match bio {
        Some(bio) => TraceRow {
            parent: above(bio.parent),
            kind: Some(bio.kind),
            device: Some(bio.device),
            span: Some(bio.span),
            ..numbered
        },
        None => numbered,
    }
}

/// The row with the log and the line that its bio comes from, if it comes from any.
pub fn with_origin(row: TraceRow, origin: Option<Origin>) -> TraceRow
    ensures row { result ≡ with_origin row origin }
{
    match origin {
        Some(origin) => TraceRow {
            log: Some(origin.log),
            line: Some(origin.line),
            ..row
        },
        None => row,
    }
}

/// The row with a log's line, if there is one, whose bio gets this number.
pub fn with_line(row: TraceRow, next: u64, line: Option<&LogLine>) -> TraceRow
    ensures row { result ≡ with_line row next (option_copied line.entry) }
{
    let Some(line) = line else {
        return row;
    };
    let told = TraceRow {
        line: Some(line.number),
        device: line.device,
        ..row
    };
    entry_row(told, next, line.entry)
}

/// The row with what a line asks for: an operation makes the bio of this number, and no other line makes one.
fn entry_row(row: TraceRow, next: u64, entry: Entry) -> TraceRow
    ensures { result ≡ entry_row row next entry }
{
    match entry {
        Entry::Operate(action, span) => TraceRow {
            bio: Some(next),
            kind: Some(action.kind()),
            span: Some(span),
            ..row
        },
        Entry::Add | Entry::Open | Entry::Close | Entry::Wait(_) => row,
    }
}
