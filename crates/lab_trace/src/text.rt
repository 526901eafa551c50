ghost use Rattle.std.specs.Prelude.{◌≡◌, ◌++◌, OnOk};
ghost use Rattle.lab_model.specs.Report.{text_line};
ghost use Rattle.lab_trace.specs.Text.{event_columns, origin_columns, request_columns, row_text};
ghost use Rattle.lab_trace.specs.Traces.{head_text};

use crate::row::TraceRow;
use crate::words::{push_device, push_event, push_kind, push_span, push_told, push_word};
use lab_sector::NoMemory;
use lab_text::push_number;

/// Appends the columns' names, as a line. `happened.rt` and `answered.rt` append the last two columns.
pub(crate) fn push_head(text: &mut Vec<u8>) -> Result<(), NoMemory>
    ensures { OnOk result (text.new.items ≡ text.old.items ++ text_line head_text) }
{
    push_word(
        text,
        b"place\tclock\tevent\tlog\tline\tbio\tparent\tkind\tdevice\tsectors\thappened\twriters\n",
    )
}

/// Appends the row's columns.
pub fn push_row(text: &mut Vec<u8>, row: &TraceRow) -> Result<(), NoMemory>
    ensures text { OnOk result (text.new.items ≡ text.old.items ++ row_text row.now) }
{
    push_event_columns(text, row)?;
    text.push(b'\t')?;
    push_origin_columns(text, row)?;
    text.push(b'\t')?;
    push_request_columns(text, row)
}

/// Appends the event's place, its moment and its name.
fn push_event_columns(text: &mut Vec<u8>, row: &TraceRow) -> Result<(), NoMemory>
    ensures { OnOk result (text.new.items ≡ text.old.items ++ event_columns row.now) }
{
    push_number(text, row.place)?;
    text.push(b'\t')?;
    push_number(text, row.clock)?;
    text.push(b'\t')?;
    push_event(text, row.event)
}

/// Appends the log, its line, the bio and its parent.
fn push_origin_columns(text: &mut Vec<u8>, row: &TraceRow) -> Result<(), NoMemory>
    ensures { OnOk result (text.new.items ≡ text.old.items ++ origin_columns row.now) }
{
    push_told(text, row.log.map(u64::from))?;
    text.push(b'\t')?;
    push_told(text, row.line)?;
    text.push(b'\t')?;
    push_told(text, row.bio)?;
    text.push(b'\t')?;
    push_told(text, row.parent)
}

/// Appends the kind, the device and the sectors.
fn push_request_columns(text: &mut Vec<u8>, row: &TraceRow) -> Result<(), NoMemory>
    ensures { OnOk result (text.new.items ≡ text.old.items ++ request_columns row.now) }
{
    push_kind(text, row.kind)?;
    text.push(b'\t')?;
    push_device(text, row.device)?;
    text.push(b'\t')?;
    push_span(text, row.span)
}
