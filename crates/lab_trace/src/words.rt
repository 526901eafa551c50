ghost use Rattle.std.specs.Prelude.{◌≡◌, ◌++◌, decimal, OnOk};
ghost use Rattle.lab_history.specs.History.{event_text};
ghost use Rattle.lab_core.specs.Columns.{device_word, or_dash};
ghost use Rattle.lab_trace.specs.Text.{kind_word, span_text};

use lab_history::push_history;
use lab_model::Event;
use lab_sector::{DevNo, Kind, NoMemory, Span};
use lab_text::{push_number, push_numbered};

/// Appends the event as a history writes it: its line there without the newline.
pub(crate) fn push_event(text: &mut Vec<u8>, event: Event) -> Result<(), NoMemory>
    ensures { OnOk result (text.new.items ≡ text.old.items ++ event_text event) }
{
    push_history(text, &[event])?;
    text.pop();
    Ok(())
}

/// Appends the number, or `-` where there is none.
pub(crate) fn push_told(text: &mut Vec<u8>, number: Option<u64>) -> Result<(), NoMemory>
    ensures { OnOk result (text.new.items ≡ text.old.items ++ or_dash decimal number) }
{
    match number {
        Some(number) => push_number(text, number),
        None => push_word(text, b"-"),
    }
}

/// Appends the kind's word, or `-` where there is none.
pub(crate) fn push_kind(text: &mut Vec<u8>, kind: Option<Kind>) -> Result<(), NoMemory>
    ensures { OnOk result (text.new.items ≡ text.old.items ++ or_dash kind_word kind) }
{
    match kind {
        Some(Kind::Read) => push_word(text, b"read"),
        Some(Kind::Write) => push_word(text, b"write"),
        Some(Kind::Trim) => push_word(text, b"trim"),
        Some(Kind::Flush) => push_word(text, b"flush"),
        None => push_word(text, b"-"),
    }
}

/// Appends the device's word, or `-` where there is none.
pub(crate) fn push_device(text: &mut Vec<u8>, device: Option<DevNo>) -> Result<(), NoMemory>
    ensures { OnOk result (text.new.items ≡ text.old.items ++ or_dash device_word device) }
{
    match device {
        Some(DevNo::Ram(number)) => push_numbered(text, b"ram", u64::from(number)),
        Some(DevNo::Dm(number)) => push_numbered(text, b"dm", u64::from(number)),
        None => push_word(text, b"-"),
    }
}

/// Appends the first sector and the number of sectors, or `-` where there are none to tell.
pub(crate) fn push_span(text: &mut Vec<u8>, span: Option<Span>) -> Result<(), NoMemory>
    ensures { OnOk result (text.new.items ≡ text.old.items ++ or_dash span_text span) }
{
    match span {
        Some(span) => {
            push_number(text, span.first)?;
            push_numbered(text, b"+", span.len)
        }
        None => push_word(text, b"-"),
    }
}

/// Appends the word.
pub fn push_word(text: &mut Vec<u8>, word: &[u8]) -> Result<(), NoMemory>
    ensures text { OnOk result (text.new.items ≡ text.old.items ++ word.now) }
{
    text.extend_from_slice(word)?;
    Ok(())
}
