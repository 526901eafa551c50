ghost use Rattle.std.specs.Prelude.{[], ◌∷◌, ◌≡◌, ◌+◌, ◌<◌, ◌≤◌, ◌++◌, length, vec_len};
ghost use Rattle.std.specs.Prelude.{vec_capacity, OnOk, OnErr};
ghost use Rattle.lab_text.specs.Extends.{Extends};
ghost use Rattle.lab_history.specs.History.{event_text, history_text};

use lab_model::Event;
use lab_sector::NoMemory;
use lab_text::push_numbered;

/// Appends the events' text: one line for each. A refusal leaves `text` as it was.
pub fn push_history(text: &mut Vec<u8>, events: &[Event]) -> Result<(), NoMemory>
    ensures ok { OnOk result (text.new.items ≡ text.old.items ++ history_text events.now) }
    ensures err { OnErr result (text.new.items ≡ text.old.items) }

    // Only where there was no room for the text.
    ensures full { OnErr result
        (vec_capacity text.old < vec_len text.old + length (history_text events.now)) }
{
    let before = text.len();
    let pushed = push_each_event(text, events);
    if pushed.is_err() {
        text.truncate(before);
    }
    pushed
}

/// Appends the events' text, or a part of it where memory runs out.
fn push_each_event(text: &mut Vec<u8>, events: &[Event]) -> Result<(), NoMemory>
    ensures ok { OnOk result (text.new.items ≡ text.old.items ++ history_text events.now) }
    ensures err { OnErr result (Extends text.old.items text.new.items) }
    ensures full { OnErr result
        (vec_capacity text.old < vec_len text.old + length (history_text events.now)) }
{
    for event in events {
        push_line(text, *event)?;
    }
    Ok(())
}

/// Appends the event's line, or a part of it where memory runs out.
fn push_line(text: &mut Vec<u8>, event: Event) -> Result<(), NoMemory>
    ensures ok { OnOk result (text.new.items ≡ text.old.items ++ event_text event ++ 10 ∷ []) }
    ensures err { OnErr result (Extends text.old.items text.new.items) }
    ensures full { OnErr result
        (vec_capacity text.old < vec_len text.old + length (event_text event) + 1) }
    ensures len { OnOk result
        (vec_len text.new ≡ vec_len text.old + length (event_text event) + 1) }
    ensures capacity { vec_capacity text.old ≤ vec_capacity text.new }
{
    push_event(text, event)?;
    text.push(b'\n')?;
    Ok(())
}

/// Appends the event's text, or a part of it where memory runs out.
fn push_event(text: &mut Vec<u8>, event: Event) -> Result<(), NoMemory>
    ensures ok { OnOk result (text.new.items ≡ text.old.items ++ event_text event) }
    ensures err { OnErr result (Extends text.old.items text.new.items) }
    ensures full { OnErr result
        (vec_capacity text.old < vec_len text.old + length (event_text event)) }
    ensures len { OnOk result (vec_len text.new ≡ vec_len text.old + length (event_text event)) }
    ensures capacity { vec_capacity text.old ≤ vec_capacity text.new }
{
    match event {
        Event::Line(log) => push_numbered(text, b"line ", u64::from(log)),
        Event::Map(bio) => push_numbered(text, b"map ", bio),
        Event::Serve(bio) => push_numbered(text, b"serve ", bio),
        Event::Release(bio) => push_numbered(text, b"release ", bio),
        Event::Finish(bio) => push_numbered(text, b"finish ", bio),
        Event::Control => push_word(text, b"control"),
        Event::Clock => push_word(text, b"clock"),
    }
}

/// Appends the word. A refusal leaves `text` as it was.
fn push_word(text: &mut Vec<u8>, word: &[u8]) -> Result<(), NoMemory>
    ensures ok { OnOk result (text.new.items ≡ text.old.items ++ word.now) }
    ensures err { OnErr result (text.new.items ≡ text.old.items) }
    ensures full { OnErr result (vec_capacity text.old < vec_len text.old + length word.now) }
    ensures len { OnOk result (vec_len text.new ≡ vec_len text.old + length word.now) }
    ensures capacity { vec_capacity text.old ≤ vec_capacity text.new }
{
    text.extend_from_slice(word)?;
    Ok(())
}
