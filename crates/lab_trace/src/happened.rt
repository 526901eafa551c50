ghost use Rattle.std.specs.Prelude.{◌≡◌, ◌++◌, OnOk, option_copied};
ghost use Rattle.lab_trace.specs.Happened.{answer_word, entry_word, line_word, told_after};
ghost use Rattle.lab_trace.specs.Happened.{told_before};

use crate::made::push_map;
use crate::micros::push_micro;
use crate::telling::line_to_take;
use crate::words::push_word;
use lab_model::{Entry, Event};
use lab_next::has_failed;
use lab_sector::NoMemory;
use lab_state::State;
use lab_table::{LogLine, Scenario};
use lab_target::Target;
use lab_text::push_numbered;

/// Appends what is known of an event before it is fired.
pub fn push_before<T: Target>(
    text: &mut Vec<u8>,
    scenario: &Scenario<T>,
    state: &State<T>,
    event: Event,
) -> Result<(), NoMemory>
    ensures text { OnOk result (text.new.items
        ≡ text.old.items ++ told_before scenario.now state.now event) }
{
    match event {
        Event::Line(log) => push_line(text, line_to_take(scenario, state, log)),
        Event::Serve(_) => push_word(text, b"served"),
        Event::Release(_) => push_word(text, b"released"),
        Event::Finish(number) => push_answer(text, has_failed(state.traffic.get(number))),
        Event::Control => push_micro(text, scenario.micros.get(state.done)),
        Event::Map(_) | Event::Clock => Ok(()),
    }
}

/// Appends what is known of an event once it was fired, where so many bios were made before.
pub fn push_after<T: Target>(
    text: &mut Vec<u8>,
    before: u64,
    state: &State<T>,
    event: Event,
) -> Result<(), NoMemory>
    ensures text { OnOk result
        (text.new.items ≡ text.old.items ++ told_after before state.now event) }
{
    match event {
        Event::Map(number) => push_map(text, state, before, number),
        Event::Clock => push_numbered(text, b"to ", state.traffic.clock()),
        Event::Line(_) | Event::Serve(_) | Event::Release(_) | Event::Finish(_) | Event::Control =>
            Ok(()),
    }
}

/// Appends the word of a line, if there is one.
fn push_line(text: &mut Vec<u8>, line: Option<&LogLine>) -> Result<(), NoMemory>
    ensures { OnOk result (text.new.items
        ≡ text.old.items ++ line_word (option_copied line.entry)) }
{
    match line {
        Some(line) => push_entry(text, line.entry),
        None => Ok(()),
    }
}

/// Appends the word of what a line asks for; a wait's with its microseconds.
fn push_entry(text: &mut Vec<u8>, entry: Entry) -> Result<(), NoMemory>
    ensures { OnOk result (text.new.items ≡ text.old.items ++ entry_word entry) }
{
    match entry {
        Entry::Add => push_word(text, b"add"),
        Entry::Open => push_word(text, b"open"),
        Entry::Close => push_word(text, b"close"),
        Entry::Wait(time) => push_numbered(text, b"wait ", time),
        Entry::Operate(action, _) => push_word(text, action.word().as_bytes()),
    }
}

/// Appends how a bio is answered.
fn push_answer(text: &mut Vec<u8>, failed: bool) -> Result<(), NoMemory>
    ensures { OnOk result (text.new.items ≡ text.old.items ++ answer_word failed) }
{
    if failed {
        push_word(text, b"EIO")
    } else {
        push_word(text, b"ok")
    }
}
