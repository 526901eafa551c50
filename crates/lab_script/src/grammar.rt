ghost use Rattle.std.specs.Prelude.{◌≡◌, codes, IfSome};
ghost use Rattle.std.specs.Option.{option_map};
ghost use Rattle.std.specs.Str.{bytes_eq};
ghost use Rattle.lab_text.specs.Words.{words_of};
ghost use Rattle.lab_script.specs.Task as task;

use super::command::Command;
use super::message::message;
use lab_text::{Words, is_name, number_to};

/// The greatest number of a memory disk.
pub const MAX_DISK: u64 = 255;

/// The greatest number of sectors of a memory disk.
pub const MAX_DISK_SECTORS: u64 = 65_536;

/// The greatest time of a sleep, in microseconds.
pub const MAX_SLEEP: u64 = 3_600_000_000;

/// The command that the line's words make, if they make one.
pub(crate) fn read_command<'a>(line: &'a [u8]) -> Option<Command<'a>>
    ensures exact { option_map task.task_of result ≡ task.task_of_words (words_of line.now) }
    ensures bounded { IfSome result task.IsBounded }
{
    let mut words = Words::new(line);
    let verb = words.next()?;
    let Some(first) = words.next() else {
        return bare(verb);
    };
    let Some(second) = words.next() else {
        return with_one(verb, first);
    };
    if words.next().is_none() {
        return with_two(verb, first, second);
    }
    if words.next().is_some() && words.next().is_some() {
        return None;
    }
    message(line, verb, first, second)
}

/// The command of a verb that stands alone.
fn bare<'a>(verb: &[u8]) -> Option<Command<'a>>
    ensures exact { option_map task.task_of result ≡ task.bare_task verb.now }
    ensures bounded { IfSome result task.IsBounded }
{
    if verb == b"replay".as_slice() {
        Some(Command::Replay)
    } else if verb == b"wait".as_slice() {
        Some(Command::Wait)
    } else {
        None
    }
}

/// The command of a verb with one word: a time in microseconds, or a device.
fn with_one<'a>(verb: &[u8], word: &'a [u8]) -> Option<Command<'a>>
    ensures exact { option_map task.task_of result ≡ task.one_word_task verb.now word.now }
    ensures bounded { IfSome result task.IsBounded }
{
    if verb == b"sleep".as_slice() {
        Some(Command::Sleep(number_to(word, MAX_SLEEP)?))
    } else if is_name(word) {
        on_device(verb, word)
    } else {
        None
    }
}

/// The command of a verb that takes a device and nothing else.
fn on_device<'a>(verb: &[u8], name: &'a [u8]) -> Option<Command<'a>>
    ensures exact { option_map task.task_of result
        ≡ option_map (task.on name.now) (task.device_task verb.now) }
    ensures bounded { IfSome result task.IsBounded }
{
    if verb == b"clear".as_slice() {
        Some(Command::Clear(name))
    } else if verb == b"suspend".as_slice() {
        Some(Command::Suspend(name))
    } else if verb == b"resume".as_slice() {
        Some(Command::Resume(name))
    } else if verb == b"remove".as_slice() {
        Some(Command::Remove(name))
    } else if verb == b"status".as_slice() {
        Some(Command::Status(name))
    } else if verb == b"table".as_slice() {
        Some(Command::Table(name))
    } else {
        None
    }
}

/// The command of a verb with two words.
fn with_two<'a>(verb: &[u8], first: &'a [u8], second: &'a [u8]) -> Option<Command<'a>>
    ensures exact { option_map task.task_of result
        ≡ task.two_words_task verb.now first.now second.now }
    ensures bounded { IfSome result task.IsBounded }
{
    if verb == b"ram".as_slice() {
        return disk(first, second);
    }
    if verb == b"create".as_slice() {
        return create(first, second);
    }
    if !(verb == b"load".as_slice() || verb == b"reload".as_slice()) {
        return None;
    }
    if !(is_name(first) && is_name(second)) {
        return None;
    }
    Some(Command::Load(first, second))
}

/// A disk's number and size.
fn disk<'a>(number: &[u8], size: &[u8]) -> Option<Command<'a>>
    ensures exact { option_map task.task_of result ≡ task.disk_task number.now size.now }
    ensures bounded { IfSome result task.IsBounded }
{
    let number = number_to(number, MAX_DISK)?;
    let sectors = number_to(size, MAX_DISK_SECTORS)?;
    if sectors == 0 {
        return None;
    }
    Some(Command::Ram(number as u32, sectors))
}

/// A new device: a name and a table, or a name and `--notable` in either order.
fn create<'a>(first: &'a [u8], second: &'a [u8]) -> Option<Command<'a>>
    ensures exact { option_map task.task_of result ≡ task.create_of first.now second.now }
    ensures bounded { IfSome result task.IsBounded }
{
    if is_name(first) && is_name(second) {
        Some(Command::Create(first, Some(second)))
    } else if is_name(first) && is_notable(second) {
        Some(Command::Create(first, None))
    } else if is_notable(first) && is_name(second) {
        Some(Command::Create(second, None))
    } else {
        None
    }
}

/// Whether the word is `--notable`.
fn is_notable(word: &[u8]) -> bool
    ensures { result ≡ bytes_eq word.now (codes "--notable") }
{
    word == b"--notable".as_slice()
}
