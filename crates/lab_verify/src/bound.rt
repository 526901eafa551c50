ghost use Rattle.std.specs.Prelude.{◌≡◌, map, Decides, IfOk};
ghost use Rattle.lab_iolog.specs.Log.{log_rows, row_of};
ghost use Rattle.std.specs.Option.{option_and_then};
ghost use Rattle.lab_rulebook.specs.BoundWords.{file_word, line_read};
ghost use Rattle.lab_rulebook.specs.Standing.{device_meant};
ghost use Rattle.lab_rulebook.specs.Walked.{bound_log};
ghost use Rattle.lab_standing.specs.Stands.{standing_of};
ghost use Rattle.lab_verify.specs.BoundFiles.{IsBound};
ghost use Rattle.lab_verify.specs.NamedLogs.{named_log_part};

use crate::parts::NamedLog;
use lab_iolog::IologLine;
use lab_model::Entry;
use lab_sector::{DevNo, NoMemory, Span};
use lab_standing::Standing;
use lab_table::{LogLine, LogPlan};
use lab_target::Target;
use std::alloc::Global;

/// A log with its files bound to the devices that stand.
pub(crate) fn bound_log<T: Target>(
    standing: &Standing<'_, T>,
    alloc: Global,
    log: &NamedLog<'_>,
) -> Result<LogPlan, NoMemory>
    ensures { IfOk result (λ plan. plan
        ≡ bound_log (standing_of T.meaning standing.now) (named_log_part log.now)) }
{
    let lines = bound_lines(standing, alloc, &log.log.lines)?;
    let name = Vec::from_slice(alloc, log.name)?;
    Ok(LogPlan { name, lines })
}

/// Log lines with their files bound to the devices that stand.
fn bound_lines<T: Target>(
    standing: &Standing<'_, T>,
    alloc: Global,
    lines: &[IologLine<'_>],
) -> Result<Vec<LogLine>, NoMemory>
    ensures { IfOk result (λ bound. bound.items
        ≡ map (line_read (device_meant (standing_of T.meaning standing.now)))
        (log_rows lines.now)) }
{
    let mut bound = Vec::with_capacity(alloc, lines.len())?;
    let mut last = bound_file(standing, &[]);
    for line in lines {
        bound.push(bound_line(standing, &mut last, line))?;
    }
    Ok(bound)
}

/// A file of a log, and the device that it names.
#[derive(Clone, Copy)]
struct BoundFile<'a> {
    /// The file's path.
    file: &'a [u8],
    /// The device that the path names, if it names one.
    device: Option<DevNo>,
}

/// A file, bound to the device that stands.
fn bound_file<'a, T: Target>(standing: &Standing<'_, T>, file: &'a [u8]) -> BoundFile<'a>
    ensures file { result.file.now ≡ file.now }
    ensures bound { IsBound (standing_of T.meaning standing.now) result }
{
    BoundFile {
        file,
        device: standing.path(file),
    }
}

/// A log line with its file bound to a device; a wait has none. `last` is the file that was bound last.
fn bound_line<'a, T: Target>(
    standing: &Standing<'_, T>,
    last: &mut BoundFile<'a>,
    line: &IologLine<'a>,
) -> LogLine
    requires { IsBound (standing_of T.meaning standing.now) last.old }
    ensures line { result ≡ line_read (device_meant (standing_of T.meaning standing.now)) (row_of line.now) }
    ensures bound { IsBound (standing_of T.meaning standing.now) last.new }
{
    LogLine {
        number: line.number,
        device: bound_device(standing, last, line.file, line.entry),
        entry: copy_of(line.entry),
    }
}

/// A copy of a log line's entry, part by part: it then goes to its place in words.
fn copy_of(entry: Entry) -> Entry
    ensures { result ≡ entry }
{
    match entry {
        Entry::Wait(time) => Entry::Wait(time),
        Entry::Operate(action, Span { first, len }) => Entry::Operate(action, Span { first, len }),
        other => other,
    }
}

/// The device of a log line's file; a wait has none. The file that was bound last isn't looked up again.
fn bound_device<'a, T: Target>(
    standing: &Standing<'_, T>,
    last: &mut BoundFile<'a>,
    file: &'a [u8],
    entry: Entry,
) -> Option<DevNo>
    requires { IsBound (standing_of T.meaning standing.now) last.old }
    ensures device { result ≡ option_and_then (device_meant (standing_of T.meaning standing.now)) (file_word file.now entry) }
    ensures bound { IsBound (standing_of T.meaning standing.now) last.new }
{
    match entry {
        Entry::Wait(_) => None,
        Entry::Add | Entry::Open | Entry::Close | Entry::Operate(..) => {
            *last = bound_again(standing, *last, file);
            last.device
        }
    }
}

/// A file, bound to the device that stands: as `last` is, where it is the same file.
fn bound_again<'a, T: Target>(
    standing: &Standing<'_, T>,
    last: BoundFile<'a>,
    file: &'a [u8],
) -> BoundFile<'a>
    requires { IsBound (standing_of T.meaning standing.now) last }
    ensures file { result.file.now ≡ file.now }
    ensures bound { IsBound (standing_of T.meaning standing.now) result }
{
    if is_same_file(file, last.file) {
        last
    } else {
        bound_file(standing, file)
    }
}

/// Whether two paths are the same: their first eight bytes are looked at together, and the others one by one.
fn is_same_file(file: &[u8], other: &[u8]) -> bool
    ensures { Decides result (file.now ≡ other.now) }
{
    match (
        file.split_first_chunk::<8>(),
        other.split_first_chunk::<8>(),
    ) {
        (Some((front, rest)), Some((there, behind))) => {
            is_same_front(*front, *there) && is_same_rest(rest, behind)
        }
        _ => is_same_rest(file, other),
    }
}

/// Whether eight bytes are the same, looked at together.
fn is_same_front(front: [u8; 8], there: [u8; 8]) -> bool
    ensures { Decides result (front ≡ there) }
{
    u64::from_le_bytes(front) == u64::from_le_bytes(there)
}

/// Whether bytes are the same, looked at one by one. They are too few for steps of many to pay.
fn is_same_rest(rest: &[u8], behind: &[u8]) -> bool
    ensures { Decides result (rest.now ≡ behind.now) }
{
    rest.len() == behind.len() && rest.iter().zip(behind).all(|(byte, there)| *byte == *there)
}
