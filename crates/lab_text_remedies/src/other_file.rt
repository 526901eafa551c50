use lab_advice::{Remedy, Spot, end_number};
use lab_outline::{Outline, Spotted};
use lab_sector::NoMemory;
use lab_text::{Lines, is_name};
use std::alloc::Global;
use std::str::from_utf8;

/// The remedy of a log's heading with the name of a file behind it, if it has one.
pub fn file_heading(
    alloc: Global,
    bytes: &[u8],
    number: u64,
    line: &[u8],
) -> Result<Option<Remedy>, NoMemory> {
    let line = from_utf8(line).unwrap_or("");
    let heading = Spotted { number, line };
    let name = heading.word(2).trim_end_matches(':');
    let file = match heading.word(3) {
        "<" | "from" | "file" | "=" => heading.word(4),
        word => word.trim_start_matches('<'),
    };
    let is_last = line.split_whitespace().last().unwrap_or("").ends_with(file);
    let is_log = line.starts_with("== log ") && is_name(name.as_bytes());
    if !is_log || !is_last || !is_file(file) || 5 < line.split_whitespace().count() {
        return Ok(None);
    }
    if line_of(bytes, number.saturating_add(1)).starts_with("fio version ") {
        let why = format!(in alloc;
            "a heading has a name alone, and a bundle reads no other file, so {file} isn't named there"
        )?;
        let line = format!(in alloc; "== log {name}")?;
        return Ok(Some(Remedy::of(alloc, why).or(Spot::On(number), line)?));
    }
    Ok(Some(Remedy::of(
        alloc,
        format!(in alloc;
            "a bundle reads no other file: write `== log {name}`, and the lines of {file} below it, or let `tools/bundle` make the \
         bundle"
        )?,
    )))
}

/// What is told of a log without a line, or with a file's name for its only line, if it is one. No line is none of a
/// bundle, where the log's heading is the last.
pub fn empty_log(
    alloc: Global,
    bytes: &[u8],
    outline: &Outline<'_>,
    spotted: Option<Spotted<'_>>,
) -> Result<Option<String>, NoMemory> {
    let before = spotted.map(|it| it.number).unwrap_or(u64::MAX);
    let Some(log) = log_above(outline, before) else {
        return Ok(None);
    };
    let name = log.line;
    match lone_line(bytes, log.number) {
        Some("") if is_file(name) => Ok(Some(format!(in alloc;
            "a bundle reads no other file: put the lines of {name} below the heading, or let `tools/bundle` make the bundle"
        )?)),
        Some("") => Ok(Some(format!(in alloc;
            "the log {name} has no line: below its heading stand `fio version 2 iolog` and then what is done, as \
             `/dev/mapper/NAME add`, `/dev/mapper/NAME open` and `/dev/mapper/NAME write 0 512`; a log that does nothing is \
             left out, with its heading"
        )?)),
        Some(line) => match file_named(line) {
            Some(file) => Ok(Some(format!(in alloc;
                "a bundle reads no other file: put the lines of {file} below `== log {name}` in the place of its name, or let \
                 `tools/bundle` make the bundle"
            )?)),
            None => Ok(None),
        },
        None => Ok(None),
    }
}

/// The last log whose heading stands before this line: its name, and the heading's number.
pub fn log_above<'a>(outline: &Outline<'a>, before: u64) -> Option<Spotted<'a>> {
    let mut found = None;
    for log in &outline.logs {
        if log.number < before {
            found = Some(*log);
        }
    }
    found
}

/// The only line below the heading of this number that is neither blank nor a comment, and an empty one where there
/// is none; nothing where there are several.
fn lone_line(bytes: &[u8], heading: u64) -> Option<&str> {
    let end = end_number(bytes, heading);
    let mut number = 0u64;
    let mut found = Spotted {
        number: 0,
        line: "",
    };
    for bare in Lines::new(bytes) {
        number = number.saturating_add(1);
        let line = from_utf8(bare).unwrap_or("").trim();
        let is_within = heading < number && number < end;
        if is_within && !line.is_empty() && !line.starts_with('#') {
            if found.number != 0 {
                return None;
            }
            found = Spotted { number, line };
        }
    }
    Some(found.line)
}

/// The file that a line names which has nothing else, but for a sign or a verb before it.
fn file_named(line: &str) -> Option<&str> {
    let mut words = line.split_whitespace();
    let first = words.next()?;
    let last = words.next().unwrap_or(first);
    let file = last.trim_start_matches(|c: char| matches!(c, '<' | '@' | '"'));
    Some(file.trim_end_matches('"')).filter(|it| is_file(it) && words.next().is_none())
}

/// Whether a word seems to be the name of a file, and not of a device.
fn is_file(word: &str) -> bool {
    let (_front, ending) = word.rsplit_once('.').unwrap_or(("", ""));
    let has_ending = !ending.is_empty() && ending.chars().all(|it| it.is_ascii_alphabetic());
    let is_path = word.contains('/') && !word.starts_with("/dev/");
    (has_ending || is_path) && !word.starts_with("/dev/") && !word.contains('=')
}

/// The line of this number, counted from 1; an empty one where there is none.
pub fn line_of(bytes: &[u8], number: u64) -> &str {
    let before = number.saturating_sub(1);
    match Lines::new(bytes).nth(before as usize) {
        Some(line) => from_utf8(line).unwrap_or(""),
        None => "",
    }
}
