use crate::names::shown;
use lab_advice::{Remedy, Spot, end_number};
use lab_outline::Spotted;
use lab_sector::NoMemory;
use lab_text::{Lines, is_heading};
use std::alloc::Global;
use std::str::from_utf8;

/// The remedy of a use of a file whose add or open stands further down in the log: the two lines in the other order; none
/// where it doesn't.
pub(crate) fn later_remedy(
    alloc: Global,
    bytes: &[u8],
    spotted: Spotted<'_>,
    action: &str,
) -> Result<Option<Remedy>, NoMemory> {
    let (number, end) = (spotted.number, end_number(bytes, spotted.number));
    let Some(later) = first_between(bytes, number, end, spotted.word(0), action) else {
        return Ok(None);
    };
    let line = shown(later.line);
    let (below, move_it) = (later.number, "move that line above this one");
    let what = if below == number.saturating_add(1) {
        "exchange the two lines"
    } else {
        move_it
    };
    Ok(Some(Remedy::of(
        alloc,
        format!(in alloc;
            "a file is added, then opened, then used, then closed: `{line}` stands on line {below}, below this line, so {what}"
        )?,
    )))
}

/// The remedy of a use of a file that is closed above it, with that line left blank, too.
pub(crate) fn or_unclosed(
    alloc: Global,
    bytes: &[u8],
    mut remedy: Remedy,
    spotted: Spotted<'_>,
) -> Result<Remedy, NoMemory> {
    let (number, start) = (spotted.number, heading_above(bytes, spotted.number));
    if let Some(close) = first_between(bytes, start, number, spotted.word(0), "close") {
        let line = close.number;
        remedy
            .why
            .push_str(format!(in alloc; "; line {line} closes it")?.as_str())?;
        remedy.offer(0, Spot::Blank(line), String::new(alloc))?;
    }
    Ok(remedy)
}

/// The first line behind one line and before another one that does this to a file.
pub(crate) fn first_between<'a>(
    bytes: &'a [u8],
    start: u64,
    end: u64,
    file: &str,
    action: &str,
) -> Option<Spotted<'a>> {
    let mut number = 0u64;
    for bare in Lines::new(bytes) {
        number = number.saturating_add(1);
        let line = from_utf8(bare).unwrap_or("");
        let other = Spotted { number, line };
        let is_between = start < number && number < end;
        if is_between && other.word(0) == file && other.word(1) == action {
            return Some(other);
        }
    }
    None
}

/// The number of the last heading above a line.
pub(crate) fn heading_above(bytes: &[u8], number: u64) -> u64 {
    let mut at = 0u64;
    let mut found = 0u64;
    for line in Lines::new(bytes) {
        at = at.saturating_add(1);
        if at < number && is_heading(line) {
            found = at;
        }
    }
    found
}
