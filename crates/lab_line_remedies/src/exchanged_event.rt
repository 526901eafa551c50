use lab_outline::{Spotted, plain};
use lab_sector::NoMemory;
use lab_text::{Lines, is_heading, is_skipped};
use std::alloc::Global;
use std::str::from_utf8;

/// How many bytes an event has at most that is told.
const LONGEST: usize = 100;

/// What is told of an event that may stand in the wrong order with the one below it, if the two may.
pub(crate) fn exchanged_event(
    alloc: Global,
    bytes: &[u8],
    event: Spotted<'_>,
) -> Result<Option<String>, NoMemory> {
    let Some(below) = event_below(bytes, event.number) else {
        return Ok(None);
    };
    if !comes_first(below, event) || LONGEST < below.line.len() || LONGEST < event.line.len() {
        return Ok(None);
    }
    let (line, other) = (event.line.trim(), below.line.trim());
    let (number, next) = (event.number, below.number);
    Ok(Some(format!(in alloc;
        ": it seems to stand in the wrong order with the line below it. Write `{other}` on line {number} and `{line}` on \
         line {next}, if so"
    )?))
}

/// The first event of a history below the line of this number.
fn event_below(bytes: &[u8], number: u64) -> Option<Spotted<'_>> {
    let mut at = 0u64;
    for line in Lines::new(bytes) {
        at = at.saturating_add(1);
        if number < at && is_heading(line) {
            return None;
        }
        if number < at && !is_skipped(line) {
            let line = from_utf8(line).ok()?;
            return Some(Spotted { number: at, line });
        }
    }
    None
}

/// Whether an event has to come before another one, by their words: a map makes bios of greater numbers, a bio is finished
/// behind its pieces.
fn comes_first(first: Spotted<'_>, second: Spotted<'_>) -> bool {
    let own = plain(first.word(1)).unwrap_or(0);
    let other = plain(second.word(1)).unwrap_or(0);
    match (first.word(0), second.word(0)) {
        ("map", "map" | "serve" | "release") => own < other,
        ("map", "finish") => own <= other,
        ("line", "map" | "serve") | ("control", "line") | ("clock", "release") => true,
        ("serve" | "release" | "finish", "finish") => other < own,
        _ => false,
    }
}
