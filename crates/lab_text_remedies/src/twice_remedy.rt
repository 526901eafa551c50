use lab_advice::{Place, Remedy, Spot, end_number};
use lab_outline::Outline;
use lab_sector::NoMemory;
use lab_text::Lines;
use std::alloc::Global;
use std::str::from_utf8;

/// The remedy of a part that stands already: of a table the name that a command asks for, and no table has.
pub(crate) fn twice_remedy(
    alloc: Global,
    bytes: &[u8],
    outline: &Outline<'_>,
    place: Place<'_>,
) -> Result<Remedy, NoMemory> {
    let first = first_line_of(bytes, place.line);
    if is_copied(bytes, first, place.number) {
        let last = end_number(bytes, place.number).saturating_sub(1);
        let number = place.number;
        return Ok(Remedy::of(
            alloc,
            format!(in alloc;
                "lines {number} to {last} are the part of line {first} once more: leave one of the two out, or give it another name"
            )?,
        ));
    }
    if let Some(remedy) = nameless_twice(alloc, bytes, place, first)? {
        return Ok(remedy);
    }
    let remedy = Remedy::of(
        alloc,
        format!(in alloc;
            "a part of this kind and name stands on line {first} already: give this one another name; or put its lines under that, \
             of a log only those behind `add` and `open`"
        )?,
    );
    let spot = Spot::On(place.number);
    let is_log = place.line.starts_with(b"== log");
    match (outline.wanted_table(), outline.free_log()) {
        (_, Some(log)) if is_log => remedy.or(spot, format!(in alloc; "== log {log}")?),
        (Some(table), _) if !is_log => remedy.or(spot, format!(in alloc; "== table {table}")?),
        _ => Ok(remedy),
    }
}

/// The remedy of a second script or history, if it is one: the heading is left out where the first one is right above.
fn nameless_twice(
    alloc: Global,
    bytes: &[u8],
    place: Place<'_>,
    first: u64,
) -> Result<Option<Remedy>, NoMemory> {
    if words_are(place.line, b"== history") {
        let why = format!(in alloc;
            "a bundle has at most one history, and line {first} begins it: leave one of the two out"
        )?;
        return Ok(Some(Remedy::of(alloc, why)));
    }
    if !words_are(place.line, b"== script") {
        return Ok(None);
    }
    let why = format!(in alloc;
        "a bundle has one script, which begins on line {first}: put the lines of this one into the first"
    )?;
    let remedy = Remedy::of(alloc, why);
    if end_number(bytes, first) == place.number {
        return Ok(Some(remedy.or_blank(alloc, place.number)?));
    }
    Ok(Some(remedy))
}

/// The number of the first line of these words.
fn first_line_of(bytes: &[u8], wanted: &[u8]) -> u64 {
    let mut at = 0u64;
    for line in Lines::new(bytes) {
        at = at.saturating_add(1);
        if words_are(line, wanted) {
            return at;
        }
    }
    at
}

/// Whether two lines have the same words.
fn words_are(line: &[u8], other: &[u8]) -> bool {
    match (from_utf8(line), from_utf8(other)) {
        (Ok(line), Ok(other)) => line.split_whitespace().eq(other.split_whitespace()),
        _ => false,
    }
}

/// Whether the parts that these two lines open have the same lines, and some.
fn is_copied(bytes: &[u8], first: u64, second: u64) -> bool {
    let mut others = lines_behind(bytes, second);
    let mut count = 0u64;
    for line in lines_behind(bytes, first) {
        let other = others.next();
        if line.starts_with(b"==") {
            let ends = match other {
                Some(other) => other.starts_with(b"=="),
                None => true,
            };
            return ends && count != 0;
        }
        if other != Some(line) {
            return false;
        }
        count = count.saturating_add(1);
    }
    false
}

/// The lines behind the one of this number.
fn lines_behind(bytes: &[u8], number: u64) -> Lines<'_> {
    let mut lines = Lines::new(bytes);
    for _passed in 0..number {
        let _line = lines.next();
    }
    lines
}
