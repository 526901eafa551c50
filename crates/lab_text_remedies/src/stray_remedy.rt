use crate::belongs::{belongs_below, is_use};
use crate::conflict::{OF_CONFLICT, is_edge};
use crate::file_kinds::of_other_tool;
use crate::heading_marks::{heading_bare, heading_commented, heading_marked, heading_misspelt};
use crate::heading_remedy::heading_remedy;
use crate::numbered::numbered_bundle;
use crate::second_header::low_heading;
use lab_advice::{Place, Remedy, Spot};
use lab_guess::without_name;
use lab_outline::{Outline, Spotted};
use lab_sector::NoMemory;
use lab_text::Lines;
use std::alloc::Global;
use std::str::from_utf8;

/// The remedy of a line before the first heading that is neither blank nor a comment.
pub(crate) fn stray_remedy(
    alloc: Global,
    bytes: &[u8],
    outline: &Outline<'_>,
    place: Place<'_>,
) -> Result<Remedy, NoMemory> {
    let why =
        "before the first heading only blank lines may stand, and comments, whose first byte is `#`; a heading's \
               first two bytes are `==`";
    let remedy = Remedy::told(alloc, why)?;
    let Ok(line) = from_utf8(place.line) else {
        return Ok(remedy);
    };
    let spotted = Spotted {
        number: place.number,
        line,
    };
    if let Some(other) = copied_remedy(alloc, bytes, outline, spotted)? {
        return Ok(other);
    }
    if let Some(other) = of_part_below(alloc, bytes, outline, spotted)? {
        return Ok(other);
    }
    begun_remedy(alloc, bytes, outline, place, remedy)
}

/// The remedy of a line that belongs to a part below, or to none.
fn of_part_below(
    alloc: Global,
    bytes: &[u8],
    outline: &Outline<'_>,
    spotted: Spotted<'_>,
) -> Result<Option<Remedy>, NoMemory> {
    if spotted.line.trim().starts_with("```") {
        let why = "marks of a document stand in no bundle";
        return Ok(Some(Remedy::told(alloc, why)?.or_blank(alloc, spotted.number)?));
    }
    if let Some(why) = low_heading(alloc, bytes, spotted)? {
        return Ok(Some(Remedy::of(alloc, why)));
    }
    belongs_below(alloc, bytes, outline, spotted)
}

/// The remedy of a line that begins as one of a part does, or is a remark.
fn begun_remedy(
    alloc: Global,
    bytes: &[u8],
    outline: &Outline<'_>,
    place: Place<'_>,
    remedy: Remedy,
) -> Result<Remedy, NoMemory> {
    let begun = from_utf8(place.line).unwrap_or("").trim();
    let remedy = remedy.or_if(
        Spot::On(place.number),
        heading_misspelt(alloc, outline, begun)?,
    )?;
    if let Some(heading) = heading_marked(alloc, outline, begun)? {
        return remedy.or(Spot::On(place.number), heading);
    }
    if begun.starts_with(|c: char| c.is_ascii_digit()) {
        let table = outline.wanted_table().unwrap_or("t");
        let heading = format!(in alloc; "== table {table}")?;
        return put_heading(bytes, remedy, place.number, heading);
    }
    if let Some(heading) = heading_lacking(begun) {
        let heading = String::from_str(alloc, heading)?;
        return put_heading(bytes, remedy, place.number, heading);
    }
    if let Some(heading) = heading_bare(alloc, outline, begun)? {
        return remedy.or(Spot::On(place.number), heading);
    }
    if begun.starts_with('=') && !begun.starts_with("==") {
        return heading_remedy(alloc, outline, place);
    }
    let front = if begun.starts_with('#') || begun.starts_with("==") {
        ""
    } else {
        "# "
    };
    remedy.or(Spot::On(place.number), format!(in alloc; "{front}{begun}")?)
}

/// The remedy of a bundle's first line that another tool put there, and of the first line of what is no bundle.
fn copied_remedy(
    alloc: Global,
    bytes: &[u8],
    outline: &Outline<'_>,
    spotted: Spotted<'_>,
) -> Result<Option<Remedy>, NoMemory> {
    if is_edge(spotted.line) {
        return Ok(Some(Remedy::told(alloc, OF_CONFLICT)?));
    }
    if let Some(remedy) = numbered_bundle(alloc, bytes, spotted)? {
        return Ok(Some(remedy));
    }
    if let Some(remedy) = commented_remedy(alloc, bytes, outline, spotted.number)? {
        return Ok(Some(remedy));
    }
    match no_bundle(bytes, spotted.line.trim()) {
        Some(other) => Ok(Some(Remedy::told(alloc, other)?)),
        None => Ok(None),
    }
}

/// The remedy of a heading above the line of this number that is a comment.
fn commented_remedy(
    alloc: Global,
    bytes: &[u8],
    outline: &Outline<'_>,
    number: u64,
) -> Result<Option<Remedy>, NoMemory> {
    let mut at = 0u64;
    for line in Lines::new(bytes) {
        at = at.saturating_add(1);
        let line = from_utf8(line).unwrap_or("");
        if at < number {
            if let Some(heading) = heading_commented(alloc, outline, line)? {
                let why =
                    "a line that begins with `#` is a comment: a heading begins with the two marks `==`";
                return Ok(Some(Remedy::told(alloc, why)?.or(Spot::On(at), heading)?));
            }
        }
    }
    Ok(None)
}

/// What is told of a file without any heading whose first line is one of a log, or one that `dmsetup table` prints.
fn no_bundle(bytes: &[u8], line: &str) -> Option<&'static str> {
    for other in Lines::new(bytes) {
        if other.trim_ascii_start().starts_with(b"==") {
            return None;
        }
    }
    if let Some(why) = of_other_tool(line) {
        return Some(why);
    }
    if line.starts_with("fio version ") {
        return Some("this is a log of fio and no bundle: `tools/bundle` makes one of it");
    }
    if without_name(line).starts_with(|c: char| c.is_ascii_digit()) {
        return Some(
            "these are lines of `dmsetup table` and no bundle: `tools/bundle --tables` makes one of them",
        );
    }
    None
}

/// The remedy of a heading before a line of its part, where the bundle has no such part yet.
fn put_heading(
    bytes: &[u8],
    remedy: Remedy,
    number: u64,
    heading: String,
) -> Result<Remedy, NoMemory> {
    for line in Lines::new(bytes) {
        if line == heading.as_bytes() {
            return Ok(remedy);
        }
    }
    remedy.or(Spot::Before(number), heading)
}

/// The heading that is lacking before a line that looks like one of a part, and not like a remark.
fn heading_lacking(line: &str) -> Option<&'static str> {
    let spotted = Spotted { number: 0, line };
    match spotted.word(0) {
        _ if is_use(spotted) => Some("== log a"),
        "ram" | "create" | "load" | "replay" | "wait" => Some("== script"),
        "fio" => Some("== log a"),
        _ => None,
    }
}
