use lab_advice::{Part, Remedy, end_number, heading_number};
use lab_guess::{action_meant, is_command, is_of_log, is_row};
use lab_outline::{Outline, Spotted};
use lab_refusal::PartName;
use lab_sector::NoMemory;
use lab_text::Lines;
use std::alloc::Global;
use std::str::from_utf8;

/// What is told of a line of a log in another part, where the bundle has logs and no other one begins here.
pub(crate) fn lone_use(
    alloc: Global,
    bytes: &[u8],
    outline: &Outline<'_>,
    part: PartName<'_>,
    spotted: Spotted<'_>,
) -> Result<Option<Remedy>, NoMemory> {
    let is_within = matches!(part, PartName::Table(_) | PartName::Script);
    if !is_within || !is_use(spotted) || begins_log(bytes, spotted) {
        return Ok(None);
    }
    told_of_log(alloc, outline, spotted)
}

/// What is told of a line before the first heading that belongs to a part below, if it does.
pub(crate) fn belongs_below(
    alloc: Global,
    bytes: &[u8],
    outline: &Outline<'_>,
    spotted: Spotted<'_>,
) -> Result<Option<Remedy>, NoMemory> {
    if is_use(spotted) {
        return told_of_log(alloc, outline, spotted);
    }
    if is_row(spotted.line) && outline.wanted_table().is_none() {
        return told_of_one(alloc, "table", outline.tables.as_slice(), spotted.number);
    }
    match heading_number(bytes, Part::Script) {
        Some(number) if is_of_script(outline, spotted) => {
            let why = format!(in alloc;
                "the line looks like a command of the script: it belongs under the heading `== script`, line {number}"
            )?;
            Ok(Some(Remedy::of(alloc, why)))
        }
        _ => Ok(None),
    }
}

/// What is told of a line that looks like one of a log, where the bundle has logs.
fn told_of_log(
    alloc: Global,
    outline: &Outline<'_>,
    spotted: Spotted<'_>,
) -> Result<Option<Remedy>, NoMemory> {
    told_of_one(alloc, "log", outline.logs.as_slice(), spotted.number)
}

/// What is told of a line of a part of this kind, where the bundle has such parts: the first one below the line, or
/// the first one.
fn told_of_one(
    alloc: Global,
    kind: &str,
    headings: &[Spotted<'_>],
    before: u64,
) -> Result<Option<Remedy>, NoMemory> {
    let below = headings.iter().find(|it| before < it.number);
    let Some(heading) = below.or(headings.first()) else {
        return Ok(None);
    };
    let (name, number) = (heading.line, heading.number);
    let other = if headings.len() == 1 {
        ""
    } else {
        ", or under that of another one"
    };
    let where_there = if kind == "log" {
        ", behind the `open` of its file; a log alone reads and writes"
    } else {
        ""
    };
    Ok(Some(Remedy::of(
        alloc,
        format!(in alloc;
            "the line looks like one of a {kind}: it belongs under the heading `== {kind} {name}`, line \
             {number}{other}{where_there}"
        )?,
    )))
}

/// Whether a line looks like one of a log, behind its first.
pub(crate) fn is_use(spotted: Spotted<'_>) -> bool {
    let actions = "add open close read write trim sync datasync wait";
    let action = action_meant(spotted.word(1));
    spotted.word(0).starts_with("/dev/") && actions.split_whitespace().any(|it| it == action)
}

/// Whether a log seems to begin with a line that has no heading: a file is added, and only lines of a log follow, one
/// at least.
fn begins_log(bytes: &[u8], spotted: Spotted<'_>) -> bool {
    let end = end_number(bytes, spotted.number);
    let mut number = 0u64;
    let mut count = 0u64;
    for bare in Lines::new(bytes) {
        number = number.saturating_add(1);
        let line = from_utf8(bare).unwrap_or("").trim();
        if spotted.number <= number && number < end && !line.is_empty() {
            if !is_of_log(line) {
                return false;
            }
            count = count.saturating_add(1);
        }
    }
    spotted.word(1) == "add" && 1 < count
}

/// Whether a line looks like a command of the script: one that only a script has, or one of a device that stands.
fn is_of_script(outline: &Outline<'_>, spotted: Spotted<'_>) -> bool {
    let (verb, name) = (spotted.word(0), spotted.word(1));
    let is_sure = matches!(verb, "ram" | "create" | "load" | "replay" | "wait");
    let is_of_device = outline.created(name, u64::MAX).is_some();
    is_command(spotted.line) && verb != "table" && (is_sure || is_of_device)
}
