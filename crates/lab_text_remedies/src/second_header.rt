use crate::other_file::line_of;
use lab_advice::{Remedy, Spot};
use lab_outline::{Outline, Spotted};
use lab_refusal::{Fault, PartName, Rule};
use lab_sector::NoMemory;
use std::alloc::Global;

/// The remedy of a log's first line within another part or log, if it is one that stands above its own heading, or
/// joins two logs.
pub(crate) fn second_header_remedy(
    alloc: Global,
    bytes: &[u8],
    outline: &Outline<'_>,
    fault: Fault<'_>,
    spotted: Spotted<'_>,
) -> Result<Option<Remedy>, NoMemory> {
    if fault.rule == Rule::Header {
        return Ok(None);
    }
    if let Some(why) = low_heading(alloc, bytes, spotted)? {
        return Ok(Some(Remedy::of(alloc, why)));
    }
    if is_above_log(bytes, spotted) {
        let why = "a log's first line stands below its heading, where one stands already";
        return Ok(Some(Remedy::told(alloc, why)?.or_blank(alloc, spotted.number)?));
    }
    if !matches!(fault.part, PartName::Log(_)) {
        return Ok(None);
    }
    joined_remedy(alloc, bytes, outline, spotted)
}

/// What is told of a log's first line that stands right above the heading of its log, if it does.
pub(crate) fn low_heading(
    alloc: Global,
    bytes: &[u8],
    spotted: Spotted<'_>,
) -> Result<Option<String>, NoMemory> {
    let (number, next) = (spotted.number, spotted.number.saturating_add(1));
    let heading = line_of(bytes, next);
    let below = line_of(bytes, number.saturating_add(2));
    let is_low = heading.starts_with("== log ") && below.starts_with("/dev/");
    if !is_header(spotted) || !is_low || 200 < heading.len() {
        return Ok(None);
    }
    Ok(Some(format!(in alloc;
        "exchange the lines {number} and {next}: the heading `{heading}` stands one line too low, below the first line of its log"
    )?))
}

/// Whether a line is a log's first one, and stands right above the heading of a log that has such a line.
fn is_above_log(bytes: &[u8], spotted: Spotted<'_>) -> bool {
    let heading = line_of(bytes, spotted.number.saturating_add(1));
    let below = line_of(bytes, spotted.number.saturating_add(2));
    is_header(spotted) && heading.starts_with("== log ") && below.starts_with("fio version ")
}

/// The remedy of a second header in a log, where a file is added below it.
fn joined_remedy(
    alloc: Global,
    bytes: &[u8],
    outline: &Outline<'_>,
    spotted: Spotted<'_>,
) -> Result<Option<Remedy>, NoMemory> {
    let number = spotted.number;
    let next = number.saturating_add(1);
    let below = Spotted {
        number: next,
        line: line_of(bytes, next),
    };
    let Some(name) = outline.free_log() else {
        return Ok(None);
    };
    if !is_header(spotted) || below.word(1) != "add" {
        return Ok(None);
    }
    let why =
        "a log's first line stands within a log: below a heading of its own a second log begins here, and the two run side by \
         side; without this line the one log goes on, and does the one behind the other";
    let mut remedy = Remedy::told(alloc, why)?;
    remedy.offer(0, Spot::Before(number), format!(in alloc; "== log {name}")?)?;
    remedy.offer(0, Spot::Blank(number), String::new(alloc))?;
    Ok(Some(remedy))
}

/// Whether a line is the first one of a log.
fn is_header(spotted: Spotted<'_>) -> bool {
    spotted.word(0) == "fio" && spotted.word(1) == "version"
}
