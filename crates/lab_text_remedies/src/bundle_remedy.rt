use crate::heading_marks::heading_marked;
use crate::heading_remedy::heading_remedy;
use crate::other_file::file_heading;
use crate::stray_remedy::stray_remedy;
use crate::twice_remedy::twice_remedy;
use lab_advice::{Place, Remedy, Spot, end_number};
use lab_guess::{in_ascii, two_lines, verb_near, without_number};
use lab_outline::{Outline, Row};
use lab_refusal::Rule;
use lab_sector::NoMemory;
use lab_text::Lines;
use std::alloc::Global;
use std::str::from_utf8;

/// The bytes of a byte order mark.
const MARK: [u8; 3] = [0xEF, 0xBB, 0xBF];

/// What is told of a history without its bundle.
const LONE_HISTORY: &str =
    "this is a history without its bundle, which it stands behind: `cat BUNDLE HISTORY | dmlab audit`, by the names of the \
     two files";

/// What is told of a bundle without a script.
const OF_SCRIPT: &str =
    "a bundle has a script, whose heading is `== script`; below it stand `ram N SECTORS` for each disk, `create NAME TABLE` for \
     each device, and `replay`";

/// The remedy of bytes that are no bundle.
pub fn bundle_remedy(
    alloc: Global,
    bytes: &[u8],
    outline: &Outline<'_>,
    rule: Rule,
    place: Option<Place<'_>>,
) -> Result<Remedy, NoMemory> {
    match (rule, place) {
        (Rule::NotText, Some(place)) => text_remedy(alloc, place),
        (Rule::BadHeading, Some(place)) => {
            match file_heading(alloc, bytes, place.number, place.line)? {
                Some(remedy) => Ok(remedy),
                None => heading_remedy(alloc, outline, place),
            }
        }
        (Rule::Stray, Some(place)) => stray_remedy(alloc, bytes, outline, place),
        (Rule::Twice, Some(place)) => twice_remedy(alloc, bytes, outline, place),
        (Rule::NoScript, _) => script_missing(alloc, bytes, outline),
        _ => Remedy::told(alloc, "a bundle has at most 16777216 bytes"),
    }
}

/// The remedy of a bundle without a script: its heading before the first line of a table that looks like a command, or
/// else at the end.
fn script_missing(alloc: Global, bytes: &[u8], outline: &Outline<'_>) -> Result<Remedy, NoMemory> {
    if is_lone_history(bytes, outline) {
        return Remedy::told(alloc, LONE_HISTORY);
    }
    let mut remedy = Remedy::told(alloc, OF_SCRIPT)?;
    for row in &outline.rows {
        let number = row.spotted.number;
        if let Some(why) = script_behind(alloc, *row)? {
            return Ok(Remedy::of(alloc, why));
        }
        let line = String::from_str(alloc, "== script")?;
        if row.spotted.line.trim() == "== script" || is_script(alloc, outline, *row)? {
            remedy.offer(0, Spot::On(number), line)?;
        } else if remedy.mends.is_empty() && is_command(alloc, *row)? {
            remedy.offer(0, Spot::Before(number), line)?;
        }
    }
    remedy.or(
        Spot::Before(end_number(bytes, u64::MAX)),
        String::from_str(alloc, "== script")?,
    )
}

/// What is told of a table's line with the script's heading behind it, if it has one.
fn script_behind(alloc: Global, row: Row<'_>) -> Result<Option<String>, NoMemory> {
    let (number, line) = (row.spotted.number, row.spotted.line);
    if !line.contains("== script") {
        return Ok(None);
    }
    match two_lines(alloc, line)? {
        Some(why) => Ok(Some(format!(in alloc; "line {number}, `{line}`: {why}")?)),
        None => Ok(None),
    }
}

/// Whether a history stands alone.
fn is_lone_history(bytes: &[u8], outline: &Outline<'_>) -> bool {
    let is_alone = outline.tables.is_empty() && outline.logs.is_empty();
    is_alone && Lines::new(bytes).any(|line| line == b"== history".as_slice())
}

/// Whether a table's line is the script's heading with other marks, or behind its number.
fn is_script(alloc: Global, outline: &Outline<'_>, row: Row<'_>) -> Result<bool, NoMemory> {
    let line = match without_number(row.spotted.line) {
        Some((_number, "== script")) => return Ok(true),
        _ => row.spotted.line,
    };
    match heading_marked(alloc, outline, line)? {
        Some(heading) => Ok(heading.as_str() == "== script"),
        None => Ok(row.spotted.word(0) == "script" || is_behind(row)),
    }
}

/// Whether a line is the script's heading with another word in the place of its marks.
fn is_behind(row: Row<'_>) -> bool {
    row.spotted.word(1) == "script" && row.spotted.line.split_whitespace().count() == 2
}

/// Whether a table's line looks like a command of a script.
fn is_command(alloc: Global, row: Row<'_>) -> Result<bool, NoMemory> {
    let verb = verb_near(alloc, row.spotted.word(0))?;
    Ok(matches!(verb, "ram" | "create" | "load" | "replay"))
}

/// The remedy of a line with a byte that is no text.
fn text_remedy(alloc: Global, place: Place<'_>) -> Result<Remedy, NoMemory> {
    if let Some(rest) = place.line.strip_prefix(&MARK) {
        let why = "the bundle begins with a byte order mark, which is no text: save it as ASCII";
        return mended(alloc, place, why, rest);
    }
    if let Some((last, rest)) = place.line.split_last() {
        if *last == b'\r' {
            let why =
                "the line ends with a carriage return; `tr -d '\\r'` takes them off all lines";
            return mended(alloc, place, why, rest);
        }
    }
    if let Some(line) = ascii_meant(alloc, place)? {
        let why =
            "the line has a dash, a quote or a blank of print, as a word processor puts them: write ASCII's";
        return Remedy::told(alloc, why)?.or(Spot::On(place.number), line);
    }
    let at = place
        .line
        .iter()
        .position(|byte| *byte != b'\t' && !(0x20..=0x7e).contains(byte))
        .unwrap_or(0)
        .saturating_add(1);
    let why = format!(in alloc;
        "byte {at} of the line is no tab and none of ASCII's signs, digits and letters: write the \
         line with these alone"
    )?;
    Ok(Remedy::of(alloc, why))
}

/// The line with ASCII's signs for those of print, where it is one of UTF-8.
fn ascii_meant(alloc: Global, place: Place<'_>) -> Result<Option<String>, NoMemory> {
    match from_utf8(place.line) {
        Ok(line) => in_ascii(alloc, line),
        Err(_) => Ok(None),
    }
}

/// The remedy by the line without some of its bytes, where these are text.
fn mended(
    alloc: Global,
    place: Place<'_>,
    why: &'static str,
    rest: &[u8],
) -> Result<Remedy, NoMemory> {
    let remedy = Remedy::told(alloc, why)?;
    match from_utf8(rest) {
        Ok(line) => remedy.or(Spot::On(place.number), String::from_str(alloc, line)?),
        Err(_) => Ok(remedy),
    }
}
