use crate::table_reason::table_numbers;
use lab_advice::Remedy;
use lab_guess::is_row;
use lab_outline::{Outline, Row, Spotted, plain};
use lab_refusal::{Fault, PartName, Rule};
use lab_sector::NoMemory;
use std::alloc::Global;

/// How many bytes two lines have at most that are joined.
const LONGEST: usize = 200;

/// How many words a flakey line has at least before its features, with their count.
const BEFORE: usize = 8;

/// What is told of a table's line that can't be read and makes a whole line with the one below it, or with the one above,
/// if it is one: the two as one.
pub fn wrapped(
    alloc: Global,
    outline: &Outline<'_>,
    fault: Fault<'_>,
    spotted: Option<Spotted<'_>>,
) -> Result<Option<Remedy>, NoMemory> {
    let is_read = fault.rule.is_of_scenario() || fault.rule == Rule::Gap;
    let Some(spotted) = spotted.filter(|_| !is_read && matches!(fault.part, PartName::Table(_)))
    else {
        return Ok(None);
    };
    for row in &outline.rows {
        let number = row.spotted.number;
        let is_near = number == spotted.number || number.checked_add(1) == Some(spotted.number);
        if is_near {
            if let Some(remedy) = with_below(alloc, outline, *row)? {
                return Ok(Some(remedy));
            }
        }
    }
    Ok(None)
}

/// What is told of a table's line that makes a whole one with the line right below it, if it does.
fn with_below(
    alloc: Global,
    outline: &Outline<'_>,
    row: Row<'_>,
) -> Result<Option<Remedy>, NoMemory> {
    let Some(below) = rest_below(outline, row) else {
        return Ok(None);
    };
    let line = joined(alloc, row.spotted, below)?;
    if !is_whole(line.as_str()) {
        return Ok(None);
    }
    Ok(Some(as_one(alloc, row.spotted, below, line)?))
}

/// The line right below a table's line, where it is in the same table, and no line of one by itself.
fn rest_below<'a>(outline: &Outline<'a>, above: Row<'_>) -> Option<Spotted<'a>> {
    for row in &outline.rows {
        let is_next = above.spotted.number.checked_add(1) == Some(row.spotted.number);
        if is_next && row.table == above.table && !is_row(row.spotted.line) {
            return Some(row.spotted);
        }
    }
    None
}

/// Two lines as one.
fn joined(alloc: Global, above: Spotted<'_>, below: Spotted<'_>) -> Result<String, NoMemory> {
    let (front, rest) = (above.line.trim(), below.line.trim());
    if LONGEST < front.len().saturating_add(rest.len()) {
        return Ok(String::new(alloc));
    }
    Ok(format!(in alloc; "{front} {rest}")?)
}

/// What is told of two lines that are one.
fn as_one(
    alloc: Global,
    above: Spotted<'_>,
    below: Spotted<'_>,
    line: String,
) -> Result<Remedy, NoMemory> {
    let (number, next) = (above.number, below.number);
    let why = format!(in alloc;
        "a line ends at its end, and line {next} seems to be the rest of line {number}: write `{line}` on line {number}, and \
         leave line {next} blank"
    )?;
    Ok(Remedy::of(alloc, why))
}

/// Whether a line has all words of a table's line, and numbers in their places.
fn is_whole(line: &str) -> bool {
    let own = Spotted { number: 0, line };
    let count = line.split_whitespace().count();
    let fits = match own.word(2) {
        "zero" | "error" => count == 3,
        "linear" => count == 5,
        "dust" => count == 6,
        "delay" => matches!(count, 6 | 9 | 12),
        "flakey" => count == BEFORE - 1 || is_counted(own, count),
        _ => false,
    };
    fits && is_row(line) && has_numbers(own)
}

/// Whether a flakey line of so many words has the number of those of its features before them.
fn is_counted(own: Spotted<'_>, count: usize) -> bool {
    let features = count.saturating_sub(BEFORE) as u64;
    features != 0 && plain(own.word(BEFORE - 1)) == Some(features)
}

/// Whether a line has a number in each place of one that it has.
fn has_numbers(own: Spotted<'_>) -> bool {
    for place in table_numbers(own.word(2)) {
        let word = own.word(*place);
        if !word.is_empty() && plain(word).is_none() {
            return false;
        }
    }
    true
}
