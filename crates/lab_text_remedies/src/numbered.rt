use lab_advice::{Remedy, Spot};
use lab_guess::{is_command, is_event, is_mark, is_of_log, is_row, without_number};
use lab_outline::Spotted;
use lab_refusal::{Fault, PartName};
use lab_sector::NoMemory;
use lab_text::Lines;
use std::alloc::Global;
use std::str::from_utf8;

/// What is told of a line behind its own number.
const WHY: &str =
    "the line begins with its number, as `cat -n`, `nl` and `grep -n` print one; `cut -f 2-` takes those of the first two \
     off all lines, and `cut -d : -f 2-` those of the third";

/// The remedy of a part's line behind its number, where it is one.
pub(crate) fn numbered_remedy(
    alloc: Global,
    bytes: &[u8],
    fault: Fault<'_>,
    spotted: Spotted<'_>,
) -> Result<Option<Remedy>, NoMemory> {
    match without_number(spotted.line) {
        Some((number, rest))
            if is_of_part(fault.part, rest) && is_counted(bytes, fault.line, spotted, number) => {
            Ok(Some(without(alloc, spotted, rest)?))
        }
        _ => Ok(None),
    }
}

/// The remedy of a bundle's first line behind its number, where a heading below it stands behind one, too.
pub(crate) fn numbered_bundle(
    alloc: Global,
    bytes: &[u8],
    spotted: Spotted<'_>,
) -> Result<Option<Remedy>, NoMemory> {
    match without_number(spotted.line) {
        Some((number, rest)) if number == spotted.number && has_numbered_heading(bytes) => {
            Ok(Some(without(alloc, spotted, rest)?))
        }
        _ => Ok(None),
    }
}

/// The remedy by the line behind its number.
fn without(alloc: Global, spotted: Spotted<'_>, rest: &str) -> Result<Remedy, NoMemory> {
    let remedy = Remedy::told(alloc, WHY)?;
    if rest.is_empty() {
        return remedy.or_blank(alloc, spotted.number);
    }
    remedy.or(Spot::On(spotted.number), String::from_str(alloc, rest)?)
}

/// Whether a line behind a number looks like one of this part.
fn is_of_part(part: PartName<'_>, rest: &str) -> bool {
    is_mark(rest)
        || match part {
            PartName::Table(_) => is_row(rest),
            PartName::Script => is_command(rest),
            PartName::Log(_) => is_of_log(rest),
            PartName::History => is_event(rest),
            _ => false,
        }
}

/// Whether the number is the line's own in the bundle or in its part, and the line below has none, or the next.
fn is_counted(bytes: &[u8], within: u64, spotted: Spotted<'_>, number: u64) -> bool {
    let is_own = number == spotted.number || number == within;
    match number_below(bytes, spotted.number) {
        Some(below) => is_own && number.checked_add(1) == Some(below),
        None => is_own,
    }
}

/// The number before the line below the one of this number, if it has one, and is no table's line.
fn number_below(bytes: &[u8], number: u64) -> Option<u64> {
    let mut at = 0u64;
    for line in Lines::new(bytes) {
        if at == number {
            let line = from_utf8(line).unwrap_or("");
            let (below, _rest) = without_number(line).filter(|_| !is_row(line))?;
            return Some(below);
        }
        at = at.saturating_add(1);
    }
    None
}

/// Whether a heading stands behind a number.
fn has_numbered_heading(bytes: &[u8]) -> bool {
    for line in Lines::new(bytes) {
        let line = from_utf8(line).unwrap_or("");
        if without_number(line).is_some_and(|(_number, rest)| rest.starts_with("==")) {
            return true;
        }
    }
    false
}
