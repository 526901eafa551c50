use lab_advice::{Remedy, Spot};
use lab_outline::{Outline, Spotted};
use lab_sector::NoMemory;
use lab_text::Lines;
use std::alloc::Global;
use std::str::from_utf8;

/// The remedy with the line more that a file wants before this one, in the place of an `add` that repeats the one before it.
pub(crate) fn or_on_doubled(
    alloc: Global,
    bytes: &[u8],
    remedy: Remedy,
    spotted: Spotted<'_>,
    action: &str,
) -> Result<Remedy, NoMemory> {
    match doubled_add(bytes, spotted.number) {
        Some(number) => {
            let file = spotted.word(0);
            remedy.or(Spot::On(number), format!(in alloc; "{file} {action}")?)
        }
        None => Ok(remedy),
    }
}

/// The number of the last line above this one, in its log, that adds the file which the `add` before it added.
fn doubled_add(bytes: &[u8], before: u64) -> Option<u64> {
    let mut found = None;
    let mut added = "";
    let mut number = 0u64;
    for bare in Lines::new(bytes) {
        number = number.saturating_add(1);
        let line = from_utf8(bare).unwrap_or("");
        let other = Spotted { number, line };
        if number >= before {
            return found;
        }
        if line.starts_with("==") {
            found = None;
            added = "";
        } else if other.word(1) == "add" {
            found = if added == other.word(0) {
                Some(number)
            } else {
                found
            };
            added = other.word(0);
        }
    }
    found
}

/// The remedy with the lines more that open another file which the log adds above this line.
pub(crate) fn or_open_other(
    alloc: Global,
    bytes: &[u8],
    outline: &Outline<'_>,
    mut remedy: Remedy,
    spotted: Spotted<'_>,
) -> Result<Remedy, NoMemory> {
    let rank = remedy.mends.len() as u64;
    let mut begin = 0u64;
    for log in &outline.logs {
        begin = if log.number < spotted.number {
            log.number
        } else {
            begin
        };
    }
    let mut number = 0u64;
    for bare in Lines::new(bytes) {
        number = number.saturating_add(1);
        let line = from_utf8(bare).unwrap_or("");
        let other = Spotted { number, line };
        let file = other.word(0);
        let is_above = begin < number && number < spotted.number;
        if is_above && other.word(1) == "add" && file != spotted.word(0) {
            let line = format!(in alloc; "{file} open")?;
            remedy.offer(rank, Spot::On(spotted.number), line)?;
        }
    }
    Ok(remedy)
}
