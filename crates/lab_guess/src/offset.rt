use crate::draft::Draft;
use crate::flakey::miscounts;
use crate::groups::with_offsets;
use crate::table::is_block;
use lab_outline::plain;
use lab_sector::NoMemory;
use std::alloc::Global;

/// Where the offset stands in a line of a device, counted from 0.
const OFFSET_AT: usize = 4;

/// How many bytes a line has at most that is mended.
const LONGEST: usize = 2000;

/// The flakey, dust or delay line with this offset, where all that follows its device is right without one.
pub fn with_offset(alloc: Global, line: &str, offset: u64) -> Result<Option<String>, NoMemory> {
    if LONGEST < line.len() {
        return Ok(None);
    }
    let kind = line.split_whitespace().nth(2).unwrap_or("");
    let first = plain(line.split_whitespace().nth(OFFSET_AT).unwrap_or("")).unwrap_or(0);
    let count = line.split_whitespace().count();
    let fits = match kind {
        "flakey" => 0 < first && OFFSET_AT + 2 <= count,
        "dust" => is_block(first) && count == OFFSET_AT + 1,
        "delay" => 0 < first && count == OFFSET_AT + 1,
        _ => false,
    };
    let line = put_in(alloc, line, offset)?;
    if fits && !miscounts(line.as_str()) && has_numbers(line.as_str(), kind) {
        return Ok(Some(line));
    }
    Ok(None)
}

/// Whether a line of a device lacks its offset, in one of its groups at least.
pub fn lacks_offset(alloc: Global, line: &str) -> Result<bool, NoMemory> {
    let kind = line.split_whitespace().nth(2).unwrap_or("");
    let is_lone = line.split_whitespace().count() == OFFSET_AT;
    if is_lone && matches!(kind, "linear" | "flakey" | "dust" | "delay") {
        return Ok(true);
    }
    let is_short = with_offset(alloc, line, 0)?.is_some();
    Ok(is_short || with_offsets(alloc, line, 0)?.is_some())
}

/// The line with this offset put in.
fn put_in(alloc: Global, line: &str, offset: u64) -> Result<String, NoMemory> {
    let mut draft = Draft::new(alloc);
    for (place, word) in line.split_whitespace().enumerate() {
        if place == OFFSET_AT {
            draft.push_number(offset)?;
        }
        draft.push(word)?;
    }
    Ok(draft.line())
}

/// Whether the words are numbers that a line of this type has for its offset and what follows.
fn has_numbers(line: &str, kind: &str) -> bool {
    let count = if kind == "flakey" { 3 } else { 2 };
    line.split_whitespace()
        .skip(OFFSET_AT)
        .take(count)
        .all(|word| plain(word).is_some())
}
