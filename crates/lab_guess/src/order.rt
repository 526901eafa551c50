use crate::draft::Draft;
use crate::numbers::{Unit, meant};
use crate::table::{mended_table_line, type_near, without_name};
use crate::targets::is_type;
use lab_outline::plain;
use lab_sector::NoMemory;
use std::alloc::Global;

/// The table line whose type stands before its start and its length, in the right order; nothing of another line.
pub fn type_moved(
    alloc: Global,
    line: &str,
    offset: Option<u64>,
) -> Result<Option<String>, NoMemory> {
    let mut words = without_name(line).split_whitespace();
    let (Some(kind), Some(start), Some(length)) = (words.next(), words.next(), words.next()) else {
        return Ok(None);
    };
    if !is_type(type_near(alloc, kind)?) || !is_number(start) || !is_number(length) {
        return Ok(None);
    }
    let mut draft = Draft::new(alloc);
    draft.push(start)?;
    draft.push(length)?;
    draft.push(kind)?;
    for word in words {
        draft.push(word)?;
    }
    let moved = draft.line();
    Ok(Some(mended_table_line(alloc, moved.as_str(), offset)?.unwrap_or(moved)))
}

/// Whether a word is a number of sectors, or means one.
fn is_number(word: &str) -> bool {
    plain(word).or(meant(word, Unit::Sectors)).is_some()
}
