use crate::draft::Draft;
use crate::table::mended_table_line;
use lab_flakey::MAX_VALUE;
use lab_outline::plain;
use lab_sector::NoMemory;
use std::alloc::Global;

/// How many bytes a line has at most that is mended.
const LONGEST: usize = 200;

/// How far behind its feature a corrupted byte's value stands.
const BEHIND: usize = 3;

/// The flakey line whose corrupted bytes have their values in decimal digits, where one is in hexadecimal ones; nothing of
/// another line.
pub fn with_values(alloc: Global, line: &str) -> Result<Option<String>, NoMemory> {
    if value_at_fault(line).is_none() {
        return Ok(None);
    }
    let mut draft = Draft::new(alloc);
    for (place, word) in line.split_whitespace().enumerate() {
        match value_meant(word) {
            Some(value) if is_value_at(line, place) => draft.push_number(value)?,
            _ => draft.push(word)?,
        }
    }
    let line = draft.line();
    Ok(Some(mended_table_line(alloc, line.as_str(), None)?.unwrap_or(line)))
}

/// The first value of a corrupted byte in a line that is in hexadecimal digits, with `0x` before them or not.
pub fn value_at_fault(line: &str) -> Option<&str> {
    if LONGEST < line.len() {
        return None;
    }
    for (place, word) in line.split_whitespace().enumerate() {
        if value_meant(word).is_some() && is_value_at(line, place) {
            return Some(word);
        }
    }
    None
}

/// The value that a word means in hexadecimal digits, where it is no decimal number.
pub fn value_meant(word: &str) -> Option<u64> {
    if plain(word).is_some() {
        return None;
    }
    let digits = word.strip_prefix("0x").or(word.strip_prefix("0X"));
    let value = u64::from_str_radix(digits.unwrap_or(word), 16).ok();
    value.filter(|it| *it <= MAX_VALUE)
}

/// Whether the value of a corrupted byte stands at this place of a line.
fn is_value_at(line: &str, place: usize) -> bool {
    match place.checked_sub(BEHIND) {
        Some(at) => line.split_whitespace().nth(at) == Some("corrupt_bio_byte"),
        None => false,
    }
}
