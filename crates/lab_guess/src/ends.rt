use crate::table::with_word;
use lab_outline::plain;
use lab_sector::NoMemory;
use std::alloc::Global;

/// The table line whose second word is its end, by its length; nothing where the two are the same, or there is no end.
pub fn from_end(alloc: Global, line: &str) -> Result<Option<String>, NoMemory> {
    match length_to_end(line) {
        Some(length) => {
            let length = format!(in alloc; "{length}")?;
            Ok(Some(with_word(alloc, line, 1, length.as_str())?))
        }
        None => Ok(None),
    }
}

/// The table line whose second word is its last sector, by its length; nothing where that isn't behind its start.
pub fn through_end(alloc: Global, line: &str) -> Result<Option<String>, NoMemory> {
    match length_through_end(line) {
        Some(length) => {
            let length = format!(in alloc; "{length}")?;
            Ok(Some(with_word(alloc, line, 1, length.as_str())?))
        }
        None => Ok(None),
    }
}

/// How many sectors a table line has whose second word is its end, where it doesn't start at 0.
pub fn length_to_end(line: &str) -> Option<u64> {
    let (start, end) = start_and_end(line)?;
    end.checked_sub(start).filter(|it| *it != 0 && *it != end)
}

/// How many sectors a table line has whose second word is its last sector.
pub fn length_through_end(line: &str) -> Option<u64> {
    let (start, end) = start_and_end(line)?;
    end.checked_sub(start)?.checked_add(1)
}

/// The first two numbers of a table line.
fn start_and_end(line: &str) -> Option<(u64, u64)> {
    let mut words = line.split_whitespace();
    let start = plain(words.next()?)?;
    let end = plain(words.next()?)?;
    Some((start, end))
}
