use crate::draft::Draft;
use lab_outline::plain;
use lab_sector::NoMemory;
use std::alloc::Global;

/// The first and the last number of a range in one word, as `0-7` and `0..7`.
fn bounds(word: &str) -> Option<(u64, u64)> {
    let first = word.trim_end_matches(|c: char| c.is_ascii_digit());
    let last = plain(word.strip_prefix(first)?)?;
    let front = first.trim_end_matches(is_between);
    if front.len() == first.len() {
        return None;
    }
    Some((plain(front)?, last)).filter(|(from, to)| from <= to)
}

/// Whether the letter stands between the numbers of a range.
fn is_between(letter: char) -> bool {
    matches!(letter, '-' | '.' | ':')
}

/// The line in which the range at this place, counted from 0, is its first number and its length: up to its second number,
/// or with that one, where `more` is 1; nothing where no range stands there.
pub fn with_range(
    alloc: Global,
    line: &str,
    at: usize,
    more: u64,
) -> Result<Option<String>, NoMemory> {
    let word = line.split_whitespace().nth(at).unwrap_or("");
    let Some((first, last)) = bounds(word) else {
        return Ok(None);
    };
    let mut draft = Draft::new(alloc);
    for (place, word) in line.split_whitespace().enumerate() {
        if place == at {
            draft.push_number(first)?;
            draft.push_number(last.saturating_sub(first).saturating_add(more))?;
        } else {
            draft.push(word)?;
        }
    }
    Ok(draft.changed(line))
}

/// The line whose words with a lone sign of a range between them are one word.
pub fn with_range_joined(alloc: Global, line: &str) -> Result<String, NoMemory> {
    let mut text = String::new(alloc);
    let mut joins = true;
    for word in line.split_whitespace() {
        let is_sign = matches!(word, "-" | "..");
        if !joins && !is_sign {
            text.push_str(" ")?;
        }
        text.push_str(word)?;
        joins = is_sign;
    }
    Ok(text)
}
