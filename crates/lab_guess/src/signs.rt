use crate::draft::Draft;
use crate::numbers::has_thousands;
use crate::targets::is_type;
use lab_sector::NoMemory;
use std::alloc::Global;

/// How many bytes a line has at most that is read otherwise.
const LONGEST: usize = 200;

/// Where a table line's device stands, counted from 0.
const DEVICE_AT: usize = 3;

/// The names of what stands in lines, which a tester may write before it.
const LABELS: &str =
    "start length len size sectors type device dev disk offset off up down block blocksize block_size delay features \
     feature count number sector bytes file read reads write writes flush flushes";

/// The line with blanks in the place of the signs that part words elsewhere; nothing where it has none.
pub fn with_blanks(alloc: Global, line: &str) -> Result<Option<String>, NoMemory> {
    if LONGEST < line.len() {
        return Ok(None);
    }
    let mut text = String::new(alloc);
    for word in line.split_whitespace().filter(|it| *it != "-") {
        text.push_str(" ")?;
        for letter in word.chars() {
            let parts = is_between(letter) && !has_thousands(word);
            text.push(if parts { ' ' } else { letter })?;
        }
    }
    let mut draft = Draft::new(alloc);
    for word in text.as_str().split_whitespace() {
        draft.push(word)?;
    }
    Ok(draft.changed(line))
}

/// The table line whose device and offset stand in one word, with a comma or a colon between; nothing of another line.
pub fn with_device_parted(alloc: Global, line: &str) -> Result<Option<String>, NoMemory> {
    let device = line.split_whitespace().nth(DEVICE_AT).unwrap_or("");
    if !device.starts_with("/dev/") {
        return Ok(None);
    }
    let mut draft = Draft::new(alloc);
    for (place, word) in line.split_whitespace().enumerate() {
        if place == DEVICE_AT {
            for part in word.split(|c: char| matches!(c, ',' | ':' | '@' | '+')) {
                draft.push(part)?;
            }
        } else {
            draft.push(word)?;
        }
    }
    Ok(draft.changed(line))
}

/// Whether the letter parts words elsewhere, and stands in none here.
fn is_between(letter: char) -> bool {
    matches!(
        letter,
        ',' | '(' | ')' | '[' | ']' | '{' | '}' | '=' | '+' | '@' | '<' | '>' | '&' | '|'
    )
}

/// The line without commas between the digits of its numbers; nothing where it has no such number.
pub fn without_commas(alloc: Global, line: &str) -> Result<Option<String>, NoMemory> {
    if LONGEST < line.len() {
        return Ok(None);
    }
    let mut text = String::new(alloc);
    for word in line.split_whitespace() {
        text.push_str(" ")?;
        for letter in word.chars() {
            if !has_thousands(word) || letter.is_ascii_digit() {
                text.push(letter)?;
            }
        }
    }
    let mut draft = Draft::new(alloc);
    for word in text.as_str().split_whitespace() {
        draft.push(word)?;
    }
    Ok(draft.changed(line))
}

/// The line without the names of what stands in it: `size=8` and `size 8` are `8`; nothing where it has none behind its
/// first word.
pub fn without_labels(alloc: Global, line: &str) -> Result<Option<String>, NoMemory> {
    if LONGEST < line.len() {
        return Ok(None);
    }
    let mut draft = Draft::new(alloc);
    for (place, word) in line.split_whitespace().enumerate() {
        let (label, value) = parted(word);
        let next = line
            .split_whitespace()
            .nth(place.saturating_add(1))
            .unwrap_or("");
        let is_named = !value.is_empty() || next.starts_with(is_begin);
        let is_first = value.is_empty() && (place == 0 || is_type(word));
        if is_first || !is_named || !is_label(alloc, label)? {
            draft.push(word)?;
        } else if !value.is_empty() {
            draft.push(value)?;
        }
    }
    Ok(draft.changed(line))
}

/// Whether a number or a path begins with the letter.
fn is_begin(letter: char) -> bool {
    letter == '/' || letter.is_ascii_digit()
}

/// A word's name and value, of which the value may be empty.
fn parted(word: &str) -> (&str, &str) {
    match word.split_once('=') {
        Some(parts) => parts,
        None => word.split_once(':').unwrap_or((word, "")),
    }
}

/// Whether a word is the name of what stands in a line, with hyphens before it or not.
fn is_label(alloc: Global, word: &str) -> Result<bool, NoMemory> {
    let small = word.trim_start_matches('-').to_ascii_lowercase(alloc)?;
    Ok(LABELS.split_whitespace().any(|it| it == small.as_str()))
}
