use crate::draft::Draft;
use crate::numbers::{Unit, meant};
use lab_outline::plain;
use lab_sector::NoMemory;
use std::alloc::Global;

/// Where the first device of a delay line stands, counted from 0.
const DEVICE_AT: usize = 3;

/// How many words a delay line has that lacks none.
const MOST: usize = 12;

/// The delay line of several groups with this offset in each group that has one number alone; nothing of another line, and of
/// one with another device in such a group, where the offset isn't 0.
pub fn with_offsets(alloc: Global, line: &str, offset: u64) -> Result<Option<String>, NoMemory> {
    let is_delay = line.split_whitespace().nth(2) == Some("delay");
    let count = line.split_whitespace().count();
    if !is_delay || count < 2 * DEVICE_AT + 2 || MOST <= count {
        return Ok(None);
    }
    let mut draft = Draft::new(alloc);
    for (place, word) in line.split_whitespace().enumerate() {
        if is_lone(line, place) {
            if offset != 0 && is_on_other(line, place) {
                return Ok(None);
            }
            draft.push_number(offset)?;
        }
        draft.push(word)?;
    }
    Ok(draft.changed(line))
}

/// Whether another device than the first group's stands before this place.
fn is_on_other(line: &str, place: usize) -> bool {
    let device = line.split_whitespace().nth(DEVICE_AT);
    line.split_whitespace().nth(place.saturating_sub(1)) != device
}

/// The delay line with the first group's device and offset in each group, where it has two or three delays behind that one
/// alone; nothing of another line.
pub fn with_groups(alloc: Global, line: &str) -> Result<Option<String>, NoMemory> {
    let is_delay = line.split_whitespace().nth(2) == Some("delay");
    let count = line.split_whitespace().count();
    let is_counted = count == DEVICE_AT + 4 || count == DEVICE_AT + 5;
    // A line of many words is looked through no further: each look at a place begins at its first.
    if !is_delay || !is_counted || is_number_at(line, DEVICE_AT) {
        return Ok(None);
    }
    if !(DEVICE_AT + 1..count).all(|place| is_number_at(line, place)) {
        return Ok(None);
    }
    let mut draft = Draft::new(alloc);
    for word in line.split_whitespace().take(DEVICE_AT) {
        draft.push(word)?;
    }
    for delay in line.split_whitespace().skip(DEVICE_AT + 2) {
        for word in line.split_whitespace().skip(DEVICE_AT).take(2) {
            draft.push(word)?;
        }
        push_delay(&mut draft, delay)?;
    }
    Ok(draft.changed(line))
}

/// Adds a delay in milliseconds.
fn push_delay(draft: &mut Draft, delay: &str) -> Result<(), NoMemory> {
    match meant(delay, Unit::Milliseconds) {
        Some(delay) => draft.push_number(delay),
        None => draft.push(delay),
    }
}

/// Whether the word at this place is a number between a device and another device, or the line's end.
fn is_lone(line: &str, place: usize) -> bool {
    DEVICE_AT < place
        && is_number_at(line, place)
        && !is_number_at(line, place.saturating_sub(1))
        && !is_number_at(line, place.saturating_add(1))
}

/// Whether the word at this place is a number, or means one.
fn is_number_at(line: &str, place: usize) -> bool {
    let word = line.split_whitespace().nth(place).unwrap_or("");
    plain(word).or(meant(word, Unit::Milliseconds)).is_some()
}
