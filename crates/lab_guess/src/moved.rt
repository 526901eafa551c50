use crate::draft::Draft;
use crate::table::mended_table_line;
use crate::targets::is_type;
use crate::tidied::exchanged;
use lab_outline::plain;
use lab_sector::NoMemory;
use std::alloc::Global;

/// Where a line's device stands, counted from 0.
const DEVICE_AT: usize = 3;

/// How many words a line has at most whose device is moved.
const MOST: usize = 64;

/// The table line with its device right behind its type, where numbers stand between the two: these go to the end. Where one
/// number stands there that may be the offset alone, it doesn't.
pub fn device_moved(
    alloc: Global,
    line: &str,
    offset: Option<u64>,
) -> Result<Option<String>, NoMemory> {
    let mut at = 0usize;
    let mut devices = 0usize;
    for (place, word) in line.split_whitespace().enumerate() {
        if DEVICE_AT <= place && word.starts_with("/dev/") {
            at = if devices == 0 { place } else { at };
            devices = devices.saturating_add(1);
        }
    }
    let count = line.split_whitespace().count();
    if devices != 1 || at <= DEVICE_AT || MOST < count || begins_with_offset(line) {
        return Ok(None);
    }
    let mut draft = Draft::new(alloc);
    for word in line.split_whitespace().take(DEVICE_AT) {
        draft.push(word)?;
    }
    for word in line.split_whitespace().skip(at) {
        draft.push(word)?;
    }
    for word in line.split_whitespace().skip(DEVICE_AT).take(at - DEVICE_AT) {
        draft.push(word)?;
    }
    let moved = draft.line();
    Ok(Some(mended_table_line(alloc, moved.as_str(), offset)?.unwrap_or(moved)))
}

/// Whether a line has its offset right before its device: 0, or any number of a flakey line.
fn begins_with_offset(line: &str) -> bool {
    let is_flakey = line.split_whitespace().nth(2) == Some("flakey");
    let first = line.split_whitespace().nth(DEVICE_AT).unwrap_or("");
    is_group(line, DEVICE_AT) && (is_flakey || plain(first) == Some(0))
}

/// Whether a delay line may begin with its delay: it doesn't begin with 0, and ends with 0 or has several groups.
fn begins_with_delay(line: &str) -> bool {
    let last = line.split_whitespace().last().unwrap_or("");
    let is_long = DEVICE_AT + 3 < line.split_whitespace().count();
    !begins_with_offset(line) && (is_long || plain(last) == Some(0))
}

/// The table line with the device before the offset, where the two are exchanged, in each group of a delay line; nothing of
/// another line, and of a delay line that may begin with its delay.
pub fn devices_exchanged(alloc: Global, line: &str) -> Result<Option<String>, NoMemory> {
    let count = line.split_whitespace().count();
    let kind = line.split_whitespace().nth(2).unwrap_or("");
    let is_one = matches!(kind, "linear" | "flakey" | "dust" | "delay");
    if MOST < count || !is_one || (kind == "delay" && begins_with_delay(line)) {
        return Ok(None);
    }
    let mut line = String::from_str(alloc, line)?;
    for at in [DEVICE_AT, DEVICE_AT + 3, DEVICE_AT + 6] {
        if at == DEVICE_AT || (kind == "delay" && at < count) {
            if !is_group(line.as_str(), at) {
                return Ok(None);
            }
            line = exchanged(alloc, line.as_str(), at)?.unwrap_or(line);
        }
    }
    Ok(Some(line))
}

/// Whether a number and then a device stand at this place of a line, counted from 0.
fn is_group(line: &str, at: usize) -> bool {
    let mut words = line.split_whitespace().skip(at);
    let offset = words.next().unwrap_or("");
    let device = words.next().unwrap_or("");
    plain(offset).is_some() && is_device(device)
}

/// Whether a word names a device, by its path or its two numbers.
pub fn is_device(word: &str) -> bool {
    let (major, minor) = word.split_once(':').unwrap_or(("", ""));
    word.starts_with("/dev/") || (plain(major).is_some() && plain(minor).is_some())
}

/// The table line with this start, this length, or both, where it lacks them before its type; nothing of another line.
pub fn with_extent(
    alloc: Global,
    line: &str,
    start: u64,
    length: u64,
) -> Result<Option<String>, NoMemory> {
    let mut words = line.split_whitespace();
    let first = words.next().unwrap_or("");
    let second = words.next().unwrap_or("");
    let mut draft = Draft::new(alloc);
    if is_type(first) && plain(second).is_none() {
        draft.push_number(start)?;
        draft.push_number(length)?;
    } else if is_type(second) && plain(first) == Some(start) {
        draft.push_number(start)?;
        draft.push_number(length)?;
    } else if is_type(second) && plain(first).is_some() {
        draft.push_number(start)?;
        draft.push(first)?;
    } else {
        return Ok(None);
    }
    let skipped = if is_type(first) { 0 } else { 1 };
    for word in line.split_whitespace().skip(skipped) {
        draft.push(word)?;
    }
    Ok(draft.changed(line))
}

/// The table line of the type linear, where it has a device and an offset, and no type.
pub fn with_type(alloc: Global, line: &str) -> Result<Option<String>, NoMemory> {
    let device = line.split_whitespace().nth(2).unwrap_or("");
    let offset = line.split_whitespace().nth(3).unwrap_or("");
    let is_whole = line.split_whitespace().count() == 4;
    if !is_whole || !device.starts_with("/dev/") || plain(offset).is_none() {
        return Ok(None);
    }
    let mut draft = Draft::new(alloc);
    for (place, word) in line.split_whitespace().enumerate() {
        if place == 2 {
            draft.push("linear")?;
        }
        draft.push(word)?;
    }
    Ok(draft.changed(line))
}
