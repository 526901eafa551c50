use crate::numbers::{Unit, meant};
use lab_iolog::MAX_LENGTH;
use lab_outline::plain;
use lab_sector::NoMemory;
use std::alloc::Global;

/// How many bytes a line has at most that is read as a call of dd.
const LONGEST: usize = 200;

/// How many bytes a block of dd has where none are told.
const BLOCK: u64 = 512;

/// The operation of a log that a call of dd does: it writes its output where that is a device, and reads its input else;
/// nothing of another line, and where no one operation does it.
pub fn operation_of_dd(alloc: Global, line: &str) -> Result<Option<String>, NoMemory> {
    if LONGEST < line.len() || !is_dd(line) {
        return Ok(None);
    }
    let (file, action, skipped) = match device_in(line, "of") {
        Some(file) => (file, "write", "seek"),
        None => (device_in(line, "if").unwrap_or(""), "read", "skip"),
    };
    let offset = bytes_in(line, skipped, 0);
    let length = bytes_in(line, "count", 1).filter(|it| (1..=MAX_LENGTH).contains(it));
    match (offset, length) {
        (Some(offset), Some(length)) if !file.is_empty() => {
            Ok(Some(format!(in alloc; "{file} {action} {offset} {length}")?))
        }
        _ => Ok(None),
    }
}

/// Whether a line begins as a call of dd does.
pub fn is_dd(line: &str) -> bool {
    let mut words = line.split_whitespace();
    let first = words.next().unwrap_or("");
    first == "dd" || (first == "sudo" && words.next() == Some("dd"))
}

/// The device that stands behind this name of dd, but for those that are no disk.
fn device_in<'a>(line: &'a str, name: &str) -> Option<&'a str> {
    let file = value_of(line, name)?;
    let is_none = matches!(
        file,
        "/dev/null" | "/dev/zero" | "/dev/urandom" | "/dev/random" | "/dev/stdin" | "/dev/stdout"
    );
    Some(file).filter(|it| it.starts_with("/dev/") && !is_none)
}

/// How many bytes so many blocks have as stand behind this name of dd, or this number of them where it isn't there.
fn bytes_in(line: &str, name: &str, without: u64) -> Option<u64> {
    let blocks = match value_of(line, name) {
        Some(word) => plain(word)?,
        None => without,
    };
    let block = match value_of(line, "bs") {
        Some(word) => plain(word).or(meant(word, Unit::Bytes))?,
        None => BLOCK,
    };
    blocks.checked_mul(block)
}

/// The word behind this name and its `=`.
fn value_of<'a>(line: &'a str, name: &str) -> Option<&'a str> {
    for word in line.split_whitespace() {
        let (front, value) = word.split_once('=').unwrap_or(("", ""));
        if front == name {
            return Some(value);
        }
    }
    None
}
