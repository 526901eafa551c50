use crate::draft::Draft;
use crate::features::with_features;
use lab_flakey::CERTAIN;
use lab_outline::plain;
use lab_sector::NoMemory;
use std::alloc::Global;

/// How many bytes a line has at most that is mended.
const LONGEST: usize = 200;

/// The flakey line whose chances count in 1,000,000,000, where one is in percent, with a point, or a part of a number;
/// nothing of another line.
pub fn with_chances(alloc: Global, line: &str) -> Result<Option<String>, NoMemory> {
    if chance_at_fault(line).is_none() {
        return Ok(None);
    }
    let mut draft = Draft::new(alloc);
    let mut before = "";
    for word in line.split_whitespace() {
        match chance_meant(word) {
            Some(chance) if has_chance(before) => draft.push_number(chance)?,
            _ => draft.push(word)?,
        }
        before = word;
    }
    let line = draft.line();
    Ok(Some(with_features(alloc, line.as_str())?.unwrap_or(line)))
}

/// The first word of a line that means a chance, and is no number.
pub fn chance_at_fault(line: &str) -> Option<&str> {
    if LONGEST < line.len() {
        return None;
    }
    let mut before = "";
    for word in line.split_whitespace() {
        if has_chance(before) && chance_meant(word).is_some() {
            return Some(word);
        }
        before = word;
    }
    None
}

/// Whether a feature has a chance behind it.
pub fn has_chance(feature: &str) -> bool {
    matches!(feature, "random_read_corrupt" | "random_write_corrupt")
}

/// The chance in 1,000,000,000 that a word means which is no number.
fn chance_meant(word: &str) -> Option<u64> {
    if let Some((part, whole)) = word.split_once('/') {
        return at_most_sure(
            plain(part)?
                .checked_mul(sure())?
                .checked_div(plain(whole)?)?,
        );
    }
    let suffix = word.trim_start_matches(|c: char| c.is_ascii_digit() || c == '.');
    let scale = match suffix {
        "%" => 10_000_000u64,
        "ppm" => 1000,
        "ppb" => 1,
        "" if word.contains('.') => sure(),
        _ => return None,
    };
    at_most_sure(scaled(word.strip_suffix(suffix)?, scale)?)
}

/// The number of a chance that is sure.
fn sure() -> u64 {
    u64::from(CERTAIN)
}

/// The chance, unless it is more than sure.
fn at_most_sure(chance: u64) -> Option<u64> {
    Some(chance).filter(|it| *it <= sure())
}

/// A number with a point, or without one, times this scale.
fn scaled(number: &str, scale: u64) -> Option<u64> {
    let (whole, digits) = number.split_once('.').unwrap_or((number, "0"));
    let mut parts = 1u64;
    for _digit in digits.chars() {
        parts = parts.checked_mul(10)?;
    }
    let number = plain(whole)?
        .checked_mul(parts)?
        .checked_add(plain(digits)?)?;
    number.checked_mul(scale)?.checked_div(parts)
}
