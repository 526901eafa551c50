use crate::draft::Draft;
use crate::numbers::{Unit, meant};
use lab_outline::{nearest_of, plain};
use lab_sector::NoMemory;
use std::alloc::Global;

/// Where the number of feature words stands in a flakey line, counted from 0.
pub(crate) const COUNT_AT: usize = 7;

/// Whether the line is a flakey line whose number of feature words isn't there, or is another one.
pub fn miscounts(line: &str) -> bool {
    let mut words = line.split_whitespace();
    if words.nth(2) != Some("flakey") {
        return false;
    }
    match words.nth(COUNT_AT - 3) {
        Some(word) => plain(word) != Some(words.count() as u64),
        None => false,
    }
}

/// The feature that a word means, or the one that is nearest to it; another word as it is.
pub(crate) fn feature_near(alloc: Global, word: &str) -> Result<&str, NoMemory> {
    let features =
        "error_reads drop_writes error_writes corrupt_bio_byte random_read_corrupt random_write_corrupt";
    let word = feature_meant(word);
    Ok(nearest_of(alloc, word, features)?.unwrap_or(word))
}

/// The feature that another word stands for elsewhere; another word as it is.
fn feature_meant(word: &str) -> &str {
    match word {
        "fail_reads" | "fail_read" | "read_errors" | "read_error" | "reads_error" => "error_reads",
        "fail_writes" | "fail_write" | "write_errors" | "write_error" | "writes_error" => {
            "error_writes"
        }
        "lose_writes" | "ignore_writes" | "discard_writes" | "lost_writes" => "drop_writes",
        other => other,
    }
}

/// Adds a feature, or a value of one: the number that it means, and `r` or `w` for a word of the two.
pub(crate) fn push_value(alloc: Global, draft: &mut Draft, word: &str) -> Result<(), NoMemory> {
    if let Some(number) = meant(word, Unit::Bytes) {
        return draft.push_number(number);
    }
    match word {
        "R" | "read" | "reads" | "READ" => draft.push("r"),
        "W" | "write" | "writes" | "WRITE" => draft.push("w"),
        _ => draft.push(feature_near(alloc, word)?),
    }
}

/// Adds the number of feature words, where so many words follow the word at its place: a number there is taken for a
/// wrong count, another word for the first feature.
pub(crate) fn push_count(draft: &mut Draft, word: &str, following: u64) -> Result<(), NoMemory> {
    if plain(word).is_some() {
        return draft.push_number(following);
    }
    draft.push_number(following.saturating_add(1))?;
    draft.push(word)
}
