use crate::draft::Draft;
use crate::flakey::{COUNT_AT, feature_near};
use crate::targets::is_type;
use lab_outline::plain;
use lab_sector::NoMemory;
use std::alloc::Global;

/// How many bytes a line has at most that is mended.
const LONGEST: usize = 2000;

/// The flakey line whose features stand apart, though commas join them, with the flags that `corrupt_bio_byte` lacks, and
/// with the right count before them; nothing where the line is so, or has no features.
pub fn with_features(alloc: Global, line: &str) -> Result<Option<String>, NoMemory> {
    if LONGEST < line.len() || line.split_whitespace().nth(2) != Some("flakey") {
        return Ok(None);
    }
    let features = features_of(alloc, line)?;
    let count = features.as_str().split_whitespace().count() as u64;
    if count == 0 {
        return Ok(None);
    }
    let mut draft = Draft::new(alloc);
    for word in line.split_whitespace().take(COUNT_AT) {
        draft.push(word)?;
    }
    draft.push_number(count)?;
    draft.push(features.as_str())?;
    Ok(draft.changed(line))
}

/// The flakey line whose features have their number of words behind them, with it before them; nothing of another line.
pub fn with_count_first(alloc: Global, line: &str) -> Result<Option<String>, NoMemory> {
    let words = line.split_whitespace().count();
    let features = words.saturating_sub(COUNT_AT + 1);
    let last = line.split_whitespace().last().unwrap_or("");
    let is_flakey = line.split_whitespace().nth(2) == Some("flakey");
    if LONGEST < line.len() || !is_flakey || features == 0 || plain(last) != Some(features as u64) {
        return Ok(None);
    }
    let mut draft = Draft::new(alloc);
    for word in line.split_whitespace().take(COUNT_AT) {
        draft.push(word)?;
    }
    draft.push(last)?;
    for word in line.split_whitespace().skip(COUNT_AT).take(features) {
        draft.push(feature_near(alloc, word)?)?;
    }
    Ok(draft.changed(line))
}

/// The features of a flakey line, without the count before them, one behind the other.
fn features_of(alloc: Global, line: &str) -> Result<String, NoMemory> {
    let mut draft = Draft::new(alloc);
    let mut lacking = 0u64;
    let mut begun = false;
    for words in line.split_whitespace().skip(COUNT_AT) {
        for word in words.split(',') {
            begun = begun || plain(word).is_none();
            if begun {
                lacking = push_feature(alloc, &mut draft, lacking, word)?;
            }
        }
    }
    push_flags(&mut draft, lacking)?;
    Ok(draft.line())
}

/// Adds a word of the features, behind the flags that the one before lacks; answers how many of four values are lacking
/// then.
fn push_feature(
    alloc: Global,
    draft: &mut Draft,
    lacking: u64,
    word: &str,
) -> Result<u64, NoMemory> {
    let feature = feature_near(alloc, word)?;
    if !is_feature(feature) {
        draft.push(word)?;
        return Ok(lacking.saturating_sub(1));
    }
    push_flags(draft, lacking)?;
    draft.push(feature)?;
    Ok(if feature == "corrupt_bio_byte" { 4 } else { 0 })
}

/// Adds the flags 0 where they alone are lacking.
fn push_flags(draft: &mut Draft, lacking: u64) -> Result<(), NoMemory> {
    if lacking == 1 {
        draft.push("0")
    } else {
        Ok(())
    }
}

/// Whether a word is a feature of flakey.
pub fn is_feature(word: &str) -> bool {
    matches!(
        word,
        "error_reads"
            | "drop_writes"
            | "error_writes"
            | "corrupt_bio_byte"
            | "random_read_corrupt"
            | "random_write_corrupt"
    )
}

/// The feature of flakey that a line of another type has, if it has one.
pub fn foreign_feature(line: &str) -> Option<&str> {
    let kind = line.split_whitespace().nth(2).unwrap_or("");
    if kind == "flakey" || !is_type(kind) {
        return None;
    }
    line.split_whitespace().find(|word| is_feature(word))
}
