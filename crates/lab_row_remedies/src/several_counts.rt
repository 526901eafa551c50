use lab_advice::{Remedy, Spot};
use lab_guess::Draft;
use lab_outline::Spotted;
use lab_sector::NoMemory;
use std::alloc::Global;

/// Where the number of the features' words stands in a flakey line, counted from 0.
const COUNT_AT: usize = 7;

/// Offers a flakey line whose features have one COUNT before all of them.
pub fn offer_counts(
    alloc: Global,
    remedy: &mut Remedy,
    spotted: Spotted<'_>,
) -> Result<(), NoMemory> {
    if spotted.word(2) != "flakey" {
        return Ok(());
    }
    let count = count_of(spotted.line);
    let spot = Spot::On(spotted.number);
    match with_one_count(alloc, spotted.line, count)? {
        Some(line) => remedy.offer(0, spot, line),
        None => Ok(()),
    }
}

/// How many words of a line are features without values.
fn count_of(line: &str) -> u64 {
    let mut count = 0u64;
    for word in line.split_whitespace() {
        if is_bare(word) {
            count = count.saturating_add(1);
        }
    }
    count
}

/// Whether a word is a feature of flakey without values.
fn is_bare(word: &str) -> bool {
    matches!(word, "drop_writes" | "error_writes" | "error_reads")
}

/// The line with this count before all its features, where each has a count of one before it; nothing for another line.
fn with_one_count(alloc: Global, line: &str, count: u64) -> Result<Option<String>, NoMemory> {
    let mut draft = Draft::new(alloc);
    for (at, word) in line.split_whitespace().enumerate() {
        if at == COUNT_AT {
            draft.push_number(count)?;
        }
        if at < COUNT_AT || is_bare(word) {
            draft.push(word)?;
        } else if word != "1" {
            return Ok(None);
        }
    }
    Ok(draft.changed(line))
}
