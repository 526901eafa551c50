use lab_advice::{Remedy, Spot};
use lab_guess::with_word;
use lab_outline::Spotted;
use lab_refusal::Rule;
use lab_sector::NoMemory;
use std::alloc::Global;

/// How many words of a line are looked at.
const MOST: usize = 40;

/// The remedy of a flakey line with a feature that reads haven't, if it is one: they can't be dropped, but fail.
pub fn no_feature(
    alloc: Global,
    rule: Rule,
    spotted: Spotted<'_>,
) -> Result<Option<Remedy>, NoMemory> {
    let mut words = spotted.line.split_whitespace().take(MOST);
    let Some(place) = words
        .position(is_of_reads)
        .filter(|_| rule == Rule::Feature)
    else {
        return Ok(None);
    };
    let word = spotted.word(place);
    let why = format!(in alloc;
        "`{word}` is none of flakey's features: reads can't be dropped, `error_reads` lets them fail"
    )?;
    let line = with_word(alloc, spotted.line, place, "error_reads")?;
    Ok(Some(Remedy::of(alloc, why).or(Spot::On(spotted.number), line)?))
}

/// Whether a word names what is done to reads elsewhere.
fn is_of_reads(word: &str) -> bool {
    matches!(
        word,
        "drop_reads" | "drop_read" | "fail_reads" | "read_errors"
    )
}
