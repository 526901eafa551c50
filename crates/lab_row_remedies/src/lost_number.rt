use crate::last_guesses::with_word_at;
use crate::table_reason::by_type;
use lab_advice::{Remedy, Spot};
use lab_guess::is_feature;
use lab_outline::{Spotted, plain};
use lab_sector::NoMemory;
use std::alloc::Global;

/// Where flakey's OFFSET stands, counted from 0.
const OFFSET_AT: usize = 4;

/// Where flakey's UP stands, counted from 0.
const UP_AT: usize = 5;

/// Where flakey's DOWN stands, counted from 0.
const DOWN_AT: usize = 6;

/// Where flakey's features begin where one of the numbers before them lacks, counted from 0.
const LACKING: usize = 7;

/// How many bytes a line has at most that is told with a number more.
const LONGEST: usize = 200;

/// The remedy of a flakey line that lacks one of its numbers, if it is one, with this offset for the one that it may lack:
/// UP and DOWN are told for example alone.
pub fn lost_number(
    alloc: Global,
    spotted: Spotted<'_>,
    offset: Option<u64>,
) -> Result<Option<Remedy>, NoMemory> {
    let (first, second, third) = (
        spotted.word(OFFSET_AT),
        spotted.word(UP_AT),
        spotted.word(DOWN_AT),
    );
    let are_numbers = plain(first).and(plain(second)).is_some();
    if spotted.word(2) != "flakey" || !are_numbers || LONGEST < spotted.line.len() {
        return Ok(None);
    }
    if third.is_empty() {
        return Ok(Some(without_down(alloc, spotted, offset)?));
    }
    let count = spotted.line.split_whitespace().skip(LACKING).count() as u64;
    if is_feature(spotted.word(LACKING)) && plain(third) == Some(count) {
        return Ok(Some(before_features(alloc, spotted, offset)?));
    }
    Ok(None)
}

/// The remedy of a line that has two numbers alone behind its device.
fn without_down(
    alloc: Global,
    spotted: Spotted<'_>,
    offset: Option<u64>,
) -> Result<Remedy, NoMemory> {
    let (form, line) = (by_type("flakey"), spotted.line.trim());
    let why = format!(in alloc;
        "a number is missing: {form}; with 5 seconds of DOWN for example: `{line} 5`"
    )?;
    let mut remedy = Remedy::of(alloc, why);
    offer_offset(alloc, &mut remedy, spotted, offset)?;
    Ok(remedy)
}

/// The remedy of a line that has three numbers before its features, the last of which may be their COUNT.
fn before_features(
    alloc: Global,
    spotted: Spotted<'_>,
    offset: Option<u64>,
) -> Result<Remedy, NoMemory> {
    let (feature, count) = (spotted.word(LACKING), spotted.word(DOWN_AT));
    let down = with_word_at(alloc, spotted.line, DOWN_AT, "5")?;
    let up = with_word_at(alloc, spotted.line, UP_AT, "5")?;
    let examples = if down.as_str() == up.as_str() {
        format!(in alloc; "with 5 seconds of UP or of DOWN for example: `{down}`")?
    } else {
        format!(in alloc; "with 5 seconds of DOWN for example: `{down}`, with 5 of UP: `{up}`")?
    };
    let why = format!(in alloc;
        "one number is missing before {feature}, OFFSET, UP, DOWN or COUNT: the line is `START LENGTH flakey DEVICE OFFSET UP \
         DOWN COUNT FEATURES`; {examples}"
    )?;
    let mut remedy = Remedy::of(alloc, why);
    offer_offset(alloc, &mut remedy, spotted, offset)?;
    let line = with_word_at(alloc, spotted.line, LACKING, count)?;
    remedy.offer(0, Spot::On(spotted.number), line)?;
    Ok(remedy)
}

/// Offers the line with this offset, where the first number may be its UP and no offset.
fn offer_offset(
    alloc: Global,
    remedy: &mut Remedy,
    spotted: Spotted<'_>,
    offset: Option<u64>,
) -> Result<(), NoMemory> {
    let may_lack = plain(spotted.word(OFFSET_AT)) != Some(0);
    let Some(offset) = offset.filter(|_| may_lack) else {
        return Ok(());
    };
    let offset = format!(in alloc; "{offset}")?;
    let line = with_word_at(alloc, spotted.line, OFFSET_AT, offset.as_str())?;
    remedy.offer(0, Spot::On(spotted.number), line)
}
