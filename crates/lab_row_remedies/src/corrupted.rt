use lab_advice::{Remedy, Spot};
use lab_guess::{Draft, with_word};
use lab_outline::{Spotted, plain};
use lab_sector::NoMemory;
use std::alloc::Global;

/// Where the number of the features' words stands in a flakey line, counted from 0.
const COUNT_AT: usize = 7;

/// How many words a line has at most that is looked through.
const MOST: usize = 64;

/// The remedy of a line whose corrupt_bio_byte has byte 0, or no `r` and no `w`, if it is one.
pub(crate) fn corrupted_remedy(
    alloc: Global,
    spotted: Spotted<'_>,
) -> Result<Option<Remedy>, NoMemory> {
    let mut words = spotted.line.split_whitespace().take(MOST);
    let Some(place) = words.position(|word| word == "corrupt_bio_byte") else {
        return Ok(None);
    };
    let (at, next) = (place.saturating_add(1), place.saturating_add(2));
    let (byte, side) = (spotted.word(at), spotted.word(next));
    if place <= COUNT_AT || plain(byte).is_none() {
        return Ok(None);
    }
    if plain(side).is_some() {
        return Ok(Some(sideless(alloc, spotted, next)?));
    }
    if plain(byte) != Some(0) {
        return Ok(None);
    }
    let word = at.saturating_add(1);
    let why = format!(in alloc;
        "word {word} is `{byte}`, and corrupt_bio_byte takes a byte from 1 on: the first of a request is 1"
    )?;
    let line = with_word(alloc, spotted.line, at, "1")?;
    Ok(Some(Remedy::of(alloc, why).or(Spot::On(spotted.number), line)?))
}

/// The remedy of a line that lacks the `r` or the `w` at this place: with each of the two.
fn sideless(alloc: Global, spotted: Spotted<'_>, place: usize) -> Result<Remedy, NoMemory> {
    let why =
        "corrupt_bio_byte has `r`, for reads, or `w`, for writes, behind its byte: corrupt_bio_byte N r|w V F";
    let mut remedy = Remedy::told(alloc, why)?;
    let count = spotted
        .line
        .split_whitespace()
        .count()
        .saturating_sub(COUNT_AT) as u64;
    for side in ["r", "w"] {
        let mut draft = Draft::new(alloc);
        for (at, word) in spotted.line.split_whitespace().enumerate() {
            if at == place {
                draft.push(side)?;
            }
            if at == COUNT_AT {
                draft.push_number(count)?;
            } else {
                draft.push(word)?;
            }
        }
        remedy.offer(0, Spot::On(spotted.number), draft.line())?;
    }
    Ok(remedy)
}
