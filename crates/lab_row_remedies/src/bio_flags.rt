use lab_advice::{Remedy, Spot};
use lab_guess::{value_meant, with_word};
use lab_outline::{Spotted, plain};
use lab_sector::NoMemory;
use std::alloc::Global;

/// How many words a line has at most that is looked through.
const MOST: usize = 64;

/// How many letters a word has at most that is shown.
const SHOWN: usize = 40;

/// How far behind their feature the flags of a corrupted byte stand.
const BEHIND: usize = 4;

/// The remedy of a flakey line whose corrupt_bio_byte has flags that are no number, if it is one.
pub(crate) fn bio_flags(alloc: Global, spotted: Spotted<'_>) -> Result<Option<Remedy>, NoMemory> {
    let mut words = spotted.line.split_whitespace().take(MOST);
    let Some(place) = words.position(|word| word == "corrupt_bio_byte") else {
        return Ok(None);
    };
    let at = place.saturating_add(BEHIND);
    let (value, flags) = (spotted.word(at.saturating_sub(1)), spotted.word(at));
    let Some(value) = plain(value)
        .or(value_meant(value))
        .filter(|_| are_flags(flags))
    else {
        return Ok(None);
    };
    if spotted.word(2) != "flakey" {
        return Ok(None);
    }
    let number = at.saturating_add(1);
    let why = format!(in alloc;
        "word {number}, `{flags}`, is no number; the flags of corrupt_bio_byte are one, and bios have no flags here: with 0 all \
         are changed, with another number none"
    )?;
    let value = format!(in alloc; "{value}")?;
    let line = with_word(alloc, spotted.line, at, "0")?;
    let line = with_word(alloc, line.as_str(), at.saturating_sub(1), value.as_str())?;
    Ok(Some(Remedy::of(alloc, why).or(Spot::On(spotted.number), line)?))
}

/// Whether a word that is no number stands for flags: it begins with no small letter, or is `none`.
fn are_flags(word: &str) -> bool {
    let is_named = !word.starts_with(|c: char| c.is_ascii_lowercase()) || word == "none";
    let is_shown = !word.is_empty() && word.len() <= SHOWN;
    is_shown && is_named && plain(word).is_none() && !matches!(word, "#" | "//" | "/*")
}
