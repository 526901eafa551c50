use lab_advice::{Remedy, Spot};
use lab_guess::{Draft, is_type};
use lab_outline::{Spotted, plain};
use lab_sector::NoMemory;
use std::alloc::Global;

/// How many words a line has at most whose type is sought.
const MOST: usize = 40;

/// The remedy of a table's line whose type stands behind its device, if it is one: it with the type as its third word.
pub(crate) fn late_type(alloc: Global, spotted: Spotted<'_>) -> Result<Option<Remedy>, NoMemory> {
    let words = spotted.line.split_whitespace().take(MOST);
    let place = words
        .skip(3)
        .position(is_type)
        .unwrap_or(0)
        .saturating_add(3);
    let are_numbers = plain(spotted.word(0)).and(plain(spotted.word(1))).is_some();
    let (third, kind) = (spotted.word(2), spotted.word(place));
    if !are_numbers || !third.starts_with("/dev/") || !is_type(kind) {
        return Ok(None);
    }
    let mut draft = Draft::new(alloc);
    for (at, word) in spotted.line.split_whitespace().take(MOST).enumerate() {
        if at == 2 {
            draft.push(kind)?;
        }
        if at != place {
            draft.push(word)?;
        }
    }
    let why =
        "the TYPE is the third word of a line, before its device: a table line is START LENGTH TYPE ARGUMENTS";
    Ok(Some(Remedy::told(alloc, why)?.or(Spot::On(spotted.number), draft.line())?))
}
