use lab_advice::{Remedy, Spot};
use lab_guess::with_word;
use lab_outline::{Spotted, plain};
use lab_sector::NoMemory;
use std::alloc::Global;

/// Where flakey's UP stands, counted from 0.
const UP_AT: usize = 5;

/// Where flakey's DOWN stands, counted from 0.
const DOWN_AT: usize = 6;

/// The remedy of a flakey line that is always up or down and says so by a word for a time without an end, if it is one.
pub fn endless_remedy(alloc: Global, spotted: Spotted<'_>) -> Result<Option<Remedy>, NoMemory> {
    if spotted.word(2) != "flakey" {
        return Ok(None);
    }
    let (up, down) = (spotted.word(UP_AT), spotted.word(DOWN_AT));
    let (why, place) = if plain(up) == Some(0) && is_endless(down) {
        (
            "a line with UP 0 is always down, with any DOWN from 1 on",
            DOWN_AT,
        )
    } else if plain(down) == Some(0) && is_endless(up) {
        (
            "a line with DOWN 0 is always up, with any UP from 1 on",
            UP_AT,
        )
    } else {
        return Ok(None);
    };
    let line = with_word(alloc, spotted.line, place, "1")?;
    Ok(Some(Remedy::told(alloc, why)?.or(Spot::On(spotted.number), line)?))
}

/// Whether a word stands for a time without an end.
fn is_endless(word: &str) -> bool {
    let words = "-1 forever inf infinite infinity Inf INF endless always ever max";
    words.split_whitespace().any(|it| it == word)
}

/// Offers a flakey line whose UP and DOWN are both 0 as one that is always down, and as one that is always up.
pub fn offer_always(
    alloc: Global,
    remedy: &mut Remedy,
    spotted: Spotted<'_>,
) -> Result<(), NoMemory> {
    let (up, down) = (plain(spotted.word(UP_AT)), plain(spotted.word(DOWN_AT)));
    if spotted.word(2) != "flakey" || up != Some(0) || down != Some(0) {
        return Ok(());
    }
    for place in [DOWN_AT, UP_AT] {
        let line = with_word(alloc, spotted.line, place, "1")?;
        remedy.offer(0, Spot::On(spotted.number), line)?;
    }
    Ok(())
}
