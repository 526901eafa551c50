use lab_advice::{Remedy, Spot};
use lab_guess::with_word;
use lab_outline::{Spotted, plain};
use lab_sector::NoMemory;
use std::alloc::Global;

/// At which places a delay line has its delays, counted from 0.
const DELAYS: [usize; 3] = [5, 8, 11];

/// The remedy of a delay with a point in it, if a line has one: it is taken for seconds.
pub(crate) fn delay_seconds(
    alloc: Global,
    spotted: Spotted<'_>,
) -> Result<Option<Remedy>, NoMemory> {
    if spotted.word(2) != "delay" {
        return Ok(None);
    }
    for place in DELAYS {
        let word = spotted.word(place);
        if let Some(time) = milliseconds_of(word) {
            let why = format!(in alloc;
                "`{word}` is no number; a delay counts whole milliseconds: {word} seconds are {time} of them"
            )?;
            let number = format!(in alloc; "{time}")?;
            let line = with_word(alloc, spotted.line, place, number.as_str())?;
            return Ok(Some(Remedy::of(alloc, why).or(Spot::On(spotted.number), line)?));
        }
    }
    Ok(None)
}

/// The milliseconds of a number of seconds with a point and one to three digits behind it.
fn milliseconds_of(word: &str) -> Option<u64> {
    let (whole, part) = word.split_once('.')?;
    let scale = match part.len() {
        1 => 100u64,
        2 => 10,
        3 => 1,
        _ => return None,
    };
    let seconds = plain(whole)?.checked_mul(1000)?;
    seconds.checked_add(plain(part)?.checked_mul(scale)?)
}
