use lab_advice::Remedy;
use lab_guess::{Draft, SCALES, Unit, is_command, meant, time_meant, with_joined_units};
use lab_outline::Spotted;
use lab_sector::NoMemory;
use std::alloc::Global;

/// How many bytes a line has at most that is told in two.
const LONGEST: usize = 200;

/// The remedy of a command with a time before it or behind it, as `at 5s load m bad`, if a line is one: the sleep, and the
/// command below it.
pub fn timed_command(alloc: Global, spotted: Spotted<'_>) -> Result<Option<Remedy>, NoMemory> {
    if LONGEST < spotted.line.len() {
        return Ok(None);
    }
    let joined = with_joined_units(alloc, spotted.line)?;
    let line = Spotted {
        number: spotted.number,
        line: joined.as_str(),
    };
    if has_unit(line.word(0)) {
        return parted(alloc, line, 0, 1);
    }
    let last = line.line.split_whitespace().count().saturating_sub(2);
    for place in [0, last] {
        if is_when(line.word(place)) {
            if let Some(remedy) = parted(alloc, line, place, 2)? {
                return Ok(Some(remedy));
            }
        }
    }
    Ok(None)
}

/// The remedy of the command without so many words from this place on, the last of which is its time.
fn parted(
    alloc: Global,
    line: Spotted<'_>,
    place: usize,
    count: usize,
) -> Result<Option<Remedy>, NoMemory> {
    let end = place.saturating_add(count);
    let Some(time) = first_meant(bare(line.word(end.saturating_sub(1)))) else {
        return Ok(None);
    };
    let mut draft = Draft::new(alloc);
    for (at, word) in line.line.split_whitespace().enumerate() {
        if at < place || end <= at {
            draft.push(word)?;
        }
    }
    let command = draft.line();
    if !is_command(command.as_str()) {
        return Ok(None);
    }
    let why = format!(in alloc;
        "a command has no time of its own: write `sleep {time}` on this line, in microseconds from the line before it, and \
         `{command}` on a line of its own below it"
    )?;
    Ok(Some(Remedy::of(alloc, why)))
}

/// A word without the marks behind it.
fn bare(word: &str) -> &str {
    word.trim_end_matches(|c: char| matches!(c, ':' | ',' | ';'))
}

/// Whether a word is a time with its unit.
fn has_unit(word: &str) -> bool {
    meant(bare(word), Unit::Microseconds).is_some() && word.contains('s')
}

/// The likeliest time that a word stands for, in microseconds.
pub fn first_meant(word: &str) -> Option<u64> {
    for scale in SCALES {
        if let Some(time) = time_meant(word, scale) {
            return Some(time);
        }
    }
    None
}

/// Whether a word stands before the time of a command.
fn is_when(word: &str) -> bool {
    matches!(
        word,
        "at" | "after" | "in" | "@" | "AT" | "At" | "After" | "when" | "t=" | "time"
    )
}
