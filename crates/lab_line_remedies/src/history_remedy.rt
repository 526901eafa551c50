use crate::lacking_event::lacking_event;
use lab_advice::{Place, Remedy, Spot};
use lab_guess::{Draft, is_event};
use lab_outline::{Outline, Spotted, nearest_of, plain};
use lab_refusal::Rule;
use lab_sector::NoMemory;
use std::alloc::Global;

/// The remedy of a history that can't be read, or isn't there.
pub fn history_remedy(
    alloc: Global,
    outline: &Outline<'_>,
    rule: Rule,
    spotted: Option<Spotted<'_>>,
) -> Result<Remedy, NoMemory> {
    if rule == Rule::Missing {
        return Remedy::told(
            alloc,
            "the bundle has no history to audit: put behind it what `sim --history` writes from `== history` on",
        );
    }
    if let Some((line, place)) = log_named(outline, spotted) {
        return numbered_log(alloc, line, place);
    }
    let why = if spotted.is_some_and(is_of_trace) {
        "place and clock stand before the event, as in a trace: `cut -f 3` of all its lines but the first makes the \
         history"
    } else {
        "a line of a history is `control`, `clock`, or one of `line`, `map`, `serve`, `release` and `finish` with one number \
         behind it"
    };
    let remedy = Remedy::told(alloc, why)?;
    match spotted {
        Some(spotted) => remedy.or_if(Spot::On(spotted.number), event_meant(alloc, spotted)?),
        None => Ok(remedy),
    }
}

/// Whether a line begins as one of a trace does: with its first columns' names, or a place and a clock before an event.
fn is_of_trace(spotted: Spotted<'_>) -> bool {
    let (place, clock, event) = (spotted.word(0), spotted.word(1), spotted.word(2));
    let are_numbers = plain(place).and(plain(clock)).is_some();
    are_numbers && is_event(event) || matches!((place, clock), ("place", "clock"))
}

/// The line of a history that has a log's name in the place of its number, and this number.
fn log_named<'a>(
    outline: &Outline<'_>,
    spotted: Option<Spotted<'a>>,
) -> Option<(Spotted<'a>, u64)> {
    let line = spotted?;
    let name = line.word(1);
    if !matches!(line.word(0), "line" | "log") || plain(name).is_some() {
        return None;
    }
    let place = outline.logs.iter().position(|log| log.line == name)? as u64;
    Some((line, place.saturating_add(1)))
}

/// The remedy of such a line.
fn numbered_log(alloc: Global, line: Spotted<'_>, number: u64) -> Result<Remedy, NoMemory> {
    let name = line.word(1);
    let why = format!(in alloc;
        "`line` has a log's number behind it, counted from 1 in the order of the bundle: the log {name} is {number}"
    )?;
    Remedy::of(alloc, why).or(Spot::On(line.number), format!(in alloc; "line {number}")?)
}

/// The event that a line means: its first word by the nearest name, and its number; behind a place and a moment, as a
/// trace has them, too.
fn event_meant(alloc: Global, spotted: Spotted<'_>) -> Result<Option<String>, NoMemory> {
    for place in 0..3 {
        let word = spotted.word(place).trim_end_matches(is_mark);
        let name = word.trim_end_matches(|c: char| c.is_ascii_digit());
        if let Some(event) = event_near(alloc, name)? {
            let behind = word.strip_prefix(name).unwrap_or("");
            let next = spotted.word(place.saturating_add(1)).trim_matches(is_mark);
            let mut draft = Draft::new(alloc);
            draft.push(event)?;
            if !matches!(event, "control" | "clock") {
                draft.push(if behind.is_empty() { next } else { behind })?;
            }
            return Ok(draft.changed(spotted.line));
        }
        if plain(word).is_none() {
            return Ok(None);
        }
    }
    Ok(None)
}

/// Whether the letter is a mark behind a word, or before a number.
fn is_mark(letter: char) -> bool {
    matches!(letter, '.' | ',' | ';' | ':' | '#' | '(' | ')' | '"')
}

/// The event that a word means, or that is nearest to it.
fn event_near(alloc: Global, word: &str) -> Result<Option<&'static str>, NoMemory> {
    match word {
        "log" => Ok(Some("line")),
        "script" | "ctl" | "ctrl" | "command" | "cmd" => Ok(Some("control")),
        "tick" | "time" => Ok(Some("clock")),
        _ => nearest_of(alloc, word, "control clock line map serve release finish"),
    }
}

/// The remedy of an event that may not come where it stands.
pub fn not_a_run(
    alloc: Global,
    bytes: &[u8],
    place: Option<Place<'_>>,
) -> Result<Remedy, NoMemory> {
    let lacking = match place {
        Some(place) => lacking_event(alloc, bytes, place)?,
        None => String::new(alloc),
    };
    let why = format!(in alloc;
        "this event may not come here, though those before it may{lacking}; a history is taken whole from \
         `sim --history` or `threads --history` of this very bundle"
    )?;
    Ok(Remedy::of(alloc, why))
}

/// The remedy of a history that ends too early.
pub fn unfinished(alloc: Global) -> Result<Remedy, NoMemory> {
    Remedy::told(
        alloc,
        "the history ends before all is done: take it whole from `sim --history` or `threads --history` of this very \
         bundle",
    )
}
