use crate::exchanged_event::exchanged_event;
use lab_advice::Place;
use lab_outline::{Near, Outline, Spotted, plain};
use lab_sector::NoMemory;
use lab_text::Lines;
use std::alloc::Global;
use std::str::from_utf8;

/// How many bytes an event has at most that is told.
const LONGEST: usize = 200;

/// Up to which number a near bio is sought.
const SOUGHT: u64 = 99;

/// The events of a history before one of its lines, as far as they tell what is lacking there.
#[derive(Clone, Copy)]
struct Before<'a> {
    /// The last one of them.
    last: &'a str,
    /// Whether the bio of this number is mapped.
    is_mapped: bool,
    /// Whether the bio of this number is released.
    is_released: bool,
    /// Whether this very event stands there.
    is_done: bool,
    /// The greatest number of a bio.
    greatest: u64,
    /// How many bios they make at most: one for each line of a log, and one for each line of all tables at a map.
    made: u64,
}

/// Which event may be lacking before one that may not come where it stands; no words where none seems to.
pub(crate) fn lacking_event(
    alloc: Global,
    bytes: &[u8],
    place: Place<'_>,
) -> Result<String, NoMemory> {
    let line = from_utf8(place.line).unwrap_or("");
    let event = Spotted {
        number: place.number,
        line,
    };
    let outline = Outline::of(alloc, bytes)?;
    let before = before_line(bytes, &outline, event, place.within);
    if LONGEST < line.len() {
        return Ok(String::new(alloc));
    }
    if before.is_done {
        return Ok(format!(in alloc; ": `{line}` stands above it already")?);
    }
    let logs = outline.logs.len() as u64;
    let log = plain(event.word(1)).unwrap_or(1);
    if event.word(0) == "line" && (log == 0 || logs < log) {
        return Ok(format!(in alloc; ": the logs are counted from 1, and the bundle has {logs}")?);
    }
    if is_of_bio(event.word(0)) && before.made < log {
        return unborn(alloc, bytes, &outline, event, place.within);
    }
    match exchanged_event(alloc, bytes, event)? {
        Some(why) => Ok(why),
        None => lacking_before(alloc, &outline, event, before),
    }
}

/// What is told of an event of a bio of a number that no bio has yet: the only one within a letter of it whose event may come.
fn unborn(
    alloc: Global,
    bytes: &[u8],
    outline: &Outline<'_>,
    event: Spotted<'_>,
    within: u64,
) -> Result<String, NoMemory> {
    let (verb, number) = (event.word(0), event.word(1));
    let made = before_line(bytes, outline, event, within).made;
    let mut near = Near::to(alloc, number);
    for bio in 1..made.min(SOUGHT).saturating_add(1) {
        let line = format!(in alloc; "{verb} {bio}")?;
        let other = Spotted {
            number: event.number,
            line: line.as_str(),
        };
        let mut own = Near::to(alloc, number);
        own.add_word(alloc, other.word(1))?;
        if !own.words.is_empty() && !before_line(bytes, outline, other, within).is_done {
            near.add_word(alloc, other.word(1))?;
        }
    }
    let mut why = format!(in alloc; ": no bio {number} lives yet")?;
    if let [only] = near.words.as_slice() {
        why.push_str(format!(in alloc; ", and `{verb} {only}` may be meant")?.as_str())?;
    }
    Ok(why)
}

/// Whether a word is that of an event of a bio.
fn is_of_bio(word: &str) -> bool {
    matches!(word, "map" | "serve" | "release" | "finish")
}

/// Which event may be lacking right before one, by what the events before it tell.
fn lacking_before(
    alloc: Global,
    outline: &Outline<'_>,
    event: Spotted<'_>,
    before: Before<'_>,
) -> Result<String, NoMemory> {
    let wanted = before.greatest.saturating_add(1);
    let number = plain(event.word(1)).unwrap_or(0).min(wanted);
    match event.word(0) {
        "serve" | "release" | "finish" if !before.is_mapped && before.last == "line" => Ok(
            format!(in alloc;
                ": a request to a mapped device is mapped, then its pieces are served, then it is finished, and no \
             `map {number}` stands above it"
            )?,
        ),
        "finish" if before.is_mapped && before.last == "map" => Ok(format!(in alloc;
            ": a request is finished once the pieces are served that its `map {number}` made, and no `serve` stands \
             between the two"
        )?),
        "release" => Ok(String::from_str(
            alloc,
            ": `release` is for a bio that is held, as by a delay line",
        )?),
        "map" | "serve" if !before.is_released && has_delay(outline) => Ok(format!(in alloc;
            ": a bio that a delay line holds goes on by its `release`, and no `release {number}` stands above it"
        )?),
        _ => Ok(String::new(alloc)),
    }
}

/// Whether a table has a line of delay.
fn has_delay(outline: &Outline<'_>) -> bool {
    outline.rows.iter().any(|it| it.spotted.word(2) == "delay")
}

/// What the events before a line tell, so many lines below its heading.
fn before_line<'a>(
    bytes: &'a [u8],
    outline: &Outline<'_>,
    event: Spotted<'_>,
    within: u64,
) -> Before<'a> {
    let rows = outline.rows.len() as u64;
    let heading = event.number.saturating_sub(within);
    let mut before = Before {
        last: "",
        is_mapped: false,
        is_released: false,
        is_done: false,
        greatest: 0,
        made: 0,
    };
    let mut number = 0u64;
    for bare in Lines::new(bytes) {
        number = number.saturating_add(1);
        let line = from_utf8(bare).unwrap_or("");
        let other = Spotted { number, line };
        if heading < number && number < event.number && !other.word(0).is_empty() {
            before = before.then(other, event, rows);
        }
    }
    before
}

impl<'a> Before<'a> {
    /// What is told with one event more, as to this later one; a map makes as many bios as there are rows, at most.
    fn then(self, other: Spotted<'a>, event: Spotted<'_>, rows: u64) -> Before<'a> {
        let is_of_bio = is_of_bio(other.word(0));
        let made = match other.word(0) {
            "line" => 1,
            "map" => rows,
            _ => 0,
        };
        let is_same = is_of_bio && other.word(1) == event.word(1);
        let number = if is_of_bio {
            plain(other.word(1)).unwrap_or(0)
        } else {
            0
        };
        Before {
            last: other.word(0),
            is_mapped: self.is_mapped || (is_same && other.word(0) == "map"),
            is_released: self.is_released || (is_same && other.word(0) == "release"),
            is_done: self.is_done || (is_same && other.word(0) == event.word(0)),
            greatest: self.greatest.max(number),
            made: self.made.saturating_add(made),
        }
    }
}
