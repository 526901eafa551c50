use crate::draft::Draft;
use crate::numbers::has_point;
use lab_outline::plain;
use lab_sector::NoMemory;
use std::alloc::Global;

/// How many bytes a line has at most that is joined.
const LONGEST: usize = 200;

/// The units that may stand behind a number as words of their own.
const UNITS: &str =
    "% s ms us sec secs second seconds msec msecs millisecond milliseconds usec usecs microsecond microseconds min minute \
     minutes h hour hours k K kB KB kiB KiB MB MiB byte bytes sector sectors";

/// The line in which each unit that is a word of its own stands right behind its number: `1 s` is `1s`.
pub fn with_joined_units(alloc: Global, line: &str) -> Result<String, NoMemory> {
    if LONGEST < line.len() {
        return Ok(String::from_str(alloc, line)?);
    }
    let mut text = String::new(alloc);
    for (place, word) in line.split_whitespace().enumerate() {
        if place != 0 && !is_unit_at(line, place) {
            text.push_str(" ")?;
        }
        text.push_str(word)?;
    }
    Ok(text)
}

/// Whether the word at this place is a unit behind a number.
fn is_unit_at(line: &str, place: usize) -> bool {
    let mut words = line.split_whitespace().skip(place.saturating_sub(1));
    let number = words.next().unwrap_or("");
    let unit = words.next().unwrap_or("");
    (plain(number).is_some() || has_point(number)) && is_unit(unit)
}

/// Whether a word is a unit of time, of size, or of a chance.
fn is_unit(word: &str) -> bool {
    UNITS.split_whitespace().any(|it| it == word)
}

/// The line whose numbers have no letter behind them that stands for a size; nothing where none has.
pub fn without_suffixes(alloc: Global, line: &str) -> Result<Option<String>, NoMemory> {
    let mut draft = Draft::new(alloc);
    for word in line.split_whitespace() {
        let bare = word.strip_suffix(is_size_mark).unwrap_or(word);
        draft.push(if plain(bare).is_some() { bare } else { word })?;
    }
    Ok(draft.changed(line))
}

/// Whether the letter stands for a size behind a number: sectors, bytes or thousands.
fn is_size_mark(letter: char) -> bool {
    matches!(letter, 's' | 'b' | 'B' | 'k' | 'K')
}
