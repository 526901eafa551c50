use lab_guess::{Draft, Unit, is_type, meant, start_wanted, with_extent};
use lab_outline::{Outline, Spotted, plain};
use lab_rule_remedies::row_below;
use lab_sector::NoMemory;
use std::alloc::Global;

/// How many words a line has at most whose length is sought.
const MOST: usize = 40;

/// The table line with its device's size behind the offset as its length, where what stands there is no number: a variable
/// of a shell, a command, or a word.
pub(crate) fn length_meant(
    alloc: Global,
    outline: &Outline<'_>,
    spotted: Spotted<'_>,
) -> Result<Option<String>, NoMemory> {
    let Some(place) = place_of_type(spotted.line) else {
        return Ok(None);
    };
    if place < 2 || has_number_before(spotted.line, place) {
        return Ok(None);
    }
    let length = match to_below(outline, spotted) {
        Some(length) => length,
        None => size_behind(outline, spotted, place),
    };
    if length == 0 {
        return Ok(None);
    }
    let mut draft = Draft::new(alloc);
    draft.push(spotted.word(0))?;
    draft.push_number(length)?;
    for word in spotted.line.split_whitespace().skip(place) {
        draft.push(word)?;
    }
    Ok(draft.changed(spotted.line))
}

/// How many sectors lie between a line's start and that of the line below it in its table.
fn to_below(outline: &Outline<'_>, spotted: Spotted<'_>) -> Option<u64> {
    let below = row_below(outline, spotted.number)?;
    let start = plain(spotted.word(0))?;
    plain(below.spotted.word(0))?.checked_sub(start)
}

/// The table line with its start or its length, where it lacks one before its type.
pub(crate) fn extent_meant(
    alloc: Global,
    bytes: &[u8],
    outline: &Outline<'_>,
    spotted: Spotted<'_>,
) -> Result<Option<String>, NoMemory> {
    let start = start_wanted(bytes, spotted.number);
    match place_of_type(spotted.line) {
        Some(place) if place < 2 => with_extent(
            alloc,
            spotted.line,
            start,
            size_behind(outline, spotted, place),
        ),
        _ => Ok(None),
    }
}

/// The place of a line's type, counted from 0.
fn place_of_type(line: &str) -> Option<usize> {
    if MOST < line.split_whitespace().count() {
        return None;
    }
    line.split_whitespace().position(is_type)
}

/// Whether a number stands between a line's start and its type at this place.
fn has_number_before(line: &str, place: usize) -> bool {
    line.split_whitespace().take(place).skip(1).any(|word| plain(word)
        .or(meant(word, Unit::Sectors))
        .is_some())
}

/// How many sectors the device of a line has behind its offset, where the line's type stands at this place; 0 where it isn't
/// known.
fn size_behind(outline: &Outline<'_>, spotted: Spotted<'_>, place: usize) -> u64 {
    let device = spotted.word(place.saturating_add(1));
    let offset = plain(spotted.word(place.saturating_add(2))).unwrap_or(0);
    outline.size_of(device, u64::MAX).saturating_sub(offset)
}
