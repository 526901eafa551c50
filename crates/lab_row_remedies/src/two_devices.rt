use lab_advice::Remedy;
use lab_guess::{is_device, words_from};
use lab_outline::{Outline, Spotted, plain};
use lab_sector::NoMemory;
use std::alloc::Global;

/// How many bytes a line has at most that is told in two.
const LONGEST: usize = 200;

/// What is told of a linear or a dust line with a second device, and of a delay line with a fourth, if it is one: the two
/// lines that the former stands for.
pub(crate) fn two_devices(
    alloc: Global,
    outline: &Outline<'_>,
    spotted: Spotted<'_>,
) -> Result<Option<Remedy>, NoMemory> {
    let place = match spotted.word(2) {
        "linear" => 5,
        "dust" => 6,
        "delay" => 12,
        _ => usize::MAX,
    };
    if !is_device(spotted.word(3))
        || !is_device(spotted.word(place))
        || LONGEST < spotted.line.len()
    {
        return Ok(None);
    }
    if spotted.word(2) == "delay" {
        let why =
            "a delay line has at most three groups DEVICE OFFSET MILLISECONDS: for reads, for writes and trims, for flushes";
        return Ok(Some(Remedy::told(alloc, why)?));
    }
    let why = match two_lines_of(alloc, outline, spotted)? {
        Some(lines) => lines,
        None => lines_without_lengths(alloc, spotted, place)?,
    };
    Ok(Some(Remedy::of(alloc, why)))
}

/// What is told of a line with another device at this place, where the lengths on the two aren't known.
fn lines_without_lengths(
    alloc: Global,
    spotted: Spotted<'_>,
    place: usize,
) -> Result<String, NoMemory> {
    let (start, length, kind) = (spotted.word(0), spotted.word(1), spotted.word(2));
    let first = words_from(alloc, spotted.line, 3, place.saturating_sub(3))?;
    let second = words_from(alloc, spotted.line, place, usize::MAX)?;
    Ok(format!(in alloc;
        "a {kind} line has one DEVICE: write `{start} LENGTH {kind} {first}` here, and `START LENGTH {kind} {second}` on a line \
         below it, whose START is where the first one ends; the two LENGTHs are {length} together"
    )?)
}

/// What is told of a linear line with two devices, each with its offset, where both together have as many sectors behind
/// them as the line.
fn two_lines_of(
    alloc: Global,
    outline: &Outline<'_>,
    spotted: Spotted<'_>,
) -> Result<Option<String>, NoMemory> {
    let (start, length) = (spotted.word(0), plain(spotted.word(1)));
    let (first, offset) = (spotted.word(3), spotted.word(4));
    let (second, behind) = (spotted.word(5), spotted.word(6));
    let (own, other) = (
        sectors_behind(outline, spotted, 3),
        sectors_behind(outline, spotted, 5),
    );
    let middle = plain(start).unwrap_or(0).saturating_add(own);
    let is_whole = own != 0 && other != 0 && length == own.checked_add(other);
    if spotted.word(2) != "linear" || !is_whole || !spotted.word(7).is_empty() {
        return Ok(None);
    }
    Ok(Some(format!(in alloc;
        "a linear line has one DEVICE and OFFSET: write `{start} {own} linear {first} {offset}` here, and \
         `{middle} {other} linear {second} {behind}` on a line below it"
    )?))
}

/// How many sectors the device at this place of a line has from the offset behind it on; 0 where this isn't known.
fn sectors_behind(outline: &Outline<'_>, spotted: Spotted<'_>, place: usize) -> u64 {
    match plain(spotted.word(place.saturating_add(1))) {
        Some(offset) => outline
            .size_of(spotted.word(place), u64::MAX)
            .saturating_sub(offset),
        None => 0,
    }
}
